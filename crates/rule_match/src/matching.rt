//! Whether a message matches a rule.
ghost use Rattle.std.specs.Prelude.{◌≡◌, ◌↔◌, ◌⊎◌, List, Some, IfSome, IsTrue, [], codes, false, unwrap_or};
ghost use Rattle.wire_tree.specs.Datum.{Datum};
ghost use Rattle.rule_match.specs.Below.{IsAtOrBelow};
ghost use Rattle.rule_match.specs.Accepting.{accepts, accepts_arguments, arguments_of};
ghost use Rattle.rule_match.specs.Matching.{HeaderMatches, IsDestination, IsPlace, IsSender, Matches, wanted_of};
ghost use Rattle.rule_match.specs.Sources.{arguments_from};
ghost use Rattle.rule_match.specs.Walking.{IsWalk};
ghost use Rattle.rule_match.specs.Wanted.{is_nothing};

use crate::below::is_at_or_below;
use crate::bytes::tell_bytes;
use crate::candidate::Candidate;
use crate::names::{is_wanted, namespace_of, same_text};
use crate::place::PathSpec;
use crate::rule::MatchRule;
use crate::sender::Sender;
use crate::walk::Walk;
use crate::wants::fits;
use wire_message::{Header, Message, MessageType};
use wire_value::{BusName, OwnedBusName, OwnedInterfaceName, OwnedMemberName, OwnedUniqueName};

fn is_kind(wanted: Option<MessageType>, header: &Header<'_>) -> bool
    ensures { IsTrue result ↔ IfSome wanted (λ kind. header.now.primary.msg_type ≡ kind) }
{
    match wanted {
        Some(kind) => header.message_type() == kind,
        None => true,
    }
}

fn is_sender(wanted: &Option<Sender>, header: &Header<'_>) -> bool
    ensures { IsTrue result ↔ IfSome wanted.now (IsSender header.now.fields.sender) }
{
    let Some(wanted) = wanted else {
        return true;
    };
    let OwnedBusName::Unique(wanted) = wanted.name() else {
        return true;
    };
    match header.sender() {
        Some(name) => same_text(name.as_str(), wanted.as_str()),
        None => false,
    }
}

fn is_interface(wanted: &Option<OwnedInterfaceName>, header: &Header<'_>) -> bool
    ensures { IsTrue result ↔ IfSome wanted.now (λ name. header.now.fields.interface ≡ Some name) }
{
    wanted.is_none() || is_wanted(wanted, header.interface())
}

fn is_member(wanted: &Option<OwnedMemberName>, header: &Header<'_>) -> bool
    ensures { IsTrue result ↔ IfSome wanted.now (λ name. header.now.fields.member ≡ Some name) }
{
    wanted.is_none() || is_wanted(wanted, header.member())
}

/// Whether a path is the namespace's or below it.
fn is_within(namespace: &str, path: &str) -> bool
    ensures { IsTrue result ↔ ((namespace.now ≡ codes "/") ⊎ IsAtOrBelow 47 namespace.now path.now) }
{
    same_text(namespace, "/") || is_at_or_below(b'/', namespace, path)
}

fn is_place(wanted: &Option<PathSpec>, header: &Header<'_>) -> bool
    ensures { IsTrue result ↔ IfSome wanted.now (IsPlace header.now.fields.path) }
{
    let Some(wanted) = wanted else {
        return true;
    };
    match (wanted, header.path()) {
        (PathSpec::Path(wanted), Some(path)) => same_text(path.as_str(), wanted.as_str()),
        (PathSpec::PathNamespace(wanted), Some(path)) => is_within(wanted.as_str(), path.as_str()),
        (_, None) => false,
    }
}

fn is_destination(wanted: &Option<OwnedUniqueName>, header: &Header<'_>) -> bool
    ensures { IsTrue result ↔ IfSome wanted.now (IsDestination header.now.fields.destination) }
{
    let Some(wanted) = wanted else {
        return true;
    };
    match header.destination() {
        Some(BusName::Unique(name)) => same_text(name.as_str(), wanted.as_str()),
        _ => true,
    }
}

impl MatchRule {
    /// Whether it wants nothing of a message's arguments.
    fn wants_no_argument(&self) -> bool
        ensures { result ≡ is_nothing (wanted_of self.now) }
    {
        self.args.as_slice().is_empty()
            && self.arg_paths.as_slice().is_empty()
            && self.arg0ns.is_none()
    }

    /// Whether a message's arguments, if all can be read, are those that are wanted.
    fn fits(&self, walk: &mut Walk<'_>) -> bool
        requires { IsWalk walk.old }
        ensures walk { IsWalk walk.new }
        ensures source { walk.new.source ≡ walk.old.source }
        ensures has { (ds : List Datum) → arguments_from walk.old.source ≡ Some ds → result ≡ accepts_arguments (wanted_of self.now) ds }
    {
        let strings = self.args.as_slice();
        let paths = self.arg_paths.as_slice();
        fits(strings, paths, namespace_of(&self.arg0ns), walk)
    }

    /// Whether a message's arguments are those that are wanted, where some are. The walk goes to the end only where all
    /// that is wanted fits, since what can't be read to the end has no arguments.
    pub(crate) fn accepts(&self, walk: &mut Walk<'_>) -> bool
        requires walk { IsWalk walk.old }
        requires wants { is_nothing (wanted_of self.now) ≡ false }
        ensures walk { IsWalk walk.new }
        ensures source { walk.new.source ≡ walk.old.source }
        ensures accepts { result ≡ accepts_arguments (wanted_of self.now) (unwrap_or (arguments_from walk.old.source) []) }
    {
        if !walk.may_be_readable() {
            return false;
        }
        self.fits(walk) && walk.is_readable()
    }

    /// Whether the message's arguments are those that are wanted. They are looked for only where some are.
    fn match_arguments(&self, candidate: &mut Candidate<'_>) -> bool
        ensures accepts { result ≡ accepts_arguments (wanted_of self.now) (unwrap_or (arguments_of candidate.old) []) }
        ensures same { candidate.new ≡ candidate.old }
    {
        self.wants_no_argument() || candidate.has_arguments(self)
    }

    /// Whether the message's header has what is wanted of it.
    fn match_header(&self, message: &Message) -> bool
        ensures { IsTrue result ↔ HeaderMatches self.now message.now }
    {
        let header = message.header();
        is_kind(self.kind, &header)
            && is_sender(&self.sender, &header)
            && is_interface(&self.interface, &header)
            && is_member(&self.member, &header)
            && is_place(&self.path, &header)
            && is_destination(&self.destination, &header)
    }

    /// Whether the message matches each part of the rule that is there. It takes no memory, and looks at the message's
    /// body only where its header matches and the rule wants something of its arguments; then once.
    ///
    /// A unique sender is to be the header's own, and a well-known one refuses no message. A path namespace accepts its
    /// path and all below it, by whole elements. A destination refuses only messages with another unique one. An
    /// argument path accepts a string or an object path whose text is equal to its own, or where one of the two texts
    /// ends with `/` and is a prefix of the other (D-Bus Specification, "Match Rules", `argNpath`). Arguments are those
    /// that the body encodes by its signature; where it can't be read so, it has none.
    ///
    /// The answer is stated twice: by the relation `Matches`, and as what the function `accepts` computes.
    ///
    /// # Examples
    ///
    /// ```
    /// use rule_match::MatchRule;
    /// use wire_message::{Message, NonePending, Serials};
    /// use wire_value::{MemberName, ObjectPath};
    /// let path = ObjectPath::try_from("/org/example")?;
    /// let call = Message::method_call(&path, &MemberName::try_from("Ping")?);
    /// let call = call.build_empty_uncounted(rt.alloc(), &mut Serials::new(), &NonePending)?;
    /// let rule = MatchRule::try_from(rt.alloc(), "path_namespace='/org'")?;
    /// assert!(rt; rule.matches(&call));
    /// Ok(())
    /// ```
    pub fn matches(&self, message: &Message) -> bool
        ensures matches { IsTrue result ↔ Matches self.now message.now }
        ensures accepts { result ≡ accepts self.now message.now }
    {
        self.matches_candidate(&mut Candidate::new(message))
    }

    /// The same of a message that several rules are tested against: its body is walked over at most once for all of
    /// them.
    pub fn matches_candidate(&self, candidate: &mut Candidate<'_>) -> bool
        ensures matches { IsTrue result ↔ Matches self.now candidate.old }
        ensures accepts { result ≡ accepts self.now candidate.old }
        ensures same { candidate.new ≡ candidate.old }
    {
        tell_bytes(candidate.message().data());
        self.match_header(candidate.message()) && self.match_arguments(candidate)
    }
}
