//! The rule itself.
ghost use Rattle.std.specs.Prelude.{◌≡◌, IfOk, codes};

use crate::arguments::{Argument, Arguments};
use crate::building::Builder;
use crate::component::{rule_in, rule_in_bytes};
use crate::names::copy_of;
use crate::place::PathSpec;
use crate::sender::Sender;
use std::alloc::{AllocError, Global};
use std::marker::Model;
use wire_message::{Error, MessageType};
use wire_value::{
    InterfaceName, OwnedBusName, OwnedInterfaceName, OwnedMemberName, OwnedUniqueName, Text,
    UniqueName,
};

/// Which messages are wanted: those that match each part that is there (D-Bus Specification, "Match Rules"). A rule
/// owns its texts.
#[derive(Debug, PartialEq, Eq, Hash)]
pub struct MatchRule {
    pub(crate) kind: Option<MessageType>,
    pub(crate) sender: Option<Sender>,
    pub(crate) interface: Option<OwnedInterfaceName>,
    pub(crate) member: Option<OwnedMemberName>,
    pub(crate) path: Option<PathSpec>,
    pub(crate) destination: Option<OwnedUniqueName>,
    pub(crate) args: Arguments,
    pub(crate) arg_paths: Arguments,
    pub(crate) arg0ns: Option<Text>,
}

impl Drop for MatchRule {
    fn drop(self) {
        let MatchRule {
            kind: _,
            sender: _,
            interface: _,
            member: _,
            path: _,
            destination: _,
            args: _,
            arg_paths: _,
            arg0ns: _,
        } = self;
    }
}

impl Model for MatchRule {
    ghost use Rattle.rule_match.specs.Rule.{Rule, IsRule};

    ghost Value = { Rule };

    ghost use Rattle.rule_match.specs.RuleView.{rule_view, rule_fields};

    ghost view = { rule_view };

    ghost invariant = { λ m. IsRule (rule_view m) };

    ghost inverse = { rule_fields };
}

fn sender_copy(alloc: Global, sender: &Option<Sender>) -> Result<Option<Sender>, AllocError>
    ensures { IfOk result (λ copy. copy ≡ sender.now) }
{
    match sender {
        Some(sender) => Ok(Some(sender.try_clone(alloc)?)),
        None => Ok(None),
    }
}

fn place_copy(alloc: Global, place: &Option<PathSpec>) -> Result<Option<PathSpec>, AllocError>
    ensures { IfOk result (λ copy. copy ≡ place.now) }
{
    match place {
        Some(place) => Ok(Some(place.try_clone(alloc)?)),
        None => Ok(None),
    }
}

fn namespace_copy(alloc: Global, name: &Option<Text>) -> Result<Option<Text>, AllocError>
    ensures { IfOk result (λ copy. copy ≡ name.now) }
{
    match name {
        Some(name) => Ok(Some(name.try_clone(alloc)?)),
        None => Ok(None),
    }
}

/// The name of the bus, which is its interface's name too.
const BUS: &str = "org.freedesktop.DBus";

#[tactic(auto, unfolding(wire_names::specs::Names::is_unique_name))]
fn bus_name() -> UniqueName<'static>
    ensures { result ≡ codes "org.freedesktop.DBus" }
{
    match UniqueName::try_from(BUS) {
        Ok(name) => name,
        Err(_) => unreachable!(),
    }
}

#[tactic(auto, unfolding(wire_names::specs::Names::is_interface_name, wire_names::specs::Names::is_dotted, wire_names::specs::Names::is_element))]
fn bus_interface() -> InterfaceName<'static>
    ensures { result ≡ codes "org.freedesktop.DBus" }
{
    match InterfaceName::try_from(BUS) {
        Ok(name) => name,
        Err(_) => unreachable!(),
    }
}

impl MatchRule {
    ghost use Rattle.std.specs.Prelude.{◌≡◌, [], None, IfOk, option_map};
    ghost use Rattle.rule_match.specs.Rule.{no_parts, bus_signal};
    ghost use Rattle.rule_match.specs.Text.{rule_in};
    ghost use Rattle.rule_match.specs.Bytes.{rule_in_bytes};
    ghost use Rattle.rule_match.specs.Building.{Gives};

    /// A builder for a rule of no parts, which wants every message.
    ///
    /// # Examples
    ///
    /// ```
    /// use rule_match::MatchRule;
    /// use wire_message::MessageType;
    /// use wire_value::OwnedMemberName;
    /// let member = OwnedMemberName::try_from(rt.alloc(), "Rose")?;
    /// let rule = MatchRule::builder(rt.alloc())
    ///     .msg_type(MessageType::Signal)
    ///     .member(member)
    ///     .build();
    /// assert!(rt; format!(in rt.alloc(); "{rule}")?.as_str() == "type='signal',member='Rose'");
    /// Ok(())
    /// ```
    pub fn builder(alloc: Global) -> Builder
        ensures { result ≡ no_parts }
    {
        Builder::new(alloc)
    }

    /// A builder for the rule of the bus's own signals of that name.
    ///
    /// # Errors
    ///
    /// AllocError for want of memory.
    #[tactic(auto, unfolding(crate::specs::Rule::bus_signal))]
    pub fn fdo_signal_builder(alloc: Global, name: OwnedMemberName) -> Result<Builder, AllocError>
        ensures { IfOk result (λ b. b ≡ bus_signal name) }
    {
        let sender = bus_name().to_owned(alloc)?;
        let interface = bus_interface().to_owned(alloc)?;
        Ok(
            Builder::new(alloc)
                .msg_type(MessageType::Signal)
                .sender(OwnedBusName::Unique(sender))
                .interface(interface)
                .member(name),
        )
    }

    /// The rule that a text is: components between commas, each a key, `=` and a value between quotes; of the values of
    /// a key the last counts.
    ///
    /// # Errors
    ///
    /// The fault of the leftmost component outside the grammar:
    ///
    /// - `Names` for a name outside its grammar, and for the value of `path` or `path_namespace` that is no object
    ///   path.
    /// - `InvalidMatchRule` for any other, such as the value of `argN` or `argNpath` with a 0 byte.
    ///
    /// `Memory` if out of memory.
    ///
    /// # Examples
    ///
    /// ```
    /// use rule_match::MatchRule;
    /// use wire_message::MessageType;
    /// let rule = MatchRule::try_from(rt.alloc(), "type='signal',member='Rose'")?;
    /// assert!(rt; rule.msg_type() == Some(MessageType::Signal));
    /// Ok(())
    /// ```
    pub fn try_from(alloc: Global, text: &str) -> Result<MatchRule, Error>
        ensures { Gives result (rule_in text.now) }
    {
        rule_in(alloc, text)
    }

    /// The rule that bytes are, which may be no UTF-8: of a text's bytes the same as [`MatchRule::try_from`].
    ///
    /// # Errors
    ///
    /// As `try_from`, component by component. A name or a path that is no UTF-8 is outside its grammar. The value of
    /// `argN` or `argNpath` that is no UTF-8 is `InvalidMatchRule`.
    pub fn try_from_bytes(alloc: Global, text: &[u8]) -> Result<MatchRule, Error>
        ensures { Gives result (rule_in_bytes text.now) }
    {
        rule_in_bytes(alloc, text)
    }

    /// The message type that is wanted.
    pub fn msg_type(&self) -> Option<MessageType>
        ensures { result ≡ self.now.kind }
    {
        self.kind
    }

    /// The sender that is wanted.
    pub fn sender(&self) -> Option<&OwnedBusName>
        ensures { option_map (λ name. name.now) result ≡ self.now.sender }
    {
        match &self.sender {
            Some(sender) => Some(sender.name()),
            None => None,
        }
    }

    /// The interface that is wanted.
    pub fn interface(&self) -> Option<&OwnedInterfaceName>
        ensures { option_map (λ name. name.now) result ≡ self.now.interface }
    {
        self.interface.as_ref()
    }

    /// The member that is wanted.
    pub fn member(&self) -> Option<&OwnedMemberName>
        ensures { option_map (λ name. name.now) result ≡ self.now.member }
    {
        self.member.as_ref()
    }

    /// The path that is wanted, or the path that all wanted ones are at or below.
    pub fn path_spec(&self) -> Option<&PathSpec>
        ensures { option_map (λ place. place.now) result ≡ self.now.path }
    {
        self.path.as_ref()
    }

    /// The destination that is wanted.
    pub fn destination(&self) -> Option<&OwnedUniqueName>
        ensures { option_map (λ name. name.now) result ≡ self.now.destination }
    {
        self.destination.as_ref()
    }

    /// The string arguments that are wanted, in the order of their indices.
    pub fn args(&self) -> &[Argument]
        ensures { result.now ≡ self.now.args }
    {
        self.args.as_slice()
    }

    /// The argument paths that are wanted, in the order of their indices (D-Bus Specification, "Match Rules",
    /// `argNpath`): for each the argument of its index is to be a string or an object path that matches its text.
    pub fn arg_paths(&self) -> &[Argument]
        ensures { result.now ≡ self.now.arg_paths }
    {
        self.arg_paths.as_slice()
    }

    /// The namespace that the first argument is wanted in.
    pub fn arg0ns(&self) -> Option<&Text>
        ensures { option_map (λ name. name.now) result ≡ self.now.arg0ns }
    {
        self.arg0ns.as_ref()
    }

    /// A copy of what is wanted of a header.
    fn header_copy(&self, alloc: Global) -> Result<MatchRule, AllocError>
        ensures { IfOk result (λ copy. copy ≡ record self.now { args = []; arg_paths = []; arg0ns = None }) }
    {
        Ok(MatchRule {
            kind: self.kind,
            sender: sender_copy(alloc, &self.sender)?,
            interface: copy_of(alloc, &self.interface)?,
            member: copy_of(alloc, &self.member)?,
            path: place_copy(alloc, &self.path)?,
            destination: copy_of(alloc, &self.destination)?,
            args: Arguments::new(alloc),
            arg_paths: Arguments::new(alloc),
            arg0ns: None,
        })
    }

    /// A copy.
    ///
    /// # Errors
    ///
    /// AllocError for want of memory.
    pub fn to_owned(&self, alloc: Global) -> Result<MatchRule, AllocError>
        ensures { IfOk result (λ copy. copy ≡ self.now) }
    {
        let args = self.args.try_clone(alloc)?;
        let arg_paths = self.arg_paths.try_clone(alloc)?;
        let arg0ns = namespace_copy(alloc, &self.arg0ns)?;
        let mut copy = self.header_copy(alloc)?;
        copy.args = args;
        copy.arg_paths = arg_paths;
        copy.arg0ns = arg0ns;
        Ok(copy)
    }

    /// The same rule: it owns its texts.
    pub fn into_owned(self) -> MatchRule
        ensures { result ≡ self }
    {
        self
    }
}
