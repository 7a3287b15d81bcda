//! Building a rule, part by part.
use crate::arguments::{Argument, Arguments};
use crate::component::{is_namespace, is_plain};
use crate::part::Part;
use crate::place::PathSpec;
use crate::rule::MatchRule;
use crate::sender::Sender;
use std::alloc::{AllocError, Global};
use std::marker::Model;
use wire_message::{Error, MessageType};
use wire_value::{
    OwnedBusName, OwnedInterfaceName, OwnedMemberName, OwnedObjectPath, OwnedUniqueName, Text,
};

/// The number of arguments that a rule can speak of.
const ARGUMENTS: u8 = 64;

/// A rule that is being built. A call that sets a part again replaces it.
#[derive(Debug)]
pub struct Builder {
    rule: MatchRule,
}

impl Drop for Builder {
    fn drop(self) {
        let Builder { rule: _ } = self;
    }
}

impl Model for Builder {
    ghost use Rattle.rule_match.specs.Rule.{Rule};

    ghost Value = { Rule };

    ghost view = { λ b. b.rule };
}

impl Builder {
    ghost use Rattle.std.specs.Prelude.{◌≡◌, ◌⊎◌, ◌<◌, ◌&&◌, nat_lt, Some, Ok, Err, IfOk, IsTrue, if◌then◌else◌};
    ghost use Rattle.rule_match.specs.declared.place.PathSpec.TheVariants.{Path, PathNamespace};
    ghost use Rattle.rule_match.specs.Arguments.{put, index_after, is_argument, is_plain};
    ghost use Rattle.rule_match.specs.Namespace.{is_namespace};
    ghost use Rattle.rule_match.specs.Part.{argument};
    ghost use Rattle.rule_match.specs.Rule.{no_parts};
    ghost use Rattle.rule_match.specs.Building.{with_part, IsPart, Sets};

    pub(crate) fn new(alloc: Global) -> Builder
        ensures { result ≡ no_parts }
    {
        Builder {
            rule: MatchRule {
                kind: None,
                sender: None,
                interface: None,
                member: None,
                path: None,
                destination: None,
                args: Arguments::new(alloc),
                arg_paths: Arguments::new(alloc),
                arg0ns: None,
            },
        }
    }

    /// A builder that goes on from a rule.
    pub(crate) fn of(rule: MatchRule) -> Builder
        ensures { result ≡ rule }
    {
        Builder { rule }
    }

    /// The rule as built.
    pub fn build(self) -> MatchRule
        ensures { result ≡ self }
    {
        let Builder { rule } = self;
        rule
    }

    /// Only messages of this type (D-Bus Specification, "Match Rules", `type`). Replaces an earlier type.
    pub fn msg_type(self, kind: MessageType) -> Builder
        ensures { result ≡ record self { kind = Some kind } }
    {
        let Builder { mut rule } = self;
        rule.kind = Some(kind);
        Builder { rule }
    }

    /// A unique name is to be the message's own sender; a well-known one refuses no message.
    pub fn sender(self, name: OwnedBusName) -> Builder
        ensures { result ≡ record self { sender = Some name } }
    {
        let Builder { mut rule } = self;
        rule.sender = Some(Sender::new(name));
        Builder { rule }
    }

    /// Only messages of this interface (D-Bus Specification, "Match Rules", `interface`). Replaces an earlier
    /// interface.
    pub fn interface(self, name: OwnedInterfaceName) -> Builder
        ensures { result ≡ record self { interface = Some name } }
    {
        let Builder { mut rule } = self;
        rule.interface = Some(name);
        Builder { rule }
    }

    /// Only messages with this name of a method or a signal (D-Bus Specification, "Match Rules", `member`). Replaces an
    /// earlier member.
    pub fn member(self, name: OwnedMemberName) -> Builder
        ensures { result ≡ record self { member = Some name } }
    {
        let Builder { mut rule } = self;
        rule.member = Some(name);
        Builder { rule }
    }

    /// Replaces a path namespace too.
    pub fn path(self, path: OwnedObjectPath) -> Builder
        ensures { result ≡ record self { path = Some (Path path) } }
    {
        let Builder { mut rule } = self;
        rule.path = Some(PathSpec::Path(path));
        Builder { rule }
    }

    /// This path and all below it. Replaces a path too.
    pub fn path_namespace(self, path: OwnedObjectPath) -> Builder
        ensures { result ≡ record self { path = Some (PathNamespace path) } }
    {
        let Builder { mut rule } = self;
        rule.path = Some(PathSpec::PathNamespace(path));
        Builder { rule }
    }

    /// Refuses messages to another unique name (D-Bus Specification, "Match Rules", `destination`); one to no name, or
    /// to a well-known name, is not refused. Replaces an earlier destination.
    pub fn destination(self, name: OwnedUniqueName) -> Builder
        ensures { result ≡ record self { destination = Some name } }
    {
        let Builder { mut rule } = self;
        rule.destination = Some(name);
        Builder { rule }
    }

    pub(crate) fn put_arg(self, argument: Argument) -> Result<Builder, AllocError>
        requires { IsTrue (is_argument argument) }
        ensures { IfOk result (λ b. b ≡ record self { args = put argument self.args }) }
    {
        let Builder { mut rule } = self;
        rule.args.put(argument)?;
        Ok(Builder { rule })
    }

    pub(crate) fn put_arg_path(self, argument: Argument) -> Result<Builder, AllocError>
        requires { IsTrue (is_argument argument) }
        ensures { IfOk result (λ b. b ≡ record self { arg_paths = put argument self.arg_paths }) }
    {
        let Builder { mut rule } = self;
        rule.arg_paths.put(argument)?;
        Ok(Builder { rule })
    }

    /// The argument of that index, from 0 on, is to be that string. Replaces one of the same index.
    ///
    /// # Errors
    ///
    /// `InvalidMatchRule` exactly for an index of 64 or more and for a text with a 0 byte; `Memory` for want of memory.
    pub fn arg(self, index: u8, text: Text) -> Result<Builder, Error>
        ensures { Sets result (nat_lt index 64 && is_plain text) (record self { args = put (argument index text) self.args }) }
    {
        if index < ARGUMENTS && is_plain(text.as_str()) {
            Ok(self.put_arg(Argument { index, text })?)
        } else {
            Err(Error::InvalidMatchRule)
        }
    }

    /// The argument behind the last one that is set is to be that string; the first where none is.
    ///
    /// # Errors
    ///
    /// `InvalidMatchRule` exactly where that index is 64, and for a text with a 0 byte; `Memory` for want of memory.
    pub fn add_arg(self, text: Text) -> Result<Builder, Error>
        ensures { Sets result (nat_lt (index_after self.args) 64 && is_plain text) (record self { args = put (argument (index_after self.args) text) self.args }) }
    {
        match self.rule.args.index_after() {
            Some(index) => self.arg(index, text),
            None => Err(Error::InvalidMatchRule),
        }
    }

    /// Only messages whose argument of that index, from 0 on, is a string or an object path that matches this text
    /// (D-Bus Specification, "Match Rules", `argNpath`). An argument matches if its text is equal to this one, or if
    /// one of the two texts ends with `/` and is a prefix of the other. Replaces an argument path of the same index.
    ///
    /// # Errors
    ///
    /// - `InvalidMatchRule` if and only if the index is 64 or more, or the text has a 0 byte.
    /// - `Memory` if out of memory.
    pub fn arg_path(self, index: u8, path: Text) -> Result<Builder, Error>
        ensures { Sets result (nat_lt index 64 && is_plain path) (record self { arg_paths = put (argument index path) self.arg_paths }) }
    {
        if index < ARGUMENTS && is_plain(path.as_str()) {
            Ok(self.put_arg_path(Argument { index, text: path })?)
        } else {
            Err(Error::InvalidMatchRule)
        }
    }

    /// The same as [`Builder::arg_path`] (D-Bus Specification, "Match Rules", `argNpath`), for the index after the
    /// greatest index of an argument path that is set, or for index 0 if no argument path is set.
    ///
    /// # Errors
    ///
    /// - `InvalidMatchRule` if and only if that index is 64, or the text has a 0 byte.
    /// - `Memory` if out of memory.
    pub fn add_arg_path(self, path: Text) -> Result<Builder, Error>
        ensures { Sets result (nat_lt (index_after self.arg_paths) 64 && is_plain path) (record self { arg_paths = put (argument (index_after self.arg_paths) path) self.arg_paths }) }
    {
        match self.rule.arg_paths.index_after() {
            Some(index) => self.arg_path(index, path),
            None => Err(Error::InvalidMatchRule),
        }
    }

    pub(crate) fn set_namespace(self, name: Text) -> Builder
        requires { IsTrue (is_namespace name) }
        ensures { result ≡ record self { arg0ns = Some name } }
    {
        let Builder { mut rule } = self;
        rule.arg0ns = Some(name);
        Builder { rule }
    }

    /// The first argument is to be a bus name in that namespace: that name, or one that has it and a dot in front.
    ///
    /// # Errors
    ///
    /// `InvalidMatchRule` exactly where the text is no bus name and no element of one (D-Bus Specification, "Valid
    /// Names").
    pub fn arg0ns(self, name: Text) -> Result<Builder, Error>
        ensures { result ≡ (if is_namespace name then Ok (record self { arg0ns = Some name }) else Err Error.InvalidMatchRule) }
    {
        if is_namespace(name.as_str()) {
            Ok(self.set_namespace(name))
        } else {
            Err(Error::InvalidMatchRule)
        }
    }

    /// The rule with a part more.
    pub(crate) fn with(self, part: Part) -> Result<Builder, AllocError>
        requires { IsPart part }
        ensures { IfOk result (λ b. b ≡ with_part part self) }
    {
        part.put_into(self)
    }
}
