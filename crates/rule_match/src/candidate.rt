//! A message as rules are tested by it.
ghost use Rattle.std.specs.Prelude.{◌≡◌, [], false, unwrap_or};
ghost use Rattle.rule_match.specs.Accepting.{accepts_arguments, arguments_of};
ghost use Rattle.rule_match.specs.Matching.{wanted_of};
ghost use Rattle.rule_match.specs.Wanted.{is_nothing};

use crate::rule::MatchRule;
use crate::walk::Walk;
use std::marker::Model;
use wire_message::Message;

/// A message that rules are tested against. One walk goes over its arguments for all of them, as far as a rule asks:
/// each rule looks at what was found, and where it asks for more, the walk goes on.
pub struct Candidate<'m> {
    message: &'m Message,
    /// Whether the walk is one over this message's arguments.
    begun: bool,
    walk: Walk<'m>,
}

impl<'m> Drop for Candidate<'m> {
    fn drop(self) {
        let Candidate {
            message: _,
            begun: _,
            walk: _,
        } = self;
    }
}

impl<'m> Model for Candidate<'m> {
    ghost use Rattle.std.specs.Prelude.{◌≡◌, true};
    ghost use Rattle.wire_message.specs.Front.{MessageView};

    ghost Value = { MessageView };

    ghost use Rattle.rule_match.specs.Accepting.{arguments_of};
    ghost use Rattle.rule_match.specs.Sources.{arguments_from};
    ghost use Rattle.rule_match.specs.Walking.{IsWalk};

    ghost view = { λ c. c.message.now };

    ghost invariant = { λ c. c.begun ≡ true → (arguments_from c.walk.source ≡ arguments_of c.message.now) × IsWalk c.walk };
}

impl<'m> Candidate<'m> {
    /// The message, of whose arguments nothing is known yet.
    pub fn new(message: &'m Message) -> Candidate<'m>
        ensures { result ≡ message.now }
    {
        Candidate {
            message,
            begun: false,
            walk: Walk::new(),
        }
    }

    /// Turns to another message: what was found of the one before is no longer known.
    pub fn turn_to(&mut self, message: &'m Message)
        ensures { self.new ≡ message.now }
    {
        self.message = message;
        self.begun = false;
    }

    /// The message.
    pub fn message(&self) -> &'m Message
        ensures { result.now ≡ self.now }
    {
        self.message
    }

    /// Whether the arguments are those that the rule wants, where it wants some.
    pub(crate) fn has_arguments(&mut self, rule: &MatchRule) -> bool
        requires { is_nothing (wanted_of rule.now) ≡ false }
        ensures has { result ≡ accepts_arguments (wanted_of rule.now) (unwrap_or (arguments_of self.old) []) }
        ensures same { self.new ≡ self.old }
    {
        if !self.begun {
            self.walk.begin(self.message);
            self.begun = true;
        }
        rule.accepts(&mut self.walk)
    }
}
