//! Tests of rules. Each is a step, and no rule of a stream is tested but here.
ghost use Rattle.std.specs.Prelude.{◌≡◌, ◌+◌};
ghost use Rattle.peer_streams.specs.Names.{accepts};

use rule_match::{Candidate, MatchRule};
use std::marker::Model;
use std::sync::ledger::Ledger;
use wire_message::Steps;

/// Whether a rule that was tested accepts the message. Only `test` makes one, so no message is given to the streams of a rule
/// without a step.
pub(crate) struct Tested {
    accepts: bool,
}

impl Drop for Tested {
    fn drop(self) {
        let Tested { accepts: _ } = self;
    }
}

impl Model for Tested {
    ghost use Rattle.std.specs.Prelude.{Bool};

    ghost Value = { Bool };

    ghost view = { λ tested. tested.accepts };
}

impl Tested {
    /// Whether the rule accepts the message.
    pub(crate) fn accepts(&self) -> bool
        ensures { result ≡ self.now }
    {
        self.accepts
    }
}

/// Tests a rule against a message, which is one step.
pub(crate) fn test<L: Ledger>(
    rule: &MatchRule,
    candidate: &mut Candidate<'_>,
    steps: &mut Steps<L>,
) -> Tested
    ensures accepts { result ≡ accepts rule.now candidate.old }
    ensures same { candidate.new ≡ candidate.old }
    ensures step { steps.new ≡ steps.old + 1 }
{
    steps.tick();
    let accepts = rule.matches_candidate(candidate);
    Tested { accepts }
}
