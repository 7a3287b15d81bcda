//! A match rule as a value of its own.
ghost use Rattle.std.specs.Prelude.{◌≡◌, ◌↔◌, IsTrue};
ghost use Rattle.rule_match.specs.Text.{rule_in};
ghost use Rattle.rule_match.specs.Bytes.{rule_in_bytes};
ghost use Rattle.rule_match.specs.Building.{Gives};

use crate::laws::is_one_rule;
use crate::rule::MatchRule;
use std::alloc::Global;
use std::marker::Model;
use std::ops::Deref;
use wire_message::Error;

/// A [`MatchRule`] as a value of its own.
#[derive(Debug, PartialEq, Eq, Hash)]
pub struct OwnedMatchRule {
    rule: MatchRule,
}

impl Drop for OwnedMatchRule {
    fn drop(self) {
        let OwnedMatchRule { rule: _ } = self;
    }
}

impl Model for OwnedMatchRule {
    ghost use Rattle.rule_match.specs.Rule.{Rule};

    ghost Value = { Rule };

    ghost view = { λ o. o.rule };

    ghost inverse = { λ r. record { rule = r } };
}

impl OwnedMatchRule {
    /// The rule that a text is, as [`MatchRule::try_from`].
    ///
    /// # Errors
    ///
    /// As `MatchRule::try_from`: the fault of the leftmost component outside the grammar. The fault is `Names` for a
    /// name, and for the path of `path` or `path_namespace`; it is `InvalidMatchRule` for any other. `Memory` if out of
    /// memory.
    pub fn try_from(alloc: Global, text: &str) -> Result<OwnedMatchRule, Error>
        ensures { Gives result (rule_in text.now) }
    {
        match MatchRule::try_from(alloc, text) {
            Ok(rule) => Ok(OwnedMatchRule { rule }),
            Err(e) => Err(e),
        }
    }

    /// The rule that bytes are, as [`MatchRule::try_from_bytes`].
    ///
    /// # Errors
    ///
    /// As `MatchRule::try_from_bytes`: as `try_from`, where a name or a path that is no UTF-8 is outside its grammar,
    /// and the value of `argN` or `argNpath` that is no UTF-8 is `InvalidMatchRule`. `Memory` if out of memory.
    pub fn try_from_bytes(alloc: Global, text: &[u8]) -> Result<OwnedMatchRule, Error>
        ensures { Gives result (rule_in_bytes text.now) }
    {
        match MatchRule::try_from_bytes(alloc, text) {
            Ok(rule) => Ok(OwnedMatchRule { rule }),
            Err(e) => Err(e),
        }
    }

    /// The same rule.
    pub fn from(rule: MatchRule) -> OwnedMatchRule
        ensures { result ≡ rule }
    {
        OwnedMatchRule { rule }
    }

    /// Gives the rule back.
    pub fn into_inner(self) -> MatchRule
        ensures { result ≡ self }
    {
        let OwnedMatchRule { rule } = self;
        rule
    }

    /// The rule, lent.
    pub fn inner(&self) -> &MatchRule
        ensures { result.now ≡ self.now }
    {
        &self.rule
    }

    /// The same as [`OwnedMatchRule::inner`].
    pub fn borrow(&self) -> &MatchRule
        ensures { result.now ≡ self.now }
    {
        self.inner()
    }

    /// Whether this is that rule.
    pub fn equals(&self, rule: &MatchRule) -> bool
        ensures { IsTrue result ↔ (self.now ≡ rule.now) }
    {
        is_one_rule(&self.rule, rule)
    }
}

/// The rule's own calls are this one's too.
impl Deref for OwnedMatchRule {
    type Target = MatchRule;

    ghost deref_gives = { λ owned rule. rule ≡ owned };

    fn deref(&self) -> &MatchRule {
        self.inner()
    }
}
