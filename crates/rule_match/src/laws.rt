//! Laws of rules.
ghost use Rattle.std.specs.Prelude.{◌≡◌, ◌<◌, ◌↔◌, List, ℕ, Ok, IfSome, IsTrue, IsUtf8};
ghost use Rattle.std.specs.List.{All};
ghost use Rattle.wire_message.specs.Front.{MessageView};
ghost use Rattle.wire_message.specs.Primary.{head_of};
ghost use Rattle.wire_names.specs.Names.{IsUniqueName, IsInterfaceName, IsMemberName, IsObjectPath};
ghost use Rattle.rule_match.specs.Accepting.{accepts};
ghost use Rattle.rule_match.specs.Again.{IsReadable};
ghost use Rattle.rule_match.specs.Matching.{Matches, header_rule};
ghost use Rattle.rule_match.specs.Rule.{Rule, IsRule, HasNames, IsSender, place_text};
ghost use Rattle.rule_match.specs.Text.{rule_in, rule_text};
ghost use Rattle.rule_match.specs.Bytes.{rule_in_bytes};

use crate::names::holds;
use crate::place::PathSpec;
use crate::rule::MatchRule;
use crate::sender::Sender;
use wire_value::{OwnedBusName, only_the_bus_is_both};

/// A rule's text is read as that rule again, if the rule has a part, no text of its arguments (`argN`) or argument
/// paths (`argNpath`) holds a comma, and its sender isn't the bus's own name as a well-known one.
pub fn rules_are_read_again()
    ensures { (r : Rule) → IsRule r → HasNames r → IsReadable r → rule_in (rule_text r) ≡ Ok r }
{
    only_the_bus_is_both();
}

/// Bytes that are UTF-8 are the rule that they are as a text, or have the same fault.
pub fn bytes_and_texts_agree()
    ensures { (text : List ℕ) → IsUtf8 text → rule_in_bytes text ≡ rule_in text }
{}

fn sender_holds(sender: &Option<Sender>)
    ensures { IfSome sender.now IsSender }
{
    let Some(sender) = sender else {
        return;
    };
    match sender.name() {
        OwnedBusName::Unique(name) => {
            let _ = name.as_str();
        }
        OwnedBusName::WellKnown(name) => {
            let _ = name.as_str();
        }
    }
}

fn place_holds(place: &Option<PathSpec>)
    ensures { IfSome place.now (λ p. IsObjectPath (place_text p)) }
{
    match place {
        Some(PathSpec::Path(path)) => {
            let _ = path.as_str();
        }
        Some(PathSpec::PathNamespace(path)) => {
            let _ = path.as_str();
        }
        None => {}
    }
}

/// Every rule is in its grammar: its arguments and its argument paths have ascending indices below 64 and texts without
/// a 0 byte, its namespace is one, and its names and its path are in theirs.
pub fn rules_hold_their_grammar(rule: &MatchRule)
    ensures arguments { IsRule rule.now }
    ensures names { HasNames rule.now }
{
    sender_holds(&rule.sender);
    holds(&rule.interface);
    holds(&rule.member);
    place_holds(&rule.path);
    holds(&rule.destination);
}

/// A message matches the rule of its own header.
pub fn a_message_matches_its_header()
    ensures { (m : MessageView) → Matches (header_rule (head_of m)) m }
{}

/// The function `accepts` of the definitions is true exactly where the message matches the rule. Of the message's bytes
/// it asks only that each is below 256.
pub fn accepting_is_matching()
    ensures { (r : Rule) (m : MessageView) → All (λ b. b < 256) m.bytes → IsTrue (accepts r m) ↔ Matches r m }
{}

/// Whether two rules are one, which is what `==` decides; equal rules are hashed alike, so they are one key of a map.
pub fn is_one_rule(rule: &MatchRule, other: &MatchRule) -> bool
    ensures { IsTrue result ↔ (rule.now ≡ other.now) }
{
    rule == other
}
