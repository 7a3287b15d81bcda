//! Match rules: which messages a peer wants to see (D-Bus Specification, "Message Bus Message Routing", "Match Rules").
#![tactic(auto)]

pub use crate::arguments::Argument;
pub use crate::building::Builder;
pub use crate::candidate::Candidate;
pub use crate::laws::{
    a_message_matches_its_header, accepting_is_matching, bytes_and_texts_agree, is_one_rule,
    rules_are_read_again, rules_hold_their_grammar,
};
pub use crate::owned::OwnedMatchRule;
pub use crate::place::PathSpec;
pub use crate::rule::MatchRule;

mod arguments;
mod below;
mod building;
mod bytes;
mod candidate;
mod component;
mod display;
mod finding;
mod found;
mod header;
mod key;
mod laws;
mod matching;
mod names;
mod owned;
mod part;
mod path_match;
mod place;
mod rule;
mod sender;
mod walk;
mod wants;
