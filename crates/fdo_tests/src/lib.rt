//! Tests of the types in which a message bus describes itself: each public call once, against values worked by hand.
#![tactic(auto)]

#[cfg(test)]
mod credentials;
#[cfg(test)]
mod names;
#[cfg(test)]
mod statistics;
#[cfg(test)]
mod support;
