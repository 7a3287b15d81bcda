//! Tests of messages, of match rules, and of how messages come and go: each call that takes memory once, against bytes
//! worked by hand; real streams, sockets and channels. Beside them stand the rows of `row_tests`.
#![tactic(auto)]

#[cfg(test)]
mod building;
#[cfg(test)]
mod channels;
#[cfg(test)]
mod errors;
#[cfg(test)]
mod memory;
#[cfg(test)]
mod message_bodies;
#[cfg(test)]
mod replies;
#[cfg(test)]
mod rule_building;
#[cfg(test)]
mod rule_same;
#[cfg(test)]
mod streams;
#[cfg(test)]
mod test_support;
