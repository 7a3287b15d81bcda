//! The examples of the public docs, as tests: the body of each is, word for word, an example that stands above an item of a crate below.
#![tactic(auto)]

#[cfg(test)]
mod bodies;
#[cfg(test)]
mod framing;
#[cfg(test)]
mod messages;
#[cfg(test)]
mod names;
#[cfg(test)]
mod objects;
#[cfg(test)]
mod peer;
#[cfg(test)]
mod rules;
