//! Tests of the objects' crates and of the peer's core, of what no script shows: references to a service's interfaces; what is told of
//! objects, and in which text; signals that an object puts, an error of its own, and whether a reply was put; what a peer's core
//! says of its streams and its calls.
#![tactic(auto)]

#[cfg(test)]
mod describing;
#[cfg(test)]
mod emitting;
#[cfg(test)]
mod notifier;
#[cfg(test)]
mod own_error;
#[cfg(test)]
mod putting;
#[cfg(test)]
mod route;
#[cfg(test)]
mod server;
#[cfg(test)]
mod told;
