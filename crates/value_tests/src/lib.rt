//! Tests of names, GUIDs, signatures, values and bodies: each call that takes memory or may be refused once, against bytes worked by hand.
//! Beside them stand the rows of `row_tests`: what is read of texts and bytes, refused, printed and built anew.
#![tactic(auto)]

#[cfg(test)]
mod arguments;
#[cfg(test)]
mod bodies;
#[cfg(test)]
mod guids;
#[cfg(test)]
mod names;
#[cfg(test)]
mod signatures;
#[cfg(test)]
mod texts;
#[cfg(test)]
mod trees;
