//! Laws of the grammars, each the contract of a function that does nothing.
ghost use Rattle.std.specs.Prelude.{◌≡◌, ℕ, List, codes};
ghost use Rattle.wire_names.specs.Names.{IsUniqueName, IsWellKnownName};

/// The name of the bus is the only text that is both a unique and a well-known name.
#[tactic(auto, using(crate::proofs::Elements::only_the_bus))]
pub fn only_the_bus_is_both()
    ensures { (text : List ℕ) → IsUniqueName text → IsWellKnownName text → text ≡ codes "org.freedesktop.DBus" }
{}
