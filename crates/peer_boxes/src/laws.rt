//! Laws of the program's own interfaces, each the contract of a function that does nothing.
ghost use Rattle.std.specs.Prelude.{ℕ, List};
ghost use Rattle.object_interface.specs.Meaning.{IsFunction};
ghost use Rattle.peer_boxes.specs.Boxes.{greeter, test_object, level, empty};

/// The program's own interfaces answer in one way: asked the same in the same state, for a property, for all of them, to set one, by a
/// call or for its description, each gives one answer and is left in one state.
#[tactic(auto, using(crate::proofs::Functions::greeter_function, crate::proofs::Functions::test_function, crate::proofs::Functions::level_function, crate::proofs::Functions::named_function))]
pub fn each_answers_in_one_way()
    ensures greeter { IsFunction greeter }
    ensures test_object { IsFunction test_object }
    ensures level { IsFunction level }
    ensures named { (name : List ℕ) → IsFunction (empty name) }
{}
