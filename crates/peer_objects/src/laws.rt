//! Laws of the numbers by which is asked whether a reply was put, each the contract of a function that does nothing.
ghost use Rattle.std.specs.Prelude.{◌≡◌, ℕ, Some, true};
ghost use Rattle.peer_objects.specs.Notifying.{Notified, awaiting, is_known};

/// A number that an answer had has room from then on: its reply can be recorded.
#[tactic(auto, using(crate::proofs::Known::known_now))]
pub fn a_number_has_room_once_an_answer_had_it()
    ensures { (number : ℕ) (notified : Notified) → is_known (awaiting (Some number) notified) number ≡ true }
{}
