//! The law of the serials that messages draw.
ghost use Rattle.std.specs.Prelude.{ℕ, ◌≡◌, ◌≤◌, ◌↔◌, Some, None};
ghost use Rattle.wire_message.specs.SerialOrder.{AllTaken, IsNearest};
ghost use Rattle.peer_calls.specs.Names.{greatest_serial};
ghost use Rattle.peer_calls.specs.Calls.{pending};
ghost use Rattle.peer_calls.specs.History.{CallsPast};
ghost use Rattle.peer_calls.specs.Issuing.{next_serial};

/// The serial that a message draws is the one nearest behind the last one drawn that no call waits for, in cyclic order from 1 to
/// 4,294,967,295; there is none exactly where a call waits for each (D-Bus Specification, "Message Format").
pub fn drawn_serials_are_the_nearest_free()
    ensures next { (h : CallsPast) (serial : ℕ) → h.outbox.last ≤ greatest_serial → (next_serial h ≡ Some serial) ↔ IsNearest (pending h) h.outbox.last serial }
    ensures none { (h : CallsPast) → h.outbox.last ≤ greatest_serial → (next_serial h ≡ None) ↔ AllTaken (pending h) }
{}
