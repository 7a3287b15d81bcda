//! What holds of all values.
ghost use Rattle.std.specs.Prelude.{◌≡◌, ◌↔◌, IsTrue};
ghost use Rattle.wire_signature.specs.SingleType.{IsType};
ghost use Rattle.wire_tree.specs.Datum.{Datum, IsValid, WellTyped, type_of, variant};
ghost use Rattle.wire_tree.specs.Equal.{same};

/// Values are equal exactly where they are one: of one type and of one form.
pub fn equal_is_one()
    ensures { (d e : Datum) → IsTrue (same d e) ↔ (d ≡ e) }
{}

/// A variant is a value that a message may hold exactly where what it holds is one.
pub fn variants_hold_values()
    ensures { (d : Datum) → IsValid (variant d) ↔ IsValid d }
{}
