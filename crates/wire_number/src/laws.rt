//! What reading and writing owe one another: what is read stands there as it is written, and what stands there is read.
ghost use Rattle.std.specs.Prelude.{◌≡◌, ◌↔◌, ◌<◌, ◌≤◌, ◌^◌, ◌++◌, ℕ, All, List, Some, length};
ghost use Rattle.std.specs.Int.{Width, byte_len};
ghost use Rattle.wire_number.specs.declared.endian.Endian.{Endian};
ghost use Rattle.wire_number.specs.Number.{counted_text, number_text, padding};
ghost use Rattle.wire_number.specs.Reading.{Cursor, Stands, align_at, counted_at, number_at};

/// Padding is found exactly where it stands.
pub fn reading_padding()
    ensures { (boundary : ℕ) (c after : Cursor) → All (λ b. b < 256) c.rest
        → (align_at boundary c ≡ Some after) ↔ Stands (padding c.place boundary) c after }
{}

/// A number is read exactly where its bytes stand in that order.
pub fn reading_a_number()
    ensures { (w : Width) (order : Endian) (n : ℕ) (c after : Cursor) → byte_len w ≤ 8 → All (λ b. b < 256) c.rest
        → (number_at w order c ≡ Some (n, after)) ↔ (Stands (number_text w order n) c after × (n < 256 ^ byte_len w)) }
{}

/// A text is read exactly where it stands behind its length, and that behind its padding.
pub fn reading_a_text()
    ensures { (w : Width) (order : Endian) (bytes : List ℕ) (c after : Cursor) → byte_len w ≤ 8 → All (λ b. b < 256) c.rest
        → (counted_at w order c ≡ Some (bytes, after))
        ↔ (Stands (padding c.place (byte_len w) ++ counted_text w order bytes) c after × (length bytes < 256 ^ byte_len w)) }
{}
