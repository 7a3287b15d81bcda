//! What values and their encodings owe one another.
ghost use Rattle.std.specs.Prelude.{◌≡◌, ◌++◌, [], List, ℕ};
ghost use Rattle.wire_number.specs.declared.endian.Endian.{Endian};
ghost use Rattle.wire_signature.specs.SingleType.{SingleType};
ghost use Rattle.wire_tree.specs.Datum.{Datum};
ghost use Rattle.wire_encoding.specs.Encoding.{Encodes};

/// For an order, a place and a type, a value has at most one encoding.
pub fn one_encoding()
    ensures { (order : Endian) (place : ℕ) (t : SingleType) (d : Datum) (bytes others : List ℕ)
        → Encodes order place t d bytes → Encodes order place t d others → bytes ≡ others }
{}

/// For an order, a place and a type, bytes encode at most one value.
#[tactic(auto, using(crate::proofs::Exact::same_value))]
pub fn one_value()
    ensures { (order : Endian) (place : ℕ) (t : SingleType) (first second : Datum) (bytes : List ℕ)
        → Encodes order place t first bytes → Encodes order place t second bytes → first ≡ second }
{}

/// For an order, a place and a type, no encoding begins another.
#[tactic(auto, using(crate::proofs::Exact::not_begun))]
pub fn no_encoding_begins_another()
    ensures { (order : Endian) (place : ℕ) (t : SingleType) (first second : Datum) (bytes rest : List ℕ)
        → Encodes order place t first bytes → Encodes order place t second (bytes ++ rest) → rest ≡ [] }
{}
