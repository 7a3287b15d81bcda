//! What types and their texts owe one another.
ghost use Rattle.std.specs.Prelude.{◌≡◌, ◌↔◌, IsTrue, List, ℕ, Some, nat_eq};
ghost use Rattle.std.specs.Cmp.Lexicographic.{pointwise};
ghost use Rattle.wire_signature.specs.SingleType.{IsSignature, IsType, SingleType, SignatureText, TypeText, signature_text, type_text};
ghost use Rattle.wire_signature.specs.Parsing.{type_in, types_in};

/// A text is the signature of at most one list of types.
pub fn one_list_of_types()
    ensures { (types others : List SingleType) (bytes : List ℕ)
        → SignatureText types bytes → SignatureText others bytes → types ≡ others }
{}

/// A list of types has at most one text.
pub fn one_signature_text()
    ensures { (types : List SingleType) (bytes others : List ℕ)
        → SignatureText types bytes → SignatureText types others → bytes ≡ others }
{}

/// A text is that of at most one type.
pub fn one_type()
    ensures { (first second : SingleType) (bytes : List ℕ) → TypeText first bytes → TypeText second bytes → first ≡ second }
{}

/// A type has at most one text.
pub fn one_type_text()
    ensures { (single_type : SingleType) (bytes others : List ℕ) → TypeText single_type bytes → TypeText single_type others → bytes ≡ others }
{}

/// Reading a text from left to right finds the types of which it is the signature, and nothing else.
pub fn reading_a_signature()
    ensures found { (types : List SingleType) (bytes : List ℕ) → types_in bytes ≡ Some types → SignatureText types bytes }
    ensures all { (types : List SingleType) (bytes : List ℕ) → SignatureText types bytes → types_in bytes ≡ Some types }
{}

/// Reading a text from left to right finds the one type that it spells, and nothing else.
pub fn reading_a_type()
    ensures found { (single_type : SingleType) (bytes : List ℕ) → type_in bytes ≡ Some single_type → TypeText single_type bytes }
    ensures all { (single_type : SingleType) (bytes : List ℕ) → TypeText single_type bytes → type_in bytes ≡ Some single_type }
{}

/// Types and signatures are equal, as `==` decides, exactly where they are one.
pub fn equal_types_are_one()
    ensures types { (t u : SingleType) → IsType t → IsType u → IsTrue (pointwise nat_eq (type_text t) (type_text u)) ↔ (t ≡ u) }
    ensures signatures { (ts us : List SingleType) → IsSignature ts → IsSignature us
        → IsTrue (pointwise nat_eq (signature_text ts) (signature_text us)) ↔ (ts ≡ us) }
{}
