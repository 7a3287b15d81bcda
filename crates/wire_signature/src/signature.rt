//! Signatures.
use crate::error::VariantError;
use crate::read::read_types;
use crate::text::{MAX_ARRAYS, MAX_LENGTH, MAX_STRUCTS, ROOM};
use crate::texting::{put_types, string_of};
use crate::value_type::{ValueType, are_same, copies_of};
use crate::walk::End;
use std::alloc::{AllocError, Global};
use std::marker::Model;

/// A list of complete types, as the signature of a message's body (D-Bus Specification, "Type System", "Valid Signatures"): at
/// most 255 bytes as a text, and at most 32 arrays and 32 structs in one another.
pub struct Signature {
    types: Vec<ValueType>,
}

// Written out: a derived one is taken apart again wherever a type that holds a signature ends.
impl Drop for Signature {
    fn drop(self) {
        let Signature { types: _ } = self;
    }
}

impl Model for Signature {
    ghost use Rattle.std.specs.Prelude.{List};
    ghost use Rattle.std.specs.Coded.{coded_list};
    ghost use Rattle.wire_signature.specs.SingleType.{SingleType, IsSignature};
    ghost use Rattle.wire_signature.specs.SingleTypeCode.{single_type_code};

    ghost Value = { List SingleType };

    ghost coded = { coded_list single_type_code };

    ghost view = { λ s. s.types.items };

    ghost invariant = { λ s. IsSignature s.types.items };
}

impl Signature {
    ghost use Rattle.std.specs.Prelude.{◌≡◌, ◌↔◌, [], IfOk, IsTrue, string_bytes};
    ghost use Rattle.wire_signature.specs.SingleType.{IsSignature, SignatureText};
    ghost use Rattle.wire_signature.specs.Parsing.{GivesType, TellsSignature, types_in};

    #[tactic(auto, unfolding(crate::specs::Parsing::types_in, crate::specs::Parsing::first_at))]
    fn read(alloc: Global, text: &str) -> Result<Signature, VariantError>
        ensures { GivesType result (types_in text.now) }
    {
        if text.len() > MAX_LENGTH {
            return Err(VariantError::Signature);
        }
        let (types, _) = read_types(
            alloc,
            End::Text,
            ROOM,
            MAX_ARRAYS,
            MAX_STRUCTS,
            text.as_bytes(),
        )?;
        Ok(Signature { types })
    }

    /// The signature that a text spells (D-Bus Specification, "Valid Signatures").
    ///
    /// # Errors
    ///
    /// `Signature` exactly where the text is outside the grammar or the limits: more than 255 bytes, or more than 32 arrays or
    /// 32 structs in one another. `Memory` for want of memory.
    ///
    /// # Examples
    ///
    /// ```
    /// use wire_value::Signature;
    /// let signature = Signature::try_from(rt.alloc(), "sa{sv}")?;
    /// assert!(rt; signature.types().len() == 2);
    /// Ok(())
    /// ```
    pub fn try_from(alloc: Global, text: &str) -> Result<Signature, VariantError>
        ensures told { TellsSignature result text.now }
        ensures read { GivesType result (types_in text.now) }
    {
        Signature::read(alloc, text)
    }

    /// The signature of these types, which together are one.
    pub fn from_types(types: Vec<ValueType>) -> Signature
        requires { IsSignature types.items }
        ensures { result ≡ types.items }
    {
        Signature { types }
    }

    /// The complete types, in their order.
    pub fn types(&self) -> &[ValueType]
        ensures types { result.now ≡ self.now }
        ensures valid { IsSignature self.now }
    {
        self.types.as_slice()
    }

    /// Whether there are no types: the signature of an empty body.
    pub fn is_unit(&self) -> bool
        ensures { IsTrue result ↔ (self.now ≡ []) }
    {
        self.types.is_empty()
    }

    /// The one text of the signature (D-Bus Specification, "Valid Signatures").
    ///
    /// # Errors
    ///
    /// AllocError for want of memory.
    pub fn to_text(&self, alloc: Global) -> Result<String, AllocError>
        ensures { IfOk result (λ text. SignatureText self.now (string_bytes text)) }
    {
        let mut text = [0; MAX_LENGTH];
        let end = put_types(self.types(), &mut text, 0);
        string_of(alloc, &text[..end])
    }

    /// A copy.
    ///
    /// # Errors
    ///
    /// AllocError for want of memory.
    pub fn try_clone(&self, alloc: Global) -> Result<Signature, AllocError>
        ensures { IfOk result (λ copy. copy ≡ self.now) }
    {
        Ok(Signature::from_types(copies_of(alloc, self.types())?))
    }
}

/// Signatures are equal where they are of the same types, so where their texts are one.
impl PartialEq for Signature {
    ghost use Rattle.std.specs.Prelude.{nat_eq};
    ghost use Rattle.std.specs.Cmp.{on_per, partial_equiv_from_equiv};
    ghost use Rattle.std.specs.Cmp.Lexicographic.{pointwise, nat_list_eq_equiv};
    ghost use Rattle.wire_signature.specs.SingleType.{signature_text};

    ghost eq = { λ s t. pointwise nat_eq (signature_text s) (signature_text t) };

    ghost laws = { on_per signature_text (partial_equiv_from_equiv nat_list_eq_equiv) };

    fn eq(&self, other: &Signature) -> bool {
        are_same(self.types(), other.types())
    }
}

impl Eq for Signature {
    ghost use Rattle.std.specs.Cmp.{on_equiv};
    ghost use Rattle.std.specs.Cmp.Lexicographic.{nat_list_eq_equiv};
    ghost use Rattle.wire_signature.specs.SingleType.{signature_text};

    ghost laws = { on_equiv signature_text nat_list_eq_equiv };
}
