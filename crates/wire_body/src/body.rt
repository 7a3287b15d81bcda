//! Bodies of messages.
ghost use Rattle.std.specs.Prelude.{◌≡◌, ◌++◌, IfErr, OnOk, map, string_bytes};
ghost use Rattle.wire_signature.specs.SingleType.{AllHaveFields, HasFields, single_types_of, type_text, types_text};
ghost use Rattle.wire_signature.specs.declared.error.VariantError.TheVariants.{Memory};
ghost use Rattle.wire_tree.specs.Datum.{type_of};

use std::alloc::{AllocError, Global};
use std::marker::Model;
use wire_signature::{Signature, VariantError};
use wire_tree::{Value, type_text};

/// The values of a message's body, and its signature: their types (D-Bus Specification, "Message Format").
pub struct BodyValues {
    values: Vec<Value>,
    signature: Signature,
}

impl Model for BodyValues {
    ghost use Rattle.std.specs.Prelude.{◌≡◌, List, map};
    ghost use Rattle.std.specs.Coded.{coded_list};
    ghost use Rattle.wire_tree.specs.Datum.{Datum, type_of};
    ghost use Rattle.wire_tree.specs.DatumCode.{datum_code};

    ghost Value = { List Datum };

    ghost coded = { coded_list datum_code };

    ghost view = { λ b. b.values.items };

    ghost invariant = { λ b. b.signature ≡ map type_of b.values.items };
}

impl Drop for BodyValues {
    fn drop(self) {
        let BodyValues {
            values: _,
            signature: _,
        } = self;
    }
}

impl BodyValues {
    ghost use Rattle.std.specs.Prelude.{◌≡◌, map};
    ghost use Rattle.wire_signature.specs.SingleType.{IsSignature};
    ghost use Rattle.wire_tree.specs.Datum.{type_of};
    ghost use Rattle.wire_body.specs.Arguments.{TellsBody};

    /// The body with these values, and the signature that their types make.
    ///
    /// # Errors
    ///
    /// [`VariantError::Signature`] exactly where the types together are no signature (D-Bus Specification, "Valid
    /// Signatures"), [`VariantError::Memory`] for want of memory. The values are given up.
    pub fn from_values(alloc: Global, values: Vec<Value>) -> Result<BodyValues, VariantError>
        ensures { TellsBody result values.items }
    {
        let mut text = String::new(alloc);
        write_types(&mut text, alloc, values.as_slice())?;
        let signature = Signature::try_from(alloc, text.as_str())?;
        Ok(BodyValues { values, signature })
    }

    /// The body with these values, of which this is known to be the signature.
    pub fn from_parts(values: Vec<Value>, signature: Signature) -> BodyValues
        requires { signature ≡ map type_of values.items }
        ensures { result ≡ values.items }
    {
        BodyValues { values, signature }
    }

    /// The values in their order, lent.
    pub fn values(&self) -> &[Value]
        ensures { result.now ≡ self.now }
    {
        self.values.as_slice()
    }

    /// The body's signature: the types of its values, one behind the other (D-Bus Specification, "Message Format").
    pub fn signature(&self) -> &Signature
        ensures types { result.now ≡ map type_of self.now }
        ensures valid { IsSignature (map type_of self.now) }
    {
        let signature = &self.signature;
        // Asking for the types tells the proof that they are within the limits.
        let _ = signature.types();
        signature
    }

    /// Gives the values back.
    pub fn into_values(self) -> Vec<Value>
        ensures { result.items ≡ self }
    {
        let BodyValues {
            values,
            signature: _,
        } = self;
        values
    }
}

/// Writes the texts of the values' types, one after another, at the end of `out`.
fn write_types(out: &mut String, alloc: Global, values: &[Value]) -> Result<(), VariantError>
    ensures text { OnOk result (string_bytes out.new ≡ string_bytes out.old ++ types_text (single_types_of (map type_of values.now))) }
    ensures fields { OnOk result (AllHaveFields (single_types_of (map type_of values.now))) }
    ensures error { IfErr result (λ e. e ≡ Memory) }
{
    for each in values {
        write_type(out, alloc, each)?;
    }
    Ok(())
}

fn write_type(out: &mut String, alloc: Global, value: &Value) -> Result<(), VariantError>
    ensures text { OnOk result (string_bytes out.new ≡ string_bytes out.old ++ type_text (type_of value.now)) }
    ensures fields { OnOk result (HasFields (type_of value.now)) }
    ensures error { IfErr result (λ e. e ≡ Memory) }
{
    let text = type_text(alloc, value.tree())?;
    out.push_str(text.as_str())?;
    Ok(())
}
