//! Where the texts of a message's header stand in its bytes.
ghost use Rattle.std.specs.Prelude.{◌≡◌, ◌≤◌, ℕ, List, IfSome, option_map};
ghost use Rattle.wire_message.specs.Field.{with_field};
ghost use Rattle.wire_message.specs.FieldValue.{HasRoom, StandsAt, field_of, value_of};
ghost use Rattle.wire_message.specs.HeaderField.{with_known};
ghost use Rattle.wire_message.specs.FieldOffsets.{found_fields, AreSpans};

use crate::field::{FieldCode, FieldsOf};

/// A field's value.
#[derive(Clone, Copy)]
pub(crate) enum FieldValue<'a> {
    Text(&'a [u8]),
    Number(u32),
}

/// From the offset of the first byte to the offset behind the last.
#[derive(Clone, Copy)]
pub(crate) struct Span {
    pub(crate) start: usize,
    pub(crate) end: usize,
}

/// The header fields: texts by their offsets, and numbers.
pub(crate) type FieldOffsets = FieldsOf<Span>;

impl FieldsOf<Span> {
    /// Puts the value of a field whose last byte stands before the place `next` in place of an earlier one.
    #[tactic(auto, unfolding(crate::specs::Field::with_field), using(crate::proofs::Each::read_with_number))]
    pub(crate) fn set_value(&mut self, code: FieldCode, field_value: FieldValue<'_>, next: usize)
        requires { HasRoom next field_value }
        ensures field { (bytes : List ℕ) → StandsAt bytes next field_value.entry → found_fields bytes self.new ≡ with_field (record { code = code; value = value_of field_value.entry }) (found_fields bytes self.old) }
        ensures spans { (n : ℕ) → AreSpans n self.old → next ≤ n → AreSpans n self.new }
    {
        match field_value {
            FieldValue::Text(text) => {
                let end = next - 1;
                let start = end - text.len();
                self.set_text(code, Span { start, end })
            }
            FieldValue::Number(number) => self.set_number(code, number),
        }
    }

    /// Puts the field, whose last byte stands before the place `next`, in place of an earlier one, if a known one was
    /// found.
    pub(crate) fn set_field(&mut self, field: Option<(FieldCode, FieldValue<'_>)>, next: usize)
        requires { IfSome field (λ x. HasRoom next x.1) }
        ensures field { (bytes : List ℕ) → IfSome field.entry (λ x. StandsAt bytes next x.1) → found_fields bytes self.new ≡ with_known (option_map field_of field.entry) (found_fields bytes self.old) }
        ensures spans { (n : ℕ) → AreSpans n self.old → next ≤ n → AreSpans n self.new }
    {
        if let Some((code, field_value)) = field {
            self.set_value(code, field_value, next);
        }
    }
}
