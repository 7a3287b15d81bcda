//! Types and signatures of D-Bus (D-Bus Specification, "Type System").
#![tactic(auto)]

pub use crate::basic::BasicType;
pub use crate::error::VariantError;
pub use crate::laws::{
    equal_types_are_one, one_list_of_types, one_signature_text, one_type, one_type_text,
    reading_a_signature, reading_a_type,
};
pub use crate::signature::Signature;
pub use crate::text::{MAX_ARRAYS, MAX_LENGTH, MAX_STRUCTS, first_type, is_signature};
pub use crate::value_type::{TypeNode, ValueType};

mod basic;
mod display;
mod error;
mod laws;
mod read;
mod signature;
mod text;
mod texting;
mod value_type;
mod walk;
