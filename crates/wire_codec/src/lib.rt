//! Values of D-Bus from their bytes and to them (D-Bus Specification, "Marshaling (Wire Format)"). Names, types, trees and what
//! walks over bytes without memory stand in crates below, and are found here too.
#![tactic(auto)]

pub use crate::basics::read_number;
pub use crate::decoding::decode;
pub use crate::depth::is_within;
pub use crate::encoder::Encoder;
pub use crate::encoding::encode;
pub use crate::error::EncodeError;
pub use crate::number::{Double, Fd, Number};
pub use crate::opening::{OpenArray, close_array, open_array};
pub use crate::read::read_inner;
pub use crate::read_packed::read_numbers;
pub use crate::write::{write_value, write_variant};
pub use crate::write_leaf::{write_number, write_path, write_signature, write_string};
pub use crate::write_packed::{write_bytes, write_numbers};
pub use wire_encoding::{
    MAX_ARRAY_LENGTH, MAX_DEPTH, boundary, no_encoding_begins_another, one_encoding, one_value,
    skip, skip_by_text, utf8,
};
pub use wire_names::{
    BusName, Bytes, ErrorName, InterfaceName, MemberName, NamesError, ObjectPath, OwnedBusName,
    OwnedErrorName, OwnedInterfaceName, OwnedMemberName, OwnedObjectPath, OwnedUniqueName,
    OwnedWellKnownName, Text, UniqueName, WellKnownName, only_the_bus_is_both,
};
pub use wire_number::{
    Endian, Reader, padding_for_8_bytes, padding_for_n_bytes, read_u32, write_u32,
};
pub use wire_signature::{
    BasicType, MAX_ARRAYS, MAX_LENGTH, MAX_STRUCTS, Signature, TypeNode, ValueType, VariantError,
    first_type, is_signature, one_list_of_types, one_signature_text, one_type, one_type_text,
    reading_a_signature, reading_a_type,
};
pub use wire_tree::{
    Entries, Fixed, Fixed16, Fixed32, Fixed64, Inner, Numbers, Tree, Trees, Value, equal_is_one,
    number_of, type_text, variants_hold_values,
};

mod basics;
mod decoding;
mod depth;
mod encoder;
mod encoding;
mod error;
mod number;
mod opening;
mod packed;
mod read;
mod read_packed;
mod write;
mod write_leaf;
mod write_packed;
