//! Byte orders.

/// The order of the bytes of a number (D-Bus Specification, "Marshaling").
#[derive(Clone, Copy, Debug, PartialEq, Eq, Hash)]
pub enum Endian {
    /// The least byte stands first.
    Little,
    /// The greatest byte stands first.
    Big,
}
