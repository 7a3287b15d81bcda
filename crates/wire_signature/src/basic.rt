//! The basic types.
ghost use Rattle.std.specs.Prelude.{◌≡◌};
ghost use Rattle.wire_signature.specs.SingleType.{basic_alignment, basic_of, letter};

/// A type whose values hold no other value (D-Bus Specification, "Basic types").
#[derive(Clone, Copy, Debug, PartialEq, Eq, Hash)]
pub enum BasicType {
    Byte,
    Boolean,
    Int16,
    Uint16,
    Int32,
    Uint32,
    Int64,
    Uint64,
    Double,
    String,
    ObjectPath,
    Signature,
    UnixFd,
}

impl BasicType {
    /// The type of an ASCII code, as `y` for a byte (D-Bus Specification, "Summary of types").
    pub fn from_letter(letter: u8) -> Option<BasicType>
        ensures { result ≡ basic_of letter }
    {
        match letter {
            b'y' => Some(BasicType::Byte),
            b'b' => Some(BasicType::Boolean),
            b'n' => Some(BasicType::Int16),
            b'q' => Some(BasicType::Uint16),
            b'i' => Some(BasicType::Int32),
            b'u' => Some(BasicType::Uint32),
            b'x' => Some(BasicType::Int64),
            b't' => Some(BasicType::Uint64),
            b'd' => Some(BasicType::Double),
            b's' => Some(BasicType::String),
            b'o' => Some(BasicType::ObjectPath),
            b'g' => Some(BasicType::Signature),
            b'h' => Some(BasicType::UnixFd),
            _ => None,
        }
    }

    /// The ASCII code of the type (D-Bus Specification, "Summary of types").
    pub fn letter(self) -> u8
        ensures { result ≡ letter self }
    {
        match self {
            BasicType::Byte => b'y',
            BasicType::Boolean => b'b',
            BasicType::Int16 => b'n',
            BasicType::Uint16 => b'q',
            BasicType::Int32 => b'i',
            BasicType::Uint32 => b'u',
            BasicType::Int64 => b'x',
            BasicType::Uint64 => b't',
            BasicType::Double => b'd',
            BasicType::String => b's',
            BasicType::ObjectPath => b'o',
            BasicType::Signature => b'g',
            BasicType::UnixFd => b'h',
        }
    }

    /// The boundary on which a value of the type begins, in bytes (D-Bus Specification, "Marshaling").
    pub fn alignment(self) -> usize
        ensures { result ≡ basic_alignment self }
    {
        match self {
            BasicType::Byte | BasicType::Signature => 1,
            BasicType::Int16 | BasicType::Uint16 => 2,
            BasicType::Int64 | BasicType::Uint64 | BasicType::Double => 8,
            _ => 4,
        }
    }
}
