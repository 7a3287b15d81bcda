//! The Rust types whose values are numbers of a fixed type, which lie packed in an array.
ghost use Rattle.std.specs.Prelude.{◌==◌, ◌≡◌, ◌<◌, ℕ};
ghost use Rattle.std.specs.Int.{cast_signed, cast_unsigned, w16, w32, w64};
ghost use Rattle.wire_tree.specs.Datum.{FixedType, boolean, bound, byte, double, int16, int32, int64, uint16, uint32, uint64, unix_fd};
ghost use Rattle.wire_tree.specs.Packed.{bit, fixed_type};

use wire_tree::{Fixed, Fixed16, Fixed32, Fixed64};

/// A Rust type whose values are the numbers of a fixed type (D-Bus Specification, "Basic types", "Fixed types").
pub trait Number: Copy {
    /// the fixed type
    ghost fixed: { FixedType };

    /// the bits of a value: signed ones in two's complement
    ghost bits: { Self → ℕ };

    /// the value of bits
    ghost of_bits: { ℕ → Self };

    /// The fixed type.
    fn fixed() -> Fixed
        ensures { fixed_type result ≡ fixed };

    /// The bits of a value; of these it is the value.
    fn bits(self) -> u64
        ensures value { result ≡ bits self }
        ensures within { result < bound fixed }
        ensures round { of_bits (bits self) ≡ self };

    /// The value of bits; these are its bits.
    fn from_bits(number: u64) -> Self
        requires { number < bound fixed }
        ensures value { result ≡ of_bits number }
        ensures round { bits result ≡ number };
}

/// A double, by its 64 raw bits (D-Bus Specification, "Basic types"): equal where they are.
#[derive(Clone, Copy, Debug, PartialEq, Eq, Hash)]
pub struct Double {
    pub bits: u64,
}

/// The index of a file descriptor in its message's list (D-Bus Specification, "Basic types").
#[derive(Clone, Copy, Debug, PartialEq, Eq, Hash)]
pub struct Fd {
    pub index: u32,
}

impl Number for u8 {
    ghost fixed = { byte };

    ghost bits = { λ x. x };

    ghost of_bits = { λ n. n };

    fn fixed() -> Fixed {
        Fixed::Byte
    }

    fn bits(self) -> u64 {
        u64::from(self)
    }

    fn from_bits(number: u64) -> u8 {
        number as u8
    }
}

impl Number for bool {
    ghost fixed = { boolean };

    ghost bits = { bit };

    ghost of_bits = { λ n. n == 1 };

    fn fixed() -> Fixed {
        Fixed::Boolean
    }

    fn bits(self) -> u64 {
        u64::from(self)
    }

    fn from_bits(number: u64) -> bool {
        number == 1
    }
}

#[tactic(auto, using(wire_tree::proofs::Signs::signs))]
impl Number for i16 {
    ghost fixed = { int16 };

    ghost bits = { cast_unsigned w16 };

    ghost of_bits = { cast_signed w16 };

    fn fixed() -> Fixed {
        Fixed::Of16(Fixed16::Int16)
    }

    fn bits(self) -> u64 {
        u64::from(self.cast_unsigned())
    }

    fn from_bits(number: u64) -> i16 {
        (number as u16).cast_signed()
    }
}

impl Number for u16 {
    ghost fixed = { uint16 };

    ghost bits = { λ x. x };

    ghost of_bits = { λ n. n };

    fn fixed() -> Fixed {
        Fixed::Of16(Fixed16::Uint16)
    }

    fn bits(self) -> u64 {
        u64::from(self)
    }

    fn from_bits(number: u64) -> u16 {
        number as u16
    }
}

#[tactic(auto, using(wire_tree::proofs::Signs::signs))]
impl Number for i32 {
    ghost fixed = { int32 };

    ghost bits = { cast_unsigned w32 };

    ghost of_bits = { cast_signed w32 };

    fn fixed() -> Fixed {
        Fixed::Of32(Fixed32::Int32)
    }

    fn bits(self) -> u64 {
        u64::from(self.cast_unsigned())
    }

    fn from_bits(number: u64) -> i32 {
        (number as u32).cast_signed()
    }
}

impl Number for u32 {
    ghost fixed = { uint32 };

    ghost bits = { λ x. x };

    ghost of_bits = { λ n. n };

    fn fixed() -> Fixed {
        Fixed::Of32(Fixed32::Uint32)
    }

    fn bits(self) -> u64 {
        u64::from(self)
    }

    fn from_bits(number: u64) -> u32 {
        number as u32
    }
}

#[tactic(auto, using(wire_tree::proofs::Signs::signs))]
impl Number for i64 {
    ghost fixed = { int64 };

    ghost bits = { cast_unsigned w64 };

    ghost of_bits = { cast_signed w64 };

    fn fixed() -> Fixed {
        Fixed::Of64(Fixed64::Int64)
    }

    fn bits(self) -> u64 {
        self.cast_unsigned()
    }

    fn from_bits(number: u64) -> i64 {
        number.cast_signed()
    }
}

impl Number for u64 {
    ghost fixed = { uint64 };

    ghost bits = { λ x. x };

    ghost of_bits = { λ n. n };

    fn fixed() -> Fixed {
        Fixed::Of64(Fixed64::Uint64)
    }

    fn bits(self) -> u64 {
        self
    }

    fn from_bits(number: u64) -> u64 {
        number
    }
}

impl Number for Double {
    ghost fixed = { double };

    ghost bits = { λ x. x.bits };

    ghost of_bits = { λ n. record { bits = n } };

    fn fixed() -> Fixed {
        Fixed::Of64(Fixed64::Double)
    }

    fn bits(self) -> u64 {
        self.bits
    }

    fn from_bits(number: u64) -> Double {
        Double { bits: number }
    }
}

impl Number for Fd {
    ghost fixed = { unix_fd };

    ghost bits = { λ x. x.index };

    ghost of_bits = { λ n. record { index = n } };

    fn fixed() -> Fixed {
        Fixed::Of32(Fixed32::UnixFd)
    }

    fn bits(self) -> u64 {
        u64::from(self.index)
    }

    fn from_bits(number: u64) -> Fd {
        Fd {
            index: number as u32,
        }
    }
}
