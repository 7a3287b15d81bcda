//! Numbers of two, four and eight bytes.
ghost use Rattle.std.specs.Prelude.{◌≡◌, ◌≤◌, ◌+◌, length};
ghost use Rattle.std.specs.Int.{w16, w32, w64};
ghost use Rattle.wire_number.specs.Number.{number, number_text, number_at};

use crate::endian::Endian;

/// The number in the four bytes from a place on (D-Bus Specification, "Marshaling", `UINT32`).
pub fn read_u32(order: Endian, bytes: &[u8], place: usize) -> u32
    requires { place + 4 ≤ length bytes.now }
    ensures { result ≡ number_at w32 order place bytes.now }
{
    let four = [
        bytes[place],
        bytes[place + 1],
        bytes[place + 2],
        bytes[place + 3],
    ];
    match order {
        Endian::Little => u32::from_le_bytes(four),
        Endian::Big => u32::from_be_bytes(four),
    }
}

/// The two bytes of a number (D-Bus Specification, "Marshaling", `UINT16`).
pub fn write_u16(order: Endian, value: u16) -> [u8; 2]
    ensures { result ≡ number_text w16 order value }
{
    match order {
        Endian::Little => value.to_le_bytes(),
        Endian::Big => value.to_be_bytes(),
    }
}

/// The four bytes of a number (D-Bus Specification, "Marshaling", `UINT32`).
pub fn write_u32(order: Endian, value: u32) -> [u8; 4]
    ensures { result ≡ number_text w32 order value }
{
    match order {
        Endian::Little => value.to_le_bytes(),
        Endian::Big => value.to_be_bytes(),
    }
}

/// The eight bytes of a number (D-Bus Specification, "Marshaling", `UINT64`).
pub fn write_u64(order: Endian, value: u64) -> [u8; 8]
    ensures { result ≡ number_text w64 order value }
{
    match order {
        Endian::Little => value.to_le_bytes(),
        Endian::Big => value.to_be_bytes(),
    }
}
