//! Padding.
ghost use Rattle.std.specs.Prelude.{◌≡◌, ◌+◌, ◌%◌, ◌≤◌, ◌<◌};
ghost use Rattle.wire_number.specs.Number.{pad};

/// How many bytes of padding bring a place to the next multiple of `align` (D-Bus Specification, "Marshaling": a value
/// begins at a multiple of its alignment, counted from the message's first byte). The alignment is at least 1.
#[tactic(auto, using(crate::proofs::Multiples::paddings))]
pub fn padding_for_n_bytes(value: usize, align: usize) -> usize
    requires { 1 ≤ align }
    ensures exact { result ≡ pad value align }
    ensures small { result < align }
    ensures multiple { (value + result) % align ≡ 0 }
{
    (align - value % align) % align
}

/// How many bytes of padding bring a place to the next multiple of 8.
pub fn padding_for_8_bytes(value: usize) -> usize
    ensures exact { result ≡ pad value 8 }
    ensures small { result < 8 }
{
    padding_for_n_bytes(value, 8)
}
