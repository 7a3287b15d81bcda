//! Where a reading stands.
ghost use Rattle.std.specs.Prelude.{◌+◌, ◌<◌, ◌^◌, length};

/// A place, counted from a multiple of 8, and the bytes from there on.
#[derive(Clone, Copy, Debug)]
pub struct Reader<'a> {
    pub place: usize,
    pub rest: &'a [u8],
    pub ghost in_range: { place + length rest.now < 2 ^ 64 },
}
