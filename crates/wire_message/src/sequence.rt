//! The places of messages among those that a peer read.
ghost use Rattle.std.specs.Prelude.{◌≡◌, ◌^◌, ◌-◌, ◌≤◌};

/// The place of a message among those that a peer read, from 1 on; 0 for one that wasn't read.
#[derive(Clone, Copy, PartialEq, Eq, PartialOrd, Ord, Hash, Debug)]
pub struct Sequence(pub u64);

impl Sequence {
    /// Behind every message: 2^64 - 1.
    pub const LAST: Sequence = Sequence(u64::MAX);
}

/// That of a message that wasn't read.
impl Default for Sequence {
    ghost is_default = { λ s. s.0 ≡ 0 };

    fn default() -> Sequence {
        Sequence(0)
    }
}

/// [`Sequence::LAST`] is 2^64 - 1, so that none stands behind it.
pub fn none_is_behind_the_last(sequence: Sequence)
    ensures value { Sequence.LAST.0 ≡ 2 ^ 64 - 1 }
    ensures last { sequence.0 ≤ Sequence.LAST.0 }
{}
