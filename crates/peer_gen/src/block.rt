//! The blocks of a generated script.
ghost use Rattle.std.specs.Prelude.{◌≡◌, ◌<◌, ◌≤◌, ◌+◌, ◌^◌};
ghost use Rattle.std.specs.Int.{div_ceil};
ghost use Rattle.peer_gen.specs.Generated.{block_after};

/// How many calls a block has; the last block may have fewer.
const CALLS: u32 = 7;

/// A block of a generated script: calls whose returns are read before the next calls are sent.
#[derive(Clone, Copy)]
pub(crate) struct Block {
    /// The block's number, from 1 on.
    pub(crate) number: u32,
    /// The number of its first call, from 0 on.
    pub(crate) first: u32,
    /// How many calls it has.
    pub(crate) calls: u32,
}

impl Block {
    /// How many blocks a script of `count` calls has.
    pub(crate) fn how_many(count: u32) -> u32
        ensures { result ≡ div_ceil count 7 }
    {
        count.div_ceil(CALLS)
    }

    /// The block after `before` others of a script of `count` calls.
    pub(crate) fn after(before: u32, count: u32) -> Block
        requires { before < div_ceil count 7 }
        ensures value { result ≡ block_after count before }
        ensures few { result.calls ≤ 7 }
        ensures serials { result.first + result.calls < 2 ^ 32 }
    {
        let first = CALLS * before;
        Block {
            number: before + 1,
            first,
            calls: CALLS.min(count - first),
        }
    }
}
