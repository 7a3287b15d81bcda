//! The source of a generated script: one piece for each message.
ghost use Rattle.std.specs.Prelude.{◌≡◌, ◌++◌, ◌+◌, ◌-◌, ◌<◌, ◌^◌, [], ◌∷◌, map, flat_map, OnOk, IfOk};
ghost use Rattle.std.specs.List.{range_with_len};
ghost use Rattle.peer_script.specs.Script.{Gave};
ghost use Rattle.peer_script.specs.Reading.{given};
ghost use Rattle.peer_gen.specs.Generated.{blocks, block_source, return_to, signal_with};

use crate::block::Block;
use std::alloc::{AllocError, Global};
use wire_framing::Piece;

/// What stands before the serial in a method return: the fixed header with the serial 1, and the head of its one field,
/// REPLY_SERIAL (D-Bus Specification, "Message Format").
const RETURN: [u8; 20] = [
    b'l', 2, 0, 1, 0, 0, 0, 0, 1, 0, 0, 0, 8, 0, 0, 0, 5, 1, b'u', 0,
];

/// What stands before the serial in a signal.
const SIGNAL: [u8; 8] = [b'l', 4, 0, 1, 0, 0, 0, 0];

/// The length of no header fields.
const NO_FIELDS: [u8; 4] = [0; 4];

/// The bytes of the method return to the call with this serial.
fn return_to(alloc: Global, serial: u32) -> Result<Vec<u8>, AllocError>
    ensures { IfOk result (λ bytes. bytes.items ≡ return_to serial) }
{
    let mut bytes = Vec::from_slice(alloc, &RETURN)?;
    bytes.extend_from_slice(&serial.to_le_bytes())?;
    Ok(bytes)
}

/// The bytes of the signal with this serial.
fn signal_with(alloc: Global, serial: u32) -> Result<Vec<u8>, AllocError>
    ensures { IfOk result (λ bytes. bytes.items ≡ signal_with serial) }
{
    let mut bytes = Vec::from_slice(alloc, &SIGNAL)?;
    bytes.extend_from_slice(&serial.to_le_bytes())?;
    bytes.extend_from_slice(&NO_FIELDS)?;
    Ok(bytes)
}

/// Appends a piece of these bytes.
fn push(pieces: &mut Vec<Piece>, bytes: Vec<u8>) -> Result<(), AllocError>
    ensures { OnOk result (given pieces.new.items ≡ given pieces.old.items ++ Gave bytes.items ∷ []) }
{
    pieces.push(Piece::Bytes(bytes))?;
    Ok(())
}

/// Appends the returns to the calls of a block, the greatest serial first.
fn push_returns(alloc: Global, pieces: &mut Vec<Piece>, block: Block) -> Result<(), AllocError>
    requires { block.first + block.calls < 2 ^ 32 }
    ensures { OnOk result (given pieces.new.items ≡ given pieces.old.items
        ++ map (λ index. Gave (return_to (block.first + block.calls - index))) (range_with_len 0 block.calls)) }
{
    for index in 0..block.calls {
        push(pieces, return_to(alloc, block.first + block.calls - index)?)?;
    }
    Ok(())
}

/// Appends the source of a block.
fn push_block(alloc: Global, pieces: &mut Vec<Piece>, block: Block) -> Result<(), AllocError>
    requires { block.first + block.calls < 2 ^ 32 }
    ensures { OnOk result (given pieces.new.items ≡ given pieces.old.items ++ block_source block) }
{
    push_returns(alloc, pieces, block)?;
    push(pieces, signal_with(alloc, block.number)?)
}

/// The source of the script of `count` calls.
pub(crate) fn generated_pieces(alloc: Global, count: u32) -> Result<Vec<Piece>, AllocError>
    ensures { IfOk result (λ pieces. given pieces.items ≡ flat_map block_source (blocks count)) }
{
    let mut pieces = Vec::new(alloc);
    for before in 0..Block::how_many(count) {
        push_block(alloc, &mut pieces, Block::after(before, count))?;
    }
    Ok(pieces)
}
