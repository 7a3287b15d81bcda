//! The commands of a generated script.
ghost use Rattle.std.specs.Prelude.{◌≡◌, ◌+◌, ◌≤◌, ◌<◌, ◌^◌, ◌++◌, [], ◌∷◌, replicate, map, flat_map, OnOk, IfOk};
ghost use Rattle.std.specs.List.{range_with_len};
ghost use Rattle.peer_words.specs.declared.words.Words.TheVariants.{Read};
ghost use Rattle.peer_gen.specs.Generated.{blocks, block_commands, opening, closing};
ghost use Rattle.peer_gen.specs.Generated.{command, call, poll, take, open_rule};

use crate::block::Block;
use peer_words::{CallFlags, CallOp, Command, Outgoing, OutgoingKind, StreamOp, Words};
use std::alloc::{AllocError, Global};
use wire_value::Bytes;

/// Appends a command of lane 0.
fn push(commands: &mut Vec<Command>, words: Words) -> Result<(), AllocError>
    ensures { OnOk result (commands.new.items ≡ commands.old.items ++ command words ∷ []) }
{
    commands.push(Command { lane: 0, words })?;
    Ok(())
}

/// Appends a command of lane 0 so many times.
fn push_times(
    alloc: Global,
    commands: &mut Vec<Command>,
    words: &Words,
    times: u32,
) -> Result<(), AllocError>
    ensures { OnOk result (commands.new.items ≡ commands.old.items ++ replicate times (command words.now)) }
{
    for _time in 0..times {
        push(commands, words.try_clone(alloc)?)?;
    }
    Ok(())
}

/// The words `call - / - do - -`.
fn call(alloc: Global) -> Result<Words, AllocError>
    ensures { IfOk result (λ words. words ≡ call) }
{
    Ok(Words::Send(Outgoing {
        kind: OutgoingKind::Call,
        destination: None,
        path: Bytes::from_slice(alloc, b"/")?,
        interface: None,
        member: Bytes::from_slice(alloc, b"do")?,
        flags: CallFlags {
            no_reply_expected: false,
            no_auto_start: false,
            allow_interactive_auth: false,
            big: false,
            descriptor: false,
        },
        body: None,
    }))
}

/// The words `take S`.
fn take(stream: u64) -> Words
    ensures { result ≡ take stream }
{
    Words::OfStream {
        stream,
        op: StreamOp::Take,
    }
}

/// Appends calls of `do` at `/`.
fn push_calls(alloc: Global, commands: &mut Vec<Command>, times: u32) -> Result<(), AllocError>
    ensures { OnOk result (commands.new.items ≡ commands.old.items ++ replicate times (command call)) }
{
    let words = call(alloc)?;
    push_times(alloc, commands, &words, times)
}

/// Appends reads of the next message.
fn push_reads(alloc: Global, commands: &mut Vec<Command>, times: u32) -> Result<(), AllocError>
    ensures { OnOk result (commands.new.items ≡ commands.old.items ++ replicate times (command Read)) }
{
    push_times(alloc, commands, &Words::Read, times)
}

/// Appends a poll of each call of a block, in the order of the calls.
fn push_polls(commands: &mut Vec<Command>, block: Block) -> Result<(), AllocError>
    requires { block.first + block.calls < 2 ^ 32 }
    ensures { OnOk result (commands.new.items ≡ commands.old.items
        ++ map (λ index. command (poll (block.first + index))) (range_with_len 0 block.calls)) }
{
    for index in 0..block.calls {
        let call = u64::from(block.first + index);
        let op = CallOp::Poll;
        push(commands, Words::OfCall { call, op })?;
    }
    Ok(())
}

/// Appends takes of a stream's next item.
fn push_takes(
    alloc: Global,
    commands: &mut Vec<Command>,
    stream: u64,
    times: u32,
) -> Result<(), AllocError>
    ensures { OnOk result (commands.new.items ≡ commands.old.items ++ replicate times (command (take stream))) }
{
    let words = take(stream);
    push_times(alloc, commands, &words, times)
}

/// Appends the opening of a stream of the messages that a rule accepts.
fn push_open(alloc: Global, commands: &mut Vec<Command>, rule: &[u8]) -> Result<(), AllocError>
    ensures { OnOk result (commands.new.items ≡ commands.old.items ++ command (open_rule rule.now) ∷ []) }
{
    let words = Words::Open {
        max_queued: None,
        rule: Bytes::from_slice(alloc, rule)?,
    };
    push(commands, words)
}

/// Appends the first commands, which open the streams.
fn push_opening(alloc: Global, commands: &mut Vec<Command>) -> Result<(), AllocError>
    ensures { OnOk result (commands.new.items ≡ commands.old.items ++ opening) }
{
    push(commands, Words::Stream)?;
    push_open(alloc, commands, b"type='signal'")?;
    push_open(alloc, commands, b"type='method_return'")
}

/// Appends the commands of a block.
fn push_block(alloc: Global, commands: &mut Vec<Command>, block: Block) -> Result<(), AllocError>
    requires few { block.calls ≤ 7 }
    requires serials { block.first + block.calls < 2 ^ 32 }
    ensures { OnOk result (commands.new.items ≡ commands.old.items ++ block_commands block) }
{
    push_calls(alloc, commands, block.calls)?;
    push_reads(alloc, commands, block.calls + 1)?;
    push_polls(commands, block)?;
    push_takes(alloc, commands, 0, block.calls + 1)?;
    push(commands, take(1))?;
    push_takes(alloc, commands, 2, block.calls)
}

/// Appends the commands of all blocks.
fn push_blocks(alloc: Global, commands: &mut Vec<Command>, count: u32) -> Result<(), AllocError>
    ensures { OnOk result (commands.new.items ≡ commands.old.items ++ flat_map block_commands (blocks count)) }
{
    for before in 0..Block::how_many(count) {
        push_block(alloc, commands, Block::after(before, count))?;
    }
    Ok(())
}

/// Appends the last commands: one read more, and one take more from each stream.
fn push_closing(commands: &mut Vec<Command>) -> Result<(), AllocError>
    ensures { OnOk result (commands.new.items ≡ commands.old.items ++ closing) }
{
    push(commands, Words::Read)?;
    push(commands, take(0))?;
    push(commands, take(1))?;
    push(commands, take(2))
}

/// The commands of the script of `count` calls.
pub(crate) fn generated_commands(alloc: Global, count: u32) -> Result<Vec<Command>, AllocError>
    ensures { IfOk result (λ commands. commands.items ≡ opening ++ flat_map block_commands (blocks count) ++ closing) }
{
    let mut commands = Vec::new(alloc);
    push_opening(alloc, &mut commands)?;
    push_blocks(alloc, &mut commands, count)?;
    push_closing(&mut commands)?;
    Ok(commands)
}
