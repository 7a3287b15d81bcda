//! The generated script.
ghost use Rattle.std.specs.Prelude.{◌≡◌, ◌≤◌, ◌+◌, ◌*◌, length, IfOk};
ghost use Rattle.std.specs.List.{AllByRecursion};
ghost use Rattle.peer_words.specs.declared.words.Command.{Command};
ghost use Rattle.peer_words.specs.OfRun.{IsOfRun};
ghost use Rattle.peer_script.specs.Reading.{script_with};
ghost use Rattle.peer_gen.specs.Generated.{generated};

use crate::commands::generated_commands;
use crate::pieces::generated_pieces;
use peer_script::{PeerKind, Setup};
use peer_words::Command;
use std::alloc::{AllocError, Global};

/// Makes the script of `count` calls: its setup and its commands, of a direct peer without a name.
///
/// - The first commands open a stream of all messages, one of the signals and one of the method returns, with the numbers
///   0, 1 and 2.
/// - For each block of seven calls, of which the last may have fewer, the commands are: its calls of `do` at `/`; a read
///   for each return and one for a signal; a poll of each call, in the order of the calls; and takes of all items of the
///   block, of stream 0 first.
/// - The last commands read once more, which finds the end of the source, and take once more from each stream.
/// - The source has one piece for each message: for each block the returns to its calls, the greatest serial first, and a
///   signal whose serial is the block's number, from 1 on (D-Bus Specification, "Message Format").
///
/// The script has at most 6 * `count` + 45 commands. Memory grows linearly with `count`.
///
/// # Errors
///
/// AllocError if out of memory.
pub fn generated_script(alloc: Global, count: u32) -> Result<(Setup, Vec<Command>), AllocError>
    ensures exact { IfOk result (λ x. script_with x.0 x.1.items ≡ generated count) }
    ensures runs { IfOk result (λ x. AllByRecursion (λ (c : Command). IsOfRun c.words) x.1.items) }
    ensures few { IfOk result (λ x. length x.1.items ≤ 6 * count + 45) }
{
    let pieces = generated_pieces(alloc, count)?;
    let commands = generated_commands(alloc, count)?;
    let setup = Setup {
        kind: PeerKind::Direct(None),
        queue: None,
        machine: None,
        fds: false,
        outfault: None,
        pieces,
    };
    Ok((setup, commands))
}
