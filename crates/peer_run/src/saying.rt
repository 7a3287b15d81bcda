//! The statuses of the program, and what it says under them.
ghost use Rattle.peer_run.specs.Program.{memory_text, Says};

use wire_framing::{Refusal, Sink, write_all};

/// Done: what was asked for was printed.
pub(crate) const DONE: u8 = 0;
/// Want of memory.
pub(crate) const MEMORY: u8 = 1;
/// The words ask for nothing that the program does.
pub(crate) const USAGE: u8 = 2;
/// The input passes its limit or is no script.
pub(crate) const SCRIPT: u8 = 3;
/// The input failed.
pub(crate) const INPUT: u8 = 4;
/// The output failed.
pub(crate) const OUTPUT: u8 = 5;

/// Writes a text and gives the status; where that fails, the status of that.
pub(crate) fn say<O: Sink>(output: &mut O, text: &[u8], status: u8) -> u8
    ensures { Says status text.now (O.view output.old) (O.view output.new) result }
{
    match write_all(output, text) {
        Ok(()) => status,
        Err(Refusal::Failed) => OUTPUT,
        Err(Refusal::Memory) => MEMORY,
    }
}

/// Says that there is no memory.
pub(crate) fn say_memory<O: Sink>(output: &mut O) -> u8
    ensures { Says 1 memory_text (O.view output.old) (O.view output.new) result }
{
    say(output, b"memory\n", MEMORY)
}
