//! A generated script is run over a source and a sink in memory, and the line of its numbers printed.
ghost use Rattle.std.specs.Prelude.{◌≤◌, ◌<◌, ◌^◌, length, IfOk};
ghost use Rattle.peer_turns.specs.Objects.{handed};
ghost use Rattle.peer_run.specs.Program.{IsGenerated, Numbers, Ends};

use crate::saying::{DONE, say, say_memory};
use crate::scripted::run_in_memory;
use object_interface::Interface;
use peer_conn::RunError;
use peer_gen::{generated_script, put_gen_line};
use std::alloc::Global;
use wire_framing::Sink;

/// The line of a run of the generated script of so many calls, at most 100,000.
fn numbers_of<B: Interface>(alloc: Global, count: u32, boxes: Vec<B>) -> Result<Vec<u8>, RunError>
    requires most { count ≤ 100000 }
    requires few { length boxes.items < 2 ^ 32 }
    ensures { IfOk result (λ text. IsGenerated (handed B.meaning B.state boxes.items) count text.items) }
{
    let (setup, commands) = generated_script(alloc, count)?;
    let (transcript, sink) = run_in_memory(alloc, &setup, boxes, commands.as_slice())?;
    let mut text = Vec::new(alloc);
    put_gen_line(
        alloc,
        &mut text,
        transcript.entries.as_slice(),
        sink.bytes().len(),
    )?;
    Ok(text)
}

/// Runs the generated script of so many calls, at most 100,000, and prints the line of its numbers.
pub(crate) fn run_generated<O: Sink, B: Interface>(
    alloc: Global,
    count: u32,
    boxes: Vec<B>,
    output: &mut O,
) -> u8
    requires most { count ≤ 100000 }
    requires few { length boxes.items < 2 ^ 32 }
    ensures { Ends (Numbers (handed B.meaning B.state boxes.items) count) (O.view output.old) (O.view output.new) result }
{
    match numbers_of(alloc, count, boxes) {
        Ok(text) => say(output, text.as_slice(), DONE),
        Err(RunError::Memory) => say_memory(output),
    }
}
