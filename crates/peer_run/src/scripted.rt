//! A script is read, run over a source and a sink in memory, and its transcript printed.
ghost use Rattle.std.specs.Prelude.{ℕ, codes, decimal, ◌∷◌, ◌++◌, ◌≡◌, ◌≢◌, ◌<◌, ◌⊎◌, ◌^◌, length, true, List, [], Some, Ok, IfOk, IfSome};
ghost use Rattle.std.specs.List.{AllByRecursion};
ghost use Rattle.peer_words.specs.declared.words.Command.{Command};
ghost use Rattle.peer_words.specs.OfRun.{IsOfRun};
ghost use Rattle.wire_framing.specs.Views.{SourceView};
ghost use Rattle.peer_script.specs.Reading.{IsWithin, script_of, script_with};
ghost use Rattle.peer_turns.specs.Objects.{handed};
ghost use Rattle.peer_run.specs.Histories.{IsHistory};
ghost use Rattle.peer_run.specs.Program.{memory_text, Transcribes, Ends, Says};

use crate::run::run_peer_of;
use crate::saying::{DONE, INPUT, OUTPUT, SCRIPT, say, say_memory};
use object_interface::Interface;
use peer_conn::RunError;
use peer_route::Command;
use peer_script::{ScriptError, Setup, Transcript, Word, read_script, write_transcript};
use std::alloc::Global;
use wire_framing::{MemorySink, MemorySource, Refusal, Sink, Source};

/// A sink that fails, and takes file descriptors, where the setup says so.
fn sink_of(alloc: Global, outfault: Option<u64>, takes_fds: bool) -> MemorySink
    ensures bytes { result.bytes.items ≡ [] }
    ensures room { result.room ≡ outfault }
    ensures fds { result.takes_fds ≡ takes_fds }
{
    match outfault {
        Some(count) => MemorySink::with_fault(alloc, count, takes_fds),
        None => MemorySink::new(alloc, takes_fds),
    }
}

/// Runs the commands over the setup's pieces and a sink of its kind.
pub(crate) fn run_in_memory<B: Interface>(
    alloc: Global,
    setup: &Setup,
    boxes: Vec<B>,
    commands: &[Command],
) -> Result<(Transcript, MemorySink), RunError>
    requires runs { AllByRecursion (λ (c : Command). IsOfRun c.words) commands.now }
    requires few { length boxes.items < 2 ^ 32 }
    ensures { IfOk result (λ x. IsHistory (handed B.meaning B.state boxes.items) (script_with setup.now commands.now) x.0.entries.items x.1.bytes.items) }
{
    let mut source = MemorySource::new(&setup.pieces);
    let mut sink = sink_of(alloc, setup.outfault, setup.fds);
    let transcript = run_peer_of(alloc, setup, &mut source, &mut sink, boxes, commands)?;
    Ok((transcript, sink))
}

/// Runs the commands, which were read of this input, and prints the transcript.
fn run_commands<O: Sink, B: Interface>(
    alloc: Global,
    setup: &Setup,
    boxes: Vec<B>,
    commands: &[Command],
    output: &mut O,
) -> u8
    requires runs { AllByRecursion (λ (c : Command). IsOfRun c.words) commands.now }
    requires few { length boxes.items < 2 ^ 32 }
    ensures { (before after : SourceView) → before.stop ≢ Some true
        → IfSome before.left (λ bytes. IsWithin bytes × (script_of bytes ≡ Ok (script_with setup.now commands.now)))
        → Ends (Transcribes (handed B.meaning B.state boxes.items) before after) (O.view output.old) (O.view output.new) result }
{
    match run_in_memory(alloc, setup, boxes, commands) {
        Ok((transcript, sink)) => {
            match write_transcript(alloc, setup, &transcript, sink.bytes(), output) {
                Ok(()) => DONE,
                Err(Refusal::Failed) => OUTPUT,
                Err(Refusal::Memory) => say_memory(output),
            }
        }
        Err(RunError::Memory) => say_memory(output),
    }
}

/// Says which line is the first outside.
fn say_line<O: Sink>(alloc: Global, output: &mut O, line: u64) -> u8
    ensures { Says 3 (codes "script: line " ++ decimal line ++ 10 ∷ []) (O.view output.old) (O.view output.new) result
        ⊎ Says 1 memory_text (O.view output.old) (O.view output.new) result }
{
    match format!(in alloc; "script: line {line}\n") {
        Ok(text) => say(output, text.as_bytes(), SCRIPT),
        Err(_) => say_memory(output),
    }
}

/// Reads a script to its end and runs it.
pub(crate) fn run_script<I: Source, O: Sink, B: Interface>(
    alloc: Global,
    input: &mut I,
    output: &mut O,
    boxes: Vec<B>,
) -> u8
    requires few { length boxes.items < 2 ^ 32 }
    ensures { Ends (Transcribes (handed B.meaning B.state boxes.items) (I.view input.old) (I.view input.new)) (O.view output.old) (O.view output.new) result }
{
    match read_script(alloc, Word::Run, input) {
        Ok((setup, commands)) => { run_commands(alloc, &setup, boxes, commands.as_slice(), output) }
        Err(ScriptError::Memory) => say_memory(output),
        Err(ScriptError::InputFault) => say(output, b"input fault\n", INPUT),
        Err(ScriptError::Limit) => say(output, b"script: limit\n", SCRIPT),
        Err(ScriptError::Line(line)) => say_line(alloc, output, line),
    }
}
