//! The program with its own interfaces.
ghost use Rattle.std.specs.Prelude.{◌≤◌, map, string_bytes};
ghost use Rattle.peer_boxes.specs.Own.{own_meaning, own_state, own_interfaces};
ghost use Rattle.peer_turns.specs.Objects.{handed};
ghost use Rattle.peer_run.specs.Program.{Prints, Ends};

use crate::main_call::print;
use crate::saying::say_memory;
use peer_boxes::own_interfaces;
use std::alloc::Global;
use wire_framing::{Sink, Source};

/// The program as its `main` runs it: [`peer_main`](crate::peer_main) with the program's own interfaces, by their numbers from 0 on
/// (`own_interfaces` of `peer_boxes`). The status is that of `peer_main`; it is 1 if there is no memory for the interfaces.
pub fn program_main<I: Source, O: Sink>(
    alloc: Global,
    words: &[String],
    input: &mut I,
    output: &mut O,
) -> u8
    ensures ends { Ends (Prints (handed own_meaning own_state own_interfaces) (map (λ word. string_bytes word) words.now) (I.view input.old) (I.view input.new))
        (O.view output.old) (O.view output.new) result }
    ensures statuses { result ≤ 5 }
{
    match own_interfaces(alloc) {
        Ok(boxes) => print(alloc, words, input, output, boxes),
        Err(_) => say_memory(output),
    }
}
