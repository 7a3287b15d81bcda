//! The program: what its words ask for is printed.
ghost use Rattle.std.specs.Prelude.{ℕ, ◌∷◌, ◌++◌, ◌≡◌, ◌≢◌, ◌<◌, ◌≤◌, ◌⊎◌, ◌^◌, length, true, List, map, drop, string_bytes, Some, None, Ok, Err, IfSome};
ghost use Rattle.std.specs.Io.KnownBytes.{Appends};
ghost use Rattle.rule_match.specs.Rule.{Rule};
ghost use Rattle.wire_framing.specs.Source.{MayRise};
ghost use Rattle.peer_script.specs.Reading.{PassesLimit};
ghost use Rattle.watch_tool.specs.Report.{report};
ghost use Rattle.watch_tool.specs.Rules.{rules_in};
ghost use Rattle.peer_turns.specs.Objects.{handed};
ghost use Rattle.peer_run.specs.Asked.{Run, Gen, Monitor, Unknown, asked, IsOfInput};
ghost use Rattle.peer_run.specs.Histories.{IsTranscript};
ghost use Rattle.peer_run.specs.Program.{IsRefusal, IsGenerated, IsCutReport, fault_text, rule_text, usage_text, Prints, decided, EndsInTime, IsCutShort, RunsOut, Ends};

use crate::generated::run_generated;
use crate::monitored::run_monitor;
use crate::request::{Request, behind_first, request_of};
use crate::saying::{USAGE, say};
use crate::scripted::run_script;
use object_interface::Interface;
use std::alloc::Global;
use wire_framing::{Sink, Source};

/// The usage.
const USAGE_TEXT: &[u8] =
    b"usage: run, live, talk ADDR, serve ADDR, gen N, busrun, monitor RULE ..\n";

/// Prints what the words ask for.
pub(crate) fn print<I: Source, O: Sink, B: Interface>(
    alloc: Global,
    words: &[String],
    input: &mut I,
    output: &mut O,
    boxes: Vec<B>,
) -> u8
    requires few { length boxes.items < 2 ^ 32 }
    ensures ends { Ends (Prints (handed B.meaning B.state boxes.items) (map (λ word. string_bytes word) words.now) (I.view input.old) (I.view input.new))
        (O.view output.old) (O.view output.new) result }
    ensures unread { ¬ IsOfInput (asked (map (λ word. string_bytes word) words.now)) → I.view input.new ≡ I.view input.old }
    ensures in_time { result ≡ 0 → asked (map (λ word. string_bytes word) words.now) ≡ Monitor → EndsInTime (I.view input.old) }
{
    match request_of(words) {
        Request::Run => run_script(alloc, input, output, boxes),
        Request::Gen(count) => run_generated(alloc, count, boxes, output),
        Request::Monitor => run_monitor(alloc, behind_first(words), input, output),
        Request::Unknown => say(output, USAGE_TEXT, USAGE),
    }
}

/// The program: prints what its words ask for.
///
/// - `run`, or no words: reads a script from the input to its end, runs it over a source and a sink in memory that are made from its header
///   lines, and prints its transcript.
/// - `gen N`, where N is a decimal number from 1 to 100,000 without leading zeros: runs the generated script of N calls in the same way, and
///   prints one line, `calls A replies B signals C items D sent E sum F`. The input isn't read.
/// - `monitor RULE ..`: reads the input as recorded traffic, and prints a line for each message that a rule matches, or for each message if
///   there are no rules, and the line `end E`. One message is in memory at a time (D-Bus Specification, "Match Rules").
///
/// All that is printed goes to the output, each line ended by 0x0a. The boxes are the interfaces that scripts may place at objects, by their
/// numbers from 0 on (D-Bus Specification, "Interfaces").
///
/// | Status | Comes | Printed |
/// |---|---|---|
/// | 0 | done | what was asked for |
/// | 1 | out of memory | `memory`, as far as it can |
/// | 2 | the words ask for nothing that the program does, or a word behind `monitor` is no match rule | the usage, or `rule K`, K the index of the first such text, from 0 on |
/// | 3 | the script passes 1,000,000 lines or 1,073,741,824 bytes, or isn't one | `script: limit`, or `script: line N`, N the first line outside |
/// | 4 | the input failed | `input fault`; of traffic, behind the lines of the messages before |
/// | 5 | the output failed, in place of any other | nothing more |
pub fn peer_main<R, I: Source, O: Sink>(
    _rt: &R,
    alloc: Global,
    words: &[String],
    input: &mut I,
    output: &mut O,
    boxes: Vec<Box<dyn Interface>>,
) -> u8
    requires few { length boxes.items < 2 ^ 32 }
    // one of the texts of `Prints` was printed, and nothing else, under its status; or a proper part of one, under 5 or 1
    ensures ends { Ends (Prints (handed meaning state boxes.items) (map (λ word. string_bytes word) words.now) (I.view input.old) (I.view input.new)) (O.view output.old) (O.view output.new) result }
    // the input is read only for a script or for traffic
    ensures unread { ¬ IsOfInput (asked (map (λ word. string_bytes word) words.now)) → I.view input.new ≡ I.view input.old }
    // 0 of a script: the input isn't told to fail behind its bytes; the transcript of a legal history of the script, and nothing else, was
    // printed; and all that `IsWhole` says holds of that history, of its reads, polls and streams and of what was sent
    ensures told { result ≡ 0 → asked (map (λ word. string_bytes word) words.now) ≡ Run → (I.view input.old).stop ≢ Some true }
    ensures whole { result ≡ 0 → asked (map (λ word. string_bytes word) words.now) ≡ Run
        → IfSome (I.view input.old).left (λ bytes. (text : List ℕ) × IsTranscript (handed meaning state boxes.items) bytes text × Appends (O.view output.old).held (O.view output.new).held text) }
    // 0 of `gen N`: the six numbers of a legal history of the generated script, and nothing else, were printed
    ensures generated { (count : ℕ) → result ≡ 0 → asked (map (λ word. string_bytes word) words.now) ≡ Gen count
        → (text : List ℕ) × IsGenerated (handed meaning state boxes.items) count text × Appends (O.view output.old).held (O.view output.new).held text }
    // 0 of traffic: its report by the rules of the texts behind `monitor`, and nothing else, was printed, however the bytes were cut
    ensures reported { result ≡ 0 → asked (map (λ word. string_bytes word) words.now) ≡ Monitor → (rules : List Rule) × (rules_in (drop 1 (map (λ word. string_bytes word) words.now)) ≡ Ok rules)
        × IfSome (I.view input.old).left (λ bytes. Appends (O.view output.old).held (O.view output.new).held (report rules bytes)) }
    ensures in_time { result ≡ 0 → asked (map (λ word. string_bytes word) words.now) ≡ Monitor → EndsInTime (I.view input.old) }
    // 2: exactly where the words are no row of the program's table, or a text behind `monitor` is no match rule, memory and the output's
    // faults aside
    ensures refused_words { result ≡ 2 → ((asked (map (λ word. string_bytes word) words.now) ≡ Unknown) × Appends (O.view output.old).held (O.view output.new).held usage_text)
        ⊎ ((asked (map (λ word. string_bytes word) words.now) ≡ Monitor) × (index : ℕ) × (rules_in (drop 1 (map (λ word. string_bytes word) words.now)) ≡ Err index) × Appends (O.view output.old).held (O.view output.new).held (rule_text index)) }
    ensures no_row { asked (map (λ word. string_bytes word) words.now) ≡ Unknown → (result ≡ 2) ⊎ (result ≡ 1) ⊎ (result ≡ 5) }
    ensures no_rule { (index : ℕ) → asked (map (λ word. string_bytes word) words.now) ≡ Monitor → rules_in (drop 1 (map (λ word. string_bytes word) words.now)) ≡ Err index → (result ≡ 2) ⊎ (result ≡ 1) ⊎ (result ≡ 5) }
    // 3: exactly where the input passes a limit or is no script text, and the printed line says where; with a line only where the input
    // isn't told to fail behind its bytes
    ensures refused { result ≡ 3 → (asked (map (λ word. string_bytes word) words.now) ≡ Run)
        × IfSome (I.view input.old).left (λ bytes. (text : List ℕ) × IsRefusal (I.view input.old).stop bytes text × Appends (O.view output.old).held (O.view output.new).held text) }
    // 4, 5: only where the count of the input's, the output's faults rose; 5 exactly there, in place of any other
    ensures input_fault { result ≡ 4 → MayRise (I.view input.old).faults (I.view input.new).faults
        × (((asked (map (λ word. string_bytes word) words.now) ≡ Run) × Appends (O.view output.old).held (O.view output.new).held fault_text)
        ⊎ ((asked (map (λ word. string_bytes word) words.now) ≡ Monitor) × (rules : List Rule) × (rules_in (drop 1 (map (λ word. string_bytes word) words.now)) ≡ Ok rules) × (text : List ℕ) × IsCutReport rules (I.view input.old) (I.view input.new) text × Appends (O.view output.old).held (O.view output.new).held text)) }
    ensures output_fault { result ≡ 5 → MayRise (O.view output.old).faults (O.view output.new).faults }
    // and then a proper part was printed of what would have been, and nothing else
    ensures cut_short { result ≡ 5 → IsCutShort (Prints (handed meaning state boxes.items) (map (λ word. string_bytes word) words.now) (I.view input.old) (I.view input.new)) (O.view output.old) (O.view output.new) }
    // 1: a proper front of what would have been printed, and behind it a front of the line that says so, and nothing else
    ensures memory { result ≡ 1 → RunsOut (Prints (handed meaning state boxes.items) (map (λ word. string_bytes word) words.now) (I.view input.old) (I.view input.new)) (O.view output.old) (O.view output.new) }
    ensures output_first { (O.view output.old).faults < (O.view output.new).faults → result ≡ 5 }
    ensures statuses { result ≤ 5 }
    // a script text gives 0, another input 3, where no count rose and there is memory
    ensures script { asked (map (λ word. string_bytes word) words.now) ≡ Run → ¬ MayRise (I.view input.old).faults (I.view input.new).faults
        → ¬ MayRise (O.view output.old).faults (O.view output.new).faults → IfSome (I.view input.old).left (λ bytes. (result ≡ decided bytes) ⊎ (result ≡ 1)) }
    // an input that passes a limit gives 3, 1 or 5, whatever comes behind its bytes, where it tells that
    ensures limit { asked (map (λ word. string_bytes word) words.now) ≡ Run → (I.view input.old).stop ≢ None
        → IfSome (I.view input.old).left (λ bytes. PassesLimit bytes → (result ≡ 3) ⊎ (result ≡ 1) ⊎ (result ≡ 5)) }
    // a generated run gives 0, and so does traffic by match rules, where no count rose and there is memory
    ensures generates { (count : ℕ) → asked (map (λ word. string_bytes word) words.now) ≡ Gen count → ¬ MayRise (O.view output.old).faults (O.view output.new).faults → (result ≡ 0) ⊎ (result ≡ 1) }
    ensures reports { (rules : List Rule) → asked (map (λ word. string_bytes word) words.now) ≡ Monitor → rules_in (drop 1 (map (λ word. string_bytes word) words.now)) ≡ Ok rules
        → ¬ MayRise (I.view input.old).faults (I.view input.new).faults → ¬ MayRise (O.view output.old).faults (O.view output.new).faults → (result ≡ 0) ⊎ (result ≡ 1) }
{
    print(alloc, words, input, output, boxes)
}
