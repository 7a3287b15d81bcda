//! Reading a script.
ghost use Rattle.std.specs.Prelude.{ℕ, ◌≡◌, ◌≢◌, ◌==◌, ◌⊎◌, ◌≤◌, ◌<◌, length, List, None, IfSome, IfOk, Err, false};
ghost use Rattle.std.specs.{List.{AllByRecursion, count_by}, Bool.MatchBool};
ghost use Rattle.peer_words.specs.declared.words.Command.{Command};
ghost use Rattle.peer_words.specs.OfRun.{IsOfRun};
ghost use Rattle.peer_script.specs.Script.{is_open};
ghost use Rattle.peer_script.specs.Reading.{script_with, IsWithin, PassesLimit, TellsScript, FaultsTell, ReadsInput};
ghost use Rattle.peer_script.specs.declared.error.ScriptError.TheVariants.{Limit, Memory};

use crate::error::ScriptError;
use crate::kind::PeerKind;
use crate::reading::read_text;
use peer_words::Command;
use std::alloc::Global;
use wire_framing::{Piece, Source};
use wire_value::OwnedGuid;

/// The most bytes that a script has.
const LIMIT: usize = 1_073_741_824;

/// The most lines that a script has.
const LINE_LIMIT: usize = 1_000_000;

/// How many bytes are read at once.
const STEP: usize = 65_536;

/// What stands in a script before its commands.
pub struct Setup {
    /// What kind of peer it is, and its unique name, where it has one.
    pub kind: PeerKind,
    /// How many messages a stream without a rule may hold before reads wait; None where it is what it is without being set, 64.
    pub queue: Option<u64>,
    /// The id of the peer's machine, where it is set.
    pub machine: Option<OwnedGuid>,
    /// Whether the peer's sink takes messages with file descriptors.
    pub fds: bool,
    /// After how many bytes the peer's sink fails one write; None where it never does.
    pub outfault: Option<u64>,
    /// What the peer's source gives.
    pub pieces: Vec<Piece>,
}

impl Drop for Setup {
    fn drop(self) {
        let Setup {
            kind: _,
            queue: _,
            machine: _,
            fds: _,
            outfault: _,
            pieces: _,
        } = self;
    }
}

/// Which scripts are read.
#[derive(Clone, Copy, PartialEq, Eq, Debug)]
pub enum Word {
    /// Scripts of commands that run one after the other.
    Run,
}

/// Counts the bytes that end a line.
fn line_ends(text: &[u8]) -> usize
    ensures { result ≡ count_by (λ b. b == 10) text.now }
{
    text.iter().filter(|byte| **byte == b'\n').count()
}

/// Returns whether the last line of a text isn't ended.
#[tactic(auto, using(crate::proofs::Lines::not_open))]
fn is_open(text: &[u8]) -> bool
    ensures { result ≡ is_open text.now }
{
    match text {
        [.., last] => *last != b'\n',
        [] => false,
    }
}

/// Returns whether a text, of which `ended` bytes end a line, has more bytes or more lines than a script.
#[tactic(auto, using(crate::proofs::Lines::limits))]
fn passes_limit(text: &[u8], ended: usize) -> bool
    requires { ended ≡ count_by (λ b. b == 10) text.now }
    ensures { MatchBool result (PassesLimit text.now) (IsWithin text.now) }
{
    text.len() > LIMIT || ended + usize::from(is_open(text)) > LINE_LIMIT
}

/// Reads the input through the buffer.
fn read_through<I: Source>(
    alloc: Global,
    input: &mut I,
    buffer: &mut [u8],
) -> Result<Vec<u8>, ScriptError>
    requires { length buffer.old ≡ 65536 }
    ensures told { ReadsInput (λ v. v.items) result (I.view input.old) }
    ensures faults { FaultsTell result (I.view input.old) (I.view input.new) }
{
    let mut bytes = Vec::new(alloc);
    let mut ended = 0;
    'reading: loop {
        match input.read(buffer) {
            Ok(0) => return Ok(bytes),
            Ok(count) => {
                ended += line_ends(&buffer[..count]);
                bytes.extend_from_slice(&buffer[..count])?;
                if passes_limit(bytes.as_slice(), ended) {
                    return Err(ScriptError::Limit);
                }
            }
            Err(_) => return Err(ScriptError::InputFault),
        }
    }
}

/// Reads the input to its end, or until it passes a limit.
fn read_input<I: Source>(alloc: Global, input: &mut I) -> Result<Vec<u8>, ScriptError>
    ensures told { ReadsInput (λ v. v.items) result (I.view input.old) }
    ensures faults { FaultsTell result (I.view input.old) (I.view input.new) }
{
    let mut buffer = Vec::new(alloc);
    buffer.resize(STEP, 0)?;
    read_through(alloc, input, buffer.as_mut_slice())
}

/// Reads a script: the setup that stands before its commands, and the commands. None of these is one that only lanes have which
/// run at once.
///
/// # Errors
///
/// - [`ScriptError::Limit`] if the input has more than 1,073,741,824 bytes or more than 1,000,000 lines, whatever comes after
///   them.
/// - [`ScriptError::InputFault`] if a read of the input fails before the input has passed a limit.
/// - [`ScriptError::Line`] if and only if a line of such an input is outside the table of lines or out of its order. The number
///   is that of the first such line, from 1 on, and one past the last line where a needed line is missing.
/// - [`ScriptError::Memory`] if memory ran out.
#[tactic(auto, using(crate::proofs::OfRun::told_runs))]
pub fn read_script<I: Source>(
    alloc: Global,
    word: Word,
    input: &mut I,
) -> Result<(Setup, Vec<Command>), ScriptError>
    ensures told { IfSome (I.view input.old).left (λ bytes. TellsScript (λ x. script_with x.0 x.1.items) bytes result) }
    // an input that passes a limit, and that tells where its reads fail
    ensures limit { IfSome (I.view input.old).left (λ bytes. (I.view input.old).stop ≢ None → PassesLimit bytes → (result ≡ Err Limit) ⊎ (result ≡ Err Memory)) }
    ensures faults { FaultsTell result (I.view input.old) (I.view input.new) }
    ensures runs { IfOk result (λ x. AllByRecursion (λ (c : Command). IsOfRun c.words) x.1.items) }
{
    let Word::Run = word;
    let bytes = read_input(alloc, input)?;
    read_text(alloc, bytes.as_slice())
}
