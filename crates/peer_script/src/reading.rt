//! A script is read line by line.
ghost use Rattle.std.specs.Prelude.{ℕ, ◌≡◌, ◌+◌, ◌<◌, ◌≤◌, ◌^◌, length, take, drop, List, OnOk, Some, None, Ok, Err};
ghost use Rattle.peer_script.specs.Reading.{SplitsLine, TakesLine, TellsText, rank, first_stage, last_stage, next_stage, may_come, with_line, may_end, said, script_with};

use crate::error::ScriptError;
use crate::kind::PeerKind;
use crate::line::{Line, line_of};
use crate::script::Setup;
use memchr::memchr;
use peer_words::Command;
use std::alloc::{AllocError, Global};
use wire_framing::Piece;

/// How far a script has come.
#[derive(Clone, Copy)]
pub(crate) enum Stage {
    /// `direct` or `bus` is wanted.
    Start,
    /// `queue`, `machine`, `fds`, `outfault`, the source's lines, commands or `sent` may come.
    Head,
    /// `machine`, `fds`, `outfault`, the source's lines, commands or `sent` may come.
    Queued,
    /// `fds`, `outfault`, the source's lines, commands or `sent` may come.
    Known,
    /// `outfault`, the source's lines, commands or `sent` may come.
    Sink,
    /// The source's lines, commands or `sent` may come.
    Pieces,
    /// Commands or `sent` may come.
    Commands,
    /// Nothing may come.
    Over,
}

/// What was read of a script.
struct Progress {
    stage: Stage,
    setup: Setup,
    commands: Vec<Command>,
}

impl Drop for Progress {
    fn drop(self) {
        let Progress {
            stage: _,
            setup: _,
            commands: _,
        } = self;
    }
}

impl Progress {
    /// Returns what was read.
    fn into_script(self) -> (Setup, Vec<Command>)
        ensures { script_with result.0 result.1.items ≡ said self }
    {
        let Progress {
            stage: _,
            setup,
            commands,
        } = self;
        (setup, commands)
    }
}

fn rank(stage: Stage) -> u8
    ensures { result ≡ rank stage }
{
    match stage {
        Stage::Start => 0,
        Stage::Head => 1,
        Stage::Queued => 2,
        Stage::Known => 3,
        Stage::Sink => 4,
        Stage::Pieces => 5,
        Stage::Commands => 6,
        Stage::Over => 7,
    }
}

/// The first stage at which a line may come.
fn first_stage(line: &Line) -> Stage
    ensures { result ≡ first_stage line.now }
{
    match line {
        Line::Peer(_) => Stage::Start,
        _ => Stage::Head,
    }
}

/// The last stage at which a line may come.
fn last_stage(line: &Line) -> Stage
    ensures { result ≡ last_stage line.now }
{
    match line {
        Line::Peer(_) => Stage::Start,
        Line::Capacity(_) => Stage::Head,
        Line::Machine(_) => Stage::Queued,
        Line::Fds => Stage::Known,
        Line::OutFault(_) => Stage::Sink,
        Line::In(_) | Line::InFault => Stage::Pieces,
        Line::Do(_) | Line::Sent => Stage::Commands,
    }
}

/// The stage once a line came.
fn next_stage(line: &Line) -> Stage
    ensures { result ≡ next_stage line.now }
{
    match line {
        Line::Peer(_) => Stage::Head,
        Line::Capacity(_) => Stage::Queued,
        Line::Machine(_) => Stage::Known,
        Line::Fds => Stage::Sink,
        Line::OutFault(_) | Line::In(_) | Line::InFault => Stage::Pieces,
        Line::Do(_) => Stage::Commands,
        Line::Sent => Stage::Over,
    }
}

fn may_come(stage: Stage, line: &Line) -> bool
    ensures { result ≡ may_come stage line.now }
{
    rank(first_stage(line)) <= rank(stage) && rank(stage) <= rank(last_stage(line))
}

/// Adds what a line says.
#[tactic(auto, using(crate::proofs::Pieces::pushed))]
fn add_line(progress: &mut Progress, line: Line) -> Result<(), AllocError>
    ensures stage { progress.new.stage ≡ progress.old.stage }
    ensures said { OnOk result (said progress.new ≡ with_line line (said progress.old)) }
{
    match line {
        Line::Peer(kind) => progress.setup.kind = kind,
        Line::Capacity(limit) => progress.setup.queue = Some(limit),
        Line::Machine(id) => progress.setup.machine = Some(id),
        Line::Fds => progress.setup.fds = true,
        Line::OutFault(count) => progress.setup.outfault = Some(count),
        Line::In(piece) => progress.setup.pieces.push(Piece::Bytes(piece.into_vec()))?,
        Line::InFault => progress.setup.pieces.push(Piece::Fault)?,
        Line::Do(command) => progress.commands.push(command)?,
        Line::Sent => {}
    }
    Ok(())
}

/// Takes one line more. False: it may not come at this stage.
#[tactic(auto, unfolding(crate::specs::Reading::take_line))]
fn take_line(progress: &mut Progress, line: Line) -> Result<bool, AllocError>
    ensures { TakesLine result progress.old progress.new line }
{
    if !may_come(progress.stage, &line) {
        return Ok(false);
    }
    let next = next_stage(&line);
    add_line(progress, line)?;
    progress.stage = next;
    Ok(true)
}

/// Splits a text behind its first line end.
fn split_line(text: &[u8]) -> Option<(&[u8], &[u8])>
    ensures { SplitsLine (λ x. x.0.now) (λ x. x.1.now) text.now result }
{
    let Some(at) = memchr(b'\n', text) else {
        return None;
    };
    Some((&text[..at], &text[at + 1..]))
}

fn may_end(stage: Stage) -> bool
    ensures { result ≡ may_end stage }
{
    match stage {
        Stage::Start => false,
        Stage::Head
        | Stage::Queued
        | Stage::Known
        | Stage::Sink
        | Stage::Pieces
        | Stage::Commands
        | Stage::Over => true,
    }
}

/// The script of a text.
pub(crate) fn read_text(alloc: Global, text: &[u8]) -> Result<(Setup, Vec<Command>), ScriptError>
    requires { length text.now < 2 ^ 63 }
    ensures { TellsText (λ x. script_with x.0 x.1.items) text.now result }
{
    let mut progress = Progress {
        stage: Stage::Start,
        setup: Setup {
            kind: PeerKind::Direct(None),
            queue: None,
            machine: None,
            fds: false,
            outfault: None,
            pieces: Vec::new(alloc),
        },
        commands: Vec::new(alloc),
    };
    let mut rest = text;
    let mut number: u64 = 1;
    while let Some((line, more)) = split_line(rest) {
        let Some(line) = line_of(alloc, line)? else {
            return Err(ScriptError::Line(number));
        };
        if !take_line(&mut progress, line)? {
            return Err(ScriptError::Line(number));
        }
        rest = more;
        number += 1;
    }
    if !rest.is_empty() || !may_end(progress.stage) {
        return Err(ScriptError::Line(number));
    }
    Ok(progress.into_script())
}
