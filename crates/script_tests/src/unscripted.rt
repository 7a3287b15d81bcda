//! A peer that is run without script text, with nothing but the names of `peer_run`.
ghost use Rattle.std.specs.Prelude.{IfOk};
ghost use Rattle.std.specs.List.{AllByRecursion};
ghost use Rattle.peer_words.specs.declared.words.Command.{Command};
ghost use Rattle.peer_words.specs.OfRun.{IsOfRun};

use peer_run::{
    Answer, Bytes, CallFlags, CallOp, Command, Entry, Interface, MemorySink, MemorySource,
    Outgoing, OutgoingKind, PeerKind, Piece, Setup, Words, run_peer,
};
use std::alloc::{AllocError, Global};
use std::io;

/// A method return with serial 1 that answers serial 1, byte by byte (D-Bus Specification, "Message Format").
const RETURN: [u8; 24] = [
    b'l', 2, 0, 1, 0, 0, 0, 0, 1, 0, 0, 0, 8, 0, 0, 0, 5, 1, b'u', 0, 1, 0, 0, 0,
];

const NO_FLAGS: CallFlags = CallFlags {
    no_reply_expected: false,
    no_auto_start: false,
    allow_interactive_auth: false,
    big: false,
    descriptor: false,
};

/// A peer that stands on no bus, and whose source gives the return.
fn setup(alloc: Global) -> Result<Setup, AllocError> {
    let mut pieces = Vec::new(alloc);
    pieces.push(Piece::Bytes(Vec::from_slice(alloc, &RETURN)?))?;
    Ok(Setup {
        kind: PeerKind::Direct(None),
        queue: None,
        machine: None,
        fds: false,
        outfault: None,
        pieces,
    })
}

/// A call of `do` at `/`.
fn call(alloc: Global) -> Result<Words, AllocError>
    ensures { IfOk result (λ words. IsOfRun words) }
{
    Ok(Words::Send(Outgoing {
        kind: OutgoingKind::Call,
        destination: None,
        path: Bytes::from_slice(alloc, b"/")?,
        interface: None,
        member: Bytes::from_slice(alloc, b"do")?,
        flags: NO_FLAGS,
        body: None,
    }))
}

/// A call, a read, and a poll of the call.
fn commands(alloc: Global) -> Result<Vec<Command>, AllocError>
    ensures { IfOk result (λ commands. AllByRecursion (λ (c : Command). IsOfRun c.words) commands.items) }
{
    let mut commands = Vec::new(alloc);
    commands.push(Command {
        lane: 0,
        words: call(alloc)?,
    })?;
    commands.push(Command {
        lane: 0,
        words: Words::Read,
    })?;
    commands.push(Command {
        lane: 0,
        words: Words::OfCall {
            call: 0,
            op: CallOp::Poll,
        },
    })?;
    Ok(commands)
}

/// Whether the call was sent, a message was read, and it answers the call.
fn is_answered(entries: &[Entry]) -> bool {
    match entries {
        [called, read, polled] => {
            matches!(&called.answer, Answer::Called { call: 0, serial: 1 })
                && matches!(&read.answer, Answer::Got)
                && matches!(&polled.answer, Answer::Reply(1))
        }
        _ => false,
    }
}

/// Whether the call is answered, and how many bytes were sent; none where there was no memory to run it.
fn run(alloc: Global, setup: &Setup, commands: &[Command]) -> Option<(bool, usize)>
    requires { AllByRecursion (λ (c : Command). IsOfRun c.words) commands.now }
{
    let mut source = MemorySource::new(setup.pieces.as_slice());
    let mut sink = MemorySink::new(alloc, setup.fds);
    let boxes: Vec<Box<dyn Interface>> = Vec::new(alloc);
    let transcript = run_peer(alloc, setup, &mut source, &mut sink, boxes, commands).ok()?;
    Some((
        is_answered(transcript.entries.as_slice()),
        sink.bytes().len(),
    ))
}

/// Prints what the run gave.
pub(crate) fn print_answers(rt: &HostRuntime) -> io::Result<()> {
    let setup = setup(rt.alloc())?;
    let commands = commands(rt.alloc())?;
    match run(rt.alloc(), &setup, commands.as_slice()) {
        Some((true, count)) => println!(rt;
            "run_peer: called, read and answered; {count} bytes sent"
        ),
        Some((false, _)) => println!(rt; "run_peer: other answers"),
        None => println!(rt; "run_peer: memory"),
    }
}
