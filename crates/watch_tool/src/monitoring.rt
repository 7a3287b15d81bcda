//! The monitor.
ghost use Rattle.std.specs.Prelude.{ℕ, ◌≡◌, ◌≤◌, ◌<◌, ◌-◌, ◌^◌, List, [], ◌∷◌, IfSome, IfOk};
ghost use Rattle.std.specs.Io.KnownBytes.{Appends};
ghost use Rattle.wire_framing.specs.Source.{Widens};
ghost use Rattle.watch_tool.specs.Traffic.{count_with, messages_of};
ghost use Rattle.watch_tool.specs.Report.{lines};
ghost use Rattle.watch_tool.specs.Watching.{Writes, Shows, Closes, Watches, HidesNoFault, IsCaused, failure_of};

use crate::error::WatchError;
use crate::line::{put_end, put_line};
use crate::reading::read_front;
use rule_match::OwnedMatchRule;
use std::alloc::Global;
use wire_framing::{ReadHalf, Refusal, Sink, Source, write_all};
use wire_message::{Error, IoKind, Message, Received};

/// The most fronts that are read of some traffic, ignored ones counted: 2^64 - 2.
const FRONTS: u64 = u64::MAX - 1;

/// Writes all bytes.
fn write<K: Sink>(sink: &mut K, bytes: &[u8]) -> Result<(), WatchError>
    ensures bytes { Writes result bytes.now (K.view sink.old) (K.view sink.new) }
    ensures uncounted { (K.view sink.new).closes ≡ (K.view sink.old).closes }
    ensures fds { K.takes sink.new ≡ K.takes sink.old }
    ensures same { K.lent sink.new ≡ K.lent sink.old }
{
    match write_all(sink, bytes) {
        Ok(()) => Ok(()),
        Err(Refusal::Failed) => Err(WatchError::WriteFault),
        Err(Refusal::Memory) => Err(WatchError::Memory),
    }
}

/// Writes the line of a message, if the message is printed. The line is made in a buffer whose memory is used again.
fn write_line<K: Sink>(
    buffer: &mut Vec<u8>,
    rules: &[OwnedMatchRule],
    message: &Message,
    sink: &mut K,
) -> Result<(), WatchError>
    ensures bytes { Shows result (lines rules.now (message.now ∷ [])) (K.view sink.old) (K.view sink.new) }
    ensures uncounted { (K.view sink.new).closes ≡ (K.view sink.old).closes }
    ensures fds { K.takes sink.new ≡ K.takes sink.old }
    ensures same { K.lent sink.new ≡ K.lent sink.old }
{
    if put_line(buffer, rules, message)? {
        write(sink, buffer)
    } else {
        Ok(())
    }
}

/// Writes what is printed of a front. Returns how many messages were read now.
fn show<K: Sink>(
    buffer: &mut Vec<u8>,
    rules: &[OwnedMatchRule],
    received: &Received,
    count: u64,
    sink: &mut K,
) -> Result<u64, WatchError>
    requires few { count < 2 ^ 64 - 1 }
    ensures count { IfOk result (λ next. next ≡ count_with received.now count) }
    ensures bytes { Shows result (lines rules.now (messages_of received.now)) (K.view sink.old) (K.view sink.new) }
    ensures uncounted { (K.view sink.new).closes ≡ (K.view sink.old).closes }
    ensures fds { K.takes sink.new ≡ K.takes sink.old }
    ensures same { K.lent sink.new ≡ K.lent sink.old }
{
    match received {
        Received::Message(message) => {
            write_line(buffer, rules, message, sink)?;
            Ok(count + 1)
        }
        Received::Passed(_) => Ok(count),
    }
}

/// What an error of a read says of the monitor, if it stops early.
fn failure_of(error: &Error) -> Option<WatchError>
    ensures { result ≡ failure_of error.now }
{
    match error {
        Error::Memory => Some(WatchError::Memory),
        Error::InputOutput(IoKind::Fault) => Some(WatchError::ReadFault),
        _ => None,
    }
}

/// Writes the last line, unless the read failed or ran out of memory.
fn close<K: Sink>(buffer: &mut Vec<u8>, error: Error, sink: &mut K) -> Result<Error, WatchError>
    ensures closes { Closes result error (K.view sink.old) (K.view sink.new) }
    ensures uncounted { (K.view sink.new).closes ≡ (K.view sink.old).closes }
    ensures fds { K.takes sink.new ≡ K.takes sink.old }
    ensures same { K.lent sink.new ≡ K.lent sink.old }
{
    if let Some(failure) = failure_of(&error) {
        return Err(failure);
    }
    put_end(buffer, &error)?;
    write(sink, buffer)?;
    Ok(error)
}

/// Reads the traffic of a half and prints it.
fn watch<S: Source, K: Sink>(
    alloc: Global,
    rules: &[OwnedMatchRule],
    half: &mut ReadHalf<S>,
    sink: &mut K,
) -> Result<Error, WatchError>
    ensures watches { IfSome (S.view half.old.source).left (λ bytes. Watches result rules.now bytes
        (record {
          source = S.view half.old.source;
          source' = S.view half.new.source;
          sink = K.view sink.old;
          sink' = K.view sink.new;
        })) }
    ensures no_fault { IfSome (S.view half.old.source).left
        (λ bytes. HidesNoFault result bytes (S.view half.old.source).stop) }
    ensures caused { IsCaused result
        (record {
          source = S.view half.old.source;
          source' = S.view half.new.source;
          sink = K.view sink.old;
          sink' = K.view sink.new;
        }) }
    ensures width { Widens (S.view half.old.source) (S.view half.new.source) 65536 }
    ensures same_source { S.lent half.new.source ≡ S.lent half.old.source }
    ensures appends { (text : List ℕ) × Appends (K.view sink.old).held (K.view sink.new).held text }
    ensures uncounted { (K.view sink.new).closes ≡ (K.view sink.old).closes }
    ensures fds { K.takes sink.new ≡ K.takes sink.old }
    ensures same_sink { K.lent sink.new ≡ K.lent sink.old }
{
    let mut kept = Vec::new(alloc);
    let mut buffer = Vec::new(alloc);
    let mut count = 0;
    let mut fronts = 0;
    while fronts < FRONTS {
        match read_front(alloc, half, &mut kept, count) {
            Ok(received) => count = show(&mut buffer, rules, &received, count, sink)?,
            Err(error) => return close(&mut buffer, error, sink),
        }
        fronts += 1;
    }
    close(&mut buffer, Error::InputOutput(IoKind::Ended), sink)
}

/// Prints recorded traffic: the bytes of the source, in which one front follows the other (D-Bus Specification, "Message
/// Protocol").
///
/// For each message that a rule matches, or for each message if there are no rules, the sink gains one line, before the
/// next message is read: `POSITION LENGTH RULES DISPLAY`.
///
/// - POSITION is the message's position among all messages of the traffic, from 1 on. An ignored front has no position.
/// - LENGTH is its length in bytes.
/// - RULES are the indices of the rules that match it, from 0 on, with commas between them; `-` if there are no rules.
/// - DISPLAY is what is displayed of it. A byte outside 0x20 to 0x7e, and a backslash, is a backslash and two
///   hexadecimal digits.
///
/// The last line is `end E`, where E names the reason why no more messages come, such as `InputOutput.Ended` or
/// `IncorrectEndian`. This reason is the answer. After 2^64 - 2 fronts, ignored ones counted, the traffic ends as
/// InputOutput(Ended).
///
/// One message is in memory at a time, and its bytes are not copied. If the source reports its bytes, the sink gains
/// exactly the report of these (`report`), however the source cuts them. Whatever the source, the sink only gains bytes.
///
/// # Errors
///
/// - `ReadFault` only if the source's count of faults rose. The sink has the lines of the messages before the fault, and
///   no last line. If the source reports that a read fails after its bytes, the end of these bytes is never answered as
///   InputOutput(Ended).
/// - `WriteFault` only if the sink's count of faults rose. A proper prefix of the report is in the sink. What follows the
///   last message that was read is still in the source, unless all messages' lines were written.
/// - `Memory` if out of memory. A proper prefix of the report is in the sink.
pub fn monitor<S: Source, K: Sink>(
    alloc: Global,
    rules: &[OwnedMatchRule],
    source: &mut S,
    sink: &mut K,
) -> Result<Error, WatchError>
    ensures watches { IfSome (S.view source.old).left (λ bytes. Watches result rules.now bytes
        (record {
          source = S.view source.old;
          source' = S.view source.new;
          sink = K.view sink.old;
          sink' = K.view sink.new;
        })) }
    ensures no_fault { IfSome (S.view source.old).left (λ bytes. HidesNoFault result bytes (S.view source.old).stop) }
    ensures caused { IsCaused result
        (record {
          source = S.view source.old;
          source' = S.view source.new;
          sink = K.view sink.old;
          sink' = K.view sink.new;
        }) }
    ensures width { Widens (S.view source.old) (S.view source.new) 65536 }
    ensures appends { (text : List ℕ) × Appends (K.view sink.old).held (K.view sink.new).held text }
    ensures uncounted { (K.view sink.new).closes ≡ (K.view sink.old).closes }
    ensures fds { K.takes sink.new ≡ K.takes sink.old }
    ensures same { K.lent sink.new ≡ K.lent sink.old }
{
    let mut half = ReadHalf::new(source);
    watch(alloc, rules, &mut half, sink)
}
