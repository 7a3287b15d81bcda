//! What is counted of a run, and the line that is printed of it.
ghost use Rattle.std.specs.Prelude.{◌≡◌, ◌++◌, ◌+◌, ◌*◌, ◌^◌, ◌<◌, ◌≤◌, cond, length, get_or, decimal, OnOk};
ghost use Rattle.peer_gen.specs.Counted.{is_called, sent_serial, is_replied, reply_position, is_item, asked_call};
ghost use Rattle.peer_gen.specs.Counted.{is_signal_read, serials_of, product, entry_product};
ghost use Rattle.peer_gen.specs.Counted.{counts_of, counts_line, gen_line, with_entry};

use itoa::Buffer;
use peer_words::{Answer, Entry, Words};
use std::alloc::{AllocError, Global};
use wire_message::{Message, MessageType};

/// The numbers of some entries.
#[derive(Clone, Copy)]
struct Counts {
    /// How many calls were sent.
    calls: u64,
    /// How many polls were answered by a method return.
    replies: u64,
    /// How many signals were read.
    signals: u64,
    /// How many items the streams yielded.
    items: u64,
    /// The sum of serial times position over the replies.
    sum: u128,
}

/// Whether a call was sent.
fn is_called(answer: &Answer) -> bool
    ensures { result ≡ is_called answer.now }
{
    matches!(answer, Answer::Called { call: _, serial: _ })
}

/// Whether a method return answers the polled call.
fn is_replied(answer: &Answer) -> bool
    ensures { result ≡ is_replied answer.now }
{
    matches!(answer, Answer::Reply(_))
}

/// The position of the method return that answers the polled call, if one does.
fn reply_position(answer: &Answer) -> Option<u64>
    ensures { result ≡ reply_position answer.now }
{
    match answer {
        Answer::Reply(position) => Some(*position),
        _ => None,
    }
}

/// Whether a stream yielded a message.
fn is_item(answer: &Answer) -> bool
    ensures { result ≡ is_item answer.now }
{
    matches!(answer, Answer::Item(_))
}

/// Whether a signal was read.
fn is_signal_read(read: &Option<Message>) -> bool
    ensures { result ≡ is_signal_read read.now }
{
    match read {
        Some(message) => matches!(message.message_type(), MessageType::Signal),
        None => false,
    }
}

/// The number of the call that a command asks something of.
fn asked_call(words: &Words) -> Option<u64>
    ensures { result ≡ asked_call words.now }
{
    match words {
        Words::OfCall { call, op: _ } => Some(*call),
        _ => None,
    }
}

/// Appends the serial of the call that was sent, if one was.
fn push_serial(serials: &mut Vec<u32>, answer: &Answer) -> Result<(), AllocError>
    ensures { OnOk result (serials.new.items ≡ serials.old.items ++ sent_serial answer.now) }
{
    match answer {
        Answer::Called { call: _, serial } => {
            serials.push(*serial)?;
            Ok(())
        }
        _ => Ok(()),
    }
}

/// Appends the serials of the calls that were sent, in order.
fn push_serials(serials: &mut Vec<u32>, entries: &[Entry]) -> Result<(), AllocError>
    ensures { OnOk result (serials.new.items ≡ serials.old.items ++ serials_of entries.now) }
{
    for entry in entries {
        push_serial(serials, &entry.answer)?;
    }
    Ok(())
}

/// The serial of a call; 0 where there is no such call.
fn serial_at(serials: &[u32], call: u64) -> u32
    ensures { result ≡ get_or serials.now call 0 }
{
    serials.get(call as usize).copied().unwrap_or(0)
}

/// A serial times a position.
fn times(serial: u32, position: u64) -> u128
    ensures value { result ≡ serial * position }
    ensures small { result < 2 ^ 96 }
{
    u128::from(serial) * u128::from(position)
}

/// The serial of a call times the position of its reply; 0 where there is no reply, or no such call.
fn product(serials: &[u32], call: Option<u64>, position: Option<u64>) -> u128
    ensures value { result ≡ product serials.now call position }
    ensures small { result < 2 ^ 96 }
{
    let Some(call) = call else {
        return 0;
    };
    let Some(position) = position else {
        return 0;
    };
    times(serial_at(serials, call), position)
}

/// The product of the call that the entry's command asks something of, and of the reply.
fn entry_product(serials: &[u32], entry: &Entry) -> u128
    ensures value { result ≡ entry_product serials.now entry.now }
    ensures small { result < 2 ^ 96 }
{
    product(
        serials,
        asked_call(&entry.words),
        reply_position(&entry.answer),
    )
}

/// One where something is so.
fn one_if(is: bool) -> u64
    ensures value { result ≡ cond is 1 0 }
    ensures small { result ≤ 1 }
{
    u64::from(is)
}

impl Counts {
    /// Counts one entry more, after fewer than 2^32 others.
    fn with_entry(self, serials: &[u32], entry: &Entry) -> Counts
        requires calls { self.calls < 2 ^ 32 }
        requires replies { self.replies < 2 ^ 32 }
        requires signals { self.signals < 2 ^ 32 }
        requires items { self.items < 2 ^ 32 }
        requires sum { self.sum + 2 ^ 96 ≤ 2 ^ 128 }
        ensures value { result ≡ with_entry serials.now self entry.now }
        ensures calls { result.calls ≤ self.calls + 1 }
        ensures replies { result.replies ≤ self.replies + 1 }
        ensures signals { result.signals ≤ self.signals + 1 }
        ensures items { result.items ≤ self.items + 1 }
        ensures sum { result.sum ≤ self.sum + 2 ^ 96 }
    {
        Counts {
            calls: self.calls + one_if(is_called(&entry.answer)),
            replies: self.replies + one_if(is_replied(&entry.answer)),
            signals: self.signals + one_if(is_signal_read(&entry.read)),
            items: self.items + one_if(is_item(&entry.answer)),
            sum: self.sum + entry_product(serials, entry),
        }
    }
}

/// The numbers of entries, where calls have these serials.
fn counts_of(serials: &[u32], entries: &[Entry]) -> Counts
    requires few { length entries.now < 2 ^ 32 }
    ensures { result ≡ counts_of serials.now entries.now }
{
    let mut counts = Counts {
        calls: 0,
        replies: 0,
        signals: 0,
        items: 0,
        sum: 0,
    };
    for entry in entries {
        counts = counts.with_entry(serials, entry);
    }
    counts
}

/// Appends a name and a number.
fn put(text: &mut Vec<u8>, name: &[u8], number: u128) -> Result<(), AllocError>
    ensures { OnOk result (text.new.items ≡ text.old.items ++ name.now ++ decimal number) }
{
    let mut buffer = Buffer::new();
    text.extend_from_slice(name)?;
    text.extend_from_slice(buffer.format(number).as_bytes())
}

/// Appends the line of these numbers, and of how many bytes were sent.
fn put_counts(text: &mut Vec<u8>, counts: Counts, sent: usize) -> Result<(), AllocError>
    ensures { OnOk result (text.new.items ≡ text.old.items ++ counts_line counts sent) }
{
    put(text, b"calls ", u128::from(counts.calls))?;
    put(text, b" replies ", u128::from(counts.replies))?;
    put(text, b" signals ", u128::from(counts.signals))?;
    put(text, b" items ", u128::from(counts.items))?;
    put(text, b" sent ", sent as u128)?;
    put(text, b" sum ", counts.sum)?;
    text.extend_from_slice(b"\n")
}

/// Appends the line that is printed of a run: `calls A replies B signals C items D sent E sum F`, and the end of the
/// line.
///
/// - A is the number of entries whose call was sent.
/// - B is the number of entries in which a method return answers the polled call.
/// - C is the number of entries that read a signal (D-Bus Specification, "Types of messages").
/// - D is the number of entries in which a stream yielded an item.
/// - E is `sent`, the number of bytes that were sent.
/// - F is the sum, over the replies, of the serial of the polled call times the position of its reply. Calls are numbered
///   from 0 on, in the order of the entries; a reply to a call that isn't among them counts 0.
///
/// The entries are those of one lane, oldest first. They are fewer than 2^32, so that the sum fits 128 bits; a run has as
/// many entries as commands. The entries are walked twice, first for the serials of the calls.
///
/// # Errors
///
/// AllocError if out of memory.
pub fn put_gen_line(
    alloc: Global,
    text: &mut Vec<u8>,
    entries: &[Entry],
    sent: usize,
) -> Result<(), AllocError>
    requires few { length entries.now < 2 ^ 32 }
    ensures { OnOk result (text.new.items ≡ text.old.items ++ gen_line entries.now sent) }
{
    let mut serials = Vec::new(alloc);
    push_serials(&mut serials, entries)?;
    put_counts(text, counts_of(serials.as_slice(), entries), sent)
}
