//! Taking the bytes of one message, or of one ignored front, after those that were kept.
ghost use Rattle.std.specs.Prelude.{ℕ, ◌≡◌, ◌≤◌, ◌<◌, ◌+◌, ◌^◌, ◌⊎◌, ◌++◌, [], length, take, drop};
ghost use Rattle.wire_framing.specs.Source.{Asks, Widens};
ghost use Rattle.wire_framing.specs.Receive.{spent};
ghost use Rattle.wire_framing.specs.Kept.{Comes, FillsUp, ReadsToMessage, once_more};
ghost use Rattle.wire_message.specs.Outcome.{TellsTotal};

use crate::source::Source;
use wire_message::{Error, IoKind, Result, total_of};

/// The most by which the buffer grows past the bytes that came.
const STEP: usize = 65_536;

/// What stands in the buffer where bytes are to come.
static ZEROS: [u8; STEP] = [0; STEP];

/// The length of the part of a header that says how long the message, or the ignored front, is.
const HEAD: usize = 16;

/// Fills the buffer, as far as bytes come; says how many came.
fn fill<S: Source>(source: &mut S, buf: &mut [u8]) -> (usize, Result<()>)
    requires { length buf.old ≤ 65536 }
    ensures within { result.0 ≤ length buf.new }
    ensures same { length buf.new ≡ length buf.old }
    ensures filled { FillsUp result.1 (length buf.new) (take result.0 buf.new) }
    ensures came { Comes result.1 (take result.0 buf.new) (S.view source.old) (S.view source.new) }
    ensures asks { Asks (S.view source.old) (S.view source.new) (result.0 + once_more result.1) }
    ensures width { Widens (S.view source.old) (S.view source.new) 65536 }
    ensures same_source { S.lent source.new ≡ S.lent source.old }
{
    let mut at = 0;
    while at < buf.len() {
        match source.read(&mut buf[at..]) {
            Ok(0) => return (at, Err(Error::InputOutput(IoKind::Ended))),
            Ok(count) => at += count,
            Err(_) => return (at, Err(Error::InputOutput(IoKind::Fault))),
        }
    }
    (at, Ok(()))
}

/// Appends as many more bytes, as far as they come.
fn take_more<S: Source>(source: &mut S, bytes: &mut Vec<u8>, count: usize) -> Result<()>
    requires some { 0 < count }
    requires step { count ≤ 65536 }
    requires limit { length bytes.old.items + count < 2 ^ 63 }
    ensures grown { bytes.new.items ≡ bytes.old.items ++ drop (length bytes.old.items) bytes.new.items }
    ensures filled { FillsUp result (length bytes.old.items + count) bytes.new.items }
    ensures within { length bytes.new.items ≤ length bytes.old.items + count }
    ensures came { Comes result (drop (length bytes.old.items) bytes.new.items) (S.view source.old) (S.view source.new) }
    ensures asks { Asks (S.view source.old) (S.view source.new) (length (drop (length bytes.old.items) bytes.new.items) + once_more result) }
    ensures width { Widens (S.view source.old) (S.view source.new) 65536 }
    ensures same_source { S.lent source.new ≡ S.lent source.old }
{
    let from = bytes.len();
    bytes.extend_from_slice(&ZEROS[..count])?;
    let (came, answer) = fill(source, &mut bytes[from..]);
    bytes.truncate(from + came);
    answer
}

/// Appends bytes until there are `total`, as far as they come. The buffer grows by at most 65,536 bytes past what came.
fn take_until<S: Source>(source: &mut S, bytes: &mut Vec<u8>, total: usize) -> Result<()>
    requires limit { total < 2 ^ 63 }
    ensures grown { bytes.new.items ≡ bytes.old.items ++ drop (length bytes.old.items) bytes.new.items }
    ensures filled { FillsUp result total bytes.new.items }
    ensures own { (bytes.new.items ≡ bytes.old.items) ⊎ (length bytes.new.items ≤ total) }
    ensures came { Comes result (drop (length bytes.old.items) bytes.new.items) (S.view source.old) (S.view source.new) }
    ensures asks { Asks (S.view source.old) (S.view source.new) (length (drop (length bytes.old.items) bytes.new.items) + once_more result) }
    ensures width { Widens (S.view source.old) (S.view source.new) 65536 }
    ensures same_source { S.lent source.new ≡ S.lent source.old }
{
    while bytes.len() < total {
        let count = STEP.min(total - bytes.len());
        take_more(source, bytes, count)?;
    }
    Ok(())
}

/// The total that the first 16 bytes say.
fn total_at(bytes: &[u8]) -> Result<u32>
    requires { 16 ≤ length bytes.now }
    ensures { TellsTotal result (take 16 bytes.now) }
{
    let mut first = [0; 16];
    first.copy_from_slice(&bytes[..16]);
    total_of(&first)
}

/// How many bytes a read takes of these, where nothing follows them.
#[tactic(auto, unfolding(crate::specs::Receive::spent))]
pub(crate) fn consumed(bytes: &[u8]) -> usize
    ensures value { result ≡ spent bytes.now }
    ensures within { result ≤ length bytes.now }
{
    if bytes.len() < HEAD {
        return bytes.len();
    }
    let Ok(total) = total_at(bytes) else {
        return HEAD;
    };
    bytes.len().min(total as usize)
}

/// Appends bytes until the first message, or the first ignored front, is there whole: 16, then the rest of the total that they say.
pub(crate) fn read_to_message<S: Source>(source: &mut S, bytes: &mut Vec<u8>) -> Result<()>
    ensures grown { bytes.new.items ≡ bytes.old.items ++ drop (length bytes.old.items) bytes.new.items }
    ensures found { ReadsToMessage result bytes.new.items }
    ensures own { (bytes.new.items ≡ bytes.old.items) ⊎ (length bytes.new.items ≤ spent bytes.new.items) }
    ensures came { Comes result (drop (length bytes.old.items) bytes.new.items) (S.view source.old) (S.view source.new) }
    ensures asks { Asks (S.view source.old) (S.view source.new) (length (drop (length bytes.old.items) bytes.new.items) + once_more result) }
    ensures width { Widens (S.view source.old) (S.view source.new) 65536 }
    ensures same_source { S.lent source.new ≡ S.lent source.old }
{
    take_until(source, bytes, HEAD)?;
    let total = total_at(bytes)? as usize;
    take_until(source, bytes, total)
}
