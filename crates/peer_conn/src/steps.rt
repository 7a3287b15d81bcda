//! The steps of a peer's state: commands are begun and finished, messages are read and written.
ghost use Rattle.std.specs.Prelude.{ℕ, ◌≡◌, ◌≢◌, ◌+◌, ◌-◌, ◌^◌, ◌<◌, ◌≤◌, length, if◌then◌else◌, true, false, [], None, Some, Err, is_ok, IfOk, IfErr, IfSome, OnOk};
ghost use Rattle.wire_message.specs.declared.error.Error.TheVariants as errors;
ghost use Rattle.peer_words.specs.OfRun.{IsOfRun};
ghost use Rattle.peer_words.specs.declared.answer.Entry.{Entry};
ghost use Rattle.peer_words.specs.declared.words.Words.TheVariants as words;
ghost use Rattle.peer_route.specs.Replay.{Setting, Replay};
ghost use Rattle.peer_route.specs.Plan.{Says, Reads, plan};
ghost use Rattle.peer_route.specs.Entries.{IsEntry, IsLater, replay, more, write_fault};
ghost use Rattle.peer_core.specs.History.{Received as Took, Past, after};
ghost use Rattle.peer_core.specs.Refinement.{is_busy, Refines};
ghost use Rattle.peer_conn.specs.Invariant.{StateInvariant};
ghost use Rattle.peer_conn.specs.Going.{Going, IsBegun, NoneWaits, MayWrite, MayRead, IsFound, read_entry, read_answer};
ghost use Rattle.peer_conn.specs.Going as going;

use crate::acting::Acted;
use crate::state::{PeerState, RunError};
use peer_route::{Answer, Command, Entry, Posts, Route, Words};
use std::alloc::{AllocFailed, Global};
use std::marker::Brand;
use std::sync::ledger::{Blank, Ledger};
use wire_message::{Error, IoKind, Message, Received, Steps};

/// An entry of a command that put nothing.
pub(crate) fn quiet(
    alloc: Global,
    lane: u32,
    words: Words,
    answer: Answer,
    read: Option<Message>,
) -> Entry
    ensures { result ≡ going.quiet lane words answer read }
{
    Entry {
        lane,
        words,
        answer,
        read,
        put: Posts(Vec::new(alloc)),
        written: 0,
        failed: false,
    }
}

/// One more than so many of a command's messages, which are not all of them.
fn one_more(put: &Posts, count: u64) -> u64
    requires { count < length put.now }
    ensures { result ≡ count + 1 }
{
    // A list's length fits a number.
    prove!(count < put.0.len() as u64);
    count + 1
}

/// Takes a message in. Its tests of rules are counted for nobody.
fn arrive<L: Ledger>(
    route: &mut Route,
    message: Message,
    blank: Blank,
) -> Result<(), AllocFailed<Message>>
    requires name { blank.name ≡ L.name }
    requires parts { blank.parts ≡ L.parts }
    requires some { 0 < blank.parts }
    requires is_open { route.old.calls.closing ≡ None }
    requires has_room { is_busy route.old ≡ false }
    requires placed { message.position ≡ route.old.read + 1 }
    requires limit { message.position ≤ 2 ^ 64 - 2 }
    ensures left { OnOk result ((p : Past) → Refines route.old p → Refines route.new (after (Took message) p)) }
    ensures back { IfErr result (λ e. (e.value ≡ message) × (route.new ≡ route.old)) }
{
    route.arrive(message, &mut Steps::<L>::start(blank))
}

impl PeerState {
    /// How many messages were read.
    pub fn received(&self) -> u64
        ensures { result ≡ self.now.core.read }
    {
        self.route.received()
    }

    /// Does what a command asks, of a lane of a peer whose sink takes file descriptors or takes none: its messages are put, in order,
    /// and wait; none is written yet. It is no read and no `close`, and asks nothing of objects. What the entry is is said of a peer
    /// that isn't closed by UnknownHandle, which no read and no `close` does.
    ///
    /// # Errors
    ///
    /// Memory for want of memory; the state is then one that no command may go on with.
    pub fn begin(
        &mut self,
        alloc: Global,
        takes_fds: bool,
        command: &Command,
    ) -> Result<Entry, RunError>
        requires runs { IsOfRun command.now.words }
        requires begun { IsBegun command.now.words }
        ensures command { IfOk result (λ e. (e.lane ≡ command.now.lane) × (e.words ≡ command.now.words)) }
        ensures unwritten { IfOk result IsLater }
        ensures going { IfOk result (λ e. (t : Replay) → StateInvariant self.old t → t.setting.takes_fds ≡ takes_fds → t.past.closing ≢ Some errors.UnknownHandle → Going self.new t e) }
    {
        let words = command.words.try_clone(alloc)?;
        let before = self.route.outbox_len();
        let Acted { answer, makes } = self.act(alloc, takes_fds, command.lane, &command.words)?;
        let put = self.put_since(alloc, before)?;
        self.makes = makes;
        Ok(Entry {
            lane: command.lane,
            words,
            answer,
            read: None,
            put,
            written: 0,
            failed: false,
        })
    }

    /// The next message of the entry was written.
    pub fn wrote(&mut self, entry: &mut Entry)
        requires may { MayWrite self.old entry.old }
        ensures entry { entry.new ≡ record entry.old { written = entry.old.written + 1 } }
        ensures going { (t : Replay) → Going self.old t entry.old → NoneWaits t.past → Going self.new t entry.new }
    {
        self.route.wrote(self.route.outbox_done());
        entry.written = one_more(&entry.put, entry.written);
    }

    /// The write of the next message of the entry failed: none of those behind it goes out any more, nor any that is put later, and
    /// what they would have made is nobody's. The entry is answered so.
    pub fn write_failed(&mut self, entry: &mut Entry)
        requires may { MayWrite self.old entry.old }
        ensures entry { entry.new ≡ record entry.old { failed = true; answer = write_fault } }
        ensures going { (t : Replay) → Going self.old t entry.old → NoneWaits t.past → Going self.new t entry.new }
    {
        self.fail_rest();
        entry.failed = true;
        entry.answer = Answer::SendFailed(Error::InputOutput(IoKind::WriteFault));
    }

    /// The command is over, whatever was written of its messages: what it made is its lane's from now on.
    ///
    /// # Errors
    ///
    /// Memory for want of memory; the state is then one that no command may go on with.
    pub fn finish(&mut self, entry: &Entry) -> Result<(), RunError>
        ensures { OnOk result ((t : Replay) → Going self.old t entry.now → StateInvariant self.new (more t entry.now)) }
    {
        self.own(entry.lane, entry.failed, self.makes)?;
        Ok(())
    }

    /// The entry of a read that takes nothing: where the peer is closed, its first closing error again; else, where a stream is
    /// full, Busy. None exactly where a message may be read.
    pub fn read_refusal(&self, alloc: Global, lane: u32) -> Option<Entry>
        ensures entry { IfSome result (λ e. e ≡ going.quiet lane words.Read (read_answer self.now.core.calls.closing) None) }
        ensures refuses { IfSome result (λ e. (t : Replay) → StateInvariant self.now t → plan t lane words.Read ≡ Says e.answer []) }
        ensures may { result ≡ None → MayRead self.now.core }
        ensures reads { result ≡ None → (t : Replay) → StateInvariant self.now t → plan t lane words.Read ≡ Reads }
    {
        if let Some(error) = self.route.closing() {
            return Some(quiet(alloc, lane, Words::Read, Answer::Closed(error), None));
        }
        if self.route.busy() {
            return Some(quiet(alloc, lane, Words::Read, Answer::Busy, None));
        }
        None
    }

    /// Takes what a read found: the next message, a front that is ignored, or why there is neither. A message reaches the call that it
    /// answers, and each stream whose rule accepts it. An ignored front changes nothing, and its bytes are moved into the answer. An
    /// error closes the peer. Only a message takes memory.
    ///
    /// # Errors
    ///
    /// Memory where that is why there is no message, or there is none to keep it; the state is then one that no command may go on with.
    pub fn read(
        &mut self,
        alloc: Global,
        lane: u32,
        found: wire_message::Result<Received>,
    ) -> Result<Entry, RunError>
        requires may { MayRead self.old.core }
        requires found { IsFound self.old.core.read found }
        ensures entry { IfOk result (λ e. e ≡ read_entry lane found) }
        ensures found { IfOk result (λ e. found ≢ Err errors.Memory) }
        ensures closes { IfErr found (λ e. e ≢ errors.Memory → is_ok result ≡ true) }
        ensures reads { IfOk result (λ e. (t : Replay) → StateInvariant self.old t → plan t lane words.Read ≡ Reads → IsEntry t e × StateInvariant self.new (more t e)) }
    {
        match found {
            Ok(Received::Message(message)) => {
                let copy = message.clone()?;
                arrive::<Brand>(&mut self.route, message, Blank::new(1))?;
                Ok(quiet(alloc, lane, Words::Read, Answer::Got, Some(copy)))
            }
            Ok(Received::Passed(bytes)) => {
                let answer = Answer::Passed(bytes);
                Ok(quiet(alloc, lane, Words::Read, answer, None))
            }
            Err(error) => match &error {
                Error::Memory => Err(RunError::Memory),
                _ => {
                    self.route.close(&error);
                    Ok(quiet(alloc, lane, Words::Read, Answer::Closed(error), None))
                }
            },
        }
    }

    /// The peer is closed, also where the sink's `close` failed.
    pub fn close(&mut self, alloc: Global, lane: u32, failed: bool) -> Entry
        ensures entry { result ≡ going.quiet lane words.Close (if failed then write_fault else Answer.Shut) None }
        ensures closes { (t : Replay) → StateInvariant self.old t → IsEntry t result × StateInvariant self.new (more t result) }
    {
        self.route.close(&Error::InputOutput(IoKind::Closed));
        let answer = if failed {
            Answer::SendFailed(Error::InputOutput(IoKind::WriteFault))
        } else {
            Answer::Shut
        };
        quiet(alloc, lane, Words::Close, answer, None)
    }
}
