//! Laws of every history, each the contract of a function that does nothing.
ghost use Rattle.std.specs.Prelude.{◌≡◌, ◌≢◌, ◌↔◌, ◌⊎◌, ◌+◌, ◌<◌, ℕ, max, length, map, List, Option, [], ◌∷◌, ◌++◌, IfSome, Some, None, true, false, slice_get, Ok, unwrap_or, if◌then◌else◌};
ghost use Rattle.std.specs.List.{AllByRecursion};
ghost use Rattle.wire_message.specs.Front.{MessageView};
ghost use Rattle.wire_message.specs.Outgoing.{sender_of};
ghost use Rattle.wire_message.specs.declared.error.Error.{Error};
ghost use Rattle.wire_message.specs.declared.polled.Polled.{Polled};
ghost use Rattle.peer_words.specs.declared.answer.Entry.{Entry};
ghost use Rattle.peer_core.specs.History.{Event, Received, Passed, CallFinished, Made, Did, Main, Past, after, after_all};
ghost use Rattle.peer_streams.specs.History.{StreamOrigin, Ruled, StreamEvent, Asked, Stream, is_subscribed, raised};
ghost use Rattle.wire_message.specs.Replying.{is_serial};
ghost use Rattle.peer_core.specs.Asked.{pending, poll_answer, limit_answer, take_answer, busy};
ghost use Rattle.peer_core.specs.Refinement.{RouteView, Refines};
ghost use Rattle.peer_route.specs.Names.{IgnoredFront};
ghost use Rattle.peer_streams.specs.Streams.{runs};
ghost use Rattle.rule_match.specs.Rule.{Rule};
ghost use Rattle.rule_match.specs.Bytes.{rule_in_bytes};
ghost use Rattle.rule_match.specs.contracts.rule.MatchRulePartialEq.TheImpl.{ghosts as of_rules};
ghost use Rattle.peer_streams.specs.Rules.{is_same, default_capacity};
ghost use Rattle.peer_route.specs.Replay.{Setting, handle_index};
ghost use Rattle.peer_core.specs.BusCall.{last_of};
ghost use Rattle.peer_calls.specs.Issuing.{Posting};
ghost use Rattle.peer_core.specs.Issuing.{refusal, drawn};
ghost use Rattle.peer_route.specs.Plan.{Says, Sends, plan, second_index, next_call, call_answer, no_call};
ghost use Rattle.peer_route.specs.Entries.{replay, Legal, IsAtOnce, is_refused, write_fault};
ghost use Rattle.peer_words.specs.OfRun.{IsOfRun};
ghost use Rattle.peer_route.specs.StreamLaws.{Yields, YieldsAsked, holds, rule_at, is_serve, is_serving, does_beside, closes_stream, stays_open, says_denied, IsNoStream, is_take, IsEnded, IsLast, IsDrained, HoldsTooMany, IsPutOf, all_put, all_written};
ghost use Rattle.peer_route.specs.Laws.{IsPoll, IsFinal, IsReplyAt, IsUnknown, IsFirstReply, IsCutOff, IsPast, SameCall, is_by_position, IsNothingYet, with_server, with_messages, with_taken, held_for_objects, is_undelivered, told_serial};

use peer_calls::Writer;
use peer_words::{Answer, CallOp, Live, ObjectOp, StreamOp, Words};

/// A call is answered once. Once a lane's poll of a number, by position or not, gave a reply, valid or not, or the closing
/// error, each later poll or drop of that number by that lane is refused, as of a call that was never made. Histories are
/// newest first.
pub fn answered_once()
    ensures { (setting : Setting) (newer older : List Entry) (e : Entry) (number : ℕ) → Legal setting (newer ++ e ∷ older) → IsPoll number e.words → IsFinal e.answer → AllByRecursion (IsUnknown e.lane number) newer }
{}

/// A dropped call is unknown from then on: each later poll or drop of that number by that lane is refused, whatever comes.
pub fn dropped_for_good()
    ensures { (setting : Setting) (newer older : List Entry) (e : Entry) (number : ℕ) → Legal setting (newer ++ e ∷ older) → e.words ≡ Words.OfCall number CallOp.Drop → e.answer ≡ Answer.Dropped → AllByRecursion (IsUnknown e.lane number) newer }
{}

/// A reply answers the call whose serial it bears, and the first such reply does. Where a poll is answered with a position,
/// the lane's number names a call, the first message read after it was put that bears its serial has this position, and
/// the position is its place among the messages read, from 1 on (D-Bus Specification, "Message Format", `REPLY_SERIAL`).
#[tactic(auto, using(crate::proofs::Read::by_the_first))]
pub fn answered_by_the_first()
    ensures { (setting : Setting) (older : List Entry) (e : Entry) (number q : ℕ) → Legal setting (e ∷ older) → IsPoll number e.words → IsReplyAt q e.answer → IsFirstReply (replay setting older) e.lane number q e.answer }
{}

/// Messages of one peer arrive in the order of their positions: the one that was read behind so many others has the position one
/// above that number. So of two messages the one that arrived first has the lesser `Sequence`.
#[tactic(auto, using(crate::proofs::Read::at_place, crate::proofs::Read::in_order))]
pub fn arrival_order_is_the_order_of_positions()
    ensures position { (setting : Setting) (es : List Entry) (i : ℕ) (m : MessageView) → Legal setting es → slice_get (replay setting es).past.read i ≡ Some m → m.position ≡ i + 1 }
    ensures order { (setting : Setting) (es : List Entry) (i j : ℕ) (m n : MessageView) → Legal setting es → i < j → slice_get (replay setting es).past.read i ≡ Some m → slice_get (replay setting es).past.read j ≡ Some n → m.position < n.position }
{}

/// A call is answered with the error that closed the peer only where no reply came: no message read after the call was put
/// bears its serial, and the error is the first that closed the peer.
#[tactic(auto, using(crate::proofs::Read::by_the_closing_error))]
pub fn answered_by_the_closing_error()
    ensures { (setting : Setting) (older : List Entry) (e : Entry) (number : ℕ) (error : Error) → Legal setting (e ∷ older) → IsPoll number e.words → e.answer ≡ Answer.Closed error → IsCutOff (replay setting older) e.lane number error }
{}

/// A message that is read changes the answer of no call that it isn't for: none whose serial it doesn't bear, and none that
/// has its reply or is over. One that bears a serial that isn't pending changes the answer of no call at all.
#[tactic(auto, using(crate::proofs::Read::took_other, crate::proofs::Read::took_late))]
pub fn reply_changes_no_other()
    ensures other { (p : Past) (m : MessageView) (k : ℕ) → IfSome (slice_get p.calls k) (IsPast p m) → poll_answer (after (Received m) p) k ≡ poll_answer p k }
    ensures late { (p : Past) (m : MessageView) (serial : ℕ) → p.closing ≡ None → is_serial m.reply_serial serial ≡ true → pending p serial ≡ false → (k : ℕ) → poll_answer (after (Received m) p) k ≡ poll_answer p k }
{}

/// A front of a type that isn't known, which a read ignores, changes nothing but how many bytes the reads took. It answers no call,
/// whatever reply serial its bytes have. It is in no stream and counts toward no capacity. It has no position, and closes nothing (D-Bus
/// Specification, "Message Protocol", "Message Format").
#[tactic(auto, using(crate::proofs::Passed::core))]
pub fn ignored_fronts_change_nothing()
    ensures entry { (setting : Setting) (older : List Entry) (e : Entry) (bytes : List ℕ) → Legal setting (e ∷ older) → e.words ≡ Words.Read → e.answer ≡ Answer.Passed bytes
        → IgnoredFront bytes (length bytes) × (replay setting (e ∷ older) ≡ with_taken (length bytes) (replay setting older)) }
    ensures taken { (p : Past) (bytes : List ℕ) → (after (Passed bytes) p).taken ≡ p.taken + length bytes }
    ensures calls { (p : Past) (bytes : List ℕ) (k : ℕ) → poll_answer (after (Passed bytes) p) k ≡ poll_answer p k }
    ensures pending { (p : Past) (bytes : List ℕ) (serial : ℕ) → pending (after (Passed bytes) p) serial ≡ pending p serial }
    ensures streams { (p : Past) (bytes : List ℕ) (k : ℕ) → take_answer (after (Passed bytes) p) k ≡ take_answer p k }
    ensures busy { (p : Past) (bytes : List ℕ) → busy (after (Passed bytes) p) ≡ busy p }
    ensures position { (p : Past) (bytes : List ℕ) → (after (Passed bytes) p).read ≡ p.read }
    ensures closing { (p : Past) (bytes : List ℕ) → (after (Passed bytes) p).closing ≡ p.closing }
    ensures core { (p : Past) (bytes : List ℕ) (v : RouteView) → Refines v p → Refines v (after (Passed bytes) p) }
{}

/// A poll or a drop changes what is asked of no other call: neither of another number of its lane, nor of another lane.
pub fn spent_changes_no_other()
    ensures event { (p : Past) (j k : ℕ) → j ≢ k → poll_answer (after (CallFinished j) p) k ≡ poll_answer p k }
    ensures entry { (setting : Setting) (older : List Entry) (e : Entry) (number lane other : ℕ) (op : CallOp) → Legal setting (e ∷ older) → e.words ≡ Words.OfCall number op → (lane ≡ e.lane → other ≢ number) → SameCall (replay setting (e ∷ older)) (replay setting older) lane other }
{}

/// A stream gives exactly what was read since it was made. Where a lane's command made a stream, the positions of the items
/// that the lane's takes of its number gave since, and behind them those of the messages that it holds, are the positions of
/// all messages that were read since, in order: none is missed, given twice, or taken from before it was made.
#[tactic(auto, using(crate::proofs::Yields::yields))]
pub fn stream_gives_all()
    ensures { (setting : Setting) (newer : List Entry) (e : Entry) (older : List Entry) (number : ℕ) → Legal setting (newer ++ e ∷ older) → e.words ≡ Words.Stream → e.answer ≡ Answer.Streaming number → Yields setting newer e older number None [] }
{}

/// A stream of a rule gives exactly what was read since it was made and what its rule accepts, in order: no such message is
/// missed, given twice, or taken from before it was made, and no other is given (D-Bus Specification, "Match Rules").
#[tactic(auto, using(crate::proofs::Yields::opened_yields))]
pub fn rule_stream_gives_what_it_accepts()
    ensures { (setting : Setting) (newer : List Entry) (e : Entry) (older : List Entry) (number : ℕ) (asked : Option ℕ) (text : List ℕ) (rule : Rule) → Legal setting (newer ++ e ∷ older) → e.words ≡ Words.Open asked text
        → rule_in_bytes text ≡ Ok rule → e.answer ≡ Answer.Streaming number → Yields setting newer e older number (Some rule) [] }
{}

/// A clone gives what its original held when it was made, and then exactly what was read since and what the original's rule
/// accepts: nothing is missed, or given twice by it, whatever the original gives or whether it is closed.
#[tactic(auto, using(crate::proofs::Yields::clone_yields))]
pub fn clone_goes_on_where_its_original_is()
    ensures { (setting : Setting) (newer : List Entry) (e : Entry) (older : List Entry) (number original : ℕ) → Legal setting (newer ++ e ∷ older) → e.words ≡ Words.OfStream original StreamOp.Clone → e.answer ≡ Answer.Streaming number
        → Yields setting newer e older number (rule_at (replay setting older) e.lane original) (holds (replay setting older) e.lane original) }
{}

/// A stream that was closed is unknown from then on, whether the bus was told or couldn't be: each later command of that lane that
/// names its number is refused, whatever comes.
pub fn stream_closed_for_good()
    ensures { (setting : Setting) (newer older : List Entry) (e : Entry) (number : ℕ) → Legal setting (newer ++ e ∷ older) → closes_stream number e.words ≡ true → stays_open e.answer ≡ false → AllByRecursion (IsNoStream e.lane number) newer }
{}

/// A stream for which the bus was asked gives exactly what was read behind the return to its AddMatch and what its rule accepts, in
/// order: nothing from before it, and where the bus denied it, or no reply came, nothing (D-Bus Specification, "Message Bus
/// Messages", `org.freedesktop.DBus.AddMatch`).
#[tactic(auto, using(crate::proofs::Yields::asked_yields))]
pub fn asked_stream_gives_what_comes_behind_the_return()
    ensures { (setting : Setting) (newer : List Entry) (e : Entry) (older : List Entry) (number serial : ℕ) (asked : Option ℕ) (text : List ℕ) (rule : Rule) → Legal setting (newer ++ e ∷ older) → e.words ≡ Words.Open asked text
        → rule_in_bytes text ≡ Ok rule → e.answer ≡ Answer.Opening number serial → YieldsAsked setting newer e older number serial rule }
{}

/// A stream that the bus denied, or that no reply came for before the peer was closed, is unknown once that was said: each later
/// command of that lane that names its number is refused, whatever comes.
pub fn stream_denied_for_good()
    ensures { (setting : Setting) (newer older : List Entry) (e : Entry) (number : ℕ) → Legal setting (newer ++ e ∷ older) → e.words ≡ Words.OfStream number StreamOp.Opened → says_denied e.answer ≡ true → AllByRecursion (IsNoStream e.lane number) newer }
{}

/// What a stream does changes what no other gives: neither its items, nor its end, nor its closing, nor a capacity that it asks
/// for.
#[tactic(auto, using(crate::proofs::Capacities::did_other))]
pub fn stream_changes_no_other()
    ensures { (p : Past) (j k : ℕ) (deed : StreamEvent) → j ≢ k → take_answer (after (Did j deed) p) k ≡ take_answer p k }
{}

/// A capacity that is set, or asked for, throws nothing away: each stream gives what it gave.
#[tactic(auto, using(crate::proofs::Capacities::main_keeps, crate::proofs::Capacities::asked_keeps, crate::proofs::Capacities::opened_keeps))]
pub fn capacity_throws_nothing_away()
    ensures set { (p : Past) (limit k : ℕ) → take_answer (after (Main limit) p) k ≡ take_answer p k }
    ensures asked { (p : Past) (limit j k : ℕ) → take_answer (after (Did j (Asked limit)) p) k ≡ take_answer p k }
    ensures opened { (p : Past) (rule : Rule) (asked : Option ℕ) (k : ℕ) → k < length p.streams → take_answer (after (Made (Ruled rule asked)) p) k ≡ take_answer p k }
{}

/// The main capacity, which streams without a rule share, is just what it is set to. One of them that asks for more raises it; a
/// smaller request is passed over, and one of a stream with a rule.
#[tactic(auto, using(crate::proofs::Capacities::main_raised, crate::proofs::Capacities::main_kept))]
pub fn main_capacity()
    ensures exact { (p : Past) (limit : ℕ) → (after (Main limit) p).capacities.main ≡ limit }
    ensures raised { (p : Past) (limit j : ℕ) (s : Stream) → slice_get p.streams j ≡ Some s → s.rule ≡ None → (after (Did j (Asked limit)) p).capacities.main ≡ max p.capacities.main limit }
    ensures opened { (p : Past) (making : StreamOrigin) → (after (Made making) p).capacities.main ≡ p.capacities.main }
    ensures kept { (p : Past) (limit j : ℕ) (s : Stream) (rule : Rule) → slice_get p.streams j ≡ Some s → s.rule ≡ Some rule → (after (Did j (Asked limit)) p).capacities.main ≡ p.capacities.main }
{}

/// Two rules are one exactly where each part of them is the same, and that is what `==` decides.
#[tactic(auto, using(peer_streams::proofs::SameRule::one_where_same, peer_streams::proofs::SameRule::code_same))]
pub fn rules_are_one_where_equal()
    ensures equal { (r s : Rule) → is_same r s ≡ true ↔ (r ≡ s) }
    ensures code { (r s : Rule) → of_rules.eq r s ≡ is_same r s }
{}

/// All open streams of one rule share one capacity. The rule's first stream gives it the one that is asked for, or 8 for the
/// rule of an owner's changes, else 64; a later one of the rule that asks for more raises it, and a smaller request is passed
/// over. What is asked for by another rule's stream, or is set for streams without a rule, changes nothing of it.
#[tactic(auto, using(crate::proofs::Capacities::one_limit, crate::proofs::Capacities::first_limit, crate::proofs::Capacities::later_limit, crate::proofs::Capacities::asked_limit, crate::proofs::Capacities::other_limit, crate::proofs::Capacities::asked_other))]
pub fn rule_capacity()
    ensures one { (p : Past) (j k : ℕ) (s t : Stream) → slice_get p.streams j ≡ Some s → slice_get p.streams k ≡ Some t → runs p.read s ≡ true → runs p.read t ≡ true → s.rule ≡ t.rule → limit_answer p j ≡ limit_answer p k }
    ensures first { (p : Past) (rule : Rule) (asked : Option ℕ) → is_subscribed p.read p.streams rule ≡ false → (after (Made (Ruled rule asked)) p).capacities.rules rule ≡ unwrap_or asked (default_capacity rule) }
    ensures later { (p : Past) (rule : Rule) (asked : Option ℕ) → is_subscribed p.read p.streams rule ≡ true → (after (Made (Ruled rule asked)) p).capacities.rules rule ≡ raised asked (p.capacities.rules rule) }
    ensures asked { (p : Past) (limit j : ℕ) (s : Stream) (rule : Rule) → slice_get p.streams j ≡ Some s → s.rule ≡ Some rule → (after (Did j (Asked limit)) p).capacities.rules rule ≡ max (p.capacities.rules rule) limit }
    ensures other { (p : Past) (rule another : Rule) (asked : Option ℕ) → rule ≢ another → (after (Made (Ruled another asked)) p).capacities.rules rule ≡ p.capacities.rules rule }
    ensures asked_other { (p : Past) (limit j : ℕ) (s : Stream) (rule : Rule) → slice_get p.streams j ≡ Some s → s.rule ≢ Some rule → (after (Did j (Asked limit)) p).capacities.rules rule ≡ p.capacities.rules rule }
    ensures set { (p : Past) (rule : Rule) (limit : ℕ) → (after (Main limit) p).capacities.rules rule ≡ p.capacities.rules rule }
{}

/// The first cause stays, whatever comes: the error that closed the peer, and what became of its writer.
pub fn first_cause_stays()
    ensures closing { (p : Past) (newer : List Event) (error : Error) → p.closing ≡ Some error → (after_all newer p).closing ≡ Some error }
    ensures writer { (p : Past) (newer : List Event) → p.outbox.writer ≢ Writer.Fine → (after_all newer p).outbox.writer ≡ p.outbox.writer }
{}

/// Once a peer was closed nothing is put any more.
#[tactic(auto, using(crate::proofs::Sent::none_put, crate::proofs::Sent::none_more, crate::proofs::Sent::none_failed))]
pub fn nothing_is_put_after_closing()
    ensures entries { (setting : Setting) (newer : List Entry) (e : Entry) (older : List Entry) → Legal setting (newer ++ e ∷ older) → e.words ≡ Words.Close → AllByRecursion (λ (f : Entry). f.put ≡ []) newer }
    ensures past { (setting : Setting) (newer : List Entry) (e : Entry) (older : List Entry) → Legal setting (newer ++ e ∷ older) → e.words ≡ Words.Close
        → (replay setting (newer ++ e ∷ older)).past.outbox.put ≡ (replay setting older).past.outbox.put }
    ensures failed { (setting : Setting) (newer : List Entry) (e : Entry) (older : List Entry) → Legal setting (newer ++ e ∷ older) → e.words ≡ Words.Close → AllByRecursion (λ (f : Entry). IsOfRun f.words) newer
        → (replay setting (newer ++ e ∷ older)).past.outbox.failed ≡ (replay setting older).past.outbox.failed }
{}

/// A stream ends once and for good. Once a lane's take of a number gave the closing error, or said that the stream is over,
/// each later take of that number by that lane says that it is over, or is refused once the stream was closed.
pub fn stream_ends_once()
    ensures { (setting : Setting) (newer older : List Entry) (e : Entry) (number : ℕ) → Legal setting (newer ++ e ∷ older) → is_take number e.words ≡ true → IsLast e.answer → AllByRecursion (IsEnded e.lane number) newer }
{}

/// A stream gives the closing error only where it holds nothing, and the error is the first that closed the peer.
#[tactic(auto, using(crate::proofs::Drained::drained))]
pub fn stream_gives_the_first_error()
    ensures { (setting : Setting) (older : List Entry) (e : Entry) (number : ℕ) (error : Error) → Legal setting (e ∷ older) → is_take number e.words ≡ true → e.answer ≡ Answer.Closed error → IsDrained (replay setting older) e.lane number error }
{}

/// A stream that is made after the peer was closed is over from the start.
#[tactic(auto, using(crate::proofs::Drained::ended_from_start))]
pub fn stream_after_closing_is_over()
    ensures { (setting : Setting) (newer older : List Entry) (e : Entry) (number : ℕ) (error : Error) → Legal setting (newer ++ e ∷ older) → e.words ≡ Words.Stream → e.answer ≡ Answer.Streaming number
        → (replay setting older).past.closing ≡ Some error → AllByRecursion (IsEnded e.lane number) newer }
{}

/// Only a poll or a take by position is answered that there is none before it, and it is never answered that there is nothing
/// yet.
#[tactic(auto, using(crate::proofs::Spoken::only, crate::proofs::Spoken::never))]
pub fn none_before_is_by_position()
    ensures only { (setting : Setting) (older : List Entry) (e : Entry) → Legal setting (e ∷ older) → e.answer ≡ Answer.NoneBefore → is_by_position e.words ≡ true }
    ensures never { (setting : Setting) (older : List Entry) (e : Entry) → Legal setting (e ∷ older) → is_by_position e.words ≡ true → IsNothingYet e.answer → ⊥ }
{}

/// A read is busy exactly where the peer is open and some open stream holds more than it may, and changes nothing then.
#[tactic(auto, using(crate::proofs::Drained::busy_only, crate::proofs::Drained::busy_there, crate::proofs::Spoken::busy_changes_nothing))]
pub fn busy_where_a_stream_is_full()
    ensures only { (setting : Setting) (older : List Entry) (e : Entry) → Legal setting (e ∷ older) → e.words ≡ Words.Read → e.answer ≡ Answer.Busy → HoldsTooMany (replay setting older).past }
    ensures there { (setting : Setting) (older : List Entry) (e : Entry) → Legal setting (e ∷ older) → e.words ≡ Words.Read → HoldsTooMany (replay setting older).past → e.answer ≡ Answer.Busy }
    ensures same { (setting : Setting) (older : List Entry) (e : Entry) → Legal setting (e ∷ older) → e.words ≡ Words.Read → e.answer ≡ Answer.Busy → replay setting (e ∷ older) ≡ replay setting older }
{}

/// What the answers say was sent is what was written. What was put is what the entries put, in order; an answer tells the serial of the
/// last message that its entry put; and where each entry writes at once, the messages that the entries wrote are, in order, the first
/// of what was put, as many as were written. Where no write failed that is all that was put; where one failed it is that of the message
/// right behind them.
pub fn put_is_what_was_sent()
    ensures put { (setting : Setting) (es : List Entry) → Legal setting es → (replay setting es).past.outbox.put ≡ all_put es }
    ensures serial { (setting : Setting) (older : List Entry) (e : Entry) (serial : ℕ) → Legal setting (e ∷ older) → told_serial e.answer ≡ Some serial → IsAtOnce e → (last_of (map (λ (m : MessageView). m.serial) e.put) ≡ Some serial) × (e.written ≡ length e.put) }
    ensures sent { (setting : Setting) (es : List Entry) → Legal setting es → AllByRecursion IsAtOnce es → AllByRecursion (λ (e : Entry). IsOfRun e.words) es
        → IsPutOf (replay setting es).past.outbox.failed (replay setting es).past.outbox.written (replay setting es).past.outbox.put (all_written es) }
{}

/// A peer keeps the name that it was given: at its start, or by the first entry that gives one where there was none. One that comes
/// later changes nothing, and is told so.
#[tactic(auto, using(crate::proofs::Spoken::start, crate::proofs::Spoken::kept, crate::proofs::Spoken::given, crate::proofs::Spoken::later))]
pub fn name_stays()
    ensures start { (setting : Setting) (es : List Entry) → AllByRecursion (λ (e : Entry). IsOfRun e.words) es → (replay setting es).past.name ≡ setting.name }
    ensures kept { (setting : Setting) (newer older : List Entry) (name : List ℕ) → (replay setting older).past.name ≡ Some name → (replay setting (newer ++ older)).past.name ≡ Some name }
    ensures given { (setting : Setting) (older : List Entry) (e : Entry) (name : List ℕ) → Legal setting (e ∷ older) → e.words ≡ Words.Live (Live.Unique name) → (replay setting older).past.name ≡ None
        → (e.answer ≡ Answer.Named true) × ((replay setting (e ∷ older)).past.name ≡ Some name) }
    ensures later { (setting : Setting) (older : List Entry) (e : Entry) (name earlier : List ℕ) → Legal setting (e ∷ older) → e.words ≡ Words.Live (Live.Unique name) → (replay setting older).past.name ≡ Some earlier
        → (e.answer ≡ Answer.Named false) × (replay setting (e ∷ older) ≡ replay setting older) }
{}

/// Each message that an entry puts has the peer's name as its sender, and none where the peer has none then, but an error that answers a
/// call that came for the objects, which has none (D-Bus Specification, "Header Fields", `SENDER`).
#[tactic(auto, using(crate::proofs::Sent::bear_the_name))]
pub fn messages_bear_the_name()
    ensures { (setting : Setting) (older : List Entry) (e : Entry) → Legal setting (e ∷ older) → AllByRecursion (λ (m : MessageView). m.sender ≡ sender_of (replay setting older).past.name (is_serving e.words) m.kind) e.put }
{}

/// A refused command leaves all as it was: what the entries leave is the same as before it. So it is of one that closes streams where
/// they aren't open; where the bus can't be told of their rules, they are closed. A call that can't be answered was taken.
pub fn refused_changes_nothing()
    ensures { (setting : Setting) (older : List Entry) (e : Entry) (error : Error) → Legal setting (e ∷ older) → e.answer ≡ Answer.Refused error → (does_beside e.words ≡ true → error ≡ Error.UnknownHandle)
        → replay setting (e ∷ older) ≡ replay setting older }
{}

/// So does one that is answered busy, a read as well as the opening of a stream: what the entries leave is the same as before it.
#[tactic(auto, using(crate::proofs::Spoken::busy_changes_nothing))]
pub fn busy_changes_nothing()
    ensures { (setting : Setting) (older : List Entry) (e : Entry) → Legal setting (e ∷ older) → e.answer ≡ Answer.Busy → replay setting (e ∷ older) ≡ replay setting older }
{}

/// Closing streams changes nothing else, the RemoveMatch that tells the bus of it included, whether that was written or not: each other
/// stream gives the same, a poll of each call that was issued before gives the same, and each capacity is the same.
#[tactic(auto, using(crate::proofs::Unstreamed::other_streams, crate::proofs::Unstreamed::same_calls, crate::proofs::Unstreamed::same_capacities))]
pub fn unstream_changes_no_other()
    ensures streams { (setting : Setting) (older : List Entry) (e : Entry) (number : ℕ) (second : Option ℕ) (k : ℕ) → Legal setting (e ∷ older) → e.words ≡ Words.OfStream number (StreamOp.Unstream second)
        → handle_index 0 e.lane number (replay setting older).streams ≢ Some k → second_index (replay setting older) e.lane second ≢ Some (Some k)
        → take_answer (replay setting (e ∷ older)).past k ≡ take_answer (replay setting older).past k }
    ensures calls { (setting : Setting) (older : List Entry) (e : Entry) (number : ℕ) (second : Option ℕ) (k : ℕ) → Legal setting (e ∷ older) → e.words ≡ Words.OfStream number (StreamOp.Unstream second)
        → k < length (replay setting older).past.calls → poll_answer (replay setting (e ∷ older)).past k ≡ poll_answer (replay setting older).past k }
    ensures capacities { (setting : Setting) (older : List Entry) (e : Entry) (number : ℕ) (second : Option ℕ) → Legal setting (e ∷ older) → e.words ≡ Words.OfStream number (StreamOp.Unstream second)
        → (replay setting (e ∷ older)).past.capacities ≡ (replay setting older).past.capacities }
{}

/// A command to which no refusal applies has its defined answer. One that asks or does by itself has what its plan says; where
/// messages are to be sent that nothing refuses, while the writer is fine, it is answered by the serials that they draw, or else by the
/// fault of a write.
#[tactic(auto, using(crate::proofs::Sent::said_as_meant, crate::proofs::Sent::sent_or_fault))]
pub fn done_where_nothing_refuses()
    ensures says { (setting : Setting) (older : List Entry) (e : Entry) (answer : Answer) (deeds : List Event) → Legal setting (e ∷ older) → plan (replay setting older) e.lane e.words ≡ Says answer deeds → e.answer ≡ answer }
    ensures sends { (setting : Setting) (older : List Entry) (e : Entry) (deeds : List Event) (ds : List Posting) (sent : List ℕ → Answer) → Legal setting (e ∷ older) → plan (replay setting older) e.lane e.words ≡ Sends deeds ds sent
        → refusal (after_all deeds (replay setting older).past) ds ≡ None → (replay setting older).past.outbox.writer ≡ Writer.Fine
        → (serials : List ℕ) × (drawn (after_all deeds (replay setting older).past) ds ≡ Some serials) × (e.answer ≡ (if e.failed then write_fault else sent serials)) }
{}

/// The object server's stream is made by the first command on objects that isn't refused, whatever is in flight, and by no other, and
/// stays the object server's. It has the rule of the method calls that come for the peer, by the peer's name of then (D-Bus
/// Specification, "Match Rules"); nothing else is changed, but that the messages are put and written which are wanted sent with that command.
/// Once it is there, a command on objects that takes no call changes nothing but that its messages are put and written. A stream that is made
/// after the peer was closed is over from the start.
#[tactic(auto, using(crate::proofs::Served::first, crate::proofs::Served::refused, crate::proofs::Served::later, crate::proofs::Served::stays, crate::proofs::Served::only, crate::proofs::Served::over))]
pub fn object_server_begins_once()
    ensures first { (setting : Setting) (older : List Entry) (e : Entry) (op : ObjectOp) → Legal setting (e ∷ older) → e.words ≡ Words.Objects op → is_refused e.answer ≡ false → (replay setting older).server ≡ None
        → replay setting (e ∷ older) ≡ with_messages e (with_server (replay setting older)) }
    ensures refused { (setting : Setting) (older : List Entry) (e : Entry) (op : ObjectOp) (error : Error) → Legal setting (e ∷ older) → e.words ≡ Words.Objects op → is_serve op ≡ false → e.answer ≡ Answer.Refused error
        → replay setting (e ∷ older) ≡ replay setting older }
    ensures later { (setting : Setting) (older : List Entry) (e : Entry) (op : ObjectOp) (k : ℕ) → Legal setting (e ∷ older) → e.words ≡ Words.Objects op → is_serve op ≡ false → (replay setting older).server ≡ Some k
        → replay setting (e ∷ older) ≡ with_messages e (replay setting older) }
    ensures stays { (setting : Setting) (newer older : List Entry) (k : ℕ) → (replay setting older).server ≡ Some k → (replay setting (newer ++ older)).server ≡ Some k }
    ensures only { (setting : Setting) (older : List Entry) (e : Entry) → (replay setting older).server ≡ None → ((replay setting (e ∷ older)).server ≡ None) ⊎ ((op : ObjectOp) × (e.words ≡ Words.Objects op)) }
    ensures over { (p : Past) (rule : Rule) (error : Error) → p.closing ≡ Some error → take_answer (after (Made (Ruled rule None)) p) (length p.streams) ≡ Ok Polled.Ended }
{}

/// What whoever keeps the peer's objects wants sent by a command on them is put as a whole, or nothing of it is. Where such a command is refused,
/// or answered that its messages couldn't be sent, and no write failed within it, it put nothing.
pub fn objects_put_all_or_none()
    ensures { (setting : Setting) (older : List Entry) (e : Entry) (op : ObjectOp) → Legal setting (e ∷ older) → e.words ≡ Words.Objects op → is_undelivered e.answer ≡ true → e.failed ≡ false → e.put ≡ [] }
{}

/// The object server's stream is nobody's: no lane's number names it, so that no command that names a stream takes from it, closes it,
/// or asks anything else of it.
#[tactic(auto, using(crate::proofs::Nobodys::nobodys, crate::proofs::Nobodys::unnamed))]
pub fn object_server_is_nobodys()
    ensures owner { (setting : Setting) (es : List Entry) (k : ℕ) → (replay setting es).server ≡ Some k → slice_get (replay setting es).streams k ≡ Some None }
    ensures unnamed { (setting : Setting) (es : List Entry) (k lane number : ℕ) → (replay setting es).server ≡ Some k → handle_index 0 lane number (replay setting es).streams ≢ Some k }
{}

/// `serve` takes the calls that came for the objects one by one, in the order of their arrival: where the object server's stream holds
/// one, the first is taken, and is answered by its position, or by why its messages weren't sent; none is missed, and none is taken
/// twice. Where it holds none, nothing is put, and the answer says that more may come, or, on a closed peer, that none does; never is it
/// the error that closed the peer.
#[tactic(auto, using(crate::proofs::Served::takes, crate::proofs::Served::answered, crate::proofs::Served::uncalled))]
pub fn serve_takes_the_next_call()
    ensures takes { (setting : Setting) (older : List Entry) (e : Entry) (m : MessageView) → Legal setting (e ∷ older) → e.words ≡ Words.Objects ObjectOp.Serve → next_call (replay setting older).past (replay setting older).server ≡ Some m
        → held_for_objects (replay setting older) ≡ m ∷ held_for_objects (replay setting (e ∷ older)) }
    ensures answered { (setting : Setting) (older : List Entry) (e : Entry) (m : MessageView) → Legal setting (e ∷ older) → e.words ≡ Words.Objects ObjectOp.Serve → next_call (replay setting older).past (replay setting older).server ≡ Some m
        → (e.answer ≡ call_answer m) ⊎ (is_undelivered e.answer ≡ true) }
    ensures uncalled { (setting : Setting) (older : List Entry) (e : Entry) → Legal setting (e ∷ older) → e.words ≡ Words.Objects ObjectOp.Serve → next_call (replay setting older).past (replay setting older).server ≡ None
        → (e.answer ≡ no_call (replay setting older).past.closing) × (e.put ≡ []) }
{}
