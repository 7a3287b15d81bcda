//! Laws of commands on objects, each the contract of a function that does nothing: the outside decides the history; each call is answered
//! once, and changes one object.
ghost use Rattle.std.specs.Prelude.{◌≡◌, ◌≢◌, ◌∷◌, ◌++◌, ℕ, Bool, List, Option, map, slice_get, Some};
ghost use Rattle.peer_words.specs.declared.answer.Entry.{Entry};
ghost use Rattle.std.specs.List.{AllByRecursion};
ghost use Rattle.peer_route.specs.Replay.{Setting};
ghost use Rattle.peer_route.specs.Entries.{Legal, IsAtOnce, replay};
ghost use Rattle.peer_route.specs.Environment.{ReadsAgree, WritesAgree, ClosesAgree};
ghost use Rattle.peer_script.specs.Again.{command_of};
ghost use Rattle.peer_service.specs.Service.{ServiceView};
ghost use Rattle.wire_message.specs.Front.{MessageView};
ghost use Rattle.peer_words.specs.declared.words.Words.TheVariants as words;
ghost use Rattle.peer_words.specs.declared.words.ObjectOp.TheVariants as ops;
ghost use Rattle.peer_route.specs.Plan.{next_call};
ghost use Rattle.peer_turns.specs.Objects.{AreServed, AreFunctions};
ghost use Rattle.peer_turns.specs.Replies.{IsAnswered, ReachesSlot};

use peer_service::Registry;

/// Where the source's bytes and ending and the sink's room are told, two legal histories of the same commands that write at once are the
/// same, however the bytes are cut, where the same interfaces were handed in, each of which answers in one way: the outside and these decide each
/// answer, that of a failed write too, and what was read, put and written; and the objects are the same.
pub fn one_history<R: Registry>()
    ensures { AreFunctions R.meanings → (setting : Setting) (first one other : ServiceView) (es fs : List Entry) (stop : Bool) (bytes : List ℕ) (room : Option ℕ) → map command_of es ≡ map command_of fs → Legal setting es → Legal setting fs → AllByRecursion IsAtOnce es → AllByRecursion IsAtOnce fs
        → AreServed setting (record { meanings = R.meanings; first = first }) es one → AreServed setting (record { meanings = R.meanings; first = first }) fs other
        → ReadsAgree setting (Some stop) bytes es → ReadsAgree setting (Some stop) bytes fs
        → WritesAgree setting (Some room) es → WritesAgree setting (Some room) fs → ClosesAgree (Some room) es → ClosesAgree (Some room) fs → (es ≡ fs) × (one ≡ other) }
{}

/// Each method call that `serve` takes is answered once: where its sender waits for a reply, just one of the entry's messages is a reply,
/// which bears the call's serial, goes to its sender, and lies in its byte order; where it waits for none, none is. Else nothing was put,
/// since the writer had failed or the peer was closed before, or since no serial was free for one of the answer's messages or one of these
/// passes a limit (D-Bus Specification, "Message Protocol", "Types of messages").
pub fn each_call_is_answered_once<R: Registry>()
    ensures { (setting : Setting) (first last : ServiceView) (newer : List Entry) (e : Entry) (older : List Entry) (m : MessageView) → AreServed setting (record { meanings = R.meanings; first = first }) (newer ++ e ∷ older) last
        → e.words ≡ words.Objects ops.Serve → next_call (replay setting older).past (replay setting older).server ≡ Some m
        → (before after : ServiceView) × AreServed setting (record { meanings = R.meanings; first = first }) older before × AreServed setting (record { meanings = R.meanings; first = first }) (e ∷ older) after
        × IsAnswered R.meanings (replay setting older).past m e before after }
{}

/// A call changes one object at most: the tree stays, and what can be placed, and each interface that the call doesn't reach; it reaches
/// the one that it calls, or whose property it sets.
pub fn a_call_changes_one_object<R: Registry>()
    ensures { (setting : Setting) (first last : ServiceView) (e : Entry) (older : List Entry) (m : MessageView) → AreServed setting (record { meanings = R.meanings; first = first }) (e ∷ older) last
        → e.words ≡ words.Objects ops.Serve → next_call (replay setting older).past (replay setting older).server ≡ Some m
        → (before : ServiceView) × AreServed setting (record { meanings = R.meanings; first = first }) older before × (last.objects ≡ before.objects) × (last.shelf ≡ before.shelf)
        × ((j : ℕ) → (ReachesSlot before.objects m j → ⊥) → slice_get last.slots j ≡ slice_get before.slots j) }
{}
