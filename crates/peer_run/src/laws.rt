//! A law of whole runs, the contract of a function that does nothing: the script decides its transcript.
ghost use Rattle.std.specs.Prelude.{◌≡◌, ℕ, List};
ghost use Rattle.peer_service.specs.Service.{ServiceView};
ghost use Rattle.peer_turns.specs.Objects.{AreFunctions};
ghost use Rattle.peer_run.specs.Histories.{IsTranscript};

use peer_service::Registry;

/// Two transcripts of one input, with the same interfaces handed in, each of which answers in one way, are the same: what the program prints
/// of a script is decided by the script and by these.
pub fn one_transcript<R: Registry>()
    ensures { AreFunctions R.meanings → (first : ServiceView) (input text other : List ℕ) → IsTranscript (record { meanings = R.meanings; first = first }) input text → IsTranscript (record { meanings = R.meanings; first = first }) input other → text ≡ other }
{}
