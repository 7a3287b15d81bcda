//! Laws of the definitions that the contracts cite.
ghost use Rattle.std.specs.Prelude.{ℕ, ◌≡◌, ◌↔◌, List, Ok, Err};
ghost use Rattle.peer_script.specs.Script.{Script, ScriptText, FirstOutside};
ghost use Rattle.peer_script.specs.Reading.{script_of};
ghost use Rattle.peer_script.specs.Again.{TranscriptsAreRead};

/// Bytes are read as a script if and only if they are that script's text. So a text has at most one reading.
pub fn script_texts_are_read()
    ensures { (bytes : List ℕ) (s : Script) → (script_of bytes ≡ Ok s) ↔ ScriptText bytes s }
{}

/// Reading a text names a line if and only if that line is the first outside the grammar.
pub fn first_lines_outside_are_found()
    ensures { (bytes : List ℕ) (n : ℕ) → (script_of bytes ≡ Err n) ↔ FirstOutside bytes n }
{}

/// A transcript is read again as the script of its pieces and of its entries' commands.
pub fn transcripts_are_read_again()
    ensures { TranscriptsAreRead }
{}
