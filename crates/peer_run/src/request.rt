//! What the program is asked for.
ghost use Rattle.std.specs.Prelude.{ℕ, ◌≡◌, ◌≤◌, map, string_bytes, drop};
ghost use Rattle.peer_gen.specs.Count.{gen_number};
ghost use Rattle.peer_run.specs.Asked.{Gen, asked, asked_run_of};

use peer_gen::gen_count;

/// What the words behind the program's name ask for.
#[derive(Clone, Copy, PartialEq, Eq, Debug)]
pub(crate) enum Request {
    /// A run of the script that the input is.
    Run,
    /// A run of the generated script of so many calls.
    Gen(u32),
    /// A report of the traffic that the input is.
    Monitor,
    /// Nothing that the program does.
    Unknown,
}

/// What is asked for by the word behind `gen`.
fn request_of_count(number: &str) -> Request
    ensures asks { result ≡ asked_run_of (gen_number number.now) }
    ensures most { (count : ℕ) → result ≡ Gen count → count ≤ 100000 }
{
    match gen_count(number) {
        Some(count) => Request::Gen(count),
        None => Request::Unknown,
    }
}

/// What the words ask for.
pub(crate) fn request_of(words: &[String]) -> Request
    ensures asks { result ≡ asked (map (λ word. string_bytes word) words.now) }
    ensures most { (count : ℕ) → result ≡ Gen count → count ≤ 100000 }
{
    match words {
        [] => Request::Run,
        [first, ..] if first.as_str() == "monitor" => Request::Monitor,
        [word] if word.as_str() == "run" => Request::Run,
        [word, number] if word.as_str() == "gen" => request_of_count(number.as_str()),
        _ => Request::Unknown,
    }
}

/// The words behind the first.
pub(crate) fn behind_first(words: &[String]) -> &[String]
    ensures { result.now ≡ drop 1 words.now }
{
    match words {
        [_, behind @ ..] => behind,
        [] => words,
    }
}
