//! The word that says how many calls a generated script has.
ghost use Rattle.std.specs.Prelude.{◌≡◌, ◌≤◌, IfSome};
ghost use Rattle.peer_gen.specs.Count.{gen_number};

use peer_script::number_of;

/// The most calls of a generated script.
const MOST: u64 = 100_000;

/// Returns the number that a word says in decimal digits, without leading zeros, if it is from 1 to 100,000; else None.
pub fn gen_count(word: &str) -> Option<u32>
    ensures number { result ≡ gen_number word.now }
    ensures range { IfSome result (λ count. (1 ≤ count) × (count ≤ 100000)) }
{
    let number = number_of(word.as_bytes())?;
    if number >= 1 && number <= MOST {
        Some(number as u32)
    } else {
        None
    }
}
