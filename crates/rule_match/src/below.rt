//! Texts of elements, compared by whole elements.
ghost use Rattle.std.specs.Prelude.{◌≡◌, ◌↔◌, IsTrue};
ghost use Rattle.rule_match.specs.Below.{IsAtOrBelow};
ghost use Rattle.rule_match.specs.ArgumentTests.{begins_with_or_ends, is_at_or_below};

fn begins_with_or_ends(separator: u8, text: &[u8]) -> bool
    ensures { result ≡ begins_with_or_ends separator text.now }
{
    match text {
        [first, ..] => *first == separator,
        [] => true,
    }
}

/// Whether a text is the prefix, or begins with it and the separator. So elements are compared whole.
pub fn is_at_or_below(separator: u8, prefix: &str, text: &str) -> bool
    ensures below { IsTrue result ↔ IsAtOrBelow separator prefix.now text.now }
    ensures test { result ≡ is_at_or_below separator prefix.now text.now }
{
    match text.as_bytes().strip_prefix(prefix.as_bytes()) {
        Some(rest) => begins_with_or_ends(separator, rest),
        None => false,
    }
}
