//! How the texts of argument paths are compared (D-Bus Specification, "Match Rules", `argNpath`).
ghost use Rattle.std.specs.Prelude.{◌≡◌};
ghost use Rattle.rule_match.specs.ArgumentTests.{is_path_match, is_slash_prefix};

/// Whether a text ends with `/` and is a prefix of another.
fn is_slash_prefix(prefix: &str, text: &str) -> bool
    ensures { result ≡ is_slash_prefix prefix.now text.now }
{
    prefix.as_bytes().ends_with(b"/") && text.as_bytes().starts_with(prefix.as_bytes())
}

/// Whether the text of an argument is equal to the text of a rule, or one of the two ends with `/` and is a prefix of
/// the other.
pub(crate) fn is_path_match(wanted: &str, found: &str) -> bool
    ensures { result ≡ is_path_match wanted.now found.now }
{
    found == wanted || is_slash_prefix(wanted, found) || is_slash_prefix(found, wanted)
}
