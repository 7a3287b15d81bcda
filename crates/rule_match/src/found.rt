//! What is kept of a message's arguments, so that rules can be tested by them.
ghost use Rattle.std.specs.Prelude.{◌≡◌, ◌==◌, ℕ, ◌<◌, if◌then◌else◌, length};
ghost use Rattle.rule_match.specs.ArgumentTests.{is_string, is_path, is_name_in};
ghost use Rattle.rule_match.specs.Found.{kept_at, passes, value_of};

use crate::below::is_at_or_below;
use crate::path_match::is_path_match;
use wire_value::BusName;

/// The number of arguments that a rule can speak of, and whose texts are kept (D-Bus Specification, "Match Rules",
/// `argN`).
const ARGUMENTS: usize = 64;

/// The text of an argument, where it is one that a rule may ask for: a string or an object path.
#[derive(Clone, Copy)]
pub(crate) enum FoundText<'m> {
    Absent,
    String(&'m str),
    Path(&'m str),
}

impl<'m> FoundText<'m> {
    pub(crate) fn is_string(&self, wanted: &str) -> bool
        ensures { result ≡ passes (is_string wanted.now) (value_of self.now) }
    {
        match self {
            FoundText::String(text) => *text == wanted,
            FoundText::Path(_) => false,
            FoundText::Absent => false,
        }
    }

    /// Whether it is a string or an object path, and its text matches an argument path.
    pub(crate) fn is_path(&self, wanted: &str) -> bool
        ensures { result ≡ passes (is_path wanted.now) (value_of self.now) }
    {
        match self {
            FoundText::String(text) => is_path_match(wanted, text),
            FoundText::Path(path) => is_path_match(wanted, path),
            FoundText::Absent => false,
        }
    }

    /// Whether it is a string that is a bus name in the namespace.
    pub(crate) fn is_name_in(&self, namespace: &str) -> bool
        ensures { result ≡ passes (is_name_in namespace.now) (value_of self.now) }
    {
        match self {
            FoundText::String(name) => {
                is_at_or_below(b'.', namespace, name) && BusName::try_from(*name).is_ok()
            }
            FoundText::Path(_) => false,
            FoundText::Absent => false,
        }
    }
}

/// The texts of the arguments that a rule can speak of, by their indices. Where a place holds nothing yet, or what was
/// kept of another message, is for others to know.
pub(crate) struct FoundTexts<'m> {
    texts: [FoundText<'m>; ARGUMENTS],
    ghost whole: { length texts ≡ 64 },
}

impl<'m> Drop for FoundTexts<'m> {
    fn drop(self) {
        let FoundTexts { texts: _ } = self;
    }
}

impl<'m> FoundTexts<'m> {
    pub(crate) fn new() -> FoundTexts<'m> {
        let texts = [FoundText::Absent; ARGUMENTS];
        FoundTexts { texts }
    }

    /// Keeps what was found at an index, if a rule can speak of it.
    pub(crate) fn keep(&mut self, index: usize, text: FoundText<'m>)
        ensures { (k : ℕ) → k < 64 → kept_at self.new.texts k ≡ (if index == k then value_of text.entry else kept_at self.old.texts k) }
    {
        if index < ARGUMENTS {
            self.texts[index] = text;
        }
    }

    /// What was kept of an index.
    pub(crate) fn at(&self, index: usize) -> FoundText<'m>
        ensures { value_of result ≡ kept_at self.now.texts index }
    {
        match self.texts.get(index) {
            Some(text) => *text,
            None => FoundText::Absent,
        }
    }
}
