//! The text of a header field of a message that isn't built yet.
ghost use Rattle.std.specs.Prelude.{◌≡◌, IfOk};
ghost use Rattle.wire_message.specs.HeaderText.{bytes_of};

use std::alloc::{AllocError, Global};
use std::marker::Model;
use wire_names::Text;

/// Where the text of a header field is.
enum Source<'a> {
    Borrowed(&'a str),
    Owned(Text),
}

impl<'a> Drop for Source<'a> {
    fn drop(self) {
        match self {
            Source::Borrowed(_) => {}
            Source::Owned(_) => {}
        }
    }
}

impl<'a> Source<'a> {
    /// The text, which is copied where it is borrowed.
    fn into_text(self, alloc: Global) -> Result<Text, AllocError>
        ensures { IfOk result (λ text. text ≡ bytes_of self.entry) }
    {
        match self {
            Source::Borrowed(text) => Text::from_str(alloc, text),
            Source::Owned(text) => Ok(text),
        }
    }
}

/// The text of a header field, borrowed or owned. Contracts see the list of its bytes.
pub(crate) struct HeaderText<'a> {
    source: Source<'a>,
}

impl<'a> Model for HeaderText<'a> {
    ghost use Rattle.std.specs.Prelude.{List, ℕ};
    ghost use Rattle.wire_message.specs.HeaderText.{bytes_of};

    ghost Value = { List ℕ };

    ghost view = { λ t. bytes_of t.source };
}

impl<'a> Drop for HeaderText<'a> {
    fn drop(self) {
        let HeaderText { source: _ } = self;
    }
}

impl<'a> HeaderText<'a> {
    /// A text that is borrowed.
    pub(crate) fn borrowed(text: &'a str) -> HeaderText<'a>
        ensures { result ≡ text.now }
    {
        HeaderText {
            source: Source::Borrowed(text),
        }
    }

    /// A text that the field owns; it isn't copied.
    pub(crate) fn owned(text: Text) -> HeaderText<'a>
        ensures { result ≡ text }
    {
        HeaderText {
            source: Source::Owned(text),
        }
    }

    /// The text.
    pub(crate) fn as_str(&self) -> &str
        ensures { result.now ≡ self.now }
    {
        match &self.source {
            Source::Borrowed(text) => text,
            Source::Owned(text) => text.as_str(),
        }
    }

    /// The same text, owned: a borrowed one is copied.
    pub(crate) fn into_owned(self, alloc: Global) -> Result<HeaderText<'static>, AllocError>
        ensures { IfOk result (λ text. text ≡ self.entry) }
    {
        let HeaderText { source } = self;
        Ok(HeaderText::owned(source.into_text(alloc)?))
    }
}
