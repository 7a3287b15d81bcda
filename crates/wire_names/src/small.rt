//! Text and bytes as contracts see them: lists of numbers, with no capacity and no pointer.
ghost use Rattle.std.specs.Prelude.{◌≡◌, ◌↔◌, ◌<◌, length, IfOk, IsTrue, Some, string_bytes, nat_eq, All, IsUtf8, refl};
ghost use Rattle.std.specs.Ordering.{nat_cmp};
ghost use Rattle.std.specs.Hash as fed;
ghost use Rattle.std.specs.Cmp;
ghost use Rattle.std.specs.Cmp.{on_equiv, on_total, on_per, on_po, partial_equiv_from_equiv};
ghost use Rattle.std.specs.Cmp.Lexicographic.{pointwise, slice_cmp, nat_list_eq_equiv, nat_list_cmp_total, texts_ties, texts_po};
ghost use Rattle.std.specs.Cmp.Rules.{hashing};
ghost use Rattle.std.proofs.Common.{rules};

use std::alloc::{AllocError, Global};
use std::cmp::Ordering;
use std::fmt;
use std::hash::{Hash, Hasher};
use std::marker::Model;

/// What holds a text: a `String`, or a `&str`.
pub trait HasText: Drop {
    ghost use Rattle.std.specs.Prelude.{◌≡◌, List, ℕ};

    // its bytes
    ghost bytes_of: { Self → List ℕ };

    fn text(&self) -> &str
        ensures { result.now ≡ bytes_of self.now };
}

impl HasText for String {
    ghost bytes_of = { string_bytes };

    fn text(&self) -> &str {
        self.as_str()
    }
}

impl<'a> HasText for &'a str {
    ghost bytes_of = { λ text. text.now };

    fn text(&self) -> &str {
        *self
    }
}

/// A `String` that contracts see as the list of its bytes, or as `Text<&str>` a text that was lent.
#[derive(Debug)]
pub struct Text<S: HasText = String> {
    pub(crate) string: S,
}

// Written out: a derived one is taken apart again wherever a type that holds a text ends.
impl<S: HasText> Drop for Text<S> {
    fn drop(self) {
        let Text { string: _ } = self;
    }
}

impl<S: HasText> Model for Text<S> {
    ghost use Rattle.std.specs.Prelude.{List, ℕ};

    ghost Value = { List ℕ };

    ghost view = { λ t. S.bytes_of t.string };
}

impl Text {
    /// Takes the string itself, with no memory of its own.
    pub fn from_string(string: String) -> Text
        ensures { result ≡ string_bytes string }
    {
        Text { string }
    }

    /// Gives the string back.
    pub fn into_string(self) -> String
        ensures { string_bytes result ≡ self }
    {
        let Text { string } = self;
        string
    }

    /// Copies the text.
    ///
    /// # Errors
    ///
    /// [`AllocError`] for want of memory.
    pub fn from_str(alloc: Global, text: &str) -> Result<Text, AllocError>
        ensures { IfOk result (λ t. t ≡ text.now) }
    {
        let string = String::from_str(alloc, text)?;
        Ok(Text { string })
    }

    /// The text, lent.
    pub fn as_str(&self) -> &str
        ensures value { result.now ≡ self.now }
        ensures utf8 { IsUtf8 self.now }
    {
        self.string.as_str()
    }

    /// How many bytes the text has in UTF-8.
    pub fn len(&self) -> usize
        ensures { result ≡ length self.now }
    {
        self.string.len()
    }

    /// Whether the text has no bytes.
    pub fn is_empty(&self) -> bool
        ensures { IsTrue result ↔ (length self.now ≡ 0) }
    {
        self.string.is_empty()
    }

    /// Copies the text into a `String` of its own.
    ///
    /// # Errors
    ///
    /// [`AllocError`] for want of memory.
    pub fn try_clone(&self, alloc: Global) -> Result<Text, AllocError>
        ensures { IfOk result (λ t. t ≡ self.now) }
    {
        Text::from_str(alloc, self.as_str())
    }
}

impl<S: HasText> PartialEq for Text<S> {
    ghost eq = { pointwise nat_eq };

    ghost laws = { on_per (λ t. t) (partial_equiv_from_equiv nat_list_eq_equiv) };

    fn eq(&self, other: &Text<S>) -> bool {
        self.string.text() == other.string.text()
    }
}

impl<S: HasText> Eq for Text<S> {
    ghost laws = { on_equiv (λ t. t) nat_list_eq_equiv };
}

impl<S: HasText> PartialOrd for Text<S> {
    ghost partial_cmp = { λ x y. Some (slice_cmp nat_cmp x y) };

    ghost laws = { on_po (λ t. t) texts_po };

    fn partial_cmp(&self, other: &Text<S>) -> Option<Ordering> {
        Some(self.cmp(other))
    }
}

impl<S: HasText> Ord for Text<S> {
    ghost cmp = { slice_cmp nat_cmp };

    ghost total = { on_total (λ t. t) nat_list_cmp_total };

    ghost matches_partial_cmp = { λ x y. refl };

    ghost matches_eq = { texts_ties };

    fn cmp(&self, other: &Text<S>) -> Ordering {
        self.string.text().cmp(other.string.text())
    }
}

impl<S: HasText> Hash for Text<S> {
    ghost hash_input = { λ t. fed.str t };

    ghost respects_eq = { Prim.search (hashing, rules) };

    fn hash<H: Hasher>(&self, state: &mut H) {
        self.string.text().hash(state);
    }
}

impl<S: HasText> fmt::Display for Text<S> {
    ghost output = { λ t. Some t };

    fn fmt<W: fmt::Write>(&self, f: &mut fmt::Formatter<W>) -> fmt::Result {
        fmt::Display::fmt(self.string.text(), f)
    }
}

/// A `Vec<u8>` that contracts see as the list of its bytes.
#[derive(Debug)]
pub struct Bytes {
    bytes: Vec<u8>,
}

impl Drop for Bytes {
    fn drop(self) {
        let Bytes { bytes: _ } = self;
    }
}

impl Model for Bytes {
    ghost use Rattle.std.specs.Prelude.{List, ℕ, ◌<◌, All};

    ghost Value = { List ℕ };

    ghost view = { λ b. b.bytes.items };

    ghost invariant = { λ b. All (λ x. x < 256) b.bytes.items };
}

impl Bytes {
    /// Takes the `Vec` itself, with no memory of its own.
    pub fn from_vec(bytes: Vec<u8>) -> Bytes
        ensures { result ≡ bytes.items }
    {
        Bytes { bytes }
    }

    /// Gives the `Vec` back.
    pub fn into_vec(self) -> Vec<u8>
        ensures { result.items ≡ self }
    {
        let Bytes { bytes } = self;
        bytes
    }

    /// Copies the bytes.
    ///
    /// # Errors
    ///
    /// [`AllocError`] for want of memory.
    pub fn from_slice(alloc: Global, bytes: &[u8]) -> Result<Bytes, AllocError>
        ensures { IfOk result (λ b. b ≡ bytes.now) }
    {
        let bytes = Vec::from_slice(alloc, bytes)?;
        Ok(Bytes { bytes })
    }

    /// The bytes, lent.
    pub fn as_slice(&self) -> &[u8]
        ensures value { result.now ≡ self.now }
        ensures bytes { All (λ x. x < 256) self.now }
    {
        self.bytes.as_slice()
    }

    /// How many bytes there are.
    pub fn len(&self) -> usize
        ensures { result ≡ length self.now }
    {
        self.bytes.len()
    }

    /// Whether there are no bytes.
    pub fn is_empty(&self) -> bool
        ensures { IsTrue result ↔ (length self.now ≡ 0) }
    {
        self.bytes.is_empty()
    }

    /// Copies the bytes into a `Vec` of its own.
    ///
    /// # Errors
    ///
    /// [`AllocError`] for want of memory.
    pub fn try_clone(&self, alloc: Global) -> Result<Bytes, AllocError>
        ensures { IfOk result (λ b. b ≡ self.now) }
    {
        Bytes::from_slice(alloc, self.as_slice())
    }
}

impl PartialEq for Bytes {
    ghost eq = { pointwise nat_eq };

    ghost laws = { on_per (λ b. b) (partial_equiv_from_equiv nat_list_eq_equiv) };

    fn eq(&self, other: &Bytes) -> bool {
        self.as_slice() == other.as_slice()
    }
}

impl Eq for Bytes {
    ghost laws = { on_equiv (λ b. b) nat_list_eq_equiv };
}

impl Hash for Bytes {
    ghost hash_input = { λ b. fed.slice fed.u8 b };

    ghost respects_eq = { Prim.search (hashing, rules) };

    fn hash<H: Hasher>(&self, state: &mut H) {
        self.as_slice().hash(state);
    }
}
