//! The walk over a message's arguments. It goes on only as far as rules ask, and from where it stood.
ghost use Rattle.std.specs.Prelude.{◌≡◌, ◌+◌, ◌<◌, ◌⊎◌, [], List, Some, None, true, false, is_some, length, unwrap_or};
ghost use Rattle.wire_message.specs.Front.{body_bytes};
ghost use Rattle.wire_tree.specs.Datum.{Datum};
ghost use Rattle.rule_match.specs.Accepting.{arguments_of};
ghost use Rattle.rule_match.specs.ArgumentTests.{has_at, is_name_in, is_path, is_string};
ghost use Rattle.rule_match.specs.Found.{text_at, value_of};
ghost use Rattle.rule_match.specs.Matching.{signature_text};
ghost use Rattle.rule_match.specs.Sources.{arguments_from};
ghost use Rattle.rule_match.specs.Walking.{IsWalk, HasEnded};

use crate::finding::{Source, step};
use crate::found::{FoundText, FoundTexts};
use wire_message::{Header, Message};
use wire_value::{Endian, Reader, is_signature};

/// The text of a body's signature.
fn signature_of<'a>(header: &Header<'a>) -> &'a [u8]
    ensures { result.now ≡ unwrap_or header.now.fields.signature [] }
{
    match header.signature() {
        Some(text) => text,
        None => b"",
    }
}

/// Where a message's arguments are read from.
#[tactic(auto, using(crate::proofs::Orders::order_named))]
fn source_of<'m>(message: &'m Message) -> Source<'m>
    ensures order { result.order ≡ message.now.order }
    ensures signature { result.signature.now ≡ signature_text message.now }
    ensures body { result.body.now ≡ body_bytes message.now.bytes }
{
    let header = message.header();
    Source {
        order: header.endian(),
        signature: signature_of(&header),
        body: message.body_bytes(),
    }
}

/// How far a walk over arguments is, and what it found so far.
pub(crate) struct Walk<'m> {
    source: Source<'m>,
    types: &'m [u8],
    reader: Reader<'m>,
    index: usize,
    /// Whether all arguments can be read, once that is known.
    readable: Option<bool>,
    /// The texts of those that are passed. What stands behind them is of another message.
    found: FoundTexts<'m>,
}

impl<'m> Drop for Walk<'m> {
    fn drop(self) {
        let Walk {
            source: _,
            types: _,
            reader: _,
            index: _,
            readable: _,
            found: _,
        } = self;
    }
}

impl<'m> Walk<'m> {
    /// A walk over nothing.
    pub(crate) fn new() -> Walk<'m> {
        let source = Source {
            order: Endian::Little,
            signature: b"",
            body: b"",
        };
        Walk {
            source,
            types: b"",
            reader: Reader::new(0, b""),
            index: 0,
            readable: None,
            found: FoundTexts::new(),
        }
    }

    /// Begins at the first argument of a message. What was found of another's is left where it lies, since it is never
    /// looked at: that costs nothing.
    pub(crate) fn begin(&mut self, message: &'m Message)
        ensures walk { IsWalk self.new }
        ensures source { arguments_from self.new.source ≡ arguments_of message.now }
    {
        let source = source_of(message);
        self.source = source;
        self.types = source.signature;
        self.reader = Reader::new(0, source.body);
        self.index = 0;
        self.readable = None;
    }

    /// Steps over an argument; where none can be read there, all of them can't.
    #[inline]
    fn step(&mut self) -> bool
        requires walk { IsWalk self.old }
        requires more { 0 < length self.old.types.now }
        ensures walk { IsWalk self.new }
        ensures source { self.new.source ≡ self.old.source }
        ensures stepped { result ≡ true → (self.new.index ≡ self.old.index + 1) × (length self.new.types.now < length self.old.types.now) }
        ensures refused { result ≡ false → arguments_from self.old.source ≡ None }
    {
        let Some(next) = step(self.source.order, self.types, self.reader) else {
            self.readable = Some(false);
            return false;
        };
        self.found.keep(self.index, next.text);
        self.types = next.types;
        self.reader = next.reader;
        self.index += 1;
        true
    }

    /// Goes on until the argument of an index is passed. Whether there is one.
    fn pass(&mut self, index: usize) -> bool
        requires { IsWalk self.old }
        ensures walk { IsWalk self.new }
        ensures source { self.new.source ≡ self.old.source }
        ensures passed { result ≡ true → index < self.new.index }
        ensures none { result ≡ false → (arguments_from self.old.source ≡ None) ⊎ HasEnded self.new index }
    {
        while self.index <= index {
            if self.types.is_empty() || !self.step() {
                return false;
            }
        }
        true
    }

    /// Goes on to the end. Whether it was reached.
    fn reach_end(&mut self) -> bool
        requires { IsWalk self.old }
        ensures walk { IsWalk self.new }
        ensures source { self.new.source ≡ self.old.source }
        ensures reached { result ≡ true → length self.new.types.now ≡ 0 }
        ensures refused { result ≡ false → arguments_from self.old.source ≡ None }
    {
        while !self.types.is_empty() {
            if !self.step() {
                return false;
            }
        }
        true
    }

    /// Whether it isn't known that the arguments can't be read.
    pub(crate) fn may_be_readable(&self) -> bool
        requires { IsWalk self.now }
        ensures { result ≡ false → arguments_from self.now.source ≡ None }
    {
        !matches!(self.readable, Some(false))
    }

    /// Whether all arguments can be read by the signature. The walk goes to the end for that, once.
    pub(crate) fn is_readable(&mut self) -> bool
        requires { IsWalk self.old }
        ensures walk { IsWalk self.new }
        ensures source { self.new.source ≡ self.old.source }
        ensures readable { result ≡ is_some (arguments_from self.old.source) }
    {
        if let Some(readable) = self.readable {
            return readable;
        }
        let readable = self.reach_end() && is_signature(self.source.signature);
        self.readable = Some(readable);
        readable
    }

    /// The text of the argument of an index, if all can be read: where not, it may be anything.
    #[inline]
    fn text_at(&mut self, index: u8) -> FoundText<'m>
        requires walk { IsWalk self.old }
        requires within { index < 64 }
        ensures walk { IsWalk self.new }
        ensures source { self.new.source ≡ self.old.source }
        ensures text { (ds : List Datum) → arguments_from self.old.source ≡ Some ds → value_of result ≡ text_at ds index }
    {
        let index = usize::from(index);
        if self.pass(index) {
            self.found.at(index)
        } else {
            FoundText::Absent
        }
    }

    /// Whether the argument of an index is that string, if all can be read.
    pub(crate) fn is_string(&mut self, index: u8, wanted: &str) -> bool
        requires walk { IsWalk self.old }
        requires within { index < 64 }
        ensures walk { IsWalk self.new }
        ensures source { self.new.source ≡ self.old.source }
        ensures has { (ds : List Datum) → arguments_from self.old.source ≡ Some ds → result ≡ has_at (is_string wanted.now) index ds }
    {
        self.text_at(index).is_string(wanted)
    }

    /// Whether the argument of an index is a string or an object path whose text matches an argument path, if all can
    /// be read.
    pub(crate) fn is_path(&mut self, index: u8, wanted: &str) -> bool
        requires walk { IsWalk self.old }
        requires within { index < 64 }
        ensures walk { IsWalk self.new }
        ensures source { self.new.source ≡ self.old.source }
        ensures has { (ds : List Datum) → arguments_from self.old.source ≡ Some ds → result ≡ has_at (is_path wanted.now) index ds }
    {
        self.text_at(index).is_path(wanted)
    }

    /// Whether the first argument is a string that is a bus name in the namespace, if all can be read.
    pub(crate) fn is_name_in(&mut self, namespace: &str) -> bool
        requires { IsWalk self.old }
        ensures walk { IsWalk self.new }
        ensures source { self.new.source ≡ self.old.source }
        ensures has { (ds : List Datum) → arguments_from self.old.source ≡ Some ds → result ≡ has_at (is_name_in namespace.now) 0 ds }
    {
        self.text_at(0).is_name_in(namespace)
    }
}
