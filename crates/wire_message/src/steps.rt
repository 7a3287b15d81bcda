//! Steps that are counted for contracts alone, and those that are not counted.
ghost use Rattle.std.specs.Prelude.{◌≡◌, ◌+◌, ◌<◌, ◌≤◌, ℕ};

use std::marker::Model;
use std::sync::ledger::{Blank, Book, Ledger, Share};

/// How many steps were taken, for contracts that bound them. It takes no bytes, and only `tick` changes it.
#[derive(Drop)]
pub struct Steps<L: Ledger> {
    book: Book<L>,
    share: Share<L>,
}

impl<L: Ledger> Model for Steps<L> {
    ghost use Rattle.std.specs.Prelude.{ℕ, ◌<◌};

    ghost Value = { ℕ };

    ghost view = { λ s. s.book.total };

    ghost invariant = { λ s. 0 < s.share.parts };
}

impl<L: Ledger> Steps<L> {
    /// No step yet.
    pub fn start(blank: Blank) -> Steps<L>
        requires name { blank.name ≡ L.name }
        requires parts { blank.parts ≡ L.parts }
        requires some { 0 < blank.parts }
        ensures { result ≡ 0 }
    {
        let (book, share) = blank.open::<L>();
        Steps { book, share }
    }

    /// One step more.
    pub fn tick(&mut self)
        ensures { self.new ≡ self.old + 1 }
    {
        self.book.add(&mut self.share, 1);
    }
}

/// What may count steps.
pub(crate) trait Counts {
    ghost counted: { Self → ℕ };

    /// What a step adds to the count: 1, or 0 where none is counted.
    ghost weight: { ℕ };

    /// One step more.
    fn count(&mut self)
        ensures exact { counted self.new ≡ counted self.old + weight }
        ensures light { weight ≤ 1 };
}

impl<L: Ledger> Counts for Steps<L> {
    ghost counted = { λ n. n };

    ghost weight = { 1 };

    fn count(&mut self) {
        self.tick();
    }
}

/// For a caller that counts no steps.
#[derive(Clone, Copy)]
pub(crate) struct Uncounted;

impl Counts for Uncounted {
    ghost counted = { λ _. 0 };

    ghost weight = { 0 };

    fn count(&mut self) {}
}
