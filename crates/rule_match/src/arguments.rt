//! The arguments that a rule wants, in the order of their indices.
ghost use Rattle.std.specs.Prelude.{◌≡◌, ◌<◌, ◌≤◌, ◌≢◌, nat_le, length, slice_index_or, false, IfOk, OnOk, OnErr, IsTrue, []};
ghost use Rattle.std.specs.List.{position_or_len};
ghost use Rattle.std.specs.Option.{SomeIff};
ghost use Rattle.rule_match.specs.declared.arguments.Argument.{Argument};
ghost use Rattle.rule_match.specs.Arguments.{put, is_ascending, index_after};

use std::alloc::{AllocError, Global};
use std::hash::{Hash, Hasher};
use std::marker::Model;
use wire_value::Text;

/// The argument of an index, from 0 on, and the text that it is to be or to match.
#[derive(Debug)]
pub struct Argument {
    pub index: u8,
    pub text: Text,
}

impl Drop for Argument {
    fn drop(self) {
        let Argument { index: _, text: _ } = self;
    }
}

impl PartialEq for Argument {
    ghost use Rattle.rule_match.specs.SameArgument.{same_argument, same_argument_equiv};
    ghost use Rattle.std.specs.Cmp.{partial_equiv_from_equiv};

    ghost eq = { same_argument };

    ghost laws = { partial_equiv_from_equiv same_argument_equiv };

    fn eq(&self, other: &Argument) -> bool {
        self.index == other.index && self.text == other.text
    }
}

impl Eq for Argument {
    ghost use Rattle.rule_match.specs.SameArgument.{same_argument_equiv};

    ghost laws = { same_argument_equiv };
}

impl Hash for Argument {
    ghost use Rattle.std.specs.Prelude.{◌++◌};
    ghost use Rattle.std.specs.Hash as fed;
    ghost use Rattle.rule_match.specs.SameArgument.{argument_fed, argument_alike};

    ghost hash_input = { argument_fed };

    ghost respects_eq = { argument_alike.fed };

    fn hash<H: Hasher>(&self, state: &mut H) {
        self.index.hash(state);
        self.text.hash(state);
    }
}

impl Argument {
    /// Copies the index and the text.
    ///
    /// # Errors
    ///
    /// [`AllocError`] for want of memory.
    pub fn try_clone(&self, alloc: Global) -> Result<Argument, AllocError>
        ensures { IfOk result (λ a. a ≡ self.now) }
    {
        Ok(Argument {
            index: self.index,
            text: self.text.try_clone(alloc)?,
        })
    }
}

fn copies_of(alloc: Global, arguments: &[Argument]) -> Result<Vec<Argument>, AllocError>
    ensures { IfOk result (λ copies. copies.items ≡ arguments.now) }
{
    let mut copies = Vec::new(alloc);
    for argument in arguments {
        copies.push(argument.try_clone(alloc)?)?;
    }
    Ok(copies)
}

/// The place of the first argument whose index isn't smaller.
fn place_of(arguments: &[Argument], index: u8) -> usize
    ensures place { result ≡ position_or_len (λ a. nat_le index a.index) arguments.now }
    ensures bound { result ≤ length arguments.now }
{
    arguments
        .iter()
        .position(|argument| index <= argument.index)
        .unwrap_or(arguments.len())
}

/// Whether the argument at a place, where there is one, has that index.
fn has_index(arguments: &[Argument], place: usize, index: u8) -> bool
    ensures yes { IsTrue result → (place < length arguments.now) × ((d : Argument) → (slice_index_or arguments.now place d).index ≡ index) }
    ensures no { result ≡ false → place < length arguments.now → (d : Argument) → (slice_index_or arguments.now place d).index ≢ index }
{
    place < arguments.len() && arguments[place].index == index
}

/// Puts an argument at its place, in place of one of its own index.
fn put_among(arguments: &mut Vec<Argument>, argument: Argument) -> Result<(), AllocError>
    requires { IsTrue (is_ascending arguments.old.items) }
    ensures put { OnOk result (arguments.new.items ≡ put argument arguments.old.items) }
    ensures kept { OnErr result (arguments.new.items ≡ arguments.old.items) }
{
    let place = place_of(arguments.as_slice(), argument.index);
    if has_index(arguments.as_slice(), place, argument.index) {
        arguments[place] = argument;
        return Ok(());
    }
    arguments.insert(place, argument)?;
    Ok(())
}

/// Arguments of ascending indices.
#[derive(Debug)]
pub struct Arguments {
    items: Vec<Argument>,
}

impl Drop for Arguments {
    fn drop(self) {
        let Arguments { items: _ } = self;
    }
}

impl Model for Arguments {
    ghost use Rattle.std.specs.Prelude.{List};
    ghost use Rattle.rule_match.specs.declared.arguments.Argument.{Argument};

    ghost Value = { List Argument };

    ghost view = { λ a. a.items.items };
}

impl Arguments {
    /// No arguments. It takes no memory.
    pub fn new(alloc: Global) -> Arguments
        ensures { result ≡ [] }
    {
        Arguments {
            items: Vec::new(alloc),
        }
    }

    /// The arguments in their order, lent.
    pub fn as_slice(&self) -> &[Argument]
        ensures { result.now ≡ self.now }
    {
        self.items.as_slice()
    }

    /// Puts an argument at its place, in place of one of its own index.
    ///
    /// # Errors
    ///
    /// AllocError for want of memory. Then the arguments are as they were.
    pub fn put(&mut self, argument: Argument) -> Result<(), AllocError>
        requires { IsTrue (is_ascending self.old) }
        ensures put { OnOk result (self.new ≡ put argument self.old) }
        ensures kept { OnErr result (self.new ≡ self.old) }
    {
        put_among(&mut self.items, argument)
    }

    /// The index after the greatest, where a byte holds it; 0 where there is none.
    pub fn index_after(&self) -> Option<u8>
        ensures { SomeIff result (index_after self.now < 256) (index_after self.now) }
    {
        match self.items.as_slice() {
            [] => Some(0),
            [.., last] => last.index.checked_add(1),
        }
    }

    /// Copies the texts.
    ///
    /// # Errors
    ///
    /// AllocError for want of memory.
    pub fn try_clone(&self, alloc: Global) -> Result<Arguments, AllocError>
        ensures { IfOk result (λ a. a ≡ self.now) }
    {
        let items = copies_of(alloc, self.items.as_slice())?;
        Ok(Arguments { items })
    }
}

impl PartialEq for Arguments {
    ghost use Rattle.rule_match.specs.SameArgument.{same_argument, same_argument_equiv};
    ghost use Rattle.std.specs.Cmp.{on_per, partial_equiv_from_equiv};
    ghost use Rattle.std.specs.Cmp.Lexicographic.{pointwise, lists_equiv};

    ghost eq = { pointwise same_argument };

    ghost laws = { on_per (λ a. a) (partial_equiv_from_equiv (lists_equiv same_argument_equiv)) };

    fn eq(&self, other: &Arguments) -> bool {
        self.as_slice() == other.as_slice()
    }
}

impl Eq for Arguments {
    ghost use Rattle.rule_match.specs.SameArgument.{same_argument_equiv};
    ghost use Rattle.std.specs.Cmp.{on_equiv};
    ghost use Rattle.std.specs.Cmp.Lexicographic.{lists_equiv};

    ghost laws = { on_equiv (λ a. a) (lists_equiv same_argument_equiv) };
}

impl Hash for Arguments {
    ghost use Rattle.std.specs.Hash as fed;
    ghost use Rattle.std.specs.Hash.{items_Alike};
    ghost use Rattle.rule_match.specs.SameArgument.{argument_fed, argument_alike};

    ghost hash_input = { fed.slice argument_fed };

    ghost respects_eq = { (items_Alike argument_alike).fed };

    fn hash<H: Hasher>(&self, state: &mut H) {
        self.as_slice().hash(state);
    }
}
