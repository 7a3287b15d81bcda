//! The values of a body, or the fields of a struct, one after another.
ghost use Rattle.std.specs.Prelude.{◌≡◌, IfSome, option_map};
ghost use Rattle.std.specs.Vec.Iter.{into_iter_items};
ghost use Rattle.wire_tree.specs.Datum.{WellTyped};
ghost use Rattle.wire_tree.specs.DatumView.{datum_of};
ghost use Rattle.wire_body.specs.Arguments.{NextIs, TellsTake};

use crate::body::BodyValues;
use std::alloc::Global;
use std::marker::Model;
use std::vec::IntoIter;
use wire_argument::Argument;
use wire_signature::VariantError;
use wire_tree::{Tree, Value};

/// Where values are taken from.
enum Rest {
    Values(IntoIter<Value>),
    Fields(IntoIter<Tree>),
}

impl Drop for Rest {
    fn drop(self) {
        match self {
            Rest::Values(_) => {}
            Rest::Fields(_) => {}
        }
    }
}

/// The values of a body, or the fields of a struct, that have not been taken yet.
pub struct Arguments {
    rest: Rest,
}

impl Model for Arguments {
    ghost use Rattle.std.specs.Prelude.{List};
    ghost use Rattle.std.specs.Coded.{coded_list};
    ghost use Rattle.wire_tree.specs.Datum.{Datum};
    ghost use Rattle.wire_tree.specs.DatumCode.{datum_code};
    ghost use Rattle.wire_body.specs.Left.{AreSound, rest_data};

    ghost Value = { List Datum };

    ghost coded = { coded_list datum_code };

    ghost view = { λ a. rest_data a.rest };

    ghost invariant = { λ a. AreSound a.rest };
}

impl Drop for Arguments {
    fn drop(self) {
        let Arguments { rest: _ } = self;
    }
}

impl Arguments {
    ghost use Rattle.std.specs.Prelude.{◌≡◌, IfSome, map, option_map};
    ghost use Rattle.wire_tree.specs.Datum.{WellTyped};
    ghost use Rattle.wire_tree.specs.DatumView.{datum_of};
    ghost use Rattle.wire_body.specs.Arguments.{AreAllWellTyped, NextIs, TellsEnd};

    /// All the values of a body.
    pub fn new(body: BodyValues) -> Arguments
        ensures { result ≡ body }
    {
        Arguments {
            rest: Rest::Values(body.into_values().into_iter()),
        }
    }

    /// All the fields of a struct.
    pub(crate) fn of_fields(fields: Vec<Tree>) -> Arguments
        requires { AreAllWellTyped (map datum_of fields.items) }
        ensures { result ≡ map datum_of fields.items }
    {
        Arguments {
            rest: Rest::Fields(fields.into_iter()),
        }
    }

    /// The tree of the next value.
    pub fn next(&mut self) -> Option<Tree>
        ensures next { NextIs (option_map datum_of result) self.old self.new }
        ensures well_typed { IfSome result (λ tree. WellTyped (datum_of tree)) }
    {
        match &mut self.rest {
            Rest::Values(values) => next_value(values),
            Rest::Fields(fields) => fields.next(),
        }
    }

    /// Ends the taking: all values have to be taken.
    ///
    /// # Errors
    ///
    /// SignatureMismatch exactly where a value is left.
    pub fn end(mut self) -> Result<(), VariantError>
        ensures { TellsEnd result self }
    {
        match self.next() {
            None => Ok(()),
            Some(_) => Err(VariantError::SignatureMismatch),
        }
    }
}

fn next_value(values: &mut IntoIter<Value>) -> Option<Tree>
    ensures next { NextIs (option_map datum_of result) (into_iter_items values.old) (into_iter_items values.new) }
    ensures well_typed { IfSome result (λ tree. WellTyped (datum_of tree)) }
{
    match values.next() {
        Some(value) => Some(value.into_tree()),
        None => None,
    }
}

/// Takes the next value as an argument.
pub(crate) fn take<A: Argument>(alloc: Global, arguments: &mut Arguments) -> Result<A, VariantError>
    ensures { TellsTake result arguments.old arguments.new A.kind A.read }
{
    let tree = arguments.next().ok_or(VariantError::SignatureMismatch)?;
    A::from_tree(alloc, tree)
}
