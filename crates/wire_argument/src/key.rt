//! Keys of dicts.
ghost use Rattle.std.specs.Prelude.{◌≡◌, refl};
ghost use Rattle.wire_signature.specs.SingleType.{basic as basic_type};
ghost use Rattle.wire_signature.specs.declared.basic.BasicType.{BasicType};
ghost use Rattle.wire_signature.specs.declared.basic.BasicType.TheVariants as basics;
ghost use Rattle.wire_tree.specs.Datum.{num_type};

use crate::argument::Argument;
use crate::numbers::Plain;
use wire_names::{OwnedObjectPath, Text};
use wire_signature::{BasicType, Signature};

/// What may be a dict's key: an argument of a basic type (D-Bus Specification, "Container types").
pub trait Key: Argument {
    /// the basic type
    ghost basic: { BasicType };

    /// The basic type.
    fn basic() -> BasicType
        ensures { result ≡ basic };

    ghost is_basic: { Self.kind ≡ basic_type basic };
}

impl<T: Plain> Key for T {
    ghost basic = { num_type T.fixed };

    ghost is_basic = { refl };

    fn basic() -> BasicType {
        T::fixed().basic()
    }
}

impl Key for Text {
    ghost basic = { basics.String };

    ghost is_basic = { refl };

    fn basic() -> BasicType {
        BasicType::String
    }
}

impl Key for OwnedObjectPath {
    ghost basic = { basics.ObjectPath };

    ghost is_basic = { refl };

    fn basic() -> BasicType {
        BasicType::ObjectPath
    }
}

impl Key for Signature {
    ghost basic = { basics.Signature };

    ghost is_basic = { refl };

    fn basic() -> BasicType {
        BasicType::Signature
    }
}
