//! The fixed types, whose numbers lie packed in an array.
ghost use Rattle.std.specs.Prelude.{◌≡◌, IfNone, IfSome};
ghost use Rattle.wire_signature.specs.SingleType.{basic};
ghost use Rattle.wire_tree.specs.Datum.{FixedType, num_type};
ghost use Rattle.wire_tree.specs.Packed.{fixed_type};

use wire_signature::{TypeNode, ValueType};
use wire_tree::Fixed;

/// The fixed type, exactly where the type is one.
pub(crate) fn fixed_of(value_type: &ValueType) -> Option<Fixed>
    ensures some { IfSome result (λ fixed. value_type.now ≡ basic (num_type (fixed_type fixed))) }
    ensures none { IfNone result ((n : FixedType) → value_type.now ≡ basic (num_type n) → ⊥) }
{
    match value_type.node() {
        TypeNode::Basic(basic) => Fixed::of(*basic),
        _ => None,
    }
}
