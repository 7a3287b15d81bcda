//! What both interfaces are made of.
ghost use Rattle.std.specs.Prelude.{◌≡◌, [], ◌∷◌, IsTrue, IfOk, None};
ghost use Rattle.wire_signature.specs.SingleType.{basic};
ghost use Rattle.wire_names.specs.Names.{is_member_name};
ghost use Rattle.examples.specs.Example.{one_method};

use peer_objects::{DescribedArgument, DescribedMethod, Description, Items};
use std::alloc::{AllocError, Global};
use wire_value::{BasicType, MemberName, TypeNode, ValueType};

/// One item as a list.
fn one<T: Drop>(alloc: Global, item: T) -> Result<Items<T>, AllocError>
    ensures { IfOk result (λ items. items ≡ item ∷ []) }
{
    let mut items = Items::new(alloc);
    items.push(item)?;
    Ok(items)
}

/// What introspection tells of an interface with one method, which takes nothing and gives one value.
pub(crate) fn one_method(
    alloc: Global,
    name: &'static str,
    ty: BasicType,
) -> Result<Description, AllocError>
    requires { IsTrue (is_member_name name.now) }
    ensures { IfOk result (λ d. d ≡ one_method name.now ty) }
{
    let output = DescribedArgument {
        name: None,
        ty: ValueType::from_node(TypeNode::Basic(ty)),
    };
    let method = DescribedMethod {
        name: MemberName::from_static_str(name).to_owned(alloc)?,
        inputs: Items::new(alloc),
        outputs: one(alloc, output)?,
    };
    Ok(Description {
        methods: one(alloc, method)?,
        signals: Items::new(alloc),
        properties: Items::new(alloc),
    })
}
