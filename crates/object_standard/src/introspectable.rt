//! `org.freedesktop.DBus.Introspectable` (D-Bus Specification, "Standard Interfaces", "org.freedesktop.DBus.Introspectable").
ghost use Rattle.std.specs.Prelude.{◌≡◌, [], ◌∷◌, IfOk, string_bytes};
ghost use Rattle.wire_tree.specs.Datum.{text as text_of, string};
ghost use Rattle.object_standard.specs.Introspectable.{introspectable_description};

use object_interface::{
    DescribedArgument, DescribedMethod, Description, Items, basic_type, body_of,
};
use std::alloc::{AllocError, Global};
use wire_value::{BasicType, BodyValues, Text};

/// Makes the body that is a text: what `Introspect` gives.
///
/// # Errors
///
/// AllocError if out of memory, and where the text is none that a message may hold: it has a 0 byte, or more than 4,294,967,295
/// bytes.
pub fn text_body(alloc: Global, text: String) -> Result<BodyValues, AllocError>
    ensures { IfOk result (λ b. b ≡ text_of string (string_bytes text) ∷ []) }
{
    body_of(alloc, (Text::from_string(text),))
}

/// Describes the interface. It fails only if memory ran out.
#[tactic(auto, unfolding(wire_names::specs::Names::is_member_name, wire_names::specs::Names::is_element, crate::specs::Introspectable::introspectable_description))]
pub(crate) fn introspectable_description(alloc: Global) -> Result<Description, AllocError>
    ensures { IfOk result (λ d. d ≡ introspectable_description) }
{
    let text = DescribedArgument::new(alloc, "xml_data", basic_type(BasicType::String))?;
    let outputs = Items::one(alloc, text)?;
    let introspect = DescribedMethod::new(alloc, "Introspect", Items::new(alloc), outputs)?;
    Ok(Description {
        methods: Items::one(alloc, introspect)?,
        signals: Items::new(alloc),
        properties: Items::new(alloc),
    })
}
