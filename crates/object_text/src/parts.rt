//! The parts of an interface.
ghost use Rattle.std.specs.Prelude.{◌≡◌, ◌+◌, ◌<◌, ◌^◌, ◌++◌, [], OnOk, codes, flat_map, string_bytes};
ghost use Rattle.object_text.specs.Text.{argument_text, method_text, signal_text, property_text, access_text, interface_text};

use crate::lines::{put_closing, put_indent, put_opening};
use object_interface::{
    Access, DescribedArgument, DescribedInterface, DescribedMethod, DescribedProperty,
    DescribedSignal,
};
use std::alloc::AllocError;

const IN: &str = " direction=\"in\"";

const OUT: &str = " direction=\"out\"";

/// Puts an argument, with that behind its type.
#[tactic(auto, unfolding(crate::specs::Text::line, crate::specs::Text::argument_text))]
fn put_argument(
    out: &mut String,
    indent: usize,
    argument: &DescribedArgument,
    more: &str,
) -> Result<(), AllocError>
    ensures { OnOk result (string_bytes out.new ≡ string_bytes out.old ++ argument_text indent more.now argument.now) }
{
    put_indent(out, indent)?;
    out.push_str("<arg")?;
    if let Some(name) = &argument.name {
        write!(out, " name=\"{name}\"")?;
    }
    writeln!(out, " type=\"{}\"{more}/>", argument.ty)?;
    Ok(())
}

/// Puts arguments, each with that behind its type.
fn put_arguments(
    out: &mut String,
    indent: usize,
    arguments: &[DescribedArgument],
    more: &str,
) -> Result<(), AllocError>
    ensures { OnOk result (string_bytes out.new ≡ string_bytes out.old ++ flat_map (argument_text indent more.now) arguments.now) }
{
    for argument in arguments {
        put_argument(out, indent, argument, more)?;
    }
    Ok(())
}

/// Puts a method: what it takes, and then what it gives.
#[tactic(auto, unfolding(crate::specs::Text::method_text))]
fn put_method(out: &mut String, indent: usize, method: &DescribedMethod) -> Result<(), AllocError>
    requires { indent + 2 < 2 ^ 64 }
    ensures { OnOk result (string_bytes out.new ≡ string_bytes out.old ++ method_text indent method.now) }
{
    put_opening(out, indent, "method", method.name.as_str())?;
    put_arguments(out, indent + 2, method.inputs.as_slice(), IN)?;
    put_arguments(out, indent + 2, method.outputs.as_slice(), OUT)?;
    put_closing(out, indent, "method")
}

/// Puts a signal, whose arguments all go one way.
#[tactic(auto, unfolding(crate::specs::Text::signal_text))]
fn put_signal(out: &mut String, indent: usize, signal: &DescribedSignal) -> Result<(), AllocError>
    requires { indent + 2 < 2 ^ 64 }
    ensures { OnOk result (string_bytes out.new ≡ string_bytes out.old ++ signal_text indent signal.now) }
{
    put_opening(out, indent, "signal", signal.name.as_str())?;
    put_arguments(out, indent + 2, signal.arguments.as_slice(), "")?;
    put_closing(out, indent, "signal")
}

/// What may be done with a property.
fn access_text(access: Access) -> &'static str
    ensures { result.now ≡ access_text access }
{
    match access {
        Access::Read => "read",
        Access::Write => "write",
        Access::ReadWrite => "readwrite",
    }
}

/// Puts a property.
#[tactic(auto, unfolding(crate::specs::Text::line, crate::specs::Text::property_text))]
fn put_property(
    out: &mut String,
    indent: usize,
    property: &DescribedProperty,
) -> Result<(), AllocError>
    ensures { OnOk result (string_bytes out.new ≡ string_bytes out.old ++ property_text indent property.now) }
{
    put_indent(out, indent)?;
    write!(out, "<property name=\"{}\"", property.name)?;
    let access = access_text(property.access);
    writeln!(out, " type=\"{}\" access=\"{access}\"/>", property.ty)?;
    Ok(())
}

/// Puts methods, in their order.
fn put_methods(
    out: &mut String,
    indent: usize,
    methods: &[DescribedMethod],
) -> Result<(), AllocError>
    requires { indent + 2 < 2 ^ 64 }
    ensures { OnOk result (string_bytes out.new ≡ string_bytes out.old ++ flat_map (method_text indent) methods.now) }
{
    for method in methods {
        put_method(out, indent, method)?;
    }
    Ok(())
}

/// Puts signals, in their order.
fn put_signals(
    out: &mut String,
    indent: usize,
    signals: &[DescribedSignal],
) -> Result<(), AllocError>
    requires { indent + 2 < 2 ^ 64 }
    ensures { OnOk result (string_bytes out.new ≡ string_bytes out.old ++ flat_map (signal_text indent) signals.now) }
{
    for signal in signals {
        put_signal(out, indent, signal)?;
    }
    Ok(())
}

/// Puts properties, in their order.
fn put_properties(
    out: &mut String,
    indent: usize,
    properties: &[DescribedProperty],
) -> Result<(), AllocError>
    ensures { OnOk result (string_bytes out.new ≡ string_bytes out.old ++ flat_map (property_text indent) properties.now) }
{
    for property in properties {
        put_property(out, indent, property)?;
    }
    Ok(())
}

/// Puts an interface: its methods, its signals and its properties.
#[tactic(auto, unfolding(crate::specs::Text::interface_text))]
pub(crate) fn put_interface(
    out: &mut String,
    indent: usize,
    interface: &DescribedInterface<'_>,
) -> Result<(), AllocError>
    requires { indent + 4 < 2 ^ 64 }
    ensures { OnOk result (string_bytes out.new ≡ string_bytes out.old ++ interface_text indent interface.now) }
{
    let description = &interface.description;
    put_opening(out, indent, "interface", interface.name.as_str())?;
    put_methods(out, indent + 2, description.methods.as_slice())?;
    put_signals(out, indent + 2, description.signals.as_slice())?;
    put_properties(out, indent + 2, description.properties.as_slice())?;
    put_closing(out, indent, "interface")
}
