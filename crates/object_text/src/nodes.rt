//! Objects, those below one another inside one another.
ghost use Rattle.std.specs.Prelude.{◌≡◌, ◌+◌, ◌<◌, ◌≤◌, ◌^◌, ◌++◌, OnOk, IfOk, flat_map, length, string_bytes};
ghost use Rattle.std.specs.List.{prefix_len};
ghost use Rattle.std.specs.Ordering.{is_lt};
ghost use Rattle.object_tree.specs.Objects.{text_cmp};
ghost use Rattle.object_text.specs.Text.{interface_text, line, opening};
ghost use Rattle.object_text.specs.Nodes.{AreAscending, told, last_element, nodes_text, introspection};

use crate::described::DescribedObject;
use crate::lines::{put_closing, put_opening};
use crate::parts::put_interface;
use object_interface::DescribedInterface;
use object_tree::is_below;
use std::alloc::{AllocError, Global};
use wire_value::InterfaceName;

/// What stands before all nodes.
const HEADER: &str =
    "\n<!DOCTYPE node PUBLIC \"-//freedesktop//DTD D-BUS Object Introspection 1.0//EN\"\n \"http://www.freedesktop.org/standards/dbus/1.0/introspect.dtd\">\n";

/// How many from the front on have a name before this one.
fn count_before(interfaces: &[DescribedInterface<'_>], name: &InterfaceName<'_>) -> usize
    ensures count { result ≡ prefix_len (λ i. is_lt (text_cmp i.name name.now)) interfaces.now }
    ensures within { result ≤ length interfaces.now }
{
    let mut count = 0;
    for each in interfaces {
        if each.name.as_str() >= name.as_str() {
            break;
        }
        count += 1;
    }
    count
}

/// Puts interfaces, in their order.
fn put_each(
    out: &mut String,
    indent: usize,
    interfaces: &[DescribedInterface<'_>],
) -> Result<(), AllocError>
    requires { indent + 4 < 2 ^ 64 }
    ensures { OnOk result (string_bytes out.new ≡ string_bytes out.old ++ flat_map (interface_text indent) interfaces.now) }
{
    for each in interfaces {
        put_interface(out, indent, each)?;
    }
    Ok(())
}

/// Puts an object's own interfaces, and among them those that each object has, by their names.
fn put_interfaces(
    out: &mut String,
    indent: usize,
    own: &[DescribedInterface<'_>],
    standing: &[DescribedInterface<'_>],
) -> Result<(), AllocError>
    requires room { indent + 4 < 2 ^ 64 }
    requires ascending { AreAscending standing.now }
    ensures { OnOk result (string_bytes out.new ≡ string_bytes out.old ++ flat_map (interface_text indent) (told standing.now own.now)) }
{
    let mut next = 0;
    for each in own {
        let count = count_before(&standing[next..], &each.name);
        let end = next + count;
        put_each(out, indent, &standing[next..end])?;
        put_interface(out, indent, each)?;
        next = end;
    }
    put_each(out, indent, &standing[next..])
}

/// The last element of a path.
fn last_element(path: &str) -> &str
    ensures { result.now ≡ last_element path.now }
{
    match path.rsplit_once('/') {
        Some((_, element)) => element,
        None => path,
    }
}

/// Puts the nodes of objects, each with those inside it. A path has any number of elements, so this is no recursion: the nodes
/// that are open are kept, and each is closed before the first object that isn't below it.
fn put_nodes(
    alloc: Global,
    out: &mut String,
    objects: &[DescribedObject<'_>],
    standing: &[DescribedInterface<'_>],
) -> Result<(), AllocError>
    requires { AreAscending standing.now }
    ensures { OnOk result (string_bytes out.new ≡ string_bytes out.old ++ nodes_text standing.now (length objects.now) 2 objects.now) }
{
    let mut open: Vec<&str> = Vec::new(alloc);
    for object in objects {
        let path = object.path.as_str();
        while let Some(above) = open.last() {
            if is_below(above, path) {
                break;
            }
            open.pop();
            put_closing(out, 2 + 2 * open.len(), "node")?;
        }
        let indent = 2 + 2 * open.len();
        put_opening(out, indent, "node", last_element(path))?;
        put_interfaces(out, indent + 2, object.interfaces.as_slice(), standing)?;
        open.push(path)?;
    }
    while open.pop().is_some() {
        put_closing(out, 2 + 2 * open.len(), "node")?;
    }
    Ok(())
}

/// The text that introspection answers (D-Bus Specification, "Introspection Data Format"): of an object, the first, and of those
/// below it in the order of their paths' bytes. Each object has the standing interfaces beside its own; these ascend by their
/// names.
///
/// # Errors
///
/// AllocError if out of memory.
#[tactic(auto, unfolding(crate::specs::Nodes::introspection, crate::specs::Nodes::node_text))]
pub fn introspection(
    alloc: Global,
    standing: &[DescribedInterface<'_>],
    objects: &[DescribedObject<'_>],
) -> Result<String, AllocError>
    requires { AreAscending standing.now }
    ensures { IfOk result (λ text. string_bytes text ≡ introspection standing.now objects.now) }
{
    let mut text = String::from_str(alloc, HEADER)?;
    let Some((asked, below)) = objects.split_first() else {
        return Ok(text);
    };
    text.push_str("<node>\n")?;
    put_interfaces(&mut text, 2, asked.interfaces.as_slice(), standing)?;
    put_nodes(alloc, &mut text, below, standing)?;
    put_closing(&mut text, 0, "node")?;
    Ok(text)
}
