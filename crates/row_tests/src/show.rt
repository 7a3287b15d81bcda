//! Values as text: what stands in a container is followed by a blank.
use crate::leaf::write_quoted;
use crate::row::Written;
use std::alloc::Global;
use wire_value::{Numbers, Tree, type_text};

/// Writes the values, each with a blank behind it.
#[cycle(show)]
fn show_all(alloc: Global, out: &mut String, trees: &[Tree]) -> Written {
    for each in trees {
        show(alloc, out, each)?;
        out.push(' ')?;
    }
    Ok(())
}

/// Writes keys and values, each pair with a blank behind it.
#[cycle(show)]
fn show_pairs(alloc: Global, out: &mut String, pairs: &[(Tree, Tree)]) -> Written {
    for each in pairs {
        show(alloc, out, &each.0)?;
        out.push(':')?;
        show(alloc, out, &each.1)?;
        out.push(' ')?;
    }
    Ok(())
}

/// Writes a number, and nothing of another value.
fn show_number(out: &mut String, tree: &Tree) -> Written {
    match tree {
        Tree::U8(x) => write!(out, "{x}"),
        Tree::Bool(x) => write!(out, "{x}"),
        Tree::I16(x) => write!(out, "{x}"),
        Tree::U16(x) => write!(out, "{x}"),
        Tree::I32(x) => write!(out, "{x}"),
        Tree::U32(x) | Tree::Fd(x) => write!(out, "{x}"),
        Tree::I64(x) => write!(out, "{x}"),
        Tree::U64(x) => write!(out, "{x}"),
        Tree::F64(bits) => write!(out, "{bits:016x}"),
        _ => Ok(()),
    }
}

/// Writes the numbers, each with a blank behind it.
fn show_numbers(out: &mut String, numbers: &Numbers) -> Written {
    for index in 0..numbers.len() {
        show_number(out, &numbers.tree(index))?;
        out.push(' ')?;
    }
    Ok(())
}

/// Writes a value.
#[cycle(show)]
pub(crate) fn show(alloc: Global, out: &mut String, tree: &Tree) -> Written {
    match tree {
        Tree::Str(text) | Tree::Path(text) | Tree::Sig(text) => {
            write_quoted(out, text.as_str().as_bytes())
        }
        Tree::Array(_, elements) => {
            out.push('[')?;
            show_all(alloc, out, elements.as_slice())?;
            out.push(']')
        }
        Tree::Numbers(numbers) => {
            out.push('[')?;
            show_numbers(out, numbers)?;
            out.push(']')
        }
        Tree::Dict(_, _, entries) => {
            out.push('{')?;
            show_pairs(alloc, out, entries.as_slice())?;
            out.push('}')
        }
        Tree::Struct(fields) => {
            out.push('(')?;
            show_all(alloc, out, fields.as_slice())?;
            out.push(')')
        }
        Tree::Variant(inner) => {
            out.push('<')?;
            out.push_str(type_text(alloc, inner.as_tree())?.as_str())?;
            out.push(' ')?;
            show(alloc, out, inner.as_tree())?;
            out.push('>')
        }
        _ => show_number(out, tree),
    }
}
