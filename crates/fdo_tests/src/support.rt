//! Dictionaries for tests.
use std::alloc::Global;
use wire_message::Result;
use wire_value::{Text, Tree, Value};

/// Puts an entry behind the others.
pub(crate) fn add(
    alloc: Global,
    entries: &mut Vec<(Text, Value)>,
    key: &str,
    tree: Tree,
) -> Result<()> {
    entries.push((Text::from_str(alloc, key)?, Value::from_tree(alloc, tree)?))?;
    Ok(())
}

/// The entries of these keys, each with its number.
pub(crate) fn numbered(alloc: Global, keys: &[(&str, u32)]) -> Result<Vec<(Text, Value)>> {
    let mut entries = Vec::new(alloc);
    for (key, number) in keys {
        add(alloc, &mut entries, *key, Tree::U32(*number))?;
    }
    Ok(entries)
}

/// A text as a tree.
pub(crate) fn text(alloc: Global, text: &str) -> Result<Tree> {
    Ok(Tree::Str(Text::from_str(alloc, text)?))
}
