//! The text of a value.
ghost use Rattle.std.specs.Prelude.{◌≡◌, ◌&&◌, ◌++◌, [], ◌∷◌, false, true, Some, map};
ghost use Rattle.std.specs.Fmt.{WritesOnOk};
ghost use Rattle.std.specs.Int.{cast_unsigned, w16, w32, w64};
ghost use Rattle.std.specs.List.{flat_map};
ghost use Rattle.wire_signature.specs.SingleType.{array, dict};
ghost use Rattle.wire_tree.specs.Datum.{IsNumber, data_of, entries_of, int16, int32, int64, num, object_path, signature, string, text};
ghost use Rattle.wire_tree.specs.DatumView.{datum_of, pair_of};
ghost use Rattle.wire_tree.specs.Listed.{lead_at, told_at};
ghost use Rattle.wire_tree.specs.Packed.{numbers_array, numbers_data};
ghost use Rattle.wire_tree.specs.Printing.{datum_text, entries_text, escaped, if_told, is_empty, is_plain, struct_end, texts, type_mark};

use crate::numbers::Numbers;
use crate::tree::Tree;
use crate::value::Value;
use std::fmt;
use wire_signature::{BasicType, TypeNode, ValueType};

/// The word where the type is to be told.
fn if_told(told: bool, word: &'static str) -> &'static str
    ensures { result.now ≡ if_told told word.now }
{
    if told { word } else { "" }
}

/// What leads to the item at that place.
fn lead_at(index: usize) -> &'static str
    ensures { result.now ≡ lead_at [] index }
{
    if index == 0 { "" } else { ", " }
}

/// Whether the item at that place tells its type.
fn told_at(first: bool, later: bool, index: usize) -> bool
    ensures { result ≡ told_at first later index }
{
    if index == 0 { first } else { later }
}

fn is_plain(byte: u8) -> bool
    ensures { result ≡ is_plain byte }
{
    32 <= byte && byte <= 126 && byte != b'\'' && byte != b'\\'
}

fn write_byte<W: fmt::Write>(f: &mut fmt::Formatter<W>, byte: u8) -> fmt::Result
    ensures { WritesOnOk W.write_str_gives f.old result (escaped byte) f.new }
{
    if is_plain(byte) {
        f.write_char(char::from(byte))
    } else {
        write!(f, "\\{byte:02x}")
    }
}

fn write_bytes<W: fmt::Write>(f: &mut fmt::Formatter<W>, bytes: &[u8]) -> fmt::Result
    ensures { WritesOnOk W.write_str_gives f.old result (flat_map escaped bytes.now) f.new }
{
    for byte in bytes {
        write_byte(f, *byte)?;
    }
    Ok(())
}

/// The text between quotes, behind its type's word.
fn write_quoted<W: fmt::Write>(f: &mut fmt::Formatter<W>, word: &str, text: &str) -> fmt::Result
    ensures { WritesOnOk W.write_str_gives f.old result (word.now ++ 39 ∷ (flat_map escaped text.now ++ 39 ∷ [])) f.new }
{
    f.write_str(word)?;
    f.write_str("'")?;
    write_bytes(f, text.as_bytes())?;
    f.write_str("'")
}

fn write_i16<W: fmt::Write>(f: &mut fmt::Formatter<W>, told: bool, x: i16) -> fmt::Result
    ensures { WritesOnOk W.write_str_gives f.old result (datum_text told (num int16 (cast_unsigned w16 x))) f.new }
{
    write!(f, "{}{x}", if_told(told, "int16 "))
}

fn write_i32<W: fmt::Write>(f: &mut fmt::Formatter<W>, told: bool, x: i32) -> fmt::Result
    ensures { WritesOnOk W.write_str_gives f.old result (datum_text told (num int32 (cast_unsigned w32 x))) f.new }
{
    write!(f, "{x}")
}

fn write_i64<W: fmt::Write>(f: &mut fmt::Formatter<W>, told: bool, x: i64) -> fmt::Result
    ensures { WritesOnOk W.write_str_gives f.old result (datum_text told (num int64 (cast_unsigned w64 x))) f.new }
{
    write!(f, "{}{x}", if_told(told, "int64 "))
}

fn write_number<W: fmt::Write>(f: &mut fmt::Formatter<W>, told: bool, tree: &Tree) -> fmt::Result
    requires { IsNumber (datum_of tree.now) }
    ensures { WritesOnOk W.write_str_gives f.old result (datum_text told (datum_of tree.now)) f.new }
{
    match tree {
        Tree::U8(x) => write!(f, "{}0x{x:02x}", if_told(told, "byte ")),
        Tree::Bool(x) => write!(f, "{x}"),
        Tree::I16(x) => write_i16(f, told, *x),
        Tree::U16(x) => write!(f, "{}{x}", if_told(told, "uint16 ")),
        Tree::I32(x) => write_i32(f, told, *x),
        Tree::U32(x) => write!(f, "{}{x}", if_told(told, "uint32 ")),
        Tree::I64(x) => write_i64(f, told, *x),
        Tree::U64(x) => write!(f, "{}{x}", if_told(told, "uint64 ")),
        Tree::F64(x) => write!(f, "{}0x{x:016x}", if_told(told, "double ")),
        Tree::Fd(x) => write!(f, "{}{x}", if_told(told, "handle ")),
        Tree::Str(_) | Tree::Path(_) | Tree::Sig(_) => unreachable!(),
        Tree::Array(_, _)
        | Tree::Numbers(_)
        | Tree::Dict(_, _, _)
        | Tree::Struct(_)
        | Tree::Variant(_) => unreachable!(),
    }
}

/// The type of an array of these elements, where it is to be told.
fn write_array_mark<W: fmt::Write>(
    f: &mut fmt::Formatter<W>,
    told: bool,
    element: &ValueType,
) -> fmt::Result
    ensures { WritesOnOk W.write_str_gives f.old result (if_told told (type_mark (array element.now))) f.new }
{
    if told {
        write!(f, "@a{element} ")
    } else {
        Ok(())
    }
}

/// The type of a dict of these keys and values, where it is to be told.
fn write_dict_mark<W: fmt::Write>(
    f: &mut fmt::Formatter<W>,
    told: bool,
    key: BasicType,
    value: &ValueType,
) -> fmt::Result
    ensures { WritesOnOk W.write_str_gives f.old result (if_told told (type_mark (dict key value.now))) f.new }
{
    if told {
        f.write_str("@a{")?;
        f.write_char(char::from(key.letter()))?;
        write!(f, "{value}}} ")
    } else {
        Ok(())
    }
}

/// The numbers with commas in between, of which at most the first tells its type.
fn write_numbers<W: fmt::Write>(
    f: &mut fmt::Formatter<W>,
    told: bool,
    numbers: &Numbers,
) -> fmt::Result
    ensures { WritesOnOk W.write_str_gives f.old result (texts [] told false (data_of (numbers_data numbers.now))) f.new }
{
    for i in 0..numbers.len() {
        f.write_str(lead_at(i))?;
        write_number(f, told_at(told, false, i), &numbers.tree(i))?;
    }
    Ok(())
}

/// An array of the numbers.
fn write_packed<W: fmt::Write>(
    f: &mut fmt::Formatter<W>,
    told: bool,
    numbers: &Numbers,
) -> fmt::Result
    ensures { WritesOnOk W.write_str_gives f.old result (datum_text told (numbers_array numbers.now)) f.new }
{
    let element = ValueType::from_node(TypeNode::Basic(numbers.basic()));
    write_array_mark(f, told && has_no_numbers(numbers), &element)?;
    f.write_str("[")?;
    write_numbers(f, told, numbers)?;
    f.write_str("]")
}

/// What ends a struct of these fields.
fn struct_end(fields: &[Tree]) -> &'static str
    ensures { result.now ≡ struct_end (data_of (map datum_of fields.now)) }
{
    if fields.len() == 1 { ",)" } else { ")" }
}

fn has_no_elements(trees: &[Tree]) -> bool
    ensures { result ≡ is_empty (data_of (map datum_of trees.now)) }
{
    trees.is_empty()
}

fn has_no_numbers(numbers: &Numbers) -> bool
    ensures { result ≡ is_empty (data_of (numbers_data numbers.now)) }
{
    numbers.is_empty()
}

fn has_no_entries(pairs: &[(Tree, Tree)]) -> bool
    ensures { result ≡ is_empty (entries_of (map pair_of pairs.now)) }
{
    pairs.is_empty()
}

/// The trees with commas in between; the first tells its type where `first`, the others where `later`.
#[cycle(printed)]
fn write_trees<W: fmt::Write>(
    f: &mut fmt::Formatter<W>,
    first: bool,
    later: bool,
    trees: &[Tree],
) -> fmt::Result
    ensures { WritesOnOk W.write_str_gives f.old result (texts [] first later (data_of (map datum_of trees.now))) f.new }
{
    for i in 0..trees.len() {
        f.write_str(lead_at(i))?;
        write_tree(f, told_at(first, later, i), &trees[i])?;
    }
    Ok(())
}

/// The entries with commas in between, of which at most the first tells its types.
#[cycle(printed)]
fn write_entries<W: fmt::Write>(
    f: &mut fmt::Formatter<W>,
    told: bool,
    pairs: &[(Tree, Tree)],
) -> fmt::Result
    ensures { WritesOnOk W.write_str_gives f.old result (entries_text [] told (entries_of (map pair_of pairs.now))) f.new }
{
    for i in 0..pairs.len() {
        f.write_str(lead_at(i))?;
        let (key, value) = &pairs[i];
        let telling = told_at(told, false, i);
        write_tree(f, telling, key)?;
        f.write_str(": ")?;
        write_tree(f, telling, value)?;
    }
    Ok(())
}

/// The tree; its type is told where `told`.
#[cycle(printed)]
fn write_tree<W: fmt::Write>(f: &mut fmt::Formatter<W>, told: bool, tree: &Tree) -> fmt::Result
    ensures { WritesOnOk W.write_str_gives f.old result (datum_text told (datum_of tree.now)) f.new }
{
    match tree {
        Tree::Str(text) => write_quoted(f, "", text.as_str()),
        Tree::Path(text) => write_quoted(f, if_told(told, "objectpath "), text.as_str()),
        Tree::Sig(text) => write_quoted(f, if_told(told, "signature "), text.as_str()),
        Tree::Array(element, elements) => {
            let trees = elements.as_slice();
            write_array_mark(f, told && has_no_elements(trees), element)?;
            f.write_str("[")?;
            write_trees(f, told, false, trees)?;
            f.write_str("]")
        }
        Tree::Numbers(numbers) => write_packed(f, told, numbers),
        Tree::Dict(key, value, entries) => {
            let pairs = entries.as_slice();
            write_dict_mark(f, told && has_no_entries(pairs), *key, value)?;
            f.write_str("{")?;
            write_entries(f, told, pairs)?;
            f.write_str("}")
        }
        Tree::Struct(fields) => {
            let trees = fields.as_slice();
            f.write_str("(")?;
            write_trees(f, told, told, trees)?;
            f.write_str(struct_end(trees))
        }
        Tree::Variant(inner) => {
            f.write_str("<")?;
            write_tree(f, true, inner.as_tree())?;
            f.write_str(">")
        }
        _ => write_number(f, told, tree),
    }
}

/// The value with its type, near the text format of GVariant: `uint32 5`, `[int16 -1, 2]`, `{'a': <true>}`, `@as []`. A byte
/// and the 64 bits of a double stand in hexadecimal; in a text a byte outside 0x20 to 0x7e, a quote and a backslash stand as
/// `\` and two hexadecimal digits (D-Bus Specification, "Basic types", "Container types").
impl fmt::Display for Value {
    ghost output = { λ d. Some (datum_text true d) };

    fn fmt<W: fmt::Write>(&self, f: &mut fmt::Formatter<W>) -> fmt::Result {
        write_tree(f, true, self.tree())
    }
}
