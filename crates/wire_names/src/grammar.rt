//! What the grammars are made of, as tests of bytes.
ghost use Rattle.std.specs.Prelude.{◌≡◌, nat_le, length, ◌==◌, true};
ghost use Rattle.std.specs.List.{list_all};
ghost use Rattle.wire_names.specs.Names.{elements, begins_with_digit, is_element_byte, is_element, is_connection, is_dotted};
ghost use Rattle.wire_names.specs.Scanning.{may_stand};

/// The most bytes that a name may have.
pub(crate) const LONGEST_NAME: usize = 255;

pub(crate) const BUS: &[u8] = b"org.freedesktop.DBus";

/// What an element may have besides letters, `_`, and digits behind its first byte.
#[derive(Clone, Copy)]
pub(crate) struct Element {
    hyphen: bool,
    leading_digit: bool,
}

pub(crate) const IN_PATH: Element = Element {
    hyphen: false,
    leading_digit: true,
};

const IN_UNIQUE_NAME: Element = Element {
    hyphen: true,
    leading_digit: true,
};

pub(crate) const IN_INTERFACE_NAME: Element = Element {
    hyphen: false,
    leading_digit: false,
};

pub(crate) const IN_WELL_KNOWN_NAME: Element = Element {
    hyphen: true,
    leading_digit: false,
};

fn is_element_byte(byte: u8, hyphen: bool) -> bool
    ensures { result ≡ is_element_byte hyphen byte }
{
    byte.is_ascii_alphanumeric() || byte == b'_' || (hyphen && byte == b'-')
}

fn has_element_bytes(element: &[u8], hyphen: bool) -> bool
    ensures { result ≡ list_all (is_element_byte hyphen) element.now }
{
    element.iter().all(|byte| is_element_byte(*byte, hyphen))
}

#[tactic(auto, unfolding(crate::specs::Names::is_element))]
pub(crate) fn is_element(element: &[u8], kind: Element) -> bool
    ensures { result ≡ is_element kind.hyphen kind.leading_digit element.now }
{
    !element.is_empty()
        && has_element_bytes(element, kind.hyphen)
        && (kind.leading_digit || !matches!(element, [first, ..] if first.is_ascii_digit()))
}

/// Whether a byte may stand in an element, of which it is the first byte or not.
fn may_stand(byte: u8, kind: Element, begins: bool) -> bool
    ensures { result ≡ may_stand kind.hyphen kind.leading_digit begins byte }
{
    match byte {
        b'a'..=b'z' | b'A'..=b'Z' | b'_' => true,
        b'0'..=b'9' => kind.leading_digit || !begins,
        _ => kind.hyphen && byte == b'-',
    }
}

/// Whether each element between separators is one of the kind, by one pass over the text.
pub(crate) fn each_is_element(text: &[u8], separator: u8, kind: Element) -> bool
    ensures { result ≡ list_all (is_element kind.hyphen kind.leading_digit) (elements separator text.now) }
{
    let mut begins = true;
    for byte in text {
        if *byte == separator {
            if begins {
                return false;
            }
            begins = true;
        } else if may_stand(*byte, kind, begins) {
            begins = false;
        } else {
            return false;
        }
    }
    !begins
}

#[tactic(auto, using(crate::proofs::Elements::two_parts), unfolding(crate::specs::Names::is_dotted))]
pub(crate) fn is_dotted(text: &[u8], kind: Element) -> bool
    ensures { result ≡ is_dotted (is_element kind.hyphen kind.leading_digit) text.now }
{
    text.contains(&b'.') && each_is_element(text, b'.', kind)
}

#[tactic(auto, unfolding(crate::specs::Names::is_connection))]
pub(crate) fn is_connection(text: &[u8]) -> bool
    ensures { result ≡ is_connection text.now }
{
    match text {
        [b':', rest @ ..] => is_dotted(rest, IN_UNIQUE_NAME),
        _ => false,
    }
}

/// Whether each element of a text, between dots, is one of a bus name: letters, digits, `_` and `-`, at least one, and a digit in
/// front only where `leading_digit` says so (D-Bus Specification, "Valid Names", "Bus names"). One element is enough.
pub fn are_bus_name_elements(text: &[u8], leading_digit: bool) -> bool
    ensures { result ≡ list_all (is_element true leading_digit) (elements 46 text.now) }
{
    let kind = Element {
        hyphen: true,
        leading_digit,
    };
    each_is_element(text, b'.', kind)
}
