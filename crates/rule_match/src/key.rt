//! The keys of a rule's text.
ghost use Rattle.std.specs.Prelude.{◌≡◌, ◌<◌, ◌≤◌, ◌-◌, length, IfSome};
ghost use Rattle.rule_match.specs.Key.{same, below_64, header_key, place_key, index_of, digits_len, ended_key, numbered_key, argument_key, key_of};
ghost use Rattle.rule_match.specs.Building.{IsKey};

/// What a component of a rule's text sets.
#[derive(Clone, Copy, Debug, PartialEq, Eq)]
pub(crate) enum Key {
    Type,
    Sender,
    Interface,
    Member,
    Path,
    PathNamespace,
    Destination,
    Arg0Namespace,
    Argument(u8),
    ArgumentPath(u8),
}

/// The number of arguments that a rule can speak of.
const ARGUMENTS: u16 = 64;

pub(crate) fn same(word: &[u8], text: &[u8]) -> bool
    ensures { result ≡ same word.now text.now }
{
    word == text
}

fn header_key(key: &[u8]) -> Option<Key>
    ensures { result ≡ header_key key.now }
{
    if same(key, b"type") {
        Some(Key::Type)
    } else if same(key, b"sender") {
        Some(Key::Sender)
    } else if same(key, b"interface") {
        Some(Key::Interface)
    } else if same(key, b"member") {
        Some(Key::Member)
    } else {
        None
    }
}

fn place_key(key: &[u8]) -> Option<Key>
    ensures { result ≡ place_key key.now }
{
    if same(key, b"path") {
        Some(Key::Path)
    } else if same(key, b"path_namespace") {
        Some(Key::PathNamespace)
    } else if same(key, b"destination") {
        Some(Key::Destination)
    } else if same(key, b"arg0namespace") {
        Some(Key::Arg0Namespace)
    } else {
        None
    }
}

fn digit(byte: u8) -> u16
    ensures { result ≡ byte - 48 }
{
    u16::from(byte.saturating_sub(b'0'))
}

fn below_64(number: u16) -> Option<u8>
    ensures value { result ≡ below_64 number }
    ensures small { IfSome result (λ index. index < 64) }
{
    if number < ARGUMENTS {
        Some(number as u8)
    } else {
        None
    }
}

fn index_of(digits: &[u8]) -> Option<u8>
    ensures value { result ≡ index_of digits.now }
    ensures small { IfSome result (λ index. index < 64) }
{
    match digits {
        [a] => below_64(digit(*a)),
        [a, b] => below_64(10 * digit(*a) + digit(*b)),
        [a, b, c] => below_64(100 * digit(*a) + 10 * digit(*b) + digit(*c)),
        _ => None,
    }
}

fn digits_len(text: &[u8]) -> usize
    ensures value { result ≡ digits_len text.now }
    ensures bound { result ≤ length text.now }
{
    text.iter()
        .position(|byte| !byte.is_ascii_digit())
        .unwrap_or(text.len())
}

fn ended_key(index: u8, end: &[u8]) -> Option<Key>
    requires { index < 64 }
    ensures value { result ≡ ended_key index end.now }
    ensures valid { IfSome result IsKey }
{
    if end.is_empty() {
        Some(Key::Argument(index))
    } else if same(end, b"path") {
        Some(Key::ArgumentPath(index))
    } else {
        None
    }
}

fn numbered_key(rest: &[u8]) -> Option<Key>
    ensures value { result ≡ numbered_key rest.now }
    ensures valid { IfSome result IsKey }
{
    let (digits, end) = rest.split_at(digits_len(rest));
    let index = index_of(digits)?;
    ended_key(index, end)
}

fn argument_key(key: &[u8]) -> Option<Key>
    ensures value { result ≡ argument_key key.now }
    ensures valid { IfSome result IsKey }
{
    match key {
        [b'a', b'r', b'g', rest @ ..] => numbered_key(rest),
        _ => None,
    }
}

/// The key that a text is, where it is one.
#[tactic(auto, unfolding(crate::specs::Key::key_of))]
pub(crate) fn key_of(key: &[u8]) -> Option<Key>
    ensures value { result ≡ key_of key.now }
    ensures valid { IfSome result IsKey }
{
    if let Some(key) = header_key(key) {
        return Some(key);
    }
    if let Some(key) = place_key(key) {
        return Some(key);
    }
    argument_key(key)
}
