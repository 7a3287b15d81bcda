//! Which paths are below one another.
ghost use Rattle.std.specs.Prelude.{◌≡◌, ◌∷◌, [], MatchOption, ◌<◌, length, take, refl};
ghost use Rattle.object_tree.specs.Objects.{ancestors, is_below, root};

/// The path of the root.
pub(crate) const ROOT: &str = "/";

/// Whether the second path is strictly below the first (D-Bus Specification, "Valid Object Paths").
pub fn is_below(path: &str, other: &str) -> bool
    ensures { result ≡ is_below path.now other.now }
{
    let path = path.as_bytes();
    let other = other.as_bytes();
    if path == b"/".as_slice() {
        return other.len() > 1 && other[0] == b'/';
    }
    if other.len() <= path.len() || other[path.len()] != b'/' {
        return false;
    }
    &other[..path.len()] == path
}

/// The longest path that this one is strictly below.
pub(crate) fn parent(path: &str) -> Option<&str>
    ensures { MatchOption result (ancestors path.now ≡ []) (λ above. (ancestors path.now ≡ above.now ∷ ancestors above.now) × (length above.now < length path.now) × (above.now ≡ take (length above.now) path.now)) }
{
    let Some(end) = path.rfind('/') else {
        return None;
    };
    if end > 0 {
        return Some(&path[..end]);
    }
    if path.len() > 1 {
        return Some(ROOT);
    }
    None
}
