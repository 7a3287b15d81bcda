//! The path of a match rule (D-Bus Specification, "Match Rules", `path`, `path_namespace`).
ghost use Rattle.std.specs.Prelude.{◌≡◌, IfOk};
ghost use Rattle.rule_match.specs.Rule.{place_text};

use std::alloc::{AllocError, Global};
use wire_value::OwnedObjectPath;

/// The path that a rule wants: one path, or a path and all below it.
#[derive(Debug, PartialEq, Eq, Hash)]
pub enum PathSpec {
    Path(OwnedObjectPath),
    PathNamespace(OwnedObjectPath),
}

impl Drop for PathSpec {
    fn drop(self) {
        match self {
            PathSpec::Path(_) => {}
            PathSpec::PathNamespace(_) => {}
        }
    }
}

impl PathSpec {
    /// The text of the path: the one that is wanted, or the one at and below which paths are wanted.
    pub fn as_str(&self) -> &str
        ensures { result.now ≡ place_text self.now }
    {
        match self {
            PathSpec::Path(path) => path.as_str(),
            PathSpec::PathNamespace(path) => path.as_str(),
        }
    }

    /// Copies the text.
    ///
    /// # Errors
    ///
    /// AllocError for want of memory.
    pub fn try_clone(&self, alloc: Global) -> Result<PathSpec, AllocError>
        ensures { IfOk result (λ place. place ≡ self.now) }
    {
        match self {
            PathSpec::Path(path) => Ok(PathSpec::Path(path.try_clone(alloc)?)),
            PathSpec::PathNamespace(path) => Ok(PathSpec::PathNamespace(path.try_clone(alloc)?)),
        }
    }

    /// The same path: it owns its text.
    pub fn into_owned(self) -> PathSpec
        ensures { result ≡ self }
    {
        self
    }
}
