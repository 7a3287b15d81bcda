//! What a rule wants of arguments, asked of the walk over a message's.
ghost use Rattle.std.specs.Prelude.{◌≡◌, ◌<◌, ◌+◌, ◌&&◌, List, IsTrue, Some, false, drop, length, option_map, take};
ghost use Rattle.std.specs.List.{All, list_all};
ghost use Rattle.wire_tree.specs.Datum.{Datum};
ghost use Rattle.rule_match.specs.Accepting.{accepts_arguments, is_none_or};
ghost use Rattle.rule_match.specs.ArgumentTests.{has_at, is_name_in, is_path, is_string};
ghost use Rattle.rule_match.specs.declared.arguments.Argument.{Argument};
ghost use Rattle.rule_match.specs.Sources.{arguments_from};
ghost use Rattle.rule_match.specs.Walking.{IsWalk};

use crate::arguments::Argument;
use crate::walk::Walk;

/// Whether the first string that is wanted is asked for no later than the first argument path.
fn is_string_next(strings: &[Argument], paths: &[Argument]) -> bool
    ensures yes { IsTrue result → 0 < length strings.now }
    ensures no { result ≡ false → 0 < length strings.now + length paths.now → 0 < length paths.now }
{
    match (strings, paths) {
        ([string, ..], [path, ..]) => string.index <= path.index,
        ([], _) => false,
        (_, []) => true,
    }
}

/// The arguments behind the first.
fn behind_first(arguments: &[Argument]) -> &[Argument]
    ensures { result.now ≡ drop 1 arguments.now }
{
    match arguments {
        [_, others @ ..] => others,
        [] => arguments,
    }
}

/// Whether the first argument that is wanted is that string.
fn is_first_string(wanted: &[Argument], walk: &mut Walk<'_>) -> bool
    requires walk { IsWalk walk.old }
    requires wanted { All (λ (a : Argument). a.index < 64) wanted.now }
    ensures walk { IsWalk walk.new }
    ensures source { walk.new.source ≡ walk.old.source }
    ensures has { (ds : List Datum) → arguments_from walk.old.source ≡ Some ds → result ≡ list_all (λ (a : Argument). has_at (is_string a.text) a.index ds) (take 1 wanted.now) }
{
    match wanted {
        [first, ..] => walk.is_string(first.index, first.text.as_str()),
        [] => true,
    }
}

/// Whether the first argument that is wanted matches that argument path.
fn is_first_path(wanted: &[Argument], walk: &mut Walk<'_>) -> bool
    requires walk { IsWalk walk.old }
    requires wanted { All (λ (a : Argument). a.index < 64) wanted.now }
    ensures walk { IsWalk walk.new }
    ensures source { walk.new.source ≡ walk.old.source }
    ensures has { (ds : List Datum) → arguments_from walk.old.source ≡ Some ds → result ≡ list_all (λ (a : Argument). has_at (is_path a.text) a.index ds) (take 1 wanted.now) }
{
    match wanted {
        [first, ..] => walk.is_path(first.index, first.text.as_str()),
        [] => true,
    }
}

/// Whether each argument that is wanted is that string, or matches that argument path. They are asked in the order of
/// their indices, so that the walk stops at the first argument that doesn't fit.
fn are_wanted(strings: &[Argument], paths: &[Argument], walk: &mut Walk<'_>) -> bool
    requires walk { IsWalk walk.old }
    requires strings { All (λ (a : Argument). a.index < 64) strings.now }
    requires paths { All (λ (a : Argument). a.index < 64) paths.now }
    ensures walk { IsWalk walk.new }
    ensures source { walk.new.source ≡ walk.old.source }
    ensures has { (ds : List Datum) → arguments_from walk.old.source ≡ Some ds → result ≡ (list_all (λ (a : Argument). has_at (is_string a.text) a.index ds) strings.now && list_all (λ (a : Argument). has_at (is_path a.text) a.index ds) paths.now) }
{
    let mut strings = strings;
    let mut paths = paths;
    while !strings.is_empty() || !paths.is_empty() {
        if is_string_next(strings, paths) {
            if !is_first_string(strings, walk) {
                return false;
            }
            strings = behind_first(strings);
        } else {
            if !is_first_path(paths, walk) {
                return false;
            }
            paths = behind_first(paths);
        }
    }
    true
}

/// Whether the first argument is a name in the namespace, where one is wanted.
fn is_in_namespace(wanted: Option<&str>, walk: &mut Walk<'_>) -> bool
    requires { IsWalk walk.old }
    ensures walk { IsWalk walk.new }
    ensures source { walk.new.source ≡ walk.old.source }
    ensures has { (ds : List Datum) → arguments_from walk.old.source ≡ Some ds → result ≡ is_none_or (λ namespace. has_at (is_name_in namespace) 0 ds) (option_map (λ name. name.now) wanted.entry) }
{
    let Some(namespace) = wanted else {
        return true;
    };
    walk.is_name_in(namespace)
}

/// Whether the arguments, if all can be read, are what is wanted of them.
pub(crate) fn fits(
    strings: &[Argument],
    paths: &[Argument],
    namespace: Option<&str>,
    walk: &mut Walk<'_>,
) -> bool
    requires walk { IsWalk walk.old }
    requires strings { All (λ (a : Argument). a.index < 64) strings.now }
    requires paths { All (λ (a : Argument). a.index < 64) paths.now }
    ensures walk { IsWalk walk.new }
    ensures source { walk.new.source ≡ walk.old.source }
    ensures has { (ds : List Datum) → arguments_from walk.old.source ≡ Some ds → result ≡ accepts_arguments (record { args = strings.now; arg_paths = paths.now; arg0ns = option_map (λ name. name.now) namespace.entry }) ds }
{
    is_in_namespace(namespace, walk) && are_wanted(strings, paths, walk)
}
