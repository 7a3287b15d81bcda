//! Rules and places that are copied, and rules as values of their own.
use rule_match::{MatchRule, OwnedMatchRule, PathSpec};
use std::alloc::Global;
use std::test::Fail;
use wire_message::Result;
use wire_value::OwnedObjectPath;

const RULE: &str = "type='error',sender=':1.2',path='/a',arg5='x',arg0namespace='org'";

/// Whether a rule is its copy.
fn is_copied(alloc: Global, rule: &MatchRule) -> Result<bool> {
    let copy = rule.to_owned(alloc)?.into_owned();
    Ok(copy == *rule)
}

#[test]
fn a_rule_is_its_copy(rt: HostRuntime) -> std::result::Result<(), Fail> {
    let rule = MatchRule::try_from(rt.alloc(), RULE)?;
    assert!(rt; is_copied(rt.alloc(), &rule)?);
    Ok(())
}

fn place(alloc: Global) -> Result<PathSpec> {
    let path = OwnedObjectPath::try_from(alloc, "/a")?;
    Ok(PathSpec::PathNamespace(path).into_owned())
}

/// Whether a place is its copy, and of this text.
fn is_place_copied(alloc: Global, place: &PathSpec) -> Result<bool> {
    let copy = place.try_clone(alloc)?;
    Ok(copy == *place && copy.as_str() == "/a")
}

#[test]
fn places_are_copied(rt: HostRuntime) -> std::result::Result<(), Fail> {
    let place = place(rt.alloc())?;
    assert!(rt; is_place_copied(rt.alloc(), &place)?);
    Ok(())
}

/// Whether the rule is this one, whichever way it is lent.
fn is_rule(owned: &OwnedMatchRule, rule: &MatchRule) -> bool {
    *owned.inner() == *rule && **owned == *rule && *owned.borrow() == *rule && owned.equals(rule)
}

/// Whether a value of its own read from the text is that rule, and gives it back.
fn is_owned_of_text(alloc: Global, rule: &MatchRule) -> Result<bool> {
    let owned = OwnedMatchRule::try_from(alloc, RULE)?;
    Ok(is_rule(&owned, rule) && owned.into_inner() == *rule)
}

/// Whether a value of its own made of the rule is the one that is read from the bytes.
fn is_owned_of_bytes(alloc: Global, rule: MatchRule) -> Result<bool> {
    let owned = OwnedMatchRule::from(rule);
    let read = OwnedMatchRule::try_from_bytes(alloc, RULE.as_bytes())?;
    Ok(owned == read)
}

#[test]
fn rules_are_owned(rt: HostRuntime) -> std::result::Result<(), Fail> {
    let rule = MatchRule::try_from(rt.alloc(), RULE)?;
    assert!(rt; is_owned_of_text(rt.alloc(), &rule)?);
    assert!(rt; is_owned_of_bytes(rt.alloc(), rule)?);
    Ok(())
}
