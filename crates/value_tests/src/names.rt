//! Names of each kind, lent and owned, and the order of bus names.
use std::alloc::Global;
use std::hash::{DefaultHasher, Hash, Hasher};
use wire_value::kinds::{Error, Interface, Member, Path, Unique, WellKnown};
use wire_value::{
    BusName, Name, NameKind, NamesError, OwnedBusName, OwnedName, OwnedWellKnownName, WellKnownName,
};

/// Whether the text's bytes are read as a name, which is lent again.
fn is_lent<K: NameKind>(text: &str) -> bool {
    let name: Result<Name<K>, NamesError> = Name::try_from_bytes(text.as_bytes());
    match &name {
        Ok(name) => name.as_ref().as_str() == text,
        Err(_) => false,
    }
}

/// Whether the copy of an owned name lends the text, and gives it back.
fn is_owned<K: NameKind>(alloc: Global, text: &str) -> Result<bool, NamesError> {
    let name: OwnedName<K> = OwnedName::try_from(alloc, text)?;
    let is_copied = name.try_clone(alloc)?.as_ref().as_str() == text;
    Ok(is_copied && name.into_text().as_str() == text)
}

/// Whether the text is a name of the kind, lent and owned.
fn check<K: NameKind>(alloc: Global, text: &str) -> bool {
    is_lent::<K>(text) && is_owned::<K>(alloc, text) == Ok(true)
}

fn is_lent_bus(text: &str) -> bool {
    match &BusName::try_from_bytes(text.as_bytes()) {
        Ok(name) => name.as_ref().as_str() == text,
        Err(_) => false,
    }
}

fn is_owned_bus(alloc: Global, text: &str) -> Result<bool, NamesError> {
    let name = OwnedBusName::try_from(alloc, text)?.try_clone(alloc)?;
    Ok(name.as_ref().as_str() == text)
}

#[test]
fn names_of_each_kind(rt: HostRuntime) {
    let alloc = rt.alloc();
    for answer in [
        check::<Unique>(alloc, ":1.2"),
        check::<WellKnown>(alloc, "a.b"),
        check::<Interface>(alloc, "a.b"),
        check::<Error>(alloc, "a.b"),
        check::<Member>(alloc, "Get"),
        check::<Path>(alloc, "/a"),
        is_lent_bus(":1.2") && is_owned_bus(alloc, ":1.2") == Ok(true),
    ] {
        assert!(rt; answer);
    }
}

fn hashed<N: Hash>(name: &N) -> u64 {
    let mut state = DefaultHasher::new();
    name.hash(&mut state);
    state.finish()
}

/// Whether two names are equal, and hashed alike.
fn are_same<N: Ord + Hash>(name: &N, other: &N) -> bool {
    *name == *other && hashed(name) == hashed(other)
}

/// The name of the bus, which is read as a unique one, and once as a well-known one.
const BUS: &str = "org.freedesktop.DBus";

fn is_above_lent(bus: &BusName<'_>) -> bool {
    match &BusName::try_from("a.b") {
        Ok(name) => name < bus && name != bus,
        Err(_) => false,
    }
}

fn is_well_known_lent(bus: &BusName<'_>) -> bool {
    match WellKnownName::try_from(BUS) {
        Ok(name) => are_same(&BusName::WellKnown(name), bus),
        Err(_) => false,
    }
}

fn lent_are_in_order() -> bool {
    match &BusName::try_from(BUS) {
        Ok(bus) => is_above_lent(bus) && is_well_known_lent(bus),
        Err(_) => false,
    }
}

fn is_above_owned(alloc: Global, bus: &OwnedBusName) -> Result<bool, NamesError> {
    Ok(OwnedBusName::try_from(alloc, "a.b")? < *bus)
}

fn well_known(alloc: Global) -> Result<OwnedBusName, NamesError> {
    Ok(OwnedBusName::WellKnown(OwnedWellKnownName::try_from(alloc, BUS)?))
}

fn is_well_known_owned(alloc: Global, bus: &OwnedBusName) -> Result<bool, NamesError> {
    Ok(are_same(&well_known(alloc)?, bus))
}

fn is_in_order(alloc: Global, bus: &OwnedBusName) -> Result<bool, NamesError> {
    Ok(is_above_owned(alloc, bus)? && is_well_known_owned(alloc, bus)?)
}

fn owned_are_in_order(alloc: Global) -> Result<bool, NamesError> {
    is_in_order(alloc, &OwnedBusName::try_from(alloc, BUS)?)
}

/// By the bytes of their texts: `org.freedesktop.DBus` is a unique name, and above `a.b`, a well-known one.
#[test]
fn bus_names_are_ordered_by_their_texts(rt: HostRuntime) {
    assert!(rt; lent_are_in_order() && owned_are_in_order(rt.alloc()) == Ok(true));
}
