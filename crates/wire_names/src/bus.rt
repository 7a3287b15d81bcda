//! Bus names, lent and owned: the unique name of a connection, or a well-known name.
ghost use Rattle.std.specs.Prelude.{◌≡◌, ◌↔◌, ◌⊎◌, IfOk, IfErr, Some, Err, nat_eq, refl};
ghost use Rattle.std.specs.Cmp;
ghost use Rattle.std.specs.Cmp.{on_total, on_per, on_po, partial_equiv_from_equiv};
ghost use Rattle.std.specs.Cmp.Lexicographic.{pointwise, slice_cmp, nat_list_eq_equiv, nat_list_cmp_total, texts_ties, texts_po};
ghost use Rattle.std.specs.Cmp.Rules.{hashing};
ghost use Rattle.std.specs.Hash as fed;
ghost use Rattle.std.specs.Ordering.{nat_cmp};
ghost use Rattle.std.specs.Result.{OkIff};
ghost use Rattle.std.proofs.Common.{rules};
ghost use Rattle.wire_names.specs.Names.{IsBusName};
ghost use Rattle.wire_names.specs.BusName.{bus_name_of, text_of, owned_of, text_of_owned};
ghost use Rattle.wire_names.specs.declared.error.NamesError.TheVariants.{Bus};

use crate::error::NamesError;
use crate::kinds::{OwnedUniqueName, OwnedWellKnownName, UniqueName, WellKnownName};
use std::alloc::{AllocError, Global};
use std::cmp::Ordering;
use std::fmt;
use std::hash::{Hash, Hasher};

/// A unique or a well-known bus name (D-Bus Specification, "Valid Names", "Bus names"), at most 255 bytes.
///
/// `try_from` of a `&str` takes no memory. It reads a unique name where the text is one, so
/// `org.freedesktop.DBus` is unique, and answers [`NamesError::Bus`] exactly where the text is neither. Bus names are compared,
/// ordered and hashed by their texts.
///
/// # Examples
///
/// ```
/// use wire_value::BusName;
/// assert!(rt; matches!(BusName::try_from(":1.42")?, BusName::Unique(_)));
/// assert!(rt; matches!(BusName::try_from("org.example")?, BusName::WellKnown(_)));
/// assert!(rt; BusName::try_from("example").is_err());
/// Ok(())
/// ```
#[derive(Debug, Drop, Eq)]
pub enum BusName<'a> {
    Unique(UniqueName<'a>),
    WellKnown(WellKnownName<'a>),
}

impl<'a> TryFrom<&'a str> for BusName<'a> {
    type Error = NamesError;

    ghost try_from_gives = { λ text r. OkIff r (IsBusName text.now) (bus_name_of text.now) × IfErr r (λ e. e ≡ Bus) };

    #[tactic(auto, unfolding(crate::specs::Names::is_bus_name))]
    fn try_from(text: &'a str) -> Result<BusName<'a>, NamesError> {
        if let Ok(name) = UniqueName::try_from(text) {
            return Ok(BusName::Unique(name));
        }
        match WellKnownName::try_from(text) {
            Ok(name) => Ok(BusName::WellKnown(name)),
            Err(_) => Err(NamesError::Bus),
        }
    }
}

impl<'a> BusName<'a> {
    /// Reads bytes, which may be no UTF-8, without taking memory.
    ///
    /// # Errors
    ///
    /// [`NamesError::Bus`] exactly outside the grammar.
    #[tactic(auto, using(crate::specs::Ascii::bus_is_utf8))]
    pub fn try_from_bytes(bytes: &'a [u8]) -> Result<BusName<'a>, NamesError>
        ensures value { OkIff result (IsBusName bytes.now) (bus_name_of bytes.now) }
        ensures error { IfErr result (λ e. e ≡ Bus) }
    {
        match str::from_utf8(bytes) {
            Ok(text) => BusName::try_from(text),
            Err(_) => Err(NamesError::Bus),
        }
    }

    /// The name's text, which lives as long as the text that it was read from.
    #[tactic(auto, unfolding(crate::specs::Names::is_bus_name))]
    pub fn as_str(&self) -> &'a str
        ensures value { result.now ≡ text_of self.now }
        ensures valid { IsBusName (text_of self.now) }
    {
        match self {
            BusName::Unique(name) => name.as_str(),
            BusName::WellKnown(name) => name.as_str(),
        }
    }

    /// The same name again.
    pub fn as_ref(&self) -> BusName<'a>
        ensures { result ≡ self.now }
    {
        match self {
            BusName::Unique(name) => BusName::Unique(name.as_ref()),
            BusName::WellKnown(name) => BusName::WellKnown(name.as_ref()),
        }
    }

    /// Copies the text.
    ///
    /// # Errors
    ///
    /// [`AllocError`] for want of memory.
    pub fn to_owned(&self, alloc: Global) -> Result<OwnedBusName, AllocError>
        ensures { IfOk result (λ name. name ≡ owned_of self.now) }
    {
        match self {
            BusName::Unique(name) => Ok(OwnedBusName::Unique(name.to_owned(alloc)?)),
            BusName::WellKnown(name) => Ok(OwnedBusName::WellKnown(name.to_owned(alloc)?)),
        }
    }
}

impl<'a> fmt::Display for BusName<'a> {
    ghost output = { λ name. Some (text_of name) };

    fn fmt<W: fmt::Write>(&self, f: &mut fmt::Formatter<W>) -> fmt::Result {
        fmt::Display::fmt(self.as_str(), f)
    }
}

impl<'a> PartialEq for BusName<'a> {
    ghost eq = { λ x y. pointwise nat_eq (text_of x) (text_of y) };

    ghost laws = { on_per text_of (partial_equiv_from_equiv nat_list_eq_equiv) };

    fn eq(&self, other: &BusName<'a>) -> bool {
        self.as_str() == other.as_str()
    }
}

impl<'a> PartialOrd for BusName<'a> {
    ghost partial_cmp = { λ x y. Some (slice_cmp nat_cmp (text_of x) (text_of y)) };

    ghost laws = { on_po text_of texts_po };

    fn partial_cmp(&self, other: &BusName<'a>) -> Option<Ordering> {
        Some(self.cmp(other))
    }
}

impl<'a> Ord for BusName<'a> {
    ghost cmp = { λ x y. slice_cmp nat_cmp (text_of x) (text_of y) };

    ghost total = { on_total text_of nat_list_cmp_total };

    ghost matches_partial_cmp = { λ x y. refl };

    ghost matches_eq = { λ x y. texts_ties (text_of x) (text_of y) };

    fn cmp(&self, other: &BusName<'a>) -> Ordering {
        self.as_str().cmp(other.as_str())
    }
}

impl<'a> Hash for BusName<'a> {
    ghost hash_input = { λ x. fed.str (text_of x) };

    ghost respects_eq = { Prim.search (hashing, rules) };

    fn hash<H: Hasher>(&self, state: &mut H) {
        self.as_str().hash(state);
    }
}

/// A [`BusName`] that owns its text.
#[derive(Debug, Drop, Eq)]
pub enum OwnedBusName {
    Unique(OwnedUniqueName),
    WellKnown(OwnedWellKnownName),
}

impl OwnedBusName {
    /// Copies the text.
    ///
    /// # Errors
    ///
    /// [`NamesError::Bus`] exactly outside both grammars, [`NamesError::Memory`] for want of memory.
    pub fn try_from(alloc: Global, text: &str) -> Result<OwnedBusName, NamesError>
        ensures ok { IfOk result (λ name. (name ≡ owned_of (bus_name_of text.now)) × IsBusName text.now) }
        ensures refused { (result ≡ Err NamesError.Bus) ↔ ¬ IsBusName text.now }
        ensures error { IfErr result (λ e. (e ≡ NamesError.Bus) ⊎ (e ≡ NamesError.Memory)) }
    {
        let name: BusName = BusName::try_from(text)?;
        Ok(name.to_owned(alloc)?)
    }

    /// The name's text.
    pub fn as_str(&self) -> &str
        ensures value { result.now ≡ text_of_owned self.now }
        ensures valid { IsBusName (text_of_owned self.now) }
    {
        self.as_ref().as_str()
    }

    /// The name as one that lends this one's text.
    pub fn as_ref(&self) -> BusName<'_>
        ensures { owned_of result ≡ self.now }
    {
        match self {
            OwnedBusName::Unique(name) => BusName::Unique(name.as_ref()),
            OwnedBusName::WellKnown(name) => BusName::WellKnown(name.as_ref()),
        }
    }

    /// Copies the name.
    ///
    /// # Errors
    ///
    /// [`AllocError`] for want of memory.
    pub fn try_clone(&self, alloc: Global) -> Result<OwnedBusName, AllocError>
        ensures { IfOk result (λ name. name ≡ self.now) }
    {
        self.as_ref().to_owned(alloc)
    }
}

impl fmt::Display for OwnedBusName {
    ghost output = { λ name. Some (text_of_owned name) };

    fn fmt<W: fmt::Write>(&self, f: &mut fmt::Formatter<W>) -> fmt::Result {
        fmt::Display::fmt(self.as_str(), f)
    }
}

impl PartialEq for OwnedBusName {
    ghost eq = { λ x y. pointwise nat_eq (text_of_owned x) (text_of_owned y) };

    ghost laws = { on_per text_of_owned (partial_equiv_from_equiv nat_list_eq_equiv) };

    fn eq(&self, other: &OwnedBusName) -> bool {
        self.as_str() == other.as_str()
    }
}

impl PartialOrd for OwnedBusName {
    ghost partial_cmp = { λ x y. Some (slice_cmp nat_cmp (text_of_owned x) (text_of_owned y)) };

    ghost laws = { on_po text_of_owned texts_po };

    fn partial_cmp(&self, other: &OwnedBusName) -> Option<Ordering> {
        Some(self.cmp(other))
    }
}

impl Ord for OwnedBusName {
    ghost cmp = { λ x y. slice_cmp nat_cmp (text_of_owned x) (text_of_owned y) };

    ghost total = { on_total text_of_owned nat_list_cmp_total };

    ghost matches_partial_cmp = { λ x y. refl };

    ghost matches_eq = { λ x y. texts_ties (text_of_owned x) (text_of_owned y) };

    fn cmp(&self, other: &OwnedBusName) -> Ordering {
        self.as_str().cmp(other.as_str())
    }
}

impl Hash for OwnedBusName {
    ghost hash_input = { λ x. fed.str (text_of_owned x) };

    ghost respects_eq = { Prim.search (hashing, rules) };

    fn hash<H: Hasher>(&self, state: &mut H) {
        self.as_str().hash(state);
    }
}
