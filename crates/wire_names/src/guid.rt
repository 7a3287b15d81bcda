//! GUIDs, lent and owned.
ghost use Rattle.std.specs.Prelude.{◌≡◌, ◌↔◌, ◌⊎◌, ◌<◌, ℕ, List, All, IfOk, IfErr, IsTrue, Some, Err};
ghost use Rattle.std.specs.Char.{is_ascii_hexdigit};
ghost use Rattle.std.specs.List.{list_all};
ghost use Rattle.std.specs.Result.{OkIff};
ghost use Rattle.wire_names.specs.Guid.{is_guid, IsGuid, generated_guid, after_guid};
ghost use Rattle.wire_names.specs.declared.guid.GuidError.TheVariants.{InvalidGUID, Memory};

use crate::small::Text;
use rand_core::Rng;
use std::alloc::{AllocError, Global};
use std::fmt;
use std::marker::Model;
use thiserror::Error;
use uuid::Uuid;

const GUID_LENGTH: usize = 32;

/// Why a text is not taken as a GUID.
#[derive(Clone, Copy, Debug, PartialEq, Eq, Error)]
pub enum GuidError {
    /// The text is not 32 hexadecimal digits.
    #[error("Invalid GUID")]
    InvalidGUID,
    /// Memory ran out.
    #[error("Memory")]
    Memory,
}

impl From<AllocError> for GuidError {
    ghost from_gives = { λ _ e. e ≡ Memory };

    fn from(_error: AllocError) -> GuidError {
        GuidError::Memory
    }
}

/// A GUID of a bus address or of a machine (D-Bus Specification, "UUIDs"): exactly 32 hexadecimal digits, upper or lower case,
/// without hyphens.
///
/// `try_from` of a `&str` takes no memory, keeps the case of the digits, and returns [`GuidError::InvalidGUID`] exactly for
/// any other text. GUIDs are compared, ordered and hashed by their bytes, so digits of different case differ.
///
/// # Examples
///
/// ```
/// use wire_value::Guid;
/// let guid = Guid::try_from("0123456789ABCDEF0123456789abcdef")?;
/// assert!(rt; guid.as_str() == "0123456789ABCDEF0123456789abcdef");
/// assert!(rt; Guid::try_from("01234567-89AB-CDEF-0123-456789abcdef").is_err());
/// Ok(())
/// ```
#[derive(Debug, Drop, PartialEq, Eq, PartialOrd, Ord, Hash)]
pub struct Guid<'a> {
    text: Text<&'a str>,
}

impl<'a> Model for Guid<'a> {
    ghost use Rattle.std.specs.Prelude.{List, ℕ};
    ghost use Rattle.wire_names.specs.Guid.{IsGuid};

    ghost Value = { List ℕ };

    ghost view = { λ guid. guid.text };

    ghost invariant = { λ guid. IsGuid guid.text };

    ghost inverse = { λ bytes. record { text = bytes } };
}

fn are_hex_digits(text: &[u8]) -> bool
    ensures { result ≡ list_all is_ascii_hexdigit text.now }
{
    text.iter().all(|byte| byte.is_ascii_hexdigit())
}

#[tactic(auto, unfolding(crate::specs::Guid::is_guid))]
fn is_guid(text: &[u8]) -> bool
    ensures { result ≡ is_guid text.now }
{
    text.len() == GUID_LENGTH && are_hex_digits(text)
}

impl<'a> TryFrom<&'a str> for Guid<'a> {
    type Error = GuidError;

    ghost try_from_gives = { λ text r. OkIff r (IsGuid text.now) text.now × IfErr r (λ e. e ≡ InvalidGUID) };

    fn try_from(text: &'a str) -> Result<Guid<'a>, GuidError> {
        if is_guid(text.as_bytes()) {
            Ok(Guid {
                text: Text { string: text },
            })
        } else {
            Err(GuidError::InvalidGUID)
        }
    }
}

impl<'a> Guid<'a> {
    /// Makes a GUID of a static text, as `try_from` does.
    ///
    /// # Errors
    ///
    /// [`GuidError::InvalidGUID`] if and only if the text is not 32 hexadecimal digits.
    pub fn from_static_str(text: &'static str) -> Result<Guid<'static>, GuidError>
        ensures value { OkIff result (IsGuid text.now) text.now }
        ensures error { IfErr result (λ e. e ≡ InvalidGUID) }
    {
        Guid::try_from(text)
    }

    /// Returns the GUID's 32 digits, which live as long as the text that the GUID was read from.
    pub fn as_str(&self) -> &'a str
        ensures value { result.now ≡ self.now }
        ensures valid { IsGuid self.now }
    {
        self.text.string
    }

    /// Returns whether a text is the GUID's own, byte for byte.
    pub fn eq_str(&self, text: &str) -> bool
        ensures { IsTrue result ↔ (self.now ≡ text.now) }
    {
        self.as_str() == text
    }

    /// Copies the digits.
    ///
    /// # Errors
    ///
    /// [`AllocError`] if memory ran out.
    pub fn to_owned(&self, alloc: Global) -> Result<OwnedGuid, AllocError>
        ensures { IfOk result (λ guid. guid ≡ self.now) }
    {
        let text = Text::from_str(alloc, self.as_str())?;
        Ok(OwnedGuid { text })
    }

    /// Generates a GUID: a version 4 UUID of the generator's next 16 bytes, in 32 lower-case digits.
    ///
    /// The generator gives 16 bytes also if memory ran out.
    ///
    /// # Errors
    ///
    /// [`AllocError`] if memory ran out.
    #[tactic(auto, using(crate::proofs::Guids::simple_is_guid))]
    pub fn generate<R: Rng>(alloc: Global, rng: &mut R) -> Result<OwnedGuid, AllocError>
        ensures value { IfOk result (λ guid. guid ≡ generated_guid (R.stream rng.old)) }
        ensures stream { R.stream rng.new ≡ after_guid (R.stream rng.old) }
    {
        let id = Uuid::new_v4(rng);
        let mut buffer = Uuid::encode_buffer();
        let digits = id.simple().encode_lower(&mut buffer);
        let text = Text::from_str(alloc, digits)?;
        Ok(OwnedGuid { text })
    }
}

impl<'a> fmt::Display for Guid<'a> {
    ghost output = { λ guid. Some guid };

    fn fmt<W: fmt::Write>(&self, f: &mut fmt::Formatter<W>) -> fmt::Result {
        fmt::Display::fmt(self.as_str(), f)
    }
}

/// A [`Guid`] that owns its text.
#[derive(Debug, PartialEq, Eq, PartialOrd, Ord, Hash)]
pub struct OwnedGuid {
    text: Text,
}

// Written out: a derived one is taken apart again wherever a type that holds a GUID ends.
impl Drop for OwnedGuid {
    fn drop(self) {
        let OwnedGuid { text: _ } = self;
    }
}

impl Model for OwnedGuid {
    ghost use Rattle.std.specs.Prelude.{List, ℕ};
    ghost use Rattle.wire_names.specs.Guid.{IsGuid};

    ghost Value = { List ℕ };

    ghost view = { λ guid. guid.text };

    ghost invariant = { λ guid. IsGuid guid.text };

    ghost inverse = { λ bytes. record { text = bytes } };
}

impl OwnedGuid {
    /// Copies a GUID's digits.
    ///
    /// # Errors
    ///
    /// [`AllocError`] if memory ran out.
    pub fn from(alloc: Global, guid: &Guid<'_>) -> Result<OwnedGuid, AllocError>
        ensures { IfOk result (λ owned. owned ≡ guid.now) }
    {
        guid.to_owned(alloc)
    }

    /// Copies the text.
    ///
    /// # Errors
    ///
    /// [`GuidError::InvalidGUID`] if and only if the text is not 32 hexadecimal digits, [`GuidError::Memory`] if memory ran out.
    pub fn try_from(alloc: Global, text: &str) -> Result<OwnedGuid, GuidError>
        ensures ok { IfOk result (λ guid. (guid ≡ text.now) × IsGuid text.now) }
        ensures refused { (result ≡ Err InvalidGUID) ↔ ¬ IsGuid text.now }
        ensures error { IfErr result (λ e. (e ≡ InvalidGUID) ⊎ (e ≡ Memory)) }
    {
        let guid = Guid::try_from(text)?;
        Ok(guid.to_owned(alloc)?)
    }

    /// Returns the GUID as one that lends this one's text.
    pub fn inner(&self) -> Guid<'_>
        ensures { result ≡ self.now }
    {
        let string = self.as_str();
        Guid {
            text: Text { string },
        }
    }

    /// Returns the GUID's 32 digits.
    pub fn as_str(&self) -> &str
        ensures value { result.now ≡ self.now }
        ensures valid { IsGuid self.now }
    {
        self.text.as_str()
    }

    /// Returns whether a text is the GUID's own, byte for byte.
    pub fn eq_str(&self, text: &str) -> bool
        ensures { IsTrue result ↔ (self.now ≡ text.now) }
    {
        self.as_str() == text
    }

    /// Gives the text up.
    pub fn into_text(self) -> Text
        ensures value { result ≡ self }
        ensures valid { IsGuid result }
    {
        let OwnedGuid { text } = self;
        text
    }

    /// Copies the GUID.
    ///
    /// # Errors
    ///
    /// [`AllocError`] if memory ran out.
    pub fn try_clone(&self, alloc: Global) -> Result<OwnedGuid, AllocError>
        ensures { IfOk result (λ guid. guid ≡ self.now) }
    {
        self.inner().to_owned(alloc)
    }
}

impl fmt::Display for OwnedGuid {
    ghost output = { λ guid. Some guid };

    fn fmt<W: fmt::Write>(&self, f: &mut fmt::Formatter<W>) -> fmt::Result {
        fmt::Display::fmt(self.as_str(), f)
    }
}

/// A GUID is ASCII without a zero byte, so it is UTF-8, and a message can hold it as a string.
#[tactic(auto, using(crate::proofs::Guids::guid_bytes))]
pub fn a_guid_is_text()
    ensures { (text : List ℕ) → IsGuid text → All (λ byte. (0 < byte) × (byte < 128)) text }
{}
