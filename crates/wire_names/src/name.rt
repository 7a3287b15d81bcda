//! Names: one type for all kinds, which the kind's grammar tells apart.
ghost use Rattle.std.specs.Prelude.{◌≡◌, ◌⊎◌, IfOk, IfErr, IsTrue, Some, Err};
ghost use Rattle.std.specs.Result.{OkIff};

use crate::error::NamesError;
use crate::small::Text;
use std::alloc::{AllocError, Global};
use std::fmt;
use std::marker::{Model, PhantomData};

/// A kind of names: which texts are names of it, and how another text is refused.
pub trait NameKind: Drop {
    ghost use Rattle.std.specs.Prelude.{◌≡◌, ℕ, Bool, List, IsTrue, IsUtf8};
    ghost use Rattle.wire_names.specs.declared.error.NamesError.{NamesError};

    // whether a text is a name of this kind
    ghost is_name: { List ℕ → Bool };

    // how a text that isn't is refused
    ghost refusal: { NamesError };

    /// Whether the text is a name of this kind.
    fn is_name(text: &[u8]) -> bool
        ensures { result ≡ is_name text.now };

    /// The error of a text that isn't.
    fn refusal() -> NamesError
        ensures { result ≡ refusal };

    // a name is UTF-8
    ghost is_text: { (text : List ℕ) → IsTrue (is_name text) → IsUtf8 text };
}

/// A name of the kind K (D-Bus Specification, "Valid Names", "Valid Object Paths").
///
/// `try_from` of a `&str` takes no memory, and answers the kind's own error exactly outside the grammar.
///
/// # Examples
///
/// ```
/// use wire_value::ObjectPath;
/// let path = ObjectPath::try_from("/org/example/Counter")?;
/// assert!(rt; path.as_str() == "/org/example/Counter");
/// assert!(rt; ObjectPath::try_from("org/example").is_err());
/// Ok(())
/// ```
#[derive(Drop)]
#[derive_where(Debug, PartialEq, Eq, PartialOrd, Ord, Hash)]
pub struct Name<'a, K: NameKind> {
    text: Text<&'a str>,
    #[derive_where(skip(EqHashOrd))]
    kind: PhantomData<K>,
}

impl<'a, K: NameKind> Model for Name<'a, K> {
    ghost use Rattle.std.specs.Prelude.{List, ℕ, IsTrue};

    ghost Value = { List ℕ };

    ghost view = { λ name. name.text };

    ghost invariant = { λ name. IsTrue (K.is_name name.text) };

    ghost inverse = { λ bytes. record { text = bytes; kind = record {} } };
}

impl<'a, K: NameKind> TryFrom<&'a str> for Name<'a, K> {
    type Error = NamesError;

    ghost try_from_gives = { λ text r. OkIff r (IsTrue (K.is_name text.now)) text.now × IfErr r (λ e. e ≡ K.refusal) };

    fn try_from(text: &'a str) -> Result<Name<'a, K>, NamesError> {
        if K::is_name(text.as_bytes()) {
            Ok(Name {
                text: Text { string: text },
                kind: PhantomData,
            })
        } else {
            Err(K::refusal())
        }
    }
}

impl<'a, K: NameKind> Name<'a, K> {
    /// Reads bytes, which may be no UTF-8, without taking memory.
    ///
    /// # Errors
    ///
    /// The kind's own exactly outside the grammar.
    pub fn try_from_bytes(bytes: &'a [u8]) -> Result<Name<'a, K>, NamesError>
        ensures value { OkIff result (IsTrue (K.is_name bytes.now)) bytes.now }
        ensures error { IfErr result (λ e. e ≡ K.refusal) }
    {
        if K::is_name(bytes) {
            Ok(Name::from_known_bytes(bytes))
        } else {
            Err(K::refusal())
        }
    }

    /// Takes bytes that are known to be a name of this kind, without testing them again.
    pub fn from_known_bytes(bytes: &'a [u8]) -> Name<'a, K>
        requires { IsTrue (K.is_name bytes.now) }
        ensures { result ≡ bytes.now }
    {
        let string = unsafe { str::from_utf8_unchecked(bytes) };
        Name {
            text: Text { string },
            kind: PhantomData,
        }
    }

    /// The name's text, which lives as long as the text that it was read from.
    pub fn as_str(&self) -> &'a str
        ensures value { result.now ≡ self.now }
        ensures valid { IsTrue (K.is_name self.now) }
    {
        self.text.string
    }

    /// The same name again.
    pub fn as_ref(&self) -> Name<'a, K>
        ensures { result ≡ self.now }
    {
        let string = self.as_str();
        Name {
            text: Text { string },
            kind: PhantomData,
        }
    }

    /// Copies the text.
    ///
    /// # Errors
    ///
    /// [`AllocError`] for want of memory.
    pub fn to_owned(&self, alloc: Global) -> Result<OwnedName<K>, AllocError>
        ensures { IfOk result (λ name. name ≡ self.now) }
    {
        let text = Text::from_str(alloc, self.as_str())?;
        Ok(OwnedName {
            text,
            kind: PhantomData,
        })
    }
}

impl<K: NameKind> Name<'static, K> {
    /// Takes a text that is known to be a name of this kind, as that of an interface of the standard.
    pub fn from_static_str(text: &'static str) -> Name<'static, K>
        requires { IsTrue (K.is_name text.now) }
        ensures { result ≡ text.now }
    {
        Name {
            text: Text { string: text },
            kind: PhantomData,
        }
    }
}

impl<'a, K: NameKind> fmt::Display for Name<'a, K> {
    ghost output = { λ name. Some name };

    fn fmt<W: fmt::Write>(&self, f: &mut fmt::Formatter<W>) -> fmt::Result {
        fmt::Display::fmt(self.as_str(), f)
    }
}

/// A [`Name`] that owns its text.
#[derive(Drop)]
#[derive_where(Debug, PartialEq, Eq, PartialOrd, Ord, Hash)]
pub struct OwnedName<K: NameKind> {
    text: Text,
    #[derive_where(skip(EqHashOrd))]
    kind: PhantomData<K>,
}

impl<K: NameKind> Model for OwnedName<K> {
    ghost use Rattle.std.specs.Prelude.{List, ℕ, IsTrue};

    ghost Value = { List ℕ };

    ghost view = { λ name. name.text };

    ghost invariant = { λ name. IsTrue (K.is_name name.text) };

    ghost inverse = { λ bytes. record { text = bytes; kind = record {} } };
}

impl<K: NameKind> OwnedName<K> {
    /// Copies the text.
    ///
    /// # Errors
    ///
    /// The kind's own exactly outside the grammar, [`NamesError::Memory`] for want of memory.
    ///
    /// # Examples
    ///
    /// ```
    /// use wire_value::OwnedMemberName;
    /// let member = OwnedMemberName::try_from(rt.alloc(), "Ping")?;
    /// assert!(rt; member.as_str() == "Ping");
    /// Ok(())
    /// ```
    pub fn try_from(alloc: Global, text: &str) -> Result<OwnedName<K>, NamesError>
        ensures ok { IfOk result (λ name. (name ≡ text.now) × IsTrue (K.is_name text.now)) }
        ensures refused { ¬ IsTrue (K.is_name text.now) → result ≡ Err K.refusal }
        ensures error { IfErr result (λ e. (e ≡ NamesError.Memory) ⊎ ((e ≡ K.refusal) × ¬ IsTrue (K.is_name text.now))) }
    {
        let name: Name<K> = Name::try_from(text)?;
        Ok(name.to_owned(alloc)?)
    }

    /// The name's text.
    pub fn as_str(&self) -> &str
        ensures value { result.now ≡ self.now }
        ensures valid { IsTrue (K.is_name self.now) }
    {
        self.text.as_str()
    }

    /// The name as one that lends this one's text.
    pub fn as_ref(&self) -> Name<'_, K>
        ensures { result ≡ self.now }
    {
        let string = self.as_str();
        Name {
            text: Text { string },
            kind: PhantomData,
        }
    }

    /// Gives the text back.
    pub fn into_text(self) -> Text
        ensures value { result ≡ self }
        ensures valid { IsTrue (K.is_name result) }
    {
        self.text
    }

    /// Copies the name.
    ///
    /// # Errors
    ///
    /// [`AllocError`] for want of memory.
    pub fn try_clone(&self, alloc: Global) -> Result<OwnedName<K>, AllocError>
        ensures { IfOk result (λ name. name ≡ self.now) }
    {
        self.as_ref().to_owned(alloc)
    }
}

impl<K: NameKind> fmt::Display for OwnedName<K> {
    ghost output = { λ name. Some name };

    fn fmt<W: fmt::Write>(&self, f: &mut fmt::Formatter<W>) -> fmt::Result {
        fmt::Display::fmt(self.as_str(), f)
    }
}
