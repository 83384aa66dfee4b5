//! Texts in UTF-8, and bytes.
ghost use Rattle.std.specs.Prelude.{◌≡◌, ◌↔◌, IfOk, OnOk, OnErr, IsErrOf, length, nat_eq, string_bytes};
ghost use Rattle.std.specs.Str.{IsUtf8};
ghost use Rattle.ls_value.specs.Values.{text_eq};

use crate::repr::Repr;
use std::alloc::{AllocError, AllocFailed, Global};
use std::marker::Model;

/// Memory was refused. The call that answers it has changed nothing, unless it says otherwise.
#[derive(Clone, Copy, Debug, PartialEq, Eq)]
pub struct NoMemory;

impl From<AllocError> for NoMemory {
    fn from(_: AllocError) -> NoMemory {
        NoMemory
    }
}

impl<T: Drop> From<AllocFailed<T>> for NoMemory {
    fn from(_: AllocFailed<T>) -> NoMemory {
        NoMemory
    }
}

/// Why there is no text of some bytes.
#[derive(Clone, Copy, Debug, PartialEq, Eq)]
pub enum TextRefused {
    /// The bytes are not UTF-8.
    NotUtf8,
    /// Memory was refused.
    NoMemory,
}

impl From<NoMemory> for TextRefused {
    ghost use Rattle.std.specs.Prelude.{◌≡◌};
    ghost use Rattle.ls_value.specs.declared.text.TextRefused.TheVariants as refused;

    ghost from_gives = { λ _ e. e ≡ refused.NoMemory };

    fn from(_: NoMemory) -> TextRefused {
        TextRefused::NoMemory
    }
}

impl From<AllocError> for TextRefused {
    ghost use Rattle.std.specs.Prelude.{◌≡◌};
    ghost use Rattle.ls_value.specs.declared.text.TextRefused.TheVariants as refused;

    ghost from_gives = { λ _ e. e ≡ refused.NoMemory };

    fn from(_: AllocError) -> TextRefused {
        TextRefused::NoMemory
    }
}

/// A text in UTF-8, seen as its bytes (TLCP 2.1: the texts of fields and names are UTF-8). One of at most 16 bytes lies
/// in the value itself, and takes no memory.
#[derive(Drop)]
pub struct Text {
    repr: Repr,
}

impl Model for Text {
    ghost use Rattle.std.specs.Prelude.{List, ℕ};
    ghost use Rattle.ls_value.specs.Bytes.{repr_bytes};

    ghost Value = { List ℕ };

    ghost view = { λ t. repr_bytes t.repr };
}

impl Text {
    /// The text of these bytes, copied: `NotUtf8` exactly where they are not UTF-8.
    pub fn of(alloc: Global, bytes: &[u8]) -> Result<Text, TextRefused>
        ensures ok { IfOk result (λ t. t ≡ bytes.now) }
        ensures valid { OnOk result (IsUtf8 bytes.now) }
        ensures not_utf8 { IsErrOf result TextRefused.NotUtf8 ↔ (IsUtf8 bytes.now → ⊥) }
    {
        match std::str::from_utf8(bytes) {
            Ok(s) => Ok(Text {
                repr: Repr::of(alloc, s)?,
            }),
            Err(_) => Err(TextRefused::NotUtf8),
        }
    }

    /// The text of these bytes, which are UTF-8, copied.
    pub fn of_utf8(alloc: Global, bytes: &[u8]) -> Result<Text, NoMemory>
        requires { IsUtf8 bytes.now }
        ensures { IfOk result (λ t. t ≡ bytes.now) }
    {
        match Text::of(alloc, bytes) {
            Ok(text) => Ok(text),
            Err(TextRefused::NoMemory) => Err(NoMemory),
            Err(TextRefused::NotUtf8) => unreachable!(),
        }
    }

    /// The text of a `str`, copied.
    pub fn from_str(alloc: Global, text: &str) -> Result<Text, NoMemory>
        ensures { IfOk result (λ t. t ≡ text.now) }
    {
        let repr = Repr::of(alloc, text)?;
        Ok(Text { repr })
    }

    /// The text of a string, whose memory it keeps.
    pub fn from_string(string: String) -> Text
        ensures { result ≡ string_bytes string }
    {
        Text {
            repr: Repr::Long(string),
        }
    }

    /// An equal text. Its bytes are UTF-8.
    pub fn copy(&self, alloc: Global) -> Result<Text, NoMemory>
        ensures equal { IfOk result (λ t. t ≡ self.now) }
        ensures textual { IfOk result IsUtf8 }
    {
        let repr = self.repr.copy(alloc)?;
        Ok(Text { repr })
    }

    /// Becomes the text of a `str`. It takes memory only where its own is too small; after `NoMemory` it is as before.
    pub fn set(&mut self, text: &str) -> Result<(), NoMemory>
        ensures ok { OnOk result (self.new ≡ text.now) }
        ensures err { OnErr result (self.new ≡ self.old) }
    {
        self.repr.set(text)
    }

    /// Its bytes.
    pub fn as_bytes(&self) -> &[u8]
        ensures { result.now ≡ self.now }
    {
        self.repr.as_str().as_bytes()
    }

    /// It as a `str`.
    pub fn as_str(&self) -> &str
        ensures { result.now ≡ self.now }
    {
        self.repr.as_str()
    }

    /// The number of its bytes.
    pub fn len(&self) -> usize
        ensures { result ≡ length self.now }
    {
        self.repr.len()
    }

    /// Whether it has no bytes.
    pub fn is_empty(&self) -> bool
        ensures { result ≡ nat_eq (length self.now) 0 }
    {
        self.repr.len() == 0
    }
}

/// Bytes of any kind.
#[derive(Drop)]
pub struct Bytes {
    inner: Vec<u8>,
}

impl Model for Bytes {
    ghost use Rattle.std.specs.Prelude.{List, ℕ};

    ghost Value = { List ℕ };

    ghost view = { λ b. b.inner.items };
}

impl Bytes {
    /// These bytes, copied.
    pub fn of(alloc: Global, bytes: &[u8]) -> Result<Bytes, NoMemory>
        ensures { IfOk result (λ copied. copied ≡ bytes.now) }
    {
        let mut inner = Vec::new(alloc);
        inner.extend_from_slice(bytes)?;
        Ok(Bytes { inner })
    }

    /// The bytes of a `Vec`, which it keeps: no memory is taken.
    pub fn from_vec(bytes: Vec<u8>) -> Bytes
        ensures { result ≡ bytes.items }
    {
        Bytes { inner: bytes }
    }

    /// The bytes in order.
    pub fn as_slice(&self) -> &[u8]
        ensures { result.now ≡ self.now }
    {
        &self.inner
    }

    /// The number of bytes.
    pub fn len(&self) -> usize
        ensures { result ≡ length self.now }
    {
        self.inner.len()
    }

    /// Whether there are no bytes.
    pub fn is_empty(&self) -> bool
        ensures { result ≡ nat_eq (length self.now) 0 }
    {
        self.inner.is_empty()
    }
}

/// Whether two texts have the same bytes. No memory is taken.
#[tactic(auto, using(crate::proofs::Rows::text_eq_lengths))]
pub fn same_bytes(a: &[u8], b: &[u8]) -> bool
    ensures { result ≡ text_eq a.now b.now }
{
    if a.len() != b.len() {
        return false;
    }
    for i in 0..a.len() {
        if a[i] != b[i] {
            return false;
        }
    }
    true
}
