//! Where the bytes of a text are kept: in the value itself, or on the heap.
ghost use Rattle.std.specs.Prelude.{◌≡◌, ◌<◌, ◌≤◌, IfOk, IsOk, OnOk, OnErr, length, string_bytes, string_capacity};
ghost use Rattle.std.specs.Str.{IsUtf8};
ghost use Rattle.ls_value.specs.Bytes.{repr_bytes};

use crate::text::NoMemory;
use arrayvec::ArrayString;
use std::alloc::Global;

/// The greatest length in bytes of a text that is kept in the value itself. A `Short` of so many is as large as a
/// `Long`.
const INLINE: usize = 16;

/// The bytes of a text.
#[derive(Drop)]
pub(crate) enum Repr {
    /// In the value itself, beside the allocator of the string that takes their place where they grow too many.
    Short(ArrayString<INLINE>, Global),
    /// On the heap.
    Long(String),
}

impl Repr {
    /// Of a `str`, copied. Memory is taken only where it is longer than 16 bytes.
    pub(crate) fn of(alloc: Global, text: &str) -> Result<Repr, NoMemory>
        ensures equal { IfOk result (λ repr. repr_bytes repr ≡ text.now) }
        ensures short { length text.now ≤ INLINE → IsOk result }
    {
        match ArrayString::from(text) {
            Ok(short) => Ok(Repr::Short(short, alloc)),
            Err(_) => Ok(Repr::Long(String::from_str(alloc, text)?)),
        }
    }

    /// Equal bytes, which are UTF-8. Memory is taken only for those on the heap.
    pub(crate) fn copy(&self, alloc: Global) -> Result<Repr, NoMemory>
        ensures equal { IfOk result (λ repr. repr_bytes repr ≡ repr_bytes self.now) }
        ensures textual { IfOk result (λ repr. IsUtf8 (repr_bytes repr)) }
        ensures short { length (repr_bytes self.now) ≤ INLINE → IsOk result }
    {
        let text = self.as_str();
        match self {
            Repr::Short(short, _) => Ok(Repr::Short(*short, alloc)),
            Repr::Long(_) => Repr::of(alloc, text),
        }
    }

    /// Become those of a `str`. They stay on the heap where there is room for them. Memory is taken only where they are
    /// longer than 16 bytes and than that room. After `NoMemory` they are as before.
    pub(crate) fn set(&mut self, text: &str) -> Result<(), NoMemory>
        ensures ok { OnOk result (repr_bytes self.new ≡ text.now) }
        ensures err { OnErr result (repr_bytes self.new ≡ repr_bytes self.old) }
        ensures short { length text.now ≤ INLINE → IsOk result }
    {
        match self {
            Repr::Short(short, _) if text.len() <= INLINE => {
                short.clear();
                short.push_str(text);
            }
            Repr::Short(_, alloc) => *self = Repr::of(*alloc, text)?,
            Repr::Long(long) if text.len() <= INLINE && long.capacity() < text.len() => {
                *self = Repr::of(*long.allocator(), text)?;
            }
            Repr::Long(long) => set_string(long, text)?,
        }
        Ok(())
    }

    /// As a `str`.
    pub(crate) fn as_str(&self) -> &str
        ensures { result.now ≡ repr_bytes self.now }
    {
        match self {
            Repr::Short(short, _) => short.as_str(),
            Repr::Long(long) => long.as_str(),
        }
    }

    /// How many.
    pub(crate) fn len(&self) -> usize
        ensures { result ≡ length (repr_bytes self.now) }
    {
        match self {
            Repr::Short(short, _) => short.len(),
            Repr::Long(long) => long.len(),
        }
    }
}

/// Makes a string a `str`, in its own memory where there is room.
fn set_string(string: &mut String, text: &str) -> Result<(), NoMemory>
    ensures ok { OnOk result (string_bytes string.new ≡ text.now) }
    ensures err { OnErr result (string_bytes string.new ≡ string_bytes string.old) }
    ensures full { OnErr result (string_capacity string.old < length text.now) }
{
    string.reserve(text.len().saturating_sub(string.len()))?;
    string.clear();
    if string.push_str(text).is_err() {
        unreachable!()
    }
    Ok(())
}
