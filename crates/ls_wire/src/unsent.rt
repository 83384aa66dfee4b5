//! Bytes that weren't written yet.
ghost use Rattle.std.specs.Prelude.{◌≡◌, ◌≤◌, ◌++◌, [], drop, length, IfOk, OnOk, OnErr};
ghost use Rattle.ls_talk.specs.Lines.{line_bytes};

use ls_value::NoMemory;
use std::alloc::Global;
use std::marker::Model;

/// Bytes that weren't written yet, in order. Contracts see them as a list.
#[derive(Drop)]
pub struct Unsent {
    bytes: Vec<u8>,
    sent: usize,
}

impl Model for Unsent {
    ghost use Rattle.std.specs.Prelude.{◌≤◌, List, ℕ, drop, length};

    ghost Value = { List ℕ };

    ghost view = { λ u. drop u.sent u.bytes.items };

    ghost invariant = { λ u. u.sent ≤ length u.bytes.items };
}

/// Appends bytes. After a refusal none were.
fn append(bytes: &mut Vec<u8>, more: &[u8]) -> Result<(), NoMemory>
    ensures ok { OnOk result (bytes.new.items ≡ bytes.old.items ++ more.now) }
    ensures err { OnErr result (bytes.new.items ≡ bytes.old.items) }
{
    bytes.extend_from_slice(more)?;
    Ok(())
}

/// Appends a line: its text and CR LF. After a refusal nothing of it is there.
#[tactic(auto, using(crate::proofs::Parts::front_of_all))]
fn append_line(bytes: &mut Vec<u8>, text: &[u8]) -> Result<(), NoMemory>
    ensures ok { OnOk result (bytes.new.items ≡ bytes.old.items ++ line_bytes text.now) }
    ensures err { OnErr result (bytes.new.items ≡ bytes.old.items) }
{
    let len = bytes.len();
    append(bytes, text)?;
    if append(bytes, b"\r\n").is_err() {
        bytes.truncate(len);
        return Err(NoMemory);
    }
    Ok(())
}

impl Unsent {
    /// No byte, and no room yet.
    pub fn new(alloc: Global) -> Unsent
        ensures { result ≡ [] }
    {
        Unsent {
            bytes: Vec::new(alloc),
            sent: 0,
        }
    }

    /// No byte, and room for so many.
    pub fn with_room(alloc: Global, room: usize) -> Result<Unsent, NoMemory>
        ensures { IfOk result (λ u. u ≡ []) }
    {
        let bytes = Vec::with_capacity(alloc, room)?;
        Ok(Unsent { bytes, sent: 0 })
    }

    /// The bytes.
    pub fn bytes(&self) -> &[u8]
        ensures { result.now ≡ self.now }
    {
        &self.bytes[self.sent..]
    }

    /// Adds bytes. After a refusal none were.
    #[tactic(auto, using(crate::proofs::Parts::rest_of_more))]
    pub fn add(&mut self, more: &[u8]) -> Result<(), NoMemory>
        ensures ok { OnOk result (self.new ≡ self.old ++ more.now) }
        ensures err { OnErr result (self.new ≡ self.old) }
    {
        append(&mut self.bytes, more)
    }

    /// Adds a line: its text and CR LF. After a refusal nothing of it was.
    #[tactic(auto, using(crate::proofs::Parts::rest_of_more))]
    pub fn add_line(&mut self, text: &[u8]) -> Result<(), NoMemory>
        ensures ok { OnOk result (self.new ≡ self.old ++ line_bytes text.now) }
        ensures err { OnErr result (self.new ≡ self.old) }
    {
        append_line(&mut self.bytes, text)
    }

    /// So many bytes from the front were written.
    #[tactic(auto, using(crate::proofs::Parts::rest_of_rest))]
    pub fn pass(&mut self, count: usize)
        requires { count ≤ length self.old }
        ensures { self.new ≡ drop count self.old }
    {
        self.sent += count;
    }

    /// All bytes were written. The room stays.
    pub fn clear(&mut self)
        ensures { self.new ≡ [] }
    {
        self.bytes.clear();
        self.sent = 0;
    }
}
