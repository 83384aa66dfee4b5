//! A client that knows what the lines of its stream say.
use ls_door::Duct;
use ls_line::read;
use ls_mirror::{Client, Table};
use ls_outside::{Clock, Got, Source};
use ls_value::{NoMemory, Row, Value};
use std::alloc::Global;
use std::sync::Wait;

/// How often a client looks whether something came, before it gives up. It waits 1 ms each time.
const MOST_LOOKS: u32 = 50_000;

/// How many bytes are read at once, at most.
const PIECE: usize = 256;

/// Whether just these bytes come next.
pub(crate) fn comes<S: Source, K: Clock>(source: &mut S, clock: &mut K, bytes: &[u8]) -> bool {
    let mut at = 0;
    for _ in 0..MOST_LOOKS {
        if at >= bytes.len() {
            return true;
        }
        let mut piece = [0u8; 1];
        match source.read(&mut piece) {
            Got::Bytes(_) => {
                if piece[0] != bytes[at] {
                    return false;
                }
                at += 1;
            }
            Got::NotYet => clock.wait(1),
            Got::End | Got::Failed => return false,
        }
    }
    false
}

/// A stream behind its first lines, and what its lines said so far.
#[derive(Drop)]
pub(crate) struct Listener<R: Wait + Drop> {
    alloc: Global,
    duct: Duct<R>,
    line: Vec<u8>,
    client: Client,
}

/// Whether the last row of an item is this text.
fn is_at(row: &Row, text: &str) -> bool {
    match row.as_slice() {
        [Value::Text(value)] => value.as_str() == text,
        _ => false,
    }
}

/// Whether this is the last row that came.
fn ends_with(table: Option<&Table>, text: &str) -> bool {
    let Some(table) = table else {
        return false;
    };
    match &table.last {
        Some(row) => is_at(row, text),
        None => false,
    }
}

impl<R: Wait + Drop> Listener<R> {
    /// A client that hears this stream.
    pub(crate) fn new(alloc: Global, duct: Duct<R>) -> Result<Listener<R>, NoMemory> {
        Ok(Listener {
            alloc,
            duct,
            line: Vec::new(alloc),
            client: Client::new(alloc)?,
        })
    }

    /// Takes the line that came. Answers whether it is one of the protocol.
    fn take_line(&mut self) -> bool {
        let is_known = match read(self.alloc, &self.line) {
            Ok(line) => self.client.feed(&line).is_ok(),
            Err(_) => false,
        };
        self.line.clear();
        is_known
    }

    /// Takes a byte. Answers whether it may come.
    fn take(&mut self, byte: u8) -> bool {
        match byte {
            b'\r' => true,
            b'\n' => self.take_line(),
            _ => self.line.push(byte).is_ok(),
        }
    }

    /// Takes bytes. Answers whether they may come.
    fn take_all(&mut self, bytes: &[u8]) -> bool {
        for byte in bytes {
            if !self.take(*byte) {
                return false;
            }
        }
        true
    }

    /// Whether both items of the first subscription are at this text.
    fn is_at_end(&self, text: &str) -> bool {
        ends_with(self.client.table(1, 1), text) && ends_with(self.client.table(1, 2), text)
    }

    /// Hears lines until both items of the first subscription are at this text. Answers whether they get there.
    pub(crate) fn gets_to<K: Clock>(&mut self, clock: &mut K, text: &str) -> bool {
        for _ in 0..MOST_LOOKS {
            if self.is_at_end(text) {
                return true;
            }
            let mut piece = [0u8; PIECE];
            match self.duct.read(&mut piece) {
                Got::Bytes(count) => {
                    if !self.take_all(&piece[..count]) {
                        return false;
                    }
                }
                Got::NotYet => clock.wait(1),
                Got::End | Got::Failed => return false,
            }
        }
        false
    }

    /// How many updates of an item came, and how many were lost.
    pub(crate) fn counts(&self, item: u32) -> (u64, u64) {
        match self.client.table(1, item) {
            Some(table) => (table.updates, table.lost),
            None => (0, 0),
        }
    }
}
