//! Who visits a server, and what each may be told.
use crate::failed::Failed;
use std::alloc::Global;

/// A visitor: what it says, the texts of which it may be told one, the usual one first, and those that it may be told
/// where memory was refused.
#[derive(Drop)]
pub(crate) struct Visitor {
    pub(crate) is_feed: bool,
    pub(crate) bytes: Vec<u8>,
    told: Vec<Vec<u8>>,
    starved: Vec<Vec<u8>>,
}

/// Whether a text is one of these.
fn is_among(texts: &[Vec<u8>], text: &[u8]) -> bool {
    texts.iter().any(|whole| whole.as_slice() == text)
}

/// Whether a text is a front part of one of these.
fn is_front_among(texts: &[Vec<u8>], text: &[u8]) -> bool {
    texts.iter().any(|whole| whole.starts_with(text))
}

impl Visitor {
    /// Whether this is what it is told as usual.
    pub(crate) fn is_usual(&self, text: &[u8]) -> bool {
        match self.told.first() {
            Some(usual) => usual.as_slice() == text,
            None => text.is_empty(),
        }
    }

    /// Whether it may be told this, whole.
    pub(crate) fn is_whole(&self, text: &[u8]) -> bool {
        is_among(&self.told, text)
    }

    /// Whether it may be told this where it is cut off.
    pub(crate) fn is_front(&self, text: &[u8]) -> bool {
        is_front_among(&self.told, text)
    }

    /// Whether it may be told this where memory was refused.
    pub(crate) fn is_starved(&self, text: &[u8]) -> bool {
        is_front_among(&self.told, text) || is_front_among(&self.starved, text)
    }
}

/// The visitors of a server, in the order in which they come.
#[derive(Drop)]
pub(crate) struct Visitors {
    alloc: Global,
    pub(crate) all: Vec<Visitor>,
}

impl Visitors {
    /// Nobody comes yet.
    pub(crate) fn new(alloc: Global) -> Visitors {
        Visitors {
            alloc,
            all: Vec::new(alloc),
        }
    }

    /// One more comes, and says this.
    pub(crate) fn visit(&mut self, is_feed: bool, bytes: Vec<u8>) -> Result<(), Failed> {
        self.all.push(Visitor {
            is_feed,
            bytes,
            told: Vec::new(self.alloc),
            starved: Vec::new(self.alloc),
        })?;
        Ok(())
    }

    /// The last one may be told this.
    pub(crate) fn tell(&mut self, text: Vec<u8>) -> Result<(), Failed> {
        match self.all.last_mut() {
            Some(visitor) => Ok(visitor.told.push(text)?),
            None => Err(Failed::BadCase),
        }
    }

    /// The last one may be told this where memory was refused.
    pub(crate) fn starve(&mut self, text: Vec<u8>) -> Result<(), Failed> {
        match self.all.last_mut() {
            Some(visitor) => Ok(visitor.starved.push(text)?),
            None => Err(Failed::BadCase),
        }
    }
}
