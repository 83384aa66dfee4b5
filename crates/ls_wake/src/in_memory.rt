//! Connections in memory, which call no bell.
ghost use Rattle.std.specs.Prelude.{◌≡◌, false};

use crate::wakes::Wakes;
use ls_bell::Bell;
use ls_outside::{Liar, MemPipe, PlainPipe};
use ls_talk::{MemTalk, PlainTalk};
use std::alloc::Global;
use std::sync::Arc;

impl Wakes for MemPipe {
    fn wake_with(&self, _: &Arc<Bell, Global>) -> bool
        ensures { result ≡ false }
    {
        false
    }
}

impl Wakes for PlainPipe {
    fn wake_with(&self, _: &Arc<Bell, Global>) -> bool
        ensures { result ≡ false }
    {
        false
    }
}

impl Wakes for Liar {
    fn wake_with(&self, _: &Arc<Bell, Global>) -> bool
        ensures { result ≡ false }
    {
        false
    }
}

impl Wakes for MemTalk {
    fn wake_with(&self, _: &Arc<Bell, Global>) -> bool
        ensures { result ≡ false }
    {
        false
    }
}

impl Wakes for PlainTalk {
    fn wake_with(&self, _: &Arc<Bell, Global>) -> bool
        ensures { result ≡ false }
    {
        false
    }
}
