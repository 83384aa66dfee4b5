//! The buffer of mode RAW and its plain program.

use super::{Draws, history, same_cut, upto};
use ls_event::Entry;
use ls_plain::plain_raw_cut;
use ls_raw::RawBuffer;
use std::alloc::Global;
use std::test::Fail;

/// A slot of mode RAW, by its buffer and by its history.
#[derive(Drop)]
struct RawRun {
    history: Vec<Entry>,
    buffer: RawBuffer,
    cursor: u64,
}

impl RawRun {
    /// Enqueues the next event, where there is one.
    fn enqueue(&mut self) -> Result<(), Fail> {
        let last = self.buffer.last();
        if last >= self.history.len() as u64 || last >= 1000 {
            return Ok(());
        }
        Ok(self.buffer.enqueue(&self.history[last as usize].event)?)
    }

    /// Enqueues so many events.
    fn enqueue_all(&mut self, times: u64) -> Result<(), Fail> {
        for _ in 0..times {
            self.enqueue()?;
        }
        Ok(())
    }

    /// Whether the next cut is that of the plain program; it is passed.
    fn agrees(&mut self, alloc: Global) -> Result<bool, Fail> {
        let last = self.buffer.last();
        if last > self.history.len() as u64 || self.cursor > last {
            return Err(Fail::new("no such slot"));
        }
        let plain = plain_raw_cut(alloc, &self.history, last, self.cursor)?;
        let taken = ls_event::take_one(&mut self.buffer)?;
        if let Some(taken) = &taken {
            self.cursor = upto(taken);
        }
        Ok(same_cut(&plain, &taken))
    }
}

/// Whether a drawn slot's cuts are those of the plain program, where up to so many events are enqueued at once.
fn raw_agrees(alloc: Global, draws: &mut Draws, events: u64, burst: u64) -> Result<bool, Fail> {
    let history = history(alloc, draws, events)?;
    let base = draws.below(5);
    let mut slot = RawRun {
        history,
        buffer: RawBuffer::new(alloc, base)?,
        cursor: base,
    };
    for _ in 0..10 {
        let times = draws.below(burst);
        slot.enqueue_all(times)?;
        if !slot.agrees(alloc)? || !slot.agrees(alloc)? {
            return Ok(false);
        }
    }
    Ok(true)
}

#[test]
fn raw_buffers_give_the_cuts_of_the_plain_program(rt: HostRuntime) -> Result<(), Fail> {
    let alloc = rt.alloc();
    let mut draws = Draws { state: 20_260_102 };
    for i in 0..600 {
        let (events, burst) = if i % 20 == 0 { (800, 400) } else { (16, 8) };
        assert!(rt;
            raw_agrees(alloc, &mut draws, events, burst)?,
            "in history {i}"
        );
    }
    Ok(())
}
