//! The buffer of mode MERGE and its plain program.

use super::{Draws, history, same_cut, upto};
use ls_event::{Entry, MOST_BUFFER_SIZE, Taken};
use ls_merge::MergeBuffer;
use ls_plain::{MergeSlot, all_fit, fits, merged_row, plain_merge_cut};
use std::alloc::Global;
use std::test::Fail;

/// A slot of mode MERGE, by its buffer and by its history.
#[derive(Drop)]
struct MergeRun {
    history: Vec<Entry>,
    buffer: MergeBuffer,
    size: u64,
    cursor: u64,
    has_started: bool,
}

/// A drawn slot of mode MERGE, which joins a drawn history.
fn drawn_slot(alloc: Global, draws: &mut Draws) -> Result<MergeRun, Fail> {
    let history = history(alloc, draws, 12)?;
    let (base, size, owed) = (
        draws.below(5),
        draws.below(4) as u32 + 1,
        draws.below(2) == 0,
    );
    if base as usize > history.len() || size == 0 || size as usize > MOST_BUFFER_SIZE {
        return Err(Fail::new("no such slot"));
    }
    if all_fit(&history, 2) {
        let state = merged_row(alloc, 2, &history, base as usize)?;
        let buffer = MergeBuffer::new(alloc, base, size, state, owed)?;
        return Ok(MergeRun {
            history,
            buffer,
            size: size as u64,
            cursor: if owed { base.saturating_sub(1) } else { base },
            has_started: false,
        });
    }
    Err(Fail::new("no such slot"))
}

impl MergeRun {
    /// The next cut, from the whole history.
    fn plain(&self, alloc: Global) -> Result<Option<Taken>, Fail> {
        let last = self.buffer.last();
        if last > self.history.len() as u64 || self.size == 0 {
            return Err(Fail::new("no such slot"));
        }
        if all_fit(&self.history, 2) {
            let slot = MergeSlot {
                fields: 2,
                size: self.size,
                last,
                cursor: self.cursor,
                has_started: self.has_started,
            };
            return Ok(plain_merge_cut(alloc, &self.history, &slot)?);
        }
        Err(Fail::new("no such slot"))
    }

    /// Enqueues the next event, where there is one.
    fn enqueue(&mut self) -> Result<(), Fail> {
        let last = self.buffer.last();
        if last >= self.history.len() as u64 || last >= 1000 {
            return Ok(());
        }
        let event = &self.history[last as usize].event;
        if fits(event, self.buffer.fields()) {
            return Ok(self.buffer.enqueue(event)?);
        }
        Err(Fail::new("no such event"))
    }

    /// Whether the next cut is that of the plain program; it is passed.
    fn agrees(&mut self, alloc: Global) -> Result<bool, Fail> {
        let plain = self.plain(alloc)?;
        let taken = ls_event::take_one(&mut self.buffer)?;
        if let Some(taken) = &taken {
            self.cursor = upto(taken);
            self.has_started = true;
        }
        Ok(same_cut(&plain, &taken))
    }
}

/// Whether a drawn slot's cuts are those of the plain program.
fn merge_agrees(alloc: Global, draws: &mut Draws) -> Result<bool, Fail> {
    let mut slot = drawn_slot(alloc, draws)?;
    for _ in 0..30 {
        if draws.below(3) > 0 {
            slot.enqueue()?;
        } else if !slot.agrees(alloc)? {
            return Ok(false);
        }
    }
    Ok(true)
}

#[test]
fn merge_buffers_give_the_cuts_of_the_plain_program(rt: HostRuntime) -> Result<(), Fail> {
    let alloc = rt.alloc();
    let mut draws = Draws { state: 20_260_101 };
    for i in 0..600 {
        assert!(rt; merge_agrees(alloc, &mut draws)?, "in history {i}");
    }
    Ok(())
}
