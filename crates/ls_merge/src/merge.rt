//! The buffer of a slot in mode MERGE of every size.
ghost use Rattle.std.specs.Prelude.{◌≡◌, ◌+◌, ◌-◌, ◌<◌, ◌≤◌, ◌&&◌, ℕ, List, [], true, false, Option, None, Some};
ghost use Rattle.std.specs.Prelude.{IfOk, OnOk, OnErr, IsSome, IsTrue, All, take, drop, length, replicate, nat_lt, if◌then◌else◌};
ghost use Rattle.ls_value.specs.declared.limits.TheConstants.{GREATEST_NUMBER};
ghost use Rattle.ls_event.specs.declared.limits.TheConstants.{MOST_BUFFER_SIZE};
ghost use Rattle.ls_event.specs.History.{HasFields};
ghost use Rattle.ls_event.specs.Slots.{Plan, fresh};
ghost use Rattle.ls_event.specs.Cuts.{Fits, flagged_cells};
ghost use Rattle.ls_event.specs.declared.event.Entry.{Entry};
ghost use Rattle.ls_merge.specs.Merge.{StandsMerge, IsJoining, due, is_over, merge_is_pending, merge_change};
ghost use Rattle.ls_merge.specs.Merge.{merge_head, merge_passed, merge_after, within_size};
ghost use Rattle.ls_merge.specs.Runs.{merge_run};

use crate::cells::{cells_at, cells_with, clear_flags, flags, merge, said_cells};
use crate::runs::said_but_last;
use ls_event::{Event, Stored, Taken};
use ls_value::{Cells, NoMemory, Row};
use std::alloc::Global;
use std::collections::VecDeque;
use std::marker::Model;

/// What a slot in mode MERGE still has to tell: the item's merged state at one of its numbers, which of its fields the
/// next line tells, and what each later event says. Once there are more of these than the size, the first one is merged
/// into the state. It keeps the allocator that `new` took, for all that its later calls take.
#[derive(Drop)]
pub struct MergeBuffer {
    alloc: Global,
    size: u32,
    last: u64,
    owed: bool,
    row: Row,
    touched: Vec<bool>,
    later: VecDeque<Cells>,
}

impl Model for MergeBuffer {
    ghost use Rattle.ls_merge.specs.Merge.{Merge, IsSoundMerge};

    ghost Value = { Merge };

    ghost view = { λ b. record {
      size = b.size;
      last = b.last;
      owed = b.owed;
      row = b.row;
      touched = b.touched.items;
      later = b.later.items;
    } };

    ghost invariant = { λ b. IsSoundMerge (record {
      size = b.size;
      last = b.last;
      owed = b.owed;
      row = b.row;
      touched = b.touched.items;
      later = b.later.items;
    }) };
}

impl MergeBuffer {
    /// The buffer of size `n`, from 1 to [`ls_event::MOST_BUFFER_SIZE`], of a slot that joins where the item has
    /// `base` events, which made this merged state. Where the state is owed and there is an event, the first line
    /// tells it. Room for later events is taken as they come.
    pub fn new(
        alloc: Global,
        base: u64,
        n: u32,
        state: Row,
        owed: bool,
    ) -> Result<MergeBuffer, NoMemory>
        requires some { 0 < n }
        requires cap { n ≤ MOST_BUFFER_SIZE }
        ensures ok { IfOk result (λ b. b ≡ record {
          size = n;
          last = base;
          owed = owed && nat_lt 0 base;
          row = state;
          touched = replicate (length state) true;
          later = [];
        }) }

        // It stands for a fresh slot at that number, or with a snapshot at the one before.
        ensures stands { IfOk result (λ b. (p : Plan) (h : List Entry) → IsJoining n base state p h
            → StandsMerge b (fresh p (if owed then base - 1 else base)) h) }
    {
        let touched = flags(alloc, state.len(), true)?;
        Ok(MergeBuffer {
            alloc,
            size: n,
            last: base,
            owed: is_owed(owed, base),
            row: state,
            touched,
            later: VecDeque::new(alloc),
        })
    }

    /// The number of fields.
    pub fn fields(&self) -> usize
        ensures { result ≡ length self.now.row }
    {
        self.row.len()
    }

    /// The number that was enqueued last; at first the item's number at joining.
    pub fn last(&self) -> u64
        ensures { result ≡ self.now.last }
    {
        self.last
    }

    /// Whether the state or an event is in a cut to come.
    pub fn pending(&self) -> bool
        ensures { result ≡ merge_is_pending self.now }
    {
        self.owed || self.later.len() > 0
    }

    /// How many updates wait.
    pub fn waiting(&self) -> u64
        ensures { result ≡ length self.now.later }
    {
        self.later.len() as u64
    }

    /// Takes the event of the next number, which has a cell for each field. After `NoMemory` it is as before.
    pub fn enqueue(&mut self, event: &Event) -> Result<(), NoMemory>
        requires few { self.old.last < GREATEST_NUMBER }
        requires fields { HasFields (length self.old.row) event.now }
        ensures ok { OnOk result (self.new ≡ merge_after self.old event.now) }
        ensures err { OnErr result (self.new ≡ self.old) }
    {
        let said = said_cells(self.alloc, event, self.row.len())?;
        self.later.push_back(said)?;
        self.last += 1;
        self.merge_first();
        Ok(())
    }

    /// Takes the events from an index on, which are those of the next numbers and have a cell for each field, as `enqueue`
    /// does one after another, but copies a field's text once. Answers how many it took: all of them where the size is 1,
    /// and else none. After `NoMemory` it is as before.
    pub fn enqueue_run(&mut self, events: &VecDeque<Stored>, from: usize) -> Result<usize, NoMemory>
        requires few { self.old.last + (length events.now.items - from) ≤ GREATEST_NUMBER }
        requires fields { All (λ x. HasFields (length self.old.row) x.event) (drop from events.now.items) }
        ensures took { IfOk result (λ n. self.new ≡ merge_run self.old (take n (drop from events.now.items))) }
        ensures most { IfOk result (λ n. n ≤ length events.now.items - from) }
        ensures err { OnErr result (self.new ≡ self.old) }
    {
        let count = events.len();
        if from >= count || !self.is_single() {
            return Ok(0);
        }
        let fields = self.row.len();
        let last = said_cells(self.alloc, &events[count - 1].event, fields)?;
        let others = said_but_last(self.alloc, events, from, fields)?;
        self.later.push_back(last)?;
        self.last += (count - from) as u64;
        self.merge_first();
        merge(&mut self.row, &mut self.touched, others);
        Ok(count - from)
    }

    /// Whether its size is 1, and it holds no more.
    fn is_single(&self) -> bool
        ensures { IsTrue result → (self.now.size ≡ 1) × (is_over self.now ≡ false) }
    {
        self.size == 1 && !self.is_over()
    }

    /// Merges the first event into the state, where there are more than the size.
    fn merge_first(&mut self)
        ensures { self.new ≡ within_size self.old }
    {
        if self.is_over() {
            self.step();
        }
    }

    /// Whether there are more events than the size, where an owed state counts as one.
    fn is_over(&self) -> bool
        ensures { result ≡ is_over self.now }
    {
        let state = if self.owed { 1 } else { 0 };
        self.waiting() + state > self.size as u64
    }

    /// Moves to the state and the flags of the next cut.
    fn step(&mut self)
        ensures { self.new ≡ due self.old }
    {
        if self.owed {
            self.owed = false;
            return;
        }
        if let Some(said) = self.later.pop_front() {
            merge(&mut self.row, &mut self.touched, said);
        }
    }

    /// The next cut: the merged values of the fields that the events since the last line touched, and of every field
    /// before the first line. `None` where nothing is pending.
    pub fn look(&self) -> Result<Option<Taken>, NoMemory>
        ensures head { IfOk result (λ t. t ≡ merge_head self.now) }
        ensures fits { IfOk result (Fits (length self.now.row)) }
    {
        if !self.pending() {
            return Ok(None);
        }
        let cells = self.next_cells()?;
        let upto = self.next_number();
        Ok(Some(Taken::Change { cells, upto }))
    }

    /// The cells of the next cut.
    fn next_cells(&self) -> Result<Cells, NoMemory>
        ensures cells { IfOk result (λ cells. cells ≡ flagged_cells (due self.now).touched (due self.now).row) }
        ensures fields { IfOk result (λ cells. length cells ≡ length self.now.row) }
    {
        let row = self.row.as_slice();
        if self.owed {
            return Ok(Cells::of(cells_at(self.alloc, &self.touched, row)?));
        }
        match self.later.front() {
            None => Ok(Cells::of(cells_at(self.alloc, &self.touched, row)?)),
            Some(said) => Ok(Cells::of(cells_with(
                self.alloc,
                &self.touched,
                row,
                said.as_slice(),
            )?)),
        }
    }

    /// The number of the next cut.
    fn next_number(&self) -> u64
        ensures { result ≡ self.now.last - length (due self.now).later }
    {
        let waiting = self.waiting();
        if self.owed {
            return self.last.saturating_sub(waiting);
        }
        self.last.saturating_sub(waiting.saturating_sub(1))
    }

    /// Moves past the next cut, of which there is one. It takes no memory.
    pub fn pass(&mut self)
        requires { IsSome (merge_head self.old) }
        ensures { self.new ≡ merge_passed self.old }
    {
        self.step();
        clear_flags(&mut self.touched);
    }
}

/// Whether a state is owed: it is asked for, and there is an event.
fn is_owed(owed: bool, base: u64) -> bool
    ensures { result ≡ (owed && nat_lt 0 base) }
{
    owed && base > 0
}
