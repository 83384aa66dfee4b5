//! The buffer of a slot in mode DISTINCT.
ghost use Rattle.std.specs.Prelude.{◌≡◌, ◌+◌, ◌-◌, ◌<◌, ◌≤◌, ℕ, List, Option, IfOk, OnOk, OnErr, IsSome};
ghost use Rattle.std.specs.Prelude.{length, drop, is_some};
ghost use Rattle.ls_value.specs.declared.row.Value.{Value as FieldValue};
ghost use Rattle.ls_value.specs.declared.limits.TheConstants.{GREATEST_NUMBER};
ghost use Rattle.ls_event.specs.Slots.{Plan};
ghost use Rattle.ls_event.specs.declared.limits.TheConstants.{MOST_BUFFER_SIZE};
ghost use Rattle.ls_event.specs.Updates.{last_of, own_row as own_row_of};
ghost use Rattle.ls_event.specs.OwnCuts.{row_taken};
ghost use Rattle.ls_event.specs.declared.event.Entry.{Entry};
ghost use Rattle.ls_distinct.specs.Distinct.{StandsDistinct, IsJoining, IsSnapshotOf, IsOfDistinct, distinct_rows};
ghost use Rattle.ls_distinct.specs.Distinct.{distinct_joining, distinct_joined_slot, distinct_head, distinct_after};
ghost use Rattle.ls_distinct.specs.Distinct.{distinct_passed, distinct_is_pending, distinct_ended, row_passed};
ghost use Rattle.ls_distinct.specs.Distinct.{distinct_updated};

use circular_buffer::HeapCircularBuffer;
use ls_event::{Event, OwnRow, Snapshot, Taken, own_row};
use ls_ring::push;
use ls_value::{NoMemory, Row};
use std::alloc::Global;
use std::marker::Model;

/// What a slot in mode DISTINCT still has to tell: the rows of the snapshot that are owed and its end, the last Clear,
/// and the last n updates since then, each with its own row. It keeps the allocator that `new` took, for all that its
/// later calls take.
#[derive(Drop)]
pub struct DistinctBuffer {
    alloc: Global,
    size: usize,
    base: u64,
    last: u64,
    cursor: u64,
    ends: bool,
    cleared: Option<u64>,
    rows: Vec<Row>,
    passed: usize,
    kept: HeapCircularBuffer<OwnRow>,
}

impl Model for DistinctBuffer {
    ghost use Rattle.std.specs.Prelude.{◌<◌, ◌≤◌, drop, length};
    ghost use Rattle.ls_distinct.specs.Distinct.{Distinct};

    ghost Value = { Distinct };

    ghost view = { λ b. record {
      size = b.size;
      base = b.base;
      last = b.last;
      cursor = b.cursor;
      ends = b.ends;
      cleared = b.cleared;
      rows = drop b.passed b.rows.items;
      kept = b.kept.items;
    } };

    ghost invariant = { λ b. (0 < b.size) × (b.kept.capacity ≤ b.size) × (b.passed ≤ length b.rows.items) };
}

impl DistinctBuffer {
    /// The buffer of a slot of size n, from 1 to [`ls_event::MOST_BUFFER_SIZE`], that joins where the item has `base`
    /// events: with the last `rows` rows of the item's snapshot and its end, or without one. Room for updates is taken
    /// as they come.
    pub fn new(
        alloc: Global,
        base: u64,
        n: u32,
        first: Option<Snapshot>,
        rows: u32,
    ) -> Result<DistinctBuffer, NoMemory>
        requires some { 0 < n }
        requires most { n ≤ MOST_BUFFER_SIZE }
        requires kind { IsOfDistinct first }
        requires enough { rows ≤ length (distinct_rows first) }
        ensures ok { IfOk result (λ b. b ≡ distinct_joining base n first rows) }

        // It stands for a fresh slot at that number, where the snapshot is the item's state.
        ensures stands { IfOk result (λ b. (p : Plan) (h : List Entry) → IsJoining base n p h
            → IsSnapshotOf h first rows → StandsDistinct b (distinct_joined_slot p first rows) h) }
    {
        let kept = HeapCircularBuffer::with_capacity(alloc, 0)?;
        let ends = first.is_some();
        let all = rows_from(alloc, first);
        let passed = all.len() - rows as usize;
        Ok(DistinctBuffer {
            alloc,
            size: n as usize,
            base,
            last: base,
            cursor: base,
            ends,
            cleared: None,
            rows: all,
            passed,
            kept,
        })
    }

    /// The number that was enqueued last; at first the item's number at joining.
    pub fn last(&self) -> u64
        ensures { result ≡ self.now.last }
    {
        self.last
    }

    /// Whether a row of the snapshot, its end or an event is in a cut to come.
    pub fn pending(&self) -> bool
        ensures { result ≡ distinct_is_pending self.now }
    {
        self.passed < self.rows.len() || self.ends || self.cursor < self.last
    }

    /// How many updates wait.
    pub fn waiting(&self) -> u64
        ensures { result ≡ length self.now.kept }
    {
        self.kept.len() as u64
    }

    /// Takes the event of the next number. After `NoMemory` it is as before.
    pub fn enqueue(&mut self, event: &Event) -> Result<(), NoMemory>
        requires { self.old.last < GREATEST_NUMBER }
        ensures ok { OnOk result (self.new ≡ distinct_after self.old event.now) }
        ensures err { OnErr result (self.new ≡ self.old) }
    {
        match event {
            Event::Update(cells) => self.keep(own_row(self.alloc, cells)?),
            Event::Clear => {
                self.last += 1;
                self.cleared = Some(self.last);
                self.kept.clear();
                Ok(())
            }
        }
    }

    /// Keeps the own row of the update of the next number.
    fn keep(&mut self, row: Row) -> Result<(), NoMemory>
        requires { self.old.last < GREATEST_NUMBER }
        ensures ok { OnOk result (self.new ≡ distinct_updated self.old row) }
        ensures err { OnErr result (self.new ≡ self.old) }
    {
        let no = self.last + 1;
        let _lost = push(&mut self.kept, OwnRow { row, no }, self.size)?;
        self.last = no;
        Ok(())
    }

    /// The next cut: where a Clear came, the snapshot's end, if it is owed, and then the Clear; else the next row of
    /// the snapshot, its end, or the own row of the first update that is kept. `None` where there is nothing of these.
    pub fn look(&self) -> Result<Option<Taken>, NoMemory>
        ensures { IfOk result (λ t. t ≡ distinct_head self.now) }
    {
        if let Some(upto) = self.cleared {
            if self.ends {
                return Ok(Some(Taken::EndOfSnapshot));
            }
            return Ok(Some(Taken::Cleared { upto }));
        }
        if self.passed < self.rows.len() {
            return Ok(Some(Taken::Row {
                row: self.rows[self.passed].copy(self.alloc)?,
                upto: self.base,
            }));
        }
        if self.ends {
            return Ok(Some(Taken::EndOfSnapshot));
        }
        match self.kept.front() {
            None => Ok(None),
            Some(own) => Ok(Some(Taken::Row {
                row: own.row.copy(self.alloc)?,
                upto: own.no,
            })),
        }
    }

    /// Moves past the next cut, of which there is one. It takes no memory.
    pub fn pass(&mut self)
        requires { IsSome (distinct_head self.old) }
        ensures { self.new ≡ distinct_passed self.old }
    {
        if let Some(upto) = self.cleared {
            if self.ends {
                self.end();
                return;
            }
            self.cursor = upto;
            self.cleared = None;
            return;
        }
        if self.passed < self.rows.len() {
            self.pass_row();
            return;
        }
        if self.ends {
            self.end();
            return;
        }
        if let Some(own) = self.kept.pop_front() {
            self.cursor = own.no;
        }
    }

    /// Moves past the next row of the snapshot.
    #[tactic(auto, using(crate::proofs::Dropped::dropped_more))]
    fn pass_row(&mut self)
        requires { 0 < length self.old.rows }
        ensures { self.new ≡ row_passed self.old }
    {
        self.passed += 1;
        self.cursor = self.base;
    }

    /// The snapshot has ended: no row of it is owed any more.
    fn end(&mut self)
        ensures { self.new ≡ distinct_ended self.old }
    {
        self.ends = false;
        self.rows.clear();
        self.passed = 0;
    }
}

/// The rows of a snapshot of mode DISTINCT, and none where there is no snapshot.
fn rows_from(alloc: Global, first: Option<Snapshot>) -> Vec<Row>
    ensures { result.items ≡ distinct_rows first }
{
    match first {
        Some(Snapshot::Distinct(rows)) => rows.into_vec(),
        _ => Vec::new(alloc),
    }
}
