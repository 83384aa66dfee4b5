//! The buffer of a slot in mode RAW.
ghost use Rattle.std.specs.Prelude.{◌≡◌, ◌+◌, ◌-◌, ◌<◌, ◌≤◌, ℕ, List, [], IfOk, OnOk, OnErr, IsSome, length, nat_lt};
ghost use Rattle.ls_value.specs.declared.limits.TheConstants.{GREATEST_NUMBER};
ghost use Rattle.ls_event.specs.Slots.{Plan, fresh};
ghost use Rattle.ls_event.specs.OwnCuts.{raw_taken};
ghost use Rattle.ls_event.specs.Updates.{own_row};
ghost use Rattle.ls_event.specs.declared.event.Entry.{Entry};
ghost use Rattle.ls_raw.specs.Raw.{StandsRaw, IsJoining, raw_head, raw_after, raw_passed, raw_first_no, raw_updated};

use circular_buffer::HeapCircularBuffer;
use ls_event::{Event, OwnRow, RAW_KEEPS, Taken, own_row};
use ls_ring::push;
use ls_value::{NoMemory, Row};
use std::alloc::Global;
use std::marker::Model;

/// What a slot in mode RAW still has to tell: the last [`RAW_KEEPS`] updates, each with its own row, and how many older
/// ones were lost. It keeps the allocator that `new` took, for all that its later calls take.
#[derive(Drop)]
pub struct RawBuffer {
    alloc: Global,
    kept: HeapCircularBuffer<OwnRow>,
    lost: u64,
    cursor: u64,
    last: u64,
}

impl Model for RawBuffer {
    ghost use Rattle.std.specs.Prelude.{◌≤◌};
    ghost use Rattle.ls_event.specs.declared.limits.TheConstants.{RAW_KEEPS as AS_MANY};
    ghost use Rattle.ls_raw.specs.Raw.{Raw};

    ghost Value = { Raw };

    ghost view = { λ b. record { kept = b.kept.items; lost = b.lost; cursor = b.cursor; last = b.last } };

    ghost invariant = { λ b. (b.kept.capacity ≤ AS_MANY) × (b.lost ≤ b.last) };
}

impl RawBuffer {
    /// The buffer of a slot that joins where the item has `base` events. Room for updates is taken as they come.
    pub fn new(alloc: Global, base: u64) -> Result<RawBuffer, NoMemory>
        ensures ok { IfOk result (λ b. b ≡ record { kept = []; lost = 0; cursor = base; last = base }) }

        // It stands for a fresh slot at that number.
        ensures stands { IfOk result (λ b. (p : Plan) (h : List Entry) → IsJoining base p h
            → StandsRaw b (fresh p base) h) }
    {
        let kept = HeapCircularBuffer::with_capacity(alloc, 0)?;
        Ok(RawBuffer {
            alloc,
            kept,
            lost: 0,
            cursor: base,
            last: base,
        })
    }

    /// The number that was enqueued last; at first the item's number at joining.
    pub fn last(&self) -> u64
        ensures { result ≡ self.now.last }
    {
        self.last
    }

    /// Whether an event is enqueued that no cut took; a Clear counts too.
    pub fn pending(&self) -> bool
        ensures { result ≡ nat_lt self.now.cursor self.now.last }
    {
        self.cursor < self.last
    }

    /// How many updates wait.
    pub fn waiting(&self) -> u64
        ensures { result ≡ length self.now.kept }
    {
        self.kept.len() as u64
    }

    /// Takes the event of the next number. After `NoMemory` it is as before.
    pub fn enqueue(&mut self, event: &Event) -> Result<(), NoMemory>
        requires { self.old.last < GREATEST_NUMBER }
        ensures ok { OnOk result (self.new ≡ raw_after self.old event.now) }
        ensures err { OnErr result (self.new ≡ self.old) }
    {
        match event {
            Event::Update(cells) => self.keep(own_row(self.alloc, cells)?),
            Event::Clear => {
                self.last += 1;
                Ok(())
            }
        }
    }

    /// Keeps the own row of the update of the next number.
    fn keep(&mut self, row: Row) -> Result<(), NoMemory>
        requires { self.old.last < GREATEST_NUMBER }
        ensures ok { OnOk result (self.new ≡ raw_updated self.old row) }
        ensures err { OnErr result (self.new ≡ self.old) }
    {
        let no = self.last + 1;
        if push(&mut self.kept, OwnRow { row, no }, RAW_KEEPS)? {
            self.lost += 1;
        }
        self.last = no;
        Ok(())
    }

    /// The next cut: how many updates were lost, where some were, and else the own row of the first that is kept.
    /// `None` where no update is kept.
    pub fn look(&self) -> Result<Option<Taken>, NoMemory>
        ensures { IfOk result (λ t. t ≡ raw_head self.now) }
    {
        match self.kept.front() {
            None => Ok(None),
            Some(own) => {
                let taken = taken_of(self.alloc, own, self.lost)?;
                Ok(Some(taken))
            }
        }
    }

    /// Moves past the next cut, of which there is one. It takes no memory.
    pub fn pass(&mut self)
        requires { IsSome (raw_head self.old) }
        ensures { self.new ≡ raw_passed self.old }
    {
        let no = self.raw_first_no();
        if self.lost > 0 {
            self.lost = 0;
            self.cursor = no.saturating_sub(1);
        } else {
            let _taken = self.kept.pop_front();
            self.cursor = no;
        }
    }

    /// The number of the first update that is kept, 0 where none is.
    fn raw_first_no(&self) -> u64
        ensures { result ≡ raw_first_no self.now }
    {
        match self.kept.front() {
            None => 0,
            Some(own) => own.no,
        }
    }
}

/// The cut of the first update that is kept, where so many before it were lost.
fn taken_of(alloc: Global, own: &OwnRow, lost: u64) -> Result<Taken, NoMemory>
    ensures { IfOk result (λ t. t ≡ raw_taken lost own.now) }
{
    if lost > 0 {
        return Ok(Taken::Lost {
            count: lost,
            upto: own.no.saturating_sub(1),
        });
    }
    Ok(Taken::Row {
        row: own.row.copy(alloc)?,
        upto: own.no,
    })
}
