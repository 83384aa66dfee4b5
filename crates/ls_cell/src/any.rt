//! The buffer of a slot in any mode.
ghost use Rattle.std.specs.Prelude.{◌≡◌, ◌≤◌, ◌+◌, ◌-◌, ℕ, List, IfOk, OnOk, OnErr, All, length, take, drop};
ghost use Rattle.ls_value.specs.declared.limits.TheConstants.{GREATEST_NUMBER};
ghost use Rattle.ls_event.specs.declared.event.Entry.{Entry};
ghost use Rattle.ls_event.specs.declared.event.Event.{Event};
ghost use Rattle.ls_event.specs.Slots.{Slot};
ghost use Rattle.ls_merge.specs.Runs.{IsRun};
ghost use Rattle.ls_cell.specs.Any.{any_last, AnyAdmits, HasAnyFields, StandsAny};

use ls_command::CommandBuffer;
use ls_distinct::DistinctBuffer;
use ls_event::{Buffer, Stored, Taken};
use ls_merge::MergeBuffer;
use ls_raw::RawBuffer;
use ls_value::NoMemory;
use std::collections::VecDeque;

/// The buffer of a slot, by its mode.
#[derive(Drop)]
pub enum AnyBuffer {
    Raw(RawBuffer),
    Merge(MergeBuffer),
    Distinct(DistinctBuffer),
    Command(CommandBuffer),
}

impl AnyBuffer {
    /// The number that was enqueued last; at first the item's number at joining.
    pub fn last(&self) -> u64
        ensures { result ≡ any_last self.now }
    {
        match self {
            AnyBuffer::Raw(buffer) => buffer.last(),
            AnyBuffer::Merge(buffer) => buffer.last(),
            AnyBuffer::Distinct(buffer) => buffer.last(),
            AnyBuffer::Command(buffer) => buffer.last(),
        }
    }

    /// Takes the events from an index on, which are those of the next numbers, all at once, where it can. Answers how many
    /// it took. After `NoMemory` it is as before.
    pub fn enqueue_run(&mut self, events: &VecDeque<Stored>, from: usize) -> Result<usize, NoMemory>
        requires few { any_last self.old + (length events.now.items - from) ≤ GREATEST_NUMBER }
        requires admits { All (λ x. AnyAdmits self.old x.event) (drop from events.now.items) }
        ensures most { IfOk result (λ n. n ≤ length events.now.items - from) }
        ensures last { IfOk result (λ n. any_last self.new ≡ any_last self.old + n) }
        ensures fields { OnOk result ((m : ℕ) → HasAnyFields self.old m → HasAnyFields self.new m) }
        ensures admits { OnOk result ((e : Event) → AnyAdmits self.old e → AnyAdmits self.new e) }
        ensures stands { IfOk result (λ n. (s : Slot) (h : List Entry) → StandsAny self.old s h
            → IsRun s h (take n (drop from events.now.items))
            → StandsAny self.new (record s { last = s.last + n }) h) }
        ensures err { OnErr result (self.new ≡ self.old) }
    {
        match self {
            AnyBuffer::Merge(buffer) => {
                let taken = buffer.enqueue_run(events, from)?;
                Ok(taken)
            }
            AnyBuffer::Raw(_) | AnyBuffer::Distinct(_) | AnyBuffer::Command(_) => Ok(0),
        }
    }
}

impl Buffer for AnyBuffer {
    ghost use Rattle.ls_cell.specs.Any.{StandsAny, any_last as any_last_number, HasAnyFields, AnyAdmits, any_cut};
    ghost use Rattle.ls_cell.specs.Any.{any_pending, any_waiting, any_cut_is, any_pending_is, any_waiting_is};
    ghost use Rattle.ls_cell.specs.Any.{any_last_is, any_longer};

    ghost stands = { StandsAny };

    ghost last = { any_last_number };

    ghost has_fields = { HasAnyFields };

    ghost admits = { AnyAdmits };

    ghost head = { any_cut };

    ghost is_pending = { any_pending };

    ghost waiting_count = { any_waiting };

    ghost head_is_cut = { any_cut_is };

    ghost pending_is = { any_pending_is };

    ghost waiting_is = { any_waiting_is };

    ghost last_is = { any_last_is };

    ghost longer = { any_longer };

    fn enqueue(&mut self, event: &Stored) -> Result<(), NoMemory> {
        match self {
            AnyBuffer::Raw(buffer) => Buffer::enqueue(buffer, event),
            AnyBuffer::Merge(buffer) => Buffer::enqueue(buffer, event),
            AnyBuffer::Distinct(buffer) => Buffer::enqueue(buffer, event),
            AnyBuffer::Command(buffer) => Buffer::enqueue(buffer, event),
        }
    }

    fn look(&self) -> Result<Option<Taken>, NoMemory> {
        match self {
            AnyBuffer::Raw(buffer) => Buffer::look(buffer),
            AnyBuffer::Merge(buffer) => Buffer::look(buffer),
            AnyBuffer::Distinct(buffer) => Buffer::look(buffer),
            AnyBuffer::Command(buffer) => Buffer::look(buffer),
        }
    }

    fn pass(&mut self) {
        match self {
            AnyBuffer::Raw(buffer) => Buffer::pass(buffer),
            AnyBuffer::Merge(buffer) => Buffer::pass(buffer),
            AnyBuffer::Distinct(buffer) => Buffer::pass(buffer),
            AnyBuffer::Command(buffer) => Buffer::pass(buffer),
        }
    }

    fn pending(&self) -> bool {
        match self {
            AnyBuffer::Raw(buffer) => Buffer::pending(buffer),
            AnyBuffer::Merge(buffer) => Buffer::pending(buffer),
            AnyBuffer::Distinct(buffer) => Buffer::pending(buffer),
            AnyBuffer::Command(buffer) => Buffer::pending(buffer),
        }
    }

    fn waiting(&self) -> u64 {
        match self {
            AnyBuffer::Raw(buffer) => Buffer::waiting(buffer),
            AnyBuffer::Merge(buffer) => Buffer::waiting(buffer),
            AnyBuffer::Distinct(buffer) => Buffer::waiting(buffer),
            AnyBuffer::Command(buffer) => Buffer::waiting(buffer),
        }
    }
}
