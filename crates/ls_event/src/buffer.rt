//! What a slot keeps of the events that it enqueued, in any mode.
ghost use Rattle.std.specs.Prelude.{◌≡◌, ◌+◌, ◌<◌, ℕ, List, ◌++◌, Bool, Option, Some, IfOk, OnOk, OnErr, IsSome};
ghost use Rattle.ls_value.specs.declared.limits.TheConstants.{GREATEST_NUMBER};
ghost use Rattle.ls_event.specs.Slots.{Slot, IsNext, enqueued, passed};
ghost use Rattle.ls_event.specs.History.{HasFields, RowFits};
ghost use Rattle.ls_event.specs.Cuts.{cut, is_pending as slot_is_pending, waiting_count as slot_waiting_count, Fits};
ghost use Rattle.ls_event.specs.declared.event.Entry.{Entry};
ghost use Rattle.ls_event.specs.declared.event.Event.{Event as AnEvent};
ghost use Rattle.ls_event.specs.declared.event.Taken.{Taken};

use crate::event::{Stored, Taken};
use ls_value::NoMemory;

/// The buffer of a slot: the events that were enqueued and that no cut took, as far as the slot's mode keeps them.
/// It keeps the allocator that its constructor took, and its calls take none.
pub trait Buffer {
    /// The slots and histories that it stands for.
    ghost stands: { Self → Slot → List Entry → Type 0 };

    /// The number that was enqueued last.
    ghost last: { Self → ℕ };

    /// The numbers of fields that the item may have, by the rows that it keeps.
    ghost has_fields: { Self → ℕ → Type 0 };

    /// What an event must be to be enqueued.
    ghost admits: { Self → AnEvent → Type 0 };

    /// Its next cut, where there is one.
    ghost head: { Self → Option Taken };

    /// Whether it is pending.
    ghost is_pending: { Self → Bool };

    /// How many updates wait.
    ghost waiting_count: { Self → ℕ };

    /// Takes the event of the next number. After `NoMemory` it is as before.
    fn enqueue(&mut self, event: &Stored) -> Result<(), NoMemory>
        requires next { event.now.no ≡ last self.old + 1 }
        requires few { last self.old < GREATEST_NUMBER }
        requires event { admits self.old event.now.event }
        ensures last { OnOk result (last self.new ≡ last self.old + 1) }
        ensures fields { OnOk result ((n : ℕ) → has_fields self.old n → HasFields n event.now.event
            → RowFits n event.now.after → has_fields self.new n) }
        ensures admits { OnOk result ((e : AnEvent) → admits self.old e → admits self.new e) }
        ensures stands { OnOk result ((s : Slot) (h : List Entry) → stands self.old s h → IsNext s h event.now
            → stands self.new (enqueued s) h) }
        ensures err { OnErr result (self.new ≡ self.old) };

    /// The next cut by the slot's mode, whether it makes a line or not; `None` where there is none.
    fn look(&self) -> Result<Option<Taken>, NoMemory>
        ensures head { IfOk result (λ t. t ≡ head self.now) }
        ensures fits { IfOk result (λ t. (n : ℕ) → has_fields self.now n → Fits n t) };

    /// Moves past the next cut. It takes no memory.
    fn pass(&mut self)
        requires { IsSome (head self.old) }
        ensures last { last self.new ≡ last self.old }
        ensures fields { (n : ℕ) → has_fields self.old n → has_fields self.new n }
        ensures admits { (e : AnEvent) → admits self.old e → admits self.new e }
        ensures stands { (s : Slot) (h : List Entry) (t : Taken) → stands self.old s h → head self.old ≡ Some t
            → stands self.new (passed s t) h };

    /// Whether the slot is pending: something is enqueued that no cut took. It takes no memory.
    fn pending(&self) -> bool
        ensures { result ≡ is_pending self.now };

    /// How many updates wait: they are enqueued, and in a cut to come. It takes no memory.
    fn waiting(&self) -> u64
        ensures { result ≡ waiting_count self.now };

    /// Its next cut is that of each slot that it stands for.
    ghost head_is_cut: { (b : Self) (s : Slot) (h : List Entry) → stands b s h → head b ≡ cut h s };

    /// It is pending where each such slot is.
    ghost pending_is: { (b : Self) (s : Slot) (h : List Entry) → stands b s h → is_pending b ≡ slot_is_pending h s };

    /// Its number of waiting updates is that of each such slot.
    ghost waiting_is: { (b : Self) (s : Slot) (h : List Entry) → stands b s h
        → waiting_count b ≡ slot_waiting_count h s };

    /// Each such slot has its last number.
    ghost last_is: { (b : Self) (s : Slot) (h : List Entry) → stands b s h → last b ≡ s.last };

    /// It goes on standing as the history grows.
    ghost longer: { (b : Self) (s : Slot) (h more : List Entry) → stands b s h → stands b s (h ++ more) };
}

/// The next cut, past which the buffer has moved; `None` where there is none. After `NoMemory` the buffer is as before.
pub fn take_one<B: Buffer>(buffer: &mut B) -> Result<Option<Taken>, NoMemory>
    ensures cut { IfOk result (λ t. (s : Slot) (h : List Entry) → B.stands buffer.old s h → t ≡ cut h s) }
    ensures after { IfOk result (λ t. (u : Taken) → t ≡ Some u → (s : Slot) (h : List Entry)
        → B.stands buffer.old s h → B.stands buffer.new (passed s u) h) }
    ensures err { OnErr result (buffer.new ≡ buffer.old) }
{
    let taken = buffer.look()?;
    if taken.is_some() {
        buffer.pass();
    }
    Ok(taken)
}
