//! What is taken of items by what is done with a session.
ghost use Rattle.std.specs.Prelude.{◌≡◌, ◌-◌, ◌<◌, ◌≤◌, ◌++◌, ◌∷◌, ℕ, List, Option, Some, None, length, map, true};
ghost use Rattle.std.specs.Prelude.{IfOk, OnErr, IsSome};
ghost use Rattle.ls_event.specs.declared.event.Taken.{Taken as Cut};
ghost use Rattle.ls_event.specs.declared.limits.TheConstants.{MOST_BUFFER_SIZE, MOST_SLOTS};
ghost use Rattle.ls_event.specs.Cuts.{cut, is_pending};
ghost use Rattle.ls_event.specs.Joining.{plan_of, rows_asked, joined, is_mode_of};
ghost use Rattle.ls_event.specs.Publishes.{IsHistory};
ghost use Rattle.ls_event.specs.Slots.{passed};
ghost use Rattle.ls_record.specs.Records.{Item, LiveSlot, history_of, shape_at, with_frequency};
ghost use Rattle.ls_cells.specs.Cells.{MayJoin, free_in};

use ls_event::{Mode, Snap, Taken};
use ls_value::NoMemory;

/// Items and the slots of sessions on them, each item and each slot by its number.
pub trait ItemSlots {
    /// The items with their histories, and the slots of all sessions on them, in whatever order, that it stands for.
    ghost stands: { Self → List Item → List LiveSlot → Type 0 };

    /// The next cut of a slot on an item, where there is one.
    ghost head: { Self → ℕ → ℕ → Option Cut };

    /// How many slots may still join, on all items together. It takes no memory.
    fn free(&self) -> u32
        ensures { (items : List Item) (lives : List LiveSlot) → stands self.now items lives
            → result ≡ MOST_SLOTS - length lives };

    /// A slot joins an item, and its number on it is answered: the least from 1 that is not in use. `None` where there
    /// is no such item, the mode is not allowed on it, the size `n` is 0 or above
    /// [`MOST_BUFFER_SIZE`](ls_event::MOST_BUFFER_SIZE), or [`MOST_SLOTS`](ls_event::MOST_SLOTS) slots are live. After
    /// `NoMemory` all is as before.
    fn join(
        &mut self,
        item: u32,
        mode: Mode,
        n: u32,
        snapshot: Snap,
    ) -> Result<Option<u32>, NoMemory>
        ensures joined { IfOk result (λ number. (items : List Item) (a b : List LiveSlot) (v : LiveSlot)
            → stands self.old items (a ++ b) → v.item ≡ item → item < length items
            → is_mode_of mode (shape_at items item).kind ≡ true → 0 < n → n ≤ MOST_BUFFER_SIZE
            → length (a ++ b) < MOST_SLOTS → v.number ≡ free_in (a ++ b) item
            → v.slot ≡ joined (plan_of (shape_at items item) (history_of items item) mode n) (history_of items item)
            (rows_asked snapshot)
            → (number ≡ Some v.number) × stands self.new items (a ++ v ∷ b)) }
        ensures may { IfOk result (λ number. (items : List Item) (lives : List LiveSlot) → stands self.old items lives
            → IsSome number → MayJoin items lives item mode n) }
        ensures none { IfOk result (λ number. (items : List Item) (lives : List LiveSlot)
            → stands self.old items lives → number ≡ None → stands self.new items lives) }
        ensures err { OnErr result ((items : List Item) (lives : List LiveSlot) → stands self.old items lives
            → stands self.new items lives) };

    /// A slot on an item leaves; its number is free then. It takes no memory.
    fn leave(&mut self, item: u32, slot: u32)
        ensures { (items : List Item) (a b : List LiveSlot) (v : LiveSlot) → stands self.old items (a ++ v ∷ b)
            → v.item ≡ item → v.number ≡ slot → stands self.new items (a ++ b) };

    /// The next cut of a slot on an item, whether it makes a line or not; `None` where there is none.
    fn look(&self, item: u32, slot: u32) -> Result<Option<Taken>, NoMemory>
        ensures head { IfOk result (λ t. t ≡ head self.now item slot) }
        ensures cut { IfOk result (λ t. (items : List Item) (a b : List LiveSlot) (v : LiveSlot)
            → stands self.now items (a ++ v ∷ b) → v.item ≡ item → v.number ≡ slot
            → t ≡ cut (history_of items v.item) v.slot) };

    /// Whether something of a slot on an item is pending. It takes no memory.
    fn pending(&self, item: u32, slot: u32) -> bool
        ensures { (items : List Item) (a b : List LiveSlot) (v : LiveSlot) → stands self.now items (a ++ v ∷ b)
            → v.item ≡ item → v.number ≡ slot → result ≡ is_pending (history_of items v.item) v.slot };

    /// Moves a slot on an item past its next cut; it has one. It takes no memory.
    fn pass(&mut self, item: u32, slot: u32)
        requires { IsSome (head self.old item slot) }
        ensures { (items : List Item) (a b : List LiveSlot) (v : LiveSlot) (t : Cut)
            → stands self.old items (a ++ v ∷ b) → v.item ≡ item → v.number ≡ slot
            → cut (history_of items v.item) v.slot ≡ Some t
            → stands self.new items (a ++ record v { slot = passed v.slot t } ∷ b) };

    /// The history of a slot's item is one of the shape that the slot was planned for.
    ghost has_history: { (k : Self) (items : List Item) (a b : List LiveSlot) (v : LiveSlot)
        → stands k items (a ++ v ∷ b) → IsHistory v.slot.plan.shape (history_of items v.item) };

    /// The greatest frequencies of slots are their sessions' alone.
    ghost no_frequency: { (k : Self) (items : List Item) (before round after : List LiveSlot) (sub : ℕ) (f : Option ℕ)
        → stands k items (before ++ (round ++ after))
        → stands k items (before ++ (map (with_frequency sub f) round ++ after)) };
}
