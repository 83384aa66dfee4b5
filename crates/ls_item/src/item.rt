//! The state of an item of any kind.
ghost use Rattle.std.specs.Prelude.{◌≡◌, ◌+◌, ℕ, List, [], ◌∷◌, ◌++◌, length, None, IfOk, OnOk, OnErr, IsErrOf};
ghost use Rattle.ls_event.specs.declared.event.Entry.{Entry};
ghost use Rattle.ls_event.specs.Shapes.{Shape, shape_of, IsShape};
ghost use Rattle.ls_event.specs.History.{HasFields, RowFits};
ghost use Rattle.ls_event.specs.States.{state_at, state_after, key_row, push_refusal, PushAnswers};
ghost use Rattle.ls_item.specs.States.{checked, IsStateOf};
ghost use Rattle.ls_item.specs.Items.{without_events, kept_of};

use crate::command::CommandState;
use crate::distinct::DistinctState;
use crate::merge::MergeState;
use ls_event::{Event, ItemDef, Kind, PushRefused, Snapshot};
use ls_value::{NoMemory, Row};
use std::alloc::Global;
use std::marker::Model;

/// The state of an item of one of the kinds.
#[derive(Drop)]
enum AnyState {
    Merge(MergeState),
    Distinct(DistinctState),
    Command(CommandState),
}

/// The state of an item (General Concepts, items and modes): what its events add up to. It is seen as the item's shape
/// and the state.
#[derive(Drop)]
pub struct ItemState {
    key: usize,
    command: usize,
    state: AnyState,
}

impl Model for ItemState {
    ghost use Rattle.ls_event.specs.Shapes.{IsShape};
    ghost use Rattle.ls_item.specs.States.{KeptState};
    ghost use Rattle.ls_item.specs.Items.{kept_of};

    ghost Value = { KeptState };

    ghost view = { λ s. kept_of s.key s.command s.state };

    ghost invariant = { λ s. IsShape (kept_of s.key s.command s.state).shape };
}

impl ItemState {
    /// The state of an item without events. It keeps the allocator, by which its later calls take memory.
    pub fn new(alloc: Global, item: &ItemDef) -> Result<ItemState, NoMemory>
        requires { IsShape (shape_of item.now) }
        ensures { IfOk result (λ s. s ≡ record {
          shape = shape_of item.now;
          state = state_at
              (shape_of item.now) [] 0;
        }) }
    {
        let key = item.fields.find(b"key").unwrap_or(0);
        let command = item.fields.find(b"command").unwrap_or(0);
        let state = empty_state(alloc, item.kind, item.fields.len(), key, command)?;
        Ok(ItemState {
            key,
            command,
            state,
        })
    }

    /// The item's kind.
    pub fn kind(&self) -> Kind
        ensures kind { result ≡ self.now.shape.kind }
        ensures shape { IsShape self.now.shape }
    {
        match &self.state {
            AnyState::Merge(_) => Kind::Merge,
            AnyState::Distinct(_) => Kind::Distinct,
            AnyState::Command(_) => Kind::Command,
        }
    }

    /// The number of fields.
    pub fn fields(&self) -> usize
        ensures { result ≡ self.now.shape.fields }
    {
        match &self.state {
            AnyState::Merge(state) => state.fields(),
            AnyState::Distinct(state) => state.fields(),
            AnyState::Command(state) => state.fields(),
        }
    }

    /// The place of the field that is named `key`, 0 where there is none.
    pub fn key(&self) -> usize
        ensures { result ≡ self.now.shape.key }
    {
        match &self.state {
            AnyState::Command(state) => state.key(),
            _ => self.key,
        }
    }

    /// The place of the field that is named `command`, 0 where there is none.
    pub fn command(&self) -> usize
        ensures { result ≡ self.now.shape.command }
    {
        match &self.state {
            AnyState::Command(state) => state.command(),
            _ => self.command,
        }
    }

    /// The first cause that stands against an event, as `push` answers it. It takes no memory, and never answers
    /// `NoMemory`.
    pub fn check(&self, event: &Event) -> Result<(), PushRefused>
        requires { HasFields self.now.shape.fields event.now }
        ensures answer { result ≡ checked (push_refusal self.now.shape self.now.state event.now) }
        ensures memory { IsErrOf result PushRefused.NoMemory → ⊥ }
    {
        match &self.state {
            AnyState::Merge(state) => state.check(event),
            AnyState::Distinct(state) => state.check(event),
            AnyState::Command(state) => state.check(event),
        }
    }

    /// Adds an event against which nothing stands, and answers, in a COMMAND item, the row that its key then has. After
    /// `NoMemory` the state is as before.
    pub fn add(&mut self, event: &Event) -> Result<Option<Row>, NoMemory>
        requires fields { HasFields self.old.shape.fields event.now }
        requires admitted { push_refusal self.old.shape self.old.state event.now ≡ None }
        ensures ok { OnOk result (self.new ≡ record self.old {
          state = state_after self.old.shape self.old.state
              event.now;
        }) }
        ensures row { IfOk result (λ row. row ≡ key_row self.old.shape (state_after self.old.shape self.old.state
            event.now)
            event.now) }
        ensures fits { IfOk result (RowFits self.old.shape.fields) }
        ensures err { OnErr result (self.new ≡ self.old) }
    {
        self.state.add(event)
    }

    /// Adds an event, as `add` does, or answers the first cause that stands against it, of this order: an update of a
    /// COMMAND item has no text at the key; it has no order at the command; the event's texts, or those of the row that
    /// it makes, weigh more than [`MOST_WEIGHT`](ls_event::MOST_WEIGHT); it adds a key to
    /// [`MOST_KEYS`](ls_event::MOST_KEYS). After a refusal the state is as before.
    pub fn push(&mut self, event: &Event) -> Result<Option<Row>, PushRefused>
        requires { HasFields self.old.shape.fields event.now }
        ensures answer { PushAnswers (push_refusal self.old.shape self.old.state event.now) result }
        ensures ok { OnOk result (self.new ≡ record self.old {
          state = state_after self.old.shape self.old.state
              event.now;
        }) }
        ensures row { IfOk result (λ row. row ≡ key_row self.old.shape (state_after self.old.shape self.old.state
            event.now)
            event.now) }
        ensures fits { IfOk result (RowFits self.old.shape.fields) }
        ensures err { OnErr result (self.new ≡ self.old) }
    {
        self.check(event)?;
        let row = self.add(event)?;
        Ok(row)
    }

    /// The state, copied.
    pub fn snapshot(&self) -> Result<Snapshot, NoMemory>
        ensures state { IfOk result (λ s. s ≡ self.now.state) }
        ensures fits { IfOk result (IsStateOf self.now.shape) }
    {
        match &self.state {
            AnyState::Merge(state) => state.snapshot(),
            AnyState::Distinct(state) => state.snapshot(),
            AnyState::Command(state) => state.snapshot(),
        }
    }
}

impl AnyState {
    /// Adds an event, as `ItemState::add` does, wherever the fields stand that are named as a key and a command.
    fn add(&mut self, event: &Event) -> Result<Option<Row>, NoMemory>
        requires fields { HasFields (kept_of 0 0 self.old).shape.fields event.now }
        requires admitted { push_refusal (kept_of 0 0 self.old).shape (kept_of 0 0 self.old).state event.now ≡ None }
        ensures shape { (key command : ℕ) → (kept_of key command self.new).shape
            ≡ (kept_of key command self.old).shape }
        ensures ok { OnOk result ((key command : ℕ) → (kept_of key command self.new).state
            ≡ state_after (kept_of key command self.old).shape (kept_of key command self.old).state event.now) }
        ensures row { IfOk result (λ row. (key command : ℕ)
            → row ≡ key_row (kept_of key command self.old).shape (kept_of key command self.new).state event.now) }
        ensures fits { IfOk result (RowFits (kept_of 0 0 self.old).shape.fields) }
        ensures err { OnErr result (self.new ≡ self.old) }
    {
        match self {
            AnyState::Merge(state) => {
                state.add(event)?;
                Ok(None)
            }
            AnyState::Distinct(state) => {
                state.add(event)?;
                Ok(None)
            }
            AnyState::Command(state) => state.add(event),
        }
    }
}

/// The state of an item of a kind without events. The key and the command count in kind COMMAND.
fn empty_state(
    alloc: Global,
    kind: Kind,
    fields: usize,
    key: usize,
    command: usize,
) -> Result<AnyState, NoMemory>
    requires { IsShape (record { kind = kind; fields = fields; key = key; command = command }) }
    ensures { IfOk result (λ state. kept_of key command state
        ≡ without_events (record { kind = kind; fields = fields; key = key; command = command })) }
{
    match kind {
        Kind::Merge => Ok(AnyState::Merge(MergeState::new(alloc, fields)?)),
        Kind::Distinct => Ok(AnyState::Distinct(DistinctState::new(alloc, fields)?)),
        Kind::Command => Ok(AnyState::Command(CommandState::new(alloc, fields, key, command)?)),
    }
}

/// A state with one more event is the state of the history with that event at its end.
pub fn a_state_grows_with_its_history()
    ensures { (p : Shape) (h : List Entry) (e : Entry) → state_after p (state_at p h (length h)) e.event
        ≡ state_at p (h ++ e ∷ []) (length h + 1) }
{}
