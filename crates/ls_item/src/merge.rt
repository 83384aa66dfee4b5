//! The state of a MERGE item.
ghost use Rattle.std.specs.Prelude.{◌≡◌, length, List, Some, None, IfOk, OnOk, OnErr};
ghost use Rattle.ls_value.specs.Values.{nulls};
ghost use Rattle.ls_event.specs.declared.item.Kind.TheVariants as kind;
ghost use Rattle.ls_event.specs.declared.snapshot.Snapshot.TheVariants as state;
ghost use Rattle.ls_event.specs.History.{HasFields, row_after};
ghost use Rattle.ls_event.specs.States.{push_refusal, weight_made, PushAnswers};
ghost use Rattle.ls_item.specs.States.{keyless, checked, IsStateOf};

use crate::weights::{applied_weight, cells_weight, check_weight};
use ls_event::{Event, PushRefused, Snapshot};
use ls_value::{NoMemory, Row};
use std::alloc::Global;
use std::marker::Model;
use std::mem::swap;

/// The state of a MERGE item: each field's last value since the last Clear (General Concepts, mode MERGE). It is seen
/// as that row. The next row is made in the room of the one before the last, so an update takes memory only where a
/// text finds no room there.
#[derive(Drop)]
pub struct MergeState {
    alloc: Global,
    row: Row,
    spare: Row,
}

impl Model for MergeState {
    ghost use Rattle.std.specs.Prelude.{List};
    ghost use Rattle.ls_value.specs.declared.row.Value.{Value as FieldValue};

    ghost Value = { List FieldValue };

    ghost view = { λ s. s.row };
}

impl MergeState {
    /// The state of an item of so many fields without events: all null. It keeps the allocator, by which its later
    /// calls take memory.
    pub fn new(alloc: Global, fields: usize) -> Result<MergeState, NoMemory>
        ensures { IfOk result (λ s. s ≡ nulls fields) }
    {
        let row = Row::nulls(alloc, fields)?;
        let spare = Row::of(Vec::new(alloc));
        Ok(MergeState { alloc, row, spare })
    }

    /// The number of fields.
    pub fn fields(&self) -> usize
        ensures { result ≡ length self.now }
    {
        self.row.len()
    }

    /// The first cause that stands against an event, as `push` answers it. It takes no memory.
    #[tactic(auto, using(crate::proofs::Causes::or_none))]
    pub fn check(&self, event: &Event) -> Result<(), PushRefused>
        requires { HasFields (length self.now) event.now }
        ensures { result ≡ checked (push_refusal (keyless kind.Merge (length self.now))
            (state.Merge self.now) event.now) }
    {
        check_weight(weight_after(&self.row, event))
    }

    /// Adds an event. After `NoMemory` the state is as before.
    #[tactic(auto, using(ls_event::proofs::Merged::row_after_length))]
    pub fn add(&mut self, event: &Event) -> Result<(), NoMemory>
        requires { HasFields (length self.old) event.now }
        ensures ok { OnOk result (self.new ≡ row_after self.old event.now) }
        ensures fields { length self.new ≡ length self.old }
        ensures err { OnErr result (self.new ≡ self.old) }
    {
        match event {
            Event::Update(cells) => {
                self.spare.set_applied(self.alloc, &self.row, cells)?;
                swap(&mut self.row, &mut self.spare);
            }
            Event::Clear => self.row = Row::nulls(self.alloc, self.row.len())?,
        }
        Ok(())
    }

    /// Adds an event, and answers `None`: a MERGE item has no keys. It is refused where the event's texts, or those of
    /// the row that it makes, weigh more than [`MOST_WEIGHT`](ls_event::MOST_WEIGHT). After a refusal the state is as
    /// before.
    pub fn push(&mut self, event: &Event) -> Result<Option<Row>, PushRefused>
        requires { HasFields (length self.old) event.now }
        ensures answer { PushAnswers (push_refusal (keyless kind.Merge (length self.old))
            (state.Merge self.old) event.now)
            result }
        ensures ok { OnOk result (self.new ≡ row_after self.old event.now) }
        ensures fields { length self.new ≡ length self.old }
        ensures row { IfOk result (λ row. row ≡ None) }
        ensures err { OnErr result (self.new ≡ self.old) }
    {
        self.check(event)?;
        self.add(event)?;
        Ok(None)
    }

    /// The state, copied.
    pub fn snapshot(&self) -> Result<Snapshot, NoMemory>
        ensures state { IfOk result (λ s. s ≡ state.Merge self.now) }
        ensures fits { IfOk result (IsStateOf (keyless kind.Merge (length self.now))) }
    {
        let row = self.row.copy(self.alloc)?;
        Ok(Snapshot::Merge(row))
    }
}

/// The greater weight of an event and of the row after it, as far as 64 bits tell.
#[tactic(auto, using(crate::proofs::RowWeights::nulls_weigh_nothing))]
fn weight_after(row: &Row, event: &Event) -> u64
    requires { HasFields (length row.now) event.now }
    ensures { result ≡ weight_made event.now (Some (row_after row.now event.now)) }
{
    match event {
        Event::Update(cells) => {
            let of_event = cells_weight(cells.as_slice());
            of_event.max(applied_weight(row.as_slice(), cells.as_slice()))
        }
        Event::Clear => 0,
    }
}
