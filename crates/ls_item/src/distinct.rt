//! The state of a DISTINCT item.
ghost use Rattle.std.specs.Prelude.{◌≡◌, ◌≤◌, length, List, [], ◌∷◌, ◌++◌, ◌-◌, ◌^◌, min, None, IfOk, OnOk, OnErr};
ghost use Rattle.ls_event.specs.declared.item.Kind.TheVariants as kind;
ghost use Rattle.ls_event.specs.declared.snapshot.Snapshot.TheVariants as state;
ghost use Rattle.ls_event.specs.History.{HasFields, weight_of_event};
ghost use Rattle.ls_event.specs.Updates.{last_of};
ghost use Rattle.ls_event.specs.States.{rows_after, push_refusal, PushAnswers};
ghost use Rattle.ls_item.specs.States.{keyless, checked, IsStateOf};

use crate::weights::{cells_weight, check_weight};
use ls_event::{Event, MOST_SNAPSHOT_ROWS, PushRefused, RowList, Snapshot, own_row};
use ls_value::{NoMemory, Row};
use std::alloc::Global;
use std::marker::Model;

/// The state of a DISTINCT item: the own rows of its last updates since the last Clear, at most [`MOST_SNAPSHOT_ROWS`],
/// the oldest first (General Concepts, mode DISTINCT; the number is this project's profile).
#[derive(Drop)]
pub struct DistinctState {
    alloc: Global,
    fields: usize,
    rows: Vec<Row>,
}

impl Model for DistinctState {
    ghost use Rattle.std.specs.Prelude.{◌≤◌, length};
    ghost use Rattle.ls_event.specs.declared.limits.TheConstants.{MOST_SNAPSHOT_ROWS};
    ghost use Rattle.ls_item.specs.States.{Recent, AllWide};

    ghost Value = { Recent };

    ghost view = { λ s. record { fields = s.fields; rows = s.rows.items } };

    ghost invariant = { λ s. AllWide s.fields s.rows.items × (length s.rows.items ≤ MOST_SNAPSHOT_ROWS) };
}

impl DistinctState {
    /// The state of an item of so many fields without events: no rows. It keeps the allocator, by which its later calls
    /// take memory.
    pub fn new(alloc: Global, fields: usize) -> Result<DistinctState, NoMemory>
        ensures { IfOk result (λ s. s ≡ record { fields = fields; rows = [] }) }
    {
        let rows = Vec::new(alloc);
        Ok(DistinctState {
            alloc,
            fields,
            rows,
        })
    }

    /// The number of fields.
    pub fn fields(&self) -> usize
        ensures { result ≡ self.now.fields }
    {
        self.fields
    }

    /// The first cause that stands against an event, as `push` answers it. It takes no memory.
    #[tactic(auto, using(crate::proofs::Causes::or_none, crate::proofs::Causes::own_weight))]
    pub fn check(&self, event: &Event) -> Result<(), PushRefused>
        ensures { result ≡ checked (push_refusal (keyless kind.Distinct self.now.fields) (state.Distinct self.now.rows)
            event.now) }
    {
        match event {
            Event::Update(cells) => check_weight(cells_weight(cells.as_slice())),
            Event::Clear => Ok(()),
        }
    }

    /// Adds an event. After `NoMemory` the state is as before.
    pub fn add(&mut self, event: &Event) -> Result<(), NoMemory>
        requires { HasFields self.old.fields event.now }
        ensures ok { OnOk result (self.new ≡ record self.old { rows = rows_after self.old.rows event.now }) }
        ensures err { OnErr result (self.new ≡ self.old) }
    {
        match event {
            Event::Update(cells) => {
                let row = own_row(self.alloc, cells)?;
                keep_last(&mut self.rows, row)?;
            }
            Event::Clear => self.rows.clear(),
        }
        Ok(())
    }

    /// Adds an event, and answers `None`: a DISTINCT item has no keys. It is refused where the event's texts, which are
    /// those of its own row, weigh more than [`MOST_WEIGHT`](ls_event::MOST_WEIGHT). After a refusal the state is as
    /// before.
    pub fn push(&mut self, event: &Event) -> Result<Option<Row>, PushRefused>
        requires { HasFields self.old.fields event.now }
        ensures answer { PushAnswers (push_refusal (keyless kind.Distinct self.old.fields)
            (state.Distinct self.old.rows)
            event.now) result }
        ensures ok { OnOk result (self.new ≡ record self.old { rows = rows_after self.old.rows event.now }) }
        ensures row { IfOk result (λ row. row ≡ None) }
        ensures err { OnErr result (self.new ≡ self.old) }
    {
        self.check(event)?;
        self.add(event)?;
        Ok(None)
    }

    /// The state, copied.
    pub fn snapshot(&self) -> Result<Snapshot, NoMemory>
        ensures state { IfOk result (λ s. s ≡ state.Distinct self.now.rows) }
        ensures fits { IfOk result (IsStateOf (keyless kind.Distinct self.now.fields)) }
    {
        let rows = copied_rows(self.alloc, &self.rows)?;
        Ok(Snapshot::Distinct(RowList::of(rows)))
    }
}

/// Puts a row behind the others, of which the oldest goes where there are as many as are kept.
fn keep_last(rows: &mut Vec<Row>, row: Row) -> Result<(), NoMemory>
    requires { length rows.old.items ≤ MOST_SNAPSHOT_ROWS }
    ensures ok { OnOk result (rows.new.items ≡ last_of MOST_SNAPSHOT_ROWS (rows.old.items ++ row ∷ [])) }
    ensures err { OnErr result (rows.new.items ≡ rows.old.items) }
{
    rows.push(row)?;
    if rows.len() > MOST_SNAPSHOT_ROWS {
        let _oldest = rows.remove(0);
    }
    Ok(())
}

/// Equal rows.
fn copied_rows(alloc: Global, rows: &[Row]) -> Result<Vec<Row>, NoMemory>
    ensures { IfOk result (λ copied. copied.items ≡ rows.now) }
{
    let mut copied = Vec::with_capacity(alloc, rows.len())?;
    for row in rows {
        copied.push(row.copy(alloc)?)?;
    }
    Ok(copied)
}
