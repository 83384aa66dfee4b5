//! The buffers of slots that join.
ghost use Rattle.std.specs.Prelude.{◌≡◌, ◌<◌, ◌≤◌, ℕ, true, Option, None, Some, IfOk, length, is_some, if◌then◌else◌};
ghost use Rattle.std.specs.Option.{ForSome};
ghost use Rattle.ls_event.specs.Shapes.{IsShape};
ghost use Rattle.ls_event.specs.Joining.{rows_asked, is_mode_of};
ghost use Rattle.ls_event.specs.declared.limits.TheConstants.{MOST_BUFFER_SIZE, MOST_SNAPSHOT_ROWS};
ghost use Rattle.ls_item.specs.States.{IsStateOf, KeptState};
ghost use Rattle.ls_distinct.specs.Distinct.{distinct_rows};
ghost use Rattle.ls_cell.specs.Joins.{Joins, rows_owed as owed_of};

use crate::any::AnyBuffer;
use ls_command::CommandBuffer;
use ls_distinct::DistinctBuffer;
use ls_event::{Kind, Mode, Snap, Snapshot};
use ls_item::ItemState;
use ls_merge::MergeBuffer;
use ls_raw::RawBuffer;
use ls_value::NoMemory;
use std::alloc::Global;

/// The buffer of a slot that joins an item of so many events.
pub fn buffer_of(
    alloc: Global,
    item: &ItemState,
    number: u64,
    mode: Mode,
    n: u32,
    snapshot: Snap,
) -> Result<AnyBuffer, NoMemory>
    requires shape { IsShape item.now.shape }
    requires mode { is_mode_of mode item.now.shape.kind ≡ true }
    requires some { 0 < n }
    requires most { n ≤ MOST_BUFFER_SIZE }
    ensures { IfOk result (Joins
        (record { item = item.now; number = number; mode = mode; size = n; asked = rows_asked snapshot })) }
{
    match mode {
        Mode::Raw => raw_buffer(alloc, number),
        Mode::Merge => merge_buffer(alloc, item, number, n, snapshot),
        Mode::Distinct => distinct_buffer(alloc, item, number, n, snapshot),
        Mode::Command => command_buffer(alloc, item, number, snapshot),
    }
}

/// The buffer of a slot in mode RAW, which knows no snapshot and no size.
fn raw_buffer(alloc: Global, number: u64) -> Result<AnyBuffer, NoMemory>
    ensures { IfOk result (λ b. (k : KeptState) (n : ℕ) (asked : Option ℕ)
        → Joins (record { item = k; number = number; mode = Mode.Raw; size = n; asked = asked }) b) }
{
    let buffer = RawBuffer::new(alloc, number)?;
    Ok(AnyBuffer::Raw(buffer))
}

/// The buffer of a slot in mode MERGE.
fn merge_buffer(
    alloc: Global,
    item: &ItemState,
    number: u64,
    n: u32,
    snapshot: Snap,
) -> Result<AnyBuffer, NoMemory>
    requires kind { item.now.shape.kind ≡ Kind.Merge }
    requires some { 0 < n }
    requires most { n ≤ MOST_BUFFER_SIZE }
    ensures { IfOk result (Joins
        (record { item = item.now; number = number; mode = Mode.Merge; size = n; asked = rows_asked snapshot })) }
{
    let Snapshot::Merge(row) = item.snapshot()? else {
        unreachable!()
    };
    let buffer = MergeBuffer::new(alloc, number, n, row, is_asked(snapshot))?;
    Ok(AnyBuffer::Merge(buffer))
}

/// The buffer of a slot in mode DISTINCT.
fn distinct_buffer(
    alloc: Global,
    item: &ItemState,
    number: u64,
    n: u32,
    snapshot: Snap,
) -> Result<AnyBuffer, NoMemory>
    requires kind { item.now.shape.kind ≡ Kind.Distinct }
    requires some { 0 < n }
    requires most { n ≤ MOST_BUFFER_SIZE }
    ensures { IfOk result (Joins
        (record { item = item.now; number = number; mode = Mode.Distinct; size = n; asked = rows_asked snapshot })) }
{
    let first = snapshot_asked(item, snapshot)?;
    let rows = rows_owed(&first, snapshot);
    let buffer = DistinctBuffer::new(alloc, number, n, first, rows)?;
    Ok(AnyBuffer::Distinct(buffer))
}

/// The buffer of a slot in mode COMMAND, which knows no size.
fn command_buffer(
    alloc: Global,
    item: &ItemState,
    number: u64,
    snapshot: Snap,
) -> Result<AnyBuffer, NoMemory>
    requires { item.now.shape.kind ≡ Kind.Command }
    ensures { IfOk result (λ b. (n : ℕ) → Joins (record {
      item = item.now;
      number = number;
      mode = Mode.Command;
      size = n;
      asked = rows_asked snapshot;
    }) b) }
{
    let first = snapshot_asked(item, snapshot)?;
    let buffer = CommandBuffer::new(alloc, number, item.key(), first)?;
    Ok(AnyBuffer::Command(buffer))
}

/// The item's state, where it is asked for.
fn snapshot_asked(item: &ItemState, snapshot: Snap) -> Result<Option<Snapshot>, NoMemory>
    ensures state { IfOk result (λ first. first ≡ (if is_some (rows_asked snapshot) then Some item.now.state else
        None)) }
    ensures fits { IfOk result (λ first. ForSome first (IsStateOf item.now.shape)) }
{
    if is_asked(snapshot) {
        let first = item.snapshot()?;
        return Ok(Some(first));
    }
    Ok(None)
}

/// Whether a snapshot is asked for.
fn is_asked(snapshot: Snap) -> bool
    ensures { result ≡ is_some (rows_asked snapshot) }
{
    !matches!(snapshot, Snap::No)
}

/// How many of a snapshot's rows are owed: as many as are asked for, or as there are.
fn rows_owed(first: &Option<Snapshot>, snapshot: Snap) -> u32
    requires { length (distinct_rows first.now) ≤ MOST_SNAPSHOT_ROWS }
    ensures { result ≡ owed_of first.now (rows_asked snapshot) }
{
    match (first, snapshot) {
        (Some(Snapshot::Distinct(rows)), Snap::All) => rows.len() as u32,
        (Some(Snapshot::Distinct(rows)), Snap::Last(asked)) => asked.min(rows.len() as u32),
        _ => 0,
    }
}
