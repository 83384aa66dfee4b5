//! The next cut of mode RAW from the whole history.
ghost use Rattle.std.specs.Prelude.{◌≡◌, ◌≤◌, IfOk, length};
ghost use Rattle.ls_event.specs.OwnCuts.{raw_cut, raw_taken};
ghost use Rattle.ls_plain.specs.Plain.{raw_slot};

use crate::updates::own_rows;
use ls_event::{Entry, OwnRow, RAW_KEEPS, Taken};
use ls_value::NoMemory;
use std::alloc::Global;

/// The next cut of a slot of mode RAW, where `last` is the last number that was enqueued and `cursor` the number up to
/// which lines tell of the item; `None` where there is none (General Concepts, mode RAW and buffers).
pub fn plain_raw_cut(
    alloc: Global,
    history: &[Entry],
    last: u64,
    cursor: u64,
) -> Result<Option<Taken>, NoMemory>
    requires order { cursor ≤ last }
    requires within { last ≤ length history.now }
    ensures { IfOk result (λ t. t ≡ raw_cut history.now (raw_slot last cursor)) }
{
    let rows = own_rows(alloc, history, cursor as usize, last as usize)?;
    let lost = rows.len().saturating_sub(RAW_KEEPS);
    match rows.get(lost) {
        None => Ok(None),
        Some(own) => {
            let taken = taken_of(alloc, own, lost as u64)?;
            Ok(Some(taken))
        }
    }
}

/// The cut of an update, where so many before it were lost.
fn taken_of(alloc: Global, own: &OwnRow, lost: u64) -> Result<Taken, NoMemory>
    ensures { IfOk result (λ t. t ≡ raw_taken lost own.now) }
{
    if lost > 0 {
        return Ok(Taken::Lost {
            count: lost,
            upto: own.no.saturating_sub(1),
        });
    }
    Ok(Taken::Row {
        row: own.row.copy(alloc)?,
        upto: own.no,
    })
}
