//! Events: a copy of each.
use crate::made::{cells, is_cells};
use ls_event::Event;
use ls_value::NoMemory;
use std::alloc::Global;
use std::test::Fail;

/// Whether a copy of an update has the same cells.
fn copied(alloc: Global, words: &'static str) -> Result<bool, NoMemory> {
    let event = Event::Update(cells(alloc, words)?);
    match event.copy(alloc)? {
        Event::Update(cells) => Ok(is_cells(&cells, words)),
        Event::Clear => Ok(false),
    }
}

/// Whether a copy of a Clear is one.
fn clear_copied(alloc: Global) -> Result<bool, NoMemory> {
    Ok(matches!(Event::Clear.copy(alloc)?, Event::Clear))
}

#[test]
fn copies_are_equal(rt: HostRuntime) -> Result<(), Fail> {
    let alloc = rt.alloc();
    assert!(rt; copied(alloc, "=|#|3.05")? && clear_copied(alloc)?);
    Ok(())
}
