//! Each call once with ample memory; `ls_tables` has the table of items files.
use ls_config::*;
use ls_value::{NoMemory, same_bytes};
use std::alloc::Global;

/// Whether an items file is read, and its items are found.
fn reads(alloc: Global) -> bool {
    match read(alloc, b"set s\nb MERGE x\na COMMAND key,command\n") {
        Ok(config) => {
            same_bytes(config.set.as_bytes(), b"s")
                && config.items.len() == 2
                && config.find(b"a") == Some(1)
                && config.find(b"x").is_none()
        }
        Err(_) => false,
    }
}

#[test]
fn an_items_file_is_read(rt: HostRuntime) {
    assert!(rt; reads(rt.alloc()));
}

/// Whether two names are declared and found.
fn declares(alloc: Global) -> Result<bool, NoMemory> {
    let mut names = Declared::new(alloc);
    names.add(b"b")?;
    if names.find(b"a").is_some() {
        return Ok(false);
    }
    names.add(b"a")?;
    Ok(names.find(b"b") == Some(0) && names.find(b"a") == Some(1) && names.len() == 2)
}

#[test]
fn names_are_declared(rt: HostRuntime) -> Result<(), NoMemory> {
    assert!(rt; declares(rt.alloc())?);
    Ok(())
}

/// Adds an item of this name, and answers whether it is new.
fn is_added(alloc: Global, items: &mut Items, name: &[u8]) -> Result<bool, NoMemory> {
    match item_said(alloc, name, b"MERGE", b"x")? {
        Some(item) => items.add(item),
        None => Ok(false),
    }
}

/// Whether an item is added once.
fn adds(alloc: Global) -> Result<bool, NoMemory> {
    let mut items = Items::new(alloc);
    let first = is_added(alloc, &mut items, b"b")?;
    let again = is_added(alloc, &mut items, b"b")?;
    let second = is_added(alloc, &mut items, b"B")?;
    Ok(first && !again && second && items.find(b"B") == Some(1) && items.len() == 2)
}

#[test]
fn items_are_added_once(rt: HostRuntime) -> Result<(), NoMemory> {
    assert!(rt; adds(rt.alloc())?);
    Ok(())
}
