//! Each public call once.
ghost use Rattle.std.specs.Prelude.{◌≡◌, ◌∷◌, [], IfOk, IsTrue, length};
ghost use Rattle.ls_event.specs.History.{HasFields};
ghost use Rattle.ls_event.specs.Shapes.{IsShape, shape_of};

use ls_cell::{ItemCell, Joined};
use ls_event::{Event, ItemDef, Kind, MOST_FIELDS, MOST_SLOTS, Mode, PublishRefused, Snap};
use ls_live::{LiveItem, copied_entry, publish_copied, publish_into, weigh};
use ls_register::{Blank, House, add_item};
use ls_value::{Cell, Cells, Names, NoMemory, Text};
use std::alloc::Global;
use std::marker::Brand;
use std::test::Fail;

/// An item of the fields `key` and `command`.
fn two_fields(alloc: Global) -> Result<ItemDef, NoMemory>
    ensures { IfOk result (λ d. length d.fields ≡ 2) }
{
    let name = Text::from_str(alloc, "orders")?;
    let mut fields = Vec::new(alloc);
    fields.push(Text::from_str(alloc, "key")?)?;
    fields.push(Text::from_str(alloc, "command")?)?;
    Ok(ItemDef {
        name,
        kind: Kind::Merge,
        fields: Names::of(fields),
    })
}

/// An update of both.
fn update(alloc: Global) -> Result<Event, NoMemory>
    ensures { IfOk result (HasFields 2) }
{
    let mut cells = Vec::new(alloc);
    cells.push(Cell::Text(Text::from_str(alloc, "a")?))?;
    cells.push(Cell::Null)?;
    Ok(Event::Update(Cells::of(cells)))
}

/// Whether an item can be made of a definition.
fn is_shape(def: &ItemDef) -> bool
    ensures { IsTrue result → IsShape (shape_of def.now) }
{
    let many = def.fields.len();
    let key = def.fields.find(b"key").unwrap_or(0);
    let command = def.fields.find(b"command").unwrap_or(0);
    many > 0 && many <= MOST_FIELDS && key < many && command < many && key != command
}

/// Whether a lone item's events are numbered 1 and 2, and a seq that was used is refused.
fn are_numbered(alloc: Global, def: &ItemDef) -> Result<bool, NoMemory>
    requires shape { IsShape (shape_of def.now) }
    requires fields { length def.now.fields ≡ 2 }
{
    let mut item = LiveItem::<Brand>::new(alloc, def)?;
    let mut pass = item.pass(3);
    let update = update(alloc)?;
    let first = publish_into(&mut item, &mut pass, 5, update);
    let second = publish_into(&mut item, &mut pass, 6, Event::Clear);
    let again = publish_into(&mut item, &mut pass, 6, Event::Clear);
    Ok(first == Ok(1) && second == Ok(2) && again == Err(PublishRefused::Repeated { last: 6 }))
}

#[test]
fn events_are_numbered(rt: HostRuntime) -> Result<(), Fail> {
    let def = two_fields(rt.alloc())?;
    if !is_shape(&def) {
        return Err(Fail::new("no such item"));
    }
    assert!(rt; are_numbered(rt.alloc(), &def)?);
    Ok(())
}

/// Whether an item with a place knows its own pass from a lone one, and takes an event by it.
fn is_published_at_its_place<N: House>(
    alloc: Global,
    blank: Blank,
    def: &ItemDef,
) -> Result<bool, NoMemory>
    requires register { blank.register ≡ N.deed.register }
    requires config { N.deed.config ≡ def.now ∷ [] }
    requires shape { IsShape (shape_of def.now) }
{
    let Blank {
        register,
        mut writer,
    } = blank;
    let mut item = LiveItem::<N>::new(alloc, def)?;
    let sign = item.sign();
    let Ok(place) = add_item::<N>(&register, &mut writer, 0, def, sign) else {
        return Err(NoMemory);
    };
    let mut item = item.at(place, 0);
    let mut pass = item.pass_at(&register, 64);
    let mut lone = item.pass(64);
    let is_own = item.is_of(&register, &mut pass) && !item.is_of(&register, &mut lone);
    let is_known = item.has_item(0) && !item.has_item(1) && pass.item() == 0;
    let entry = copied_entry(alloc, pass.adapter(), 9, &Event::Clear);
    let number = publish_copied(&mut item, &mut pass, 9, Event::Clear, &entry);
    Ok(is_own && is_known && number == Ok(1))
}

#[test]
fn a_pass_is_known_by_its_place(rt: HostRuntime) -> Result<(), Fail> {
    let def = two_fields(rt.alloc())?;
    let blank = Blank::new(rt.alloc())?;
    if !is_shape(&def) {
        return Err(Fail::new("no such item"));
    }
    assert!(rt; is_published_at_its_place::<Brand>(rt.alloc(), blank, &def)?);
    Ok(())
}

/// Publishes so many Clears.
fn clear_often(cell: &mut ItemCell, times: u64) {
    for seq in 0..times {
        let _answer = cell.publish(1, seq.saturating_add(1), Event::Clear);
    }
}

/// Whether a slot that lags is caught up, and keeps no event back.
fn is_caught_up(alloc: Global, def: &ItemDef) -> Result<bool, NoMemory>
    requires { IsShape (shape_of def.now) }
{
    let mut cell = ItemCell::new(alloc, def)?;
    if cell.slots() as usize >= MOST_SLOTS {
        return Ok(false);
    }
    let Joined { slot, .. } = cell.join(Mode::Raw, 1, Snap::No)?;
    clear_often(&mut cell, 64);
    let found = cell.check(1, 65, &Event::Clear);
    let weighed = weigh(&mut cell, 1, 65, &Event::Clear);
    let is_up_to_date = cell.has(slot) && cell.lag(slot) == 0;
    Ok(found == Err(PublishRefused::Backlog { slot }) && weighed == Ok(()) && is_up_to_date)
}

#[test]
fn a_slot_that_lags_is_caught_up(rt: HostRuntime) -> Result<(), Fail> {
    let def = two_fields(rt.alloc())?;
    if !is_shape(&def) {
        return Err(Fail::new("no such item"));
    }
    assert!(rt; is_caught_up(rt.alloc(), &def)?);
    Ok(())
}
