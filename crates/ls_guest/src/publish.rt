//! Events that are offered by an item's name.
ghost use Rattle.std.specs.Prelude.{IfOk, IsTrue, length};
ghost use Rattle.ls_event.specs.History.{HasFields};

use ls_event::{Event, EventRefused, read_event};
use ls_outside::OpenGate;
use ls_register::House;
use ls_shared::{PublishRefused, Shared};
use ls_value::Names;
use std::alloc::Global;
use std::sync::Wait;

/// The event that a text says of fields.
fn event_of(alloc: Global, fields: &Names, text: &str) -> Result<Event, EventRefused>
    ensures { IfOk result (HasFields (length fields.now)) }
{
    let event = read_event(alloc, text.as_bytes(), fields)?;
    if fits(&event, fields) {
        Ok(event)
    } else {
        Err(EventRefused::BadPair { at: 0 })
    }
}

/// Whether an event has a cell for each field.
fn fits(event: &Event, fields: &Names) -> bool
    ensures { IsTrue result → HasFields (length fields.now) event.now }
{
    match event {
        Event::Clear => true,
        Event::Update(cells) => cells.len() == fields.len(),
    }
}

/// Offers the event that a text says, as adapter 1, to the item of a name. `None` where there is no such event or item.
pub fn publish_text<N: House, R: Wait>(
    rt: &R,
    alloc: Global,
    shared: &Shared<N>,
    name: &str,
    seq: u64,
    text: &str,
) -> Option<Result<u64, PublishRefused>> {
    let items = &shared.config().items;
    let item = items.find(name.as_bytes())?;
    let def = items.as_slice().get(item as usize)?;
    match event_of(alloc, &def.fields, text) {
        Err(EventRefused::NoMemory) => Some(Err(PublishRefused::NoMemory)),
        Err(_) => None,
        Ok(event) => {
            let mut pass = shared.pass(rt, item, 1);
            Some(shared.offer(rt, &mut pass, seq, event, &OpenGate))
        }
    }
}
