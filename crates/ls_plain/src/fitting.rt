//! Events that fit an item's fields.
ghost use Rattle.std.specs.Prelude.{◌↔◌, IsTrue, All};
ghost use Rattle.ls_event.specs.History.{HasFields};

use ls_event::{Entry, Event};

/// Whether an event has a cell for each of so many fields.
pub fn fits(event: &Event, fields: usize) -> bool
    ensures { IsTrue result ↔ HasFields fields event.now }
{
    match event {
        Event::Update(cells) => cells.len() == fields,
        Event::Clear => true,
    }
}

/// Whether each event of a history has.
pub fn all_fit(history: &[Entry], fields: usize) -> bool
    ensures { IsTrue result ↔ All (λ e. HasFields fields e.event) history.now }
{
    for i in 0..history.len() {
        let fit = fits(&history[i].event, fields);
        if fit {
            continue;
        }
        return false;
    }
    true
}
