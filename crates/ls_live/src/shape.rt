//! What an item's definition settles.
ghost use Rattle.std.specs.Prelude.{◌≡◌};
ghost use Rattle.ls_event.specs.Shapes.{shape_of};
ghost use Rattle.ls_live.specs.Live.{shape_kept};

use ls_event::{ItemDef, Kind};

/// An item's kind, its number of fields, and the places of the fields `key` and `command`, 0 where there are none.
#[derive(Clone, Copy)]
pub struct ItemShape {
    pub kind: Kind,
    pub fields: usize,
    pub key: usize,
    pub command: usize,
}

impl ItemShape {
    /// The shape of an item as declared.
    pub fn of(item: &ItemDef) -> ItemShape
        ensures { shape_kept result ≡ shape_of item.now }
    {
        ItemShape {
            kind: item.kind,
            fields: item.fields.len(),
            key: item.fields.find(b"key").unwrap_or(0),
            command: item.fields.find(b"command").unwrap_or(0),
        }
    }
}
