//! A register that is being made.
ghost use Rattle.std.specs.Prelude.{◌≡◌, ◌≤◌, ◌^◌, ◌+◌, ◌++◌, ◌∷◌, [], Some, IfOk, OnOk, OnErr, length, slice_get};
ghost use Rattle.ls_event.specs.Shapes.{shape_of};
ghost use Rattle.ls_event.specs.declared.limits.TheConstants.{MOST_FIELDS};
ghost use Rattle.ls_register.specs.Items.{items_of, fact_of, ShowsItem};

use crate::house::House;
use crate::made::Made;
use crate::place::Place;
use ls_chron::{Chron, Sign, Spent, Writer};
use ls_event::{Entry, ItemDef};
use ls_value::NoMemory;
use std::alloc::Global;

/// An empty register, which has no name yet, and its writer. Who makes a server names it by the function that is
/// generic in [`House`].
#[derive(Drop)]
pub struct Blank {
    pub register: Chron<Made>,
    pub writer: Writer<Made>,
    pub ghost of: { writer.table ≡ register },
    pub ghost empty: { writer.list ≡ [] },
}

impl Blank {
    /// An empty register.
    pub fn new(alloc: Global) -> Result<Blank, NoMemory> {
        let (register, writer) = Chron::start(alloc)?;
        Ok(Blank { register, writer })
    }
}

/// Adds an item of the server's to the register that is being made, by its number from 0 and the history that `table`
/// shows, and answers its place there. It takes no memory. `Spent` comes exactly where the register has as many entries
/// as a shared history may.
pub fn add_item<N: House>(
    register: &Chron<Made>,
    writer: &mut Writer<Made>,
    item: u32,
    def: &ItemDef,
    table: Sign<Entry>,
) -> Result<Place<N>, Spent>
    requires register { register.now ≡ N.deed.register }
    requires writer { writer.old.table ≡ register.now }
    requires declared { slice_get N.deed.config item ≡ Some def.now }
    requires fields { length def.now.fields ≤ MOST_FIELDS }
    ensures table { writer.new.table ≡ writer.old.table }
    ensures place { IfOk result (λ p. ShowsItem N.deed.config p item (shape_of def.now) table) }
    ensures items { OnOk result (items_of writer.new.list ≡ items_of writer.old.list ++ fact_of item def.now ∷ []) }
    ensures more { OnOk result (length writer.new.list ≡ length writer.old.list + 1) }
    ensures spent { OnErr result (length writer.old.list ≡ 2 ^ 61) }
    ensures err { OnErr result (writer.new ≡ writer.old) }
{
    let entry = Made::Item {
        item,
        fields: def.fields.len() as u32,
        kind: def.kind,
        table,
    };
    let number = register.append(writer, &entry)?;
    Ok(Place::new(number - 1, register.note(writer)))
}
