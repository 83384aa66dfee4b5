//! An item with its history, and the passes of those who publish on it.
ghost use Rattle.std.specs.Prelude.{◌≡◌, ◌≤◌, ◌++◌, ◌∷◌, [], ℕ, None, Some, IsTrue, IfOk, IfErr, length};
ghost use Rattle.std.specs.Prelude.{List, OnOk, ◌&&◌, ◌==◌, is_some};
ghost use Rattle.std.specs.Arc.{arc_value};
ghost use mathlib.Core.List.{IsPrefix};
ghost use Rattle.ls_event.specs.declared.limits.TheConstants.{MOST_ADAPTERS as MOST};
ghost use Rattle.ls_event.specs.declared.event.Entry.{Entry};
ghost use Rattle.ls_event.specs.History.{HasFields};
ghost use Rattle.ls_event.specs.Publishes.{IsHistory};
ghost use Rattle.ls_event.specs.Shapes.{IsShape, shape_of};
ghost use Rattle.ls_event.specs.Textual.{Textual, TextualEvent};
ghost use Rattle.ls_cell.specs.Cell.{StandsCell, refusal_of};
ghost use Rattle.ls_register.specs.Items.{ShowsItem};
ghost use Rattle.ls_live.specs.Live.{IsOf, IsPassFor, KeepsSlots, IsCause, are_one, cause_in, entry_of, whole_pass};
ghost use Rattle.ls_live.specs.Live.{StandsFor};

use crate::copied::{CopiedEntry, copied_entry};
use crate::shape::ItemShape;
use crate::weighing::weigh;
use ls_cell::ItemCell;
use ls_chron::{Chron, Reader, Sign, Writer};
use ls_event::{Entry, Event, ItemDef, PublishRefused};
use ls_register::{House, Made, Place};
use ls_value::NoMemory;
use std::alloc::Global;
use std::marker::Model;
use std::sync::Arc;

/// An item with publishers: a cell, and its history's writer. Contracts see the item's number and its place in the
/// register, the cell, the history's table, the item's shape and the whole history, for which the cell stands and whose
/// texts are UTF-8. A lone item has no place. It keeps the allocator that its constructor took.
#[derive(Drop)]
pub struct LiveItem<N: House> {
    alloc: Global,
    pub(crate) cell: ItemCell,
    shape: ItemShape,
    pub(crate) chron: Arc<Chron<Entry>>,
    pub(crate) writer: Writer<Entry>,
    pub(crate) place: Option<Place<N>>,
    pub(crate) item: u32,
}

impl<N: House> Model for LiveItem<N> {
    ghost use Rattle.std.specs.Prelude.{◌≡◌, IfSome};
    ghost use Rattle.std.specs.Arc.{arc_value};
    ghost use Rattle.ls_event.specs.Textual.{Textual};
    ghost use Rattle.ls_register.specs.Items.{ShowsItem};
    ghost use Rattle.ls_live.specs.Live.{HeldItem, StandsFor, shape_kept};

    ghost Value = { HeldItem };

    ghost view = { λ i. record {
      item = i.item;
      place = i.place;
      cell = i.cell;
      table = arc_value i.chron;
      shape = i.cell.item.shape;
      history = i.writer.list;
    } };

    ghost invariant = { λ i. (i.writer.table ≡ arc_value i.chron) × (shape_kept i.shape ≡ i.cell.item.shape)
        × StandsFor i.cell i.writer.list
        × IfSome i.place (λ p. ShowsItem N.deed.config p i.item i.cell.item.shape (arc_value i.chron))
        × Textual i.writer.list };
}

/// An adapter's pass to an item: by it events are published, and it has seen what was published through it. Contracts
/// see the adapter, from 1, the item's number, its place in the register, where the pass knows it, its table and shape,
/// and a beginning of its history, which is a history of that shape and whose texts are UTF-8.
#[derive(Drop)]
pub struct PubPass<N: House> {
    item: u32,
    adapter: u8,
    pub(crate) shape: ItemShape,
    pub(crate) reader: Reader<Entry>,
    pub(crate) place: Option<Place<N>>,
}

impl<N: House> Model for PubPass<N> {
    ghost use Rattle.std.specs.Prelude.{◌≡◌, ◌≤◌, IfSome};
    ghost use Rattle.ls_event.specs.declared.limits.TheConstants.{MOST_ADAPTERS};
    ghost use Rattle.ls_event.specs.Publishes.{IsHistory};
    ghost use Rattle.ls_event.specs.Textual.{Textual};
    ghost use Rattle.ls_register.specs.Items.{ShowsItem};
    ghost use Rattle.ls_live.specs.Live.{Pass, shape_kept};

    ghost Value = { Pass };

    ghost view = { λ p. record {
      adapter = p.adapter;
      item = p.item;
      place = p.place;
      table = p.reader.table;
      shape = shape_kept p.shape;
      list = p.reader.list;
    } };

    ghost invariant = { λ p. (1 ≤ p.adapter) × (p.adapter ≤ MOST_ADAPTERS)
        × IfSome p.place (λ q. ShowsItem N.deed.config q p.item (shape_kept p.shape) p.reader.table)
        × Textual p.reader.list × IsHistory (shape_kept p.shape) p.reader.list };
}

impl<N: House> LiveItem<N> {
    /// A lone item as declared, with an empty history and without a slot. It has 1 to
    /// [`MOST_FIELDS`](ls_event::MOST_FIELDS) fields, and in kind COMMAND a key and a command among them.
    pub fn new(alloc: Global, item: &ItemDef) -> Result<LiveItem<N>, NoMemory>
        requires { IsShape (shape_of item.now) }
        ensures made { IfOk result (λ i. (i.shape ≡ shape_of item.now) × (i.history ≡ []) × (i.place ≡ None)) }
        ensures slots { IfOk result (λ i. StandsCell i.cell [] []) }
    {
        let (chron, writer) = Chron::start(alloc)?;
        let chron = Arc::new(alloc, chron)?;
        let cell = ItemCell::new(alloc, item)?;
        Ok(LiveItem {
            alloc,
            cell,
            shape: ItemShape::of(item),
            chron,
            writer,
            place: None,
            item: 0,
        })
    }

    /// The table of its history, which contracts see. It takes no memory.
    pub fn sign(&mut self) -> Sign<Entry>
        ensures { (result ≡ self.old.table) × (self.new ≡ self.old) }
    {
        self.chron.note(&mut self.writer).sign()
    }

    /// The shared history itself, to be kept beside the item's lock: readers of it count its entries without the lock.
    /// It takes no memory, and is refused only where it is held 2^63 times.
    pub fn history(&self) -> Result<Arc<Chron<Entry>>, NoMemory>
        ensures { IfOk result (λ chron. arc_value chron ≡ self.now.table) }
    {
        Ok(Arc::try_clone(&self.chron)?)
    }

    /// The item at its place in the register, which shows the declared item of this number, from 0.
    pub fn at(self, place: Place<N>, item: u32) -> LiveItem<N>
        requires { ShowsItem N.deed.config place item self.shape self.table }
        ensures { result ≡ record self { item = item; place = Some place } }
    {
        let LiveItem {
            alloc,
            cell,
            shape,
            chron,
            writer,
            place: _,
            item: _,
        } = self;
        LiveItem {
            alloc,
            cell,
            shape,
            chron,
            writer,
            place: Some(place),
            item,
        }
    }

    /// A pass of an adapter, 1 to [`MOST_ADAPTERS`](ls_event::MOST_ADAPTERS), that has seen the whole history. It knows
    /// no place. It takes no memory.
    pub fn pass(&mut self, adapter: u8) -> PubPass<N>
        requires some { 1 ≤ adapter }
        requires most { adapter ≤ MOST }
        ensures same { self.new ≡ self.old }
        ensures pass { result ≡ record (whole_pass self.old adapter) { place = None } }
        ensures textual { Textual result.list }
        ensures lawful { IsHistory result.shape result.list }
    {
        let reader = self.chron.note(&mut self.writer);
        PubPass {
            item: self.item,
            adapter,
            shape: self.shape,
            reader,
            place: None,
        }
    }

    /// Such a pass that knows the item's place in the register.
    pub fn pass_at(&mut self, register: &Chron<Made>, adapter: u8) -> PubPass<N>
        requires register { register.now ≡ N.deed.register }
        requires some { 1 ≤ adapter }
        requires most { adapter ≤ MOST }
        ensures same { self.new ≡ self.old }
        ensures pass { result ≡ whole_pass self.old adapter }
        ensures textual { Textual result.list }
        ensures lawful { IsHistory result.shape result.list }
    {
        let reader = self.chron.note(&mut self.writer);
        let place = match &mut self.place {
            Some(place) => Some(place.again(register)),
            None => None,
        };
        PubPass {
            item: self.item,
            adapter,
            shape: self.shape,
            reader,
            place,
        }
    }

    /// Whether the item has a place in the register, and is the declared item of this number there, from 0. Then each
    /// pass that knows its place is of that item.
    pub fn has_item(&self, item: u32) -> bool
        ensures exact { result ≡ (is_some self.now.place && (self.now.item == item)) }
        ensures of { IsTrue result → (adapter : ℕ) → IsPassFor N.deed.config item (whole_pass self.now adapter) }
    {
        self.place.is_some() && self.item == item
    }

    /// Whether the pass is of this item, by their places in the register. A lone item, and a pass that knows no place,
    /// have none. It takes no memory.
    pub fn is_of(&mut self, register: &Chron<Made>, pass: &mut PubPass<N>) -> bool
        requires { register.now ≡ N.deed.register }
        ensures same { (self.new ≡ self.old) × (pass.new ≡ pass.old) }
        ensures exact { result ≡ are_one self.old.place pass.old.place }
        ensures one { IsTrue result → IsOf pass.old self.old }
    {
        let Some(mine) = &mut self.place else {
            return false;
        };
        let Some(theirs) = &mut pass.place else {
            return false;
        };
        let mut mine = mine.again(register);
        let mut theirs = theirs.again(register);
        mine.is_that(register, &mut theirs)
    }
}

impl<N: House> PubPass<N> {
    /// The number of its item, from 0, where it knows a place.
    pub fn item(&self) -> u32
        ensures { result ≡ self.now.item }
    {
        self.item
    }

    /// Its adapter.
    pub fn adapter(&self) -> u8
        ensures adapter { result ≡ self.now.adapter }
        ensures some { 1 ≤ result }
        ensures most { result ≤ MOST }
    {
        self.adapter
    }
}

/// Adds an event to the end of the item's history by the pass, which then has seen the whole history. It answers the
/// event's number, or the first cause of [`ItemCell::publish`]'s order that stands against it. A slot that lags by
/// [`MOST_LAG`](ls_event::MOST_LAG) is caught up and keeps nothing back, so `Backlog` is never answered. After a
/// refusal the history is as before; some slots may have been caught up. Nothing else becomes of a slot. The pass is of
/// the item, and an update has a cell for each field.
pub fn publish_into<N: House>(
    item: &mut LiveItem<N>,
    pass: &mut PubPass<N>,
    seq: u64,
    event: Event,
) -> Result<u64, PublishRefused>
    requires of { IsOf pass.old item.old }
    requires fields { HasFields item.old.shape.fields event }
    ensures item { item.new ≡ record item.old { cell = item.new.cell; history = item.new.history } }
    ensures slots { KeepsSlots item.old.cell item.old.history item.new.cell item.new.history }
    ensures pass { pass.new ≡ record pass.old { list = item.new.history } }
    ensures begins { IsPrefix pass.old.list item.old.history }
    ensures done { IfOk result (λ number.
        (item.new.history ≡ item.old.history ++ entry_of pass.old.adapter seq event ∷ [])
        × (number ≡ length item.new.history)) }
    ensures admitted { IfOk result (λ _.
        cause_in item.old.shape item.old.history (entry_of pass.old.adapter seq event) ≡ None) }
    ensures refused { IfErr result (λ cause. (item.new.history ≡ item.old.history)
        × IsCause (cause_in item.old.shape item.old.history (entry_of pass.old.adapter seq event)) cause) }
    ensures lawful { IsHistory item.old.shape item.new.history }
    ensures textual { Textual item.new.history }
{
    let entry = copied_entry(item.alloc, pass.adapter(), seq, &event);
    publish_copied(item, pass, seq, event, &entry)
}

/// The same with a copy of the entry that was made before, as before a lock was taken. Without one `NoMemory` is
/// answered, where no other cause is.
pub fn publish_copied<N: House>(
    item: &mut LiveItem<N>,
    pass: &mut PubPass<N>,
    seq: u64,
    event: Event,
    entry: &Result<CopiedEntry, NoMemory>,
) -> Result<u64, PublishRefused>
    requires of { IsOf pass.old item.old }
    requires fields { HasFields item.old.shape.fields event }
    requires copy { IfOk entry.now (λ e. e ≡ entry_of pass.old.adapter seq event) }
    ensures item { item.new ≡ record item.old { cell = item.new.cell; history = item.new.history } }
    ensures slots { KeepsSlots item.old.cell item.old.history item.new.cell item.new.history }
    ensures pass { pass.new ≡ record pass.old { list = item.new.history } }
    ensures begins { IsPrefix pass.old.list item.old.history }
    ensures done { IfOk result (λ number.
        (item.new.history ≡ item.old.history ++ entry_of pass.old.adapter seq event ∷ [])
        × (number ≡ length item.new.history)) }
    ensures admitted { IfOk result (λ _.
        cause_in item.old.shape item.old.history (entry_of pass.old.adapter seq event) ≡ None) }
    ensures refused { IfErr result (λ cause. (item.new.history ≡ item.old.history)
        × IsCause (cause_in item.old.shape item.old.history (entry_of pass.old.adapter seq event)) cause) }
    ensures lawful { IsHistory item.old.shape item.new.history }
    ensures textual { Textual item.new.history }
{
    let LiveItem {
        cell,
        chron,
        writer,
        ..
    } = item;
    add_copied(
        cell,
        &**chron,
        writer,
        &mut pass.reader,
        pass.adapter,
        seq,
        event,
        entry,
    )
}

/// The same of a cell, and of the history for which it stands.
fn add_copied(
    cell: &mut ItemCell,
    chron: &Chron<Entry>,
    writer: &mut Writer<Entry>,
    reader: &mut Reader<Entry>,
    adapter: u8,
    seq: u64,
    event: Event,
    entry: &Result<CopiedEntry, NoMemory>,
) -> Result<u64, PublishRefused>
    requires adapter { adapter ≤ MOST }
    requires fields { HasFields cell.old.item.shape.fields event }
    requires writer { writer.old.table ≡ chron.now }
    requires reader { reader.old.table ≡ chron.now }
    requires stands { StandsFor cell.old writer.old.list }
    requires copy { IfOk entry.now (λ e. e ≡ entry_of adapter seq event) }
    ensures shape { cell.new.item.shape ≡ cell.old.item.shape }
    ensures slots { KeepsSlots cell.old writer.old.list cell.new writer.new.list }
    ensures table { writer.new.table ≡ writer.old.table }
    ensures reader { reader.new ≡ writer.new }
    ensures begins { IsPrefix reader.old.list writer.old.list }
    ensures textual { Textual writer.old.list → Textual writer.new.list }
    ensures done { IfOk result (λ number.
        (writer.new.list ≡ writer.old.list ++ entry_of adapter seq event ∷ [])
        × (number ≡ length writer.new.list)) }
    ensures admitted { IfOk result (λ _.
        cause_in cell.old.item.shape writer.old.list (entry_of adapter seq event) ≡ None) }
    ensures refused { IfErr result (λ cause. (writer.new.list ≡ writer.old.list)
        × IsCause (cause_in cell.old.item.shape writer.old.list (entry_of adapter seq event)) cause) }
{
    chron.whole(writer, reader);
    let entry = match weigh_copied(cell, adapter, seq, &event, entry) {
        Ok(entry) => entry,
        Err(cause) => return Err(cause),
    };
    let Ok(()) = cell.add(adapter, seq, event) else {
        return Err(PublishRefused::NoMemory);
    };
    let Ok(number) = chron.append(writer, entry) else {
        unreachable!()
    };
    chron.whole(writer, reader);
    Ok(number)
}

/// The copy of an event against which nothing stands.
fn weigh_copied<'a>(
    cell: &mut ItemCell,
    adapter: u8,
    seq: u64,
    event: &Event,
    entry: &'a Result<CopiedEntry, NoMemory>,
) -> Result<&'a Entry, PublishRefused>
    requires adapter { adapter ≤ MOST }
    requires fields { HasFields cell.old.item.shape.fields event.now }
    requires copy { IfOk entry.now (λ e. e ≡ entry_of adapter seq event.now) }
    ensures shape { cell.new.item.shape ≡ cell.old.item.shape }
    ensures slots { (h : List Entry) → KeepsSlots cell.old h cell.new h }
    ensures copy { IfOk result (λ e. e.now ≡ entry_of adapter seq event.now) }
    ensures textual { IfOk result (λ e. TextualEvent e.now.event) }
    ensures ok { OnOk result (refusal_of cell.new (entry_of adapter seq event.now) ≡ None) }
    ensures admitted { OnOk result ((h : List Entry) → StandsFor cell.old h
        → cause_in cell.old.item.shape h (entry_of adapter seq event.now) ≡ None) }
    ensures refused { IfErr result (λ cause. (h : List Entry) → StandsFor cell.old h
        → IsCause (cause_in cell.old.item.shape h (entry_of adapter seq event.now)) cause) }
{
    match weigh(cell, adapter, seq, event) {
        Ok(()) => {}
        Err(cause) => return Err(cause),
    }
    let Ok(entry) = entry else {
        return Err(PublishRefused::NoMemory);
    };
    Ok(entry.as_entry())
}
