//! The items of a server behind their locks, and its register with the sessions behind one of its own.
ghost use Rattle.std.specs.Prelude.{◌≡◌, ◌<◌, ◌≤◌, ◌+◌, ◌++◌, ◌∷◌, [], true, IfOk, IfErr, IfSome, OnOk, Some, length};
ghost use Rattle.std.specs.Prelude.{slice_get, vec_len};
ghost use Rattle.std.specs.Vec.{vec_capacity};
ghost use mathlib.Core.List.{IsPrefix};
ghost use Rattle.ls_event.specs.History.{HasFields};
ghost use Rattle.ls_event.specs.Shapes.{IsShape, shape_of};
ghost use Rattle.ls_event.specs.Textual.{Textual};
ghost use Rattle.ls_event.specs.declared.limits.TheConstants.{MOST_ADAPTERS};
ghost use Rattle.ls_config.specs.Items.{are_items};
ghost use Rattle.ls_config.specs.declared.items.TheConstants.{MOST_ITEMS};
ghost use Rattle.ls_register.specs.Items.{items_of, facts_of, fact_of};
ghost use Rattle.ls_live.specs.Live.{IsCause, IsPassFor, cause_in, entry_of};
ghost use Rattle.ls_shared.specs.Offers.{HasOnce};

use crate::testimony::Held;
use crossbeam_utils::CachePadded;
use ls_bell::Bell;
use ls_chron::{Chron, Writer};
use ls_config::Config;
use ls_event::{Event, ItemDef, PublishRefused};
use ls_live::{CopiedEntry, LiveItem, PubPass, copied_entry};
use ls_outside::{Gate, Point};
use ls_register::{Blank, Book, House, Made, View, add_item, wait_for_good};
use ls_seated::Seated;
use ls_value::NoMemory;
use std::alloc::Global;
use std::sync::atomic::AtomicU64;
use std::sync::{Arc, Mutex, Wait};

/// The items of a server, each behind its lock and on cache lines of its own, so that offers to two of them don't slow
/// one another; with the register that says what was made, and the sessions. It keeps the allocator that its constructor
/// took. `overdue` is a tick, in ms, before which no session is without a stream for too long.
#[derive(Drop)]
pub struct Shared<N: House> {
    pub(crate) alloc: Global,
    pub(crate) register: Chron<Made>,
    pub(crate) config: Config,
    pub(crate) book: Mutex<Book<N, Held<N>>>,
    pub(crate) items: Vec<CachePadded<Mutex<Seated<N>>>>,
    pub(crate) overdue: AtomicU64,
    ghost named: { register ≡ N.deed.register },
    ghost is_set: { config.set ≡ N.deed.set },
    ghost configured: { config.items ≡ N.deed.config },
    ghost counted: { vec_len items ≡ length config.items },
    ghost sound: { are_items config.items ≡ true },
}

impl<N: House> Shared<N> {
    /// The items of a config with empty histories; they stand first in the register. `N` names the register of the
    /// blank, and the config's adapter set and items. The items are those that a config may have.
    pub fn new(alloc: Global, blank: Blank, config: Config) -> Result<Shared<N>, NoMemory>
        requires register { blank.register ≡ N.deed.register }
        requires set { config.set ≡ N.deed.set }
        requires config { config.items ≡ N.deed.config }
        requires items { are_items config.items ≡ true }
    {
        let Blank {
            register,
            mut writer,
        } = blank;
        let items = live_items::<N>(alloc, &register, &mut writer, config.items.as_slice())?;
        let count = config.items.len() as u64;
        let book = Mutex::new(Book::new(alloc, writer, count));
        Ok(Shared {
            alloc,
            register,
            config,
            book,
            items,
            overdue: AtomicU64::new(u64::MAX),
        })
    }

    /// An adapter's pass of an item, whose list is the item's history as it stands under the item's lock, with texts in
    /// UTF-8: the register shows that item at the pass's place. The item is one of the config's, by its number from 0;
    /// the adapter is 1 to 64. It takes no memory, and may wait.
    pub fn pass<R: Wait>(&self, rt: &R, item: u32, adapter: u8) -> PubPass<N>
        requires item { item < length N.deed.config }
        requires some { 1 ≤ adapter }
        requires most { adapter ≤ MOST_ADAPTERS }
        ensures adapter { result.adapter ≡ adapter }
        ensures of { IsPassFor N.deed.config item result }
        ensures shape { IfSome (slice_get N.deed.config item) (λ d. result.shape ≡ shape_of d) }
        ensures textual { Textual result.list }
    {
        let lock: &Mutex<Seated<N>> = &self.items[item as usize];
        let mut live = lock.lock(rt);
        pass_of(rt, &mut live, &self.register, item, adapter)
    }

    /// The config with which it was made. It takes no lock and no memory.
    pub fn config(&self) -> &Config
        ensures set { result.now.set ≡ N.deed.set }
        ensures items { result.now.items ≡ N.deed.config }
    {
        &self.config
    }

    /// A view of the register as it stands under its lock. Its items are those of the config, in order. It takes no
    /// memory, and may wait.
    pub fn view<R: Wait>(&self, rt: &R) -> View<N>
        ensures { items_of result ≡ facts_of N.deed.config }
    {
        self.book.lock(rt).view(&self.register)
    }

    /// Adds an event to the history of the pass's item, under the item's lock, and answers its number, from 1. An
    /// update has a cell for each of the item's fields. The pass stays one of that item. It then has the history as it
    /// stood when the lock was let go, whose texts are UTF-8, and of that list the answer is true:
    /// - a number: the event stands there at it, and no other one of this adapter has this seq;
    /// - a refusal: it is the first cause that stands against the event behind that list, in the order of
    ///   [`PublishRefused`]. `NoMemory` may come where there is none. `Backlog` never comes.
    ///
    /// The gate is passed while the lock is held. The call may wait.
    pub fn offer<R: Wait, G: Gate>(
        &self,
        rt: &R,
        pass: &mut PubPass<N>,
        seq: u64,
        event: Event,
        gate: &G,
    ) -> Result<u64, PublishRefused>
        requires { HasFields pass.old.shape.fields event }
        ensures begins { IsPrefix pass.old.list pass.new.list }
        ensures adapter { pass.new.adapter ≡ pass.old.adapter }
        ensures item { (pass.new.table ≡ pass.old.table) × (pass.new.shape ≡ pass.old.shape)
            × (pass.new.item ≡ pass.old.item) × (pass.new.place ≡ pass.old.place) }
        ensures done { IfOk result (λ no. HasOnce pass.new.list no pass.old.adapter seq event) }
        ensures refused { IfErr result
            (IsCause (cause_in pass.old.shape pass.new.list (entry_of pass.old.adapter seq event))) }
        ensures textual { Textual pass.new.list }
    {
        let item = pass.item();
        let answer = self.offer_quietly(rt, pass, seq, event, gate);
        self.ring(rt, item);
        answer
    }

    /// The same, and no session learns of it before [`Shared::ring`] is called for the item. So of events that come at once
    /// a session is woken once.
    pub fn offer_quietly<R: Wait, G: Gate>(
        &self,
        rt: &R,
        pass: &mut PubPass<N>,
        seq: u64,
        event: Event,
        gate: &G,
    ) -> Result<u64, PublishRefused>
        requires { HasFields pass.old.shape.fields event }
        ensures begins { IsPrefix pass.old.list pass.new.list }
        ensures adapter { pass.new.adapter ≡ pass.old.adapter }
        ensures item { (pass.new.table ≡ pass.old.table) × (pass.new.shape ≡ pass.old.shape)
            × (pass.new.item ≡ pass.old.item) × (pass.new.place ≡ pass.old.place) }
        ensures done { IfOk result (λ no. HasOnce pass.new.list no pass.old.adapter seq event) }
        ensures refused { IfErr result
            (IsCause (cause_in pass.old.shape pass.new.list (entry_of pass.old.adapter seq event))) }
        ensures textual { Textual pass.new.list }
    {
        let copied = copied_entry(self.alloc, pass.adapter(), seq, &event);
        let item = pass.item();
        let Some(lock) = self.items.get(item as usize) else {
            wait_for_good(rt);
            unreachable!()
        };
        let mut live = lock.lock(rt);
        gate.pass(Point::Offering { item });
        offer_to(rt, &mut live, &self.register, pass, seq, event, &copied)
    }

    /// Wakes the sessions that have slots on an item. It takes the item's lock, and no memory.
    pub fn ring<R: Wait>(&self, rt: &R, item: u32) {
        let Some(lock) = self.items.get(item as usize) else {
            return;
        };
        let bells = lock.lock(rt).bells();
        if let Ok(bells) = bells {
            ring(&bells);
        }
    }
}

/// The items of a config, whose places the register then has.
fn live_items<N: House>(
    alloc: Global,
    register: &Chron<Made>,
    writer: &mut Writer<Made>,
    defs: &[ItemDef],
) -> Result<Vec<CachePadded<Mutex<Seated<N>>>>, NoMemory>
    requires register { register.now ≡ N.deed.register }
    requires writer { writer.old.table ≡ N.deed.register }
    requires empty { writer.old.list ≡ [] }
    requires config { defs.now ≡ N.deed.config }
    requires items { are_items defs.now ≡ true }
    ensures table { writer.new.table ≡ N.deed.register }
    ensures items { OnOk result (items_of writer.new.list ≡ facts_of N.deed.config) }
    ensures count { IfOk result (λ items. vec_len items ≡ length N.deed.config) }
    ensures entries { OnOk result (length writer.new.list ≡ length N.deed.config) }
{
    let mut items = Vec::with_capacity(alloc, defs.len())?;
    push_items::<N>(alloc, register, writer, defs, &mut items)?;
    Ok(items)
}

/// Adds the items of a config, whose places the register then has. There is room for them.
fn push_items<N: House>(
    alloc: Global,
    register: &Chron<Made>,
    writer: &mut Writer<Made>,
    defs: &[ItemDef],
    items: &mut Vec<CachePadded<Mutex<Seated<N>>>>,
) -> Result<(), NoMemory>
    requires register { register.now ≡ N.deed.register }
    requires writer { writer.old.table ≡ N.deed.register }
    requires empty { writer.old.list ≡ [] }
    requires config { defs.now ≡ N.deed.config }
    requires items { are_items defs.now ≡ true }
    requires room { length defs.now ≤ vec_capacity items.old }
    requires none { vec_len items.old ≡ 0 }
    ensures table { writer.new.table ≡ N.deed.register }
    ensures items { OnOk result (items_of writer.new.list ≡ facts_of N.deed.config) }
    ensures count { OnOk result (vec_len items.new ≡ length N.deed.config) }
    ensures entries { OnOk result (length writer.new.list ≡ length N.deed.config) }
{
    for item in 0..defs.len() {
        let live = live_item::<N>(alloc, register, writer, item as u32, &defs[item])?;
        items.push_reserved(CachePadded::new(Mutex::new(live)));
    }
    Ok(())
}

/// An item of a config, by its number, whose place the register then has.
fn live_item<N: House>(
    alloc: Global,
    register: &Chron<Made>,
    writer: &mut Writer<Made>,
    item: u32,
    def: &ItemDef,
) -> Result<Seated<N>, NoMemory>
    requires register { register.now ≡ N.deed.register }
    requires writer { writer.old.table ≡ N.deed.register }
    requires declared { slice_get N.deed.config item ≡ Some def.now }
    requires shape { IsShape (shape_of def.now) }
    requires few { length writer.old.list < MOST_ITEMS }
    ensures table { writer.new.table ≡ N.deed.register }
    ensures items { OnOk result (items_of writer.new.list ≡ items_of writer.old.list ++ fact_of item def.now ∷ []) }
    ensures more { OnOk result (length writer.new.list ≡ length writer.old.list + 1) }
{
    let mut live = LiveItem::<N>::new(alloc, def)?;
    let table = live.sign();
    let Ok(place) = add_item::<N>(register, writer, item, def, table) else {
        unreachable!()
    };
    Seated::new(alloc, live.at(place, item))
}

/// An adapter's pass of the item behind a lock. Where that isn't the item of this number, it waits for good.
fn pass_of<N: House, R: Wait>(
    rt: &R,
    live: &mut Seated<N>,
    register: &Chron<Made>,
    item: u32,
    adapter: u8,
) -> PubPass<N>
    requires register { register.now ≡ N.deed.register }
    requires some { 1 ≤ adapter }
    requires most { adapter ≤ MOST_ADAPTERS }
    ensures adapter { result.adapter ≡ adapter }
    ensures of { IsPassFor N.deed.config item result }
    ensures shape { IfSome (slice_get N.deed.config item) (λ d. result.shape ≡ shape_of d) }
    ensures textual { Textual result.list }
{
    if !live.has_item(item) {
        wait_for_good(rt);
    }
    live.pass_at(register, adapter)
}

/// Adds an event to the item behind a lock. Where the pass is of another item, it waits for good.
fn offer_to<N: House, R: Wait>(
    rt: &R,
    live: &mut Seated<N>,
    register: &Chron<Made>,
    pass: &mut PubPass<N>,
    seq: u64,
    event: Event,
    copied: &Result<CopiedEntry, NoMemory>,
) -> Result<u64, PublishRefused>
    requires register { register.now ≡ N.deed.register }
    requires fields { HasFields pass.old.shape.fields event }
    requires copied { IfOk copied.now (λ e. e ≡ entry_of pass.old.adapter seq event) }
    ensures begins { IsPrefix pass.old.list pass.new.list }
    ensures adapter { pass.new.adapter ≡ pass.old.adapter }
    ensures item { (pass.new.table ≡ pass.old.table) × (pass.new.shape ≡ pass.old.shape)
        × (pass.new.item ≡ pass.old.item) × (pass.new.place ≡ pass.old.place) }
    ensures done { IfOk result (λ no. HasOnce pass.new.list no pass.old.adapter seq event) }
    ensures refused { IfErr result
        (IsCause (cause_in pass.old.shape pass.new.list (entry_of pass.old.adapter seq event))) }
    ensures textual { Textual pass.new.list }
{
    if !live.is_of(register, pass) {
        wait_for_good(rt);
    }
    live.publish_copied(pass, seq, event, copied)
}

/// Rings each bell. No thread is woken before all of them are noted: so one that waits for many finds all of them rung.
fn ring(bells: &Vec<Arc<Bell, Global>, Global>) {
    for bell in bells.iter() {
        bell.note();
    }
    for bell in bells.iter() {
        bell.wake();
    }
}
