//! The steps by which a subscription is added to a session in parts.
ghost use Rattle.std.specs.Prelude.{◌≡◌, ◌≤◌, ◌<◌, ◌+◌, ◌++◌, ◌∷◌, [], ℕ, None, Some, IfOk, IfErr, IfSome, OnOk, OnErr, IsTrue, IsFalse};
ghost use Rattle.std.specs.Prelude.{true, false, length, map, slice_get};
ghost use Rattle.ls_value.specs.declared.limits.TheConstants.{GREATEST_TICK};
ghost use Rattle.ls_request.specs.Ranges.{AddFits};
ghost use Rattle.ls_subs.specs.declared.plan.Refusal.TheVariants as Refusal;
ghost use Rattle.ls_told.specs.Seen.{SeesMore};
ghost use Rattle.ls_told.specs.Heard.{counts_as};
ghost use Rattle.ls_told.specs.Requests.{is_spent, op_code};
ghost use Rattle.std.specs.Prelude.{◌||◌, List, IsErrOf};
ghost use Rattle.std.specs.Vec.{vec_len, vec_capacity};
ghost use Rattle.ls_value.specs.Each.{Each};
ghost use Rattle.atomic_table.specs.Seated.{TableId};
ghost use Rattle.ls_cell.specs.Numbered.{live_slots};
ghost use Rattle.ls_register.specs.declared.made.Made.TheVariants.{Slot as SlotMade};
ghost use Rattle.ls_request.specs.declared.request.Add.{Add as Added};
ghost use Rattle.ls_request.specs.declared.request.Op.TheVariants as op;
ghost use Rattle.ls_record.specs.Records.{shape_in};
ghost use Rattle.ls_record.specs.declared.TheConstants.{MOST_GROUP_ITEMS};
ghost use Rattle.ls_register.specs.declared.told.Told.{Told};
ghost use Rattle.ls_seated.specs.Seats.{SeatSeen, IsJoinCause};
ghost use Rattle.ls_subs.specs.declared.plan.PlanItem.{PlanItem as Planned};
ghost use Rattle.ls_subs.specs.Plans.{IsPlan, MayJoin};
ghost use Rattle.ls_session.specs.declared.session.Session.{Session as Kept};
ghost use Rattle.ls_session.specs.Record.{Record, adding_code};
ghost use Rattle.ls_session.specs.Session.{StandsSession, IsReady};
ghost use Rattle.ls_parts.specs.Groups.{SubSeen};
ghost use Rattle.ls_parts.specs.Lives.{Lives};
ghost use Rattle.ls_parts.specs.Sights.{IsFirst};
ghost use Rattle.ls_joining.specs.Adding.{AddsTo, IsAdding, slot_begun, AddsWatch, JoinsNow, JoinsOne, JoinsNone};

use ls_bell::Bell;
use ls_chron::Chron;
use ls_config::Config;
use ls_live::Watch;
use ls_parts::{SessionParts, SubSeats, find_watch, fits, no_cut};
use ls_register::{Begun, Book, House, Made, SlotBegun};
use ls_request::Add;
use ls_seated::{JoinRefused, Seat, Seated};
use ls_subs::{AddPlan, PlanItem, Refusal};
use ls_value::{Names, NoMemory};
use std::alloc::Global;
use std::sync::Arc;

/// What is prepared for an add: its plan, and what the line with which its subscription begins is to say, without the
/// slots, for which there is room.
#[derive(Drop)]
pub struct Prepared {
    pub plan: AddPlan,
    pub schema: Names,
    pub slots: Vec<SlotBegun>,
}

/// A plan for the subscription that an add asks for, room for its seats, and what the line with which it begins is to say.
/// `free` is the number of slots that the server may still give, and `spent` says whether its register is. It is refused, in
/// this order: 20 where the session has ended, 72, 70, 21, 24, 23, 71, 74 as
/// [`Session::prepare_add`](ls_session::Session::prepare_add) says, and 74 where the session's history or the register is
/// spent. A refusal leaves what the parts stand for.
pub fn prepare_in<N: House>(
    parts: &mut SessionParts<N>,
    add: &Add,
    config: &Config,
    free: u32,
    spent: bool,
) -> Result<Prepared, Refusal>
    requires fits { AddFits add.now }
    requires config { config.now.items ≡ N.deed.config }
    ensures rest { parts.new ≡ record parts.old { session = parts.new.session; subs = parts.new.subs } }
    ensures subs { parts.new.subs.items ≡ parts.old.subs.items }
    ensures room { OnOk result (vec_len parts.new.subs + 1 ≤ vec_capacity parts.new.subs) }
    ensures plan { IfOk result (λ p. IsPlan N.deed.config add.now p.plan) }
    ensures join { IfOk result (λ p. Each (MayJoin N.deed.config) p.plan.items.items) }
    ensures ready { IfOk result (λ p. IsReady parts.new.session p.plan) }
    ensures schema { IfOk result (λ p. p.schema ≡ add.now.schema) }
    ensures none { IfOk result (λ p. (p.slots.items ≡ []) × (vec_len p.slots ≡ 0)) }
    ensures enough { IfOk result (λ p. length p.plan.items.items ≤ vec_capacity p.slots) }
    ensures accepted { OnOk result ((r : Record) → StandsSession parts.old.session r
        → adding_code N.deed.config free r.session add.now ≡ None) }
    ensures left { OnOk result ((is_spent parts.old.history.list ≡ false) × (spent ≡ false)) }
    ensures refused { (code : ℕ) → IsErrOf result (Refusal.Code code) → (r : Record) → StandsSession parts.old.session r
        → op_code N.deed.config free (is_spent parts.old.history.list || spent) r.session (op.Add add.now) ≡ Some code }
    ensures same { (r : Record) → StandsSession parts.old.session r → StandsSession parts.new.session r }
{
    match plan_in(parts, add, config, free, spent) {
        Ok(plan) => {
            let Ok(schema) = add.schema.copy(parts.alloc) else {
                return Err(Refusal::NoMemory);
            };
            let Ok(slots) = Vec::with_capacity(parts.alloc, plan.items.len()) else {
                return Err(Refusal::NoMemory);
            };
            Ok(Prepared {
                plan,
                schema,
                slots,
            })
        }
        Err(cause) => Err(cause),
    }
}

/// A plan for the subscription that an add asks for, and room for its seats.
fn plan_in<N: House>(
    parts: &mut SessionParts<N>,
    add: &Add,
    config: &Config,
    free: u32,
    spent: bool,
) -> Result<AddPlan, Refusal>
    requires fits { AddFits add.now }
    requires config { config.now.items ≡ N.deed.config }
    ensures rest { parts.new ≡ record parts.old { session = parts.new.session; subs = parts.new.subs } }
    ensures subs { parts.new.subs.items ≡ parts.old.subs.items }
    ensures room { OnOk result (vec_len parts.new.subs + 1 ≤ vec_capacity parts.new.subs) }
    ensures plan { IfOk result (λ p. IsPlan N.deed.config add.now p) }
    ensures join { IfOk result (λ p. Each (MayJoin N.deed.config) p.items.items) }
    ensures ready { IfOk result (λ p. IsReady parts.new.session p) }
    ensures accepted { OnOk result ((r : Record) → StandsSession parts.old.session r
        → adding_code N.deed.config free r.session add.now ≡ None) }
    ensures left { OnOk result ((is_spent parts.old.history.list ≡ false) × (spent ≡ false)) }
    ensures refused { (code : ℕ) → IsErrOf result (Refusal.Code code) → (r : Record) → StandsSession parts.old.session r
        → op_code N.deed.config free (is_spent parts.old.history.list || spent) r.session (op.Add add.now) ≡ Some code }
    ensures same { (r : Record) → StandsSession parts.old.session r → StandsSession parts.new.session r }
{
    let Ok(()) = parts.subs.reserve(1) else {
        return Err(Refusal::NoMemory);
    };
    match parts.session.prepare_add(add, config, free) {
        Ok(plan) => {
            if parts.history.is_spent() {
                Err(Refusal::Code(74))
            } else if spent {
                Err(Refusal::Code(74))
            } else {
                Ok(plan)
            }
        }
        Err(cause) => Err(cause),
    }
}

/// The number of the item of a plan at a place, from 0; `None` behind the last one.
pub fn item_at(items: &Vec<PlanItem>, place: usize) -> Option<u32>
    ensures { result ≡ slice_get (map (λ (p : Planned). p.item) items.now.items) place }
{
    match items.get(place) {
        Some(item) => Some(item.item),
        None => None,
    }
}

/// Where the first watch of an item stands, which is begun where there is none; `None` where the one that there is isn't
/// of this item.
fn watch_of<N: House>(
    watches: &mut Vec<Watch<N>>,
    register: &Chron<Made>,
    item: &mut Seated<N>,
    number: u32,
) -> Result<Option<usize>, NoMemory>
    requires register { register.now ≡ N.deed.register }
    requires number { item.old.item.item ≡ number }
    ensures item { item.new ≡ item.old }
    ensures more { AddsWatch N.deed.config watches.old.items watches.new.items }
    ensures found { IfOk result (λ o. IfSome o (λ k. IsFirst watches.new.items k number item.old.item)) }
{
    match find_watch(watches, number) {
        Some(place) => {
            let watch = &mut watches[place];
            if item.is_watch(register, watch) {
                Ok(Some(place))
            } else {
                Ok(None)
            }
        }
        None => {
            watches.reserve(1)?;
            let watch = item.watch(register)?;
            fits(&watch);
            let place = watches.len();
            watches.push_reserved(watch);
            Ok(Some(place))
        }
    }
}

/// The slot of the next item of a plan joins it, its seat and its number there are added to those that there are, and the
/// item's whole history was seen then. `false`, where this isn't the next item as the register knows it, changes no slot, nor
/// does a refusal.
pub fn join_next<N: House, H: Drop>(
    parts: &mut SessionParts<N>,
    plan: &AddPlan,
    seats: &mut Vec<Seat<N>>,
    numbers: &mut Vec<u32>,
    register: &Chron<Made>,
    item: &mut Seated<N>,
    book: &mut Book<N, H>,
) -> Result<bool, JoinRefused>
    requires register { register.now ≡ N.deed.register }
    requires may { Each (MayJoin N.deed.config) plan.now.items.items }
    requires few { length plan.now.items.items ≤ MOST_GROUP_ITEMS }
    ensures rest { parts.new ≡ record parts.old { watches = parts.new.watches } }
    ensures keeps { (es : List Told) (subs : List SubSeen) (k : Kept) (a : Added) (free : ℕ) (r : Record)
        → IsAdding N.deed.config parts.old.number es parts.old.watches.items subs k a free plan.now seats.old.items
        numbers.old.items r
        → IsAdding N.deed.config parts.old.number es parts.new.watches.items subs k a free plan.now seats.new.items
        numbers.new.items r }
    ensures more { SeesMore parts.old.watches.items parts.new.watches.items }
    ensures joined { IfOk result (λ joins. IsTrue joins → length seats.new.items ≡ length seats.old.items + 1) }
    ensures other { IfOk result (λ joins. IsFalse joins → (length seats.new.items ≡ length seats.old.items)
        × (item.new ≡ item.old) × (book.new ≡ book.old)) }
    ensures item { item.new.item ≡ record item.old.item { cell = item.new.item.cell } }
    ensures err { OnErr result ((length seats.new.items ≡ length seats.old.items) × (item.new ≡ item.old)
        × (book.new ≡ book.old)) }
    ensures cause { IfErr result (IsJoinCause (live_slots item.old.item.cell.slots) (length book.old)) }
    ensures book { IfOk result (λ joins. IsTrue joins → (number : ℕ) × (table : TableId)
        × (book.new ≡ book.old ++ SlotMade item.old.item.item number table ∷ [])) }
{
    let Some(next) = plan.items.get(seats.len()) else {
        return Ok(false);
    };
    if item.has_item(next.item) {
        join_item(parts, plan.sub, next, seats, numbers, register, item, book)
    } else {
        Ok(false)
    }
}

/// The slot of an item joins it, and its seat is added. `false` where the watch of the item that there is isn't of this
/// one.
fn join_item<N: House, H: Drop>(
    parts: &mut SessionParts<N>,
    sub: u32,
    next: &PlanItem,
    seats: &mut Vec<Seat<N>>,
    numbers: &mut Vec<u32>,
    register: &Chron<Made>,
    item: &mut Seated<N>,
    book: &mut Book<N, H>,
) -> Result<bool, JoinRefused>
    requires register { register.now ≡ N.deed.register }
    requires number { item.old.item.item ≡ next.now.item }
    requires shape { item.old.item.shape ≡ shape_in N.deed.config next.now.item }
    requires may { MayJoin N.deed.config next.now }
    requires few { length seats.old.items < MOST_GROUP_ITEMS }
    ensures rest { parts.new ≡ record parts.old { watches = parts.new.watches } }
    ensures joins { IfOk result (λ joins. IsTrue joins → JoinsOne N.deed.config parts.old.watches.items parts.new.watches.items sub
        seats.old.items seats.new.items numbers.old.items numbers.new.items item.old.item next.now) }
    ensures other { IfOk result (λ joins. IsFalse joins → JoinsNone N.deed.config parts.old.watches.items
        parts.new.watches.items seats.old.items seats.new.items numbers.old.items numbers.new.items) }
    ensures err { OnErr result (JoinsNone N.deed.config parts.old.watches.items parts.new.watches.items seats.old.items
        seats.new.items numbers.old.items numbers.new.items) }
    ensures stays { IfOk result (λ joins. IsFalse joins → (item.new ≡ item.old) × (book.new ≡ book.old)) }
    ensures kept { OnErr result ((item.new ≡ item.old) × (book.new ≡ book.old)) }
    ensures item { item.new.item ≡ record item.old.item { cell = item.new.item.cell } }
    ensures cause { IfErr result (IsJoinCause (live_slots item.old.item.cell.slots) (length book.old)) }
    ensures book { IfOk result (λ joins. IsTrue joins → (number : ℕ) × (table : TableId)
        × (book.new ≡ book.old ++ SlotMade item.old.item.item number table ∷ [])) }
{
    let Ok(found) = watch_of(&mut parts.watches, register, item, next.item) else {
        return Err(JoinRefused::NoMemory);
    };
    match found {
        Some(place) => join_at(
            parts, place, sub, next, seats, numbers, register, item, book,
        ),
        None => Ok(false),
    }
}

/// The slot of an item joins it behind what the watch at a place then sees, and its seat is added.
fn join_at<N: House, H: Drop>(
    parts: &mut SessionParts<N>,
    place: usize,
    sub: u32,
    next: &PlanItem,
    seats: &mut Vec<Seat<N>>,
    numbers: &mut Vec<u32>,
    register: &Chron<Made>,
    item: &mut Seated<N>,
    book: &mut Book<N, H>,
) -> Result<bool, JoinRefused>
    requires register { register.now ≡ N.deed.register }
    requires first { IsFirst parts.old.watches.items place next.now.item item.old.item }
    requires shape { item.old.item.shape ≡ shape_in N.deed.config next.now.item }
    requires may { MayJoin N.deed.config next.now }
    requires few { length seats.old.items < MOST_GROUP_ITEMS }
    ensures rest { parts.new ≡ record parts.old { watches = parts.new.watches } }
    ensures joins { IfOk result (λ joins. (joins ≡ true) × ((t : SeatSeen) × (seats.new.items ≡ seats.old.items ++ t ∷ [])
        × (numbers.new.items ≡ numbers.old.items ++ t.number ∷ [])
        × JoinsNow N.deed.config parts.old.watches.items parts.new.watches.items place sub (length seats.old.items)
        item.old.item next.now t)) }
    ensures item { item.new.item ≡ record item.old.item { cell = item.new.item.cell } }
    ensures err { OnErr result ((parts.new.watches.items ≡ parts.old.watches.items) × (seats.new.items ≡ seats.old.items)
        × (numbers.new.items ≡ numbers.old.items) × (item.new ≡ item.old) × (book.new ≡ book.old)) }
    ensures cause { IfErr result (IsJoinCause (live_slots item.old.item.cell.slots) (length book.old)) }
    ensures book { IfOk result (λ joins. IsTrue joins → (number : ℕ) × (table : TableId)
        × (book.new ≡ book.old ++ SlotMade item.old.item.item number table ∷ [])) }
{
    let Ok(bell) = make_room(parts, seats, numbers) else {
        return Err(JoinRefused::NoMemory);
    };
    let rank = seats.len() as u32;
    let watch = &mut parts.watches[place];
    let seat = item.join(
        parts.alloc,
        register,
        book,
        next.mode,
        next.n,
        next.snapshot,
        watch,
        sub,
        rank,
        bell,
    )?;
    fits(watch);
    numbers.push_reserved(seat.number());
    seats.push_reserved(seat);
    Ok(true)
}

/// Room for one seat more, and the session's bell once more.
fn make_room<N: House>(
    parts: &SessionParts<N>,
    seats: &mut Vec<Seat<N>>,
    numbers: &mut Vec<u32>,
) -> Result<Arc<Bell, Global>, NoMemory>
    ensures seats { seats.new.items ≡ seats.old.items }
    ensures numbers { numbers.new.items ≡ numbers.old.items }
    ensures room { OnOk result ((vec_len seats.new + 1 ≤ vec_capacity seats.new)
        × (vec_len numbers.new + 1 ≤ vec_capacity numbers.new)) }
{
    seats.reserve(1)?;
    numbers.reserve(1)?;
    let bell = Arc::try_clone(&parts.bell)?;
    Ok(bell)
}

/// With what a subscription begins that has these seats. There is room for its slots.
fn begun_by<N: House>(schema: Names, slots: Vec<SlotBegun>, seats: &Vec<Seat<N>>) -> Begun
    requires none { (slots.items ≡ []) × (vec_len slots ≡ 0) }
    requires room { length seats.now.items ≤ vec_capacity slots }
    ensures { result ≡ record { schema = schema; slots = map slot_begun seats.now.items } }
{
    let mut slots = slots;
    push_slots(&mut slots, seats);
    Begun::new(schema, slots)
}

/// Adds what is told of the slot of each seat. There is room for them.
fn push_slots<N: House>(slots: &mut Vec<SlotBegun>, seats: &Vec<Seat<N>>)
    requires none { (slots.old.items ≡ []) × (vec_len slots.old ≡ 0) }
    requires room { length seats.now.items ≤ vec_capacity slots.old }
    ensures { slots.new.items ≡ map slot_begun seats.now.items }
{
    for i in 0..seats.len() {
        let seat = &seats[i];
        slots.push_reserved(slot_of(seat));
    }
}

/// What is told of the slot of a seat as its subscription begins.
fn slot_of<N: House>(seat: &Seat<N>) -> SlotBegun
    ensures { result ≡ slot_begun seat.now }
{
    let plan = seat.plan();
    SlotBegun {
        item: seat.item(),
        mode: plan.mode,
        size: plan.size,
        snapshot: plan.snapshot,
        base: plan.base,
    }
}

/// The subscription of a plan begins at a tick, in ms, with the seats of its slots, which have all joined: the history has its
/// SUBOK or SUBCMD and its CONF. It takes no memory.
pub fn finish_in<N: House>(
    parts: &mut SessionParts<N>,
    plan: AddPlan,
    schema: Names,
    slots: Vec<SlotBegun>,
    seats: Vec<Seat<N>>,
    numbers: &Vec<u32>,
    now: u64,
)
    requires tick { now ≤ GREATEST_TICK }
    requires room { vec_len parts.old.subs + 1 ≤ vec_capacity parts.old.subs }
    requires all { length seats.items ≡ length plan.items.items }
    requires none { (slots.items ≡ []) × (vec_len slots ≡ 0) }
    requires enough { length plan.items.items ≤ vec_capacity slots }
    requires adding { (a : Added) × (free : ℕ) × (r : Record) × IsAdding N.deed.config parts.old.number
        parts.old.history.list parts.old.watches.items parts.old.subs.items parts.old.session a free plan seats.items
        numbers.now.items r }
    ensures rest { parts.new ≡ record parts.old {
      session = parts.new.session;
      history = parts.new.history;
      subs = parts.new.subs;
    } }
    ensures table { parts.new.history.table ≡ parts.old.history.table }
    ensures added { (a : Added) (free : ℕ) (r : Record) → schema ≡ a.schema → IsAdding N.deed.config parts.old.number parts.old.history.list
        parts.old.watches.items parts.old.subs.items parts.old.session a free plan seats.items numbers.now.items r
        → Lives N.deed.config parts.old.number parts.new.history.list parts.old.watches.items parts.new.subs.items
        parts.new.session
        × AddsTo N.deed.config parts.old.number a free (counts_as now parts.old.history.list) parts.old.history.list
        parts.new.history.list parts.old.watches.items }
{
    let tick = parts.history.tick(now);
    let begun = begun_by(schema, slots, &seats);
    parts
        .history
        .tell_begun(plan.begins.as_slice(), begun, tick);
    parts
        .history
        .tell_numbered(plan.configures.as_slice(), no_cut(), tick);
    let sub = plan.sub;
    parts.session.finish_add(plan, numbers);
    parts.subs.push_reserved(SubSeats::new(sub, seats));
}
