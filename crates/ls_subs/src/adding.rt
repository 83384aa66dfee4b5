//! What a request for a new subscription asks of the items of its group (TLCP 2.1, control with LS_op add).
ghost use Rattle.std.specs.Prelude.{◌≡◌, ◌<◌, ◌≤◌, ℕ, None, Some, Option, IfOk, IfSome, IsErrOf, OnOk, length, map};
ghost use Rattle.std.specs.Prelude.{true, unwrap_or};
ghost use Rattle.std.specs.List.{list_all};
ghost use Rattle.std.specs.Option.{ForSome};
ghost use Rattle.ls_value.specs.Values.{place_of};
ghost use Rattle.ls_event.specs.Joining.{buffer_size, size_or, is_mode_of, rows_asked};
ghost use Rattle.ls_event.specs.Shapes.{shape_of};
ghost use Rattle.ls_event.specs.declared.item.ItemDef.{ItemDef as Def};
ghost use Rattle.ls_record.specs.Acting.{is_group, group_of, is_allowed, is_schema, are_among, places_among};
ghost use Rattle.ls_record.specs.Acting.{are_names};
ghost use Rattle.ls_record.specs.Acting.{shows_keys};
ghost use Rattle.ls_record.specs.Acting.{names_of, snapshot_asked, ask_of, asks_of};
ghost use Rattle.ls_value.specs.Each.{Each};
ghost use Rattle.ls_record.specs.Tables.{place_of_field, keys_shown_at};
ghost use Rattle.ls_record.specs.Records.{shape_in, fields_in, keys_in, is_filtered, frequency_in};
ghost use Rattle.ls_subs.specs.Plans.{form_code, IsPlan, IsPlanItem, ArePlanItems, first_keys};

use crate::followed::Followed;
use crate::lines::{begin_text, configure_text};
use crate::plan::{AddPlan, PlanItem, Refusal};
use ls_budget::Frequency;
use ls_config::Config;
use ls_event::{ItemDef, Kind, MOST_BUFFER_SIZE, MOST_FIELDS, Mode, Snap};
use ls_mirror::KeyPlaces;
use ls_record::MOST_GROUP_ITEMS;
use ls_request::Add;
use ls_value::{Names, NoMemory, Places, Text};
use std::alloc::Global;

/// What an add asks for. It is refused, in this order: 21 where its group isn't one of declared items, 24 where its
/// mode is not allowed on one of them, and 23 where its schema isn't one of the mode and of each of them.
pub(crate) fn plan_of(alloc: Global, add: &Add, config: &Config) -> Result<AddPlan, Refusal>
    requires frequency { ForSome add.now.frequency (λ f. 0 < f) }
    ensures free { OnOk result (form_code config.now.items add.now ≡ None) }
    ensures plan { IfOk result (λ p. IsPlan config.now.items add.now p) }
    ensures refused { (code : ℕ) → IsErrOf result (Refusal.Code code)
        → form_code config.now.items add.now ≡ Some code }
{
    if !is_group(config, &add.group) {
        return Err(Refusal::Code(21));
    }
    let defs = config.items.as_slice();
    let group = group_of(alloc, config, &add.group)?;
    if !is_allowed(defs, add.mode, &group) {
        return Err(Refusal::Code(24));
    }
    if !is_schema(defs, add.mode, &group, &add.schema) {
        return Err(Refusal::Code(23));
    }
    let plan = planned(alloc, defs, add, &group)?;
    Ok(plan)
}

/// The plan of an add that nothing stands against, by the numbers of its group's items.
fn planned(alloc: Global, defs: &[ItemDef], add: &Add, group: &[u32]) -> Result<AddPlan, NoMemory>
    requires group { group.now ≡ group_of defs.now add.now.group }
    requires is_group { is_group defs.now add.now.group ≡ true }
    requires is_schema { is_schema defs.now add.now.mode group.now add.now.schema ≡ true }
    requires frequency { ForSome add.now.frequency (λ f. 0 < f) }
    ensures { IfOk result (λ p. IsPlan defs.now add.now p) }
{
    let items = plan_items(alloc, defs, add, group)?;
    let begins = begin_text(
        alloc,
        add.sub,
        group.len() as u32,
        add.schema.len() as u32,
        first_keys(&items),
    )?;
    let configures = configure_text(
        alloc,
        add.sub,
        frequency_in(add.mode, add.frequency),
        is_filtered(add.mode),
    )?;
    Ok(AddPlan {
        sub: add.sub,
        items,
        begins,
        configures,
    })
}

/// What is asked of each item of a group, by their numbers.
fn plan_items(
    alloc: Global,
    defs: &[ItemDef],
    add: &Add,
    group: &[u32],
) -> Result<Vec<PlanItem>, NoMemory>
    requires few { length group.now ≤ MOST_GROUP_ITEMS }
    requires declared { Each (λ n. n < length defs.now) group.now }
    requires frequency { ForSome add.now.frequency (λ f. 0 < f) }
    ensures { IfOk result (λ items. ArePlanItems defs.now add.now.sub 1
        (map (λ n. ask_of add.now n (places_among (fields_in defs.now n) add.now.schema)) group.now) items.items) }
{
    let mut items = Vec::new(alloc);
    for i in 0..group.len() {
        let item = plan_item(alloc, defs, add, group[i], i as u32 + 1)?;
        items.push(item)?;
    }
    Ok(items)
}

/// What is asked of an item, which has this place in the subscription.
fn plan_item(
    alloc: Global,
    defs: &[ItemDef],
    add: &Add,
    n: u32,
    rank: u32,
) -> Result<PlanItem, NoMemory>
    requires declared { n < length defs.now }
    requires frequency { ForSome add.now.frequency (λ f. 0 < f) }
    ensures { IfOk result (λ p. IsPlanItem defs.now add.now.sub rank
        (ask_of add.now n (places_among (fields_in defs.now n) add.now.schema)) p) }
{
    let def = &defs[n as usize];
    let places = places_among(alloc, &def.fields, add.schema.as_slice())?;
    let keys = keys_shown(add.mode, &def.fields, &places);
    Ok(PlanItem {
        item: n,
        mode: add.mode,
        n: buffer_size(add.mode, add.size),
        snapshot: snapshot_asked(add.mode, add.snapshot),
        slot: 0,
        frequency: Frequency::new(frequency_in(add.mode, add.frequency)),
        followed: Followed::new(alloc, add.sub, rank, places, keys),
    })
}

/// The places of the key and the command in the schema of a subscription, by its first item.
fn first_keys(items: &[PlanItem]) -> Option<KeyPlaces>
    ensures { result ≡ first_keys items.now }
{
    match items.first() {
        None => None,
        Some(item) => item.followed.keys(),
    }
}

/// Whether a group is one of declared items, at most as many as it may name.
fn is_group(config: &Config, group: &Names) -> bool
    ensures { result ≡ is_group config.now.items group.now }
{
    are_names(MOST_GROUP_ITEMS, group) && are_declared(config, group.as_slice())
}

/// Whether each of these names is that of an item.
fn are_declared(config: &Config, names: &[Text]) -> bool
    ensures { result ≡ are_among (names_of config.now.items) names.now }
{
    for name in names {
        if config.find(name.as_bytes()).is_none() {
            return false;
        }
    }
    true
}

/// The numbers of the items of a group; 0 where there is none of a name.
fn group_of(alloc: Global, config: &Config, group: &Names) -> Result<Vec<u32>, NoMemory>
    ensures { IfOk result (λ ns. ns.items ≡ group_of config.now.items group.now) }
{
    let mut numbers = Vec::new(alloc);
    for name in group.as_slice() {
        let number = match config.find(name.as_bytes()) {
            None => 0,
            Some(number) => number,
        };
        numbers.push(number)?;
    }
    Ok(numbers)
}

/// Whether a mode is allowed on each of these items.
fn is_allowed(defs: &[ItemDef], mode: Mode, group: &[u32]) -> bool
    ensures { result ≡ is_allowed defs.now mode group.now }
{
    for n in group {
        if !is_mode_of(mode, kind_at(defs, *n)) {
            return false;
        }
    }
    true
}

/// The kind of an item.
fn kind_at(defs: &[ItemDef], n: u32) -> Kind
    ensures { result ≡ (shape_in defs.now n).kind }
{
    match defs.get(n as usize) {
        None => Kind::Merge,
        Some(def) => def.kind,
    }
}

/// Whether a mode is allowed on an item of a kind.
fn is_mode_of(mode: Mode, kind: Kind) -> bool
    ensures { result ≡ is_mode_of mode kind }
{
    match (mode, kind) {
        (Mode::Raw, _) => true,
        (Mode::Merge, Kind::Merge) => true,
        (Mode::Distinct, Kind::Distinct) => true,
        (Mode::Command, Kind::Command) => true,
        _ => false,
    }
}

/// Whether a schema is one of a mode, and each of these items has its fields.
fn is_schema(defs: &[ItemDef], mode: Mode, group: &[u32], schema: &Names) -> bool
    ensures { result ≡ is_schema defs.now mode group.now schema.now }
{
    are_names(MOST_FIELDS, schema)
        && shows_keys(mode, schema)
        && have_fields(defs, group, schema.as_slice())
}

/// Whether each of these items has all of these fields.
fn have_fields(defs: &[ItemDef], group: &[u32], schema: &[Text]) -> bool
    ensures { result ≡ list_all (λ n. are_among (fields_in defs.now n) schema.now) group.now }
{
    for n in group {
        if !has_fields(defs, *n, schema) {
            return false;
        }
    }
    true
}

/// Whether an item has all of these fields.
fn has_fields(defs: &[ItemDef], n: u32, schema: &[Text]) -> bool
    ensures { result ≡ are_among (fields_in defs.now n) schema.now }
{
    match defs.get(n as usize) {
        None => schema.is_empty(),
        Some(def) => are_among(&def.fields, schema),
    }
}

/// Whether each of these names is among others.
fn are_among(names: &Names, others: &[Text]) -> bool
    ensures { result ≡ are_among names.now others.now }
{
    for other in others {
        if names.find(other.as_bytes()).is_none() {
            return false;
        }
    }
    true
}

/// Whether texts are distinct names, at least 1 and at most so many.
fn are_names(most: usize, names: &Names) -> bool
    ensures { result ≡ are_names most names.now }
{
    1 <= names.len() && names.len() <= most && names.are_distinct()
}

/// In mode COMMAND a schema shows the key and the command.
fn shows_keys(mode: Mode, schema: &Names) -> bool
    ensures { result ≡ shows_keys mode schema.now }
{
    match mode {
        Mode::Command => schema.find(b"key").is_some() && schema.find(b"command").is_some(),
        _ => true,
    }
}

/// The places of names among others; 0 where one isn't there.
fn places_among(alloc: Global, names: &Names, others: &[Text]) -> Result<Places, NoMemory>
    ensures { IfOk result (λ places. places ≡ places_among names.now others.now) }
{
    let mut places = Vec::new(alloc);
    for other in others {
        places.push(place_or_first(names, other.as_bytes()))?;
    }
    Ok(Places::of(places))
}

/// The place of a name; it is 0 where it isn't there.
fn place_or_first(names: &Names, name: &[u8]) -> usize
    ensures { result ≡ unwrap_or (place_of names.now name.now) 0 }
{
    match names.find(name) {
        None => 0,
        Some(place) => place,
    }
}

/// The places of the key and the command in a schema, in mode COMMAND.
fn keys_shown(mode: Mode, fields: &Names, places: &Places) -> Option<KeyPlaces>
    ensures { (d : Def) → d.fields ≡ fields.now → result ≡ keys_in mode (keys_shown_at (shape_of d) places.now) }
{
    match mode {
        Mode::Command => Some(KeyPlaces {
            key: place_in(place_or_first(fields, b"key"), places.as_slice()),
            command: place_in(place_or_first(fields, b"command"), places.as_slice()),
        }),
        _ => None,
    }
}

/// The first place of a field in a schema, and the number of its fields where it isn't there.
fn place_in(field: usize, places: &[usize]) -> usize
    ensures { result ≡ place_of_field field places.now }
{
    let mut place = 0;
    for shown in places {
        if *shown == field {
            return place;
        }
        place += 1;
    }
    place
}

/// The size of a buffer: the one that is asked for, at most `MOST_BUFFER_SIZE`, or the mode's own.
fn buffer_size(mode: Mode, asked: Option<u32>) -> u32
    ensures { result ≡ buffer_size mode asked }
{
    match mode {
        Mode::Merge => asked_or(1, asked),
        Mode::Distinct => asked_or(MOST_BUFFER_SIZE as u32, asked),
        Mode::Raw | Mode::Command => 1,
    }
}

/// The size that is asked for, at most `MOST_BUFFER_SIZE`, or another one.
fn asked_or(size: u32, asked: Option<u32>) -> u32
    ensures { result ≡ size_or size asked }
{
    match asked {
        None => size,
        Some(asked) => asked.min(MOST_BUFFER_SIZE as u32),
    }
}

/// The snapshot that is asked for; mode RAW has none.
fn snapshot_asked(mode: Mode, snapshot: Snap) -> Snap
    ensures { rows_asked result ≡ snapshot_asked mode snapshot }
{
    match mode {
        Mode::Raw => Snap::No,
        _ => snapshot,
    }
}

/// The greatest frequency of a subscription of a mode, of one that is asked for in thousandths of an update per second:
/// RAW has none (TLCP 2.1, LS_requested_max_frequency).
pub fn frequency_in(mode: Mode, frequency: Option<u64>) -> Option<u64>
    ensures { result ≡ frequency_in mode frequency }
{
    match mode {
        Mode::Raw => None,
        _ => frequency,
    }
}

/// Whether updates of a mode are filtered: those of RAW aren't (TLCP 2.1, CONF).
pub fn is_filtered(mode: Mode) -> bool
    ensures { result ≡ is_filtered mode }
{
    match mode {
        Mode::Raw => false,
        _ => true,
    }
}
