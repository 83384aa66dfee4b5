//! An item of a subscription: the places of its schema, and what the client has of it.
ghost use Rattle.std.specs.Prelude.{◌≡◌, ◌++◌, List, None, Some, is_some, length, IfOk, OnOk, OnErr};
ghost use Rattle.std.specs.Prelude.{option_map};
ghost use Rattle.std.specs.Option.{ForSome, option_copied};
ghost use Rattle.std.specs.FinMap as finite;
ghost use Rattle.ls_value.specs.Values.{applied, projected_cells};
ghost use Rattle.ls_value.specs.declared.row.Value.{Value};
ghost use Rattle.ls_mirror.specs.Client.{Row as RowWhat, row_or};
ghost use Rattle.ls_record.specs.Lines.{tells_text};
ghost use Rattle.ls_record.specs.Tables.{what_of_key, projected_row};
ghost use Rattle.ls_record.specs.Cutting.{what_of_change};
ghost use Rattle.ls_subs.specs.Subscription.{row_or_nulls, what_in, what_comes_by, what_comes, line_if, after_line};
ghost use Rattle.ls_subs.specs.Subscription.{table_with, keyed_with, told_by, Appends};

use crate::cut_line::CutLine;
use crate::lines::append_row;
use crate::schema::{kept_row, row_of_delete, row_with_word, text_at};
use ls_event::{Order, Taken};
use ls_line::{Line, append};
use ls_mirror::{KeyPlaces, Keyed};
use ls_value::{Cells, NoMemory, Places, Row, Text, is_projected, same};
use std::alloc::Global;
use std::marker::Model;
use std::mem::{replace, swap};

/// What a line tells of the item, its row apart (TLCP 2.1, U, OV, CS and EOS).
#[derive(Clone, Copy, Debug, PartialEq, Eq)]
pub enum LineKind {
    /// A row, which is the client's next one.
    Row,
    /// So many updates were lost.
    Lost(u64),
    /// The item was cleared.
    Cleared,
    /// The snapshot is whole.
    End,
}

impl LineKind {
    /// Which line tells it.
    fn told(self) -> CutLine
        ensures { (row : List Value) → result ≡ told_by (what_in row self) }
    {
        match self {
            LineKind::Row => CutLine::Update,
            LineKind::Lost(_) | LineKind::Cleared | LineKind::End => CutLine::Other,
        }
    }
}

/// What a client has of an item: its last row, where it has one, and in mode COMMAND its rows by key. The row of its
/// next line is made in the room of the row before the last.
#[derive(Drop)]
pub struct ClientRows {
    row: Option<Row>,
    table: Keyed,
    next: Row,
}

/// An item of a subscription: the subscription's number, the item's place in it, from 1, the places of the schema's
/// fields in the item, in mode COMMAND those of the key and the command in the schema, and what the client has of it.
/// It keeps the allocator that its constructor took.
#[derive(Drop)]
pub struct Followed {
    alloc: Global,
    sub: u32,
    rank: u32,
    places: Places,
    keys: Option<KeyPlaces>,
    client: ClientRows,
}

impl Model for Followed {
    ghost use Rattle.std.specs.Prelude.{◌≡◌, length};
    ghost use Rattle.std.specs.Option.{ForSome};
    ghost use Rattle.ls_subs.specs.Subscribed.{Subscribed, subscribed_code};

    ghost Value = { Subscribed };

    ghost coded = { subscribed_code };

    ghost view = { λ s. record {
      sub = s.sub;
      rank = s.rank;
      places = s.places;
      keys = s.keys;
      row = s.client.row;
      table = s.client.table;
    } };

    ghost invariant = { λ s. ForSome s.client.row (λ r. length r ≡ length s.places) };
}

impl Followed {
    /// An item of which the client has no row yet. No memory is taken.
    pub(crate) fn new(
        alloc: Global,
        sub: u32,
        rank: u32,
        places: Places,
        keys: Option<KeyPlaces>,
    ) -> Followed
        ensures { result
            ≡ record { sub = sub; rank = rank; places = places; keys = keys; row = None; table = finite.empty } }
    {
        Followed {
            alloc,
            sub,
            rank,
            places,
            keys,
            client: ClientRows {
                row: None,
                table: Keyed::new(alloc),
                next: Row::of(Vec::new(alloc)),
            },
        }
    }

    /// The number of its subscription.
    pub(crate) fn sub(&self) -> u32
        ensures { result ≡ self.now.sub }
    {
        self.sub
    }

    /// Its place in it, from 1.
    pub(crate) fn rank(&self) -> u32
        ensures { result ≡ self.now.rank }
    {
        self.rank
    }

    /// The places of the key and the command in the schema, in mode COMMAND.
    pub(crate) fn keys(&self) -> Option<KeyPlaces>
        ensures { result ≡ self.now.keys }
    {
        self.keys
    }

    /// Appends the line that a cut makes, and answers which one: none where the client has that already.
    /// Then the client has it. After `NoMemory` what it has is as before, and a part of the line may be there.
    pub(crate) fn accept(&mut self, taken: Taken, text: &mut Vec<u8>) -> Result<CutLine, NoMemory>
        ensures line { IfOk result (λ told. Appends
            (record { told = told; before = text.old.items; after = text.new.items })
            (line_if self.old (what_comes self.old taken))) }
        ensures ok { OnOk result (self.new ≡ after_line self.old (what_comes self.old taken)) }
        ensures err { OnErr result (self.new ≡ self.old) }
    {
        let made = self
            .client
            .next_line(self.alloc, &self.places, self.keys, taken)?;
        let Some(kind) = made else {
            return Ok(CutLine::Nothing);
        };
        self.client.append(text, self.sub, self.rank, kind)?;
        self.client.hear(self.alloc, self.keys, kind)?;
        Ok(kind.told())
    }
}

impl ClientRows {
    /// Which line a cut makes, where the client doesn't have that already. A line's row is made the next one. After
    /// `NoMemory` the client has what it had.
    fn next_line(
        &mut self,
        alloc: Global,
        places: &Places,
        keys: Option<KeyPlaces>,
        taken: Taken,
    ) -> Result<Option<LineKind>, NoMemory>
        requires { ForSome self.old.row (λ r. length r ≡ length places.now) }
        ensures kind { IfOk result (λ kind. option_map (what_in self.new.next) kind
            ≡ what_comes_by places.now keys self.old.row self.old.table taken) }
        ensures row { self.new.row ≡ self.old.row }
        ensures table { self.new.table ≡ self.old.table }
    {
        match taken {
            Taken::Row { row, upto: _ } => {
                self.next.set_projected(alloc, &row, places)?;
                Ok(Some(LineKind::Row))
            }
            Taken::Lost { count, upto: _ } => Ok(Some(LineKind::Lost(count))),
            Taken::Change { cells, upto: _ } => {
                change(alloc, places, &self.row, &cells, &mut self.next)
            }
            Taken::Key { key, row, upto: _ } => {
                let Some(at) = keys else {
                    return Ok(None);
                };
                match key_row(alloc, places, at, self.table.get(key.as_str()), &key, &row)? {
                    None => Ok(None),
                    Some(row) => {
                        self.next = row;
                        Ok(Some(LineKind::Row))
                    }
                }
            }
            Taken::Cleared { upto: _ } => Ok(Some(LineKind::Cleared)),
            Taken::EndOfSnapshot => Ok(Some(LineKind::End)),
        }
    }

    /// Appends the line that tells this: a row is coded against the client's last one.
    fn append(
        &self,
        text: &mut Vec<u8>,
        sub: u32,
        item: u32,
        kind: LineKind,
    ) -> Result<(), NoMemory>
        ensures { OnOk result (text.new.items ≡ text.old.items
            ++ tells_text self.now.row sub item (what_in self.now.next kind)) }
    {
        let line = match kind {
            LineKind::Row => return append_row(text, sub, item, self.row.as_ref(), &self.next),
            LineKind::Lost(lost) => Line::Ov { sub, item, lost },
            LineKind::Cleared => Line::Cs { sub, item },
            LineKind::End => Line::Eos { sub, item },
        };
        append(text, &line)
    }

    /// Changes what the client has by what a line told. After `NoMemory` it has what it had.
    fn hear(
        &mut self,
        alloc: Global,
        keys: Option<KeyPlaces>,
        kind: LineKind,
    ) -> Result<(), NoMemory>
        ensures row { OnOk result (self.new.row ≡ row_or (what_in self.old.next kind) self.old.row) }
        ensures table { OnOk result (self.new.table
            ≡ keyed_with keys self.old.table (what_in self.old.next kind)) }
        ensures err { OnErr result ((self.new.row ≡ self.old.row) × (self.new.table ≡ self.old.table)) }
    {
        match kind {
            LineKind::Row => {
                set_key(&mut self.table, alloc, keys, &self.next)?;
                advance(alloc, &mut self.row, &mut self.next);
            }
            LineKind::Lost(_) => {}
            LineKind::Cleared => self.table.clear(),
            LineKind::End => {}
        }
        Ok(())
    }
}

/// Makes the client's row with changed cells the next one: no line where that is the row that it has. Before the first
/// row it is all null.
fn change(
    alloc: Global,
    places: &Places,
    row: &Option<Row>,
    cells: &Cells,
    next: &mut Row,
) -> Result<Option<LineKind>, NoMemory>
    requires { ForSome row.now (λ r. length r ≡ length places.now) }
    ensures { IfOk result (λ kind. option_map (what_in next.new) kind
        ≡ what_of_change (is_some row.now) (row_or_nulls (length places.now) row.now)
        (applied (row_or_nulls (length places.now) row.now) (projected_cells cells.now places.now))) }
{
    match row {
        None => {
            let nulls = Row::nulls(alloc, places.len())?;
            next.set_applied_at(alloc, &nulls, cells, places)?;
            Ok(Some(LineKind::Row))
        }
        Some(row) => {
            next.set_applied_at(alloc, row, cells, places)?;
            if same(row, next) {
                return Ok(None);
            }
            Ok(Some(LineKind::Row))
        }
    }
}

/// The row of a key's line, by the client's row of the key and the item's: an `ADD`, an `UPDATE` or a `DELETE`, and
/// none where they are the same.
fn key_row(
    alloc: Global,
    places: &Places,
    at: KeyPlaces,
    old: Option<&Row>,
    key: &Text,
    row: &Option<Row>,
) -> Result<Option<Row>, NoMemory>
    ensures { IfOk result (λ made. option_map RowWhat made
        ≡ what_of_key at (length places.now) key.now (option_copied old.entry)
        (projected_row places.now row.now)) }
{
    match (old, row) {
        (None, None) => Ok(None),
        (None, Some(row)) => {
            let added = row_with_word(alloc, row, places, at, Order::Add)?;
            Ok(Some(added))
        }
        (Some(_), None) => {
            let deleted = row_of_delete(alloc, places.len(), at, key.as_str())?;
            Ok(Some(deleted))
        }
        (Some(old), Some(row)) => {
            if is_projected(old, row, places) {
                return Ok(None);
            }
            let updated = row_with_word(alloc, row, places, at, Order::Update)?;
            Ok(Some(updated))
        }
    }
}

/// The next row becomes the client's, and the room of the row before it that of the next one. No memory is taken.
fn advance(alloc: Global, row: &mut Option<Row>, next: &mut Row)
    ensures { row.new ≡ Some next.old }
{
    match row {
        None => *row = Some(replace(next, Row::of(Vec::new(alloc)))),
        Some(row) => swap(row, next),
    }
}

/// Sets the row of a row's key as the command word says. After `NoMemory` nothing has changed.
fn set_key(
    table: &mut Keyed,
    alloc: Global,
    keys: Option<KeyPlaces>,
    row: &Row,
) -> Result<(), NoMemory>
    ensures ok { OnOk result (table.new ≡ table_with keys table.old row.now) }
    ensures err { OnErr result (table.new ≡ table.old) }
{
    let Some(at) = keys else {
        return Ok(());
    };
    let key = text_at(row, at.key);
    match kept_row(alloc, row, at)? {
        None => {
            table.remove(key);
            Ok(())
        }
        Some(kept) => {
            let key = String::from_str(alloc, key)?;
            table.set(key, kept)?;
            Ok(())
        }
    }
}
