//! The table of an item.
ghost use Rattle.std.specs.Prelude.{◌≡◌, ℕ, List, Some, MatchResult, IfOk, OnOk, OnErr, IfErr, IfSome, true, false};
ghost use Rattle.std.specs.Prelude.{length};
ghost use Rattle.ls_value.specs.declared.row.Value.{Value as FieldValue};
ghost use Rattle.ls_update.specs.Reading.{Reads, row_before, tokens_of};
ghost use Rattle.ls_update.specs.Writing.{row_behind};
ghost use Rattle.ls_mirror.specs.Client.{Row as Came};
ghost use Rattle.ls_mirror.specs.Commands.{has_command, keys_after};
ghost use Rattle.ls_mirror.specs.Refusing.{IsFaulty, IsBad, RefusedBy, AnswersBad};
ghost use Rattle.ls_mirror.specs.Tables.{blank_table, table_after, heard_value, IsTableAfter};

use crate::command::{Change, KeyPlaces, change_at, kept_row, text_at};
use crate::keyed::Keyed;
use crate::refused::{MirrorRefused, cause_of};
use ls_update::read;
use ls_value::Row;
use std::alloc::Global;

/// What came of an item since its subscription began (TLCP 2.1, notifications). It keeps the allocator of its keys.
#[derive(Drop)]
pub struct Table {
    /// The last row that came: `None` before the first. A cleared snapshot leaves it.
    pub last: Option<Row>,
    /// In mode COMMAND the row of each key, its command field null. In other modes there are no keys.
    pub keys: Keyed,
    /// How many updates were lost, or 2^64 - 1 where that is less.
    pub lost: u64,
    /// How many updates came, or 2^64 - 1 where that is less.
    pub updates: u64,
}

/// What a line says of an item.
#[derive(Clone, Copy)]
pub(crate) enum Heard<'a> {
    /// U: a row, in coded fields.
    Coded(&'a [u8]),
    /// OV: so many updates were lost.
    Missed(u64),
    /// CS: the snapshot is cleared.
    Emptied,
    /// EOS: the snapshot is over.
    Ended,
}

impl Table {
    /// The table of an item of which nothing came. No memory is taken.
    pub(crate) fn new(alloc: Global) -> Table
        ensures { result ≡ blank_table }
    {
        Table {
            last: None,
            keys: Keyed::new(alloc),
            lost: 0,
            updates: 0,
        }
    }

    /// Takes what a line says. After a refusal the table is as before.
    pub(crate) fn hear(
        &mut self,
        fields: u32,
        places: Option<KeyPlaces>,
        heard: Heard,
    ) -> Result<(), MirrorRefused>
        ensures ok { OnOk result (IsTableAfter fields places (heard_value heard.entry) self.old self.new) }
        ensures err { OnErr result (self.new ≡ self.old) }
        ensures refused { IfErr result (λ e.
            RefusedBy e (IsBad fields places self.old.last (heard_value heard.entry))) }
        ensures only_bad { IsBad fields places self.old.last (heard_value heard.entry) → AnswersBad result }
    {
        match heard {
            Heard::Coded(coded) => {
                let row = self.decoded(fields, coded)?;
                self.take(places, row)
            }
            Heard::Missed(lost) => {
                self.lost = self.lost.saturating_add(lost);
                Ok(())
            }
            Heard::Emptied => {
                self.keys.clear();
                Ok(())
            }
            Heard::Ended => Ok(()),
        }
    }

    /// The row that coded fields say after the last row. Without a row before, they say so many fields.
    fn decoded(&self, fields: u32, coded: &[u8]) -> Result<Row, MirrorRefused>
        ensures row { IfOk result (λ row. Reads (row_before fields self.now.last) (tokens_of coded.now) row) }
        ensures refused { IfErr result (λ e.
            RefusedBy e (IsFaulty (row_before fields self.now.last) (tokens_of coded.now))) }
        ensures only_row { (row : List FieldValue) → Reads (row_before fields self.now.last) (tokens_of coded.now) row
            → MatchResult result (λ r. r ≡ row) (λ e. e ≡ MirrorRefused.NoMemory) }
        ensures only_fault { IsFaulty (row_before fields self.now.last) (tokens_of coded.now) → AnswersBad result }
    {
        match &self.last {
            Some(row) => read_row(self.keys.alloc(), Some(row), coded, row.len()),
            None => read_row(self.keys.alloc(), None, coded, fields as usize),
        }
    }

    /// Takes a row: in mode COMMAND it changes the row of its key. After a refusal the table is as before.
    fn take(&mut self, places: Option<KeyPlaces>, row: Row) -> Result<(), MirrorRefused>
        ensures ok { OnOk result ((has_command places row ≡ true)
            × (self.new ≡ table_after (Came row) places self.old)) }
        ensures err { OnErr result (self.new ≡ self.old) }
        ensures refused { IfErr result (λ e. RefusedBy e (has_command places row ≡ false)) }
    {
        if let Some(places) = places {
            change_key(&mut self.keys, places, &row)?;
        }
        self.last = Some(row);
        self.updates = self.updates.saturating_add(1);
        Ok(())
    }
}

/// The row that coded fields of n fields say after a row. A row without fields is said by no tokens.
fn read_row(alloc: Global, prev: Option<&Row>, coded: &[u8], n: usize) -> Result<Row, MirrorRefused>
    requires { IfSome prev (λ p. length p.now ≡ n) }
    ensures row { IfOk result (λ row. Reads (row_before n (row_behind prev.entry)) (tokens_of coded.now) row) }
    ensures refused { IfErr result (λ e.
        RefusedBy e (IsFaulty (row_before n (row_behind prev.entry)) (tokens_of coded.now))) }
    ensures only_row { (row : List FieldValue) → Reads (row_before n (row_behind prev.entry)) (tokens_of coded.now) row
        → MatchResult result (λ r. r ≡ row) (λ e. e ≡ MirrorRefused.NoMemory) }
    ensures only_fault { IsFaulty (row_before n (row_behind prev.entry)) (tokens_of coded.now) → AnswersBad result }
{
    if n == 0 {
        return Err(MirrorRefused::BadFields);
    }
    match read(alloc, prev, coded, n) {
        Ok(row) => Ok(row),
        Err(refused) => Err(cause_of(refused)),
    }
}

/// Changes the row of a row's key, as its command word says. After a refusal nothing has changed.
fn change_key(keys: &mut Keyed, places: KeyPlaces, row: &Row) -> Result<(), MirrorRefused>
    ensures ok { OnOk result ((has_command (Some places) row.now ≡ true)
        × (keys.new ≡ keys_after (Came row.now) (Some places) keys.old)) }
    ensures err { OnErr result (keys.new ≡ keys.old) }
    ensures refused { IfErr result (λ e. RefusedBy e (has_command (Some places) row.now ≡ false)) }
{
    let Some(key) = text_at(row, places.key) else {
        return Err(MirrorRefused::BadFields);
    };
    match change_at(row, places.command) {
        None => Err(MirrorRefused::BadFields),
        Some(Change::Remove) => {
            keys.remove(key.as_str());
            Ok(())
        }
        Some(Change::Set) => {
            let alloc = keys.alloc();
            let kept = kept_row(alloc, row, places.command)?;
            let key = String::from_str(alloc, key.as_str())?;
            keys.set(key, kept)?;
            Ok(())
        }
    }
}
