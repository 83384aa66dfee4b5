//! The state of an item, as it is handed to a slot that joins with a snapshot.
ghost use Rattle.std.specs.Prelude.{◌≡◌, length};

use ls_value::{Row, Text};
use std::marker::Model;

/// The state of an item (General Concepts, snapshot), by its kind.
#[derive(Drop)]
pub enum Snapshot {
    /// The merged row.
    Merge(Row),
    /// The last rows since the last Clear, the oldest first.
    Distinct(RowList),
    /// The keys with their rows, in the order of the keys' bytes.
    Command(KeyedRows),
}

/// Rows in their order.
#[derive(Drop)]
pub struct RowList {
    rows: Vec<Row>,
}

impl Model for RowList {
    ghost use Rattle.std.specs.Prelude.{List};
    ghost use Rattle.ls_value.specs.declared.row.Value.{Value as FieldValue};

    ghost Value = { List (List FieldValue) };

    ghost view = { λ r. r.rows.items };
}

impl RowList {
    /// These rows.
    pub fn of(rows: Vec<Row>) -> RowList
        ensures { result ≡ rows.items }
    {
        RowList { rows }
    }

    /// The rows as a list.
    pub fn into_vec(self) -> Vec<Row>
        ensures { result.items ≡ self }
    {
        self.rows
    }

    /// The number of rows.
    pub fn len(&self) -> usize
        ensures { result ≡ length self.now }
    {
        self.rows.len()
    }
}

/// A key of a COMMAND item and its row, in which the command is null.
#[derive(Drop)]
pub struct KeyedRow {
    pub key: Text,
    pub row: Row,
}

/// Keys with their rows, in their order.
#[derive(Drop)]
pub struct KeyedRows {
    rows: Vec<KeyedRow>,
}

impl Model for KeyedRows {
    ghost use Rattle.std.specs.Prelude.{List};
    ghost use Rattle.ls_event.specs.declared.snapshot.KeyedRow.{KeyedRow as OneKeyedRow};

    ghost Value = { List OneKeyedRow };

    ghost view = { λ r. r.rows.items };
}

impl KeyedRows {
    /// These keys and rows.
    pub fn of(rows: Vec<KeyedRow>) -> KeyedRows
        ensures { result ≡ rows.items }
    {
        KeyedRows { rows }
    }

    /// The keys and rows as a list.
    pub fn into_vec(self) -> Vec<KeyedRow>
        ensures { result.items ≡ self }
    {
        self.rows
    }

    /// The number of keys.
    pub fn len(&self) -> usize
        ensures { result ≡ length self.now }
    {
        self.rows.len()
    }
}
