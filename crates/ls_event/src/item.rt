//! The definition of an item.

use ls_value::{Names, Text};

/// What kind of item it is: how its events make its state (General Concepts, modes).
#[derive(Clone, Copy, Debug, PartialEq, Eq)]
pub enum Kind {
    /// An update overwrites the fields that it names.
    Merge,
    /// Each update stands for itself.
    Distinct,
    /// Updates add, change and delete the rows of a table by their key.
    Command,
}

/// An item as it is declared: its name, its kind and the names of its fields.
#[derive(Drop)]
pub struct ItemDef {
    pub name: Text,
    pub kind: Kind,
    pub fields: Names,
}
