//! What is kept of a key that has a turn.

use ls_value::{Row, Text};

/// A key that has a turn, its row, where it has one, and whether it was touched since its last turn.
#[derive(Drop)]
pub struct Queued {
    pub key: Text,
    pub row: Option<Row>,
    pub touched: bool,
}

/// What is kept of a key: its node in the links, its row, where it has one, and whether it was touched.
#[derive(Drop)]
pub struct Kept {
    pub node: usize,
    pub row: Option<Row>,
    pub touched: bool,
}
