//! Updates by themselves.

use ls_value::Row;

/// An update's own row, in which a field that the update keeps is null, and the update's number (General Concepts,
/// modes RAW and DISTINCT).
#[derive(Drop)]
pub struct OwnRow {
    pub row: Row,
    pub no: u64,
}
