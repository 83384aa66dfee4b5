//! Values, rows and cells: what fields hold, and what updates make of them. Of other crates it uses `arrayvec` alone.
//!
//! A `Text` is UTF-8, seen as its bytes. A `Value` is null or a text; a `Row` has a value for each field of an item or
//! of a schema. A `Cell` is what an update says of a field: same, null or a text; `Cells` has one for each field.
//! `apply` makes the next row of a row and cells, and `project` takes a row at the `Places` of a schema:
//!
//! ```text
//! last|time  3.04|20:00:33      the row
//!            3.05|=             the cells of an update
//! last|time  3.05|20:00:33      the row after it
//! ```
//!
//! A text of at most 16 bytes lies in the value itself and takes no memory, so a row of such values is one block. A
//! longer text is a string of its own.
//!
//! `Names` are names of fields or items in order; `find` tells the place of one, from 0.
//!
//! `Text::set`, `Value::set_from` and `Row::set_from` change a thing in the room that it has. Each call that takes
//! memory may answer `NoMemory`. Nothing here knows of histories, lines or modes.
#![tactic(auto)]

mod limits;
mod lists;
mod projection;
mod repr;
mod reuse;
mod row;
mod text;

pub use limits::{GREATEST_NUMBER, GREATEST_ORDINAL, GREATEST_TICK};
pub use lists::{Names, Places};
pub use projection::{
    cells_at, copy_cell_at, copy_value_at, is_projected, project, project_cells, set_value_at,
    values_at,
};
pub use row::{
    Cell, Cells, Row, Value, applied_row, apply, apply_owned, copy_cells, copy_values, null_values,
    same, same_value, weight,
};
pub use text::{Bytes, NoMemory, Text, TextRefused, same_bytes};
