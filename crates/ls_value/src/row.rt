//! Values of fields, rows of them, and cells: what an update says of each field.
ghost use Rattle.std.specs.Prelude.{◌≡◌, ◌↔◌, ◌<◌, ◌≤◌, ◌^◌, ◌-◌, ℕ, List, IfOk, OnOk, OnErr};
ghost use Rattle.std.specs.Prelude.{IsTrue, length, min, nat_eq, set};
ghost use Rattle.ls_value.specs.Each.{Each};
ghost use Rattle.ls_value.specs.Textual.{IsTextual};
ghost use Rattle.ls_value.specs.Values.{applied, weight_of, kept_or_taken, value_at, nulls, value_eq, row_eq};

use crate::text::{NoMemory, Text, same_bytes};
use std::alloc::Global;
use std::marker::Model;

/// The value of a field: null, or a text (TLCP 2.1, update fields).
#[derive(Drop)]
pub enum Value {
    /// No value.
    Null,
    /// A text, which may be empty.
    Text(Text),
}

/// What an update says of a field (TLCP 2.1, update fields).
#[derive(Drop)]
pub enum Cell {
    /// The field keeps its value.
    Same,
    /// The field becomes null.
    Null,
    /// The field becomes this text.
    Text(Text),
}

/// A value for each field.
#[derive(Drop)]
pub struct Row {
    pub(crate) values: Vec<Value>,
}

impl Model for Row {
    ghost use Rattle.std.specs.Prelude.{List};
    ghost use Rattle.ls_value.specs.declared.row.Value.{Value as FieldValue};

    ghost Value = { List FieldValue };

    ghost view = { λ r. r.values.items };
}

/// A cell for each field.
#[derive(Drop)]
pub struct Cells {
    cells: Vec<Cell>,
}

impl Model for Cells {
    ghost use Rattle.std.specs.Prelude.{List};
    ghost use Rattle.ls_value.specs.declared.row.Cell.{Cell as FieldCell};

    ghost Value = { List FieldCell };

    ghost view = { λ c. c.cells.items };
}

impl Value {
    /// An equal value.
    pub fn copy(&self, alloc: Global) -> Result<Value, NoMemory>
        ensures { IfOk result (λ v. v ≡ self.now) }
    {
        match self {
            Value::Null => Ok(Value::Null),
            Value::Text(text) => Ok(Value::Text(text.copy(alloc)?)),
        }
    }
}

impl Cell {
    /// An equal cell. Its text, if it has one, is UTF-8.
    pub fn copy(&self, alloc: Global) -> Result<Cell, NoMemory>
        ensures equal { IfOk result (λ cell. cell ≡ self.now) }
        ensures textual { IfOk result IsTextual }
    {
        match self {
            Cell::Same => Ok(Cell::Same),
            Cell::Null => Ok(Cell::Null),
            Cell::Text(text) => Ok(Cell::Text(text.copy(alloc)?)),
        }
    }
}

impl Row {
    /// A row of n nulls.
    pub fn nulls(alloc: Global, n: usize) -> Result<Row, NoMemory>
        ensures { IfOk result (λ row. row ≡ nulls n) }
    {
        let values = null_values(alloc, n)?;
        Ok(Row { values })
    }

    /// The row of these values. No memory is taken.
    pub fn of(values: Vec<Value>) -> Row
        ensures { result ≡ values.items }
    {
        Row { values }
    }

    /// An equal row.
    pub fn copy(&self, alloc: Global) -> Result<Row, NoMemory>
        ensures { IfOk result (λ row. row ≡ self.now) }
    {
        let values = copy_values(alloc, &self.values)?;
        Ok(Row { values })
    }

    /// The values in order.
    pub fn as_slice(&self) -> &[Value]
        ensures { result.now ≡ self.now }
    {
        &self.values
    }

    /// The number of fields.
    pub fn len(&self) -> usize
        ensures { result ≡ length self.now }
    {
        self.values.len()
    }

    /// Whether there are no fields.
    pub fn is_empty(&self) -> bool
        ensures { result ≡ nat_eq (length self.now) 0 }
    {
        self.values.is_empty()
    }
}

impl Cells {
    /// These cells. No memory is taken.
    pub fn of(cells: Vec<Cell>) -> Cells
        ensures { result ≡ cells.items }
    {
        Cells { cells }
    }

    /// Equal cells, whose texts are UTF-8. Only these are copied.
    pub fn copy(&self, alloc: Global) -> Result<Cells, NoMemory>
        ensures equal { IfOk result (λ cells. cells ≡ self.now) }
        ensures textual { IfOk result (Each IsTextual) }
    {
        let cells = copy_cells(alloc, &self.cells)?;
        Ok(Cells { cells })
    }

    /// The cells in order.
    pub fn as_slice(&self) -> &[Cell]
        ensures { result.now ≡ self.now }
    {
        &self.cells
    }

    /// The number of fields.
    pub fn len(&self) -> usize
        ensures { result ≡ length self.now }
    {
        self.cells.len()
    }

    /// Whether there are no fields.
    pub fn is_empty(&self) -> bool
        ensures { result ≡ nat_eq (length self.now) 0 }
    {
        self.cells.is_empty()
    }
}

/// So many nulls.
pub fn null_values(alloc: Global, n: usize) -> Result<Vec<Value>, NoMemory>
    ensures { IfOk result (λ values. values.items ≡ nulls n) }
{
    let mut values = Vec::with_capacity(alloc, n)?;
    for _ in 0..n {
        values.push(Value::Null)?;
    }
    Ok(values)
}

/// Equal values.
pub fn copy_values(alloc: Global, values: &[Value]) -> Result<Vec<Value>, NoMemory>
    ensures { IfOk result (λ copied. copied.items ≡ values.now) }
{
    let mut copied = Vec::with_capacity(alloc, values.len())?;
    for value in values {
        copied.push(value.copy(alloc)?)?;
    }
    Ok(copied)
}

/// Equal cells, whose texts are UTF-8. Only these are copied.
#[tactic(auto, using(crate::proofs::Each::each_append))]
pub fn copy_cells(alloc: Global, cells: &[Cell]) -> Result<Vec<Cell>, NoMemory>
    ensures equal { IfOk result (λ copied. copied.items ≡ cells.now) }
    ensures textual { IfOk result (λ copied. Each IsTextual copied.items) }
{
    let mut copied = Vec::with_capacity(alloc, cells.len())?;
    for cell in cells {
        copied.push(cell.copy(alloc)?)?;
    }
    Ok(copied)
}

/// Applies an update to a row: a field keeps its value where its cell is Same, and takes the cell's value elsewhere.
/// The row has a field for each cell. Only the texts of the cells are copied; on `NoMemory` the row is as before.
pub fn apply(alloc: Global, row: &mut Row, cells: &Cells) -> Result<(), NoMemory>
    requires { length row.old ≡ length cells.now }
    ensures ok { OnOk result (row.new ≡ applied row.old cells.now) }
    ensures err { OnErr result (row.new ≡ row.old) }
{
    let taken = cells.copy(alloc)?;
    apply_owned(row, taken);
    Ok(())
}

/// The row after an update, all new.
/// The row has a field for each cell.
pub fn applied_row(alloc: Global, row: &Row, cells: &Cells) -> Result<Row, NoMemory>
    requires { length row.now ≡ length cells.now }
    ensures { IfOk result (λ after. after ≡ applied row.now cells.now) }
{
    let values = applied_values(alloc, &row.values, &cells.cells)?;
    Ok(Row { values })
}

/// The values after these cells.
fn applied_values(alloc: Global, row: &[Value], cells: &[Cell]) -> Result<Vec<Value>, NoMemory>
    requires { length row.now ≡ length cells.now }
    ensures { IfOk result (λ values. values.items ≡ applied row.now cells.now) }
{
    let mut values = Vec::with_capacity(alloc, row.len())?;
    for i in 0..row.len() {
        values.push(value_after(alloc, &row[i], &cells[i])?)?;
    }
    Ok(values)
}

/// The value of a field after a cell, copied.
fn value_after(alloc: Global, value: &Value, cell: &Cell) -> Result<Value, NoMemory>
    ensures { IfOk result (λ after. after ≡ kept_or_taken value.now cell.now) }
{
    match cell {
        Cell::Same => value.copy(alloc),
        Cell::Null => Ok(Value::Null),
        Cell::Text(text) => Ok(Value::Text(text.copy(alloc)?)),
    }
}

/// Applies an update to a row as `apply` does, and moves the texts into it. No memory is taken.
pub fn apply_owned(row: &mut Row, cells: Cells)
    requires { length row.old ≡ length cells }
    ensures { row.new ≡ applied row.old cells }
{
    set_values(&mut row.values, cells.cells);
}

/// Applies the cells to the first values, from the last cell to the first.
#[tactic(auto, using(crate::proofs::Rows::applied_last, crate::proofs::Rows::applied_none))]
fn set_values(row: &mut [Value], cells: Vec<Cell>)
    requires { length cells.items ≤ length row.old }
    ensures { row.new ≡ applied row.old cells.items }
{
    let mut rest = cells;
    while let Some(cell) = rest.pop() {
        set_value(row, rest.len(), cell);
    }
}

/// Applies a cell to the value at a place.
#[tactic(auto, using(crate::proofs::Rows::set_kept))]
fn set_value(row: &mut [Value], place: usize, cell: Cell)
    requires { place < length row.old }
    ensures { row.new ≡ set row.old place (kept_or_taken (value_at row.old place) cell) }
{
    match cell {
        Cell::Same => {}
        Cell::Null => row[place] = Value::Null,
        Cell::Text(text) => row[place] = Value::Text(text),
    }
}

/// Whether two rows are equal. No memory is taken.
pub fn same(a: &Row, b: &Row) -> bool
    ensures equal { IsTrue result ↔ (a.now ≡ b.now) }
    ensures test { result ≡ row_eq a.now b.now }
{
    same_values(&a.values, &b.values)
}

/// Whether two lists of values are equal.
#[tactic(auto, using(crate::proofs::Rows::row_eq_lengths))]
fn same_values(a: &[Value], b: &[Value]) -> bool
    ensures { result ≡ row_eq a.now b.now }
{
    if a.len() != b.len() {
        return false;
    }
    for i in 0..a.len() {
        if !same_value(&a[i], &b[i]) {
            return false;
        }
    }
    true
}

/// Whether two values are equal. It takes no memory.
pub fn same_value(a: &Value, b: &Value) -> bool
    ensures { result ≡ value_eq a.now b.now }
{
    match (a, b) {
        (Value::Null, Value::Null) => true,
        (Value::Text(s), Value::Text(t)) => same_bytes(s.as_bytes(), t.as_bytes()),
        _ => false,
    }
}

/// The bytes of a row's texts, or 2^64 - 1 where that is less. No memory is taken.
pub fn weight(row: &Row) -> u64
    ensures { result ≡ min (weight_of row.now) (2 ^ 64 - 1) }
{
    weight_of_values(&row.values)
}

/// The bytes of the texts among these values, or 2^64 - 1 where that is less.
fn weight_of_values(values: &[Value]) -> u64
    ensures { result ≡ min (weight_of values.now) (2 ^ 64 - 1) }
{
    let mut bytes: u64 = 0;
    for value in values {
        if let Value::Text(text) = value {
            bytes = bytes.saturating_add(text.len() as u64);
        }
    }
    bytes
}
