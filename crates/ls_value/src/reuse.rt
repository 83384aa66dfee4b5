//! Values and rows that change in the room that they have. After `NoMemory` a value is as before; a row has fields that
//! changed and fields that didn't, so it is a spare one, which takes the place of the true one once it is whole.
ghost use Rattle.std.specs.Prelude.{◌≡◌, ◌≤◌, length, OnOk, OnErr};
ghost use Rattle.ls_value.specs.declared.row.Value.TheVariants as value;
ghost use Rattle.ls_value.specs.Values.{applied, cell_at, kept_or_taken, projected, projected_cells, value_at};

use crate::lists::Places;
use crate::row::{Cell, Cells, Row, Value};
use crate::text::{NoMemory, Text};
use std::alloc::Global;

impl Value {
    /// Becomes this text. It takes memory only where it is null or its text has too little.
    pub fn set_text(&mut self, alloc: Global, text: &str) -> Result<(), NoMemory>
        ensures ok { OnOk result (self.new ≡ value.Text text.now) }
        ensures err { OnErr result (self.new ≡ self.old) }
    {
        match self {
            Value::Text(own) => own.set(text)?,
            Value::Null => *self = Value::Text(Text::from_str(alloc, text)?),
        }
        Ok(())
    }

    /// Becomes an equal value. It takes memory only where it is null or its text has too little.
    pub fn set_from(&mut self, alloc: Global, other: &Value) -> Result<(), NoMemory>
        ensures ok { OnOk result (self.new ≡ other.now) }
        ensures err { OnErr result (self.new ≡ self.old) }
    {
        match other {
            Value::Text(text) => self.set_text(alloc, text.as_str())?,
            Value::Null => *self = Value::Null,
        }
        Ok(())
    }

    /// Becomes what a cell makes of a value. It takes memory only where it is null or its text has too little.
    pub fn set_after(&mut self, alloc: Global, value: &Value, cell: &Cell) -> Result<(), NoMemory>
        ensures ok { OnOk result (self.new ≡ kept_or_taken value.now cell.now) }
        ensures err { OnErr result (self.new ≡ self.old) }
    {
        match cell {
            Cell::Same => self.set_from(alloc, value),
            Cell::Null => {
                *self = Value::Null;
                Ok(())
            }
            Cell::Text(text) => self.set_text(alloc, text.as_str()),
        }
    }
}

impl Row {
    /// Becomes an equal row, in the room that it has. After `NoMemory` the first of its fields may be new, the others
    /// are old or null, and some may lack.
    pub fn set_from(&mut self, alloc: Global, other: &Row) -> Result<(), NoMemory>
        ensures { OnOk result (self.new ≡ other.now) }
    {
        resize(&mut self.values, other.len())?;
        set_all(alloc, &mut self.values, other.as_slice())
    }

    /// Becomes the row after an update, in the room that it has. The row has a field for each cell. After `NoMemory`
    /// the first of its fields may be new, the others are old or null, and some may lack.
    pub fn set_applied(&mut self, alloc: Global, row: &Row, cells: &Cells) -> Result<(), NoMemory>
        requires { length row.now ≡ length cells.now }
        ensures { OnOk result (self.new ≡ applied row.now cells.now) }
    {
        resize(&mut self.values, row.len())?;
        set_all_after(alloc, &mut self.values, row.as_slice(), cells.as_slice())
    }

    /// Becomes the row after the cells at the places of a schema, in the room that it has. The row has a field for each
    /// place. After `NoMemory` the first of its fields may be new, the others are old or null, and some may lack.
    pub fn set_applied_at(
        &mut self,
        alloc: Global,
        row: &Row,
        cells: &Cells,
        places: &Places,
    ) -> Result<(), NoMemory>
        requires { length row.now ≡ length places.now }
        ensures { OnOk result (self.new ≡ applied row.now (projected_cells cells.now places.now)) }
    {
        resize(&mut self.values, row.len())?;
        set_all_after_at(
            alloc,
            &mut self.values,
            row.as_slice(),
            cells.as_slice(),
            places.as_slice(),
        )
    }

    /// Becomes the row at the places of a schema, in the room that it has: null past that row's last value. After
    /// `NoMemory` the first of its fields may be new, the others are old or null, and some may lack.
    pub fn set_projected(
        &mut self,
        alloc: Global,
        row: &Row,
        places: &Places,
    ) -> Result<(), NoMemory>
        ensures { OnOk result (self.new ≡ projected row.now places.now) }
    {
        resize(&mut self.values, places.len())?;
        set_all_at(alloc, &mut self.values, row.as_slice(), places.as_slice())
    }
}

/// Gives a list so many values, of which the first stay.
fn resize(values: &mut Vec<Value>, n: usize) -> Result<(), NoMemory>
    ensures { OnOk result (length values.new.items ≡ n) }
{
    values.truncate(n);
    while values.len() < n {
        values.push(Value::Null)?;
    }
    Ok(())
}

/// Makes values equal to others.
fn set_all(alloc: Global, values: &mut [Value], others: &[Value]) -> Result<(), NoMemory>
    requires { length values.old ≡ length others.now }
    ensures { OnOk result (values.new ≡ others.now) }
{
    for i in 0..others.len() {
        values[i].set_from(alloc, &others[i])?;
    }
    Ok(())
}

/// Makes values those of a row after cells.
fn set_all_after(
    alloc: Global,
    values: &mut [Value],
    row: &[Value],
    cells: &[Cell],
) -> Result<(), NoMemory>
    requires row { length values.old ≡ length row.now }
    requires cells { length cells.now ≡ length row.now }
    ensures { OnOk result (values.new ≡ applied row.now cells.now) }
{
    for i in 0..row.len() {
        values[i].set_after(alloc, &row[i], &cells[i])?;
    }
    Ok(())
}

/// Becomes what the cell at a place, which is Same past the last, makes of a value.
fn set_after_at(
    alloc: Global,
    own: &mut Value,
    value: &Value,
    cells: &[Cell],
    place: usize,
) -> Result<(), NoMemory>
    ensures { OnOk result (own.new ≡ kept_or_taken value.now (cell_at cells.now place)) }
{
    match cells.get(place) {
        None => own.set_from(alloc, value),
        Some(cell) => own.set_after(alloc, value, cell),
    }
}

/// Makes values those of a row after the cells at the places of a schema.
fn set_all_after_at(
    alloc: Global,
    values: &mut [Value],
    row: &[Value],
    cells: &[Cell],
    places: &[usize],
) -> Result<(), NoMemory>
    requires row { length values.old ≡ length row.now }
    requires places { length places.now ≡ length row.now }
    ensures { OnOk result (values.new ≡ applied row.now (projected_cells cells.now places.now)) }
{
    for i in 0..row.len() {
        set_after_at(alloc, &mut values[i], &row[i], cells, places[i])?;
    }
    Ok(())
}

/// Becomes the value at a place, which is null past the last.
fn set_from_at(
    alloc: Global,
    own: &mut Value,
    values: &[Value],
    place: usize,
) -> Result<(), NoMemory>
    ensures { OnOk result (own.new ≡ value_at values.now place) }
{
    match values.get(place) {
        None => {
            *own = Value::Null;
            Ok(())
        }
        Some(value) => own.set_from(alloc, value),
    }
}

/// Makes values those at the places of a schema.
fn set_all_at(
    alloc: Global,
    values: &mut [Value],
    row: &[Value],
    places: &[usize],
) -> Result<(), NoMemory>
    requires { length values.old ≡ length places.now }
    ensures { OnOk result (values.new ≡ projected row.now places.now) }
{
    for i in 0..places.len() {
        set_from_at(alloc, &mut values[i], row, places[i])?;
    }
    Ok(())
}
