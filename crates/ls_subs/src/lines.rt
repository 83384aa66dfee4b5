//! Texts of the lines of a subscription (TLCP 2.1, notifications).
ghost use Rattle.std.specs.Prelude.{◌≡◌, ◌≤◌, ◌++◌, [], Some, codes, IfOk, OnOk, if◌then◌else◌};
ghost use Rattle.ls_event.specs.declared.limits.TheConstants.{MOST_FIELDS};
ghost use Rattle.ls_form.specs.Decimals.{milli_text};
ghost use Rattle.ls_line.specs.declared.line.Line.TheVariants as line;
ghost use Rattle.ls_line.specs.Lines.{text_of_line};
ghost use Rattle.ls_record.specs.Lines.{Begins, Configures, limit_text, line_text};
ghost use Rattle.ls_update.specs.Fields.{spelled};
ghost use Rattle.ls_update.specs.Writing.{row_behind};

use ls_form::print_milli;
use ls_line::{Line, append_update, into_text};
use ls_mirror::KeyPlaces;
use ls_value::{Bytes, NoMemory, Row, Text};
use std::alloc::Global;

/// Appends the line `U,<sub>,<rank>,<coded fields>`: the row of an item of a subscription, coded against the row that
/// the client had before.
pub(crate) fn append_row(
    line_text: &mut Vec<u8>,
    sub: u32,
    rank: u32,
    prev: Option<&Row>,
    row: &Row,
) -> Result<(), NoMemory>
    ensures { OnOk result (line_text.new.items
        ≡ line_text.old.items ++ text_of_line (line.U sub rank (spelled (row_behind prev.entry) row.now))) }
{
    append_update(line_text, sub, rank)?;
    ls_update::append(line_text, prev, row)?;
    Ok(())
}

/// The line with which a subscription of so many items and fields begins: `SUBOK`, or `SUBCMD` with the places of the
/// key and the command in the schema, which count from 1 there.
pub fn begin_text(
    alloc: Global,
    sub: u32,
    items: u32,
    fields: u32,
    keys: Option<KeyPlaces>,
) -> Result<Bytes, NoMemory>
    requires { (k : _) → keys ≡ Some k → (k.key ≤ MOST_FIELDS) × (k.command ≤ MOST_FIELDS) }
    ensures { IfOk result (λ t. t ≡ line_text [] (Begins sub items fields keys)) }
{
    let line = match keys {
        None => Line::SubOk { sub, items, fields },
        Some(keys) => Line::SubCmd {
            sub,
            items,
            fields,
            key: keys.key as u32 + 1,
            command: keys.command as u32 + 1,
        },
    };
    into_text(alloc, line)
}

/// The line `CONF,<sub>,<frequency>,<filtered or unfiltered>`: the greatest frequency is given in thousandths of an
/// update per second, and `None` is `unlimited`.
pub fn configure_text(
    alloc: Global,
    sub: u32,
    frequency: Option<u64>,
    filtered: bool,
) -> Result<Bytes, NoMemory>
    ensures { IfOk result (λ t. t ≡ line_text [] (Configures sub frequency filtered)) }
{
    let frequency = frequency_word(alloc, frequency)?;
    let filter = Text::from_str(alloc, filter_word(filtered))?;
    let line = Line::Conf {
        sub,
        frequency,
        filter,
    };
    into_text(alloc, line)
}

/// A greatest frequency as a line tells it.
fn frequency_word(alloc: Global, frequency: Option<u64>) -> Result<Text, NoMemory>
    ensures { IfOk result (λ t. t ≡ limit_text frequency) }
{
    match frequency {
        None => Text::from_str(alloc, "unlimited"),
        Some(n) => milli_word(alloc, n),
    }
}

/// So many thousandths as a decimal.
fn milli_word(alloc: Global, n: u64) -> Result<Text, NoMemory>
    ensures { IfOk result (λ t. t ≡ milli_text n) }
{
    let text = print_milli(alloc, n)?;
    Text::of_utf8(alloc, text.as_slice())
}

/// Whether updates are filtered, in a word.
fn filter_word(filtered: bool) -> &'static str
    ensures { result.now ≡ (if filtered then codes "filtered" else codes "unfiltered") }
{
    if filtered { "filtered" } else { "unfiltered" }
}
