//! What is counted of printed lines.
ghost use Rattle.std.specs.Prelude.{◌≡◌, ◌+◌, IfOk, if◌then◌else◌};
ghost use Rattle.ls_soak.specs.Tallies.{is_update, counted, joined, tally_of, lines_in};

use ls_value::NoMemory;
use ls_words::{first_piece, split_once};

/// How many lines were printed, and how many of them are updates.
#[derive(Clone, Copy, Debug, PartialEq, Eq)]
pub(crate) struct Tally {
    /// All lines.
    pub lines: u64,

    /// Those whose text after the connection's name and `:` begins with `U,`.
    pub updates: u64,
}

/// One more. A count past 2^64 - 1 ends as want of memory.
fn one_more(count: u64) -> Result<u64, NoMemory>
    ensures { IfOk result (λ n. n ≡ count + 1) }
{
    match count.checked_add(1) {
        Some(count) => Ok(count),
        None => Err(NoMemory),
    }
}

/// Whether a printed line is an update.
fn is_update(line: &[u8]) -> bool
    ensures { result ≡ is_update line.now }
{
    match split_once(b':', line) {
        Some((_, text)) => text.starts_with(b"U,"),
        None => false,
    }
}

/// Counts a printed line.
fn with_line(tally: Tally, line: &[u8]) -> Result<Tally, NoMemory>
    ensures { IfOk result (λ t. t ≡ counted tally line.now) }
{
    let lines = one_more(tally.lines)?;
    if is_update(line) {
        let updates = one_more(tally.updates)?;
        Ok(Tally { lines, updates })
    } else {
        Ok(Tally {
            lines,
            updates: tally.updates,
        })
    }
}

/// Counts a piece of a text, if it isn't the last one, and so is a line.
fn with_piece(tally: Tally, piece: &[u8], last: bool) -> Result<Tally, NoMemory>
    ensures { IfOk result (λ t. t ≡ (if last then tally else counted tally piece.now)) }
{
    if last {
        return Ok(tally);
    }
    with_line(tally, piece)
}

/// Counts the lines of a text, each of which ends with LF.
pub(crate) fn with_text(before: Tally, text: &[u8]) -> Result<Tally, NoMemory>
    ensures { IfOk result (λ t. t ≡ joined before (tally_of (lines_in text.now))) }
{
    let mut tally = before;
    let mut rest = Some(text);
    while let Some(unread) = rest {
        let (line, behind) = first_piece(b'\n', unread);
        tally = with_piece(tally, line, behind.is_none())?;
        rest = behind;
    }
    Ok(tally)
}
