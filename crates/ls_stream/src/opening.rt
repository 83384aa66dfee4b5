//! Texts of the lines with which a stream begins (TLCP 2.1, CONOK, SERVNAME, CONS and PROG).
ghost use Rattle.std.specs.Prelude.{◌≡◌, ◌≤◌, ◌++◌, ◌∷◌, [], length, codes, IfOk, OnOk};
ghost use Rattle.std.specs.Fmt.{decimal};
ghost use Rattle.ls_form.specs.Decimals.{milli_text};
ghost use Rattle.ls_line.specs.declared.line.Line.TheVariants as line;
ghost use Rattle.ls_line.specs.Lines.{text_of_line};
ghost use Rattle.ls_value.specs.Each.{Each};
ghost use Rattle.ls_record.specs.Lines.{limit_text};
ghost use Rattle.ls_record.specs.Records.{opening_lines, bandwidth_text, count_lines};
ghost use Rattle.ls_stream.specs.Standing.{IsShort};

use ls_form::print_milli;
use ls_line::{Line, into_text};
use ls_request::Bind;
use ls_value::{Bytes, NoMemory, Text};
use std::alloc::Global;

/// The lines with which a session's stream begins, in order: CONOK with the session's name, `S` and its number, and the
/// keep-alive in milliseconds, then SERVNAME, and CONS with its bandwidth.
pub(crate) fn opening(
    alloc: Global,
    number: u64,
    keepalive: u32,
    bandwidth: Option<u64>,
) -> Result<Vec<Bytes>, NoMemory>
    ensures lines { IfOk result (λ lines. lines.items ≡ opening_lines number keepalive bandwidth) }
    ensures short { IfOk result (λ lines. Each IsShort lines.items) }
{
    let mut lines = Vec::new(alloc);
    lines.push(session_text(alloc, number, keepalive)?)?;
    lines.push(into_text(alloc, Line::ServName)?)?;
    let cons = bandwidth_text(alloc, bandwidth)?;
    lines.push(cons)?;
    Ok(lines)
}

/// The lines with which a new stream of a session begins, in order: those of every stream, with the session's
/// bandwidth, and then PROG, where the client tells a count.
pub(crate) fn rebound_lines(
    alloc: Global,
    bind: &Bind,
    limit: Option<u64>,
) -> Result<Vec<Bytes>, NoMemory>
    ensures lines { IfOk result (λ lines. lines.items
        ≡ opening_lines bind.now.session bind.now.keepalive limit ++ count_lines bind.now.recover) }
    ensures short { IfOk result (λ lines. Each IsShort lines.items) }
{
    let lines = opening(alloc, bind.session, bind.keepalive, limit)?;
    match bind.recover {
        None => Ok(lines),
        Some(count) => with_count(alloc, lines, count),
    }
}

/// These lines, and PROG behind them, with the count that a client tells.
fn with_count(alloc: Global, mut lines: Vec<Bytes>, count: u64) -> Result<Vec<Bytes>, NoMemory>
    ensures lines { IfOk result (λ all. all.items ≡ lines.items ++ text_of_line (line.Prog count) ∷ []) }
    ensures short { Each IsShort lines.items → IfOk result (λ all. Each IsShort all.items) }
{
    let text = count_text(alloc, count)?;
    lines.push(text)?;
    Ok(lines)
}

/// The line `PROG` with a count.
fn count_text(alloc: Global, count: u64) -> Result<Bytes, NoMemory>
    ensures text { IfOk result (λ t. t ≡ text_of_line (line.Prog count)) }
    ensures short { IfOk result (λ t. IsShort t) }
{
    into_text(alloc, Line::Prog { count })
}

/// The line `CONOK` of a session of this number.
fn session_text(alloc: Global, number: u64, keepalive: u32) -> Result<Bytes, NoMemory>
    ensures { IfOk result (λ t. t ≡ text_of_line (line.ConOk (codes "S" ++ decimal number) keepalive)) }
{
    let name = format!(in alloc; "S{number}")?;
    into_text(
        alloc,
        Line::ConOk {
            session: Text::from_string(name),
            keep_alive: u64::from(keepalive),
        },
    )
}

/// The line `CONS` of a bandwidth, in thousandths of a kbit per second.
pub fn bandwidth_text(alloc: Global, limit: Option<u64>) -> Result<Bytes, NoMemory>
    ensures text { IfOk result (λ t. t ≡ bandwidth_text limit) }
    ensures short { IfOk result (λ t. IsShort t) }
{
    let bandwidth = limit_word(alloc, limit)?;
    into_text(alloc, Line::Cons { bandwidth })
}

/// A bandwidth as a line tells it: `unlimited` where there is none.
fn limit_word(alloc: Global, limit: Option<u64>) -> Result<Text, NoMemory>
    ensures text { IfOk result (λ t. t ≡ limit_text limit) }
    ensures short { IfOk result (λ t. length t ≤ 24) }
{
    match limit {
        None => Text::from_str(alloc, "unlimited"),
        Some(limit) => milli_word(alloc, limit),
    }
}

/// So many thousandths as a decimal.
fn milli_word(alloc: Global, n: u64) -> Result<Text, NoMemory>
    ensures text { IfOk result (λ t. t ≡ milli_text n) }
    ensures short { IfOk result (λ t. length t ≤ 24) }
{
    let text = print_milli(alloc, n)?;
    Text::of_utf8(alloc, text.as_slice())
}
