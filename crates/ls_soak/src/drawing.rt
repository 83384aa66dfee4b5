//! The lines that a soak draws.
ghost use Rattle.std.specs.Prelude.{◌≡◌, ◌+◌, ◌++◌, ◌<◌, OnOk};
ghost use Rattle.std.specs.String.{string_bytes};
ghost use Rattle.ls_soak.specs.Drawing.{following, connection_of, session_of, merge_event, command_said};
ghost use Rattle.ls_soak.specs.Drawing.{command_event, event_said, publish_line, enqueue_line, take_line, other_line, line_by};
ghost use Rattle.ls_soak.specs.Drawing.{choice_of};

use std::alloc::AllocError;

/// The multiplier of the generator (Knuth's, of MMIX).
const MULTIPLIER: u64 = 6_364_136_223_846_793_005;

/// What the generator adds.
const INCREMENT: u64 = 1_442_695_040_888_963_407;

/// The number after another one.
pub(crate) fn following(x: u64) -> u64
    ensures { result ≡ following x }
{
    x.wrapping_mul(MULTIPLIER).wrapping_add(INCREMENT)
}

/// What a step does.
#[derive(Clone, Copy)]
pub(crate) struct Choice {
    /// From 0 to 9: it publishes, enqueues, takes, or does something else.
    act: u64,

    /// From 0 to 2.
    kind: u64,

    /// From 0 to 49.
    value: u64,
}

/// What a number has a step do.
pub(crate) fn choice_of(x: u64) -> Choice
    ensures chosen { result ≡ choice_of x }
{
    let r = x >> 32;
    Choice {
        act: r % 10,
        kind: r / 10 % 3,
        value: r / 30 % 50,
    }
}

/// The connection of a value.
fn connection_of(value: u64) -> &'static str
    ensures { result.now ≡ connection_of value }
{
    if value % 2 == 0 { "c" } else { "e" }
}

/// The number of its session.
fn session_of(value: u64) -> u64
    ensures { result ≡ session_of value }
{
    if value % 2 == 0 { 1 } else { 2 }
}

/// Appends an event of the item in MERGE mode.
fn merge_event(line: &mut String, value: u64) -> Result<(), AllocError>
    ensures { OnOk result (string_bytes line.new ≡ string_bytes line.old ++ merge_event value) }
{
    if value % 3 == 0 {
        write!(line, " m a={value}")
    } else if value % 3 == 1 {
        write!(line, " m b={value}")
    } else {
        write!(line, " m c=#")
    }
}

/// Appends what is said of a key.
fn command(line: &mut String, value: u64) -> Result<(), AllocError>
    ensures { OnOk result (string_bytes line.new ≡ string_bytes line.old ++ command_said value) }
{
    if value % 7 == 0 {
        write!(line, "&command=DELETE")
    } else {
        write!(line, "&command=UPDATE&a={value}")
    }
}

/// Appends an event of the item in COMMAND mode.
fn command_event(line: &mut String, value: u64) -> Result<(), AllocError>
    ensures { OnOk result (string_bytes line.new ≡ string_bytes line.old ++ command_event value) }
{
    let key = value % 5;
    write!(line, " k key=k{key}")?;
    command(line, value)
}

/// Appends the item and the event of a publish.
fn event(line: &mut String, kind: u64, value: u64) -> Result<(), AllocError>
    ensures { OnOk result (string_bytes line.new ≡ string_bytes line.old ++ event_said kind value) }
{
    if kind == 0 {
        merge_event(line, value)
    } else if kind == 1 {
        write!(line, " d a={value}")
    } else {
        command_event(line, value)
    }
}

/// Appends the line of a step that publishes.
fn publish(line: &mut String, number: u64, kind: u64, value: u64) -> Result<(), AllocError>
    ensures { OnOk result (string_bytes line.new ≡ string_bytes line.old ++ publish_line number kind value) }
{
    write!(line, "pub 1 {number}")?;
    event(line, kind, value)
}

/// Appends the line of a step that enqueues.
fn enqueue(line: &mut String, kind: u64, value: u64) -> Result<(), AllocError>
    requires { kind < 3 }
    ensures { OnOk result (string_bytes line.new ≡ string_bytes line.old ++ enqueue_line kind value) }
{
    let connection = connection_of(value);
    let sub = kind + 1;
    write!(line, "enq {connection} {sub} 1 3")
}

/// Appends the line of a step that takes.
fn take(line: &mut String, value: u64) -> Result<(), AllocError>
    ensures { OnOk result (string_bytes line.new ≡ string_bytes line.old ++ take_line value) }
{
    let connection = connection_of(value);
    write!(line, "take {connection} 4")
}

/// Appends the line of a step that clears the item in COMMAND mode, loses a stream, or binds it again.
fn other(line: &mut String, number: u64, kind: u64, value: u64) -> Result<(), AllocError>
    ensures { OnOk result (string_bytes line.new ≡ string_bytes line.old ++ other_line number kind value) }
{
    let connection = connection_of(value);
    let session = session_of(value);
    if kind == 0 {
        write!(line, "clear 1 {number} k")
    } else if kind == 1 {
        write!(line, "lose {connection}")
    } else {
        write!(line, "req {connection} bind_session LS_session=S{session}")
    }
}

/// Appends the line of a step by its number, from 1, and by what it does.
pub(crate) fn append_line(line: &mut String, number: u64, choice: Choice) -> Result<(), AllocError>
    requires { choice.kind < 3 }
    ensures { OnOk result (string_bytes line.new ≡ string_bytes line.old ++ line_by number choice) }
{
    if choice.act < 4 {
        publish(line, number, choice.kind, choice.value)
    } else if choice.act < 7 {
        enqueue(line, choice.kind, choice.value)
    } else if choice.act < 9 {
        take(line, choice.value)
    } else {
        other(line, number, choice.kind, choice.value)
    }
}
