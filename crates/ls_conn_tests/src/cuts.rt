//! Streams of which a put fails: the next one goes on after the lines that came whole.
use crate::world::other_answer;
use std::alloc::{AllocError, Global};
use std::sync::Wait;
use std::test::Fail;

/// How a session begins of which all lines are known.
const BEGIN: &str = "\
ws create_session > opened 1 1
ws control LS_reqId=1&LS_op=add&LS_subId=1&LS_mode=RAW&LS_group=q&LS_schema=x > REQOK,1
pub q 1 x=1 > 1
pub q 2 x=2 > 2
";

/// How many lines of a stream come before the numbered ones.
const HEAD: usize = 3;

/// The lines of the first stream, those before the numbered ones first.
const LINES: [&str; 7] = [
    "CONOK,S1,50000,5000,*",
    "SERVNAME,tlcpd",
    "CONS,unlimited",
    "SUBOK,1,1,1",
    "CONF,1,unlimited,unfiltered",
    "U,1,1,1",
    "U,1,1,2",
];

/// The first three bytes of each.
const STARTS: [&str; 7] = ["CON", "SER", "CON", "SUB", "CON", "U,1", "U,1"];

/// Adds lines of a range.
fn push_lines(table: &mut String, from: usize, upto: usize) -> Result<(), AllocError> {
    for place in from..upto.min(LINES.len()) {
        table.push_str(LINES[place])?;
        table.push_str(" / ")?;
    }
    Ok(())
}

/// The call of a stream of which the put of the line at a place fails, or puts a part alone, and its answer.
fn push_cut(table: &mut String, place: usize, is_part: bool) -> Result<(), AllocError> {
    table.push_str("stream 0 0x12 ")?;
    for _ in 0..place {
        table.push_str("go,")?;
    }
    table.push_str(if is_part { "part > " } else { "fail > " })?;
    push_lines(table, 0, place)?;
    if is_part && place < STARTS.len() {
        table.push_str(STARTS[place])?;
        table.push_str("~ / ")?;
    }
    table.push_str("-fault waited 0\n")
}

/// The calls by which another stream goes on after so many numbered lines, and their answers.
fn push_rest(alloc: Global, table: &mut String, count: usize) -> Result<(), AllocError> {
    let ticks = LINES.len().saturating_add(3).saturating_sub(count);
    table.push_str("lose 0 > ok\n")?;
    table.push_str(format!(in alloc;
        "ws bind_session LS_session=S1&LS_recovery_from={count} > opened 1 2\n"
    )?.as_str())?;
    table.push_str(format!(in alloc; "stream 1 0x{ticks} > ")?.as_str())?;
    push_lines(table, 0, HEAD)?;
    table.push_str(format!(in alloc; "PROG,{count} / ")?.as_str())?;
    push_lines(table, HEAD.saturating_add(count), LINES.len())?;
    table.push_str("-stopped waited 10\n")
}

/// The first line of a table that is answered otherwise, where the put of the line at a place fails.
fn other_at<R: Wait>(rt: &R, alloc: Global, place: usize, is_part: bool) -> Result<String, Fail> {
    let mut table = String::from_str(alloc, BEGIN)?;
    push_cut(&mut table, place, is_part)?;
    push_rest(alloc, &mut table, place.saturating_sub(HEAD))?;
    other_answer(rt, alloc, b"q MERGE x\n", table.as_str())
}

#[test]
fn a_stream_goes_on_after_each_cut(rt: HostRuntime) -> Result<(), Fail> {
    for place in 0..LINES.len() {
        let failed = other_at(&rt, rt.alloc(), place, false)?;
        assert!(rt; failed.is_empty(), "{failed}");
        let cut = other_at(&rt, rt.alloc(), place, true)?;
        assert!(rt; cut.is_empty(), "{cut}");
    }
    Ok(())
}
