//! Scripts at the edges of what is counted in bytes: what a stream over http is given, and what a session keeps.
use crate::runs::prints;
use ls_run::Status;
use std::alloc::{AllocError, Global};
use std::fmt::Write;
use std::sync::Wait;
use std::test::Fail;

/// Appends so many letters.
fn push_letters(text: &mut String, letters: usize) -> Result<(), AllocError> {
    for _ in 0..letters {
        text.push('a')?;
    }
    Ok(())
}

/// A stream over http with a content length, and a row of so many letters.
fn row_over_http(alloc: Global, length: usize, letters: usize) -> Result<String, AllocError> {
    let mut text = String::from_str(alloc, "item q MERGE x\nconn h http\n")?;
    writeln!(text, "req h create_session LS_content_length={length}")?;
    text.push_str("add h 1 q x MERGE\npub 1 1 q x=")?;
    push_letters(&mut text, letters)?;
    text.push_str("\nenq h 1 1\ntake h 9\n")?;
    Ok(text)
}

/// What it prints: 103 bytes are given beside the letters, with each line's CR LF.
fn printed_over_http(alloc: Global, letters: usize, is_over: bool) -> Result<String, AllocError> {
    let mut text = String::from_str(
        alloc,
        "h:REQOK,4\n-no 1\n-moved 1\nh:CONOK,S1,50000,5000,*\nh:SERVNAME,tlcpd\n\
          h:CONS,unlimited\nh:SUBOK,1,1,1\nh:CONF,1,unlimited,filtered\nh:U,1,1,",
    )?;
    push_letters(&mut text, letters)?;
    text.push_str(if is_over {
        "\nh:LOOP,0\n-unbound\n"
    } else {
        "\n-idle\n"
    })?;
    Ok(text)
}

/// Content lengths, how many letters a row has, and whether the stream is then over.
const LENGTHS: [(usize, usize, bool); 12] = [
    (0, 896, false),
    (0, 897, true),
    (999, 896, false),
    (999, 897, true),
    (1000, 896, false),
    (1000, 897, true),
    (1000, 898, true),
    (1001, 897, false),
    (1001, 898, true),
    (4000, 3896, false),
    (4000, 3897, true),
    (4001, 3897, false),
];

/// The first of them whose stream goes otherwise.
fn first_length_unlike<R: Wait>(rt: &R, alloc: Global) -> Result<Option<usize>, AllocError> {
    for (number, (length, letters, is_over)) in LENGTHS.iter().enumerate() {
        let script = row_over_http(alloc, *length, *letters)?;
        let printed = printed_over_http(alloc, *letters, *is_over)?;
        if !prints(rt, alloc, script.as_bytes(), Status::Ok, printed.as_bytes())? {
            return Ok(Some(number));
        }
    }
    Ok(None)
}

#[test]
fn a_stream_over_http_is_over_where_its_bytes_reach_its_length(
    rt: HostRuntime,
) -> Result<(), Fail> {
    assert!(rt; first_length_unlike(&rt, rt.alloc())?.is_none());
    Ok(())
}

/// A value of so many bytes: its number, and letters.
fn push_value(text: &mut String, number: usize, bytes: usize) -> Result<(), AllocError> {
    write!(text, "{number}")?;
    push_letters(text, bytes.saturating_sub(if number < 10 { 1 } else { 2 }))
}

/// 70 rows in mode RAW of values of so many bytes, each told, so that 72 lines are numbered.
fn wide_rows(alloc: Global, bytes: usize) -> Result<String, AllocError> {
    let mut text = String::from_str(alloc, "item q MERGE x\nopen c\nadd c 1 q x RAW\ntake c 9\n")?;
    for number in 1..71 {
        write!(text, "pub 1 {number} q x=")?;
        push_value(&mut text, number, bytes)?;
        text.push_str("\nenq c 1 1\ntake c\n")?;
    }
    Ok(text)
}

/// What they print.
fn printed_wide_rows(alloc: Global, bytes: usize) -> Result<String, AllocError> {
    let mut text = String::from_str(
        alloc,
        "c:REQOK,3\nc:CONOK,S1,50000,5000,*\nc:SERVNAME,tlcpd\nc:CONS,unlimited\nc:SUBOK,1,1,1\n\
          c:CONF,1,unlimited,unfiltered\n-idle\n",
    )?;
    for number in 1..71 {
        writeln!(text, "-no {number}\n-moved {number}")?;
        push_wide_row(&mut text, number, bytes)?;
    }
    Ok(text)
}

/// The line of a row, on the first connection.
fn push_wide_row(text: &mut String, number: usize, bytes: usize) -> Result<(), AllocError> {
    text.push_str("c:U,1,1,")?;
    push_value(text, number, bytes)?;
    writeln!(text, "")
}

/// What a bind behind a count prints, and a turn behind its opening, which tells the row of a number.
fn push_recovered(
    text: &mut String,
    count: usize,
    number: usize,
    bytes: usize,
) -> Result<(), AllocError> {
    text.push_str("c:CONOK,S1,50000,5000,*\nc:SERVNAME,tlcpd\nc:CONS,unlimited\n")?;
    writeln!(text, "c:PROG,{count}")?;
    push_wide_row(text, number, bytes)
}

/// Binds behind 8 lines and behind 7, where the texts of the last 64 lines have 4,096 bytes each.
const BINDS_BEHIND_8: &str = "\
req c bind_session LS_session=S1&LS_recovery_from=7
req c bind_session LS_session=S1&LS_recovery_from=8
req c control LS_reqId=a&LS_op=reconf&LS_subId=1&LS_requested_max_frequency=1
req c bind_session LS_session=S1&LS_recovery_from=8
take c 5
req c bind_session LS_session=S1&LS_recovery_from=8
req c bind_session LS_session=S1&LS_recovery_from=9
take c 5
";

/// The last 64 lines are kept, which have as many bytes as may be kept. A further line gives up none of them while it
/// is unsent, and then the one behind the eighth.
fn are_64_kept<R: Wait>(rt: &R, alloc: Global) -> Result<bool, AllocError> {
    let mut script = wide_rows(alloc, 4090)?;
    script.push_str(BINDS_BEHIND_8)?;
    let mut printed = printed_wide_rows(alloc, 4090)?;
    printed.push_str("c:CONERR,4,Recovery not possible\nc:REQOK,a\n")?;
    push_recovered(&mut printed, 8, 7, 4090)?;
    printed.push_str("c:CONERR,4,Recovery not possible\n")?;
    push_recovered(&mut printed, 9, 8, 4090)?;
    prints(rt, alloc, script.as_bytes(), Status::Ok, printed.as_bytes())
}

/// Binds behind 9 lines and behind 8, where the texts of the last 63 lines have 4,097 bytes each.
const BINDS_BEHIND_9: &str = "\
req c bind_session LS_session=S1&LS_recovery_from=8
req c bind_session LS_session=S1&LS_recovery_from=9
take c 5
";

/// The last 63 lines are kept: one more has too many bytes.
fn are_63_kept<R: Wait>(rt: &R, alloc: Global) -> Result<bool, AllocError> {
    let mut script = wide_rows(alloc, 4091)?;
    script.push_str(BINDS_BEHIND_9)?;
    let mut printed = printed_wide_rows(alloc, 4091)?;
    printed.push_str("c:CONERR,4,Recovery not possible\n")?;
    push_recovered(&mut printed, 9, 8, 4091)?;
    prints(rt, alloc, script.as_bytes(), Status::Ok, printed.as_bytes())
}

#[test]
fn lines_are_kept_by_their_bytes(rt: HostRuntime) -> Result<(), Fail> {
    assert!(rt; are_64_kept(&rt, rt.alloc())?);
    assert!(rt; are_63_kept(&rt, rt.alloc())?);
    Ok(())
}
