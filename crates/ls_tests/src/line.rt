//! Lines by their parts, and each call once with ample memory; `ls_tables` has the tables of lines.
use ls_line::*;
use ls_value::{NoMemory, Text, same_bytes};
use std::alloc::Global;

#[test]
fn a_line_is_read(rt: HostRuntime) {
    let line = read(rt.alloc(), b"OV,3,1,6");
    assert!(rt;
        matches!(
            line,
            Ok(Line::Ov {
                sub: 3,
                item: 1,
                lost: 6
            })
        )
    );
}

/// Whether a line has this text.
fn writes(alloc: Global, line: &Line, want: &[u8]) -> bool {
    match text(alloc, line) {
        Ok(written) => same_bytes(written.as_slice(), want),
        Err(_) => false,
    }
}

#[test]
fn places_stand_in_order(rt: HostRuntime) {
    let begins = Line::SubCmd {
        sub: 1,
        items: 2,
        fields: 3,
        key: 4,
        command: 5,
    };
    assert!(rt; writes(rt.alloc(), &begins, b"SUBCMD,1,2,3,4,5"));
}

/// The line of a message that was not handed on.
fn message_failed(alloc: Global) -> Result<Line, NoMemory> {
    Ok(Line::MsgFail {
        sequence: Text::from_string(String::from_str(alloc, "orders")?),
        number: 3,
        code: 80,
        message: Text::from_string(String::from_str(alloc, "Message refused")?),
    })
}

/// The line of a message that was handed on.
fn message_done(alloc: Global) -> Result<Line, NoMemory> {
    Ok(Line::MsgDone {
        sequence: Text::from_string(String::from_str(alloc, "*")?),
        number: 0,
    })
}

#[test]
fn messages_are_written(rt: HostRuntime) -> Result<(), NoMemory> {
    let failed = message_failed(rt.alloc())?;
    assert!(rt; counts(&failed));
    assert!(rt; writes(rt.alloc(), &failed, b"MSGFAIL,orders,3,80,Message refused"));
    let done = message_done(rt.alloc())?;
    assert!(rt; counts(&done));
    assert!(rt; writes(rt.alloc(), &done, b"MSGDONE,*,0"));
    let written = into_text(rt.alloc(), done)?;
    assert!(rt; same_bytes(written.as_slice(), b"MSGDONE,*,0"));
    Ok(())
}

/// Whether a buffer holds the last of these texts.
fn holds(buffer: &mut LineBuf, first: &[u8; 5], last: &[u8; 7]) -> bool {
    buffer.fill(first);
    let before = same_bytes(buffer.text(), first);
    buffer.fill(last);
    before && same_bytes(buffer.text(), last)
}

/// Whether a buffer holds a text of its length.
fn holds_longest(alloc: Global, buffer: &mut LineBuf) -> Result<bool, NoMemory> {
    let longest = vec![in alloc; b'a'; LONGEST_TEXT]?;
    buffer.fill(&longest);
    Ok(buffer.text().len() == LONGEST_TEXT)
}

#[test]
fn a_buffer_holds_the_last_text(rt: HostRuntime) -> Result<(), NoMemory> {
    let mut buffer = LineBuf::new(rt.alloc())?;
    assert!(rt; buffer.text().is_empty());
    assert!(rt; holds(&mut buffer, b"PROBE", b"EOS,1,1"));
    assert!(rt; holds_longest(rt.alloc(), &mut buffer)?);
    Ok(())
}
