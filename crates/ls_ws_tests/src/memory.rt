//! Lines and messages in memory.
use crate::peers::{
    has_counts, is_binary, is_closed, is_control, is_failed, is_long, is_not_yet, is_text,
};
use ls_outside::Call;
use ls_talk::{
    Between, Happening, LONGEST_MESSAGE, LineOut, MemLines, MemTalk, Message, PlainLines,
    PlainTalk, PutRefused, Talk, Wire,
};
use ls_value::{NoMemory, Text, same_bytes};
use std::alloc::Global;
use std::test::Fail;

/// Whether a line is put, and the stream goes on.
fn puts_and_goes<W: Wire>(wire: &mut W) -> bool {
    wire.put(b"PROBE").is_ok() && wire.between(1) == Between::Go && wire.leaves() == 0
}

#[test]
fn lines_go_by_their_list(rt: HostRuntime) -> Result<(), Fail> {
    let alloc = rt.alloc();
    let calls = [
        Call::Go,
        Call::Fail,
        Call::Part(3),
        Call::Idle,
        Call::Part(7),
    ];
    let mut lines = MemLines::new(alloc, Vec::from_slice(alloc, &calls)?);
    assert!(rt; lines.put(b"LOOP,0").is_ok());
    assert!(rt; lines.put(b"LOOP,1") == Err(PutRefused::Failed));
    assert!(rt; lines.put(b"LOOP,2") == Err(PutRefused::Failed));
    assert!(rt; lines.put_faults() == 2);
    assert!(rt; puts_and_goes(&mut lines));
    assert!(rt; puts_and_goes(&mut lines));
    assert!(rt; same_bytes(lines.bytes(), b"LOOP,0\r\nLOOPROBE\r\nPROBE\r\n"));
    Ok(())
}

#[test]
fn plain_lines_never_fail(rt: HostRuntime) -> Result<(), Fail> {
    let mut lines = PlainLines::new(rt.alloc());
    assert!(rt; puts_and_goes(&mut lines));
    assert!(rt; puts_and_goes(&mut lines));
    assert!(rt; lines.put_faults() == 0);
    assert!(rt; same_bytes(lines.bytes(), b"PROBE\r\nPROBE\r\n"));
    Ok(())
}

/// A text, a ping, a binary message and a text of one byte too many.
fn messages(alloc: Global) -> Result<Vec<Message>, NoMemory> {
    let mut long = String::new(alloc);
    for _ in 0..=LONGEST_MESSAGE {
        long.push_str("x")?;
    }
    let mut messages = Vec::new(alloc);
    messages.push(Message::Text(Text::from_str(alloc, "wsok")?))?;
    messages.push(Message::Control)?;
    messages.push(Message::Binary)?;
    messages.push(Message::Text(Text::from_string(long)))?;
    Ok(messages)
}

/// Whether these messages come over a talk.
fn gives_messages<T: Talk>(talk: &mut T) -> bool {
    is_text(&talk.message(), b"wsok")
        && is_control(&talk.message())
        && is_binary(&talk.message())
        && is_long(&talk.message())
}

/// Whether a happening is that this line was put.
fn is_line(happening: Option<&Happening>, wanted: &[u8]) -> bool {
    match happening {
        Some(Happening::Line(text)) => same_bytes(text.as_slice(), wanted),
        _ => false,
    }
}

/// Whether a happening is that this part of a line went out.
fn is_part(happening: Option<&Happening>, wanted: &[u8]) -> bool {
    match happening {
        Some(Happening::Part(bytes)) => same_bytes(bytes.as_slice(), wanted),
        _ => false,
    }
}

/// Whether a happening is that this text came.
fn is_given(happening: Option<&Happening>, wanted: &[u8]) -> bool {
    match happening {
        Some(Happening::Answer(answer)) => is_text(answer, wanted),
        _ => false,
    }
}

/// Whether a happening is that no message will come.
fn is_close(happening: Option<&Happening>) -> bool {
    match happening {
        Some(Happening::Answer(answer)) => is_closed(answer),
        _ => false,
    }
}

/// Whether a log is that of the next test.
fn has_happened(log: &[Happening]) -> bool {
    log.len() == 9
        && is_line(log.get(0), b"WSOK")
        && is_given(log.get(3), b"wsok")
        && is_part(log.get(7), b"LO")
        && is_close(log.get(8))
}

#[test]
fn a_talk_goes_by_its_lists(rt: HostRuntime) -> Result<(), Fail> {
    let alloc = rt.alloc();
    let reads = Vec::from_slice(alloc, &[Call::Idle, Call::Fail, Call::Go])?;
    let puts = Vec::from_slice(alloc, &[Call::Go, Call::Part(2)])?;
    let mut talk = MemTalk::new(alloc, messages(alloc)?, reads, puts);
    assert!(rt; talk.put(b"WSOK").is_ok());
    assert!(rt; is_not_yet(&talk.message()));
    assert!(rt; is_failed(&talk.message()));
    assert!(rt; gives_messages(&mut talk));
    assert!(rt; talk.put(b"LOOP,0") == Err(PutRefused::Failed));
    assert!(rt; is_closed(&talk.message()));
    assert!(rt; has_counts(&talk, 1, 1, 1, 1));
    assert!(rt; has_happened(talk.log()));
    Ok(())
}

#[test]
fn a_plain_talk_never_fails(rt: HostRuntime) -> Result<(), Fail> {
    let alloc = rt.alloc();
    let mut talk = PlainTalk::new(alloc, messages(alloc)?);
    assert!(rt; gives_messages(&mut talk));
    assert!(rt; is_control(&talk.message()));
    assert!(rt; talk.put(b"WSOK").is_ok());
    assert!(rt; has_counts(&talk, 0, 0, 0, 0));
    assert!(rt; talk.log().len() == 6);
    assert!(rt; is_line(talk.log().get(5), b"WSOK"));
    Ok(())
}
