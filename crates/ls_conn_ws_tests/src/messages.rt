//! What messages are answered.
use crate::serving::{has_lines, messages_of, says, talk_to_end};
use ls_conn_http::ConnEnd;
use ls_outside::Call;
use ls_talk::{MemTalk, Message};
use ls_value::{NoMemory, Text};
use std::alloc::Global;
use std::sync::Wait;
use std::test::Fail;

/// The answer to what is no request.
const MALFORMED: &[u8] = b"ERROR,65,Malformed request";

/// Whether messages are answered by these lines, and the talk then closes.
fn answers<R: Wait>(rt: &R, alloc: Global, texts: &str, wanted: &[u8]) -> Result<bool, NoMemory> {
    says(rt, alloc, texts, 0, ConnEnd::PeerLeft, wanted)
}

/// Messages, divided by NUL, and the lines that answer them.
const TABLE: [(&str, &[u8]); 20] = [
    ("wsok", b"WSOK"),
    ("wsok\r\n", b"WSOK"),
    ("wsok\n", b"WSOK"),
    ("wsok\r\n\r\n", b"WSOK"),
    ("wsok\0wsok", b"WSOK\nWSOK"),
    ("nonsense\0wsok", b"ERROR,65,Malformed request\nWSOK"),
    ("WSOK", b"ERROR,65,Malformed request"),
    ("wsok\r\na=b\r\nc=d", b"WSOK"),
    ("", b"ERROR,65,Malformed request"),
    ("\r\n", b"ERROR,65,Malformed request"),
    ("nonsense", b"ERROR,65,Malformed request"),
    ("control", b"ERROR,65,Malformed request"),
    ("control\r\n\r\n\n", b"ERROR,65,Malformed request"),
    (
        "control\nLS_reqId=1&LS_op=destroy",
        b"REQERR,1,20,Unknown session",
    ),
    (
        "control\r\nLS_reqId=1&LS_op=destroy\r\n\r\nLS_reqId=2\r\nLS_reqId=3&LS_op=destroy\r\n",
        b"REQERR,1,20,Unknown session\nREQERR,2,65,Malformed request\nREQERR,3,20,Unknown session",
    ),
    (
        "bind_session\r\nLS_session=S7",
        b"CONERR,20,Unknown session",
    ),
    (
        "create_session\r\nLS_adapter_set=OTHER",
        b"CONERR,2,Unknown adapter set",
    ),
    (
        "create_session\nLS_polling=true\0wsok",
        b"CONERR,65,Malformed request\nWSOK",
    ),
    ("bind_session", b"CONERR,65,Malformed request"),
    (
        "bind_session\r\n\r\nLS_session=S7",
        b"CONERR,65,Malformed request",
    ),
];

#[test]
fn messages_are_answered(rt: HostRuntime) -> Result<(), Fail> {
    for (texts, wanted) in TABLE {
        assert!(rt; answers(&rt, rt.alloc(), texts, wanted)?);
    }
    Ok(())
}

/// Whether a message is answered by these lines, and the talk then closes.
fn answers_one<R: Wait>(
    rt: &R,
    alloc: Global,
    message: Message,
    wanted: &[u8],
) -> Result<bool, NoMemory> {
    let messages = vec![in alloc; message]?;
    let talk = MemTalk::new(alloc, messages, Vec::new(alloc), Vec::new(alloc));
    match talk_to_end(rt, alloc, talk, Vec::new(alloc)) {
        Some(talked) => {
            Ok(talked.end == ConnEnd::PeerLeft && has_lines(talked.talk.log(), wanted))
        }
        None => Ok(false),
    }
}

#[test]
fn what_is_no_text_is_malformed(rt: HostRuntime) -> Result<(), Fail> {
    assert!(rt; answers_one(&rt, rt.alloc(), Message::Binary, MALFORMED)?);
    assert!(rt; answers_one(&rt, rt.alloc(), Message::Control, b"")?);
    Ok(())
}

/// A text message of so many bytes, of one letter.
fn long(alloc: Global, len: usize) -> Result<Message, NoMemory> {
    let mut text = String::new(alloc);
    for _ in 0..len {
        text.push('x')?;
    }
    Ok(Message::Text(Text::from_str(alloc, text.as_str())?))
}

#[test]
fn a_text_of_50000_bytes_is_read_and_one_more_is_not(rt: HostRuntime) -> Result<(), Fail> {
    let alloc = rt.alloc();
    assert!(rt; answers_one(&rt, alloc, long(alloc, 50_000)?, MALFORMED)?);
    assert!(rt; answers_one(&rt, alloc, long(alloc, 50_001)?, MALFORMED)?);
    Ok(())
}

/// How a talk ends whose reads and puts go so, after one message.
fn end_by<R: Wait>(
    rt: &R,
    alloc: Global,
    reads: &[Call],
    puts: &[Call],
) -> Result<Option<ConnEnd>, NoMemory> {
    let messages = messages_of(alloc, "wsok")?;
    let reads = Vec::from_slice(alloc, reads)?;
    let puts = Vec::from_slice(alloc, puts)?;
    let talk = MemTalk::new(alloc, messages, reads, puts);
    Ok(talk_to_end(rt, alloc, talk, Vec::new(alloc)).map(|talked| talked.end))
}

#[test]
fn faults_end_a_talk(rt: HostRuntime) -> Result<(), Fail> {
    let alloc = rt.alloc();
    assert!(rt; end_by(&rt, alloc, &[Call::Fail], &[])? == Some(ConnEnd::ReadFault));
    assert!(rt; end_by(&rt, alloc, &[], &[Call::Fail])? == Some(ConnEnd::WriteFault));
    assert!(rt; end_by(&rt, alloc, &[], &[Call::Part(3)])? == Some(ConnEnd::WriteFault));
    Ok(())
}

#[test]
fn a_talk_is_given_3000_looks(rt: HostRuntime) -> Result<(), Fail> {
    assert!(rt; says(&rt, rt.alloc(), "wsok", 2999, ConnEnd::PeerLeft, b"WSOK")?);
    assert!(rt; says(&rt, rt.alloc(), "wsok", 3000, ConnEnd::TooSlow, b"WSOK")?);
    Ok(())
}
