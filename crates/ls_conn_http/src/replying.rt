//! Replies: a refusal, the answers to control requests, and the answer or the stream of a request that opens one.
ghost use Rattle.std.specs.Prelude.{◌≡◌, ◌⊎◌, ◌++◌, ◌∷◌, [], ℕ, List, false, true, IfOk, OnErr, OnOk, length};
ghost use Rattle.std.specs.Io.KnownBytes.{Appends};
ghost use mathlib.Core.List.{IsPrefix};
ghost use Rattle.ls_outside.specs.Causes.{Rose};
ghost use Rattle.ls_line.specs.Lines.{text_of_line};
ghost use Rattle.ls_record.specs.Acting.{is_opening};
ghost use Rattle.ls_talk.specs.Lines.{line_bytes};
ghost use Rattle.ls_conn.specs.Acting.{Known, known};
ghost use Rattle.ls_conn.specs.Streaming.{lines_of};
ghost use Rattle.ls_conn_http.specs.Bodies.{ControlReply, answer_text, params_in, params_of, version_line};
ghost use Rattle.ls_conn_http.specs.Replying.{Answered, RepliesBy, WritesRefusal, WritesReply};
ghost use Rattle.ls_http.specs.Replies.{answer_head, refusal_text};

use crate::bodies::first_line;
use ls_conn::{Acted, ConnEnd, Seen, Shared, act};
use ls_http::{append_answer_head, append_refusal};
use ls_line::{Line, into_text};
use ls_outside::{Clock, Put, Sink, write_all};
use ls_register::{House, View};
use ls_request::LinkKind;
use ls_value::{Bytes, NoMemory, Text};
use std::alloc::Global;
use std::sync::Wait;

/// The code of another version of the protocol (this project's profile).
const OTHER_VERSION: u64 = 60;

/// Writes a whole text: then the connection is served, or else a write failed.
fn write_text<K: Sink>(sink: &mut K, text: &[u8]) -> ConnEnd
    ensures writes { WritesReply result (K.held sink.old) (K.held sink.new) text.now }
    ensures fault { result ≡ ConnEnd.WriteFault → Rose (K.faults sink.old) (K.faults sink.new) }
{
    match write_all(sink, text) {
        Put::Taken(_) => ConnEnd::Served,
        Put::Failed => ConnEnd::WriteFault,
    }
}

/// Appends a line's text and its CR LF. After `NoMemory` a part of it may be there.
fn append_line(lines: &mut Vec<u8>, text: &[u8]) -> Result<(), NoMemory>
    ensures { OnOk result (lines.new.items ≡ lines.old.items ++ line_bytes text.now) }
{
    lines.extend_from_slice(text)?;
    lines.extend_from_slice(b"\r\n")?;
    Ok(())
}

/// Writes an answer: its head, and these lines.
pub(crate) fn write_answer<K: Sink>(alloc: Global, sink: &mut K, lines: &[u8]) -> ConnEnd
    ensures writes { (texts : List (List ℕ)) → lines.now ≡ lines_of texts
        → WritesReply result (K.held sink.old) (K.held sink.new) (answer_text texts) }
    ensures fault { result ≡ ConnEnd.WriteFault → Rose (K.faults sink.old) (K.faults sink.new) }
{
    match answer_of(alloc, lines) {
        Ok(text) => write_text(sink, &text),
        Err(NoMemory) => ConnEnd::NoMemory,
    }
}

/// The bytes of an answer.
fn answer_of(alloc: Global, lines: &[u8]) -> Result<Vec<u8>, NoMemory>
    ensures { IfOk result (λ text. text.items ≡ answer_head (length lines.now) ++ lines.now) }
{
    let mut text = Vec::new(alloc);
    append_answer_head(&mut text, lines.len() as u64)?;
    text.extend_from_slice(lines)?;
    Ok(text)
}

/// Does a control request that stands in a line of a body, and appends its answer. An empty line is none.
fn answer_line<N: House, R: Wait, K: Clock>(
    rt: &R,
    alloc: Global,
    shared: &Shared<N>,
    clock: &mut K,
    name: &[u8],
    line: &[u8],
    view: &mut View<N>,
    seen: &mut Seen<N>,
    lines: &mut Vec<u8>,
) -> Result<(), NoMemory>
    requires { is_opening name.now ≡ false }
    ensures { OnOk result (Answered N.deed name.now (params_in (line.now ∷ [])) (known view.old seen.old)
        (known view.new seen.new) lines.old.items lines.new.items) }
{
    if line.is_empty() {
        return Ok(());
    }
    answer_request(rt, alloc, shared, clock, name, line, view, seen, lines)
}

/// Does a control request, and appends its answer.
fn answer_request<N: House, R: Wait, K: Clock>(
    rt: &R,
    alloc: Global,
    shared: &Shared<N>,
    clock: &mut K,
    name: &[u8],
    params: &[u8],
    view: &mut View<N>,
    seen: &mut Seen<N>,
    lines: &mut Vec<u8>,
) -> Result<(), NoMemory>
    requires { is_opening name.now ≡ false }
    ensures { OnOk result (Answered N.deed name.now (params.now ∷ []) (known view.old seen.old)
        (known view.new seen.new) lines.old.items lines.new.items) }
{
    let now = clock.now();
    match act(
        rt,
        alloc,
        shared,
        LinkKind::Http,
        None,
        name,
        params,
        now,
        view,
        seen,
    ) {
        Acted::Line(text) => append_line(lines, text.as_slice()),
        Acted::Opened {
            session: _,
            epoch: _,
        } => unreachable!(),
        Acted::NoMemory => Err(NoMemory),
    }
}

/// Does the control requests of a body, one after another, and appends their answers.
fn answer_all<N: House, R: Wait, K: Clock>(
    rt: &R,
    alloc: Global,
    shared: &Shared<N>,
    clock: &mut K,
    name: &[u8],
    body: &[u8],
    view: &mut View<N>,
    seen: &mut Seen<N>,
    lines: &mut Vec<u8>,
) -> Result<(), NoMemory>
    requires { is_opening name.now ≡ false }
    ensures { OnOk result (Answered N.deed name.now (params_of body.now) (known view.old seen.old)
        (known view.new seen.new) lines.old.items lines.new.items) }
{
    let mut rest = Some(body);
    while let Some(text) = rest {
        let (line, others) = first_line(text);
        match answer_line(rt, alloc, shared, clock, name, line, view, seen, lines) {
            Ok(()) => {}
            Err(NoMemory) => return Err(NoMemory),
        }
        rest = others;
    }
    Ok(())
}

/// The bytes of a refusal.
fn refusal_of(alloc: Global, status: u16) -> Result<Vec<u8>, NoMemory>
    ensures { IfOk result (λ text. text.items ≡ refusal_text status) }
{
    let mut text = Vec::new(alloc);
    append_refusal(&mut text, status)?;
    Ok(text)
}

/// Writes a refusal.
pub(crate) fn refuse<K: Sink>(alloc: Global, sink: &mut K, status: u16) -> ConnEnd
    ensures refuses { WritesRefusal result status (K.held sink.old) (K.held sink.new) }
    ensures fault { result ≡ ConnEnd.WriteFault → Rose (K.faults sink.old) (K.faults sink.new) }
{
    match refusal_of(alloc, status) {
        Ok(text) => write_refusal(sink, &text, status),
        Err(NoMemory) => ConnEnd::NoMemory,
    }
}

/// Writes the bytes of a refusal.
fn write_refusal<K: Sink>(sink: &mut K, text: &[u8], status: u16) -> ConnEnd
    requires { text.now ≡ refusal_text status }
    ensures refuses { WritesRefusal result status (K.held sink.old) (K.held sink.new) }
    ensures fault { result ≡ ConnEnd.WriteFault → Rose (K.faults sink.old) (K.faults sink.new) }
{
    match write_all(sink, text) {
        Put::Taken(_) => ConnEnd::Refused { status },
        Put::Failed => ConnEnd::WriteFault,
    }
}

/// One line, as it is written.
fn one_line(alloc: Global, text: &[u8]) -> Result<Vec<u8>, NoMemory>
    ensures { IfOk result (λ lines. lines.items ≡ lines_of (text.now ∷ [])) }
{
    let mut lines = Vec::new(alloc);
    append_line(&mut lines, text)?;
    Ok(lines)
}

/// The line that refuses another version of the protocol.
fn version_text(alloc: Global, opening: bool) -> Result<Bytes, NoMemory>
    ensures { IfOk result (λ text. text ≡ text_of_line (version_line opening)) }
{
    let message = Text::from_str(alloc, "Protocol version not supported")?;
    let code = OTHER_VERSION;
    let line = if opening {
        Line::ConErr { code, message }
    } else {
        Line::Error { code, message }
    };
    into_text(alloc, line)
}

/// Refuses another version of the protocol.
pub(crate) fn reply_version<K: Sink>(alloc: Global, sink: &mut K, opening: bool) -> ConnEnd
    ensures writes { WritesReply result (K.held sink.old) (K.held sink.new)
        (answer_text (text_of_line (version_line opening) ∷ [])) }
    ensures fault { result ≡ ConnEnd.WriteFault → Rose (K.faults sink.old) (K.faults sink.new) }
{
    match version_text(alloc, opening) {
        Ok(text) => reply_line(alloc, sink, text.as_slice()),
        Err(NoMemory) => ConnEnd::NoMemory,
    }
}

/// Answers with one line.
pub(crate) fn reply_line<K: Sink>(alloc: Global, sink: &mut K, text: &[u8]) -> ConnEnd
    ensures writes { WritesReply result (K.held sink.old) (K.held sink.new) (answer_text (text.now ∷ [])) }
    ensures fault { result ≡ ConnEnd.WriteFault → Rose (K.faults sink.old) (K.faults sink.new) }
{
    match one_line(alloc, text) {
        Ok(lines) => write_answer(alloc, sink, &lines),
        Err(NoMemory) => ConnEnd::NoMemory,
    }
}

/// Does the control requests of a body, and answers them.
pub(crate) fn reply_control<N: House, R: Wait, C: Sink, K: Clock>(
    rt: &R,
    alloc: Global,
    conn: &mut C,
    shared: &Shared<N>,
    clock: &mut K,
    name: &[u8],
    body: &[u8],
    view: &mut View<N>,
    seen: &mut Seen<N>,
) -> ConnEnd
    requires { is_opening name.now ≡ false }
    ensures writes { RepliesBy result (C.held conn.old) (C.held conn.new)
        (λ _ text. ControlReply N.deed name.now body.now text (known view.old seen.old) (known view.new seen.new)) }
    ensures not_stopped { ¬ (result ≡ ConnEnd.Stopped) }
    ensures fault { result ≡ ConnEnd.WriteFault → Rose (C.faults conn.old) (C.faults conn.new) }
{
    let mut lines = Vec::new(alloc);
    match answer_all(rt, alloc, shared, clock, name, body, view, seen, &mut lines) {
        Ok(()) => write_answer(alloc, conn, &lines),
        Err(NoMemory) => ConnEnd::NoMemory,
    }
}
