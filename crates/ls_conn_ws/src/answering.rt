//! Answers to messages.
ghost use Rattle.std.specs.Prelude.{◌≡◌, ◌≤◌, ◌<◌, [], ◌∷◌, MatchOption, length, not, false, true};
ghost use mathlib.Core.List.{IsPrefix};
ghost use Rattle.ls_value.specs.declared.limits.TheConstants.{GREATEST_TICK};
ghost use Rattle.ls_conn.specs.Acting.{known};
ghost use Rattle.ls_record.specs.Acting.{is_opening};
ghost use Rattle.ls_conn_ws.specs.Messages.{filled, first_of, has_many, is_empty, lines_after, lines_of};
ghost use Rattle.ls_conn_ws.specs.Serving.{asked};
ghost use Rattle.ls_conn_ws.specs.Answering.{AnswersOne, CausesAnswered, CausesReplied, RepliesEach, RepliesLine, RepliesSingle, RepliesTo};
ghost use Rattle.ls_conn_ws.specs.Answering.{IsAlone, Opens, OpensStream, PutsReply, control_name, reply_for};

use crate::message::first_line;
use crate::running::{Running, begin, own_of, put};
use ls_conn::{Acted, Seen, Shared, act};
use ls_register::{House, View};
use ls_request::LinkKind;
use ls_talk::{PutRefused, Talk};
use ls_value::same_bytes;
use ls_wake::Wakes;
use std::alloc::Global;
use std::sync::Wait;

/// What a request came to.
#[derive(Clone, Copy, Debug, PartialEq, Eq)]
pub(crate) enum Answered {
    /// Its answer was put.
    Line,

    /// A stream was opened, whose lines are its answer: the session's number, and the epoch.
    Opened { session: u64, epoch: u64 },

    /// The put of its answer failed.
    WriteFault,

    /// Memory was refused.
    NoMemory,
}

/// What a message came to.
#[derive(Clone, Copy, Debug, PartialEq, Eq)]
pub(crate) enum Replied {
    /// Each of its requests was answered.
    All,

    /// The put of an answer failed.
    WriteFault,

    /// Memory was refused.
    NoMemory,
}

/// What a connection has: its view of the register, what was seen of sessions by its last message, its stream, and the
/// tick, in ms, at which it was last looked for a message in vain; and how often the bell of its stream had been called
/// before that look, where that is called at a message.
#[derive(Drop)]
pub(crate) struct Desk<N: House> {
    pub(crate) view: View<N>,
    pub(crate) seen: Seen<N>,
    pub(crate) stream: Option<Running<N>>,
    pub(crate) looked: Option<u64>,
    pub(crate) calls: Option<u64>,
}

/// Puts a line as an answer.
pub(crate) fn put_reply<T: Talk>(talk: &mut T, text: &[u8]) -> Replied
    ensures replies { PutsReply result (T.log talk.old) (T.log talk.new) text.now }
    ensures cause { CausesReplied result (T.LineOut.faults talk.old) (T.LineOut.faults talk.new) }
    ensures counts { T.counts talk.new ≡ T.counts talk.old }
{
    match put(talk, text) {
        Ok(()) => Replied::All,
        Err(PutRefused::Failed) => Replied::WriteFault,
        Err(PutRefused::NoMemory) => Replied::NoMemory,
    }
}

/// Does a request, and puts its answer.
#[tactic(auto, using(crate::proofs::Logging::logs_nothing))]
fn answer_one<N: House, R: Wait, T: Talk>(
    rt: &R,
    alloc: Global,
    shared: &Shared<N>,
    talk: &mut T,
    own: Option<u64>,
    name: &[u8],
    params: &[u8],
    now: u64,
    view: &mut View<N>,
    seen: &mut Seen<N>,
) -> Answered
    requires tick { now ≤ GREATEST_TICK }
    ensures answers { AnswersOne N.deed result (asked own name.now now params.now)
        (known view.old seen.old) (known view.new seen.new) (T.log talk.old) (T.log talk.new) }
    ensures opens { Opens result → is_opening name.now ≡ true }
    ensures register { IsPrefix view.old view.new }
    ensures cause { CausesAnswered result (T.LineOut.faults talk.old) (T.LineOut.faults talk.new) }
    ensures counts { T.counts talk.new ≡ T.counts talk.old }
{
    match act(
        rt,
        alloc,
        shared,
        LinkKind::Ws,
        own,
        name,
        params,
        now,
        view,
        seen,
    ) {
        Acted::Line(text) => match put(talk, text.as_slice()) {
            Ok(()) => Answered::Line,
            Err(PutRefused::Failed) => Answered::WriteFault,
            Err(PutRefused::NoMemory) => Answered::NoMemory,
        },
        Acted::Opened { session, epoch } => Answered::Opened { session, epoch },
        Acted::NoMemory => Answered::NoMemory,
    }
}

/// What became of a control request's message, by what became of the request. None of them opens a stream.
fn reply_for(answered: Answered) -> Replied
    ensures { result ≡ reply_for answered }
{
    match answered {
        Answered::Line
        | Answered::Opened {
            session: _,
            epoch: _,
        } => Replied::All,
        Answered::WriteFault => Replied::WriteFault,
        Answered::NoMemory => Replied::NoMemory,
    }
}

/// Whether a line is empty.
fn is_blank(line: &[u8]) -> bool
    ensures { result ≡ is_empty line.now }
{
    match line {
        [] => true,
        _ => false,
    }
}

/// Does the control request of a line, and puts its answer.
fn answer_control<N: House, R: Wait, T: Talk>(
    rt: &R,
    alloc: Global,
    shared: &Shared<N>,
    talk: &mut T,
    own: Option<u64>,
    line: &[u8],
    now: u64,
    view: &mut View<N>,
    seen: &mut Seen<N>,
) -> Replied
    requires tick { now ≤ GREATEST_TICK }
    requires filled { is_empty line.now ≡ false }
    ensures replies { RepliesEach N.deed result own control_name now (filled (line.now ∷ []))
        (known view.old seen.old) (known view.new seen.new) (T.log talk.old) (T.log talk.new) }
    ensures register { IsPrefix view.old view.new }
    ensures cause { CausesReplied result (T.LineOut.faults talk.old) (T.LineOut.faults talk.new) }
    ensures counts { T.counts talk.new ≡ T.counts talk.old }
{
    let answered = answer_one(
        rt, alloc, shared, talk, own, b"control", line, now, view, seen,
    );
    reply_for(answered)
}

/// Does the control request of the first line of a text, unless the line is empty, and puts its answer. Answers the rest
/// of the text, too.
#[tactic(auto, using(crate::proofs::Logging::logs_nothing, crate::proofs::Cutting::one_fewer))]
fn answer_line<'a, N: House, R: Wait, T: Talk>(
    rt: &R,
    alloc: Global,
    shared: &Shared<N>,
    talk: &mut T,
    own: Option<u64>,
    text: &'a [u8],
    now: u64,
    view: &mut View<N>,
    seen: &mut Seen<N>,
) -> (Replied, Option<&'a [u8]>)
    requires tick { now ≤ GREATEST_TICK }
    ensures line { RepliesLine N.deed result.0 own now (lines_of text.now) (lines_after result.1)
        (known view.old seen.old) (known view.new seen.new) (T.log talk.old) (T.log talk.new) }
    ensures fewer { length (lines_after result.1) < length (lines_of text.now) }
    ensures register { IsPrefix view.old view.new }
    ensures cause { CausesReplied result.0 (T.LineOut.faults talk.old) (T.LineOut.faults talk.new) }
    ensures counts { T.counts talk.new ≡ T.counts talk.old }
{
    let (line, rest) = first_line(text);
    if is_blank(line) {
        return (Replied::All, rest);
    }
    let replied = answer_control(rt, alloc, shared, talk, own, line, now, view, seen);
    (replied, rest)
}

/// Whether the answers to a message end before its last request.
fn is_stopped(replied: Replied) -> bool
    ensures yes { result ≡ true → (replied ≡ Replied.All → ⊥) }
    ensures all { result ≡ false → replied ≡ Replied.All }
{
    match replied {
        Replied::All => false,
        Replied::WriteFault | Replied::NoMemory => true,
    }
}

/// Does the control requests of the lines of a text, those that aren't empty, and puts their answers, in order.
#[tactic(auto, using(crate::proofs::Replying::none_yet, crate::proofs::Replying::one_more_line, crate::proofs::Replying::stopped_at, crate::proofs::Replying::all_replied))]
fn answer_each<N: House, R: Wait, T: Talk>(
    rt: &R,
    alloc: Global,
    shared: &Shared<N>,
    talk: &mut T,
    own: Option<u64>,
    text: &[u8],
    now: u64,
    view: &mut View<N>,
    seen: &mut Seen<N>,
) -> Replied
    requires tick { now ≤ GREATEST_TICK }
    ensures replies { RepliesEach N.deed result own control_name now (filled (lines_of text.now))
        (known view.old seen.old) (known view.new seen.new) (T.log talk.old) (T.log talk.new) }
    ensures register { IsPrefix view.old view.new }
    ensures cause { CausesReplied result (T.LineOut.faults talk.old) (T.LineOut.faults talk.new) }
    ensures counts { T.counts talk.new ≡ T.counts talk.old }
{
    let mut rest = Some(text);
    while let Some(more) = rest {
        let (replied, behind) = answer_line(rt, alloc, shared, talk, own, more, now, view, seen);
        if is_stopped(replied) {
            return replied;
        }
        rest = behind;
    }
    Replied::All
}

/// Whether a line of a text isn't empty.
#[tactic(auto, using(crate::proofs::Replying::filled_blank, crate::proofs::Replying::filled_full))]
fn has_filled(text: &[u8]) -> bool
    ensures { result ≡ not (is_empty (filled (lines_of text.now))) }
{
    let mut rest = Some(text);
    while let Some(more) = rest {
        let (line, behind) = first_line(more);
        if is_blank(line) {
            rest = behind;
        } else {
            return true;
        }
    }
    false
}

/// The lines after a message's name, where each of them that isn't empty is a request: where it has this name, and there
/// is such a line.
fn many_lines<'a>(name: &[u8], rest: Option<&'a [u8]>) -> Option<&'a [u8]>
    ensures { MatchOption result (has_many name.now (lines_after rest.entry) ≡ false)
        (λ lines. (lines_after rest.entry ≡ lines_of lines.now) × (has_many name.now (lines_of lines.now) ≡ true)) }
{
    let Some(lines) = rest else {
        return None;
    };
    if same_bytes(name, b"control") && has_filled(lines) {
        Some(lines)
    } else {
        None
    }
}

/// Begins the stream that a request opened: what was seen of its session is with the stream.
fn open_stream<N: House, R: Wait, T: Wakes>(
    rt: &R,
    shared: &Shared<N>,
    talk: &T,
    seen: &mut Seen<N>,
    stream: &mut Option<Running<N>>,
    epoch: u64,
    now: u64,
)
    requires tick { now ≤ GREATEST_TICK }
    requires alone { IsAlone epoch seen.old }
    ensures opens { OpensStream epoch seen.old seen.new stream.new }
{
    let Some(told) = seen.pop() else {
        unreachable!()
    };
    begin(rt, shared, talk, stream, told, epoch, now);
}

/// Does the one request of a message, and puts its answer, or begins the stream that it opens.
fn answer_single<N: House, R: Wait, T: Talk + Wakes>(
    rt: &R,
    alloc: Global,
    shared: &Shared<N>,
    talk: &mut T,
    name: &[u8],
    params: &[u8],
    now: u64,
    desk: &mut Desk<N>,
) -> Replied
    requires tick { now ≤ GREATEST_TICK }
    requires fresh { desk.old.seen ≡ [] }
    ensures replies { RepliesSingle N.deed result name.now now params.now desk.old.view
        (known desk.new.view desk.new.seen) desk.old.stream desk.new.stream (T.log talk.old) (T.log talk.new) }
    ensures register { IsPrefix desk.old.view desk.new.view }
    ensures cause { CausesReplied result (T.LineOut.faults talk.old) (T.LineOut.faults talk.new) }
    ensures counts { T.counts talk.new ≡ T.counts talk.old }
{
    let own = own_of(&desk.stream);
    match answer_one(
        rt,
        alloc,
        shared,
        talk,
        own,
        name,
        params,
        now,
        &mut desk.view,
        &mut desk.seen,
    ) {
        Answered::Line => Replied::All,
        Answered::Opened { session: _, epoch } => {
            open_stream(
                rt,
                shared,
                talk,
                &mut desk.seen,
                &mut desk.stream,
                epoch,
                now,
            );
            Replied::All
        }
        Answered::WriteFault => Replied::WriteFault,
        Answered::NoMemory => Replied::NoMemory,
    }
}

/// The first line of the rest of a text, or the empty text.
fn first_of(rest: Option<&[u8]>) -> &[u8]
    ensures { result.now ≡ first_of (lines_after rest.entry) }
{
    match rest {
        Some(text) => first_line(text).0,
        None => b"",
    }
}

/// Does the requests of a text message, and puts their answers, in order; or begins the stream that it opens.
///
/// It isn't inlined, so that the stack of a stream isn't under that of its requests.
#[inline(never)]
pub(crate) fn answer_message<N: House, R: Wait, T: Talk + Wakes>(
    rt: &R,
    alloc: Global,
    shared: &Shared<N>,
    talk: &mut T,
    text: &[u8],
    now: u64,
    desk: &mut Desk<N>,
) -> Replied
    requires tick { now ≤ GREATEST_TICK }
    ensures replies { RepliesTo N.deed result text.now (known desk.new.view desk.new.seen)
        desk.old.stream desk.new.stream (T.log talk.old) (T.log talk.new) }
    ensures register { IsPrefix desk.old.view desk.new.view }
    ensures cause { CausesReplied result (T.LineOut.faults talk.old) (T.LineOut.faults talk.new) }
    ensures counts { T.counts talk.new ≡ T.counts talk.old }
{
    desk.seen = Seen::new(alloc);
    let (name, rest) = first_line(text);
    let own = own_of(&desk.stream);
    match many_lines(name, rest) {
        Some(lines) => answer_each(
            rt,
            alloc,
            shared,
            talk,
            own,
            lines,
            now,
            &mut desk.view,
            &mut desk.seen,
        ),
        None => answer_single(rt, alloc, shared, talk, name, first_of(rest), now, desk),
    }
}
