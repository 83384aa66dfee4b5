//! Requests that are done over a connection, and their answers.
ghost use Rattle.std.specs.Prelude.{◌≡◌, ◌⊎◌, ◌<◌, ◌≤◌, ◌++◌, ◌∷◌, [], ℕ, true, IfOk, IsErrOf, MatchResult, None, OnOk, Err, vec_len, Some, length, slice_get};
ghost use Rattle.std.specs.Option.{ForSome};
ghost use Rattle.std.specs.Vec.{vec_capacity};
ghost use mathlib.Core.List.{IsPrefix};
ghost use Rattle.ls_value.specs.declared.limits.TheConstants.{GREATEST_TICK};
ghost use Rattle.ls_line.specs.declared.line.Line.TheVariants as line_is;
ghost use Rattle.ls_line.specs.Lines.{text_of_line};
ghost use Rattle.ls_request.specs.Ranges.{BindFits, ControlFits, CreateFits, OpFits, RequestFits};
ghost use Rattle.ls_record.specs.Acting.{is_opening, message_of};
ghost use Rattle.ls_acts.specs.Answers.{answer_line};
ghost use Rattle.ls_subs.specs.declared.plan.Refusal.TheVariants as Refused;
ghost use Rattle.ls_told.specs.Seen.{Testified};
ghost use Rattle.ls_told.specs.Requests.{Does, HasBound, RefusesOp, bind_code_of};
ghost use Rattle.ls_shared.specs.Answers.{BindsOn};
ghost use Rattle.ls_conn.specs.Acting.{Acts, BindsBy, BindsTo, ControlsBy, ControlsTo, CreatesBy, IsOpened, Replaces, Requests, Says};
ghost use Rattle.ls_conn.specs.Acting.{SeenGrow, StarvedBy, is_to_open, known, refusal_line, session_for, starved, starved_line};
ghost use Rattle.ls_conn.specs.declared.acted.Acted.TheVariants as acted_is;

use crate::acted::Acted;
use crate::finding::find;
use crate::seen::Seen;
use ls_acts::{UNKNOWN_SESSION, answer, malformed, session_refused};
use ls_line::{Line, into_text};
use ls_record::message_of;
use ls_register::{House, View};
use ls_request::{Bind, Control, Create, LinkKind, Op, Request, RequestRefused, read};
use ls_shared::{Opened, Refusal, Shared, Testimony};
use ls_value::{Bytes, NoMemory, Text, same_bytes};
use std::alloc::Global;
use std::sync::Wait;

/// The code for want of memory.
pub const STARVED: u16 = 75;

/// The answer that is a line.
fn said(alloc: Global, line: Result<Line, NoMemory>) -> Acted
    ensures { MatchResult line (λ l. (result ≡ acted_is.NoMemory) ⊎ Says l result) (λ _. result ≡ acted_is.NoMemory) }
{
    match line {
        Ok(line) => match into_text(alloc, line) {
            Ok(text) => Acted::Line(text),
            Err(NoMemory) => Acted::NoMemory,
        },
        Err(NoMemory) => Acted::NoMemory,
    }
}

/// The answer that refuses a request for a session or a stream for a code.
#[tactic(auto, using(crate::proofs::Saying::says_line))]
fn refused(alloc: Global, code: u16) -> Acted
    ensures { (result ≡ acted_is.NoMemory) ⊎ Says (refusal_line code) result }
{
    said(alloc, session_refused(alloc, code))
}

/// The answer to a control request.
#[tactic(auto, using(crate::proofs::Saying::says_line))]
fn answered(alloc: Global, req: &Text, code: Option<u16>) -> Acted
    ensures { (result ≡ acted_is.NoMemory) ⊎ Says (answer_line req.now code) result }
{
    said(alloc, answer(alloc, req, code))
}

/// Whether a name is that of a request for a session or a stream.
fn is_opening(name: &[u8]) -> bool
    ensures { result ≡ is_opening name.now }
{
    same_bytes(name, b"create_session") || same_bytes(name, b"bind_session")
}

/// The line ERROR, for a code.
fn error(alloc: Global, code: u16) -> Result<Line, NoMemory>
    ensures { IfOk result (λ l. l ≡ line_is.Error code (message_of code)) }
{
    let message = Text::from_str(alloc, message_of(code))?;
    Ok(Line::Error {
        code: u64::from(code),
        message,
    })
}

/// The answer where a request is refused for want of memory.
#[tactic(auto, using(crate::proofs::Saying::says_line))]
fn starved(alloc: Global, name: &[u8]) -> Acted
    ensures { (result ≡ acted_is.NoMemory) ⊎ Says (starved_line name.now) result }
{
    if is_opening(name) {
        return refused(alloc, STARVED);
    }
    said(alloc, error(alloc, STARVED))
}

/// What was seen of the session of a bind stands at this place: a stream of it is bound.
fn bind_at<N: House, R: Wait>(
    rt: &R,
    shared: &Shared<N>,
    tokens: &mut Vec<Testimony<N>>,
    place: usize,
    bind: &Bind,
    now: u64,
) -> Result<u64, Refusal>
    requires tick { now ≤ GREATEST_TICK }
    requires within { place < length tokens.old.items }
    requires named { (t : Testified) → slice_get tokens.old.items place ≡ Some t → t.number ≡ bind.now.session }
    ensures bound { IfOk result (λ epoch. Replaces tokens.old.items tokens.new.items place
        (λ t u. BindsOn bind.now now epoch t u × HasBound epoch u.lines)) }
    ensures refused { (code : ℕ) → IsErrOf result (Refused.Code code) → Replaces tokens.old.items tokens.new.items place
        (λ t u. bind_code_of t.number u.lines bind.now.recover ≡ Some code) }
    ensures memory { IsErrOf result Refused.NoMemory → SeenGrow tokens.old.items tokens.new.items }
{
    shared.bind(rt, bind, now, &mut tokens[place])
}

/// What was seen of a session stands at this place: an operation is done on it.
fn control_at<N: House, R: Wait>(
    rt: &R,
    shared: &Shared<N>,
    tokens: &mut Vec<Testimony<N>>,
    place: usize,
    session: u64,
    op: &Op,
    now: u64,
) -> Result<(), Refusal>
    requires tick { now ≤ GREATEST_TICK }
    requires within { place < length tokens.old.items }
    requires named { (t : Testified) → slice_get tokens.old.items place ≡ Some t → t.number ≡ session }
    requires op { OpFits op.now }
    ensures done { OnOk result (Replaces tokens.old.items tokens.new.items place (Does N.deed.config op.now now)) }
    ensures refused { (code : ℕ) → IsErrOf result (Refused.Code code) → Replaces tokens.old.items tokens.new.items place
        (λ t u. RefusesOp N.deed.config t.number op.now code u.lines u.watches u.register) }
    ensures memory { IsErrOf result Refused.NoMemory → SeenGrow tokens.old.items tokens.new.items }
{
    shared.control(rt, session, op, now, &mut tokens[place])
}

/// Opens a session. It isn't inlined, so that its stack isn't under that of a subscription that is added.
#[inline(never)]
fn create_session<N: House, R: Wait>(
    rt: &R,
    alloc: Global,
    shared: &Shared<N>,
    create: &Create,
    now: u64,
    view: &mut View<N>,
    tokens: &mut Vec<Testimony<N>>,
) -> Acted
    requires tick { now ≤ GREATEST_TICK }
    requires fits { CreateFits create.now }
    ensures register { IsPrefix view.old view.new }
    ensures seen { SeenGrow tokens.old.items tokens.new.items }
    ensures creates { (result ≡ acted_is.NoMemory) ⊎ Says (refusal_line starved) result
        ⊎ CreatesBy N.deed create.now now (known view.old tokens.old.items) (known view.new tokens.new.items) result }
{
    if tokens.reserve(1).is_err() {
        return refused(alloc, STARVED);
    }
    match shared.create(rt, create, now, view) {
        Ok(opened) => add(tokens, opened),
        Err(Refusal::Code(code)) => refused(alloc, code),
        Err(Refusal::NoMemory) => refused(alloc, STARVED),
    }
}

/// Adds what was seen of a session that was opened. There is room for it.
fn add<N: House>(tokens: &mut Vec<Testimony<N>>, opened: Opened<N>) -> Acted
    requires { vec_len tokens.old < vec_capacity tokens.old }
    ensures answer { result ≡ acted_is.Opened opened.session opened.epoch }
    ensures added { tokens.new.items ≡ tokens.old.items ++ opened.seen ∷ [] }
{
    let Opened {
        session,
        epoch,
        seen,
    } = opened;
    tokens.push_reserved(seen);
    Acted::Opened { session, epoch }
}

/// Binds a stream of a session: its epoch, or the code that it is refused for.
fn bound<N: House, R: Wait>(
    rt: &R,
    shared: &Shared<N>,
    bind: &Bind,
    now: u64,
    view: &mut View<N>,
    tokens: &mut Vec<Testimony<N>>,
) -> Result<u64, u16>
    requires tick { now ≤ GREATEST_TICK }
    ensures register { IsPrefix view.old view.new }
    ensures seen { SeenGrow tokens.old.items tokens.new.items }
    ensures binds { (result ≡ Err starved)
        ⊎ BindsTo bind.now now (known view.old tokens.old.items) (known view.new tokens.new.items) result }
{
    match find(rt, shared, bind.session, view, tokens) {
        Ok(Some(place)) => match bind_at(rt, shared, tokens, place, bind, now) {
            Ok(epoch) => Ok(epoch),
            Err(Refusal::Code(code)) => Err(code),
            Err(Refusal::NoMemory) => Err(STARVED),
        },
        Ok(None) => Err(UNKNOWN_SESSION),
        Err(NoMemory) => Err(STARVED),
    }
}

/// Does an operation on a session; or answers the code that it is refused for.
fn operated<N: House, R: Wait>(
    rt: &R,
    shared: &Shared<N>,
    session: u64,
    op: &Op,
    now: u64,
    view: &mut View<N>,
    tokens: &mut Vec<Testimony<N>>,
) -> Option<u16>
    requires tick { now ≤ GREATEST_TICK }
    requires fits { OpFits op.now }
    ensures register { IsPrefix view.old view.new }
    ensures seen { SeenGrow tokens.old.items tokens.new.items }
    ensures controls { (result ≡ Some starved)
        ⊎ ControlsTo N.deed op.now session now (known view.old tokens.old.items) (known view.new tokens.new.items) result }
{
    match find(rt, shared, session, view, tokens) {
        Ok(Some(place)) => match control_at(rt, shared, tokens, place, session, op, now) {
            Ok(()) => None,
            Err(Refusal::Code(code)) => Some(code),
            Err(Refusal::NoMemory) => Some(STARVED),
        },
        Ok(None) => Some(UNKNOWN_SESSION),
        Err(NoMemory) => Some(STARVED),
    }
}

/// Binds a stream of a session. It isn't inlined, for the sake of the stack of a session that is opened.
#[inline(never)]
fn bind_session<N: House, R: Wait>(
    rt: &R,
    alloc: Global,
    shared: &Shared<N>,
    bind: &Bind,
    now: u64,
    view: &mut View<N>,
    tokens: &mut Vec<Testimony<N>>,
) -> Acted
    requires tick { now ≤ GREATEST_TICK }
    ensures register { IsPrefix view.old view.new }
    ensures seen { SeenGrow tokens.old.items tokens.new.items }
    ensures binds { (result ≡ acted_is.NoMemory) ⊎ Says (refusal_line starved) result
        ⊎ BindsBy bind.now now (known view.old tokens.old.items) (known view.new tokens.new.items) result }
{
    match bound(rt, shared, bind, now, view, tokens) {
        Ok(epoch) => Acted::Opened {
            session: bind.session,
            epoch,
        },
        Err(code) => refused(alloc, code),
    }
}

/// The text of REQOK.
fn done_text(alloc: Global, req: &Text) -> Result<Bytes, NoMemory>
    ensures { IfOk result (λ text. text ≡ text_of_line (answer_line req.now None)) }
{
    let line = answer(alloc, req, None)?;
    into_text(alloc, line)
}

/// Does an operation on a session. The memory for REQOK is taken before.
fn control_session<N: House, R: Wait>(
    rt: &R,
    alloc: Global,
    shared: &Shared<N>,
    session: u64,
    control: &Control,
    now: u64,
    view: &mut View<N>,
    tokens: &mut Vec<Testimony<N>>,
) -> Acted
    requires tick { now ≤ GREATEST_TICK }
    requires fits { OpFits control.now.op }
    ensures register { IsPrefix view.old view.new }
    ensures seen { SeenGrow tokens.old.items tokens.new.items }
    ensures controls { (result ≡ acted_is.NoMemory) ⊎ Says (answer_line control.now.req (Some starved)) result
        ⊎ ControlsBy N.deed control.now (Some session) now (known view.old tokens.old.items)
        (known view.new tokens.new.items) result }
    ensures not_opened { ¬ (IsOpened result) }
{
    match done_text(alloc, &control.req) {
        Ok(done) => match operated(rt, shared, session, &control.op, now, view, tokens) {
            None => Acted::Line(done),
            Some(code) => answered(alloc, &control.req, Some(code)),
        },
        Err(NoMemory) => answered(alloc, &control.req, Some(STARVED)),
    }
}

/// The session that a control request is for.
fn session_for(own: Option<u64>, named: Option<u64>) -> Option<u64>
    ensures { result ≡ session_for own named }
{
    match named {
        Some(session) => Some(session),
        None => own,
    }
}

/// Does a control request. It isn't inlined, for the sake of the stack of a session that is opened.
#[inline(never)]
fn do_control<N: House, R: Wait>(
    rt: &R,
    alloc: Global,
    shared: &Shared<N>,
    own: Option<u64>,
    control: &Control,
    now: u64,
    view: &mut View<N>,
    tokens: &mut Vec<Testimony<N>>,
) -> Acted
    requires tick { now ≤ GREATEST_TICK }
    requires fits { OpFits control.now.op }
    ensures register { IsPrefix view.old view.new }
    ensures seen { SeenGrow tokens.old.items tokens.new.items }
    ensures controls { (result ≡ acted_is.NoMemory) ⊎ Says (answer_line control.now.req (Some starved)) result
        ⊎ ControlsBy N.deed control.now (session_for own control.now.session) now (known view.old tokens.old.items)
        (known view.new tokens.new.items) result }
    ensures not_opened { ¬ (IsOpened result) }
{
    match session_for(own, control.session) {
        Some(session) => control_session(rt, alloc, shared, session, control, now, view, tokens),
        None => answered(alloc, &control.req, Some(UNKNOWN_SESSION)),
    }
}

/// Does a request that was read.
fn do_request<N: House, R: Wait>(
    rt: &R,
    alloc: Global,
    shared: &Shared<N>,
    own: Option<u64>,
    request: &Request,
    now: u64,
    view: &mut View<N>,
    tokens: &mut Vec<Testimony<N>>,
) -> Acted
    requires tick { now ≤ GREATEST_TICK }
    requires fits { RequestFits request.now }
    ensures register { IsPrefix view.old view.new }
    ensures seen { SeenGrow tokens.old.items tokens.new.items }
    ensures requests { (result ≡ acted_is.NoMemory) ⊎ StarvedBy request.now result
        ⊎ Requests N.deed own now (known view.old tokens.old.items) (known view.new tokens.new.items) request.now result }
    ensures opens { IsOpened result → is_to_open request.now ≡ true }
{
    match request {
        Request::Create(create) => create_session(rt, alloc, shared, create, now, view, tokens),
        Request::Bind(bind) => bind_session(rt, alloc, shared, bind, now, view, tokens),
        Request::Control(control) => {
            do_control(rt, alloc, shared, own, control, now, view, tokens)
        }
        Request::Wsok => said(alloc, Ok(Line::WsOk)),
    }
}

/// Reads a request and does it.
fn act_on<N: House, R: Wait>(
    rt: &R,
    alloc: Global,
    shared: &Shared<N>,
    link: LinkKind,
    own: Option<u64>,
    name: &[u8],
    params: &[u8],
    now: u64,
    view: &mut View<N>,
    tokens: &mut Vec<Testimony<N>>,
) -> Acted
    requires tick { now ≤ GREATEST_TICK }
    ensures register { IsPrefix view.old view.new }
    ensures seen { SeenGrow tokens.old.items tokens.new.items }
    ensures acts { Acts N.deed
        (record { link = link; own = own; name = name.now; params = params.now; now = now })
        (known view.old tokens.old.items) (known view.new tokens.new.items) result }
    ensures opens { IsOpened result → is_opening name.now ≡ true }
{
    match read(alloc, link, name, params) {
        Ok(request) => do_request(rt, alloc, shared, own, &request, now, view, tokens),
        Err(RequestRefused::Malformed { req }) => said(alloc, malformed(alloc, name, req)),
        Err(RequestRefused::NoMemory) => starved(alloc, name),
    }
}

/// Reads a request and does it, at a tick, in ms, of at most [`GREATEST_TICK`](ls_value::GREATEST_TICK); `own` is the
/// session of the connection, if it has one (TLCP 2.1, requests; orders of refusal and codes are this project's
/// profile).
///
/// It answers a line, or that a stream is bound, which the caller then gives or loses. What was seen of a session that
/// lives is in `seen` then, once for each session; the view has the register as it was looked at. Want of memory is
/// answered with code 75; a request that is done is never answered so. The call may wait.
pub fn act<N: House, R: Wait>(
    rt: &R,
    alloc: Global,
    shared: &Shared<N>,
    link: LinkKind,
    own: Option<u64>,
    name: &[u8],
    params: &[u8],
    now: u64,
    view: &mut View<N>,
    seen: &mut Seen<N>,
) -> Acted
    requires tick { now ≤ GREATEST_TICK }
    ensures register { IsPrefix view.old view.new }
    ensures seen { SeenGrow seen.old seen.new }
    ensures acts { Acts N.deed
        (record { link = link; own = own; name = name.now; params = params.now; now = now })
        (known view.old seen.old) (known view.new seen.new) result }
    ensures opens { IsOpened result → is_opening name.now ≡ true }
{
    act_on(
        rt,
        alloc,
        shared,
        link,
        own,
        name,
        params,
        now,
        view,
        &mut seen.tokens,
    )
}
