//! The calls of sessions, made by hand on items of one's own, as another front end makes them: of a turn `turn`,
//! `look` or `pending`, `answer` and `pass`, until it asks no more.
ghost use Rattle.std.specs.Prelude.{IfSome};
ghost use Rattle.ls_request.specs.Ranges.{AddFits, OpFits};

use ls_cell::Enqueued;
use ls_cells::AllItems;
use ls_config::{Config, read as read_config};
use ls_event::{ItemDef, Kind, MOST_FIELDS, read_event};
use ls_line::Line;
use ls_request::{Add, Bind, Control, Create, LinkKind, Op, Request, read as read_request};
use ls_session::{Ask, DESTROYED, Lost, Reply, Session, Turn};
use ls_subs::{PlanItem, Refusal};
use ls_value::{NoMemory, Text};
use std::alloc::Global;
use std::test::Fail;

/// Two items.
const ITEMS: &[u8] = b"a MERGE x\nb DISTINCT y\n";

/// Requests for subscriptions: of the first item, of the second, and of the second with a snapshot.
const ONE: &[u8] = b"LS_reqId=1&LS_op=add&LS_subId=1&LS_mode=MERGE&LS_group=a&LS_schema=x";

const TWO: &[u8] = b"LS_reqId=1&LS_op=add&LS_subId=2&LS_mode=DISTINCT&LS_group=b&LS_schema=y";

const SNAPSHOT: &[u8] =
    b"LS_reqId=1&LS_op=add&LS_subId=1&LS_mode=DISTINCT&LS_group=b&LS_schema=y&LS_snapshot=true";

/// What the first session is told, and what the second is.
const FIRST: &[u8] = b"CONOK,S1,50000,5000,*
SERVNAME,tlcpd
CONS,unlimited
SUBOK,1,1,1
CONF,1,unlimited,filtered
SUBOK,2,1,1
CONF,2,unlimited,filtered
U,1,1,1
U,2,1,1
U,2,1,2
";

const SECOND: &[u8] = b"CONOK,S2,50000,5000,*
SERVNAME,tlcpd
CONS,unlimited
SUBOK,1,1,1
CONF,1,unlimited,filtered
U,1,1,1
EOS,1,1
U,1,1,2
";

/// What is told of another frequency, the line that it held back, and what is told of another bandwidth.
const CONFIGURED: &[u8] = b"CONF,1,2.0,filtered\n";

const HELD: &[u8] = b"U,1,1,3\n";

const CONSTRAINED: &[u8] = b"CONS,1.25\n";

/// What the first session is told on its second stream, behind six lines; and on that one once it is forced to be over.
const RECOVERED: &[u8] = b"CONOK,S1,50000,9000,*
SERVNAME,tlcpd
CONS,unlimited
PROG,6
U,2,1,2
";

const LOOPED: &[u8] = b"LOOP,0\n";

/// The line of a client's message, alone and behind the lines that open a session.
const MESSAGE: &[u8] = b"MSGDONE,chat,1";

const MESSAGE_BEHIND: &[u8] = b"CONOK,S1,50000,5000,*
SERVNAME,tlcpd
CONS,unlimited
MSGDONE,chat,1
";

/// Items, and two sessions that are to be told of them.
#[derive(Drop)]
struct Served {
    cells: AllItems,
    one: Session,
    two: Session,
}

/// The new subscription of an operation, if it is one.
fn added(op: Op) -> Option<Add>
    requires { OpFits op }
    ensures { IfSome result AddFits }
{
    match op {
        Op::Add(add) => Some(add),
        _ => None,
    }
}

/// The subscription that a request asks for, if it asks for one.
fn add_of(alloc: Global, params: &[u8]) -> Option<Add>
    ensures { IfSome result AddFits }
{
    match read_request(alloc, LinkKind::Ws, b"control", params) {
        Ok(Request::Control(control)) => {
            let Control {
                req: _,
                session: _,
                op,
            } = control;
            added(op)
        }
        _ => None,
    }
}

/// One more item, without events, if its fields are sound.
fn declares(cells: &mut AllItems, definition: &ItemDef) -> Result<(), NoMemory> {
    let many = definition.fields.len();
    let key = definition.fields.find(b"key").unwrap_or(0);
    let command = definition.fields.find(b"command").unwrap_or(0);
    if many == 0 || many > MOST_FIELDS || key >= many || command >= many {
        return Ok(());
    }
    if definition.kind == Kind::Command && key == command {
        return Ok(());
    }
    cells.declare(definition)
}

/// These items, without events.
fn cells_of(alloc: Global, definitions: &[ItemDef]) -> Result<AllItems, NoMemory> {
    let mut cells = AllItems::new(alloc);
    for definition in definitions {
        declares(&mut cells, definition)?;
    }
    Ok(cells)
}

/// The slots of these items join; those that may.
fn joined(alloc: Global, cells: &mut AllItems, items: &[PlanItem]) -> Result<Vec<u32>, NoMemory> {
    let mut slots = Vec::new(alloc);
    for item in items {
        if let Some(slot) = cells.join(item.item, item.mode, item.n, item.snapshot)? {
            slots.push(slot)?;
        }
    }
    Ok(slots)
}

/// A session is given the subscription that a request asks for. Whether nothing stood against it.
fn subscribes(
    alloc: Global,
    session: &mut Session,
    cells: &mut AllItems,
    config: &Config,
    params: &[u8],
) -> Result<bool, NoMemory> {
    let Some(add) = add_of(alloc, params) else {
        return Ok(false);
    };
    adds(alloc, session, cells, config, &add)
}

/// A session is given this subscription. Whether nothing stood against it.
fn adds(
    alloc: Global,
    session: &mut Session,
    cells: &mut AllItems,
    config: &Config,
    add: &Add,
) -> Result<bool, NoMemory>
    requires { AddFits add.now }
{
    let Ok(plan) = session.prepare_add(add, config, cells.free()) else {
        return Ok(false);
    };
    let slots = joined(alloc, cells, &plan.items)?;
    if slots.len() != plan.items.len() {
        return Ok(false);
    }
    session.finish_add(plan, &slots);
    Ok(true)
}

/// An update of an item. Whether it was published.
fn publishes(
    alloc: Global,
    cells: &mut AllItems,
    config: &Config,
    item: u32,
    seq: u64,
    text: &[u8],
) -> bool {
    let Some(definition) = config.items.as_slice().get(item as usize) else {
        return false;
    };
    let Ok(event) = read_event(alloc, text, &definition.fields) else {
        return false;
    };
    cells.takes(item, &event) && cells.publish(item, 1, seq, event).is_ok()
}

/// What a session asks of a slot is answered, and the slot moves past what was taken.
fn tell(session: &mut Session, cells: &mut AllItems, ask: Ask) -> Result<(), NoMemory> {
    if !ask.due {
        let waits = cells.pending(ask.slot.item, ask.slot.slot);
        session.answer(
            ask,
            if waits {
                Reply::Waiting
            } else {
                Reply::Nothing
            },
        )?;
        return Ok(());
    }
    match cells.look(ask.slot.item, ask.slot.slot)? {
        None => {
            session.answer(ask, Reply::Nothing)?;
        }
        Some(taken) => {
            session.answer(ask, Reply::Taken(taken))?;
            cells.pass(ask.slot.item, ask.slot.slot);
        }
    }
    Ok(())
}

/// How a session's turn at a tick ends on its newest stream: with a line, or how else.
fn turned(session: &mut Session, cells: &mut AllItems, now: u64) -> Result<Turn, NoMemory> {
    for _ in 0..100 {
        match session.turn(now, session.epoch()) {
            Turn::Ask(ask) => tell(session, cells, ask)?,
            turn => return Ok(turn),
        }
    }
    Ok(Turn::Idle)
}

/// The lines that a session's next turns give at a tick, each ended by LF.
fn lines_at(
    alloc: Global,
    session: &mut Session,
    cells: &mut AllItems,
    now: u64,
) -> Result<Vec<u8>, NoMemory> {
    let mut text = Vec::new(alloc);
    for _ in 0..100 {
        if turned(session, cells, now)? != Turn::Send {
            return Ok(text);
        }
        text.extend_from_slice(session.current())?;
        text.push(b'\n')?;
    }
    Ok(text)
}

/// Those at the first tick.
fn lines(alloc: Global, session: &mut Session, cells: &mut AllItems) -> Result<Vec<u8>, NoMemory> {
    lines_at(alloc, session, cells, 0)
}

/// A session's slot takes its item's next event. Whether there was one.
fn enqueues(
    session: &Session,
    cells: &mut AllItems,
    sub: u64,
    place: u64,
) -> Result<bool, NoMemory> {
    let Some(slot) = session.find(sub, place) else {
        return Ok(false);
    };
    match cells.enqueue(slot.item, slot.slot)? {
        Some(Enqueued::Moved { no: _ }) => Ok(true),
        _ => Ok(false),
    }
}

/// A session of a number, without a subscription.
fn session_of(alloc: Global, number: u64) -> Result<Session, NoMemory> {
    let create = Create {
        set: None,
        keepalive: 5000,
        bandwidth: None,
        length: None,
    };
    Session::new(alloc, number, &create, 0)
}

/// A config's items and two sessions.
fn begun(alloc: Global, config: &Config) -> Result<Served, NoMemory> {
    Ok(Served {
        cells: cells_of(alloc, config.items.as_slice())?,
        one: session_of(alloc, 1)?,
        two: session_of(alloc, 2)?,
    })
}

/// The first session subscribes to both items, and then, behind an update, the second one to the second item.
fn all_subscribe(alloc: Global, served: &mut Served, config: &Config) -> Result<bool, NoMemory> {
    let first = subscribes(alloc, &mut served.one, &mut served.cells, config, ONE)?;
    let second = subscribes(alloc, &mut served.one, &mut served.cells, config, TWO)?;
    let published = publishes(alloc, &mut served.cells, config, 1, 1, b"y=1");
    let third = subscribes(alloc, &mut served.two, &mut served.cells, config, SNAPSHOT)?;
    Ok(first && second && published && third)
}

/// Further updates, of both items.
fn all_published(alloc: Global, served: &mut Served, config: &Config) -> bool {
    publishes(alloc, &mut served.cells, config, 0, 1, b"x=1")
        && publishes(alloc, &mut served.cells, config, 1, 2, b"y=2")
}

/// Each slot takes all events that it hasn't.
fn all_enqueue(served: &mut Served) -> Result<bool, NoMemory> {
    let first = enqueues(&served.one, &mut served.cells, 1, 1)?;
    let second = enqueues(&served.one, &mut served.cells, 2, 1)?;
    let again = enqueues(&served.one, &mut served.cells, 2, 1)?;
    let third = enqueues(&served.two, &mut served.cells, 1, 1)?;
    let behind = enqueues(&served.two, &mut served.cells, 1, 1)?;
    Ok(first && second && again && third && !behind)
}

/// Both sessions take their turns: the first one's two slots by turns, the second one's with a snapshot.
fn take_turns(alloc: Global, served: &mut Served, config: &Config) -> Result<bool, NoMemory> {
    let first = first_told(alloc, served, config, 0)?;
    let second = lines(alloc, &mut served.two, &mut served.cells)?;
    Ok(first && second.as_slice() == SECOND)
}

/// Whether both sessions take their turns as they must.
fn are_told(alloc: Global) -> Result<bool, NoMemory> {
    let Ok(config) = read_config(alloc, ITEMS) else {
        return Ok(false);
    };
    let mut served = begun(alloc, &config)?;
    take_turns(alloc, &mut served, &config)
}

/// The line that tells of a client's message.
fn message(alloc: Global) -> Result<Line, NoMemory> {
    Ok(Line::MsgDone {
        sequence: Text::from_str(alloc, "chat")?,
        number: 1,
    })
}

/// A line is numbered behind those of a session.
fn numbers(session: &mut Session, line: &Line) -> bool {
    let Ok(text) = session.prepare_line(line) else {
        return false;
    };
    let number = session.finish_line(text);
    number == 1 && is_kept(session)
}

/// Whether a session keeps the message as its one line, which wasn't given yet.
fn is_kept(session: &Session) -> bool {
    match session.line(1) {
        Some(line) => line == MESSAGE && session.last() == 1 && session.sent() == 0,
        None => false,
    }
}

/// A session gives all its lines, with that of the message behind them.
fn gives_message(alloc: Global, session: &mut Session) -> Result<bool, NoMemory> {
    let mut cells = AllItems::new(alloc);
    let given = lines(alloc, session, &mut cells)?;
    Ok(given.as_slice() == MESSAGE_BEHIND && session.sent() == 1)
}

/// Whether a line of a client's message is numbered behind the lines of a session, and then given as they are.
fn is_numbered(alloc: Global) -> Result<bool, NoMemory> {
    let line = message(alloc)?;
    let mut session = session_of(alloc, 1)?;
    if !numbers(&mut session, &line) {
        return Ok(false);
    }
    gives_message(alloc, &mut session)
}

/// Both sessions subscribe and have updates enqueued, and the first one is told all of it at a tick.
fn first_told(
    alloc: Global,
    served: &mut Served,
    config: &Config,
    now: u64,
) -> Result<bool, NoMemory> {
    let began = all_subscribe(alloc, served, config)?;
    let published = all_published(alloc, served, config);
    let enqueued = all_enqueue(served)?;
    let told = lines_at(alloc, &mut served.one, &mut served.cells, now)?;
    Ok(began && published && enqueued && told.as_slice() == FIRST)
}

/// A slot gets a frequency of two updates per second, and takes a further update.
fn limits(alloc: Global, served: &mut Served, config: &Config) -> Result<bool, NoMemory> {
    let limited = served.one.reconf(1, Some(2000)).is_ok();
    let published = publishes(alloc, &mut served.cells, config, 0, 2, b"x=3");
    let moved = enqueues(&served.one, &mut served.cells, 1, 1)?;
    Ok(limited && published && moved)
}

/// The slot waits one ms before its tick, and then gives its line.
fn waits(alloc: Global, served: &mut Served) -> Result<bool, NoMemory> {
    let early = lines_at(alloc, &mut served.one, &mut served.cells, 506)?;
    let turn = turned(&mut served.one, &mut served.cells, 506)?;
    let late = lines_at(alloc, &mut served.one, &mut served.cells, 507)?;
    Ok(
        early.as_slice() == CONFIGURED
            && turn == Turn::NotDue { at: 507 }
            && late.as_slice() == HELD,
    )
}

/// The session gets a bandwidth, and its client is told.
fn constrains(alloc: Global, served: &mut Served) -> Result<bool, NoMemory> {
    let constrained = served.one.constrain(Some(1250), 508).is_ok();
    let told = lines_at(alloc, &mut served.one, &mut served.cells, 508)?;
    Ok(constrained && told.as_slice() == CONSTRAINED)
}

/// A slot with a frequency waits for its tick, and another bandwidth is told at once.
fn are_limited(alloc: Global, served: &mut Served, config: &Config) -> Result<bool, NoMemory> {
    let told = first_told(alloc, served, config, 7)? && limits(alloc, served, config)?;
    Ok(told && waits(alloc, served)? && constrains(alloc, served)?)
}

/// Whether both are as they must be.
fn is_limited(alloc: Global) -> Result<bool, NoMemory> {
    let Ok(config) = read_config(alloc, ITEMS) else {
        return Ok(false);
    };
    let mut served = begun(alloc, &config)?;
    are_limited(alloc, &mut served, &config)
}

/// A request for a new stream of the first session, behind so many lines.
fn bind_of(count: u64) -> Bind {
    Bind {
        session: 1,
        recover: Some(count),
        keepalive: 9000,
        length: None,
    }
}

/// The code for which a bind is refused at a tick, if it is.
fn refused(session: &mut Session, count: u64, now: u64) -> Result<Option<u16>, NoMemory> {
    match session.bind(&bind_of(count), now) {
        Ok(_) => Ok(None),
        Err(Refusal::Code(code)) => Ok(Some(code)),
        Err(Refusal::NoMemory) => Err(NoMemory),
    }
}

/// The first stream is lost, once, and nothing is given without one.
fn loses(served: &mut Served) -> Result<bool, NoMemory> {
    let lost = served.one.lose(1, 8) == Lost::Unbound && served.one.since() == Some(8);
    let again = served.one.lose(1, 9) == Lost::NotBound && served.one.since() == Some(8);
    let turn = turned(&mut served.one, &mut served.cells, 9)?;
    Ok(lost && again && turn == Turn::Unbound)
}

/// A second stream goes on behind six of seven lines, and the first one is superseded.
fn recovers(alloc: Global, served: &mut Served) -> Result<bool, NoMemory> {
    let beyond = refused(&mut served.one, 8, 10)? == Some(4);
    let within = refused(&mut served.one, 6, 10)?.is_none() && served.one.since().is_none();
    let old = served.one.turn(10, 1) == Turn::Superseded { epoch: 2 }
        && served.one.lose(1, 10) == Lost::Superseded { epoch: 2 };
    let told = lines_at(alloc, &mut served.one, &mut served.cells, 10)?;
    Ok(beyond && within && old && told.as_slice() == RECOVERED)
}

/// The second stream is forced to be over, and the session ends without one.
fn loops(alloc: Global, served: &mut Served) -> Result<bool, NoMemory> {
    let forced = served.one.force_rebind().is_ok();
    let told = lines_at(alloc, &mut served.one, &mut served.cells, 11)?;
    let unbound = served.one.since() == Some(11) && served.one.lose(2, 12) == Lost::NotBound;
    let left = served.one.finish(DESTROYED).len() == 2;
    let ended = turned(&mut served.one, &mut served.cells, 12)?;
    let unknown = refused(&mut served.one, 7, 12)? == Some(20);
    let over = left && unknown && ended == Turn::Ended { code: DESTROYED };
    Ok(forced && told.as_slice() == LOOPED && unbound && over)
}

/// A session goes on with another stream, and then without one.
fn goes_on(alloc: Global, served: &mut Served, config: &Config) -> Result<bool, NoMemory> {
    let told = first_told(alloc, served, config, 7)? && loses(served)?;
    Ok(told && recovers(alloc, served)? && loops(alloc, served)?)
}

/// Whether it does.
fn is_bound_anew(alloc: Global) -> Result<bool, NoMemory> {
    let Ok(config) = read_config(alloc, ITEMS) else {
        return Ok(false);
    };
    let mut served = begun(alloc, &config)?;
    goes_on(alloc, &mut served, &config)
}

#[test]
fn a_stream_is_lost_and_bound_anew(rt: HostRuntime) -> Result<(), Fail> {
    assert!(rt; is_bound_anew(rt.alloc())?);
    Ok(())
}

#[test]
fn a_slot_waits_until_it_is_due(rt: HostRuntime) -> Result<(), Fail> {
    assert!(rt; is_limited(rt.alloc())?);
    Ok(())
}

#[test]
fn a_message_is_a_numbered_line(rt: HostRuntime) -> Result<(), Fail> {
    assert!(rt; is_numbered(rt.alloc())?);
    Ok(())
}

#[test]
fn two_sessions_on_two_items(rt: HostRuntime) -> Result<(), Fail> {
    assert!(rt; are_told(rt.alloc())?);
    Ok(())
}
