//! Operations on a session: a subscription is added, ended or gets another frequency, and the session gets another
//! bandwidth, is ended, or has its stream forced to be over (TLCP 2.1, control).
ghost use Rattle.std.specs.Prelude.{◌≡◌, ◌<◌, ◌⊎◌, ℕ, List, true, IfOk, OnErr};
ghost use Rattle.std.specs.Option.{ForSome};
ghost use Rattle.ls_event.specs.declared.item.ItemDef.{ItemDef};
ghost use Rattle.ls_request.specs.Ranges.{OpFits, AddFits};
ghost use Rattle.ls_request.specs.declared.request.Op.TheVariants as op_is;
ghost use Rattle.ls_record.specs.Acting.{destroyed};
ghost use Rattle.ls_record.specs.Records.{Item, LiveSlot, ended, is_alive, timed_out};
ghost use Rattle.ls_session.specs.Record.{Record, begun_again};
ghost use Rattle.ls_session.specs.Session.{StandsSession};
ghost use Rattle.ls_acts.specs.Acting.{Acts, ActsAlone, StaysAs, StandsAmong};

use crate::answers::UNKNOWN_SESSION;
use crate::joining::{joined, leave_all};
use crate::slots::ItemSlots;
use ls_config::Config;
use ls_request::{Add, Op};
use ls_session::{DESTROYED, Session};
use ls_subs::Refusal;
use ls_value::NoMemory;
use std::alloc::Global;

/// Does an operation on a session at a tick, in ms, of at most [`GREATEST_TICK`](ls_value::GREATEST_TICK) and not below
/// the session's floor; or answers the code that it is refused for, which is 20 where the session has ended. A
/// refusal changes nothing. Nor does `NoMemory`: where an add's items can't join, those that did leave again.
pub fn act<S: ItemSlots>(
    alloc: Global,
    slots: &mut S,
    session: &mut Session,
    op: &Op,
    config: &Config,
    now: u64,
) -> Result<Option<u16>, NoMemory>
    requires { OpFits op.now }
    ensures did { IfOk result (λ code. Acts (S.stands slots.old) (S.stands slots.new) session.old session.new
        config.now.items now op.now code) }
    ensures err { OnErr result (StaysAs (S.stands slots.old) (S.stands slots.new) session.old session.new) }
{
    match op {
        Op::Add(add) => subscribe(alloc, slots, session, add, config),
        Op::Delete { sub } => unsubscribe(slots, session, *sub),
        Op::Reconf { sub, frequency } => reconf(session, *sub, *frequency),
        Op::Constrain { bandwidth } => constrain(session, *bandwidth, now),
        Op::Destroy => Ok(destroy(slots, session)),
        Op::ForceRebind => force_rebind(session),
    }
}

/// A new subscription, or the code that it is refused for. Where its items can't join, those that did leave again.
fn subscribe<S: ItemSlots>(
    alloc: Global,
    slots: &mut S,
    session: &mut Session,
    add: &Add,
    config: &Config,
) -> Result<Option<u16>, NoMemory>
    requires { AddFits add.now }
    ensures did { IfOk result (λ code. (now : ℕ) → Acts (S.stands slots.old) (S.stands slots.new) session.old
        session.new config.now.items now (op_is.Add add.now) code) }
    ensures err { OnErr result (StaysAs (S.stands slots.old) (S.stands slots.new) session.old session.new) }
{
    let free = slots.free();
    match session.prepare_add(add, config, free) {
        Err(Refusal::Code(code)) => Ok(Some(code)),
        Err(Refusal::NoMemory) => Err(NoMemory),
        Ok(plan) => {
            let numbers = joined(alloc, slots, &plan.items)?;
            session.finish_add(plan, &numbers);
            Ok(None)
        }
    }
}

/// The end of a subscription, or the code that it is refused for.
fn unsubscribe<S: ItemSlots>(
    slots: &mut S,
    session: &mut Session,
    sub: u32,
) -> Result<Option<u16>, NoMemory>
    ensures did { IfOk result (λ code. (defs : List ItemDef) (now : ℕ) → Acts (S.stands slots.old)
        (S.stands slots.new) session.old session.new defs now (op_is.Delete sub) code) }
    ensures err { OnErr result (StaysAs (S.stands slots.old) (S.stands slots.new) session.old session.new) }
{
    match session.delete(sub) {
        Err(Refusal::Code(code)) => Ok(Some(code)),
        Err(Refusal::NoMemory) => Err(NoMemory),
        Ok(refs) => {
            leave_all(slots, &refs);
            Ok(None)
        }
    }
}

/// Another greatest frequency, in thousandths of an update per second and above 0, or none, for a subscription; or the
/// code that it is refused for.
fn reconf(session: &mut Session, sub: u32, frequency: Option<u64>) -> Result<Option<u16>, NoMemory>
    requires { ForSome frequency (λ f. 0 < f) }
    ensures did { IfOk result (λ code. (now : ℕ)
        → ActsAlone session.old session.new now (op_is.Reconf sub frequency) code) }
    ensures err { OnErr result ((r : Record) → StandsSession session.old r → StandsSession session.new r) }
{
    match session.reconf(sub, frequency) {
        Err(Refusal::Code(code)) => Ok(Some(code)),
        Err(Refusal::NoMemory) => Err(NoMemory),
        Ok(()) => Ok(None),
    }
}

/// Another bandwidth from a tick on, in thousandths of a kbit per second and above 0, or none; or the code that it is
/// refused for.
fn constrain(
    session: &mut Session,
    bandwidth: Option<u64>,
    now: u64,
) -> Result<Option<u16>, NoMemory>
    requires { ForSome bandwidth (λ limit. 0 < limit) }
    ensures did { IfOk result (λ code. ActsAlone session.old session.new now (op_is.Constrain bandwidth) code) }
    ensures err { OnErr result ((r : Record) → StandsSession session.old r → StandsSession session.new r) }
{
    match session.constrain(bandwidth, now) {
        Err(Refusal::Code(code)) => Ok(Some(code)),
        Err(Refusal::NoMemory) => Err(NoMemory),
        Ok(()) => Ok(None),
    }
}

/// The stream is forced to be over; or the code that this is refused for.
fn force_rebind(session: &mut Session) -> Result<Option<u16>, NoMemory>
    ensures did { IfOk result (λ code. (now : ℕ)
        → ActsAlone session.old session.new now op_is.ForceRebind code) }
    ensures err { OnErr result ((r : Record) → StandsSession session.old r → StandsSession session.new r) }
{
    match session.force_rebind() {
        Err(Refusal::Code(code)) => Ok(Some(code)),
        Err(Refusal::NoMemory) => Err(NoMemory),
        Ok(()) => Ok(None),
    }
}

/// The session ends by a request, or the code that this is refused for. No memory is taken.
fn destroy<S: ItemSlots>(slots: &mut S, session: &mut Session) -> Option<u16>
    ensures { (defs : List ItemDef) (now : ℕ) → Acts (S.stands slots.old) (S.stands slots.new) session.old
        session.new defs now op_is.Destroy result }
{
    if session.is_alive() {
        end(slots, session, DESTROYED);
        None
    } else {
        Some(UNKNOWN_SESSION)
    }
}

/// A session that hasn't ended ends for the cause of a code, by a request or by time: its slots leave. No memory is
/// taken.
pub fn end<S: ItemSlots>(slots: &mut S, session: &mut Session, code: u16)
    requires { (code ≡ destroyed) ⊎ (code ≡ timed_out) }
    ensures { (items : List Item) (before after : List LiveSlot) (r : Record)
        → StandsAmong (S.stands slots.old) session.old items before after r → is_alive r.session.life ≡ true
        → StandsAmong (S.stands slots.new) session.new items before after (begun_again (ended code r.session) r) }
{
    let refs = session.finish(code);
    leave_all(slots, &refs);
}
