//! A slot that a session asks tells what it has (TLCP 2.1, notifications).
ghost use Rattle.std.specs.Prelude.{◌≡◌, ◌++◌, ◌∷◌, List, Some, IfOk, OnErr, true, false};
ghost use Rattle.ls_record.specs.Records.{Item, LiveSlot, history_of};
ghost use Rattle.ls_session.specs.Record.{Record, Question, question_of, passed_over};
ghost use Rattle.ls_session.specs.Session.{StandsSession, ask_in};
ghost use Rattle.ls_acts.specs.Telling.{reply_to, moved_by, replied_by, found_by, found_in};
ghost use Rattle.ls_acts.specs.declared.telling.Found.TheVariants as found_is;

use crate::slots::ItemSlots;
use ls_session::{Ask, Reply, Session};
use ls_value::NoMemory;

/// What a slot had that was asked.
#[derive(Clone, Copy, Debug, PartialEq, Eq)]
pub enum Found {
    /// Nothing: nothing of it is pending.
    Nothing,
    /// It isn't due, and something of it is pending.
    Waits,
    /// A cut that makes no line. The slot is asked again.
    Silent,
    /// A cut whose line was numbered.
    Line,
}

/// Answers the question of a session, which stands: the slot tells its next cut, if it is due, and moves past it; else
/// only whether it waits. What the slot had is answered. After `NoMemory` the question stands, and all is as before.
pub fn tell<S: ItemSlots>(slots: &mut S, session: &mut Session, ask: Ask) -> Result<Found, NoMemory>
    ensures told { IfOk result (λ found. (items : List Item) (a b : List LiveSlot) (r : Record) (q : Question)
        → S.stands slots.old items (a ++ q.live ∷ b) → StandsSession session.old r → question_of r ≡ Some q
        → ask ≡ ask_in q
        → (found ≡ found_by (reply_to (history_of items q.live.item) q) r.session.board.lines q.live)
        × S.stands slots.new items (a ++ moved_by (reply_to (history_of items q.live.item) q) q.live ∷ b)
        × StandsSession session.new (replied_by (reply_to (history_of items q.live.item) q) q.live r)) }
    ensures slots { OnErr result (slots.new ≡ slots.old) }
    ensures session { OnErr result ((r : Record) → StandsSession session.old r → StandsSession session.new r) }
{
    if ask.due {
        tell_cut(slots, session, ask)
    } else {
        tell_waiting(slots, session, ask)
    }
}

/// Answers with the next cut of a slot that is due, if it has one, and moves it past that. After `NoMemory` all is as
/// before.
fn tell_cut<S: ItemSlots>(slots: &mut S, session: &mut Session, ask: Ask) -> Result<Found, NoMemory>
    requires { ask.due ≡ true }
    ensures told { IfOk result (λ found. (items : List Item) (a b : List LiveSlot) (r : Record) (q : Question)
        → S.stands slots.old items (a ++ q.live ∷ b) → StandsSession session.old r → question_of r ≡ Some q
        → ask ≡ ask_in q
        → (found ≡ found_by (reply_to (history_of items q.live.item) q) r.session.board.lines q.live)
        × S.stands slots.new items (a ++ moved_by (reply_to (history_of items q.live.item) q) q.live ∷ b)
        × StandsSession session.new (replied_by (reply_to (history_of items q.live.item) q) q.live r)) }
    ensures slots { OnErr result (slots.new ≡ slots.old) }
    ensures session { OnErr result ((r : Record) → StandsSession session.old r → StandsSession session.new r) }
{
    match slots.look(ask.slot.item, ask.slot.slot)? {
        None => nothing(session, ask),
        Some(taken) => {
            let line = session.answer(ask, Reply::Taken(taken))?;
            slots.pass(ask.slot.item, ask.slot.slot);
            Ok(found_in(line))
        }
    }
}

/// Answers whether a slot that isn't due waits. After `NoMemory` all is as before.
fn tell_waiting<S: ItemSlots>(slots: &S, session: &mut Session, ask: Ask) -> Result<Found, NoMemory>
    requires { ask.due ≡ false }
    ensures told { IfOk result (λ found. (items : List Item) (a b : List LiveSlot) (r : Record) (q : Question)
        → S.stands slots.now items (a ++ q.live ∷ b) → StandsSession session.old r → question_of r ≡ Some q
        → ask ≡ ask_in q
        → (found ≡ found_by (reply_to (history_of items q.live.item) q) r.session.board.lines q.live)
        × S.stands slots.now items (a ++ moved_by (reply_to (history_of items q.live.item) q) q.live ∷ b)
        × StandsSession session.new (replied_by (reply_to (history_of items q.live.item) q) q.live r)) }
    ensures session { OnErr result ((r : Record) → StandsSession session.old r → StandsSession session.new r) }
{
    if slots.pending(ask.slot.item, ask.slot.slot) {
        session.answer(ask, Reply::Waiting)?;
        Ok(Found::Waits)
    } else {
        nothing(session, ask)
    }
}

/// Answers that a slot has nothing. After `NoMemory` the session is as before.
fn nothing(session: &mut Session, ask: Ask) -> Result<Found, NoMemory>
    ensures told { IfOk result (λ found. (r : Record) (q : Question) → StandsSession session.old r
        → question_of r ≡ Some q → ask ≡ ask_in q
        → (found ≡ found_is.Nothing) × StandsSession session.new (passed_over r)) }
    ensures err { OnErr result ((r : Record) → StandsSession session.old r → StandsSession session.new r) }
{
    session.answer(ask, Reply::Nothing)?;
    Ok(Found::Nothing)
}

/// What a slot had whose cut makes a line, or none.
fn found_in(line: bool) -> Found
    ensures { result ≡ found_in line }
{
    if line { Found::Line } else { Found::Silent }
}
