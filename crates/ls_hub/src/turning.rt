//! Turns of sessions: a session asks what a slot has to tell, the hub looks, the session answers with a line or none,
//! and the slot moves past what was taken. Of a slot that isn't due the hub only looks whether it waits. Behind a slot
//! that waits or has nothing the hub passes over those of which it sees that they do, without a question, and a turn
//! begins behind the first slots that are known to wait.
ghost use Rattle.std.specs.Prelude.{◌≡◌, ◌≤◌, ◌<◌, ◌+◌, ◌++◌, ◌∷◌, ℕ, length, List, IfOk, OnOk, OnErr, true, false};
ghost use Rattle.std.specs.Vec.{vec_len, vec_capacity};
ghost use Rattle.ls_value.specs.declared.limits.TheConstants.{GREATEST_TICK};
ghost use Rattle.ls_step.specs.Notes.{text_of_out};
ghost use Rattle.ls_world.specs.World.{World};
ghost use Rattle.ls_event.specs.Cuts.{is_pending};
ghost use Rattle.ls_record.specs.Records.{Item, LiveSlot, history_of};
ghost use Rattle.ls_world.specs.Steps.{take_once as one_turn, repeated};
ghost use Rattle.ls_cells.specs.Cells.{StandsCells};
ghost use Rattle.ls_subs.specs.Standing.{ref_of};
ghost use Rattle.ls_session.specs.Record.{Record, Question};
ghost use Rattle.ls_session.specs.Session.{StandsSession};
ghost use Rattle.ls_session.specs.declared.session.Turn.TheVariants as given;
ghost use Rattle.ls_hub.specs.Hub.{StandsHub, Prints, DidOnce};
ghost use Rattle.ls_hub.specs.Quiet.{StandsQuiet, FailedBehind};
ghost use Rattle.ls_hub.specs.Turning.{turn_from, HasAsked, TakesAnswer, KeepsQuestion, GoesOn, Unasked, MaySkip};
ghost use Rattle.ls_hub.specs.Turning.{IsNextSettled, IsNextPending, HoldsNext, TurnEnded, TurnFailed, out_of_turn, gave_line};

use crate::hub::Hub;
use crate::printing::append_out;
use ls_acts::{Found, tell};
use ls_cells::AllItems;
use ls_line::LONGEST_TEXT;
use ls_session::{Ask, Session, Turn};
use ls_step::{Out, append_line};
use ls_value::{GREATEST_NUMBER, NoMemory};

impl Hub {
    /// Turns on a connection: at most so many, up to the first that gives no line. After `NoMemory` some of them were
    /// taken, and in the one behind these no line was numbered or given.
    pub(crate) fn take(
        &mut self,
        connection: u32,
        times: u32,
        text: &mut Vec<u8>,
    ) -> Result<(), NoMemory>
        ensures ok { OnOk result ((w : World) → StandsHub self.old w
            → Prints (repeated (one_turn connection) times w) text.old.items text.new.items self.new) }
        ensures err { OnErr result ((w : World) → StandsHub self.old w
            → FailedBehind (one_turn connection) w times self.new) }
    {
        for _ in 0..times {
            let more = self.take_once(connection as usize, text)?;
            if !more {
                return Ok(());
            }
        }
        Ok(())
    }

    /// A turn on a connection; whether another one follows. After `NoMemory` no line was numbered or given; slots may
    /// have moved past cuts that make none. Room for a line is taken before the turn.
    fn take_once(&mut self, connection: usize, text: &mut Vec<u8>) -> Result<bool, NoMemory>
        ensures ok { IfOk result (λ more. (w : World) → StandsHub self.old w
            → DidOnce (one_turn connection w) more text.old.items text.new.items self.new) }
        ensures err { OnErr result ((w : World) → StandsHub self.old w → StandsQuiet w self.new) }
    {
        let Some(place) = self.session_place(connection) else {
            append_out(text, Out::NoSession)?;
            return Ok(false);
        };
        let epoch = self.epoch_of(connection);
        text.reserve(self.name_of(connection).len() + (LONGEST_TEXT + 2))?;
        let turn = turn_of(&mut self.cells, &mut self.sessions[place], self.tick, epoch)?;
        append_turn(
            text,
            self.name_of(connection),
            self.sessions[place].current(),
            turn,
        )?;
        Ok(gave_line(turn))
    }
}

/// A session's turn at a tick, in ms, on the stream of an epoch: its round is asked until it has an answer. After
/// `NoMemory` no line was numbered or given; slots may have moved past cuts that make none.
fn turn_of(
    cells: &mut AllItems,
    session: &mut Session,
    now: u64,
    epoch: u64,
) -> Result<Turn, NoMemory>
    ensures ok { IfOk result (λ turn. (items : List Item) (before behind : List LiveSlot) (r : Record)
        → StandsSession session.old r → r.floor ≤ now → now ≤ GREATEST_TICK
        → StandsCells cells.old items (before ++ r.session.board.round ++ behind)
        → TurnEnded now items before behind r.number r.session (turn_from now items epoch r) turn session.new
        cells.new) }
    ensures err { OnErr result ((items : List Item) (before behind : List LiveSlot) (r : Record)
        → StandsSession session.old r → r.floor ≤ now → now ≤ GREATEST_TICK
        → StandsCells cells.old items (before ++ r.session.board.round ++ behind)
        → TurnFailed now items before behind r.number r.session session.new cells.new) }
{
    session.pass_front(now);
    ask_round(cells, session, now, epoch)
}

/// The turn from where its round stands.
fn ask_round(
    cells: &mut AllItems,
    session: &mut Session,
    now: u64,
    epoch: u64,
) -> Result<Turn, NoMemory>
    ensures ok { IfOk result (λ turn. (items : List Item) (before behind : List LiveSlot) (r : Record)
        → StandsSession session.old r → r.floor ≤ now → now ≤ GREATEST_TICK
        → StandsCells cells.old items (before ++ r.session.board.round ++ behind)
        → TurnEnded now items before behind r.number r.session (turn_from now items epoch r) turn session.new
        cells.new) }
    ensures err { OnErr result ((items : List Item) (before behind : List LiveSlot) (r : Record)
        → StandsSession session.old r → r.floor ≤ now → now ≤ GREATEST_TICK
        → StandsCells cells.old items (before ++ r.session.board.round ++ behind)
        → TurnFailed now items before behind r.number r.session session.new cells.new) }
{
    for _ in 0..u64::MAX {
        match session.turn(now, epoch) {
            Turn::Ask(ask) => reply(cells, session, ask)?,
            turn => return Ok(turn),
        }
    }
    match session.turn(now, epoch) {
        Turn::Ask(_) => Err(NoMemory),
        turn => Ok(turn),
    }
}

/// Answers what a session asks of a slot, and behind one that waits or has nothing passes over those of which that is
/// known. After `NoMemory` the question stands, and all is as before.
fn reply(cells: &mut AllItems, session: &mut Session, ask: Ask) -> Result<(), NoMemory>
    ensures ok { OnOk result (TakesAnswer ask session.old cells.old session.new cells.new) }
    ensures err { OnErr result (KeepsQuestion session.old cells.old session.new cells.new) }
{
    if hold_asked(cells, session, ask) {
        pass_known(cells, session);
        return Ok(());
    }
    answer(cells, session, ask)
}

/// A slot that isn't due, of which something is pending, is passed over, and whether it was. Else the question stands.
fn hold_asked(cells: &AllItems, session: &mut Session, ask: Ask) -> bool
    ensures held { result ≡ true → (now : ℕ) (items : List Item) (epoch : ℕ) (before behind : List LiveSlot)
        (r : Record) (q : Question) → HasAsked now items epoch before behind r q session.old cells.now
        → ask ≡ record { slot = ref_of q.live; due = q.due }
        → Unasked now items epoch before behind r session.new cells.now }
    ensures stands { result ≡ false → session.new ≡ session.old }
{
    !ask.due && hold_pending(cells, session)
}

/// Answers what a session asks of a slot, by what the slot has. After `NoMemory` the question stands, and all is as
/// before.
fn answer(cells: &mut AllItems, session: &mut Session, ask: Ask) -> Result<(), NoMemory>
    ensures ok { OnOk result (TakesAnswer ask session.old cells.old session.new cells.new) }
    ensures err { OnErr result (KeepsQuestion session.old cells.old session.new cells.new) }
{
    let found = tell(cells, session, ask)?;
    match found {
        Found::Nothing => {
            pass_known(cells, session);
            Ok(())
        }
        _ => Ok(()),
    }
}

/// The slots that are asked next are passed over as far as they are known to have nothing or to wait, where a number is
/// left for a line.
fn pass_known(cells: &AllItems, session: &mut Session)
    ensures { (now : ℕ) (items : List Item) (epoch : ℕ) (before behind : List LiveSlot) (r : Record)
        → Unasked now items epoch before behind r session.old cells.now
        → GoesOn now items epoch before behind r session.new cells.now }
{
    if session.last() < GREATEST_NUMBER {
        skip_known(cells, session);
    }
}

/// They are passed over.
fn skip_known(cells: &AllItems, session: &mut Session)
    ensures { (now : ℕ) (items : List Item) (epoch : ℕ) (before behind : List LiveSlot) (r : Record)
        → MaySkip now items epoch before behind r session.old cells.now
        → MaySkip now items epoch before behind r session.new cells.now }
{
    for _ in 0..u64::MAX {
        if is_next_settled(cells, session) {
            session.skip();
        } else if !hold_pending(cells, session) {
            return;
        }
    }
}

/// The slot that is asked next is passed over where something of it is pending and it isn't due, and whether it was.
fn hold_pending(cells: &AllItems, session: &mut Session) -> bool
    ensures held { result ≡ true → (items : List Item) (before behind : List LiveSlot) (r : Record)
        → StandsSession session.old r → StandsCells cells.now items (before ++ r.session.board.round ++ behind)
        → HoldsNext items r session.new }
    ensures stands { result ≡ false → session.new ≡ session.old }
{
    is_next_pending(cells, session) && session.hold_next()
}

/// Whether there is a slot that is asked next, and nothing of it is pending.
fn is_next_settled(cells: &AllItems, session: &Session) -> bool
    ensures { result ≡ true → (items : List Item) (before behind : List LiveSlot) (r : Record)
        → StandsSession session.now r → StandsCells cells.now items (before ++ r.session.board.round ++ behind)
        → IsNextSettled items r }
{
    match session.next_slot() {
        None => false,
        Some(slot) => has_nothing(cells, slot.item, slot.slot),
    }
}

/// Whether nothing is pending of a slot on an item. It mostly is marked so, and that costs least.
fn has_nothing(cells: &AllItems, item: u32, slot: u32) -> bool
    ensures { result ≡ true → (items : List Item) (a b : List LiveSlot) (v : LiveSlot)
        → StandsCells cells.now items (a ++ v ∷ b) → v.item ≡ item → v.number ≡ slot
        → is_pending (history_of items v.item) v.slot ≡ false }
{
    cells.is_settled(item, slot) || !cells.pending(item, slot)
}

/// Whether there is a slot that is asked next, and something of it is pending.
fn is_next_pending(cells: &AllItems, session: &Session) -> bool
    ensures { result ≡ true → (items : List Item) (before behind : List LiveSlot) (r : Record)
        → StandsSession session.now r → StandsCells cells.now items (before ++ r.session.board.round ++ behind)
        → IsNextPending items r }
{
    match session.next_slot() {
        None => false,
        Some(slot) => cells.pending(slot.item, slot.slot),
    }
}

/// Appends what a turn prints on a connection of this name, where this is the session's current line. A line is
/// appended without memory, where there is room for it.
fn append_turn(text: &mut Vec<u8>, name: &[u8], current: &[u8], turn: Turn) -> Result<(), NoMemory>
    ensures text { OnOk result (text.new.items
        ≡ text.old.items ++ text_of_out (out_of_turn name.now current.now turn)) }
    ensures room { OnErr result (turn ≡ given.Send
        → vec_capacity text.old < vec_len text.old + (length name.now + (length current.now + 2))) }
{
    match turn {
        Turn::Send => append_line(text, name, current),
        Turn::NotDue { at } => append_out(text, Out::NotDue { at }),
        Turn::Ended { code } => append_out(text, Out::Ended { code }),
        Turn::Superseded { epoch } => append_out(text, Out::Superseded { epoch }),
        Turn::Unbound => append_out(text, Out::Unbound),
        Turn::Spent => append_out(text, Out::Spent),
        Turn::Ask(_) => append_out(text, Out::Idle),
        Turn::Idle => append_out(text, Out::Idle),
    }
}

/// Whether a turn gave a line.
fn gave_line(turn: Turn) -> bool
    ensures { result ≡ gave_line turn }
{
    matches!(turn, Turn::Send)
}
