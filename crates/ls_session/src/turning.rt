//! A session's turn (TLCP 2.1, notifications).
ghost use Rattle.std.specs.Prelude.{◌≡◌, ◌≤◌, List, true, false, Some, slice_get, option_map};
ghost use Rattle.ls_value.specs.declared.limits.TheConstants.{GREATEST_TICK};
ghost use Rattle.ls_session.specs.Asking.{asked_anew};
ghost use Rattle.ls_subs.specs.Standing.{ref_of};
ghost use Rattle.ls_record.specs.Records.{LiveSlot, is_due, due_at};
ghost use Rattle.ls_session.specs.Record.{Record, turned, round_turned, round_asked, passed_over, waited};
ghost use Rattle.ls_session.specs.Session.{StandsSession, AnswersTurn, IsNext, PassesFront, turn_of, turn_of_wait};
ghost use Rattle.ls_session.specs.Front.{IsHeld, tick_of};
ghost use Rattle.ls_event.specs.declared.event.Entry.{Entry};
ghost use Rattle.ls_event.specs.declared.event.Mode.TheVariants as mode_is;
ghost use Rattle.ls_event.specs.Cuts.{is_pending};

use crate::asking::Asked;
use crate::budgets::{is_now, later};
use crate::session::{Ask, Session, Turn};
use ls_budget::Due;
use ls_event::Mode;
use ls_stream::StreamTurn;
use ls_subs::SlotRef;
use ls_value::GREATEST_NUMBER;

impl Session {
    /// A turn at a tick, in ms, of at most [`GREATEST_TICK`](ls_value::GREATEST_TICK) and not below the floor, for the
    /// stream of an epoch: an owed line, else LOOP where the stream is over, which leaves the session without one, else
    /// the next numbered line that isn't given, else the question what the next slot of the round has to tell, else
    /// nothing, before the least tick at which one of the slots that wait is due. The round begins anew at another
    /// tick, also at an earlier one, and where a question wasn't answered. A session that has ended gives END once, and
    /// nothing else. Nothing is given on an older stream, or where none is bound. Only a line raises the floor. No
    /// memory is taken.
    pub fn turn(&mut self, now: u64, epoch: u64) -> Turn
        ensures { (r : Record) → StandsSession self.old r → r.floor ≤ now → now ≤ GREATEST_TICK
            → AnswersTurn (turned now epoch r).gives result self.new
            × StandsSession self.new (turned now epoch r).after }
    {
        let given = self.lines.turn(now, epoch);
        match given {
            StreamTurn::Nothing => self.turn_round(now),
            _ => {
                self.asking.begin(now);
                turn_of(given)
            }
        }
    }

    /// The slot that is asked next, `None` behind the last one. No memory is taken.
    pub fn next_slot(&self) -> Option<SlotRef>
        ensures { (r : Record) → StandsSession self.now r
            → result ≡ option_map ref_of (slice_get r.session.board.round r.asked) }
    {
        self.asking.slot()
    }

    /// The slot that is asked next is passed over, as where it was asked and has nothing: the one behind it is asked
    /// next. So who knows that nothing of a slot is pending needs no question; where no number is left for a line, a
    /// question of a due slot is told apart, so such a slot has to be asked. No memory is taken.
    pub fn skip(&mut self)
        ensures { (r : Record) → StandsSession self.old r → StandsSession self.new (passed_over r) }
    {
        self.asking.pass();
    }

    /// The slot that is asked next is passed over where it isn't due at the round's tick, as where it was asked and
    /// waits, and the one behind it is asked next; whether it was. Where it is due, or no slot is left, all is as
    /// before. So who knows that something of a slot is pending needs no answer. No memory is taken.
    pub fn hold_next(&mut self) -> bool
        ensures held { result ≡ true → (r : Record) (v : LiveSlot) (h : List Entry) → StandsSession self.old r
            → slice_get r.session.board.round r.asked ≡ Some v → is_pending h v.slot ≡ true
            → (is_due r.tick r.session v ≡ false) × StandsSession self.new (waited r v) }
        ensures due { result ≡ false → self.new ≡ self.old }
    {
        let Some(slot) = self.asking.slot() else {
            return false;
        };
        match self.due(&slot, self.asking.tick()) {
            Due::Now => false,
            Due::At(tick) => {
                self.hold_at(&slot, tick);
                true
            }
        }
    }

    /// The slot that is asked next, which is due at a tick, is passed over.
    fn hold_at(&mut self, slot: &SlotRef, tick: u64)
        ensures { (r : Record) (v : LiveSlot) (h : List Entry) → StandsSession self.old r → IsNext r v slot.now
            → is_pending h v.slot ≡ true → is_due r.tick r.session v ≡ false → tick ≡ due_at r.tick r.session v
            → StandsSession self.new (waited r v) }
    {
        self.learn(slot, tick);
        self.asking.hold(tick);
    }

    /// It is one of the first slots that are known to wait for their frequency, if it does so and none stands between.
    fn learn(&mut self, slot: &SlotRef, tick: u64)
        ensures { (r : Record) (v : LiveSlot) (h : List Entry) → StandsSession self.old r → IsNext r v slot.now
            → is_pending h v.slot ≡ true → is_due r.tick r.session v ≡ false → tick ≡ due_at r.tick r.session v
            → StandsSession self.new r }
    {
        if self.waits_for_frequency(slot) {
            self.asking.extend_front(tick);
        }
    }

    /// Whether the slot that is asked next waits for its frequency alone where it isn't due, and what is pending of it
    /// is known without its item.
    fn waits_for_frequency(&self, slot: &SlotRef) -> bool
        ensures { result ≡ true → (r : Record) (v : LiveSlot) (h : List Entry) → StandsSession self.now r
            → IsNext r v slot.now → is_pending h v.slot ≡ true → is_due r.tick r.session v ≡ false
            → IsHeld v × (due_at r.tick r.session v ≡ tick_of r.session.board.lines v) }
    {
        match self.subs.slot_mode(slot) {
            None => false,
            Some(mode) => is_known(mode) && is_now(self.bandwidth.due(self.asking.tick())),
        }
    }

    /// The round goes on at a tick, in ms, or begins anew, as [`turn`](Session::turn) does it. At its first slot those
    /// are passed over that are known to wait for their frequency, without a look at each. It may be called before
    /// `turn`, at the same tick. No memory is taken.
    pub fn pass_front(&mut self, now: u64)
        ensures { (r : Record) → StandsSession self.old r → r.floor ≤ now → now ≤ GREATEST_TICK
            → PassesFront now r self.new }
    {
        self.asking.resume(now);
        if let Some(tick) = self.asking.front_tick()
            && now < tick
        {
            match later(Due::At(tick), self.bandwidth.due(now)) {
                Due::Now => {}
                Due::At(at) => self.asking.pass_front(at),
            }
        }
    }

    /// What a turn gives that asks the round, whatever lines wait to be given: the question what the next slot has to tell,
    /// or nothing. So a caller that holds an item's lock has several lines numbered before it gives them. The round goes
    /// on, or begins anew, as in [`Session::turn`]. No memory is taken.
    pub fn turn_round(&mut self, now: u64) -> Turn
        ensures { (r : Record) → StandsSession self.old r → r.floor ≤ now → now ≤ GREATEST_TICK
            → AnswersTurn (round_turned now r).gives result self.new
            × StandsSession self.new (round_turned now r).after }
    {
        self.asking.resume(now);
        self.ask_next(now)
    }

    /// The next slot of the round is asked.
    fn ask_next(&mut self, now: u64) -> Turn
        ensures { (r : Record) → StandsSession self.old r → r.tick ≡ now → r.asks ≡ false
            → AnswersTurn (round_asked now r.wait r r.asked (slice_get r.session.board.round r.asked)).gives
            result self.new
            × StandsSession self.new
            (round_asked now r.wait r r.asked (slice_get r.session.board.round r.asked)).after }
    {
        let Some(slot) = self.asking.slot() else {
            return self.wait(now);
        };
        let asked = Asked {
            slot,
            due: self.due(&slot, now),
        };
        let due = is_now(asked.due);
        if due && self.lines.last() >= GREATEST_NUMBER {
            self.asking.begin(now);
            return Turn::Spent;
        }
        self.asking.ask(asked);
        Turn::Ask(Ask { slot, due })
    }

    /// No slot is left to ask, and the round begins anew.
    fn wait(&mut self, now: u64) -> Turn
        ensures gives { result ≡ turn_of_wait self.old.asking.wait }
        ensures anew { self.new ≡ record self.old { asking = asked_anew now self.old.asking } }
    {
        let wait = self.asking.wait();
        self.asking.begin(now);
        match wait {
            None => Turn::Idle,
            Some(at) => Turn::NotDue { at },
        }
    }
}

/// Whether what is pending of a slot of a mode is known without its item.
fn is_known(mode: Mode) -> bool
    ensures { result ≡ true → mode ≡ mode_is.Command → ⊥ }
{
    match mode {
        Mode::Command => false,
        Mode::Raw | Mode::Merge | Mode::Distinct => true,
    }
}

/// What a turn gives that gave this before the round is asked.
fn turn_of(given: StreamTurn) -> Turn
    ensures { result ≡ turn_of given }
{
    match given {
        StreamTurn::Line => Turn::Send,
        StreamTurn::Superseded { epoch } => Turn::Superseded { epoch },
        StreamTurn::Unbound => Turn::Unbound,
        StreamTurn::Ended { code } => Turn::Ended { code },
        StreamTurn::Nothing => Turn::Idle,
    }
}
