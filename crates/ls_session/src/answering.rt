//! The answer to what a session asks (TLCP 2.1, notifications).
ghost use Rattle.std.specs.Prelude.{◌≡◌, ◌<◌, ◌^◌, ◌↔◌, ℕ, Bool, true, false, Some, is_some, IsTrue, IfOk, OnErr};
ghost use Rattle.ls_budget.specs.declared.due.Due.TheVariants as due_is;
ghost use Rattle.ls_event.specs.declared.event.Taken.{Taken as Cut};
ghost use Rattle.ls_turns.specs.Round.{has_slot, gave};
ghost use Rattle.ls_record.specs.Records.{LiveSlot};
ghost use Rattle.ls_record.specs.Light.{IsLight};
ghost use Rattle.ls_subs.specs.Standing.{ref_of, Suits, what_of};
ghost use Rattle.std.specs.Option.{ForSome};
ghost use Rattle.ls_session.specs.Asking.{is_now, ask_of, waiting, with_gave};
ghost use Rattle.ls_session.specs.Record.{Record, question_of, passed_over, waited, answered};
ghost use Rattle.ls_session.specs.Session.{StandsSession, IsOther, PassesOver, SpendsText, suits};
ghost use Rattle.ls_stream.specs.Standing.{IsReadyFor, NumbersLine};
ghost use Rattle.ls_session.specs.declared.session.Reply.TheVariants as reply_is;

use crate::asking::Asked;
use crate::budgets::is_now;
use crate::session::{Ask, Reply, Session};
use ls_budget::Due;
use ls_event::Taken;
use ls_subs::{CutLine, SlotRef};
use ls_value::{GREATEST_NUMBER, NoMemory};

/// The room that a line's text begins with, in bytes. Most lines need no more.
const LINE_ROOM: usize = 64;

impl Session {
    /// The answer to the question that stands, and whether it makes a line: then the line is numbered, and the slot
    /// goes to the back of the round. After a cut that makes no line the slot is asked again, and behind one that waits
    /// or has nothing the next one is. An update takes its bytes with CR LF of the session's bandwidth, at the
    /// question's tick. Another question, or a reply that doesn't suit it, changes nothing, and neither does
    /// `NoMemory`.
    pub fn answer(&mut self, ask: Ask, reply: Reply) -> Result<bool, NoMemory>
        ensures nothing { IfOk result (λ told. (r : Record) (v : LiveSlot) (due : Bool) → StandsSession self.old r
            → question_of r ≡ Some (record { live = v; due = due }) → ask ≡ record { slot = ref_of v; due = due }
            → reply ≡ reply_is.Nothing → (told ≡ false) × StandsSession self.new (passed_over r)) }
        ensures waiting { IfOk result (λ told. (r : Record) (v : LiveSlot) → StandsSession self.old r
            → question_of r ≡ Some (record { live = v; due = false }) → ask ≡ record { slot = ref_of v; due = false }
            → reply ≡ reply_is.Waiting → (told ≡ false) × StandsSession self.new (waited r v)) }
        ensures taken { IfOk result (λ told. (r : Record) (v : LiveSlot) (t : Cut) → StandsSession self.old r
            → question_of r ≡ Some (record { live = v; due = true }) → ask ≡ record { slot = ref_of v; due = true }
            → reply ≡ reply_is.Taken t → Suits v.slot.plan.mode t → IsLight v.wanted.places t
            → (told ≡ is_some (what_of r.session.board.lines v t)) × StandsSession self.new (answered r v t)) }
        ensures other { IfOk result (λ told. (r : Record) → StandsSession self.old r → IsOther r ask reply
            → (told ≡ false) × StandsSession self.new r) }
        ensures err { OnErr result ((r : Record) → StandsSession self.old r → StandsSession self.new r) }
    {
        let Some(asked) = self.asking.question() else {
            return Ok(false);
        };
        if is_asked(asked, ask) {
            self.answer_asked(asked, reply)
        } else {
            Ok(false)
        }
    }

    /// The answer to this question, which stands.
    fn answer_asked(&mut self, asked: Asked, reply: Reply) -> Result<bool, NoMemory>
        requires { has_slot asked.slot.sub asked.slot.place self.old.asking.turns ≡ true }
        ensures nothing { IfOk result (λ told. reply ≡ reply_is.Nothing
            → (told ≡ false) × PassesOver self.old.asking self.old self.new) }
        ensures waiting { IfOk result (λ told. (tick : ℕ) → reply ≡ reply_is.Waiting → asked.due ≡ due_is.At tick
            → (told ≡ false) × PassesOver (waiting tick self.old.asking) self.old self.new) }
        ensures taken { IfOk result (λ told. (r : Record) (v : LiveSlot) (t : Cut) → StandsSession self.old r
            → question_of r ≡ Some (record { live = v; due = true }) → asked.slot ≡ ref_of v → asked.due ≡ due_is.Now
            → reply ≡ reply_is.Taken t → Suits v.slot.plan.mode t → IsLight v.wanted.places t
            → (told ≡ is_some (what_of r.session.board.lines v t)) × StandsSession self.new (answered r v t)) }
        ensures other { IfOk result (λ told. suits (is_now asked.due) reply ≡ false → (told ≡ false) × (self.new
            ≡ self.old)) }
        ensures err { OnErr result ((r : Record) → StandsSession self.old r → StandsSession self.new r) }
    {
        match reply {
            Reply::Nothing => {
                self.asking.pass();
                Ok(false)
            }
            Reply::Waiting => {
                self.hold(asked.due);
                Ok(false)
            }
            Reply::Taken(taken) => match asked.due {
                Due::Now => {
                    self.asking.drop_due_front();
                    self.tell(asked.slot, taken)
                }
                Due::At(_) => Ok(false),
            },
        }
    }

    /// A slot that isn't due waits, and the next one is asked next.
    fn hold(&mut self, due: Due)
        ensures now { due ≡ due_is.Now → self.new ≡ self.old }
        ensures at { (tick : ℕ) → due ≡ due_is.At tick
            → PassesOver (waiting tick self.old.asking) self.old self.new }
    {
        if let Due::At(tick) = due {
            self.asking.hold(tick);
        }
    }

    /// The line of a cut of the slot that is asked is numbered, and the slot goes to the back of the round; or there is
    /// no such line, and the slot is asked again.
    fn tell(&mut self, slot: SlotRef, taken: Taken) -> Result<bool, NoMemory>
        requires named { has_slot slot.sub slot.place self.old.asking.turns ≡ true }
        requires later { ForSome self.old.asking.front (λ f. self.old.asking.tick < f.tick) }
        ensures told { IfOk result (λ told. (r : Record) (v : LiveSlot) → StandsSession self.old r
            → question_of r ≡ Some (record { live = v; due = true }) → slot ≡ ref_of v
            → Suits v.slot.plan.mode taken → IsLight v.wanted.places taken
            → (told ≡ is_some (what_of r.session.board.lines v taken)) × StandsSession self.new (answered r v taken)) }
        ensures err { OnErr result ((r : Record) → StandsSession self.old r → StandsSession self.new r) }
    {
        if self.lines.last() >= GREATEST_NUMBER {
            return Ok(false);
        }
        are_small(slot.sub, slot.place);
        let mut text = self.lines.blank(LINE_ROOM)?;
        let told = self
            .subs
            .accept(&slot, taken, self.asking.tick(), &mut text)?;
        match told {
            CutLine::Nothing => {
                self.asking.again();
                Ok(false)
            }
            CutLine::Update => {
                self.spend(&text);
                self.note(text, &slot);
                Ok(true)
            }
            CutLine::Other => {
                self.note(text, &slot);
                Ok(true)
            }
        }
    }

    /// The line of this text is numbered, and its slot goes to the back of the round.
    fn note(&mut self, text: Vec<u8>, slot: &SlotRef)
        requires ready { IsReadyFor 1 self.old.lines }
        requires named { has_slot slot.now.sub slot.now.place self.old.asking.turns ≡ true }
        ensures line { NumbersLine self.old.lines text.items self.new.lines }
        ensures back { self.new.asking
            ≡ with_gave (gave slot.now.sub slot.now.place self.old.asking.turns) self.old.asking }
        ensures rest { self.new ≡ record self.old { lines = self.new.lines; asking = self.new.asking } }
    {
        self.lines.number_text(text);
        self.asking.give(slot);
    }

    /// An update takes its bytes with CR LF of the bandwidth.
    fn spend(&mut self, text: &[u8])
        ensures spent { SpendsText text.now self.old.asking.tick self.old.bandwidth self.new.bandwidth }
        ensures rest { self.new ≡ record self.old { bandwidth = self.new.bandwidth } }
    {
        let bytes = text.len() as u64 + 2;
        self.bandwidth.spend(self.asking.tick(), bytes);
    }
}

/// Whether this question is the one that stands.
fn is_asked(asked: Asked, ask: Ask) -> bool
    ensures { IsTrue result ↔ (ask_of asked ≡ ask) }
{
    asked.slot == ask.slot && is_now(asked.due) == ask.due
}

/// That a subscription's number and a place in it have 32 bits each: a line that tells of them is short.
fn are_small(sub: u32, place: u32)
    ensures { (sub < 2 ^ 32) × (place < 2 ^ 32) }
{
    let _ = (sub, place);
}
