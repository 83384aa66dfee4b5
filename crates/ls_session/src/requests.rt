//! What requests do to a session: a subscription is added, gets another frequency, or ends, and the session gets
//! another bandwidth (TLCP 2.1, control).
ghost use Rattle.std.specs.Prelude.{◌≡◌, ◌≤◌, ◌<◌, ◌+◌, ◌||◌, ◌∷◌, [], ℕ, List, length, map, None, Some, IfOk, OnOk};
ghost use Rattle.std.specs.Prelude.{OnErr, IsErrOf, nat_le, nat_lt};
ghost use Rattle.std.specs.Option.{ForSome};
ghost use Rattle.ls_value.specs.declared.limits.TheConstants.{GREATEST_NUMBER, GREATEST_TICK};
ghost use Rattle.ls_event.specs.declared.item.ItemDef.{ItemDef};
ghost use Rattle.ls_line.specs.Lines.{text_of_line};
ghost use Rattle.ls_request.specs.declared.request.Add.{Add as Adding};
ghost use Rattle.ls_request.specs.Ranges.{AddFits};
ghost use Rattle.ls_record.specs.Cases.{first_code};
ghost use Rattle.ls_value.specs.Each.{Each};
ghost use Rattle.ls_record.specs.Records.{LiveSlot, numbered, removed, reconfigured, constrained, frequency_in};
ghost use Rattle.ls_record.specs.Records.{is_filtered, with_outcome};
ghost use Rattle.ls_record.specs.Lines.{MessageOutcome, outcome_line};
ghost use Rattle.ls_record.specs.declared.TheConstants.{MOST_SUBSCRIPTIONS};
ghost use Rattle.ls_record.specs.Acting.{add_refusals, subscriptions, are_spent};
ghost use Rattle.ls_subs.specs.Plans.{IsPlan, JoinAll, MayJoin};
ghost use Rattle.ls_subs.specs.Standing.{ref_of};
ghost use Rattle.ls_subs.specs.declared.plan.Refusal.TheVariants as Refusal;
ghost use Rattle.ls_session.specs.Record.{Record, begun_again, begun_anew, with_plan, adding_code, changing_code};
ghost use Rattle.ls_session.specs.Record.{constraining_code, numbering_code, slots_of};
ghost use Rattle.ls_session.specs.Session.{StandsSession, IsReady, configured};
ghost use Rattle.ls_session.specs.Asking.{asked_anew};
ghost use Rattle.ls_stream.specs.Standing.{IsReadyFor, IsShort, NumbersLine, last_line};

use crate::session::Session;
use crate::telling::{conf_text, unsub_text};
use ls_config::Config;
use ls_event::Mode;
use ls_line::{Line, text};
use ls_request::Add;
use ls_stream::bandwidth_text;
use ls_subs::{AddPlan, Refusal, SlotRef, frequency_in, is_filtered};
use ls_value::{Bytes, NoMemory};

impl Session {
    /// What a new subscription asks for, where so many slots are free on the server. It takes all the memory that
    /// [`Session::finish_add`] needs. It is refused, in this order: 20 where the session has ended, 72 where a
    /// subscription of its number is live, 70 where too many lines wait, 21 for its group, 24 for its mode, 23 for its
    /// schema, 71 where there are too many subscriptions or too few free slots, 74 where no numbers are left. A refusal
    /// changes nothing.
    pub fn prepare_add(&mut self, add: &Add, config: &Config, free: u32) -> Result<AddPlan, Refusal>
        requires { AddFits add.now }
        ensures plan { IfOk result (λ p. IsPlan config.now.items add.now p) }
        ensures join { IfOk result (λ p. Each (MayJoin config.now.items) p.items.items) }
        ensures ready { IfOk result (λ p. IsReady self.new p) }
        ensures accepted { OnOk result ((r : Record) → StandsSession self.old r
            → adding_code config.now.items free r.session add.now ≡ None) }
        ensures refused { (code : ℕ) → IsErrOf result (Refusal.Code code) → (r : Record) → StandsSession self.old r
            → adding_code config.now.items free r.session add.now ≡ Some code }
        ensures same { (r : Record) → StandsSession self.old r → StandsSession self.new r }
    {
        if self.is_alive() {
            self.plan_add(add, config, free)
        } else {
            Err(Refusal::Code(20))
        }
    }

    /// What a new subscription asks for of a session that hasn't ended.
    fn plan_add(&mut self, add: &Add, config: &Config, free: u32) -> Result<AddPlan, Refusal>
        requires { AddFits add.now }
        ensures plan { IfOk result (λ p. IsPlan config.now.items add.now p) }
        ensures join { IfOk result (λ p. Each (MayJoin config.now.items) p.items.items) }
        ensures ready { IfOk result (λ p. IsReady self.new p) }
        ensures accepted { OnOk result ((r : Record) → StandsSession self.old r
            → first_code (add_refusals config.now.items free r.session add.now) ≡ None) }
        ensures refused { (code : ℕ) → IsErrOf result (Refusal.Code code) → (r : Record) → StandsSession self.old r
            → first_code (add_refusals config.now.items free r.session add.now) ≡ Some code }
        ensures same { (r : Record) → StandsSession self.old r → StandsSession self.new r }
    {
        if let Some(code) = self.code_of_number(add.sub) {
            return Err(Refusal::Code(code));
        }
        let plan = self.subs.prepare(add, config)?;
        match self.make_room(add.group.len(), plan.items.len(), free) {
            Ok(()) => Ok(plan),
            Err(refusal) => Err(refusal),
        }
    }

    /// Takes memory for the lines of a subscription whose slots are so many, and for so many slots.
    fn make_room(&mut self, slots: usize, items: usize, free: u32) -> Result<(), Refusal>
        ensures spare { OnOk result (items ≤ self.new.asking.turns.spare) }
        ensures room { OnOk result (length self.new.asking.turns.seats + items ≤ self.new.asking.room) }
        ensures ready { OnOk result (IsReadyFor 2 self.new.lines) }
        ensures subs { self.new.subs ≡ self.old.subs }
        ensures accepted { OnOk result ((r : Record) → StandsSession self.old r → first_code (
            (71, nat_le MOST_SUBSCRIPTIONS (subscriptions r.session.board.round) || nat_lt free slots)
            ∷ (74, are_spent r.session 2) ∷ []) ≡ None) }
        ensures refused { (code : ℕ) → IsErrOf result (Refusal.Code code) → (r : Record) → StandsSession self.old r
            → first_code (
            (71, nat_le MOST_SUBSCRIPTIONS (subscriptions r.session.board.round) || nat_lt free slots)
            ∷ (74, are_spent r.session 2) ∷ []) ≡ Some code }
        ensures same { (r : Record) → StandsSession self.old r → StandsSession self.new r }
    {
        if let Some(code) = self.code_of_room(slots, free) {
            return Err(Refusal::Code(code));
        }
        self.asking.reserve(items)?;
        self.lines.reserve(2)?;
        Ok(())
    }

    /// A subscription begins, whose items were joined by these slots, one for each item: its two lines are numbered,
    /// and its slots join the round's end. The plan is that of the last [`Session::prepare_add`], and the session
    /// didn't change since. No memory is taken.
    pub fn finish_add(&mut self, plan: AddPlan, slots: &[u32])
        requires ready { IsReady self.old plan }
        requires slots { length slots.now ≡ length plan.items.items }
        ensures { (r : Record) (defs : List ItemDef) (a : Adding) (vs : List LiveSlot) → StandsSession self.old r
            → IsPlan defs a plan → JoinAll plan.items.items slots.now vs
            → StandsSession self.new (begun_again (numbered (with_plan defs a vs) r.session) r) }
    {
        let AddPlan {
            sub,
            items,
            begins,
            configures,
        } = plan;
        self.asking.join(sub, &items, slots);
        self.subs.finish(sub, items, slots);
        self.lines.number(begins);
        self.lines.number(configures);
    }

    /// The text of a line that tells of a client's message: MSGDONE or MSGFAIL, whose parts are in the ranges that
    /// [`Line`] has for them, and whose text has at most [`LONGEST_TEXT`](ls_line::LONGEST_TEXT) bytes. It takes all
    /// the memory that [`Session::finish_line`] needs. It is refused, in this order: 20 where the session has ended, 70
    /// where too many lines wait, 74 where no number is left. A refusal changes nothing.
    pub fn prepare_line(&mut self, line: &Line) -> Result<Bytes, Refusal>
        ensures text { IfOk result (λ t. t ≡ text_of_line line.now) }
        ensures ready { OnOk result (IsReadyFor 1 self.new.lines) }
        ensures accepted { OnOk result ((r : Record) → StandsSession self.old r → numbering_code r.session ≡ None) }
        ensures refused { (code : ℕ) → IsErrOf result (Refusal.Code code) → (r : Record) → StandsSession self.old r
            → numbering_code r.session ≡ Some code }
        ensures same { (r : Record) → StandsSession self.old r → StandsSession self.new r }
    {
        if let Some(code) = self.code_of_line() {
            return Err(Refusal::Code(code));
        }
        let text = text(self.alloc, line)?;
        self.lines.reserve(1)?;
        Ok(text)
    }

    /// The line of this text is numbered, and waits to be given. Its number is answered. The text is that of a
    /// [`Session::prepare_line`], and nothing was numbered since: of several texts that were prepared one may be. A
    /// question that stands is dropped, and the round begins anew at its tick. Where the session has ended since, the
    /// line is numbered and not kept. No memory is taken.
    pub fn finish_line(&mut self, text: Bytes) -> u64
        requires { IsReadyFor 1 self.old.lines }
        ensures number { result ≡ last_line self.old.lines + 1 }
        ensures numbered { (r : Record) → StandsSession self.old r → result ≡ length r.session.board.lines + 1 }
        ensures stands { (r : Record) (outcome : MessageOutcome) → StandsSession self.old r
            → text ≡ text_of_line (outcome_line outcome) → IsShort text
            → StandsSession self.new (begun_again (numbered (with_outcome outcome) r.session) r) }
        ensures line { NumbersLine self.old.lines text self.new.lines }
        ensures round { self.new.asking ≡ asked_anew self.old.asking.tick self.old.asking }
        ensures rest { self.new ≡ record self.old { lines = self.new.lines; asking = self.new.asking } }
    {
        self.lines.number(text);
        let same_tick = self.asking.tick();
        self.asking.begin(same_tick);
        self.lines.last()
    }

    /// A subscription ends: UNSUB is numbered, and its slots leave the round and are handed back. It is refused, in
    /// this order: 20 where the session has ended, 19 where no such subscription is live, 70 where too many lines wait,
    /// 74 where no number is left. A refusal changes nothing.
    pub fn delete(&mut self, sub: u32) -> Result<Vec<SlotRef>, Refusal>
        ensures accepted { IfOk result (λ slots. (r : Record) → StandsSession self.old r
            → (changing_code r.session sub ≡ None)
            × (slots.items ≡ map ref_of (slots_of sub r.session.board.round))
            × StandsSession self.new (begun_again (numbered (removed sub) r.session) r)) }
        ensures refused { (code : ℕ) → IsErrOf result (Refusal.Code code) → (r : Record) → StandsSession self.old r
            → changing_code r.session sub ≡ Some code }
        ensures err { OnErr result ((r : Record) → StandsSession self.old r → StandsSession self.new r) }
    {
        if let Some(code) = self.code_of_change(sub) {
            return Err(Refusal::Code(code));
        }
        let slots = self.end_sub(sub)?;
        Ok(slots)
    }

    /// A subscription ends: UNSUB is numbered, and its slots leave the round and are handed back.
    fn end_sub(&mut self, sub: u32) -> Result<Vec<SlotRef>, NoMemory>
        requires { last_line self.old.lines + 1 ≤ GREATEST_NUMBER }
        ensures ok { IfOk result (λ slots. (r : Record) → StandsSession self.old r
            → (slots.items ≡ map ref_of (slots_of sub r.session.board.round))
            × StandsSession self.new (begun_again (numbered (removed sub) r.session) r)) }
        ensures err { OnErr result ((r : Record) → StandsSession self.old r → StandsSession self.new r) }
    {
        let line = unsub_text(self.alloc, sub)?;
        let slots = self.asking.slots_of(self.alloc, sub)?;
        self.lines.reserve(1)?;
        self.asking.leave(sub);
        self.subs.remove(sub);
        self.lines.number(line);
        Ok(slots)
    }

    /// A subscription has another greatest frequency, in thousandths of an update per second, `None` for none: CONF is
    /// numbered. In mode RAW there is none, whatever is asked. The ticks of the last updates stay. It is refused as
    /// [`Session::delete`] is. A refusal changes nothing.
    pub fn reconf(&mut self, sub: u32, frequency: Option<u64>) -> Result<(), Refusal>
        requires { ForSome frequency (λ f. 0 < f) }
        ensures accepted { OnOk result ((r : Record) → StandsSession self.old r
            → (changing_code r.session sub ≡ None)
            × StandsSession self.new (begun_again (numbered (reconfigured sub frequency) r.session) r)) }
        ensures refused { (code : ℕ) → IsErrOf result (Refusal.Code code) → (r : Record) → StandsSession self.old r
            → changing_code r.session sub ≡ Some code }
        ensures err { OnErr result ((r : Record) → StandsSession self.old r → StandsSession self.new r) }
    {
        if let Some(code) = self.code_of_change(sub) {
            return Err(Refusal::Code(code));
        }
        let mode = self.subs.mode(sub).unwrap_or(Mode::Merge);
        self.configure(sub, frequency_in(mode, frequency), is_filtered(mode))?;
        Ok(())
    }

    /// A subscription has another greatest frequency: CONF is numbered.
    fn configure(
        &mut self,
        sub: u32,
        frequency: Option<u64>,
        filtered: bool,
    ) -> Result<(), NoMemory>
        requires left { last_line self.old.lines + 1 ≤ GREATEST_NUMBER }
        requires some { ForSome frequency (λ f. 0 < f) }
        ensures ok { OnOk result ((r : Record) → StandsSession self.old r
            → StandsSession self.new (begun_again (numbered (configured sub frequency filtered) r.session) r)) }
        ensures err { OnErr result ((r : Record) → StandsSession self.old r → StandsSession self.new r) }
    {
        let line = conf_text(self.alloc, sub, frequency, filtered)?;
        self.lines.reserve(1)?;
        self.subs.set_frequency(sub, frequency);
        self.lines.number(line);
        self.asking.restart();
        Ok(())
    }

    /// The session has another bandwidth, in thousandths of a kbit per second, `None` for none, from a tick on, in ms,
    /// of at most [`GREATEST_TICK`](ls_value::GREATEST_TICK) and not below the floor: CONS is owed to its stream, and the
    /// credit begins anew. It is refused, in this order: 20 where the session has ended, 70 where too
    /// many lines are owed. A refusal changes nothing.
    pub fn constrain(&mut self, bandwidth: Option<u64>, now: u64) -> Result<(), Refusal>
        requires { ForSome bandwidth (λ limit. 0 < limit) }
        ensures accepted { OnOk result ((r : Record) → StandsSession self.old r
            → (constraining_code r.session ≡ None)
            × (r.floor ≤ now → now ≤ GREATEST_TICK
            → StandsSession self.new (begun_anew now (constrained bandwidth r.session) r))) }
        ensures refused { (code : ℕ) → IsErrOf result (Refusal.Code code) → (r : Record) → StandsSession self.old r
            → constraining_code r.session ≡ Some code }
        ensures err { OnErr result ((r : Record) → StandsSession self.old r → StandsSession self.new r) }
    {
        if let Some(code) = self.code_of_constrain() {
            return Err(Refusal::Code(code));
        }
        let line = bandwidth_text(self.alloc, bandwidth)?;
        self.lines.owe(line)?;
        self.bandwidth.set(bandwidth, now);
        self.asking.begin(now);
        Ok(())
    }
}
