//! A subscription is added to a session of a server: its slots join their items one after another (TLCP 2.1, control
//! with LS_op add).
ghost use Rattle.std.specs.Prelude.{◌≡◌, ◌≤◌, ◌+◌, ◌++◌, ◌∷◌, [], ℕ, OnOk, OnErr, IfOk, IfErr, IsErrOf, length, map};
ghost use mathlib.Core.List.{IsPrefix};
ghost use Rattle.ls_value.specs.declared.limits.TheConstants.{GREATEST_TICK};
ghost use Rattle.ls_request.specs.Ranges.{AddFits};
ghost use Rattle.ls_request.specs.declared.request.Op.TheVariants as op_is;
ghost use Rattle.ls_record.specs.Acting.{asks_of};
ghost use Rattle.ls_record.specs.Cutting.{Ask as Asks};
ghost use Rattle.ls_register.specs.Sessions.{Gains};
ghost use Rattle.ls_register.specs.declared.made.Made.TheVariants.{Claimed, Freed};
ghost use Rattle.ls_subs.specs.declared.plan.Refusal.TheVariants as Refusal;
ghost use Rattle.ls_told.specs.Heard.{counts_as};
ghost use Rattle.ls_told.specs.Seen.{Grows, SeesMore};
ghost use Rattle.ls_told.specs.Requests.{Does, RefusesOp};
ghost use Rattle.ls_live_session.specs.Adding.{AddsTo};
ghost use Rattle.ls_live_session.specs.Sights.{AreOneItems, ShowsAll};
ghost use Rattle.ls_shared.specs.Answers.{AddsOn, HasRoom, SeesOn};
ghost use Rattle.ls_shared.specs.Operations.{AddsNothing, ClaimsRoom};

use crate::shared::Shared;
use crate::testimony::Held;
use ls_live_session::{Adding, LiveSession, NotAdded, Sight, Undone};
use ls_register::{Book, House, wait_for_good};
use ls_request::Add;
use ls_seated::JoinRefused;
use ls_subs::Refusal;
use ls_value::NoMemory;
use std::sync::Wait;

impl<N: House> Shared<N> {
    /// Adds a subscription to a session, as [`Shared::control`] does an operation on one behind its lock. The session
    /// comes back.
    pub(crate) fn add<R: Wait>(
        &self,
        rt: &R,
        live: LiveSession<N>,
        sight: &mut Sight<N>,
        add: &Add,
        now: u64,
    ) -> (LiveSession<N>, Result<(), Refusal>)
        requires tick { now ≤ GREATEST_TICK }
        requires fits { AddFits add.now }
        ensures mine { sight.new.mine ≡ sight.old.mine }
        ensures grows { OnOk result.1 (Grows sight.old sight.new) }
        ensures done { OnOk result.1 (Does N.deed.config (op_is.Add add.now) now sight.old sight.new) }
        ensures claimed { OnOk result.1 (ClaimsRoom N.deed.config add.now sight.old sight.new) }
        ensures refused { (code : ℕ) → IsErrOf result.1 (Refusal.Code code) → Grows sight.old sight.new
            × RefusesOp N.deed.config sight.old.number (op_is.Add add.now) code sight.new.lines sight.new.watches
            sight.new.register }
        ensures memory { IsErrOf result.1 Refusal.NoMemory → SeesOn sight.old sight.new }
        ensures nothing { OnErr result.1 (AddsNothing live.number now live.lines result.0.lines) }
    {
        let mut live = live;
        let Ok(()) = self.reach(rt, &mut live, sight) else {
            return (live, Err(Refusal::NoMemory));
        };
        self.end_overdue(rt, &mut live, now);
        live.show_lines(sight);
        self.add_to(rt, live, sight, add, now)
    }

    /// Adds a subscription to a session of which the caller sees all. Its room is claimed before its slots join; where
    /// one can't, those that did leave again, and the room is given back.
    fn add_to<R: Wait>(
        &self,
        rt: &R,
        live: LiveSession<N>,
        sight: &mut Sight<N>,
        add: &Add,
        now: u64,
    ) -> (LiveSession<N>, Result<(), Refusal>)
        requires tick { now ≤ GREATEST_TICK }
        requires fits { AddFits add.now }
        requires shows { ShowsAll live sight.old }
        ensures grows { Grows sight.old sight.new }
        ensures mine { sight.new.mine ≡ sight.old.mine }
        ensures done { OnOk result.1 (AddsOn N.deed.config add.now now live sight.old sight.new) }
        ensures refused { (code : ℕ) → IsErrOf result.1 (Refusal.Code code)
            → RefusesOp N.deed.config sight.old.number (op_is.Add add.now) code sight.new.lines sight.new.watches
            sight.new.register }
        ensures err { OnErr result.1 (result.0.lines ≡ live.lines) }
    {
        match self.begin(rt, live, sight, add) {
            Err(refused) => {
                let NotAdded { session, cause } = refused;
                (session, Err(cause))
            }
            Ok(adding) => self.add_slots(rt, adding, sight, add, now),
        }
    }

    /// Begins to add a subscription to a session of which the caller sees all, and claims room for its slots, both by the
    /// register as it is then. The caller sees all of the register.
    fn begin<'a, R: Wait>(
        &self,
        rt: &R,
        live: LiveSession<N>,
        sight: &mut Sight<N>,
        add: &'a Add,
    ) -> Result<Adding<'a, N>, NotAdded<N>>
        requires fits { AddFits add.now }
        requires shows { ShowsAll live sight.old }
        ensures rest { sight.new ≡ record sight.old { register = sight.new.register } }
        ensures begins { IsPrefix sight.old.register sight.new.register }
        ensures begun { IfOk result (λ d. d ≡ record {
          number = live.number;
          place = live.place;
          table = live.table;
          lines = live.lines;
          watches = live.watches;
          add = add.now;
          free = d.free;
          items = map (λ (a : Asks). a.item) (asks_of N.deed.config add.now);
          joined = 0;
        }) }
        ensures room { IfOk result (λ d. HasRoom N.deed.config add.now live.lines d.free sight.old.register
            sight.new.register) }
        ensures refused { IfErr result (λ e. (code : ℕ) → e.cause ≡ Refusal.Code code
            → RefusesOp N.deed.config sight.old.number (op_is.Add add.now) code sight.new.lines sight.new.watches
            sight.new.register) }
        ensures same { IfErr result (λ e. e.session ≡ live) }
    {
        let mut book = self.book.lock(rt);
        self.begin_in(rt, &mut book, live, sight, add)
    }

    /// The same, where the register is open.
    fn begin_in<'a, R: Wait>(
        &self,
        rt: &R,
        book: &mut Book<N, Held<N>>,
        live: LiveSession<N>,
        sight: &mut Sight<N>,
        add: &'a Add,
    ) -> Result<Adding<'a, N>, NotAdded<N>>
        requires fits { AddFits add.now }
        requires shows { ShowsAll live sight.old }
        ensures rest { sight.new ≡ record sight.old { register = sight.new.register } }
        ensures begins { IsPrefix sight.old.register sight.new.register }
        ensures begun { IfOk result (λ d. d ≡ record {
          number = live.number;
          place = live.place;
          table = live.table;
          lines = live.lines;
          watches = live.watches;
          add = add.now;
          free = d.free;
          items = map (λ (a : Asks). a.item) (asks_of N.deed.config add.now);
          joined = 0;
        }) }
        ensures room { IfOk result (λ d. HasRoom N.deed.config add.now live.lines d.free sight.old.register
            sight.new.register) }
        ensures refused { IfErr result (λ e. (code : ℕ) → e.cause ≡ Refusal.Code code
            → RefusesOp N.deed.config sight.old.number (op_is.Add add.now) code sight.new.lines sight.new.watches
            sight.new.register) }
        ensures same { IfErr result (λ e. e.session ≡ live) }
        ensures err { OnErr result (book.new ≡ book.old) }
    {
        sight.show_register(&self.register, book);
        match live.begin_add(add, &self.config, book.free_slots(), book.is_spent()) {
            Err(refused) => Err(refused),
            Ok(adding) => {
                self.claim(rt, book, sight, adding.slots());
                Ok(adding)
            }
        }
    }

    /// Claims room for so many slots, which there is, and shows it to a caller.
    fn claim<R: Wait>(
        &self,
        rt: &R,
        book: &mut Book<N, Held<N>>,
        sight: &mut Sight<N>,
        slots: usize,
    )
        ensures rest { sight.new ≡ record sight.old { register = sight.new.register } }
        ensures begins { IsPrefix sight.old.register sight.new.register }
        ensures claimed { sight.new.register ≡ book.old ++ Claimed slots ∷ [] }
    {
        let Ok(slots) = u32::try_from(slots) else {
            wait_for_good(rt);
            unreachable!()
        };
        let Ok(()) = book.claim(&self.register, slots) else {
            wait_for_good(rt);
            unreachable!()
        };
        sight.show_register(&self.register, book);
    }

    /// The slots of a subscription join, and it begins. Where one can't, its room is given back. It isn't inlined, so
    /// that its stack isn't under that of `begin`.
    #[inline(never)]
    fn add_slots<'a, R: Wait>(
        &self,
        rt: &R,
        adding: Adding<'a, N>,
        sight: &mut Sight<N>,
        add: &'a Add,
        now: u64,
    ) -> (LiveSession<N>, Result<(), Refusal>)
        requires tick { now ≤ GREATEST_TICK }
        requires fits { AddFits add.now }
        requires of { (sight.old.number ≡ adding.number) × (sight.old.table ≡ adding.table) }
        requires both { sight.old.later ≡ sight.old.lines }
        requires none { adding.joined ≡ 0 }
        ensures grows { Grows sight.old sight.new }
        ensures mine { sight.new.mine ≡ sight.old.mine }
        ensures done { OnOk result.1 (AddsTo N.deed.config adding.entry.number adding.entry.add adding.entry.free
            (counts_as now adding.entry.lines) adding.entry.lines sight.new.lines sight.new.watches) }
        ensures refused { (code : ℕ) → IsErrOf result.1 (Refusal.Code code)
            → RefusesOp N.deed.config sight.old.number (op_is.Add add.now) code sight.new.lines sight.new.watches
            sight.new.register }
        ensures err { OnErr result.1 (result.0.lines ≡ adding.entry.lines) }
        ensures freed { OnErr result.1 (Gains (Freed (length adding.entry.items)) sight.old.register
            sight.new.register) }
    {
        let mut adding = adding;
        match self.join_all(rt, &mut adding, sight) {
            Ok(()) => (self.finish(adding, sight, now), Ok(())),
            Err(refused) => {
                let (session, cause) = self.undo(rt, adding, sight, add, refused);
                (session, Err(cause))
            }
        }
    }

    /// A subscription begins whose slots have joined, and of which the caller watches the items.
    fn finish<'a>(&self, adding: Adding<'a, N>, sight: &mut Sight<N>, now: u64) -> LiveSession<N>
        requires tick { now ≤ GREATEST_TICK }
        requires of { (sight.old.number ≡ adding.number) × (sight.old.table ≡ adding.table) }
        requires all { adding.joined ≡ length adding.items }
        requires one { AreOneItems adding.watches sight.old.watches }
        ensures grows { Grows sight.old sight.new }
        ensures mine { sight.new.mine ≡ sight.old.mine }
        ensures done { AddsTo N.deed.config adding.entry.number adding.entry.add adding.entry.free
            (counts_as now adding.entry.lines) adding.entry.lines sight.new.lines sight.new.watches }
    {
        let mut live = adding.finish(now);
        live.show(&self.register, sight);
        live
    }

    /// A subscription isn't added of which a slot couldn't join: those that did leave, and its room is given back. It
    /// isn't inlined, since it is rare.
    #[inline(never)]
    fn undo<'a, R: Wait>(
        &self,
        rt: &R,
        adding: Adding<'a, N>,
        sight: &mut Sight<N>,
        add: &'a Add,
        refused: JoinRefused,
    ) -> (LiveSession<N>, Refusal)
        requires fits { AddFits add.now }
        requires both { sight.old.later ≡ sight.old.lines }
        ensures grows { Grows sight.old sight.new }
        ensures mine { sight.new.mine ≡ sight.old.mine }
        ensures refused { (code : ℕ) → result.1 ≡ Refusal.Code code
            → RefusesOp N.deed.config sight.old.number (op_is.Add add.now) code sight.new.lines sight.new.watches
            sight.new.register }
        ensures same { result.0.lines ≡ adding.entry.lines }
        ensures freed { Gains (Freed (length adding.entry.items)) sight.old.register sight.new.register }
    {
        let slots = adding.slots() as u64;
        let Undone { session, seats } = adding.undo();
        self.leave_these(rt, seats);
        self.free(rt, sight, slots);
        self.give_up(rt, session, sight, add, refused)
    }

    /// Why a subscription isn't added of which a slot couldn't join. Where that was for the register, which was spent then,
    /// nothing can begin in it since.
    fn give_up<R: Wait>(
        &self,
        rt: &R,
        live: LiveSession<N>,
        sight: &mut Sight<N>,
        add: &Add,
        refused: JoinRefused,
    ) -> (LiveSession<N>, Refusal)
        requires fits { AddFits add.now }
        requires both { sight.old.later ≡ sight.old.lines }
        ensures grows { Grows sight.old sight.new }
        ensures mine { sight.new.mine ≡ sight.old.mine }
        ensures refused { (code : ℕ) → result.1 ≡ Refusal.Code code
            → RefusesOp N.deed.config sight.old.number (op_is.Add add.now) code sight.new.lines sight.new.watches
            sight.new.register }
        ensures same { result.0.lines ≡ live.lines }
    {
        match refused {
            JoinRefused::NoMemory => (live, Refusal::NoMemory),
            JoinRefused::Full | JoinRefused::Spent => self.find_cause(rt, live, sight, add),
        }
    }

    /// Why a subscription can't begin. It isn't inlined, since it is rare.
    #[inline(never)]
    fn find_cause<R: Wait>(
        &self,
        rt: &R,
        live: LiveSession<N>,
        sight: &mut Sight<N>,
        add: &Add,
    ) -> (LiveSession<N>, Refusal)
        requires fits { AddFits add.now }
        requires both { sight.old.later ≡ sight.old.lines }
        ensures grows { Grows sight.old sight.new }
        ensures mine { sight.new.mine ≡ sight.old.mine }
        ensures refused { (code : ℕ) → result.1 ≡ Refusal.Code code
            → RefusesOp N.deed.config sight.old.number (op_is.Add add.now) code sight.new.lines sight.new.watches
            sight.new.register }
        ensures same { result.0.lines ≡ live.lines }
    {
        let mut live = live;
        let Ok(()) = self.reach(rt, &mut live, sight) else {
            return (live, Refusal::NoMemory);
        };
        self.refuse(rt, live, sight, add)
    }

    /// Why a subscription can't begin in a session of which the caller sees all.
    fn refuse<R: Wait>(
        &self,
        rt: &R,
        live: LiveSession<N>,
        sight: &mut Sight<N>,
        add: &Add,
    ) -> (LiveSession<N>, Refusal)
        requires fits { AddFits add.now }
        requires shows { ShowsAll live sight.old }
        ensures rest { sight.new ≡ record sight.old { register = sight.new.register } }
        ensures begins { IsPrefix sight.old.register sight.new.register }
        ensures refused { (code : ℕ) → result.1 ≡ Refusal.Code code
            → RefusesOp N.deed.config sight.old.number (op_is.Add add.now) code sight.new.lines sight.new.watches
            sight.new.register }
        ensures same { result.0.lines ≡ live.lines }
    {
        match self.begin(rt, live, sight, add) {
            Err(refused) => {
                let NotAdded { session, cause } = refused;
                (session, cause)
            }
            Ok(_) => {
                wait_for_good(rt);
                unreachable!()
            }
        }
    }

    /// The slots of a subscription join their items one after another, and the caller then watches these items too.
    fn join_all<'a, R: Wait>(
        &self,
        rt: &R,
        adding: &mut Adding<'a, N>,
        sight: &mut Sight<N>,
    ) -> Result<(), JoinRefused>
        requires some { adding.old.joined ≤ length adding.old.items }
        ensures rest { adding.new ≡ record adding.old { watches = adding.new.watches; joined = adding.new.joined } }
        ensures sight { sight.new ≡ record sight.old { watches = sight.new.watches } }
        ensures more { SeesMore sight.old.watches sight.new.watches }
        ensures all { OnOk result (adding.new.joined ≡ length adding.new.items) }
        ensures one { OnOk result (AreOneItems adding.new.watches sight.new.watches) }
        ensures err { OnErr result (sight.new ≡ sight.old) }
    {
        self.join_each(rt, adding)?;
        match adding.show_items(&self.register, sight) {
            Ok(true) => Ok(()),
            Ok(false) => {
                wait_for_good(rt);
                unreachable!()
            }
            Err(NoMemory) => Err(JoinRefused::NoMemory),
        }
    }

    /// Each slot of a subscription joins its item.
    fn join_each<'a, R: Wait>(&self, rt: &R, adding: &mut Adding<'a, N>) -> Result<(), JoinRefused>
        requires some { adding.old.joined ≤ length adding.old.items }
        ensures rest { adding.new ≡ record adding.old { watches = adding.new.watches; joined = adding.new.joined } }
        ensures all { OnOk result (adding.new.joined ≡ length adding.new.items) }
    {
        for _ in rt.forever() {
            match adding.next_item() {
                Some(item) => self.join_one(rt, adding, item)?,
                None => return Ok(()),
            }
        }
        unreachable!()
    }

    /// The next slot of a subscription joins its item. Where that isn't the item of this number, it waits for good.
    fn join_one<'a, R: Wait>(
        &self,
        rt: &R,
        adding: &mut Adding<'a, N>,
        item: u32,
    ) -> Result<(), JoinRefused>
        ensures rest { adding.new ≡ record adding.old { watches = adding.new.watches; joined = adding.new.joined } }
        ensures joined { OnOk result (adding.new.joined ≡ adding.old.joined + 1) }
    {
        let Some(lock) = self.items.get(item as usize) else {
            wait_for_good(rt);
            unreachable!()
        };
        let mut seated = lock.lock(rt);
        let mut book = self.book.lock(rt);
        if !adding.join(&self.register, &mut seated, &mut book)? {
            wait_for_good(rt);
        }
        Ok(())
    }
}
