//! New sessions, and what is seen of those that live (TLCP 2.1, create_session).
ghost use Rattle.std.specs.Prelude.{◌≡◌, ◌≤◌, ◌<◌, ◌+◌, ◌++◌, ◌∷◌, [], ℕ, List, true, false, Some, IfOk, IfSome, OnOk, OnErr, IsErrOf, is_some, length};
ghost use Rattle.std.specs.Option.{ForSome};
ghost use mathlib.Core.List.{IsPrefix};
ghost use Rattle.ls_value.specs.Each.{Each};
ghost use Rattle.ls_value.specs.declared.limits.TheConstants.{GREATEST_TICK};
ghost use Rattle.ls_register.specs.Sessions.{is_live, are_spent, sessions_of};
ghost use Rattle.ls_register.specs.declared.made.Made.{Made as WasMade};
ghost use Rattle.ls_register.specs.declared.made.Made.TheVariants.{Session};
ghost use Rattle.ls_subs.specs.declared.plan.Refusal.TheVariants as Refusal;
ghost use Rattle.ls_told.specs.Seen.{IsDeclared, LawfulTold};
ghost use Rattle.ls_shared.specs.Answers.{Begins, Opens, Testifies, create_code, is_other};

use crate::shared::Shared;
use crate::testimony::{Held, Opened, Testimony};
use ls_bell::Bell;
use ls_chron::Chron;
use ls_config::Config;
use ls_live_session::{LiveSession, SightStart};
use ls_record::MOST_SESSIONS;
use ls_register::{Book, House, Made, View, wait_for_good};
use ls_request::Create;
use ls_subs::Refusal;
use ls_value::{NoMemory, same_bytes};
use std::alloc::Global;
use std::sync::{Arc, Mutex, Wait};

impl<N: House> Shared<N> {
    /// A new session, with its first stream, at a tick, in ms, of at most [`GREATEST_TICK`](ls_value::GREATEST_TICK). It
    /// is refused, in this order: 2 where an adapter set is named that isn't the config's, 8 where as many sessions live
    /// as may, 74 where no number is left or the register is spent. The view has then the register as it stands under
    /// its lock. The call may wait.
    pub fn create<R: Wait>(
        &self,
        rt: &R,
        create: &Create,
        now: u64,
        view: &mut View<N>,
    ) -> Result<Opened<N>, Refusal>
        requires tick { now ≤ GREATEST_TICK }
        requires bandwidth { ForSome create.now.bandwidth (λ limit. 0 < limit) }
        ensures view { IsPrefix view.old view.new }
        ensures opened { IfOk result (λ o.
            Opens N.deed.set create.now now view.old view.new o.session o.epoch o.seen) }
        ensures refused { (code : ℕ) → IsErrOf result (Refusal.Code code)
            → create_code N.deed.set create.now view.new ≡ Some code }
        ensures lawful { IfOk result (λ o. LawfulTold N.deed.config o.seen) }
    {
        let mut book = self.book.lock(rt);
        book.show(&self.register, view);
        if let Some(code) = code_of(&self.config, &book, create) {
            return Err(Refusal::Code(code));
        }
        let opened = open_in(rt, self.alloc, &self.register, &mut book, create, now)?;
        book.show(&self.register, view);
        opened.seen.vouch();
        Ok(opened)
    }

    /// What there is to be seen of a session: `None` exactly where it doesn't live by the register, as it stands under
    /// its lock and as the view then has it. The call may wait.
    pub fn testify<R: Wait>(
        &self,
        rt: &R,
        session: u64,
        view: &mut View<N>,
    ) -> Result<Option<Testimony<N>>, NoMemory>
        ensures view { IsPrefix view.old view.new }
        ensures found { IfOk result (λ found. is_some found ≡ is_live view.new session) }
        ensures testifies { IfOk result (λ found. IfSome found (Testifies session)) }
        ensures lawful { IfOk result (λ found. IfSome found (LawfulTold N.deed.config)) }
    {
        match self.find(rt, session, view)? {
            None => Ok(None),
            Some(held) => {
                let seen = self.testimony(rt, session, held)?;
                seen.vouch();
                Ok(Some(seen))
            }
        }
    }

    /// What is held of a session that lives by the register, as the view then has it.
    fn find<R: Wait>(
        &self,
        rt: &R,
        session: u64,
        view: &mut View<N>,
    ) -> Result<Option<Held<N>>, NoMemory>
        ensures view { IsPrefix view.old view.new }
        ensures found { IfOk result (λ found. is_some found ≡ is_live view.new session) }
    {
        let mut book = self.book.lock(rt);
        book.show(&self.register, view);
        match book.find(session) {
            None => Ok(None),
            Some(held) => Ok(Some(Arc::try_clone(held)?)),
        }
    }

    /// What there is to be seen of a session of a number. Where another one is held, or none, it waits for good.
    fn testimony<R: Wait>(
        &self,
        rt: &R,
        session: u64,
        held: Held<N>,
    ) -> Result<Testimony<N>, NoMemory>
        ensures { IfOk result (Testifies session) }
    {
        let mut guard = held.lock(rt);
        let Some(live) = &mut *guard else {
            wait_for_good(rt);
            unreachable!()
        };
        if live.number() != session || !live.is_placed() {
            wait_for_good(rt);
        }
        let sight = live.tell(self.alloc, &self.register)?;
        drop(guard);
        Ok(Testimony { held, sight })
    }
}

/// What a new session is refused for.
fn code_of<N: House>(config: &Config, book: &Book<N, Held<N>>, create: &Create) -> Option<u16>
    ensures { result ≡ create_code config.now.set create.now book.now }
{
    if is_other_set(config, create) {
        Some(2)
    } else if book.live() >= MOST_SESSIONS {
        Some(8)
    } else if book.next_session().is_none() {
        Some(74)
    } else {
        None
    }
}

/// Whether an adapter set is named that isn't the config's.
fn is_other_set(config: &Config, create: &Create) -> bool
    ensures { result ≡ is_other config.now.set create.now.set }
{
    match &create.set {
        None => false,
        Some(name) => !same_bytes(name.as_bytes(), config.set.as_bytes()),
    }
}

/// Makes a session, whose number is the next one of the register. Its own lock, which nobody else can hold, is taken
/// under the register's.
fn open_in<N: House, R: Wait>(
    rt: &R,
    alloc: Global,
    register: &Chron<Made>,
    book: &mut Book<N, Held<N>>,
    create: &Create,
    now: u64,
) -> Result<Opened<N>, NoMemory>
    requires register { register.now ≡ N.deed.register }
    requires tick { now ≤ GREATEST_TICK }
    requires bandwidth { ForSome create.now.bandwidth (λ limit. 0 < limit) }
    requires items { Each IsDeclared N.deed.config }
    requires left { are_spent book.old ≡ false }
    ensures begins { IfOk result (λ o. Begins create.now now o.session o.epoch o.seen) }
    ensures made { IfOk result (λ o. book.new ≡ book.old ++ Session o.session o.seen.table ∷ []) }
    ensures live { IfOk result (λ o. is_live book.new o.session ≡ true) }
    ensures fresh { IfOk result (λ o. (ms : List WasMade) → IsPrefix ms book.old → is_live ms o.session ≡ false) }
    ensures err { OnErr result (book.new ≡ book.old) }
{
    let Some(session) = book.next_session() else {
        unreachable!()
    };
    let bell = Arc::new(alloc, Bell::new())?;
    let again = Arc::try_clone(&bell)?;
    let start = SightStart::new(alloc)?;
    let held: Held<N> = Arc::new(alloc, Mutex::new(None))?;
    let row = Arc::try_clone(&held)?;
    let mut live = LiveSession::<N>::open(alloc, session, create, now, bell)?;
    let table = live.sign();
    let place = book.add_session(register, table, row)?;
    let mut live = live.at(place);
    let sight = live.tell_first(alloc, register, start, again);
    *held.lock(rt) = Some(live);
    let seen = Testimony { held, sight };
    Ok(Opened {
        session,
        epoch: 1,
        seen,
    })
}
