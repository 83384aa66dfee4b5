//! A server with its guests, and tables of calls on it with their answers.
//!
//! A line of a table is a call and its answer, with ` > ` between them. Guests are numbered from 0, in the order of
//! their first streams. `open PARAMS` and `bind PARAMS` answer a stream's epoch, `ask GUEST PARAMS` does an operation by
//! what the guest has seen, `request PARAMS` by what there is to be seen of the session named. `pub ITEM SEQ EVENT`
//! answers the event's number. `take GUEST TIMES` answers the lines and what came in place of a further one.
//!
//! A call that was refused memory leaves all as it was, so it is made again: it then answers what the table says.
ghost use Rattle.std.specs.Prelude.{◌≡◌, ◌≤◌, true};
ghost use Rattle.ls_config.specs.Items.{are_items};
ghost use Rattle.ls_value.specs.declared.limits.TheConstants.{GREATEST_TICK};

use ls_config::{Config, read as read_config};
use ls_guest::{
    Guest, Lost, PublishRefused, Refusal, Shared, Turn, bind_of, control_of, create_of, number,
    publish_text,
};
use ls_line::LineBuf;
use ls_outside::OpenGate;
use ls_record::message_of;
use ls_register::{Blank, House, View};
use ls_value::{GREATEST_TICK, NoMemory};
use std::alloc::{AllocError, Global};
use std::marker::Brand;
use std::str;
use std::sync::Wait;
use std::test::Fail;

/// The answer to a call that was refused memory.
const MEMORY: &str = "memory";

/// A server, its guests, and the tick, in ms.
#[derive(Drop)]
pub struct World<N: House> {
    alloc: Global,
    shared: Shared<N>,
    view: View<N>,
    guests: Vec<Guest<N>>,
    now: u64,
    into: LineBuf,
    ghost tick: { now ≤ GREATEST_TICK },
}

/// A word as an answer.
fn word(alloc: Global, word: &str) -> Result<String, AllocError> {
    String::from_str(alloc, word)
}

/// A refusal in words.
fn refused(alloc: Global, refusal: Refusal) -> Result<String, AllocError> {
    match refusal {
        Refusal::NoMemory => word(alloc, MEMORY),
        Refusal::Code(code) => format!(in alloc; "{code} {}", message_of(code)),
    }
}

/// What an offer answers, in words.
fn offered(
    alloc: Global,
    answer: Option<Result<u64, PublishRefused>>,
) -> Result<String, AllocError> {
    let Some(answer) = answer else {
        return word(alloc, "no event");
    };
    match answer {
        Ok(number) => format!(in alloc; "{number}"),
        Err(PublishRefused::Repeated { last }) => format!(in alloc; "repeated {last}"),
        Err(PublishRefused::NoMemory) => word(alloc, MEMORY),
        Err(_) => word(alloc, "refused"),
    }
}

/// What a loss comes to, in words.
fn lost(alloc: Global, lost: Lost) -> Result<String, AllocError> {
    match lost {
        Lost::Unbound => word(alloc, "lost"),
        Lost::Superseded { epoch } => format!(in alloc; "superseded {epoch}"),
        Lost::NotBound => word(alloc, "unbound"),
    }
}

/// A turn that gives no line, in words.
fn quiet(alloc: Global, turn: Turn) -> Result<String, AllocError> {
    match turn {
        Turn::Idle => word(alloc, "-idle"),
        Turn::NotDue { at } => format!(in alloc; "-notdue {at}"),
        Turn::Ended { code } => format!(in alloc; "-ended {code}"),
        Turn::Superseded { epoch } => format!(in alloc; "-superseded {epoch}"),
        Turn::Unbound => word(alloc, "-unbound"),
        Turn::Spent => word(alloc, "-spent"),
        Turn::Ask(_) => word(alloc, "-ask"),
        Turn::Send => word(alloc, "-send"),
    }
}

impl<N: House> World<N> {
    /// A server of a config, without guests, at tick 0.
    fn new<R: Wait>(rt: &R, alloc: Global, blank: Blank, config: Config) -> Result<World<N>, Fail>
        requires register { blank.register ≡ N.deed.register }
        requires set { config.set ≡ N.deed.set }
        requires config { config.items ≡ N.deed.config }
        requires items { are_items config.items ≡ true }
    {
        let into = LineBuf::new(alloc)?;
        let shared = Shared::<N>::new(alloc, blank, config)?;
        let view = shared.view(rt);
        Ok(World {
            alloc,
            shared,
            view,
            guests: Vec::new(alloc),
            now: 0,
            into,
        })
    }

    /// A new guest: its epoch, or why there is none.
    fn welcome(&mut self, guest: Result<Guest<N>, Refusal>) -> Result<String, AllocError> {
        match guest {
            Err(refusal) => refused(self.alloc, refusal),
            Ok(guest) => {
                let epoch = guest.epoch();
                self.guests.push(guest)?;
                format!(in self.alloc; "{epoch}")
            }
        }
    }

    /// Opens a session.
    fn open<R: Wait>(&mut self, rt: &R, params: &str) -> Result<String, AllocError> {
        let guest = self.opened(rt, params);
        self.welcome(guest)
    }

    /// The guest of a session that is opened.
    fn opened<R: Wait>(&mut self, rt: &R, params: &str) -> Result<Guest<N>, Refusal> {
        match self.opened_once(rt, params) {
            Err(Refusal::NoMemory) => self.opened_once(rt, params),
            opened => opened,
        }
    }

    /// The guest of a session that is opened, unless memory is refused.
    fn opened_once<R: Wait>(&mut self, rt: &R, params: &str) -> Result<Guest<N>, Refusal> {
        let create = create_of(self.alloc, params)?;
        Guest::open(rt, &self.shared, &create, self.now, &mut self.view)
    }

    /// Opens so many sessions, of which nobody keeps what was seen: how many were opened.
    fn crowd<R: Wait>(&mut self, rt: &R, times: u64) -> Result<String, AllocError> {
        let mut opened: u64 = 0;
        for _ in 0..times {
            if self.opened(rt, "").is_ok() {
                opened = opened.saturating_add(1);
            }
        }
        format!(in self.alloc; "{opened}")
    }

    /// Opens so many sessions, each of which loses its stream at once: how many did.
    fn leavers<R: Wait>(&mut self, rt: &R, times: u64) -> Result<String, AllocError> {
        let mut left: u64 = 0;
        for _ in 0..times {
            if self.is_left(rt) {
                left = left.saturating_add(1);
            }
        }
        format!(in self.alloc; "{left}")
    }

    /// Whether a session is opened and its stream is lost.
    fn is_left<R: Wait>(&mut self, rt: &R) -> bool {
        let Ok(guest) = self.opened(rt, "") else {
            return false;
        };
        let mut guest = guest;
        guest.lose(rt, &self.shared, self.now) == Lost::Unbound
    }

    /// Opens so many sessions, one after another, in each of which slots of an item come and go: how many did all.
    fn comers<R: Wait>(&mut self, rt: &R, item: &str, times: u64) -> Result<String, AllocError> {
        let mut came: u64 = 0;
        for _ in 0..times {
            if self.come_and_go(rt, item).is_ok() {
                came = came.saturating_add(1);
            }
        }
        format!(in self.alloc; "{came}")
    }

    /// A session of which a slot leaves with its subscription, and another one with the session.
    fn come_and_go<R: Wait>(&mut self, rt: &R, item: &str) -> Result<(), Refusal> {
        let mut guest = self.opened(rt, "")?;
        self.do_with(
            rt,
            &mut guest,
            "LS_op=add&LS_subId=1&LS_mode=MERGE&LS_schema=x&LS_group=",
            item,
        )?;
        self.do_with(rt, &mut guest, "LS_op=delete&LS_subId=1", "")?;
        self.do_with(
            rt,
            &mut guest,
            "LS_op=add&LS_subId=2&LS_mode=MERGE&LS_schema=x&LS_group=",
            item,
        )?;
        self.do_with(rt, &mut guest, "LS_op=destroy", "")
    }

    /// Does an operation on a guest's session, whose parameters end with a word.
    fn do_with<R: Wait>(
        &self,
        rt: &R,
        guest: &mut Guest<N>,
        params: &str,
        word: &str,
    ) -> Result<(), Refusal> {
        let Ok(params) = format!(in self.alloc; "LS_reqId=1&{params}{word}") else {
            return Err(Refusal::NoMemory);
        };
        let control = control_of(self.alloc, params.as_str())?;
        guest.control(rt, &self.shared, &control.op, self.now)
    }

    /// Binds a stream of a session.
    fn bind<R: Wait>(&mut self, rt: &R, params: &str) -> Result<String, AllocError> {
        match bind_of(self.alloc, params) {
            Err(refusal) => refused(self.alloc, refusal),
            Ok(bind) => {
                let guest = Guest::bind(rt, &self.shared, &bind, self.now, &mut self.view);
                self.welcome(guest)
            }
        }
    }

    /// What a guest binds a further stream by: its epoch, or why there is none.
    fn rebind<R: Wait>(&mut self, rt: &R, who: usize, recover: &str) -> Result<String, AllocError> {
        let recover = recover.parse::<u64>().ok();
        let Some(guest) = self.guests.get_mut(who) else {
            return word(self.alloc, "nobody");
        };
        match guest.rebind(rt, &self.shared, recover, self.now) {
            Ok(epoch) => format!(in self.alloc; "{epoch}"),
            Err(refusal) => refused(self.alloc, refusal),
        }
    }

    /// What an operation answers, in words.
    fn done(&self, answer: Result<(), Refusal>) -> Result<String, AllocError> {
        match answer {
            Ok(()) => word(self.alloc, "ok"),
            Err(refusal) => refused(self.alloc, refusal),
        }
    }

    /// Does an operation on a guest's session.
    fn ask<R: Wait>(&mut self, rt: &R, who: usize, params: &str) -> Result<String, AllocError> {
        let answer = self.asked(rt, who, params);
        self.done(answer)
    }

    /// What an operation on a guest's session answers.
    fn asked<R: Wait>(&mut self, rt: &R, who: usize, params: &str) -> Result<(), Refusal> {
        let control = control_of(self.alloc, params)?;
        match self.guests.get_mut(who) {
            Some(guest) => guest.control(rt, &self.shared, &control.op, self.now),
            None => Err(Refusal::Code(0)),
        }
    }

    /// Does an operation on the session that it names.
    fn request<R: Wait>(&mut self, rt: &R, params: &str) -> Result<String, AllocError> {
        let answer = self.requested(rt, params);
        self.done(answer)
    }

    /// What an operation on the session that it names answers.
    fn requested<R: Wait>(&mut self, rt: &R, params: &str) -> Result<(), Refusal> {
        let control = control_of(self.alloc, params)?;
        let session = control.session.unwrap_or(0);
        let Some(seen) = self.shared.testify(rt, session, &mut self.view)? else {
            return Err(Refusal::Code(20));
        };
        let mut seen = seen;
        self.shared
            .control(rt, session, &control.op, self.now, &mut seen)
    }

    /// Whether there is something to be seen of a session.
    fn seen<R: Wait>(&mut self, rt: &R, session: u64) -> Result<String, AllocError> {
        match self.shared.testify(rt, session, &mut self.view) {
            Ok(Some(_seen)) => word(self.alloc, "yes"),
            Ok(None) => word(self.alloc, "no"),
            Err(NoMemory) => word(self.alloc, MEMORY),
        }
    }

    /// A turn of a guest's newest stream.
    fn turn<R: Wait>(&mut self, rt: &R, who: usize) -> Result<Turn, NoMemory> {
        match self.turn_once(rt, who) {
            Err(NoMemory) => self.turn_once(rt, who),
            turn => turn,
        }
    }

    /// A turn of a guest's newest stream, unless memory is refused.
    fn turn_once<R: Wait>(&mut self, rt: &R, who: usize) -> Result<Turn, NoMemory> {
        match self.guests.get_mut(who) {
            Some(guest) => guest.take(rt, &self.shared, self.now, &mut self.into, &OpenGate),
            None => Ok(Turn::Unbound),
        }
    }

    /// The line that was given last.
    fn line(&self) -> &str {
        str::from_utf8(self.into.text()).unwrap_or("?")
    }

    /// Takes so many times, or until there is no line: the lines, and what came in place of one.
    fn take<R: Wait>(&mut self, rt: &R, who: usize, times: u64) -> Result<String, AllocError> {
        let mut said = String::new(self.alloc);
        for _ in 0..times {
            if !said.is_empty() {
                said.push_str(" / ")?;
            }
            if !self.say(rt, who, &mut said)? {
                break;
            }
        }
        Ok(said)
    }

    /// Adds what one turn comes to, and answers whether it gave a line.
    fn say<R: Wait>(&mut self, rt: &R, who: usize, said: &mut String) -> Result<bool, AllocError> {
        match self.turn(rt, who) {
            Ok(Turn::Send) => {
                said.push_str(self.line())?;
                Ok(true)
            }
            Ok(turn) => {
                said.push_str(quiet(self.alloc, turn)?.as_str())?;
                Ok(false)
            }
            Err(NoMemory) => {
                said.push_str("-memory")?;
                Ok(false)
            }
        }
    }

    /// Offers events of seqs up to one, with that text for the field `x`, each taken by the first guest at once: how
    /// many were told so.
    fn many<R: Wait>(&mut self, rt: &R, name: &str, last: u64) -> Result<String, AllocError> {
        let mut told: u64 = 0;
        for seq in 0..last {
            if self.is_told(rt, name, seq + 1)? {
                told = told.saturating_add(1);
            }
        }
        format!(in self.alloc; "{told}")
    }

    /// Offers an event, and answers whether the first guest is told.
    fn is_told<R: Wait>(&mut self, rt: &R, name: &str, seq: u64) -> Result<bool, AllocError> {
        let answer = self.offer(rt, name, seq)?;
        let line = format!(in self.alloc; "U,1,1,{seq}")?;
        Ok(
            answer == Some(Ok(seq))
                && self.turn(rt, 0) == Ok(Turn::Send)
                && self.line() == line.as_str(),
        )
    }

    /// Offers so many events with no turn between them: the answer to the last one.
    fn pile<R: Wait>(&mut self, rt: &R, name: &str, last: u64) -> Result<String, AllocError> {
        let mut answer = None;
        for seq in 0..last {
            answer = self.offer(rt, name, seq + 1)?;
        }
        offered(self.alloc, answer)
    }

    /// Offers an event of this seq, with that text for the field `x`.
    fn offer<R: Wait>(
        &self,
        rt: &R,
        name: &str,
        seq: u64,
    ) -> Result<Option<Result<u64, PublishRefused>>, AllocError> {
        let text = format!(in self.alloc; "x={seq}")?;
        Ok(self.told(rt, name, seq, text.as_str()))
    }

    /// What an offer answers.
    fn told<R: Wait>(
        &self,
        rt: &R,
        name: &str,
        seq: u64,
        text: &str,
    ) -> Option<Result<u64, PublishRefused>> {
        match publish_text(rt, self.alloc, &self.shared, name, seq, text) {
            Some(Err(PublishRefused::NoMemory)) => {
                publish_text(rt, self.alloc, &self.shared, name, seq, text)
            }
            told => told,
        }
    }

    /// Offers an event.
    fn publish<R: Wait>(
        &self,
        rt: &R,
        name: &str,
        seq: u64,
        text: &str,
    ) -> Result<String, AllocError> {
        offered(self.alloc, self.told(rt, name, seq, text))
    }

    /// Whether the bell of a guest's session has rung since this was asked last.
    fn has_rung(&mut self, who: usize) -> Result<String, AllocError> {
        match self.guests.get_mut(who) {
            Some(guest) => word(self.alloc, if guest.has_rung() { "yes" } else { "no" }),
            None => word(self.alloc, "nobody"),
        }
    }

    /// A guest sees what a new pass of the first item has seen.
    fn meet<R: Wait>(&mut self, rt: &R, who: usize) -> Result<String, AllocError> {
        if self.shared.config().items.is_empty() {
            return word(self.alloc, "no item");
        }
        let mut pass = self.shared.pass(rt, 0, 1);
        if let Some(guest) = self.guests.get_mut(who) {
            guest.meet(&self.shared, &mut pass);
        }
        word(self.alloc, "ok")
    }

    /// A guest's stream is lost.
    fn lose<R: Wait>(&mut self, rt: &R, who: usize) -> Result<String, AllocError> {
        match self.guests.get_mut(who) {
            Some(guest) => lost(self.alloc, guest.lose(rt, &self.shared, self.now)),
            None => word(self.alloc, "nobody"),
        }
    }

    /// Ends the sessions that are without a stream for too long.
    fn sweep<R: Wait>(&mut self, rt: &R) -> Result<String, AllocError> {
        match self.shared.sweep(rt, self.now) {
            Ok(()) => word(self.alloc, "ok"),
            Err(NoMemory) => word(self.alloc, MEMORY),
        }
    }

    /// Sets the tick.
    fn tick(&mut self, now: u64) -> Result<String, AllocError> {
        self.now = now.min(GREATEST_TICK);
        word(self.alloc, "ok")
    }

    /// The answer to a call that a line says.
    fn answer<R: Wait>(&mut self, rt: &R, call: &str) -> Result<String, AllocError> {
        let mut words = call.split(' ');
        let name = words.next().unwrap_or("");
        let first = words.next().unwrap_or("");
        let second = words.next().unwrap_or("");
        let third = words.next().unwrap_or("");
        match name {
            "pub" => self.publish(rt, first, number(second), third),
            "many" => self.many(rt, first, number(second)),
            "pile" => self.pile(rt, first, number(second)),
            name => self.session_answer(rt, name, first, second),
        }
    }

    /// The answer to a call on sessions.
    fn session_answer<R: Wait>(
        &mut self,
        rt: &R,
        name: &str,
        first: &str,
        second: &str,
    ) -> Result<String, AllocError> {
        let who = number(first) as usize;
        match name {
            "open" => self.open(rt, first),
            "crowd" => self.crowd(rt, number(first)),
            "leavers" => self.leavers(rt, number(first)),
            "comers" => self.comers(rt, first, number(second)),
            "bind" => self.bind(rt, first),
            "rebind" => self.rebind(rt, who, second),
            "ask" => self.ask(rt, who, second),
            "request" => self.request(rt, first),
            "seen" => self.seen(rt, number(first)),
            "take" => self.take(rt, who, number(second)),
            "lose" => self.lose(rt, who),
            "meet" => self.meet(rt, who),
            "rung" => self.has_rung(who),
            "sweep" => self.sweep(rt),
            "tick" => self.tick(number(first)),
            name => word(self.alloc, name),
        }
    }

    /// The answer to a call that a line says, made again where memory was refused.
    fn answer_at_last<R: Wait>(&mut self, rt: &R, call: &str) -> Result<String, AllocError> {
        let answer = self.answer(rt, call)?;
        if answer.as_str() == MEMORY {
            return self.answer(rt, call);
        }
        Ok(answer)
    }

    /// The first line of a table whose answer is another one, with that answer; nothing where there is none.
    fn first_other<R: Wait>(&mut self, rt: &R, table: &str) -> Result<String, AllocError> {
        for case in table.lines() {
            let call = case.split(" > ").next().unwrap_or("");
            let answer = self.answer_at_last(rt, call)?;
            let told = format!(in self.alloc; "{call} > {}", answer.as_str())?;
            if told.as_str() != case {
                return Ok(told);
            }
        }
        Ok(String::new(self.alloc))
    }
}

/// Calls a new server of a config by a table.
fn other_in<N: House, R: Wait>(
    rt: &R,
    alloc: Global,
    blank: Blank,
    config: Config,
    table: &[u8],
) -> Result<String, Fail>
    requires register { blank.register ≡ N.deed.register }
    requires set { config.set ≡ N.deed.set }
    requires config { config.items ≡ N.deed.config }
    requires items { are_items config.items ≡ true }
{
    let mut world = World::<N>::new(rt, alloc, blank, config)?;
    Ok(world.first_other(rt, str::from_utf8(table).unwrap_or("?"))?)
}

/// The first line of a table that a new server of these items answers otherwise, with that answer; nothing where there
/// is none.
pub fn other_answer<R: Wait>(
    rt: &R,
    alloc: Global,
    items: &[u8],
    table: &str,
) -> Result<String, Fail> {
    let config = read_config(alloc, items)?;
    let blank = Blank::new(alloc)?;
    other_in::<Brand, R>(rt, alloc, blank, config, table.as_bytes())
}
