//! A server by its calls, each made again where it is refused memory.
//!
//! Clients are numbered from 0, in the order in which they come. `open PARAMS` answers a stream's epoch, `ask CLIENT
//! PARAMS` does an operation on a client's session, and `fill CLIENT TIMES PARAMS` adds so many subscriptions, from the
//! number 101 on: how many were added. `pub ITEM SEQ EVENT` answers the event's number, and `pile ITEM LAST` offers
//! events up to a seq: the answer to the last one. `take CLIENT TIMES` answers the lines and what came in place of a
//! further one.
ghost use Rattle.std.specs.Prelude.{◌≡◌, true};
ghost use Rattle.ls_config.specs.Items.{are_items};

use crate::failed::Failed;
use ls_config::{Config, read};
use ls_guest::{Guest, control_of, create_of, number, publish_text};
use ls_line::LineBuf;
use ls_outside::OpenGate;
use ls_record::message_of;
use ls_register::{Blank, House, View};
use ls_shared::{PublishRefused, Refusal, Shared, Turn};
use ls_value::NoMemory;
use std::alloc::{AllocError, Global};
use std::marker::Brand;
use std::str;
use std::sync::Wait;

/// The tick of each call.
const TICK: u64 = 0;

/// The number of the first subscription of many.
const FIRST: u64 = 101;

/// A server and its clients.
#[derive(Drop)]
struct Calling<N: House> {
    alloc: Global,
    shared: Shared<N>,
    view: View<N>,
    clients: Vec<Guest<N>>,
    into: LineBuf,
}

/// A word as an answer.
fn word(alloc: Global, word: &str) -> Result<String, AllocError> {
    String::from_str(alloc, word)
}

/// A refusal in words.
fn refused(alloc: Global, refusal: Refusal) -> Result<String, AllocError> {
    match refusal {
        Refusal::NoMemory => word(alloc, "memory"),
        Refusal::Code(code) => format!(in alloc; "{code} {}", message_of(code)),
    }
}

/// What an offer answers, in words.
fn offered(
    alloc: Global,
    answer: Option<Result<u64, PublishRefused>>,
) -> Result<String, AllocError> {
    let Some(answer) = answer else {
        return word(alloc, "no event");
    };
    match answer {
        Ok(number) => format!(in alloc; "{number}"),
        Err(PublishRefused::Repeated { last }) => format!(in alloc; "repeated {last}"),
        Err(PublishRefused::NoMemory) => word(alloc, "memory"),
        Err(_) => word(alloc, "refused"),
    }
}

/// A turn that gives no line, in words.
fn quiet(alloc: Global, turn: Turn) -> Result<String, AllocError> {
    match turn {
        Turn::Idle => word(alloc, "-idle"),
        Turn::NotDue { at } => format!(in alloc; "-notdue {at}"),
        Turn::Ended { code } => format!(in alloc; "-ended {code}"),
        Turn::Superseded { epoch } => format!(in alloc; "-superseded {epoch}"),
        Turn::Unbound => word(alloc, "-unbound"),
        Turn::Spent => word(alloc, "-spent"),
        Turn::Ask(_) => word(alloc, "-ask"),
        Turn::Send => word(alloc, "-send"),
    }
}

impl<N: House> Calling<N> {
    /// A server of a config, without clients.
    fn new<R: Wait>(
        rt: &R,
        alloc: Global,
        blank: Blank,
        config: Config,
    ) -> Result<Calling<N>, Failed>
        requires register { blank.register ≡ N.deed.register }
        requires set { config.set ≡ N.deed.set }
        requires config { config.items ≡ N.deed.config }
        requires items { are_items config.items ≡ true }
    {
        let into = LineBuf::new(alloc)?;
        let shared = Shared::<N>::new(alloc, blank, config)?;
        let view = shared.view(rt);
        Ok(Calling {
            alloc,
            shared,
            view,
            clients: Vec::new(alloc),
            into,
        })
    }

    /// Opens a session: its epoch, or why there is none.
    fn open<R: Wait>(&mut self, rt: &R, params: &str) -> Result<String, AllocError> {
        let opened = match self.opened(rt, params) {
            Err(Refusal::NoMemory) => self.opened(rt, params),
            opened => opened,
        };
        match opened {
            Err(refusal) => refused(self.alloc, refusal),
            Ok(client) => {
                let epoch = client.epoch();
                self.clients.push(client)?;
                format!(in self.alloc; "{epoch}")
            }
        }
    }

    /// The client of a session that is opened, unless memory is refused.
    fn opened<R: Wait>(&mut self, rt: &R, params: &str) -> Result<Guest<N>, Refusal> {
        let create = create_of(self.alloc, params)?;
        Guest::open(rt, &self.shared, &create, TICK, &mut self.view)
    }

    /// What an operation on a client's session answers.
    fn asked<R: Wait>(&mut self, rt: &R, who: usize, params: &str) -> Result<(), Refusal> {
        match self.asked_once(rt, who, params) {
            Err(Refusal::NoMemory) => self.asked_once(rt, who, params),
            answer => answer,
        }
    }

    /// What an operation on a client's session answers, the first time.
    fn asked_once<R: Wait>(&mut self, rt: &R, who: usize, params: &str) -> Result<(), Refusal> {
        let control = control_of(self.alloc, params)?;
        match self.clients.get_mut(who) {
            Some(client) => client.control(rt, &self.shared, &control.op, TICK),
            None => Err(Refusal::Code(0)),
        }
    }

    /// Does an operation on a client's session.
    fn ask<R: Wait>(&mut self, rt: &R, who: usize, params: &str) -> Result<String, AllocError> {
        match self.asked(rt, who, params) {
            Ok(()) => word(self.alloc, "ok"),
            Err(refusal) => refused(self.alloc, refusal),
        }
    }

    /// Adds so many subscriptions to a client's session: how many were added.
    fn fill<R: Wait>(
        &mut self,
        rt: &R,
        who: usize,
        times: u64,
        params: &str,
    ) -> Result<String, AllocError> {
        let mut added: u64 = 0;
        for i in 0..times {
            let sub = FIRST.saturating_add(i);
            let params = format!(in self.alloc; "LS_reqId=1&LS_op=add&LS_subId={sub}&{params}")?;
            if self.asked(rt, who, params.as_str()).is_ok() {
                added = added.saturating_add(1);
            }
        }
        format!(in self.alloc; "{added}")
    }

    /// What an offer answers.
    fn told<R: Wait>(
        &self,
        rt: &R,
        name: &str,
        seq: u64,
        text: &str,
    ) -> Option<Result<u64, PublishRefused>> {
        match publish_text(rt, self.alloc, &self.shared, name, seq, text) {
            Some(Err(PublishRefused::NoMemory)) => {
                publish_text(rt, self.alloc, &self.shared, name, seq, text)
            }
            told => told,
        }
    }

    /// Offers events of seqs up to one, with that text for the field `x`: the answer to the last one.
    fn pile<R: Wait>(&mut self, rt: &R, name: &str, last: u64) -> Result<String, AllocError> {
        let mut answer = None;
        for seq in 0..last {
            let seq = seq + 1;
            let text = format!(in self.alloc; "x={seq}")?;
            answer = self.told(rt, name, seq, text.as_str());
        }
        offered(self.alloc, answer)
    }

    /// A turn of a client's stream.
    fn turn<R: Wait>(&mut self, rt: &R, who: usize) -> Result<Turn, NoMemory> {
        match self.turn_once(rt, who) {
            Err(NoMemory) => self.turn_once(rt, who),
            turn => turn,
        }
    }

    /// A turn of a client's stream, unless memory is refused.
    fn turn_once<R: Wait>(&mut self, rt: &R, who: usize) -> Result<Turn, NoMemory> {
        match self.clients.get_mut(who) {
            Some(client) => client.take(rt, &self.shared, TICK, &mut self.into, &OpenGate),
            None => Ok(Turn::Unbound),
        }
    }

    /// The line that was given last.
    fn line(&self) -> &str {
        str::from_utf8(self.into.text()).unwrap_or("?")
    }

    /// Takes so many times, or until there is no line: the lines, and what came in place of one.
    fn take<R: Wait>(&mut self, rt: &R, who: usize, times: u64) -> Result<String, AllocError> {
        let mut said = String::new(self.alloc);
        for _ in 0..times {
            if !said.is_empty() {
                said.push_str(" / ")?;
            }
            if !self.say(rt, who, &mut said)? {
                break;
            }
        }
        Ok(said)
    }

    /// Adds what one turn comes to, and answers whether it gave a line.
    fn say<R: Wait>(&mut self, rt: &R, who: usize, said: &mut String) -> Result<bool, AllocError> {
        match self.turn(rt, who) {
            Ok(Turn::Send) => {
                said.push_str(self.line())?;
                Ok(true)
            }
            Ok(turn) => {
                said.push_str(quiet(self.alloc, turn)?.as_str())?;
                Ok(false)
            }
            Err(NoMemory) => {
                said.push_str("memory")?;
                Ok(false)
            }
        }
    }

    /// The answer to a call.
    fn answer<R: Wait>(&mut self, rt: &R, call: &str) -> Result<String, AllocError> {
        let mut words = call.split(' ');
        let name = words.next().unwrap_or("");
        let first = words.next().unwrap_or("");
        let second = words.next().unwrap_or("");
        let third = words.next().unwrap_or("");
        let who = number(first) as usize;
        match name {
            "open" => self.open(rt, first),
            "ask" => self.ask(rt, who, second),
            "fill" => self.fill(rt, who, number(second), third),
            "pub" => offered(self.alloc, self.told(rt, first, number(second), third)),
            "pile" => self.pile(rt, first, number(second)),
            "take" => self.take(rt, who, number(second)),
            name => word(self.alloc, name),
        }
    }

    /// The answers to calls, each a line.
    fn answers<R: Wait>(&mut self, rt: &R, calls: &str) -> Result<String, AllocError> {
        let mut out = String::new(self.alloc);
        for call in calls.lines() {
            out.push_str(self.answer(rt, call)?.as_str())?;
            out.push('\n')?;
        }
        Ok(out)
    }
}

/// Calls a new server of a config.
fn answers_in<N: House, R: Wait>(
    rt: &R,
    alloc: Global,
    blank: Blank,
    config: Config,
    calls: &[u8],
) -> Result<String, Failed>
    requires register { blank.register ≡ N.deed.register }
    requires set { config.set ≡ N.deed.set }
    requires config { config.items ≡ N.deed.config }
    requires items { are_items config.items ≡ true }
{
    let mut calling = Calling::<N>::new(rt, alloc, blank, config)?;
    Ok(calling.answers(rt, str::from_utf8(calls).unwrap_or("?"))?)
}

/// What a new server of these items answers to these calls, each a line.
pub(crate) fn answers<R: Wait>(
    rt: &R,
    alloc: Global,
    items: &[u8],
    calls: &[u8],
) -> Result<String, Failed> {
    let config = read(alloc, items)?;
    let blank = Blank::new(alloc)?;
    answers_in::<Brand, R>(rt, alloc, blank, config, calls)
}
