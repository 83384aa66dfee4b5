//! A server with its guests, and tables of calls on it with their answers.
//!
//! A line of a table is a call and its answer, with ` > ` between them. `ws NAME PARAMS` and `http NAME PARAMS` do a
//! request, and answer its line; or, where a stream is opened, the session's number and the epoch. Over a WebSocket the
//! newest guest's session is the connection's. Guests are numbered from 0, in the order of their streams. `stream GUEST
//! TICKS PUTS` answers the lines that the stream gave while the clock told these ticks, why it ended, and how many ms it
//! waited; `count` of many lines how many, and the last one; `leave GUEST LOOKS` the same over a wire whose peer leaves.
//! `pub ITEM SEQ EVENT` answers the event's number. `times N CALL` makes a call so often.
ghost use Rattle.std.specs.Prelude.{◌≡◌, ◌≤◌, true};
ghost use Rattle.ls_config.specs.Items.{are_items};
ghost use Rattle.ls_value.specs.declared.limits.TheConstants.{GREATEST_TICK};

use crate::guest::Guest;
use crate::leaving::LeavingLines;
use crate::output::{NEVER, calls_of, clock_of, counted, streamed};
use ls_config::{Config, read as read_config};
use ls_conn::{Acted, PublishRefused, Seen, Shared, StreamEnd, act};
use ls_guest::{number, publish_text};
use ls_register::{Blank, House, View};
use ls_request::LinkKind;
use ls_talk::MemLines;
use ls_value::GREATEST_TICK;
use std::alloc::{AllocError, Global};
use std::marker::Brand;
use std::str;
use std::sync::Wait;
use std::test::Fail;

/// A server, its guests, what was seen over another connection, and the tick, in ms.
#[derive(Drop)]
pub struct World<N: House> {
    alloc: Global,
    shared: Shared<N>,
    view: View<N>,
    seen: Seen<N>,
    guests: Vec<Guest<N>>,
    own: Option<u64>,
    now: u64,
    ghost tick: { now ≤ GREATEST_TICK },
}

/// What a stream gave: its lines, why it ended, and how many ms it waited.
#[derive(Drop)]
struct Given {
    lines: MemLines,
    end: StreamEnd,
    waited: u64,
}

/// A word as an answer.
fn word(alloc: Global, word: &str) -> Result<String, AllocError> {
    String::from_str(alloc, word)
}

/// What came of a request, in words.
fn acted(alloc: Global, acted: Acted) -> Result<String, AllocError> {
    match acted {
        Acted::Line(text) => word(alloc, str::from_utf8(text.as_slice()).unwrap_or("?")),
        Acted::Opened { session, epoch } => format!(in alloc; "opened {session} {epoch}"),
        Acted::NoMemory => word(alloc, "memory"),
    }
}

/// What an offer answers, in words.
fn offered(
    alloc: Global,
    answer: Option<Result<u64, PublishRefused>>,
) -> Result<String, AllocError> {
    let Some(answer) = answer else {
        return word(alloc, "no event");
    };
    match answer {
        Ok(number) => format!(in alloc; "{number}"),
        Err(PublishRefused::Repeated { last }) => format!(in alloc; "repeated {last}"),
        Err(_) => word(alloc, "refused"),
    }
}

impl<N: House> World<N> {
    /// A server of a config, without guests, at tick 0.
    pub fn new<R: Wait>(
        rt: &R,
        alloc: Global,
        blank: Blank,
        config: Config,
    ) -> Result<World<N>, Fail>
        requires register { blank.register ≡ N.deed.register }
        requires set { config.set ≡ N.deed.set }
        requires config { config.items ≡ N.deed.config }
        requires items { are_items config.items ≡ true }
    {
        let shared = Shared::<N>::new(alloc, blank, config)?;
        let view = shared.view(rt);
        Ok(World {
            alloc,
            shared,
            view,
            seen: Seen::new(alloc),
            guests: Vec::new(alloc),
            own: None,
            now: 0,
        })
    }

    /// Does a request: over a new connection, where it is to open a stream.
    fn request<R: Wait>(
        &mut self,
        rt: &R,
        link: LinkKind,
        name: &str,
        params: &str,
    ) -> Result<String, AllocError> {
        match name {
            "create_session" | "bind_session" => self.welcome(rt, link, name, params),
            name => self.ask(rt, link, name, params),
        }
    }

    /// Does a request over a new connection.
    fn welcome<R: Wait>(
        &mut self,
        rt: &R,
        link: LinkKind,
        name: &str,
        params: &str,
    ) -> Result<String, AllocError> {
        let come = Guest::come(
            rt,
            self.alloc,
            &self.shared,
            link,
            name.as_bytes(),
            params.as_bytes(),
            self.now,
            &mut self.view,
        );
        match come {
            Err(answer) => acted(self.alloc, answer),
            Ok(guest) => {
                let session = guest.session();
                let epoch = guest.epoch();
                self.guests.push(guest)?;
                self.own = Some(session);
                acted(self.alloc, Acted::Opened { session, epoch })
            }
        }
    }

    /// Does a request over the connection by which all others are done.
    fn ask<R: Wait>(
        &mut self,
        rt: &R,
        link: LinkKind,
        name: &str,
        params: &str,
    ) -> Result<String, AllocError> {
        let own = match link {
            LinkKind::Http => None,
            LinkKind::Ws => self.own,
        };
        let answer = act(
            rt,
            self.alloc,
            &self.shared,
            link,
            own,
            name.as_bytes(),
            params.as_bytes(),
            self.now,
            &mut self.view,
            &mut self.seen,
        );
        acted(self.alloc, answer)
    }

    /// Of how many sessions something was seen over that connection; what was is lawful.
    fn sessions(&self) -> Result<String, AllocError> {
        self.seen.vouch();
        format!(in self.alloc; "{}", self.seen.len())
    }

    /// Gives a guest's stream.
    fn stream<R: Wait>(
        &mut self,
        rt: &R,
        who: usize,
        ticks: &str,
        puts: &str,
    ) -> Result<String, AllocError> {
        match self.give(rt, who, ticks, puts)? {
            None => word(self.alloc, "nobody"),
            Some(given) => streamed(self.alloc, given.lines.bytes(), given.end, given.waited),
        }
    }

    /// Gives a guest's stream of many lines.
    fn count<R: Wait>(&mut self, rt: &R, who: usize, ticks: &str) -> Result<String, AllocError> {
        match self.give(rt, who, ticks, "")? {
            None => word(self.alloc, "nobody"),
            Some(given) => counted(self.alloc, given.lines.bytes(), given.end, given.waited),
        }
    }

    /// What a guest's stream gives; `None` where there is no such guest.
    fn give<R: Wait>(
        &mut self,
        rt: &R,
        who: usize,
        ticks: &str,
        puts: &str,
    ) -> Result<Option<Given>, AllocError> {
        let mut lines = MemLines::new(self.alloc, calls_of(self.alloc, puts)?);
        let mut clock = clock_of(self.alloc, ticks)?;
        let Some(guest) = self.guests.get_mut(who) else {
            return Ok(None);
        };
        let end = guest.stream(rt, self.alloc, &self.shared, &mut lines, &mut clock, NEVER);
        let waited = clock.waited();
        Ok(Some(Given { lines, end, waited }))
    }

    /// Gives a guest's stream over a wire whose peer leaves after so many looks.
    fn leave<R: Wait>(&mut self, rt: &R, who: usize, looks: u64) -> Result<String, AllocError> {
        let mut lines = LeavingLines::new(self.alloc, looks);
        let mut clock = clock_of(self.alloc, "0x100")?;
        let Some(guest) = self.guests.get_mut(who) else {
            return word(self.alloc, "nobody");
        };
        let end = guest.stream(rt, self.alloc, &self.shared, &mut lines, &mut clock, NEVER);
        counted(self.alloc, lines.bytes(), end, clock.waited())
    }

    /// Gives the newest guest's stream by what was seen of its session alone. The guest leaves.
    fn stream_alone<R: Wait>(&mut self, rt: &R, ticks: &str) -> Result<String, AllocError> {
        let mut lines = MemLines::new(self.alloc, Vec::new(self.alloc));
        let mut clock = clock_of(self.alloc, ticks)?;
        let Some(guest) = self.guests.pop() else {
            return word(self.alloc, "nobody");
        };
        match guest.stream_alone(rt, self.alloc, &self.shared, &mut lines, &mut clock, NEVER) {
            None => word(self.alloc, "nothing seen"),
            Some(end) => streamed(self.alloc, lines.bytes(), end, clock.waited()),
        }
    }

    /// A guest's stream is lost.
    fn lose<R: Wait>(&mut self, rt: &R, who: usize) -> Result<String, AllocError> {
        let Some(guest) = self.guests.get_mut(who) else {
            return word(self.alloc, "nobody");
        };
        guest.lose(rt, &self.shared, self.now);
        word(self.alloc, "ok")
    }

    /// Offers an event.
    fn publish<R: Wait>(
        &self,
        rt: &R,
        name: &str,
        seq: u64,
        text: &str,
    ) -> Result<String, AllocError> {
        let answer = publish_text(rt, self.alloc, &self.shared, name, seq, text);
        offered(self.alloc, answer)
    }

    /// Offers events of seqs up to one, with that text for the field `x`, and gives no stream: the answer to the last
    /// one.
    fn pile<R: Wait>(&self, rt: &R, name: &str, last: u64) -> Result<String, AllocError> {
        let mut answer = None;
        for seq in 0..last {
            let event = format!(in self.alloc; "x={}", seq + 1)?;
            answer = publish_text(rt, self.alloc, &self.shared, name, seq + 1, event.as_str());
        }
        offered(self.alloc, answer)
    }

    /// Offers events of seqs up to one, with that text for the field `x`, each given at once by the first guest's
    /// stream: how many were.
    fn many<R: Wait>(&mut self, rt: &R, name: &str, last: u64) -> Result<String, AllocError> {
        let mut told: u64 = 0;
        for seq in 0..last {
            if self.is_told(rt, name, seq + 1)? {
                told = told.saturating_add(1);
            }
        }
        format!(in self.alloc; "{told}")
    }

    /// Offers an event, and answers whether the first guest's stream gives it.
    fn is_told<R: Wait>(&mut self, rt: &R, name: &str, seq: u64) -> Result<bool, AllocError> {
        let event = format!(in self.alloc; "x={seq}")?;
        let _ = self.publish(rt, name, seq, event.as_str())?;
        let told = self.stream(rt, 0, "0x2", "")?;
        let line = format!(in self.alloc; "U,1,1,{seq} / -stopped waited 0")?;
        Ok(told.as_str() == line.as_str())
    }

    /// Sets the tick.
    fn tick(&mut self, now: u64) -> Result<String, AllocError> {
        self.now = now.min(GREATEST_TICK);
        word(self.alloc, "ok")
    }

    /// The answer to a call that a line says, or to the last one of so many such calls.
    pub fn answer<R: Wait>(&mut self, rt: &R, call: &str) -> Result<String, AllocError> {
        match call.strip_prefix("times ") {
            Some(rest) => self.answer_times(rt, rest),
            None => self.answer_one(rt, call),
        }
    }

    /// The answer to the last one of so many calls.
    fn answer_times<R: Wait>(&mut self, rt: &R, call: &str) -> Result<String, AllocError> {
        let (times, call) = call.split_once(' ').unwrap_or(("", ""));
        let mut answer = String::new(self.alloc);
        for _ in 0..number(times) {
            answer = self.answer_one(rt, call)?;
        }
        Ok(answer)
    }

    /// The answer to a call.
    fn answer_one<R: Wait>(&mut self, rt: &R, call: &str) -> Result<String, AllocError> {
        let mut words = call.split(' ');
        let name = words.next().unwrap_or("");
        let first = words.next().unwrap_or("");
        let second = words.next().unwrap_or("");
        let third = words.next().unwrap_or("");
        match name {
            "ws" => self.request(rt, LinkKind::Ws, first, second),
            "http" => self.request(rt, LinkKind::Http, first, second),
            "pub" => self.publish(rt, first, number(second), third),
            "stream" => self.stream(rt, number(first) as usize, second, third),
            name => self.other(rt, name, first, second),
        }
    }

    /// The answer to a further call.
    fn other<R: Wait>(
        &mut self,
        rt: &R,
        name: &str,
        first: &str,
        second: &str,
    ) -> Result<String, AllocError> {
        match name {
            "count" => self.count(rt, number(first) as usize, second),
            "leave" => self.leave(rt, number(first) as usize, number(second)),
            "pile" => self.pile(rt, first, number(second)),
            "alone" => self.stream_alone(rt, first),
            "lose" => self.lose(rt, number(first) as usize),
            "many" => self.many(rt, first, number(second)),
            "sessions" => self.sessions(),
            "tick" => self.tick(number(first)),
            name => word(self.alloc, name),
        }
    }

    /// The first line of a table whose answer is another one, with that answer; nothing where there is none.
    fn first_other<R: Wait>(&mut self, rt: &R, table: &str) -> Result<String, AllocError> {
        for case in table.lines() {
            let call = case.split(" > ").next().unwrap_or("");
            let answer = self.answer(rt, call)?;
            let told = format!(in self.alloc; "{call} > {}", answer.as_str())?;
            if told.as_str() != case {
                return Ok(told);
            }
        }
        Ok(String::new(self.alloc))
    }
}

/// Calls a new server of a config by a table.
fn other_in<N: House, R: Wait>(
    rt: &R,
    alloc: Global,
    blank: Blank,
    config: Config,
    table: &[u8],
) -> Result<String, Fail>
    requires register { blank.register ≡ N.deed.register }
    requires set { config.set ≡ N.deed.set }
    requires config { config.items ≡ N.deed.config }
    requires items { are_items config.items ≡ true }
{
    let mut world = World::<N>::new(rt, alloc, blank, config)?;
    Ok(world.first_other(rt, str::from_utf8(table).unwrap_or("?"))?)
}

/// The first line of a table that a new server of these items answers otherwise, with that answer; nothing where there
/// is none.
pub fn other_answer<R: Wait>(
    rt: &R,
    alloc: Global,
    items: &[u8],
    table: &str,
) -> Result<String, Fail> {
    let config = read_config(alloc, items)?;
    let blank = Blank::new(alloc)?;
    other_in::<Brand, R>(rt, alloc, blank, config, table.as_bytes())
}
