//! A plain program, with which runs are compared: a session by all texts that it ever had, with one subscription of one
//! item in mode RAW.
//!
//! No two values are the same, so that each row is spelled whole. Frequency and bandwidth are unlimited, so the slot is
//! always due.
use std::alloc::{AllocError, Global};
use std::fmt::Write;

/// How many lines are kept.
const MOST_KEPT: usize = 1024;

/// How many bytes of their texts are.
const MOST_KEPT_BYTES: usize = 262_144;

/// How many lines may be unsent, and how many may be owed.
const MOST_UNSENT: usize = 512;

/// How many updates wait in mode RAW.
const MOST_WAITING: usize = 256;

/// How many events a slot may be behind its item.
const MOST_BEHIND: usize = 64;

/// After so many ms without a stream a session ends.
const MOST_UNBOUND: u64 = 30_000;

/// The content length of a stream over http where none is said.
const LENGTH: usize = 50_000_000;

/// What stands in a value behind its number, any number of times.
const LETTERS: &str = "abcdefghijklmnop";

/// The lines of a script that are drawn, each about a connection by its number.
#[derive(Clone, Copy)]
pub(crate) enum Step {
    /// A publish of a value that has the letters so many times behind its number.
    Publish {
        times: usize,
    },
    Enqueue {
        on: usize,
        times: usize,
    },
    Take {
        on: usize,
        times: usize,
    },
    Lose {
        on: usize,
    },
    /// A bind with a count, and with a content length of at least 1,000, where there are.
    Bind {
        on: usize,
        count: Option<usize>,
        length: Option<usize>,
    },
    Tick {
        tick: u64,
    },
    ForceRebind {
        on: usize,
    },
    Destroy {
        on: usize,
    },
    Reconf {
        on: usize,
    },
    Constrain {
        on: usize,
    },
}

/// How often there was what tests must not miss.
#[derive(Clone, Copy)]
pub(crate) struct Seen {
    pub(crate) recovered: u64,
    pub(crate) refused: u64,
    pub(crate) given_up: u64,
    pub(crate) looped: u64,
    pub(crate) superseded: u64,
    pub(crate) timed_out: u64,
}

/// A session, its item, the connections, and what is printed.
#[derive(Drop)]
pub(crate) struct Plain {
    alloc: Global,
    pub(crate) printed: String,
    pub(crate) seen: Seen,
    pub(crate) tick: u64,
    /// The values of all events; how many of them the slot enqueued, and how many of these were told.
    pub(crate) values: Vec<String>,
    pub(crate) enqueued: usize,
    passed: usize,
    /// The texts of all numbered lines, and the least number behind which they may all be kept; how many of them were
    /// given, and up to which they are given up.
    pub(crate) lines: Vec<String>,
    least: usize,
    pub(crate) sent: usize,
    pub(crate) given_up: usize,
    /// The texts owed to the stream, and how many of them were given.
    owed: Vec<String>,
    owed_given: usize,
    /// The number of streams so far, and the tick since which none is bound.
    pub(crate) epoch: u64,
    pub(crate) since: Option<u64>,
    /// Of the last stream: the bytes that were given, the content length, and whether it is forced to be over.
    bytes: usize,
    length: Option<usize>,
    forced: bool,
    /// The code of a session that ended, and whether its client was told.
    ended: Option<u32>,
    told: bool,
    /// The epoch that each connection holds; 0 is none.
    held: [u64; 3],
}

/// A connection's name.
pub(crate) fn name_of(on: usize) -> &'static str {
    match on {
        0 => "c",
        1 => "d",
        _ => "h",
    }
}

/// Whether it goes over http.
fn is_http(on: usize) -> bool {
    on >= 2
}

/// What a stream begins with.
fn opening(alloc: Global, count: Option<usize>) -> Result<Vec<String>, AllocError> {
    let mut owed = Vec::new(alloc);
    owed.push(String::from_str(alloc, "CONOK,S1,50000,5000,*")?)?;
    owed.push(String::from_str(alloc, "SERVNAME,tlcpd")?)?;
    owed.push(String::from_str(alloc, "CONS,unlimited")?)?;
    if let Some(count) = count {
        owed.push(format!(in alloc; "PROG,{count}")?)?;
    }
    Ok(owed)
}

/// The least number behind which all lines may be kept.
fn least_keeping(lines: &[String]) -> usize {
    let mut bytes = 0usize;
    let mut kept = 0usize;
    for line in lines.iter().rev() {
        bytes = bytes.saturating_add(line.len());
        if kept >= MOST_KEPT || bytes > MOST_KEPT_BYTES {
            break;
        }
        kept = kept.saturating_add(1);
    }
    lines.len().saturating_sub(kept)
}

/// Prints a line on a connection. Answers its bytes with CR LF.
fn print_line(printed: &mut String, on: usize, text: &str) -> Result<usize, AllocError> {
    let name = name_of(on);
    writeln!(printed, "{name}:{text}")?;
    Ok(text.len().saturating_add(2))
}

impl Plain {
    /// A session whose subscription was just added, and what the script so far prints. Its stream is the first
    /// connection's.
    pub(crate) fn new(alloc: Global) -> Result<Plain, AllocError> {
        let mut plain = Plain {
            alloc,
            printed: String::from_str(alloc, "c:REQOK,5\n")?,
            seen: Seen {
                recovered: 0,
                refused: 0,
                given_up: 0,
                looped: 0,
                superseded: 0,
                timed_out: 0,
            },
            tick: 0,
            values: Vec::new(alloc),
            enqueued: 0,
            passed: 0,
            lines: Vec::new(alloc),
            least: 0,
            sent: 0,
            given_up: 0,
            owed: opening(alloc, None)?,
            owed_given: 0,
            epoch: 1,
            since: None,
            bytes: 0,
            length: None,
            forced: false,
            ended: None,
            told: false,
            held: [1, 0, 0],
        };
        plain.number(String::from_str(alloc, "SUBOK,1,1,1")?)?;
        plain.number(String::from_str(alloc, "CONF,1,unlimited,unfiltered")?)?;
        Ok(plain)
    }

    /// The epoch that a connection holds.
    pub(crate) fn held_by(&self, on: usize) -> u64 {
        self.held.get(on).copied().unwrap_or(0)
    }

    /// Lines that aren't to be kept are given up.
    fn give_up(&mut self) {
        let most = if self.sent < self.least {
            self.sent
        } else {
            self.least
        };
        if most > self.given_up {
            self.given_up = most;
            self.seen.given_up = self.seen.given_up.saturating_add(1);
        }
    }

    /// A line is numbered.
    fn number(&mut self, text: String) -> Result<(), AllocError> {
        self.lines.push(text)?;
        self.least = least_keeping(&self.lines);
        self.give_up();
        Ok(())
    }

    /// The next line that is unsent is given.
    fn give_next(&mut self, on: usize) -> Result<(), AllocError> {
        if let Some(text) = self.lines.get(self.sent) {
            let bytes = print_line(&mut self.printed, on, text.as_str())?;
            self.bytes = self.bytes.saturating_add(bytes);
            self.sent = self.sent.saturating_add(1);
        }
        self.give_up();
        Ok(())
    }

    /// The next line that is owed is given.
    fn give_owed(&mut self, on: usize) -> Result<(), AllocError> {
        if let Some(text) = self.owed.get(self.owed_given) {
            let bytes = print_line(&mut self.printed, on, text.as_str())?;
            self.bytes = self.bytes.saturating_add(bytes);
            self.owed_given = self.owed_given.saturating_add(1);
        }
        Ok(())
    }

    /// Whether the stream is over.
    fn is_over(&self) -> bool {
        match self.length {
            Some(length) => self.forced || self.bytes >= length,
            None => self.forced,
        }
    }

    /// A turn for which nothing is owed and nothing is unsent. Whether it gave a line.
    fn turn_round(&mut self, on: usize) -> Result<bool, AllocError> {
        let waiting = self.enqueued.saturating_sub(self.passed);
        if waiting == 0 {
            writeln!(self.printed, "-idle")?;
            return Ok(false);
        }
        let lost = waiting.saturating_sub(MOST_WAITING);
        if lost > 0 {
            self.passed = self.passed.saturating_add(lost);
            self.number(format!(in self.alloc; "OV,1,1,{lost}")?)?;
        } else if let Some(value) = self.values.get(self.passed) {
            let text = format!(in self.alloc; "U,1,1,{value}")?;
            self.passed = self.passed.saturating_add(1);
            self.number(text)?;
        }
        self.give_next(on)?;
        Ok(true)
    }

    /// A turn of a session that hasn't ended, on the stream that is bound. Whether it gave a line.
    fn turn_alive(&mut self, on: usize) -> Result<bool, AllocError> {
        if self.owed_given < self.owed.len() {
            self.give_owed(on)?;
            return Ok(true);
        }
        if self.is_over() {
            let _bytes = print_line(&mut self.printed, on, "LOOP,0")?;
            self.since = Some(self.tick);
            self.seen.looped = self.seen.looped.saturating_add(1);
            return Ok(true);
        }
        if self.sent < self.lines.len() {
            self.give_next(on)?;
            return Ok(true);
        }
        self.turn_round(on)
    }

    /// A turn of a session that ended for the cause of a code.
    fn turn_ended(&mut self, on: usize, code: u32) -> Result<bool, AllocError> {
        if self.told || self.since.is_some() {
            writeln!(self.printed, "-ended {code}")?;
            return Ok(false);
        }
        self.told = true;
        let _bytes = print_line(&mut self.printed, on, "END,31,Destroyed by request")?;
        Ok(true)
    }

    /// Whether a connection is without a session, or the session has a newer stream, which is printed.
    fn is_without_stream(&mut self, on: usize) -> Result<bool, AllocError> {
        let held = self.held_by(on);
        if held == 0 {
            writeln!(self.printed, "-none")?;
            return Ok(true);
        }
        if held < self.epoch {
            let epoch = self.epoch;
            self.seen.superseded = self.seen.superseded.saturating_add(1);
            writeln!(self.printed, "-superseded {epoch}")?;
            return Ok(true);
        }
        Ok(false)
    }

    /// A turn. Whether it gave a line.
    fn turn(&mut self, on: usize) -> Result<bool, AllocError> {
        if self.is_without_stream(on)? {
            return Ok(false);
        }
        if let Some(code) = self.ended {
            return self.turn_ended(on, code);
        }
        if self.since.is_some() {
            writeln!(self.printed, "-unbound")?;
            return Ok(false);
        }
        self.turn_alive(on)
    }

    /// Turns, up to the first that gives no line.
    fn take(&mut self, on: usize, times: usize) -> Result<(), AllocError> {
        for _ in 0..times {
            if !self.turn(on)? {
                return Ok(());
            }
        }
        Ok(())
    }

    /// A stream is lost.
    fn lose(&mut self, on: usize) -> Result<(), AllocError> {
        if self.is_without_stream(on)? {
            return Ok(());
        }
        if self.since.is_some() {
            return writeln!(self.printed, "-unbound");
        }
        self.since = Some(self.tick);
        writeln!(self.printed, "-lost")
    }

    /// Whether a client may go on behind so many lines.
    fn may_resume(&self, count: Option<usize>) -> bool {
        match count {
            Some(count) => count >= self.given_up && count <= self.lines.len(),
            None => true,
        }
    }

    /// A bind.
    fn bind(
        &mut self,
        on: usize,
        count: Option<usize>,
        length: Option<usize>,
    ) -> Result<(), AllocError> {
        let name = name_of(on);
        if self.ended.is_some() {
            return writeln!(self.printed, "{name}:CONERR,20,Unknown session");
        }
        if !self.may_resume(count) {
            self.seen.refused = self.seen.refused.saturating_add(1);
            return writeln!(self.printed, "{name}:CONERR,4,Recovery not possible");
        }
        if let Some(count) = count {
            self.sent = count;
            self.seen.recovered = self.seen.recovered.saturating_add(1);
        }
        self.epoch = self.epoch.saturating_add(1);
        if let Some(held) = self.held.get_mut(on) {
            *held = self.epoch;
        }
        self.begin(on, count, length)
    }

    /// A stream begins.
    fn begin(
        &mut self,
        on: usize,
        count: Option<usize>,
        length: Option<usize>,
    ) -> Result<(), AllocError> {
        self.owed = opening(self.alloc, count)?;
        self.owed_given = 0;
        self.since = None;
        self.bytes = 0;
        self.length = match length {
            _ if !is_http(on) => None,
            Some(length) => Some(length),
            None => Some(LENGTH),
        };
        self.forced = false;
        Ok(())
    }

    /// The clock goes on, and a session that was without a stream for too long ends.
    fn wait(&mut self, tick: u64) {
        self.tick = tick;
        if let Some(since) = self.since {
            if self.ended.is_none() && tick.saturating_sub(since) >= MOST_UNBOUND {
                self.ended = Some(73);
                self.seen.timed_out = self.seen.timed_out.saturating_add(1);
            }
        }
    }

    /// An event is published, unless the slot is too far behind.
    fn publish(&mut self, times: usize) -> Result<(), AllocError> {
        let behind = self.values.len().saturating_sub(self.enqueued);
        if self.ended.is_none() && behind >= MOST_BEHIND {
            return writeln!(self.printed, "-backlog 1");
        }
        let value = value_of(self.alloc, self.values.len(), times)?;
        self.values.push(value)?;
        let number = self.values.len();
        writeln!(self.printed, "-no {number}")
    }

    /// An enqueue. Whether the slot took an event.
    fn enqueue_once(&mut self, on: usize) -> Result<bool, AllocError> {
        if self.held_by(on) == 0 || self.ended.is_some() {
            writeln!(self.printed, "-noslot")?;
            return Ok(false);
        }
        if self.enqueued >= self.values.len() {
            writeln!(self.printed, "-uptodate")?;
            return Ok(false);
        }
        self.enqueued = self.enqueued.saturating_add(1);
        let number = self.enqueued;
        writeln!(self.printed, "-moved {number}")?;
        Ok(true)
    }

    /// Enqueues, up to the first that finds no event.
    fn enqueue(&mut self, on: usize, times: usize) -> Result<(), AllocError> {
        for _ in 0..times {
            if !self.enqueue_once(on)? {
                return Ok(());
            }
        }
        Ok(())
    }

    /// The answer to a control request: whether the session is there, and whether there is room.
    fn answer(&mut self, on: usize, has_room: bool) -> Result<bool, AllocError> {
        let name = name_of(on);
        if self.ended.is_some() {
            writeln!(self.printed, "{name}:REQERR,r,20,Unknown session")?;
            return Ok(false);
        }
        if !has_room {
            writeln!(self.printed, "{name}:REQERR,r,70,Too many lines waiting")?;
            return Ok(false);
        }
        writeln!(self.printed, "{name}:REQOK,r")?;
        Ok(true)
    }

    /// The stream is forced to be over.
    fn force_rebind(&mut self, on: usize) -> Result<(), AllocError> {
        if self.answer(on, true)? {
            self.forced = true;
        }
        Ok(())
    }

    /// The session is ended.
    fn destroy(&mut self, on: usize) -> Result<(), AllocError> {
        if self.answer(on, true)? {
            self.ended = Some(31);
        }
        Ok(())
    }

    /// The subscription is told its frequency again.
    fn reconf(&mut self, on: usize) -> Result<(), AllocError> {
        let has_room = self.lines.len().saturating_sub(self.sent) < MOST_UNSENT;
        if self.answer(on, has_room)? {
            self.number(String::from_str(self.alloc, "CONF,1,unlimited,unfiltered")?)?;
        }
        Ok(())
    }

    /// The session is told its bandwidth again.
    fn constrain(&mut self, on: usize) -> Result<(), AllocError> {
        let has_room = self.owed.len().saturating_sub(self.owed_given) < MOST_UNSENT;
        if self.answer(on, has_room)? {
            self.owed
                .push(String::from_str(self.alloc, "CONS,unlimited")?)?;
        }
        Ok(())
    }

    /// Does a step.
    pub(crate) fn step(&mut self, step: Step) -> Result<(), AllocError> {
        match step {
            Step::Publish { times } => self.publish(times),
            Step::Enqueue { on, times } => self.enqueue(on, times),
            Step::Take { on, times } => self.take(on, times),
            Step::Lose { on } => self.lose(on),
            Step::Bind { on, count, length } => self.bind(on, count, length),
            Step::Tick { tick } => {
                self.wait(tick);
                Ok(())
            }
            Step::ForceRebind { on } => self.force_rebind(on),
            Step::Destroy { on } => self.destroy(on),
            Step::Reconf { on } => self.reconf(on),
            Step::Constrain { on } => self.constrain(on),
        }
    }
}

/// The value that is published behind so many others: its number, and letters.
pub(crate) fn value_of(alloc: Global, others: usize, times: usize) -> Result<String, AllocError> {
    let number = others.saturating_add(1);
    let mut value = format!(in alloc; "{number}")?;
    for _ in 0..times {
        value.push_str(LETTERS)?;
    }
    Ok(value)
}
