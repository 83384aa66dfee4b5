//! A client of a session whose streams are lost and bound at random, and what it decodes.
//!
//! Event n of the item `q` sets `a` to n, and `b` too where 3 divides n. Event n of the item `k` is of the key `k` with
//! the rest of n by 5: it deletes the key where 7 divides n, and else sets `qty` to n. So a row says of which event it
//! is, and what the item's state was after it.
ghost use Rattle.std.specs.Prelude.{◌≤◌};
ghost use Rattle.ls_value.specs.declared.limits.TheConstants.{GREATEST_TICK};

use ls_guest::{Guest, Lost, Shared, Turn, number, row_text};
use ls_line::{Line, LineBuf, counts, read};
use ls_mirror::{Client, Table};
use ls_outside::OpenGate;
use ls_register::House;
use ls_value::{NoMemory, Row};
use std::alloc::{AllocError, Global};
use std::str;
use std::sync::Wait;

/// The number of keys of the item `k`.
pub const KEYS: u64 = 5;

/// The state of the item `q` after its event n.
fn state_of_q(alloc: Global, n: u64) -> Result<String, AllocError> {
    if n < 3 {
        return format!(in alloc; "{n}|#");
    }
    format!(in alloc; "{n}|{}", n - n % 3)
}

/// The own row of event n of the item `q`.
fn own_row_of_q(alloc: Global, n: u64) -> Result<String, AllocError> {
    if n % 3 == 0 {
        return format!(in alloc; "{n}|{n}");
    }
    format!(in alloc; "{n}|#")
}

/// The own row of event n of the item `k`.
fn own_row_of_k(alloc: Global, n: u64) -> Result<String, AllocError> {
    if n % 7 == 0 {
        return format!(in alloc; "k{}|DELETE|#", n % KEYS);
    }
    format!(in alloc; "k{}|ADD|{n}", n % KEYS)
}

/// The row that a client keeps of a key of the item `k` after event n of that key; nothing where it was deleted.
fn kept_row_of_k(alloc: Global, n: u64) -> Result<String, AllocError> {
    if n == 0 || n % 7 == 0 {
        return String::from_str(alloc, "");
    }
    format!(in alloc; "k{}|#|{n}", n % KEYS)
}

/// The words of a row; nothing where there is none.
fn words_of(alloc: Global, row: Option<&Row>) -> Result<String, NoMemory> {
    match row {
        Some(row) => row_text(alloc, row),
        None => Ok(String::from_str(alloc, "")?),
    }
}

/// The word at a place of words between bars.
fn word_at(words: &str, place: usize) -> &str {
    words.split('|').nth(place).unwrap_or("")
}

/// The last event of a key of the item `k`, by the number of its last event; 0 where there is none.
fn last_of_key(key: u64, last: u64) -> u64 {
    for back in 0..KEYS {
        let n = last.saturating_sub(back);
        if n % KEYS == key {
            return n;
        }
    }
    0
}

/// A client of a session with four subscriptions: 1 is of `q` in MERGE, 2 of `k` in COMMAND, 3 and 4 of both in RAW.
#[derive(Drop)]
pub struct Taker<N: House> {
    alloc: Global,
    guest: Guest<N>,
    into: LineBuf,
    client: Client,
    /// The numbered lines, in order.
    lines: Vec<String>,
    /// How many of them came before the next line of the newest stream.
    at: usize,
    /// The event at which the table in MERGE stands, and each key's row.
    merged: u64,
    keys: [u64; KEYS as usize],
    /// How many events were lost in RAW.
    lost: u64,
    /// How many lines came again.
    again: u64,
    /// How many acts it has in a round.
    acts: u64,
    random: u64,
    /// What went wrong first.
    fault: &'static str,
}

impl<N: House> Taker<N> {
    /// A taker of a session that nothing was taken of yet, with so many acts in a round.
    pub fn new(alloc: Global, guest: Guest<N>, acts: u64) -> Result<Taker<N>, NoMemory> {
        let into = LineBuf::new(alloc)?;
        let client = Client::new(alloc)?;
        Ok(Taker {
            alloc,
            guest,
            into,
            client,
            lines: Vec::new(alloc),
            at: 0,
            merged: 0,
            keys: [0; KEYS as usize],
            lost: 0,
            again: 0,
            acts,
            random: acts,
            fault: "",
        })
    }

    /// What went wrong first; nothing where all is well.
    pub fn fault(&self) -> &'static str {
        self.fault
    }

    /// How many events were lost in RAW, and how many lines came again.
    pub fn losses(&self) -> (u64, u64) {
        (self.lost, self.again)
    }

    /// Says what went wrong, where something did and nothing before.
    fn check(&mut self, is_well: bool, fault: &'static str) {
        if !is_well && self.fault.is_empty() {
            self.fault = fault;
        }
    }

    /// A number below a bound, by a fixed sequence.
    fn draw(&mut self, bound: u64) -> u64 {
        self.random = self
            .random
            .wrapping_mul(6_364_136_223_846_793_005)
            .wrapping_add(1_442_695_040_888_963_407);
        (self.random >> 33) % bound.max(1)
    }

    /// A round at a tick: mostly turns, and from time to time a loss or another stream.
    pub fn work<R: Wait>(&mut self, rt: &R, shared: &Shared<N>, now: u64)
        requires { now ≤ GREATEST_TICK }
    {
        for _ in 0..self.acts {
            match self.draw(24) {
                0 => self.go_on(rt, shared, now),
                1 => self.bind_again(rt, shared, now),
                2 => self.lose(rt, shared, now),
                _ => self.take(rt, shared, now),
            }
        }
    }

    /// Turns until there is nothing to give, but no more than so many.
    pub fn drain<R: Wait>(&mut self, rt: &R, shared: &Shared<N>, most: u64, now: u64)
        requires { now ≤ GREATEST_TICK }
    {
        for _ in 0..most {
            if self.turn(rt, shared, now) != Some(Turn::Send) {
                return;
            }
        }
        self.check(false, "it never gets idle");
    }

    /// A stream is lost, and another one goes on after some of the lines that came.
    fn go_on<R: Wait>(&mut self, rt: &R, shared: &Shared<N>, now: u64)
        requires { now ≤ GREATEST_TICK }
    {
        let lost = self.guest.lose(rt, shared, now);
        self.check(lost == Lost::Unbound, "a stream that wasn't bound");
        let back = self.draw(4);
        let count = (self.lines.len() as u64).saturating_sub(back);
        let epoch = self.guest.epoch();
        let bound = self.guest.rebind(rt, shared, Some(count), now);
        self.check(bound == Ok(epoch.saturating_add(1)), "no next stream");
        self.at = count as usize;
    }

    /// Another stream is bound after the lines that were given.
    fn bind_again<R: Wait>(&mut self, rt: &R, shared: &Shared<N>, now: u64)
        requires { now ≤ GREATEST_TICK }
    {
        let epoch = self.guest.epoch();
        let bound = self.guest.rebind(rt, shared, None, now);
        self.check(bound == Ok(epoch.saturating_add(1)), "no plain stream");
    }

    /// A stream is lost: there is no line, until another one is bound.
    fn lose<R: Wait>(&mut self, rt: &R, shared: &Shared<N>, now: u64)
        requires { now ≤ GREATEST_TICK }
    {
        let lost = self.guest.lose(rt, shared, now);
        self.check(lost == Lost::Unbound, "a stream that wasn't bound");
        let turn = self.guest.take(rt, shared, now, &mut self.into, &OpenGate);
        self.check(
            turn == Ok(Turn::Unbound),
            "a line of a stream that was lost",
        );
        self.bind_again(rt, shared, now);
    }

    /// A turn, whatever it gives.
    fn take<R: Wait>(&mut self, rt: &R, shared: &Shared<N>, now: u64)
        requires { now ≤ GREATEST_TICK }
    {
        let turn = self.turn(rt, shared, now);
        self.check(
            turn == Some(Turn::Send) || turn == Some(Turn::Idle),
            "another turn",
        );
    }

    /// A turn; a line that it gives is heard.
    fn turn<R: Wait>(&mut self, rt: &R, shared: &Shared<N>, now: u64) -> Option<Turn>
        requires { now ≤ GREATEST_TICK }
    {
        let turn = self
            .guest
            .take(rt, shared, now, &mut self.into, &OpenGate)
            .ok()?;
        if turn == Turn::Send && self.hear().is_err() {
            self.check(false, "no memory");
        }
        Some(turn)
    }

    /// Hears the line that was given.
    fn hear(&mut self) -> Result<(), NoMemory> {
        let Ok(line) = read(self.alloc, self.into.text()) else {
            self.check(false, "no line");
            return Ok(());
        };
        if let Line::Prog { count } = &line {
            let count = *count as usize;
            self.check(self.at == count, "another count");
        }
        if counts(&line) {
            self.count(&line)?;
        }
        Ok(())
    }

    /// Hears a numbered line: one that came before comes again as it was, and each other one is fed to the client.
    fn count(&mut self, line: &Line) -> Result<(), NoMemory> {
        let text = String::from_str(self.alloc, str::from_utf8(self.into.text()).unwrap_or("?"))?;
        self.at = self.at.saturating_add(1);
        if self.at <= self.lines.len() {
            self.again = self.again.saturating_add(1);
            let is_same = is_line(&self.lines, self.at - 1, text.as_str());
            self.check(is_same, "another line of a number");
            return Ok(());
        }
        let is_next = self.at == self.lines.len().saturating_add(1);
        self.check(is_next, "a gap before a line");
        self.lines.push(text)?;
        let is_fed = self.client.feed(line).is_ok();
        self.check(is_fed, "a line that can't be decoded");
        self.see(line)
    }

    /// Looks at the table of which a line tells.
    fn see(&mut self, line: &Line) -> Result<(), NoMemory> {
        match line {
            Line::U { sub, .. } => {
                let sub = *sub;
                self.look(sub)
            }
            Line::Ov { lost, .. } => {
                self.lost = self.lost.saturating_add(*lost);
                Ok(())
            }
            _ => Ok(()),
        }
    }

    /// Looks at the table of a subscription, of which an update came.
    fn look(&mut self, sub: u32) -> Result<(), NoMemory> {
        let Some(table) = self.client.table(sub, 1) else {
            self.check(false, "no table");
            return Ok(());
        };
        let row = words_of(self.alloc, table.last.as_ref())?;
        let told = table.updates.saturating_add(table.lost);
        match sub {
            1 => self.see_merged(row.as_str()),
            2 => self.see_keyed(row.as_str()),
            3 => self.see_own(row.as_str(), own_row_of_q(self.alloc, told)?.as_str()),
            _ => self.see_own(row.as_str(), own_row_of_k(self.alloc, told)?.as_str()),
        }
    }

    /// Looks at a row in RAW: it is that of the next event.
    fn see_own(&mut self, row: &str, own: &str) -> Result<(), NoMemory> {
        self.check(row == own, "another event in RAW");
        Ok(())
    }

    /// Looks at a row in MERGE: it is a later state.
    fn see_merged(&mut self, row: &str) -> Result<(), NoMemory> {
        let n = number(word_at(row, 0));
        let state = state_of_q(self.alloc, n)?;
        self.check(row == state.as_str(), "no state in MERGE");
        self.check(self.merged < n, "an earlier state in MERGE");
        self.merged = n;
        Ok(())
    }

    /// Looks at a row in COMMAND: it is a later state of its key.
    fn see_keyed(&mut self, row: &str) -> Result<(), NoMemory> {
        let n = number(word_at(row, 2));
        let key = word_at(row, 0);
        if word_at(row, 1) == "DELETE" {
            self.check(word_at(row, 2) == "#", "a deleted row in COMMAND");
            return Ok(());
        }
        let kept = kept_row_of_k(self.alloc, n)?;
        let told = match self.client.table(2, 1) {
            Some(table) => words_of(self.alloc, table.keys.get(key))?,
            None => String::new(self.alloc),
        };
        self.check(
            n > 0 && told.as_str() == kept.as_str(),
            "no state in COMMAND",
        );
        self.see_place((n % KEYS) as usize, n);
        Ok(())
    }

    /// A key's row is of event n.
    fn see_place(&mut self, key: usize, n: u64) {
        if key >= self.keys.len() {
            return;
        }
        let is_later = self.keys[key] < n;
        self.check(is_later, "an earlier state in COMMAND");
        self.keys[key] = n;
    }

    /// Looks at all tables, where all of so many events of each item were told.
    pub fn see_last(&mut self, last: u64) -> Result<(), NoMemory> {
        let state = state_of_q(self.alloc, last)?;
        let row = self.last_row(1)?;
        self.check(
            row.as_str() == state.as_str(),
            "not the last state in MERGE",
        );
        for key in 0..KEYS {
            self.see_last_key(key, last)?;
        }
        self.check(self.told(3) == last, "not all events of q in RAW");
        self.check(self.told(4) == last, "not all events of k in RAW");
        Ok(())
    }

    /// The words of the last row of a subscription.
    fn last_row(&self, sub: u32) -> Result<String, NoMemory> {
        match self.client.table(sub, 1) {
            Some(table) => words_of(self.alloc, table.last.as_ref()),
            None => Ok(String::new(self.alloc)),
        }
    }

    /// Looks at the row of a key.
    fn see_last_key(&mut self, key: u64, last: u64) -> Result<(), NoMemory> {
        let kept = kept_row_of_k(self.alloc, last_of_key(key, last))?;
        let name = format!(in self.alloc; "k{key}")?;
        let row = match self.client.table(2, 1) {
            Some(table) => words_of(self.alloc, table.keys.get(name.as_str()))?,
            None => String::new(self.alloc),
        };
        self.check(
            row.as_str() == kept.as_str(),
            "not the last state in COMMAND",
        );
        Ok(())
    }

    /// How many events of a subscription came or were lost.
    fn told(&self, sub: u32) -> u64 {
        match self.client.table(sub, 1) {
            Some(table) => updates_and_lost(table),
            None => 0,
        }
    }
}

/// Whether the line at a place, from 0, has this text.
fn is_line(lines: &[String], place: usize, text: &str) -> bool {
    match lines.get(place) {
        Some(line) => line.as_str() == text,
        None => false,
    }
}

/// How many updates of a table came or were lost.
fn updates_and_lost(table: &Table) -> u64 {
    table.updates.saturating_add(table.lost)
}
