//! Talks in memory.
ghost use Rattle.std.specs.Prelude.{◌≡◌, ◌++◌, ◌∷◌, [], drop, length, nat_lt, true, IfOk, OnOk, OnErr, Some, None, if◌then◌else◌, ◌⊎◌};
ghost use Rattle.std.specs.Str.{IsUtf8};
ghost use Rattle.std.specs.Io.KnownBytes.{Keeps};
ghost use Rattle.ls_outside.specs.Causes.{one_more};
ghost use Rattle.ls_outside.specs.Memory.{next_call};
ghost use Rattle.ls_talk.specs.Lines.{no_counts, no_lender, LogsPut, HasPutCause, PutsOf};
ghost use Rattle.ls_talk.specs.Talks.{IsMessage, HasMessageCause, LogsAnswer};
ghost use Rattle.ls_talk.specs.InMemory.{given, next_or, answer_by, answered, messages_after, IsPutBy};
ghost use Rattle.ls_talk.specs.declared.talk.Incoming.TheVariants as incoming;
ghost use Rattle.ls_talk.specs.declared.talk.Happening.TheVariants as happening;
ghost use Rattle.ls_talk.specs.declared.talk.TheConstants.{LONGEST_MESSAGE};
ghost use Rattle.ls_outside.specs.declared.call.Call.TheVariants as call_is;

use crate::calls::Calls;
use crate::line_out::{LineOut, PutRefused};
use crate::mem_lines::{bytes_going, line_of};
use crate::talk::{Happening, Incoming, LONGEST_MESSAGE, Talk};
use ls_outside::Call;
use ls_value::{Bytes, NoMemory, Text};
use std::alloc::Global;
use std::marker::Model;

/// A message that a talk in memory gives.
#[derive(Drop)]
pub enum Message {
    /// A text. One of more than [`LONGEST_MESSAGE`] bytes is given as [`Incoming::Long`].
    Text(Text),

    /// A binary message.
    Binary,

    /// A ping or a pong.
    Control,
}

/// The answer that gives a message.
fn answer_of(alloc: Global, message: &Message) -> Result<Incoming, NoMemory>
    ensures given { IfOk result (λ answer. answer ≡ given message.now) }
    ensures message { IfOk result IsMessage }
{
    match message {
        Message::Text(text) => answer_of_text(alloc, text.as_str()),
        Message::Binary => Ok(Incoming::Binary),
        Message::Control => Ok(Incoming::Control),
    }
}

/// The answer that gives a text.
fn answer_of_text(alloc: Global, text: &str) -> Result<Incoming, NoMemory>
    ensures given { IfOk result (λ answer. answer
        ≡ (if nat_lt LONGEST_MESSAGE (length text.now) then incoming.Long else incoming.Text text.now)) }
    ensures message { IfOk result IsMessage }
{
    if text.len() > LONGEST_MESSAGE {
        return Ok(Incoming::Long);
    }
    Ok(Incoming::Text(Bytes::of(alloc, text.as_bytes())?))
}

/// A talk in memory that never fails, never lacks a message and never closes: each of its counts is always 0. Contracts
/// see its log and the messages to come.
#[derive(Drop)]
pub struct PlainTalk {
    alloc: Global,
    log: Vec<Happening>,
    messages: Vec<Message>,
    at: usize,
}

impl Model for PlainTalk {
    ghost use Rattle.std.specs.Prelude.{drop, length, ◌≤◌};
    ghost use Rattle.ls_talk.specs.InMemory.{PlainTalkState};

    ghost Value = { PlainTalkState };

    ghost view = { λ t. record { log = t.log.items; messages = drop t.at t.messages.items } };

    ghost invariant = { λ t. t.at ≤ length t.messages.items };
}

impl PlainTalk {
    /// A talk that gives these messages, the first one first, and pings past the end of the list.
    pub fn new(alloc: Global, messages: Vec<Message>) -> PlainTalk
        ensures { result ≡ record { log = []; messages = messages.items } }
    {
        PlainTalk {
            alloc,
            log: Vec::new(alloc),
            messages,
            at: 0,
        }
    }

    /// What happened on it, in order.
    pub fn log(&self) -> &[Happening]
        ensures { result.now ≡ self.now.log }
    {
        &self.log
    }

    /// Whether a message is to come.
    fn has_message(&self) -> bool
        ensures { result ≡ nat_lt 0 (length self.now.messages) }
    {
        self.at < self.messages.len()
    }

    /// Notes in the log what happened.
    fn note(&mut self, happening: Happening) -> Result<(), NoMemory>
        ensures ok { OnOk result (self.new ≡ record self.old { log = self.old.log ++ happening ∷ [] }) }
        ensures err { OnErr result (self.new ≡ self.old) }
    {
        self.log.push(happening)?;
        Ok(())
    }

    /// Notes in the log that a line of this text was put, or that so many bytes of it were.
    fn note_line(&mut self, text: &[u8]) -> Result<(), NoMemory>
        ensures ok { OnOk result (self.new ≡ record self.old { log = self.old.log ++ happening.Line text.now ∷ [] }) }
        ensures err { OnErr result (self.new ≡ self.old) }
    {
        let line = Bytes::of(self.alloc, text)?;
        self.note(Happening::Line(line))
    }

    /// Notes in the log that these bytes of a line went out.
    fn note_part(&mut self, bytes: &[u8]) -> Result<(), NoMemory>
        ensures ok { OnOk result (self.new ≡ record self.old { log = self.old.log ++ happening.Part bytes.now ∷ [] }) }
        ensures err { OnErr result (self.new ≡ self.old) }
    {
        let part = Bytes::of(self.alloc, bytes)?;
        self.note(Happening::Part(part))
    }

    /// Takes the next message, which there is, and notes it.
    fn take(&mut self) -> Result<Incoming, NoMemory>
        requires { nat_lt 0 (length self.old.messages) ≡ true }
        ensures answer { IfOk result (λ answer. answer ≡ next_or incoming.Control self.old.messages) }
        ensures message { IfOk result IsMessage }
        ensures log { IfOk result (λ answer. self.new.log ≡ answered self.old.log answer) }
        ensures messages { OnOk result (self.new.messages ≡ drop 1 self.old.messages) }
        ensures err { OnErr result (self.new ≡ self.old) }
    {
        let message = &self.messages[self.at];
        let answer = answer_of(self.alloc, message)?;
        let noted = answer_of(self.alloc, message)?;
        self.note(Happening::Answer(noted))?;
        self.advance();
        Ok(answer)
    }

    /// Passes the next message, which there is.
    #[tactic(auto, using(crate::proofs::Dropped::dropped_more))]
    fn advance(&mut self)
        requires { nat_lt 0 (length self.old.messages) ≡ true }
        ensures messages { self.new.messages ≡ drop 1 self.old.messages }
        ensures log { self.new.log ≡ self.old.log }
    {
        self.at += 1;
    }
}

impl LineOut for PlainTalk {
    ghost held = { λ _. None };

    ghost log = { λ t. Some t.log };

    ghost faults = { λ _. 0 };

    ghost counts = { λ _. no_counts };

    fn put_faults(&self) -> u64 {
        0
    }

    fn put(&mut self, text: &[u8]) -> Result<(), PutRefused> {
        self.note_line(text)?;
        Ok(())
    }
}

impl Talk for PlainTalk {
    fn read_faults(&self) -> u64 {
        0
    }

    fn idles(&self) -> u64 {
        0
    }

    fn closes(&self) -> u64 {
        0
    }

    fn message(&mut self) -> Incoming
        ensures message { IsMessage result }
        ensures cause { HasMessageCause result no_counts no_counts 0 0 }
        ensures log { LogsAnswer (Some self.old.log) (Some self.new.log) result }
        ensures bytes { Keeps None None }
        ensures answer { (result ≡ next_or incoming.Control self.old.messages) ⊎ (result ≡ incoming.NoMemory) }
        ensures messages { self.new.messages ≡ messages_after call_is.Go result self.old.messages }
    {
        let answered = if self.has_message() {
            self.take()
        } else {
            self.note(Happening::Answer(Incoming::Control))
                .map(|_| Incoming::Control)
        };
        match answered {
            Ok(answer) => answer,
            Err(NoMemory) => Incoming::NoMemory,
        }
    }

    /// Nothing is held back.
    fn let_go(&mut self) -> bool {
        true
    }
}

/// A talk in memory whose reads and puts go by lists, for tests. Contracts see its log, the messages to come, how the
/// reads and the puts to come go, and its counts.
#[derive(Drop)]
pub struct MemTalk {
    plain: PlainTalk,
    reads: Calls,
    puts: Calls,
    put_faults: u64,
    read_faults: u64,
    idles: u64,
    closes: u64,
}

impl Model for MemTalk {
    ghost use Rattle.ls_talk.specs.InMemory.{TalkState};

    ghost Value = { TalkState };

    ghost view = { λ t. record {
      plain = t.plain;
      reads = t.reads;
      puts = t.puts;
      put_faults = t.put_faults;
      counts = record { faults = t.read_faults; idles = t.idles; closes = t.closes; leaves = 0 };
    } };
}

impl MemTalk {
    /// A talk that gives these messages, the first one first, and is closed past the end of the list. A call of
    /// `message` goes by `reads`, the first call by its first member: at `Fail` it fails, at `Idle` no message is there
    /// yet, and else, and past the end of the list, the next message comes. Puts go by `puts` as those of
    /// [`MemLines`](crate::MemLines).
    pub fn new(alloc: Global, messages: Vec<Message>, reads: Vec<Call>, puts: Vec<Call>) -> MemTalk
        ensures plain { result.plain ≡ record { log = []; messages = messages.items } }
        ensures calls { (result.reads ≡ reads.items) × (result.puts ≡ puts.items) }
        ensures counts { (result.counts ≡ no_counts) × (result.put_faults ≡ 0) }
    {
        MemTalk {
            plain: PlainTalk::new(alloc, messages),
            reads: Calls::of(reads),
            puts: Calls::of(puts),
            put_faults: 0,
            read_faults: 0,
            idles: 0,
            closes: 0,
        }
    }

    /// What happened on it, in order.
    pub fn log(&self) -> &[Happening]
        ensures { result.now ≡ self.now.plain.log }
    {
        self.plain.log()
    }

    /// A read that fails.
    fn fail(&mut self) -> Result<Incoming, NoMemory>
        ensures answer { IfOk result (λ answer. answer ≡ incoming.Failed) }
        ensures cause { IfOk result (λ answer. HasMessageCause answer self.old.counts self.new.counts
            self.old.put_faults self.new.put_faults) }
        ensures ok { OnOk result (self.new ≡ record self.old {
          plain = record self.old.plain { log = answered self.old.plain.log incoming.Failed };
          counts = record self.old.counts { faults = one_more self.old.counts.faults };
        }) }
        ensures err { OnErr result (self.new ≡ self.old) }
    {
        self.plain.note(Happening::Answer(Incoming::Failed))?;
        self.read_faults = self.read_faults.saturating_add(1);
        Ok(Incoming::Failed)
    }

    /// A read that finds no message yet.
    fn idle(&mut self) -> Result<Incoming, NoMemory>
        ensures answer { IfOk result (λ answer. answer ≡ incoming.NotYet) }
        ensures cause { IfOk result (λ answer. HasMessageCause answer self.old.counts self.new.counts
            self.old.put_faults self.new.put_faults) }
        ensures ok { OnOk result (self.new ≡ record self.old {
          plain = record self.old.plain { log = answered self.old.plain.log incoming.NotYet };
          counts = record self.old.counts { idles = one_more self.old.counts.idles };
        }) }
        ensures err { OnErr result (self.new ≡ self.old) }
    {
        self.plain.note(Happening::Answer(Incoming::NotYet))?;
        self.idles = self.idles.saturating_add(1);
        Ok(Incoming::NotYet)
    }

    /// A read that finds no message any more.
    fn close(&mut self) -> Result<Incoming, NoMemory>
        ensures answer { IfOk result (λ answer. answer ≡ incoming.Closed) }
        ensures cause { IfOk result (λ answer. HasMessageCause answer self.old.counts self.new.counts
            self.old.put_faults self.new.put_faults) }
        ensures ok { OnOk result (self.new ≡ record self.old {
          plain = record self.old.plain { log = answered self.old.plain.log incoming.Closed };
          counts = record self.old.counts { closes = one_more self.old.counts.closes };
        }) }
        ensures err { OnErr result (self.new ≡ self.old) }
    {
        self.plain.note(Happening::Answer(Incoming::Closed))?;
        self.closes = self.closes.saturating_add(1);
        Ok(Incoming::Closed)
    }

    /// A read of the next message, or of the end.
    fn next(&mut self) -> Result<Incoming, NoMemory>
        ensures answer { IfOk result (λ answer. answer ≡ next_or incoming.Closed self.old.plain.messages) }
        ensures message { IfOk result IsMessage }
        ensures log { IfOk result (λ answer. self.new.plain.log ≡ answered self.old.plain.log answer) }
        ensures messages { OnOk result (self.new.plain.messages ≡ drop 1 self.old.plain.messages) }
        ensures calls { (self.new.reads ≡ self.old.reads) × (self.new.puts ≡ self.old.puts) }
        ensures cause { IfOk result (λ answer. HasMessageCause answer self.old.counts self.new.counts
            self.old.put_faults self.new.put_faults) }
        ensures err { OnErr result (self.new ≡ self.old) }
    {
        if self.plain.has_message() {
            self.plain.take()
        } else {
            self.close()
        }
    }
}

impl LineOut for MemTalk {
    ghost held = { λ _. None };

    ghost log = { λ t. Some t.plain.log };

    ghost faults = { λ t. t.put_faults };

    ghost counts = { λ t. t.counts };

    fn put_faults(&self) -> u64 {
        self.put_faults
    }

    fn put(&mut self, text: &[u8]) -> Result<(), PutRefused>
        requires { IsUtf8 text.now }
        ensures bytes { PutsOf None None result text.now }
        ensures log { LogsPut (Some self.old.plain.log) (Some self.new.plain.log) result text.now }
        ensures cause { HasPutCause result self.old.put_faults self.new.put_faults }
        ensures counts { self.new.counts ≡ self.old.counts }
        ensures lender { no_lender ≡ no_lender }
        ensures answer { IsPutBy (next_call self.old.puts) text.now result }
        ensures puts { self.new.puts ≡ drop 1 self.old.puts }
        ensures reads { (self.new.reads ≡ self.old.reads) × (self.new.plain.messages ≡ self.old.plain.messages) }
    {
        let call = self.puts.next();
        let line = line_of(self.plain.alloc, text)?;
        let count = bytes_going(call, line.len());
        if count < line.len() {
            self.plain.note_part(&line[..count])?;
            self.put_faults = self.put_faults.saturating_add(1);
            return Err(PutRefused::Failed);
        }
        self.plain.note_line(text)?;
        Ok(())
    }
}

impl Talk for MemTalk {
    fn read_faults(&self) -> u64 {
        self.read_faults
    }

    fn idles(&self) -> u64 {
        self.idles
    }

    fn closes(&self) -> u64 {
        self.closes
    }

    fn message(&mut self) -> Incoming
        ensures message { IsMessage result }
        ensures cause { HasMessageCause result self.old.counts self.new.counts self.old.put_faults self.new.put_faults }
        ensures log { LogsAnswer (Some self.old.plain.log) (Some self.new.plain.log) result }
        ensures bytes { Keeps None None }
        ensures answer { (result ≡ answer_by (next_call self.old.reads) self.old.plain.messages)
            ⊎ (result ≡ incoming.NoMemory) }
        ensures reads { self.new.reads ≡ drop 1 self.old.reads }
        ensures puts { self.new.puts ≡ self.old.puts }
        ensures messages { self.new.plain.messages
            ≡ messages_after (next_call self.old.reads) result self.old.plain.messages }
    {
        let answered = match self.reads.next() {
            Call::Fail => self.fail(),
            Call::Idle => self.idle(),
            Call::Go | Call::Part(_) => self.next(),
        };
        match answered {
            Ok(answer) => answer,
            Err(NoMemory) => Incoming::NoMemory,
        }
    }

    /// Nothing is held back.
    fn let_go(&mut self) -> bool {
        true
    }
}
