//! A feed in the middle of its bytes: pieces come, and its lines are answered as they end.
ghost use Rattle.std.specs.Prelude.{◌≡◌, ◌<◌, ◌≤◌, [], ◌∷◌, ◌++◌, None, length, slice_set};
ghost use Rattle.std.specs.Prelude.{IfOk, OnOk, IsErrOf};
ghost use Rattle.std.specs.Prelude.{List, ℕ};
ghost use mathlib.Core.List.{IsPrefix};
ghost use Rattle.std.specs.declared.option.Option.{Option as Optional};
ghost use Rattle.ls_outside.specs.Causes.{Rose};
ghost use Rattle.ls_event.specs.History.{HasFields};
ghost use Rattle.ls_event.specs.declared.limits.TheConstants.{MOST_ADAPTERS};
ghost use Rattle.ls_feed.specs.Offers.{FitsItem};
ghost use Rattle.ls_feed.specs.Replies.{ArePasses, IsPassOf, Offered, RepliesTo, TrueOf, pass_at, seen_by, text_of};
ghost use Rattle.ls_feed.specs.Feeding.{IsFeeder, IsReady, Wrote, Acts, Stands, Goes, GoesNext, Sends, SaysTooLong};
ghost use Rattle.ls_feed.specs.declared.reply.FeedReply.TheVariants as answer_is;
ghost use Rattle.ls_feed.specs.declared.reply.Bad.TheVariants as bad;

use crate::limits::LONGEST_LINE;
use crate::offer::{Offer, hello_of, read_offer};
use crate::passes::Passes;
use crate::reply::{Bad, FeedReply, append_reply, reply_to};
use crate::report::{FeedEnd, FeedReport};
use crate::unrung::Unrung;
use ls_lines::{LineCutter, LineRefused};
use ls_live::PubPass;
use ls_outside::{Gate, Pipe, Put, Sink, write_all};
use ls_register::House;
use ls_shared::Shared;
use std::alloc::Global;
use std::marker::Model;
use std::sync::Wait;

/// What became of bytes that came.
#[derive(Clone, Copy, Debug, PartialEq, Eq)]
pub(crate) enum Fed {
    /// Each line that ended in them was answered.
    All,

    /// The first line isn't a hello.
    BadHello,

    /// A line is too long.
    LongLine,

    /// A write failed.
    WriteFault,

    /// Memory was wanting.
    NoMemory,
}

/// The adapter, once its hello came, and its passes.
#[derive(Drop)]
struct Feeder<N: House> {
    adapter: Option<u8>,
    passes: Passes<N>,
    /// The text of one reply. Its room is used again by the next.
    text: Vec<u8>,
    unrung: Unrung,
}

impl<N: House> Model for Feeder<N> {
    ghost use Rattle.ls_feed.specs.Feeding.{Feeder as WhoFeeds};

    ghost Value = { WhoFeeds };

    ghost view = { λ f. record { adapter = f.adapter; passes = f.passes } };
}

/// Who feeds, and what cuts its lines.
#[derive(Drop)]
pub(crate) struct Feed<N: House> {
    feeder: Feeder<N>,
    lines: LineCutter,
}

impl<N: House> Model for Feed<N> {
    ghost use Rattle.ls_feed.specs.Feeding.{KeptFeed};

    ghost Value = { KeptFeed };

    ghost view = { λ f. record { feeder = f.feeder; carry = f.lines.carry } };

    ghost use Rattle.std.specs.Prelude.{◌≡◌};
    ghost use Rattle.ls_feed.specs.declared.limits.TheConstants.{LONGEST_LINE};

    ghost invariant = { λ f. f.lines.limit ≡ LONGEST_LINE };
}

/// Writes a reply.
fn send<C: Sink>(conn: &mut C, text: &mut Vec<u8>, reply: FeedReply) -> Fed
    ensures sends { Sends result (C.held conn.old) (C.held conn.new) (text_of reply) }
    ensures cause { result ≡ Fed.WriteFault → Rose (C.faults conn.old) (C.faults conn.new) }
    ensures later { C.faults conn.old ≤ C.faults conn.new }
    ensures source { C.gives conn.new ≡ C.gives conn.old }
{
    text.clear();
    let Ok(()) = append_reply(text, reply) else {
        return Fed::NoMemory;
    };
    match write_all(conn, text) {
        Put::Taken(_) => Fed::All,
        Put::Failed => Fed::WriteFault,
    }
}

/// The pass of an item, taken out, or made where there is none.
fn pass_of<N: House, R: Wait>(
    rt: &R,
    shared: &Shared<N>,
    passes: &mut Passes<N>,
    adapter: u8,
    item: u32,
) -> PubPass<N>
    requires some { 1 ≤ adapter }
    requires most { adapter ≤ MOST_ADAPTERS }
    requires passes { ArePasses N.deed.config adapter passes.old }
    requires item { item < length N.deed.config }
    requires room { item < length passes.old }
    ensures of { IsPassOf N.deed.config adapter item result }
    ensures seen { IsPrefix (seen_by (pass_at passes.old item)) result.list }
    ensures rest { passes.new ≡ slice_set passes.old item None }
{
    match passes.take(item) {
        Some(pass) => pass,
        None => shared.pass(rt, item, adapter),
    }
}

/// Makes an offer by its item's pass.
fn offer_by<N: House, R: Wait, G: Gate>(
    rt: &R,
    shared: &Shared<N>,
    pass: &mut PubPass<N>,
    offer: Offer,
    gate: &G,
) -> FeedReply
    requires { HasFields pass.old.shape.fields offer.event }
    ensures begins { IsPrefix pass.old.list pass.new.list }
    ensures same { pass.new ≡ record pass.old { list = pass.new.list } }
    ensures says { TrueOf offer pass.new result }
{
    let Offer { seq, event, .. } = offer;
    match shared.offer_quietly(rt, pass, seq, event, gate) {
        Ok(no) => FeedReply::Published { no },
        Err(cause) => reply_to(cause),
    }
}

/// Makes an offer.
fn offered<N: House, R: Wait, G: Gate>(
    rt: &R,
    shared: &Shared<N>,
    passes: &mut Passes<N>,
    unrung: &mut Unrung,
    adapter: u8,
    offer: Offer,
    gate: &G,
) -> FeedReply
    requires some { 1 ≤ adapter }
    requires most { adapter ≤ MOST_ADAPTERS }
    requires passes { ArePasses N.deed.config adapter passes.old }
    requires fits { FitsItem N.deed.config offer }
    requires room { offer.item < length passes.old }
    ensures offered { Offered N.deed.config adapter offer result passes.old passes.new }
    ensures passes { ArePasses N.deed.config adapter passes.new }
{
    let item = offer.item;
    let mut pass = pass_of(rt, shared, passes, adapter, item);
    let reply = offer_by(rt, shared, &mut pass, offer, gate);
    passes.put(item, pass);
    unrung.add(rt, shared, item);
    reply
}

/// Answers a line of an adapter's.
fn answer<N: House, R: Wait, G: Gate>(
    rt: &R,
    alloc: Global,
    shared: &Shared<N>,
    passes: &mut Passes<N>,
    unrung: &mut Unrung,
    adapter: u8,
    line: &[u8],
    gate: &G,
) -> FeedReply
    requires some { 1 ≤ adapter }
    requires most { adapter ≤ MOST_ADAPTERS }
    requires passes { ArePasses N.deed.config adapter passes.old }
    ensures replies { RepliesTo N.deed.config adapter line.now result passes.old passes.new }
    ensures passes { ArePasses N.deed.config adapter passes.new }
{
    let offer = match read_offer(alloc, &shared.config().items, line) {
        Ok(offer) => offer,
        Err(cause) => return FeedReply::Bad(cause),
    };
    if passes.reserve(offer.item).is_err() {
        return FeedReply::Bad(Bad::NoMemory);
    }
    offered(rt, shared, passes, unrung, adapter, offer, gate)
}

impl<N: House> Feeder<N> {
    /// Answers a line.
    fn act<R: Wait, C: Sink, G: Gate>(
        &mut self,
        rt: &R,
        alloc: Global,
        conn: &mut C,
        shared: &Shared<N>,
        gate: &G,
        line: &[u8],
    ) -> Fed
        requires ready { IsFeeder N.deed.config self.old.adapter self.old.passes }
        ensures ready { IsFeeder N.deed.config self.new.adapter self.new.passes }
        ensures acts { (lines : List (List ℕ)) (held : Optional (List ℕ))
            → Wrote N.deed.config self.old lines held (C.held conn.old)
            → Acts N.deed.config result self.new lines line.now held (C.held conn.new) }
        ensures cause { result ≡ Fed.WriteFault → Rose (C.faults conn.old) (C.faults conn.new) }
        ensures later { C.faults conn.old ≤ C.faults conn.new }
        ensures source { C.gives conn.new ≡ C.gives conn.old }
    {
        let Some(adapter) = self.adapter else {
            return self.greet(line);
        };
        let reply = answer(
            rt,
            alloc,
            shared,
            &mut self.passes,
            &mut self.unrung,
            adapter,
            line,
            gate,
        );
        send(conn, &mut self.text, reply)
    }

    /// Takes a first line.
    fn greet(&mut self, line: &[u8]) -> Fed
        requires none { self.old.adapter ≡ None }
        requires unseen { self.old.passes ≡ [] }
        ensures ready { IsFeeder N.deed.config self.new.adapter self.new.passes }
        ensures acts { (lines : List (List ℕ)) (held now : Optional (List ℕ))
            → Wrote N.deed.config self.old lines held now
            → Acts N.deed.config result self.new lines line.now held now }
        ensures not_fault { ¬ (result ≡ Fed.WriteFault) }
    {
        match hello_of(line) {
            Some(adapter) => {
                self.adapter = Some(adapter);
                Fed::All
            }
            None => Fed::BadHello,
        }
    }

    /// Answers a line that is too long.
    fn refuse<C: Sink>(&mut self, conn: &mut C) -> Fed
        ensures says { SaysTooLong result self.old.adapter (C.held conn.old) (C.held conn.new)
            (text_of (answer_is.Bad bad.Malformed)) }
        ensures same { self.new ≡ self.old }
        ensures cause { result ≡ Fed.WriteFault → Rose (C.faults conn.old) (C.faults conn.new) }
        ensures later { C.faults conn.old ≤ C.faults conn.new }
        ensures source { C.gives conn.new ≡ C.gives conn.old }
    {
        if self.adapter.is_none() {
            return Fed::BadHello;
        }
        match send(conn, &mut self.text, FeedReply::Bad(Bad::Malformed)) {
            Fed::All => Fed::LongLine,
            failed => failed,
        }
    }
}

impl<N: House> Feed<N> {
    /// Before any byte.
    pub(crate) fn new(alloc: Global) -> Feed<N>
        ensures { result ≡ record { feeder = record { adapter = None; passes = [] }; carry = [] } }
    {
        Feed {
            feeder: Feeder {
                adapter: None,
                passes: Passes::new(alloc),
                text: Vec::new(alloc),
                unrung: Unrung::new(),
            },
            lines: LineCutter::new(alloc, LONGEST_LINE),
        }
    }

    /// The sessions are woken for which something was added.
    fn ring<R: Wait>(&mut self, rt: &R, shared: &Shared<N>)
        ensures { self.new ≡ self.old }
    {
        self.feeder.unrung.ring(rt, shared);
    }

    /// What came of it.
    pub(crate) fn report(self, end: FeedEnd) -> FeedReport<N>
        ensures { (result.end ≡ end) × (result.passes ≡ self.feeder.passes) }
    {
        FeedReport {
            end,
            passes: self.feeder.passes,
        }
    }

    /// Takes bytes from the front of a piece, up to the end of the first line in it, and answers the line; all of them,
    /// where none ends. Answers how many they were, or why the feed ends.
    fn next<R: Wait, C: Sink, G: Gate>(
        &mut self,
        rt: &R,
        alloc: Global,
        conn: &mut C,
        shared: &Shared<N>,
        gate: &G,
        piece: &[u8],
    ) -> Result<usize, Fed>
        requires ready { IsReady N.deed.config self.old }
        requires some { 0 < length piece.now }
        ensures used { IfOk result (λ used. (0 < used) × (used ≤ length piece.now)) }
        ensures ready { OnOk result (IsReady N.deed.config self.new) }
        ensures stops { IsErrOf result Fed.All → ⊥ }
        ensures goes { (read : List ℕ) (held : Optional (List ℕ))
            → Stands N.deed.config self.old read held (C.held conn.old)
            → GoesNext N.deed.config result self.new read piece.now held (C.held conn.new) }
        ensures cause { IsErrOf result Fed.WriteFault → Rose (C.faults conn.old) (C.faults conn.new) }
        ensures later { C.faults conn.old ≤ C.faults conn.new }
        ensures source { C.gives conn.new ≡ C.gives conn.old }
    {
        let used = match self.lines.take(piece) {
            Ok(Some(used)) => used,
            Ok(None) => return Ok(piece.len()),
            Err(LineRefused::TooLong) => return Err(self.feeder.refuse(conn)),
            Err(LineRefused::NoMemory) => return Err(Fed::NoMemory),
        };
        let line = self.lines.line(piece, used);
        match self.feeder.act(rt, alloc, conn, shared, gate, line) {
            Fed::All => {}
            stopped => return Err(stopped),
        }
        Ok(used)
    }

    /// Takes a piece of the bytes. Each line that ends in it is answered.
    fn take_lines<R: Wait, C: Sink, G: Gate>(
        &mut self,
        rt: &R,
        alloc: Global,
        conn: &mut C,
        shared: &Shared<N>,
        gate: &G,
        piece: &[u8],
    ) -> Fed
        requires ready { IsReady N.deed.config self.old }
        ensures ready { result ≡ Fed.All → IsReady N.deed.config self.new }
        ensures goes { (read : List ℕ) (held : Optional (List ℕ))
            → Stands N.deed.config self.old read held (C.held conn.old)
            → Goes N.deed.config result self.new (read ++ piece.now) held (C.held conn.new) }
        ensures cause { result ≡ Fed.WriteFault → Rose (C.faults conn.old) (C.faults conn.new) }
        ensures later { C.faults conn.old ≤ C.faults conn.new }
        ensures source { C.gives conn.new ≡ C.gives conn.old }
    {
        let mut rest = piece;
        while !rest.is_empty() {
            match self.next(rt, alloc, conn, shared, gate, rest) {
                Ok(used) => rest = &rest[used..],
                Err(stopped) => return stopped,
            }
        }
        Fed::All
    }

    /// The same, and then the sessions are woken for which something was added.
    pub(crate) fn take<R: Wait, C: Sink, G: Gate>(
        &mut self,
        rt: &R,
        alloc: Global,
        conn: &mut C,
        shared: &Shared<N>,
        gate: &G,
        piece: &[u8],
    ) -> Fed
        requires ready { IsReady N.deed.config self.old }
        ensures ready { result ≡ Fed.All → IsReady N.deed.config self.new }
        ensures goes { (read : List ℕ) (held : Optional (List ℕ))
            → Stands N.deed.config self.old read held (C.held conn.old)
            → Goes N.deed.config result self.new (read ++ piece.now) held (C.held conn.new) }
        ensures cause { result ≡ Fed.WriteFault → Rose (C.faults conn.old) (C.faults conn.new) }
        ensures later { C.faults conn.old ≤ C.faults conn.new }
        ensures source { C.gives conn.new ≡ C.gives conn.old }
    {
        let fed = self.take_lines(rt, alloc, conn, shared, gate, piece);
        self.ring(rt, shared);
        fed
    }
}
