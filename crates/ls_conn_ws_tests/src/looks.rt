//! When a connection looks for a message whose client calls its bell.
ghost use Rattle.std.specs.Prelude.{◌≡◌, true};
ghost use Rattle.ls_config.specs.Items.{are_items};

use crate::clients::{LIMIT, TALK, comes};
use crate::rung::{Rung, two_ends};
use crate::serving::{FED, ITEMS, NEVER, pipe_of};
use crate::upgrades::{ANSWER, WSOK};
use ls_config::{Config, read};
use ls_conn_http::WsWire;
use ls_conn_ws::{LineBuf, Shared, Socket, Step};
use ls_door::Duct;
use ls_feed::serve_feed;
use ls_outside::{MemClock, OpenGate, write_all};
use ls_register::{Blank, House};
use std::alloc::Global;
use std::marker::Brand;
use std::sync::Wait;
use std::test::Fail;

/// How many turns a connection has at most until it rests.
const MOST_TURNS: u32 = 100;

/// A connection and its client, in one thread.
#[derive(Drop)]
struct Pair<N: House, R: Wait + Copy + Drop> {
    rt: R,
    alloc: Global,
    shared: Shared<N>,
    socket: Socket<N, WsWire<Rung<R, Duct<R>>>>,
    near: Rung<R, Duct<R>>,
    into: LineBuf,
}

/// A clock that tells one tick for good.
fn clock_at(alloc: Global, tick: u64) -> Option<MemClock> {
    let ticks = Vec::from_slice(alloc, &[tick]).ok()?;
    Some(MemClock::new(alloc, ticks))
}

impl<N: House, R: Wait + Copy + Drop> Pair<N, R> {
    /// A connection whose handshake is done.
    fn new(rt: R, alloc: Global, blank: Blank, config: Config) -> Option<Pair<N, R>>
        requires register { blank.register ≡ N.deed.register }
        requires set { config.set ≡ N.deed.set }
        requires config { config.items ≡ N.deed.config }
        requires items { are_items config.items ≡ true }
    {
        let shared = Shared::<N>::new(alloc, blank, config).ok()?;
        let (near, far) = two_ends(rt, alloc, LIMIT).ok()?;
        let wire = WsWire::over(alloc, far);
        let socket = Socket::new(&rt, alloc, &shared, wire);
        let into = LineBuf::new(alloc).ok()?;
        Some(Pair {
            rt,
            alloc,
            shared,
            socket,
            near,
            into,
        })
    }

    /// A feed comes, and leaves.
    fn feed(&mut self, tick: u64, text: &[u8]) -> Option<()> {
        let mut clock = clock_at(self.alloc, tick)?;
        let mut pipe = pipe_of(self.alloc, text).ok()?;
        serve_feed(
            &self.rt,
            self.alloc,
            &mut pipe,
            &self.shared,
            &mut clock,
            &OpenGate,
            NEVER,
        );
        Some(())
    }

    /// The connection has a turn.
    fn turn(&mut self, tick: u64) -> Option<Step> {
        let mut clock = clock_at(self.alloc, tick)?;
        Some(
            self.socket.turn(
                &self.rt,
                self.alloc,
                &self.shared,
                &mut clock,
                &OpenGate,
                NEVER,
                &mut self.into,
            ),
        )
    }

    /// The connection has turns until it rests. Answers whether it does, and its client was told this.
    fn tells(&mut self, tick: u64, told: &[u8]) -> Option<bool> {
        for _ in 0..MOST_TURNS {
            match self.turn(tick)? {
                Step::Goes => {}
                Step::Rests { ms: _ } => {
                    let mut clock = clock_at(self.alloc, tick)?;
                    return Some(comes(&mut self.near, &mut clock, told));
                }
                Step::Ended(_) => return Some(false),
            }
        }
        Some(false)
    }

    /// The client says what a client says, and is told what it must be.
    fn talks(&mut self) -> Option<bool> {
        self.feed(0, FED)?;
        for (said, told) in [TALK[1], TALK[2], TALK[3]] {
            write_all(&mut self.near, said);
            if !self.tells(0, told)? {
                return Some(false);
            }
        }
        Some(true)
    }
}

/// A feed's updates of one item and of two, and what a client is told of them. The item that wasn't told last comes first.
const ONE: &[u8] = b"feed 1\nitem1 2 last_price=3.05\n";

const ONE_TOLD: &[u8] = b"\x81\x0eU,1,1,3.05||\r\n";

const TWO: &[u8] = b"feed 1\nitem2 2 last_price=16.10\nitem1 3 last_price=3.06\n";

const TWO_TOLD: &[u8] = b"\x81\x0fU,1,2,16.10||\r\n\x81\x0eU,1,1,3.06||\r\n";

/// Gives a connection a line while its client is silent. Answers whether the client was told it, and there was no look.
fn gives_without_a_look<N: House, R: Wait + Copy + Drop>(pair: &mut Pair<N, R>) -> Option<bool> {
    let before = pair.near.looks();
    pair.feed(1_000, ONE)?;
    let told = pair.tells(1_000, ONE_TOLD)?;
    Some(told && pair.near.looks() == before)
}

/// Gives a connection a line, then a message, and then one more line. Answers whether the client was told both lines, and
/// then the answer.
fn hears_between_lines<N: House, R: Wait + Copy + Drop>(pair: &mut Pair<N, R>) -> Option<bool> {
    pair.feed(2_000, TWO)?;
    let goes = pair.turn(2_000)? == Step::Goes;
    write_all(&mut pair.near, WSOK);
    let answers = pair.turn(2_000)? == Step::Goes;
    let told = pair.tells(2_000, TWO_TOLD)?;
    Some(goes && answers && told && pair.tells(2_000, ANSWER)?)
}

/// Whether a connection looks for messages when it must, and at no other time.
fn looks_rightly<N: House, R: Wait + Copy + Drop>(
    rt: R,
    alloc: Global,
    blank: Blank,
    config: Config,
) -> Option<bool>
    requires register { blank.register ≡ N.deed.register }
    requires set { config.set ≡ N.deed.set }
    requires config { config.items ≡ N.deed.config }
    requires items { are_items config.items ≡ true }
{
    let mut pair = Pair::<N, R>::new(rt, alloc, blank, config)?;
    let talked = pair.talks()?;
    let gave = gives_without_a_look(&mut pair)?;
    Some(talked && gave && hears_between_lines(&mut pair)?)
}

/// The same over the items of tests.
fn looked<R: Wait + Copy + Drop>(rt: R, alloc: Global) -> Option<bool> {
    let config = read(alloc, ITEMS).ok()?;
    let blank = Blank::new(alloc).ok()?;
    looks_rightly::<Brand, R>(rt, alloc, blank, config)
}

#[test]
fn a_line_costs_no_look_and_a_message_between_lines_is_answered(
    rt: HostRuntime,
) -> Result<(), Fail> {
    assert!(rt; looked(rt, rt.alloc()) == Some(true));
    Ok(())
}
