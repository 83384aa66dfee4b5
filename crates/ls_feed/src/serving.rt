//! A feed from its first byte to its end.
ghost use Rattle.std.specs.Prelude.{◌≡◌, ◌<◌, ◌≤◌, length};
ghost use Rattle.std.specs.Io.KnownBytes.{IsAtEnd};
ghost use Rattle.ls_outside.specs.Causes.{Rose};
ghost use Rattle.ls_feed.specs.Serving.{Served};
ghost use Rattle.ls_feed.specs.Feeding.{end_at};

use crate::feed::{Fed, Feed};
use crate::report::{FeedEnd, FeedReport};
use ls_outside::{Clock, Gate, Got, Pipe, Sink, Source};
use ls_register::House;
use ls_shared::Shared;
use std::alloc::Global;
use std::sync::Wait;

/// How many bytes of a feed are read at once, at most.
const PIECE: usize = 8192;

/// How many ms a feed waits where no byte is there yet.
const PAUSE: u64 = 10;

/// The end where no more is done.
fn end_of(fed: Fed) -> FeedEnd
    ensures { result ≡ end_at fed }
{
    match fed {
        Fed::All => FeedEnd::Closed,
        Fed::BadHello => FeedEnd::BadHello,
        Fed::LongLine => FeedEnd::LongLine,
        Fed::WriteFault => FeedEnd::WriteFault,
        Fed::NoMemory => FeedEnd::NoMemory,
    }
}

/// Serves a feed to its end: reads its hello and its lines, offers what they say to the items, and writes a reply to
/// each line, in order, as soon as the line has ended (this project's profile).
///
/// Before each read it asks the clock, and ends at the tick `until`, in ms, or a later one. Where no byte is there yet,
/// it lets the clock wait 10 ms. It keeps no more of the input than a line, and takes time in proportion to its bytes.
///
/// Over a pipe that tells what it gives and holds, contracts say of each end which lines were acted on, what the
/// replies are, and that these were written. Each reply is true of what the adapter's pass of the item has seen by
/// then, and the passes only grow.
pub fn serve_feed<N: House, R: Wait, C: Pipe, K: Clock, G: Gate>(
    rt: &R,
    alloc: Global,
    conn: &mut C,
    shared: &Shared<N>,
    clock: &mut K,
    gate: &G,
    until: u64,
) -> FeedReport<N>
    ensures served { Served N.deed.config result.end (C.unread conn.old) (C.unread conn.new)
        (C.held conn.old) (C.held conn.new) result.passes }
    ensures closed { result.end ≡ FeedEnd.Closed → IsAtEnd (C.unread conn.new) }
    ensures read_fault { result.end ≡ FeedEnd.ReadFault → Rose (C.Source.faults conn.old) (C.Source.faults conn.new) }
    ensures write_fault { result.end ≡ FeedEnd.WriteFault → Rose (C.Sink.faults conn.old) (C.Sink.faults conn.new) }
    ensures stopped { result.end ≡ FeedEnd.Stopped → until ≤ K.told clock.new }
{
    let mut feed = Feed::new(alloc);
    let mut piece = [0u8; PIECE];
    for _ in rt.forever() {
        if clock.now() >= until {
            return feed.report(FeedEnd::Stopped);
        }
        match conn.read(&mut piece) {
            Got::Bytes(count) => match feed.take(rt, alloc, conn, shared, gate, &piece[..count]) {
                Fed::All => {}
                stopped => return feed.report(end_of(stopped)),
            },
            Got::End => return feed.report(FeedEnd::Closed),
            Got::NotYet => clock.wait(PAUSE),
            Got::Failed => return feed.report(FeedEnd::ReadFault),
        }
    }
    unreachable!()
}
