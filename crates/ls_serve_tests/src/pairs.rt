//! Two visitors in threads, the first of whom waits for what the second is answered.
ghost use Rattle.std.specs.Prelude.{◌≡◌, ◌≤◌, length, None, refl};

use crate::running::{Input, ran, ticks_of};
use ls_callers::ListDoor;
use ls_door::{Bell, STACK_BYTES, Spawner, Visit};
use ls_outside::{Got, Pipe, Put, Sink, Source};
use ls_program::Status;
use ls_wake::Wakes;
use std::alloc::{AllocError, Global};
use std::marker::{Send, Sync};
use std::sync::atomic::{AtomicU64, Ordering};
use std::sync::{Arc, Wait};
use std::test::Fail;
use std::thread;
use std::thread::Threads;

/// How often the first visitor looks whether the second one was answered, before it gives up.
const MOST_LOOKS: u64 = 100_000_000;

/// What the second visitor says.
const GET: &[u8] = b"GET /lightstreamer/control.txt HTTP/1.1\r\n\r\n";

/// What both know: how many writes to the second there were, and 1 once the first has seen one.
#[derive(Drop)]
struct Board {
    answers: AtomicU64,
    seen: AtomicU64,
}

/// A visitor. The first one looks so often.
#[derive(Drop)]
struct Visitor {
    board: Arc<Board>,
    is_first: bool,
    looks: u64,
    at: usize,
}

/// Looks for an answer to the second visitor. Answers whether there was one in time.
fn is_answered(board: &Board, looks: u64) -> bool {
    for _ in 0..looks {
        if board.answers.load(Ordering::SeqCst) > 0 {
            return true;
        }
        thread::yield_now();
    }
    false
}

/// Copies the next bytes to the front of a piece, as many as there are and fit. Answers how many.
fn copy_front(piece: &mut [u8], bytes: &[u8]) -> usize
    ensures count { result ≤ length piece.old }
    ensures len { length piece.new ≡ length piece.old }
{
    let count = bytes.len().min(piece.len());
    piece[..count].copy_from_slice(&bytes[..count]);
    count
}

impl Source for Visitor {
    ghost unread = { λ _. None };

    ghost faults = { λ _. 0 };

    ghost waits = { λ _. 0 };

    ghost holds = { λ _. record { held = None; faults = 0 } };

    fn read_faults(&self) -> u64 {
        0
    }

    fn idles(&self) -> u64 {
        0
    }

    fn read(&mut self, piece: &mut [u8]) -> Got {
        if self.is_first {
            if is_answered(&self.board, self.looks) {
                self.board.seen.store(1, Ordering::SeqCst);
            }
            return Got::End;
        }
        let from = self.at.min(GET.len());
        let count = copy_front(piece, &GET[from..]);
        self.at = from + count;
        if count > 0 {
            Got::Bytes(count)
        } else {
            Got::End
        }
    }
}

impl Sink for Visitor {
    ghost held = { λ _. None };

    ghost faults = { λ _. 0 };

    ghost gives = { λ _. record { unread = None; faults = 0; waits = 0 } };

    fn write_faults(&self) -> u64 {
        0
    }

    fn write(&mut self, piece: &[u8]) -> Put {
        if !self.is_first {
            self.board.answers.fetch_add(1, Ordering::SeqCst);
        }
        Put::Taken(piece.len())
    }
}

impl Pipe for Visitor {
    ghost sink_is_left = { λ p. refl };

    ghost source_is_left = { λ p. refl };
}

impl Wakes for Visitor {
    fn wake_with(&self, _: &Arc<Bell, Global>) -> bool {
        false
    }
}

/// The two visitors.
fn both(alloc: Global, board: &Arc<Board>, looks: u64) -> Result<Vec<Visit<Visitor>>, AllocError> {
    let first = Visitor {
        board: Arc::try_clone(board)?,
        is_first: true,
        looks,
        at: 0,
    };
    let second = Visitor {
        board: Arc::try_clone(board)?,
        is_first: false,
        looks,
        at: 0,
    };
    let mut visits = Vec::with_capacity(alloc, 2)?;
    visits.push(Visit::Client(first))?;
    visits.push(Visit::Client(second))?;
    Ok(visits)
}

/// Serves both. Answers whether the first saw that the second was answered, or `None` where the server ended otherwise
/// than well.
fn first_sees_second<R: Threads + Wait + Copy + Send + Sync + 'static>(
    rt: &R,
    alloc: Global,
    spawner: &mut Spawner,
    looks: u64,
) -> Result<Option<bool>, AllocError> {
    let board = Arc::new(
        alloc,
        Board {
            answers: AtomicU64::new(0),
            seen: AtomicU64::new(0),
        },
    )?;
    let mut door = ListDoor::new(both(alloc, &board, looks)?);
    let ticks = ticks_of(alloc, 200, &[9])?;
    let input = Input {
        words: "serve 1 2 9",
        bytes: b"q MERGE x\n",
        reads: &[],
        writes: &[],
        ticks: &ticks,
    };
    let (status, _) = ran(rt, alloc, &input, &mut door, spawner)?;
    let seen = board.seen.load(Ordering::SeqCst) == 1;
    Ok((status == Status::Ok).then_some(seen))
}

#[test]
fn two_visitors_are_served_at_the_same_time(rt: HostRuntime) -> Result<(), Fail> {
    let mut spawner = Spawner::threads(rt.alloc(), STACK_BYTES);
    assert!(rt; first_sees_second(&rt, rt.alloc(), &mut spawner, MOST_LOOKS)? == Some(true));
    Ok(())
}

#[test]
fn at_once_two_visitors_are_served_in_turn(rt: HostRuntime) -> Result<(), Fail> {
    let mut spawner = Spawner::at_once(rt.alloc());
    assert!(rt; first_sees_second(&rt, rt.alloc(), &mut spawner, 1_000)? == Some(false));
    Ok(())
}
