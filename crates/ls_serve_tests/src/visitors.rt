//! Visitors over ducts, served at once or not at all, and sessions that end without a stream.
use crate::running::{Input, ran, ticks_of};
use crate::talk::{ADDED, CREATE, GET, NOT_ALLOWED, OPENED, knock};
use ls_callers::ListDoor;
use ls_door::{Duct, Spawner, Visit};
use ls_outside::{Got, Source};
use ls_program::Status;
use std::alloc::{AllocError, Global};
use std::marker::{Send, Sync};
use std::sync::Wait;
use std::test::Fail;
use std::thread::Threads;

/// What went wrong where a visitor can't say what it has to.
const UNSAID: &str = "what a visitor says";

/// How many reads there are at most of what came.
const MOST_READS: usize = 100;

/// A config with one item.
const CONFIG: &[u8] = b"q MERGE x\n";

/// What a server says that listens on ports 1 and 2.
const SAID: &[u8] = b"listening 1 2\nstopped\n";

/// A request for a subscription of the first session.
const ADD: &[u8] = b"POST /lightstreamer/control.txt?LS_protocol=TLCP-2.1.0 HTTP/1.1\r\n\
      Content-Length: 99\r\n\r\n\
      LS_reqId=1&LS_session=S1&LS_op=add&LS_subId=1&LS_mode=MERGE&LS_group=q&LS_schema=x\
      &LS_snapshot=true";

/// A request for a new stream of the first session.
const BIND: &[u8] = b"POST /lightstreamer/bind_session.txt?LS_protocol=TLCP-2.1.0 HTTP/1.1\r\n\
      Content-Length: 13\r\n\r\nLS_session=S1";

/// What is said to a client that no job can be given to.
const UNAVAILABLE: &[u8] =
    b"HTTP/1.1 503 Service Unavailable\r\nContent-Length: 0\r\nConnection: close\r\n\r\n";

/// The same of the session behind the most that live.
const OPENED_LAST: &[u8] = b"HTTP/1.1 200 OK\r\nContent-Type: text/plain; charset=utf-8\r\n\
      Cache-Control: no-store\r\nConnection: close\r\n\r\n\
      CONOK,S1025,50000,5000,*\r\nSERVNAME,tlcpd\r\nCONS,unlimited\r\n";

/// What the second stream gives.
const STREAMED: &[u8] = b"HTTP/1.1 200 OK\r\nContent-Type: text/plain; charset=utf-8\r\n\
      Cache-Control: no-store\r\nConnection: close\r\n\r\n\
      CONOK,S1,50000,5000,*\r\nSERVNAME,tlcpd\r\nCONS,unlimited\r\n\
      SUBOK,1,1,1\r\nCONF,1,unlimited,filtered\r\nU,1,1,2\r\n";

/// Whether just this came, and then nothing.
fn is_told<S: Source>(alloc: Global, source: &mut S, bytes: &[u8]) -> Result<bool, AllocError> {
    let mut all = Vec::new(alloc);
    for _ in 0..MOST_READS {
        let mut piece = [0u8; 256];
        match source.read(&mut piece) {
            Got::Bytes(count) => all.extend_from_slice(&piece[..count])?,
            Got::End | Got::NotYet | Got::Failed => break,
        }
    }
    Ok(all.as_slice() == bytes)
}

/// Runs a server for these visitors until a tick. Answers whether it ended well and said what it must.
fn is_served<R: Threads + Wait + Copy + Drop + Send + Sync + 'static>(
    rt: &R,
    alloc: Global,
    words: &str,
    ticks: &[u64],
    visits: Vec<Visit<Duct<R>>>,
    spawner: &mut Spawner,
) -> Result<bool, AllocError> {
    let input = Input {
        words,
        bytes: CONFIG,
        reads: &[],
        writes: &[],
        ticks,
    };
    let mut door = ListDoor::new(visits);
    let (status, sink) = ran(rt, alloc, &input, &mut door, spawner)?;
    Ok(status == Status::Ok && sink.bytes() == SAID)
}

/// Whether a client whose job comes back is answered 503, and a feed is closed, behind a visitor that couldn't be let in.
fn are_refused<R: Threads + Wait + Copy + Drop + Send + Sync + 'static>(
    rt: R,
    alloc: Global,
) -> Result<bool, Fail> {
    let (mut client, first) = knock(rt, alloc, CREATE).ok_or(UNSAID)?;
    let (mut feed, second) = knock(rt, alloc, b"feed 1\nq 1 x=1\n").ok_or(UNSAID)?;
    let mut visits = Vec::new(alloc);
    visits.push(Visit::Failed)?;
    visits.push(Visit::Client(first))?;
    visits.push(Visit::Feed(second))?;
    let mut spawner = Spawner::by_list(alloc, Vec::from_slice(alloc, &[true, true])?);
    let served = is_served(
        &rt,
        alloc,
        "serve 1 2 9",
        &[0, 0, 0, 0, 9],
        visits,
        &mut spawner,
    )?;
    Ok(
        served
            && spawner.refused() == 2
            && is_told(alloc, &mut client, UNAVAILABLE)?
            && is_told(alloc, &mut feed, b"")?
            && feed.read(&mut [0u8; 1]) == Got::End,
    )
}

#[test]
fn visitors_whose_jobs_come_back(rt: HostRuntime) -> Result<(), Fail> {
    assert!(rt; are_refused(rt, rt.alloc())?);
    Ok(())
}

/// A server of tests with its visitors, and the near ends of these.
#[derive(Drop)]
struct Meeting<R: Wait + Drop> {
    visits: Vec<Visit<Duct<R>>>,
    ends: Vec<Duct<R>>,
}

impl<R: Wait + Copy + Drop> Meeting<R> {
    /// Nobody comes yet.
    fn new(alloc: Global) -> Meeting<R> {
        Meeting {
            visits: Vec::new(alloc),
            ends: Vec::new(alloc),
        }
    }

    /// A client comes and says this.
    fn client(&mut self, rt: R, alloc: Global, bytes: &[u8]) -> Result<(), Fail> {
        let (near, far) = knock(rt, alloc, bytes).ok_or(UNSAID)?;
        self.ends.push(near)?;
        self.visits.push(Visit::Client(far))?;
        Ok(())
    }

    /// A feed comes and says this.
    fn feed(&mut self, rt: R, alloc: Global, bytes: &[u8]) -> Result<(), Fail> {
        let (near, far) = knock(rt, alloc, bytes).ok_or(UNSAID)?;
        self.ends.push(near)?;
        self.visits.push(Visit::Feed(far))?;
        Ok(())
    }

    /// A client comes, says this and leaves, so that each write to it fails.
    fn leaver(&mut self, rt: R, alloc: Global, bytes: &[u8]) -> Result<(), Fail> {
        let (near, far) = knock(rt, alloc, bytes).ok_or(UNSAID)?;
        drop(near);
        self.visits.push(Visit::Client(far))?;
        Ok(())
    }

    /// Nobody comes for a while.
    fn nobody(&mut self, times: usize) -> Result<(), Fail> {
        for _ in 0..times {
            self.visits.push(Visit::Idle)?;
        }
        Ok(())
    }
}

/// Whether the visitors were told these texts, in order.
fn are_told<R: Wait + Drop>(
    alloc: Global,
    ends: &mut [Duct<R>],
    texts: &[&[u8]],
) -> Result<bool, AllocError> {
    if ends.len() != texts.len() {
        return Ok(false);
    }
    for i in 0..texts.len() {
        if !is_told(alloc, &mut ends[i], texts[i])? {
            return Ok(false);
        }
    }
    Ok(true)
}

/// A feed that publishes twice, and clients that create a session, subscribe, and bind.
fn publisher_and_clients<R: Wait + Copy + Drop>(rt: R, alloc: Global) -> Result<Meeting<R>, Fail> {
    let mut meeting = Meeting::new(alloc);
    meeting.feed(rt, alloc, b"feed 1\nq 1 x=1\nq 2 x=2\n")?;
    meeting.client(rt, alloc, CREATE)?;
    meeting.client(rt, alloc, ADD)?;
    meeting.client(rt, alloc, BIND)?;
    Ok(meeting)
}

/// Whether each of them is told what it must be.
fn are_served<R: Threads + Wait + Copy + Drop + Send + Sync + 'static>(
    rt: R,
    alloc: Global,
) -> Result<bool, Fail> {
    let Meeting { visits, mut ends } = publisher_and_clients(rt, alloc)?;
    let ticks = ticks_of(alloc, 100, &[9])?;
    let mut spawner = Spawner::at_once(alloc);
    let served = is_served(&rt, alloc, "serve 1 2 9", &ticks, visits, &mut spawner)?;
    let texts: [&[u8]; 4] = [b"ok 1\nok 2\n", OPENED, ADDED, STREAMED];
    Ok(served && are_told(alloc, &mut ends, &texts)?)
}

#[test]
fn a_feed_publishes_and_a_client_subscribes(rt: HostRuntime) -> Result<(), Fail> {
    assert!(rt; are_served(rt, rt.alloc())?);
    Ok(())
}

/// As many clients as may have sessions, each of which loses its stream at once; a while later a client that is refused,
/// and then one more that wants a session.
fn many_leavers<R: Wait + Copy + Drop>(rt: R, alloc: Global) -> Result<Meeting<R>, Fail> {
    let mut meeting = Meeting::new(alloc);
    for _ in 0..1024 {
        meeting.leaver(rt, alloc, CREATE)?;
    }
    meeting.nobody(100)?;
    meeting.client(rt, alloc, GET)?;
    meeting.client(rt, alloc, CREATE)?;
    Ok(meeting)
}

/// Whether the last one gets a session, since the others' have ended.
fn is_opened_after_others<R: Threads + Wait + Copy + Drop + Send + Sync + 'static>(
    rt: R,
    alloc: Global,
) -> Result<bool, Fail> {
    let Meeting { visits, mut ends } = many_leavers(rt, alloc)?;
    let mut ticks = ticks_of(alloc, 1124, &[30_000; 50])?;
    ticks.push(40_000)?;
    let mut spawner = Spawner::at_once(alloc);
    let served = is_served(&rt, alloc, "serve 1 2 40000", &ticks, visits, &mut spawner)?;
    let texts: [&[u8]; 2] = [NOT_ALLOWED, OPENED_LAST];
    Ok(served && are_told(alloc, &mut ends, &texts)?)
}

#[test]
fn sessions_without_a_stream_end(rt: HostRuntime) -> Result<(), Fail> {
    assert!(rt; is_opened_after_others(rt, rt.alloc())?);
    Ok(())
}

/// Heads that are refused, and what they are told; the last request is of a version that isn't spoken.
const HEADS: [(&[u8], &[u8]); 6] = [
    (GET, NOT_ALLOWED),
    (
        b"POST /x HTTP/1.1\r\n\r\n",
        b"HTTP/1.1 404 Not Found\r\nContent-Length: 0\r\nConnection: close\r\n\r\n",
    ),
    (
        b"POST /lightstreamer/control.txt HTTP/1.1\r\n\r\n",
        b"HTTP/1.1 400 Bad Request\r\nContent-Length: 0\r\nConnection: close\r\n\r\n",
    ),
    (
        b"POST /lightstreamer/control.txt HTTP/1.1\r\nContent-Length: 50001\r\n\r\n",
        b"HTTP/1.1 413 Content Too Large\r\nContent-Length: 0\r\nConnection: close\r\n\r\n",
    ),
    (
        b"POST /lightstreamer/create_session.txt?LS_protocol=TLCP-2.4.0 HTTP/1.1\r\n\
          Content-Length: 0\r\n\r\n",
        b"HTTP/1.1 200 OK\r\nContent-Type: text/plain; charset=utf-8\r\n\
          Cache-Control: no-store\r\nContent-Length: 42\r\nConnection: close\r\n\r\n\
          CONERR,60,Protocol version not supported\r\n",
    ),
    (b"POST /lightstreamer/create_session.txt HTTP", b""),
];

/// Clients that say these heads, and one that leaves in the middle of its head.
fn refused_clients<R: Wait + Copy + Drop>(rt: R, alloc: Global) -> Result<Meeting<R>, Fail> {
    let mut meeting = Meeting::new(alloc);
    for (head, _) in HEADS {
        meeting.client(rt, alloc, head)?;
    }
    Ok(meeting)
}

/// Whether each of them is told what it must be.
fn are_told_why<R: Threads + Wait + Copy + Drop + Send + Sync + 'static>(
    rt: R,
    alloc: Global,
) -> Result<bool, Fail> {
    let Meeting { visits, mut ends } = refused_clients(rt, alloc)?;
    let ticks = ticks_of(alloc, 20, &[9])?;
    let mut spawner = Spawner::at_once(alloc);
    let served = is_served(&rt, alloc, "serve 1 2 9", &ticks, visits, &mut spawner)?;
    let mut texts = Vec::with_capacity(alloc, HEADS.len())?;
    for (_, text) in HEADS {
        texts.push(text)?;
    }
    Ok(served && are_told(alloc, &mut ends, &texts)?)
}

#[test]
fn heads_that_are_refused(rt: HostRuntime) -> Result<(), Fail> {
    assert!(rt; are_told_why(rt, rt.alloc())?);
    Ok(())
}
