//! Two connections to which one thread gives turns.
ghost use Rattle.std.specs.Prelude.{◌≡◌, ◌≤◌, true};
ghost use Rattle.ls_value.specs.declared.limits.TheConstants.{GREATEST_TICK};
ghost use Rattle.ls_config.specs.Items.{are_items};

use crate::serving::{
    FED, ITEMS, NEVER, Talked, has_lines, idle_after, messages_of, pipe_of, talk_to_end,
};
use ls_config::{Config, read};
use ls_conn_ws::{ConnEnd, LineBuf, Shared, Socket, Step};
use ls_feed::serve_feed;
use ls_outside::{Clock, MemClock, MemPipe, OpenGate};
use ls_register::{Blank, House};
use ls_talk::{MemTalk, Talk};
use ls_value::NoMemory;
use std::alloc::Global;
use std::marker::Brand;
use std::sync::Wait;
use std::test::Fail;

/// A connection, and the last two steps that its turns came to.
#[derive(Drop)]
struct Guest<N: House> {
    socket: Socket<N, MemTalk>,
    step: Step,
    before: Step,
}

impl<N: House> Guest<N> {
    fn new<R: Wait>(rt: &R, alloc: Global, shared: &Shared<N>, talk: MemTalk) -> Guest<N> {
        Guest {
            socket: Socket::new(rt, alloc, shared, talk),
            step: Step::Goes,
            before: Step::Goes,
        }
    }

    fn turn<R: Wait>(
        &mut self,
        rt: &R,
        alloc: Global,
        shared: &Shared<N>,
        clock: &mut MemClock,
        into: &mut LineBuf,
    ) {
        self.before = self.step;
        self.step = self
            .socket
            .turn(rt, alloc, shared, clock, &OpenGate, NEVER, into);
    }

    /// How it went, if its last two turns came to an end, and to the same one.
    fn finish<R: Wait>(self, rt: &R, shared: &Shared<N>, now: u64) -> Option<Talked>
        requires { now ≤ GREATEST_TICK }
    {
        let stays = self.before == self.step;
        let (report, talk) = self.socket.finish(rt, shared, now);
        if stays && self.step == Step::Ended(report.end) {
            Some(Talked {
                end: report.end,
                talk,
            })
        } else {
            None
        }
    }
}

/// Feeds the items, and gives two talks so many turns each, by turns.
fn turns_over<N: House, R: Wait>(
    rt: &R,
    alloc: Global,
    blank: Blank,
    config: Config,
    pipe: &mut MemPipe,
    talks: (MemTalk, MemTalk),
    count: usize,
) -> Option<(Talked, Talked)>
    requires register { blank.register ≡ N.deed.register }
    requires set { config.set ≡ N.deed.set }
    requires config { config.items ≡ N.deed.config }
    requires items { are_items config.items ≡ true }
{
    let mut clock = MemClock::new(alloc, Vec::new(alloc));
    let shared = Shared::<N>::new(alloc, blank, config).ok()?;
    serve_feed(rt, alloc, pipe, &shared, &mut clock, &OpenGate, NEVER);
    let mut into = LineBuf::new(alloc).ok()?;
    let mut one = Guest::new(rt, alloc, &shared, talks.0);
    let mut other = Guest::new(rt, alloc, &shared, talks.1);
    for _ in 0..count {
        one.turn(rt, alloc, &shared, &mut clock, &mut into);
        other.turn(rt, alloc, &shared, &mut clock, &mut into);
    }
    let now = clock.now();
    let one = one.finish(rt, &shared, now)?;
    let other = other.finish(rt, &shared, now)?;
    Some((one, other))
}

/// Gives two talks turns over the items of tests.
fn turns_to_end<R: Wait>(
    rt: &R,
    alloc: Global,
    talks: (MemTalk, MemTalk),
    count: usize,
) -> Option<(Talked, Talked)> {
    let config = read(alloc, ITEMS).ok()?;
    let blank = Blank::new(alloc).ok()?;
    let mut pipe = pipe_of(alloc, FED).ok()?;
    turns_over::<Brand, R>(rt, alloc, blank, config, &mut pipe, talks, count)
}

/// A talk of these messages, which are followed by 20 looks that find none yet.
fn talk_of(alloc: Global, texts: &str) -> Result<MemTalk, NoMemory> {
    let messages = messages_of(alloc, texts)?;
    let reads = idle_after(alloc, messages.len(), 20)?;
    Ok(MemTalk::new(alloc, messages, reads, Vec::new(alloc)))
}

/// Whether a talk went to its close, with these lines, and one look found the close.
fn went(talked: &Talked, wanted: &[u8]) -> bool {
    talked.end == ConnEnd::PeerLeft
        && talked.talk.closes() == 1
        && has_lines(talked.talk.log(), wanted)
}

const CREATE: &str = "wsok\0create_session\r\nLS_user=u\0nonsense";

#[test]
fn two_connections_have_turns_in_one_thread(rt: HostRuntime) -> Result<(), Fail> {
    let alloc = rt.alloc();
    let talks = (talk_of(alloc, CREATE)?, talk_of(alloc, CREATE)?);
    let Some((one, other)) = turns_to_end(&rt, alloc, talks, 40) else {
        return Ok(assert!(rt; false));
    };
    assert!(rt;
        went(
            &one,
            b"WSOK\nCONOK,S1,50000,5000,*\nERROR,65,Malformed request\nSERVNAME,tlcpd\nCONS,unlimited",
        )
    );
    assert!(rt;
        went(
            &other,
            b"WSOK\nCONOK,S2,50000,5000,*\nERROR,65,Malformed request\nSERVNAME,tlcpd\nCONS,unlimited",
        )
    );
    Ok(())
}

/// What a talk alone gets in a thread of its own is what it gets beside another one.
fn says_the_same<R: Wait>(
    rt: &R,
    alloc: Global,
    texts: &str,
    wanted: &[u8],
) -> Result<bool, NoMemory> {
    let alone = talk_to_end(rt, alloc, talk_of(alloc, texts)?, Vec::new(alloc));
    let talks = (talk_of(alloc, texts)?, talk_of(alloc, "wsok")?);
    let (Some(alone), Some((one, other))) = (alone, turns_to_end(rt, alloc, talks, 60)) else {
        return Ok(false);
    };
    Ok(went(&alone, wanted) && went(&one, wanted) && went(&other, b"WSOK"))
}

#[test]
fn a_connection_says_the_same_beside_another(rt: HostRuntime) -> Result<(), Fail> {
    let alloc = rt.alloc();
    assert!(rt;
        says_the_same(
            &rt,
            alloc,
            "nonsense\0wsok",
            b"ERROR,65,Malformed request\nWSOK"
        )?
    );
    assert!(rt;
        says_the_same(
            &rt,
            alloc,
            "create_session\0control\r\nLS_reqId=5&LS_op=force_rebind",
            b"CONOK,S1,50000,5000,*\nREQOK,5\nSERVNAME,tlcpd\nCONS,unlimited\nLOOP,0",
        )?
    );
    Ok(())
}

#[test]
fn a_connection_that_is_left_early_has_no_end_of_its_own(rt: HostRuntime) -> Result<(), Fail> {
    let alloc = rt.alloc();
    let talks = (talk_of(alloc, "wsok")?, talk_of(alloc, "wsok")?);
    assert!(rt; turns_to_end(&rt, alloc, talks, 3).is_none());
    Ok(())
}
