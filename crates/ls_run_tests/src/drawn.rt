//! Scripts of streams that are lost and bound anew, drawn always alike, whose runs are compared with a plain program.
use crate::plain::{Plain, Seen, Step, name_of, value_of};
use ls_outside::{MemSink, PlainSource};
use ls_run::{Status, run};
use std::alloc::{AllocError, Global};
use std::fmt::Write;
use std::sync::Wait;
use std::test::Fail;

/// How many scripts are drawn.
const SCRIPTS: u64 = 320;

/// How many draws of steps make one.
const DRAWS: u64 = 40;

/// The lines before the first step.
const BEGIN: &str = "item q MERGE x\nopen c\nconn d ws\nconn h http\nadd c 1 q x RAW\n";

/// A linear congruential generator (Knuth's MMIX).
#[derive(Drop)]
struct Draws {
    state: u64,
}

impl Draws {
    /// A number below n, or 0.
    fn below(&mut self, n: u64) -> u64 {
        self.state = self
            .state
            .wrapping_mul(6364136223846793005)
            .wrapping_add(1442695040888963407);
        if n == 0 { 0 } else { (self.state >> 33) % n }
    }

    /// The same, as a size.
    fn size_below(&mut self, n: usize) -> usize {
        self.below(n as u64) as usize
    }
}

/// What a script is about: many lines, long ones, or neither.
#[derive(Clone, Copy, PartialEq, Eq)]
enum About {
    Many,
    Long,
    Neither,
}

/// A script, and the plain program that goes along.
#[derive(Drop)]
struct Script {
    text: String,
    plain: Plain,
    about: About,
}

impl Script {
    /// Before the first step.
    fn new(alloc: Global, about: About) -> Result<Script, AllocError> {
        Ok(Script {
            text: String::from_str(alloc, BEGIN)?,
            plain: Plain::new(alloc)?,
            about,
        })
    }

    /// A connection: most often the one that holds the newest stream.
    fn drawn_connection(&self, draws: &mut Draws) -> usize {
        if draws.below(4) > 0 {
            for on in 0..3 {
                if self.plain.held_by(on) == self.plain.epoch {
                    return on;
                }
            }
        }
        draws.size_below(3)
    }

    /// How many times a value has the letters.
    fn drawn_times(&self, draws: &mut Draws) -> usize {
        match self.about {
            About::Many => draws.size_below(2),
            About::Long => draws.size_below(93).saturating_add(162),
            About::Neither => draws.size_below(18),
        }
    }

    /// A count of a client: none; the right one; an old one; one at an edge; one beyond an edge.
    fn drawn_count(&self, draws: &mut Draws) -> Option<usize> {
        let last = self.plain.lines.len();
        let old = draws.size_below(self.plain.sent.saturating_add(1));
        match draws.below(9) {
            0 | 1 => None,
            2 => Some(self.plain.sent),
            3 => Some(old),
            4 => Some(self.plain.given_up),
            5 => Some(self.plain.given_up.saturating_sub(1)),
            6 => Some(last),
            7 => Some(last.saturating_add(1)),
            _ => Some(self.plain.sent.saturating_sub(draws.size_below(9))),
        }
    }

    /// A content length, where one is said.
    fn drawn_length(&self, draws: &mut Draws) -> Option<usize> {
        match draws.below(5) {
            0 => None,
            1 => Some(1000),
            2 => Some(draws.size_below(200).saturating_add(1000)),
            _ => Some(draws.size_below(9000).saturating_add(1000)),
        }
    }

    /// A tick from now on: the same, soon, or near the one at which the session times out.
    fn drawn_tick(&self, draws: &mut Draws) -> u64 {
        let now = self.plain.tick;
        match self.plain.since {
            Some(since) if draws.below(3) == 0 => {
                let tick = since.saturating_add(draws.below(3).saturating_add(29_998));
                if tick < now { now } else { tick }
            }
            _ => now.saturating_add(draws.below(900)),
        }
    }

    /// A step that only some draws make: of the clock, or a request.
    fn drawn_rare(&self, draws: &mut Draws, on: usize) -> Step {
        match draws.below(8) {
            0 | 1 | 2 => Step::Tick {
                tick: self.drawn_tick(draws),
            },
            3 => Step::Constrain { on },
            4 | 5 => Step::Reconf { on },
            6 => Step::ForceRebind { on },
            _ if draws.below(8) == 0 => Step::Destroy { on },
            _ => Step::Lose { on },
        }
    }

    /// A step.
    fn drawn_step(&self, draws: &mut Draws) -> Step {
        let on = self.drawn_connection(draws);
        match draws.below(10) {
            0 => Step::Publish {
                times: self.drawn_times(draws),
            },
            1 => Step::Enqueue {
                on,
                times: draws.size_below(5).saturating_add(1),
            },
            2 | 3 => Step::Take {
                on,
                times: draws.size_below(12).saturating_add(1),
            },
            4 => Step::Take { on, times: 1000 },
            5 => Step::Lose { on },
            6 | 7 => Step::Bind {
                on: draws.size_below(3),
                count: self.drawn_count(draws),
                length: self.drawn_length(draws),
            },
            _ => self.drawn_rare(draws, on),
        }
    }

    /// The script's line of a publish.
    fn write_publish(&mut self, alloc: Global, times: usize) -> Result<(), AllocError> {
        let others = self.plain.values.len();
        let seq = others.saturating_add(1);
        let value = value_of(alloc, others, times)?;
        writeln!(self.text, "pub 1 {seq} q x={value}")
    }

    /// The script's line of a bind.
    fn write_bind(
        &mut self,
        on: usize,
        count: Option<usize>,
        length: Option<usize>,
    ) -> Result<(), AllocError> {
        let name = name_of(on);
        write!(self.text, "req {name} bind_session LS_session=S1")?;
        if let Some(count) = count {
            write!(self.text, "&LS_recovery_from={count}")?;
        }
        if let Some(length) = length {
            write!(self.text, "&LS_content_length={length}")?;
        }
        writeln!(self.text, "")
    }

    /// The script's line of a control request.
    fn write_control(&mut self, on: usize, operation: &str) -> Result<(), AllocError> {
        let name = name_of(on);
        writeln!(
            self.text,
            "req {name} control LS_reqId=r&LS_session=S1&LS_op={operation}"
        )
    }

    /// The script's line of a step.
    fn write(&mut self, alloc: Global, step: Step) -> Result<(), AllocError> {
        match step {
            Step::Publish { times } => self.write_publish(alloc, times),
            Step::Enqueue { on, times } => {
                let name = name_of(on);
                writeln!(self.text, "enq {name} 1 1 {times}")
            }
            Step::Take { on, times } => {
                let name = name_of(on);
                writeln!(self.text, "take {name} {times}")
            }
            Step::Lose { on } => {
                let name = name_of(on);
                writeln!(self.text, "lose {name}")
            }
            Step::Bind { on, count, length } => self.write_bind(on, count, length),
            Step::Tick { tick } => writeln!(self.text, "tick {tick}"),
            Step::ForceRebind { on } => self.write_control(on, "force_rebind"),
            Step::Destroy { on } => self.write_control(on, "destroy"),
            Step::Reconf { on } => self.write_control(
                on,
                "reconf&LS_subId=1&LS_requested_max_frequency=unlimited",
            ),
            Step::Constrain { on } => {
                self.write_control(on, "constrain&LS_requested_max_bandwidth=unlimited")
            }
        }
    }

    /// A step is written and done.
    fn make(&mut self, alloc: Global, step: Step) -> Result<(), AllocError> {
        self.write(alloc, step)?;
        self.plain.step(step)
    }

    /// How many events are published at once: fewer than a slot may be behind its item.
    fn most_events(&self) -> u64 {
        match self.about {
            About::Many => 64,
            About::Long => 12,
            About::Neither => 8,
        }
    }

    /// Events are published, enqueued and most often taken.
    fn flood(&mut self, alloc: Global, draws: &mut Draws) -> Result<(), AllocError> {
        let on = self.drawn_connection(draws);
        for _ in 0..draws.below(self.most_events()) {
            let times = self.drawn_times(draws);
            self.make(alloc, Step::Publish { times })?;
        }
        self.make(alloc, Step::Enqueue { on, times: 64 })?;
        if draws.below(6) > 0 {
            self.make(alloc, Step::Take { on, times: 1000 })?;
        }
        Ok(())
    }

    /// Drawn steps.
    fn draw(&mut self, alloc: Global, draws: &mut Draws) -> Result<(), AllocError> {
        if self.about != About::Neither || draws.below(8) == 0 {
            self.flood(alloc, draws)?;
        }
        let step = self.drawn_step(draws);
        self.make(alloc, step)
    }
}

/// What a script of a number is about.
fn about_of(number: u64) -> About {
    match number % 16 {
        0 => About::Many,
        1 => About::Long,
        _ => About::Neither,
    }
}

/// More of what was seen.
fn added(seen: Seen, more: Seen) -> Seen {
    Seen {
        recovered: seen.recovered.saturating_add(more.recovered),
        refused: seen.refused.saturating_add(more.refused),
        given_up: seen.given_up.saturating_add(more.given_up),
        looped: seen.looped.saturating_add(more.looped),
        superseded: seen.superseded.saturating_add(more.superseded),
        timed_out: seen.timed_out.saturating_add(more.timed_out),
    }
}

/// Whether a run of this script does all of it, and prints this.
fn prints<R: Wait>(
    rt: &R,
    alloc: Global,
    script: &[u8],
    printed: &[u8],
) -> Result<bool, AllocError> {
    let mut words = Vec::new(alloc);
    words.push(String::from_str(alloc, "replay")?)?;
    let mut source = PlainSource::new(Vec::from_slice(alloc, script)?, Vec::new(alloc));
    let mut sink = MemSink::new(alloc, Vec::new(alloc));
    let status = run(rt, alloc, &words, &mut source, &mut sink);
    Ok(status == Status::Ok && sink.bytes() == printed)
}

/// A drawn script. Whether its run prints what the plain program does, and what there was.
fn agrees<R: Wait>(rt: &R, alloc: Global, number: u64) -> Result<(bool, Seen), AllocError> {
    let mut draws = Draws { state: number };
    let mut script = Script::new(alloc, about_of(number))?;
    for _ in 0..DRAWS {
        script.draw(alloc, &mut draws)?;
    }
    let Script {
        text,
        plain,
        about: _,
    } = script;
    let printed = plain.printed.as_bytes();
    let same = prints(rt, alloc, text.as_bytes(), printed)?;
    Ok((same, plain.seen))
}

/// The first drawn script whose run prints something else, and what there was in those before it.
fn first_unlike<R: Wait>(rt: &R, alloc: Global) -> Result<(Option<u64>, Seen), AllocError> {
    let mut seen = Seen {
        recovered: 0,
        refused: 0,
        given_up: 0,
        looped: 0,
        superseded: 0,
        timed_out: 0,
    };
    for number in 0..SCRIPTS {
        let (same, more) = agrees(rt, alloc, number)?;
        if !same {
            return Ok((Some(number), seen));
        }
        seen = added(seen, more);
    }
    Ok((None, seen))
}

#[test]
fn runs_agree_with_the_plain_program(rt: HostRuntime) -> Result<(), Fail> {
    let (unlike, seen) = first_unlike(&rt, rt.alloc())?;
    assert!(rt; unlike.is_none());
    assert!(rt; seen.recovered > 1000 && seen.refused > 200 && seen.looped > 150);
    assert!(rt; seen.given_up > 1000 && seen.superseded > 500 && seen.timed_out > 20);
    Ok(())
}
