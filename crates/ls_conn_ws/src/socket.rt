//! A WebSocket connection whose turns never sleep.
ghost use Rattle.std.specs.Prelude.{◌≡◌, ◌≤◌, ℕ, List, None, Some, IfSome, option_map};
ghost use Rattle.std.specs.declared.option.Option.{Option as Optional};
ghost use Rattle.std.specs.Option.{unwrap_or};
ghost use Rattle.ls_value.specs.declared.limits.TheConstants.{GREATEST_TICK};
ghost use Rattle.ls_talk.specs.Lines.{Counts};
ghost use Rattle.ls_talk.specs.declared.talk.Happening.{Happening};
ghost use Rattle.ls_told.specs.Requests.{HasBound};
ghost use Rattle.ls_conn.specs.Acting.{known};
ghost use Rattle.ls_conn_ws.specs.Streams.{StreamState};
ghost use Rattle.ls_conn_ws.specs.Causes.{HasCause};
ghost use Rattle.ls_conn_ws.specs.Losing.{IsOver};
ghost use Rattle.ls_conn_ws.specs.Serving.{Spoke};
ghost use Rattle.ls_conn_ws.specs.Steps.{HasGone, ended_by, session_of};

use crate::answering::Desk;
use crate::running::Running;
use crate::serving::{desk_of, report, round, tick};
use crate::step::Step;
use ls_bell::Bell;
use ls_conn::{ConnEnd, ConnReport, Shared};
use ls_line::LineBuf;
use ls_outside::{Clock, Gate};
use ls_register::House;
use ls_talk::Talk;
use ls_wake::Wakes;
use std::alloc::Global;
use std::marker::Model;
use std::sync::{Arc, Wait};

/// A WebSocket connection after its handshake, between two turns. It holds its talk. Its turns never sleep, so one thread
/// may serve many connections. Contracts say of all its turns together what they say of [`crate::serve_ws`]: what happened
/// on its talk since it began is the life of a connection.
#[derive(Drop)]
pub struct Socket<N: House, T: Talk> {
    talk: T,
    desk: Desk<N>,
    idles: u64,
    end: Option<ConnEnd>,
}

impl<N: House, T: Talk> Model for Socket<N, T> {
    ghost use Rattle.ls_conn.specs.Acting.{known};
    ghost use Rattle.ls_conn_ws.specs.Steps.{SocketState, HasLived};

    ghost Value = { SocketState T };

    ghost view = { λ s. record {
      talk = s.talk;
      known = known s.desk.view s.desk.seen;
      stream = s.desk.stream;
      idles = s.idles;
      end = s.end;
    } };

    ghost invariant = { λ s. HasLived N.deed s.end (T.log s.talk) (T.counts s.talk) (T.LineOut.faults s.talk)
        (known s.desk.view s.desk.seen) s.desk.stream s.idles };
}

/// The end that a turn came to, if it did.
fn end_of(step: &Step) -> Option<ConnEnd>
    ensures { result ≡ ended_by step.now }
{
    match step {
        Step::Goes | Step::Rests { ms: _ } => None,
        Step::Ended(end) => Some(*end),
    }
}

impl<N: House, T: Talk + Wakes> Socket<N, T> {
    /// A connection over a talk, whose handshake is done.
    pub fn new<R: Wait>(rt: &R, alloc: Global, shared: &Shared<N>, talk: T) -> Socket<N, T>
        ensures talk { result.talk ≡ talk }
        ensures stream { result.stream ≡ None }
        ensures goes { result.end ≡ None }
        ensures gone { HasGone N.deed result.end (T.log talk) (T.log result.talk) (T.counts talk) (T.counts result.talk)
            (T.LineOut.faults talk) (T.LineOut.faults result.talk) result.known result.stream result.idles }
    {
        Socket {
            talk,
            desk: desk_of(rt, alloc, shared),
            idles: 0,
            end: None,
        }
    }

    /// One turn: asks the clock; gives the next line of its stream, where there is one, and looks for a message and
    /// answers it, as [`crate::serve_ws`] does. It never sleeps: where there is nothing to do, it says how long. It ends
    /// at the tick `until`, in ms, or a later one. After the end it does nothing and answers the end again. `into` is
    /// room for one line, which several connections may share.
    pub fn turn<R: Wait, K: Clock, G: Gate>(
        &mut self,
        rt: &R,
        alloc: Global,
        shared: &Shared<N>,
        clock: &mut K,
        gate: &G,
        until: u64,
        into: &mut LineBuf,
    ) -> Step
        ensures gone { (log : Optional (List Happening)) (c : Counts) (f : ℕ)
            → HasGone N.deed self.old.end log (T.log self.old.talk) c (T.counts self.old.talk)
            f (T.LineOut.faults self.old.talk) self.old.known self.old.stream self.old.idles
            → HasGone N.deed self.new.end log (T.log self.new.talk) c (T.counts self.new.talk)
            f (T.LineOut.faults self.new.talk) self.new.known self.new.stream self.new.idles }
        ensures end { self.new.end ≡ ended_by result }
        ensures stays { IfSome self.old.end (λ _. self.new ≡ self.old) }
        ensures stopped { self.old.end ≡ None → result ≡ Step.Ended ConnEnd.Stopped → until ≤ K.told clock.new }
        ensures told { K.told clock.old ≤ K.told clock.new }
    {
        if let Some(end) = self.end {
            return Step::Ended(end);
        }
        let Some(now) = tick(clock, until) else {
            self.end = Some(ConnEnd::Stopped);
            return Step::Ended(ConnEnd::Stopped);
        };
        let step = round(
            rt,
            alloc,
            shared,
            &mut self.talk,
            gate,
            now,
            until,
            &mut self.desk,
            into,
            &mut self.idles,
        );
        self.end = end_of(&step);
        step
    }

    /// Why it ended, where it has.
    pub fn end(&self) -> Option<ConnEnd>
        ensures { result ≡ self.now.end }
    {
        self.end
    }

    /// Its stream, while one goes on.
    fn running(&self) -> Option<&Running<N>> {
        match &self.desk.stream {
            Some(running) => { if running.runs { Some(running) } else { None } }
            None => None,
        }
    }

    /// The number of the session of its stream, while one goes on.
    pub fn session(&self) -> Option<u64>
        ensures { result ≡ session_of self.now.stream }
    {
        match &self.desk.stream {
            Some(running) => {
                if running.runs {
                    Some(running.told.session())
                } else {
                    None
                }
            }
            None => None,
        }
    }

    /// The bell of that session: it rings where there may be a line, and is called where a message comes, if `is_woken`.
    pub fn bell(&self) -> Option<&Arc<Bell, Global>> {
        match self.running() {
            Some(running) => Some(running.told.bell()),
            None => None,
        }
    }

    /// Whether that bell is called where a message comes.
    pub fn is_woken(&self) -> bool {
        match self.running() {
            Some(running) => running.wakes,
            None => false,
        }
    }

    /// The talk.
    pub fn talk(&self) -> &T
        ensures { result.now ≡ self.now.talk }
    {
        &self.talk
    }

    /// Leaves the connection: lets go what is held back, and its stream, where one goes on, is lost at this tick. Answers
    /// what came of it, and the talk. One that hasn't ended ends as `Stopped`.
    pub fn finish<R: Wait>(self, rt: &R, shared: &Shared<N>, now: u64) -> (ConnReport<N>, T)
        requires tick { now ≤ GREATEST_TICK }
        ensures end { result.0.end ≡ unwrap_or self.end ConnEnd.Stopped }
        ensures spoke { (log : Optional (List Happening)) (c : Counts) (f : ℕ)
            → HasGone N.deed self.end log (T.log self.talk) c (T.counts self.talk) f (T.LineOut.faults self.talk)
            self.known self.stream self.idles
            → (stream : Optional StreamState) × (result.0.told ≡ option_map (λ s. s.told) stream)
            × Spoke N.deed result.0.end log (T.log result.1) (known result.0.view result.0.seen) stream
            × IfSome stream (λ s. HasBound s.epoch s.told.lines × IsOver s.epoch s.told) }
        ensures cause { (log : Optional (List Happening)) (c : Counts) (f : ℕ)
            → HasGone N.deed self.end log (T.log self.talk) c (T.counts self.talk) f (T.LineOut.faults self.talk)
            self.known self.stream self.idles
            → HasCause result.0.end c (T.counts result.1) f (T.LineOut.faults result.1) }
    {
        let Socket {
            mut talk,
            desk,
            end,
            ..
        } = self;
        talk.let_go();
        let end = end.unwrap_or(ConnEnd::Stopped);
        (report(rt, shared, desk, end, now), talk)
    }
}
