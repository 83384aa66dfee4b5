//! A client's connection, over which a request opened a stream.
ghost use Rattle.std.specs.Prelude.{◌≡◌, ◌≤◌};
ghost use Rattle.ls_value.specs.declared.limits.TheConstants.{GREATEST_TICK};
ghost use Rattle.ls_told.specs.Requests.{HasBound};
ghost use Rattle.ls_conn.specs.Lasting.{HasLast};

use ls_conn::{Acted, Seen, Shared, StreamEnd, StreamReport, act, lose_last, stream, stream_last};
use ls_outside::{Clock, MemClock, OpenGate};
use ls_register::{House, View};
use ls_request::LinkKind;
use ls_talk::Wire;
use std::alloc::Global;
use std::marker::Model;
use std::sync::Wait;

/// The session of a connection, the epoch of its stream, and what was seen of the session.
#[derive(Drop)]
pub struct Guest<N: House> {
    session: u64,
    epoch: u64,
    seen: Seen<N>,
}

impl<N: House> Model for Guest<N> {
    ghost use Rattle.std.specs.Prelude.{◌≡◌, List};
    ghost use Rattle.ls_told.specs.Seen.{Testified};
    ghost use Rattle.ls_told.specs.Requests.{HasBound};
    ghost use Rattle.ls_conn.specs.Lasting.{HasLast};

    ghost Value = { List Testified };

    ghost view = { λ g. g.seen };

    ghost invariant = { λ g. HasLast g.seen (λ t. (g.session ≡ t.number) × HasBound g.epoch t.lines) };
}

impl<N: House> Guest<N> {
    /// Does a request over a new connection: what came of it, where it opens no stream.
    pub fn come<R: Wait>(
        rt: &R,
        alloc: Global,
        shared: &Shared<N>,
        link: LinkKind,
        name: &[u8],
        params: &[u8],
        now: u64,
        view: &mut View<N>,
    ) -> Result<Guest<N>, Acted>
        requires { now ≤ GREATEST_TICK }
    {
        let mut seen = Seen::new(alloc);
        match act(
            rt, alloc, shared, link, None, name, params, now, view, &mut seen,
        ) {
            Acted::Line(text) => Err(Acted::Line(text)),
            Acted::Opened { session, epoch } => Ok(Guest::of(session, epoch, seen)),
            Acted::NoMemory => Err(Acted::NoMemory),
        }
    }

    /// The guest of a stream of the session that was seen last.
    fn of(session: u64, epoch: u64, seen: Seen<N>) -> Guest<N>
        requires last { HasLast seen (λ t. (session ≡ t.number) × HasBound epoch t.lines) }
    {
        Guest {
            session,
            epoch,
            seen,
        }
    }

    /// The session's number.
    pub fn session(&self) -> u64 {
        self.session
    }

    /// The stream's epoch.
    pub fn epoch(&self) -> u64 {
        self.epoch
    }

    /// Gives the stream over a wire.
    pub fn stream<R: Wait, W: Wire, K: Clock>(
        &mut self,
        rt: &R,
        alloc: Global,
        shared: &Shared<N>,
        lines: &mut W,
        clock: &mut K,
        until: u64,
    ) -> StreamEnd {
        stream_last(
            rt,
            alloc,
            shared,
            self.session,
            self.epoch,
            &mut self.seen,
            lines,
            clock,
            &OpenGate,
            until,
        )
    }

    /// Gives the stream over a wire, by what was seen of the session alone; `None` where nothing was.
    pub fn stream_alone<R: Wait, W: Wire>(
        self,
        rt: &R,
        alloc: Global,
        shared: &Shared<N>,
        lines: &mut W,
        clock: &mut MemClock,
        until: u64,
    ) -> Option<StreamEnd> {
        let Guest {
            session,
            epoch,
            mut seen,
        } = self;
        let Some(token) = seen.pop() else {
            return None;
        };
        let StreamReport { end, told } = stream(
            rt, alloc, shared, session, epoch, token, lines, clock, &OpenGate, until,
        );
        told.vouch();
        Some(end)
    }

    /// The stream is lost.
    pub fn lose<R: Wait>(&mut self, rt: &R, shared: &Shared<N>, now: u64)
        requires { now ≤ GREATEST_TICK }
    {
        lose_last(rt, shared, self.epoch, &mut self.seen, now);
    }
}
