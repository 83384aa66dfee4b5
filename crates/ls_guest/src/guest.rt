//! A client's stream of a session, by the calls of a server.
ghost use Rattle.std.specs.Prelude.{◌≡◌, ◌≤◌};
ghost use Rattle.ls_value.specs.declared.limits.TheConstants.{GREATEST_TICK};
ghost use Rattle.ls_request.specs.Ranges.{CreateFits, OpFits};
ghost use Rattle.ls_told.specs.Requests.{HasBound};

use ls_line::LineBuf;
use ls_outside::Gate;
use ls_register::{House, View};
use ls_request::{Bind, Create, Op};
use ls_shared::{Lost, Opened, PubPass, Refusal, Shared, Testimony, Turn};
use ls_value::NoMemory;
use std::marker::Model;
use std::sync::Wait;

/// What a client has seen of a session, and the epoch of its newest stream.
#[derive(Drop)]
pub struct Guest<N: House> {
    epoch: u64,
    seen: Testimony<N>,
    /// How often the session's bell had rung.
    rings: u64,
}

impl<N: House> Model for Guest<N> {
    ghost use Rattle.ls_told.specs.Seen.{Testified};
    ghost use Rattle.ls_told.specs.Requests.{HasBound};

    ghost Value = { Testified };

    ghost view = { λ g. g.seen };

    ghost invariant = { λ g. HasBound g.epoch g.seen.lines };
}

impl<N: House> Guest<N> {
    /// Opens a session.
    pub fn open<R: Wait>(
        rt: &R,
        shared: &Shared<N>,
        create: &Create,
        now: u64,
        view: &mut View<N>,
    ) -> Result<Guest<N>, Refusal>
        requires tick { now ≤ GREATEST_TICK }
        requires fits { CreateFits create.now }
    {
        match shared.create(rt, create, now, view) {
            Ok(opened) => Ok(Guest::of(opened)),
            Err(refusal) => Err(refusal),
        }
    }

    /// The guest of a session that was opened.
    fn of(opened: Opened<N>) -> Guest<N>
        requires bound { HasBound opened.epoch opened.seen.lines }
    {
        let Opened { epoch, seen, .. } = opened;
        let rings = seen.bell().rings();
        Guest { epoch, seen, rings }
    }

    /// Binds a stream of a session that lives. One that doesn't is refused with 20.
    pub fn bind<R: Wait>(
        rt: &R,
        shared: &Shared<N>,
        bind: &Bind,
        now: u64,
        view: &mut View<N>,
    ) -> Result<Guest<N>, Refusal>
        requires { now ≤ GREATEST_TICK }
    {
        let Some(seen) = shared.testify(rt, bind.session, view)? else {
            return Err(Refusal::Code(20));
        };
        let mut seen = seen;
        let epoch = shared.bind(rt, bind, now, &mut seen)?;
        let rings = seen.bell().rings();
        Ok(Guest { epoch, seen, rings })
    }

    /// The epoch of the newest stream.
    pub fn epoch(&self) -> u64 {
        self.epoch
    }

    /// Whether the session's bell has rung since this was asked last.
    pub fn has_rung(&mut self) -> bool {
        let before = self.rings;
        self.rings = self.seen.bell().rings();
        self.rings != before
    }

    /// Sees what a publisher's pass has seen of an item.
    pub fn meet(&mut self, shared: &Shared<N>, pass: &mut PubPass<N>) {
        shared.meet(pass, &mut self.seen);
    }

    /// Binds a further stream of the session, after so many numbered lines where they are told.
    pub fn rebind<R: Wait>(
        &mut self,
        rt: &R,
        shared: &Shared<N>,
        recover: Option<u64>,
        now: u64,
    ) -> Result<u64, Refusal>
        requires { now ≤ GREATEST_TICK }
    {
        let bind = Bind {
            session: self.seen.session(),
            recover,
            keepalive: 5_000,
            length: None,
        };
        let epoch = shared.bind(rt, &bind, now, &mut self.seen)?;
        self.epoch = epoch;
        Ok(epoch)
    }

    /// Does an operation on the session.
    pub fn control<R: Wait>(
        &mut self,
        rt: &R,
        shared: &Shared<N>,
        op: &Op,
        now: u64,
    ) -> Result<(), Refusal>
        requires tick { now ≤ GREATEST_TICK }
        requires op { OpFits op.now }
    {
        let session = self.seen.session();
        shared.control(rt, session, op, now, &mut self.seen)
    }

    /// A turn of the newest stream.
    pub fn take<R: Wait, G: Gate>(
        &mut self,
        rt: &R,
        shared: &Shared<N>,
        now: u64,
        into: &mut LineBuf,
        gate: &G,
    ) -> Result<Turn, NoMemory>
        requires { now ≤ GREATEST_TICK }
    {
        let session = self.seen.session();
        shared.take(rt, session, self.epoch, now, &mut self.seen, into, gate)
    }

    /// The newest stream is lost.
    pub fn lose<R: Wait>(&mut self, rt: &R, shared: &Shared<N>, now: u64) -> Lost
        requires { now ≤ GREATEST_TICK }
    {
        shared.lose(rt, &mut self.seen, self.epoch, now)
    }
}
