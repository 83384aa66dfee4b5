//! The session that was seen last: its stream, and the loss of it.
ghost use Rattle.std.specs.Prelude.{◌≡◌, ◌≤◌, ◌++◌, ◌∷◌, [], ℕ, IfSome, length, vec_len};
ghost use Rattle.ls_value.specs.declared.limits.TheConstants.{GREATEST_TICK};
ghost use Rattle.ls_outside.specs.Causes.{Rose};
ghost use Rattle.ls_told.specs.Requests.{HasBound, OnlyLater};
ghost use Rattle.ls_conn.specs.Streaming.{Streamed};
ghost use Rattle.ls_conn.specs.Lasting.{HasLast, IsLostAt, LastBecomes};

use crate::report::{StreamEnd, StreamReport};
use crate::seen::Seen;
use crate::streaming::stream;
use ls_outside::{Clock, Gate};
use ls_register::House;
use ls_shared::{Shared, Testimony};
use ls_talk::Wire;
use std::alloc::Global;
use std::sync::Wait;

/// Gives the stream of an epoch of a session, which is the one that was seen last, as [`stream`] does.
pub fn stream_last<N: House, R: Wait, W: Wire, K: Clock, G: Gate>(
    rt: &R,
    alloc: Global,
    shared: &Shared<N>,
    session: u64,
    epoch: u64,
    seen: &mut Seen<N>,
    wire: &mut W,
    clock: &mut K,
    gate: &G,
    until: u64,
) -> StreamEnd
    requires last { HasLast seen.old (λ t. (session ≡ t.number) × HasBound epoch t.lines) }
    ensures last { LastBecomes seen.old seen.new (λ t u. Streamed result epoch t u (W.held wire.old) (W.held wire.new)) }
    ensures stopped { result ≡ StreamEnd.Stopped → until ≤ K.told clock.new }
    ensures left { result ≡ StreamEnd.PeerLeft → Rose (W.counts wire.old).leaves (W.counts wire.new).leaves }
    ensures fault { result ≡ StreamEnd.WriteFault → Rose (W.LineOut.faults wire.old) (W.LineOut.faults wire.new) }
    ensures faults { W.LineOut.faults wire.old ≤ W.LineOut.faults wire.new }
    ensures lender { W.lender wire.new ≡ W.lender wire.old }
{
    let tokens = &mut seen.tokens;
    let Some(token) = tokens.pop() else {
        unreachable!()
    };
    let StreamReport { end, told } = stream(
        rt, alloc, shared, session, epoch, token, wire, clock, gate, until,
    );
    tokens.push_reserved(told);
    end
}

/// The stream of an epoch of the session that was seen last is lost, at a tick, in ms, of at most
/// [`GREATEST_TICK`](ls_value::GREATEST_TICK). The call may wait.
pub fn lose_last<N: House, R: Wait>(
    rt: &R,
    shared: &Shared<N>,
    epoch: u64,
    seen: &mut Seen<N>,
    now: u64,
)
    requires tick { now ≤ GREATEST_TICK }
    requires last { HasLast seen.old (λ t. HasBound epoch t.lines) }
    ensures last { LastBecomes seen.old seen.new OnlyLater }
    ensures lost { LastBecomes seen.old seen.new (IsLostAt epoch now) }
{
    let tokens = &mut seen.tokens;
    let Some(mut token) = tokens.pop() else {
        unreachable!()
    };
    shared.lose(rt, &mut token, epoch, now);
    tokens.push_reserved(token);
}
