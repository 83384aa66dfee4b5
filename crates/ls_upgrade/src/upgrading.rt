//! A handshake's reply, and what follows it.
ghost use Rattle.std.specs.Prelude.{◌≡◌, ◌≤◌, ◌⊎◌, ℕ, IfErr, IfOk, List, OnErr, OnOk};
ghost use Rattle.std.specs.Io.KnownBytes.{Appends};
ghost use mathlib.Core.List.{IsPrefix};
ghost use Rattle.ls_outside.specs.Causes.{Rose, RoseBy};
ghost use Rattle.ls_http.specs.Replies.{upgrade_text};
ghost use Rattle.ls_ws.specs.Accept.{accept_of};
ghost use Rattle.ls_conn_ws.specs.Ends.{MOST_IDLES, Refused};

use crate::lent::Lent;
use ls_conn_ws::{ConnEnd, ConnReport, MOST_IDLES, Seen, Shared, serve_ws};
use ls_http::append_upgrade;
use ls_outside::{Clock, Gate, Pipe, Put, Sink, write_all};
use ls_register::House;
use ls_value::NoMemory;
use ls_wake::Wakes;
use ls_ws::{WsWire, accept_text};
use std::alloc::Global;
use std::sync::Wait;

/// The reply to a handshake with this key.
fn reply_text(alloc: Global, key: &[u8]) -> Result<Vec<u8>, NoMemory>
    ensures { IfOk result (λ text. text.items ≡ upgrade_text (accept_of key.now)) }
{
    let accept = accept_text(alloc, key)?;
    let mut text = Vec::new(alloc);
    append_upgrade(&mut text, accept.as_slice())?;
    Ok(text)
}

/// Answers a handshake that was accepted, by its key (RFC 6455, section 4.2.2): then the connection is a WebSocket. At
/// an error it isn't: `WriteFault` comes after the first write that failed, and `NoMemory` where memory was refused. A
/// part of the reply, from its front, may be written then.
pub fn accept<C: Sink>(alloc: Global, conn: &mut C, key: &[u8]) -> Result<(), ConnEnd>
    ensures replied { OnOk result (Appends (C.held conn.old) (C.held conn.new) (upgrade_text (accept_of key.now))) }
    ensures part { OnErr result ((part : List ℕ) × IsPrefix part (upgrade_text (accept_of key.now))
        × Appends (C.held conn.old) (C.held conn.new) part) }
    ensures ended { IfErr result (λ end. (end ≡ ConnEnd.WriteFault) ⊎ (end ≡ ConnEnd.NoMemory)) }
    ensures fault { IfErr result (λ end. end ≡ ConnEnd.WriteFault → Rose (C.faults conn.old) (C.faults conn.new)) }
    ensures faults { C.faults conn.old ≤ C.faults conn.new }
    ensures source { C.gives conn.new ≡ C.gives conn.old }
{
    let Ok(text) = reply_text(alloc, key) else {
        return Err(ConnEnd::NoMemory);
    };
    match write_all(conn, &text) {
        Put::Taken(_) => Ok(()),
        Put::Failed => Err(ConnEnd::WriteFault),
    }
}

/// Serves a WebSocket over a pipe, from which these bytes were read past the handshake.
fn talk_over<N: House, R: Wait, C: Pipe + Wakes + Drop, K: Clock, G: Gate>(
    rt: &R,
    alloc: Global,
    conn: C,
    rest: Vec<u8>,
    shared: &Shared<N>,
    clock: &mut K,
    gate: &G,
    until: u64,
) -> ConnReport<N>
    ensures stopped { result.end ≡ ConnEnd.Stopped → until ≤ K.told clock.new }
{
    let mut wire = WsWire::over_after(alloc, conn, rest);
    serve_ws(rt, alloc, &mut wire, shared, clock, gate, until)
}

/// The counts of a pipe.
#[derive(Clone, Copy)]
struct Noted {
    reads: u64,
    writes: u64,
    idles: u64,
}

/// The end of a WebSocket as that of its pipe: a fault that the pipe didn't count is that the peer left.
fn end_over<C: Pipe>(end: ConnEnd, conn: &C, before: Noted) -> ConnEnd
    ensures read_fault { result ≡ ConnEnd.ReadFault → Rose before.reads (C.Source.faults conn.now) }
    ensures write_fault { result ≡ ConnEnd.WriteFault → Rose before.writes (C.Sink.faults conn.now) }
    ensures too_slow { result ≡ ConnEnd.TooSlow → RoseBy MOST_IDLES before.idles (C.waits conn.now) }
    ensures stopped { result ≡ ConnEnd.Stopped → end ≡ ConnEnd.Stopped }
    ensures not_served { result ≡ ConnEnd.Served → ⊥ }
    ensures not_refused { (status : ℕ) → result ≡ Refused status → ⊥ }
{
    let rose = match end {
        ConnEnd::ReadFault => conn.read_faults() >= before.reads.saturating_add(1),
        ConnEnd::WriteFault => conn.write_faults() >= before.writes.saturating_add(1),
        ConnEnd::TooSlow => conn.idles() >= before.idles.saturating_add(MOST_IDLES),
        ConnEnd::Stopped | ConnEnd::NoMemory => true,
        ConnEnd::Served | ConnEnd::Refused { status: _ } | ConnEnd::PeerLeft => false,
    };
    if rose { end } else { ConnEnd::PeerLeft }
}

/// Answers a handshake that was accepted, by its key, and serves the WebSocket to its end, where these bytes were read
/// from the pipe past the handshake (RFC 6455, section 4.2.2; TLCP 2.1, WebSocket transport). See [`serve_ws`] for the
/// rest. A fault is answered only where the pipe counted it; any other end of the socket is that the peer left.
///
/// It isn't inlined, so that a WebSocket's stack isn't under that of a request over HTTP.
#[inline(never)]
pub fn upgrade<N: House, R: Wait, C: Pipe + Wakes, K: Clock, G: Gate>(
    rt: &R,
    alloc: Global,
    conn: &mut C,
    key: &[u8],
    rest: Vec<u8>,
    shared: &Shared<N>,
    clock: &mut K,
    gate: &G,
    until: u64,
) -> ConnReport<N>
    ensures read_fault { result.end ≡ ConnEnd.ReadFault → Rose (C.Source.faults conn.old) (C.Source.faults conn.new) }
    ensures write_fault { result.end ≡ ConnEnd.WriteFault → Rose (C.Sink.faults conn.old) (C.Sink.faults conn.new) }
    ensures too_slow { result.end ≡ ConnEnd.TooSlow → RoseBy MOST_IDLES (C.waits conn.old) (C.waits conn.new) }
    ensures stopped { result.end ≡ ConnEnd.Stopped → until ≤ K.told clock.new }
    ensures not_served { result.end ≡ ConnEnd.Served → ⊥ }
    ensures not_refused { (status : ℕ) → result.end ≡ Refused status → ⊥ }
{
    let before = Noted {
        reads: conn.read_faults(),
        writes: conn.write_faults(),
        idles: conn.idles(),
    };
    if let Err(end) = accept(alloc, conn, key) {
        return ConnReport {
            end,
            view: shared.view(rt),
            seen: Seen::new(alloc),
            told: None,
        };
    }
    let report = talk_over(
        rt,
        alloc,
        Lent { pipe: conn },
        rest,
        shared,
        clock,
        gate,
        until,
    );
    let ConnReport {
        end,
        view,
        seen,
        told,
    } = report;
    ConnReport {
        end: end_over(end, conn, before),
        view,
        seen,
        told,
    }
}
