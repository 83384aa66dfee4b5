//! What comes in: a request's head and its body.
ghost use Rattle.std.specs.Prelude.{◌≡◌, ◌<◌, ◌≤◌, ◌+◌, ◌++◌, [], ℕ, IfErr, IfOk, IsErrOf, OnErr, OnOk, length, vec_len, Some, take, drop};
ghost use Rattle.std.specs.Vec.{vec_capacity};
ghost use Rattle.std.specs.Io.KnownBytes.{Keeps};
ghost use Rattle.ls_http.specs.declared.head.TheConstants.{LONGEST_BODY};
ghost use Rattle.ls_http.specs.Heads.{body_of};
ghost use Rattle.ls_http.specs.Reading.{IsFound};
ghost use Rattle.ls_conn.specs.declared.ended.ConnEnd.TheVariants as end_is;
ghost use Rattle.ls_conn_http.specs.Coming.{HasCome};
ghost use Rattle.ls_conn_http.specs.Reading.{Unserved};
ghost use Rattle.ls_conn_http.specs.Taking.{Counts, Reads, StopsReading};

use ls_conn::{ConnEnd, MOST_IDLES};
use ls_http::{Head, HeadRefused, read_head};
use ls_outside::{Clock, Got, Pipe, Source};
use ls_value::{Bytes, NoMemory, Text};
use std::alloc::Global;
use std::sync::Wait;

/// How many bytes are read at once, at most. A stream holds the room of one read, so it is no larger than most requests.
const PIECE: usize = 1024;

/// How many ms are waited at most where no byte is there yet. The first time it is one, and each time one more, since most
/// requests come whole soon after their client.
const PAUSE: u64 = 10;

/// The bytes of a request that came, and how many reads found none.
#[derive(Drop)]
pub(crate) struct Intake {
    pub(crate) bytes: Vec<u8>,
    idles: u64,
}

/// The head of a request: its name, whether it names the protocol's version, where its body begins, and the bytes of
/// that.
#[derive(Drop)]
pub(crate) struct Post {
    pub(crate) name: Text,
    pub(crate) version: bool,
    start: usize,
    length: usize,
}

/// What came in: a request whose body is whole, or the head that asks for the upgrade to WebSocket.
#[derive(Drop)]
pub(crate) enum Came {
    /// A request.
    Post(Post),

    /// A handshake: its key, and where the bytes begin that came past it.
    Upgrade { key: Bytes, start: usize },
}

/// Counts a read that found no byte, and lets the clock wait.
fn idle<K: Clock>(clock: &mut K, idles: &mut u64) -> Result<(), ConnEnd>
    requires { idles.old < MOST_IDLES }
    ensures more { idles.new ≡ idles.old + 1 }
    ensures ok { OnOk result (idles.new < MOST_IDLES) }
    ensures err { IfErr result (λ e. (e ≡ end_is.TooSlow) × (idles.new ≡ MOST_IDLES)) }
    ensures later { K.told clock.old ≤ K.told clock.new }
{
    *idles += 1;
    if *idles == MOST_IDLES {
        return Err(ConnEnd::TooSlow);
    }
    clock.wait(PAUSE.min(*idles));
    Ok(())
}

/// Appends bytes for which there is room.
fn append(bytes: &mut Vec<u8>, piece: &[u8])
    requires { vec_len bytes.old + length piece.now ≤ vec_capacity bytes.old }
    ensures { bytes.new.items ≡ bytes.old.items ++ piece.now }
{
    let Ok(()) = bytes.extend_from_slice(piece) else {
        unreachable!()
    };
}

/// Reads once: some bytes come, or none, or it is over. Room for them is taken before.
fn read_once<C: Pipe, K: Clock>(
    conn: &mut C,
    clock: &mut K,
    until: u64,
    bytes: &mut Vec<u8>,
    idles: &mut u64,
) -> Result<(), ConnEnd>
    requires { idles.old < MOST_IDLES }
    ensures reads { OnOk result (Reads (C.unread conn.old) (C.unread conn.new) bytes.old.items bytes.new.items) }
    ensures few { OnOk result (idles.new < MOST_IDLES) }
    ensures stays { OnErr result ((bytes.new.items ≡ bytes.old.items) × Keeps (C.unread conn.old) (C.unread conn.new)) }
    ensures counts { Counts idles.old idles.new (C.waits conn.old) (C.waits conn.new) (C.Source.faults conn.old)
        (C.Source.faults conn.new) }
    ensures stops { IfErr result (λ e. StopsReading e idles.new (C.unread conn.new) (C.Source.faults conn.old)
        (C.Source.faults conn.new) until (K.told clock.new)) }
    ensures no_refusal { (status : ℕ) → IsErrOf result (end_is.Refused status) → ⊥ }
    ensures sink { C.holds conn.new ≡ C.holds conn.old }
{
    if clock.now() >= until {
        return Err(ConnEnd::Stopped);
    }
    if bytes.reserve(PIECE).is_err() {
        return Err(ConnEnd::NoMemory);
    }
    let mut piece = [0u8; PIECE];
    match conn.read(&mut piece) {
        Got::Bytes(count) => {
            append(bytes, &piece[..count]);
            Ok(())
        }
        Got::End => Err(ConnEnd::PeerLeft),
        Got::NotYet => idle(clock, idles),
        Got::Failed => Err(ConnEnd::ReadFault),
    }
}

impl Intake {
    /// Before any byte.
    pub(crate) fn new(alloc: Global) -> Intake
        ensures { (result.bytes.items ≡ []) × (result.idles ≡ 0) }
    {
        Intake {
            bytes: Vec::new(alloc),
            idles: 0,
        }
    }
}

/// Reads until the head is whole, and answers it with its length in bytes.
#[tactic(auto, using(crate::proofs::Pieces::reads_none, crate::proofs::Pieces::reads_start, crate::proofs::Pieces::reads_on, crate::proofs::Pieces::counts_start, crate::proofs::Pieces::counts_on))]
fn read_whole_head<R: Wait, C: Pipe, K: Clock>(
    rt: &R,
    alloc: Global,
    conn: &mut C,
    clock: &mut K,
    until: u64,
    bytes: &mut Vec<u8>,
    idles: &mut u64,
) -> Result<(Head, usize), ConnEnd>
    requires { idles.old < MOST_IDLES }
    ensures reads { Reads (C.unread conn.old) (C.unread conn.new) bytes.old.items bytes.new.items }
    ensures few { OnOk result (idles.new < MOST_IDLES) }
    ensures found { IfOk result (λ f. IsFound bytes.new.items (Some f)) }
    ensures within { IfOk result (λ f. (f.1 ≤ length bytes.new.items) × (body_of f.0 ≤ LONGEST_BODY)) }
    ensures unserved { IfErr result (λ e. Unserved e bytes.new.items) }
    ensures counts { Counts idles.old idles.new (C.waits conn.old) (C.waits conn.new) (C.Source.faults conn.old)
        (C.Source.faults conn.new) }
    ensures stops { IfErr result (λ e. StopsReading e idles.new (C.unread conn.new) (C.Source.faults conn.old)
        (C.Source.faults conn.new) until (K.told clock.new)) }
    ensures sink { C.holds conn.new ≡ C.holds conn.old }
{
    for _ in rt.forever() {
        match read_head(alloc, bytes) {
            Ok(Some(found)) => return Ok(found),
            Ok(None) => {}
            Err(HeadRefused::Status { status }) => return Err(ConnEnd::Refused { status }),
            Err(HeadRefused::NoMemory) => return Err(ConnEnd::NoMemory),
        }
        match read_once(conn, clock, until, bytes, idles) {
            Ok(()) => {}
            Err(end) => return Err(end),
        }
    }
    unreachable!()
}

/// Reads until so many bytes are there.
#[tactic(auto, using(crate::proofs::Pieces::reads_none, crate::proofs::Pieces::reads_start, crate::proofs::Pieces::reads_on, crate::proofs::Pieces::counts_start, crate::proofs::Pieces::counts_on))]
fn read_up_to<R: Wait, C: Pipe, K: Clock>(
    rt: &R,
    conn: &mut C,
    clock: &mut K,
    until: u64,
    bytes: &mut Vec<u8>,
    idles: &mut u64,
    need: usize,
) -> Result<(), ConnEnd>
    requires { idles.old < MOST_IDLES }
    ensures reads { Reads (C.unread conn.old) (C.unread conn.new) bytes.old.items bytes.new.items }
    ensures whole { OnOk result (need ≤ length bytes.new.items) }
    ensures short { OnErr result (length bytes.new.items < need) }
    ensures counts { Counts idles.old idles.new (C.waits conn.old) (C.waits conn.new) (C.Source.faults conn.old)
        (C.Source.faults conn.new) }
    ensures stops { IfErr result (λ e. StopsReading e idles.new (C.unread conn.new) (C.Source.faults conn.old)
        (C.Source.faults conn.new) until (K.told clock.new)) }
    ensures no_refusal { (status : ℕ) → IsErrOf result (end_is.Refused status) → ⊥ }
    ensures sink { C.holds conn.new ≡ C.holds conn.old }
{
    for _ in rt.forever() {
        if bytes.len() >= need {
            return Ok(());
        }
        match read_once(conn, clock, until, bytes, idles) {
            Ok(()) => {}
            Err(end) => return Err(end),
        }
    }
    unreachable!()
}

/// Reads the body of a request whose head was read.
fn read_body<R: Wait, C: Pipe, K: Clock>(
    rt: &R,
    conn: &mut C,
    clock: &mut K,
    until: u64,
    intake: &mut Intake,
    head: Head,
    start: usize,
) -> Result<Came, ConnEnd>
    requires few { intake.old.idles < MOST_IDLES }
    requires found { IsFound intake.old.bytes.items (Some (head, start)) }
    requires within { start ≤ length intake.old.bytes.items }
    requires short { body_of head ≤ LONGEST_BODY }
    ensures reads { Reads (C.unread conn.old) (C.unread conn.new) intake.old.bytes.items intake.new.bytes.items }
    ensures came { IfOk result (HasCome intake.new.bytes.items) }
    ensures unserved { IfErr result (λ e. Unserved e intake.new.bytes.items) }
    ensures counts { Counts intake.old.idles intake.new.idles (C.waits conn.old) (C.waits conn.new)
        (C.Source.faults conn.old) (C.Source.faults conn.new) }
    ensures stops { IfErr result (λ e. StopsReading e intake.new.idles (C.unread conn.new) (C.Source.faults conn.old)
        (C.Source.faults conn.new) until (K.told clock.new)) }
    ensures sink { C.holds conn.new ≡ C.holds conn.old }
{
    match head {
        Head::Post {
            name,
            version,
            length,
        } => {
            let length = length as usize;
            let need = start + length;
            match read_up_to(
                rt,
                conn,
                clock,
                until,
                &mut intake.bytes,
                &mut intake.idles,
                need,
            ) {
                Ok(()) => Ok(Came::Post(Post {
                    name,
                    version,
                    start,
                    length,
                })),
                Err(end) => Err(end),
            }
        }
        Head::Upgrade { key } => Ok(Came::Upgrade { key, start }),
    }
}

/// Reads what comes first: a request with its body, or a handshake. It isn't inlined, so that its stack isn't under that
/// of what is served.
#[inline(never)]
#[tactic(auto, using(crate::proofs::Pieces::reads_on, crate::proofs::Pieces::counts_on))]
pub(crate) fn read_first<R: Wait, C: Pipe, K: Clock>(
    rt: &R,
    alloc: Global,
    conn: &mut C,
    clock: &mut K,
    until: u64,
    intake: &mut Intake,
) -> Result<Came, ConnEnd>
    requires few { intake.old.idles < MOST_IDLES }
    ensures reads { Reads (C.unread conn.old) (C.unread conn.new) intake.old.bytes.items intake.new.bytes.items }
    ensures came { IfOk result (HasCome intake.new.bytes.items) }
    ensures unserved { IfErr result (λ e. Unserved e intake.new.bytes.items) }
    ensures counts { Counts intake.old.idles intake.new.idles (C.waits conn.old) (C.waits conn.new)
        (C.Source.faults conn.old) (C.Source.faults conn.new) }
    ensures stops { IfErr result (λ e. StopsReading e intake.new.idles (C.unread conn.new) (C.Source.faults conn.old)
        (C.Source.faults conn.new) until (K.told clock.new)) }
    ensures sink { C.holds conn.new ≡ C.holds conn.old }
{
    match read_whole_head(
        rt,
        alloc,
        conn,
        clock,
        until,
        &mut intake.bytes,
        &mut intake.idles,
    ) {
        Ok((head, start)) => read_body(rt, conn, clock, until, intake, head, start),
        Err(end) => Err(end),
    }
}

/// The body of a request that was read.
pub(crate) fn body_of<'a>(intake: &'a Intake, post: &Post) -> &'a [u8]
    requires { post.now.start + post.now.length ≤ length intake.now.bytes.items }
    ensures { result.now ≡ take post.now.length (drop post.now.start intake.now.bytes.items) }
{
    &intake.bytes[post.start..post.start + post.length]
}

/// The bytes that came past a handshake, of those that were read.
pub(crate) fn rest_of(alloc: Global, intake: Intake, start: usize) -> Result<Vec<u8>, NoMemory>
    requires { start ≤ length intake.bytes.items }
    ensures { IfOk result (λ rest. rest.items ≡ drop start intake.bytes.items) }
{
    let rest = Vec::from_slice(alloc, &intake.bytes[start..])?;
    Ok(rest)
}
