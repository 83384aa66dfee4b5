//! How long form texts and requests take to be read.
ghost use Rattle.std.specs.Prelude.{◌≤◌, IfOk, length};

use crate::Failed;
use ls_form::pairs;
use ls_request::{LinkKind, read};
use ls_value::NoMemory;
use std::alloc::{AllocError, Global};
use std::rt::Runtime;
use std::time::Instant;

/// The most bytes that a form text may have.
const MOST: usize = 50_000;

/// How often each form text is read.
const TIMES: u64 = 20;

/// How often each measurement is made; the best counts.
const ROUNDS: u64 = 5;

/// How many requests are read.
const REQUESTS: u64 = 1_000;

/// The mode, the items and the fields of each request.
const ADD_ITEMS: &str = "LS_mode=MERGE&LS_group=item1+item2&LS_schema=last_price+time+stock_name";

/// The other parameters of each request.
const ADD_REST: &str =
    "LS_data_adapter=QUOTE_ADAPTER&LS_snapshot=true&LS_requested_max_frequency=3.0";

/// The ratio, in hundredths, above which the time grows faster than the form text. It is 200 where both double, and
/// 400 of a square.
const MOST_RATIO: u128 = 300;

/// A form text of as many pairs as go into so many bytes. Their names are the numbers from 0, so that they differ, and
/// each text is `b`.
fn short_pairs(alloc: Global, bytes: usize) -> Result<Vec<u8>, AllocError>
    ensures { IfOk result (λ form. length form.items ≤ bytes) }
{
    let mut form = Vec::new(alloc);
    for number in 0..bytes {
        let pair = format!(in alloc; "{number}=b&")?;
        if pair.len() > bytes - form.len() {
            break;
        }
        form.extend_from_slice(pair.as_bytes())?;
    }
    Ok(form)
}

/// A form text of one pair of so many bytes.
fn one_pair(alloc: Global, bytes: usize) -> Result<Vec<u8>, AllocError>
    ensures { IfOk result (λ form. length form.items ≤ bytes) }
{
    let mut form = Vec::new(alloc);
    for i in 0..bytes {
        form.push(if i == 1 { b'=' } else { b'b' })?;
    }
    Ok(form)
}

/// Reads a form text many times, and answers how many pairs it has.
fn read_often(alloc: Global, form: &[u8]) -> Result<usize, Failed> {
    let mut count = 0;
    for _ in 0..TIMES {
        let Ok(params) = pairs(alloc, form) else {
            return Err(Failed::Unread);
        };
        count = params.len();
    }
    Ok(count)
}

/// How many pairs a form text has, and the nanoseconds that reading it takes.
fn read_time<R: Runtime + AllocGlobal>(rt: &R, form: &[u8]) -> Result<(usize, u128), Failed> {
    let mut count = 0;
    let mut best = u128::MAX;
    for _ in 0..ROUNDS {
        let start = Instant::now(rt)?;
        count = read_often(rt.alloc(), form)?;
        best = best.min(start.elapsed(rt)?.as_nanos());
    }
    Ok((count, best / TIMES as u128))
}

/// Prints the times of a form text and of one of half its bytes, and their ratio, which must show that the time doesn't
/// grow as a square.
fn report<R: Runtime + AllocGlobal>(
    rt: &R,
    what: &str,
    half: &[u8],
    whole: &[u8],
) -> Result<(), Failed> {
    let (_, before) = read_time(rt, half)?;
    let (count, time) = read_time(rt, whole)?;
    let ratio = time.saturating_mul(100) / before.max(1);
    println!(rt;
        "pairs of {} bytes, {what}, {count} of them: {time} ns; of {} bytes: {before} ns; ratio {}.{:02}",
        whole.len(),
        half.len(),
        ratio / 100,
        ratio % 100
    )?;
    if ratio > MOST_RATIO {
        return Err(Failed::Grows);
    }
    Ok(())
}

/// The parameters of a control request that adds a subscription of this number.
fn add_of(alloc: Global, number: u64) -> Result<String, AllocError> {
    format!(in alloc; "LS_reqId={number}&LS_op=add&LS_subId={number}&{ADD_ITEMS}&{ADD_REST}")
}

/// Reads so many control requests on a WebSocket, each of which adds a subscription.
fn read_adds(alloc: Global) -> Result<(), Failed> {
    for number in 1..=REQUESTS {
        let text = add_of(alloc, number)?;
        let Ok(_request) = read(alloc, LinkKind::Ws, b"control", text.as_bytes()) else {
            return Err(Failed::Unread);
        };
    }
    Ok(())
}

/// Measures control requests.
fn measure_adds<R: Runtime + AllocGlobal>(rt: &R) -> Result<(), Failed> {
    let mut best = u128::MAX;
    for _ in 0..ROUNDS {
        let start = Instant::now(rt)?;
        read_adds(rt.alloc())?;
        best = best.min(start.elapsed(rt)?.as_nanos());
    }
    println!(rt;
        "control add, {REQUESTS} requests: {} ns each",
        best / REQUESTS as u128
    )?;
    Ok(())
}

/// Measures form texts of many pairs, one pair and requests.
pub fn measure<R: Runtime + AllocGlobal>(rt: &R) -> Result<(), Failed> {
    let alloc = rt.alloc();
    let half = short_pairs(alloc, MOST / 2)?;
    let whole = short_pairs(alloc, MOST)?;
    report(
        rt,
        "names of 1 to 4 digits and texts of one letter",
        &half,
        &whole,
    )?;
    let half = one_pair(alloc, MOST / 2)?;
    let whole = one_pair(alloc, MOST)?;
    report(rt, "one text", &half, &whole)?;
    measure_adds(rt)
}
