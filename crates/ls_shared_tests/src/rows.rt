//! Worked examples by the calls of a server: tables that make each allocating call once.
use crate::world::other_answer;
use std::alloc::{AllocError, Global};
use std::test::Fail;

/// Lines that were given up, and lines that weren't numbered yet.
const RECOVERY: &str = "\
open > 1
ask 0 LS_reqId=1&LS_op=add&LS_subId=1&LS_mode=MERGE&LS_group=q&LS_schema=x > ok
take 0 9 > CONOK,S1,50000,5000,* / SERVNAME,tlcpd / CONS,unlimited / SUBOK,1,1,1 / CONF,1,unlimited,filtered / -idle
many q 1028 > 1028
bind LS_session=S1&LS_recovery_from=6 > 2
take 1 5 > CONOK,S1,50000,5000,* / SERVNAME,tlcpd / CONS,unlimited / PROG,6 / U,1,1,5
bind LS_session=S1&LS_recovery_from=1030 > 3
take 2 9 > CONOK,S1,50000,5000,* / SERVNAME,tlcpd / CONS,unlimited / PROG,1030 / -idle
bind LS_session=S1&LS_recovery_from=1031 > 4 Recovery not possible
bind LS_session=S1&LS_recovery_from=5 > 4 Recovery not possible
take 2 1 > -idle
take 1 1 > -superseded 3
";

#[test]
fn lines_are_kept_as_long_as_they_may(rt: HostRuntime) -> Result<(), Fail> {
    let other = other_answer(&rt, rt.alloc(), b"q MERGE x\n", RECOVERY)?;
    assert!(rt; other.is_empty(), "{other}");
    Ok(())
}

/// A stream that is lost, and another one that goes on.
const LOSS: &str = "\
open > 1
ask 0 LS_reqId=1&LS_op=add&LS_subId=1&LS_mode=MERGE&LS_group=quote&LS_schema=last+time > ok
pub quote 1 last=3.04&time=20:00:33 > 1
take 0 9 > CONOK,S1,50000,5000,* / SERVNAME,tlcpd / CONS,unlimited / SUBOK,1,1,2 / CONF,1,unlimited,filtered / U,1,1,3.04|20:00:33 / -idle
lose 0 > lost
lose 0 > unbound
take 0 1 > -unbound
bind LS_session=S1&LS_recovery_from=2 > 2
take 1 9 > CONOK,S1,50000,5000,* / SERVNAME,tlcpd / CONS,unlimited / PROG,2 / U,1,1,3.04|20:00:33 / -idle
take 0 1 > -superseded 2
lose 0 > superseded 2
rebind 0 3 > 3
take 1 1 > -superseded 3
take 0 9 > CONOK,S1,50000,5000,* / SERVNAME,tlcpd / CONS,unlimited / PROG,3 / -idle
";

#[test]
fn another_stream_goes_on(rt: HostRuntime) -> Result<(), Fail> {
    let other = other_answer(&rt, rt.alloc(), b"quote MERGE last,time\n", LOSS)?;
    assert!(rt; other.is_empty(), "{other}");
    Ok(())
}

/// What adds are refused for, in order.
const REFUSALS: &str = "\
open > 1
request LS_reqId=1&LS_session=S9&LS_op=add&LS_subId=1&LS_mode=MERGE&LS_group=q&LS_schema=x > 20 Unknown session
request LS_reqId=1&LS_session=S1&LS_op=add&LS_subId=1&LS_mode=MERGE&LS_group=d&LS_schema=y > 24 Mode not allowed
ask 0 LS_reqId=1&LS_op=add&LS_subId=1&LS_mode=MERGE&LS_group=nope&LS_schema=z > 21 Bad group
ask 0 LS_reqId=1&LS_op=add&LS_subId=1&LS_mode=MERGE&LS_group=q&LS_schema=z > 23 Bad schema
ask 0 LS_reqId=1&LS_op=add&LS_subId=1&LS_mode=MERGE&LS_group=q&LS_schema=x > ok
ask 0 LS_reqId=1&LS_op=add&LS_subId=1&LS_mode=MERGE&LS_group=nope&LS_schema=x > 72 Subscription id in use
ask 0 LS_reqId=1&LS_op=add&LS_subId=x&LS_mode=MERGE&LS_group=q&LS_schema=x > 65 Malformed request
ask 0 LS_reqId=1&LS_op=delete&LS_subId=9 > 19 Unknown subscription
take 0 9 > CONOK,S1,50000,5000,* / SERVNAME,tlcpd / CONS,unlimited / SUBOK,1,1,1 / CONF,1,unlimited,filtered / -idle
";

#[test]
fn adds_are_refused_in_order(rt: HostRuntime) -> Result<(), Fail> {
    let other = other_answer(&rt, rt.alloc(), b"q MERGE x\nd DISTINCT y\n", REFUSALS)?;
    assert!(rt; other.is_empty(), "{other}");
    Ok(())
}

/// The items of the example of TLCP 2.1.
const STOCKS: &[u8] =
    b"item1 MERGE stock_name,last_price,time\nitem2 MERGE stock_name,last_price,time\n";

/// A whole stream, and a session that asks for another adapter set.
const STREAM: &str = "\
pub item1 1 stock_name=Anduct&last_price=3.04&time=20:00:33 > 1
pub item2 1 stock_name=Ations%20Europe&last_price=16.09&time=20:00:30 > 1
open LS_cid=mgQkwtwdysogQz2BJ4Ji%20kOj2Bg&LS_adapter_set=OTHER&LS_cause=api&LS_user=u > 2 Unknown adapter set
open LS_cid=mgQkwtwdysogQz2BJ4Ji%20kOj2Bg&LS_adapter_set=DEFAULT&LS_cause=api&LS_user=u > 1
ask 0 LS_reqId=2&LS_op=add&LS_subId=1&LS_mode=MERGE&LS_group=item1+item2&LS_schema=last_price+time+stock_name&LS_data_adapter=QUOTE_ADAPTER&LS_snapshot=true&LS_requested_max_frequency=3.0 > ok
take 0 20 > CONOK,S1,50000,5000,* / SERVNAME,tlcpd / CONS,unlimited / SUBOK,1,2,3 / CONF,1,3.0,filtered / U,1,1,3.04|20:00:33|Anduct / U,1,2,16.09|20:00:30|Ations Europe / -idle
pub item1 2 last_price=3.05 > 2
take 0 1 > -notdue 334
tick 333 > ok
take 0 1 > -notdue 334
tick 334 > ok
take 0 2 > U,1,1,3.05|| / -idle
ask 0 LS_reqId=3&LS_op=reconf&LS_subId=1&LS_requested_max_frequency=unlimited > ok
take 0 2 > CONF,1,unlimited,filtered / -idle
pub item2 2 ! > 2
take 0 2 > U,1,2,#|#|# / -idle
ask 0 LS_reqId=4&LS_op=constrain&LS_requested_max_bandwidth=40.0 > ok
take 0 2 > CONS,40.0 / -idle
ask 0 LS_reqId=5&LS_op=delete&LS_subId=1 > ok
pub item1 3 last_price=3.06 > 3
take 0 2 > UNSUB,1 / -idle
";

#[test]
fn a_stream_from_its_first_line(rt: HostRuntime) -> Result<(), Fail> {
    let other = other_answer(&rt, rt.alloc(), STOCKS, STREAM)?;
    assert!(rt; other.is_empty(), "{other}");
    Ok(())
}

/// A slot that lags: an offer catches it up.
const LAG: &str = "\
open > 1
ask 0 LS_reqId=1&LS_op=add&LS_subId=1&LS_mode=MERGE&LS_group=q&LS_schema=x > ok
pile q 64 > 64
pub q 65 x=a > 65
pub q 65 x=b > repeated 65
take 0 9 > CONOK,S1,50000,5000,* / SERVNAME,tlcpd / CONS,unlimited / SUBOK,1,1,1 / CONF,1,unlimited,filtered / U,1,1,a / -idle
pile q 65 > repeated 65
ask 0 LS_reqId=1&LS_op=add&LS_subId=2&LS_mode=RAW&LS_group=q&LS_schema=x > ok
take 0 3 > SUBOK,2,1,1 / CONF,2,unlimited,unfiltered / -idle
";

#[test]
fn a_slot_that_lags_is_caught_up(rt: HostRuntime) -> Result<(), Fail> {
    let other = other_answer(&rt, rt.alloc(), b"q MERGE x\n", LAG)?;
    assert!(rt; other.is_empty(), "{other}");
    Ok(())
}

/// A stream that is left by LOOP, and a session that a sweep ends.
const LEFT: &str = "\
open > 1
ask 0 LS_reqId=5&LS_op=force_rebind > ok
take 0 9 > CONOK,S1,50000,5000,* / SERVNAME,tlcpd / CONS,unlimited / LOOP,0 / -unbound
bind LS_session=S1 > 2
take 1 9 > CONOK,S1,50000,5000,* / SERVNAME,tlcpd / CONS,unlimited / -idle
lose 1 > lost
tick 29999 > ok
sweep > ok
seen 1 > yes
tick 30000 > ok
sweep > ok
seen 1 > no
request LS_reqId=6&LS_session=S1&LS_op=destroy > 20 Unknown session
ask 0 LS_reqId=6&LS_op=destroy > 20 Unknown session
rebind 0 > 20 Unknown session
take 1 1 > -ended 73
seen 2 > no
";

#[test]
fn a_sweep_ends_a_session(rt: HostRuntime) -> Result<(), Fail> {
    let other = other_answer(&rt, rt.alloc(), b"q MERGE x\n", LEFT)?;
    assert!(rt; other.is_empty(), "{other}");
    Ok(())
}

/// Sessions that a bind and a request end, since they are without a stream for too long; and one that is bound in time.
const OVERDUE: &str = "\
open > 1
open > 1
open > 1
lose 0 > lost
lose 1 > lost
lose 2 > lost
tick 29999 > ok
bind LS_session=S3 > 2
tick 30000 > ok
bind LS_session=S1 > 20 Unknown session
seen 1 > no
request LS_reqId=1&LS_session=S2&LS_op=force_rebind > 20 Unknown session
seen 2 > no
sweep > ok
seen 3 > yes
take 3 9 > CONOK,S3,50000,5000,* / SERVNAME,tlcpd / CONS,unlimited / -idle
take 0 1 > -ended 73
open > 1
take 4 1 > CONOK,S4,50000,5000,*
";

#[test]
fn a_bind_ends_a_session_that_is_overdue(rt: HostRuntime) -> Result<(), Fail> {
    let other = other_answer(&rt, rt.alloc(), b"q MERGE x\n", OVERDUE)?;
    assert!(rt; other.is_empty(), "{other}");
    Ok(())
}

/// A session that is ended by a request.
const DESTROYED: &str = "\
open > 1
ask 0 LS_reqId=1&LS_op=add&LS_subId=1&LS_mode=RAW&LS_group=q&LS_schema=x > ok
ask 0 LS_reqId=6&LS_op=destroy > ok
seen 1 > no
take 0 9 > END,31,Destroyed by request / -ended 31
ask 0 LS_reqId=6&LS_op=destroy > 20 Unknown session
pub q 1 x=1 > 1
take 0 9 > -ended 31
";

#[test]
fn a_request_ends_a_session(rt: HostRuntime) -> Result<(), Fail> {
    let other = other_answer(&rt, rt.alloc(), b"q MERGE x\n", DESTROYED)?;
    assert!(rt; other.is_empty(), "{other}");
    Ok(())
}

/// A stream that has nothing to give for its keep-alive.
const SILENCE: &str = "\
open LS_keepalive_millis=1000 > 1
take 0 9 > CONOK,S1,50000,1000,* / SERVNAME,tlcpd / CONS,unlimited / -idle
tick 999 > ok
take 0 1 > -idle
tick 1000 > ok
take 0 2 > PROBE / -idle
tick 1500 > ok
bind LS_session=S1&LS_keepalive_millis=2000 > 2
take 1 9 > CONOK,S1,50000,2000,* / SERVNAME,tlcpd / CONS,unlimited / -idle
tick 3499 > ok
take 1 1 > -idle
tick 3500 > ok
take 1 2 > PROBE / -idle
take 0 1 > -superseded 2
";

#[test]
fn a_stream_is_told_to_be_alive(rt: HostRuntime) -> Result<(), Fail> {
    let other = other_answer(&rt, rt.alloc(), b"q MERGE x\n", SILENCE)?;
    assert!(rt; other.is_empty(), "{other}");
    Ok(())
}

/// A session's bell rings at what may have it give something, and at nothing else.
const BELL: &str = "\
open > 1
rung 0 > no
ask 0 LS_reqId=1&LS_op=add&LS_subId=1&LS_mode=MERGE&LS_group=q&LS_schema=x > ok
rung 0 > yes
take 0 9 > CONOK,S1,50000,5000,* / SERVNAME,tlcpd / CONS,unlimited / SUBOK,1,1,1 / CONF,1,unlimited,filtered / -idle
rung 0 > no
pub q 1 x=1 > 1
rung 0 > yes
meet 0 > ok
take 0 2 > U,1,1,1 / -idle
pub r 1 x=1 > 1
rung 0 > no
ask 0 LS_reqId=1&LS_op=delete&LS_subId=1 > ok
rung 0 > yes
pub q 2 x=2 > 2
rung 0 > no
bind LS_session=S1 > 2
rung 0 > yes
rung 1 > no
lose 1 > lost
tick 30000 > ok
rung 0 > no
sweep > ok
rung 0 > yes
rung 1 > yes
";

#[test]
fn a_bell_rings(rt: HostRuntime) -> Result<(), Fail> {
    let other = other_answer(&rt, rt.alloc(), b"q MERGE x\nr MERGE x\n", BELL)?;
    assert!(rt; other.is_empty(), "{other}");
    Ok(())
}

/// As many sessions as may live.
const CROWD: &str = "\
crowd 1023 > 1023
open > 1
crowd 1 > 0
open > 8 Too many sessions
open LS_adapter_set=OTHER > 2 Unknown adapter set
ask 0 LS_reqId=1&LS_op=destroy > ok
open > 1
take 1 1 > CONOK,S1025,50000,5000,*
open > 8 Too many sessions
";

#[test]
fn as_many_sessions_live_as_may(rt: HostRuntime) -> Result<(), Fail> {
    let other = other_answer(&rt, rt.alloc(), b"q MERGE x\n", CROWD)?;
    assert!(rt; other.is_empty(), "{other}");
    Ok(())
}

/// As many sessions as may live, all without a stream, and a sweep that ends them.
const LEAVERS: &str = "\
leavers 1024 > 1024
open > 8 Too many sessions
tick 29999 > ok
sweep > ok
seen 1024 > yes
open > 8 Too many sessions
tick 30000 > ok
sweep > ok
seen 1 > no
seen 1024 > no
open > 1
take 0 1 > CONOK,S1025,50000,5000,*
crowd 1024 > 1023
";

#[test]
fn a_sweep_makes_room(rt: HostRuntime) -> Result<(), Fail> {
    let other = other_answer(&rt, rt.alloc(), b"q MERGE x\n", LEAVERS)?;
    assert!(rt; other.is_empty(), "{other}");
    Ok(())
}

/// One item that more slots join, one after another, than it may have at a time: those that left make room.
const COMERS: &str = "\
comers q 4097 > 4097
open > 1
ask 0 LS_reqId=1&LS_op=add&LS_subId=1&LS_mode=MERGE&LS_schema=x&LS_group=q > ok
";

#[test]
fn slots_that_leave_make_room_on_their_item(rt: HostRuntime) -> Result<(), Fail> {
    let other = other_answer(&rt, rt.alloc(), b"q MERGE x\n", COMERS)?;
    assert!(rt; other.is_empty(), "{other}");
    Ok(())
}

/// How many items are in a group at most, and how many such groups have as many slots as may be.
const ITEMS: u64 = 64;

/// The config of so many items.
fn many_items(alloc: Global) -> Result<String, AllocError> {
    let mut config = String::new(alloc);
    for item in 0..ITEMS {
        config.push_str(format!(in alloc; "i{item} MERGE x\n")?.as_str())?;
    }
    Ok(config)
}

/// The group of all of them.
fn whole_group(alloc: Global) -> Result<String, AllocError> {
    let mut group = String::new(alloc);
    for item in 0..ITEMS {
        group.push_str(if item == 0 { "i" } else { "+i" })?;
        group.push_str(format!(in alloc; "{item}")?.as_str())?;
    }
    Ok(group)
}

/// A line that adds the whole group.
fn add_line(alloc: Global, sub: u64, group: &str, answer: &str) -> Result<String, AllocError> {
    format!(in alloc;
        "ask 0 LS_reqId=1&LS_op=add&LS_subId={sub}&LS_mode=MERGE&LS_schema=x&LS_group={group} > {answer}\n"
    )
}

/// A table that adds as many slots as may be, and one more; then some leave, and there is room again.
fn fill(alloc: Global) -> Result<String, AllocError> {
    let mut table = String::from_str(alloc, "open > 1\n")?;
    let group = whole_group(alloc)?;
    for sub in 0..ITEMS {
        table.push_str(add_line(alloc, sub + 1, group.as_str(), "ok")?.as_str())?;
    }
    table.push_str(FULL)?;
    Ok(table)
}

/// What comes where there are as many slots as may be.
const FULL: &str = "\
ask 0 LS_reqId=1&LS_op=add&LS_subId=65&LS_mode=MERGE&LS_schema=x&LS_group=i3 > 71 Too many subscriptions
ask 0 LS_reqId=1&LS_op=delete&LS_subId=7 > ok
ask 0 LS_reqId=1&LS_op=add&LS_subId=65&LS_mode=MERGE&LS_schema=x&LS_group=i3 > ok
open > 1
ask 1 LS_reqId=1&LS_op=add&LS_subId=1&LS_mode=MERGE&LS_schema=x&LS_group=i3+i4 > ok
ask 0 LS_reqId=1&LS_op=destroy > ok
ask 1 LS_reqId=1&LS_op=add&LS_subId=2&LS_mode=MERGE&LS_schema=x&LS_group=i3 > ok
";

#[test]
fn as_many_slots_are_given_as_may(rt: HostRuntime) -> Result<(), Fail> {
    let config = many_items(rt.alloc())?;
    let table = fill(rt.alloc())?;
    let other = other_answer(&rt, rt.alloc(), config.as_bytes(), table.as_str())?;
    assert!(rt; other.is_empty(), "{other}");
    Ok(())
}
