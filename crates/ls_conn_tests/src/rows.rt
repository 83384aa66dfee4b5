//! The worked rows by requests and streams, and what else a table says: each allocating call once.
use crate::world::other_answer;
use std::test::Fail;

/// What requests are answered that aren't read, that no session is named for, or that an add is refused for, in order.
const ANSWERS: &str = "\
ws wsok > WSOK
http wsok > ERROR,65,Malformed request
ws nonsense > ERROR,65,Malformed request
ws control > ERROR,65,Malformed request
http control LS_reqId=1&LS_op=destroy > REQERR,1,65,Malformed request
ws control LS_reqId=1&LS_op=destroy > REQERR,1,20,Unknown session
ws create_session LS_polling=true > CONERR,65,Malformed request
ws bind_session > CONERR,65,Malformed request
http bind_session LS_session=S1 > CONERR,20,Unknown session
ws create_session LS_adapter_set=OTHER > CONERR,2,Unknown adapter set
sessions > 0
ws create_session > opened 1 1
ws control LS_reqId=1&LS_session=S9&LS_op=add&LS_subId=1&LS_mode=MERGE&LS_group=q&LS_schema=x > REQERR,1,20,Unknown session
ws control LS_reqId=1&LS_op=add&LS_subId=1&LS_mode=MERGE&LS_group=d&LS_schema=y > REQERR,1,24,Mode not allowed
ws control LS_reqId=1&LS_op=add&LS_subId=1&LS_mode=MERGE&LS_group=nope&LS_schema=z > REQERR,1,21,Bad group
ws control LS_reqId=1&LS_op=add&LS_subId=1&LS_mode=MERGE&LS_group=q&LS_schema=z > REQERR,1,23,Bad schema
ws control LS_reqId=1&LS_op=add&LS_subId=1&LS_mode=MERGE&LS_group=q&LS_schema=x > REQOK,1
ws control LS_reqId=1&LS_op=add&LS_subId=1&LS_mode=MERGE&LS_group=nope&LS_schema=x > REQERR,1,72,Subscription id in use
ws control LS_reqId=1&LS_op=add&LS_subId=x&LS_mode=MERGE&LS_group=q&LS_schema=x > REQERR,1,65,Malformed request
ws control LS_reqId=1&LS_op=delete&LS_subId=9 > REQERR,1,19,Unknown subscription
http control LS_reqId=2&LS_session=S1&LS_op=delete&LS_subId=9 > REQERR,2,19,Unknown subscription
sessions > 1
stream 0 0x7 > CONOK,S1,50000,5000,* / SERVNAME,tlcpd / CONS,unlimited / SUBOK,1,1,1 / CONF,1,unlimited,filtered / -stopped waited 10
";

#[test]
fn requests_are_answered(rt: HostRuntime) -> Result<(), Fail> {
    let other = other_answer(&rt, rt.alloc(), b"q MERGE x\nd DISTINCT y\n", ANSWERS)?;
    assert!(rt; other.is_empty(), "{other}");
    Ok(())
}

/// Lines that were given up, and lines that weren't numbered yet.
const RECOVERY: &str = "\
ws create_session > opened 1 1
ws control LS_reqId=1&LS_op=add&LS_subId=1&LS_mode=MERGE&LS_group=q&LS_schema=x > REQOK,1
stream 0 0x7 > CONOK,S1,50000,5000,* / SERVNAME,tlcpd / CONS,unlimited / SUBOK,1,1,1 / CONF,1,unlimited,filtered / -stopped waited 10
many q 1028 > 1028
ws bind_session LS_session=S1&LS_recovery_from=6 > opened 1 2
stream 1 0x6 > CONOK,S1,50000,5000,* / SERVNAME,tlcpd / CONS,unlimited / PROG,6 / U,1,1,5 / -stopped waited 0
ws bind_session LS_session=S1&LS_recovery_from=1030 > opened 1 3
stream 2 0x6 > CONOK,S1,50000,5000,* / SERVNAME,tlcpd / CONS,unlimited / PROG,1030 / -stopped waited 10
http bind_session LS_session=S1&LS_recovery_from=1031 > CONERR,4,Recovery not possible
ws bind_session LS_session=S1&LS_recovery_from=5 > CONERR,4,Recovery not possible
stream 2 0x2 > -stopped waited 10
stream 1 0x2 > -superseded 3 waited 0
";

#[test]
fn lines_are_kept_as_long_as_they_may(rt: HostRuntime) -> Result<(), Fail> {
    let other = other_answer(&rt, rt.alloc(), b"q MERGE x\n", RECOVERY)?;
    assert!(rt; other.is_empty(), "{other}");
    Ok(())
}

/// A stream that is lost, and others that go on.
const LOSS: &str = "\
ws create_session > opened 1 1
ws control LS_reqId=3&LS_op=add&LS_subId=1&LS_mode=MERGE&LS_group=quote&LS_schema=last+time > REQOK,3
pub quote 1 last=3.04&time=20:00:33 > 1
stream 0 0x8 > CONOK,S1,50000,5000,* / SERVNAME,tlcpd / CONS,unlimited / SUBOK,1,1,2 / CONF,1,unlimited,filtered / U,1,1,3.04|20:00:33 / -stopped waited 10
lose 0 > ok
stream 0 0x2 > -unbound waited 0
ws bind_session LS_session=S1&LS_recovery_from=2 > opened 1 2
stream 1 0x7 > CONOK,S1,50000,5000,* / SERVNAME,tlcpd / CONS,unlimited / PROG,2 / U,1,1,3.04|20:00:33 / -stopped waited 10
stream 0 0x2 > -superseded 2 waited 0
http bind_session LS_session=S1 > opened 1 3
stream 1 0x2 > -superseded 3 waited 0
alone 0x5 > CONOK,S1,50000,5000,* / SERVNAME,tlcpd / CONS,unlimited / -stopped waited 10
";

#[test]
fn another_stream_goes_on(rt: HostRuntime) -> Result<(), Fail> {
    let other = other_answer(&rt, rt.alloc(), b"quote MERGE last,time\n", LOSS)?;
    assert!(rt; other.is_empty(), "{other}");
    Ok(())
}

/// The items of the example of TLCP 2.1.
const STOCKS: &[u8] =
    b"item1 MERGE stock_name,last_price,time\nitem2 MERGE stock_name,last_price,time\n";

/// A stream from its first line on, and the waits of one that has nothing to give before a tick.
const STREAM: &str = "\
pub item1 1 stock_name=Anduct&last_price=3.04&time=20:00:33 > 1
pub item2 1 stock_name=Ations%20Europe&last_price=16.09&time=20:00:30 > 1
ws wsok > WSOK
ws create_session LS_cid=mgQkwtwdysogQz2BJ4Ji%20kOj2Bg&LS_adapter_set=OTHER&LS_cause=api&LS_user=u > CONERR,2,Unknown adapter set
ws create_session LS_cid=mgQkwtwdysogQz2BJ4Ji%20kOj2Bg&LS_adapter_set=DEFAULT&LS_cause=api&LS_user=u > opened 1 1
ws control LS_reqId=2&LS_op=add&LS_subId=1&LS_mode=MERGE&LS_group=item1+item2&LS_schema=last_price+time+stock_name&LS_data_adapter=QUOTE_ADAPTER&LS_snapshot=true&LS_requested_max_frequency=3.0 > REQOK,2
stream 0 0x9 > CONOK,S1,50000,5000,* / SERVNAME,tlcpd / CONS,unlimited / SUBOK,1,2,3 / CONF,1,3.0,filtered / U,1,1,3.04|20:00:33|Anduct / U,1,2,16.09|20:00:30|Ations Europe / -stopped waited 10
pub item1 2 last_price=3.05 > 2
stream 0 0,330,333,334x2 > U,1,1,3.05|| / -stopped waited 15
tick 334 > ok
ws control LS_reqId=3&LS_op=reconf&LS_subId=1&LS_requested_max_frequency=unlimited > REQOK,3
stream 0 334x3 > CONF,1,unlimited,filtered / -stopped waited 10
pub item2 2 ! > 2
stream 0 334x3 > U,1,2,#|#|# / -stopped waited 10
ws control LS_reqId=4&LS_op=constrain&LS_requested_max_bandwidth=40.0 > REQOK,4
stream 0 334x3 > CONS,40.0 / -stopped waited 10
ws control LS_reqId=5&LS_op=delete&LS_subId=1 > REQOK,5
stream 0 334x3 > UNSUB,1 / -stopped waited 10
";

#[test]
fn a_stream_from_its_first_line(rt: HostRuntime) -> Result<(), Fail> {
    let other = other_answer(&rt, rt.alloc(), STOCKS, STREAM)?;
    assert!(rt; other.is_empty(), "{other}");
    Ok(())
}

/// A stream that is left by LOOP, and a session that a request ends since it is without a stream for too long.
const LEFT: &str = "\
ws create_session > opened 1 1
ws control LS_reqId=5&LS_op=force_rebind > REQOK,5
stream 0 0x9 > CONOK,S1,50000,5000,* / SERVNAME,tlcpd / CONS,unlimited / LOOP,0 / -looped waited 0
stream 0 0x2 > -unbound waited 0
ws bind_session LS_session=S1 > opened 1 2
stream 1 0x5 > CONOK,S1,50000,5000,* / SERVNAME,tlcpd / CONS,unlimited / -stopped waited 10
lose 1 > ok
tick 30000 > ok
ws control LS_reqId=6&LS_op=destroy > REQERR,6,20,Unknown session
stream 1 30000x2 > -ended 73 waited 0
ws bind_session LS_session=S1 > CONERR,20,Unknown session
";

#[test]
fn a_stream_is_left_by_loop(rt: HostRuntime) -> Result<(), Fail> {
    let other = other_answer(&rt, rt.alloc(), b"q MERGE x\n", LEFT)?;
    assert!(rt; other.is_empty(), "{other}");
    Ok(())
}

/// A session that a request ends.
const DESTROYED: &str = "\
ws create_session > opened 1 1
http control LS_reqId=6&LS_session=S1&LS_op=destroy > REQOK,6
stream 0 0x9 > END,31,Destroyed by request / -ended 31 waited 0
http control LS_reqId=7&LS_session=S1&LS_op=destroy > REQERR,7,20,Unknown session
ws create_session > opened 2 1
stream 1 0x2 > CONOK,S2,50000,5000,* / -stopped waited 0
";

#[test]
fn a_request_ends_a_session(rt: HostRuntime) -> Result<(), Fail> {
    let other = other_answer(&rt, rt.alloc(), b"q MERGE x\n", DESTROYED)?;
    assert!(rt; other.is_empty(), "{other}");
    Ok(())
}

/// A stream that has nothing to give for its keep-alive: it waits no longer than that, and then PROBE is given.
const SILENCE: &str = "\
ws create_session LS_keepalive_millis=1000 > opened 1 1
stream 0 0x5,995,1000x2 > CONOK,S1,50000,1000,* / SERVNAME,tlcpd / CONS,unlimited / PROBE / -stopped waited 25
";

#[test]
fn a_stream_is_told_to_be_alive(rt: HostRuntime) -> Result<(), Fail> {
    let other = other_answer(&rt, rt.alloc(), b"q MERGE x\n", SILENCE)?;
    assert!(rt; other.is_empty(), "{other}");
    Ok(())
}

/// A stream that its bandwidth holds back.
const BANDWIDTH: &str = "\
ws create_session > opened 1 1
ws control LS_reqId=3&LS_op=add&LS_subId=1&LS_mode=RAW&LS_group=q&LS_schema=x > REQOK,3
ws control LS_reqId=9&LS_op=constrain&LS_requested_max_bandwidth=0.08 > REQOK,9
pub q 1 x=1 > 1
pub q 2 x=2 > 2
pub q 3 x=3 > 3
stream 0 0x9,0,800,801x2 > CONOK,S1,50000,5000,* / SERVNAME,tlcpd / CONS,unlimited / CONS,0.08 / SUBOK,1,1,1 / CONF,1,unlimited,unfiltered / U,1,1,1 / U,1,1,2 / U,1,1,3 / -stopped waited 21
";

#[test]
fn a_bandwidth_holds_a_stream_back(rt: HostRuntime) -> Result<(), Fail> {
    let other = other_answer(&rt, rt.alloc(), b"q MERGE x\n", BANDWIDTH)?;
    assert!(rt; other.is_empty(), "{other}");
    Ok(())
}
