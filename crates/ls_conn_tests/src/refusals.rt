//! What requests are refused for, in order: where two causes stand, the first one is answered.
use crate::world::other_answer;
use std::alloc::{AllocError, Global};
use std::test::Fail;

/// Requests that can't be read: the request's own id is told where it was read. That comes before any other cause.
const UNREAD: &str = "\
ws nonsense > ERROR,65,Malformed request
ws control LS_op=destroy > ERROR,65,Malformed request
ws control LS_reqId=1&LS_reqId=1&LS_op=destroy > ERROR,65,Malformed request
ws control LS_reqId=%FF&LS_op=destroy > ERROR,65,Malformed request
ws control LS_reqId=-&LS_op=destroy > ERROR,65,Malformed request
http control LS_reqId=1&LS_op=destroy > REQERR,1,65,Malformed request
ws control LS_reqId=1 > REQERR,1,65,Malformed request
ws control LS_reqId=1&LS_op=none > REQERR,1,65,Malformed request
ws control LS_reqId=1&LS_session=S9&LS_op=delete&LS_subId=x > REQERR,1,65,Malformed request
ws control LS_reqId=1&LS_session=S9&LS_op=add&LS_subId=1&LS_mode=NONE&LS_group=q&LS_schema=x > REQERR,1,65,Malformed request
ws control LS_reqId=1&LS_session=S9&LS_op=add&LS_subId=1&LS_mode=RAW&LS_group=q&LS_schema=x&LS_selector=s > REQERR,1,65,Malformed request
ws control LS_reqId=1&LS_session=S9&LS_op=reconf&LS_subId=1 > REQERR,1,65,Malformed request
ws control LS_reqId=1&LS_session=S9&LS_op=constrain&LS_requested_max_bandwidth=0 > REQERR,1,65,Malformed request
ws create_session LS_polling=true&LS_adapter_set=OTHER > CONERR,65,Malformed request
ws bind_session LS_session=S9&LS_recovery_from=x > CONERR,65,Malformed request
ws create_session > opened 1 1
sessions > 0
";

#[test]
fn requests_that_cannot_be_read(rt: HostRuntime) -> Result<(), Fail> {
    let other = other_answer(&rt, rt.alloc(), b"q MERGE x\n", UNREAD)?;
    assert!(rt; other.is_empty(), "{other}");
    Ok(())
}

/// Each request on a session that doesn't live, of which nothing is seen.
const UNKNOWN: &str = "\
ws create_session > opened 1 1
ws control LS_reqId=1&LS_session=S9&LS_op=add&LS_subId=1&LS_mode=MERGE&LS_group=nope&LS_schema=z > REQERR,1,20,Unknown session
ws control LS_reqId=1&LS_session=S9&LS_op=delete&LS_subId=9 > REQERR,1,20,Unknown session
ws control LS_reqId=1&LS_session=S9&LS_op=reconf&LS_subId=9&LS_requested_max_frequency=1.0 > REQERR,1,20,Unknown session
ws control LS_reqId=1&LS_session=S9&LS_op=constrain&LS_requested_max_bandwidth=1.0 > REQERR,1,20,Unknown session
ws control LS_reqId=1&LS_session=S9&LS_op=force_rebind > REQERR,1,20,Unknown session
ws control LS_reqId=1&LS_session=S9&LS_op=destroy > REQERR,1,20,Unknown session
ws control LS_reqId=1&LS_session=nobody&LS_op=destroy > REQERR,1,20,Unknown session
ws bind_session LS_session=S9&LS_recovery_from=7 > CONERR,20,Unknown session
sessions > 0
ws bind_session LS_session=S1&LS_recovery_from=7 > CONERR,4,Recovery not possible
ws control LS_reqId=1&LS_op=destroy > REQOK,1
ws control LS_reqId=1&LS_op=destroy > REQERR,1,20,Unknown session
ws bind_session LS_session=S1&LS_recovery_from=7 > CONERR,20,Unknown session
sessions > 1
";

#[test]
fn requests_on_no_session(rt: HostRuntime) -> Result<(), Fail> {
    let other = other_answer(&rt, rt.alloc(), b"q MERGE x\n", UNKNOWN)?;
    assert!(rt; other.is_empty(), "{other}");
    Ok(())
}

/// How many subscriptions a session may have.
const MOST_SUBS: u64 = 256;

/// What is refused where as many lines wait as may, and then where there are as many subscriptions as may.
const FULL: &str = "\
ws control LS_reqId=1&LS_op=add&LS_subId=7&LS_mode=MERGE&LS_group=nope&LS_schema=z > REQERR,1,72,Subscription id in use
ws control LS_reqId=1&LS_op=add&LS_subId=257&LS_mode=MERGE&LS_group=nope&LS_schema=z > REQERR,1,70,Too many lines waiting
ws control LS_reqId=1&LS_op=delete&LS_subId=257 > REQERR,1,19,Unknown subscription
ws control LS_reqId=1&LS_op=delete&LS_subId=7 > REQERR,1,70,Too many lines waiting
ws control LS_reqId=1&LS_op=reconf&LS_subId=257&LS_requested_max_frequency=1.0 > REQERR,1,19,Unknown subscription
ws control LS_reqId=1&LS_op=reconf&LS_subId=7&LS_requested_max_frequency=1.0 > REQERR,1,70,Too many lines waiting
times 509 ws control LS_reqId=1&LS_op=constrain&LS_requested_max_bandwidth=unlimited > REQOK,1
ws control LS_reqId=1&LS_op=constrain&LS_requested_max_bandwidth=unlimited > REQERR,1,70,Too many lines waiting
count 0 0x1026 > 1024 CONF,256,unlimited,unfiltered / -stopped waited 10
ws control LS_reqId=1&LS_op=add&LS_subId=257&LS_mode=MERGE&LS_group=d+nope&LS_schema=z > REQERR,1,21,Bad group
ws control LS_reqId=1&LS_op=add&LS_subId=257&LS_mode=MERGE&LS_group=d&LS_schema=z > REQERR,1,24,Mode not allowed
ws control LS_reqId=1&LS_op=add&LS_subId=257&LS_mode=MERGE&LS_group=q&LS_schema=z > REQERR,1,23,Bad schema
ws control LS_reqId=1&LS_op=add&LS_subId=257&LS_mode=MERGE&LS_group=q&LS_schema=x > REQERR,1,71,Too many subscriptions
ws control LS_reqId=1&LS_op=delete&LS_subId=7 > REQOK,1
ws control LS_reqId=1&LS_op=add&LS_subId=257&LS_mode=MERGE&LS_group=q&LS_schema=x > REQOK,1
stream 0 0x5 > UNSUB,7 / SUBOK,257,1,1 / CONF,257,unlimited,filtered / -stopped waited 10
";

/// A table that adds as many subscriptions as may be, and goes on with what is refused then.
fn full(alloc: Global) -> Result<String, AllocError> {
    let mut table = String::from_str(alloc, "ws create_session > opened 1 1\n")?;
    for sub in 0..MOST_SUBS {
        let add = format!(in alloc;
            "ws control LS_reqId=1&LS_op=add&LS_subId={}&LS_mode=RAW&LS_group=q&LS_schema=x > REQOK,1\n",
            sub + 1
        )?;
        table.push_str(add.as_str())?;
    }
    table.push_str(FULL)?;
    Ok(table)
}

#[test]
fn requests_on_a_full_session(rt: HostRuntime) -> Result<(), Fail> {
    let table = full(rt.alloc())?;
    let other = other_answer(
        &rt,
        rt.alloc(),
        b"q MERGE x\nd DISTINCT x\n",
        table.as_str(),
    )?;
    assert!(rt; other.is_empty(), "{other}");
    Ok(())
}

/// As many sessions as may live.
const CROWD: &str = "\
times 1024 ws create_session > opened 1024 1
ws create_session LS_adapter_set=OTHER > CONERR,2,Unknown adapter set
ws create_session > CONERR,8,Too many sessions
http control LS_reqId=1&LS_session=S7&LS_op=destroy > REQOK,1
http create_session > opened 1025 1
http create_session > CONERR,8,Too many sessions
";

#[test]
fn more_sessions_than_may_live(rt: HostRuntime) -> Result<(), Fail> {
    let other = other_answer(&rt, rt.alloc(), b"q MERGE x\n", CROWD)?;
    assert!(rt; other.is_empty(), "{other}");
    Ok(())
}
