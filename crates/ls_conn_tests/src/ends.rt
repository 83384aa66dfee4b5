//! Why streams end, and that nothing is given after that.
use crate::world::other_answer;
use std::test::Fail;

/// A stream whose length is met: the line with which it is, LOOP, and nothing after it. The next stream goes on.
const LENGTH: &str = "\
http create_session LS_content_length=1000 > opened 1 1
http control LS_reqId=1&LS_session=S1&LS_op=add&LS_subId=1&LS_mode=RAW&LS_group=q&LS_schema=x > REQOK,1
pile q 100 > 100
stream 0 0x8 > CONOK,S1,50000,5000,* / SERVNAME,tlcpd / CONS,unlimited / SUBOK,1,1,1 / CONF,1,unlimited,unfiltered / U,1,1,1 / U,1,1,2 / -stopped waited 0
count 0 0x200 > 91 LOOP,0 / -looped waited 0
stream 0 0x2 > -unbound waited 0
http bind_session LS_session=S1 > opened 1 2
stream 0 0x2 > -superseded 2 waited 0
count 1 0x13 > 11 U,1,1,100 / -stopped waited 10
";

#[test]
fn a_stream_of_a_length(rt: HostRuntime) -> Result<(), Fail> {
    let other = other_answer(&rt, rt.alloc(), b"q MERGE x\n", LENGTH)?;
    assert!(rt; other.is_empty(), "{other}");
    Ok(())
}

/// A stream whose peer leaves, where there is nothing to give, and between the lines of one that never rests. The next
/// stream goes on after the lines that were given.
const LEFT: &str = "\
ws create_session > opened 1 1
leave 0 0 > 3 CONS,unlimited / -left waited 0
ws bind_session LS_session=S1 > opened 1 2
leave 1 1 > 3 CONS,unlimited / -left waited 10
ws control LS_reqId=1&LS_op=add&LS_subId=1&LS_mode=RAW&LS_group=q&LS_schema=x > REQOK,1
pile q 70 > 70
ws bind_session LS_session=S1 > opened 1 3
leave 2 0 > 65 U,1,1,60 / -left waited 0
lose 2 > ok
ws bind_session LS_session=S1&LS_recovery_from=62 > opened 1 4
count 3 0x16 > 14 U,1,1,70 / -stopped waited 10
";

#[test]
fn a_stream_whose_peer_leaves(rt: HostRuntime) -> Result<(), Fail> {
    let other = other_answer(&rt, rt.alloc(), b"q MERGE x\n", LEFT)?;
    assert!(rt; other.is_empty(), "{other}");
    Ok(())
}

/// A stream is left by LOOP, though lines wait; a stream that is bound before it is left doesn't keep the wish. And END
/// comes before all that waits.
const FIRST: &str = "\
ws create_session > opened 1 1
ws control LS_reqId=1&LS_op=add&LS_subId=1&LS_mode=RAW&LS_group=q&LS_schema=x > REQOK,1
pub q 1 x=1 > 1
ws control LS_reqId=2&LS_op=force_rebind > REQOK,2
stream 0 0x9 > CONOK,S1,50000,5000,* / SERVNAME,tlcpd / CONS,unlimited / LOOP,0 / -looped waited 0
ws bind_session LS_session=S1 > opened 1 2
ws control LS_reqId=3&LS_op=force_rebind > REQOK,3
ws bind_session LS_session=S1 > opened 1 3
stream 2 0x8 > CONOK,S1,50000,5000,* / SERVNAME,tlcpd / CONS,unlimited / SUBOK,1,1,1 / CONF,1,unlimited,unfiltered / U,1,1,1 / -stopped waited 10
pub q 2 x=2 > 2
ws control LS_reqId=4&LS_op=constrain&LS_requested_max_bandwidth=1.0 > REQOK,4
ws control LS_reqId=5&LS_op=destroy > REQOK,5
stream 2 0x9 > END,31,Destroyed by request / -ended 31 waited 0
stream 2 0x9 > -ended 31 waited 0
stream 1 0x9 > -superseded 3 waited 0
";

#[test]
fn what_comes_before_lines_that_wait(rt: HostRuntime) -> Result<(), Fail> {
    let other = other_answer(&rt, rt.alloc(), b"q MERGE x\n", FIRST)?;
    assert!(rt; other.is_empty(), "{other}");
    Ok(())
}
