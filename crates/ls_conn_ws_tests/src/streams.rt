//! The lines of streams, and the answers between them.
use crate::serving::says;
use ls_conn_http::ConnEnd;
use std::test::Fail;

/// A client's messages, the lines of its stream, and the answers between them: one line between two messages, and one
/// message between two lines.
const ROW: &str =
    "wsok\0create_session\r\nLS_cid=mgQkwtwdysogQz2BJ4Ji%20kOj2Bg&LS_adapter_set=DEFAULT&LS_cause=api&LS_user=u\0control\r\nLS_reqId=2&LS_op=add&LS_subId=1&LS_mode=MERGE&LS_group=item1+item2&LS_schema=last_price+time+stock_name&LS_data_adapter=QUOTE_ADAPTER&LS_snapshot=true&LS_requested_max_frequency=3.0";

const ROW_LINES: &[u8] =
    b"WSOK\nCONOK,S1,50000,5000,*\nREQOK,2\nSERVNAME,tlcpd\nCONS,unlimited\nSUBOK,1,2,3\nCONF,1,3.0,filtered\nU,1,1,3.04|20:00:33|Anduct\nU,1,2,16.09|20:00:30|Ations Europe";

#[test]
fn a_stream_has_its_lines(rt: HostRuntime) -> Result<(), Fail> {
    assert!(rt; says(&rt, rt.alloc(), ROW, 20, ConnEnd::PeerLeft, ROW_LINES)?);
    Ok(())
}

#[test]
fn a_stream_is_given_before_wsok_too(rt: HostRuntime) -> Result<(), Fail> {
    assert!(rt;
        says(
            &rt,
            rt.alloc(),
            "create_session\0wsok",
            20,
            ConnEnd::PeerLeft,
            b"CONOK,S1,50000,5000,*\nWSOK\nSERVNAME,tlcpd\nCONS,unlimited",
        )?
    );
    Ok(())
}

#[test]
fn a_refused_create_leaves_the_stream(rt: HostRuntime) -> Result<(), Fail> {
    assert!(rt;
        says(
            &rt,
            rt.alloc(),
            "create_session\0create_session\r\nLS_adapter_set=OTHER",
            20,
            ConnEnd::PeerLeft,
            b"CONOK,S1,50000,5000,*\nCONERR,2,Unknown adapter set\nSERVNAME,tlcpd\nCONS,unlimited",
        )?
    );
    Ok(())
}

#[test]
fn a_new_stream_replaces_the_one_before(rt: HostRuntime) -> Result<(), Fail> {
    assert!(rt;
        says(
            &rt,
            rt.alloc(),
            "create_session\0create_session",
            20,
            ConnEnd::PeerLeft,
            b"CONOK,S1,50000,5000,*\nCONOK,S2,50000,5000,*\nSERVNAME,tlcpd\nCONS,unlimited",
        )?
    );
    Ok(())
}

#[test]
fn a_bind_goes_on_after_the_lines_that_were_given(rt: HostRuntime) -> Result<(), Fail> {
    assert!(rt;
        says(
            &rt,
            rt.alloc(),
            "create_session\0bind_session\r\nLS_session=S1\0wsok",
            20,
            ConnEnd::PeerLeft,
            b"CONOK,S1,50000,5000,*\nCONOK,S1,50000,5000,*\nWSOK\nSERVNAME,tlcpd\nCONS,unlimited",
        )?
    );
    Ok(())
}

#[test]
fn a_stream_may_be_left_by_loop(rt: HostRuntime) -> Result<(), Fail> {
    assert!(rt;
        says(
            &rt,
            rt.alloc(),
            "create_session\0control\r\nLS_reqId=5&LS_op=force_rebind",
            20,
            ConnEnd::PeerLeft,
            b"CONOK,S1,50000,5000,*\nREQOK,5\nSERVNAME,tlcpd\nCONS,unlimited\nLOOP,0",
        )?
    );
    Ok(())
}

#[test]
fn a_session_may_be_destroyed(rt: HostRuntime) -> Result<(), Fail> {
    assert!(rt;
        says(
            &rt,
            rt.alloc(),
            "create_session\0control\r\nLS_reqId=5&LS_op=destroy\0wsok",
            20,
            ConnEnd::PeerLeft,
            b"CONOK,S1,50000,5000,*\nREQOK,5\nEND,31,Destroyed by request\nWSOK",
        )?
    );
    Ok(())
}
