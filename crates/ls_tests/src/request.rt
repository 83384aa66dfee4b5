//! Each call once with ample memory; `ls_tables` has the tables of requests.
use ls_form::{Pair, Params};
use ls_request::*;
use ls_value::{NoMemory, Text, same_bytes};
use std::alloc::Global;

/// Whether a request is the end of session 3, of the name `5`.
fn is_destroy(answer: &Result<Request, RequestRefused>) -> bool {
    match answer {
        Ok(Request::Control(control)) => {
            same_bytes(control.req.as_bytes(), b"5")
                && control.session == Some(3)
                && matches!(control.op, Op::Destroy)
        }
        _ => false,
    }
}

#[test]
fn a_request_is_read(rt: HostRuntime) {
    let params = b"LS_reqId=5&LS_op=destroy&LS_session=S3";
    let answer = read(rt.alloc(), LinkKind::Http, b"control", params);
    assert!(rt; is_destroy(&answer));
}

/// A pair of a name and a text.
fn pair(alloc: Global, name: &str, text: &str) -> Result<Pair, NoMemory> {
    let name = Text::from_string(String::from_str(alloc, name)?);
    let text = Text::from_string(String::from_str(alloc, text)?);
    Ok(Pair { name, text })
}

/// The parameters of that request.
fn destroy(alloc: Global) -> Result<Params, NoMemory> {
    let req = pair(alloc, "LS_reqId", "5")?;
    let op = pair(alloc, "LS_op", "destroy")?;
    let session = pair(alloc, "LS_session", "S3")?;
    Ok(Params::of(vec![in alloc; req, op, session]?))
}

#[test]
fn pairs_are_read(rt: HostRuntime) -> Result<(), NoMemory> {
    let params = destroy(rt.alloc())?;
    let answer = read_pairs(rt.alloc(), LinkKind::Ws, b"control", &params);
    assert!(rt; is_destroy(&answer));
    Ok(())
}
