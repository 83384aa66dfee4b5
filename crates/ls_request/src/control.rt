//! Control requests (TLCP 2.1, control).
ghost use Rattle.std.specs.Prelude.{◌≡◌, ◌≤◌, IfOk, IfSome, codes, length as list_length};
ghost use Rattle.ls_form.specs.Forms.{text_under};
ghost use Rattle.ls_request.specs.Values.{req_of, frequency_of, bandwidth_of};
ghost use Rattle.ls_request.specs.Requests.{needed, delete_of, reconf_of, constrain_of, plain_op_of, op_of};
ghost use Rattle.ls_request.specs.Requests.{control_session, control_req, control_of};
ghost use Rattle.ls_request.specs.Ranges.{IsRate, OpFits, ControlFits};

use crate::add::{add, sub};
use crate::limits::MOST_OWN_NAME;
use crate::request::{Control, LinkKind, Op};
use crate::values;
use ls_form::Params;
use ls_value::{GREATEST_NUMBER, NoMemory, Text, same_bytes};
use std::alloc::Global;

/// The request's own name, where it can be read.
pub(crate) fn req(alloc: Global, params: &Params) -> Result<Option<Text>, NoMemory>
    ensures value { IfOk result (λ r. r ≡ control_req params.now) }
    ensures fits { IfOk result (λ r. IfSome r (λ t. (1 ≤ list_length t) × (list_length t ≤ MOST_OWN_NAME))) }
{
    match params.find(b"LS_reqId") {
        Some(text) => checked_req(alloc, text),
        None => Ok(None),
    }
}

/// A copy of a text that is 1 to 32 ASCII letters or digits.
fn checked_req(alloc: Global, text: &Text) -> Result<Option<Text>, NoMemory>
    ensures value { IfOk result (λ r. r ≡ req_of text.now) }
    ensures fits { IfOk result (λ r. IfSome r (λ t. (1 ≤ list_length t) × (list_length t ≤ MOST_OWN_NAME))) }
{
    if !values::is_req(text.as_bytes()) {
        return Ok(None);
    }
    Ok(Some(text.copy(alloc)?))
}

/// The session of a control request: over HTTP it is needed.
fn session(link: LinkKind, params: &Params) -> Option<Option<u64>>
    ensures value { result ≡ control_session link (text_under params.now (codes "LS_session")) }
    ensures fits { IfSome result (λ r. IfSome r (λ n. n ≤ GREATEST_NUMBER)) }
{
    match params.find(b"LS_session") {
        Some(text) => Some(Some(values::session(text.as_bytes()))),
        None => match link {
            LinkKind::Http => None,
            LinkKind::Ws => Some(None),
        },
    }
}

/// The end of a subscription.
fn delete(params: &Params) -> Option<Op>
    ensures value { result ≡ delete_of params.now }
    ensures fits { IfSome result OpFits }
{
    let Some(sub) = sub(params) else {
        return None;
    };
    Some(Op::Delete { sub })
}

/// The frequency, which is needed.
fn frequency(params: &Params) -> Option<Option<u64>>
    ensures value { result ≡ needed frequency_of (text_under params.now (codes "LS_requested_max_frequency")) }
    ensures fits { IfSome result (λ r. IfSome r IsRate) }
{
    match params.find(b"LS_requested_max_frequency") {
        Some(text) => values::frequency(text.as_bytes()),
        None => None,
    }
}

/// Another frequency of a subscription.
fn reconf(params: &Params) -> Option<Op>
    ensures value { result ≡ reconf_of params.now }
    ensures fits { IfSome result OpFits }
{
    let Some(sub) = sub(params) else {
        return None;
    };
    let Some(frequency) = frequency(params) else {
        return None;
    };
    Some(Op::Reconf { sub, frequency })
}

/// The bandwidth, which is needed.
fn bandwidth(params: &Params) -> Option<Option<u64>>
    ensures value { result ≡ needed bandwidth_of (text_under params.now (codes "LS_requested_max_bandwidth")) }
    ensures fits { IfSome result (λ r. IfSome r IsRate) }
{
    match params.find(b"LS_requested_max_bandwidth") {
        Some(text) => values::bandwidth(text.as_bytes()),
        None => None,
    }
}

/// Another bandwidth of the session.
fn constrain(params: &Params) -> Option<Op>
    ensures value { result ≡ constrain_of params.now }
    ensures fits { IfSome result OpFits }
{
    let Some(bandwidth) = bandwidth(params) else {
        return None;
    };
    Some(Op::Constrain { bandwidth })
}

/// What is asked for, other than a new subscription.
fn plain_op(word: &[u8], params: &Params) -> Option<Op>
    ensures value { result ≡ plain_op_of word.now params.now }
    ensures fits { IfSome result OpFits }
{
    if same_bytes(word, b"delete") {
        delete(params)
    } else if same_bytes(word, b"reconf") {
        reconf(params)
    } else if same_bytes(word, b"constrain") {
        constrain(params)
    } else if same_bytes(word, b"force_rebind") {
        Some(Op::ForceRebind)
    } else if same_bytes(word, b"destroy") {
        Some(Op::Destroy)
    } else {
        None
    }
}

/// What is asked for.
fn op(alloc: Global, word: &[u8], params: &Params) -> Result<Option<Op>, NoMemory>
    ensures value { IfOk result (λ o. o ≡ op_of word.now params.now) }
    ensures fits { IfOk result (λ o. IfSome o OpFits) }
{
    if !same_bytes(word, b"add") {
        return Ok(plain_op(word, params));
    }
    match add(alloc, params)? {
        Some(added) => Ok(Some(Op::Add(added))),
        None => Ok(None),
    }
}

/// The parameters of a control request.
pub(crate) fn control(
    alloc: Global,
    link: LinkKind,
    params: &Params,
) -> Result<Option<Control>, NoMemory>
    ensures value { IfOk result (λ r. r ≡ control_of link params.now) }
    ensures fits { IfOk result (λ r. IfSome r ControlFits) }
{
    let Some(req) = req(alloc, params)? else {
        return Ok(None);
    };
    let Some(session) = session(link, params) else {
        return Ok(None);
    };
    let Some(word) = params.find(b"LS_op") else {
        return Ok(None);
    };
    let Some(op) = op(alloc, word.as_bytes(), params)? else {
        return Ok(None);
    };
    Ok(Some(Control { req, session, op }))
}
