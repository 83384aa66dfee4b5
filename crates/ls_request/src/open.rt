//! Requests that open a stream: create_session and bind_session (TLCP 2.1).
ghost use Rattle.std.specs.Prelude.{◌≡◌, ◌≤◌, None, Some, IfOk, IfSome, codes};
ghost use Rattle.ls_form.specs.Forms.{text_under};
ghost use Rattle.ls_request.specs.Values.{keepalive_of, bandwidth_of, recovery_of};
ghost use Rattle.ls_request.specs.Requests.{or_absent, says, content_length, create_of, bind_of};
ghost use Rattle.ls_request.specs.Ranges.{IsKeepalive, IsLength, IsRate, CreateFits, BindFits};

use crate::limits::{DEFAULT_KEEPALIVE, DEFAULT_LENGTH};
use crate::request::{Bind, Create, LinkKind};
use crate::values;
use ls_form::Params;
use ls_value::{GREATEST_NUMBER, NoMemory, Text, same_bytes};
use std::alloc::Global;

/// Whether the client would poll, which isn't served.
fn polls(params: &Params) -> bool
    ensures { result ≡ says (codes "true") (text_under params.now (codes "LS_polling")) }
{
    match params.find(b"LS_polling") {
        Some(text) => same_bytes(text.as_bytes(), b"true"),
        None => false,
    }
}

/// The keep-alive time: 5,000 where it is absent.
fn keepalive(params: &Params) -> Option<u32>
    ensures value { result
        ≡ or_absent DEFAULT_KEEPALIVE keepalive_of (text_under params.now (codes "LS_keepalive_millis")) }
    ensures fits { IfSome result IsKeepalive }
{
    match params.find(b"LS_keepalive_millis") {
        Some(text) => values::keepalive(text.as_bytes()),
        None => Some(DEFAULT_KEEPALIVE),
    }
}

/// The content length, over HTTP alone: 50,000,000 where it is absent.
fn length(link: LinkKind, params: &Params) -> Option<Option<u64>>
    ensures value { result ≡ content_length link params.now }
    ensures fits { IfSome result (λ r. IfSome r IsLength) }
{
    match link {
        LinkKind::Http => http_length(params),
        LinkKind::Ws => Some(None),
    }
}

/// The content length over HTTP.
fn http_length(params: &Params) -> Option<Option<u64>>
    ensures value { result ≡ content_length LinkKind.Http params.now }
    ensures fits { IfSome result (λ r. IfSome r IsLength) }
{
    match params.find(b"LS_content_length") {
        Some(text) => values::length(text.as_bytes()),
        None => Some(Some(DEFAULT_LENGTH)),
    }
}

/// The bandwidth: unlimited where it is absent.
fn bandwidth(params: &Params) -> Option<Option<u64>>
    ensures value { result ≡ or_absent None bandwidth_of (text_under params.now (codes "LS_requested_max_bandwidth")) }
    ensures fits { IfSome result (λ r. IfSome r IsRate) }
{
    match params.find(b"LS_requested_max_bandwidth") {
        Some(text) => values::bandwidth(text.as_bytes()),
        None => Some(None),
    }
}

/// The number of numbered lines that the client has: none where it is absent.
fn recovery(params: &Params) -> Option<Option<u64>>
    ensures value { result ≡ or_absent None recovery_of (text_under params.now (codes "LS_recovery_from")) }
    ensures fits { IfSome result (λ r. IfSome r (λ n. n ≤ GREATEST_NUMBER)) }
{
    match params.find(b"LS_recovery_from") {
        Some(text) => values::recovery(text.as_bytes()),
        None => Some(None),
    }
}

/// The adapter set, where one is named.
fn adapter_set(alloc: Global, params: &Params) -> Result<Option<Text>, NoMemory>
    ensures { IfOk result (λ set. set ≡ text_under params.now (codes "LS_adapter_set")) }
{
    match params.find(b"LS_adapter_set") {
        Some(text) => Ok(Some(text.copy(alloc)?)),
        None => Ok(None),
    }
}

/// The parameters of create_session.
pub(crate) fn create(
    alloc: Global,
    link: LinkKind,
    params: &Params,
) -> Result<Option<Create>, NoMemory>
    ensures value { IfOk result (λ r. r ≡ create_of link params.now) }
    ensures fits { IfOk result (λ r. IfSome r CreateFits) }
{
    if polls(params) {
        return Ok(None);
    }
    let Some(bandwidth) = bandwidth(params) else {
        return Ok(None);
    };
    let Some(keepalive) = keepalive(params) else {
        return Ok(None);
    };
    let Some(length) = length(link, params) else {
        return Ok(None);
    };
    let set = adapter_set(alloc, params)?;
    Ok(Some(Create {
        set,
        keepalive,
        bandwidth,
        length,
    }))
}

/// The parameters of bind_session.
pub(crate) fn bind(link: LinkKind, params: &Params) -> Option<Bind>
    ensures value { result ≡ bind_of link params.now }
    ensures fits { IfSome result BindFits }
{
    let Some(session) = params.find(b"LS_session") else {
        return None;
    };
    if polls(params) {
        return None;
    }
    let Some(recover) = recovery(params) else {
        return None;
    };
    let Some(keepalive) = keepalive(params) else {
        return None;
    };
    let Some(length) = length(link, params) else {
        return None;
    };
    Some(Bind {
        session: values::session(session.as_bytes()),
        recover,
        keepalive,
        length,
    })
}
