//! The reader of requests (TLCP 2.1, requests).
ghost use Rattle.std.specs.Prelude.{◌≡◌, ◌⊎◌, None, Some, IfOk, IfErr, IfSome, option_map};
ghost use Rattle.ls_form.specs.Forms.{form_of};
ghost use Rattle.ls_request.specs.Requests.{create_of, control_of, request_of, wsok_of, read_of, req_behind, req_read};
ghost use Rattle.ls_request.specs.Ranges.{RequestFits};

use crate::control::{control, req};
use crate::open::{bind, create};
use crate::request::{LinkKind, Request, RequestRefused};
use ls_form::{FormRefused, Params, pairs};
use ls_value::{NoMemory, Text, same_bytes};
use std::alloc::Global;

/// A request, by its name and the form text of its parameters (TLCP 2.1, requests; forms and limits are this project's
/// profile).
///
/// `Malformed` exactly where they say no request.
pub fn read(
    alloc: Global,
    link: LinkKind,
    name: &[u8],
    params: &[u8],
) -> Result<Request, RequestRefused>
    ensures read { IfOk result (λ request. read_of link name.now params.now ≡ Some request) }
    ensures fits { IfOk result RequestFits }
    ensures refused { IfErr result (λ e. (e ≡ RequestRefused.NoMemory)
        ⊎ ((read_of link name.now params.now ≡ None) × (e ≡ RequestRefused.Malformed (req_read name.now params.now)))) }
{
    let Some(params) = form(alloc, params)? else {
        return Err(RequestRefused::Malformed { req: None });
    };
    read_pairs(alloc, link, name, &params)
}

/// A request, by its name and the pairs of its parameters, of which the first with a name counts (TLCP 2.1, requests;
/// forms and limits are this project's profile).
///
/// `Malformed` exactly where they say no request.
pub fn read_pairs(
    alloc: Global,
    link: LinkKind,
    name: &[u8],
    params: &Params,
) -> Result<Request, RequestRefused>
    ensures read { IfOk result (λ request. request_of link name.now params.now ≡ Some request) }
    ensures fits { IfOk result RequestFits }
    ensures refused { IfErr result (λ e. (e ≡ RequestRefused.NoMemory)
        ⊎ ((request_of link name.now params.now ≡ None)
        × (e ≡ RequestRefused.Malformed (req_behind name.now params.now)))) }
{
    match request(alloc, link, name, params)? {
        Some(request) => Ok(request),
        None => {
            let req = own_name(alloc, name, params)?;
            Err(RequestRefused::Malformed { req })
        }
    }
}

/// The pairs of a form text: `None` exactly where it is refused.
fn form(alloc: Global, params: &[u8]) -> Result<Option<Params>, NoMemory>
    ensures { IfOk result (λ form. form ≡ form_of params.now) }
{
    match pairs(alloc, params) {
        Ok(form) => Ok(Some(form)),
        Err(FormRefused::NoMemory) => Err(NoMemory),
        Err(
            FormRefused::TooLong { n: _ }
            | FormRefused::NotUtf8 { at: _ }
            | FormRefused::Twice { at: _ },
        ) => Ok(None),
    }
}

/// The request that a name and pairs say.
fn request(
    alloc: Global,
    link: LinkKind,
    name: &[u8],
    params: &Params,
) -> Result<Option<Request>, NoMemory>
    ensures value { IfOk result (λ request. request ≡ request_of link name.now params.now) }
    ensures fits { IfOk result (λ r. IfSome r RequestFits) }
{
    if same_bytes(name, b"create_session") {
        create_request(alloc, link, params)
    } else if same_bytes(name, b"bind_session") {
        Ok(bind(link, params).map(Request::Bind))
    } else if same_bytes(name, b"control") {
        control_request(alloc, link, params)
    } else if same_bytes(name, b"wsok") {
        Ok(wsok(link))
    } else {
        Ok(None)
    }
}

/// The request create_session.
fn create_request(
    alloc: Global,
    link: LinkKind,
    params: &Params,
) -> Result<Option<Request>, NoMemory>
    ensures value { IfOk result (λ r. r ≡ option_map (λ a. Request.Create a) (create_of link params.now)) }
    ensures fits { IfOk result (λ r. IfSome r RequestFits) }
{
    match create(alloc, link, params)? {
        Some(create) => Ok(Some(Request::Create(create))),
        None => Ok(None),
    }
}

/// A control request.
fn control_request(
    alloc: Global,
    link: LinkKind,
    params: &Params,
) -> Result<Option<Request>, NoMemory>
    ensures value { IfOk result (λ r. r ≡ option_map (λ a. Request.Control a) (control_of link params.now)) }
    ensures fits { IfOk result (λ r. IfSome r RequestFits) }
{
    match control(alloc, link, params)? {
        Some(control) => Ok(Some(Request::Control(control))),
        None => Ok(None),
    }
}

/// The request wsok, on a WebSocket alone.
fn wsok(link: LinkKind) -> Option<Request>
    ensures value { result ≡ wsok_of link }
    ensures fits { IfSome result RequestFits }
{
    match link {
        LinkKind::Http => None,
        LinkKind::Ws => Some(Request::Wsok),
    }
}

/// The own name of a control request, where it can be read.
fn own_name(alloc: Global, name: &[u8], params: &Params) -> Result<Option<Text>, NoMemory>
    ensures { IfOk result (λ r. r ≡ req_behind name.now params.now) }
{
    if !same_bytes(name, b"control") {
        return Ok(None);
    }
    req(alloc, params)
}
