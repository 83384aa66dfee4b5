//! Requests.
use crate::failed::Failed;
use crate::words::{maybe_number, mode_word, names_text, quoted, two, word};
use ls_event::Snap;
use ls_form::{Pair, Params};
use ls_request::{
    Add, Bind, Control, Create, LinkKind, Op, Request, RequestRefused, read, read_pairs,
};
use ls_value::Text;
use std::alloc::Global;

/// What a request is, by its link, its name and its form text.
pub fn request(alloc: Global, input: &[u8]) -> Result<String, Failed> {
    let (link, request) = two(input);
    let link = link_of(link)?;
    let (name, params) = two(request);
    answer(alloc, read(alloc, link, name, params))
}

/// What a control request over a WebSocket is, by its pairs.
pub fn pairs(alloc: Global, input: &[u8]) -> Result<String, Failed> {
    let mut pairs = Vec::new(alloc);
    for text in word(input)?.split(';') {
        if let Some((name, text)) = text.split_once('=') {
            pairs.push(pair(alloc, name, text)?)?;
        }
    }
    answer(
        alloc,
        read_pairs(alloc, LinkKind::Ws, b"control", &Params::of(pairs)),
    )
}

/// A pair of a name and a text.
fn pair(alloc: Global, name: &str, text: &str) -> Result<Pair, Failed> {
    Ok(Pair {
        name: Text::of(alloc, name.as_bytes())?,
        text: Text::of(alloc, text.as_bytes())?,
    })
}

/// The link that a word says.
fn link_of(link: &[u8]) -> Result<LinkKind, Failed> {
    match link {
        b"ws" => Ok(LinkKind::Ws),
        b"http" => Ok(LinkKind::Http),
        _ => Err(Failed::BadCase),
    }
}

/// What reading answered.
fn answer(alloc: Global, read: Result<Request, RequestRefused>) -> Result<String, Failed> {
    match read {
        Ok(Request::Create(create)) => create_text(alloc, &create),
        Ok(Request::Bind(bind)) => bind_text(alloc, &bind),
        Ok(Request::Control(control)) => control_text(alloc, &control),
        Ok(Request::Wsok) => Ok(format!(in alloc; "wsok")?),
        Err(RequestRefused::Malformed { req }) => {
            let req = quoted(alloc, req.as_ref())?;
            Ok(format!(in alloc; "malformed {req}")?)
        }
        Err(RequestRefused::NoMemory) => Err(Failed::NoMemory),
    }
}

/// A create_session.
fn create_text(alloc: Global, create: &Create) -> Result<String, Failed> {
    let set = quoted(alloc, create.set.as_ref())?;
    let bandwidth = maybe_number(alloc, create.bandwidth)?;
    let length = maybe_number(alloc, create.length)?;
    Ok(format!(in alloc; "create {set} {} {bandwidth} {length}", create.keepalive)?)
}

/// A bind_session.
fn bind_text(alloc: Global, bind: &Bind) -> Result<String, Failed> {
    let recover = maybe_number(alloc, bind.recover)?;
    let length = maybe_number(alloc, bind.length)?;
    Ok(format!(in alloc;
        "bind {} {recover} {} {length}",
        bind.session, bind.keepalive
    )?)
}

/// A control request.
fn control_text(alloc: Global, control: &Control) -> Result<String, Failed> {
    let session = maybe_number(alloc, control.session)?;
    let op = op_text(alloc, &control.op)?;
    Ok(format!(in alloc; "{} {session} {op}", control.req.as_str())?)
}

/// What a control request asks for.
fn op_text(alloc: Global, op: &Op) -> Result<String, Failed> {
    match op {
        Op::Add(add) => add_text(alloc, add),
        Op::Delete { sub } => Ok(format!(in alloc; "delete {sub}")?),
        Op::Reconf { sub, frequency } => {
            let frequency = maybe_number(alloc, *frequency)?;
            Ok(format!(in alloc; "reconf {sub} {frequency}")?)
        }
        Op::Constrain { bandwidth } => {
            let bandwidth = maybe_number(alloc, *bandwidth)?;
            Ok(format!(in alloc; "constrain {bandwidth}")?)
        }
        Op::ForceRebind => Ok(format!(in alloc; "force_rebind")?),
        Op::Destroy => Ok(format!(in alloc; "destroy")?),
    }
}

/// A new subscription.
fn add_text(alloc: Global, add: &Add) -> Result<String, Failed> {
    let names = add_names(alloc, add)?;
    let wants = add_wants(alloc, add)?;
    Ok(format!(in alloc; "add {} {} {names} {wants}", add.sub, mode_word(add.mode))?)
}

/// The items and the fields of a new subscription.
fn add_names(alloc: Global, add: &Add) -> Result<String, Failed> {
    let group = names_text(alloc, &add.group)?;
    let schema = names_text(alloc, &add.schema)?;
    Ok(format!(in alloc; "[{group}] [{schema}]")?)
}

/// The snapshot, the size of buffers and the frequency of a new subscription.
fn add_wants(alloc: Global, add: &Add) -> Result<String, Failed> {
    let snap = snap_text(alloc, add.snapshot)?;
    let size = maybe_number(alloc, add.size.map(u64::from))?;
    let frequency = maybe_number(alloc, add.frequency)?;
    Ok(format!(in alloc; "{snap} {size} {frequency}")?)
}

/// A snapshot.
fn snap_text(alloc: Global, snap: Snap) -> Result<String, Failed> {
    match snap {
        Snap::No => Ok(format!(in alloc; "no")?),
        Snap::All => Ok(format!(in alloc; "all")?),
        Snap::Last(n) => Ok(format!(in alloc; "last {n}")?),
    }
}
