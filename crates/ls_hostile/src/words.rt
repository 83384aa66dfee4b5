//! What is said of an outcome.
use crate::failed::Failed;
use crate::served::{End, Outcome};
use crate::spelling::spell;
use ls_conn_http::ConnEnd;
use ls_feed::FeedEnd;
use std::alloc::Global;

/// How a connection ended, in words, except for one whose head was refused.
fn connection_word(end: ConnEnd) -> &'static str {
    match end {
        ConnEnd::Served => "served",
        ConnEnd::Refused { status: _ } => "refused",
        ConnEnd::PeerLeft => "left",
        ConnEnd::TooSlow => "slow",
        ConnEnd::ReadFault => "read fault",
        ConnEnd::WriteFault => "write fault",
        ConnEnd::Stopped => "stopped",
        ConnEnd::NoMemory => "out of memory",
    }
}

/// How a feed ended, in words.
fn feed_word(end: FeedEnd) -> &'static str {
    match end {
        FeedEnd::Closed => "closed",
        FeedEnd::BadHello => "bad hello",
        FeedEnd::LongLine => "long line",
        FeedEnd::ReadFault => "read fault",
        FeedEnd::WriteFault => "write fault",
        FeedEnd::Stopped => "stopped",
        FeedEnd::NoMemory => "out of memory",
    }
}

/// Appends how a work ended: a script by the status of its run.
pub(crate) fn push_end(out: &mut String, end: End) -> Result<(), Failed> {
    match end {
        End::Script(status) => write!(out, "status {}", status.number())?,
        End::Client(ConnEnd::Refused { status }) => write!(out, "refused {status}")?,
        End::Client(end) => out.push_str(connection_word(end))?,
        End::Feed(end) => out.push_str(feed_word(end))?,
    }
    Ok(())
}

/// An outcome in words: how it ended, and what was written.
pub(crate) fn outcome_words(alloc: Global, outcome: &Outcome) -> Result<String, Failed> {
    let mut out = String::new(alloc);
    push_end(&mut out, outcome.end)?;
    if !outcome.written.is_empty() {
        out.push_str(": ")?;
        spell(&mut out, &outcome.written)?;
    }
    Ok(out)
}
