//! The heads of HTTP requests, read and refused, and the heads of replies.
//!
//! `read_head` finds the head at the front of the bytes that came (RFC 9112): a `Head` with its length, or nothing yet,
//! or the status of the refusal. A head asks for a request by POST, whose body follows, or for the upgrade to WebSocket
//! (RFC 6455):
//!
//! ```text
//! POST /lightstreamer/control.txt?LS_protocol=TLCP-2.1.0 HTTP/1.1
//! Content-Length: 28                                                  Post {"control", true, 28}
//! ```
//!
//! `append_refusal`, `append_answer_head`, `append_stream_head` and `append_upgrade` append what is sent. Bodies, and
//! what is done for a request, are for the crates above.
#![tactic(auto)]

mod fields;
mod head;
mod look;
mod replies;
mod target;

pub use head::{Head, HeadRefused, LONGEST_BODY, LONGEST_HEAD, MOST_FIELDS, read_head};
pub use replies::{
    LONGEST_REPLY, append_answer_head, append_refusal, append_stream_head, append_upgrade,
};
