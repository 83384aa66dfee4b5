//! Requests of clients: what they may say, and how they are read (TLCP 2.1, requests).
//!
//! `read` makes a `Request` of its name and its form text, `read_pairs` of its name and its pairs; both are told what
//! it came over (`LinkKind`). What is `Malformed` says no request; the request's own name is told where it can be
//! read, so that an answer can name it. `specs/Requests.antt` has each request as one definition over the list of its
//! pairs, and `specs/Ranges.antt` what holds of each request that is read.
//!
//! Whether a request can be done is not asked here: `ls_hub` does requests.
#![tactic(auto)]

mod add;
mod control;
mod limits;
mod open;
mod reading;
mod request;
mod values;

pub use limits::{
    DEFAULT_KEEPALIVE, DEFAULT_LENGTH, GREATEST_KEEPALIVE, LEAST_KEEPALIVE, LEAST_LENGTH,
    MOST_OWN_NAME,
};
pub use ls_event::Snap;
pub use reading::{read, read_pairs};
pub use request::{Add, Bind, Control, Create, LinkKind, Op, Request, RequestRefused};
pub use values::mode_of;
