//! A bell that wakes threads which wait for something to do.
//!
//! A `Bell` is rung by whoever made something new, and waited for by whoever looks for it:
//!
//! ```text
//! let seen = bell.rings();
//! // .. looks, and finds nothing ..
//! bell.wait(rt, seen, 10);        // at once where it was rung since, at most 10 ms
//! ```
//!
//! A thread that waits for many bells ties each of them to a `CommonBell`, which is rung with any of them:
//!
//! ```text
//! let seen = common.rings();
//! bell.tie(rt, &common);
//! // .. looks, and finds nothing ..
//! common.wait(rt, seen, 10);
//! ```
//!
//! Who rings many bells at once may note each of them first, and wake the threads after that:
//!
//! ```text
//! one.note();
//! other.note();
//! one.wake();                     // who waits for the common bell of both finds both rung
//! other.wake();
//! ```
//!
//! Who has a bell rung when a peer sends something calls it, so that a thread which wakes can tell such a ring from others:
//!
//! ```text
//! bell.call();
//! let heard = bell.calls();
//! ```
//!
//! It is shared by reference or in an `Arc`. It takes no memory, and no contract speaks of time.
#![tactic(auto)]

mod bell;
mod cross;

pub use bell::{Bell, CommonBell};
