//! A server from its config to its end: visitors come through a door, and each is served by a job of its own.
//!
//! `serve` reads a config from a source to its end, listens, says on a sink at which ports, and gives each visitor to a
//! job: clients to `serve_first`, and their WebSockets to the workers; feeds to `serve_feed`. All jobs share the config's
//! items and one set of sessions. It goes on until the tick at which it is to end, waits for all jobs, and says that it
//! stopped:
//!
//! ```text
//! let order = Order { port: 8080, feed: 9090, end: None };
//! let end = serve(rt, alloc, order, &mut source, &mut sink, &mut clock, &mut door, &mut spawner);
//! ```
//!
//! What `serve` promises is `Served` in specs/. It opens no socket and makes no thread: the door and the spawner do. It
//! reads no words.
#![tactic(auto)]

mod attending;
mod cross;
mod reading;
mod serving;
mod visits;

pub use serving::{Order, ServeEnd, serve};
