//! Feeds: lines in which an adapter publishes, and a reply to each (this project's profile).
//!
//! [`serve_feed`] serves one connection: its first line is the hello, `feed` and the adapter's number, and each line
//! behind it is an item's name, a seq and an event's text. What a line offers, [`read_offer`] reads as an [`Offer`];
//! each line has its [`FeedReply`] in order. The [`FeedReport`] says why the feed ended, and has the passes of its adapter,
//! which have seen each event that it published:
//!
//! ```text
//! feed 1
//! quote 1 last=3.04&time=20:00:33     ok 1
//! quote 1 last=3.05                   repeated 1
//! quote 2 price=3.05                  bad 3
//! ```
//!
//! It opens no connection, and starts no thread: whoever serves several feeds calls it once for each.
#![tactic(auto)]

mod cross;
mod feed;
mod limits;
mod offer;
mod passes;
mod reply;
mod report;
mod serving;
mod unrung;

pub use limits::LONGEST_LINE;
pub use ls_shared::{Blank, House, Shared};
pub use offer::{Offer, read_offer};
pub use passes::Passes;
pub use reply::{Bad, FeedReply};
pub use report::{FeedEnd, FeedReport};
pub use serving::serve_feed;
