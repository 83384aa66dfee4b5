//! What a client does over a connection: requests are done and answered, and a stream is given.
#![tactic(auto)]

mod acted;
mod acting;
mod cross;
mod ended;
mod finding;
mod last;
mod report;
mod seen;
mod streaming;

pub use acted::Acted;
pub use acting::{STARVED, act};
pub use ended::{ConnEnd, ConnReport, MOST_IDLES};
pub use last::{lose_last, stream_last};
pub use ls_shared::{PublishRefused, Shared, Testimony, Turn};
pub use report::{StreamEnd, StreamReport};
pub use seen::Seen;
pub use streaming::stream;
