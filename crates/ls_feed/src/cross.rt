//! What may go to another thread.
use crate::offer::Offer;
use crate::reply::FeedReply;
use crate::report::FeedReport;
use ls_register::House;

/// A type whose values may be sent.
fn sends<T: Send>() {}

/// Offers and replies.
pub(crate) fn lines() {
    sends::<Offer>();
    sends::<FeedReply>();
}

/// What came of a feed.
pub(crate) fn report<N: House + Send + Sync>() {
    sends::<FeedReport<N>>();
}
