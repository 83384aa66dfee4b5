//! What crosses from thread to thread.

use crate::parts::SessionParts;
use ls_register::House;

fn sends<T: Send>() {}

/// A session in parts goes to another thread.
pub fn the_parts_cross<N: House + Send + Sync>() {
    sends::<SessionParts<N>>()
}
