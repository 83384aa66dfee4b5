//! What is answered of a tick.

/// When something may be done.
#[derive(Clone, Copy, Debug, PartialEq, Eq)]
pub enum Due {
    /// At this tick.
    Now,
    /// First at this tick, in ms, which is to come.
    At(u64),
}
