//! Which line a cut made.

/// The line that a cut of an item made (TLCP 2.1, U, OV, CS and EOS).
#[derive(Clone, Copy, Debug, PartialEq, Eq)]
pub enum CutLine {
    /// None: the client has already what the cut tells, or there is no such slot.
    Nothing,
    /// An update, `U`.
    Update,
    /// Another line: `OV`, `CS` or `EOS`.
    Other,
}
