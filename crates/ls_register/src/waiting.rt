//! Waiting for good.

use std::sync::Wait;

/// Waits for good. No call makes the state in which it is reached, as where a token is of another item than the value
/// behind the lock: tests show that it isn't reached, no theorem does, since a call that waits meets any contract.
pub fn wait_for_good<R: Wait>(rt: &R)
    ensures { ⊥ }
{
    for _ in rt.forever() {}
    unreachable!()
}
