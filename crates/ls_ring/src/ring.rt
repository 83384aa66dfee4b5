//! The last updates of a slot, with room for as many as there are, up to a limit.
ghost use Rattle.std.specs.Prelude.{◌≡◌, ◌+◌, ◌<◌, ◌≤◌, [], ◌∷◌, ◌++◌, length, min, nat_le, IfOk, OnOk, OnErr};
ghost use Rattle.ls_event.specs.Updates.{last_of};

use circular_buffer::HeapCircularBuffer;
use ls_event::OwnRow;
use ls_value::NoMemory;

/// The room that is taken first.
const FEW: usize = 4;

/// Keeps an update behind the others, of which the last `most` stay, and tells whether the first one was lost.
/// After `NoMemory` they are as before.
#[tactic(auto, using(crate::proofs::Rings::last_of_room))]
pub fn push(
    ring: &mut HeapCircularBuffer<OwnRow>,
    own: OwnRow,
    most: usize,
) -> Result<bool, NoMemory>
    requires some { 0 < most }
    requires capacity { ring.old.capacity ≤ most }
    ensures items { OnOk result (ring.new.items ≡ last_of most (ring.old.items ++ own ∷ [])) }
    ensures lost { IfOk result (λ lost. lost ≡ nat_le most (length ring.old.items)) }
    ensures capacity { ring.new.capacity ≤ most }
    ensures err { OnErr result (ring.new.items ≡ ring.old.items) }
{
    make_room(ring, most)?;
    let lost = ring.len() >= most;
    let _first = ring.push_back(own);
    Ok(lost)
}

/// Takes room for one more, where there is none and fewer than `most` have room.
fn make_room(ring: &mut HeapCircularBuffer<OwnRow>, most: usize) -> Result<(), NoMemory>
    requires some { 0 < most }
    requires capacity { ring.old.capacity ≤ most }
    ensures items { ring.new.items ≡ ring.old.items }
    ensures capacity { ring.new.capacity ≤ most }
    ensures room { OnOk result (min most (length ring.old.items + 1) ≤ ring.new.capacity) }
{
    let room = ring.capacity();
    if room < most && ring.len() >= room {
        ring.resize(room.saturating_mul(2).max(FEW).min(most))?;
    }
    Ok(())
}
