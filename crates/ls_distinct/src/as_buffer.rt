//! The buffer of mode DISTINCT as a buffer of a mode.

use crate::distinct::DistinctBuffer;
use ls_event::{Buffer, Stored, Taken};
use ls_value::NoMemory;

impl Buffer for DistinctBuffer {
    ghost use Rattle.std.specs.Prelude.{length};
    ghost use Rattle.ls_distinct.specs.Distinct.{StandsDistinct, distinct_head, distinct_is_pending};
    ghost use Rattle.ls_distinct.specs.Stands.{distinct_head_is_cut, distinct_pending_is, distinct_waiting_is};
    ghost use Rattle.ls_distinct.specs.Stands.{distinct_longer, AreRowsWide};

    ghost stands = { StandsDistinct };

    ghost last = { λ b. b.last };

    ghost has_fields = { λ b n. AreRowsWide n b };

    ghost admits = { λ b e. Unit {0} };

    ghost head = { distinct_head };

    ghost is_pending = { distinct_is_pending };

    ghost waiting_count = { λ b. length b.kept };

    ghost head_is_cut = { distinct_head_is_cut };

    ghost pending_is = { distinct_pending_is };

    ghost waiting_is = { distinct_waiting_is };

    ghost last_is = { λ b s h st. st.last };

    ghost longer = { distinct_longer };

    fn enqueue(&mut self, event: &Stored) -> Result<(), NoMemory> {
        DistinctBuffer::enqueue(self, &event.event)?;
        Ok(())
    }

    fn look(&self) -> Result<Option<Taken>, NoMemory> {
        DistinctBuffer::look(self)
    }

    fn pass(&mut self) {
        DistinctBuffer::pass(self)
    }

    fn pending(&self) -> bool {
        DistinctBuffer::pending(self)
    }

    fn waiting(&self) -> u64 {
        DistinctBuffer::waiting(self)
    }
}
