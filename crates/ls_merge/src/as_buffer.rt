//! The buffer of mode MERGE as a buffer of a mode.

use crate::merge::MergeBuffer;
use ls_event::{Buffer, Stored, Taken};
use ls_value::NoMemory;

impl Buffer for MergeBuffer {
    ghost use Rattle.std.specs.Prelude.{◌≡◌, length};
    ghost use Rattle.ls_event.specs.History.{HasFields};
    ghost use Rattle.ls_merge.specs.Merge.{StandsMerge, merge_head, merge_is_pending};
    ghost use Rattle.ls_merge.specs.Stands.{merge_head_is_cut, merge_pending_is, merge_waiting_is, merge_longer};

    ghost stands = { StandsMerge };

    ghost last = { λ b. b.last };

    ghost has_fields = { λ b n. length b.row ≡ n };

    ghost admits = { λ b e. HasFields (length b.row) e };

    ghost head = { merge_head };

    ghost is_pending = { merge_is_pending };

    ghost waiting_count = { λ b. length b.later };

    ghost head_is_cut = { merge_head_is_cut };

    ghost pending_is = { merge_pending_is };

    ghost waiting_is = { merge_waiting_is };

    ghost last_is = { λ b s h st. st.last };

    ghost longer = { merge_longer };

    fn enqueue(&mut self, event: &Stored) -> Result<(), NoMemory> {
        MergeBuffer::enqueue(self, &event.event)?;
        Ok(())
    }

    fn look(&self) -> Result<Option<Taken>, NoMemory> {
        MergeBuffer::look(self)
    }

    fn pass(&mut self) {
        MergeBuffer::pass(self)
    }

    fn pending(&self) -> bool {
        MergeBuffer::pending(self)
    }

    fn waiting(&self) -> u64 {
        MergeBuffer::waiting(self)
    }
}
