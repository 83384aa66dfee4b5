//! The buffer of mode RAW as a buffer of a mode.

use crate::raw::RawBuffer;
use ls_event::{Buffer, Stored, Taken};
use ls_value::NoMemory;

impl Buffer for RawBuffer {
    ghost use Rattle.std.specs.Prelude.{◌≡◌, length, nat_lt, All};
    ghost use Rattle.ls_raw.specs.Raw.{StandsRaw, raw_head};
    ghost use Rattle.ls_raw.specs.Stands.{raw_head_is_cut, raw_pending_is, raw_waiting_is, raw_longer};

    ghost stands = { StandsRaw };

    ghost last = { λ b. b.last };

    ghost has_fields = { λ b n. All (λ u. length u.row ≡ n) b.kept };

    ghost admits = { λ b e. Unit {0} };

    ghost head = { raw_head };

    ghost is_pending = { λ b. nat_lt b.cursor b.last };

    ghost waiting_count = { λ b. length b.kept };

    ghost head_is_cut = { raw_head_is_cut };

    ghost pending_is = { raw_pending_is };

    ghost waiting_is = { raw_waiting_is };

    ghost last_is = { λ b s h st. st.last };

    ghost longer = { raw_longer };

    fn enqueue(&mut self, event: &Stored) -> Result<(), NoMemory> {
        RawBuffer::enqueue(self, &event.event)?;
        Ok(())
    }

    fn look(&self) -> Result<Option<Taken>, NoMemory> {
        RawBuffer::look(self)
    }

    fn pass(&mut self) {
        RawBuffer::pass(self)
    }

    fn pending(&self) -> bool {
        RawBuffer::pending(self)
    }

    fn waiting(&self) -> u64 {
        RawBuffer::waiting(self)
    }
}
