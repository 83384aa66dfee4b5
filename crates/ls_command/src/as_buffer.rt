//! The buffer of mode COMMAND as a buffer of a mode.

use crate::command::CommandBuffer;
use ls_event::{Buffer, Stored, Taken};
use ls_value::NoMemory;

impl Buffer for CommandBuffer {
    ghost use Rattle.ls_command.specs.Command.{StandsCommand, AreKeysWide, NamesKey, command_head, command_is_pending};
    ghost use Rattle.ls_command.specs.Stands.{command_head_is_cut, command_pending_is, command_waiting_is};
    ghost use Rattle.ls_command.specs.Stands.{command_longer};

    ghost stands = { StandsCommand };

    ghost last = { λ b. b.last };

    ghost has_fields = { λ b n. AreKeysWide n b };

    ghost admits = { λ b e. NamesKey b.key e };

    ghost head = { command_head };

    ghost is_pending = { command_is_pending };

    ghost waiting_count = { λ b. b.waiting };

    ghost head_is_cut = { command_head_is_cut };

    ghost pending_is = { command_pending_is };

    ghost waiting_is = { command_waiting_is };

    ghost last_is = { λ b s h st. st.last };

    ghost longer = { command_longer };

    fn enqueue(&mut self, event: &Stored) -> Result<(), NoMemory> {
        CommandBuffer::enqueue(self, event)?;
        Ok(())
    }

    fn look(&self) -> Result<Option<Taken>, NoMemory> {
        CommandBuffer::look(self)
    }

    fn pass(&mut self) {
        CommandBuffer::pass(self)
    }

    fn pending(&self) -> bool {
        CommandBuffer::pending(self)
    }

    fn waiting(&self) -> u64 {
        CommandBuffer::waiting(self)
    }
}
