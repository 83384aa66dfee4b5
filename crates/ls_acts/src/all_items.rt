//! All items of a server as what a session takes of them.

use crate::slots::ItemSlots;
use ls_cells::AllItems;
use ls_event::{Mode, Snap, Taken};
use ls_value::NoMemory;

impl ItemSlots for AllItems {
    ghost use Rattle.ls_cells.specs.Cells.{StandsCells, cut_of_slot};
    ghost use Rattle.ls_cells.proofs.Histories.{slot_history};
    ghost use Rattle.ls_cells.proofs.Frequencies.{cells_frequency};

    ghost stands = { StandsCells };

    ghost head = { cut_of_slot };

    ghost has_history = { slot_history };

    ghost no_frequency = { cells_frequency };

    fn free(&self) -> u32 {
        AllItems::free(self)
    }

    fn join(
        &mut self,
        item: u32,
        mode: Mode,
        n: u32,
        snapshot: Snap,
    ) -> Result<Option<u32>, NoMemory> {
        AllItems::join(self, item, mode, n, snapshot)
    }

    fn leave(&mut self, item: u32, slot: u32) {
        AllItems::leave(self, item, slot)
    }

    fn look(&self, item: u32, slot: u32) -> Result<Option<Taken>, NoMemory> {
        AllItems::look(self, item, slot)
    }

    fn pending(&self, item: u32, slot: u32) -> bool {
        AllItems::pending(self, item, slot)
    }

    fn pass(&mut self, item: u32, slot: u32) {
        AllItems::pass(self, item, slot)
    }
}
