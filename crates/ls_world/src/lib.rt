//! What a script means, and nothing that runs: the definitions in `specs/`, of which the engine's contracts speak.
//!
//! `World` is all items with their histories, all sessions with all their lines, and the connections. It begins as
//! `empty`. `does` is the world after a step, and what the step prints; `step` does a script's line, and `output_of` is
//! what a whole script prints. `MayLeave` says which worlds a step may leave that failed for want of memory. `Lawful` says
//! when a world is lawful: each of its sessions is, on the world's items. What a session is stands in ls_record, and when
//! its record is lawful in ls_lawful.
//!
//! A contract of the engine begins with each world that its state stands for, and ends with the world after the step:
//!
//! ```text
//! ensures { OnOk result ((w : World) → StandsHub self.old w
//!     → Prints (requests w connection link name.now params) text.old.items text.new.items self.new) }
//! ```
//!
//! What follows of the definitions is in `ls_laws`. The proofs here are the lemmas that the engine's crates need too.
#![tactic(auto)]
