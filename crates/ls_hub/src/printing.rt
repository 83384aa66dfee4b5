//! What steps print.
ghost use Rattle.std.specs.Prelude.{◌≡◌, ◌<◌, ◌+◌, ◌++◌, OnOk, OnErr};
ghost use Rattle.std.specs.Vec.{vec_len, vec_capacity};
ghost use Rattle.ls_step.specs.Notes.{text_of_out, room_for};

use ls_step::{Out, append};
use ls_value::NoMemory;

/// Appends what is printed. Its drop is proved here, once for all callers.
pub(crate) fn append_out(text: &mut Vec<u8>, out: Out) -> Result<(), NoMemory>
    ensures text { OnOk result (text.new.items ≡ text.old.items ++ text_of_out out) }
    ensures room { OnErr result (vec_capacity text.old < vec_len text.old + room_for out) }
{
    append(text, &out)
}
