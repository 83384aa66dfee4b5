//! The text of the line that ends a session (TLCP 2.1, END).
ghost use Rattle.std.specs.Prelude.{◌≡◌, IfOk};
ghost use Rattle.ls_record.specs.Turning.{end_text};

use ls_line::{Line, into_text};
use ls_record::message_of;
use ls_value::{Bytes, NoMemory, Text};
use std::alloc::Global;

/// The line `END,<code>,<message>`: the session ended for the cause of a code.
pub(crate) fn end_text(alloc: Global, code: u16) -> Result<Bytes, NoMemory>
    ensures { IfOk result (λ t. t ≡ end_text code) }
{
    let message = Text::from_str(alloc, message_of(code))?;
    into_text(
        alloc,
        Line::End {
            code: code as u64,
            message,
        },
    )
}
