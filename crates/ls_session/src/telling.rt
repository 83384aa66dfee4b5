//! Texts of the lines that tell of a change of a subscription (TLCP 2.1, UNSUB and CONF).
ghost use Rattle.std.specs.Prelude.{◌≡◌, ◌<◌, ◌^◌, [], Some, IfOk};
ghost use Rattle.ls_record.specs.Lines.{Ends, Configures, line_text};
ghost use Rattle.ls_stream.specs.Standing.{IsShort};

use ls_line::{Line, into_text};
use ls_subs::configure_text;
use ls_value::{Bytes, NoMemory};
use std::alloc::Global;

/// The line `UNSUB,<sub>`.
pub(crate) fn unsub_text(alloc: Global, sub: u32) -> Result<Bytes, NoMemory>
    ensures text { IfOk result (λ t. t ≡ line_text [] (Ends sub)) }
    ensures short { IfOk result (λ t. IsShort t) }
{
    into_text(alloc, Line::Unsub { sub })
}

/// The line `CONF` of a subscription with this greatest frequency, in thousandths of an update per second.
pub(crate) fn conf_text(
    alloc: Global,
    sub: u32,
    frequency: Option<u64>,
    filtered: bool,
) -> Result<Bytes, NoMemory>
    ensures text { IfOk result (λ t. t ≡ line_text [] (Configures sub frequency filtered)) }
    ensures short { IfOk result (λ t. IsShort t) }
{
    match frequency {
        None => configure_text(alloc, sub, None, filtered),
        Some(frequency) => limited_text(alloc, sub, frequency, filtered),
    }
}

/// The line `CONF` of a subscription that has a greatest frequency.
fn limited_text(alloc: Global, sub: u32, frequency: u64, filtered: bool) -> Result<Bytes, NoMemory>
    ensures text { IfOk result (λ t. t ≡ line_text [] (Configures sub (Some frequency) filtered)) }
    ensures short { IfOk result (λ t. IsShort t) }
{
    configure_text(alloc, sub, Some(frequency), filtered)
}
