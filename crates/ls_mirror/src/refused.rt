//! Why a line isn't taken.
ghost use Rattle.std.specs.Prelude.{◌≡◌};
ghost use Rattle.ls_mirror.specs.Refusing.{cause_of};

use ls_update::ReadRefused;
use ls_value::NoMemory;
use std::alloc::{AllocError, AllocFailed};

/// Why a client doesn't take a line. It is then as before.
#[derive(Clone, Copy, Debug, PartialEq, Eq)]
pub enum MirrorRefused {
    /// The line names a subscription that is not live, or an item that it has not.
    Unknown {
        /// The subscription's number.
        sub: u32,
        /// The item's rank in the subscription, from 1; 0 where the line names none.
        item: u32,
    },
    /// The coded fields of a U line say no row, or in mode COMMAND the row has no key or no command word.
    BadFields,
    /// Memory was refused.
    NoMemory,
}

impl From<NoMemory> for MirrorRefused {
    ghost use Rattle.std.specs.Prelude.{◌≡◌};
    ghost use Rattle.ls_mirror.specs.declared.refused.MirrorRefused.TheVariants as refused;

    ghost from_gives = { λ _ e. e ≡ refused.NoMemory };

    fn from(_: NoMemory) -> MirrorRefused {
        MirrorRefused::NoMemory
    }
}

impl From<AllocError> for MirrorRefused {
    ghost use Rattle.std.specs.Prelude.{◌≡◌};
    ghost use Rattle.ls_mirror.specs.declared.refused.MirrorRefused.TheVariants as refused;

    ghost from_gives = { λ _ e. e ≡ refused.NoMemory };

    fn from(_: AllocError) -> MirrorRefused {
        MirrorRefused::NoMemory
    }
}

impl<T: Drop> From<AllocFailed<T>> for MirrorRefused {
    ghost use Rattle.std.specs.Prelude.{◌≡◌};
    ghost use Rattle.ls_mirror.specs.declared.refused.MirrorRefused.TheVariants as refused;

    ghost from_gives = { λ _ e. e ≡ refused.NoMemory };

    fn from(_: AllocFailed<T>) -> MirrorRefused {
        MirrorRefused::NoMemory
    }
}

/// The refusal of a line whose coded fields were refused.
pub(crate) fn cause_of(refused: ReadRefused) -> MirrorRefused
    ensures { result ≡ cause_of refused }
{
    match refused {
        ReadRefused::NoMemory => MirrorRefused::NoMemory,
        _ => MirrorRefused::BadFields,
    }
}
