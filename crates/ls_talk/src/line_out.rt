//! What lines are put to.
ghost use Rattle.std.specs.Prelude.{◌≡◌, ℕ, List};
ghost use Rattle.std.specs.declared.option.Option.{Option};
ghost use Rattle.std.specs.Str.{IsUtf8};
ghost use Rattle.ls_talk.specs.Lines.{Counts, Lender, PutsOf, LogsPut, HasPutCause, no_lender};
ghost use Rattle.ls_talk.specs.declared.talk.Happening.{Happening};

use ls_value::NoMemory;

/// Why a line was not put.
#[derive(Clone, Copy, Debug, PartialEq, Eq)]
pub enum PutRefused {
    /// The put failed. It counts as a fault. A part of the line may have gone out.
    Failed,

    /// Memory was refused. Nothing of the line went out.
    NoMemory,
}

impl From<NoMemory> for PutRefused {
    ghost use Rattle.std.specs.Prelude.{◌≡◌};
    ghost use Rattle.ls_talk.specs.declared.line_out.PutRefused.TheVariants as refused;

    ghost from_gives = { λ _ e. e ≡ refused.NoMemory };

    fn from(_: NoMemory) -> PutRefused {
        PutRefused::NoMemory
    }
}

/// What lines are put to, one at a time. It counts its faults.
pub trait LineOut {
    /// The bytes that went out, where they are told.
    ghost held: { Self → Option (List ℕ) };

    /// What happened on it, in order, where it is told.
    ghost log: { Self → Option (List Happening) };

    /// The count of faults.
    ghost faults: { Self → ℕ };

    /// The other counts, where it has them. No put changes them.
    ghost counts: { Self → Counts };

    /// What it borrowed, where it holds a reference to what the bytes go to, and what that held then. No call changes
    /// this: so who lent it knows what is behind the reference afterwards.
    ghost lender: { Self → Option Lender } = { λ _. no_lender };

    /// How many puts have failed, or 2^64 - 1 where that is less; where messages come over it, also how many writes of
    /// theirs. It never falls.
    fn put_faults(&self) -> u64
        ensures { result ≡ faults self.now };

    /// Puts one line: its text, which is UTF-8, and CR LF.
    ///
    /// # Errors
    ///
    /// `Failed`, with which `put_faults` rises by one: less than all of the line went out, from its front. `NoMemory`:
    /// nothing of it went out, and no count rose.
    fn put(&mut self, text: &[u8]) -> Result<(), PutRefused>
        requires { IsUtf8 text.now }
        ensures bytes { PutsOf (held self.old) (held self.new) result text.now }
        ensures log { LogsPut (log self.old) (log self.new) result text.now }
        ensures cause { HasPutCause result (faults self.old) (faults self.new) }
        ensures counts { counts self.new ≡ counts self.old }
        ensures lender { lender self.new ≡ lender self.old };
}
