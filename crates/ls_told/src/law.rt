//! Laws of what was told.
ghost use Rattle.std.specs.Prelude.{◌≡◌, ◌++◌, [], ℕ, List, false};
ghost use Rattle.ls_event.specs.declared.item.ItemDef.{ItemDef};
ghost use Rattle.ls_record.specs.Records.{Session, is_alive};
ghost use Rattle.ls_register.specs.declared.told.Told.{Told};
ghost use Rattle.ls_told.specs.Given.{InOrder};
ghost use Rattle.ls_told.specs.Heard.{heard, epoch_of};
ghost use Rattle.ls_told.specs.Seen.{Watched, IsTold};
ghost use Rattle.ls_told.specs.Keeping.{KeepsTold};

/// What is kept of a session is lawful.
pub fn what_is_kept_is_lawful()
    ensures { (config : List ItemDef) (number : ℕ) (lines : List Told) (ws : List Watched) (s : Session)
        → KeepsTold config number lines ws s → IsTold config number lines ws s }
{}

/// A session that has ended has no slots.
pub fn none_is_left_after_the_end()
    ensures { (config : List ItemDef) (number : ℕ) (lines : List Told) (ws : List Watched) (s : Session)
        → IsTold config number lines ws s → is_alive (heard number lines).life ≡ false → s.board.round ≡ [] }
{}

/// The numbered lines that are given on one stream between two moments are the session's lines after the one that was
/// given last, in order and without a gap (TLCP 2.1, recovery).
pub fn lines_are_given_without_a_gap()
    ensures { (config : List ItemDef) (number : ℕ) (es more : List Told) (early late : List Watched) (s t : Session)
        → IsTold config number es early s → IsTold config number (es ++ more) late t
        → epoch_of (es ++ more) ≡ epoch_of es → InOrder number (heard number es) more }
{}
