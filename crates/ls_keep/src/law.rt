//! The laws of the lines that are kept. Each function's contract is a law; its body is empty.
ghost use Rattle.std.specs.Prelude.{◌≤◌, ◌+◌, ℕ, List, []};
ghost use Rattle.ls_keep.specs.Keeping.{Numbered, pushed, marked, resumed};
ghost use Rattle.ls_keep.specs.Losses.{LosesOldest, KeepsFew, KeepsLatest};

/// The given-up number never falls.
pub fn the_given_up_number_never_falls()
    ensures pushed { (text : List ℕ) (n : Numbered) → n.given_up ≤ (pushed text n).given_up }
    ensures marked { (n : Numbered) → n.given_up ≤ (marked n).given_up }
{}

/// No line is given up before it was given.
pub fn no_line_is_given_up_unsent()
    ensures pushed { (text : List ℕ) (n : Numbered) → n.given_up ≤ n.sent → (pushed text n).given_up ≤ n.sent }
    ensures marked { (n : Numbered) → n.given_up ≤ n.sent → (marked n).given_up ≤ n.sent + 1 }
{}

/// A line is given up only as it was given and the lines from it on are too many to keep, or too long.
pub fn the_oldest_lines_are_given_up()
    ensures pushed { (text : List ℕ) (n : Numbered) → LosesOldest n (pushed text n) }
    ensures marked { (n : Numbered) → LosesOldest n (marked n) }
{}

/// As lines are numbered and given, no more of those that were given are kept than may be.
pub fn no_more_lines_are_kept_than_may_be()
    ensures pushed { (text : List ℕ) (n : Numbered) → n.given_up ≤ n.sent → KeepsFew (pushed text n) }
    ensures marked { (n : Numbered) → n.given_up ≤ n.sent → KeepsFew (marked n) }
{}

/// Whatever is numbered, given and gone back to: a client can go on, as long as the lines that it lacks are few and
/// short.
pub fn the_latest_lines_are_kept()
    ensures none { KeepsLatest (record { texts = []; sent = 0; given_up = 0 }) }
    ensures pushed { (text : List ℕ) (n : Numbered) → KeepsLatest n → KeepsLatest (pushed text n) }
    ensures marked { (n : Numbered) → KeepsLatest n → KeepsLatest (marked n) }
    ensures resumed { (count : ℕ) (n : Numbered) → KeepsLatest n → KeepsLatest (resumed count n) }
{}
