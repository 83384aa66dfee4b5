//! The laws of what is given on a stream. Each function's contract is a law; its body is empty.
ghost use Rattle.std.specs.Prelude.{◌≡◌, ℕ, List, unwrap_or};
ghost use Rattle.ls_record.specs.Turning.{session_turn, round_turn};
ghost use Rattle.ls_record.specs.Records.{Item, Session};
ghost use Rattle.ls_stream.specs.Giving.{given_first};

/// A session's turn in the world is what is given first, and else what its round gives.
pub fn a_turn_gives_first_what_waits()
    ensures { (now epoch : ℕ) (items : List Item) (s : Session) → session_turn now items epoch s
        ≡ unwrap_or (given_first now epoch s) (round_turn now items s) }
{}
