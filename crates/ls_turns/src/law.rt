//! The law of a round. Its contract is the law; its body is empty.
ghost use Rattle.std.specs.Prelude.{◌≡◌, ◌⊎◌, ◌++◌, ◌∷◌, [], List, false};
ghost use Rattle.std.specs.List.{Contains};
ghost use Rattle.ls_turns.specs.Moves.{Move, Gave, is_same, MayMoveAll, Stays, HasGiven};
ghost use Rattle.ls_turns.specs.declared.slot_ref.SlotRef.{SlotRef};

/// Between two lines of a slot, each other slot that stays in the round gives a line, or is asked in the turn of the
/// second line and gives none.
pub fn no_slot_is_passed_over()
    ensures { (round before asked : List SlotRef) (a b : SlotRef) (moves : List Move)
        → MayMoveAll round (Gave a before ∷ moves ++ Gave a asked ∷ []) → Contains round b → is_same a b ≡ false
        → Stays b moves → HasGiven b moves ⊎ Contains asked b }
{}
