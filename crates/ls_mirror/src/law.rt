//! The laws about what a client knows. Each function's contract is a law; its body is empty.
ghost use Rattle.std.specs.Prelude.{◌≡◌, ◌<◌, ◌^◌, ℕ, List};
ghost use Rattle.ls_line.specs.declared.line.Line.{Line as AnyLine};
ghost use Rattle.ls_mirror.specs.declared.table.Table.{Table as AnyTable};
ghost use Rattle.ls_mirror.specs.Client.{Heard, What, AreDecoded, HasCome};
ghost use Rattle.ls_mirror.specs.Standing.{IsTableOf};

/// What came of an item is determined by the lines: what was heard is decoded in one way.
pub fn what_came_is_determined()
    ensures decoded { (fields : ℕ) (hs : List Heard) (ws vs : List What) → fields < 2 ^ 64 → AreDecoded fields hs ws
        → AreDecoded fields hs vs → vs ≡ ws }
    ensures come { (sub item : ℕ) (lines : List AnyLine) (ws vs : List What) (come : HasCome sub item lines ws)
        → come.subscription.fields < 2 ^ 64 → HasCome sub item lines vs → vs ≡ ws }
{}

/// The table of an item is determined by the lines.
pub fn a_table_is_determined()
    ensures { (sub item : ℕ) (lines : List AnyLine) (t u : AnyTable)
        (of : IsTableOf sub item lines t) → of.come.subscription.fields < 2 ^ 64 → IsTableOf sub item lines u → u ≡ t }
{}
