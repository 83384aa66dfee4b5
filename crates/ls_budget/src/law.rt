//! The laws of bandwidths. Each function's contract is a law; its body is empty.
ghost use Rattle.std.specs.Prelude.{◌≡◌, ◌+◌, ◌-◌, ◌*◌, ◌<◌, ◌≤◌, ◌++◌, ◌∷◌, ℕ, List, Option, true, All};
ghost use Rattle.std.specs.Option.{ForSome};
ghost use Rattle.ls_budget.specs.Budget.{Spend, interval, full_credit, credit, has_credit, credit_tick};
ghost use Rattle.ls_budget.specs.Due.{allows, IsFirst};
ghost use Rattle.ls_budget.specs.Window.{latest_tick, MadeWithCredit, IsWithin, taken_in_all};

/// While one rate is set, the spends in any window of ticks, all but the last of them, take less than the greatest
/// credit and what the rate restores in the window, in thousandths of a bit.
pub fn spends_of_a_window_are_bounded()
    ensures { (r : ℕ) (newer within older : List Spend) (last : Spend) (from to : ℕ)
        → MadeWithCredit r (newer ++ (last ∷ (within ++ older))) → All (IsWithin from to) (last ∷ within)
        → taken_in_all within < full_credit r + r * (to - from) }
{}

/// Without a spend the credit never falls.
pub fn credit_never_falls_with_time()
    ensures credit { (r : ℕ) (spends : List Spend) (now later : ℕ) → now ≤ later
        → credit r spends now ≤ credit r spends later }
    ensures stays { (r : ℕ) (spends : List Spend) (now later : ℕ) → now ≤ later → has_credit r spends now ≡ true
        → has_credit r spends later ≡ true }
{}

/// The tick that is defined as the first with credit is it: there is credit then, and none at any tick from now to
/// before it.
pub fn a_credit_tick_is_the_first_with_credit()
    ensures { (rate : Option ℕ) (spends : List Spend) (now : ℕ) → ForSome rate (λ r. 0 < r) → latest_tick spends ≤ now
        → IsFirst (allows rate spends) now (credit_tick rate spends now) }
{}

/// An interval is the least number of ms in which a frequency comes to one update.
pub fn an_interval_is_rounded_up()
    ensures comes { (f : ℕ) → 0 < f → 1000000 ≤ f * interval f }
    ensures least { (f m : ℕ) → 0 < f → 1000000 ≤ f * m → interval f ≤ m }
{}
