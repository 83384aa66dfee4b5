//! How much a session may give.
ghost use Rattle.std.specs.Prelude.{◌≡◌, ◌+◌, ◌*◌, ◌<◌, ◌≤◌, ◌↔◌, IsTrue, ℕ, List, [], ◌∷◌, Option};
ghost use Rattle.std.specs.Option.{ForSome};
ghost use Rattle.ls_budget.specs.Budget.{Spend, full_credit, credit_tick};
ghost use Rattle.ls_budget.specs.Due.{due_at, answered_tick, allows, IsFirst};
ghost use Rattle.ls_budget.specs.Kept.{StandsBandwidth, MaySpend, set_anew, tick_by, due_of, spent, lacks_at};
ghost use Rattle.ls_value.specs.declared.limits.TheConstants.{GREATEST_TICK};
ghost use Rattle.ls_budget.specs.declared.limits.TheConstants.{MOST_BYTES};
ghost use Rattle.ls_budget.specs.declared.due.Due.TheVariants as due;

use crate::due::Due;
use crate::limits::MOST_BYTES;
use ls_value::GREATEST_TICK;
use std::marker::Model;

/// The rate at which a session may give, in thousandths of a kbit per second (which is a thousandth of a bit per ms),
/// if there is one, and what the credit lacked to the greatest one, in thousandths of a bit, at the tick of the last
/// spend or setting. The greatest credit is that of a second. A spend may leave a debt, and there is none where there
/// is no credit. Ticks are in ms.
#[derive(Clone, Copy, Debug, Drop)]
pub struct Bandwidth {
    rate: Option<u64>,
    latest: u64,
    lacks: u128,
}

impl Model for Bandwidth {
    ghost use Rattle.std.specs.Prelude.{◌+◌, ◌*◌, ◌<◌};
    ghost use Rattle.std.specs.Option.{ForSome};
    ghost use Rattle.ls_budget.specs.Budget.{full_credit};
    ghost use Rattle.ls_budget.specs.Kept.{KeptCredit};
    ghost use Rattle.ls_budget.specs.declared.limits.TheConstants.{MOST_BYTES};

    ghost Value = { KeptCredit };

    ghost view = { λ k. record { rate = k.rate; latest = k.latest; lacks = k.lacks } };

    ghost inverse = { λ v. record { rate = v.rate; latest = v.latest; lacks = v.lacks } };

    ghost invariant = { λ k. ForSome k.rate (λ r. (0 < r) × (k.lacks < full_credit r + 8000 * MOST_BYTES)) };
}

impl Bandwidth {
    /// A rate of which nothing was spent yet, or no rate, from a tick on.
    pub fn new(r: Option<u64>, now: u64) -> Bandwidth
        requires { ForSome r (λ r. 0 < r) }
        ensures value { result ≡ set_anew r now }
        ensures latest { result.latest ≡ now }
        ensures stands { StandsBandwidth result r [] }
    {
        Bandwidth {
            rate: r,
            latest: now,
            lacks: 0,
        }
    }

    /// Sets the rate, or none, from a tick on. The credit starts anew, also where the rate is the same.
    pub fn set(&mut self, r: Option<u64>, now: u64)
        requires { ForSome r (λ r. 0 < r) }
        ensures value { self.new ≡ set_anew r now }
        ensures latest { self.new.latest ≡ now }
        ensures stands { StandsBandwidth self.new r [] }
    {
        *self = Bandwidth::new(r, now);
    }

    /// The rate, in thousandths of a kbit per second, or none.
    pub fn rate(&self) -> Option<u64>
        ensures stands { (rate : Option ℕ) (spends : List Spend) → StandsBandwidth self.now rate spends
            → result ≡ rate }
        ensures some { ForSome result (λ r. 0 < r) }
    {
        self.rate
    }

    /// Whether an update may be given now, and else at which tick first. There is credit at that tick, if only a
    /// thousandth of a bit, and none at any tick from now to before it. With no rate it may be given now.
    pub fn due(&self, now: u64) -> Due
        ensures value { now ≤ GREATEST_TICK → result ≡ due_of self.now now }
        ensures later { (tick : ℕ) → now ≤ GREATEST_TICK → result ≡ due.At tick → now < tick }
        ensures stands { (rate : Option ℕ) (spends : List Spend) → StandsBandwidth self.now rate spends
            → self.now.latest ≤ now → now ≤ GREATEST_TICK → result ≡ due_at (credit_tick rate spends now) now }
        ensures first { (rate : Option ℕ) (spends : List Spend) → StandsBandwidth self.now rate spends
            → self.now.latest ≤ now → now ≤ GREATEST_TICK
            → IsFirst (allows rate spends) now (answered_tick result now) }
    {
        answer(self, now)
    }

    /// So many bytes were given, at a tick at which that was due. They take 8000 thousandths of a bit each. Nothing is
    /// spent where it wasn't due, where the tick is before the last one or beyond the greatest, or where there are more
    /// bytes than an update has.
    pub fn spend(&mut self, now: u64, bytes: u64)
        ensures value { MaySpend self.old now bytes → self.new ≡ spent self.old now bytes }
        ensures other { (MaySpend self.old now bytes → ⊥) → self.new ≡ self.old }
        ensures stands { (rate : Option ℕ) (spends : List Spend) → StandsBandwidth self.old rate spends
            → self.old.latest ≤ now → now ≤ GREATEST_TICK → credit_tick rate spends now ≡ now → bytes ≤ MOST_BYTES
            → (self.new.latest ≡ now)
            × StandsBandwidth self.new rate (record { tick = now; bytes = bytes } ∷ spends) }
    {
        if may_spend(self, now, bytes) {
            *self = after(self, now, bytes);
        }
    }
}

/// What is answered at a tick.
fn answer(kept: &Bandwidth, now: u64) -> Due
    ensures { now ≤ GREATEST_TICK → result ≡ due_of kept.now now }
{
    match kept.rate {
        Some(rate) => due_by(rate, lacks_by(kept, rate, now), now),
        None => Due::Now,
    }
}

/// Whether so many bytes may be spent at a tick.
fn may_spend(kept: &Bandwidth, now: u64, bytes: u64) -> bool
    ensures { IsTrue result ↔ MaySpend kept.now now bytes }
{
    if kept.latest > now || now > GREATEST_TICK || bytes > MOST_BYTES {
        return false;
    }
    match answer(kept, now) {
        Due::Now => true,
        Due::At(_) => false,
    }
}

/// What is kept after a spend.
fn after(kept: &Bandwidth, now: u64, bytes: u64) -> Bandwidth
    requires { MaySpend kept.now now bytes }
    ensures { result ≡ spent kept.now now bytes }
{
    let lacks = match kept.rate {
        Some(rate) => lacks_by(kept, rate, now) + 8000 * bytes as u128,
        None => 0,
    };
    Bandwidth {
        rate: kept.rate,
        latest: now,
        lacks,
    }
}

/// What the credit of a rate lacks at a tick.
fn lacks_by(kept: &Bandwidth, rate: u64, now: u64) -> u128
    ensures { result ≡ lacks_at kept.now rate now }
{
    let restored = rate as u128 * now.saturating_sub(kept.latest) as u128;
    kept.lacks.saturating_sub(restored)
}

/// What is answered where so much is lacking.
fn due_by(rate: u64, lacks: u128, now: u64) -> Due
    requires rate { 0 < rate }
    requires lacks { lacks < full_credit rate + 8000 * MOST_BYTES }
    ensures { now ≤ GREATEST_TICK → result ≡ due_at (tick_by rate lacks now) now }
{
    let full = 1000 * rate as u128;
    if lacks < full {
        Due::Now
    } else {
        let wait = ((lacks - full) / rate as u128) as u64 + 1;
        Due::At(now.saturating_add(wait))
    }
}
