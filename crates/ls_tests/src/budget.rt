//! Budgets compared with plain programs that go ms by ms, on settings, spends and ticks that are drawn, always the same
//! ones, and tables of single budgets.
ghost use Rattle.std.specs.Prelude.{◌<◌, ◌≤◌};
ghost use Rattle.std.specs.Option.{ForSome};
ghost use Rattle.ls_value.specs.declared.limits.TheConstants.{GREATEST_TICK};
ghost use Rattle.ls_budget.specs.declared.limits.TheConstants.{MOST_BYTES};

use ls_budget::{Bandwidth, Due, Frequency, GREATEST_TICK, MOST_BYTES, interval_of};
use std::test::Fail;

/// A linear congruential generator (Knuth's MMIX).
#[derive(Drop)]
struct Draws {
    state: u64,
}

impl Draws {
    /// A number below n, or 0.
    fn below(&mut self, n: u64) -> u64
        ensures { result ≤ n }
    {
        self.state = self
            .state
            .wrapping_mul(6364136223846793005)
            .wrapping_add(1442695040888963407);
        if n == 0 { 0 } else { (self.state >> 33) % n }
    }
}

/// The credit of a rate at a tick, in thousandths of a bit, below 0 where there is a debt.
#[derive(Clone, Copy, Drop)]
struct Plain {
    rate: u64,
    credit: i128,
    tick: u64,
}

impl Plain {
    /// At first the credit is full.
    fn new(rate: u64, tick: u64) -> Plain {
        Plain {
            rate,
            credit: 1000 * rate as i128,
            tick,
        }
    }

    /// A ms later. A full credit stays as it is.
    fn after_ms(self) -> Plain {
        let (full, more) = (
            1000 * self.rate as i128,
            self.credit.saturating_add(self.rate as i128),
        );
        Plain {
            rate: self.rate,
            credit: if more < full { more } else { full },
            tick: self.tick.saturating_add(1),
        }
    }

    /// At a later tick, ms by ms until the credit is full.
    fn at(self, tick: u64) -> Plain {
        let mut plain = self;
        for _ in self.tick..tick {
            if plain.credit == 1000 * plain.rate as i128 {
                break;
            }
            plain = plain.after_ms();
        }
        plain.tick = tick;
        plain
    }

    /// After a spend.
    fn spent(self, bytes: u64) -> Plain {
        Plain {
            rate: self.rate,
            credit: self.credit.saturating_sub(8000 * bytes as i128),
            tick: self.tick,
        }
    }
}

/// Whether a bandwidth is due first at a tick to come: asked one ms before, then, and one after.
fn is_due_first(fast: &Bandwidth, tick: u64) -> bool
    requires { fast.now.latest < tick }
{
    if tick >= GREATEST_TICK {
        return true;
    }
    fast.due(tick - 1) == Due::At(tick)
        && fast.due(tick) == Due::Now
        && fast.due(tick + 1) == Due::Now
}

/// Whether a bandwidth is due at a tick as its credit says, or else first at the tick at which there is credit.
fn agrees(fast: &Bandwidth, plain: Plain, now: u64) -> bool
    requires behind { fast.now.latest ≤ now }
    requires tick { now ≤ GREATEST_TICK }
{
    match fast.due(now) {
        Due::Now => plain.at(now).credit > 0,
        Due::At(tick) => {
            let before = plain.at(now).at(tick - 1);
            before.credit <= 0 && before.after_ms().credit > 0 && is_due_first(fast, tick)
        }
    }
}

/// A bandwidth, and the same by the plain program where there is a rate.
#[derive(Drop)]
struct Both {
    fast: Bandwidth,
    plain: Option<Plain>,
    now: u64,
    /// How often it was due, and how often not.
    nows: u64,
    waits: u64,
    ghost in_order: { fast.latest ≤ now },
    ghost in_range: { now ≤ GREATEST_TICK },
}

/// A drawn rate: the lowest, the highest, or one under which spends soon leave a debt.
fn drawn_rate(draws: &mut Draws) -> u64
    ensures { 0 < result }
{
    match draws.below(8) {
        0 => 1,
        1 => 80,
        2 => 999_999_999_999,
        3 => u64::MAX,
        4 => draws.below(1000) + 1,
        5 => draws.below(10_000_000) + 1000,
        _ => draws.below(100_000) + 1000,
    }
}

/// Drawn bytes: few where the rate is so low that many would take the plain program long.
fn drawn_bytes(draws: &mut Draws, rate: u64) -> u64
    ensures { result ≤ MOST_BYTES }
{
    let most = if rate < MOST_BYTES {
        rate.saturating_add(9)
    } else {
        MOST_BYTES
    };
    let bytes = if draws.below(2) == 0 {
        most
    } else {
        draws.below(most)
    };
    if bytes < MOST_BYTES {
        bytes
    } else {
        MOST_BYTES
    }
}

/// A drawn tick from now on: the same, near the one at which it is due, a little later, or long after.
fn drawn_tick(draws: &mut Draws, due: u64, now: u64) -> u64
    requires { now ≤ GREATEST_TICK }
    ensures from_now { now ≤ result }
    ensures in_range { result ≤ GREATEST_TICK }
{
    let later = match draws.below(8) {
        0 => now.saturating_add(draws.below(3)),
        1 => now.saturating_add(draws.below(2000)),
        2 => now.saturating_add(draws.below(1 << 30).saturating_mul(1 << 20)),
        3 => due.saturating_sub(1),
        4 => due,
        5 => due.saturating_add(1),
        _ => now,
    };
    between(now, later)
}

/// A tick, but none before now and none beyond the greatest.
fn between(now: u64, tick: u64) -> u64
    requires { now ≤ GREATEST_TICK }
    ensures from_now { now ≤ result }
    ensures in_range { result ≤ GREATEST_TICK }
{
    if tick < now {
        return now;
    }
    if tick > GREATEST_TICK {
        return GREATEST_TICK;
    }
    tick
}

/// The tick at which a bandwidth is due.
fn due_tick(due: Due, now: u64) -> u64 {
    match due {
        Due::Now => now,
        Due::At(tick) => tick,
    }
}

impl Both {
    /// A drawn rate, set at a tick.
    fn new(draws: &mut Draws, now: u64) -> Both
        requires { now ≤ GREATEST_TICK }
    {
        let rate = drawn_rate(draws);
        Both {
            fast: Bandwidth::new(Some(rate), now),
            plain: Some(Plain::new(rate, now)),
            now,
            nows: 0,
            waits: 0,
        }
    }

    /// Goes on to a drawn tick.
    fn wait(&mut self, draws: &mut Draws) {
        let due = due_tick(self.fast.due(self.now), self.now);
        self.now = drawn_tick(draws, due, self.now);
        if let Some(plain) = self.plain {
            self.plain = Some(plain.at(self.now));
        }
    }

    /// Sets no rate, the same one or another.
    fn set(&mut self, draws: &mut Draws) {
        if draws.below(4) == 0 {
            self.fast.set(None, self.now);
            self.plain = None;
            return;
        }
        let rate = drawn_rate(draws);
        self.fast.set(Some(rate), self.now);
        self.plain = Some(Plain::new(rate, self.now));
    }

    /// Whether both agree now.
    fn agree(&self) -> bool {
        match self.plain {
            None => self.fast.due(self.now) == Due::Now,
            Some(plain) => agrees(&self.fast, plain, self.now),
        }
    }

    /// A spend of drawn bytes, where it is due.
    fn spend(&mut self, draws: &mut Draws) {
        if self.fast.due(self.now) != Due::Now {
            self.waits = self.waits.saturating_add(1);
            return;
        }
        self.nows = self.nows.saturating_add(1);
        match self.plain {
            None => self.fast.spend(self.now, drawn_bytes(draws, 1)),
            Some(plain) => {
                let bytes = drawn_bytes(draws, plain.rate);
                self.fast.spend(self.now, bytes);
                self.plain = Some(plain.at(self.now).spent(bytes));
            }
        }
    }

    /// A drawn step, and whether both agree behind it.
    fn step(&mut self, draws: &mut Draws) -> bool {
        if draws.below(3) == 0 {
            self.wait(draws);
        }
        if draws.below(12) == 0 {
            self.set(draws);
        } else {
            self.spend(draws);
        }
        self.agree()
    }
}

/// Whether both agree behind each of 16 drawn steps; how often it was due is added to the first, how often not to the
/// second.
fn agree_in_steps(draws: &mut Draws, nows: &mut u64, waits: &mut u64) -> bool {
    let start = between(0, draws.below(1 << 20));
    let mut both = Both::new(draws, start);
    for _ in 0..16 {
        if !both.step(draws) {
            return false;
        }
    }
    *nows = nows.saturating_add(both.nows);
    *waits = waits.saturating_add(both.waits);
    true
}

#[test]
fn bandwidths_agree_with_the_plain_program(rt: HostRuntime) -> Result<(), Fail> {
    let mut draws = Draws { state: 7 };
    let mut nows = 0;
    let mut waits = 0;
    for _ in 0..600 {
        assert!(rt; agree_in_steps(&mut draws, &mut nows, &mut waits));
    }
    assert!(rt; nows > 2000 && waits > 2000);
    Ok(())
}

/// A spend, where it is due.
fn spend_if_due(bandwidth: &mut Bandwidth, now: u64, bytes: u64)
    requires behind { bandwidth.old.latest ≤ now }
    requires now { now ≤ GREATEST_TICK }
    requires bytes { bytes ≤ MOST_BYTES }
    ensures { bandwidth.new.latest ≤ now }
{
    if bandwidth.due(now) == Due::Now {
        bandwidth.spend(now, bytes);
    }
}

/// Whether a bandwidth with two spends at a tick is due first at another.
fn two_spends_are_due(rate: u64, now: u64, bytes: u64, tick: u64) -> bool
    requires rate { 0 < rate }
    requires now { now ≤ GREATEST_TICK }
    requires bytes { bytes ≤ MOST_BYTES }
{
    let mut bandwidth = Bandwidth::new(Some(rate), now);
    spend_if_due(&mut bandwidth, now, bytes);
    spend_if_due(&mut bandwidth, now, bytes);
    tick > now && bandwidth.due(now) == Due::At(tick) && is_due_first(&bandwidth, tick)
}

#[test]
fn a_debt_is_waited_for(rt: HostRuntime) -> Result<(), Fail> {
    assert!(rt; two_spends_are_due(80, 0, 9, 801));
    assert!(rt; two_spends_are_due(80, 5, 9, 806));
    assert!(rt; two_spends_are_due(81, 0, 9, 778));
    // exactly no credit is left
    assert!(rt; two_spends_are_due(80, 0, 5, 1));
    assert!(rt; two_spends_are_due(16, 0, 1, 1));
    // the lowest rate
    assert!(rt; two_spends_are_due(1, 0, 1, 7001));
    assert!(rt; two_spends_are_due(1, 3, 16_386, 131_087_004));
    assert!(rt; two_spends_are_due(1, 1_000_000_000_000_000_000, 1, 1_000_000_000_000_007_001));
    assert!(rt;
        two_spends_are_due(
            1,
            1_000_000_000_000_000_000,
            16_386,
            1_000_000_000_131_087_001
        )
    );
    // the first spend takes all of the greatest credit, or leaves a little
    assert!(rt; two_spends_are_due(131_088, 0, 16_386, 1));
    assert!(rt; two_spends_are_due(131_089, 0, 16_386, 1000));
    Ok(())
}

/// Whether a rate that doesn't restrict is due at once after two spends of most bytes.
fn is_due_at_once(rate: Option<u64>, now: u64) -> bool
    requires rate { ForSome rate (λ r. 0 < r) }
    requires now { now ≤ GREATEST_TICK }
{
    let mut bandwidth = Bandwidth::new(rate, now);
    spend_if_due(&mut bandwidth, now, MOST_BYTES);
    spend_if_due(&mut bandwidth, now, MOST_BYTES);
    bandwidth.due(now) == Due::Now && bandwidth.due(GREATEST_TICK) == Due::Now
}

#[test]
fn high_rates_are_due_at_once(rt: HostRuntime) -> Result<(), Fail> {
    assert!(rt; is_due_at_once(None, 0));
    assert!(rt; is_due_at_once(Some(999_999_999_999), 0));
    assert!(rt; is_due_at_once(Some(u64::MAX), 0));
    assert!(rt; is_due_at_once(Some(u64::MAX), 1_000_000_000_000_000_000));
    assert!(rt; is_due_at_once(Some(262_177), 0));
    assert!(rt; !is_due_at_once(Some(262_176), 0));
    Ok(())
}

/// Whether a rate that is set while there is a debt begins with a full credit.
fn begins_anew(rate: Option<u64>) -> bool
    requires { ForSome rate (λ r. 0 < r) }
{
    let mut bandwidth = Bandwidth::new(Some(80), 0);
    bandwidth.spend(0, MOST_BYTES);
    let before = bandwidth.due(7);
    bandwidth.set(rate, 7);
    let after = bandwidth.due(7);
    before == Due::At(1_637_601) && after == Due::Now
}

/// Whether the same rate, set again, has a credit of 1000 ms and no more.
fn has_one_second() -> bool {
    let mut bandwidth = Bandwidth::new(Some(80), 0);
    bandwidth.set(Some(80), 50);
    bandwidth.spend(50, 10);
    is_due_first(&bandwidth, 51)
}

#[test]
fn a_rate_that_is_set_begins_anew(rt: HostRuntime) -> Result<(), Fail> {
    assert!(rt; begins_anew(Some(80)) && begins_anew(Some(1)) && begins_anew(None));
    assert!(rt; has_one_second());
    Ok(())
}

/// The least ms in which a frequency comes to an update, counted.
fn counted_interval(f: u64) -> u64 {
    for ms in 1..1_000_000 {
        if ms as u128 * f as u128 >= 1_000_000 {
            return ms;
        }
    }
    1_000_000
}

#[test]
fn intervals_are_those_counted(rt: HostRuntime) -> Result<(), Fail> {
    let mut draws = Draws { state: 11 };
    for f in [
        1,
        2,
        3,
        999,
        1000,
        1001,
        2000,
        3000,
        999_999,
        1_000_000,
        1_000_001,
        u64::MAX,
    ] {
        assert!(rt; interval_of(f) == counted_interval(f));
    }
    for _ in 0..500 {
        let f = draws.below(2_000_000) + 1;
        assert!(rt; interval_of(f) == counted_interval(f));
    }
    Ok(())
}

/// Whether a slot is due first at a tick: asked one ms before, then, and one after.
fn slot_is_due_first(frequency: &Frequency, tick: u64) -> bool
    requires { 0 < tick }
{
    frequency.due(tick - 1) == Due::At(tick)
        && frequency.due(tick) == Due::Now
        && frequency.due(tick.saturating_add(1)) == Due::Now
}

/// Whether a slot of a frequency is due at once at first, and after an update first at a tick.
fn is_next_due(f: u64, last: u64, tick: u64) -> bool
    requires f { 0 < f }
    requires last { last ≤ GREATEST_TICK }
    requires tick { 0 < tick }
{
    let mut frequency = Frequency::new(Some(f));
    let first = frequency.due(0);
    frequency.spend(last);
    first == Due::Now && slot_is_due_first(&frequency, tick)
}

/// Whether the last update's tick stays as another frequency is set, and while there is none.
fn keeps_the_last_tick() -> bool {
    let mut frequency = Frequency::new(Some(2000));
    frequency.spend(40);
    frequency.set(Some(3000));
    let other = slot_is_due_first(&frequency, 374);
    frequency.set(None);
    let none = frequency.due(40);
    frequency.spend(60);
    frequency.set(Some(1));
    other && none == Due::Now && slot_is_due_first(&frequency, 1_000_060)
}

#[test]
fn a_slot_waits_for_its_interval(rt: HostRuntime) -> Result<(), Fail> {
    assert!(rt;
        is_next_due(2000, 0, 500) && is_next_due(3000, 40, 374) && is_next_due(1, 0, 1_000_000)
    );
    assert!(rt;
        is_next_due(1_000_000, 7, 8) && is_next_due(1_000_001, 7, 8) && is_next_due(u64::MAX, 7, 8)
    );
    assert!(rt; is_next_due(1, 1_000_000_000_000_000_000, 1_000_000_000_001_000_000));
    assert!(rt; keeps_the_last_tick());
    Ok(())
}
