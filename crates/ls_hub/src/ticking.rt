//! The clock, and the sessions that end by it (this project's profile).
ghost use Rattle.std.specs.Prelude.{◌≡◌, ◌≤◌, ◌<◌, ◌+◌, ℕ, length, slice_get, nat_le, Some, true, false};
ghost use Rattle.std.specs.Option.{option_map_or};
ghost use Rattle.ls_value.specs.declared.limits.TheConstants.{GREATEST_TICK};
ghost use Rattle.ls_world.specs.World.{World};
ghost use Rattle.ls_record.specs.Records.{Session as ASession, is_timed_out};
ghost use Rattle.ls_world.specs.Steps.{ticks};
ghost use Rattle.ls_record.specs.declared.TheConstants.{MOST_UNBOUND};
ghost use Rattle.ls_hub.specs.Hub.{StandsHub};
ghost use Rattle.ls_hub.specs.Clock.{Clocked, without_place};

use crate::hub::Hub;
use ls_record::MOST_UNBOUND;
use ls_session::TIMED_OUT;

impl Hub {
    /// The clock goes to a tick, in ms, which isn't before the last one, and the sessions end that were without a
    /// stream for too long. No memory is taken, and no session is looked at that has ended.
    pub(crate) fn tick_to(&mut self, ms: u64)
        ensures { (w : World) → StandsHub self.old w → w.tick ≤ ms → ms ≤ GREATEST_TICK
            → StandsHub self.new (ticks w ms) }
    {
        self.tick = ms;
        let mut met = 0;
        for _ in 0..self.living.len() {
            met = self.time_out(met);
        }
    }

    /// Behind so many sessions that haven't ended and met the clock's tick, the next one does: it ends where it was
    /// without a stream for too long. How many have met it and haven't ended then.
    fn time_out(&mut self, met: usize) -> usize
        ensures { (w : World) (ms left : ℕ) → Clocked w ms met (left + 1) self.old
            → Clocked w ms result left self.new }
    {
        let Some(place) = self.living.get(met) else {
            return met;
        };
        let place = *place;
        if self.is_timed_out(place) {
            self.end(place, TIMED_OUT);
            met
        } else {
            met + 1
        }
    }

    /// Whether the session of a place hasn't ended, and was without a stream for too long.
    fn is_timed_out(&self, place: usize) -> bool
        ensures within { result ≡ true → place < length self.now.sessions.items }
        ensures time { (w : World) (s : ASession) → StandsHub self.now w → slice_get w.sessions place ≡ Some s
            → result ≡ is_timed_out w.tick s }
    {
        match self.sessions.get(place) {
            None => false,
            Some(session) => session.is_alive() && is_too_long(session.since(), self.tick),
        }
    }
}

/// Whether a tick since which no stream is bound, if there is one, lies so far behind a tick that the session ends.
fn is_too_long(since: Option<u64>, now: u64) -> bool
    ensures { result ≡ option_map_or (λ since. nat_le (since + MOST_UNBOUND) now) since false }
{
    match since {
        None => false,
        Some(since) => now.saturating_sub(since) >= MOST_UNBOUND,
    }
}

/// The place is left out of others.
pub(crate) fn leave_out(places: &mut Vec<usize>, place: usize)
    ensures { places.new.items ≡ without_place place places.old.items }
{
    for i in 0..places.len() {
        if places[i] == place {
            places.remove(i);
            return;
        }
    }
}
