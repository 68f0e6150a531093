//! A clock that counts down.
ghost use Rattle.std.specs.Prelude.{◌≡◌, map};
ghost use Rattle.clock.specs.Meaning.{ClockRanges, all_stopped, clock_with, one_tick_less};

use crate::{Clock, TIMER_COUNT, is_time};
use terms::table::{at_or, put};

/// A clock that keeps the ticks left of each number, and takes one from each as a tick passes.
#[derive(Drop)]
pub struct CountdownClock {
    left: [Option<u16>; TIMER_COUNT],
    // A ghost field, since the law `ranges` is owed of every value: a model's invariant does not go with its value.
    ghost ranged: { ClockRanges (clock_with left) },
}

impl CountdownClock {
    ghost use Rattle.clock.specs.ByTicks.{by_ticks};

    /// A clock with every number stopped.
    pub fn new() -> CountdownClock
        ensures { by_ticks result ≡ all_stopped }
    {
        CountdownClock {
            left: [None; TIMER_COUNT],
        }
    }
}

/// What is left of a number when a tick passes.
fn one_tick_less(time: Option<u16>) -> Option<u16>
    ensures { result ≡ one_tick_less time }
{
    time.map(|ticks| ticks.saturating_sub(1))
}

/// Takes one tick from each number.
// In place, and not by the array's `map`, which takes four times as long.
fn take_one_tick(times: &mut [Option<u16>])
    ensures { times.new ≡ map one_tick_less times.old }
{
    for time in times.iter_mut() {
        *time = one_tick_less(*time);
    }
}

/// Counts down.
impl Clock for CountdownClock {
    ghost use Rattle.clock.specs.ByTicks.{by_ticks};

    ghost clocked = { by_ticks };

    ghost ranges = { λ clock. clock.ranged };

    fn clear(&mut self) {
        self.left = [None; TIMER_COUNT];
    }

    #[tactic(auto, using(crate::proofs::Kept::changes))]
    fn set(&mut self, number: u8, ticks: u16) {
        if is_time(ticks) {
            put(&mut self.left, number, Some(ticks));
        }
    }

    #[tactic(auto, using(crate::proofs::Kept::changes))]
    fn stop(&mut self, number: u8) {
        put(&mut self.left, number, None);
    }

    #[tactic(auto, using(crate::proofs::Kept::changes))]
    fn pass(&mut self) {
        take_one_tick(&mut self.left);
    }

    fn left(&self, number: u8) -> Option<u16> {
        at_or(&self.left, number, None)
    }
}
