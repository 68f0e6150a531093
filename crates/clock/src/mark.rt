//! A clock of marks.
ghost use Rattle.std.specs.Prelude.{◌≡◌};
ghost use Rattle.clock.specs.Meaning.{ClockRanges, all_stopped, one_tick_less, passing};
ghost use Rattle.clock.specs.Marks.{count_after, ticks_between, timed_by, until_mark};

use crate::{Clock, TIMER_COUNT, is_time};
use terms::table::{at_or, put};

/// A clock that keeps, of each number that runs, the count at which it runs out: its mark.
///
/// The count goes up by one as a tick passes, and wraps around. The mark of a number that has run out moves along
/// with the count: left behind, it would come round again.
#[derive(Drop)]
pub struct MarkClock {
    count: u32,
    marks: [Option<u32>; TIMER_COUNT],
    // No `impl Model`, for the reason that the clock that counts down gives.
    ghost ranged: { ClockRanges (timed_by count marks) },
}

impl MarkClock {
    ghost use Rattle.clock.specs.ByMarks.{by_marks};

    /// A clock with every number stopped.
    pub fn new() -> MarkClock
        ensures meaning { by_marks result ≡ all_stopped }
        ensures start { result.count ≡ 0 }
    {
        MarkClock::starting_at(0)
    }

    /// A clock with every number stopped, whose count starts where the caller says.
    pub fn starting_at(count: u32) -> MarkClock
        ensures meaning { by_marks result ≡ all_stopped }
        ensures start { result.count ≡ count }
    {
        MarkClock {
            count,
            marks: [None; TIMER_COUNT],
        }
    }

    /// The mark that the count reaches after so many ticks.
    fn mark_after(&self, ticks: u16) -> u32
        ensures { ticks_between self.now.count result ≡ ticks }
    {
        self.count.wrapping_add(u32::from(ticks))
    }
}

/// The mark of a number after one more tick: it moves along with the count where the number has run out.
fn mark_after_tick(count: u32, mark: Option<u32>) -> Option<u32>
    ensures { until_mark (count_after count 1) result ≡ one_tick_less (until_mark count mark) }
{
    // A match says at a glance which marks move; in `map` the same choice would stand a level deeper, in an `if`.
    match mark {
        Some(mark) if mark == count => Some(count.wrapping_add(1)),
        other => other,
    }
}

/// Moves each mark to where it stands after one more tick.
// In place, and not by the array's `map`, which takes four times as long; so it takes the count and not the clock.
fn move_marks(count: u32, marks: &mut [Option<u32>])
    ensures { timed_by (count_after count 1) marks.new ≡ passing (timed_by count marks.old) }
{
    for mark in marks.iter_mut() {
        *mark = mark_after_tick(count, *mark);
    }
}

/// Compares marks with the count.
impl Clock for MarkClock {
    ghost use Rattle.clock.specs.ByMarks.{by_marks};

    ghost clocked = { by_marks };

    ghost ranges = { λ clock. clock.ranged };

    fn clear(&mut self) {
        self.marks = [None; TIMER_COUNT];
    }

    #[tactic(auto, using(crate::proofs::Kept::changes))]
    fn set(&mut self, number: u8, ticks: u16) {
        if is_time(ticks) {
            let mark = self.mark_after(ticks);
            put(&mut self.marks, number, Some(mark));
        }
    }

    #[tactic(auto, using(crate::proofs::Kept::changes))]
    fn stop(&mut self, number: u8) {
        put(&mut self.marks, number, None);
    }

    #[tactic(auto, using(crate::proofs::Kept::changes))]
    fn pass(&mut self) {
        move_marks(self.count, &mut self.marks);
        self.count = self.count.wrapping_add(1);
    }

    fn left(&self, number: u8) -> Option<u16> {
        let mark = at_or(&self.marks, number, None)?;
        // The cast loses no bits, since no number has more ticks left than `LONGEST_TIME`.
        Some(mark.wrapping_sub(self.count) as u16)
    }
}
