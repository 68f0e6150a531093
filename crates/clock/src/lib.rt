//! Clocks: the interface of what times the numbers of the exchange, and two clocks that keep to it.
#![tactic(auto)]

ghost use Rattle.std.specs.Prelude.{◌≡◌};
ghost use Rattle.clock.specs.Meaning.{ClockMeaning, ClockRanges, all_stopped, is_time, passing, setting, stopping, ticks_left};

mod countdown;
mod mark;

pub use countdown::CountdownClock;
pub use mark::MarkClock;

/// How many numbers a clock times: those from 0 to 63.
pub const TIMER_COUNT: usize = 64;

/// The most ticks that a number is set to.
pub const LONGEST_TIME: u16 = 6000;

/// Whether a number can be set to so many ticks.
pub fn is_time(ticks: u16) -> bool
    ensures { result ≡ is_time ticks }
{
    (1..=LONGEST_TIME).contains(&ticks)
}

/// A clock of ticks, which times the numbers from 0 to 63.
///
/// Each number is stopped, or has 0 to 6,000 ticks left. A supplier of a clock says by `clocked` what each of
/// its values means: the list of the 64 numbers in turn, each stopped (`None`) or with its ticks left. That there
/// are 64 and that none has more than 6,000 left is owed of every value of the type, by the law `ranges`; keep it
/// in the type by a ghost field. Then each method says what it makes of that meaning, and nothing else is asked:
/// how a clock keeps its numbers is its own affair.
///
/// - Every method takes every number and every count of ticks. A number above 63 is never set, stopping it has
///   no effect, and it reads as stopped.
/// - Setting or stopping a number touches no other number.
/// - A number with 0 ticks left stays at 0, however many ticks pass, until it is set or stopped.
/// - Reading changes nothing.
pub trait Clock {
    ghost clocked: { Self → ClockMeaning };

    /// Stops every number.
    fn clear(&mut self)
        ensures { clocked self.new ≡ all_stopped };

    /// Gives a number these ticks, whether it ran or was stopped. 0 ticks, or more than 6,000, have no effect.
    fn set(&mut self, number: u8, ticks: u16)
        ensures { clocked self.new ≡ setting (clocked self.old) number ticks };

    /// Stops a number.
    fn stop(&mut self, number: u8)
        ensures { clocked self.new ≡ stopping (clocked self.old) number };

    /// Lets one tick pass: each number that has ticks left has one less.
    fn pass(&mut self)
        ensures { clocked self.new ≡ passing (clocked self.old) };

    /// The ticks left of a number, or `None` where it is stopped.
    fn left(&self, number: u8) -> Option<u16>
        ensures { result ≡ ticks_left (clocked self.now) number };

    ghost ranges: { (x : Self) → ClockRanges (clocked x) };
}
