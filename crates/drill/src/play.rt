//! Code over any host and any clock: it is proved once, by what they mean.
ghost use Rattle.std.specs.Prelude.{◌≡◌};
ghost use Rattle.drill.specs.Steps.{clock_after, host_after, is_done};

use crate::step::{HELD_TIME, Step, place_time};
use clock::Clock;
use host::{Host, Order};

// Two parameters and no struct of both: neither knows of the other, and this is the form for any host and any clock.
/// Does a step, and says whether it was done: a join may be refused.
pub(crate) fn take_step<H: Host, C: Clock>(host: &mut H, clock: &mut C, step: Step) -> bool
    ensures said { result ≡ is_done (H.hosted host.old) step }
    ensures host { H.hosted host.new ≡ host_after (H.hosted host.old) step }
    ensures clock { C.clocked clock.new ≡ clock_after (H.hosted host.old) (C.clocked clock.old) step }
{
    // A match, and no closure for each step: steps are data, which a script lists and `Display` shows.
    match step {
        Step::Hold(call) => {
            host.hold(call);
            clock.set(call, HELD_TIME);
            true
        }
        Step::Join(call, place) => {
            let joined = host.join(call, place, Order::Resource);
            if joined {
                clock.set(call, place_time(place));
            }
            joined
        }
        Step::LetGo(call) => {
            host.let_go(call, Order::Continue);
            clock.stop(call);
            true
        }
        Step::Tick => {
            clock.pass();
            true
        }
    }
}
