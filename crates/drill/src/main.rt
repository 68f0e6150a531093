//! Plays one script of calls over every host and clock, and says whether all agree.
#![tactic(auto)]

mod play;
mod step;
mod words;

use clock::{Clock, CountdownClock, MarkClock};
use host::{CallTable, Host};
use host_by_place::PlaceTable;
use std::alloc::{AllocError, Global};
use words::transcript;

/// The ports and the circuits that the script is for.
const PORTS: u8 = 2;

const CIRCUITS: u8 = 1;

/// The clock of marks starts so close below its wrap that the script passes over it.
const START: u32 = u32::MAX - 1;

// Plays the script over one more host and clock: whether it goes as it went over the first.
fn verdict<H: Host + Drop, C: Clock + Drop>(
    heap: Global,
    first: &str,
    host: H,
    clock: C,
) -> Result<&'static str, AllocError> {
    let text = transcript(heap, host, clock)?;
    Ok(if text.as_str() == first {
        "the same"
    } else {
        "OTHERWISE"
    })
}

fn main(rt: HostRuntime) -> anyhow::Result<()> {
    let heap = rt.alloc();
    let by_call = || CallTable::new(PORTS, CIRCUITS);
    let by_place = || PlaceTable::new(PORTS, CIRCUITS);
    let marks = || MarkClock::starting_at(START);
    let first = transcript(heap, by_call(), CountdownClock::new())?;
    println!(rt; "host by call, clock that counts down; {PORTS} ports, {CIRCUITS} circuit")?;
    print!(rt; "{first}")?;
    let said = verdict(heap, &first, by_call(), marks())?;
    println!(rt; "host by call, clock of marks: {said}")?;
    let said = verdict(heap, &first, by_place(), CountdownClock::new())?;
    println!(rt; "host by place, clock that counts down: {said}")?;
    let said = verdict(heap, &first, by_place(), marks())?;
    println!(rt; "host by place, clock of marks: {said}")?;
    Ok(())
}
