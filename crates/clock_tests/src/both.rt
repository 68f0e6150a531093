//! What both clocks do: each test is written for any clock, and run on each.
use clock::{Clock, CountdownClock, MarkClock};
use std::process::Abort;

/// A number set to three ticks is read after each pass, and stays at 0 for 300 more until it is set again.
fn runs_out<C: Clock>(rt: &impl Abort, clock: &mut C) {
    clock.set(7, 3);
    assert_eq!(rt; clock.left(7), Some(3));
    clock.pass();
    assert_eq!(rt; clock.left(7), Some(2));
    clock.pass();
    assert_eq!(rt; clock.left(7), Some(1));
    for _ in 0..301 {
        clock.pass();
        assert_eq!(rt; clock.left(7), Some(0));
    }
    clock.set(7, 2);
    assert_eq!(rt; clock.left(7), Some(2));
}

/// A number is set to 1 to 6,000 ticks; 0 and 6,001 leave it as it was.
fn takes_times<C: Clock>(rt: &impl Abort, clock: &mut C) {
    clock.set(0, 0);
    clock.set(1, 6001);
    assert_eq!(rt; clock.left(0), None);
    assert_eq!(rt; clock.left(1), None);
    clock.set(0, 1);
    clock.set(1, 6000);
    clock.set(0, 6001);
    clock.set(1, 0);
    assert_eq!(rt; clock.left(0), Some(1));
    assert_eq!(rt; clock.left(1), Some(6000));
}

/// Numbers go up to 63; those above read as stopped, whatever is done to them.
fn takes_numbers<C: Clock>(rt: &impl Abort, clock: &mut C) {
    clock.set(63, 10);
    clock.set(64, 20);
    clock.set(255, 30);
    clock.stop(64);
    clock.stop(255);
    assert_eq!(rt; clock.left(63), Some(10));
    assert_eq!(rt; clock.left(64), None);
    assert_eq!(rt; clock.left(255), None);
}

/// Stopping touches no other number, and a stopped one stays so; clearing stops all.
fn stops<C: Clock>(rt: &impl Abort, clock: &mut C) {
    clock.set(4, 40);
    clock.set(5, 50);
    clock.set(6, 60);
    clock.stop(5);
    clock.pass();
    assert_eq!(rt; clock.left(4), Some(39));
    assert_eq!(rt; clock.left(5), None);
    assert_eq!(rt; clock.left(6), Some(59));
    clock.clear();
    assert_eq!(rt; clock.left(4), None);
    assert_eq!(rt; clock.left(6), None);
}

/// All of the above, one after the other, each from a clock at rest.
fn keeps_time<C: Clock>(rt: &impl Abort, clock: &mut C) {
    runs_out(rt, clock);
    clock.clear();
    takes_times(rt, clock);
    clock.clear();
    takes_numbers(rt, clock);
    clock.clear();
    stops(rt, clock);
}

#[test]
fn countdown(rt: HostRuntime) {
    keeps_time(&rt, &mut CountdownClock::new());
}

/// The count wraps while the number runs, as it runs out, and while it stays at 0.
#[test]
fn marks(rt: HostRuntime) {
    keeps_time(&rt, &mut MarkClock::new());
    keeps_time(&rt, &mut MarkClock::starting_at(u32::MAX));
    keeps_time(&rt, &mut MarkClock::starting_at(u32::MAX - 2));
    keeps_time(&rt, &mut MarkClock::starting_at(u32::MAX - 100));
}
