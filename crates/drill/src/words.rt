//! What a step did, in words.
use crate::play::take_step;
use crate::step::{SCRIPT, Step};
use clock::Clock;
use host::{CALLS, Host};
use std::alloc::{AllocError, Global};
use std::fmt;
use std::fmt::Write;

/// Where a call stands with a host, and what a clock has left of it.
#[derive_where(Clone, Copy)]
struct Standing<'a, H, C> {
    host: &'a H,
    clock: &'a C,
    call: u8,
}

impl<H: Host, C: Clock> fmt::Display for Standing<'_, H, C> {
    fn fmt<W: fmt::Write>(&self, f: &mut fmt::Formatter<W>) -> fmt::Result {
        let mode = self.host.mode(self.call);
        match self.clock.left(self.call) {
            Some(ticks) => write!(f, "{mode}, {ticks} ticks left"),
            None => write!(f, "{mode}, timer stopped"),
        }
    }
}

/// The calls that run on a clock.
#[derive_where(Clone, Copy)]
struct Running<'a, C>(&'a C);

impl<C: Clock> fmt::Display for Running<'_, C> {
    fn fmt<W: fmt::Write>(&self, f: &mut fmt::Formatter<W>) -> fmt::Result {
        for call in 0..CALLS as u8 {
            if let Some(ticks) = self.0.left(call) {
                write!(f, " call {call} has {ticks} left;")?;
            }
        }
        Ok(())
    }
}

/// Plays the script and says in words what each step did.
pub(crate) fn transcript<H: Host + Drop, C: Clock + Drop>(
    heap: Global,
    mut host: H,
    mut clock: C,
) -> Result<String, AllocError> {
    let mut text = String::new(heap);
    for step in SCRIPT {
        let done = take_step(&mut host, &mut clock, step);
        write!(text, "{step}:")?;
        if let Step::Join(..) = step {
            let answer = if done { "yes" } else { "no" };
            write!(text, " {answer};")?;
        }
        match step.call() {
            Some(call) => {
                let standing = Standing {
                    host: &host,
                    clock: &clock,
                    call,
                };
                writeln!(text, " {standing}")?;
            }
            None => {
                let running = Running(&clock);
                writeln!(text, "{running}")?;
            }
        }
    }
    Ok(text)
}
