//! Reads frames in capital hexadecimal, a line each, and says in words what each is.
#![tactic(auto)]

mod words;

use frame_check::examine;
use hexadecimal::decode;
use std::io::{BufRead, BufReader};
use std::{env, io};
use words::{InWords, Refused};

/// The most bytes that a line may spell: more than any frame has, so that too long a frame gets the reader's refusal.
const MOST_BYTES: usize = 128;

const HELP: &str = "usage: frame_tool < LINES
Each line is a frame in capital hexadecimal. For each the tool prints what the
frame says, and whether it is the same bytes when it is written again; or the
number of the refusal, what it means, and the error code that answers it.";

fn print_bytes(rt: &HostRuntime, bytes: &[u8]) -> io::Result<()> {
    match examine(bytes) {
        Ok(finding) => {
            let frame = InWords(&finding.frame);
            let same = if finding.same { "the same" } else { "OTHER" };
            println!(rt; "{frame}; written again: {same} bytes")
        }
        Err(refusal) => rt.println(Refused(refusal)),
    }
}

fn print_line(rt: &HostRuntime, line: &[u8]) -> io::Result<()> {
    // Memory of a fixed size, and how much `decode` used of it, as its callers lend it.
    let mut bytes = [0; MOST_BYTES];
    match decode(line, &mut bytes) {
        Ok(n) => print_bytes(rt, &bytes[..n]),
        Err(fault) => println!(rt; "bad line: {fault}"),
    }
}

fn main(rt: HostRuntime) -> io::Result<()> {
    if env::args(&rt)?.count() > 1 {
        return println!(rt; "{HELP}");
    }
    let lines = BufReader::new(rt.alloc(), rt.stdin())?.split(rt.alloc(), b'\n');
    for (i, line) in lines.enumerate() {
        let line = line?;
        print!(rt; "line {}: ", i.saturating_add(1))?;
        print_line(&rt, line.as_slice())?;
    }
    Ok(())
}
