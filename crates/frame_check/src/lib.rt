//! Reading a frame, and holding it against what is written again.
#![tactic(auto)]

ghost use Rattle.std.specs.Prelude.{◌≡◌, ◌↔◌, IsTrue};
ghost use Rattle.frame.specs.Format.{frame_fault, wire};
ghost use Rattle.frame_check.specs.Findings.{Finds};

use frame::limits::LONGEST_FRAME;
use frame::{Frame, read, write};
use terms::refusal::Refusal;

/// A frame that was read, and whether it is the same bytes when it is written again.
#[derive(Clone, Copy)]
pub struct Finding {
    pub frame: Frame,
    // Always true, as is proved; the tool prints it.
    pub same: bool,
}

/// Whether the frame can be written, and is then these very bytes.
pub fn writes_as(frame: &Frame, bytes: &[u8]) -> bool
    ensures { IsTrue result ↔ ((frame_fault frame.now ≡ 0) × (wire frame.now ≡ bytes.now)) }
{
    // Memory of a fixed size, and how much `write` used of it: this may not run out of any.
    let mut out = [0; LONGEST_FRAME];
    // A match: with `is_ok_and` and a closure over the buffer the proof did not close.
    match write(frame, &mut out) {
        Ok(n) => &out[..n] == bytes,
        Err(_) => false,
    }
}

/// Reads the bytes, and writes the frame again.
pub fn examine(bytes: &[u8]) -> Result<Finding, Refusal>
    ensures { Finds bytes.now result }
{
    let frame = read(bytes)?;
    let same = writes_as(&frame, bytes);
    Ok(Finding { frame, same })
}
