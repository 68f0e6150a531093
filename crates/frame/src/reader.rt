//! The reader.
ghost use Rattle.std.specs.Prelude.{◌≡◌, IfOk};
ghost use Rattle.frame.specs.Format.{frame_fault, frame_length};
ghost use Rattle.frame.specs.Laws.{WrittenOnlyAs};
ghost use Rattle.frame.specs.Promises.{Reads};
ghost use Rattle.frame.specs.Steps.{Contains};

use crate::arguments::operation;
use crate::check::{check_argument, check_head};
use crate::code::Code;
use crate::limits::{HEAD_SIZE, LONGEST_FRAME, VERSION};
use crate::operation::Frame;
use terms::refusal::Refusal;

/// Whether the bytes have a frame's length, and carry it: the length field counts what follows it.
fn has_frame_length(bytes: &[u8]) -> bool
    ensures { result ≡ frame_length bytes.now }
{
    let n = bytes.len();
    if !(HEAD_SIZE..=LONGEST_FRAME).contains(&n) {
        return false;
    }
    usize::from(u16::from_be_bytes([bytes[0], bytes[1]])) + 2 == n
}

/// The frame of a head and an argument; the head's length is right.
fn content(head: &[u8; HEAD_SIZE], argument: &[u8]) -> Result<Frame, Refusal>
    ensures { Contains head.now argument.now result }
{
    let [_, _, version, dialogue, number, invoke] = *head;
    if version != VERSION {
        return Err(Refusal::Version);
    }
    let code = check_head(dialogue, Code::try_from(number).ok(), invoke)?;
    let operation = operation(code, argument)?;
    check_argument(&operation)?;
    Ok(Frame {
        dialogue,
        invoke,
        operation,
    })
}

/// The frame that the bytes are, or their first fault.
pub fn read(bytes: &[u8]) -> Result<Frame, Refusal>
    ensures reads { Reads bytes.now result }
    ensures can_be_written { IfOk result (λ f. frame_fault f ≡ 0) }
    ensures one_spelling { IfOk result (λ f. WrittenOnlyAs f bytes.now) }
{
    match bytes.split_first_chunk() {
        Some((head, argument)) if has_frame_length(bytes) => content(head, argument),
        _ => Err(Refusal::FrameLength),
    }
}
