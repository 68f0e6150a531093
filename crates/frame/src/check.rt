//! What reader and writer both ask of a frame, in the order of the faults.
ghost use Rattle.std.specs.List.{list_any};
ghost use Rattle.std.specs.Prelude.{◌==◌, ◌≡◌, if◌then◌else◌, Some, Ok, Err};
ghost use Rattle.terms.specs.Points.{point_number};
ghost use Rattle.frame.specs.Items.{item_bytes, spelt, has_point, some_twice};
ghost use Rattle.frame.specs.Operations.{address_bytes, argument, code_in, items_in};
ghost use Rattle.frame.specs.Format.{address_fault, frame_fault, items_fault, operation_fault};
ghost use Rattle.frame.specs.Steps.{Checks, ChecksHead, GivesOr};

use crate::code::Code;
use crate::item::Item;
use crate::items::Items;
use crate::limits::{LAST_CAUSE, LAST_DIALOGUE, LAST_INVOKE, MOST_TICKS};
use crate::operation::{Frame, Operation};
use terms::digits::Digits;
use terms::point::Point;
use terms::refusal::Refusal;

/// The refusal, unless what is asked holds.
fn ask(holds: bool, refusal: Refusal) -> Result<(), Refusal>
    ensures { result ≡ (if holds then Ok tt else Err refusal) }
{
    if holds { Ok(()) } else { Err(refusal) }
}

/// The operation's code, if dialogue, operation and invoke number are ones that a frame can carry.
pub(crate) fn check_head(dialogue: u8, code: Option<Code>, invoke: u8) -> Result<Code, Refusal>
    ensures { ChecksHead dialogue code invoke result }
{
    ask(dialogue <= LAST_DIALOGUE, Refusal::Dialogue)?;
    let code = code.ok_or(Refusal::Operation)?;
    ask(invoke <= LAST_INVOKE, Refusal::Invoke)?;
    Ok(code)
}

/// Whether one of the items is of this point.
fn has_point(point: Point, items: &[Item]) -> bool
    ensures { result ≡ list_any (λ x. point_number x.point == point_number point) items.now }
{
    items.iter().any(|item| item.is_of(point))
}

/// Whether two of the items are of one point.
fn some_twice(items: &[Item]) -> bool
    ensures { result ≡ some_twice (spelt (item_bytes items.now)) }
{
    let mut rest = items;
    while let Some((item, others)) = rest.split_first() {
        if has_point(item.point, others) {
            return true;
        }
        rest = others;
    }
    false
}

/// An address has at least one digit.
fn check_address(address: &Digits) -> Result<(), Refusal>
    ensures { Checks (address_fault (address_bytes address.now)) result }
{
    ask(!address.as_ascii().is_empty(), Refusal::ArgumentLength)
}

/// No point comes twice.
fn check_distinct(items: &[Item]) -> Result<(), Refusal>
    ensures { result ≡ (if some_twice (spelt (item_bytes items.now)) then Err Refusal.PointTwice else Ok tt) }
{
    ask(!some_twice(items), Refusal::PointTwice)
}

/// There is at least one item, and no point comes twice.
fn check_items(items: &Items) -> Result<(), Refusal>
    ensures { Checks (items_fault (item_bytes (items_in items.now))) result }
{
    let items = items.as_slice();
    ask(!items.is_empty(), Refusal::ArgumentLength)?;
    check_distinct(items)
}

/// Whether the operation's argument is one that a frame can carry; the invoke number does not matter to it.
pub(crate) fn check_argument(operation: &Operation) -> Result<(), Refusal>
    ensures { Checks (operation_fault (code_in operation.now) 0 (argument operation.now)) result }
{
    match operation {
        Operation::EstablishTemporaryConnection(address) | Operation::Connect(address) => {
            check_address(address)
        }
        Operation::ReleaseCall(cause) => { ask((1..=LAST_CAUSE).contains(cause), Refusal::Value) }
        Operation::RequestReportBcsmEvent(items) => check_items(items),
        Operation::ResetTimer(ticks) => ask((1..=MOST_TICKS).contains(ticks), Refusal::Value),
        Operation::Unknown => Err(Refusal::Operation),
        _ => Ok(()),
    }
}

/// The code of a frame's operation, if the frame can be written.
pub(crate) fn check_frame(frame: &Frame) -> Result<Code, Refusal>
    ensures { GivesOr (frame_fault frame.now) (λ k. (code_in frame.now.operation ≡ Some k) × (frame_fault frame.now ≡ 0)) result }
{
    let code = check_head(frame.dialogue, frame.operation.code(), frame.invoke)?;
    check_argument(&frame.operation)?;
    Ok(code)
}
