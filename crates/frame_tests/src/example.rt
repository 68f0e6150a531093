//! The example of the README: a control point writes a frame, and reads it.
use frame::{Frame, Item, Items, Mode, Operation, read, write};
use std::test::Fail;
use terms::point::Point;
use terms::refusal::Refusal;

/// Asks the exchange to report when the called party answers, in dialogue 7 under invoke number 1.
fn ask_for_answer(out: &mut [u8]) -> Result<usize, Refusal> {
    let answer = Item {
        point: Point::OAnswer,
        mode: Mode::Notify,
    };
    let items = Items::new(&[answer]).ok_or(Refusal::ArgumentLength)?;
    let frame = Frame {
        dialogue: 7,
        invoke: 1,
        operation: Operation::RequestReportBcsmEvent(items),
    };
    write(&frame, out)
}

#[test]
fn readme(rt: HostRuntime) -> Result<(), Fail> {
    let mut out = [0; 40];
    let n = ask_for_answer(&mut out)?;
    assert_eq!(rt; n, 8);
    assert!(rt; &out[0..8] == [0, 6, 1, 7, 23, 1, 7, 1].as_slice());
    let frame = read(&out[0..8])?;
    assert_eq!(rt; frame.dialogue, 7);
    Ok(())
}
