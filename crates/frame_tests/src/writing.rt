//! What the writer leaves and answers at the edges.
use frame::{Frame, Item, Items, Mode, Operation, write};
use std::process::Abort;
use terms::digits::Digits;
use terms::error_code::ErrorCode;
use terms::point::Point;

/// The length that is written, or the refusal's number; the room is 40 bytes.
fn answer(dialogue: u8, invoke: u8, operation: Operation) -> Result<usize, u8> {
    let mut out = [0; 40];
    let frame = Frame {
        dialogue,
        invoke,
        operation,
    };
    write(&frame, &mut out).map_err(u8::from)
}

/// Checks that answer in dialogue 7 under invoke number 6.
fn writes(rt: &impl Abort, operation: Operation, expected: Result<usize, u8>) {
    assert_eq!(rt; answer(7, 6, operation), expected);
}

/// Thirty-nine bytes are too few for any frame; forty are enough, and no byte behind the frame is touched.
#[test]
fn room(rt: HostRuntime) {
    let frame = Frame {
        dialogue: 7,
        invoke: 6,
        operation: Operation::Continue,
    };
    let mut out = [170; 40];
    assert!(rt; write(&frame, &mut out[0..39]).is_err());
    assert!(rt; out == [170; 40]);
    assert!(rt; write(&frame, &mut out).is_ok());
    assert!(rt; &out[0..6] == [0, 4, 1, 7, 31, 6].as_slice());
    assert!(rt; &out[6..40] == [170; 34].as_slice());
}

/// Dialogue, operation and invoke number are refused by 4, 5 and 6, in this order.
#[test]
fn heads(rt: HostRuntime) {
    assert_eq!(rt; answer(63, 127, Operation::Cancel), Ok(6));
    assert_eq!(rt; answer(64, 128, Operation::Unknown), Err(4));
    assert_eq!(rt; answer(63, 128, Operation::Unknown), Err(5));
    assert_eq!(rt; answer(63, 128, Operation::Cancel), Err(6));
}

/// The same for Connect to these digits, if they are digits at all.
fn connect(ascii: &[u8]) -> Option<Result<usize, u8>> {
    let address = Digits::from_ascii(ascii)?;
    Some(answer(7, 6, Operation::Connect(address)))
}

/// The same for a request to report these items, if they are not too many.
fn report(items: &[Item]) -> Option<Result<usize, u8>> {
    let items = Items::new(items)?;
    Some(answer(7, 6, Operation::RequestReportBcsmEvent(items)))
}

/// Values that no frame can carry are refused by 7, 8 and 9.
#[test]
fn arguments(rt: HostRuntime) {
    assert_eq!(rt; connect(b""), Some(Err(7)));
    assert_eq!(rt; connect(b"123456789012345"), Some(Ok(22)));
    assert_eq!(rt; connect(b"1234567890123456"), None);
    writes(&rt, Operation::ReleaseCall(0), Err(8));
    writes(&rt, Operation::ReleaseCall(128), Err(8));
    writes(&rt, Operation::ResetTimer(0), Err(8));
    writes(&rt, Operation::ResetTimer(6000), Ok(8));
    writes(&rt, Operation::ResetTimer(6001), Err(8));
    assert_eq!(rt;
        answer(7, 6, Operation::InitialDpError(ErrorCode::TaskRefused)),
        Ok(7)
    );
}

/// A list of items is refused by 7 if it is empty, and by 9 if a point comes twice; more than seventeen are no list.
#[test]
fn items(rt: HostRuntime) {
    let item = Item {
        point: Point::ODisconnect,
        mode: Mode::Notify,
    };
    assert_eq!(rt; report(&[]), Some(Err(7)));
    assert_eq!(rt; report(&[item]), Some(Ok(8)));
    assert_eq!(rt; report(&[item, item]), Some(Err(9)));
    assert_eq!(rt; report(&[item; 17]), Some(Err(9)));
    assert_eq!(rt; report(&[item; 18]), None);
}
