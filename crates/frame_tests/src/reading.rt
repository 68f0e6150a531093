//! What the reader answers at the edges.
use frame::read;
use std::process::Abort;

/// Checks that the reader takes the bytes.
fn reads(rt: &impl Abort, bytes: &[u8]) {
    assert!(rt; read(bytes).is_ok());
}

/// Checks that the reader refuses the bytes by this number.
fn refuses(rt: &impl Abort, bytes: &[u8], number: u8) {
    assert_eq!(rt; read(bytes).err().map(u8::from), Some(number));
}

/// Continue has 6 bytes, the shortest frame; 5 bytes and none at all are refused by 2.
#[test]
fn short_frames(rt: HostRuntime) {
    refuses(&rt, &[], 2);
    refuses(&rt, &[0, 3, 1, 7, 31], 2);
    reads(&rt, &[0, 4, 1, 7, 31, 6]);
}

/// The length field counts what follows it, and nothing else.
#[test]
fn length_field(rt: HostRuntime) {
    refuses(&rt, &[0, 6, 1, 7, 31, 6], 2);
    refuses(&rt, &[0, 3, 1, 7, 31, 6], 2);
    refuses(&rt, &[1, 4, 1, 7, 31, 6], 2);
}

/// Seventeen items make the longest frame, 40 bytes; one byte more is refused by 2.
#[test]
fn seventeen_items(rt: HostRuntime) {
    let full = b"\x00\x26\x01\x07\x17\x06\
        \x01\x00\x02\x01\x03\x02\x04\x00\x05\x01\x06\x02\
        \x07\x00\x08\x01\x09\x02\x0A\x00\x0C\x01\x0D\x02\
        \x0E\x00\x0F\x01\x10\x02\x11\x00\x12\x01";
    let longer = b"\x00\x27\x01\x07\x17\x06\
        \x01\x00\x02\x01\x03\x02\x04\x00\x05\x01\x06\x02\
        \x07\x00\x08\x01\x09\x02\x0A\x00\x0C\x01\x0D\x02\
        \x0E\x00\x0F\x01\x10\x02\x11\x00\x12\x01\x00";
    assert_eq!(rt; full.len(), 40);
    reads(&rt, full);
    assert_eq!(rt; longer.len(), 41);
    refuses(&rt, longer, 2);
}

/// An address has one to fifteen digits.
#[test]
fn addresses(rt: HostRuntime) {
    let fifteen = b"\x00\x14\x01\x07\x14\x06\x0F123456789012345";
    let sixteen = b"\x00\x15\x01\x07\x14\x06\x101234567890123456";
    reads(&rt, fifteen);
    refuses(&rt, sixteen, 7);
    refuses(&rt, &[0, 5, 1, 7, 20, 6, 0], 7);
    reads(&rt, &[0, 6, 1, 7, 20, 6, 1, 48]);
    refuses(&rt, &[0, 6, 1, 7, 20, 6, 1, 47], 8);
    refuses(&rt, &[0, 6, 1, 7, 20, 6, 1, 58], 8);
}

/// A timer is set to 1 to 6,000 ticks.
#[test]
fn timers(rt: HostRuntime) {
    refuses(&rt, &[0, 6, 1, 7, 33, 6, 0, 0], 8);
    reads(&rt, &[0, 6, 1, 7, 33, 6, 0, 1]);
    reads(&rt, &[0, 6, 1, 7, 33, 6, 23, 112]);
    refuses(&rt, &[0, 6, 1, 7, 33, 6, 23, 113], 8);
}

/// Of several faults the one with the lowest number is named.
#[test]
fn first_fault(rt: HostRuntime) {
    refuses(&rt, &[0, 5, 2, 64, 21, 128, 0], 3);
    refuses(&rt, &[0, 5, 1, 64, 21, 128, 0], 4);
    refuses(&rt, &[0, 5, 1, 63, 21, 128, 0], 5);
    refuses(&rt, &[0, 5, 1, 63, 31, 128, 0], 6);
    refuses(&rt, &[0, 5, 1, 63, 31, 127, 0], 7);
    refuses(&rt, &[0, 10, 1, 7, 23, 6, 9, 0, 9, 0, 7, 3], 8);
    refuses(&rt, &[0, 8, 1, 7, 23, 6, 9, 0, 9, 2], 9);
}
