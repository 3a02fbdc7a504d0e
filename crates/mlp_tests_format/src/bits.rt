//! Bits read and written, and the checks, over bytes of a stereo stream at 48 kHz.

use mlp_bits::laws::{law_read_back, law_remainder};
use mlp_bits::{
    BitReader, BitWriter, Full, Short, check8, check16, nibble_parity, restart_check,
    segment_parity, signed_value, word_at,
};

/// A major sync of a stereo stream at 48 kHz, with its check.
const SYNC: [u8; 28] = [
    0xF8, 0x72, 0x6F, 0xBA, 0, 0, 0x80, 0x01, 0xB7, 0x52, 0, 0, 0, 0, 0x97, 0x6F, 0x10, 0, 0, 0, 0,
    0, 0, 0, 0, 0, 0x64, 0x21,
];

/// A segment with silence: two flags, a restart header of 133 bits, and the rest, with parity and check.
const SEGMENT: [u8; 24] = [
    0xF1, 0xEA, 0x0E, 0x10, 0x01, 0x10, 0, 0, 0, 0, 0, 0, 0, 0, 0, 0x03, 0x98, 0x8A, 0x04, 0, 0x80,
    0x10, 0x38, 0xC5,
];

#[test]
fn checks_of_a_stream(rt: HostRuntime) {
    law_remainder();
    law_read_back();
    assert_eq!(rt; check16(&SYNC[..26]), 0x6421);
    assert_eq!(rt; segment_parity(&SEGMENT[..22]), 0x38);
    assert_eq!(rt; check8(&SEGMENT[..22]), 0xC5);
    assert_eq!(rt; restart_check(&SEGMENT, 2, 125), 0xCC);
    assert_eq!(rt;
        nibble_parity(&[0xC0, 0x09, 0x00, 0x28], &[0x60, 0x06]),
        0xF
    );
}

#[test]
fn fields_of_a_restart(rt: HostRuntime) {
    let mut r = BitReader::new(&SEGMENT);
    assert_eq!(rt; r.take(2), Ok(3));
    assert_eq!(rt; r.peek(9), 0x18F);
    assert_eq!(rt; r.take(14), Ok(0x31EA));
    assert_eq!(rt; r.take(16), Ok(3600));
    assert_eq!(rt; r.place(), 32);
    assert!(rt; r.left() == 160);
    r.skip(95);
    assert_eq!(rt; r.restart_check_since(2), 0xCC);
    assert_eq!(rt; r.take(8), Ok(0xCC));
    assert_eq!(rt; r.align16(), Ok(0x8A));
    assert_eq!(rt; r.bytes_between(0, 144).len(), 18);
    assert_eq!(rt; r.take_signed(4), Ok(0));
    assert!(rt; r.left() == 44);
    r.skip(28);
    assert_eq!(rt; r.take_signed(5), Ok(7));
    assert_eq!(rt; r.peek(16), 0xC5 << 5);
    assert_eq!(rt; r.take(12), Err(Short));
    assert_eq!(rt; r.place(), 181);
    assert!(rt; r.bytes() == SEGMENT.as_slice());
    assert!(rt; word_at(&SEGMENT, 16) == 0x988A_0400_8010_38C5);
    assert!(rt; r.left() == 11);
    r.skip(3);
    assert_eq!(rt; r.take_signed(8), Ok(-59));
    assert_eq!(rt; r.align16(), Ok(0));
    assert_eq!(rt; r.take(1), Err(Short));
    assert_eq!(rt; signed_value(0xFFE, 12), -2);
}

/// Fields that end in each of the last nine bytes, and in a list of fewer than eight.
#[test]
fn fields_near_the_end(rt: HostRuntime) {
    let mut r = BitReader::new(&SEGMENT);
    assert!(rt; r.take(32).is_ok());
    assert!(rt; r.take(32).is_ok());
    assert!(rt; r.take(32).is_ok());
    assert!(rt; r.take(24).is_ok());
    assert_eq!(rt; r.take(12), Ok(0x039));
    assert_eq!(rt; r.take(32), Ok(0x88A0_4008));
    assert_eq!(rt; r.take(20), Ok(0x01038));
    assert_eq!(rt; r.take(8), Ok(0xC5));
    assert_eq!(rt; r.take(1), Err(Short));
    let mut r = BitReader::new(&SEGMENT[..5]);
    assert_eq!(rt; r.take(3), Ok(7));
    assert_eq!(rt; r.take(32), Ok(0x8F50_7080));
    assert_eq!(rt; r.take(5), Ok(1));
    assert_eq!(rt; r.take(0), Ok(0));
}

#[test]
fn fields_are_written(rt: HostRuntime) {
    let mut w = BitWriter::new();
    for byte in SEGMENT {
        assert_eq!(rt; w.put(u32::from(byte / 8), 5), Ok(()));
        assert_eq!(rt; w.put(u32::from(byte % 8), 3), Ok(()));
    }
    assert_eq!(rt; w.place(), 192);
    assert!(rt; w.place() % 8 == 0);
    assert!(rt; w.bytes() == SEGMENT.as_slice());
    w.clear();
    for byte in &SEGMENT[..15] {
        assert_eq!(rt; w.put(u32::from(*byte), 8), Ok(()));
    }
    assert_eq!(rt; w.put(1, 7), Ok(()));
    assert!(rt; w.place() == 127);
    assert_eq!(rt; w.restart_check_since(2), 0xCC);
    for _ in 0..2043 {
        assert_eq!(rt; w.put(0, 32), Ok(()));
    }
    assert_eq!(rt; w.put(0, 18), Err(Full));
    assert_eq!(rt; w.put(0, 17), Ok(()));
}
