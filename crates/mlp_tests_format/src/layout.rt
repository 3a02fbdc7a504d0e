//! Values read and written. The bytes are those of a unit's head and of fields worked out by hand.

use mlp_bits::{BitReader, BitWriter};
use mlp_layout::laws::law_numbers;
use mlp_layout::{
    broken, byte, flag, number, put_all, put_flag, put_number, put_signed, put_wide, signed,
    signed_word, wide, word,
};
use mlp_syntax::Field;

#[test]
fn reads_fields(rt: HostRuntime) {
    law_numbers();
    // 0x9, 0x093, 0x0000, then 101, 1111 1111 1110 (-2), 0, 1000 (-8)
    let bytes = [
        0x90, 0x93, 0, 0, 0xBF, 0xFC, 0x80, 1, 2, 3, 4, 5, 6, 7, 8, 0x40,
    ];
    let mut r = BitReader::new(&bytes);
    assert_eq!(rt; byte(4, &mut r), Ok(9));
    assert_eq!(rt; word(12, &mut r), Ok(0x93));
    assert_eq!(rt; number(16, &mut r), Ok(0));
    assert_eq!(rt; flag(&mut r), Ok(true));
    assert_eq!(rt; flag(&mut r), Ok(false));
    assert_eq!(rt; flag(&mut r), Ok(true));
    assert_eq!(rt; signed(12, &mut r), Ok(-2));
    assert_eq!(rt; flag(&mut r), Ok(false));
    assert_eq!(rt; signed_word(4, &mut r), Ok(-8));
    assert_eq!(rt; number(4, &mut r), Ok(0));
    assert_eq!(rt; wide(&mut r), Ok(0x0102_0304_0506_0708));
    assert_eq!(rt; number(3, &mut r), Ok(2));
    assert_eq!(rt; word(6, &mut r), Err(broken(Field::SegmentShort, 123)));
}

#[test]
fn writes_fields(rt: HostRuntime) {
    let mut w = BitWriter::new();
    assert!(rt; put_all(&[(9, 4), (0x93, 12), (0, 16)], &mut w).is_ok());
    assert!(rt; put_flag(true, &mut w).is_ok());
    assert!(rt; put_flag(false, &mut w).is_ok());
    assert!(rt; put_flag(true, &mut w).is_ok());
    assert!(rt; put_signed(-2, 12, &mut w).is_ok());
    assert!(rt; put_number(0, 1, &mut w).is_ok());
    assert!(rt; put_signed(-8, 4, &mut w).is_ok());
    assert!(rt; put_number(0, 4, &mut w).is_ok());
    assert!(rt; put_wide(0x0102_0304_0506_0708, &mut w).is_ok());
    assert_eq!(rt; w.place(), 120);
}
