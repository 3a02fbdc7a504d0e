//! Symbols read and written by the three codebooks.

use mlp_bits::{BitReader, BitWriter};
use mlp_books::{
    Book1, Book2, Book3, NO_CODE, law_books, law_symbols, length, lengths_in, meanings,
    read_symbol, symbol, symbol_in, write_symbol,
};
use mlp_syntax::Field;

#[test]
fn codes_and_faults(rt: HostRuntime) {
    law_books();
    law_symbols();
    let mut r = BitReader::new(&[0x9C]);
    assert_eq!(rt; read_symbol::<Book1>(&mut r), Ok(7));
    assert_eq!(rt; read_symbol::<Book2>(&mut r), Ok(8));
    assert_eq!(rt; read_symbol::<Book3>(&mut r), Ok(7));
    assert_eq!(rt; read_symbol::<Book3>(&mut r), Err(Field::SegmentShort));
    for (bytes, fault) in [
        ([0x00, 0x00], Field::Code),
        ([0x40, 0x00], Field::Code),
        ([0x40, 0x7F], Field::Code),
    ] {
        assert_eq!(rt;
            read_symbol::<Book1>(&mut BitReader::new(&bytes)),
            Err(fault)
        );
        assert_eq!(rt;
            read_symbol::<Book2>(&mut BitReader::new(&bytes)),
            Err(fault)
        );
        assert_eq!(rt;
            read_symbol::<Book3>(&mut BitReader::new(&bytes)),
            Err(fault)
        );
    }
    for cut in [0x00, 0x40] {
        assert_eq!(rt;
            read_symbol::<Book1>(&mut BitReader::new(&[cut])),
            Err(Field::SegmentShort)
        );
        assert_eq!(rt;
            read_symbol::<Book3>(&mut BitReader::new(&[cut])),
            Err(Field::SegmentShort)
        );
    }
}

#[test]
fn symbols_come_back(rt: HostRuntime) {
    let mut w = BitWriter::new();
    for symbol in 0..18 {
        assert_eq!(rt; write_symbol::<Book1>(symbol, &mut w), Ok(()));
    }
    assert_eq!(rt; length::<Book1>(17), 9);
    assert!(rt; lengths_in(2).len() == 16);
    assert!(rt; meanings()[512] == NO_CODE);
    assert!(rt; w.place() == 96);
    let bytes = w.bytes();
    assert!(rt; bytes.len() == 12);
    let mut r = BitReader::new(bytes);
    for symbol in 0..18 {
        assert!(rt; matches!(symbol_in(1, &mut r), Ok(s) if u32::from(s) == symbol));
    }
    assert!(rt; matches!(symbol_in(0, &mut r), Ok(0)));
    assert!(rt; symbol::<Book2>(&mut r).is_err());
}
