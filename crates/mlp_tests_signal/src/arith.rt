//! Words of a codec at the ends of their ranges.

use mlp_arith::{clear, floor_by, low24, sample24, wrap};

#[test]
fn rounds_down_and_wraps(rt: HostRuntime) {
    assert_eq!(rt; floor_by(3, -7), -1);
    assert_eq!(rt; clear(3, -63), -64);
    assert_eq!(rt; wrap(0x1_8000_0000), -0x8000_0000);
    assert_eq!(rt; low24(0x0180_0000), -0x80_0000);
    assert_eq!(rt; sample24(0x0180_0001, 7), 0x80);
    assert_eq!(rt; sample24(-3, 0), -3);
}
