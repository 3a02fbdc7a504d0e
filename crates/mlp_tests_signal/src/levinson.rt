//! Computed filters worked by hand.

use mlp_levinson::levinson;

#[test]
fn computes_filters(rt: HostRuntime) {
    let ones = [1, 1, 1, 1];
    let filter = levinson(&ones, 0, 2).expect(&rt, "the error of order 1 is 1");
    assert_eq!(rt; filter.coeffs.as_slice(), [30720, -8192].as_slice());
    assert_eq!(rt;
        (filter.shift, filter.coeff_bits, filter.coeff_shift),
        (15, 16, 0)
    );

    // Samples of 0 leave no error.
    assert!(rt; levinson(&[0; 8], 0, 1).is_none());
}
