//! Rows and noise worked by hand.

ghost use Rattle.std.specs.Prelude.{◌≡◌, ◌≤◌, length};

use arrayvec::ArrayVec;
use mlp_matrix::{Noise, apply, apply_block, undo_lift};
use mlp_syntax::MatrixRow;

/// A row with these coefficients.
fn row(dest: u8, frac: u8, bypass: bool, fields: &[Option<i32>]) -> MatrixRow
    requires { length fields.now ≤ 10 }
    ensures dest { result.dest ≡ dest }
    ensures frac { result.frac ≡ frac }
    ensures bypass { result.bypass ≡ bypass }
    ensures coeffs { result.coeffs.items ≡ fields.now }
{
    let mut coeffs: ArrayVec<Option<i32>, 10> = ArrayVec::new();
    let _ = coeffs.try_extend_from_slice(fields);
    MatrixRow {
        dest,
        frac,
        bypass,
        coeffs,
        noise_shift: 0,
    }
}

/// The noise of seed 1, by hand: one frame at a time, at once, and behind the channels of a frame.
#[test]
fn gives_noise(rt: HostRuntime) {
    let mut noise = Noise { seed: 1 };
    assert_eq!(rt; noise.next(), (0, 0));
    assert_eq!(rt; noise.seed, 0x10000);
    assert_eq!(rt; noise.next(), (2, 0));
    assert_eq!(rt; noise.seed, 0x4200);
    assert_eq!(rt; noise.next(), (0, -124));

    let mut noise = Noise { seed: 1 };
    noise.skip(2);
    assert_eq!(rt; noise.seed, 0x4200);

    let mut noise = Noise { seed: 0x10000 };
    let mut frames = [[7; 10]; 2];
    noise.put_each(3, 2, &mut frames);
    assert_eq!(rt; frames[0], [7, 7, 16, 0, 7, 7, 7, 7, 7, 7]);
    assert_eq!(rt; frames[1], [7, 7, 0, -992, 7, 7, 7, 7, 7, 7]);
}

/// Two rows over two channels, where the second one sees what the first one made, and a bit that is added and taken back.
#[test]
fn applies_and_undoes_rows(rt: HostRuntime) {
    let rows = [
        row(0, 1, false, &[Some(1), Some(1)]),
        row(1, 0, true, &[Some(1), Some(1)]),
    ];
    let mut frame = [5, -8, 0, 0, 0, 0, 0, 0, 0, 0];
    apply(&rows, &[0, 1], 2, &mut frame, 2);
    assert_eq!(rt; frame, [-2, -9, 0, 0, 0, 0, 0, 0, 0, 0]);

    let mut frames = [
        [5, -8, 0, 0, 0, 0, 0, 0, 0, 0],
        [4, 4, 0, 0, 0, 0, 0, 0, 0, 0],
    ];
    apply_block(&rows, &[0, 1], 2, &mut frames, &[2, 0]);
    assert_eq!(rt; frames[0], [-2, -9, 0, 0, 0, 0, 0, 0, 0, 0]);
    assert_eq!(rt; frames[1], [4, 8, 0, 0, 0, 0, 0, 0, 0, 0]);

    let rows = [row(2, 0, true, &[None, None, Some(1)])];
    let mut frame = [0, 0, 6, 0, 0, 0, 0, 0, 0, 0];
    apply(&rows, &[0, 0, 1], 3, &mut frame, 1);
    assert_eq!(rt; frame, [0, 0, 7, 0, 0, 0, 0, 0, 0, 0]);
    assert_eq!(rt; undo_lift(&rows[0], 1, &mut frame), true);
    assert_eq!(rt; frame, [0, 0, 6, 0, 0, 0, 0, 0, 0, 0]);
}
