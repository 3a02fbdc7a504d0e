//! Writing the restart header.
ghost use Rattle.std.specs.Prelude.{◌<◌};
ghost use Rattle.mlp_layout.specs.Writing.{Writes};
ghost use Rattle.mlp_syntax.specs.declared.major.Kind.{Kind};
ghost use Rattle.mlp_params.specs.RestartHeader.{restart, restart_fields};

use crate::write_filters::{digit, write_numbers};
use mlp_bits::{BitWriter, Full};
use mlp_layout::{put_all, put_number};
use mlp_syntax::Restart;

fn write_fields(header: &Restart, w: &mut BitWriter) -> Result<(), Full>
    requires { (format : Kind) × (restart_fields format).Fits header.now }
    ensures { (format : Kind) → Writes w.old w.new result ((restart_fields format).spelling header.now) }
{
    let kind = u32::from(header.kind);
    let output_timing = u32::from(header.output_timing);
    let min = u32::from(header.min);
    let max = u32::from(header.max);
    let max_matrix = u32::from(header.max_matrix);
    let noise_shift = u32::from(header.noise_shift);
    let data_check = digit(header.data_check);
    let lossless = u32::from(header.lossless);
    let carried_b = u32::from(header.carried_b);
    put_all(
        &[
            (0x18F5, 13),
            (kind, 1),
            (output_timing, 16),
            (min, 4),
            (max, 4),
            (max_matrix, 4),
            (noise_shift, 4),
            (header.seed, 23),
            (header.carried_a, 19),
            (data_check, 1),
            (lossless, 8),
            (carried_b, 16),
        ],
        w,
    )?;
    write_numbers(&header.assign, 6, w)
}

/// Writes a restart header with its check: its one spelling, which is the same for both kinds of streams.
///
/// # Errors
///
/// `Full` exactly where the bits would pass 65,520; the writer then has its old bits and the first of the new ones.
pub fn write_restart(header: &Restart, w: &mut BitWriter) -> Result<(), Full>
    requires { (format : Kind) × (restart format).Fits header.now }
    ensures { (format : Kind) → Writes w.old w.new result ((restart format).spelling header.now) }
{
    let first = w.place();
    write_fields(header, w)?;
    let check = w.restart_check_since(first);
    put_number(u32::from(check), 8, w)
}
