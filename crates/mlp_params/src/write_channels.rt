//! Writing the parameters of channels.
ghost use Rattle.std.specs.Prelude.{◌≡◌, ◌<◌, List, length, All, IfSome, true, false};
ghost use Rattle.mlp_layout.specs.Combined.{signed_of, group, each};
ghost use Rattle.mlp_layout.specs.Writing.{Writes};
ghost use Rattle.mlp_params.specs.declared.state.ChannelState.{ChannelState};
ghost use Rattle.mlp_layout.specs.Allowed.{Allowed};
ghost use Rattle.mlp_params.specs.Filters.{filter};
ghost use Rattle.mlp_params.specs.Parameters.{channel};
ghost use Rattle.mlp_params.specs.Groups.{ChannelParts};

use crate::channels::has_bit;
use crate::write_filters::{write_absent, write_filter};
use mlp_bits::{BitWriter, Full};
use mlp_layout::{put_all, put_flag, put_signed};
use mlp_syntax::{ChannelParams, Filter};

fn write_fir(there: bool, fir: &Option<Filter<8>>, w: &mut BitWriter) -> Result<(), Full>
    requires { Allowed (group there (filter 8 false)) fir.now }
    ensures { Writes w.old w.new result ((group there (filter 8 false)).spelling fir.now) }
{
    match fir {
        None => write_absent(there, w),
        Some(given) => {
            put_flag(true, w)?;
            write_filter(given, w)
        }
    }
}

fn write_iir(there: bool, iir: &Option<Filter<4>>, w: &mut BitWriter) -> Result<(), Full>
    requires { Allowed (group there (filter 4 true)) iir.now }
    ensures { Writes w.old w.new result ((group there (filter 4 true)).spelling iir.now) }
{
    match iir {
        None => write_absent(there, w),
        Some(given) => {
            put_flag(true, w)?;
            write_filter(given, w)
        }
    }
}

fn write_offset(there: bool, offset: &Option<i16>, w: &mut BitWriter) -> Result<(), Full>
    requires { Allowed (group there (signed_of 15)) offset.now }
    ensures { Writes w.old w.new result ((group there (signed_of 15)).spelling offset.now) }
{
    match offset {
        None => write_absent(there, w),
        Some(given) => {
            put_flag(true, w)?;
            put_signed(i32::from(*given), 15, w)
        }
    }
}

/// The parameters of a channel. What is in force in it matters for the rules alone.
fn write_channel(flags: u8, given: &ChannelParams, w: &mut BitWriter) -> Result<(), Full>
    requires { ChannelParts flags given.now }
    ensures { (in_force : ChannelState) → Writes w.old w.new result ((channel flags in_force).spelling given.now) }
{
    write_fir(has_bit(flags, 3), &given.fir, w)?;
    write_iir(has_bit(flags, 2), &given.iir, w)?;
    write_offset(has_bit(flags, 1), &given.offset, w)?;
    let book = u32::from(given.book);
    let low = u32::from(given.low);
    put_all(&[(book, 2), (low, 5)], w)
}

/// The parameters of a channel behind its flag.
fn write_given(flags: u8, parameters: &Option<ChannelParams>, w: &mut BitWriter) -> Result<(), Full>
    requires { IfSome parameters.now (λ c. ChannelParts flags c) }
    ensures { (in_force : ChannelState) →
        Writes w.old w.new result ((group true (channel flags in_force)).spelling parameters.now) }
{
    match parameters {
        None => write_absent(true, w),
        Some(given) => {
            put_flag(true, w)?;
            write_channel(flags, given, w)
        }
    }
}

/// The parameters of channels, each behind its flag.
pub fn write_channels(
    flags: u8,
    channels: &[Option<ChannelParams>],
    w: &mut BitWriter,
) -> Result<(), Full>
    requires { All (λ o. IfSome o (λ c. ChannelParts flags c)) channels.now }
    ensures { (in_force : List ChannelState) → length channels.now ≡ length in_force
        → Writes w.old w.new result ((each (λ c. group true (channel flags c)) in_force).spelling channels.now) }
{
    let _place = w.place();
    for parameters in channels {
        write_given(flags, parameters, w)?;
    }
    Ok(())
}
