//! The outputs of one channel side by side with those of the others.
ghost use Rattle.std.specs.Prelude.{◌≡◌, ◌<◌, length, slice_set};
ghost use Rattle.mlp_channels.specs.Columns.{with_column};

/// Puts a value at a channel's place.
#[inline]
fn put(value: i32, channel: usize, frame: &mut [i32; 10])
    requires { channel < 10 }
    ensures { frame.new ≡ slice_set frame.old channel value }
{
    frame[channel] = value;
}

/// Puts a channel's values side by side with the others, one in each frame.
pub fn scatter(values: &[i32], channel: usize, frames: &mut [[i32; 10]])
    requires channel { channel < 10 }
    requires count { length values.now ≡ length frames.old }
    ensures { frames.new ≡ with_column channel values.now frames.old }
{
    for i in 0..frames.len() {
        put(values[i], channel, &mut frames[i]);
    }
}
