//! Writing a WAVE file.
ghost use Rattle.std.specs.Prelude.{◌≡◌, ◌⊎◌, ◌<◌, ◌≤◌, ◌++◌, length, OnOk, IfErr, IfSome, IfNone};
ghost use Rattle.std.specs.Io.KnownBytes.{Appends};
ghost use Rattle.mlp_io.specs.Causes.{HasCause, IsCause};
ghost use Rattle.mlp_stream.specs.Sides.{side};
ghost use Rattle.mlp_stream.specs.Gathers.{IsWriteStop};
ghost use Rattle.mlp_stream.specs.Pumped.{is_write_fault};
ghost use Rattle.mlp_pcm.specs.WaveHeader.{padded};
ghost use Rattle.mlp_wave.specs.WaveFile.{wave_file, most_of_samples, PutFile};

use mlp_io::Sink;
use mlp_pcm::write_wave_header;
use mlp_stream::{Stop, put};

/// The most bytes of samples, with the padding byte, that the header states.
const MOST_OF_SAMPLES: usize = 4_294_967_235;

/// How many bytes these are, if the header states it.
fn stated_size(samples: &[u8]) -> Option<u32>
    ensures size { IfSome result (λ size. size ≡ length samples.now) }
    ensures few { IfSome result (λ size. padded size ≤ most_of_samples) }
    ensures many { IfNone result (most_of_samples < padded (length samples.now)) }
{
    let size = samples.len();
    if size > MOST_OF_SAMPLES - size % 2 {
        return None;
    }
    Some(size as u32)
}

/// Writes the parts of a file.
fn put_parts<K: Sink>(
    header: &[u8],
    samples: &[u8],
    padding: &[u8],
    output: &mut K,
) -> Result<(), Stop>
    ensures ok { let file = header.now ++ samples.now ++ padding.now in
        OnOk result (Appends (K.written output.old) (K.written output.new) file) }
    ensures err { let written = side K.written output.old output.new in
        let file = header.now ++ samples.now ++ padding.now in
        IfErr result (λ stop. IsWriteStop written file stop) }
    ensures cause { HasCause (K.faults output.old) (K.faults output.new) result }
{
    put(output, header)?;
    put(output, samples)?;
    put(output, padding)
}

/// Writes a WAVE file: a header for so many channels, a rate in hertz and so many bits a sample, the bytes of the samples,
/// and a padding byte where their number is odd.
///
/// # Errors
///
/// [`Stop::TooLong`] where the header can't state how many bytes these are; nothing is then written. [`Stop::WriteFault`]
/// where a write fails.
pub fn save<K: Sink>(
    channels: u8,
    rate: u32,
    bits: u8,
    samples: &[u8],
    output: &mut K,
) -> Result<(), Stop>
    requires channels { channels ≤ 8 }
    requires rate { rate ≤ 192000 }
    requires bits { (bits ≡ 16) ⊎ (bits ≡ 24) }
    ensures file { let file = wave_file channels rate bits samples.now in
        PutFile samples.now file (side K.written output.old output.new) result }
    ensures cause { IsCause (is_write_fault result) (K.faults output.old) (K.faults output.new) }
{
    let Some(size) = stated_size(samples) else {
        return Err(Stop::TooLong);
    };
    let header = write_wave_header(channels, rate, bits, size);
    let padding = [0; 1];
    put_parts(&header, samples, &padding[..samples.len() % 2], output)
}
