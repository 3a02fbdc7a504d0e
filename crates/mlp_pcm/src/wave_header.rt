//! The header of a WAVE file, as it is written.
ghost use Rattle.std.specs.Prelude.{◌≡◌, ◌⊎◌, ◌+◌, ◌*◌, ◌≤◌, ◌<◌, ◌^◌};
ghost use Rattle.byteorder.specs.Endian.{little_bytes};
ghost use Rattle.mlp_pcm.specs.WaveHeader.{padded, align_of, wave_header};

use byteorder::{ByteOrder, LittleEndian};

/// A number in two bytes.
fn two(n: u16) -> [u8; 2]
    ensures { result ≡ little_bytes 2 n }
{
    let mut bytes = [0; 2];
    LittleEndian::write_u16(&mut bytes, n);
    bytes
}

/// A number in four bytes.
fn four(n: u32) -> [u8; 4]
    ensures { result ≡ little_bytes 4 n }
{
    let mut bytes = [0; 4];
    LittleEndian::write_u32(&mut bytes, n);
    bytes
}

/// The header of a WAVE file with so many data bytes, of 16 or 24 bits a sample. A padding byte follows an odd number.
#[rattlefmt::skip]
pub fn write_wave_header(channels: u8, rate: u32, bits: u8, size: u32) -> [u8; 68]
    requires size { padded size ≤ 4294967235 }
    requires bits { (bits ≡ 16) ⊎ (bits ≡ 24) }
    requires align { align_of channels bits < 2 ^ 16 }
    requires bytes { rate * align_of channels bits < 2 ^ 32 }
    ensures { result ≡ wave_header channels rate bits size }
{
    let align = u16::from(channels) * u16::from(bits / 8);
    let riff = four(60 + size + size % 2);
    let channels = two(u16::from(channels));
    let depth = two(u16::from(bits));
    let bytes = four(rate * u32::from(align));
    let rate = four(rate);
    let align = two(align);
    let data = four(size);
    [
        b'R', b'I', b'F', b'F', riff[0], riff[1], riff[2], riff[3], b'W', b'A', b'V', b'E',
        b'f', b'm', b't', b' ', 40, 0, 0, 0,
        0xFE, 0xFF, channels[0], channels[1], rate[0], rate[1], rate[2], rate[3],
        bytes[0], bytes[1], bytes[2], bytes[3], align[0], align[1], depth[0], depth[1],
        22, 0, depth[0], depth[1], 0, 0, 0, 0,
        0x01, 0x00, 0x00, 0x00, 0x00, 0x00, 0x10, 0x00, 0x80, 0x00, 0x00, 0xAA, 0x00, 0x38, 0x9B, 0x71,
        b'd', b'a', b't', b'a', data[0], data[1], data[2], data[3],
    ]
}
