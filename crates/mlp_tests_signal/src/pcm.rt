//! PCM samples as bytes and the headers of WAVE files, byte by byte.
ghost use Rattle.std.specs.Prelude.{◌<◌, ◌≤◌};

use arrayvec::ArrayVec;
use mlp_io::{MemSource, fill};
use mlp_pcm::{
    WaveField, WaveInfo, WaveRefusal, law_first_failing, law_header, law_samples,
    law_written_header, pack, pack_unit, read_wave_header, unpack, write_wave_header,
};
use mlp_syntax::{Frames, UnitBytes};
use std::alloc::{AllocError, Global};

#[test]
fn samples_are_signed_and_little_endian(rt: HostRuntime) {
    let mut frames = Frames::default();
    let stereo = b"\x01\x00\x80\xFF\xFF\xFF".as_slice();
    assert_eq!(rt; unpack(stereo, 3, 24, 2, &mut frames), Ok(()));
    assert_eq!(rt;
        frames.rows.as_slice(),
        [[-8388607, -1, 0, 0, 0, 0, 0, 0]].as_slice()
    );
    let mut bytes = ArrayVec::new();
    assert_eq!(rt; pack(&frames, 24, &mut bytes), Ok(()));
    assert_eq!(rt; bytes.as_slice(), stereo);
    assert_eq!(rt; pack(&frames, 16, &mut bytes), Err(0));
    let mut unit = UnitBytes::new();
    assert_eq!(rt; pack_unit(frames.rows.as_slice(), 1, 24, &mut unit), Ok(()));
    assert_eq!(rt; unit.as_slice(), b"\x01\x00\x80".as_slice());
    assert_eq!(rt; unpack(b"\x00\x80\x01\x00", 2, 16, 1, &mut frames), Ok(()));
    assert_eq!(rt;
        frames.rows.as_slice(),
        [[-8388608, 0, 0, 0, 0, 0, 0, 0], [256, 0, 0, 0, 0, 0, 0, 0]].as_slice()
    );
    assert_eq!(rt; pack_unit(frames.rows.as_slice(), 1, 16, &mut unit), Ok(()));
    assert_eq!(rt; unit.as_slice(), b"\x00\x80\x01\x00".as_slice());
    let low = [[256, 0, 0, 0, 0, 0, 0, 0], [0, 1, 0, 0, 0, 0, 0, 0]];
    assert_eq!(rt; pack_unit(&low, 2, 16, &mut unit), Err(1));
    assert_eq!(rt; unit.len(), 0);
    assert_eq!(rt;
        unpack(b"\x10\x00\x00\x18\x00\x00", 3, 20, 1, &mut frames),
        Err(1)
    );
    law_samples();
    law_first_failing();
}

/// Reads the first bytes of a header with two bytes changed, in pieces of 5 bytes.
fn read_changed(
    alloc: Global,
    length: usize,
    place: usize,
    changed: [u8; 2],
) -> Result<Result<WaveInfo, WaveRefusal>, AllocError>
    requires { (length ≤ 68) × (place < 67) }
{
    let mut header = write_wave_header(2, 48000, 24, 6);
    header[place] = changed[0];
    header[place + 1] = changed[1];
    let bytes = header[..length].to_vec(alloc)?;
    let mut source = MemSource::new(bytes, 5, Vec::new(alloc));
    Ok(read_wave_header(&mut source))
}

#[test]
fn a_header_is_written_and_read_back_or_refused(rt: HostRuntime) -> Result<(), AllocError> {
    let alloc = rt.alloc();
    let bytes = write_wave_header(2, 48000, 24, 6);
    assert_eq!(rt;
        &bytes[..24],
        b"RIFF\x42\0\0\0WAVEfmt \x28\0\0\0\xFE\xFF\x02\0".as_slice()
    );
    assert_eq!(rt;
        &bytes[24..44],
        b"\x80\xBB\0\0\0\x65\x04\0\x06\0\x18\0\x16\0\x18\0\0\0\0\0".as_slice()
    );
    assert_eq!(rt;
        &bytes[44..],
        b"\x01\0\0\0\0\0\x10\0\x80\0\0\xAA\0\x38\x9B\x71data\x06\0\0\0".as_slice()
    );
    let info = WaveInfo {
        channels: 2,
        rate: 48000,
        depth: 24,
        width: 3,
        size: 6,
        taken: 68,
    };
    assert_eq!(rt; read_changed(alloc, 68, 0, *b"RI")?, Ok(info));
    assert_eq!(rt;
        read_changed(alloc, 11, 0, *b"RI")?,
        Err(WaveRefusal::Header(WaveField::Riff))
    );
    assert_eq!(rt;
        read_changed(alloc, 43, 0, *b"RI")?,
        Err(WaveRefusal::Header(WaveField::Chunk))
    );
    assert_eq!(rt;
        read_changed(alloc, 68, 20, [2, 0])?,
        Err(WaveRefusal::Header(WaveField::Tag))
    );
    assert_eq!(rt;
        read_changed(alloc, 68, 32, [7, 0])?,
        Err(WaveRefusal::Header(WaveField::Align))
    );
    law_header();
    law_written_header();
    Ok(())
}

/// A header with a chunk of odd size before the format, and a second format behind it.
const CHUNKS: [u8; 68] =
    *b"RIFF\0\0\0\0WAVELIST\x03\0\0\0abc\0fmt \x12\0\0\0\x01\0\x01\0\x44\xAC\0\0\0\0\0\0\x03\0\x14\0\0\0fmt \x01\0\0\0\x07\0data\x05\0\0\0";

#[test]
fn chunks_are_passed_over_until_a_read_fails(rt: HostRuntime) -> Result<(), AllocError> {
    let alloc = rt.alloc();
    let info = WaveInfo {
        channels: 1,
        rate: 44100,
        depth: 20,
        width: 3,
        size: 5,
        taken: 68,
    };
    let mut source = MemSource::new(CHUNKS.to_vec(alloc)?, 1, Vec::new(alloc));
    assert_eq!(rt; read_wave_header(&mut source), Ok(info));
    let mut failing = MemSource::new(CHUNKS.to_vec(alloc)?, 1, vec![in alloc; 67]?);
    assert_eq!(rt; read_wave_header(&mut failing), Err(WaveRefusal::Read));
    let mut buf = [0; 2];
    assert_eq!(rt; fill(&mut failing, &mut buf), Ok(1));
    Ok(())
}
