//! The command `gen`.
use crate::runs::{WHOLE, run_over};
use crate::streams::next_state;
use std::alloc::{AllocError, Global};
use std::test::Fail;

/// A sample of 24 bits: a triangle, which is faster from channel to channel, and noise.
fn sample(state: u32, frame: u32, channel: u32) -> i64 {
    let phase = frame.wrapping_mul(channel.wrapping_add(1)).wrapping_mul(37) % 4096;
    let triangle = (i64::from(phase) - 2048).abs() - 1024;
    let noise = i64::from(state / 16_777_216) - 128;
    triangle * 4096 + noise * 16
}

/// The PCM of a seed: so many frames of six channels.
fn pcm_of(alloc: Global, seed: u32, frames: u32) -> Result<Vec<u8>, AllocError> {
    let mut pcm = Vec::new(alloc);
    let mut state = seed;
    for place in 0..frames.wrapping_mul(6) {
        state = next_state(state);
        let bytes = sample(state, place / 6, place % 6).to_le_bytes();
        pcm.extend_from_slice(&bytes[..3])?;
    }
    Ok(pcm)
}

/// The sum of bytes, modulo 2^32.
fn sum_of(bytes: &[u8]) -> u32 {
    let mut sum: u32 = 0;
    for byte in bytes {
        sum = sum.wrapping_add(u32::from(*byte));
    }
    sum
}

/// Whether these bytes stand somewhere in a text.
fn has(text: &[u8], wanted: &[u8]) -> bool {
    text.windows(wanted.len().max(1))
        .any(|piece| piece == wanted)
}

/// Its numbers are those of what the other commands write: the stream of the same PCM, its presentations and what is
/// extracted for them.
#[test]
fn tells_what_the_other_commands_write(rt: HostRuntime) -> Result<(), Fail> {
    let alloc = rt.alloc();
    let pcm = pcm_of(alloc, 1, 800)?;
    assert_eq!(rt;
        pcm.get(..6),
        Some([0xC0, 0xFB, 0x3F, 0xE0, 0xFD, 0x3F].as_slice())
    );
    let words = "encode-raw --format truehd --rate 48000 --channels 6 --bits 24 --mix fold";
    let stream = run_over(alloc, words, &pcm, &WHOLE)?.output;
    let stereo = run_over(alloc, "decode-raw --presentation 0", &stream, &WHOLE)?.output;
    let top = run_over(alloc, "decode-raw --presentation 1", &stream, &WHOLE)?.output;
    let lower = run_over(alloc, "extract --presentation 0", &stream, &WHOLE)?.output;
    let whole = run_over(alloc, "extract --presentation 1", &stream, &WHOLE)?.output;
    assert_eq!(rt; top, pcm);
    assert_eq!(rt; whole, stream);
    let text = format!(in alloc;
        "pcm 14400\nstream {}\npresentation 0 channels 2 frames {} sum {}\npresentation 1 channels 6 frames 800 sum {}\nextract 0 bytes {}\nextract 1 bytes {}\nunits 20\n",
        stream.len(),
        stereo.len() / 6,
        sum_of(&stereo),
        sum_of(&top),
        lower.len(),
        whole.len()
    )?;
    let words =
        "gen --format truehd --rate 48000 --channels 6 --bits 24 --mix fold --units 20 --seed 1";
    let told = run_over(alloc, words, &[], &WHOLE)?;
    assert_eq!(rt; told.status, 0);
    assert_eq!(rt; told.output.as_slice(), text.as_bytes());
    Ok(())
}

/// The text of a seed's PCM in six channels at 96 kHz, without the bytes of the streams, and the sum of the higher
/// presentation, which is that of the PCM.
#[test]
fn tells_the_sum_of_the_pcm(rt: HostRuntime) -> Result<(), Fail> {
    let alloc = rt.alloc();
    let pcm = pcm_of(alloc, 1, 48_000)?;
    let words =
        "gen --format truehd --rate 96000 --channels 6 --bits 24 --mix fold --units 600 --seed 1";
    let told = run_over(alloc, words, &[], &WHOLE)?;
    assert_eq!(rt; told.status, 0);
    let wanted = format!(in alloc;
        "presentation 1 channels 6 frames 48000 sum {}\n",
        sum_of(&pcm)
    )?;
    assert_eq!(rt; has(&told.output, wanted.as_bytes()), true);
    let wanted: [&[u8]; 3] = [
        b"pcm 864000\n",
        b"presentation 0 channels 2 frames 48000 sum ",
        b"units 600\n",
    ];
    for line in wanted {
        assert_eq!(rt; has(&told.output, line), true);
    }
    let words =
        "gen --format truehd --rate 192000 --channels 6 --bits 20 --mix fold --units 20 --seed 1";
    let told = run_over(alloc, words, &[], &WHOLE)?;
    assert_eq!(rt; told.status, 0);
    let wanted: [&[u8]; 2] = [b"pcm 57600\n", b"units 20\n"];
    for line in wanted {
        assert_eq!(rt; has(&told.output, line), true);
    }
    Ok(())
}
