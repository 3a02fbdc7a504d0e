//! What holds of PCM as bytes, and of the headers of WAVE files.
ghost use Rattle.std.specs.Prelude.{ℕ, ℤ, Bool, List};
ghost use Rattle.mlp_pcm.specs.WaveScan.{UnfinishedWhereCut};
ghost use Rattle.mlp_pcm.specs.WaveFile.{BeginsWhereWave, RefusedWhereWrong, HasOneAnswer, StaysSo, WrittenIsRead};
ghost use Rattle.mlp_pcm.specs.Samples.{FirstFailingIsFirst, PackedIsUnpacked, UnpackedAreRows, UnpackedIsPacked};

/// At each width `unpack` and `pack` are inverse: bytes of whole frames are those of the rows that they were unpacked
/// to, and rows whose samples have 24 signed bits, of which those that their depth doesn't have are 0, are those that
/// their bytes are unpacked to. Either accepts what the other gives, at any depth that has this width.
pub fn law_samples()
    ensures packed { PackedIsUnpacked }
    ensures rows { UnpackedAreRows }
    ensures unpacked { UnpackedIsPacked }
{}

/// The first row at which a test fails has this number exactly where it fails there and at none before.
pub fn law_first_failing()
    ensures { (test : List ℤ → Bool) (rows : List (List ℤ)) → FirstFailingIsFirst test rows }
{}

/// Bytes say that a header begins exactly where they are RIFF, a size, WAVE, chunks of which the first that is named
/// `fmt ` says the format, and the head of the data; and that a field is wrong exactly where the first 12 bytes have
/// other words, or the data or a format that is refused comes first. Each list of bytes has one answer, and bytes
/// behind a header, or behind a wrong field, change nothing. Where bytes are neither so far, fewer than 12 are cut
/// inside RIFF, and others inside a chunk.
pub fn law_header()
    ensures begins { BeginsWhereWave }
    ensures refused { RefusedWhereWrong }
    ensures one { (bytes : List ℕ) → HasOneAnswer bytes }
    ensures stays { StaysSo }
    ensures unfinished { (bytes : List ℕ) → UnfinishedWhereCut bytes }
{}

/// A header that was written is read back, whatever stands behind it.
pub fn law_written_header()
    ensures { WrittenIsRead }
{}
