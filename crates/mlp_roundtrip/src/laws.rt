//! What holds of what the encoding commands write.
ghost use Rattle.mlp_roundtrip.specs.Runs.{RawKept, WaveKept};

/// What an encoding command writes, where it ends well, keeps the PCM that it reads: the bytes are a stream for each
/// presentation of the profile, which shows of each frame what the mix makes of it; the top one is the PCM itself, and
/// decoding it writes the PCM again. So it is after an extraction. Each unit begins to arrive at the time of the
/// earliest schedule, and has arrived by the time of its output, within the buffer of its kind of stream.
pub fn law_roundtrip()
    ensures raw { RawKept }
    ensures wave { WaveKept }
{}
