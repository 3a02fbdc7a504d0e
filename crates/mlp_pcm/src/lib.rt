//! PCM samples as bytes, and the headers of WAVE files.
#![tactic(auto)]

mod laws;
mod samples;
mod wave_bytes;
mod wave_chunks;
mod wave_format;
mod wave_header;
mod wave_reader;

pub use laws::{law_first_failing, law_header, law_samples, law_written_header};
pub use mlp_syntax::{PcmFault, ProfileFault, WaveField};
pub use samples::{pack, pack_unit, unpack};
pub use wave_bytes::WaveRefusal;
pub use wave_header::write_wave_header;
pub use wave_reader::{WaveInfo, read_wave_header};
