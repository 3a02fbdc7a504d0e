//! The major sync of an extraction.
ghost use Rattle.std.specs.Prelude.{◌≡◌, ◌≤◌};
ghost use Rattle.mlp_major.specs.MajorSync.{smaller};

use arrayvec::ArrayVec;
use mlp_syntax::MajorSync;

/// The major sync of the stream that an extraction of `presentation`, 0 to 2, makes: it tells of one substream more
/// than that number, and the highest bit of its substream info is cleared. Its check is made where it is written.
pub fn narrow(major: &MajorSync, presentation: u8) -> MajorSync
    requires { presentation ≤ 2 }
    ensures { result ≡ smaller presentation major.now }
{
    let mut extension: ArrayVec<u8, 32> = ArrayVec::new();
    let _full = extension.try_extend_from_slice(&major.extension);
    MajorSync {
        format: major.format,
        flags: major.flags,
        reserved: major.reserved,
        variable: major.variable,
        peak: major.peak,
        substreams: presentation + 1,
        carried: major.carried,
        extended: major.extended,
        info: major.info % 128,
        meaning: major.meaning,
        extension,
    }
}
