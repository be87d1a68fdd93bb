//! The range of samples.

ghost use Rattle.std.specs.Prelude.{◌≡◌, ◌+◌, ◌-◌, ◌^◌, ◌≤◌};
ghost use Rattle.spec_picture_build.specs.References.{greatest_sample};

use header_types::Sps;

/// The greatest sample of component `c` of pictures of this sequence parameter set.
pub(crate) fn sample_limit(sps: &Sps, c: usize) -> u16
    ensures { result ≡ greatest_sample sps.now.format c }
{
    let format = &sps.fields().format;
    let minus8 = if c == 0 {
        format.bit_depth_luma_minus8
    } else {
        format.bit_depth_chroma_minus8
    };
    limit_of(minus8)
}

/// That of a bit depth less 8.
fn limit_of(minus8: u32) -> u16
    requires { minus8 ≤ 2 }
    ensures { result ≡ 2 ^ (8 + minus8) - 1 }
{
    match minus8 {
        0 => 255,
        1 => 511,
        _ => 1023,
    }
}
