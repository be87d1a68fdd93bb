//! Transform skip (8.6.2).

ghost use Rattle.std.specs.Prelude.{◌≡◌, ℕ, ◌*◌, ◌^◌, ◌<◌, length};
ghost use Rattle.std.specs.List.{All};
ghost use Rattle.spec_transforms.specs.Matrices.{at};
ghost use Rattle.spec_transforms.specs.Scaling.{Is16, IsDepth, IsSize};
ghost use Rattle.spec_transforms.specs.Transforms.{IsResidual, skipped};

use crate::matrix::size_of;
use crate::products::residual_of;

/// The residuals `out` of the scaled coefficients `d` of a block of 2^`log2` columns and rows whose transform is
/// skipped, both row after row; `depth` is the bit depth of the component.
pub fn skip(d: &[i32], log2: u32, depth: u32, out: &mut [i32])
    requires depth { IsDepth depth }
    requires log2 { IsSize log2 }
    requires coefficients { All Is16 d.now }
    requires count { length d.now ≡ 2 ^ log2 * 2 ^ log2 }
    requires room { length out.old ≡ length d.now }
    ensures value { (i : ℕ) → i < length d.now → at out.new i ≡ skipped depth (at d.now i) }
    ensures small { All IsResidual out.new }
{
    let size = size_of(log2);
    for i in 0..size * size {
        out[i] = skipped(d[i], depth);
    }
}

/// The residual of a scaled coefficient.
#[tactic(auto, unfolding(spec_transforms::specs::Transforms::skipped))]
fn skipped(d: i32, depth: u32) -> i32
    requires d { Is16 d }
    requires depth { IsDepth depth }
    ensures value { result ≡ skipped depth d }
    ensures small { IsResidual result }
{
    residual_of(d * 128, depth)
}
