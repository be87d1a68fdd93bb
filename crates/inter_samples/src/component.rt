//! The samples of a block of one component.

ghost use Rattle.std.specs.Prelude.{◌≡◌, ℕ, ◌+◌, ◌*◌, ◌^◌, ◌<◌, ◌≤◌, ℤ};
ghost use Rattle.ctu_motion.specs.Held.{held};
ghost use Rattle.inter_pred.specs.Passes.{at};
ghost use Rattle.inter_samples.specs.Inter.{AreSmall, inter_unit};
ghost use Rattle.spec_inter_prediction.specs.Tables.{IsSliceWeighting};
ghost use Rattle.spec_motion.specs.Derivation.{IsBlock};
ghost use Rattle.spec_reconstruction.specs.Inter.{index_of, inter_sample};
ghost use Rattle.spec_reconstruction.specs.Sound.{IsFormat};
ghost use Rattle.spec_reconstruction.specs.SpecSliceData.{samples_of_place};

use crate::inter::UnitInter;
use crate::lists::{Part, by_both, by_one};
use crate::place::block_of;
use crate::scratch::InterScratch;
use crate::weights::weighting_of;
use ctu_records::Rectangle;
use inter_pred::RefWindow;
use spec_motion::{Motion, Vector};
use spec_reconstruction::UnitFormat;

/// The reference index of a vector, where there is one.
fn index_of(vector: Option<Vector>) -> u8
    ensures { result ≡ index_of vector }
{
    match vector {
        Some(vector) => vector.ref_idx,
        None => 0,
    }
}

/// Writes the samples of component `c` of a block of places by a motion, in lines of 64.
#[tactic(auto, unfolding(spec_reconstruction::specs::Inter::sample_by))]
pub fn predict<V: RefWindow>(
    view: &mut V,
    inter: &UnitInter<'_>,
    format: &UnitFormat,
    block: Rectangle,
    motion: &Motion,
    c: u8,
    scratch: &mut InterScratch,
    out: &mut [u16; 4096],
)
    requires component { c < 3 }
    requires format { IsFormat format.now }
    requires block { IsBlock block }
    requires weighting { IsSliceWeighting inter.now.weighting.now }
    requires place { (inter.now.column ≤ 8192) × (inter.now.row ≤ 8192) }
    requires small { AreSmall format.now (V.reference_at view.old) }
    ensures value { (x y : ℕ) → x < samples_of_place c * block.width → y < samples_of_place c * block.height
        → at out.new (64 * y + x)
        ≡ inter_sample format.now
        (inter_unit (held inter.now.motion.now) inter.now.slice.now inter.now.weighting.now (V.reference_at view.old)
        inter.now.column inter.now.row)
        c motion.now (samples_of_place c * inter.now.column + (samples_of_place c * block.x + x))
        (samples_of_place c * inter.now.row + (samples_of_place c * block.y + y)) }
    ensures same { V.reference_at view.new ≡ V.reference_at view.old }
{
    let part = Part {
        block: block_of(block, inter.column, inter.row, c),
        c,
    };
    let (first, second) = (index_of(motion.list_0), index_of(motion.list_1));
    let weighting = weighting_of(inter.weighting, c, first, second);
    match (motion.list_0, motion.list_1) {
        (None, None) => out.fill(0),
        (Some(first), None) => {
            by_one(view, inter, format, part, weighting, 0, first, scratch, out);
        }
        (None, Some(second)) => {
            by_one(
                view, inter, format, part, weighting, 1, second, scratch, out,
            );
        }
        (Some(first), Some(second)) => {
            by_both(
                view, inter, format, part, weighting, first, second, scratch, out,
            );
        }
    }
}
