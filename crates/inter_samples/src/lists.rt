//! The samples of a block of one component by the vectors of one list, or of both.

ghost use Rattle.std.specs.Prelude.{◌≡◌, ℕ, ◌+◌, ◌*◌, ◌<◌};
ghost use Rattle.ctu_motion.specs.Held.{held};
ghost use Rattle.inter_pred.specs.Passes.{at, at_z};
ghost use Rattle.inter_samples.specs.Inter.{AreSmall, IsPart, inter_unit};
ghost use Rattle.spec_inter_prediction.specs.Weighting.{IsWeighting, weighted_one, weighted_two};
ghost use Rattle.spec_reconstruction.specs.Inter.{predicted_by};
ghost use Rattle.spec_reconstruction.specs.Parameters.{depth_of};
ghost use Rattle.spec_reconstruction.specs.Sound.{IsFormat};

use crate::inter::UnitInter;
use crate::place::depth_of;
use crate::scratch::InterScratch;
use ctu_motion::reference_in;
use inter_pred::{
    Prediction, PredictionBlock, RefWindow, Scratch, chroma, chroma_one, luma, luma_one, weigh_two,
};
use spec_inter_prediction::Weighting;
use spec_motion::Vector;
use spec_reconstruction::UnitFormat;

/// A block of a component, in samples of the picture.
#[derive(Clone, Copy)]
pub struct Part {
    /// The block.
    pub block: PredictionBlock,
    /// The component: 0 for luma, 1 for Cb, 2 for Cr.
    pub c: u8,
}

/// The prediction of a block by a vector of a list.
#[tactic(auto, unfolding(spec_reconstruction::specs::Inter::predicted_by))]
fn predict_list<V: RefWindow>(
    view: &mut V,
    inter: &UnitInter<'_>,
    format: &UnitFormat,
    part: Part,
    list: u8,
    vector: Vector,
    scratch: &mut Scratch,
    out: &mut Prediction,
)
    requires format { IsFormat format.now }
    requires part { IsPart part }
    requires small { AreSmall format.now (V.reference_at view.old) }
    ensures value { (x y : ℕ) → x < part.block.width → y < part.block.height
        → at_z out.new (64 * y + x)
        ≡ predicted_by format.now
        (inter_unit (held inter.now.motion.now) inter.now.slice.now inter.now.weighting.now (V.reference_at view.old)
        inter.now.column inter.now.row)
        list part.c vector (part.block.x + x) (part.block.y + y) }
    ensures same { V.reference_at view.new ≡ V.reference_at view.old }
{
    let picture = reference_in(inter.slice, list, vector.ref_idx).picture;
    let depth = depth_of(format, part.c);
    if part.c == 0 {
        luma(view, picture, part.block, vector.mv, depth, scratch, out);
    } else {
        chroma(
            view, picture, part.c, part.block, vector.mv, depth, scratch, out,
        );
    }
}

/// The samples of a block by a vector of a list alone.
#[tactic(auto, unfolding(spec_reconstruction::specs::Inter::predicted_by))]
pub fn by_one<V: RefWindow>(
    view: &mut V,
    inter: &UnitInter<'_>,
    format: &UnitFormat,
    part: Part,
    weighting: Weighting,
    list: u8,
    vector: Vector,
    scratch: &mut InterScratch,
    out: &mut [u16; 4096],
)
    requires format { IsFormat format.now }
    requires part { IsPart part }
    requires weighting { IsWeighting weighting }
    requires small { AreSmall format.now (V.reference_at view.old) }
    ensures value { (x y : ℕ) → x < part.block.width → y < part.block.height
        → at out.new (64 * y + x)
        ≡ weighted_one (depth_of format.now part.c) weighting list
        (predicted_by format.now
        (inter_unit (held inter.now.motion.now) inter.now.slice.now inter.now.weighting.now (V.reference_at view.old)
        inter.now.column inter.now.row)
        list part.c vector (part.block.x + x) (part.block.y + y)) }
    ensures same { V.reference_at view.new ≡ V.reference_at view.old }
{
    let picture = reference_in(inter.slice, list, vector.ref_idx).picture;
    let depth = depth_of(format, part.c);
    let (block, mv) = (part.block, vector.mv);
    let (room, first) = (&mut scratch.scratch, &mut scratch.first);
    if part.c == 0 {
        luma_one(
            view, picture, block, mv, list, weighting, depth, room, first, out,
        );
    } else {
        chroma_one(
            view, picture, part.c, block, mv, list, weighting, depth, room, first, out,
        );
    }
}

/// The samples of a block by vectors of both lists.
pub fn by_both<V: RefWindow>(
    view: &mut V,
    inter: &UnitInter<'_>,
    format: &UnitFormat,
    part: Part,
    weighting: Weighting,
    first: Vector,
    second: Vector,
    scratch: &mut InterScratch,
    out: &mut [u16; 4096],
)
    requires format { IsFormat format.now }
    requires part { IsPart part }
    requires weighting { IsWeighting weighting }
    requires small { AreSmall format.now (V.reference_at view.old) }
    ensures value { (x y : ℕ) → x < part.block.width → y < part.block.height
        → at out.new (64 * y + x)
        ≡ weighted_two (depth_of format.now part.c) weighting
        (predicted_by format.now
        (inter_unit (held inter.now.motion.now) inter.now.slice.now inter.now.weighting.now (V.reference_at view.old)
        inter.now.column inter.now.row)
        0 part.c first (part.block.x + x) (part.block.y + y))
        (predicted_by format.now
        (inter_unit (held inter.now.motion.now) inter.now.slice.now inter.now.weighting.now (V.reference_at view.old)
        inter.now.column inter.now.row)
        1 part.c second (part.block.x + x) (part.block.y + y)) }
    ensures same { V.reference_at view.new ≡ V.reference_at view.old }
{
    predict_list(
        view,
        inter,
        format,
        part,
        0,
        first,
        &mut scratch.scratch,
        &mut scratch.first,
    );
    predict_list(
        view,
        inter,
        format,
        part,
        1,
        second,
        &mut scratch.scratch,
        &mut scratch.second,
    );
    let (width, height) = (part.block.width as usize, part.block.height as usize);
    let depth = depth_of(format, part.c);
    weigh_two(
        &scratch.first,
        &scratch.second,
        weighting,
        depth,
        width,
        height,
        out,
    );
}
