//! The motion of a prediction unit (8.5.3.2).

ghost use Rattle.std.specs.Prelude.{◌≡◌};
ghost use Rattle.spec_motion.specs.Derivation.{IsBlock, IsPlaced, coded_vector, prediction_motion, sum_of, wrapped};

use crate::blocks::part_block;
use crate::merging::merge;
use crate::predictors::amvp;
use crate::view::MotionView;
use ctu_records::{MotionSyntax, Mv, PredictionUnit, Rectangle, VectorSyntax};
use spec_motion::{Motion, SliceMotion, Vector};

/// The motion of a prediction unit.
#[tactic(auto, unfolding(spec_motion::specs::Derivation::prediction_motion))]
pub fn derive<V: MotionView>(view: &V, slice: &SliceMotion, unit: &PredictionUnit) -> Motion
    requires { IsPlaced unit.now }
    ensures { result ≡ prediction_motion slice.now (V.collocated_at view.now) (V.motion_at view.now) unit.now }
{
    match unit.motion {
        MotionSyntax::Merge(index) => merge(view, slice, unit, index),
        MotionSyntax::Vectors(first, second) => {
            let block = part_block(unit);
            Motion {
                list_0: coded_vector(view, slice, block, 0, first),
                list_1: coded_vector(view, slice, block, 1, second),
            }
        }
    }
}

/// A vector that is coded, behind its predictor.
#[tactic(auto, unfolding(spec_motion::specs::Derivation::coded_vector))]
fn coded_vector<V: MotionView>(
    view: &V,
    slice: &SliceMotion,
    block: Rectangle,
    list: u8,
    vector: Option<VectorSyntax>,
) -> Option<Vector>
    requires { IsBlock block }
    ensures { result ≡ coded_vector slice.now (V.collocated_at view.now) (V.motion_at view.now) block list vector }
{
    match vector {
        Some(v) => Some(Vector {
            mv: sum_of(amvp(view, slice, block, list, v.ref_idx, v.mvp), v.mvd),
            ref_idx: v.ref_idx,
        }),
        None => None,
    }
}

/// A predictor and a difference, as numbers of 16 bits.
fn sum_of(a: Mv, b: Mv) -> Mv
    ensures { result ≡ sum_of a b }
{
    Mv {
        x: wrapped(a.x, b.x),
        y: wrapped(a.y, b.y),
    }
}

/// A sum as a number of 16 bits.
#[tactic(auto, using(std::proofs::lemmas::Int::wraps))]
fn wrapped(a: i16, b: i16) -> i16
    ensures { result ≡ wrapped a b }
{
    a.wrapping_add(b)
}
