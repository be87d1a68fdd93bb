//! Blocks of one or two predictions (8.5.3.3.4).

ghost use Rattle.std.specs.Prelude.{◌≡◌, ◌<◌, ◌≤◌, ◌+◌, ◌*◌, ◌^◌, ℕ, ℤ, pos, length, cond, nat_le, nat_lt, ◌&&◌, true};
ghost use Rattle.std.specs.Prelude.{◌==◌, if◌then◌else◌};
ghost use Rattle.spec_inter_prediction.specs.Taps.{IsDepth};
ghost use Rattle.spec_inter_prediction.specs.Weighting.{default_one, default_two, weighted_one, weighted_two};
ghost use Rattle.spec_inter_prediction.specs.Weighting.{IsWeight, IsWeighting, IsWeights};
ghost use Rattle.inter_pred.specs.Passes.{at, at_z, value_of};
ghost use Rattle.inter_pred.specs.Samples.{sample};

use crate::prediction::Prediction;
use crate::sample::{
    byte_of_one, byte_of_two, default_one, default_two, explicit_one, explicit_two, value_of,
};
use crate::width::in_eights;
use spec_inter_prediction::{Weight, Weighting, Weights};

/// What samples are made by: the bit depth, log2WD, and the weights of the first and the second prediction.
#[derive(Clone, Copy)]
struct Scale {
    depth: u32,
    log2_wd: u32,
    first: Weight,
    second: Weight,
}

/// No weight.
const NONE: Weight = Weight {
    weight: 0,
    offset: 0,
};

/// A sample of one or two predictions, each held 16,896 above.
#[inline(always)]
#[tactic(auto, unfolding(crate::specs::Samples::sample))]
fn sample<const KIND: u32>(scale: Scale, p: u16, q: u16) -> u16
    requires depth { IsDepth scale.depth }
    requires log2_wd { scale.log2_wd ≤ 13 }
    requires first { IsWeight scale.first }
    requires second { IsWeight scale.second }
    ensures { result
        ≡ sample KIND scale.depth scale.log2_wd scale.first scale.second (value_of p) (value_of q) }
{
    match KIND {
        0 => default_one(scale.depth, value_of(p)),
        1 => default_two(scale.depth, value_of(p), value_of(q)),
        2 => explicit_one(scale.depth, scale.log2_wd, scale.first, value_of(p)),
        3 => explicit_two(
            scale.depth,
            scale.log2_wd,
            scale.first,
            scale.second,
            value_of(p),
            value_of(q),
        ),
        4 => byte_of_one(p),
        _ => byte_of_two(p, q),
    }
}

/// A line of samples, from a place on.
fn line<const KIND: u32>(
    scale: Scale,
    p: &[u16],
    q: &[u16],
    from: usize,
    width: usize,
    out: &mut [u16],
)
    requires depth { IsDepth scale.depth }
    requires log2_wd { scale.log2_wd ≤ 13 }
    requires first { IsWeight scale.first }
    requires second { IsWeight scale.second }
    requires room { (from + width ≤ length p.now) × (from + width ≤ length q.now) × (from + width ≤ length out.old) }
    ensures { (i : ℕ) → at out.new i
        ≡ cond (nat_le from i && nat_lt i (from + width))
        (sample KIND scale.depth scale.log2_wd scale.first scale.second (value_of (at p.now i)) (value_of (at q.now i)))
        (at out.old i) }
{
    for k in 0..width {
        out[from + k] = sample::<KIND>(scale, p[from + k], q[from + k]);
    }
}

/// The samples of a block.
fn lines<const KIND: u32>(
    scale: Scale,
    p: &Prediction,
    q: &Prediction,
    width: usize,
    height: usize,
    out: &mut [u16; 4096],
)
    requires depth { IsDepth scale.depth }
    requires log2_wd { scale.log2_wd ≤ 13 }
    requires first { IsWeight scale.first }
    requires second { IsWeight scale.second }
    requires size { (width ≤ 64) × (height ≤ 64) }
    ensures { (x y : ℕ) → x < width → y < height
        → at out.new (64 * y + x)
        ≡ sample KIND scale.depth scale.log2_wd scale.first scale.second (at_z p.now (64 * y + x))
        (at_z q.now (64 * y + x)) }
{
    for y in 0..height {
        line::<KIND>(scale, &p.samples, &q.samples, 64 * y, width, out);
    }
}

/// Whether a weight is 1, without an offset, in units of 2^-`log2_denominator`.
fn is_one(weight: Weight, log2_denominator: u8) -> bool
    requires { log2_denominator ≤ 7 }
    ensures { result ≡ true → (weight.weight ≡ pos (2 ^ log2_denominator)) × (weight.offset ≡ pos 0) }
{
    weight.offset == 0 && i32::from(weight.weight) == 1 << log2_denominator
}

/// Whether those of both lists are.
fn are_ones(weights: Weights) -> bool
    requires { weights.log2_denominator ≤ 7 }
    ensures first { result ≡ true
        → (weights.list0.weight ≡ pos (2 ^ weights.log2_denominator)) × (weights.list0.offset ≡ pos 0) }
    ensures second { result ≡ true
        → (weights.list1.weight ≡ pos (2 ^ weights.log2_denominator)) × (weights.list1.offset ≡ pos 0) }
{
    is_one(weights.list0, weights.log2_denominator)
        && is_one(weights.list1, weights.log2_denominator)
}

/// The weight of a list.
fn weight_of(weights: Weights, list: u8) -> Weight
    requires { IsWeights weights }
    ensures value { result ≡ (if list == 0 then weights.list0 else weights.list1) }
    ensures range { IsWeight result }
{
    if list == 0 {
        weights.list0
    } else {
        weights.list1
    }
}

/// Whether samples of 8 bits are weighted by one list as by default.
#[tactic(auto, unfolding(spec_inter_prediction::specs::Weighting::weighted_one))]
pub(crate) fn is_plain_one(weighting: Weighting, list: u8) -> bool
    requires { IsWeighting weighting }
    ensures { result ≡ true → (p : ℤ) → weighted_one 8 weighting list p ≡ default_one 8 p }
{
    match weighting {
        Weighting::Default => true,
        Weighting::Explicit(weights) => {
            is_one(weight_of(weights, list), weights.log2_denominator)
        }
    }
}

/// Whether they are so by both lists.
#[tactic(auto, unfolding(spec_inter_prediction::specs::Weighting::weighted_two))]
fn is_plain_two(weighting: Weighting) -> bool
    requires { IsWeighting weighting }
    ensures { result ≡ true → (p q : ℤ) → weighted_two 8 weighting p q ≡ default_two 8 p q }
{
    match weighting {
        Weighting::Default => true,
        Weighting::Explicit(weights) => are_ones(weights),
    }
}

/// Writes the samples of a block that is predicted from one list, `list` 0 or 1 (8.5.3.3.4.2, 8.5.3.3.4.3), in lines of
/// 64.
#[tactic(auto, unfolding(crate::specs::Samples::sample, spec_inter_prediction::specs::Weighting::weighted_one))]
pub fn weigh_one(
    prediction: &Prediction,
    list: u8,
    weighting: Weighting,
    depth: u32,
    width: usize,
    height: usize,
    out: &mut [u16; 4096],
)
    requires depth { IsDepth depth }
    requires weights { IsWeighting weighting }
    requires size { (width ≤ 64) × (height ≤ 64) }
    ensures { (x y : ℕ) → x < width → y < height
        → at out.new (64 * y + x) ≡ weighted_one depth weighting list (at_z prediction.now (64 * y + x)) }
{
    if depth == 8 && is_plain_one(weighting, list) {
        let wide = in_eights(width);
        lines::<4>(unweighted(8), prediction, prediction, wide, height, out);
    } else {
        weigh_one_at(prediction, list, weighting, depth, width, height, out);
    }
}

/// The same by the definition, at any depth.
#[tactic(auto, unfolding(crate::specs::Samples::sample, spec_inter_prediction::specs::Weighting::weighted_one))]
fn weigh_one_at(
    prediction: &Prediction,
    list: u8,
    weighting: Weighting,
    depth: u32,
    width: usize,
    height: usize,
    out: &mut [u16; 4096],
)
    requires depth { IsDepth depth }
    requires weights { IsWeighting weighting }
    requires size { (width ≤ 64) × (height ≤ 64) }
    ensures { (x y : ℕ) → x < width → y < height
        → at out.new (64 * y + x) ≡ weighted_one depth weighting list (at_z prediction.now (64 * y + x)) }
{
    match weighting {
        Weighting::Default => {
            let scale = unweighted(depth);
            lines::<0>(scale, prediction, prediction, width, height, out);
        }
        Weighting::Explicit(weights) => {
            let scale = Scale {
                depth,
                log2_wd: u32::from(weights.log2_denominator) + (14 - depth),
                first: weight_of(weights, list),
                second: NONE,
            };
            lines::<2>(scale, prediction, prediction, width, height, out);
        }
    }
}

/// Writes the samples of a block that is predicted from both lists, in lines of 64.
#[tactic(auto, unfolding(crate::specs::Samples::sample, spec_inter_prediction::specs::Weighting::weighted_two))]
pub fn weigh_two(
    list0: &Prediction,
    list1: &Prediction,
    weighting: Weighting,
    depth: u32,
    width: usize,
    height: usize,
    out: &mut [u16; 4096],
)
    requires depth { IsDepth depth }
    requires weights { IsWeighting weighting }
    requires size { (width ≤ 64) × (height ≤ 64) }
    ensures { (x y : ℕ) → x < width → y < height
        → at out.new (64 * y + x)
        ≡ weighted_two depth weighting (at_z list0.now (64 * y + x)) (at_z list1.now (64 * y + x)) }
{
    if depth == 8 && is_plain_two(weighting) {
        let wide = in_eights(width);
        lines::<5>(unweighted(8), list0, list1, wide, height, out);
    } else {
        weigh_two_at(list0, list1, weighting, depth, width, height, out);
    }
}

/// The same by the definition, at any depth.
#[tactic(auto, unfolding(crate::specs::Samples::sample, spec_inter_prediction::specs::Weighting::weighted_two))]
fn weigh_two_at(
    list0: &Prediction,
    list1: &Prediction,
    weighting: Weighting,
    depth: u32,
    width: usize,
    height: usize,
    out: &mut [u16; 4096],
)
    requires depth { IsDepth depth }
    requires weights { IsWeighting weighting }
    requires size { (width ≤ 64) × (height ≤ 64) }
    ensures { (x y : ℕ) → x < width → y < height
        → at out.new (64 * y + x)
        ≡ weighted_two depth weighting (at_z list0.now (64 * y + x)) (at_z list1.now (64 * y + x)) }
{
    match weighting {
        Weighting::Default => lines::<1>(unweighted(depth), list0, list1, width, height, out),
        Weighting::Explicit(weights) => {
            let scale = Scale {
                depth,
                log2_wd: u32::from(weights.log2_denominator) + (14 - depth),
                first: weights.list0,
                second: weights.list1,
            };
            lines::<3>(scale, list0, list1, width, height, out);
        }
    }
}

/// A scale without weights.
fn unweighted(depth: u32) -> Scale
    requires { IsDepth depth }
    ensures depth { result.depth ≡ depth }
    ensures log2_wd { result.log2_wd ≤ 13 }
    ensures first { IsWeight result.first }
    ensures second { IsWeight result.second }
{
    Scale {
        depth,
        log2_wd: 14 - depth,
        first: NONE,
        second: NONE,
    }
}
