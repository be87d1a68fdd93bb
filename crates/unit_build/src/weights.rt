//! The weights of a slice's reference pictures (7.4.7.3).

ghost use Rattle.std.specs.Prelude.{◌≡◌, ◌<◌, ◌≤◌, ◌^◌, pos, negsuc, ◌≤ℤ◌, ◌+ℤ◌, ◌-ℤ◌, ◌*ℤ◌};
ghost use Rattle.std.specs.Int.{int_shr};
ghost use Rattle.spec_inter_prediction.specs.Tables.{AreWeights, IsSliceWeighting, IsTable};
ghost use Rattle.spec_inter_prediction.specs.Weighting.{IsWeight};
ghost use Rattle.spec_picture_build.specs.Weights.{cb_weight, chroma_denominator, chroma_offset, chroma_weight};
ghost use Rattle.spec_picture_build.specs.Weights.{cr_weight, luma_denominator, luma_weight, reference_weights};
ghost use Rattle.spec_picture_build.specs.Weights.{slice_weighting, weight_by, weight_table, weights_at, weights_in};
ghost use Rattle.std.specs.List.{All};

use slice_types::{ChromaWeight, InterFields, LumaWeight, PredWeightTable, RefWeights};
use spec_inter_prediction::{ReferenceWeights, SliceWeighting, Weight, WeightTable};

/// What stands behind the last entry of a list.
const NO_WEIGHT: Weight = Weight {
    weight: 0,
    offset: 0,
};

const NO_WEIGHTS: ReferenceWeights = ReferenceWeights {
    luma: NO_WEIGHT,
    cb: NO_WEIGHT,
    cr: NO_WEIGHT,
};

/// The weights of a slice, by its fields of P and B slices.
#[tactic(auto, unfolding(spec_picture_build::specs::Weights::slice_weighting))]
pub(crate) fn slice_weighting(inter: &Option<InterFields>) -> SliceWeighting
    ensures value { result ≡ slice_weighting inter.now }
    ensures range { IsSliceWeighting result }
{
    match inter {
        None => SliceWeighting::Default,
        Some(fields) => match &fields.weights {
            None => SliceWeighting::Default,
            Some(table) => SliceWeighting::Explicit(weight_table(table)),
        },
    }
}

/// By its table.
#[tactic(auto, unfolding(spec_picture_build::specs::Weights::weight_table))]
fn weight_table(table: &PredWeightTable) -> WeightTable
    ensures value { result ≡ weight_table table.now }
    ensures range { IsTable result }
{
    let luma = luma_denominator(table);
    let chroma = chroma_denominator(table);
    WeightTable {
        luma_log2_denominator: luma,
        chroma_log2_denominator: chroma,
        list_0: weights_in(luma, chroma, table.l0.as_slice()),
        list_1: weights_in(luma, chroma, table.l1.as_slice()),
    }
}

/// luma_log2_weight_denom.
fn luma_denominator(table: &PredWeightTable) -> u8
    ensures value { result ≡ luma_denominator table.now }
    ensures few { result ≤ 7 }
{
    table.luma_log2_weight_denom.min(7) as u8
}

/// ChromaLog2WeightDenom.
fn chroma_denominator(table: &PredWeightTable) -> u8
    ensures value { result ≡ chroma_denominator table.now }
    ensures few { result ≤ 7 }
{
    let sum = i64::from(table.luma_log2_weight_denom)
        + i64::from(table.delta_chroma_log2_weight_denom);
    sum.clamp(0, 7) as u8
}

/// A list of 16 entries.
fn weights_in(luma: u8, chroma: u8, list: &[RefWeights]) -> [ReferenceWeights; 16]
    requires luma { luma ≤ 7 }
    requires chroma { chroma ≤ 7 }
    ensures value { result ≡ weights_in luma chroma list.now }
    ensures range { All AreWeights result }
{
    let mut all = [NO_WEIGHTS; 16];
    for k in 0..16 {
        all[k] = weights_at(luma, chroma, list, k);
    }
    all
}

/// The entry with this number.
fn weights_at(luma: u8, chroma: u8, list: &[RefWeights], k: usize) -> ReferenceWeights
    requires luma { luma ≤ 7 }
    requires chroma { chroma ≤ 7 }
    ensures value { result ≡ weights_at luma chroma list.now k }
    ensures range { AreWeights result }
{
    if k < list.len() {
        reference_weights(luma, chroma, list[k])
    } else {
        NO_WEIGHTS
    }
}

/// The weights of a reference picture.
fn reference_weights(luma: u8, chroma: u8, weights: RefWeights) -> ReferenceWeights
    requires luma { luma ≤ 7 }
    requires chroma { chroma ≤ 7 }
    ensures value { result ≡ reference_weights luma chroma weights }
    ensures range { AreWeights result }
{
    ReferenceWeights {
        luma: luma_weight(luma, weights.luma),
        cb: cb_weight(chroma, weights.chroma),
        cr: cr_weight(chroma, weights.chroma),
    }
}

/// LumaWeightLX and luma_offset_lX.
fn luma_weight(denominator: u8, coded: Option<LumaWeight>) -> Weight
    requires { denominator ≤ 7 }
    ensures value { result ≡ luma_weight denominator coded }
    ensures range { IsWeight result }
{
    match coded {
        None => Weight {
            weight: weight_by(denominator, 0),
            offset: 0,
        },
        Some(coded) => Weight {
            weight: weight_by(denominator, coded.delta_luma_weight),
            offset: coded.luma_offset.clamp(-128, 127) as i8,
        },
    }
}

/// ChromaWeightLX and ChromaOffsetLX of Cb.
fn cb_weight(denominator: u8, coded: Option<(ChromaWeight, ChromaWeight)>) -> Weight
    requires { denominator ≤ 7 }
    ensures value { result ≡ cb_weight denominator coded }
    ensures range { IsWeight result }
{
    match coded {
        None => Weight {
            weight: weight_by(denominator, 0),
            offset: 0,
        },
        Some(coded) => chroma_weight(denominator, coded.0),
    }
}

/// Those of Cr.
fn cr_weight(denominator: u8, coded: Option<(ChromaWeight, ChromaWeight)>) -> Weight
    requires { denominator ≤ 7 }
    ensures value { result ≡ cr_weight denominator coded }
    ensures range { IsWeight result }
{
    match coded {
        None => Weight {
            weight: weight_by(denominator, 0),
            offset: 0,
        },
        Some(coded) => chroma_weight(denominator, coded.1),
    }
}

/// Those of a component whose flag is 1.
fn chroma_weight(denominator: u8, coded: ChromaWeight) -> Weight
    requires { denominator ≤ 7 }
    ensures value { result ≡ chroma_weight denominator coded }
    ensures range { IsWeight result }
{
    let weight = weight_by(denominator, coded.delta_chroma_weight);
    Weight {
        weight,
        offset: chroma_offset(denominator, weight, coded.delta_chroma_offset),
    }
}

/// 1, and what differs from it, in units of 2^-`denominator`.
fn weight_by(denominator: u8, delta: i32) -> i16
    requires { denominator ≤ 7 }
    ensures value { result ≡ weight_by denominator delta }
    ensures range { (negsuc 127 ≤ℤ result) × (result ≤ℤ pos 255) }
{
    (i64::from(one(denominator)) + i64::from(delta)).clamp(-128, 255) as i16
}

/// 1 in those units.
fn one(denominator: u8) -> u32
    requires { denominator ≤ 7 }
    ensures { result ≡ 2 ^ denominator }
{
    1 << denominator
}

/// ChromaOffsetLX by ChromaWeightLX.
fn chroma_offset(denominator: u8, weight: i16, delta: i32) -> i8
    requires { denominator ≤ 7 }
    ensures { result ≡ chroma_offset denominator weight delta }
{
    shifted(delta, half_range(denominator, weight)).clamp(-128, 127) as i8
}

/// The offset of such a delta before it is held.
fn shifted(delta: i32, half: i32) -> i64
    ensures { result ≡ pos 128 +ℤ delta -ℤ half }
{
    128 + i64::from(delta) - i64::from(half)
}

/// 128 times a weight.
fn half_range(denominator: u8, weight: i16) -> i32
    requires { denominator ≤ 7 }
    ensures { result ≡ int_shr (pos 128 *ℤ weight) denominator }
{
    (128 * i32::from(weight)) >> denominator
}
