//! The weights of a motion among those of its slice (8.5.3.3.4.3).

ghost use Rattle.std.specs.Prelude.{◌≡◌, ◌<◌};
ghost use Rattle.std.specs.List.{All};
ghost use Rattle.spec_inter_prediction.specs.Tables.{AreWeights, IsSliceWeighting, IsTable, component_weight};
ghost use Rattle.spec_inter_prediction.specs.Tables.{weight_at, weighting_of, weights_of};
ghost use Rattle.spec_inter_prediction.specs.Weighting.{IsWeight, IsWeighting, IsWeights};

use spec_inter_prediction::{
    ReferenceWeights, SliceWeighting, Weight, WeightTable, Weighting, Weights,
};

/// The weights of a component by the reference indices of both lists.
pub fn weighting_of(slice: &SliceWeighting, c: u8, first: u8, second: u8) -> Weighting
    requires { IsSliceWeighting slice.now }
    ensures value { result ≡ weighting_of slice.now c first second }
    ensures range { IsWeighting result }
{
    match slice {
        SliceWeighting::Default => Weighting::Default,
        SliceWeighting::Explicit(table) => {
            Weighting::Explicit(weights_of(table, c, first, second))
        }
    }
}

/// The same of a table.
#[tactic(auto, unfolding(spec_inter_prediction::specs::Tables::weights_of))]
fn weights_of(table: &WeightTable, c: u8, first: u8, second: u8) -> Weights
    requires { IsTable table.now }
    ensures value { result ≡ weights_of table.now c first second }
    ensures range { IsWeights result }
{
    Weights {
        log2_denominator: if c == 0 {
            table.luma_log2_denominator
        } else {
            table.chroma_log2_denominator
        },
        list0: weight_at(&table.list_0, first, c),
        list1: weight_at(&table.list_1, second, c),
    }
}

/// The weight of the picture with a reference index.
fn weight_at(list: &[ReferenceWeights; 16], ref_idx: u8, c: u8) -> Weight
    requires { All AreWeights list.now }
    ensures value { result ≡ weight_at list.now ref_idx c }
    ensures range { IsWeight result }
{
    if ref_idx < 16 {
        component_weight(list[usize::from(ref_idx)], c)
    } else {
        Weight {
            weight: 0,
            offset: 0,
        }
    }
}

/// That of a component.
fn component_weight(weights: ReferenceWeights, c: u8) -> Weight
    requires { AreWeights weights }
    ensures value { result ≡ component_weight weights c }
    ensures range { IsWeight result }
{
    match c {
        0 => weights.luma,
        1 => weights.cb,
        _ => weights.cr,
    }
}
