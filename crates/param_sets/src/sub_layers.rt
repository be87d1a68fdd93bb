//! Sub-layers in a sequence parameter set, with their buffering and reordering (7.3.2.2, 7.4.3.2).

ghost use Rattle.std.specs.Prelude.{◌≡◌, ◌≤◌, List, All, IfOk, length};
ghost use Rattle.header_fields.specs.Takes.{Takes};
ghost use Rattle.header_types.specs.SequenceParameterSets.{IsSubLayerOrdering, highest_ordering};
ghost use Rattle.spec_formats.specs.Fields.{repeated};
ghost use Rattle.spec_parameter_sets.specs.SequenceParameterSet.{sub_layer_ordering, ordered_sub_layers, sub_layers};

use header_fields::FieldReader;
use header_types::{FieldList, SubLayerOrdering};
use hv_base::Refusal;
use std::alloc::Global;

#[tactic(auto, unfolding(spec_parameter_sets::specs::SequenceParameterSet::sub_layers))]
pub(crate) fn read_max_sub_layers_minus1<'a>(reader: &mut FieldReader<'a>) -> Result<u32, Refusal>
    ensures value { Takes (λ x. x) result reader.old reader.new sub_layers }
    ensures in_range { IfOk result (λ x. x ≤ 6) }
{
    let minus1 = reader.u(3)?;
    reader.ranged(minus1 <= 6)?;
    Ok(minus1)
}

#[tactic(auto, unfolding(spec_parameter_sets::specs::SequenceParameterSet::sub_layer_ordering))]
fn read_sub_layer_ordering<'a>(reader: &mut FieldReader<'a>) -> Result<SubLayerOrdering, Refusal>
    ensures value { Takes (λ x. x) result reader.old reader.new sub_layer_ordering }
    ensures in_range { IfOk result IsSubLayerOrdering }
{
    let max_dec_pic_buffering_minus1 = reader.ue_to(15)?;
    let max_num_reorder_pics = reader.ue_to(max_dec_pic_buffering_minus1)?;
    let max_latency_increase_plus1 = reader.ue()?;
    Ok(SubLayerOrdering {
        max_dec_pic_buffering_minus1,
        max_num_reorder_pics,
        max_latency_increase_plus1,
    })
}

pub(crate) fn read_orderings<'a>(
    alloc: Global,
    reader: &mut FieldReader<'a>,
    count: u32,
) -> Result<FieldList<SubLayerOrdering>, Refusal>
    ensures value { Takes (λ x. x) result reader.old reader.new (repeated count sub_layer_ordering) }
    ensures len { IfOk result (λ orderings. length orderings ≡ count) }
    ensures in_range { IfOk result (All IsSubLayerOrdering) }
{
    let mut orderings = FieldList::new(alloc);
    for _ in 0..count {
        orderings.push(read_sub_layer_ordering(reader)?)?;
    }
    Ok(orderings)
}

/// For how many sub-layers buffering and reordering are told.
#[tactic(auto, unfolding(spec_parameter_sets::specs::SequenceParameterSet::ordered_sub_layers))]
pub(crate) fn ordered_sub_layers(present: bool, max_sub_layers_minus1: u32) -> u32
    requires { max_sub_layers_minus1 ≤ 6 }
    ensures value { result ≡ ordered_sub_layers present max_sub_layers_minus1 }
    ensures some { 1 ≤ result }
{
    if present {
        max_sub_layers_minus1 + 1
    } else {
        1
    }
}

/// sps_max_dec_pic_buffering_minus1 of the highest sub-layer.
#[tactic(auto, unfolding(header_types::specs::SequenceParameterSets::highest_ordering))]
pub(crate) fn greatest_buffering(orderings: &[SubLayerOrdering]) -> u32
    requires some { 1 ≤ length orderings.now }
    requires in_range { All IsSubLayerOrdering orderings.now }
    ensures value { result ≡ (highest_ordering orderings.now).max_dec_pic_buffering_minus1 }
    ensures in_range { result ≤ 15 }
{
    orderings[orderings.len() - 1].max_dec_pic_buffering_minus1
}
