//! pred_weight_table (7.3.6.3, 7.4.7.3).

ghost use Rattle.std.specs.Prelude.{◌≡◌, false, slice_index_or};
ghost use Rattle.std.specs.List.{range_with_len};
ghost use Rattle.header_fields.specs.Takes.{Takes};
ghost use Rattle.spec_formats.specs.Fields.{each, flag, optional, repeated};
ghost use Rattle.spec_slice_headers.specs.Weights.{luma_weight, chroma_weight, chroma_weights, entry_weights};
ghost use Rattle.spec_slice_headers.specs.Weights.{weights_at, list_weights, pred_weight_table};

use header_fields::FieldReader;
use header_types::FieldList;
use hv_base::Refusal;
use slice_types::{ChromaWeight, LumaWeight, PredWeightTable, RefWeights};
use std::alloc::Global;

/// The luma weight of an entry, where its luma_weight_flag is 1.
#[tactic(auto, unfolding(spec_slice_headers::specs::Weights::luma_weight))]
fn read_luma_weight<'a>(
    reader: &mut FieldReader<'a>,
    is_coded: bool,
) -> Result<Option<LumaWeight>, Refusal>
    ensures { Takes (λ x. x) result reader.old reader.new (optional is_coded luma_weight) }
{
    if !is_coded {
        return Ok(None);
    }
    Ok(Some(LumaWeight {
        delta_luma_weight: reader.se_within(128, 127)?,
        luma_offset: reader.se_within(128, 127)?,
    }))
}

/// The weight of one chroma component.
#[tactic(auto, unfolding(spec_slice_headers::specs::Weights::chroma_weight))]
fn read_chroma_weight<'a>(reader: &mut FieldReader<'a>) -> Result<ChromaWeight, Refusal>
    ensures { Takes (λ x. x) result reader.old reader.new chroma_weight }
{
    Ok(ChromaWeight {
        delta_chroma_weight: reader.se_within(128, 127)?,
        delta_chroma_offset: reader.se_within(512, 511)?,
    })
}

/// The weights of Cb and of Cr, where the entry's chroma_weight_flag is 1.
#[tactic(auto, unfolding(spec_slice_headers::specs::Weights::chroma_weights))]
fn read_chroma_weights<'a>(
    reader: &mut FieldReader<'a>,
    is_coded: bool,
) -> Result<Option<(ChromaWeight, ChromaWeight)>, Refusal>
    ensures { Takes (λ x. x) result reader.old reader.new (optional is_coded chroma_weights) }
{
    if !is_coded {
        return Ok(None);
    }
    let cb = read_chroma_weight(reader)?;
    let cr = read_chroma_weight(reader)?;
    Ok(Some((cb, cr)))
}

/// The weights of one entry of a reference picture list, as its two flags say.
#[tactic(auto, unfolding(spec_slice_headers::specs::Weights::entry_weights))]
fn read_entry_weights<'a>(
    reader: &mut FieldReader<'a>,
    has_luma: bool,
    has_chroma: bool,
) -> Result<RefWeights, Refusal>
    ensures { Takes (λ x. x) result reader.old reader.new (entry_weights has_luma has_chroma) }
{
    Ok(RefWeights {
        luma: read_luma_weight(reader, has_luma)?,
        chroma: read_chroma_weights(reader, has_chroma)?,
    })
}

/// So many flags.
#[tactic(auto, using(crate::proofs::Items::goes_on, crate::proofs::Items::ends))]
fn read_flags<'a>(
    alloc: Global,
    reader: &mut FieldReader<'a>,
    count: u32,
) -> Result<FieldList<bool>, Refusal>
    ensures { Takes (λ x. x) result reader.old reader.new (repeated count flag) }
{
    let mut flags = FieldList::new(alloc);
    for _ in 0..count {
        flags.push(reader.flag()?)?;
    }
    Ok(flags)
}

/// The flag of an entry, 0 where there is none.
fn flag_at(flags: &[bool], i: u32) -> bool
    ensures { result ≡ slice_index_or flags.now i false }
{
    match flags.get(i as usize) {
        Some(flag) => *flag,
        None => false,
    }
}

/// The weights of so many entries, as their flags say.
#[tactic(auto, using(crate::proofs::Items::ends_by))]
fn read_each_weights<'a>(
    alloc: Global,
    reader: &mut FieldReader<'a>,
    lumas: &[bool],
    chromas: &[bool],
    count: u32,
) -> Result<FieldList<RefWeights>, Refusal>
    ensures { Takes (λ x. x) result reader.old reader.new
        (each (weights_at lumas.now chromas.now) (range_with_len 0 count)) }
{
    let mut weights = FieldList::new(alloc);
    for i in 0..count {
        let has_luma = flag_at(lumas, i);
        let has_chroma = flag_at(chromas, i);
        let entry = read_entry_weights(reader, has_luma, has_chroma)?;
        weights.push(entry)?;
    }
    Ok(weights)
}

/// The weights of a list of so many entries.
#[tactic(auto, unfolding(spec_slice_headers::specs::Weights::list_weights))]
fn read_list_weights<'a>(
    alloc: Global,
    reader: &mut FieldReader<'a>,
    active: u32,
) -> Result<FieldList<RefWeights>, Refusal>
    ensures { Takes (λ x. x) result reader.old reader.new (list_weights active) }
{
    let lumas = read_flags(alloc, reader, active)?;
    let chromas = read_flags(alloc, reader, active)?;
    read_each_weights(alloc, reader, lumas.as_slice(), chromas.as_slice(), active)
}

/// The table of lists of so many active entries, 0 of list 1 in a P slice, where the slice has explicit weights.
#[tactic(auto, unfolding(spec_slice_headers::specs::Weights::pred_weight_table))]
pub fn read_weights<'a>(
    alloc: Global,
    reader: &mut FieldReader<'a>,
    is_coded: bool,
    active_0: u32,
    active_1: u32,
) -> Result<Option<PredWeightTable>, Refusal>
    ensures { Takes (λ x. x) result reader.old reader.new (optional is_coded (pred_weight_table active_0 active_1)) }
{
    if !is_coded {
        return Ok(None);
    }
    let luma_log2_weight_denom = reader.ue_to(7)?;
    let delta_chroma_log2_weight_denom = reader.se()?;
    let chroma_log2_weight_denom = i64::from(luma_log2_weight_denom)
        + i64::from(delta_chroma_log2_weight_denom);
    reader.ranged(0 <= chroma_log2_weight_denom && chroma_log2_weight_denom <= 7)?;
    Ok(Some(PredWeightTable {
        luma_log2_weight_denom,
        delta_chroma_log2_weight_denom,
        l0: read_list_weights(alloc, reader, active_0)?,
        l1: read_list_weights(alloc, reader, active_1)?,
    }))
}
