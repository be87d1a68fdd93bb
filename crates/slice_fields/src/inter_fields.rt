//! The fields of P and B slices (7.3.6.1, 7.3.6.2, 7.4.7.1, 7.4.7.2).

ghost use Rattle.std.specs.Prelude.{◌≡◌, ◌≤◌, IfOk, IfSome};
ghost use Rattle.header_fields.specs.Takes.{Takes};
ghost use Rattle.spec_formats.specs.Fields.{optional, repeated};
ghost use Rattle.spec_slice_headers.specs.Context.{ue_or};
ghost use Rattle.spec_slice_headers.specs.SliceFields.{inter_of};
ghost use Rattle.spec_slice_headers.specs.InterFields.{is_b, entries_1, list_entry, modification, collocated_minus1};
ghost use Rattle.spec_slice_headers.specs.InterFields.{collocated, has_weights, inter_fields};

use crate::context::{ceil_log2, flag_or, ue_or};
use crate::reference_rules::is_i;
use crate::weights::read_weights;
use header_fields::FieldReader;
use header_types::{FieldList, Pps};
use hv_base::Refusal;
use slice_types::{Collocated, InterFields, SliceType};
use std::alloc::Global;

/// Whether a slice is a B slice.
fn is_b(slice_type: SliceType) -> bool
    ensures { result ≡ is_b slice_type }
{
    matches!(slice_type, SliceType::B)
}

/// num_ref_idx_l1_active_minus1, which a B slice has.
fn read_l1_minus1<'a>(
    reader: &mut FieldReader<'a>,
    is_coded: bool,
    is_overridden: bool,
    default: u32,
) -> Result<Option<u32>, Refusal>
    requires { default ≤ 14 }
    ensures value { Takes (λ x. x) result reader.old reader.new (optional is_coded (ue_or is_overridden 14 default)) }
    ensures few { IfOk result (λ l1. IfSome l1 (λ minus1. minus1 ≤ 14)) }
{
    if !is_coded {
        return Ok(None);
    }
    Ok(Some(ue_or(reader, is_overridden, 14, default)?))
}

/// The entries of list 1: none in a P slice.
fn entries_1(l1_minus1: Option<u32>) -> u32
    requires { IfSome l1_minus1 (λ minus1. minus1 ≤ 14) }
    ensures value { result ≡ entries_1 l1_minus1 }
    ensures few { result ≤ 15 }
{
    match l1_minus1 {
        None => 0,
        Some(minus1) => minus1 + 1,
    }
}

/// list_entry_lX, below `total`, which is NumPicTotalCurr.
#[tactic(auto, unfolding(spec_slice_headers::specs::InterFields::list_entry))]
fn read_list_entry<'a>(reader: &mut FieldReader<'a>, total: u32) -> Result<u32, Refusal>
    ensures { Takes (λ x. x) result reader.old reader.new (list_entry total) }
{
    let entry = reader.u(ceil_log2(total))?;
    reader.ranged(entry < total)?;
    Ok(entry)
}

/// list_entry_lX of each entry.
#[tactic(auto, using(crate::proofs::Items::goes_on, crate::proofs::Items::ends))]
fn read_list_entries<'a>(
    alloc: Global,
    reader: &mut FieldReader<'a>,
    count: u32,
    total: u32,
) -> Result<FieldList<u32>, Refusal>
    ensures { Takes (λ x. x) result reader.old reader.new (repeated count (list_entry total)) }
{
    let mut entries = FieldList::new(alloc);
    for _ in 0..count {
        entries.push(read_list_entry(reader, total)?)?;
    }
    Ok(entries)
}

/// ref_pic_list_modification_flag_lX where it is coded, and the entries where it is 1.
#[tactic(auto, unfolding(spec_slice_headers::specs::InterFields::modification))]
fn read_modification<'a>(
    alloc: Global,
    reader: &mut FieldReader<'a>,
    is_coded: bool,
    total: u32,
    active: u32,
) -> Result<Option<FieldList<u32>>, Refusal>
    ensures { Takes (λ x. x) result reader.old reader.new (modification is_coded total active) }
{
    if !flag_or(reader, is_coded, false)? {
        return Ok(None);
    }
    Ok(Some(read_list_entries(alloc, reader, active, total)?))
}

/// How many entries the list with the collocated picture has, less 1.
fn collocated_minus1(from_l0: bool, l0_minus1: u32, l1_minus1: Option<u32>) -> u32
    ensures { result ≡ collocated_minus1 from_l0 l0_minus1 l1_minus1 }
{
    if from_l0 {
        l0_minus1
    } else {
        l1_minus1.unwrap_or(0)
    }
}

/// The collocated picture, where slice_temporal_mvp_enabled_flag is 1.
#[tactic(auto, unfolding(spec_slice_headers::specs::InterFields::collocated))]
fn read_collocated<'a>(
    reader: &mut FieldReader<'a>,
    is_coded: bool,
    slice_type: SliceType,
    l0_minus1: u32,
    l1_minus1: Option<u32>,
) -> Result<Option<Collocated>, Refusal>
    ensures { Takes (λ x. x) result reader.old reader.new
        (optional is_coded (collocated slice_type l0_minus1 l1_minus1)) }
{
    if !is_coded {
        return Ok(None);
    }
    let collocated_from_l0_flag = flag_or(reader, is_b(slice_type), true)?;
    let greatest = collocated_minus1(collocated_from_l0_flag, l0_minus1, l1_minus1);
    Ok(Some(Collocated {
        collocated_from_l0_flag,
        collocated_ref_idx: ue_or(reader, greatest > 0, greatest, 0)?,
    }))
}

/// Whether a slice of this type has explicit weights.
fn has_weights(slice_type: SliceType, pps: &Pps) -> bool
    ensures { result ≡ has_weights slice_type pps.now }
{
    let prediction = &pps.fields().prediction;
    if is_b(slice_type) {
        prediction.weighted_bipred_flag
    } else {
        prediction.weighted_pred_flag
    }
}

/// The fields of a slice that isn't an I slice, where `total` is NumPicTotalCurr and `is_temporal` is
/// slice_temporal_mvp_enabled_flag.
#[tactic(auto, unfolding(spec_slice_headers::specs::InterFields::inter_fields))]
pub fn read_inter_fields<'a>(
    alloc: Global,
    reader: &mut FieldReader<'a>,
    slice_type: SliceType,
    pps: &Pps,
    total: u32,
    is_temporal: bool,
) -> Result<Option<InterFields>, Refusal>
    ensures { Takes (λ x. x) result reader.old reader.new (inter_of slice_type pps.now total is_temporal) }
{
    if is_i(slice_type) {
        return Ok(None);
    }
    let fields = pps.fields();
    let is_b = is_b(slice_type);
    let is_overridden = reader.flag()?;
    let l0_default = fields.slice_defaults.num_ref_idx_l0_default_active_minus1;
    let l0_minus1 = ue_or(reader, is_overridden, 14, l0_default)?;
    let l1_default = fields.slice_defaults.num_ref_idx_l1_default_active_minus1;
    let l1_minus1 = read_l1_minus1(reader, is_b, is_overridden, l1_default)?;
    let active_1 = entries_1(l1_minus1);
    let is_weighted = has_weights(slice_type, pps);
    let is_modified = fields.lists_modification_present_flag && total > 1;
    Ok(Some(InterFields {
        num_ref_idx_active_override_flag: is_overridden,
        num_ref_idx_l0_active_minus1: l0_minus1,
        num_ref_idx_l1_active_minus1: l1_minus1,
        list_entry_l0: read_modification(alloc, reader, is_modified, total, l0_minus1 + 1)?,
        list_entry_l1: read_modification(alloc, reader, is_b && is_modified, total, active_1)?,
        mvd_l1_zero_flag: flag_or(reader, is_b, false)?,
        cabac_init_flag: flag_or(reader, fields.slice_defaults.cabac_init_present_flag, false)?,
        collocated: read_collocated(reader, is_temporal, slice_type, l0_minus1, l1_minus1)?,
        weights: read_weights(alloc, reader, is_weighted, l0_minus1 + 1, active_1)?,
        five_minus_max_num_merge_cand: reader.ue_to(4)?,
    }))
}
