//! The fields of a slice that say its picture's order count and the pictures kept for reference (7.3.6.1, 7.4.7.1).

ghost use Rattle.std.specs.Prelude.{◌≡◌, ◌+◌, ◌≤◌, IfOk, length};
ghost use Rattle.std.specs.List.{range_with_len};
ghost use Rattle.header_fields.specs.Takes.{Takes};
ghost use Rattle.header_types.specs.ReferencePictures.{IsStRps};
ghost use Rattle.header_types.specs.SequenceParameterSets.{max_lsb};
ghost use Rattle.spec_formats.specs.Fields.{each};
ghost use Rattle.spec_slice_headers.specs.References.{coded_short_term, named_short_term, short_term, msb_cycle};
ghost use Rattle.spec_slice_headers.specs.References.{named_long_term, coded_long_term, long_term_entry, long_term};
ghost use Rattle.spec_slice_headers.specs.References.{coded_references, reference_fields};
ghost use Rattle.slice_fields.specs.Ranges.{AreReferences};
ghost use Rattle.slice_fields.specs.Views.{short_term_of};

use crate::context::{ceil_log2, ue_or};
use header_fields::FieldReader;
use header_types::{FieldList, LongTermCandidate, LongTermRef, Sps, StRps};
use hv_base::Refusal;
use ref_picture_sets::{is_idr, read_st_rps};
use slice_types::{LongTermRefs, ReferenceFields};
use std::alloc::Global;

/// Which short-term set a slice has.
#[derive(Drop)]
pub struct ShortTermFields {
    /// Whether the set is one of the sequence parameter set, and not coded in the header.
    pub short_term_ref_pic_set_sps_flag: bool,
    /// Its number among those of the sequence parameter set, from 0: 0 where it isn't coded.
    pub short_term_ref_pic_set_idx: u32,
    /// The set, coded or named.
    pub short_term_ref_pic_set: StRps,
}

/// A set that stands in the header itself.
#[tactic(auto, unfolding(spec_slice_headers::specs::References::coded_short_term))]
fn read_coded_short_term<'a>(
    alloc: Global,
    reader: &mut FieldReader<'a>,
    sps: &Sps,
) -> Result<ShortTermFields, Refusal>
    ensures value { Takes short_term_of result reader.old reader.new (coded_short_term sps.now) }
    ensures near { IfOk result (λ s. IsStRps 79 s.short_term_ref_pic_set) }
{
    let sets = sps.fields().references.short_term_ref_pic_sets.as_slice();
    let count = sets.len() as u32;
    let max = sps.highest_ordering().max_dec_pic_buffering_minus1;
    Ok(ShortTermFields {
        short_term_ref_pic_set_sps_flag: false,
        short_term_ref_pic_set_idx: 0,
        short_term_ref_pic_set: read_st_rps(alloc, reader, count, count, sets, max)?,
    })
}

/// A set of the sequence parameter set, by its number there.
#[tactic(auto, unfolding(spec_slice_headers::specs::References::named_short_term))]
fn read_named_short_term<'a>(
    reader: &mut FieldReader<'a>,
    sps: &Sps,
) -> Result<ShortTermFields, Refusal>
    ensures value { Takes short_term_of result reader.old reader.new (named_short_term sps.now) }
    ensures near { IfOk result (λ s. IsStRps 79 s.short_term_ref_pic_set) }
{
    let sets = sps.fields().references.short_term_ref_pic_sets.as_slice();
    let count = sets.len() as u32;
    let short_term_ref_pic_set_idx = reader.u(ceil_log2(count))?;
    reader.ranged(short_term_ref_pic_set_idx < count)?;
    Ok(ShortTermFields {
        short_term_ref_pic_set_sps_flag: true,
        short_term_ref_pic_set_idx,
        short_term_ref_pic_set: sets[short_term_ref_pic_set_idx as usize].clone()?,
    })
}

/// The short-term set of a slice.
#[tactic(auto, unfolding(spec_slice_headers::specs::References::short_term))]
fn read_short_term<'a>(
    alloc: Global,
    reader: &mut FieldReader<'a>,
    sps: &Sps,
) -> Result<ShortTermFields, Refusal>
    ensures value { Takes short_term_of result reader.old reader.new (short_term sps.now) }
    ensures near { IfOk result (λ s. IsStRps 79 s.short_term_ref_pic_set) }
{
    if reader.flag()? {
        read_named_short_term(reader, sps)
    } else {
        read_coded_short_term(alloc, reader, sps)
    }
}

/// delta_poc_msb_present_flag, and delta_poc_msb_cycle_lt where it is 1.
#[tactic(auto, unfolding(spec_slice_headers::specs::References::msb_cycle))]
fn read_msb_cycle<'a>(reader: &mut FieldReader<'a>) -> Result<Option<u32>, Refusal>
    ensures { Takes (λ x. x) result reader.old reader.new msb_cycle }
{
    Ok(if reader.flag()? {
        Some(reader.ue()?)
    } else {
        None
    })
}

/// A long-term entry that names a candidate of the sequence parameter set.
#[tactic(auto, unfolding(spec_slice_headers::specs::References::named_long_term))]
fn read_named_long_term<'a>(
    reader: &mut FieldReader<'a>,
    candidates: &[LongTermCandidate],
) -> Result<LongTermRef, Refusal>
    requires { length candidates.now ≤ 32 }
    ensures { Takes (λ x. x) result reader.old reader.new (named_long_term candidates.now) }
{
    let count = candidates.len() as u32;
    let lt_idx_sps = reader.u(ceil_log2(count))?;
    reader.ranged(lt_idx_sps < count)?;
    let candidate = candidates[lt_idx_sps as usize];
    Ok(LongTermRef {
        lt_idx_sps: Some(lt_idx_sps),
        poc_lsb_lt: candidate.lt_ref_pic_poc_lsb_sps,
        used_by_curr_pic_lt_flag: candidate.used_by_curr_pic_lt_sps_flag,
        delta_poc_msb_cycle_lt: read_msb_cycle(reader)?,
    })
}

/// A long-term entry that stands in the header itself.
#[tactic(auto, unfolding(spec_slice_headers::specs::References::coded_long_term))]
fn read_coded_long_term<'a>(reader: &mut FieldReader<'a>, sps: &Sps) -> Result<LongTermRef, Refusal>
    ensures { Takes (λ x. x) result reader.old reader.new (coded_long_term sps.now) }
{
    Ok(LongTermRef {
        lt_idx_sps: None,
        poc_lsb_lt: reader.u(sps.fields().order.log2_max_pic_order_cnt_lsb_minus4 + 4)?,
        used_by_curr_pic_lt_flag: reader.flag()?,
        delta_poc_msb_cycle_lt: read_msb_cycle(reader)?,
    })
}

/// The long-term entry of a number.
fn read_long_term_entry<'a>(
    reader: &mut FieldReader<'a>,
    sps: &Sps,
    candidates: &[LongTermCandidate],
    num_long_term_sps: u32,
    i: u32,
) -> Result<LongTermRef, Refusal>
    requires { length candidates.now ≤ 32 }
    ensures { Takes (λ x. x) result reader.old reader.new (long_term_entry sps.now candidates.now num_long_term_sps i) }
{
    if i < num_long_term_sps {
        read_named_long_term(reader, candidates)
    } else {
        read_coded_long_term(reader, sps)
    }
}

/// So many long-term entries, of which the first ones name candidates of the sequence parameter set.
#[tactic(auto, using(crate::proofs::Items::ends_by))]
fn read_long_term_entries<'a>(
    alloc: Global,
    reader: &mut FieldReader<'a>,
    sps: &Sps,
    candidates: &[LongTermCandidate],
    num_long_term_sps: u32,
    count: u32,
) -> Result<FieldList<LongTermRef>, Refusal>
    requires { length candidates.now ≤ 32 }
    ensures value { Takes (λ x. x) result reader.old reader.new
        (each (long_term_entry sps.now candidates.now num_long_term_sps) (range_with_len 0 count)) }
    ensures count { IfOk result (λ entries. length entries ≡ count) }
{
    let mut entries = FieldList::new(alloc);
    for i in 0..count {
        let entry = read_long_term_entry(reader, sps, candidates, num_long_term_sps, i)?;
        entries.push(entry)?;
    }
    Ok(entries)
}

/// The long-term entries, where the sequence parameter set allows any.
#[tactic(auto, unfolding(spec_slice_headers::specs::References::long_term, spec_slice_headers::specs::References::long_term_of))]
fn read_long_term<'a>(
    alloc: Global,
    reader: &mut FieldReader<'a>,
    sps: &Sps,
    set: &StRps,
) -> Result<LongTermRefs, Refusal>
    requires set { IsStRps 79 set.now }
    ensures value { Takes (λ x. x) result reader.old reader.new
        (long_term sps.now set.now sps.now.references.long_term_ref_pics) }
    ensures few { IfOk result (λ long. length long.entries ≤ 33) }
{
    let Some(candidates) = &sps.fields().references.long_term_ref_pics else {
        return Ok(LongTermRefs {
            num_long_term_sps: 0,
            entries: FieldList::new(alloc),
        });
    };
    let candidates = candidates.as_slice();
    let most = candidates.len() as u32;
    let num_long_term_sps = ue_or(reader, most > 0, most, 0)?;
    let num_long_term_pics = reader.ue()?;
    let short = (set.negative.len() + set.positive.len()) as u64;
    let all = short + u64::from(num_long_term_sps) + u64::from(num_long_term_pics);
    reader.ranged(all <= u64::from(sps.highest_ordering().max_dec_pic_buffering_minus1))?;
    let count = num_long_term_sps + num_long_term_pics;
    Ok(LongTermRefs {
        num_long_term_sps,
        entries: read_long_term_entries(alloc, reader, sps, candidates, num_long_term_sps, count)?,
    })
}

/// The reference fields of a picture that is no instantaneous decoding refresh picture.
#[tactic(auto, unfolding(spec_slice_headers::specs::References::coded_references))]
fn read_coded_references<'a>(
    alloc: Global,
    reader: &mut FieldReader<'a>,
    sps: &Sps,
) -> Result<ReferenceFields, Refusal>
    ensures value { Takes (λ x. x) result reader.old reader.new (coded_references sps.now) }
    ensures in_range { IfOk result (λ references. AreReferences (max_lsb sps.now) references) }
{
    let lsb_bits = sps.fields().order.log2_max_pic_order_cnt_lsb_minus4 + 4;
    let slice_pic_order_cnt_lsb = reader.u(lsb_bits)?;
    let short = read_short_term(alloc, reader, sps)?;
    let long_term = read_long_term(alloc, reader, sps, &short.short_term_ref_pic_set)?;
    Ok(ReferenceFields {
        slice_pic_order_cnt_lsb,
        short_term_ref_pic_set_sps_flag: short.short_term_ref_pic_set_sps_flag,
        short_term_ref_pic_set_idx: short.short_term_ref_pic_set_idx,
        short_term_ref_pic_set: short.short_term_ref_pic_set,
        long_term,
    })
}

/// The reference fields of a slice: an instantaneous decoding refresh picture refers to nothing.
#[tactic(auto, unfolding(spec_slice_headers::specs::References::reference_fields))]
pub fn read_references<'a>(
    alloc: Global,
    reader: &mut FieldReader<'a>,
    nal_type: u8,
    sps: &Sps,
) -> Result<ReferenceFields, Refusal>
    ensures value { Takes (λ x. x) result reader.old reader.new (reference_fields nal_type sps.now) }
    ensures in_range { IfOk result (λ references. AreReferences (max_lsb sps.now) references) }
{
    if !is_idr(nal_type) {
        return read_coded_references(alloc, reader, sps);
    }
    Ok(ReferenceFields {
        slice_pic_order_cnt_lsb: 0,
        short_term_ref_pic_set_sps_flag: false,
        short_term_ref_pic_set_idx: 0,
        short_term_ref_pic_set: StRps {
            negative: FieldList::new(alloc),
            positive: FieldList::new(alloc),
        },
        long_term: LongTermRefs {
            num_long_term_sps: 0,
            entries: FieldList::new(alloc),
        },
    })
}
