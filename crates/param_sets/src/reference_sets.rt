//! The reference pictures of a sequence parameter set (7.3.2.2, 7.4.3.2).

ghost use Rattle.std.specs.Prelude.{◌≡◌, ◌^◌, ◌<◌, ◌≤◌, List, [], All, IfOk, IfSome, length};
ghost use Rattle.header_fields.specs.Takes.{Takes};
ghost use Rattle.header_types.specs.ReferencePictures.{IsStRps};
ghost use Rattle.header_types.specs.SequenceParameterSets.{IsLongTerm};
ghost use Rattle.spec_formats.specs.Fields.{optional, repeated};
ghost use Rattle.spec_parameter_sets.specs.SequenceParameterSet.{sets_behind, short_term_ref_pic_sets};
ghost use Rattle.spec_parameter_sets.specs.SequenceParameterSet.{long_term_candidate, long_term_candidates};

use header_fields::FieldReader;
use header_types::{FieldList, LongTermCandidate, StRps};
use hv_base::Refusal;
use ref_picture_sets::read_st_rps;
use std::alloc::Global;

fn read_sets<'a>(
    alloc: Global,
    reader: &mut FieldReader<'a>,
    count: u32,
    greatest: u32,
) -> Result<FieldList<StRps>, Refusal>
    requires count { count ≤ 64 }
    requires greatest { greatest ≤ 15 }
    ensures value { Takes (λ x. x) result reader.old reader.new (sets_behind count count greatest []) }
    ensures few { IfOk result (λ sets. length sets ≤ 64) }
    ensures in_range { IfOk result (All (IsStRps 78)) }
{
    let mut sets = FieldList::new(alloc);
    for index in 0..count {
        let set = read_st_rps(alloc, reader, index, count, sets.as_slice(), greatest)?;
        sets.push(set)?;
    }
    Ok(sets)
}

#[tactic(auto, unfolding(spec_parameter_sets::specs::SequenceParameterSet::short_term_ref_pic_sets))]
pub(crate) fn read_short_term_sets<'a>(
    alloc: Global,
    reader: &mut FieldReader<'a>,
    greatest: u32,
) -> Result<FieldList<StRps>, Refusal>
    requires greatest { greatest ≤ 15 }
    ensures value { Takes (λ x. x) result reader.old reader.new (short_term_ref_pic_sets greatest) }
    ensures few { IfOk result (λ sets. length sets ≤ 64) }
    ensures in_range { IfOk result (All (IsStRps 78)) }
{
    let num_short_term_ref_pic_sets = reader.ue_to(64)?;
    read_sets(alloc, reader, num_short_term_ref_pic_sets, greatest)
}

#[tactic(auto, unfolding(spec_parameter_sets::specs::SequenceParameterSet::long_term_candidate))]
fn read_long_term_candidate<'a>(
    reader: &mut FieldReader<'a>,
    lsb_bits: u32,
) -> Result<LongTermCandidate, Refusal>
    requires { lsb_bits ≤ 16 }
    ensures value { Takes (λ x. x) result reader.old reader.new (long_term_candidate lsb_bits) }
    ensures in_range { IfOk result (λ c. c.lt_ref_pic_poc_lsb_sps < 2 ^ lsb_bits) }
{
    let lt_ref_pic_poc_lsb_sps = reader.u(lsb_bits)?;
    let used_by_curr_pic_lt_sps_flag = reader.flag()?;
    Ok(LongTermCandidate {
        lt_ref_pic_poc_lsb_sps,
        used_by_curr_pic_lt_sps_flag,
    })
}

fn read_candidates<'a>(
    alloc: Global,
    reader: &mut FieldReader<'a>,
    count: u32,
    lsb_bits: u32,
) -> Result<FieldList<LongTermCandidate>, Refusal>
    requires count { count ≤ 32 }
    requires lsb_bits { lsb_bits ≤ 16 }
    ensures value { Takes (λ x. x) result reader.old reader.new (repeated count (long_term_candidate lsb_bits)) }
    ensures in_range { IfOk result (IsLongTerm (2 ^ lsb_bits)) }
{
    let mut candidates = FieldList::new(alloc);
    for _ in 0..count {
        candidates.push(read_long_term_candidate(reader, lsb_bits)?)?;
    }
    Ok(candidates)
}

#[tactic(auto, unfolding(spec_parameter_sets::specs::SequenceParameterSet::long_term_candidates))]
pub(crate) fn read_long_term_candidates<'a>(
    alloc: Global,
    reader: &mut FieldReader<'a>,
    present: bool,
    lsb_bits: u32,
) -> Result<Option<FieldList<LongTermCandidate>>, Refusal>
    requires { lsb_bits ≤ 16 }
    ensures value { Takes (λ x. x) result reader.old reader.new (optional present (long_term_candidates lsb_bits)) }
    ensures in_range { IfOk result (λ candidates. IfSome candidates (IsLongTerm (2 ^ lsb_bits))) }
{
    if !present {
        return Ok(None);
    }
    let num_long_term_ref_pics_sps = reader.ue_to(32)?;
    Ok(Some(read_candidates(alloc, reader, num_long_term_ref_pics_sps, lsb_bits)?))
}
