//! Short-term reference picture sets that are predicted from another set (7.3.7, 7.4.8).

ghost use Rattle.std.specs.Prelude.{◌≡◌, ◌+◌, ◌*◌, ◌≤◌, ◌++◌, nat_abs, reverse, All, IfOk, OnOk};
ghost use Rattle.header_fields.specs.Takes.{Takes};
ghost use Rattle.header_types.specs.declared.short_term_set.ShortTermRef.{ShortTermRef};
ghost use Rattle.header_types.specs.ReferencePictures.{IsStRps};
ghost use Rattle.spec_reference_pictures.specs.ShortTermSets.{use_delta, use_flags, moved_entry, moved, sides};
ghost use Rattle.spec_reference_pictures.specs.ShortTermSets.{moved_set, delta_idx_minus1, source_at, predicted_set};
ghost use Rattle.ref_picture_sets.specs.Parts.{at_most_16, with_itself};

use crate::short_term_explicit::signed;
use header_fields::FieldReader;
use header_types::{FieldList, ShortTermRef, StRps};
use hv_base::Refusal;
use std::alloc::{AllocError, Global};

/// use_delta_flag, which is 1 where an entry is used.
#[tactic(auto, unfolding(spec_reference_pictures::specs::ShortTermSets::use_delta))]
fn use_delta<'a>(reader: &mut FieldReader<'a>, used: bool) -> Result<bool, Refusal>
    ensures { Takes (λ x. x) result reader.old reader.new (use_delta used) }
{
    if used {
        return Ok(true);
    }
    reader.flag()
}

/// used_by_curr_pic_flag and use_delta_flag.
#[tactic(auto, unfolding(spec_reference_pictures::specs::ShortTermSets::use_flags))]
fn use_flags<'a>(reader: &mut FieldReader<'a>) -> Result<(bool, bool), Refusal>
    ensures { Takes (λ x. x) result reader.old reader.new use_flags }
{
    let used_by_curr_pic_flag = reader.flag()?;
    let use_delta_flag = use_delta(reader, used_by_curr_pic_flag)?;
    Ok((used_by_curr_pic_flag, use_delta_flag))
}

/// Adds an entry, moved by `delta`, where it is in use.
#[tactic(auto, unfolding(spec_reference_pictures::specs::ShortTermSets::moved_entry))]
fn add_moved(
    entries: &mut Vec<ShortTermRef>,
    delta: i32,
    entry: ShortTermRef,
    flags: (bool, bool),
) -> Result<(), AllocError>
    requires near { nat_abs entry.delta_poc ≤ 32768 * 78 }
    requires small { nat_abs delta ≤ 32768 }
    ensures { OnOk result (entries.new.items ≡ entries.old.items ++ moved_entry delta entry flags) }
{
    let (used, use_delta) = flags;
    if use_delta {
        let delta_poc = entry.delta_poc + delta;
        entries.push(ShortTermRef { delta_poc, used })?;
    }
    Ok(())
}

/// Those of `source` that are in use, each moved by `delta`.
fn read_moved<'a>(
    alloc: Global,
    reader: &mut FieldReader<'a>,
    delta: i32,
    source: &[ShortTermRef],
) -> Result<Vec<ShortTermRef>, Refusal>
    requires near { All (λ (r : ShortTermRef). nat_abs r.delta_poc ≤ 32768 * 78) source.now }
    requires small { nat_abs delta ≤ 32768 }
    ensures { Takes (λ v. v.items) result reader.old reader.new (moved delta source.now) }
{
    let mut entries = Vec::new(alloc);
    for entry in source {
        let flags = use_flags(reader)?;
        add_moved(&mut entries, delta, *entry, flags)?;
    }
    Ok(entries)
}

/// The entries of a set, the highest first.
fn joined(
    positive: Vec<ShortTermRef>,
    own: &[ShortTermRef],
    negative: &[ShortTermRef],
) -> Result<Vec<ShortTermRef>, AllocError>
    ensures { IfOk result (λ v. v.items ≡ reverse positive.items ++ (own.now ++ negative.now)) }
{
    let mut falling = positive;
    falling.reverse();
    falling.extend_from_slice(own)?;
    falling.extend_from_slice(negative)?;
    Ok(falling)
}

/// The entries below 0 and those above 0, the nearest first, from those of a set, the highest first.
#[tactic(auto, unfolding(spec_reference_pictures::specs::ShortTermSets::sides))]
fn sides(alloc: Global, falling: Vec<ShortTermRef>) -> Result<StRps, AllocError>
    ensures { IfOk result (λ s. s ≡ sides falling.items) }
{
    let mut negative = Vec::from_slice(alloc, falling.as_slice())?;
    negative.retain(|entry| entry.delta_poc < 0);
    let mut positive = falling;
    positive.retain(|entry| entry.delta_poc > 0);
    positive.reverse();
    Ok(StRps {
        negative: FieldList::from_items(negative),
        positive: FieldList::from_items(positive),
    })
}

/// The set that becomes of these entries and of the picture itself.
#[tactic(auto, unfolding(spec_reference_pictures::specs::ShortTermSets::moved_set))]
fn read_moved_set<'a>(
    alloc: Global,
    reader: &mut FieldReader<'a>,
    negative: &[ShortTermRef],
    positive: &[ShortTermRef],
    delta: i32,
) -> Result<StRps, Refusal>
    requires negative { All (λ (r : ShortTermRef). nat_abs r.delta_poc ≤ 32768 * 78) negative.now }
    requires positive { All (λ (r : ShortTermRef). nat_abs r.delta_poc ≤ 32768 * 78) positive.now }
    requires small { nat_abs delta ≤ 32768 }
    ensures { Takes (λ x. x) result reader.old reader.new
        (moved_set (record { negative = negative.now; positive = positive.now }) delta) }
{
    let negative = read_moved(alloc, reader, delta, negative)?;
    let positive = read_moved(alloc, reader, delta, positive)?;
    read_with_itself(alloc, reader, delta, negative, positive)
}

/// The set that becomes of these entries, which were moved, and of the picture itself.
fn read_with_itself<'a>(
    alloc: Global,
    reader: &mut FieldReader<'a>,
    delta: i32,
    negative: Vec<ShortTermRef>,
    positive: Vec<ShortTermRef>,
) -> Result<StRps, Refusal>
    requires { nat_abs delta ≤ 32768 }
    ensures { Takes (λ x. x) result reader.old reader.new (with_itself delta negative.items positive.items) }
{
    let itself = ShortTermRef {
        delta_poc: 0,
        used: false,
    };
    let own = read_moved(alloc, reader, delta, &[itself])?;
    let falling = joined(positive, own.as_slice(), negative.as_slice())?;
    at_most_16(reader, sides(alloc, falling)?)
}

/// The set, if it has at most 16 entries.
fn at_most_16<'a>(reader: &mut FieldReader<'a>, set: StRps) -> Result<StRps, Refusal>
    ensures { Takes (λ x. x) result reader.old reader.new (at_most_16 set) }
{
    reader.ranged(set.negative.len() + set.positive.len() <= 16)?;
    Ok(set)
}

/// delta_idx_minus1, which is 0 in a sequence parameter set.
#[tactic(auto, unfolding(spec_reference_pictures::specs::ShortTermSets::delta_idx_minus1))]
fn delta_idx_minus1<'a>(
    reader: &mut FieldReader<'a>,
    index: u32,
    count: u32,
) -> Result<u32, Refusal>
    requires { 1 ≤ index }
    ensures value { Takes (λ x. x) result reader.old reader.new (delta_idx_minus1 index count) }
    ensures in_range { IfOk result (λ x. x + 1 ≤ index) }
{
    if index == count {
        return reader.ue_to(index - 1);
    }
    Ok(0)
}

/// The entries of the set at this place; none where there is no such set.
#[tactic(auto, unfolding(spec_reference_pictures::specs::ShortTermSets::source_at))]
fn entries_at(former: &[StRps], place: usize) -> (&[ShortTermRef], &[ShortTermRef])
    requires { All (IsStRps 78) former.now }
    ensures set { record { negative = result.0.now; positive = result.1.now } ≡ source_at former.now place }
    ensures negative { All (λ (r : ShortTermRef). nat_abs r.delta_poc ≤ 32768 * 78) result.0.now }
    ensures positive { All (λ (r : ShortTermRef). nat_abs r.delta_poc ≤ 32768 * 78) result.1.now }
{
    if place < former.len() {
        let set = &former[place];
        return (set.negative.as_slice(), set.positive.as_slice());
    }
    (&[], &[])
}

/// A set that is predicted from one of `former`.
#[tactic(auto, unfolding(spec_reference_pictures::specs::ShortTermSets::predicted_set))]
pub(crate) fn read_predicted<'a>(
    alloc: Global,
    reader: &mut FieldReader<'a>,
    index: u32,
    count: u32,
    former: &[StRps],
) -> Result<StRps, Refusal>
    requires index { 1 ≤ index }
    requires former { All (IsStRps 78) former.now }
    ensures { Takes (λ x. x) result reader.old reader.new (predicted_set index count former.now) }
{
    let delta_idx_minus1 = delta_idx_minus1(reader, index, count)?;
    let delta_rps_sign = reader.flag()?;
    let abs_delta_rps_minus1 = reader.ue_to(32767)?;
    let delta = signed(delta_rps_sign, abs_delta_rps_minus1 + 1);
    let (negative, positive) = entries_at(former, (index - (delta_idx_minus1 + 1)) as usize);
    read_moved_set(alloc, reader, negative, positive, delta)
}
