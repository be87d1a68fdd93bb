//! Short-term reference picture sets that tell their entries (7.3.7, 7.4.8).

ghost use Rattle.std.specs.Prelude.{◌≡◌, ◌*◌, ◌≤◌, nat_abs, IfOk};
ghost use Rattle.header_fields.specs.Takes.{Takes};
ghost use Rattle.ref_picture_sets.specs.Parts.{explicit_sides};
ghost use Rattle.spec_reference_pictures.specs.ShortTermSets.{signed, step, outward, explicit_set};

use header_fields::FieldReader;
use header_types::{FieldList, ShortTermRef, StRps};
use hv_base::Refusal;
use std::alloc::Global;

/// The difference of this size, below 0 where `negative`.
#[tactic(auto, unfolding(spec_reference_pictures::specs::ShortTermSets::signed))]
pub(crate) fn signed(negative: bool, size: u32) -> i32
    requires { size ≤ 32768 * 15 }
    ensures value { result ≡ signed negative size }
    ensures within { nat_abs result ≤ size }
{
    let size = size as i32;
    if negative { -size } else { size }
}

/// How much further out the next entry is, and whether it is used.
#[tactic(auto, unfolding(spec_reference_pictures::specs::ShortTermSets::step))]
fn step<'a>(reader: &mut FieldReader<'a>) -> Result<(u32, bool), Refusal>
    ensures value { Takes (λ x. x) result reader.old reader.new step }
    ensures small { IfOk result (λ x. x.0 ≤ 32768) }
{
    let delta_poc_minus1 = reader.ue_to(32767)?;
    let used_by_curr_pic_flag = reader.flag()?;
    Ok((delta_poc_minus1 + 1, used_by_curr_pic_flag))
}

/// The entry at this distance.
fn entry_at(negative: bool, distance: u32, used: bool) -> ShortTermRef
    requires { distance ≤ 32768 * 15 }
    ensures { result ≡ record { delta_poc = signed negative distance; used = used } }
{
    ShortTermRef {
        delta_poc: signed(negative, distance),
        used,
    }
}

/// So many entries on one side, the nearest first.
fn outward<'a>(
    alloc: Global,
    reader: &mut FieldReader<'a>,
    negative: bool,
    count: u32,
) -> Result<FieldList<ShortTermRef>, Refusal>
    requires { count ≤ 15 }
    ensures { Takes (λ x. x) result reader.old reader.new (outward negative 0 count) }
{
    let mut entries = FieldList::new(alloc);
    let mut distance = 0;
    for _ in 0..count {
        let (further, used) = step(reader)?;
        distance += further;
        entries.push(entry_at(negative, distance, used))?;
    }
    Ok(entries)
}

/// A set of at most `greatest` entries.
#[tactic(auto, unfolding(spec_reference_pictures::specs::ShortTermSets::explicit_set))]
pub(crate) fn read_explicit<'a>(
    alloc: Global,
    reader: &mut FieldReader<'a>,
    greatest: u32,
) -> Result<StRps, Refusal>
    requires { greatest ≤ 15 }
    ensures { Takes (λ x. x) result reader.old reader.new (explicit_set greatest) }
{
    let num_negative_pics = reader.ue()?;
    let num_positive_pics = reader.ue()?;
    reader.ranged(num_negative_pics.saturating_add(num_positive_pics) <= greatest)?;
    read_sides(alloc, reader, num_negative_pics, num_positive_pics)
}

/// A set of so many entries on each side.
fn read_sides<'a>(
    alloc: Global,
    reader: &mut FieldReader<'a>,
    num_negative_pics: u32,
    num_positive_pics: u32,
) -> Result<StRps, Refusal>
    requires negative { num_negative_pics ≤ 15 }
    requires positive { num_positive_pics ≤ 15 }
    ensures { Takes (λ x. x) result reader.old reader.new (explicit_sides num_negative_pics num_positive_pics) }
{
    let negative = outward(alloc, reader, true, num_negative_pics)?;
    let positive = outward(alloc, reader, false, num_positive_pics)?;
    Ok(StRps { negative, positive })
}
