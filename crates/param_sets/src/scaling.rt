//! Scaling lists (7.3.4, 7.4.5).

ghost use Rattle.std.specs.Prelude.{◌≡◌, ℕ, ◌≤◌, ◌<◌, ℤ, pos, neg_ℤ, ◌≤ℤ◌, Bool, List, length, IfOk, IfSome};
ghost use Rattle.std.specs.Prelude.{if◌then◌else◌, nat_lt};
ghost use Rattle.header_fields.specs.Takes.{Takes};
ghost use Rattle.spec_formats.specs.Fields.{optional};
ghost use Rattle.header_types.specs.Scaling.{IsScalingLists};
ghost use Rattle.spec_parameter_sets.specs.Scaling.{default_factors, default_list, predicted_list, next_coef};
ghost use Rattle.spec_parameter_sets.specs.Scaling.{coded_factor, coded_factors, coded_dc, coded_list, scaling_list};
ghost use Rattle.spec_parameter_sets.specs.Scaling.{list_count, coef_num, lists_of, scaling_list_data};

use header_fields::FieldReader;
use header_types::{FieldList, ScalingList, ScalingLists};
use hv_base::Refusal;
use spec_parameter_sets::{DEFAULT_INTER, DEFAULT_INTRA};
use std::alloc::{AllocError, Global};

/// How many lists a sizeId has, one a matrixId.
pub(crate) fn list_count(size: u32) -> u32
    requires { size ≤ 3 }
    ensures value { result ≡ list_count size }
    ensures few { result ≤ 6 }
{
    if size == 3 { 2 } else { 6 }
}

/// How many factors a list of a sizeId has: coefNum.
fn coef_num(size: u32) -> u32
    requires { size ≤ 3 }
    ensures { result ≡ coef_num size }
{
    if size == 0 { 16 } else { 64 }
}

/// The default factors of a sizeId and a matrixId (Tables 7-5 and 7-6).
#[tactic(auto, unfolding(spec_parameter_sets::specs::Scaling::default_factors))]
fn default_factors(alloc: Global, size: u32, matrix: u32) -> Result<Vec<u8>, AllocError>
    requires size { size ≤ 3 }
    requires matrix { matrix < 6 }
    ensures { IfOk result (λ v. v.items ≡ default_factors size matrix) }
{
    if size == 0 {
        return Vec::from_elem(alloc, 16, 16);
    }
    if 2 * matrix < list_count(size) {
        Vec::from_slice(alloc, &DEFAULT_INTRA)
    } else {
        Vec::from_slice(alloc, &DEFAULT_INTER)
    }
}

/// The default list of a sizeId and a matrixId.
#[tactic(auto, unfolding(spec_parameter_sets::specs::Scaling::default_list))]
pub(crate) fn default_list(alloc: Global, size: u32, matrix: u32) -> Result<ScalingList, AllocError>
    requires size { size ≤ 3 }
    requires matrix { matrix < 6 }
    ensures { IfOk result (λ l. l ≡ default_list size matrix) }
{
    let factors = default_factors(alloc, size, matrix)?;
    Ok(ScalingList {
        factors: FieldList::from_items(factors),
        dc: 16,
    })
}

/// A list that is predicted: the default list, or that of refMatrixId among the former lists of its sizeId.
#[tactic(auto, unfolding(spec_parameter_sets::specs::Scaling::predicted_list))]
fn read_predicted_list<'a>(
    alloc: Global,
    reader: &mut FieldReader<'a>,
    size: u32,
    former: &[ScalingList],
) -> Result<ScalingList, Refusal>
    requires size { size ≤ 3 }
    requires former { length former.now < 6 }
    ensures { Takes (λ x. x) result reader.old reader.new (predicted_list size former.now) }
{
    let matrix = former.len();
    let delta = reader.ue_to(matrix as u32)? as usize;
    if delta == 0 {
        return Ok(default_list(alloc, size, matrix as u32)?);
    }
    Ok(former[matrix - delta].clone()?)
}

/// nextCoef behind scaling_list_delta_coef.
#[tactic(auto, unfolding(spec_parameter_sets::specs::Scaling::next_coef))]
fn next_coef(next: u8, delta: i32) -> u8
    requires least { neg_ℤ (pos 128) ≤ℤ delta }
    requires greatest { delta ≤ℤ pos 127 }
    ensures { result ≡ next_coef next delta }
{
    ((i32::from(next) + delta + 256).unsigned_abs() % 256) as u8
}

/// A factor, which is the next nextCoef.
#[tactic(auto, unfolding(spec_parameter_sets::specs::Scaling::coded_factor))]
fn read_factor<'a>(reader: &mut FieldReader<'a>, next: u8) -> Result<u8, Refusal>
    ensures { Takes (λ x. x) result reader.old reader.new (coded_factor next) }
{
    let delta = reader.se_within(128, 127)?;
    let factor = next_coef(next, delta);
    reader.ranged(factor > 0)?;
    Ok(factor)
}

/// So many factors behind a nextCoef.
fn read_factors<'a>(
    alloc: Global,
    reader: &mut FieldReader<'a>,
    count: u32,
    first: u8,
) -> Result<Vec<u8>, Refusal>
    ensures { Takes (λ v. v.items) result reader.old reader.new (coded_factors count first) }
{
    let mut factors = Vec::new(alloc);
    let mut next = first;
    for _ in 0..count {
        next = read_factor(reader, next)?;
        factors.push(next)?;
    }
    Ok(factors)
}

/// The factor of the DC coefficient: 16 where it isn't coded.
#[tactic(auto, unfolding(spec_parameter_sets::specs::Scaling::coded_dc))]
fn read_dc<'a>(reader: &mut FieldReader<'a>, size: u32) -> Result<u8, Refusal>
    ensures { Takes (λ x. x) result reader.old reader.new (coded_dc size) }
{
    if size <= 1 {
        return Ok(16);
    }
    let scaling_list_dc_coef_minus8 = reader.se_within(7, 247)?;
    Ok((scaling_list_dc_coef_minus8 + 8).unsigned_abs() as u8)
}

/// A list that is coded.
#[tactic(auto, unfolding(spec_parameter_sets::specs::Scaling::coded_list))]
fn read_coded_list<'a>(
    alloc: Global,
    reader: &mut FieldReader<'a>,
    size: u32,
) -> Result<ScalingList, Refusal>
    requires { size ≤ 3 }
    ensures { Takes (λ x. x) result reader.old reader.new (coded_list size) }
{
    let dc = read_dc(reader, size)?;
    let first = if size > 1 { dc } else { 8 };
    let factors = read_factors(alloc, reader, coef_num(size), first)?;
    Ok(ScalingList {
        factors: FieldList::from_items(factors),
        dc,
    })
}

/// A list behind the former ones of its sizeId.
#[tactic(auto, unfolding(spec_parameter_sets::specs::Scaling::scaling_list))]
fn read_list<'a>(
    alloc: Global,
    reader: &mut FieldReader<'a>,
    size: u32,
    former: &[ScalingList],
) -> Result<ScalingList, Refusal>
    requires size { size ≤ 3 }
    requires former { length former.now < 6 }
    ensures { Takes (λ x. x) result reader.old reader.new (scaling_list size former.now) }
{
    let scaling_list_pred_mode_flag = reader.flag()?;
    if scaling_list_pred_mode_flag {
        read_coded_list(alloc, reader, size)
    } else {
        read_predicted_list(alloc, reader, size, former)
    }
}

/// The lists of a sizeId.
#[tactic(auto, unfolding(spec_parameter_sets::specs::Scaling::lists_of))]
fn read_lists<'a>(
    alloc: Global,
    reader: &mut FieldReader<'a>,
    size: u32,
) -> Result<Vec<ScalingList>, Refusal>
    requires { size ≤ 3 }
    ensures { Takes (λ v. v.items) result reader.old reader.new (lists_of size) }
{
    let count = list_count(size);
    let mut lists = Vec::new(alloc);
    for _ in 0..count {
        let list = read_list(alloc, reader, size, &lists)?;
        lists.push(list)?;
    }
    Ok(lists)
}

/// scaling_list_data.
///
/// # Errors
///
/// The syntax rule of the reader where it ends inside a field or has a prefix of over 31 zeros; its range rule where a
/// field is out of range or a factor is 0.
#[tactic(auto, using(crate::proofs::ListLoops::read_in_range))]
pub fn read_scaling_list_data<'a>(
    alloc: Global,
    reader: &mut FieldReader<'a>,
) -> Result<ScalingLists, Refusal>
    ensures in_range { IfOk result (λ s. IsScalingLists s) }
    ensures value { Takes (λ x. x) result reader.old reader.new scaling_list_data }
{
    read_all_lists(alloc, reader)
}

/// The twenty lists.
#[tactic(auto, unfolding(spec_parameter_sets::specs::Scaling::scaling_list_data))]
fn read_all_lists<'a>(alloc: Global, reader: &mut FieldReader<'a>) -> Result<ScalingLists, Refusal>
    ensures { Takes (λ x. x) result reader.old reader.new scaling_list_data }
{
    let mut lists = read_lists(alloc, reader, 0)?;
    let mut of_8x8 = read_lists(alloc, reader, 1)?;
    let mut of_16x16 = read_lists(alloc, reader, 2)?;
    let mut of_32x32 = read_lists(alloc, reader, 3)?;
    of_16x16.append(&mut of_32x32)?;
    of_8x8.append(&mut of_16x16)?;
    lists.append(&mut of_8x8)?;
    Ok(ScalingLists {
        lists: FieldList::from_items(lists),
    })
}

/// scaling_list_data, where it is there.
pub fn read_scaling_lists<'a>(
    alloc: Global,
    reader: &mut FieldReader<'a>,
    present: bool,
) -> Result<Option<ScalingLists>, Refusal>
    ensures in_range { IfOk result (λ s. IfSome s IsScalingLists) }
    ensures value { Takes (λ x. x) result reader.old reader.new (optional present scaling_list_data) }
{
    if !present {
        return Ok(None);
    }
    Ok(Some(read_scaling_list_data(alloc, reader)?))
}
