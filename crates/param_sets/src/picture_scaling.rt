//! Which scaling lists a picture uses (7.4.3.2, 7.4.3.3).

ghost use Rattle.std.specs.Prelude.{◌≡◌, ◌≤◌, IfOk};
ghost use Rattle.spec_parameter_sets.specs.Scaling.{default_lists, default_lists_of};
ghost use Rattle.spec_parameter_sets.specs.PictureScaling.{picture_scaling_lists};

use crate::scaling::{default_list, list_count};
use header_types::{FieldList, PpsFields, ScalingList, ScalingLists, SpsFields};
use std::alloc::{AllocError, Global};

/// The default lists of a sizeId.
#[tactic(auto, unfolding(spec_parameter_sets::specs::Scaling::default_lists_of))]
fn default_lists_of(alloc: Global, size: u32) -> Result<Vec<ScalingList>, AllocError>
    requires { size ≤ 3 }
    ensures { IfOk result (λ v. v.items ≡ default_lists_of size) }
{
    let mut lists = Vec::new(alloc);
    for matrix in 0..list_count(size) {
        let list = default_list(alloc, size, matrix)?;
        lists.push(list)?;
    }
    Ok(lists)
}

/// The default lists (Tables 7-5 and 7-6).
#[tactic(auto, unfolding(spec_parameter_sets::specs::Scaling::default_lists))]
pub fn default_scaling_lists(alloc: Global) -> Result<ScalingLists, AllocError>
    ensures { IfOk result (λ s. s ≡ default_lists) }
{
    let mut lists = default_lists_of(alloc, 0)?;
    let mut of_8x8 = default_lists_of(alloc, 1)?;
    let mut of_16x16 = default_lists_of(alloc, 2)?;
    let mut of_32x32 = default_lists_of(alloc, 3)?;
    of_16x16.append(&mut of_32x32)?;
    of_8x8.append(&mut of_16x16)?;
    lists.append(&mut of_8x8)?;
    Ok(ScalingLists {
        lists: FieldList::from_items(lists),
    })
}

/// The lists that scale a picture of these sets: those of the picture parameter set, or else of the sequence parameter
/// set, or else the default lists; none where scaling_list_enabled_flag is 0, and each factor is 16.
#[tactic(auto, unfolding(spec_parameter_sets::specs::PictureScaling::picture_scaling_lists))]
pub fn picture_scaling_lists(
    alloc: Global,
    sps: &SpsFields,
    pps: &PpsFields,
) -> Result<Option<ScalingLists>, AllocError>
    ensures { IfOk result (λ s. s ≡ picture_scaling_lists sps.now pps.now) }
{
    if !sps.tools.scaling_list_enabled_flag {
        return Ok(None);
    }
    let lists = match (&pps.scaling_lists, &sps.tools.scaling_lists) {
        (Some(lists), _) => lists.clone()?,
        (None, Some(lists)) => lists.clone()?,
        (None, None) => default_scaling_lists(alloc)?,
    };
    Ok(Some(lists))
}
