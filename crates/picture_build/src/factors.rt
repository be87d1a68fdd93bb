//! The scaling factors of a picture (7.4.3.2, 7.4.3.3, 7.4.5).

ghost use Rattle.std.specs.Prelude.{◌≡◌, IfOk};
ghost use Rattle.param_sets.specs.SpecParameterSets.{picture_scaling_lists};
ghost use Rattle.spec_reconstruction.specs.Factors.{scaling_factors};

use header_types::{Pps, Sps};
use param_sets::picture_scaling_lists;
use scaling_factors::{flat_factors, listed_factors};
use spec_reconstruction::ScalingFactors;
use std::alloc::{AllocError, Global};

/// The factors by the lists of a picture's sets, of intra coding units or of inter ones.
pub(crate) fn picture_factors(
    alloc: Global,
    sps: &Sps,
    pps: &Pps,
    intra: bool,
) -> Result<ScalingFactors, AllocError>
    ensures { IfOk result (λ f. f ≡ scaling_factors (picture_scaling_lists sps.now pps.now) intra) }
{
    match picture_scaling_lists(alloc, sps.fields(), pps.fields())? {
        None => Ok(flat_factors()),
        Some(lists) => Ok(listed_factors(&lists, intra)),
    }
}
