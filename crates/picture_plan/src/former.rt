//! What a picture leaves behind (8.3.1).

ghost use Rattle.std.specs.Prelude.{◌≡◌, IfOk};
ghost use Rattle.spec_picture_plan.specs.Pictures.{former_after, prev_after};
ghost use Rattle.spec_picture_plan.specs.UnitKinds.{is_order_base};
ghost use Rattle.picture_headers.specs.Bounds.{IsWithinSize};
ghost use Rattle.picture_plan.specs.Bounds.{IsWithin};

use crate::unit_kinds::{is_radl, is_rasl, is_sub_layer_non_reference};
use header_types::Former;
use plan_types::PicturePlan;
use std::alloc::{AllocError, Global};

/// What is left to the next picture, once a picture is over: its order count may be the base of later ones.
#[tactic(auto, unfolding(spec_picture_plan::specs::Pictures::former_after))]
pub(crate) fn former_after(
    alloc: Global,
    former: &Former,
    picture: &PicturePlan,
) -> Result<Former, AllocError>
    requires { IsWithinSize picture.now }
    ensures value { IfOk result (λ f. f ≡ former_after former.now picture.now) }
    ensures few { IfOk result IsWithin }
{
    Ok(Former {
        active: Some(picture.sps.clone()?),
        first_in_sequence: false,
        prev_tid0_pic_order_cnt: prev_after(former.prev_tid0_pic_order_cnt, picture),
        dpb: picture.outputs.dpb.clone()?,
    })
}

/// The order count that later ones may be based on, behind a picture.
fn prev_after(prev: i32, picture: &PicturePlan) -> i32
    ensures { result ≡ prev_after prev picture.now }
{
    if is_order_base(picture.kind.nal_type, picture.kind.temporal_id) {
        picture.poc
    } else {
        prev
    }
}

/// Whether a picture may be prevTid0Pic of later ones (8.3.1).
fn is_order_base(nal_type: u8, temporal_id: u8) -> bool
    ensures { result ≡ is_order_base nal_type temporal_id }
{
    temporal_id == 0
        && !(is_rasl(nal_type) || (is_radl(nal_type) || is_sub_layer_non_reference(nal_type)))
}
