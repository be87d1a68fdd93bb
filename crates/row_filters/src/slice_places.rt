//! Places of a slice, by what is known of their coding tree units.

ghost use Rattle.std.specs.Prelude.{◌≡◌, ◌≤◌, ◌-ℤ◌, pos};
ghost use Rattle.spec_picture_filters.specs.Units.{held_offset, place_of};

use slice_types::SliceDeblocking;
use spec_boundary_strengths::UnitPlace;
use spec_deblocking::Place;

/// A place of a slice that is deblocked so.
#[tactic(auto, unfolding(spec_picture_filters::specs::Units::place_of))]
pub fn place_of(slice: &SliceDeblocking, place: &UnitPlace) -> Place
    ensures { result ≡ place_of slice.now place.now }
{
    Place {
        left_strength: place.left_strength,
        top_strength: place.top_strength,
        qp_y: place.qp_y,
        kept: place.kept,
        slice_beta_offset_div2: held_offset(slice.slice_beta_offset_div2),
        slice_tc_offset_div2: held_offset(slice.slice_tc_offset_div2),
    }
}

/// An offset from -6 to 6.
fn held_offset(offset: i32) -> i8
    ensures { result ≡ held_offset offset }
{
    offset.clamp(-6, 6) as i8
}

/// QpY by Qp'Y and QpBdOffsetY.
pub fn qp_y(qp: u8, qp_bd_offset: u8) -> i8
    requires qp { qp ≤ 127 }
    requires offset { qp_bd_offset ≤ 48 }
    ensures { result ≡ pos qp -ℤ pos qp_bd_offset }
{
    qp as i8 - qp_bd_offset as i8
}
