//! The format of a planned picture.

ghost use Rattle.std.specs.Prelude.{◌≡◌};
ghost use Rattle.header_types.specs.PictureParameterSet.{IsWithin};
ghost use Rattle.header_types.specs.SequenceParameterSets.{IsSps};
ghost use Rattle.spec_picture_filters.specs.Filtered.{filter_format};

use plan_types::PicturePlan;
use spec_picture_filters::FilterFormat;

/// What the loop filters of a planned picture depend on, apart from its places and units.
#[tactic(auto, unfolding(spec_picture_filters::specs::Filtered::filter_format))]
pub fn filter_format(plan: &PicturePlan) -> FilterFormat
    ensures value { result ≡ filter_format plan.now }
    ensures in_range { IsSps plan.now.sps }
{
    let picture = &plan.sps.fields().format;
    let sets = plan.pps.fields();
    FilterFormat {
        width: picture.pic_width_in_luma_samples as usize,
        height: picture.pic_height_in_luma_samples as usize,
        ctb_size: plan.sps.ctb_size() as usize,
        luma_depth: picture.bit_depth_luma_minus8 + 8,
        chroma_depth: picture.bit_depth_chroma_minus8 + 8,
        pps_cb_qp_offset: qp_offset(sets.quantization.pps_cb_qp_offset),
        pps_cr_qp_offset: qp_offset(sets.quantization.pps_cr_qp_offset),
    }
}

/// An offset from -12 to 12.
fn qp_offset(offset: i32) -> i8
    requires { IsWithin 12 12 offset }
    ensures { result ≡ offset }
{
    offset as i8
}
