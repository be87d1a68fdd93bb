//! What of a picture decides its outputs (C.5.2.2).

ghost use Rattle.std.specs.Prelude.{◌≡◌, ◌≤◌};
ghost use Rattle.spec_output_order.specs.CurrentPictures.{current_picture, no_output_of_prior_pics_flag};

use header_types::Sps;
use hv_base::CRA_NUT;
use ref_picture_sets::begins_anew;
use slice_types::SliceHeaderFields;
use spec_output_order::CurrentPicture;

/// What of a picture of this header, sequence parameter set and order count decides its outputs. Skipped leading
/// pictures are dropped before, so PicOutputFlag is pic_output_flag.
pub fn current_picture(header: &SliceHeaderFields, sps: &Sps, poc: i32) -> CurrentPicture
    ensures value { result ≡ current_picture header.now sps.now poc }
    ensures buffering { result.ordering.max_dec_pic_buffering_minus1 ≤ 15 }
{
    CurrentPicture {
        poc,
        begins_anew: begins_anew(header.kind),
        no_output_of_prior_pics_flag: no_output_of_prior_pics_flag(header),
        pic_output_flag: header.slice.pic_output_flag,
        ordering: sps.highest_ordering(),
    }
}

/// NoOutputOfPriorPicsFlag.
fn no_output_of_prior_pics_flag(header: &SliceHeaderFields) -> bool
    ensures { result ≡ no_output_of_prior_pics_flag header.now }
{
    header.kind.nal_type == CRA_NUT || header.segment.no_output_of_prior_pics_flag.unwrap_or(false)
}
