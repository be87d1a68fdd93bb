//! What a NAL unit is to the pictures of a stream, by its nal_unit_type (7.4.2.2, 7.4.2.4.4).

ghost use Rattle.std.specs.Prelude.{◌≡◌};
ghost use Rattle.spec_picture_plan.specs.UnitKinds.{is_radl, is_rasl, is_slice, is_sub_layer_non_reference};
ghost use Rattle.spec_picture_plan.specs.UnitKinds.{kind_of_type};

use hv_base::{
    AUD_NUT, BLA_W_LP, CRA_NUT, EOB_NUT, EOS_NUT, PPS_NUT, PREFIX_SEI_NUT, RADL_N, RADL_R, RASL_N,
    RASL_R, RSV_VCL_N14, SPS_NUT, SUFFIX_SEI_NUT, VPS_NUT,
};
use spec_picture_plan::UnitKind;

/// What a unit of this nal_unit_type is.
#[tactic(auto, unfolding(spec_picture_plan::specs::UnitKinds::kind_of_type))]
pub(crate) fn kind_of_type(nal_type: u8) -> UnitKind
    ensures { result ≡ kind_of_type nal_type }
{
    match nal_type {
        SPS_NUT => UnitKind::SequenceSet,
        PPS_NUT => UnitKind::PictureSet,
        EOS_NUT | EOB_NUT => UnitKind::SequenceEnd,
        VPS_NUT | AUD_NUT | PREFIX_SEI_NUT => UnitKind::Border,
        SUFFIX_SEI_NUT => UnitKind::SuffixInformation,
        _ if is_slice(nal_type) => UnitKind::Slice,
        _ => UnitKind::Other,
    }
}

/// Whether units of this nal_unit_type are slice segments that may be decoded.
fn is_slice(nal_type: u8) -> bool
    ensures { result ≡ is_slice nal_type }
{
    nal_type <= RASL_R || (nal_type >= BLA_W_LP && nal_type <= CRA_NUT)
}

/// Whether units of this nal_unit_type are slice segments of random access skipped leading pictures.
pub(crate) fn is_rasl(nal_type: u8) -> bool
    ensures { result ≡ is_rasl nal_type }
{
    nal_type == RASL_N || nal_type == RASL_R
}

/// Whether units of this nal_unit_type are slice segments of random access decodable leading pictures.
pub(crate) fn is_radl(nal_type: u8) -> bool
    ensures { result ≡ is_radl nal_type }
{
    nal_type == RADL_N || nal_type == RADL_R
}

/// Whether units of this nal_unit_type are slice segments of sub-layer non-reference pictures.
pub(crate) fn is_sub_layer_non_reference(nal_type: u8) -> bool
    ensures { result ≡ is_sub_layer_non_reference nal_type }
{
    nal_type <= RSV_VCL_N14 && nal_type % 2 == 0
}
