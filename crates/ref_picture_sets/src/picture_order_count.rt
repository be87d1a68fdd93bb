//! Picture order count (8.3.1).

ghost use Rattle.std.specs.Prelude.{◌≡◌, ◌-◌, ◌/◌, ◌<◌, ◌≤◌, ◌&&◌, if◌then◌else◌, nat_lt, nat_le, pos, negsuc, ◌+ℤ◌};
ghost use Rattle.std.specs.Prelude.{◌-ℤ◌, ◌≤ℤ◌, ◌<ℤ◌};
ghost use Rattle.spec_reference_pictures.specs.PictureOrderCount.{begins_anew, in_range, is_idr, is_irap, lsb_of};
ghost use Rattle.spec_reference_pictures.specs.PictureOrderCount.{pic_order_cnt_msb, pic_order_cnt_val};

use hv_base::{BLA_W_LP, CRA_NUT, FaultKind, IDR_N_LP, IDR_W_RADL};
use slice_types::{PictureKind, ReferenceFields};

/// Whether slices of this nal_unit_type are of an intra random access point (7.4.2.2).
pub fn is_irap(nal_type: u8) -> bool
    ensures { result ≡ is_irap nal_type }
{
    BLA_W_LP <= nal_type && nal_type <= CRA_NUT
}

/// Whether slices of this nal_unit_type are of an instantaneous decoding refresh picture (7.4.2.2).
pub fn is_idr(nal_type: u8) -> bool
    ensures { result ≡ is_idr nal_type }
{
    nal_type == IDR_W_RADL || nal_type == IDR_N_LP
}

/// Whether the picture is an intra random access point with NoRaslOutputFlag 1, which doesn't refer to any picture
/// before it.
pub fn begins_anew(kind: PictureKind) -> bool
    ensures { result ≡ begins_anew kind }
{
    is_irap(kind.nal_type) && kind.no_rasl_output_flag
}

/// PicOrderCntVal of the picture (8.3.1). `prev` is that of prevTid0Pic: the picture before it that has TemporalId 0
/// and is no RASL, RADL or sub-layer non-reference picture. `HeaderRange` exactly where it doesn't fit 32 bits.
#[tactic(auto, unfolding(spec_reference_pictures::specs::PictureOrderCount::pic_order_cnt_val))]
pub fn poc_of(kind: PictureKind, references: &ReferenceFields, prev: i32) -> Result<i32, FaultKind>
    requires max_lsb_low { 16 ≤ kind.max_lsb }
    requires max_lsb_high { kind.max_lsb ≤ 65536 }
    requires lsb { references.now.slice_pic_order_cnt_lsb < kind.max_lsb }
    ensures { result ≡ pic_order_cnt_val kind references.now.slice_pic_order_cnt_lsb prev }
{
    let lsb = references.slice_pic_order_cnt_lsb;
    if begins_anew(kind) {
        return in_range(i64::from(lsb));
    }
    in_range(msb_of(kind.max_lsb, lsb, prev) + i64::from(lsb))
}

/// An order count in its range.
#[tactic(auto, unfolding(spec_reference_pictures::specs::PictureOrderCount::in_range))]
fn in_range(poc: i64) -> Result<i32, FaultKind>
    ensures { result ≡ in_range poc }
{
    match i32::try_from(poc) {
        Ok(poc) => Ok(poc),
        Err(_) => Err(FaultKind::HeaderRange),
    }
}

/// PicOrderCntMsb of a picture with these least significant bits (8-1).
#[tactic(auto, unfolding(spec_reference_pictures::specs::PictureOrderCount::pic_order_cnt_msb))]
fn msb_of(max_lsb: u32, lsb: u32, prev: i32) -> i64
    requires max_lsb_low { 1 ≤ max_lsb }
    requires max_lsb_high { max_lsb ≤ 65536 }
    ensures value { result ≡ pic_order_cnt_msb max_lsb lsb prev }
    ensures low { negsuc 2147614719 ≤ℤ result }
    ensures high { result ≤ℤ pos 2147614719 }
{
    let prev_lsb = lsb_of(max_lsb, prev);
    let later = is_cycle_later(max_lsb, lsb, prev_lsb);
    let earlier = is_cycle_earlier(max_lsb, lsb, prev_lsb);
    msb_beside(max_lsb, msb_part(prev, prev_lsb), later, earlier)
}

/// PicOrderCntMsb in the cycle behind that of prevTid0Pic, or before it, or in the same (8-1).
fn msb_beside(max_lsb: u32, prev_msb: i64, later: bool, earlier: bool) -> i64
    requires max_lsb { max_lsb ≤ 65536 }
    requires low { negsuc 2147549183 ≤ℤ prev_msb }
    requires high { prev_msb ≤ℤ pos 2147483647 }
    ensures value { result
        ≡ (if later then prev_msb +ℤ pos max_lsb else (if earlier then prev_msb -ℤ pos max_lsb else prev_msb)) }
    ensures low { negsuc 2147614719 ≤ℤ result }
    ensures high { result ≤ℤ pos 2147614719 }
{
    if later {
        prev_msb + i64::from(max_lsb)
    } else if earlier {
        prev_msb - i64::from(max_lsb)
    } else {
        prev_msb
    }
}

/// Whether a picture with these least significant bits is in the cycle of `max_lsb` order counts behind that of
/// prevTid0Pic (8-1).
fn is_cycle_later(max_lsb: u32, lsb: u32, prev_lsb: u32) -> bool
    ensures { result ≡ (nat_lt lsb prev_lsb && nat_le (max_lsb / 2) (prev_lsb - lsb)) }
{
    lsb < prev_lsb && prev_lsb - lsb >= max_lsb / 2
}

/// Whether it is in the cycle before that of prevTid0Pic (8-1).
fn is_cycle_earlier(max_lsb: u32, lsb: u32, prev_lsb: u32) -> bool
    ensures { result ≡ (nat_lt prev_lsb lsb && nat_lt (max_lsb / 2) (lsb - prev_lsb)) }
{
    prev_lsb < lsb && lsb - prev_lsb > max_lsb / 2
}

/// An order count without its least significant bits `lsb`.
fn msb_part(poc: i32, lsb: u32) -> i64
    requires { lsb ≤ 65536 }
    ensures value { result ≡ poc -ℤ pos lsb }
    ensures low { negsuc 2147549183 ≤ℤ result }
    ensures high { result ≤ℤ pos 2147483647 }
{
    i64::from(poc) - i64::from(lsb)
}

/// An order count modulo `max_lsb`.
#[tactic(auto, unfolding(spec_reference_pictures::specs::PictureOrderCount::lsb_of))]
pub(crate) fn lsb_of(max_lsb: u32, poc: i32) -> u32
    requires some { 1 ≤ max_lsb }
    requires few { max_lsb ≤ 65536 }
    ensures value { result ≡ lsb_of max_lsb poc }
    ensures small { result < max_lsb }
{
    i64::from(poc).rem_euclid(i64::from(max_lsb)) as u32
}
