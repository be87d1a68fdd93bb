//! The angles of the prediction modes (8.4.4.2.6).

ghost use Rattle.std.specs.Prelude.{◌≡◌, ◌≤◌, pos, negsuc, ◌≤ℤ◌, ◌<ℤ◌, ◌*◌};
ghost use Rattle.std.specs.Int.RustNames.{unsigned_abs};
ghost use Rattle.spec_intra_prediction.specs.Angular.{angle, inverse_angle};

/// intraPredAngle of the modes 2 to 34, in 1/32 of a sample per line.
#[rattlefmt::skip]
pub static INTRA_PRED_ANGLE: [i8; 33] = [
     32,  26,  21,  17,  13,   9,   5,   2,
      0,  -2,  -5,  -9, -13, -17, -21, -26,
    -32, -26, -21, -17, -13,  -9,  -5,  -2,
      0,   2,   5,   9,  13,  17,  21,  26,
     32,
];

/// invAngle of the modes 11 to 25 without its sign, in 1/256 of a sample per sample.
#[rattlefmt::skip]
pub static INVERSE_ANGLE: [u16; 15] = [
    4096, 1638,  910,  630,  482,  390,  315,
     256,  315,  390,  482,  630,  910, 1638, 4096,
];

/// intraPredAngle of a mode from 2 to 34.
#[inline(always)]
#[tactic(auto, unfolding(crate::specs::Angular::angle))]
pub fn pred_angle(mode: u8) -> i32
    requires low { 2 ≤ mode }
    requires high { mode ≤ 34 }
    ensures value { result ≡ angle mode }
    ensures least { negsuc 31 ≤ℤ result }
    ensures greatest { result ≤ℤ pos 32 }
    ensures negative { result <ℤ pos 0 → (11 ≤ mode) × (mode ≤ 25) }
{
    i32::from(INTRA_PRED_ANGLE[usize::from(mode) - 2])
}

/// invAngle of a mode from 11 to 25, without its sign.
#[inline(always)]
#[tactic(auto, unfolding(crate::specs::Angular::inverse_angle))]
pub fn inverse_angle(mode: u8) -> usize
    requires low { 11 ≤ mode }
    requires high { mode ≤ 25 }
    ensures value { result ≡ inverse_angle mode }
    ensures greatest { result ≤ 4096 }
    ensures product { unsigned_abs (angle mode) * result ≤ 8208 }
{
    usize::from(INVERSE_ANGLE[usize::from(mode) - 11])
}
