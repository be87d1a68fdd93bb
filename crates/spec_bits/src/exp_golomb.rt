//! The definitions of Exp-Golomb codes as a program: slow, and as they are written.

ghost use Rattle.std.specs.Prelude.{◌≡◌, ◌^◌, ◌-◌, ◌<◌, IfSome};
ghost use Rattle.spec_bits.specs.Bits.{Finds};
ghost use Rattle.spec_bits.specs.ExpGolomb.{leading_zero_bits, ue_at, signed_of, se_at};

use crate::plain::unsigned;

/// The number that an Exp-Golomb code spells, and the bits after it: ue(v) of H.265 9.2. `None` where there are fewer
/// bits, and at over 31 zeros.
#[tactic(auto, unfolding(crate::specs::ExpGolomb::ue_at))]
pub fn unsigned_exp_golomb(bits: &[bool]) -> Option<(u32, &[bool])>
    ensures value { Finds (λ found. (found.0, found.1.now)) result (ue_at bits.now) }
    ensures small { IfSome result (λ found. found.0 < 2 ^ 32 - 1) }
{
    let zeros = zeros_before_one(bits);
    if zeros > 31 {
        return None;
    }
    let prefix = unsigned(zeros as u32, bits)?;
    let code = unsigned(zeros as u32 + 1, prefix.1)?;
    Some((code.0.saturating_sub(1), code.1))
}

/// The number that a signed Exp-Golomb code spells, and the bits after it: se(v) of H.265 9.2. `None` as
/// [`unsigned_exp_golomb`].
#[tactic(auto, unfolding(crate::specs::ExpGolomb::se_at))]
pub fn signed_exp_golomb(bits: &[bool]) -> Option<(i32, &[bool])>
    ensures { Finds (λ found. (found.0, found.1.now)) result (se_at bits.now) }
{
    let code = unsigned_exp_golomb(bits)?;
    Some((signed_value(code.0), code.1))
}

/// The signed value of a code number: 0, 1, -1, 2, -2 .. (H.265 9.2.2).
#[tactic(auto, unfolding(crate::specs::ExpGolomb::signed_of))]
pub fn signed_value(code: u32) -> i32
    requires { code < 2 ^ 32 - 1 }
    ensures { result ≡ signed_of code }
{
    let half = (code / 2) as i32;
    if code % 2 == 1 { half + 1 } else { -half }
}

fn zeros_before_one(bits: &[bool]) -> usize
    ensures { result ≡ leading_zero_bits bits.now }
{
    let mut zeros = 0;
    for bit in bits {
        if *bit {
            return zeros;
        }
        zeros += 1;
    }
    zeros
}
