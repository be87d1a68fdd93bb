//! Exp-Golomb codes (H.265 9.2).

ghost use Rattle.std.specs.Prelude.{◌≡◌, ℕ, ◌-◌, ◌^◌, ◌<◌, ◌≤◌, min, IfSome};
ghost use Rattle.spec_bits.specs.Bits.{Gives};
ghost use Rattle.spec_bits.specs.ExpGolomb.{leading_zero_bits, ue_at, signed_of, se_at};

use crate::bit_reader::BitReader;

impl<'a> BitReader<'a> {
    /// The number that an Exp-Golomb code spells: ue(v) of H.265 9.2. `None`, and no bit is read, where fewer bits are
    /// left than the code has, or over 31 zeros are next.
    #[tactic(auto, unfolding(spec_bits::specs::ExpGolomb::ue_at))]
    pub fn ue(&mut self) -> Option<u32>
        ensures value { Gives result self.old self.new (ue_at self.old) }
        ensures small { IfSome result (λ value. value < 2 ^ 32 - 1) }
    {
        let zeros = self.zeros();
        if zeros > 31 {
            return None;
        }
        let mut ahead = self.copy();
        ahead.u(zeros)?;
        let code = ahead.u(zeros + 1)?;
        *self = ahead;
        Some(code.saturating_sub(1))
    }

    /// The number that a signed Exp-Golomb code spells: se(v) of H.265 9.2.2. `None`, and no bit is read, as at
    /// [`ue`](Self::ue).
    #[tactic(auto, unfolding(spec_bits::specs::ExpGolomb::se_at))]
    pub fn se(&mut self) -> Option<i32>
        ensures { Gives result self.old self.new (se_at self.old) }
    {
        let code = self.ue()?;
        Some(signed_value(code))
    }

    /// How many zeros are next, but 32 where there are more.
    fn zeros(&self) -> u32
        ensures { result ≡ min (leading_zero_bits self.now) 32 }
    {
        let mut ahead = self.copy();
        for count in 0..32 {
            if ahead.left() == 0 || ahead.bit() {
                return count;
            }
        }
        32
    }
}

/// The signed value of a code number: 0, 1, -1, 2, -2 .. (H.265 9.2.2).
#[tactic(auto, unfolding(spec_bits::specs::ExpGolomb::signed_of))]
fn signed_value(code: u32) -> i32
    requires { code < 2 ^ 32 - 1 }
    ensures { result ≡ signed_of code }
{
    let half = (code / 2) as i32;
    if code % 2 == 1 { half + 1 } else { -half }
}
