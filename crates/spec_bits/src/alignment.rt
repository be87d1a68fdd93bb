//! The definition of byte alignment as a program.

ghost use Rattle.std.specs.Prelude.{◌≡◌};
ghost use Rattle.spec_bits.specs.Bits.{Finds};
ghost use Rattle.spec_bits.specs.Alignment.{up_to_boundary, aligned_at};

use crate::plain::unsigned;

/// Whether the bits up to the next end of a byte are a 1 and zeros, and the bits after them, or, where they aren't, all
/// bits (byte_alignment() of H.265 7.3.2.12). `None` where no bit is left.
#[tactic(auto, unfolding(crate::specs::Alignment::up_to_boundary, crate::specs::Alignment::aligned_at))]
pub fn byte_alignment(bits: &[bool]) -> Option<(bool, &[bool])>
    ensures { Finds (λ found. (found.0, found.1.now)) result (aligned_at bits.now) }
{
    let count = (bits.len().saturating_sub(1) % 8) as u32 + 1;
    let found = unsigned(count, bits)?;
    if found.0 == 1 << (count - 1) {
        Some((true, found.1))
    } else {
        Some((false, bits))
    }
}
