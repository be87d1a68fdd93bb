//! Byte alignment (H.265 7.3.2.12).

ghost use Rattle.std.specs.Prelude.{◌≡◌, ◌-◌, ◌<◌, ◌≤◌, length};
ghost use Rattle.spec_bits.specs.Bits.{Gives};
ghost use Rattle.spec_bits.specs.Alignment.{up_to_boundary, aligned_at};

use crate::bit_reader::BitReader;

impl<'a> BitReader<'a> {
    /// Whether the bits up to the next end of a byte are a 1 and zeros, which are then read: byte_alignment() of H.265
    /// 7.3.2.12. At the end of a byte that's the whole next byte. Where it's false nothing is read; `None` where no bit
    /// is left.
    #[tactic(auto, unfolding(spec_bits::specs::Alignment::aligned_at))]
    pub fn aligned(&mut self) -> Option<bool>
        ensures { Gives result self.old self.new (aligned_at self.old) }
    {
        let count = self.up_to_boundary();
        let mut ahead = self.copy();
        let aligned = ahead.u(count)? == 1 << (count - 1);
        if aligned {
            *self = ahead;
        }
        Some(aligned)
    }
}
