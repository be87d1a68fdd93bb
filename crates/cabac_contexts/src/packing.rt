//! Contexts as words of 64 bits.

ghost use Rattle.std.specs.Prelude.{◌≡◌, ℕ, ◌<◌, ◌≤◌, List, length, slice_index};
ghost use Rattle.std.specs.Int.{w64, from_le_bytes};
ghost use Rattle.std.specs.List.{All};
ghost use Rattle.cabac_contexts.specs.Packing.{eight_from, packed, unpacked};

use crate::contexts::Contexts;

impl Contexts {
    /// The contexts in words, eight in each, the first in its least byte.
    #[tactic(auto, unfolding(crate::specs::Packing::packed))]
    pub fn pack(&self) -> [u64; 20]
        ensures { result ≡ packed self.now }
    {
        let mut words = [0; 20];
        for k in 0..20 {
            words[k] = self.word(8 * k);
        }
        words
    }

    /// The contexts that words have.
    #[tactic(auto, unfolding(crate::specs::Packing::unpacked))]
    pub fn unpack(words: [u64; 20]) -> Contexts
        requires { All (λ value. value < 126) (unpacked words) }
        ensures { result ≡ unpacked words }
    {
        let mut values = [0; 154];
        for i in 0..154 {
            values[i] = words[i / 8].to_le_bytes()[i % 8];
        }
        Contexts::of(values)
    }

    /// Eight contexts from one on.
    fn word(&self, first: usize) -> u64
        requires { first ≤ 152 }
        ensures { result ≡ from_le_bytes w64 (eight_from self.now first) }
    {
        let mut bytes = [0; 8];
        for j in 0..8 {
            bytes[j] = self.get_or_zero(first + j);
        }
        u64::from_le_bytes(bytes)
    }
}

/// The words of contexts have those contexts.
pub fn packed_contexts_are_unpacked()
    ensures { (contexts : List ℕ) → length contexts ≡ 154 → All (λ value. value < 126) contexts
        → unpacked (packed contexts) ≡ contexts }
{}
