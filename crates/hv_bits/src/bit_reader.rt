//! A reader of the bits of a byte string.

ghost use Rattle.std.specs.Prelude.{◌≡◌, ℕ, ◌+◌, ◌-◌, ◌*◌, ◌^◌, ◌<◌, ◌≤◌, ◌∷◌, length, take, drop, IfSome};
ghost use Rattle.std.specs.Prelude.{min};
ghost use Rattle.spec_bits.specs.Bits.{bits, number_of, u_at, flag_at, Gives};
ghost use Rattle.spec_bits.specs.Alignment.{up_to_boundary};

use std::marker::Model;

/// A place in the bits of a byte string. Contracts see the bits from there on.
#[derive(Debug, Drop)]
pub struct BitReader<'a> {
    bytes: &'a [u8],
    /// The byte that has the next bit.
    byte: usize,
    /// How many bits of that byte are read, below 8.
    bit: u32,
}

impl<'a> Model for BitReader<'a> {
    ghost use Rattle.std.specs.Prelude.{◌+◌, ◌*◌, ◌<◌, ◌≤◌, Bool, List, drop, length};
    ghost use Rattle.spec_bits.specs.Bits.{bits};

    ghost Value = { List Bool };

    ghost view = { λ r. drop (8 * r.byte + r.bit) (bits r.bytes.now) };

    ghost invariant = { λ r. (r.bit < 8) × (8 * r.byte + r.bit ≤ 8 * length r.bytes.now) };
}

impl<'a> BitReader<'a> {
    /// A reader at the first bit of `bytes`.
    pub fn new(bytes: &'a [u8]) -> BitReader<'a>
        ensures { result ≡ bits bytes.now }
    {
        BitReader {
            bytes,
            byte: 0,
            bit: 0,
        }
    }

    /// How many bits are left, at most 2^64 - 1.
    pub fn left(&self) -> u64
        ensures { result ≡ min (length self.now) (2 ^ 64 - 1) }
    {
        if self.byte == self.bytes.len() {
            return 0;
        }
        let after = (self.bytes.len() - self.byte - 1) as u64;
        after
            .saturating_mul(8)
            .saturating_add(u64::from(8 - self.bit))
    }

    /// The number that the next `n` bits spell: u(n) of H.265 7.2. `None`, and no bit is read, where fewer are left.
    #[tactic(auto, unfolding(spec_bits::specs::Bits::u_at))]
    pub fn u(&mut self, n: u32) -> Option<u32>
        requires { n ≤ 32 }
        ensures value { Gives result self.old self.new (u_at n self.old) }
        ensures small { IfSome result (λ value. value < 2 ^ n) }
    {
        if self.left() < u64::from(n) {
            return None;
        }
        Some(self.number(n))
    }

    /// The next bit as a flag: u(1) of H.265 7.2. `None` where no bit is left.
    #[tactic(auto, unfolding(spec_bits::specs::Bits::flag_at))]
    pub fn flag(&mut self) -> Option<bool>
        ensures { Gives result self.old self.new (flag_at self.old) }
    {
        match self.left() {
            0 => None,
            _ => Some(self.bit()),
        }
    }

    #[tactic(auto, unfolding(spec_bits::specs::Bits::number_of))]
    fn number(&mut self, n: u32) -> u32
        requires few { n ≤ 32 }
        requires enough { n ≤ length self.old }
        ensures value { result ≡ number_of (take n self.old) }
        ensures rest { self.new ≡ drop n self.old }
        ensures small { result < 2 ^ n }
    {
        let mut value = 0;
        for _ in 0..n {
            value = 2 * value + u32::from(self.bit());
        }
        value
    }

    /// How many bits are left of the byte that has the next bit.
    #[tactic(auto, unfolding(spec_bits::specs::Alignment::up_to_boundary))]
    pub(crate) fn up_to_boundary(&self) -> u32
        ensures value { result ≡ up_to_boundary self.now }
        ensures range { (1 ≤ result) × (result ≤ 8) }
    {
        if self.left() == 0 {
            return 1;
        }
        8 - self.bit
    }

    /// Another reader at the same place.
    pub(crate) fn copy(&self) -> BitReader<'a>
        ensures { result ≡ self.now }
    {
        BitReader {
            bytes: self.bytes,
            byte: self.byte,
            bit: self.bit,
        }
    }

    /// The next bit.
    pub(crate) fn bit(&mut self) -> bool
        requires { 0 < length self.old }
        ensures { self.old ≡ result ∷ self.new }
    {
        let bit = (self.bytes[self.byte] >> (7 - self.bit)) & 1 == 1;
        if self.bit == 7 {
            self.bit = 0;
            self.byte += 1;
        } else {
            self.bit += 1;
        }
        bit
    }
}
