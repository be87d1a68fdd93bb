//! The offset of an interval and the bits that are read ahead, in one word.

ghost use Rattle.std.specs.Prelude.{◌≡◌, ◌+◌, ◌-◌, ◌*◌, ◌/◌, ◌%◌, ◌^◌, ◌<◌, ◌≤◌, length, take, drop, nat_le, ℕ, Some};
ghost use Rattle.spec_bits.specs.Bits.{bits, number_of};
ghost use Rattle.spec_cabac.specs.Engine.{IsLive, is_stop};
ghost use Rattle.cabac_engine.specs.Ahead.{lengthened, reduced, engine};
ghost use Rattle.cabac_engine.specs.Steps.{bypasses_after, spelled};

use crate::places::{byte_at, is_stop, number_at};
use crate::quotients::quotient;
use std::marker::Model;

/// ivlOffset, and behind it, as further digits, bits that are read ahead.
#[derive(Debug, Drop)]
pub(crate) struct Register<'a> {
    /// How many bits are read ahead, at most 55.
    held: u32,
    value: u64,
    bytes: &'a [u8],
    /// The byte behind the bits that are read ahead.
    next: usize,
}

impl<'a> Model for Register<'a> {
    ghost use Rattle.std.specs.Prelude.{◌/◌, ◌-◌, ◌*◌, ◌^◌};
    ghost use Rattle.spec_bits.specs.Bits.{bits};
    ghost use Rattle.cabac_engine.specs.Ahead.{Ahead, IsKept};

    ghost Value = { Ahead };

    ghost view = { λ r. record {
      offset = r.value / 2 ^ r.held;
      held = r.held;
      bits = bits r.bytes.now;
      at = 8 * r.next - r.held;
    } };

    ghost invariant = { λ r. IsKept r.value r.held r.next r.bytes.now };
}

impl<'a> Register<'a> {
    /// An offset, and the bits from a place on.
    pub(crate) fn placed(bytes: &'a [u8], offset: u32, at: u64) -> Register<'a>
        requires size { length bytes.now < 2 ^ 60 }
        requires small { offset < 512 }
        requires inside { at ≤ 8 * length bytes.now }
        ensures offset { result.offset ≡ offset }
        ensures bits { result.bits ≡ bits bytes.now }
        ensures at { result.at ≡ at }
    {
        let next = (at + 7) / 8;
        let held = (8 * next - at) as u32;
        let ahead = number_at(bytes, at, held);
        Register {
            held,
            value: (u64::from(offset) << held) + u64::from(ahead),
            bytes,
            next: next as usize,
        }
    }

    /// Moves on to a place, with an offset, and reads ahead there.
    pub(crate) fn place(&mut self, offset: u32, at: u64)
        requires small { offset < 512 }
        requires inside { at ≤ length self.old.bits }
        ensures offset { self.new.offset ≡ offset }
        ensures bits { self.new.bits ≡ self.old.bits }
        ensures at { self.new.at ≡ at }
    {
        *self = Register::placed(self.bytes, offset, at);
        self.fill();
    }

    /// ivlOffset.
    #[inline(always)]
    pub(crate) fn offset(&self) -> u32
        ensures value { result ≡ self.now.offset }
        ensures small { result < 512 }
    {
        (self.value >> self.held) as u32
    }

    /// The place of the bit that is read next.
    #[inline(always)]
    pub(crate) fn at(&self) -> u64
        ensures value { result ≡ self.now.at }
        ensures inside { result ≤ length self.now.bits }
        ensures small { result < 2 ^ 63 }
    {
        8 * self.next as u64 - u64::from(self.held)
    }

    /// How many bits there are.
    #[inline(always)]
    pub(crate) fn length(&self) -> u64
        ensures value { result ≡ length self.now.bits }
        ensures small { result < 2 ^ 63 }
    {
        8 * self.bytes.len() as u64
    }

    /// How many bits are read ahead.
    #[inline(always)]
    pub(crate) fn held(&self) -> u32
        ensures value { result ≡ self.now.held }
        ensures inside { result + self.now.at ≤ length self.now.bits }
    {
        self.held
    }

    /// The number that `n` bits from the next one on spell.
    pub(crate) fn number(&self, n: u32) -> u32
        requires few { n ≤ 32 }
        requires inside { self.now.at + n ≤ length self.now.bits }
        ensures value { result ≡ number_of (take n (drop self.now.at self.now.bits)) }
        ensures small { result < 2 ^ n }
    {
        number_at(self.bytes, self.at(), n)
    }

    /// Whether the bits from the last one that was read on are a 1 and zero bits.
    pub(crate) fn is_stopped(&self) -> bool
        ensures { result ≡ is_stop (drop (self.now.at - 1) self.now.bits) }
    {
        is_stop(self.bytes, self.at().saturating_sub(1))
    }

    /// Reads bytes ahead, until 48 bits are held or no byte is left.
    #[inline(never)]
    fn fill(&mut self)
        ensures offset { self.new.offset ≡ self.old.offset }
        ensures bits { self.new.bits ≡ self.old.bits }
        ensures at { self.new.at ≡ self.old.at }
        ensures enough { (n : ℕ) → n ≤ 48 → n ≤ length self.old.bits - self.old.at → n ≤ self.new.held }
    {
        while self.held < 48 && self.next < self.bytes.len() {
            self.append();
        }
    }

    /// Reads a byte ahead.
    #[inline(always)]
    fn append(&mut self)
        requires few { self.old.held < 48 }
        requires left { self.old.at + self.old.held < length self.old.bits }
        ensures offset { self.new.offset ≡ self.old.offset }
        ensures bits { self.new.bits ≡ self.old.bits }
        ensures at { self.new.at ≡ self.old.at }
        ensures held { self.new.held ≡ self.old.held + 8 }
    {
        self.value = 256 * self.value + u64::from(byte_at(self.bytes, self.next));
        self.held += 8;
        self.next += 1;
    }

    /// Whether `n` more bits are there. They are read ahead then.
    #[inline(always)]
    pub(crate) fn has(&mut self, n: u32) -> bool
        requires { n ≤ 48 }
        ensures value { result ≡ nat_le n (length self.old.bits - self.old.at) }
        ensures held { result ≡ nat_le n self.new.held }
        ensures inside { self.old.at ≤ length self.old.bits }
        ensures offset { self.new.offset ≡ self.old.offset }
        ensures bits { self.new.bits ≡ self.old.bits }
        ensures at { self.new.at ≡ self.old.at }
    {
        self.prepare(n);
        n <= self.held
    }

    /// Reads ahead where fewer than `n` bits are held.
    #[inline(always)]
    fn prepare(&mut self, n: u32)
        requires { n ≤ 48 }
        ensures offset { self.new.offset ≡ self.old.offset }
        ensures bits { self.new.bits ≡ self.old.bits }
        ensures at { self.new.at ≡ self.old.at }
        ensures enough { n ≤ length self.old.bits - self.old.at → n ≤ self.new.held }
    {
        if self.held < n {
            self.fill();
        }
    }

    /// Whether the offset is at least this number.
    #[inline(always)]
    pub(crate) fn reaches(&self, number: u32) -> bool
        requires { number ≤ 510 }
        ensures { result ≡ nat_le number self.now.offset }
    {
        u64::from(number) << self.held <= self.value
    }

    /// Takes a number off the offset, and then as many more bits to it as tell.
    #[inline(always)]
    pub(crate) fn renormalize(&mut self, less: u32, n: u32)
        requires held { n ≤ self.old.held }
        requires less { less ≤ self.old.offset }
        requires small { (self.old.offset - less + 1) * 2 ^ n ≤ 512 }
        ensures offset { self.new.offset
            ≡ (self.old.offset - less) * 2 ^ n + number_of (take n (drop self.old.at self.old.bits)) }
        ensures bits { self.new.bits ≡ self.old.bits }
        ensures at { self.new.at ≡ self.old.at + n }
    {
        self.value -= u64::from(less) << self.held;
        self.held -= n;
    }

    /// Takes one more bit to the offset, and where it is at least a range then, takes that off: whether it was.
    #[inline(always)]
    pub(crate) fn halve(&mut self, range: u32) -> bool
        requires held { 1 ≤ self.old.held }
        requires below { self.old.offset < range }
        requires small { range ≤ 510 }
        ensures bin { result ≡ nat_le range (lengthened self.old) }
        ensures offset { self.new.offset ≡ reduced range (lengthened self.old) }
        ensures bits { self.new.bits ≡ self.old.bits }
        ensures at { self.new.at ≡ self.old.at + 1 }
        ensures held { self.new.held + 1 ≡ self.old.held }
        ensures inside { self.old.at < length self.old.bits }
    {
        self.held -= 1;
        let scaled = u64::from(range) << self.held;
        let bin = scaled <= self.value;
        self.value = if bin { self.value - scaled } else { self.value };
        bin
    }

    /// Halves `n` times: the number that the bins spell, the greatest digit first.
    #[inline(always)]
    pub(crate) fn halve_times(&mut self, range: u32, n: u32) -> u32
        requires few { n ≤ 32 }
        requires held { n ≤ self.old.held }
        requires live { IsLive (engine range self.old) }
        ensures value { bypasses_after n 0 (engine range self.old) ≡ Some (result, engine range self.new) }
        ensures live { IsLive (engine range self.new) }
        ensures small { result < 2 ^ n }
    {
        let bins = self.bins_ahead(range, n);
        self.take_bins(range, n, bins);
        bins
    }

    /// The number that the next `n` bypass bins spell, none of which is taken.
    #[inline(always)]
    pub(crate) fn bins_ahead(&self, range: u32, n: u32) -> u32
        requires few { n ≤ 32 }
        requires held { n ≤ self.now.held }
        requires live { IsLive (engine range self.now) }
        ensures value { spelled n (engine range self.now) ≡ Some result }
        ensures small { result < 2 ^ n }
    {
        quotient(self.value >> (self.held - n), range) as u32
    }

    /// Takes `n` bypass bins, which spell this number.
    #[inline(always)]
    pub(crate) fn take_bins(&mut self, range: u32, n: u32, bins: u32)
        requires few { n ≤ 32 }
        requires held { n ≤ self.old.held }
        requires live { IsLive (engine range self.old) }
        requires spelled { spelled n (engine range self.old) ≡ Some bins }
        ensures value { bypasses_after n 0 (engine range self.old) ≡ Some (bins, engine range self.new) }
        ensures live { IsLive (engine range self.new) }
    {
        let bins = u64::from(bins);
        let range = u64::from(range);
        self.held -= n;
        self.value -= (bins * range) << self.held;
    }
}
