//! An arithmetic encoder.

ghost use Rattle.cabac_writer.specs.Held.{IsHeld};

use crate::carry::carry;
use spec_cabac::{after_lps, after_mps, lps_range};
use std::alloc::{AllocError, Global};

/// Bins that are written one after the other.
///
/// Contracts speak of the interval that they leave.
#[derive(Debug, Drop)]
pub struct Encoder {
    /// The bytes that are over, but for a carry.
    bytes: Vec<u8>,
    range: u32,
    /// The bits of ivlLow behind them.
    low: u32,
    /// How many these are, from 9 to 16.
    count: u32,
    ghost held: { IsHeld bytes.items range low count },
}

impl Encoder {
    ghost use Rattle.std.specs.Prelude.{◌≡◌, ◌+◌, ◌-◌, ◌*◌, ◌%◌, ◌^◌, ◌<◌, ◌≤◌, List, ℕ, Bool, true, false, length};
    ghost use Rattle.std.specs.Prelude.{IfOk, OnOk, OnErr, vec_len, vec_capacity, if◌then◌else◌};
    ghost use Rattle.spec_bits.specs.Bits.{bits};
    ghost use Rattle.spec_formats.specs.Format.{Word};
    ghost use Rattle.spec_cabac.specs.Bins.{Bin, BinValue};
    ghost use Rattle.cabac_writer.specs.Coding.{flushed_bits, no_bins, with_bypass, with_decision, with_terminate};
    ghost use Rattle.cabac_writer.specs.Coding.{with_words, context_after, scaled, AreInner, AreContexts};
    ghost use Rattle.cabac_writer.specs.Encoders.{IsLive, coding};
    ghost use Rattle.cabac_writer.specs.Flushed.{HaveBins, HaveAllBins};
    ghost use Rattle.cabac_writer.specs.Pulses.{IsSubstream, MayBeWritten, Pulses};

    /// An encoder that has written nothing.
    pub fn new(alloc: Global) -> Encoder
        ensures value { coding result ≡ no_bins }
        ensures live { IsLive (coding result) }
    {
        Encoder {
            bytes: Vec::new(alloc),
            range: 510,
            low: 0,
            count: 9,
        }
    }

    /// Writes a bin by its context, 2 * pStateIdx + valMps. Where memory is wanting, nothing changes.
    pub fn decision(&mut self, context: &mut u8, bin: bool) -> Result<(), AllocError>
        requires live { IsLive (coding self.old) }
        requires context { context.old < 126 }
        ensures ok { OnOk result (coding self.new ≡ with_decision (coding self.old) context.old bin) }
        ensures after { OnOk result (context.new ≡ context_after context.old bin) }
        ensures live { OnOk result (IsLive (coding self.new)) }
        ensures err { OnErr result ((coding self.new ≡ coding self.old) × (context.new ≡ context.old)) }
        ensures context { context.new < 126 }
    {
        self.bytes.reserve(1)?;
        self.decide(context, bin);
        Ok(())
    }

    /// Writes a bin whose two values are as likely.
    pub fn bypass(&mut self, bin: bool) -> Result<(), AllocError>
        requires { IsLive (coding self.old) }
        ensures ok { OnOk result (coding self.new ≡ with_bypass (coding self.old) bin) }
        ensures live { OnOk result (IsLive (coding self.new)) }
        ensures err { OnErr result (coding self.new ≡ coding self.old) }
    {
        self.bytes.reserve(1)?;
        self.halve(bin);
        Ok(())
    }

    /// Writes a bin before termination. Behind a 1 no bin may be written.
    #[tactic(auto, unfolding(crate::specs::Coding::with_terminate))]
    pub fn terminate(&mut self, bin: bool) -> Result<(), AllocError>
        requires { IsLive (coding self.old) }
        ensures ok { OnOk result (coding self.new ≡ with_terminate (coding self.old) bin) }
        ensures live { OnOk result (bin ≡ false → IsLive (coding self.new)) }
        ensures err { OnErr result (coding self.new ≡ coding self.old) }
    {
        self.bytes.reserve(1)?;
        if bin {
            self.narrow(self.range - 2, 2);
        } else {
            self.narrow(0, self.range - 2);
            self.renormalize();
        }
        Ok(())
    }

    /// The bytes of all bins: their bits, of which the last is the stop bit behind a terminate bin of 1, and zeros up
    /// to the end of a byte. Where memory is wanting, the encoder is gone.
    ///
    /// By the clauses each bin is read back, with a terminate bin of 1 at the end or without; and so are substreams
    /// in which samples of pulse code modulation stand between the bins of several encoders.
    pub fn flush(self) -> Result<Vec<u8>, AllocError>
        ensures value { IfOk result (λ bytes. bits bytes.items ≡ flushed_bits (coding self)) }
        //
        ensures bins_read_back { IfOk result (λ bytes. (words : List (Word Bin BinValue)) (contexts : List ℕ)
            → AreInner words → AreContexts contexts
            → coding self ≡ with_terminate (with_words (no_bins, contexts) words).0 true
            → HaveAllBins (bits bytes.items) words contexts) }
        ensures open_bins_read_back { IfOk result (λ bytes. (words : List (Word Bin BinValue)) (contexts : List ℕ)
            → AreInner words → AreContexts contexts → coding self ≡ (with_words (no_bins, contexts) words).0
            → HaveBins (bits bytes.items) words contexts) }
        //
        // Behind bins and a terminate bin of 1 come samples, behind them the bins of another encoder, and so on.
        ensures substreams_read_back { (bins : List (Word Bin BinValue)) (pulses : List Pulses) (contexts : List ℕ)
            (before after : List Bool) → MayBeWritten bins pulses → AreContexts contexts → length before % 8 ≡ 0
            → IsSubstream bins pulses contexts before after }
    {
        let mut bytes = self.bytes;
        let tail = (self.low / 2 * 2 + 1) << (16 - self.count);
        bytes.push((tail / 256) as u8)?;
        bytes.push((tail % 256) as u8)?;
        Ok(bytes)
    }

    /// Goes on with the part of the interval from `skip` on that has this range.
    fn narrow(&mut self, skip: u32, range: u32)
        requires short { skip < 512 }
        requires inside { skip + range ≤ self.old.range }
        requires least { 2 ≤ range }
        ensures coding { coding self.new
            ≡ record { range = range; low = (coding self.old).low + skip; size = (coding self.old).size } }
        ensures len { vec_len self.new.bytes ≡ vec_len self.old.bytes }
        ensures capacity { vec_capacity self.new.bytes ≡ vec_capacity self.old.bytes }
    {
        let low = self.low + skip;
        let whole = 1 << self.count;
        self.range = range;
        if low < whole {
            self.low = low;
        } else {
            carry(&mut self.bytes);
            self.low = low - whole;
        }
    }

    #[tactic(auto, unfolding(crate::specs::Coding::with_decision, crate::specs::Coding::context_after))]
    fn decide(&mut self, context: &mut u8, bin: bool)
        requires live { IsLive (coding self.old) }
        requires context { context.old < 126 }
        requires room { vec_len self.old.bytes < vec_capacity self.old.bytes }
        ensures coding { coding self.new ≡ with_decision (coding self.old) context.old bin }
        ensures after { context.new ≡ context_after context.old bin }
        ensures live { IsLive (coding self.new) }
        ensures context { context.new < 126 }
    {
        let lps = lps_range(u32::from(*context / 2), self.range);
        let rest = self.range - lps;
        if bin == (*context % 2 == 1) {
            self.narrow(0, rest);
            self.renormalize();
            *context = after_mps(*context);
        } else {
            self.narrow(rest, lps);
            self.renormalize();
            *context = after_lps(*context);
        }
    }

    #[tactic(auto, unfolding(crate::specs::Coding::with_bypass))]
    fn halve(&mut self, bin: bool)
        requires live { IsLive (coding self.old) }
        requires room { vec_len self.old.bytes < vec_capacity self.old.bytes }
        ensures coding { coding self.new ≡ with_bypass (coding self.old) bin }
        ensures live { IsLive (coding self.new) }
    {
        let range = self.range;
        self.shift(1);
        if bin {
            self.narrow(range, range);
        } else {
            self.narrow(0, range);
        }
    }

    /// Doubles the interval until its range is at least 256.
    fn renormalize(&mut self)
        requires high { self.old.range ≤ 510 }
        requires room { vec_len self.old.bytes < vec_capacity self.old.bytes }
        ensures coding { coding self.new ≡ scaled (coding self.old).range (coding self.old).low (coding self.old).size }
        ensures live { IsLive (coding self.new) }
    {
        let n = self.range.leading_zeros() - 23;
        self.shift(n);
    }

    /// Doubles the interval so many times.
    fn shift(&mut self, n: u32)
        requires few { n ≤ 8 }
        requires high { self.old.range * 2 ^ n ≤ 1020 }
        requires room { vec_len self.old.bytes < vec_capacity self.old.bytes }
        ensures { coding self.new ≡ record {
          range = self.old.range * 2 ^ n;
          low = (coding self.old).low * 2 ^ n;
          size = (coding self.old).size + n;
        } }
    {
        let low = self.low << n;
        let count = self.count + n;
        self.range <<= n;
        if count <= 16 {
            self.low = low;
            self.count = count;
        } else {
            let left = count - 8;
            self.bytes.push_reserved((low >> left) as u8);
            self.low = low % (1 << left);
            self.count = left;
        }
    }
}
