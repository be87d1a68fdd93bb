//! A reader of bins.

ghost use Rattle.std.specs.Prelude.{◌≡◌, ℕ, ◌+◌, ◌-◌, ◌*◌, ◌/◌, ◌%◌, ◌^◌, ◌<◌, ◌≤◌, IfOk, IfSome, Ok, false};
ghost use Rattle.spec_cabac.specs.HvBase.{Breach};
ghost use Rattle.spec_cabac.specs.Engine.{IsLive};
ghost use Rattle.spec_cabac.specs.Bins.{decision, bypass, terminate, pcm_start, sample, pcm_end, fixed, ones};
ghost use Rattle.spec_cabac.specs.Bins.{exp_golomb, read, truncated};
ghost use Rattle.cabac_contexts.specs.Takes.{Finds, IsAhead, Reaches, Takes, prefixed, state_of};

use crate::contexts::Contexts;
use cabac_engine::Interval;
use spec_cabac::{Breach, FaultKind};

const DATA_END: Breach = Breach::Fault(FaultKind::DataEnd);

/// The interval and the contexts of a slice segment.
#[derive(Debug, Drop)]
pub struct BinReader<'a> {
    /// The interval, and the bits of the substream that aren't read yet.
    pub interval: Interval<'a>,
    /// The contexts, as the bins before left them.
    pub contexts: Contexts,
}

impl<'a> BinReader<'a> {
    /// A bin that context `i` decides (9.3.4.3.2).
    #[inline(always)]
    pub fn decision(&mut self, i: usize) -> Result<bool, Breach>
        requires live { IsLive self.old.interval }
        requires context { i < 154 }
        ensures { Takes (λ x. x) result self.old self.new (decision i) }
    {
        match self.bin(i) {
            Some(bin) => Ok(bin),
            None => Err(DATA_END),
        }
    }

    /// A bin that context `i` decides (9.3.4.3.2); `None` where bits lack.
    #[inline(always)]
    #[tactic(auto, unfolding(spec_cabac::specs::Bins::bin_at))]
    pub fn bin(&mut self, i: usize) -> Option<bool>
        requires live { IsLive self.old.interval }
        requires context { i < 154 }
        ensures { Finds result self.old self.new (decision i) }
    {
        let mut context = self.contexts.get(i);
        let bin = self.interval.decision(&mut context)?;
        self.contexts.set(i, context);
        Some(bin)
    }

    /// A bin whose two values are as likely (9.3.4.3.4).
    #[inline(always)]
    #[tactic(auto, unfolding(spec_cabac::specs::Bins::bin_at))]
    pub fn bypass(&mut self) -> Result<bool, Breach>
        requires { IsLive self.old.interval }
        ensures { Takes (λ x. x) result self.old self.new bypass }
    {
        self.interval.bypass().ok_or(DATA_END)
    }

    /// A bin before termination (9.3.4.3.5). After a 1 no bin may be asked before the engine starts anew.
    #[tactic(auto, unfolding(spec_cabac::specs::Bins::bin_at))]
    pub fn terminate(&mut self) -> Result<bool, Breach>
        requires { IsLive self.old.interval }
        ensures value { Reaches (λ x. x) result self.old self.new terminate }
        ensures live { IfOk result (λ ended. ended ≡ false → IsLive self.new.interval) }
    {
        self.interval.terminate().ok_or(DATA_END)
    }

    /// Behind a 1 of [`terminate`](Self::terminate), goes on to the byte at which PCM samples begin (7.3.8.7).
    #[tactic(auto, unfolding(spec_cabac::specs::Bins::bin_at))]
    pub fn pcm_start(&mut self) -> Result<(), Breach>
        ensures { Reaches (λ _. tt) result self.old self.new pcm_start }
    {
        self.interval.after_pcm().ok_or(DATA_END)?;
        Ok(())
    }

    /// A PCM sample of `size` bits (7.3.8.7).
    #[tactic(auto, unfolding(spec_cabac::specs::Bins::bin_at))]
    pub fn sample(&mut self, size: u32) -> Result<u32, Breach>
        requires { size ≤ 32 }
        ensures value { Reaches (λ x. x) result self.old self.new (sample size) }
        ensures small { IfOk result (λ sample. sample < 2 ^ size) }
    {
        self.interval.pcm_sample(size).ok_or(DATA_END)
    }

    /// Starts anew behind PCM samples (9.3.2.5).
    #[tactic(auto, unfolding(spec_cabac::specs::Bins::bin_at))]
    pub fn pcm_end(&mut self) -> Result<(), Breach>
        ensures { Takes (λ _. tt) result self.old self.new pcm_end }
    {
        self.interval.pcm_end().ok_or(DATA_END)
    }

    /// The number that `n` bypass bins spell, the greatest digit first (9.3.3.4).
    pub fn fixed(&mut self, n: u32) -> Result<u32, Breach>
        requires live { IsLive self.old.interval }
        requires few { n ≤ 32 }
        ensures value { Takes (λ x. x) result self.old self.new (fixed n) }
        ensures small { IfOk result (λ value. value < 2 ^ n) }
    {
        self.interval.bypass_bins(n).ok_or(DATA_END)
    }

    /// A number up to a greatest one by TR binarization without a suffix (9.3.3.2): how many bypass bins are 1 before
    /// the first 0.
    pub fn truncated(&mut self, greatest: u32) -> Result<u32, Breach>
        requires { IsLive self.old.interval }
        ensures value { Takes (λ x. x) result self.old self.new (truncated (λ i. bypass) greatest) }
        ensures small { IfOk result (λ n. n ≤ greatest) }
    {
        for n in 0..greatest {
            if !self.bypass()? {
                return Ok(n);
            }
        }
        Ok(greatest)
    }

    /// How many bypass bins are 1 before the first 0; the breach where 32 are.
    pub fn ones(&mut self, too_great: Breach) -> Result<u32, Breach>
        requires { IsLive self.old.interval }
        ensures value { Takes (λ x. x) result self.old self.new (ones too_great) }
        ensures small { IfOk result (λ n. n < 32) }
    {
        for i in 0..32u32 {
            if !self.bypass()? {
                return Ok(i);
            }
        }
        Err(too_great)
    }

    /// The number that the next 16 bypass bins spell, and how many of them are 1 before the first 0; none is taken.
    /// `None` where one of them lacks bits.
    #[inline(always)]
    pub fn ahead(&mut self) -> Option<(u32, u32)>
        requires { IsLive self.old.interval }
        ensures told { IfSome result (λ a. IsAhead a.0 a.1 self.old.interval) }
        ensures same { self.new ≡ self.old }
    {
        let bins = self.interval.bins_ahead(16)?;
        Some((bins, ones_of(bins)))
    }

    /// Takes a prefix, which was seen ahead, and a suffix of `size` bypass bins: what the suffix spells.
    #[inline(always)]
    pub fn take_prefixed(&mut self, bins: u32, prefix: u32, size: u32) -> u32
        requires live { IsLive self.old.interval }
        requires ahead { IsAhead bins prefix self.old.interval }
        requires few { prefix + size < 16 }
        ensures value { (too_great : Breach) (f : ℕ → ℕ) → f prefix ≡ size
            → read (prefixed too_great f) (state_of self.old) ≡ Ok ((prefix, result), state_of self.new) }
        ensures live { IsLive self.new.interval }
        ensures small { result < 2 ^ size }
    {
        let taken = bins >> (15 - prefix - size);
        self.interval.take_bins(prefix + 1 + size, taken);
        low_digits(taken, size)
    }

    /// A number by EGk binarization (9.3.3.3); the breach where its prefix has 32 ones.
    #[tactic(auto, unfolding(spec_cabac::specs::Bins::exp_golomb))]
    pub fn exp_golomb(&mut self, too_great: Breach, k: u32) -> Result<u64, Breach>
        requires live { IsLive self.old.interval }
        requires small { k ≤ 1 }
        ensures value { Takes (λ x. x) result self.old self.new (exp_golomb too_great k) }
        ensures small { IfOk result (λ value. value < 2 ^ 34) }
    {
        let n = self.ones(too_great)?;
        let rest = self.fixed(k + n)?;
        Ok(power(k + n) - power(k) + u64::from(rest))
    }
}

/// How many of the 16 digits of a number are 1 before the first 0.
#[inline(always)]
fn ones_of(bins: u32) -> u32
    requires { bins < 2 ^ 16 }
    ensures few { result ≤ 16 }
    ensures told { result < 16 → bins / 2 ^ (15 - result) ≡ 2 ^ (result + 1) - 2 }
{
    (2 * (65535 - bins) + 1).leading_zeros() - 15
}

/// The number that the last digits of one spell.
#[inline(always)]
fn low_digits(bins: u32, n: u32) -> u32
    requires { n < 16 }
    ensures { result ≡ bins % 2 ^ n }
{
    bins % (1 << n)
}

/// A power of two.
fn power(n: u32) -> u64
    requires small { n ≤ 32 }
    ensures value { result ≡ 2 ^ n }
    ensures small { result ≤ 4294967296 }
{
    1 << n
}
