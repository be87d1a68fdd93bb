//! The interval of arithmetic decoding, and the bins and samples that it gives.

ghost use Rattle.std.specs.Prelude.{◌≡◌, ◌+◌, ◌-◌, ◌*◌, ◌^◌, ◌<◌, ◌≤◌, ◌∷◌, [], length, slice_index, IfSome, OnSome};
ghost use Rattle.std.specs.Prelude.{Some};
ghost use Rattle.std.specs.Prelude.{false, if◌then◌else◌};
ghost use Rattle.spec_bits.specs.Bits.{bits, Finds, Gives};
ghost use Rattle.spec_cabac.specs.Engine.{Engine, IsLive, start_at, doublings, renormalized_at, decision_at, bypass_at};
ghost use Rattle.spec_cabac.specs.Engine.{terminate_at, number_at, pcm_start_at, sample_at, pcm_end_at, is_trailing};
ghost use Rattle.cabac_engine.specs.Steps.{Steps, state_of, bypasses_after, spelled};

use crate::register::Register;
use crate::transitions::context_after;
use spec_cabac::lps_range;
use std::marker::Model;

/// ivlCurrRange and ivlOffset, the bytes of a substream, and the place of the bit that is read next.
///
/// A call that lacks bits answers `None` and leaves the interval and the context as they were.
#[derive(Debug, Drop)]
pub struct Interval<'a> {
    range: u32,
    register: Register<'a>,
}

impl<'a> Model for Interval<'a> {
    ghost use Rattle.spec_cabac.specs.Engine.{Engine};

    ghost Value = { Engine };

    ghost view = { λ i. record {
      range = i.range;
      offset = i.register.offset;
      bits = i.register.bits;
      at = i.register.at;
    } };
}

impl<'a> Interval<'a> {
    /// The interval before the first bin of `bytes` (9.3.2.5); `None` where there are fewer than nine bits.
    #[tactic(auto, unfolding(spec_cabac::specs::Engine::started_at))]
    pub fn start(bytes: &'a [u8]) -> Option<Interval<'a>>
        requires { length bytes.now < 2 ^ 60 }
        ensures value { Finds (λ i. i) result (start_at (bits bytes.now)) }
        ensures live { IfSome result IsLive }
    {
        let mut interval = Interval {
            range: 510,
            register: Register::placed(bytes, 0, 0),
        };
        interval.pcm_end()?;
        Some(interval)
    }

    /// A bin that its context decides (9.3.4.3.2). A context is 2 * pStateIdx + valMps.
    #[inline(always)]
    #[tactic(auto, unfolding(spec_cabac::specs::Engine::decision_at))]
    pub fn decision(&mut self, context: &mut u8) -> Option<bool>
        requires live { IsLive self.old }
        requires context { context.old < 126 }
        ensures value { Gives result (self.old, context.old) (self.new, context.new)
            (decision_at (self.old, context.old)) }
        ensures live { OnSome result (IsLive self.new) }
        ensures context { context.new < 126 }
    {
        let before = *context;
        let lps = lps_range(u32::from(before / 2), self.range);
        let rest = self.range - lps;
        let less_probable = self.register.reaches(rest);
        self.renormalize(
            either(less_probable, lps, rest),
            either(less_probable, rest, 0),
        )?;
        *context = context_after(before, less_probable);
        Some(less_probable != (before % 2 == 1))
    }

    /// A bin whose two values are as likely (9.3.4.3.4).
    #[inline(always)]
    #[tactic(auto, unfolding(spec_cabac::specs::Engine::bypass_at))]
    pub fn bypass(&mut self) -> Option<bool>
        requires { IsLive self.old }
        ensures value { Gives result self.old self.new (bypass_at self.old) }
        ensures live { OnSome result (IsLive self.new) }
    {
        if !self.register.has(1) {
            return None;
        }
        Some(self.register.halve(self.range))
    }

    /// The number that `n` bypass bins spell, the greatest digit first; `None` where one of them lacks bits.
    #[inline(always)]
    pub fn bypass_bins(&mut self, n: u32) -> Option<u32>
        requires live { IsLive self.old }
        requires few { n ≤ 32 }
        ensures value { Gives result self.old self.new (bypasses_after n 0 self.old) }
        ensures live { OnSome result (IsLive self.new) }
        ensures small { IfSome result (λ value. value < 2 ^ n) }
    {
        if !self.register.has(n) {
            return None;
        }
        Some(self.register.halve_times(self.range, n))
    }

    /// The number that the next `n` bypass bins spell, the greatest digit first, none of which is taken; `None` where
    /// one of them lacks bits.
    #[inline(always)]
    pub fn bins_ahead(&mut self, n: u32) -> Option<u32>
        requires live { IsLive self.old }
        requires few { n ≤ 32 }
        ensures value { result ≡ spelled n self.old }
        ensures same { self.new ≡ self.old }
        ensures small { IfSome result (λ bins. bins < 2 ^ n) }
    {
        if !self.register.has(n) {
            return None;
        }
        Some(self.register.bins_ahead(self.range, n))
    }

    /// Takes `n` bypass bins, which spell this number.
    #[inline(always)]
    pub fn take_bins(&mut self, n: u32, bins: u32)
        requires live { IsLive self.old }
        requires few { n ≤ 32 }
        requires spelled { spelled n self.old ≡ Some bins }
        ensures value { bypasses_after n 0 self.old ≡ Some (bins, self.new) }
        ensures live { IsLive self.new }
    {
        if self.register.has(n) {
            self.register.take_bins(self.range, n, bins);
        }
    }

    /// A bin before termination (9.3.4.3.5). After a 1 no bin may be asked before the engine starts anew.
    #[tactic(auto, unfolding(spec_cabac::specs::Engine::terminate_at))]
    pub fn terminate(&mut self) -> Option<bool>
        requires { IsLive self.old }
        ensures value { Gives result self.old self.new (terminate_at self.old) }
        ensures live { IfSome result (λ ended. ended ≡ false → IsLive self.new) }
    {
        let range = self.range - 2;
        if self.register.reaches(range) {
            self.range = range;
            Some(true)
        } else {
            self.renormalize(range, 0)?;
            Some(false)
        }
    }

    /// Behind a 1 of [`terminate`](Self::terminate), goes on to the byte at which PCM samples begin, and answers its
    /// place; `None` where there is no such byte (7.3.8.7, 9.3.2.5).
    #[tactic(auto, unfolding(spec_cabac::specs::Engine::pcm_start_at))]
    pub fn after_pcm(&mut self) -> Option<u64>
        ensures value { Gives result self.old self.new (pcm_start_at self.old) }
    {
        let byte = (self.register.at() + 7) / 8;
        if 8 * byte >= self.register.length() {
            return None;
        }
        let offset = self.register.offset();
        self.register.place(offset, 8 * byte);
        Some(byte)
    }

    /// A PCM sample of `size` bits (7.3.8.7); `None` where fewer bits are left.
    pub fn pcm_sample(&mut self, size: u32) -> Option<u32>
        requires { size ≤ 32 }
        ensures value { Gives result self.old self.new (sample_at size self.old) }
        ensures small { IfSome result (λ sample. sample < 2 ^ size) }
    {
        if !self.register.has(size) {
            return None;
        }
        let sample = self.register.number(size);
        self.register.place(self.register.offset(), self.register.at() + u64::from(size));
        Some(sample)
    }

    /// Starts anew behind PCM samples (9.3.2.5); `None` where fewer than nine bits are left.
    #[tactic(auto, unfolding(spec_cabac::specs::Engine::started_at))]
    pub fn pcm_end(&mut self) -> Option<()>
        ensures value { Steps result self.old self.new (pcm_end_at self.old) }
        ensures live { OnSome result (IsLive self.new) }
    {
        if !self.register.has(9) {
            return None;
        }
        let offset = self.register.number(9);
        self.range = 510;
        self.register.place(offset.min(509), self.register.at() + 9);
        Some(())
    }

    /// Whether the last bit that was read is the stop bit of rbsp_slice_segment_trailing_bits, and zero bits alone
    /// follow it (7.3.2.10, 9.3.2.5).
    #[tactic(auto, unfolding(spec_cabac::specs::Engine::is_trailing))]
    pub fn is_trailing(&self) -> bool
        ensures { result ≡ is_trailing self.now }
    {
        self.register.is_stopped()
    }

    /// ivlCurrRange, ivlOffset, and how many bits are left.
    pub fn state(&self) -> [u64; 3]
        ensures { result ≡ state_of self.now }
    {
        [
            u64::from(self.range),
            u64::from(self.register.offset()),
            self.register.length() - self.register.at(),
        ]
    }

    /// How many bits from the next one on are read ahead: behind [`start`](Self::start) 48 or more, where so many are
    /// left.
    pub fn ahead(&self) -> u32
        ensures { result + self.now.at ≤ length self.now.bits }
    {
        self.register.held()
    }

    /// The interval of these bytes whose [`state`](Self::state) this is.
    pub fn resume(bytes: &'a [u8], state: [u64; 3]) -> Interval<'a>
        requires size { length bytes.now < 2 ^ 60 }
        requires low { 256 ≤ slice_index state 0 }
        requires high { slice_index state 0 ≤ 510 }
        requires below { slice_index state 1 < slice_index state 0 }
        requires left { slice_index state 2 ≤ 8 * length bytes.now }
        ensures value { (engine : Engine) → engine.bits ≡ bits bytes.now → engine.at ≤ length engine.bits
            → state ≡ state_of engine → result ≡ engine }
        ensures live { IsLive result }
    {
        Interval {
            range: state[0] as u32,
            register: Register::placed(bytes, state[1] as u32, 8 * bytes.len() as u64 - state[2]),
        }
    }

    /// Takes a number off the offset, takes a range from 2 on, and doubles both until the range is at least 256
    /// (9.3.4.3.3).
    #[inline(always)]
    #[tactic(auto, using(crate::proofs::Stepping::renormalized_none))]
    fn renormalize(&mut self, range: u32, less: u32) -> Option<()>
        requires low { 2 ≤ range }
        requires high { range ≤ 510 }
        requires less { less ≤ self.old.offset }
        requires below { self.old.offset - less < range }
        ensures value { Steps result self.old self.new (renormalized_at range (self.old.offset - less) self.old) }
        ensures live { OnSome result (IsLive self.new) }
    {
        let n = doublings(range);
        if !self.register.has(n) {
            return None;
        }
        self.register.renormalize(less, n);
        self.range = range << n;
        Some(())
    }
}

/// How often a range from 2 to 510 is doubled until it is at least 256.
#[inline(always)]
fn doublings(range: u32) -> u32
    requires low { 2 ≤ range }
    requires high { range ≤ 510 }
    ensures value { result ≡ doublings range }
    ensures few { result ≤ 7 }
{
    range.leading_zeros() - 23
}

/// One of two numbers.
#[inline(always)]
fn either(first: bool, one: u32, other: u32) -> u32
    ensures { result ≡ (if first then one else other) }
{
    if first { one } else { other }
}
