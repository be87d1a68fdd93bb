//! Samples in words: eight of 8 bits each, or four of 16, the first in the lowest bits.

ghost use Rattle.std.specs.Prelude.{◌≡◌, ℕ, ◌+◌, ◌-◌, ◌*◌, ◌^◌, ◌<◌, ◌≤◌, ◌&&◌, min, nat_le, nat_lt, length};
ghost use Rattle.std.specs.Prelude.{cond, slice_index, if◌then◌else◌};
ghost use Rattle.sample_words.specs.Packing.{lane, lanes};
ghost use Rattle.sample_words.specs.Sizes.{samples_a_word};
ghost use Rattle.sample_words.specs.Values.{sample_bits, samples_word};

use crate::board::Layout;

impl Layout {
    /// Word `k` of a line of samples, with zeros behind the last one.
    pub fn pack_samples(&self, samples: &[u16], k: usize) -> u64
        requires depth { (i : ℕ) → slice_index samples.now i < 2 ^ sample_bits self.now }
        requires few { k < 2 ^ 32 }
        ensures { result ≡ samples_word self.now (λ j. slice_index samples.now (samples_a_word self.now * k + j)) }
    {
        let sizes = self.sizes();
        packed(sizes.deep, samples, k)
    }

    /// The samples of word `k` of a line, as far as the line goes.
    pub fn unpack_samples(&self, word: u64, samples: &mut [u16], k: usize)
        requires { k < 2 ^ 32 }
        ensures { (i : ℕ) → slice_index samples.new i
            ≡ (if nat_le (samples_a_word self.now * k) i
            && nat_lt i (min (length samples.old) (samples_a_word self.now * k + samples_a_word self.now))
            then lane (sample_bits self.now) word (i - samples_a_word self.now * k)
            else slice_index samples.old i) }
    {
        let sizes = self.sizes();
        unpack(sizes.deep, word, samples, k);
    }
}

/// Word `k` of a line, by the depth of its samples.
fn packed(deep: bool, samples: &[u16], k: usize) -> u64
    requires depth { (i : ℕ) → slice_index samples.now i < 2 ^ cond deep 16 8 }
    requires few { k < 2 ^ 32 }
    ensures { result
        ≡ lanes (cond deep 16 8) (cond deep 4 8) (λ j. slice_index samples.now (cond deep 4 8 * k + j)) }
{
    if deep {
        return four_samples(samples, 4 * k);
    }
    eight_samples(samples, 8 * k)
}

/// The samples of word `k` of a line, by their depth.
fn unpack(deep: bool, word: u64, samples: &mut [u16], k: usize)
    requires { k < 2 ^ 32 }
    ensures { (i : ℕ) → slice_index samples.new i
        ≡ (if nat_le (cond deep 4 8 * k) i && nat_lt i (min (length samples.old) (cond deep 4 8 * k + cond deep 4 8))
        then lane (cond deep 16 8) word (i - cond deep 4 8 * k)
        else slice_index samples.old i) }
{
    if deep {
        return unpack_four(word, samples, 4 * k);
    }
    unpack_eight(word, samples, 8 * k)
}

/// The sample at a place; 0 behind the last one.
#[inline(always)]
fn sample(samples: &[u16], i: usize) -> u64
    ensures value { result ≡ slice_index samples.now i }
    ensures small { result < 65536 }
{
    match samples.get(i) {
        Some(sample) => u64::from(*sample),
        None => 0,
    }
}

/// Eight samples from one on.
#[tactic(auto, unfolding(crate::specs::Packing::lanes))]
fn eight_samples(samples: &[u16], first: usize) -> u64
    requires depth { (i : ℕ) → slice_index samples.now i < 256 }
    requires few { first ≤ 2 ^ 36 }
    ensures { result ≡ lanes 8 8 (λ j. slice_index samples.now (first + j)) }
{
    four_bytes(samples, first) + 4_294_967_296 * four_bytes(samples, first + 4)
}

/// Four samples of 8 bits from one on.
#[inline(always)]
fn four_bytes(samples: &[u16], first: usize) -> u64
    requires depth { (i : ℕ) → slice_index samples.now i < 256 }
    requires few { first ≤ 2 ^ 37 }
    ensures value { result ≡ slice_index samples.now first + 256 * slice_index samples.now (first + 1)
        + 65536 * slice_index samples.now (first + 2) + 16777216 * slice_index samples.now (first + 3) }
    ensures small { result < 4294967296 }
{
    sample(samples, first)
        + 256 * sample(samples, first + 1)
        + 65_536 * sample(samples, first + 2)
        + 16_777_216 * sample(samples, first + 3)
}

/// Four samples of 16 bits from one on.
#[tactic(auto, unfolding(crate::specs::Packing::lanes))]
fn four_samples(samples: &[u16], first: usize) -> u64
    requires { first ≤ 2 ^ 36 }
    ensures { result ≡ lanes 16 4 (λ j. slice_index samples.now (first + j)) }
{
    two_samples(samples, first) + 4_294_967_296 * two_samples(samples, first + 2)
}

/// Two samples of 16 bits from one on.
#[inline(always)]
fn two_samples(samples: &[u16], first: usize) -> u64
    requires { first ≤ 2 ^ 37 }
    ensures value { result ≡ slice_index samples.now first + 65536 * slice_index samples.now (first + 1) }
    ensures small { result < 4294967296 }
{
    sample(samples, first) + 65_536 * sample(samples, first + 1)
}

/// The eight samples of a word, laid from a place on as far as there are places.
fn unpack_eight(word: u64, samples: &mut [u16], first: usize)
    requires { first ≤ 2 ^ 36 }
    ensures { (i : ℕ) → slice_index samples.new i
        ≡ (if nat_le first i && nat_lt i (min (length samples.old) (first + 8)) then lane 8 word (i - first)
        else slice_index samples.old i) }
{
    let end = samples.len().min(first + 8);
    for i in first..end {
        samples[i] = byte_lane(word, i - first);
    }
}

/// The same of four samples.
fn unpack_four(word: u64, samples: &mut [u16], first: usize)
    requires { first ≤ 2 ^ 36 }
    ensures { (i : ℕ) → slice_index samples.new i
        ≡ (if nat_le first i && nat_lt i (min (length samples.old) (first + 4)) then lane 16 word (i - first)
        else slice_index samples.old i) }
{
    let end = samples.len().min(first + 4);
    for i in first..end {
        samples[i] = half_lane(word, i - first);
    }
}

/// Sample `j` of eight.
#[inline(always)]
#[tactic(auto, unfolding(crate::specs::Packing::lane))]
fn byte_lane(word: u64, j: usize) -> u16
    requires { j < 8 }
    ensures { result ≡ lane 8 word j }
{
    ((word >> (8 * j)) % 256) as u16
}

/// Sample `j` of four.
#[inline(always)]
#[tactic(auto, unfolding(crate::specs::Packing::lane))]
fn half_lane(word: u64, j: usize) -> u16
    requires { j < 4 }
    ensures { result ≡ lane 16 word j }
{
    ((word >> (16 * j)) % 65_536) as u16
}
