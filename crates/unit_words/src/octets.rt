//! Lines of samples of 8 bits, eight a word.

ghost use Rattle.std.specs.Prelude.{◌≡◌, ℕ, ◌+◌, ◌-◌, ◌*◌, ◌/◌, ◌%◌, ◌^◌, ◌<◌, ◌≤◌, ◌&&◌, nat_le, nat_lt, length};
ghost use Rattle.std.specs.Prelude.{slice_index, if◌then◌else◌};
ghost use Rattle.sample_words.specs.Packing.{lane, lanes};

use std::simd::prelude::*;

/// The words of a line.
pub(crate) fn pack_octets(samples: &[u16], words: &mut [u64])
    requires { (i : ℕ) → slice_index samples.now i < 256 }
    ensures count { length words.new ≡ length words.old }
    ensures value { (k : ℕ) → k < length words.old
        → slice_index words.new k ≡ lanes 8 8 (λ j. slice_index samples.now (8 * k + j)) }
{
    let whole = (samples.len() / 8).min(words.len());
    for k in 0..whole {
        words[k] = eight(samples, 8 * k);
    }
    for last in whole..words.len() {
        words[last] = last_eight(samples, 8 * last);
    }
}

/// Eight samples from one on.
#[inline(always)]
fn eight(samples: &[u16], first: usize) -> u64
    requires depth { (i : ℕ) → slice_index samples.now i < 256 }
    requires enough { first + 8 ≤ length samples.now }
    ensures { result ≡ lanes 8 8 (λ j. slice_index samples.now (first + j)) }
{
    u64::from_le_bytes(bytes_of(u16x8::from_slice(&samples[first..])))
}

/// Eight samples as bytes.
#[inline(always)]
fn bytes_of(samples: u16x8) -> [u8; 8]
    requires long { length samples ≡ 8 }
    requires depth { (i : ℕ) → i < 8 → slice_index samples i < 256 }
    ensures { (i : ℕ) → i < 8 → slice_index result i ≡ slice_index samples i }
{
    samples.cast::<u8>().to_array()
}

/// Eight samples from one on, zeros behind the last.
#[tactic(auto, unfolding(sample_words::specs::Packing::lanes))]
fn last_eight(samples: &[u16], first: usize) -> u64
    requires depth { (i : ℕ) → slice_index samples.now i < 256 }
    requires few { first < 2 ^ 63 }
    ensures { result ≡ lanes 8 8 (λ j. slice_index samples.now (first + j)) }
{
    last_four(samples, first) + 4_294_967_296 * last_four(samples, first + 4)
}

/// Four samples from one on, zeros behind the last.
#[inline(always)]
fn last_four(samples: &[u16], first: usize) -> u64
    requires depth { (i : ℕ) → slice_index samples.now i < 256 }
    requires few { first < 2 ^ 63 + 4 }
    ensures value { result ≡ slice_index samples.now first + 256 * slice_index samples.now (first + 1)
        + 65536 * slice_index samples.now (first + 2) + 16777216 * slice_index samples.now (first + 3) }
    ensures small { result < 4294967296 }
{
    sample_at(samples, first)
        + 256 * sample_at(samples, first + 1)
        + 65_536 * sample_at(samples, first + 2)
        + 16_777_216 * sample_at(samples, first + 3)
}

/// The sample at a place; 0 behind the last one.
#[inline(always)]
pub(crate) fn sample_at(samples: &[u16], i: usize) -> u64
    ensures value { result ≡ slice_index samples.now i }
    ensures small { result < 65536 }
{
    match samples.get(i) {
        Some(sample) => u64::from(*sample),
        None => 0,
    }
}

/// The samples of a line.
pub(crate) fn unpack_octets(words: &[u64], samples: &mut [u16])
    requires { length samples.old ≤ 8 * length words.now }
    ensures count { length samples.new ≡ length samples.old }
    ensures value { (i : ℕ) → i < length samples.old
        → slice_index samples.new i ≡ lane 8 (slice_index words.now (i / 8)) (i % 8) }
{
    let whole = samples.len() / 8;
    for k in 0..whole {
        lay_eight(words[k], samples, 8 * k);
    }
    for i in 8 * whole..samples.len() {
        samples[i] = octet(words[i / 8], i % 8);
    }
}

/// The eight samples of a word, laid from a place on.
#[inline(always)]
fn lay_eight(word: u64, samples: &mut [u16], first: usize)
    requires { first + 8 ≤ length samples.old }
    ensures count { length samples.new ≡ length samples.old }
    ensures value { (i : ℕ) → slice_index samples.new i
        ≡ (if nat_le first i && nat_lt i (first + 8) then lane 8 word (i - first) else slice_index samples.old i) }
{
    samples_of(word).copy_to_slice(&mut samples[first..]);
}

/// The eight samples of a word.
#[inline(always)]
fn samples_of(word: u64) -> u16x8
    ensures long { length result ≡ 8 }
    ensures value { (j : ℕ) → j < 8 → slice_index result j ≡ lane 8 word j }
{
    u8x8::from_array(word.to_le_bytes()).cast::<u16>()
}

/// Sample `j` of a word.
#[inline(always)]
#[tactic(auto, unfolding(sample_words::specs::Packing::lane))]
fn octet(word: u64, j: usize) -> u16
    requires { j < 8 }
    ensures { result ≡ lane 8 word j }
{
    ((word >> (8 * j)) % 256) as u16
}
