//! Lines of samples of 16 bits, four a word.

ghost use Rattle.std.specs.Prelude.{◌≡◌, ℕ, ◌+◌, ◌-◌, ◌*◌, ◌/◌, ◌%◌, ◌^◌, ◌<◌, ◌≤◌, ◌&&◌, nat_le, nat_lt, length};
ghost use Rattle.std.specs.Prelude.{slice_index, if◌then◌else◌};
ghost use Rattle.sample_words.specs.Packing.{lane, lanes};

use crate::octets::sample_at;

/// The words of a line.
pub(crate) fn pack_halves(samples: &[u16], words: &mut [u64])
    ensures count { length words.new ≡ length words.old }
    ensures value { (k : ℕ) → k < length words.old
        → slice_index words.new k ≡ lanes 16 4 (λ j. slice_index samples.now (4 * k + j)) }
{
    let whole = (samples.len() / 4).min(words.len());
    for k in 0..whole {
        words[k] = four(samples, 4 * k);
    }
    for last in whole..words.len() {
        words[last] = last_four(samples, 4 * last);
    }
}

/// Four samples from one on.
#[inline(always)]
#[tactic(auto, unfolding(sample_words::specs::Packing::lanes))]
fn four(samples: &[u16], first: usize) -> u64
    requires { first + 4 ≤ length samples.now }
    ensures { result ≡ lanes 16 4 (λ j. slice_index samples.now (first + j)) }
{
    two(samples, first) + 4_294_967_296 * two(samples, first + 2)
}

/// Two samples from one on.
#[inline(always)]
fn two(samples: &[u16], first: usize) -> u64
    requires { first + 2 ≤ length samples.now }
    ensures value { result ≡ slice_index samples.now first + 65536 * slice_index samples.now (first + 1) }
    ensures small { result < 4294967296 }
{
    u64::from(samples[first]) + 65_536 * u64::from(samples[first + 1])
}

/// Four samples from one on, zeros behind the last.
#[tactic(auto, unfolding(sample_words::specs::Packing::lanes))]
fn last_four(samples: &[u16], first: usize) -> u64
    requires { first < 2 ^ 63 }
    ensures { result ≡ lanes 16 4 (λ j. slice_index samples.now (first + j)) }
{
    last_two(samples, first) + 4_294_967_296 * last_two(samples, first + 2)
}

/// Two samples from one on, zeros behind the last.
#[inline(always)]
fn last_two(samples: &[u16], first: usize) -> u64
    requires { first < 2 ^ 63 + 2 }
    ensures value { result ≡ slice_index samples.now first + 65536 * slice_index samples.now (first + 1) }
    ensures small { result < 4294967296 }
{
    sample_at(samples, first) + 65_536 * sample_at(samples, first + 1)
}

/// The samples of a line.
pub(crate) fn unpack_halves(words: &[u64], samples: &mut [u16])
    requires { length samples.old ≤ 4 * length words.now }
    ensures count { length samples.new ≡ length samples.old }
    ensures value { (i : ℕ) → i < length samples.old
        → slice_index samples.new i ≡ lane 16 (slice_index words.now (i / 4)) (i % 4) }
{
    let whole = samples.len() / 4;
    for k in 0..whole {
        lay_four(words[k], samples, 4 * k);
    }
    for i in 4 * whole..samples.len() {
        samples[i] = half(words[i / 4], i % 4);
    }
}

/// The four samples of a word, laid from a place on.
#[inline(always)]
fn lay_four(word: u64, samples: &mut [u16], first: usize)
    requires { first + 4 ≤ length samples.old }
    ensures count { length samples.new ≡ length samples.old }
    ensures value { (i : ℕ) → slice_index samples.new i
        ≡ (if nat_le first i && nat_lt i (first + 4) then lane 16 word (i - first) else slice_index samples.old i) }
{
    for j in 0..4 {
        samples[first + j] = half(word, j);
    }
}

/// Sample `j` of a word.
#[inline(always)]
#[tactic(auto, unfolding(sample_words::specs::Packing::lane))]
fn half(word: u64, j: usize) -> u16
    requires { j < 4 }
    ensures { result ≡ lane 16 word j }
{
    ((word >> (16 * j)) % 65_536) as u16
}
