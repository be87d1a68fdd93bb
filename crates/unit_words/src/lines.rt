//! Lines of samples as words, by the depth of their flight.

ghost use Rattle.std.specs.Prelude.{◌≡◌, ℕ, ◌+◌, ◌*◌, ◌/◌, ◌%◌, ◌^◌, ◌<◌, ◌≤◌, length, slice_index};
ghost use Rattle.sample_words.specs.Contents.{there};
ghost use Rattle.sample_words.specs.Packing.{lane};
ghost use Rattle.sample_words.specs.Sizes.{samples_a_word};
ghost use Rattle.sample_words.specs.Values.{sample_bits, samples_word};

use crate::halves::{pack_halves, unpack_halves};
use crate::octets::{pack_octets, unpack_octets};
use sample_words::Layout;

/// The words of a line of samples, as many as there is room for: the first sample in the lowest bits of the first word,
/// and zeros behind the last one.
pub fn pack_line(layout: &Layout, samples: &[u16], words: &mut [u64])
    requires { (i : ℕ) → slice_index samples.now i < 2 ^ sample_bits layout.now }
    ensures count { length words.new ≡ length words.old }
    ensures value { (k : ℕ) → k < length words.old → slice_index words.new k
        ≡ samples_word layout.now (λ j. slice_index samples.now (samples_a_word layout.now * k + j)) }
    ensures line { (f : ℕ → ℕ) → ((i : ℕ) → i < length samples.now → slice_index samples.now i ≡ f i)
        → (k : ℕ) → k < length words.old → slice_index words.new k
        ≡ samples_word layout.now (λ j. there (length samples.now) f (samples_a_word layout.now * k + j)) }
{
    pack_by_depth(layout, samples, words);
}

/// The same, by the depth.
fn pack_by_depth(layout: &Layout, samples: &[u16], words: &mut [u64])
    requires { (i : ℕ) → slice_index samples.now i < 2 ^ sample_bits layout.now }
    ensures count { length words.new ≡ length words.old }
    ensures value { (k : ℕ) → k < length words.old → slice_index words.new k
        ≡ samples_word layout.now (λ j. slice_index samples.now (samples_a_word layout.now * k + j)) }
{
    if layout.sizes().deep {
        pack_halves(samples, words);
    } else {
        pack_octets(samples, words);
    }
}

/// The samples of a line that has such words: those that were packed into them.
pub fn unpack_line(layout: &Layout, words: &[u64], samples: &mut [u16])
    requires { length samples.old ≤ samples_a_word layout.now * length words.now }
    ensures count { length samples.new ≡ length samples.old }
    ensures value { (i : ℕ) → i < length samples.old → slice_index samples.new i
        ≡ lane (sample_bits layout.now) (slice_index words.now (i / samples_a_word layout.now))
        (i % samples_a_word layout.now) }
    ensures again { (f : ℕ → ℕ) → ((i : ℕ) → i < length samples.old → f i < 2 ^ sample_bits layout.now)
        → ((k : ℕ) → k < length words.now → slice_index words.now k
        ≡ samples_word layout.now (λ j. there (length samples.old) f (samples_a_word layout.now * k + j)))
        → (i : ℕ) → i < length samples.old → slice_index samples.new i ≡ f i }
{
    unpack_by_depth(layout, words, samples);
}

/// The same, by the depth.
fn unpack_by_depth(layout: &Layout, words: &[u64], samples: &mut [u16])
    requires { length samples.old ≤ samples_a_word layout.now * length words.now }
    ensures count { length samples.new ≡ length samples.old }
    ensures value { (i : ℕ) → i < length samples.old → slice_index samples.new i
        ≡ lane (sample_bits layout.now) (slice_index words.now (i / samples_a_word layout.now))
        (i % samples_a_word layout.now) }
{
    if layout.sizes().deep {
        unpack_halves(words, samples);
    } else {
        unpack_octets(words, samples);
    }
}
