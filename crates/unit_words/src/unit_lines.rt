//! Lines of samples of a coding tree unit as words.

ghost use Rattle.std.specs.Prelude.{◌≡◌, ℕ, ◌+◌, ◌*◌, ◌^◌, ◌<◌, ◌≤◌, length, slice_index};
ghost use Rattle.sample_words.specs.Contents.{there};
ghost use Rattle.sample_words.specs.Sizes.{samples_a_word};
ghost use Rattle.sample_words.specs.Values.{sample_bits, samples_word};
ghost use Rattle.unit_words.specs.Units.{unit_sample};

use crate::lines::pack_line;
use sample_words::Layout;
use unit_build::UnitSamples;

/// The words of the first so many samples of a line of a component.
pub(crate) fn pack_unit_line(
    layout: &Layout,
    samples: &UnitSamples,
    c: usize,
    line: usize,
    width: usize,
    words: &mut [u64],
)
    requires component { c < 3 }
    requires line { line < 64 }
    requires width { width ≤ 64 }
    requires depth { (x : ℕ) → x < width → unit_sample samples.now c x line < 2 ^ sample_bits layout.now }
    ensures count { length words.new ≡ length words.old }
    ensures value { (k : ℕ) → k < length words.old → slice_index words.new k
        ≡ samples_word layout.now (λ j. there width (λ x. unit_sample samples.now c x line)
        (samples_a_word layout.now * k + j)) }
{
    let cells = samples.line(c, line + 1);
    pack_line(layout, &cells[1..1 + width], words);
}
