//! Samples into words of a unit that follow one another.

ghost use Rattle.std.specs.Prelude.{ℕ, ◌≡◌, ◌+◌, ◌*◌, ◌^◌, ◌<◌, ◌≤◌, length, slice_index};
ghost use Rattle.sample_words.specs.Sizes.{line_words, samples_a_word};
ghost use Rattle.sample_words.specs.Values.{sample_bits, samples_word};
ghost use Rattle.flight_facts.specs.SpecFlights.{expected};
ghost use Rattle.progress_words.specs.Passes.{IsPassOf, Knows, view};
ghost use Rattle.progress_words.specs.Rule.{IsNext};
ghost use Rattle.progress_words.specs.Views.{seen_of};
ghost use Rattle.line_words.specs.Passes.{writing_run};
ghost use Rattle.line_words.specs.Places.{IsUnit, number_at, word_at, words_at};
ghost use Rattle.flight_facts.specs.Boards.{flight_meaning};
ghost use Rattle.flight_facts.specs.Facts.{flight_in};
ghost use Rattle.flight_facts.specs.Flights.{IsOfFlight};

use flight_facts::FlightFacts;
use line_words::{UnitPlace, write_run};
use progress_words::{Board, Pass};
use sample_words::Layout;
use unit_words::pack_line;

/// Writes the words of samples, which are the next ones of a unit.
#[tactic(auto, unfolding(sample_words::specs::Sizes::line_words))]
pub(crate) fn write_words(
    board: &Board<'_, FlightFacts>,
    pass: &mut Pass<FlightFacts>,
    layout: &Layout,
    at: &UnitPlace,
    first: usize,
    samples: &[u16],
)
    requires own { IsPassOf board.now pass.old }
    requires flight { IsOfFlight board.now.flight layout.now }
    requires shape { IsUnit at.now }
    requires place { at.now.sizes ≡ layout.now }
    requires next { IsNext (flight_meaning (flight_in board.now.flight)) (view pass.old) (number_at at.now) }
    requires unit { seen_of (view pass.old) (number_at at.now) ≡ at.now.unit }
    requires written { (view pass.old).written ≡ first }
    requires inside { first + line_words layout.now (length samples.now) ≤ words_at at.now }
    requires few { length samples.now ≤ 8192 }
    requires depth { (i : ℕ) → slice_index samples.now i < 2 ^ sample_bits layout.now }
    requires value { (k : ℕ) → k < line_words layout.now (length samples.now)
        → samples_word layout.now (λ j. slice_index samples.now (samples_a_word layout.now * k + j))
        ≡ expected (flight_in board.now.flight) (word_at at.now (first + k)) }
    ensures { Knows pass.old pass.new
        (writing_run (view pass.old) (line_words layout.now (length samples.now))) }
{
    let run = 16 * layout.samples_a_word() as usize;
    let runs = (samples.len() + (run - 1)) / run;
    for k in 0..runs {
        let from = run * k;
        let end = samples.len().min(from + run);
        write_few(board, pass, layout, at, first + 16 * k, &samples[from..end]);
    }
}

/// The same of at most sixteen words.
#[tactic(auto, unfolding(sample_words::specs::Sizes::line_words))]
fn write_few(
    board: &Board<'_, FlightFacts>,
    pass: &mut Pass<FlightFacts>,
    layout: &Layout,
    at: &UnitPlace,
    first: usize,
    samples: &[u16],
)
    requires own { IsPassOf board.now pass.old }
    requires flight { IsOfFlight board.now.flight layout.now }
    requires place { at.now.sizes ≡ layout.now }
    requires next { IsNext (flight_meaning (flight_in board.now.flight)) (view pass.old) (number_at at.now) }
    requires unit { seen_of (view pass.old) (number_at at.now) ≡ at.now.unit }
    requires written { (view pass.old).written ≡ first }
    requires inside { first + line_words layout.now (length samples.now) ≤ words_at at.now }
    requires few { length samples.now ≤ 16 * samples_a_word layout.now }
    requires depth { (i : ℕ) → slice_index samples.now i < 2 ^ sample_bits layout.now }
    requires value { (k : ℕ) → k < line_words layout.now (length samples.now)
        → samples_word layout.now (λ j. slice_index samples.now (samples_a_word layout.now * k + j))
        ≡ expected (flight_in board.now.flight) (word_at at.now (first + k)) }
    ensures { Knows pass.old pass.new
        (writing_run (view pass.old) (line_words layout.now (length samples.now))) }
{
    let mut words = [0; 16];
    let count = layout.line_words(samples.len() as u64) as usize;
    write_from(board, pass, layout, at, first, &mut words[..count], samples);
}

/// The same by room for the words.
#[inline(always)]
fn write_from(
    board: &Board<'_, FlightFacts>,
    pass: &mut Pass<FlightFacts>,
    layout: &Layout,
    at: &UnitPlace,
    first: usize,
    words: &mut [u64],
    samples: &[u16],
)
    requires own { IsPassOf board.now pass.old }
    requires flight { IsOfFlight board.now.flight layout.now }
    requires place { at.now.sizes ≡ layout.now }
    requires next { IsNext (flight_meaning (flight_in board.now.flight)) (view pass.old) (number_at at.now) }
    requires unit { seen_of (view pass.old) (number_at at.now) ≡ at.now.unit }
    requires written { (view pass.old).written ≡ first }
    requires inside { first + length words.old ≤ words_at at.now }
    requires depth { (i : ℕ) → slice_index samples.now i < 2 ^ sample_bits layout.now }
    requires value { (k : ℕ) → k < length words.old
        → samples_word layout.now (λ j. slice_index samples.now (samples_a_word layout.now * k + j))
        ≡ expected (flight_in board.now.flight) (word_at at.now (first + k)) }
    ensures { Knows pass.old pass.new (writing_run (view pass.old) (length words.old)) }
{
    pack_line(layout, samples, words);
    write_run(board, pass, at, first, words);
}
