//! Runs of words of a unit.

ghost use Rattle.std.specs.Prelude.{ℕ, ◌≡◌, ◌+◌, ◌<◌, ◌≤◌, length, slice_index};
ghost use Rattle.progress_words.specs.Passes.{IsPassOf, Knows, view};
ghost use Rattle.progress_words.specs.Rule.{IsNext};
ghost use Rattle.progress_words.specs.Views.{seen_of};
ghost use Rattle.line_words.specs.Passes.{writing_run};
ghost use Rattle.line_words.specs.Places.{HasSizes, number_at, word_at, words_at};

use crate::row_facts::RowFacts;
use crate::unit_place::UnitPlace;
use progress_words::{Board, Pass};

/// Reads words of a unit that the pass has seen counted, from one of them on.
pub fn read_run<F: RowFacts>(
    board: &Board<'_, F>,
    pass: &mut Pass<F>,
    at: &UnitPlace,
    first: usize,
    out: &mut [u64],
)
    requires own { IsPassOf board.now pass.old }
    requires flight { HasSizes (F.flight board.now.flight) at.now.sizes }
    requires seen { at.now.unit < seen_of (view pass.old) (number_at at.now) }
    requires inside { first + length out.old ≤ words_at at.now }
    ensures count { length out.new ≡ length out.old }
    ensures value { (k : ℕ) → k < length out.old
        → slice_index out.new k ≡ (F.flight board.now.flight).expected (word_at at.now (first + k)) }
    ensures same { Knows pass.old pass.new (view pass.old) }
{
    let start = at.start();
    for k in 0..out.len() {
        out[k] = board.read(pass, start + (first + k));
    }
}

/// Writes words of the next unit of the line held, from the first one that isn't written on.
pub fn write_run<F: RowFacts>(
    board: &Board<'_, F>,
    pass: &mut Pass<F>,
    at: &UnitPlace,
    first: usize,
    words: &[u64],
)
    requires own { IsPassOf board.now pass.old }
    requires flight { HasSizes (F.flight board.now.flight) at.now.sizes }
    requires next { IsNext (F.meaning board.now.flight) (view pass.old) (number_at at.now) }
    requires unit { seen_of (view pass.old) (number_at at.now) ≡ at.now.unit }
    requires written { (view pass.old).written ≡ first }
    requires inside { first + length words.now ≤ words_at at.now }
    requires value { (k : ℕ) → k < length words.now
        → slice_index words.now k ≡ (F.flight board.now.flight).expected (word_at at.now (first + k)) }
    ensures { Knows pass.old pass.new (writing_run (view pass.old) (length words.now)) }
{
    let start = at.start();
    for k in 0..words.len() {
        board.write(pass, start + (first + k), words[k]);
    }
}
