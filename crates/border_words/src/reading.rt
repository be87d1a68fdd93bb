//! Words of the places of a coding tree unit, by their contents.

ghost use Rattle.std.specs.Prelude.{◌≡◌, ℕ, ◌+◌, ◌*◌, ◌<◌, ◌≤◌, length, slice_index};
ghost use Rattle.border_words.specs.Units.{ArePlaceWords, word_in};
ghost use Rattle.sample_lines.specs.FactsOfFlights.{flight_in};
ghost use Rattle.sample_lines.specs.FactsOfFlights.{IsOfFlight};
ghost use Rattle.hv_base.specs.declared.line.Phase.TheVariants.{B};
ghost use Rattle.line_words.specs.Places.{number_at, word_at, words_at};
ghost use Rattle.progress_words.specs.Passes.{IsPassOf, Knows, view};
ghost use Rattle.progress_words.specs.Views.{seen_of};
ghost use Rattle.sample_words.specs.declared.unit_content.UnitContent.TheVariants.{Modes, Offsets, Vectors};
ghost use Rattle.spec_flights.specs.Words.{expected};

use crate::place_words::PlaceWords;
use line_words::{UnitPlace, read_run};
use progress_words::{Board, Pass};
use sample_lines::{FlightFacts, pictures_have_the_sizes_of_their_flight};
use sample_words::unpack_modes;

/// Words of a unit that the pass has seen counted, from one of them on: they are those that the flight expects.
fn read_words(
    board: &Board<'_, FlightFacts>,
    pass: &mut Pass<FlightFacts>,
    at: &UnitPlace,
    first: usize,
    out: &mut [u64],
)
    requires own { IsPassOf board.now pass.old }
    requires flight { IsOfFlight board.now.flight at.now.sizes }
    requires seen { at.now.unit < seen_of (view pass.old) (number_at at.now) }
    requires inside { first + length out.old ≤ words_at at.now }
    ensures count { length out.new ≡ length out.old }
    ensures value { (k : ℕ) → k < length out.old
        → slice_index out.new k ≡ expected (flight_in board.now.flight) (word_at at.now (first + k)) }
    ensures same { Knows pass.old pass.new (view pass.old) }
{
    pictures_have_the_sizes_of_their_flight();
    read_run(board, pass, at, first, out);
}

/// As many of them as are asked for, into the first words of an array.
fn read_first(
    board: &Board<'_, FlightFacts>,
    pass: &mut Pass<FlightFacts>,
    at: &UnitPlace,
    first: usize,
    count: usize,
    out: &mut [u64; 16],
)
    requires own { IsPassOf board.now pass.old }
    requires flight { IsOfFlight board.now.flight at.now.sizes }
    requires seen { at.now.unit < seen_of (view pass.old) (number_at at.now) }
    requires few { count ≤ 16 }
    requires inside { first + count ≤ words_at at.now }
    ensures value { (k : ℕ) → k < count
        → slice_index out.new k ≡ expected (flight_in board.now.flight) (word_at at.now (first + k)) }
    ensures same { Knows pass.old pass.new (view pass.old) }
{
    read_words(board, pass, at, first, &mut out[..count]);
}

/// The words of the vectors of a row of places, from the left one on.
pub(crate) fn read_vectors(
    board: &Board<'_, FlightFacts>,
    pass: &mut Pass<FlightFacts>,
    at: &UnitPlace,
    words: &PlaceWords,
    row: usize,
    out: &mut [u64; 16],
)
    requires own { IsPassOf board.now pass.old }
    requires flight { IsOfFlight board.now.flight at.now.sizes }
    requires seen { at.now.unit < seen_of (view pass.old) (number_at at.now) }
    requires phase { at.now.line.phase ≡ B }
    requires words { ArePlaceWords at.now words.now }
    requires row { row < words.now.rows }
    ensures value { (i : ℕ) → i < words.now.columns
        → slice_index out.new i ≡ word_in (flight_in board.now.flight) at.now (Vectors i row) }
    ensures same { Knows pass.old pass.new (view pass.old) }
{
    let first = words.vectors + row * words.columns;
    read_first(board, pass, at, first, words.columns, out);
}

/// Those of their modes.
pub(crate) fn read_modes(
    board: &Board<'_, FlightFacts>,
    pass: &mut Pass<FlightFacts>,
    at: &UnitPlace,
    words: &PlaceWords,
    row: usize,
    out: &mut [u64; 16],
)
    requires own { IsPassOf board.now pass.old }
    requires flight { IsOfFlight board.now.flight at.now.sizes }
    requires seen { at.now.unit < seen_of (view pass.old) (number_at at.now) }
    requires phase { at.now.line.phase ≡ B }
    requires words { ArePlaceWords at.now words.now }
    requires row { row < words.now.rows }
    ensures value { (i : ℕ) → i < words.now.columns
        → slice_index out.new i ≡ word_in (flight_in board.now.flight) at.now (Modes i row) }
    ensures same { Knows pass.old pass.new (view pass.old) }
{
    let first = words.modes + row * words.columns;
    read_first(board, pass, at, first, words.columns, out);
}

/// Both words of its sample adaptive offset.
pub(crate) fn read_offsets(
    board: &Board<'_, FlightFacts>,
    pass: &mut Pass<FlightFacts>,
    at: &UnitPlace,
    words: &PlaceWords,
    out: &mut [u64; 2],
)
    requires own { IsPassOf board.now pass.old }
    requires flight { IsOfFlight board.now.flight at.now.sizes }
    requires seen { at.now.unit < seen_of (view pass.old) (number_at at.now) }
    requires phase { at.now.line.phase ≡ B }
    requires words { ArePlaceWords at.now words.now }
    ensures value { (k : ℕ) → k < 2
        → slice_index out.new k ≡ word_in (flight_in board.now.flight) at.now (Offsets k) }
    ensures same { Knows pass.old pass.new (view pass.old) }
{
    read_words(board, pass, at, words.offsets, out);
}

/// A word of a unit.
fn read_word(
    board: &Board<'_, FlightFacts>,
    pass: &mut Pass<FlightFacts>,
    at: &UnitPlace,
    index: usize,
) -> u64
    requires own { IsPassOf board.now pass.old }
    requires flight { IsOfFlight board.now.flight at.now.sizes }
    requires seen { at.now.unit < seen_of (view pass.old) (number_at at.now) }
    requires inside { index < words_at at.now }
    ensures value { result ≡ expected (flight_in board.now.flight) (word_at at.now index) }
    ensures same { Knows pass.old pass.new (view pass.old) }
{
    let mut words = [0; 1];
    read_words(board, pass, at, index, &mut words);
    words[0]
}

/// The two words of one place: those of its vectors and of its modes.
pub(crate) fn read_place(
    board: &Board<'_, FlightFacts>,
    pass: &mut Pass<FlightFacts>,
    at: &UnitPlace,
    words: &PlaceWords,
    column: usize,
    row: usize,
) -> (u64, u64)
    requires own { IsPassOf board.now pass.old }
    requires flight { IsOfFlight board.now.flight at.now.sizes }
    requires seen { at.now.unit < seen_of (view pass.old) (number_at at.now) }
    requires phase { at.now.line.phase ≡ B }
    requires words { ArePlaceWords at.now words.now }
    requires column { column < words.now.columns }
    requires row { row < words.now.rows }
    ensures vectors { result.0 ≡ word_in (flight_in board.now.flight) at.now (Vectors column row) }
    ensures modes { result.1 ≡ word_in (flight_in board.now.flight) at.now (Modes column row) }
    ensures same { Knows pass.old pass.new (view pass.old) }
{
    let offset = row * words.columns + column;
    let first = words.vectors + offset;
    let second = words.modes + offset;
    let vectors = read_word(board, pass, at, first);
    let modes = read_word(board, pass, at, second);
    (vectors, modes)
}

/// The number of the slice segment of a unit's first place.
pub(crate) fn read_segment(
    board: &Board<'_, FlightFacts>,
    pass: &mut Pass<FlightFacts>,
    at: &UnitPlace,
    words: &PlaceWords,
) -> u32
    requires own { IsPassOf board.now pass.old }
    requires flight { IsOfFlight board.now.flight at.now.sizes }
    requires seen { at.now.unit < seen_of (view pass.old) (number_at at.now) }
    requires phase { at.now.line.phase ≡ B }
    requires words { ArePlaceWords at.now words.now }
    ensures { Knows pass.old pass.new (view pass.old) }
{
    let word = read_word(board, pass, at, words.modes);
    unpack_modes(word).segment
}
