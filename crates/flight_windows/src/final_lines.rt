//! Lines of samples of final rows, out of the words of a board.

ghost use Rattle.std.specs.Prelude.{◌≡◌, ◌+◌, ◌*◌, ◌<◌, ◌≤◌, ℕ, pos, ◌+ℤ◌, ◌≤ℤ◌, length, min};
ghost use Rattle.hv_base.specs.declared.line.Phase.TheVariants.{S};
ghost use Rattle.header_types.specs.declared.sps.PictureFormat.{PictureFormat};
ghost use Rattle.inter_pred.specs.Passes.{at};
ghost use Rattle.progress_words.specs.Passes.{IsPassOf, Knows, view};
ghost use Rattle.progress_words.specs.Views.{seen_of};
ghost use Rattle.sample_words.specs.Sizes.{samples_a_word};
ghost use Rattle.spec_inter_prediction.specs.Taps.{clamped};
ghost use Rattle.spec_picture_build.specs.References.{greatest_sample};
ghost use Rattle.line_words.specs.Places.{number_at};
ghost use Rattle.sample_lines.specs.FactsOfFlights.{flight_in};
ghost use Rattle.sample_lines.specs.FactsOfFlights.{IsOfFlight};
ghost use Rattle.sample_lines.specs.Lines.{height_at, sample_of, width_at};
ghost use Rattle.flight_windows.specs.Lines.{IsFinalRow, IsRowPlace, IsSpan};
ghost use Rattle.flight_windows.specs.Reading.{SeesRows, flight_sample};

use crate::final_rows::{FinalRow, FinalRows};
use crate::nothing::clear;
use crate::row_places::RowPlace;
use crate::spans::Span;
use inter_pred::held_line;
use line_words::UnitPlace;
use progress_words::{Board, Pass};
use sample_lines::{FlightFacts, read_samples};
use sample_words::Layout;

/// Samples of a line of a final row of a picture, held to a greatest one: those of a span; 0 where the row isn't seen.
pub(crate) fn final_line(
    rows: &FinalRows<'_>,
    pass: &mut Pass<FlightFacts>,
    row: &FinalRow,
    place: RowPlace,
    c: usize,
    span: Span,
    greatest: u16,
    out: &mut [u16],
)
    requires sees { SeesRows rows.now pass.old }
    requires row { IsFinalRow rows.now.layout rows.now.seen.now row.now }
    requires here { row.now.row ≡ place.row }
    requires component { c < 3 }
    requires place { IsRowPlace rows.now.layout c place }
    requires span { IsSpan rows.now.layout c (length out.old) span }
    requires count { length out.old ≤ 71 }
    ensures count { length out.new ≡ length out.old }
    ensures value { (format : PictureFormat) → greatest ≡ greatest_sample format c → (k : ℕ) → k < length out.old
        → at out.new k
        ≡ flight_sample rows.now row.now.picture format c (span.column +ℤ pos k) place.y }
    ensures same { Knows pass.old pass.new (view pass.old) }
{
    match row.at {
        Some(at) => unit_line(
            rows.board,
            pass,
            &rows.layout,
            &at,
            c,
            place.line as usize,
            span,
            greatest,
            out,
        ),
        None => clear(out),
    }
}

/// Samples of a line of a unit, held to a greatest one: those of a span.
#[inline(always)]
fn unit_line(
    board: &Board<'_, FlightFacts>,
    pass: &mut Pass<FlightFacts>,
    layout: &Layout,
    unit: &UnitPlace,
    c: usize,
    line: usize,
    span: Span,
    greatest: u16,
    out: &mut [u16],
)
    requires own { IsPassOf board.now pass.old }
    requires flight { IsOfFlight board.now.flight layout.now }
    requires sizes { unit.now.sizes ≡ layout.now }
    requires phase { unit.now.line.phase ≡ S }
    requires seen { unit.now.unit < seen_of (view pass.old) (number_at unit.now) }
    requires component { c < 3 }
    requires line { line < height_at unit.now c }
    requires some { 0 < span.count }
    requires few { span.count ≤ 78 }
    requires inside { samples_a_word layout.now * span.word + span.count ≤ width_at unit.now c }
    requires place { span.left ≤ℤ pos 1073741824 }
    requires count { length out.old ≤ 71 }
    ensures count { length out.new ≡ length out.old }
    ensures value { (k : ℕ) → k < length out.old
        → at out.new k
        ≡ min (sample_of (flight_in board.now.flight) unit.now c
        (samples_a_word layout.now * span.word + clamped (span.left +ℤ pos k) span.count) line) greatest }
    ensures same { Knows pass.old pass.new (view pass.old) }
{
    let mut samples = [0; 80];
    words_line(
        board,
        pass,
        layout,
        unit,
        c,
        line,
        span,
        greatest,
        &mut samples[..span.count],
        out,
    );
}

/// The same by way of the samples of the words of the span.
#[inline(always)]
fn words_line(
    board: &Board<'_, FlightFacts>,
    pass: &mut Pass<FlightFacts>,
    layout: &Layout,
    unit: &UnitPlace,
    c: usize,
    line: usize,
    span: Span,
    greatest: u16,
    samples: &mut [u16],
    out: &mut [u16],
)
    requires own { IsPassOf board.now pass.old }
    requires flight { IsOfFlight board.now.flight layout.now }
    requires sizes { unit.now.sizes ≡ layout.now }
    requires phase { unit.now.line.phase ≡ S }
    requires seen { unit.now.unit < seen_of (view pass.old) (number_at unit.now) }
    requires component { c < 3 }
    requires line { line < height_at unit.now c }
    requires some { 0 < span.count }
    requires few { span.count ≤ 78 }
    requires inside { samples_a_word layout.now * span.word + span.count ≤ width_at unit.now c }
    requires place { span.left ≤ℤ pos 1073741824 }
    requires count { length out.old ≤ 71 }
    requires samples { length samples.old ≡ span.count }
    ensures count { length out.new ≡ length out.old }
    ensures value { (k : ℕ) → k < length out.old
        → at out.new k
        ≡ min (sample_of (flight_in board.now.flight) unit.now c
        (samples_a_word layout.now * span.word + clamped (span.left +ℤ pos k) span.count) line) greatest }
    ensures same { Knows pass.old pass.new (view pass.old) }
{
    read_samples(board, pass, layout, unit, c, line, span.word, samples);
    held_line(samples, span.left, greatest, out);
}
