//! The motion of a row of coding tree units, out of the words of its units.

ghost use Rattle.std.specs.Prelude.{◌≡◌, ℕ, ◌+◌, ◌*◌, ◌/◌, ◌<◌, ◌≤◌, ◌&&◌, Some, slice_get, if◌then◌else◌};
ghost use Rattle.hv_base.specs.declared.line.Phase.TheVariants.{B};
ghost use Rattle.picture_buffer.specs.Motion.{HasPlaces, motions_of};
ghost use Rattle.sample_words.specs.Sizes.{columns};
ghost use Rattle.sample_words.specs.Words.{IsLine, line_number};
ghost use Rattle.spec_flights.specs.Pictures.{folded_at};
ghost use Rattle.progress_words.specs.Passes.{IsPassOf, Knows, view};
ghost use Rattle.progress_words.specs.Views.{seen_of};
ghost use Rattle.line_words.specs.Passes.{AreAllSound};
ghost use Rattle.line_words.specs.Places.{number_at};
ghost use Rattle.sample_lines.specs.FactsOfFlights.{flight_meaning};
ghost use Rattle.sample_lines.specs.FactsOfFlights.{flight_in};
ghost use Rattle.sample_lines.specs.FactsOfFlights.{IsOfFlight};
ghost use Rattle.taken_pictures.specs.Places.{ArePlaceWords, IsPlaceRow, IsTreeUnit};
ghost use Rattle.taken_pictures.specs.Rows.{is_place_of_row};

use crate::kept_places::SegmentMotion;
use crate::laws::words_tell_the_motion_of_their_places;
use crate::place_rows::{PlaceRow, lay_row};
use crate::place_words::PlaceWords;
use crate::reading::{read_modes, read_vectors};
use hv_base::Line;
use line_words::UnitPlace;
use picture_buffer::MotionField;
use picture_layout::{CodingTreeUnit, Layout as PictureLayout};
use plan_types::PicturePlan;
use progress_words::{Board, Pass};
use sample_lines::FlightFacts;
use sample_words::Layout;

/// Takes the motion of the places of a row of coding tree units, all of which the pass has seen counted, into a field
/// of the picture's size. The other rows of places stay.
pub fn take_row_motion(
    board: &Board<'_, FlightFacts>,
    pass: &mut Pass<FlightFacts>,
    layout: &Layout,
    plan: &PicturePlan,
    line: Line,
    field: &mut MotionField,
)
    requires own { IsPassOf board.now pass.old }
    requires flight { IsOfFlight board.now.flight layout.now }
    requires line { IsLine layout.now line }
    requires phase { line.phase ≡ B }
    requires picture { slice_get (flight_in board.now.flight).pictures line.picture ≡ Some plan.now }
    requires seen { columns layout.now ≤ seen_of (view pass.old) (line_number layout.now line) }
    requires known { AreAllSound (flight_meaning (flight_in board.now.flight)) (view pass.old) }
    requires sides { HasPlaces field.old (layout.now.width / 4) (layout.now.height / 4) }
    ensures sides { HasPlaces field.new (layout.now.width / 4) (layout.now.height / 4) }
    ensures places { (i j : ℕ) → i < layout.now.width / 4 → j < layout.now.height / 4
        → motions_of field.new i j
        ≡ (if is_place_of_row layout.now line.row j
        then (folded_at (flight_in board.now.flight) line.picture).motions i j
        else motions_of field.old i j) }
    ensures same { Knows pass.old pass.new (view pass.old) }
{
    let columns = layout.columns() as u32;
    for column in 0..columns {
        let at = UnitPlace::new(layout, line, column);
        take_unit(board, pass, layout, plan, &at, field);
    }
}

/// Takes the motion of the places of a coding tree unit.
fn take_unit(
    board: &Board<'_, FlightFacts>,
    pass: &mut Pass<FlightFacts>,
    layout: &Layout,
    plan: &PicturePlan,
    at: &UnitPlace,
    field: &mut MotionField,
)
    requires own { IsPassOf board.now pass.old }
    requires unit { IsTreeUnit board.now.flight at.now plan.now }
    requires place { at.now.sizes ≡ layout.now }
    requires seen { at.now.unit < seen_of (view pass.old) (number_at at.now) }
    requires sides { HasPlaces field.old (layout.now.width / 4) (layout.now.height / 4) }
    ensures sides { HasPlaces field.new (layout.now.width / 4) (layout.now.height / 4) }
    ensures places { (i j : ℕ) → i < layout.now.width / 4 → j < layout.now.height / 4
        → motions_of field.new i j
        ≡ (if is_place_of_row layout.now at.now.line.row j && is_place_of_row layout.now at.now.unit i
        then (folded_at (flight_in board.now.flight) at.now.line.picture).motions i j
        else motions_of field.old i j) }
    ensures same { Knows pass.old pass.new (view pass.old) }
{
    words_tell_the_motion_of_their_places();
    let picture = PictureLayout::new(plan);
    let unit = unit_of(layout, at, picture);
    let words = PlaceWords::new(layout, at);
    // Most pictures have one segment.
    let mut segment = SegmentMotion::new(&unit, plan, 0);
    for y in 0..words.rows {
        let row = read_row(board, pass, layout, at, &words, y);
        lay_row(&unit, plan, &mut segment, &row, field);
    }
}

/// A unit in a picture of this shape. Which slice it is of is left open: the motion that a picture keeps of its places
/// doesn't depend on that.
fn unit_of(layout: &Layout, at: &UnitPlace, picture: PictureLayout) -> CodingTreeUnit
    requires place { at.now.sizes ≡ layout.now }
    requires phase { at.now.line.phase ≡ B }
    requires width { picture.width ≡ columns layout.now }
    ensures layout { result.layout ≡ picture }
    ensures address { result.address ≡ at.now.line.row * picture.width + at.now.unit }
{
    let _rows = layout.rows();
    let _columns = layout.columns();
    let line = at.line();
    let column = at.unit();
    let width = picture.width();
    CodingTreeUnit {
        layout: picture,
        slice: 0,
        address: line.row * width + column,
    }
}

/// Reads the words of a row of places of a unit.
fn read_row(
    board: &Board<'_, FlightFacts>,
    pass: &mut Pass<FlightFacts>,
    layout: &Layout,
    at: &UnitPlace,
    words: &PlaceWords,
    y: usize,
) -> PlaceRow
    requires own { IsPassOf board.now pass.old }
    requires flight { IsOfFlight board.now.flight at.now.sizes }
    requires place { at.now.sizes ≡ layout.now }
    requires seen { at.now.unit < seen_of (view pass.old) (number_at at.now) }
    requires phase { at.now.line.phase ≡ B }
    requires words { ArePlaceWords at.now words.now }
    requires row { y < words.now.rows }
    ensures row { IsPlaceRow (flight_in board.now.flight) at.now y result }
    ensures same { Knows pass.old pass.new (view pass.old) }
{
    let side = layout.ctb_size() as usize / 4;
    let line = at.line();
    let column = at.unit();
    let mut vectors = [0; 16];
    read_vectors(board, pass, at, words, y, &mut vectors);
    let mut modes = [0; 16];
    read_modes(board, pass, at, words, y, &mut modes);
    PlaceRow {
        x: side * column as usize,
        y: side * line.row as usize + y,
        count: words.columns,
        vectors,
        modes,
    }
}
