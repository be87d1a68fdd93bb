//! The motion of the collocated picture beneath a coding tree unit (8.5.3.2.8).

ghost use Rattle.std.specs.Prelude.{◌≡◌, ℕ, ◌<◌, ◌≤◌, Some, slice_get, true};
ghost use Rattle.std.specs.Option.{option_copied};
ghost use Rattle.border_words.specs.Beneath.{AreReferences, base_motions, flight_motions, named_motions};
ghost use Rattle.board_core.specs.Places.{line_of};
ghost use Rattle.sample_lines.specs.FactsOfFlights.{flight_in};
ghost use Rattle.sample_lines.specs.FactsOfFlights.{IsOfFlight};
ghost use Rattle.flight_plan.specs.declared.row_range.Reference.TheVariants.{Flight};
ghost use Rattle.header_types.specs.SequenceParameterSets.{size_in_ctbs};
ghost use Rattle.hv_base.specs.declared.line.Phase.TheVariants.{B};
ghost use Rattle.progress_words.specs.Passes.{IsPassOf, Knows, view};
ghost use Rattle.progress_words.specs.Views.{seen_of};
ghost use Rattle.row_borders.specs.Borders.{with_beneath};
ghost use Rattle.row_borders.specs.Building.{IsBeneath};
ghost use Rattle.sample_words.specs.Sizes.{columns};
ghost use Rattle.sample_words.specs.Words.{line_number};
ghost use Rattle.spec_flights.specs.Pictures.{pictures_before};
ghost use Rattle.spec_flights.specs.References.{collocated_by};
ghost use Rattle.spec_flights.specs.Rows.{is_sound};
ghost use Rattle.spec_picture_build.specs.References.{motions_in, motions_of};
ghost use Rattle.spec_picture_motion.specs.Derived.{collocated_motions};
ghost use Rattle.spec_picture_motion.specs.Slices.{collocated_entry};
ghost use Rattle.spec_picture_trees.specs.Shapes.{picture_shape, slice_start};
ghost use Rattle.spec_slice_data.specs.Segment.{row_of};

use crate::field_blocks::lay_field;
use crate::picture_blocks::lay_picture;
use crate::reference_pictures::ReferencePictures;
use flight_plan::Reference;
use hv_base::{Line, Phase};
use picture_buffer::Bases;
use picture_layout::slice_of;
use plan_types::{PicturePlan, SegmentPlan};
use progress_words::{Board, Pass};
use row_borders::{Beside, RowBorder, collocated_entry};
use sample_lines::{FlightFacts, names_stand_for_the_pictures_of_the_buffer};
use sample_words::Layout;

/// Lays the motion of the collocated picture of a segment's slice beneath a border's unit: none where the slice has no
/// such picture, that of a decoded one, or of one of the flight out of its words, of which the pass has seen those of
/// the unit's row counted (8.5.3.2.8). It takes no memory.
pub fn lay_beneath(
    board: &Board<'_, FlightFacts>,
    pass: &mut Pass<FlightFacts>,
    layout: &Layout,
    references: &ReferencePictures<'_>,
    plan: &PicturePlan,
    segment: &SegmentPlan,
    border: &mut RowBorder,
)
    requires own { IsPassOf board.now pass.old }
    requires flight { IsOfFlight board.now.flight layout.now }
    requires references { AreReferences board.now.flight references.now }
    requires picture { slice_get (flight_in board.now.flight).pictures references.now.picture ≡ Some plan.now }
    requires border { border.old.unit.layout ≡ picture_shape plan.now.sps plan.now.pps }
    requires unit { border.old.unit.address < size_in_ctbs plan.now.sps }
    requires seen { (j : ℕ) → collocated_by references.now.names.now plan.now segment.now ≡ Some (Flight j)
        → columns layout.now
        ≤ seen_of (view pass.old)
        (line_number layout.now (line_of B j (row_of border.old.unit.layout border.old.unit.address))) }
    requires sound { (j x : ℕ) → collocated_by references.now.names.now plan.now segment.now ≡ Some (Flight j)
        → x < columns layout.now
        → is_sound (flight_in board.now.flight)
        (line_of B j (row_of border.old.unit.layout border.old.unit.address)) x ≡ true }
    ensures beneath { IsBeneath border.new
        (collocated_motions
        (motions_of (pictures_before (flight_in board.now.flight) references.now.picture))
        (collocated_entry segment.now.header.slice (slice_start plan.now segment.now).lists)) }
    ensures same { border.new ≡ with_beneath border.old border.new.beneath }
    ensures pass { Knows pass.old pass.new (view pass.old) }
{
    let fields = segment.header.fields();
    let start = slice_of(plan, segment);
    let named = collocated_entry(&fields.slice, &start.lists);
    match named {
        Some(entry) => lay_named(board, pass, layout, references, plan, entry.place, border),
        None => border.clear_beneath(),
    }
}

/// Lays the motion of the picture of the buffer at a place.
fn lay_named(
    board: &Board<'_, FlightFacts>,
    pass: &mut Pass<FlightFacts>,
    layout: &Layout,
    references: &ReferencePictures<'_>,
    plan: &PicturePlan,
    place: u32,
    border: &mut RowBorder,
)
    requires own { IsPassOf board.now pass.old }
    requires flight { IsOfFlight board.now.flight layout.now }
    requires references { AreReferences board.now.flight references.now }
    requires picture { slice_get (flight_in board.now.flight).pictures references.now.picture ≡ Some plan.now }
    requires border { border.old.unit.layout ≡ picture_shape plan.now.sps plan.now.pps }
    requires unit { border.old.unit.address < size_in_ctbs plan.now.sps }
    requires seen { (j : ℕ) → slice_get references.now.names.now place ≡ Some (Flight j)
        → columns layout.now
        ≤ seen_of (view pass.old)
        (line_number layout.now (line_of B j (row_of border.old.unit.layout border.old.unit.address))) }
    requires sound { (j x : ℕ) → slice_get references.now.names.now place ≡ Some (Flight j)
        → x < columns layout.now
        → is_sound (flight_in board.now.flight)
        (line_of B j (row_of border.old.unit.layout border.old.unit.address)) x ≡ true }
    ensures beneath { IsBeneath border.new
        (motions_in (slice_get (pictures_before (flight_in board.now.flight) references.now.picture) place)) }
    ensures same { border.new ≡ with_beneath border.old border.new.beneath }
    ensures pass { Knows pass.old pass.new (view pass.old) }
{
    names_stand_for_the_pictures_of_the_buffer();
    let name = name_at(references.names, place);
    match name {
        Some(reference) => {
            lay_reference(board, pass, layout, references, plan, reference, border);
        }
        None => border.clear_beneath(),
    }
}

/// The name at a place.
fn name_at(names: &[Reference], place: u32) -> Option<Reference>
    ensures { result ≡ slice_get names.now place }
{
    match names.get(place as usize) {
        Some(name) => Some(*name),
        None => None,
    }
}

/// Lays the motion of a picture by its name.
fn lay_reference(
    board: &Board<'_, FlightFacts>,
    pass: &mut Pass<FlightFacts>,
    layout: &Layout,
    references: &ReferencePictures<'_>,
    plan: &PicturePlan,
    reference: Reference,
    border: &mut RowBorder,
)
    requires own { IsPassOf board.now pass.old }
    requires flight { IsOfFlight board.now.flight layout.now }
    requires references { AreReferences board.now.flight references.now }
    requires picture { slice_get (flight_in board.now.flight).pictures references.now.picture ≡ Some plan.now }
    requires border { border.old.unit.layout ≡ picture_shape plan.now.sps plan.now.pps }
    requires unit { border.old.unit.address < size_in_ctbs plan.now.sps }
    requires seen { (j : ℕ) → reference ≡ Flight j
        → columns layout.now
        ≤ seen_of (view pass.old)
        (line_number layout.now (line_of B j (row_of border.old.unit.layout border.old.unit.address))) }
    requires sound { (j x : ℕ) → reference ≡ Flight j → x < columns layout.now
        → is_sound (flight_in board.now.flight)
        (line_of B j (row_of border.old.unit.layout border.old.unit.address)) x ≡ true }
    ensures beneath { IsBeneath border.new
        (named_motions (flight_in board.now.flight) references.now.bases.now reference) }
    ensures same { border.new ≡ with_beneath border.old border.new.beneath }
    ensures pass { Knows pass.old pass.new (view pass.old) }
{
    match reference {
        Reference::Base(place) => lay_base(references.bases, place, border),
        Reference::Flight(picture) => {
            lay_of_flight(board, pass, layout, references, plan, picture, border);
        }
    }
}

/// Lays the motion of a base.
fn lay_base(bases: &Bases, place: u32, border: &mut RowBorder)
    ensures beneath { IsBeneath border.new (base_motions (slice_get bases.now place)) }
    ensures same { border.new ≡ with_beneath border.old border.new.beneath }
{
    let found = bases.get(place);
    match found {
        Some(picture) => lay_field(picture.motion(), border),
        None => border.clear_beneath(),
    }
}

/// Lays the motion of a picture of the flight.
fn lay_of_flight(
    board: &Board<'_, FlightFacts>,
    pass: &mut Pass<FlightFacts>,
    layout: &Layout,
    references: &ReferencePictures<'_>,
    plan: &PicturePlan,
    picture: u32,
    border: &mut RowBorder,
)
    requires own { IsPassOf board.now pass.old }
    requires flight { IsOfFlight board.now.flight layout.now }
    requires references { AreReferences board.now.flight references.now }
    requires picture { slice_get (flight_in board.now.flight).pictures references.now.picture ≡ Some plan.now }
    requires border { border.old.unit.layout ≡ picture_shape plan.now.sps plan.now.pps }
    requires unit { border.old.unit.address < size_in_ctbs plan.now.sps }
    requires seen { columns layout.now
        ≤ seen_of (view pass.old)
        (line_number layout.now (line_of B picture (row_of border.old.unit.layout border.old.unit.address))) }
    requires sound { (x : ℕ) → x < columns layout.now
        → is_sound (flight_in board.now.flight)
        (line_of B picture (row_of border.old.unit.layout border.old.unit.address)) x ≡ true }
    ensures beneath { IsBeneath border.new
        (flight_motions (flight_in board.now.flight) picture
        (slice_get (flight_in board.now.flight).pictures picture)) }
    ensures same { border.new ≡ with_beneath border.old border.new.beneath }
    ensures pass { Knows pass.old pass.new (view pass.old) }
{
    let unit = border.unit();
    let row = unit.layout.row(unit.address);
    let line = Line {
        phase: Phase::B,
        picture,
        row,
    };
    let found = plan_at(references.plans, picture);
    match found {
        Some(other) => lay_picture(board, pass, layout, other, line, border),
        None => border.clear_beneath(),
    }
}

/// The plan at a place of the flight.
fn plan_at<'a>(plans: &'a [PicturePlan], place: u32) -> Option<&'a PicturePlan>
    ensures { option_copied result ≡ slice_get plans.now place }
{
    match plans.get(place as usize) {
        Some(plan) => Some(plan),
        None => None,
    }
}
