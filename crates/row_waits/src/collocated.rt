//! Waiting for the collocated picture's row (8.5.3.2.8).

ghost use Rattle.std.specs.Prelude.{◌≡◌};
ghost use Rattle.board_core.specs.Needs.{row_needs};
ghost use Rattle.flight_plan.specs.Flight.{IsNoneOrEarlier};
ghost use Rattle.progress_words.specs.declared.waiting.Waited.TheVariants.{Ready, Stopped};
ghost use Rattle.progress_words.specs.Passes.{IsPassOf, view};
ghost use Rattle.progress_words.specs.Views.{HasEnded};
ghost use Rattle.unit_reach.specs.SpecFlights.{collocated_by};
ghost use Rattle.unit_reach.specs.SpecFlights.{flight_rows};
ghost use Rattle.line_words.specs.Places.{number_at};
ghost use Rattle.flight_waits.specs.FactsOfFlights.{flight_meaning};
ghost use Rattle.flight_waits.specs.FactsOfFlights.{flight_in};
ghost use Rattle.flight_waits.specs.Waits.{AreAllKnown, AreSeen, HasWaited, HoldsUnit};
ghost use Rattle.row_waits.specs.Pictures.{IsPictureOf, IsUnitOf};

use crate::picture_view::PictureView;
use flight_plan::Reference;
use flight_waits::{FlightFacts, wait_for_collocated_row};
use hv_io::Gate;
use line_words::UnitPlace;
use plan_types::SegmentPlan;
use progress_words::{Board, Pass, Waited};
use row_trees::{collocated_entry, slice_of};
use std::sync::Wait;

/// Waits for the unit's row of the collocated picture of a segment's slice, as it is built, where that is a picture of
/// the flight; or until a fault is found before the unit.
pub fn wait_for_collocated<R: Wait, G: Gate>(
    rt: &R,
    board: &Board<'_, FlightFacts>,
    pass: &mut Pass<FlightFacts>,
    picture: &PictureView<'_>,
    at: &UnitPlace,
    segment: &SegmentPlan,
    gate: &G,
) -> Waited
    requires own { IsPassOf board.now pass.old }
    requires picture { IsPictureOf board.now.flight picture.now }
    requires unit { IsUnitOf picture.now at.now }
    requires known { AreAllKnown board.now.flight (view pass.old) }
    requires earlier { IsNoneOrEarlier picture.now.place
        (collocated_by picture.now.names.now picture.now.plan.now segment.now) }
    ensures ready { result ≡ Ready → AreSeen board.now.flight picture.now.layout.now (view pass.new)
        (row_needs (flight_rows (flight_in board.now.flight))
        (collocated_by picture.now.names.now picture.now.plan.now segment.now) at.now.line.row) }
    ensures ended { result ≡ Stopped → HoldsUnit (view pass.old) at.now
        → HasEnded (flight_meaning (flight_in board.now.flight)) (view pass.new) }
    ensures own { IsPassOf board.now pass.new }
    ensures waited { HasWaited (view pass.old) (number_at at.now) (view pass.new) }
    ensures known { AreAllKnown board.now.flight (view pass.new) }
{
    match collocated_picture(picture, segment) {
        Some(Reference::Flight(other)) => {
            wait_for_collocated_row(
                rt,
                board,
                pass,
                picture.layout,
                picture.frame,
                at,
                other,
                gate,
            )
        }
        Some(Reference::Base(_)) => Waited::Ready,
        None => Waited::Ready,
    }
}

/// The collocated picture of a segment's slice, by name.
fn collocated_picture(picture: &PictureView<'_>, segment: &SegmentPlan) -> Option<Reference>
    ensures { result ≡ collocated_by picture.now.names.now picture.now.plan.now segment.now }
{
    let slice = &segment.header.fields().slice;
    match collocated_entry(slice, &slice_of(picture.plan, segment).lists) {
        Some(entry) => picture.names.get(entry.place as usize).copied(),
        None => None,
    }
}
