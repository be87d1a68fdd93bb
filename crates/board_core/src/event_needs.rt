//! What must be counted before an event.

ghost use Rattle.hv_base.specs.declared.line.Line.{Line};
ghost use Rattle.std.specs.Prelude.{ℕ, ◌≡◌, ◌+◌, ◌*◌, ◌≤◌, ◌↔◌, [], slice_index_or, IfSome, None};
ghost use Rattle.std.specs.Option.{option_to_list};
ghost use Rattle.flight_plan.specs.Flight.{picture_at, FlightRows, IsTreeUnit};
ghost use Rattle.board_core.specs.Needs.{above_needs, collocated_of, filter_needs, read_needs, row_needs, span_needs};
ghost use Rattle.board_core.specs.Needs.{unit_in_picture, IsNeedsOf};
ghost use Rattle.board_core.specs.Places.{IsLine, IsPlaceOf, width_of};

use crate::event::Event;
use crate::flight_layout::row_and_column;
use crate::need_list::Needs;
use crate::phase_rows::{PhaseRows, filter_rows};
use crate::pictures::{sync_at, width_at};
use flight_plan::{FlightPlan, Reference, RowRange};
use hv_base::{Line, Phase, UnitNumber};

/// What must be counted before `event`.
pub fn needs<'a>(plan: &'a FlightPlan, event: Event) -> Needs<'a>
    ensures { IsNeedsOf plan.now event result }
{
    match event {
        Event::Draw => no_needs(plan),
        Event::Filter(line) => filter_list(plan, line),
        Event::Read(line, x) => read_list(plan, line, x),
        Event::Build(line, x) => Needs::new(
            plan,
            above(plan, line, x),
            built_row(collocated_at(plan, line, x), line.row),
            None,
            reach_at(plan, line, x),
        ),
        Event::Fault(unit) => fault_needs(plan, unit),
    }
}

/// What parsing the coding tree unit of this number needs; nothing where the flight has no such coding tree unit.
fn fault_needs<'a>(plan: &'a FlightPlan, unit: UnitNumber) -> Needs<'a>
    ensures at_place { (l : Line) (x : ℕ) → IsPlaceOf plan.now unit l x → l.phase ≡ Phase.B
        → result ≡ read_needs plan.now l x }
    ensures none { ¬ IsTreeUnit plan.now.pictures unit → result ≡ [] }
{
    match place_of(plan, unit) {
        Some((line, x)) => read_list(plan, line, x),
        None => no_needs(plan),
    }
}

fn no_needs<'a>(plan: &'a FlightPlan) -> Needs<'a>
    ensures { result ≡ [] }
{
    Needs::new(plan, None, None, None, &[])
}

fn read_list<'a>(plan: &'a FlightPlan, line: Line, x: u32) -> Needs<'a>
    ensures { result ≡ read_needs plan.now line x }
{
    Needs::new(plan, above(plan, line, x), None, None, &[])
}

fn filter_list<'a>(plan: &'a FlightPlan, line: Line) -> Needs<'a>
    ensures { result ≡ filter_needs plan.now line }
{
    let (first, second) = filter_rows(line);
    Needs::new(plan, None, first, second, &[])
}

/// What is needed of the row above.
pub fn above(plan: &FlightPlan, line: Line, x: u32) -> Option<(Line, u64)>
    ensures value { option_to_list result ≡ above_needs plan.now line x }
    ensures line { IsLine plan.now line → IfSome result (λ need. IsLine plan.now need.0) }
{
    if line.row == 0 {
        return None;
    }
    let width = u64::from(width_at(plan, line.picture));
    let count = if sync_at(plan, line.picture) {
        (u64::from(x) + 2).min(width)
    } else {
        width
    };
    Some((line_of(Phase::B, line.picture, line.row - 1), count))
}

/// A row of a reference picture as it is built, where there is one.
pub fn built_row(reference: Option<Reference>, row: u32) -> Option<PhaseRows>
    ensures { (plan : FlightRows) → span_needs plan result ≡ row_needs plan reference row }
{
    match reference {
        Some(Reference::Flight(picture)) => Some(PhaseRows {
            phase: Phase::B,
            picture,
            first: row,
            last: u64::from(row),
        }),
        Some(Reference::Base(_)) => None,
        None => None,
    }
}

/// The collocated picture of the slice of the coding tree unit `x` of a line, where it has one.
pub fn collocated_at(plan: &FlightPlan, line: Line, x: u32) -> Option<Reference>
    ensures { result ≡ collocated_of plan.now line x }
{
    match plan.pictures().get(line.picture as usize) {
        Some(found) => found.collocated(
            (u64::from(line.row) * u64::from(found.width()) + u64::from(x)) as usize,
        ),
        None => None,
    }
}

/// The row ranges that the coding tree unit `x` of a line reads.
pub fn reach_at<'a>(plan: &'a FlightPlan, line: Line, x: u32) -> &'a [RowRange]
    ensures { result.now
        ≡ slice_index_or (picture_at plan.now line.picture).reach (unit_in_picture plan.now line x) [] }
{
    match plan.pictures().get(line.picture as usize) {
        Some(found) => found.reach(
            (u64::from(line.row) * u64::from(found.width()) + u64::from(x)) as usize,
        ),
        None => &[],
    }
}

/// The line of a phase of a row of a picture.
pub fn line_of(phase: Phase, picture: u32, row: u32) -> Line
    ensures { result ≡ record { phase = phase; picture = picture; row = row } }
{
    Line {
        phase,
        picture,
        row,
    }
}

/// The line and the place there of a coding tree unit. `None` exactly where the flight has no such coding tree unit.
fn place_of(plan: &FlightPlan, unit: UnitNumber) -> Option<(Line, u32)>
    ensures found { IfSome result (λ place. IsPlaceOf plan.now unit place.0 place.1) }
    ensures phase { IfSome result (λ place. place.0.phase ≡ Phase.B) }
    ensures none { result ≡ None → ¬ IsTreeUnit plan.now.pictures unit }
{
    let mut within = unit;
    for (picture, found) in plan.pictures().iter().enumerate() {
        if within < found.tree_units() {
            let (row, x) = row_and_column(found.rows(), found.width(), within);
            return Some((line_of(Phase::B, picture as u32, row), x));
        }
        if within < found.units() {
            return None;
        }
        within -= found.units();
    }
    None
}
