//! The tickets of lines and the numbers of units, by tables of what stands before each picture, and which units are
//! bad.

ghost use Rattle.std.specs.Prelude.{◌≡◌, ◌<◌, ◌↔◌, IsTrue, IfOk, IfSome, None, length};
ghost use Rattle.std.specs.Prelude.{ℕ, ◌≤◌, ◌+◌, ◌*◌, take, sum_by, slice_index, slice_index_or};
ghost use Rattle.flight_plan.specs.Flight.{IsFlight, IsTreeUnit, no_picture, picture_units, picture_at, tree_units};
ghost use Rattle.flight_plan.specs.Flight.{units_of};
ghost use Rattle.board_core.specs.Places.{full_count, IsLine, IsPlaceOf, lines_of, phase_start, picture_lines};
ghost use Rattle.board_core.specs.Places.{ticket_of, unit_of, width_of};
ghost use Rattle.board_core.specs.States.{IsBad};

use crate::bad_units::bad_flags;
use crate::drawing_order::{count_before, delay_of, line_in};
use crate::pictures::{full_count_at, rows_at, width_at};
use crate::search::last_at_most;
use flight_plan::{FlightPicture, FlightPlan};
use hv_base::{Line, Phase, UnitNumber};
use std::alloc::{AllocError, Global};
use std::marker::Model;

/// Where the lines and units of a flight stand, and which units are bad. Contracts see the plan.
#[derive(Drop)]
pub struct FlightLayout<'a> {
    plan: &'a FlightPlan,
    /// By picture, the lines of the pictures before it.
    first_lines: Vec<u64>,
    /// By picture, the units of the pictures before it.
    first_units: Vec<UnitNumber>,
    /// By unit, whether it is bad.
    bad: Vec<bool>,
    lines: usize,
}

impl<'a> Model for FlightLayout<'a> {
    ghost use Rattle.std.specs.Prelude.{ℕ, ◌≡◌, ◌<◌, ◌≤◌, ◌*◌, ◌^◌, ◌↔◌, false, true, length, take, sum_by};
    ghost use Rattle.std.specs.Prelude.{slice_index, slice_index_or};
    ghost use Rattle.flight_plan.specs.Flight.{FlightRows, IsFlight, picture_units};
    ghost use Rattle.board_core.specs.Places.{picture_lines};
    ghost use Rattle.board_core.specs.States.{IsBad};

    ghost Value = { FlightRows };

    ghost view = { λ p. p.plan.now };

    ghost invariant = { λ p.
        IsFlight p.plan.now
        × (length p.first_lines.items ≡ length p.plan.now.pictures)
        × (length p.first_units.items ≡ length p.plan.now.pictures)
        × (p.lines ≡ sum_by picture_lines p.plan.now.pictures)
        × (sum_by picture_lines p.plan.now.pictures ≤ 2048 * length p.plan.now.pictures)
        × (sum_by picture_units p.plan.now.pictures < 2 ^ 64)
        × ((k : ℕ) → k < length p.plan.now.pictures
        → slice_index p.first_lines.items k ≡ sum_by picture_lines (take k p.plan.now.pictures))
        × ((k : ℕ) → k < length p.plan.now.pictures
        → slice_index p.first_units.items k ≡ sum_by picture_units (take k p.plan.now.pictures))
        × ((u : ℕ) → (slice_index_or p.bad.items u false ≡ true) ↔ IsBad p.plan.now u) };
}

impl<'a> FlightLayout<'a> {
    /// The places of a flight.
    pub fn new(alloc: Global, plan: &'a FlightPlan) -> Result<FlightLayout<'a>, AllocError>
        ensures { IfOk result (λ places. places ≡ plan.now) }
    {
        let mut first_lines = Vec::new(alloc);
        let mut first_units = Vec::new(alloc);
        let bad = bad_flags(alloc, plan)?;
        let mut lines = 0;
        let mut units = 0;
        let _total = plan.units();
        for picture in plan.pictures() {
            first_lines.push(lines)?;
            first_units.push(units)?;
            lines += 4 * u64::from(picture.rows());
            units += picture.units();
        }
        Ok(FlightLayout {
            plan,
            first_lines,
            first_units,
            bad,
            lines: lines as usize,
        })
    }

    /// The plan.
    pub fn plan(&self) -> &'a FlightPlan
        ensures { result.now ≡ self.now }
    {
        self.plan
    }

    /// How many lines the flight has.
    pub fn lines(&self) -> usize
        ensures { result ≡ lines_of self.now }
    {
        self.lines
    }

    /// The rows of a picture, 0 where the flight has no such picture.
    pub fn rows(&self, picture: u32) -> u32
        ensures value { result ≡ (picture_at self.now picture).rows }
        ensures small { result ≤ 512 }
    {
        rows_at(self.plan, picture)
    }

    /// The coding tree units of a row of a picture, 0 where the flight has no such picture.
    pub fn width(&self, picture: u32) -> u32
        ensures value { result ≡ (picture_at self.now picture).width }
        ensures small { result ≤ 512 }
    {
        width_at(self.plan, picture)
    }

    /// The units of a line.
    pub fn full_count(&self, line: Line) -> u32
        ensures value { result ≡ full_count self.now line }
        ensures small { result ≤ 512 }
    {
        full_count_at(self.plan, line)
    }

    /// Whether the flight has the line.
    pub fn is_line(&self, line: Line) -> bool
        ensures { IsTrue result ↔ IsLine self.now line }
    {
        line.row < self.rows(line.picture)
    }

    /// Whether the unit is bad.
    pub fn is_bad(&self, unit: UnitNumber) -> bool
        ensures { IsTrue result ↔ IsBad self.now unit }
    {
        match self.bad.get(unit as usize) {
            Some(flag) => *flag,
            None => false,
        }
    }

    /// The ticket of a line.
    #[tactic(auto, using(crate::proofs::Order::line_inside, crate::proofs::Order::ticket_inside))]
    pub fn ticket(&self, line: Line) -> usize
        requires { IsLine self.now line }
        ensures value { result ≡ ticket_of self.now line }
        ensures inside { result < lines_of self.now }
    {
        let behind = delay_of(line.phase);
        let within = count_before(self.rows(line.picture), line.row + behind, behind);
        (self.first_lines[line.picture as usize] + u64::from(within)) as usize
    }

    /// The number of the unit `x` of a line.
    #[tactic(auto, using(crate::proofs::Order::line_inside, crate::proofs::Order::unit_inside))]
    pub fn unit(&self, line: Line, x: u32) -> UnitNumber
        requires line { IsLine self.now line }
        requires inside { x < full_count self.now line }
        ensures value { result ≡ unit_of self.now line x }
    {
        self.first_units[line.picture as usize] + self.within(line, x)
    }

    /// The number of the unit `x` of a line in its picture.
    #[tactic(auto, using(crate::proofs::Order::within_picture))]
    fn within(&self, line: Line, x: u32) -> u64
        requires line { IsLine self.now line }
        requires inside { x < full_count self.now line }
        ensures value { result
            ≡ phase_start line.phase (picture_at self.now line.picture) + (line.row * full_count self.now line + x) }
        ensures small { result < picture_units (picture_at self.now line.picture) }
    {
        self.start(line) + (u64::from(line.row) * u64::from(self.full_count(line)) + u64::from(x))
    }

    /// The units of a line's picture that are numbered before those of its phase.
    fn start(&self, line: Line) -> u64
        ensures value { result ≡ phase_start line.phase (picture_at self.now line.picture) }
        ensures small { result ≤ 263680 }
    {
        let rows = u64::from(self.rows(line.picture));
        match line.phase {
            Phase::B => 0,
            Phase::V => self.tree_units(line.picture),
            Phase::H => self.tree_units(line.picture) + rows,
            Phase::S => self.tree_units(line.picture) + 2 * rows,
        }
    }

    /// The coding tree units of a picture.
    fn tree_units(&self, picture: u32) -> u64
        ensures value { result ≡ tree_units (picture_at self.now picture) }
        ensures small { result ≤ 262144 }
    {
        u64::from(self.rows(picture)) * u64::from(self.width(picture))
    }

    /// The line that has a ticket.
    pub fn line_at(&self, ticket: usize) -> Line
        requires { ticket < lines_of self.now }
        ensures line { IsLine self.now result }
        ensures value { ticket_of self.now result ≡ ticket }
    {
        let picture = last_at_most(self.first_lines.as_slice(), ticket as u64);
        let within = ticket as u64 - self.first_lines[picture];
        line_in(picture as u32, self.rows(picture as u32), within as u32)
    }

    /// The line and the place there of a coding tree unit. `None` exactly where the flight has no such coding tree
    /// unit.
    pub fn place(&self, unit: UnitNumber) -> Option<(Line, u32)>
        ensures found { IfSome result (λ place. IsPlaceOf self.now unit place.0 place.1) }
        ensures none { result ≡ None → ¬ IsTreeUnit self.now.pictures unit }
    {
        if unit >= self.plan.units() {
            return None;
        }
        let picture = last_at_most(self.first_units.as_slice(), unit);
        let within = unit - self.first_units[picture];
        if within >= self.tree_units(picture as u32) {
            return None;
        }
        Some(self.place_in(picture as u32, within))
    }

    /// The line and the place there of a coding tree unit of a picture, by its place in raster order.
    fn place_in(&self, picture: u32, within: u64) -> (Line, u32)
        requires { within < (picture_at self.now picture).rows * (picture_at self.now picture).width }
        ensures line { IsLine self.now result.0 }
        ensures phase { result.0.phase ≡ Phase.B }
        ensures picture { result.0.picture ≡ picture }
        ensures inside { result.1 < width_of self.now result.0 }
        ensures within { result.0.row * width_of self.now result.0 + result.1 ≡ within }
    {
        let (row, x) = row_and_column(self.rows(picture), self.width(picture), within);
        let line = Line {
            phase: Phase::B,
            picture,
            row,
        };
        (line, x)
    }
}

/// The row and the column of a place of a rectangle in raster order.
#[tactic(auto, using(crate::proofs::Units::row_and_column))]
pub fn row_and_column(rows: u32, width: u32, within: u64) -> (u32, u32)
    requires { within < rows * width }
    ensures row { result.0 < rows }
    ensures column { result.1 < width }
    ensures within { result.0 * width + result.1 ≡ within }
{
    let width = u64::from(width);
    ((within / width) as u32, (within % width) as u32)
}
