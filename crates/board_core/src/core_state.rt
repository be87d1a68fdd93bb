//! The state of a flight: what is counted, parsed and drawn, and the least fault.

ghost use Rattle.std.specs.Prelude.{◌≡◌, ℕ, ◌+◌, ◌<◌, ◌≤◌, min, ◌↔◌, ◌∷◌, [], IsTrue, IfOk, IfSome, None};
ghost use Rattle.std.specs.Option.{option_to_list};
ghost use Rattle.flight_plan.specs.Flight.{IsTreeUnit};
ghost use Rattle.hv_base.specs.declared.line.Line.{Line};
ghost use Rattle.board_core.specs.Places.{full_count, IsLine, IsPlaceOf, lines_of, ticket_of};
ghost use Rattle.board_core.specs.Needs.{build_needs, collocated_of, filter_needs, range_needs, reach_needs};
ghost use Rattle.board_core.specs.Needs.{read_needs, row_needs, rows_needs, span_needs};
ghost use Rattle.std.specs.List.{flat_map};
ghost use Rattle.board_core.specs.States.{after, count_of, is_parsed, lesser, opening, AreCounted, IsBad, IsBuildable};
ghost use Rattle.board_core.specs.States.{IsFilterable, IsNext, IsReadable, IsReady};

mod progress;

use crate::event::Event;
use crate::event_needs::{above, built_row, collocated_at, line_of, reach_at};
use crate::flight_layout::FlightLayout;
use crate::need_list::final_rows;
use crate::phase_rows::{PhaseRows, filter_rows};
use crate::pictures::{full_count_at, rows_end};
use flight_plan::{FlightPlan, Reference, RowRange};
use hv_base::{Line, Phase, UnitNumber};
use std::alloc::{AllocError, Global};
use std::marker::Model;

/// The state of a flight, which events change. Contracts see a `CoreOf`: the plan and a `CoreState`.
#[derive(Drop)]
pub struct Core<'a> {
    places: FlightLayout<'a>,
    /// By ticket, how many units of the line are counted.
    counts: Vec<u32>,
    /// By ticket, whether the next unit of the line is parsed.
    parsed: Vec<bool>,
    drawn: usize,
    least: Option<UnitNumber>,
}

impl<'a> Model for Core<'a> {
    ghost use Rattle.board_core.specs.States.{CoreOf};
    ghost use Rattle.board_core.specs.Runs.{IsSound};

    ghost Value = { CoreOf };

    ghost view = { λ c.
        record {
          plan = c.places;
          state = record { counts = c.counts.items; parsed = c.parsed.items; drawn = c.drawn; least = c.least };
        } };

    ghost invariant = { λ c.
        IsSound
        c.places
        (record { counts = c.counts.items; parsed = c.parsed.items; drawn = c.drawn; least = c.least }) };
}

impl<'a> Core<'a> {
    /// The state before any event. It takes memory for each line and unit of the flight, so that events need none.
    #[tactic(auto, using(crate::proofs::Steps::opening_sound))]
    pub fn new(alloc: Global, plan: &'a FlightPlan) -> Result<Core<'a>, AllocError>
        ensures { IfOk result (λ core. core ≡ record { plan = plan.now; state = opening plan.now }) }
    {
        let places = FlightLayout::new(alloc, plan)?;
        let counts = vec![in alloc; 0; places.lines()]?;
        let parsed = vec![in alloc; false; places.lines()]?;
        Ok(Core {
            places,
            counts,
            parsed,
            drawn: 0,
            least: None,
        })
    }

    /// Whether `event` may be taken.
    pub fn ready(&self, event: Event) -> bool
        ensures { IsTrue result ↔ IsReady self.now.plan self.now.state event }
    {
        match event {
            Event::Draw => self.drawn < self.places.lines(),
            Event::Read(line, x) => self.is_readable(line, x)
                && !self.is_bad(self.places.unit(line, x)),
            Event::Build(line, x) => self.is_buildable(line, x),
            Event::Filter(line) => self.is_filterable(line),
            Event::Fault(unit) => self.is_bad(unit) && self.is_found(unit),
        }
    }

    /// Takes an event that is ready.
    #[tactic(auto, using(crate::proofs::Steps::draw_sound))]
    pub fn step(&mut self, event: Event)
        requires { IsReady self.old.plan self.old.state event }
        ensures { self.new ≡ record { plan = self.old.plan; state = after self.old.plan self.old.state event } }
    {
        match event {
            Event::Draw => self.drawn += 1,
            Event::Read(line, _) => {
                let ticket = self.places.ticket(line);
                self.parsed[ticket] = true;
            }
            Event::Build(line, x) => self.build(line, x),
            Event::Filter(line) => self.filter(line),
            Event::Fault(unit) => self.least = Some(lesser_unit(unit, self.least)),
        }
    }

    fn build(&mut self, line: Line, x: u32)
        requires { IsBuildable self.old.plan self.old.state line x }
        ensures { self.new
            ≡ record { plan = self.old.plan; state = after self.old.plan self.old.state (Event.Build line x) } }
    {
        let _full = self.places.full_count(line);
        let ticket = self.places.ticket(line);
        self.counts[ticket] = x + 1;
        self.parsed[ticket] = false;
    }

    fn filter(&mut self, line: Line)
        requires { IsFilterable self.old.plan self.old.state line }
        ensures { self.new
            ≡ record { plan = self.old.plan; state = after self.old.plan self.old.state (Event.Filter line) } }
    {
        let _pictures = self.plan().pictures();
        let ticket = self.places.ticket(line);
        self.counts[ticket] = 1;
    }

    /// Whether the unit's place may be read.
    fn is_found(&self, unit: UnitNumber) -> bool
        ensures { IsTrue result
            ↔ ((l : Line)
            × (x : ℕ)
            × IsPlaceOf self.now.plan unit l x
            × IsReadable self.now.plan self.now.state l x) }
    {
        match self.place(unit) {
            Some((line, x)) => self.is_readable(line, x),
            None => false,
        }
    }

    fn place(&self, unit: UnitNumber) -> Option<(Line, u32)>
        ensures found { IfSome result (λ place. IsPlaceOf self.now.plan unit place.0 place.1) }
        ensures none { result ≡ None → ¬ IsTreeUnit self.now.plan.pictures unit }
    {
        self.places.place(unit)
    }

    fn plan(&self) -> &'a FlightPlan
        ensures { result.now ≡ self.now.plan }
    {
        self.places.plan()
    }

    fn is_bad(&self, unit: UnitNumber) -> bool
        ensures { IsTrue result ↔ IsBad self.now.plan unit }
    {
        self.places.is_bad(unit)
    }

    fn is_next(&self, line: Line, x: u32) -> bool
        ensures { IsTrue result ↔ IsNext self.now.plan self.now.state line x }
    {
        line.phase == Phase::B && self.places.is_line(line) && self.is_next_of(line, x)
    }

    fn is_next_of(&self, line: Line, x: u32) -> bool
        requires line { IsLine self.now.plan line }
        requires phase { line.phase ≡ Phase.B }
        ensures { IsTrue result ↔ IsNext self.now.plan self.now.state line x }
    {
        self.places.ticket(line) < self.drawn
            && x == self.count(line)
            && x < self.places.full_count(line)
    }

    /// How many units of the line are counted.
    fn count(&self, line: Line) -> u32
        requires { IsLine self.now.plan line }
        ensures { result ≡ count_of self.now.plan self.now.state line }
    {
        self.counts[self.places.ticket(line)]
    }

    /// Whether the line's next unit is parsed.
    fn is_flagged(&self, line: Line) -> bool
        requires { IsLine self.now.plan line }
        ensures { result ≡ is_parsed self.now.plan self.now.state line }
    {
        self.parsed[self.places.ticket(line)]
    }

    fn is_readable(&self, line: Line, x: u32) -> bool
        ensures { IsTrue result ↔ IsReadable self.now.plan self.now.state line x }
    {
        self.is_next(line, x) && !self.is_flagged(line) && self.is_above_counted(line, x)
    }

    fn is_buildable(&self, line: Line, x: u32) -> bool
        ensures { IsTrue result ↔ IsBuildable self.now.plan self.now.state line x }
    {
        self.is_next(line, x) && self.is_flagged(line) && self.are_build_needs_counted(line, x)
    }

    fn is_filterable(&self, line: Line) -> bool
        ensures { IsTrue result ↔ IsFilterable self.now.plan self.now.state line }
    {
        line.phase != Phase::B && self.places.is_line(line) && self.is_filterable_line(line)
    }

    fn is_filterable_line(&self, line: Line) -> bool
        requires line { IsLine self.now.plan line }
        requires phase { ¬ (line.phase ≡ Phase.B) }
        ensures { IsTrue result ↔ IsFilterable self.now.plan self.now.state line }
    {
        self.places.ticket(line) < self.drawn
            && self.count(line) == 0
            && self.are_filter_needs_counted(line)
    }

    fn are_filter_needs_counted(&self, line: Line) -> bool
        ensures { IsTrue result ↔ AreCounted self.now.plan self.now.state (filter_needs self.now.plan line) }
    {
        let rows = filter_rows(line);
        self.is_span_counted(rows.0) && self.is_span_counted(rows.1)
    }

    fn is_above_counted(&self, line: Line, x: u32) -> bool
        requires { IsLine self.now.plan line }
        ensures { IsTrue result ↔ AreCounted self.now.plan self.now.state (read_needs self.now.plan line x) }
    {
        self.is_counted(above(self.plan(), line, x))
    }

    fn are_build_needs_counted(&self, line: Line, x: u32) -> bool
        requires { IsLine self.now.plan line }
        ensures { IsTrue result ↔ AreCounted self.now.plan self.now.state (build_needs self.now.plan line x) }
    {
        if !self.is_above_counted(line, x) {
            return false;
        }
        if !self.is_collocated_counted(line, x) {
            return false;
        }
        self.is_reach_counted(line, x)
    }

    fn is_reach_counted(&self, line: Line, x: u32) -> bool
        ensures { IsTrue result
            ↔ AreCounted self.now.plan self.now.state (reach_needs self.now.plan line x) }
    {
        self.are_ranges_counted(reach_at(self.plan(), line, x))
    }

    fn is_collocated_counted(&self, line: Line, x: u32) -> bool
        ensures { IsTrue result
            ↔ AreCounted self.now.plan self.now.state
            (row_needs self.now.plan (collocated_of self.now.plan line x) line.row) }
    {
        self.is_span_counted(built_row(collocated_at(self.plan(), line, x), line.row))
    }

    fn is_counted(&self, need: Option<(Line, u64)>) -> bool
        requires { IfSome need (λ n. IsLine self.now.plan n.0) }
        ensures { IsTrue result ↔ AreCounted self.now.plan self.now.state (option_to_list need) }
    {
        match need {
            Some(need) => self.is_reached(need),
            None => true,
        }
    }

    #[tactic(auto, using(crate::proofs::Counting::one_all, crate::proofs::Counting::one_each))]
    fn is_reached(&self, need: (Line, u64)) -> bool
        requires { IsLine self.now.plan need.0 }
        ensures { IsTrue result ↔ AreCounted self.now.plan self.now.state (need ∷ []) }
    {
        let (line, count) = need;
        count <= u64::from(self.count(line))
    }

    #[tactic(auto, using(crate::proofs::Counting::pieces_all, crate::proofs::Counting::pieces_each))]
    fn are_ranges_counted(&self, ranges: &[RowRange]) -> bool
        ensures { IsTrue result
            ↔ AreCounted self.now.plan self.now.state (flat_map (range_needs self.now.plan) ranges.now) }
    {
        for range in ranges {
            if !self.is_range_counted(*range) {
                return false;
            }
        }
        true
    }

    fn is_range_counted(&self, range: RowRange) -> bool
        ensures { IsTrue result ↔ AreCounted self.now.plan self.now.state (range_needs self.now.plan range) }
    {
        match range.picture {
            Reference::Base(_) => true,
            Reference::Flight(picture) => {
                self.are_rows_counted(final_rows(picture, range.first, range.last))
            }
        }
    }

    fn is_span_counted(&self, span: Option<PhaseRows>) -> bool
        ensures { IsTrue result ↔ AreCounted self.now.plan self.now.state (span_needs self.now.plan span) }
    {
        match span {
            Some(rows) => self.are_rows_counted(rows),
            None => true,
        }
    }

    #[tactic(auto, using(crate::proofs::Counting::rows_all, crate::proofs::Counting::rows_each))]
    fn are_rows_counted(&self, rows: PhaseRows) -> bool
        ensures { IsTrue result
            ↔ AreCounted self.now.plan self.now.state
            (rows_needs self.now.plan rows.phase rows.picture rows.first rows.last) }
    {
        let plan = self.plan();
        for row in rows.first..rows_end(plan, rows.picture, rows.last) {
            let line = line_of(rows.phase, rows.picture, row);
            if self.count(line) < full_count_at(plan, line) {
                return false;
            }
        }
        true
    }
}

/// The lesser of a unit and the least fault so far.
fn lesser_unit(unit: UnitNumber, least: Option<UnitNumber>) -> UnitNumber
    ensures { result ≡ lesser unit least }
{
    match least {
        Some(fault) => unit.min(fault),
        None => unit,
    }
}
