//! The list of what must be counted before an event.

ghost use Rattle.std.specs.Prelude.{◌≡◌, ◌++◌, ◌<◌, Some, length, slice_get};
ghost use Rattle.std.specs.List.{flat_map};
ghost use Rattle.std.specs.Option.{option_to_list};
ghost use Rattle.board_core.specs.Needs.{range_needs, rows_needs, span_needs};

use crate::event_needs::line_of;
use crate::phase_rows::PhaseRows;
use crate::pictures::{full_count_at, rows_end};
use flight_plan::{FlightPlan, Reference, RowRange};
use hv_base::{Line, Phase};
use std::marker::Model;

/// The needs of an event: lines, each with the count that it must have reached. Contracts see the list.
#[derive(Drop)]
pub struct Needs<'a> {
    plan: &'a FlightPlan,
    above: Option<(Line, u64)>,
    first: Option<PhaseRows>,
    second: Option<PhaseRows>,
    ranges: &'a [RowRange],
}

impl<'a> Model for Needs<'a> {
    ghost use Rattle.std.specs.Prelude.{ℕ, List, ◌++◌};
    ghost use Rattle.std.specs.List.{flat_map};
    ghost use Rattle.std.specs.Option.{option_to_list};
    ghost use Rattle.hv_base.specs.declared.line.Line.{Line};

    ghost Value = { List (Line × ℕ) };

    ghost use Rattle.board_core.specs.Needs.{range_needs, span_needs};

    ghost view = { λ n.
        option_to_list n.above
        ++ (span_needs n.plan.now n.first
        ++ (span_needs n.plan.now n.second ++ flat_map (range_needs n.plan.now) n.ranges.now)) };
}

impl<'a> Needs<'a> {
    /// The need of the row above, those of the rows of one phase and of another, and those of ranges, in this order.
    pub fn new(
        plan: &'a FlightPlan,
        above: Option<(Line, u64)>,
        first: Option<PhaseRows>,
        second: Option<PhaseRows>,
        ranges: &'a [RowRange],
    ) -> Needs<'a>
        ensures { result
            ≡ option_to_list above
            ++ (span_needs plan.now first
            ++ (span_needs plan.now second ++ flat_map (range_needs plan.now) ranges.now)) }
    {
        Needs {
            plan,
            above,
            first,
            second,
            ranges,
        }
    }

    /// The need at `index`. `None` exactly past the last.
    #[tactic(auto, using(crate::proofs::NeedList::first_item, crate::proofs::NeedList::later_item))]
    pub fn get(&self, index: usize) -> Option<(Line, u64)>
        ensures { result ≡ slice_get self.now index }
    {
        let above = size(self.above);
        if index < above {
            return self.above;
        }
        after_above(
            self.plan,
            self.first,
            self.second,
            self.ranges,
            index - above,
        )
    }
}

/// The need at `index` of those of two phases' rows and those of ranges.
#[tactic(auto, using(crate::proofs::NeedList::left_item, crate::proofs::NeedList::rest_item))]
fn after_above(
    plan: &FlightPlan,
    first: Option<PhaseRows>,
    second: Option<PhaseRows>,
    ranges: &[RowRange],
    index: usize,
) -> Option<(Line, u64)>
    ensures { result
        ≡ slice_get
        (span_needs plan.now first ++ (span_needs plan.now second ++ flat_map (range_needs plan.now) ranges.now))
        index }
{
    let count = span_size(plan, first);
    if index < count {
        return span_get(plan, first, index);
    }
    after_first(plan, second, ranges, index - count)
}

/// The need at `index` of those of one phase's rows and those of ranges.
#[tactic(auto, using(crate::proofs::NeedList::left_item, crate::proofs::NeedList::rest_item))]
fn after_first(
    plan: &FlightPlan,
    second: Option<PhaseRows>,
    ranges: &[RowRange],
    index: usize,
) -> Option<(Line, u64)>
    ensures { result ≡ slice_get (span_needs plan.now second ++ flat_map (range_needs plan.now) ranges.now) index }
{
    let count = span_size(plan, second);
    if index < count {
        return span_get(plan, second, index);
    }
    ranges_get(plan, ranges, index - count)
}

/// How many needs there are: one or none.
fn size(need: Option<(Line, u64)>) -> usize
    ensures { result ≡ length (option_to_list need) }
{
    match need {
        Some(_) => 1,
        None => 0,
    }
}

/// How many rows of a phase there are.
fn span_size(plan: &FlightPlan, span: Option<PhaseRows>) -> usize
    ensures { result ≡ length (span_needs plan.now span) }
{
    match span {
        Some(rows) => row_count(plan, rows) as usize,
        None => 0,
    }
}

/// The need at `index` of those of a phase's rows.
fn span_get(plan: &FlightPlan, span: Option<PhaseRows>, index: usize) -> Option<(Line, u64)>
    requires { index < length (span_needs plan.now span) }
    ensures { result ≡ slice_get (span_needs plan.now span) index }
{
    match span {
        Some(rows) => Some(row_get(plan, rows, index as u64)),
        None => None,
    }
}

/// The need at `index` of those of ranges.
fn ranges_get(plan: &FlightPlan, ranges: &[RowRange], index: usize) -> Option<(Line, u64)>
    ensures { result ≡ slice_get (flat_map (range_needs plan.now) ranges.now) index }
{
    let mut left = index as u64;
    for range in ranges {
        let rows = rows_in(plan, *range);
        if left < rows {
            return range_get(plan, *range, left);
        }
        left -= rows;
    }
    None
}

/// How many rows a range has of its picture.
fn rows_in(plan: &FlightPlan, range: RowRange) -> u64
    ensures { result ≡ length (range_needs plan.now range) }
{
    match range.picture {
        Reference::Base(_) => 0,
        Reference::Flight(picture) => row_count(plan, final_rows(picture, range.first, range.last)),
    }
}

/// The need at `index` of those of a range.
fn range_get(plan: &FlightPlan, range: RowRange, index: u64) -> Option<(Line, u64)>
    requires { index < length (range_needs plan.now range) }
    ensures { result ≡ slice_get (range_needs plan.now range) index }
{
    match range.picture {
        Reference::Base(_) => None,
        Reference::Flight(picture) => {
            Some(row_get(plan, final_rows(picture, range.first, range.last), index))
        }
    }
}

/// The rows of a picture as they are when they are final.
pub fn final_rows(picture: u32, first: u32, last: u32) -> PhaseRows
    ensures { result ≡ record { phase = Phase.S; picture = picture; first = first; last = last } }
{
    PhaseRows {
        phase: Phase::S,
        picture,
        first,
        last: u64::from(last),
    }
}

/// How many of the rows a picture has.
#[tactic(auto, using(crate::proofs::NeedList::row_count))]
fn row_count(plan: &FlightPlan, rows: PhaseRows) -> u64
    ensures { result ≡ length (rows_needs plan.now rows.phase rows.picture rows.first rows.last) }
{
    u64::from(rows_end(plan, rows.picture, rows.last).saturating_sub(rows.first))
}

/// The need at `index` of those of rows.
#[tactic(auto, using(crate::proofs::NeedList::row_inside, crate::proofs::NeedList::row_item))]
fn row_get(plan: &FlightPlan, rows: PhaseRows, index: u64) -> (Line, u64)
    requires { index < length (rows_needs plan.now rows.phase rows.picture rows.first rows.last) }
    ensures { slice_get (rows_needs plan.now rows.phase rows.picture rows.first rows.last) index ≡ Some result }
{
    let _end = rows_end(plan, rows.picture, rows.last);
    let line = line_of(rows.phase, rows.picture, rows.first + index as u32);
    (line, u64::from(full_count_at(plan, line)))
}
