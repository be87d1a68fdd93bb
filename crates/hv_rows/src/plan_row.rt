//! Rows of `plans.txt`: a stream, how many of its pictures are planned, what stops the planning, and what is known of
//! the last picture.

ghost use Rattle.std.specs.Prelude.{◌≡◌, ◌<◌, false};

use crate::byte_text::{UnitNames, name_and_columns, number_of};
use crate::row_error::RowError;
use crate::tally::Tally;
use hv_base::Stop;
use nal_stream::{Framer, Next};
use picture_plan::{Flight, Planned, Planner};
use picture_text::plan_text;
use std::alloc::{AllocError, Global};

/// The sizes of pieces in which a stream comes.
const PIECES: [usize; 3] = [1, 7, 65_536];

/// A stream, and the size of the pieces in which it comes.
#[derive(Clone, Copy)]
struct Stream<'a> {
    bytes: &'a [u8],
    piece: usize,
}

/// What the columns behind a row's name say.
#[derive(Clone, Copy)]
struct PlanRow<'a> {
    stream: &'a str,
    pictures: u32,
    stop: &'a str,
    /// The last picture, where it is told.
    last: Option<&'a str>,
}

/// What comes of a stream's planning.
#[derive(Drop)]
struct Plan {
    pictures: u32,
    stop: Option<Stop>,
    /// The last picture as text.
    last: String,
}

/// Plans each row of the table.
pub(crate) fn plan_rows(alloc: Global, table: &str, tally: &mut Tally) -> Result<(), RowError> {
    let mut names = UnitNames::new(alloc);
    for line in table.lines() {
        if names.is_row(line)? {
            plan_line(alloc, &names, line, tally)?;
        }
    }
    Ok(())
}

/// Plans the row of a line.
fn plan_line(
    alloc: Global,
    names: &UnitNames<'_>,
    line: &str,
    tally: &mut Tally,
) -> Result<(), RowError> {
    let (name, rest) = name_and_columns(line);
    let row = row_of(rest)?;
    let input = names.stream_of(alloc, row.stream)?;
    plan_row(alloc, name, row, input.as_slice(), tally)
}

/// Plans the stream of a row in each size of pieces.
fn plan_row(
    alloc: Global,
    name: &str,
    row: PlanRow<'_>,
    bytes: &[u8],
    tally: &mut Tally,
) -> Result<(), RowError> {
    tally.add_row();
    for piece in PIECES {
        tally.add_run(name, answer_of(alloc, row, Stream { bytes, piece })?)?;
    }
    Ok(())
}

/// The columns behind the name.
fn row_of(text: &str) -> Result<PlanRow<'_>, RowError> {
    let mut columns = text.split(" | ");
    let stream = columns.next().unwrap_or("");
    let pictures = number_of(columns.next().unwrap_or(""))?;
    Ok(PlanRow {
        stream,
        pictures,
        stop: columns.next().unwrap_or(""),
        last: columns.next(),
    })
}

/// In what the planning of a stream differs from what the row says.
fn answer_of(
    alloc: Global,
    row: PlanRow<'_>,
    stream: Stream<'_>,
) -> Result<Option<String>, RowError>
    requires { 0 < stream.piece }
{
    let piece = stream.piece;
    match plan_of(alloc, stream) {
        Ok(plan) => difference(alloc, row, piece, &plan),
        Err(_) => Ok(Some(format!(in alloc; "pieces of {piece}: memory")?)),
    }
}

/// In what a plan differs from what the row says.
fn difference(
    alloc: Global,
    row: PlanRow<'_>,
    piece: usize,
    plan: &Plan,
) -> Result<Option<String>, RowError> {
    let stop = stop_text(alloc, plan.stop)?;
    if is_told(row, plan, stop.as_str()) {
        return Ok(None);
    }
    let (found, picture) = (plan.pictures, plan.last.as_str());
    Ok(Some(format!(in alloc; "pieces of {piece}: {found} pictures, then {stop}; {picture}")?))
}

/// Whether a plan and the text of its stop are what the row says.
fn is_told(row: PlanRow<'_>, plan: &Plan, stop: &str) -> bool {
    plan.pictures == row.pictures
        && stop == row.stop
        && row.last.is_none_or(|text| text == plan.last.as_str())
}

fn stop_text(alloc: Global, stop: Option<Stop>) -> Result<String, AllocError> {
    match stop {
        None => String::from_str(alloc, "-"),
        Some(Stop::Fault(fault)) => format!(in alloc; "{fault}"),
        Some(Stop::Limit(limit)) => format!(in alloc; "{limit}"),
    }
}

/// Plans the pictures of a stream.
fn plan_of(alloc: Global, stream: Stream<'_>) -> Result<Plan, AllocError>
    requires { 0 < stream.piece }
{
    let mut plan = Plan {
        pictures: 0,
        stop: None,
        last: String::new(alloc),
    };
    plan.frame(alloc, stream)?;
    Ok(plan)
}

impl Plan {
    /// Plans the pictures of a stream with a framer.
    fn frame(&mut self, alloc: Global, stream: Stream<'_>) -> Result<(), AllocError>
        requires { 0 < stream.piece }
    {
        let mut framer = Framer::new(alloc)?;
        self.plan(alloc, stream, &mut framer)
    }

    /// Plans the pictures of a stream with a planner.
    fn plan(
        &mut self,
        alloc: Global,
        stream: Stream<'_>,
        framer: &mut Framer,
    ) -> Result<(), AllocError>
        requires piece { 0 < stream.piece }
        requires going_on { framer.old.finished ≡ false }
    {
        let mut planner = Planner::new(alloc, 1, true)?;
        self.add_stream(alloc, stream, framer, &mut planner)
    }

    /// Plans the pictures of a stream.
    fn add_stream(
        &mut self,
        alloc: Global,
        stream: Stream<'_>,
        framer: &mut Framer,
        planner: &mut Planner,
    ) -> Result<(), AllocError>
        requires piece { 0 < stream.piece }
        requires going_on { framer.old.finished ≡ false }
    {
        for bytes in stream.bytes.chunks(stream.piece) {
            framer.feed(bytes)?;
            self.add_units(alloc, framer, planner)?;
        }
        framer.finish();
        self.add_units(alloc, framer, planner)?;
        self.add_end(alloc, planner)
    }

    /// Plans what the end of the input gives, where nothing stopped the stream.
    fn add_end(&mut self, alloc: Global, planner: &mut Planner) -> Result<(), AllocError> {
        if self.stop.is_some() {
            return Ok(());
        }
        self.add(alloc, planner.finish()?)
    }

    /// Plans the units that are whole, up to what stops the stream.
    fn add_units(
        &mut self,
        alloc: Global,
        framer: &mut Framer,
        planner: &mut Planner,
    ) -> Result<(), AllocError>
        ensures { framer.new.finished ≡ framer.old.finished }
    {
        for _ in 0..u64::MAX {
            if self.stop.is_some() {
                break;
            }
            match framer.next()? {
                Next::More | Next::End => break,
                next => self.add(alloc, planner.unit(next)?)?,
            }
        }
        Ok(())
    }

    fn add(&mut self, alloc: Global, planned: Planned) -> Result<(), AllocError> {
        let Planned {
            mut flights,
            stop,
            ..
        } = planned;
        self.stop = stop;
        for _ in 0..u64::MAX {
            match flights.next() {
                Some(flight) => self.add_flight(alloc, &flight)?,
                None => break,
            }
        }
        Ok(())
    }

    fn add_flight(&mut self, alloc: Global, flight: &Flight) -> Result<(), AllocError> {
        for picture in flight.as_slice() {
            self.pictures = self.pictures.saturating_add(1);
            self.last = plan_text(alloc, picture)?;
        }
        Ok(())
    }
}
