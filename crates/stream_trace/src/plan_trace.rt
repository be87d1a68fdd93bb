//! The planned pictures as lines.

use hv_base::Stop;
use nal_stream::Next;
use picture_plan::{Flight, Flights, Planned, Planner};
use picture_text::{OutputTrace, PictureLine, RowTrace, TreeTrace, print_slice_segments};
use plan_types::PicturePlan;
use std::alloc::Global;
use std::io::{self, Write};

/// What is printed of the pictures.
#[derive(Drop)]
pub(crate) enum PlanLines {
    /// A line a picture, in decoding order.
    Pictures,
    /// The fields of slice segment headers too.
    Slices,
    /// A line a picture, in output order.
    Outputs(OutputTrace),
    /// The coding trees of pictures, in decoding order.
    Trees(TreeTrace),
    /// The samples of pictures of I slices by rows, in decoding order.
    Rows(RowTrace),
}

/// Prints pictures as they are planned.
#[derive(Drop)]
pub(crate) struct PlanTrace {
    planner: Planner,
    lines: PlanLines,
    /// How many pictures were planned.
    count: u64,
    stop: Option<Stop>,
}

impl PlanTrace {
    /// Before the first unit.
    pub(crate) fn new(alloc: Global, lines: PlanLines) -> io::Result<PlanTrace> {
        Ok(PlanTrace {
            planner: Planner::new(alloc, 1, true)?,
            lines,
            count: 0,
            stop: None,
        })
    }

    /// What stopped the stream, if anything did.
    pub(crate) fn stop(&self) -> Option<Stop> {
        match &self.lines {
            PlanLines::Trees(trees) => trees.stop().or(self.stop),
            PlanLines::Rows(rows) => rows.stop().or(self.stop),
            _ => self.stop,
        }
    }

    /// Plans what a framer answers, and prints the pictures that are over so. Says whether the stream goes on.
    pub(crate) fn print_next<W: Write>(&mut self, next: Next, out: &mut W) -> io::Result<bool> {
        let planned = self.planner.unit(next)?;
        self.print_planned(planned, out)?;
        Ok(self.stop().is_none())
    }

    /// Prints the pictures that are over where the input ends.
    pub(crate) fn print_end<W: Write>(&mut self, out: &mut W) -> io::Result<()> {
        let planned = self.planner.finish()?;
        self.print_planned(planned, out)
    }

    fn print_planned<W: Write>(&mut self, planned: Planned, out: &mut W) -> io::Result<()> {
        let Planned {
            mut flights,
            last,
            stop,
        } = planned;
        self.stop = stop;
        self.print_all(&mut flights, last.as_slice(), out)
    }

    /// Prints the pictures of flights, and those that go out at the end.
    fn print_all<W: Write>(
        &mut self,
        flights: &mut Flights,
        last: &[u32],
        out: &mut W,
    ) -> io::Result<()> {
        for _ in 0..u64::MAX {
            if !self.print_next_flight(flights, out)? {
                break;
            }
        }
        match &mut self.lines {
            PlanLines::Outputs(outputs) => outputs.print_places(last, out),
            _ => Ok(()),
        }
    }

    /// Prints the pictures of the next flight. Says whether there was one.
    fn print_next_flight<W: Write>(
        &mut self,
        flights: &mut Flights,
        out: &mut W,
    ) -> io::Result<bool> {
        match flights.next() {
            Some(flight) => {
                self.print_flight(&flight, out)?;
                Ok(true)
            }
            None => Ok(false),
        }
    }

    fn print_flight<W: Write>(&mut self, flight: &Flight, out: &mut W) -> io::Result<()> {
        for picture in flight.as_slice() {
            print_picture(&mut self.lines, self.count, picture, out)?;
            self.count = self.count.saturating_add(1);
        }
        Ok(())
    }
}

fn print_picture<W: Write>(
    lines: &mut PlanLines,
    number: u64,
    picture: &PicturePlan,
    out: &mut W,
) -> io::Result<()> {
    match lines {
        PlanLines::Pictures => PictureLine::new(picture).print(number, out),
        PlanLines::Slices => {
            PictureLine::new(picture).print(number, out)?;
            print_slice_segments(picture, out)
        }
        PlanLines::Outputs(outputs) => outputs.print_picture(picture, out),
        PlanLines::Trees(trees) => trees.print_picture(number, picture, out),
        PlanLines::Rows(rows) => rows.print_picture(number, picture, out),
    }
}
