//! Pictures of I slices, decoded and printed.

use crate::coded_picture::print_coded_picture;
use crate::plane_rows::print_rows;
use hv_base::Stop;
use loop_filters::FilterScratch;
use picture_buffer::Bases;
use picture_build::build_picture;
use picture_trees::ReadError;
use plan_types::{PicturePlan, SegmentPlan};
use slice_types::SliceType;
use std::alloc::{AllocError, Global};
use std::io::{self, Write};

/// Prints the samples of pictures by rows, up to the first broken rule.
#[derive(Drop)]
pub struct RowTrace {
    alloc: Global,
    stop: Option<Stop>,
}

impl RowTrace {
    /// Before the first picture.
    pub fn new(alloc: Global) -> RowTrace {
        RowTrace { alloc, stop: None }
    }

    /// The rule that the data of a picture broke, if any did.
    pub fn stop(&self) -> Option<Stop> {
        self.stop
    }

    /// Prints a picture with this number, where its slices are all I and no rule was broken before it. An error is one
    /// of the writer, or there was no memory.
    pub fn print_picture<W: Write>(
        &mut self,
        number: u64,
        picture: &PicturePlan,
        out: &mut W,
    ) -> io::Result<()> {
        if self.stop.is_none() && is_intra(picture) {
            print_coded_picture(number, picture, out)?;
            self.stop = print_decoded(self.alloc, picture, out)?;
        }
        Ok(())
    }
}

/// Whether the slices of a picture are all I.
fn is_intra(picture: &PicturePlan) -> bool {
    picture.segments.as_slice().iter().all(is_i)
}

fn is_i(segment: &SegmentPlan) -> bool {
    segment.header.fields().slice.slice_type == SliceType::I
}

/// Decodes a picture of I slices, which refers to no other, and prints its rows, or answers what its data break.
fn print_decoded<W: Write>(
    alloc: Global,
    plan: &PicturePlan,
    out: &mut W,
) -> io::Result<Option<Stop>> {
    let mut scratch = FilterScratch::new(alloc);
    match build_picture(alloc, plan, &Bases::new(alloc), None, &mut scratch) {
        Ok(picture) => {
            print_rows(picture.planes(), 1 << plan.sps.ctb_log2(), out)?;
            Ok(None)
        }
        Err(ReadError::Memory) => Err(io::Error::from(AllocError)),
        Err(ReadError::Broken { breach, nal, ctu }) => Ok(Some(breach.at(nal, Some(ctu)))),
    }
}
