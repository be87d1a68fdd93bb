//! The lines of a picture's coding tree units, unit after unit.

use crate::motion_buffer::MotionBuffer;
use crate::unit_lines::{UnitOrigin, unit_items, unit_start};
use ctu_records::Records;
use picture_layout::slice_of;
use picture_motion::{PictureMotion, collocated_entry};
use picture_trees::Trees;
use plan_types::{PicturePlan, SegmentPlan};
use std::alloc::{AllocError, Global};
use std::io::{self, Write};

/// The lines of a picture's coding tree units, and its motion, unit after unit.
#[derive(Drop)]
pub(crate) struct TreeLines<'a> {
    picture: &'a PicturePlan,
    motion: PictureMotion<'a>,
    /// The motion of the pictures in the buffer.
    buffer: MotionBuffer,
    text: Vec<u8>,
    /// How many units a row of the picture has.
    width: u32,
    /// The side of a unit in luma samples.
    side: u32,
    /// QpBdOffsetY.
    qp_offset: i64,
}

impl<'a> TreeLines<'a> {
    /// Before the first unit of a picture.
    pub(crate) fn new(
        alloc: Global,
        picture: &'a PicturePlan,
        motion: PictureMotion<'a>,
        buffer: MotionBuffer,
    ) -> TreeLines<'a> {
        let depth = picture.sps.fields().format.bit_depth_luma_minus8;
        TreeLines {
            picture,
            motion,
            buffer,
            text: Vec::new(alloc),
            width: picture.sps.width_in_ctbs(),
            side: picture.sps.ctb_size(),
            qp_offset: 6 * i64::from(depth),
        }
    }

    /// Prints the lines. The picture's motion then stands in the buffer.
    pub(crate) fn finish<W: Write>(self, out: &mut W) -> io::Result<MotionBuffer> {
        out.write_all(self.text.as_slice())?;
        let mut buffer = self.buffer;
        buffer.push(self.motion.into_field())?;
        buffer.keep(self.picture.outputs.kept.as_slice());
        Ok(buffer)
    }

    /// Where a unit stands.
    fn origin(&self, address: u32) -> UnitOrigin {
        let width = self.width.max(1);
        UnitOrigin {
            x: self.side.saturating_mul(address % width),
            y: self.side.saturating_mul(address / width),
            qp_offset: self.qp_offset,
        }
    }

    /// Derives the motion of a unit.
    fn derive(&mut self, segment: usize, address: u32, records: &Records) {
        if let Some(segment) = self.picture.segments.as_slice().get(segment) {
            match collocated_place(self.picture, segment) {
                Some(place) => self.derive_over(segment, address, records, place),
                None => self.motion.derive(segment, address, records),
            }
        }
    }

    /// Derives the motion of a unit over that of the picture at a place.
    fn derive_over(&mut self, segment: &SegmentPlan, address: u32, records: &Records, place: u32) {
        match self.buffer.get(place) {
            Some(field) => self.motion.derive_over(segment, address, records, field),
            None => self.motion.derive(segment, address, records),
        }
    }

    /// The lines of a unit.
    fn print_unit(&mut self, segment: usize, address: u32, records: &Records) -> io::Result<()> {
        let origin = self.origin(address);
        self.derive(segment, address, records);
        unit_start(&mut self.text, address, segment)?;
        unit_items(&mut self.text, origin, &self.motion, records.items())
    }
}

impl<'a> Trees for TreeLines<'a> {
    ghost tells = { λ _ _ _. Unit {0} };

    fn unit(&mut self, segment: usize, ctu: u32, records: &Records) -> Result<(), AllocError> {
        match self.print_unit(segment, ctu, records) {
            Ok(()) => Ok(()),
            Err(_) => Err(AllocError),
        }
    }
}

/// The place of the collocated picture of a segment's slice.
fn collocated_place(picture: &PicturePlan, segment: &SegmentPlan) -> Option<u32> {
    let lists = &slice_of(picture, segment).lists;
    match collocated_entry(&segment.header.fields().slice, lists) {
        Some(entry) => Some(entry.place),
        None => None,
    }
}
