//! The coding trees of pictures, read and printed.

use crate::coded_picture::print_coded_picture;
use crate::motion_buffer::MotionBuffer;
use crate::tree_units::TreeLines;
use hv_base::Stop;
use picture_motion::PictureMotion;
use picture_trees::{ReadError, read_picture};
use plan_types::PicturePlan;
use std::alloc::{AllocError, Global};
use std::io::{self, Write};
use std::mem;

/// Prints the coding trees of pictures, up to the first broken rule.
#[derive(Drop)]
pub struct TreeTrace {
    alloc: Global,
    stop: Option<Stop>,
    /// The motion of the pictures that later ones refer to.
    buffer: MotionBuffer,
}

impl TreeTrace {
    /// Before the first picture.
    pub fn new(alloc: Global) -> TreeTrace {
        TreeTrace {
            alloc,
            stop: None,
            buffer: MotionBuffer::new(alloc),
        }
    }

    /// The rule that the data of a picture broke, if any did.
    pub fn stop(&self) -> Option<Stop> {
        self.stop
    }

    /// Prints the next picture in decoding order, with this number, where no rule was broken before it. An error is one
    /// of the writer, or there was no memory; behind it the motion of earlier pictures is lost.
    pub fn print_picture<W: Write>(
        &mut self,
        number: u64,
        picture: &PicturePlan,
        out: &mut W,
    ) -> io::Result<()> {
        if self.stop.is_none() {
            print_coded_picture(number, picture, out)?;
            self.stop = self.print_read(picture, out)?;
        }
        Ok(())
    }

    /// Prints what is read of a picture, and answers what its data break.
    fn print_read<W: Write>(
        &mut self,
        picture: &PicturePlan,
        out: &mut W,
    ) -> io::Result<Option<Stop>> {
        let buffer = mem::replace(&mut self.buffer, MotionBuffer::new(self.alloc));
        let (stop, buffer) = print_units(self.alloc, picture, buffer, out)?;
        self.buffer = buffer;
        Ok(stop)
    }
}

/// Prints the coding tree units of a picture, and answers what the data break, and the buffer that the picture leaves.
fn print_units<W: Write>(
    alloc: Global,
    picture: &PicturePlan,
    buffer: MotionBuffer,
    out: &mut W,
) -> io::Result<(Option<Stop>, MotionBuffer)> {
    let motion = PictureMotion::new(alloc, picture)?;
    let mut lines = TreeLines::new(alloc, picture, motion, buffer);
    let stop = match read_picture(alloc, picture, &mut lines) {
        Ok(()) => None,
        Err(ReadError::Memory) => return Err(io::Error::from(AllocError)),
        Err(ReadError::Broken { breach, nal, ctu }) => Some(breach.at(nal, Some(ctu))),
    };
    let left = lines.finish(out)?;
    Ok((stop, left))
}
