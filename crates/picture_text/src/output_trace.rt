//! Pictures in output order, as lines.

use crate::picture_line::PictureLine;
use header_types::FieldList;
use plan_types::PicturePlan;
use std::alloc::{AllocError, Global};
use std::io::{self, Write};

/// The decoded picture buffer in decoding order, and how many pictures went out of it.
#[derive(Drop)]
pub struct OutputTrace {
    alloc: Global,
    buffer: FieldList<PictureLine>,
    count: u64,
}

impl OutputTrace {
    /// Before the first picture.
    pub fn new(alloc: Global) -> OutputTrace {
        OutputTrace {
            alloc,
            buffer: FieldList::new(alloc),
            count: 0,
        }
    }

    /// Prints the pictures that go out at a picture, and keeps those that stay. An error is one of the writer, or there
    /// was no memory.
    pub fn print_picture<W: Write>(
        &mut self,
        picture: &PicturePlan,
        out: &mut W,
    ) -> io::Result<()> {
        self.buffer.push(PictureLine::new(picture))?;
        self.print_places(picture.outputs.before.as_slice(), out)?;
        self.print_places(picture.outputs.behind.as_slice(), out)?;
        self.keep(picture.outputs.kept.as_slice())?;
        Ok(())
    }

    /// Prints the pictures at these places of the buffer. An error is one of the writer.
    pub fn print_places<W: Write>(&mut self, places: &[u32], out: &mut W) -> io::Result<()> {
        for place in places {
            if let Some(line) = self.buffer.as_slice().get(*place as usize) {
                line.print(self.count, out)?;
                self.count = self.count.saturating_add(1);
            }
        }
        Ok(())
    }

    /// Keeps the pictures at these places of the buffer.
    fn keep(&mut self, places: &[u32]) -> Result<(), AllocError> {
        let mut kept = FieldList::new(self.alloc);
        for place in places {
            if let Some(line) = self.buffer.as_slice().get(*place as usize) {
                kept.push(*line)?;
            }
        }
        self.buffer = kept;
        Ok(())
    }
}
