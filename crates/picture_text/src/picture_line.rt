//! A picture's line.

use plan_types::PicturePlan;
use std::io::{self, Write};

/// What a line tells of a picture.
#[derive(Clone, Copy)]
pub struct PictureLine {
    poc: i32,
    nal_type: u8,
    width: u32,
    height: u32,
}

impl PictureLine {
    /// The picture order count, the `nal_unit_type`, and the width and the height inside the conformance window.
    pub fn new(picture: &PicturePlan) -> PictureLine {
        PictureLine {
            poc: picture.poc,
            nal_type: picture.kind.nal_type,
            width: picture.sps.cropped_width(),
            height: picture.sps.cropped_height(),
        }
    }

    /// Prints it behind a number. An error is one of the writer.
    pub fn print<W: Write>(self, number: u64, out: &mut W) -> io::Result<()> {
        let PictureLine {
            poc,
            nal_type,
            width,
            height,
        } = self;
        writeln!(out, "{number} {poc} {nal_type} {width}x{height}")
    }
}
