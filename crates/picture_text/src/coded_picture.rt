//! The slices and the slice segment headers of a picture.

use header_lines::print_slice_segment;
use plan_types::{PicturePlan, SegmentPlan};
use slice_types::SliceType;
use std::io::{self, Write};

/// Prints the fields of the picture's slice segment headers, in decoding order. An error is one of the writer.
pub fn print_slice_segments<W: Write>(picture: &PicturePlan, out: &mut W) -> io::Result<()> {
    let (sps, pps) = (picture.sps.fields(), picture.pps.fields());
    for segment in picture.segments.as_slice() {
        print_slice_segment(segment.header.fields(), sps, pps, out)?;
    }
    Ok(())
}

/// Prints a picture's line: its number, the number of its first unit, its `nal_unit_type`, its order count, its coded
/// size, and a letter for the type of each slice. An error is one of the writer.
pub(crate) fn print_coded_picture<W: Write>(
    number: u64,
    picture: &PicturePlan,
    out: &mut W,
) -> io::Result<()> {
    let (nal, kind, poc) = (picture.nal, picture.kind.nal_type, picture.poc);
    let format = picture.sps.fields().format;
    let (width, height) = (
        format.pic_width_in_luma_samples,
        format.pic_height_in_luma_samples,
    );
    write!(
        out,
        "picture {number} nal {nal} type {kind} poc {poc} size {width}x{height} slices "
    )?;
    slice_types(out, picture.segments.as_slice())
}

/// A letter for each slice.
fn slice_types<W: Write>(out: &mut W, segments: &[SegmentPlan]) -> io::Result<()> {
    for (number, segment) in segments.iter().enumerate() {
        if segment.slice == number {
            let letter = letter_of(segment.header.fields().slice.slice_type);
            write!(out, "{letter}")?;
        }
    }
    writeln!(out)
}

/// The letter of a slice's type.
fn letter_of(kind: SliceType) -> &'static str {
    match kind {
        SliceType::B => "B",
        SliceType::P => "P",
        SliceType::I => "I",
    }
}
