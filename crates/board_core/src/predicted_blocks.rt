//! The rows of reference pictures that the vectors of a coding tree unit reach.

ghost use Rattle.std.specs.Prelude.{◌≡◌, ◌↔◌, IsTrue, IfOk, All};
ghost use Rattle.board_core.specs.Reach.{IsBlock, IsLumaLines, range_of, reach_of};

use flight_plan::{Reference, RowRange, RowRanges};
use spec_inter_prediction::needed_rows;
use std::alloc::{AllocError, Global};

/// The luma lines of the pictures of a flight, which are all of one size.
#[derive(Clone, Copy, Debug, PartialEq, Eq)]
pub struct LumaLines {
    /// How many there are: an even number, at most 8192.
    pub height: u32,
    /// CtbLog2SizeY: a row of coding tree blocks has 2 to the power of it, from 1 to 6.
    pub ctb_log2: u32,
}

/// A block of a picture, with one vector and the picture that it is predicted from.
#[derive(Clone, Copy, Debug, PartialEq, Eq)]
pub struct PredictedBlock {
    /// The picture that it is predicted from.
    pub reference: Reference,
    /// Its first luma line, at most 8192.
    pub first: u32,
    /// How many luma lines it has, at most 8192.
    pub lines: u32,
    /// The vertical part of its vector, in quarters of a luma sample.
    pub down: i16,
}

/// Whether a picture may have these lines.
pub fn are_luma_lines(lines: LumaLines) -> bool
    ensures { IsTrue result ↔ IsLumaLines lines }
{
    1 <= lines.height
        && lines.height <= 8192
        && 2 * (lines.height / 2) == lines.height
        && 1 <= lines.ctb_log2
        && lines.ctb_log2 <= 6
}

/// Whether a picture may have this block.
pub fn is_block(block: PredictedBlock) -> bool
    ensures { IsTrue result ↔ IsBlock block }
{
    block.first <= 8192 && block.lines <= 8192
}

/// The rows that a coding tree unit reaches, of which these are the blocks with their vectors: a range a block, in the
/// order of the blocks.
pub fn motion_reach(
    alloc: Global,
    lines: LumaLines,
    blocks: &[PredictedBlock],
) -> Result<RowRanges, AllocError>
    requires lines { IsLumaLines lines }
    requires blocks { All IsBlock blocks.now }
    ensures { IfOk result (λ ranges. ranges ≡ reach_of lines blocks.now) }
{
    let mut ranges = RowRanges::new(alloc);
    for block in blocks {
        ranges.push(reached_rows(lines, *block))?;
    }
    Ok(ranges)
}

/// The rows of its reference picture that a block reaches: those that hold a line which the filters of luma or of
/// chroma read.
pub fn reached_rows(lines: LumaLines, block: PredictedBlock) -> RowRange
    requires lines { IsLumaLines lines }
    requires block { IsBlock block }
    ensures { result ≡ range_of lines block }
{
    let (height, ctb_log2) = (lines.height, lines.ctb_log2);
    let (first, last) = needed_rows(block.first, block.lines, block.down, height, ctb_log2);
    RowRange {
        picture: block.reference,
        first,
        last,
    }
}
