//! Blocks with band offset.

ghost use Rattle.std.specs.Prelude.{◌≡◌, ◌≤◌, ◌<◌, ◌+◌, ◌-◌, ◌*◌, ℕ, length};
ghost use Rattle.spec_sample_adaptive_offset.specs.Offsets.{band_moved};
ghost use Rattle.sao_filter.specs.Laying.{LaysLines};
ghost use Rattle.sao_filter.specs.Row.{HasLines, IsRow, samples_of, top};
ghost use Rattle.sao_filter.specs.Units.{IsBlock};

use crate::block::CodingTreeBlock;
use crate::changes::{band_changes, band_moves};
use crate::row::OffsetRow;
use crate::runs::{Run, band_run};

/// Where the samples of a line of a block stand.
#[inline(always)]
pub fn run_of(width: usize, block: CodingTreeBlock, line: usize) -> Run
    requires width { width ≤ 65536 }
    requires columns { (block.from ≤ block.to) × (block.to ≤ width) }
    requires line { line ≤ 64 }
    requires skip { block.skip ≤ 1 }
    ensures from { result.from ≡ width * (line + block.skip) + block.from }
    ensures first { result.first ≡ width * line + block.from }
    ensures count { result.count + block.from ≡ block.to }
{
    Run {
        from: width * (line + block.skip) + block.from,
        first: width * line + block.from,
        count: block.to - block.from,
    }
}

/// Adds the offsets of bands to the samples of a block.
pub fn band_block(
    row: &OffsetRow<'_>,
    lines: &[u16],
    block: CodingTreeBlock,
    position: u8,
    offsets: &[i8; 4],
    out: &mut [u16],
)
    requires row { IsRow row.now }
    requires block { IsBlock row.now block }
    requires lines { HasLines row.now lines.now }
    requires out { row.now.width * block.lines ≤ length out.old }
    ensures { LaysLines row.now.width block.lines block.from block.to
        (λ i j. band_moved row.now.depth position offsets.now (samples_of row.now lines.now i (top row.now + j)))
        out.old out.new }
{
    let table = band_changes(row.depth, position, offsets);
    let moves = band_moves(row.depth, position, offsets);
    for line in 0..block.lines {
        band_run(
            lines,
            run_of(row.width, block, line),
            &table,
            &moves,
            row.depth,
            out,
        );
    }
}
