//! Blocks with edge offset.

ghost use Rattle.std.specs.Prelude.{◌≡◌, ◌≤◌, ◌<◌, ◌+◌, ◌-◌, ◌*◌, ◌==◌, ◌&&◌, ℕ, ℤ, List, true, length};
ghost use Rattle.spec_sample_adaptive_offset.specs.Plane.{edge_sample, first_column, first_line, may_read, meets};
ghost use Rattle.sao_filter.specs.Laying.{LaysLine, LaysLines};
ghost use Rattle.sao_filter.specs.Row.{HasLines, IsRow, plane_of, samples_of, top, unit_in, units_of};
ghost use Rattle.sao_filter.specs.Units.{IsBetween, IsBlock, IsEdgeTable, ReadsLine, reads_unit, shift};

use crate::block::CodingTreeBlock;
use crate::changes::edge_changes;
use crate::row::OffsetRow;
use crate::runs::{Neighbours, Run, copy_run, edge_run};
use spec_sample_adaptive_offset::OffsetUnit;

/// Where the first neighbour of a sample stands, counted from one column and one line before it, and what is added by
/// the signs of the differences.
#[derive(Clone, Copy)]
struct Edge {
    column: usize,
    line: usize,
    table: [i16; 5],
}

/// Some columns of a line of a block.
#[derive(Clone, Copy)]
struct Part {
    line: usize,
    from: usize,
    to: usize,
}

/// Whether samples of two units may be compared.
fn meets(unit: OffsetUnit, other: OffsetUnit) -> bool
    ensures { result ≡ meets unit other }
{
    unit.slice == other.slice
        || if unit.slice < other.slice {
            other.across
        } else {
            unit.across
        }
}

/// The unit that a neighbour stands in, counted as the neighbour is.
fn shift(h: usize, first: bool, last: bool) -> usize
    ensures value { result ≡ shift h first last }
    ensures few { result ≤ 2 }
{
    if h == 0 && first {
        0
    } else if h == 2 && last {
        2
    } else {
        1
    }
}

/// The unit in a column of the row above, of this row, or of the row below.
fn unit_beside(row: &OffsetRow<'_>, k: usize, v: usize) -> OffsetUnit
    requires row { IsRow row.now }
    requires v { v ≤ 2 }
    requires k { row.now.size * k < row.now.width }
    requires above { 0 < row.now.row + v }
    requires below { row.now.size * (row.now.row + v - 1) < row.now.height }
    ensures { result ≡ unit_in (units_of row.now (row.now.row + v - 1)) k }
{
    match v {
        0 => row.above[k],
        1 => row.here[k],
        _ => row.below[k],
    }
}

/// Whether samples of a unit may be compared with those of the unit beside it.
fn reads_unit(row: &OffsetRow<'_>, k: usize, h: usize, v: usize) -> bool
    requires row { IsRow row.now }
    requires k { row.now.size * k < row.now.width }
    requires h { h ≤ 2 }
    requires v { v ≤ 2 }
    ensures { result ≡ reads_unit (plane_of row.now) k row.now.row h v }
{
    if k + h == 0 || row.row + v == 0 {
        return false;
    }
    let column = k + h - 1;
    if row.size * column >= row.width || row.size * (row.row + v - 1) >= row.height {
        return false;
    }
    meets(unit_beside(row, k, 1), unit_beside(row, column, v))
}

/// Whether both neighbours of the samples of a part of a line may be read.
fn reads_both(row: &OffsetRow<'_>, block: CodingTreeBlock, edge: &Edge, part: Part) -> bool
    requires row { IsRow row.now }
    requires block { IsBlock row.now block }
    requires edge { (edge.now.column ≤ 2) × (edge.now.line ≤ 1) }
    requires line { part.line < block.lines }
    ensures { result
        ≡ (reads_unit (plane_of row.now) block.k row.now.row
        (shift edge.now.column (part.from == block.from) (part.to == block.to))
        (shift edge.now.line (part.line == 0) (part.line + 1 == block.lines))
        && reads_unit (plane_of row.now) block.k row.now.row
        (shift (2 - edge.now.column) (part.from == block.from) (part.to == block.to))
        (shift (2 - edge.now.line) (part.line == 0) (part.line + 1 == block.lines))) }
{
    let first = part.from == block.from;
    let last = part.to == block.to;
    let upper = part.line == 0;
    let lower = part.line + 1 == block.lines;
    reads_unit(
        row,
        block.k,
        shift(edge.column, first, last),
        shift(edge.line, upper, lower),
    ) && reads_unit(
        row,
        block.k,
        shift(2 - edge.column, first, last),
        shift(2 - edge.line, upper, lower),
    )
}

/// Samples of a part of a line whose neighbours stand in the same units.
fn edge_part(
    row: &OffsetRow<'_>,
    lines: &[u16],
    block: CodingTreeBlock,
    edge: &Edge,
    part: Part,
    out: &mut [u16],
)
    requires row { IsRow row.now }
    requires block { IsBlock row.now block }
    requires lines { HasLines row.now lines.now }
    requires edge { (edge.now.column ≤ 2) × (edge.now.line ≤ 1) }
    requires line { part.line < block.lines }
    requires columns { (block.from ≤ part.from) × ((part.from ≤ part.to) × (part.to ≤ block.to)) }
    requires alike { part.from + 1 < part.to → (block.from < part.from) × (part.to < block.to) }
    requires out { row.now.width * block.lines ≤ length out.old }
    ensures { (offsets : List ℤ) → IsEdgeTable row.now.depth offsets edge.now.table
        → LaysLine row.now.width part.line part.from part.to
        (λ i. edge_sample (plane_of row.now) (samples_of row.now lines.now) offsets edge.now.column edge.now.line i
        (top row.now + part.line))
        out.old out.new }
{
    if part.from == part.to {
        return;
    }
    let width = row.width;
    let line = part.line + block.skip;
    let run = Run {
        from: width * line + part.from,
        first: width * part.line + part.from,
        count: part.to - part.from,
    };
    if !reads_both(row, block, edge, part) {
        copy_run(lines, run, out);
        return;
    }
    let beside = Neighbours {
        first: width * (line + edge.line - 1) + (part.from + edge.column - 1),
        second: width * (line + (2 - edge.line) - 1) + (part.from + (2 - edge.column) - 1),
    };
    edge_run(lines, run, beside, &edge.table, row.depth, out);
}

/// Whether both neighbours of each sample of a line of a block may be read.
fn reads_line(row: &OffsetRow<'_>, block: CodingTreeBlock, edge: &Edge, line: usize) -> bool
    requires row { IsRow row.now }
    requires block { IsBlock row.now block }
    requires edge { (edge.now.column ≤ 2) × (edge.now.line ≤ 1) }
    requires line { line < block.lines }
    ensures value { result ≡ true → ReadsLine row.now block edge.now.column edge.now.line line }
    ensures alike { result ≡ true → IsBetween block line → (n : ℕ) → IsBetween block n
        → ReadsLine row.now block edge.now.column edge.now.line n }
{
    let first = block.from + 1;
    let last = block.to - 1;
    let head = Part {
        line,
        from: block.from,
        to: first,
    };
    let middle = Part {
        line,
        from: first,
        to: last,
    };
    let tail = Part {
        line,
        from: last,
        to: block.to,
    };
    if !reads_both(row, block, edge, head) {
        return false;
    }
    if !reads_both(row, block, edge, middle) {
        return false;
    }
    reads_both(row, block, edge, tail)
}

/// Whether both neighbours of each sample may be read in all lines of a block but its first and its last.
fn reads_between(row: &OffsetRow<'_>, block: CodingTreeBlock, edge: &Edge) -> bool
    requires row { IsRow row.now }
    requires block { IsBlock row.now block }
    requires edge { (edge.now.column ≤ 2) × (edge.now.line ≤ 1) }
    ensures { result ≡ true → (n : ℕ) → IsBetween block n
        → ReadsLine row.now block edge.now.column edge.now.line n }
{
    if block.lines < 3 {
        return false;
    }
    reads_line(row, block, edge, 1)
}

/// Whether both neighbours of each sample of a line may be read, by what is known of the lines between the first and
/// the last.
fn reads_by(
    row: &OffsetRow<'_>,
    block: CodingTreeBlock,
    edge: &Edge,
    between: bool,
    line: usize,
) -> bool
    requires row { IsRow row.now }
    requires block { IsBlock row.now block }
    requires edge { (edge.now.column ≤ 2) × (edge.now.line ≤ 1) }
    requires line { line < block.lines }
    requires between { between ≡ true → (n : ℕ) → IsBetween block n
        → ReadsLine row.now block edge.now.column edge.now.line n }
    ensures { result ≡ true → ReadsLine row.now block edge.now.column edge.now.line line }
{
    if between && 0 < line && line + 1 < block.lines {
        return true;
    }
    reads_line(row, block, edge, line)
}

/// A line of a block, both neighbours of each of whose samples may be read.
fn whole_line(
    row: &OffsetRow<'_>,
    lines: &[u16],
    block: CodingTreeBlock,
    edge: &Edge,
    line: usize,
    out: &mut [u16],
)
    requires row { IsRow row.now }
    requires block { IsBlock row.now block }
    requires lines { HasLines row.now lines.now }
    requires edge { (edge.now.column ≤ 2) × (edge.now.line ≤ 1) }
    requires line { line < block.lines }
    requires reads { ReadsLine row.now block edge.now.column edge.now.line line }
    requires out { row.now.width * block.lines ≤ length out.old }
    ensures { (offsets : List ℤ) → IsEdgeTable row.now.depth offsets edge.now.table
        → LaysLine row.now.width line block.from block.to
        (λ i. edge_sample (plane_of row.now) (samples_of row.now lines.now) offsets edge.now.column edge.now.line i
        (top row.now + line))
        out.old out.new }
{
    let width = row.width;
    let read = line + block.skip;
    let run = Run {
        from: width * read + block.from,
        first: width * line + block.from,
        count: block.to - block.from,
    };
    let beside = Neighbours {
        first: width * (read + edge.line - 1) + (block.from + edge.column - 1),
        second: width * (read + (2 - edge.line) - 1) + (block.from + (2 - edge.column) - 1),
    };
    edge_run(lines, run, beside, &edge.table, row.depth, out);
}

/// A line of a block with edge offset, whole or in parts: its first sample, those between, and its last.
fn edge_line(
    row: &OffsetRow<'_>,
    lines: &[u16],
    block: CodingTreeBlock,
    edge: &Edge,
    between: bool,
    line: usize,
    out: &mut [u16],
)
    requires row { IsRow row.now }
    requires block { IsBlock row.now block }
    requires lines { HasLines row.now lines.now }
    requires edge { (edge.now.column ≤ 2) × (edge.now.line ≤ 1) }
    requires line { line < block.lines }
    requires between { between ≡ true → (n : ℕ) → IsBetween block n
        → ReadsLine row.now block edge.now.column edge.now.line n }
    requires out { row.now.width * block.lines ≤ length out.old }
    ensures { (offsets : List ℤ) → IsEdgeTable row.now.depth offsets edge.now.table
        → LaysLine row.now.width line block.from block.to
        (λ i. edge_sample (plane_of row.now) (samples_of row.now lines.now) offsets edge.now.column edge.now.line i
        (top row.now + line))
        out.old out.new }
{
    if reads_by(row, block, edge, between, line) {
        whole_line(row, lines, block, edge, line, out);
        return;
    }
    let first = block.from + 1;
    let head = Part {
        line,
        from: block.from,
        to: first,
    };
    edge_part(row, lines, block, edge, head, out);
    if first == block.to {
        return;
    }
    let last = block.to - 1;
    let middle = Part {
        line,
        from: first,
        to: last,
    };
    edge_part(row, lines, block, edge, middle, out);
    let tail = Part {
        line,
        from: last,
        to: block.to,
    };
    edge_part(row, lines, block, edge, tail, out);
}

/// The column of the first neighbour.
fn first_column(class: u8) -> usize
    ensures value { result ≡ first_column class }
    ensures few { result ≤ 2 }
{
    match class {
        1 => 1,
        3 => 2,
        _ => 0,
    }
}

/// The line of the first neighbour.
fn first_line(class: u8) -> usize
    ensures value { result ≡ first_line class }
    ensures few { result ≤ 1 }
{
    if class == 0 { 1 } else { 0 }
}

/// Adds the offsets of edges to the samples of a block.
pub fn edge_block(
    row: &OffsetRow<'_>,
    lines: &[u16],
    block: CodingTreeBlock,
    class: u8,
    offsets: &[i8; 4],
    out: &mut [u16],
)
    requires row { IsRow row.now }
    requires block { IsBlock row.now block }
    requires lines { HasLines row.now lines.now }
    requires out { row.now.width * block.lines ≤ length out.old }
    ensures { LaysLines row.now.width block.lines block.from block.to
        (λ i j. edge_sample (plane_of row.now) (samples_of row.now lines.now) offsets.now (first_column class)
        (first_line class) i (top row.now + j))
        out.old out.new }
{
    let edge = Edge {
        column: first_column(class),
        line: first_line(class),
        table: edge_changes(row.depth, offsets),
    };
    let between = reads_between(row, block, &edge);
    for line in 0..block.lines {
        edge_line(row, lines, block, &edge, between, line, out);
    }
}
