//! The blocks of a row one after the other.

ghost use Rattle.std.specs.Prelude.{◌≡◌, ◌≤◌, ◌<◌, ◌+◌, ◌-◌, ◌*◌, ◌==◌, ◌&&◌, ℕ, false, true, cond, nat_le, nat_lt};
ghost use Rattle.std.specs.Prelude.{length, slice_index_or};
ghost use Rattle.spec_sample_adaptive_offset.specs.Plane.{OffsetPlane, offset_sample, sample_by, unit_at};
ghost use Rattle.sao_filter.specs.Laying.{LaysLines};
ghost use Rattle.sao_filter.specs.Row.{HasLines, IsRow, StandsFor, at, kept_at, lines_of, plane_of, samples_of, top};
ghost use Rattle.sao_filter.specs.Row.{unit_in};
ghost use Rattle.sao_filter.specs.Units.{IsBlock};

use crate::band::band_block;
use crate::block::CodingTreeBlock;
use crate::edge::edge_block;
use crate::row::OffsetRow;
use ctu_records::ComponentOffset;

/// A block of the row.
fn block_of(row: &OffsetRow<'_>, k: usize) -> CodingTreeBlock
    requires row { IsRow row.now }
    requires k { k < length row.now.here.now }
    ensures block { IsBlock row.now result }
    ensures k { result.k ≡ k }
{
    let from = row.size * k;
    CodingTreeBlock {
        k,
        from,
        to: (from + row.size).min(row.width),
        lines: row.size.min(row.height - row.size * row.row),
        skip: (row.size * row.row).min(1),
    }
}

/// The samples of a block, by the parameters of its unit. A block without offset is left as it stands.
#[tactic(auto, unfolding(spec_sample_adaptive_offset::specs::Plane::sample_by))]
fn filter_block(row: &OffsetRow<'_>, lines: &[u16], k: usize, out: &mut [u16])
    requires row { IsRow row.now }
    requires k { k < length row.now.here.now }
    requires lines { HasLines row.now lines.now }
    requires out { row.now.width * lines_of row.now ≤ length out.old }
    ensures { (i j : ℕ) → i < row.now.width → j < lines_of row.now
        → ((nat_le (row.now.size * k) i && nat_lt i (row.now.size * k + row.now.size)) ≡ true
        → at out.old (row.now.width * j + i) ≡ samples_of row.now lines.now i (top row.now + j))
        → at out.new (row.now.width * j + i)
        ≡ cond (nat_le (row.now.size * k) i && nat_lt i (row.now.size * k + row.now.size))
        (sample_by (plane_of row.now) (samples_of row.now lines.now) (unit_in row.now.here.now k).offset i
        (top row.now + j))
        (at out.old (row.now.width * j + i)) }
{
    let block = block_of(row, k);
    match row.here[k].offset {
        ComponentOffset::Off => {}
        ComponentOffset::Band(position, offsets) => {
            band_block(row, lines, block, position, &offsets, out)
        },
        ComponentOffset::Edge(class, offsets) => {
            edge_block(row, lines, block, class, &offsets, out)
        },
    }
}

/// The samples of a row of coding tree blocks, apart from those that are kept.
fn filter_blocks(row: &OffsetRow<'_>, lines: &[u16], out: &mut [u16])
    requires row { IsRow row.now }
    requires lines { HasLines row.now lines.now }
    requires out { row.now.width * lines_of row.now ≤ length out.old }
    ensures { (i j : ℕ) → i < row.now.width → j < lines_of row.now
        → at out.old (row.now.width * j + i) ≡ samples_of row.now lines.now i (top row.now + j)
        → at out.new (row.now.width * j + i)
        ≡ sample_by (plane_of row.now) (samples_of row.now lines.now)
        (unit_at (plane_of row.now) i (top row.now + j)).offset i (top row.now + j) }
{
    for k in 0..row.here.len() {
        filter_block(row, lines, k, out);
    }
}

/// Keeps the samples of the places in a line of them that aren't changed.
fn keep_line(row: &OffsetRow<'_>, lines: &[u16], line: usize, out: &mut [u16])
    requires row { IsRow row.now }
    requires lines { HasLines row.now lines.now }
    requires line { line < lines_of row.now }
    requires out { row.now.width * lines_of row.now ≤ length out.old }
    ensures { (i j : ℕ) → i < row.now.width
        → at out.new (row.now.width * j + i)
        ≡ cond (j == line && kept_at row.now i (top row.now + j)) (samples_of row.now lines.now i (top row.now + j))
        (at out.old (row.now.width * j + i)) }
{
    let from = row.width * (line + (row.size * row.row).min(1));
    let first = row.width * line;
    let places = row.places * (line >> row.place_log2);
    for x in 0..row.width {
        let kept = is_kept(row.kept, places + (x >> row.place_log2));
        out[first + x] = chosen(kept, lines[from + x], out[first + x]);
    }
}

/// The first of two samples, or the second.
#[inline(always)]
fn chosen(first: bool, one: u16, other: u16) -> u16
    ensures { result ≡ cond first one other }
{
    if first { one } else { other }
}

/// Whether the samples of a place are kept.
fn is_kept(kept: &[bool], place: usize) -> bool
    ensures { result ≡ slice_index_or kept.now place false }
{
    place < kept.len() && kept[place]
}

/// Keeps the samples that aren't changed.
fn keep_samples(row: &OffsetRow<'_>, lines: &[u16], out: &mut [u16])
    requires row { IsRow row.now }
    requires lines { HasLines row.now lines.now }
    requires out { row.now.width * lines_of row.now ≤ length out.old }
    ensures { (i j : ℕ) → i < row.now.width → j < lines_of row.now
        → at out.new (row.now.width * j + i)
        ≡ cond (kept_at row.now i (top row.now + j)) (samples_of row.now lines.now i (top row.now + j))
        (at out.old (row.now.width * j + i)) }
{
    if row.kept.is_empty() {
        return;
    }
    for line in 0..row.size.min(row.height - row.size * row.row) {
        keep_line(row, lines, line, out);
    }
}

/// Adds the offsets of a row of coding tree blocks of one component to its deblocked samples, line after line, by lines
/// of the deblocked plane: the row's own, with the one above and the one below, where there are such. Blocks without
/// offset are left as they stand.
#[tactic(auto, unfolding(spec_sample_adaptive_offset::specs::Plane::offset_sample))]
pub fn sao_row(row: &OffsetRow<'_>, lines: &[u16], out: &mut [u16])
    requires row { IsRow row.now }
    requires lines { HasLines row.now lines.now }
    requires out { row.now.width * lines_of row.now ≤ length out.old }
    ensures value { (i j : ℕ) → i < row.now.width → j < lines_of row.now
        → at out.old (row.now.width * j + i) ≡ samples_of row.now lines.now i (top row.now + j)
        → at out.new (row.now.width * j + i)
        ≡ offset_sample (plane_of row.now) (samples_of row.now lines.now) i (top row.now + j) }
    ensures picture { (plane : OffsetPlane) (f : ℕ → ℕ → ℕ) → StandsFor row.now lines.now plane f
        → (i j : ℕ) → i < row.now.width → j < lines_of row.now
        → at out.old (row.now.width * j + i) ≡ samples_of row.now lines.now i (top row.now + j)
        → at out.new (row.now.width * j + i) ≡ offset_sample plane f i (top row.now + j) }
{
    filter_blocks(row, lines, out);
    keep_samples(row, lines, out);
}
