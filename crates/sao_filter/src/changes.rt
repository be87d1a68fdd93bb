//! What is added to a sample.

ghost use Rattle.std.specs.Prelude.{◌≡◌, ◌≤◌, ◌<◌, ◌+◌, ◌-◌, ◌*◌, ◌/◌, ◌%◌, ◌^◌, ℕ, List, ℤ, pos, negsuc, ◌≤ℤ◌, ◌*ℤ◌};
ghost use Rattle.std.specs.Prelude.{min, slice_index_or, ◌+ℤ◌};
ghost use Rattle.spec_sample_adaptive_offset.specs.Offsets.{band_index, band_moved, compared, edge_idx, edge_moved};
ghost use Rattle.spec_sample_adaptive_offset.specs.Offsets.{moved, offset_value};
ghost use Rattle.sao_filter.specs.Moves.{AreBandMoves};
ghost use Rattle.sao_filter.specs.Units.{AreMoves, IsBandTable, IsEdgeTable};

/// An offset for so many bits: offsets are coded for up to 10.
fn scaled(offset: i8, depth: u32) -> i16
    requires depth { depth ≤ 14 }
    ensures { result ≡ offset *ℤ pos (2 ^ (depth - min depth 10)) }
{
    let offset = i16::from(offset);
    match depth {
        11 => offset * 2,
        12 => offset * 4,
        13 => offset * 8,
        14 => offset * 16,
        _ => offset,
    }
}

/// SaoOffsetVal.
#[tactic(auto, unfolding(spec_sample_adaptive_offset::specs::Offsets::offset_value))]
fn offset_value(depth: u32, offsets: &[i8; 4], index: usize) -> i16
    requires depth { depth ≤ 14 }
    requires index { index ≤ 4 }
    ensures { result ≡ offset_value depth offsets.now index }
{
    if index == 0 {
        0
    } else {
        scaled(offsets[index - 1], depth)
    }
}

/// Which offset a band has, or 0.
#[tactic(auto, unfolding(spec_sample_adaptive_offset::specs::Offsets::band_index))]
fn band_index(position: u8, band: usize) -> usize
    requires band { band < 32 }
    ensures value { result ≡ band_index position band }
    ensures few { result ≤ 4 }
{
    let place = (band + (32 - usize::from(position) % 32)) % 32;
    if place < 4 { place + 1 } else { 0 }
}

/// What is added to the samples of each band.
pub fn band_changes(depth: u32, position: u8, offsets: &[i8; 4]) -> [i16; 32]
    requires depth { depth ≤ 14 }
    ensures { IsBandTable depth position offsets.now result }
{
    let mut table = [0; 32];
    for k in 0..32 {
        table[k] = offset_value(depth, offsets, band_index(position, k));
    }
    table
}

/// Which offset a sample has by the signs of its differences from both neighbours, or 0.
#[tactic(auto, unfolding(spec_sample_adaptive_offset::specs::Offsets::edge_idx))]
fn edge_index(signs: usize) -> usize
    requires signs { signs < 5 }
    ensures value { result ≡ edge_idx signs }
    ensures few { result ≤ 4 }
{
    match signs {
        0 => 1,
        1 => 2,
        2 => 0,
        _ => signs,
    }
}

/// What is added to samples by the signs of their differences.
pub fn edge_changes(depth: u32, offsets: &[i8; 4]) -> [i16; 5]
    requires depth { depth ≤ 14 }
    ensures { IsEdgeTable depth offsets.now result }
{
    let mut table = [0; 5];
    for k in 0..5 {
        table[k] = offset_value(depth, offsets, edge_index(k));
    }
    table
}

/// The greatest sample of so many bits.
#[inline(always)]
fn greatest_sample(depth: u32) -> i32
    requires depth { (8 ≤ depth) × (depth ≤ 14) }
    ensures value { result ≡ pos (2 ^ depth - 1) }
    ensures least { pos 0 ≤ℤ result }
    ensures greatest { result ≤ℤ pos 65535 }
{
    (1 << depth) - 1
}

/// A sample with what is added to it, clipped.
#[inline(always)]
#[tactic(auto, unfolding(spec_sample_adaptive_offset::specs::Offsets::moved))]
fn moved(sample: u16, change: i16, depth: u32) -> u16
    requires depth { (8 ≤ depth) × (depth ≤ 14) }
    ensures { result ≡ moved depth sample change }
{
    (i32::from(sample) + i32::from(change)).clamp(0, greatest_sample(depth)) as u16
}

/// A sample by band offset.
#[inline(always)]
pub fn band_moved(sample: u16, table: &[i16; 32], depth: u32) -> u16
    requires depth { (8 ≤ depth) × (depth ≤ 14) }
    ensures { (position : ℕ) (offsets : List ℤ) → IsBandTable depth position offsets table.now
        → result ≡ band_moved depth position offsets sample }
{
    moved(
        sample,
        table[usize::from(sample >> (depth - 5)) % 32],
        depth,
    )
}

/// How samples are moved by their bands.
#[derive(Clone, Copy)]
pub struct BandMoves {
    /// What is added to four bands from one on, and to all others, on 32768.
    pub table: [u16; 5],
    /// By how many bits a sample is above the number of its band.
    pub shift: u16,
    /// How many bands stand before that one, turned round: what is added to a band's number to count from it on.
    pub before: u16,
    /// The greatest sample.
    pub greatest: u16,
}

/// The same, by the parameters of a unit and the bit depth.
pub fn band_moves(depth: u32, position: u8, offsets: &[i8; 4]) -> BandMoves
    requires depth { (8 ≤ depth) × (depth ≤ 14) }
    ensures moves { AreBandMoves depth position offsets.now result }
    ensures shift { result.shift ≤ 9 }
    ensures before { result.before ≤ 32 }
{
    BandMoves {
        table: [
            raised_offset(depth, offsets, 1),
            raised_offset(depth, offsets, 2),
            raised_offset(depth, offsets, 3),
            raised_offset(depth, offsets, 4),
            raised_offset(depth, offsets, 0),
        ],
        shift: (depth - 5) as u16,
        before: 32 - u16::from(position) % 32,
        greatest: greatest_lane(depth),
    }
}

/// SaoOffsetVal, on 32768.
fn raised_offset(depth: u32, offsets: &[i8; 4], index: usize) -> u16
    requires depth { depth ≤ 14 }
    requires index { index ≤ 4 }
    ensures { pos result ≡ pos 32768 +ℤ offset_value depth offsets.now index }
{
    on_base(offset_value(depth, offsets, index))
}

/// What is added to a sample, on 32768.
#[inline(always)]
fn on_base(change: i16) -> u16
    ensures { pos result ≡ pos 32768 +ℤ change }
{
    (i32::from(change) + 32768) as u16
}

/// One more than the sign of a difference.
#[inline(always)]
fn compared(sample: u16, other: u16) -> u16
    ensures value { result ≡ compared sample other }
    ensures few { result ≤ 2 }
{
    u16::from(other <= sample) + u16::from(other < sample)
}

/// A sample by edge offset, between its two neighbours.
#[inline(always)]
pub fn edge_moved(sample: u16, first: u16, second: u16, table: &[i16; 5], depth: u32) -> u16
    requires depth { (8 ≤ depth) × (depth ≤ 14) }
    ensures { (offsets : List ℤ) → IsEdgeTable depth offsets table.now
        → result ≡ edge_moved depth offsets sample first second }
{
    moved(
        sample,
        chosen(table, compared(sample, first) + compared(sample, second)),
        depth,
    )
}

/// An entry of a table of five.
#[inline(always)]
fn chosen(table: &[i16; 5], signs: u16) -> i16
    requires { signs < 5 }
    ensures { result ≡ slice_index_or table.now signs (pos 0) }
{
    let mut change = table[4];
    if signs == 3 {
        change = table[3];
    }
    if signs == 2 {
        change = table[2];
    }
    if signs == 1 {
        change = table[1];
    }
    if signs == 0 {
        change = table[0];
    }
    change
}

/// How samples are moved by the signs of their differences.
#[derive(Clone, Copy)]
pub struct EdgeMoves {
    /// What is added by 2 and the sum of both signs, on 32768.
    pub table: [u16; 5],
    /// The greatest sample.
    pub greatest: u16,
}

/// The same, by a table of what is added and the bit depth.
#[inline(always)]
pub fn edge_moves(table: &[i16; 5], depth: u32) -> EdgeMoves
    requires depth { (8 ≤ depth) × (depth ≤ 14) }
    ensures { (offsets : List ℤ) → IsEdgeTable depth offsets table.now
        → AreMoves depth offsets result.table result.greatest }
{
    EdgeMoves {
        table: [
            raised(table, 0),
            raised(table, 1),
            raised(table, 2),
            raised(table, 3),
            raised(table, 4),
        ],
        greatest: greatest_lane(depth),
    }
}

/// An entry of the table, on 32768.
#[inline(always)]
fn raised(table: &[i16; 5], signs: usize) -> u16
    requires { signs < 5 }
    ensures { pos result ≡ pos 32768 +ℤ slice_index_or table.now signs (pos 0) }
{
    on_base(table[signs])
}

/// The greatest sample, as samples are held.
#[inline(always)]
fn greatest_lane(depth: u32) -> u16
    requires depth { (8 ≤ depth) × (depth ≤ 14) }
    ensures { result ≡ 2 ^ depth - 1 }
{
    greatest_sample(depth) as u16
}
