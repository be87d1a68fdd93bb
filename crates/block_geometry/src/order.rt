//! Scan orders of the places of a block (6.5.3 to 6.5.5).

ghost use Rattle.std.specs.Prelude.{◌≡◌, ◌+◌, ◌*◌, ◌^◌, ◌<◌, ◌≤◌};
ghost use Rattle.block_geometry.specs.Scans.{first_of, scan_index, scan_place};

use crate::diagonal::{DIAGONAL_INDEX, DIAGONAL_X, DIAGONAL_Y};
use crate::kind::Scan;

/// The column and the row at an index of the scan of a block of 2^`log2` columns and rows: ScanOrder.
#[inline(always)]
pub fn scan(log2: u32, kind: Scan, i: u32) -> (u32, u32)
    requires log2 { log2 ≤ 3 }
    requires index { i < 2 ^ log2 * 2 ^ log2 }
    ensures value { result ≡ scan_place log2 kind i }
    ensures x { result.0 < 2 ^ log2 }
    ensures y { result.1 < 2 ^ log2 }
    ensures few_x { result.0 < 8 }
    ensures few_y { result.1 < 8 }
{
    let side = side(log2);
    match kind {
        Scan::Diagonal => {
            let at = (first_of(log2) + i) as usize;
            (u32::from(DIAGONAL_X[at]), u32::from(DIAGONAL_Y[at]))
        }
        Scan::Horizontal => (i % side, i / side),
        Scan::Vertical => (i / side, i % side),
    }
}

/// The index of a place in the scan of a block of 2^`log2` columns and rows.
pub fn scan_index(log2: u32, kind: Scan, x: u32, y: u32) -> u32
    requires log2 { log2 ≤ 3 }
    requires x { x < 2 ^ log2 }
    requires y { y < 2 ^ log2 }
    ensures value { result ≡ scan_index log2 kind x y }
    ensures inside { result < 2 ^ log2 * 2 ^ log2 }
    ensures few { result < 64 }
{
    let side = side(log2);
    match kind {
        Scan::Diagonal => u32::from(DIAGONAL_INDEX[(first_of(log2) + side * y + x) as usize]),
        Scan::Horizontal => side * y + x,
        Scan::Vertical => side * x + y,
    }
}

/// How many columns and rows a block has.
#[inline(always)]
fn side(log2: u32) -> u32
    requires { log2 ≤ 3 }
    ensures value { result ≡ 2 ^ log2 }
    ensures some { 0 < result }
    ensures few { result ≤ 8 }
{
    1 << log2
}

/// Where the tables have a block of 2^`log2` columns and rows.
#[inline(always)]
#[tactic(auto, unfolding(crate::specs::Scans::first_of))]
fn first_of(log2: u32) -> u32
    requires { log2 ≤ 3 }
    ensures value { result ≡ first_of log2 }
    ensures small { result ≤ 21 }
{
    match log2 {
        0 => 0,
        1 => 1,
        2 => 5,
        _ => 21,
    }
}
