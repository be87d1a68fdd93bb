//! Samples of a line that stand beside one another.

ghost use Rattle.std.specs.Prelude.{◌≡◌, ◌≤◌, ◌<◌, ◌+◌, ◌-◌, ℕ, ℤ, List, length, cond, nat_le, nat_lt, ◌&&◌};
ghost use Rattle.spec_sample_adaptive_offset.specs.Offsets.{band_moved, edge_moved};
ghost use Rattle.sao_filter.specs.Row.{at};
ghost use Rattle.sao_filter.specs.Moves.{AreBandMoves};
ghost use Rattle.sao_filter.specs.Units.{AreMoves, IsBandTable, IsEdgeTable};

use crate::changes::{BandMoves, EdgeMoves, band_moved, edge_moved, edge_moves};
use crate::lanes::{eight_banded, eight_moved};
use std::simd::prelude::*;

/// Where a run of samples is read from and written to.
#[derive(Clone, Copy)]
pub struct Run {
    /// The first sample among those that are read.
    pub from: usize,
    /// The first among those that are written.
    pub first: usize,
    /// How many.
    pub count: usize,
}

/// Copies a run.
#[inline(always)]
pub fn copy_run(lines: &[u16], run: Run, out: &mut [u16])
    requires lines { run.from + run.count ≤ length lines.now }
    requires out { run.first + run.count ≤ length out.old }
    ensures { (q : ℕ) → at out.new q
        ≡ cond (nat_le run.first q && nat_lt q (run.first + run.count)) (at lines.now (run.from + (q - run.first)))
        (at out.old q) }
{
    for k in 0..run.count {
        out[run.first + k] = lines[run.from + k];
    }
}

/// Adds the offsets of bands to a run.
#[inline(always)]
pub fn band_run(
    lines: &[u16],
    run: Run,
    table: &[i16; 32],
    moves: &BandMoves,
    depth: u32,
    out: &mut [u16],
)
    requires lines { run.from + run.count ≤ length lines.now }
    requires out { run.first + run.count ≤ length out.old }
    requires depth { (8 ≤ depth) × (depth ≤ 14) }
    requires shift { moves.now.shift ≤ 9 }
    requires before { moves.now.before ≤ 32 }
    ensures { (position : ℕ) (offsets : List ℤ) → IsBandTable depth position offsets table.now
        → AreBandMoves depth position offsets moves.now → (q : ℕ)
        → at out.new q
        ≡ cond (nat_le run.first q && nat_lt q (run.first + run.count))
        (band_moved depth position offsets (at lines.now (run.from + (q - run.first)))) (at out.old q) }
{
    if run.count >= 8 {
        long_band_run(lines, run, moves, out);
        return;
    }
    for k in 0..run.count {
        out[run.first + k] = band_moved(lines[run.from + k], table, depth);
    }
}

/// The same of eight samples or more, eight at a time; the last eight may overlap those before.
#[inline(always)]
fn long_band_run(lines: &[u16], run: Run, moves: &BandMoves, out: &mut [u16])
    requires count { 8 ≤ run.count }
    requires lines { run.from + run.count ≤ length lines.now }
    requires out { run.first + run.count ≤ length out.old }
    requires shift { moves.now.shift ≤ 9 }
    requires before { moves.now.before ≤ 32 }
    ensures { (depth position : ℕ) (offsets : List ℤ) → AreBandMoves depth position offsets moves.now → (q : ℕ)
        → at out.new q
        ≡ cond (nat_le run.first q && nat_lt q (run.first + run.count))
        (band_moved depth position offsets (at lines.now (run.from + (q - run.first)))) (at out.old q) }
{
    for k in 0..(run.count - 1) / 8 {
        lay_eight_banded(lines, run, 8 * k, moves, out);
    }
    lay_eight_banded(lines, run, run.count - 8, moves, out);
}

/// The same of eight samples from one of the run on.
#[inline(always)]
fn lay_eight_banded(lines: &[u16], run: Run, k: usize, moves: &BandMoves, out: &mut [u16])
    requires count { k + 8 ≤ run.count }
    requires lines { run.from + run.count ≤ length lines.now }
    requires out { run.first + run.count ≤ length out.old }
    requires shift { moves.now.shift ≤ 9 }
    requires before { moves.now.before ≤ 32 }
    ensures count { length out.new ≡ length out.old }
    ensures value { (depth position : ℕ) (offsets : List ℤ) → AreBandMoves depth position offsets moves.now
        → (q : ℕ) → at out.new q
        ≡ cond (nat_le (run.first + k) q && nat_lt q (run.first + k + 8))
        (band_moved depth position offsets (at lines.now (run.from + (q - run.first)))) (at out.old q) }
{
    eight_banded(
        u16x8::from_slice(&lines[run.from + k..]),
        moves.shift,
        moves.before,
        &moves.table,
        moves.greatest,
    )
    .copy_to_slice(&mut out[run.first + k..]);
}

/// The first samples of the neighbours of a run.
#[derive(Clone, Copy)]
pub struct Neighbours {
    /// Where the first neighbour of the run's first sample stands among the lines that are read.
    pub first: usize,
    /// Where its second neighbour stands there.
    pub second: usize,
}

/// Adds the offsets of edges to a run.
#[inline(always)]
pub fn edge_run(
    lines: &[u16],
    run: Run,
    beside: Neighbours,
    table: &[i16; 5],
    depth: u32,
    out: &mut [u16],
)
    requires lines { run.from + run.count ≤ length lines.now }
    requires first { beside.first + run.count ≤ length lines.now }
    requires second { beside.second + run.count ≤ length lines.now }
    requires out { run.first + run.count ≤ length out.old }
    requires depth { (8 ≤ depth) × (depth ≤ 14) }
    ensures { (offsets : List ℤ) → IsEdgeTable depth offsets table.now → (q : ℕ)
        → at out.new q
        ≡ cond (nat_le run.first q && nat_lt q (run.first + run.count))
        (edge_moved depth offsets (at lines.now (run.from + (q - run.first)))
        (at lines.now (beside.first + (q - run.first))) (at lines.now (beside.second + (q - run.first))))
        (at out.old q) }
{
    if run.count >= 8 {
        long_run(lines, run, beside, &edge_moves(table, depth), out);
        return;
    }
    for k in 0..run.count {
        out[run.first + k] = edge_moved(
            lines[run.from + k],
            lines[beside.first + k],
            lines[beside.second + k],
            table,
            depth,
        );
    }
}

/// The same of eight samples or more, eight at a time; the last eight may overlap those before.
#[inline(always)]
fn long_run(lines: &[u16], run: Run, beside: Neighbours, moves: &EdgeMoves, out: &mut [u16])
    requires count { 8 ≤ run.count }
    requires lines { run.from + run.count ≤ length lines.now }
    requires first { beside.first + run.count ≤ length lines.now }
    requires second { beside.second + run.count ≤ length lines.now }
    requires out { run.first + run.count ≤ length out.old }
    ensures { (depth : ℕ) (offsets : List ℤ) → AreMoves depth offsets moves.now.table moves.now.greatest → (q : ℕ)
        → at out.new q
        ≡ cond (nat_le run.first q && nat_lt q (run.first + run.count))
        (edge_moved depth offsets (at lines.now (run.from + (q - run.first)))
        (at lines.now (beside.first + (q - run.first))) (at lines.now (beside.second + (q - run.first))))
        (at out.old q) }
{
    for k in 0..(run.count - 1) / 8 {
        lay_eight(lines, run, beside, 8 * k, moves, out);
    }
    lay_eight(lines, run, beside, run.count - 8, moves, out);
}

/// The same of eight samples from one of the run on.
#[inline(always)]
fn lay_eight(
    lines: &[u16],
    run: Run,
    beside: Neighbours,
    k: usize,
    moves: &EdgeMoves,
    out: &mut [u16],
)
    requires count { k + 8 ≤ run.count }
    requires lines { run.from + run.count ≤ length lines.now }
    requires first { beside.first + run.count ≤ length lines.now }
    requires second { beside.second + run.count ≤ length lines.now }
    requires out { run.first + run.count ≤ length out.old }
    ensures count { length out.new ≡ length out.old }
    ensures value { (depth : ℕ) (offsets : List ℤ) → AreMoves depth offsets moves.now.table moves.now.greatest
        → (q : ℕ) → at out.new q
        ≡ cond (nat_le (run.first + k) q && nat_lt q (run.first + k + 8))
        (edge_moved depth offsets (at lines.now (run.from + (q - run.first)))
        (at lines.now (beside.first + (q - run.first))) (at lines.now (beside.second + (q - run.first))))
        (at out.old q) }
{
    eight_moved(
        u16x8::from_slice(&lines[run.from + k..]),
        u16x8::from_slice(&lines[beside.first + k..]),
        u16x8::from_slice(&lines[beside.second + k..]),
        &moves.table,
        moves.greatest,
    )
    .copy_to_slice(&mut out[run.first + k..]);
}
