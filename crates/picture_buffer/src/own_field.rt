//! The targets that places keep of their own.

ghost use Rattle.std.specs.Prelude.{◌≡◌, ℕ, ◌+◌, ◌<◌, ◌≤◌, ◌==◌, ◌&&◌, nat_le, nat_lt};
ghost use Rattle.std.specs.Prelude.{IfOk, if◌then◌else◌, length, slice_index_or, vec_capacity};
ghost use Rattle.picture_buffer.specs.Packed.{no_own};
ghost use Rattle.place_grid.specs.Cells.{HasCells, cell};

use crate::targets::{NO_OWN, OwnTargets};
use std::alloc::{AllocError, Global};
use std::marker::Model;

/// The targets that the places of a picture keep of their own. Memory for all of them is taken, and written as far as
/// a place keeps any.
#[derive(Drop)]
pub(crate) struct OwnField {
    across: u32,
    down: u32,
    cells: Vec<OwnTargets>,
}

impl Model for OwnField {
    ghost use Rattle.picture_buffer.specs.declared.targets.OwnTargets.{OwnTargets};
    ghost use Rattle.place_grid.specs.Cells.{Cells};
    ghost use Rattle.std.specs.Prelude.{◌*◌, ◌≤◌, vec_capacity};

    ghost Value = { Cells OwnTargets };

    ghost view = { λ f. record { across = f.across; down = f.down; cells = f.cells.items } };

    ghost invariant = { λ f. (f.across ≤ 2048) × (f.down ≤ 2048) × (f.across * f.down ≤ vec_capacity f.cells) };
}

impl OwnField {
    /// No place keeps any.
    #[tactic(auto, unfolding(place_grid::specs::Cells::cell))]
    pub(crate) fn new(alloc: Global, across: u32, down: u32) -> Result<OwnField, AllocError>
        requires columns { across ≤ 2048 }
        requires rows { down ≤ 2048 }
        ensures sides { IfOk result (λ f. HasCells f across down) }
    {
        let cells = Vec::with_capacity(alloc, across as usize * down as usize)?;
        Ok(OwnField {
            across,
            down,
            cells,
        })
    }

    /// Those of a place.
    #[inline(always)]
    #[tactic(auto, unfolding(place_grid::specs::Cells::cell))]
    pub(crate) fn at(&self, x: usize, y: usize) -> OwnTargets
        ensures { result ≡ cell no_own self.now x y }
    {
        if x < self.across as usize && y < self.down as usize {
            own_at(&self.cells, self.across as usize * y + x)
        } else {
            NO_OWN
        }
    }

    /// The same over so many places of a row.
    #[inline(never)]
    #[tactic(auto, unfolding(place_grid::specs::Cells::cell))]
    pub(crate) fn put_run(&mut self, x: usize, y: usize, count: usize, own: OwnTargets)
        requires columns { x + count ≤ self.old.across }
        requires row { y < self.old.down }
        ensures sides { HasCells self.new self.old.across self.old.down }
        ensures cells { (i j : ℕ) → cell no_own self.new i j
            ≡ (if j == y && (nat_le x i && nat_lt i (x + count)) then own else cell no_own self.old i j) }
    {
        let first = self.across as usize * y + x;
        reach(&mut self.cells, first + count);
        fill(&mut self.cells, first, count, own);
    }
}

/// Those of a place by its number.
fn own_at(cells: &[OwnTargets], place: usize) -> OwnTargets
    ensures { result ≡ slice_index_or cells.now place no_own }
{
    if place < cells.len() {
        cells[place]
    } else {
        NO_OWN
    }
}

/// As many cells at least.
fn reach(cells: &mut Vec<OwnTargets>, end: usize)
    requires { end ≤ vec_capacity cells.old }
    ensures count { end ≤ length cells.new.items }
    ensures capacity { vec_capacity cells.new ≡ vec_capacity cells.old }
    ensures same { (q : ℕ)
        → slice_index_or cells.new.items q no_own ≡ slice_index_or cells.old.items q no_own }
{
    while cells.len() < end {
        cells.push_reserved(NO_OWN);
    }
}

/// One value in so many cells from one on.
fn fill(cells: &mut Vec<OwnTargets>, first: usize, count: usize, value: OwnTargets)
    requires { first + count ≤ length cells.old.items }
    ensures capacity { vec_capacity cells.new ≡ vec_capacity cells.old }
    ensures cells { (q : ℕ) → slice_index_or cells.new.items q no_own
        ≡ (if nat_le first q && nat_lt q (first + count) then value else slice_index_or cells.old.items q no_own) }
{
    for k in 0..count {
        cells[first + k] = value;
    }
}
