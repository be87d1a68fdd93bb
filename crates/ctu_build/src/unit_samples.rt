//! The samples of a coding tree unit.

ghost use Rattle.std.specs.Prelude.{◌≡◌, ℕ, ◌+◌, ◌-◌, ◌*◌, ◌^◌, ◌<◌, ◌≤◌, ◌==◌, ◌&&◌, None, Some, Option, length};
ghost use Rattle.std.specs.Prelude.{nat_le, nat_lt, slice_index_or, if◌then◌else◌, unwrap_or};
ghost use Rattle.ctu_build.specs.Held.{cell, held, block_of, IsInside};
ghost use Rattle.spec_reconstruction.specs.Inter.{rectangle_laid};
ghost use Rattle.spec_reconstruction.specs.Known.{laid, constructed};
ghost use Rattle.spec_transforms.specs.Scaling.{IsDepth};
ghost use Rattle.spec_transforms.specs.Transforms.{IsResidual, block_in};
ghost use Rattle.std.specs.List.{All};

use crate::extents::Extents;
use crate::lines::{add_lines, copy, fill, lay_line, lay_lines, mark_line, mark_lines};
use crate::place::Place;
use ctu_records::Rectangle;
use intra_pred::Border;
use std::marker::Model;

/// How many samples a component has room for: lines 0 to 64 of columns 0 to 128.
const ROOM: usize = 8385;

/// The samples that are known while a unit is built: its own, and those beside it.
#[derive(Drop)]
pub struct UnitSamples {
    /// The samples, 0 where none is known.
    values: [u16; 25155],
    /// Where one is.
    known: [bool; 25155],
    /// From which lines on none is.
    lines: Extents,
}

impl Model for UnitSamples {
    ghost use Rattle.ctu_build.specs.Held.{Cells, AreCells};

    ghost Value = { Cells };

    ghost view = { λ s. record { values = s.values; known = s.known } };

    ghost invariant = { λ s. AreCells s.values s.known s.lines };
}

/// The cell of a sample.
fn cell(c: usize, column: usize, line: usize) -> usize
    requires c { c < 3 }
    requires column { column ≤ 129 }
    requires line { line < 65 }
    ensures { result ≡ cell c column line }
{
    ROOM * c + 129 * line + column
}

impl UnitSamples {
    /// No samples.
    pub fn new() -> UnitSamples
        ensures { (c column line : ℕ) → held result c column line ≡ None }
    {
        UnitSamples {
            values: [0; 25155],
            known: [false; 25155],
            lines: Extents {
                luma: 0,
                cb: 0,
                cr: 0,
            },
        }
    }

    /// A unit begins: nothing is known.
    pub fn restart(&mut self)
        ensures { (c column line : ℕ) → held self.new c column line ≡ None }
    {
        let lines = self.lines;
        let (luma, cb, cr) = (129 * lines.luma, 129 * lines.cb, 129 * lines.cr);
        fill(&mut self.values, 0, luma, 0);
        fill(&mut self.values, ROOM, cb, 0);
        fill(&mut self.values, 2 * ROOM, cr, 0);
        fill(&mut self.known, 0, luma, false);
        fill(&mut self.known, ROOM, cb, false);
        fill(&mut self.known, 2 * ROOM, cr, false);
        self.lines = Extents {
            luma: 0,
            cb: 0,
            cr: 0,
        };
    }

    /// A sample beside the unit.
    pub fn put(&mut self, c: usize, column: usize, line: usize, value: u16)
        requires c { c < 3 }
        requires column { column < 129 }
        requires line { line < 65 }
        ensures { (i j k : ℕ) → held self.new i j k
            ≡ (if (i == c) && ((j == column) && (k == line)) then Some value else held self.old i j k) }
    {
        self.put_line(c, column, line, &[value]);
    }

    /// The samples of a line of a component from a column on become known.
    pub fn put_line(&mut self, c: usize, column: usize, line: usize, values: &[u16])
        requires c { c < 3 }
        requires columns { column + length values.now ≤ 129 }
        requires line { line < 65 }
        ensures { (i j k : ℕ) → held self.new i j k
            ≡ (if (i == c) && ((k == line) && (nat_le column j && nat_lt j (column + length values.now)))
            then Some (slice_index_or values.now (j - column) 0)
            else held self.old i j k) }
    {
        let first = cell(c, column, line);
        copy(&mut self.values, first, values);
        fill(&mut self.known, first, values.len(), true);
        self.lines = self.lines.with(c, line + 1);
    }

    /// A line of a component, columns 0 to 128: the samples, 0 where none is known.
    pub fn line(&self, c: usize, line: usize) -> &[u16]
        requires c { c < 3 }
        requires line { line < 65 }
        ensures count { length result.now ≡ 129 }
        ensures value { (j : ℕ) → j < 129 → slice_index_or result.now j 0 ≡ unwrap_or (held self.now c j line) 0 }
    {
        let first = cell(c, 0, line);
        &self.values[first..first + 129]
    }

    /// A square of samples over what was there.
    #[inline(always)]
    pub(crate) fn lay(&mut self, place: Place, block: &[u16])
        requires place { IsInside place }
        requires block { 2 ^ place.log2 * 2 ^ place.log2 ≤ length block.now }
        ensures { held self.new
            ≡ laid place.c place.x place.y (2 ^ place.log2) (block_of (2 ^ place.log2) block.now) (held self.old) }
    {
        lay_lines(&mut self.values, place, block);
        mark_lines(&mut self.known, place);
        let end = place.y as usize + 1 + place.side();
        self.lines = self.lines.with(usize::from(place.c), end);
    }

    /// A rectangle of samples over what was there, from lines of 64.
    pub(crate) fn lay_rectangle(&mut self, c: u8, area: Rectangle, samples: &[u16; 4096])
        requires c { c < 3 }
        requires x { area.x + area.width ≤ 64 }
        requires y { area.y + area.height ≤ 64 }
        ensures { held self.new
            ≡ rectangle_laid c area (λ x y. slice_index_or samples.now (64 * (y - area.y) + (x - area.x)) 0)
            (held self.old) }
    {
        match area.width {
            4 => self.lay_rows::<4>(c, area, samples),
            8 => self.lay_rows::<8>(c, area, samples),
            16 => self.lay_rows::<16>(c, area, samples),
            32 => self.lay_rows::<32>(c, area, samples),
            64 => self.lay_rows::<64>(c, area, samples),
            _ => self.lay_parts(c, area, samples),
        }
    }

    /// A rectangle of `N` columns.
    fn lay_rows<const N: usize>(&mut self, c: u8, area: Rectangle, samples: &[u16; 4096])
        requires c { c < 3 }
        requires width { area.width ≡ N }
        requires x { area.x + area.width ≤ 64 }
        requires y { area.y + area.height ≤ 64 }
        ensures { held self.new
            ≡ rectangle_laid c area (λ x y. slice_index_or samples.now (64 * (y - area.y) + (x - area.x)) 0)
            (held self.old) }
    {
        for line in 0..usize::from(area.height) {
            self.put_row::<N>(
                usize::from(c),
                usize::from(area.x) + 1,
                usize::from(area.y) + 1 + line,
                samples,
                64 * line,
            );
        }
    }

    /// A rectangle of any width.
    fn lay_parts(&mut self, c: u8, area: Rectangle, samples: &[u16; 4096])
        requires c { c < 3 }
        requires x { area.x + area.width ≤ 64 }
        requires y { area.y + area.height ≤ 64 }
        ensures { held self.new
            ≡ rectangle_laid c area (λ x y. slice_index_or samples.now (64 * (y - area.y) + (x - area.x)) 0)
            (held self.old) }
    {
        let width = usize::from(area.width);
        for line in 0..usize::from(area.height) {
            self.put_line(
                usize::from(c),
                usize::from(area.x) + 1,
                usize::from(area.y) + 1 + line,
                &samples[64 * line..64 * line + width],
            );
        }
    }

    /// `N` samples of a line of a component from a column on become known: those from a place on.
    fn put_row<const N: usize>(
        &mut self,
        c: usize,
        column: usize,
        line: usize,
        samples: &[u16],
        from: usize,
    )
        requires c { c < 3 }
        requires columns { column + N ≤ 129 }
        requires line { line < 65 }
        requires enough { from + N ≤ length samples.now }
        ensures { (i j k : ℕ) → held self.new i j k
            ≡ (if (i == c) && ((k == line) && (nat_le column j && nat_lt j (column + N)))
            then Some (slice_index_or samples.now (from + (j - column)) 0)
            else held self.old i j k) }
    {
        let first = cell(c, column, line);
        lay_line::<N>(&mut self.values, first, samples, from);
        mark_line::<N>(&mut self.known, first);
        self.lines = self.lines.with(c, line + 1);
    }

    /// Residuals added to a square.
    #[inline(always)]
    pub(crate) fn add(&mut self, place: Place, residuals: &[i32], depth: u32)
        requires place { IsInside place }
        requires block { 2 ^ place.log2 * 2 ^ place.log2 ≤ length residuals.now }
        requires depth { IsDepth depth }
        requires residuals { All IsResidual residuals.now }
        ensures { held self.new
            ≡ constructed depth place.c place.x place.y (2 ^ place.log2) (block_in (2 ^ place.log2) residuals.now)
            (held self.old) }
    {
        add_lines(&mut self.values, &self.known, place, residuals, depth);
    }
}

impl Border for UnitSamples {
    ghost known = { λ s. held s };

    #[tactic(auto, unfolding(crate::specs::Held::held))]
    fn sample(&self, c: u8, x: u32, y: u32) -> Option<u16> {
        if c < 3 && x < 129 && y < 65 {
            let place = cell(usize::from(c), x as usize, y as usize);
            if self.known[place] {
                Some(self.values[place])
            } else {
                None
            }
        } else {
            None
        }
    }
}

impl UnitSamples {
    /// The cells of all components, line after line.
    #[inline(always)]
    pub(crate) fn values(&self) -> &[u16]
        ensures value { result.now ≡ self.now.values }
        ensures count { length result.now ≡ 25155 }
    {
        &self.values
    }

    /// In which of them a sample is known.
    #[inline(always)]
    pub(crate) fn known(&self) -> &[bool]
        ensures value { result.now ≡ self.now.known }
        ensures count { length result.now ≡ 25155 }
    {
        &self.known
    }
}
