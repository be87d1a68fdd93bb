//! A coding tree unit's place in its picture and in its slice (6.3.1, 6.4.1).

ghost use Rattle.std.specs.Prelude.{◌≡◌, ◌+◌, ◌-◌, ◌*◌, ◌/◌, ◌<◌, ◌≤◌, IfSome, None};
ghost use Rattle.picture_layout.specs.Blocks.{IsBlock, IsSmall};
ghost use Rattle.picture_layout.specs.Shape.{IsShape};
ghost use Rattle.spec_picture_trees.specs.Places.{first_column, first_row, is_available, is_there, unit_places};

use crate::block::PlaceBlock;
use crate::layout::Layout;

/// Which coding tree unit of a picture this is, and of which of its slices.
#[derive(Clone, Copy)]
pub struct CodingTreeUnit {
    /// The picture's size.
    pub layout: Layout,
    /// The address of the first unit of its slice.
    pub slice: u32,
    /// Its address, in raster order.
    pub address: u32,
}

impl CodingTreeUnit {
    /// The column of its first place of 4x4 luma samples.
    pub fn first_column(&self) -> usize
        ensures value { result ≡ first_column self.now.layout self.now.address }
        ensures small { result < 8192 }
    {
        self.layout.side() as usize * self.layout.column(self.address) as usize
    }

    /// The row of its first place.
    pub fn first_row(&self) -> usize
        ensures value { result ≡ first_row self.now.layout self.now.address }
        ensures small { result ≤ 68719476720 }
        ensures shape { IsShape self.now.layout }
    {
        self.layout.side() as usize * self.layout.row(self.address) as usize
    }

    /// The same, where the picture has it.
    pub fn first_row_there(&self) -> Option<u32>
        ensures some { IfSome result (λ row. row ≡ first_row self.now.layout self.now.address) }
        ensures there { IfSome result (λ row. (row < self.now.layout.down) × (row ≤ 8192)) }
        ensures none { result ≡ None → self.now.layout.down ≤ first_row self.now.layout self.now.address }
        ensures shape { IsShape self.now.layout }
    {
        let row = self.first_row();
        if row < self.layout.down() as usize {
            Some(row as u32)
        } else {
            None
        }
    }

    /// How many places of the picture are not left of its first one.
    pub fn places_right(&self) -> u32
        ensures { result ≡ self.now.layout.across - first_column self.now.layout self.now.address }
    {
        (self.layout.across() as usize).saturating_sub(self.first_column()) as u32
    }

    /// How many places of the picture are not above its first one.
    pub fn places_below(&self) -> u32
        ensures { result ≡ self.now.layout.down - first_row self.now.layout self.now.address }
    {
        (self.layout.down() as usize).saturating_sub(self.first_row()) as u32
    }

    /// Its places that the picture has.
    pub fn places(&self) -> PlaceBlock
        ensures block { IsBlock self.now result }
        ensures small { IsSmall result }
        ensures few { unit_places self.now.layout ≤ 16 }
    {
        let side = self.layout.side();
        PlaceBlock {
            x: self.first_column(),
            y: self.first_row(),
            columns: side.min(self.places_right() as usize),
            rows: side.min(self.places_below() as usize),
        }
    }

    /// Whether the picture has a place that is counted from 1 at its first place.
    pub fn is_there(&self, column: usize, row: usize) -> bool
        requires column { column ≤ 16 }
        requires row { row ≤ 16 }
        ensures { result ≡ is_there self.now.layout self.now.address column row }
    {
        let x = self.first_column() + column;
        let y = self.first_row() + row;
        1 <= x
            && 1 <= y
            && x - 1 < self.layout.across() as usize
            && y - 1 < self.layout.down() as usize
    }

    /// Whether a place of the picture is available for it, where it isn't of the unit itself (6.4.1).
    #[tactic(auto, using(crate::proofs::Places::availability))]
    pub fn is_available(&self, x: usize, y: usize) -> bool
        ensures { result ≡ is_available self.now.layout self.now.slice self.now.address x y }
    {
        if x < self.layout.across() as usize && y < self.layout.down() as usize {
            let side = self.layout.side() as usize;
            let unit = self.layout.width() as usize * (y / side) + x / side;
            self.slice as usize <= unit && unit < self.address as usize
        } else {
            false
        }
    }
}
