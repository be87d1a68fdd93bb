//! A picture's coding tree units by place (6.3.1).

ghost use Rattle.std.specs.Prelude.{◌≡◌, ◌+◌, ◌-◌, ◌*◌, ◌/◌, ◌%◌, ◌^◌, ◌<◌, ◌≤◌};
ghost use Rattle.picture_layout.specs.Shape.{IsShape};
ghost use Rattle.spec_picture_trees.specs.Shapes.{picture_shape};
ghost use Rattle.spec_picture_trees.specs.SpecSliceData.{begins_row, column_of, row_of};

use spec_picture_trees::PicturePlan;
use std::marker::Model;

/// A picture's size in coding tree units and in places of 4x4 luma samples, and whether each row of units has a
/// substream of its own.
#[derive(Clone, Copy)]
pub struct Layout {
    width: u32,
    across: u32,
    down: u32,
    size: u8,
    sync: bool,
}

impl Model for Layout {
    ghost use Rattle.spec_picture_trees.specs.SpecSliceData.{PictureShape};
    ghost use Rattle.picture_layout.specs.Shape.{IsShape};

    ghost Value = { PictureShape };

    ghost view = { λ l. record { width = l.width; across = l.across; down = l.down; size = l.size; sync = l.sync } };

    ghost inverse = { λ s. record { width = s.width; across = s.across; down = s.down; size = s.size; sync = s.sync } };

    ghost invariant = { λ l. IsShape (record {
      width = l.width;
      across = l.across;
      down = l.down;
      size = l.size;
      sync = l.sync;
    }) };
}

impl Layout {
    /// That of a picture.
    #[tactic(auto, unfolding(spec_picture_trees::specs::Shapes::picture_shape))]
    pub fn new(plan: &PicturePlan) -> Layout
        ensures value { result ≡ picture_shape plan.now.sps plan.now.pps }
        ensures across { 4 * result.across ≡ plan.now.sps.format.pic_width_in_luma_samples }
        ensures down { 4 * result.down ≡ plan.now.sps.format.pic_height_in_luma_samples }
    {
        let sps = &plan.sps;
        let format = &sps.fields().format;
        Layout {
            width: sps.width_in_ctbs(),
            across: format.pic_width_in_luma_samples / 4,
            down: format.pic_height_in_luma_samples / 4,
            size: (sps.ctb_log2() - 2) as u8,
            sync: plan
                .pps
                .fields()
                .prediction
                .entropy_coding_sync_enabled_flag,
        }
    }

    /// The units of a row.
    pub fn width(&self) -> u32
        ensures { result ≡ self.now.width }
    {
        self.width
    }

    /// The picture's width in places.
    pub fn across(&self) -> u32
        ensures value { result ≡ self.now.across }
        ensures few { result ≤ 2048 }
    {
        self.across
    }

    /// Its height in places.
    pub fn down(&self) -> u32
        ensures value { result ≡ self.now.down }
        ensures few { result ≤ 2048 }
    {
        self.down
    }

    /// The binary logarithm of a unit's side in places, from 2 to 4.
    pub fn size(&self) -> u8
        ensures { result ≡ self.now.size }
    {
        self.size
    }

    /// entropy_coding_sync_enabled_flag.
    pub fn sync(&self) -> bool
        ensures { result ≡ self.now.sync }
    {
        self.sync
    }

    /// The column of the unit at an address.
    pub fn column(&self, address: u32) -> u32
        ensures value { result ≡ column_of self.now address }
        ensures below { result < self.now.width }
        ensures small { result < 512 }
    {
        address % self.width
    }

    /// The row of the unit at an address.
    pub fn row(&self, address: u32) -> u32
        ensures { result ≡ row_of self.now address }
    {
        address / self.width
    }

    /// A unit's side in places.
    #[tactic(auto, using(crate::proofs::Powers::few_places))]
    pub fn side(&self) -> usize
        ensures value { result ≡ 2 ^ self.now.size }
        ensures some { 1 ≤ result }
        ensures small { result ≤ 16 }
        ensures shape { IsShape self.now }
    {
        1 << self.size
    }

    /// Whether a unit begins a row where each row has a substream of its own.
    pub fn begins_row(&self, address: u32) -> bool
        ensures { result ≡ begins_row self.now address }
    {
        self.sync && self.column(address) == 0
    }
}
