//! A slice segment of a picture with all that its data are read by.

ghost use Rattle.std.specs.Prelude.{◌≡◌, ℕ, ◌+◌, ◌-◌, ◌*◌, ◌^◌, ◌≤◌, ◌<◌, ◌==◌, ◌&&◌, ◌∷◌, [], List, length, not};
ghost use Rattle.std.specs.Prelude.{slice_index_or};
ghost use Rattle.header_types.specs.SequenceParameterSets.{size_in_ctbs, width_in_ctbs};
ghost use Rattle.spec_picture_trees.specs.PlanTypes.{SegmentPlan};
ghost use Rattle.spec_slice_data.specs.Segment.{begins_row, begins_substream, column_of, has_above, has_left};
ghost use Rattle.spec_slice_data.specs.Segment.{has_stored, is_first, is_last, row_of, substream_of, syntax_at};
ghost use Rattle.spec_slice_data.specs.Syntax.{IsSyntax};
ghost use Rattle.spec_picture_trees.specs.Picture.{segment_at};
ghost use Rattle.spec_picture_trees.specs.Shapes.{end_of};

use crate::segment::Segment;
use crate::slice_syntax::segment_syntax;
use coding_quadtree::{Contexts, UnitPlace};
use picture_layout::Layout;
use spec_picture_trees::{PicturePlan, SegmentPlan};
use spec_slice_data::CtuSyntax;
use std::marker::Model;

/// A slice segment of a picture: its number, the number of its NAL unit, and what its data are read by (7.3.8.1).
#[derive(Drop)]
pub struct SegmentData<'a> {
    number: usize,
    nal: u32,
    syntax: CtuSyntax,
    layout: Layout,
    shape: Segment<'a>,
}

impl<'a> Model for SegmentData<'a> {
    ghost use Rattle.std.specs.Prelude.{◌+◌, ◌*◌, ◌≤◌};
    ghost use Rattle.spec_slice_data.specs.Syntax.{IsSyntax};
    ghost use Rattle.spec_picture_trees.specs.Picture.{SegmentAt};

    ghost Value = { SegmentAt };

    ghost view = { λ s. record {
      number = s.number;
      nal = s.nal;
      syntax = s.syntax;
      picture = s.layout;
      shape = s.shape;
    } };

    ghost invariant = { λ s. IsSyntax s.syntax
        × (s.syntax.log2_min_coding ≤ s.layout.size)
        × (s.shape.first + s.shape.count ≤ 512 * s.layout.width) };
}

impl<'a> SegmentData<'a> {
    /// A segment from the place where its first unit stands to the one behind its last.
    #[tactic(auto, unfolding(spec_picture_trees::specs::Shapes::picture_shape, spec_picture_trees::specs::Shapes::segment_shape))]
    pub fn new(
        picture: &PicturePlan,
        number: usize,
        segment: &'a SegmentPlan,
        first: u32,
        behind: u32,
    ) -> SegmentData<'a>
        requires order { first ≤ behind }
        requires few { behind ≤ 262144 }
        requires inside { behind ≤ 512 * width_in_ctbs picture.now.sps }
        ensures value { (later : List SegmentPlan) → behind ≡ end_of (size_in_ctbs picture.now.sps) first later
            → result ≡ segment_at picture.now number first segment.now later }
        ensures first { result.shape.first ≡ first }
        ensures behind { result.shape.first + result.shape.count ≡ behind }
    {
        SegmentData {
            number,
            nal: segment.header.fields().nal,
            syntax: segment_syntax(picture, segment),
            layout: Layout::new(picture),
            shape: Segment::new(picture, segment, first, behind),
        }
    }

    /// Its number in the picture.
    pub fn number(&self) -> usize
        ensures { result ≡ self.now.number }
    {
        self.number
    }

    /// The number of its NAL unit.
    pub fn nal(&self) -> u32
        ensures { result ≡ self.now.nal }
    {
        self.nal
    }

    /// The address of its first unit.
    pub fn first(&self) -> u32
        ensures { result ≡ self.now.shape.first }
    {
        self.shape.first
    }

    /// The place behind its last unit.
    pub fn behind(&self) -> u32
        ensures value { result ≡ self.now.shape.first + self.now.shape.count }
        ensures inside { result ≤ 512 * self.now.picture.width }
    {
        self.shape.first + self.shape.count
    }

    /// The column of a unit.
    pub fn column(&self, address: u32) -> u32
        ensures value { result ≡ column_of self.now.picture address }
        ensures below { result < self.now.picture.width }
    {
        self.layout.column(address)
    }

    /// Whether the contexts behind a unit are stored for the row below (9.3.2.2).
    pub fn stores(&self, address: u32) -> bool
        ensures { result ≡ (self.now.picture.sync && column_of self.now.picture address == 1) }
    {
        self.layout.sync() && self.layout.column(address) == 1
    }

    /// Whether the engine begins anew at a unit.
    pub(crate) fn begins_substream(&self, address: u32) -> bool
        ensures { result ≡ begins_substream self.now.picture self.now.shape address }
    {
        address == self.shape.first || self.layout.begins_row(address)
    }

    /// Whether a unit begins a row where each row has a substream of its own.
    pub(crate) fn begins_row(&self, address: u32) -> bool
        ensures { result ≡ begins_row self.now.picture address }
    {
        self.layout.begins_row(address)
    }

    /// Whether a unit is the first of a slice.
    pub(crate) fn begins_slice(&self, address: u32) -> bool
        ensures { result ≡ (is_first self.now.shape address && not self.now.shape.dependent) }
    {
        address == self.shape.first && !self.shape.dependent
    }

    /// The bytes of the substream that a unit begins.
    pub fn substream_at(&self, address: u32) -> &'a [u8]
        ensures value { result.now
            ≡ slice_index_or self.now.shape.substreams (substream_of self.now.picture self.now.shape address) [] }
        ensures short { length result.now < 2 ^ 60 }
    {
        let row = self.layout.row(address);
        let number = row.saturating_sub(self.layout.row(self.shape.first));
        self.shape.substream(number as usize)
    }

    /// The contexts that its slice begins with.
    pub(crate) fn contexts(&self) -> Contexts
        ensures { result ≡ self.now.shape.contexts }
    {
        self.shape.contexts
    }

    /// Qp'Y of its slice.
    pub(crate) fn qp(&self) -> u8
        ensures { result ≡ self.now.shape.qp }
    {
        self.shape.qp
    }

    /// What the elements of a unit depend on.
    #[tactic(auto, unfolding(spec_slice_data::specs::Segment::syntax_at))]
    pub(crate) fn syntax_at(&self, address: u32) -> CtuSyntax
        requires { address < 512 * self.now.picture.width }
        ensures value { result ≡ syntax_at self.now.syntax self.now.picture self.now.shape address }
        ensures syntax { IsSyntax result }
        ensures least { result.log2_min_coding ≤ self.now.picture.size }
    {
        let n = self.layout.side() as u32;
        CtuSyntax {
            has_left: self.has_left(address),
            has_above: self.has_above(address),
            right: self
                .layout
                .across()
                .saturating_sub(n * self.layout.column(address)),
            lower: self
                .layout
                .down()
                .saturating_sub(n * self.layout.row(address)),
            ..self.syntax
        }
    }

    fn has_left(&self, address: u32) -> bool
        ensures { result ≡ has_left self.now.picture self.now.shape address }
    {
        self.layout.column(address) > 0 && self.shape.slice <= address.saturating_sub(1)
    }

    fn has_above(&self, address: u32) -> bool
        ensures { result ≡ has_above self.now.picture self.now.shape address }
    {
        self.layout.width() <= address
            && self.shape.slice <= address.saturating_sub(self.layout.width())
    }

    /// Whether the second unit of the row above is in the same slice (9.3.1).
    pub(crate) fn has_stored(&self, address: u32) -> bool
        ensures { result ≡ has_stored self.now.picture self.now.shape address }
    {
        let width = self.layout.width();
        2 <= width
            && width <= address
            && self.shape.slice <= address.saturating_sub(width).saturating_add(1)
    }

    /// Where a unit stands, behind one of this Qp'Y.
    pub(crate) fn place_at(&self, address: u32, last_qp: u8) -> UnitPlace
        requires { address < 512 * self.now.picture.width }
        ensures at { result.address ≡ address }
        ensures size { result.size ≡ self.now.picture.size }
        ensures small { result.size ≤ 4 }
        ensures width { result.width ≡ self.now.picture.width }
        ensures some { 1 ≤ result.width }
        ensures x { result.x ≡ 4 * (2 ^ self.now.picture.size * column_of self.now.picture address) }
        ensures y { result.y ≡ 4 * (2 ^ self.now.picture.size * row_of self.now.picture address) }
        ensures short_x { result.x < 65536 }
        ensures short_y { result.y < 65536 }
        ensures qp { result.last_qp ≡ last_qp }
        ensures last { result.is_last ≡ is_last self.now.shape address }
        ensures subset { result.ends_subset ≡ begins_row self.now.picture (address + 1) }
    {
        let side = 4 * self.layout.side() as u32;
        UnitPlace {
            size: self.layout.size(),
            address,
            width: self.layout.width(),
            x: side * self.layout.column(address),
            y: side * self.layout.row(address),
            last_qp,
            is_last: address + 1 == self.shape.first + self.shape.count,
            ends_subset: self.layout.begins_row(address + 1),
        }
    }
}
