//! A picture while its coding tree units are read.

ghost use Rattle.std.specs.Prelude.{◌≡◌, ◌≤◌, ◌*◌, ℕ, IfOk, Some, [], List};
ghost use Rattle.header_types.specs.SequenceParameterSets.{IsSps};
ghost use Rattle.picture_build.specs.Building.{IsBuilt, IsSoundUnit, behind_by, built_by, units_by};
ghost use Rattle.picture_build.specs.Pictures.{buffer_of, decoded_of};
ghost use Rattle.picture_buffer.specs.Pictures.{HeldPicture};
ghost use Rattle.picture_buffer.specs.Planes.{samples_of};
ghost use Rattle.picture_trees.specs.Given.{tree_unit};
ghost use Rattle.sample_laws.specs.SpecDecodedPictures.{decoded_by};
ghost use Rattle.unit_build.specs.SpecPictureFilters.{added_in, with_unit as filtered_with_unit};
ghost use Rattle.spec_picture_build.specs.Built.{unit_added, with_unit};
ghost use Rattle.spec_picture_build.specs.Format.{unit_format};
ghost use Rattle.spec_picture_build.specs.References.{greatest_sample, motions_of as motions_at};
ghost use Rattle.spec_reconstruction.specs.Sound.{AreSound};

use crate::beside::Built;
use crate::format::{common_format, set_slice};
use crate::fresh::FreshPlanes;
use crate::spare::spare_parts;
use crate::unit::build_beside;
use ctu_records::Records;
use picture_buffer::{Bases, MotionField, Picture};
use picture_trees::{CodingTreeUnit, Layout, Trees, slice_address};
use plan_types::{PicturePlan, SegmentPlan};
use spec_reconstruction::UnitFormat;
use std::alloc::{AllocError, Global};
use std::marker::{Brand, Model, PhantomData};
use unit_build::{
    BuiltUnit, FilterScratch, PictureFilters, Scratch, UnitSource, lay_unit as lay_motion,
};

/// The pictures of the decoded picture buffer, which stay the same while a picture is built.
pub(crate) trait Buffer {
    ghost pictures: { List HeldPicture };
}

impl Buffer for Brand {
    ghost pictures = { [] };
}

/// A picture that is built unit after unit.
#[derive(Drop)]
pub(crate) struct PictureBuilder<'a, B: Buffer> {
    buffer: PhantomData<B>,
    plan: &'a PicturePlan,
    bases: &'a Bases,
    layout: Layout,
    /// What the samples of the next unit depend on, once the offsets of its slice are set.
    format: UnitFormat,
    planes: FreshPlanes,
    field: MotionField,
    filters: PictureFilters<'a>,
    scratch: Scratch,
    /// What the last unit's work left.
    unit: BuiltUnit,
}

impl<'a, B: Buffer> Model for PictureBuilder<'a, B> {
    ghost use Rattle.std.specs.Prelude.{◌≡◌, ◌*◌};
    ghost use Rattle.picture_buffer.specs.Motion.{HasPlaces};
    ghost use Rattle.picture_build.specs.Building.{Building};
    ghost use Rattle.picture_build.specs.Formats.{IsCommon};
    ghost use Rattle.picture_trees.specs.SpecPictureTrees.{picture_shape};
    ghost use Rattle.spec_reconstruction.specs.Sound.{IsFormat};

    ghost Value = { Building };

    ghost view = { λ b. record {
      plan = b.plan.now;
      planes = b.planes.planes;
      motion = b.field;
      filters = b.filters;
    } };

    ghost invariant = { λ b. (b.layout ≡ picture_shape b.plan.now.sps b.plan.now.pps)
        × (b.planes.picture ≡ b.layout)
        × (4 * b.layout.across ≡ b.plan.now.sps.format.pic_width_in_luma_samples)
        × (4 * b.layout.down ≡ b.plan.now.sps.format.pic_height_in_luma_samples)
        × IsFormat b.format
        × IsCommon b.plan.now.sps b.plan.now.pps b.format
        × HasPlaces b.field b.layout.across b.layout.down
        × (b.filters.plan ≡ b.plan.now)
        × (b.bases.now ≡ B.pictures) };
}

impl<'a, B: Buffer> PictureBuilder<'a, B> {
    /// A picture of which no unit is built.
    pub(crate) fn new(
        alloc: Global,
        plan: &'a PicturePlan,
        bases: &'a Bases,
        spare: Option<Picture>,
        scratch: FilterScratch,
    ) -> Result<PictureBuilder<'a, B>, AllocError>
        requires { bases.now ≡ B.pictures }
        ensures built { IfOk result (λ b. IsBuilt (buffer_of B.pictures) b plan.now []) }
        ensures sps { IsSps plan.now.sps }
    {
        let (planes, field) = spare_parts(alloc, &plan.sps.fields().format, spare)?;
        let layout = Layout::new(plan);
        let fresh = FreshPlanes::new(planes, layout);
        Ok(PictureBuilder {
            buffer: PhantomData,
            plan,
            bases,
            layout,
            format: common_format(alloc, plan)?,
            planes: fresh,
            field,
            filters: PictureFilters::new(alloc, plan, scratch)?,
            scratch: Scratch::new(),
            unit: BuiltUnit::new(),
        })
    }

    /// The picture behind its loop filters, and the memory in which it was filtered.
    pub(crate) fn into_picture(self) -> (Picture, FilterScratch)
        requires { (c x y : ℕ) → samples_of self.planes c x y ≤ greatest_sample self.plan.sps.format c }
        ensures { decoded_of result.0 ≡ decoded_by self.entry.plan (units_by self.entry) }
    {
        let mut planes = self.planes.into_planes();
        let mut filters = self.filters;
        filters.filter(&mut planes);
        let format = self.plan.sps.fields().format;
        let picture = Picture::new(format, planes, self.field);
        (picture, filters.into_scratch())
    }

    /// The next unit, of the segment with this number.
    fn add(&mut self, number: usize, address: u32, records: &Records)
        ensures plan { self.new.plan ≡ self.old.plan }
        ensures value { IsSoundUnit self.old.plan (tree_unit number address records.now)
            → built_by self.new
            ≡ with_unit (buffer_of B.pictures) self.old.plan (built_by self.old)
            (tree_unit number address records.now) }
        ensures behind { IsSoundUnit self.old.plan (tree_unit number address records.now)
            → behind_by self.new
            ≡ filtered_with_unit (motions_at (buffer_of B.pictures)) self.old.plan (behind_by self.old)
            (tree_unit number address records.now) }
    {
        let plan = self.plan;
        let segments = plan.segments.as_slice();
        if number < segments.len() {
            self.build(&segments[number], address, records);
        }
    }

    /// Builds a unit of a segment. One that stands below the picture has no samples.
    fn build(&mut self, segment: &SegmentPlan, address: u32, records: &Records)
        ensures plan { self.new.plan ≡ self.old.plan }
        ensures value { (number : ℕ)
            → AreSound (unit_format self.old.plan.sps self.old.plan.pps segment.now.header.slice) records.now.items
            → built_by self.new
            ≡ unit_added (buffer_of B.pictures) self.old.plan segment.now (tree_unit number address records.now)
            (built_by self.old) }
        ensures behind { (number : ℕ)
            → AreSound (unit_format self.old.plan.sps self.old.plan.pps segment.now.header.slice) records.now.items
            → behind_by self.new
            ≡ added_in (motions_at (buffer_of B.pictures)) self.old.plan (Some segment.now)
            (tree_unit number address records.now) (behind_by self.old) }
    {
        let unit = CodingTreeUnit {
            layout: self.layout,
            slice: slice_address(self.plan, segment),
            address,
        };
        let slice = &segment.header.fields().slice;
        set_slice(&mut self.format, &self.plan.pps, slice);
        self.planes.reach(u64::from(address));
        let source = UnitSource {
            plan: self.plan,
            segment,
            format: &self.format,
        };
        let built = Built {
            planes: &self.planes,
            field: &self.field,
            filters: &self.filters,
            bases: self.bases,
        };
        build_beside(
            &source,
            &unit,
            built,
            records,
            &mut self.scratch,
            &mut self.unit,
        );
        self.planes.lay_unit(&unit, &self.unit.samples);
        let (pointing, motion) = (&self.unit.slice, &self.unit.motion);
        lay_motion(&unit, pointing, motion, &mut self.field);
        self.filters.lay(segment, address, &self.unit.filters);
    }
}

impl<'a, B: Buffer> Trees for PictureBuilder<'a, B> {
    ghost use Rattle.picture_build.specs.Building.{IsBuilt};
    ghost use Rattle.picture_build.specs.Pictures.{buffer_of};

    ghost tells = { λ b p given. IsBuilt (buffer_of B.pictures) b p given };

    fn unit(&mut self, segment: usize, ctu: u32, records: &Records) -> Result<(), AllocError> {
        self.add(segment, ctu, records);
        Ok(())
    }
}
