//! What stands beside the coding tree units of a picture that is built.

ghost use Rattle.std.specs.Prelude.{◌≡◌, ◌≤◌};
ghost use Rattle.picture_build.specs.Pictures.{buffer_of};
ghost use Rattle.spec_picture_build.specs.References.{motions_of as motions_at};

use crate::fresh::FreshPlanes;
use header_types::RefEntry;
use picture_buffer::{Bases, MotionField, PlaceMotion};
use picture_trees::CodingTreeUnit;
use std::marker::Model;
use unit_build::{Beside, MotionBeneath, MotionBeside, Part, PictureFilters};

/// What is built of a picture, beside one of its units, and the pictures of the decoded picture buffer before it.
#[derive(Drop)]
pub(crate) struct PictureBeside<'a> {
    unit: CodingTreeUnit,
    built: Built<'a>,
    /// The entry of the collocated picture in the lists of the unit's slice.
    entry: Option<RefEntry>,
}

/// What is built of a picture, and the pictures before it.
#[derive(Clone, Copy)]
pub(crate) struct Built<'a> {
    /// Its samples before the loop filters.
    pub(crate) planes: &'a FreshPlanes,
    /// Its motion.
    pub(crate) field: &'a MotionField,
    /// What its loop filters need.
    pub(crate) filters: &'a PictureFilters<'a>,
    /// The pictures of the decoded picture buffer before it.
    pub(crate) bases: &'a Bases,
}

impl<'a> Model for PictureBeside<'a> {
    ghost use Rattle.std.specs.Prelude.{◌≡◌, ◌≤◌};
    ghost use Rattle.picture_build.specs.Standing.{Standing};

    ghost Value = { Standing };

    ghost view = { λ v. record {
      unit = v.unit;
      planes = v.built.planes.now.planes;
      motion = v.built.field.now;
      filters = v.built.filters.now;
      bases = v.built.bases.now;
      entry = v.entry;
    } };

    ghost invariant = { λ v. (v.built.planes.now.picture ≡ v.unit.layout)
        × (v.unit.address ≤ v.built.planes.now.laid) };
}

impl<'a> PictureBeside<'a> {
    /// Beside this unit, of a slice with this entry for the collocated picture.
    pub(crate) fn new(
        unit: CodingTreeUnit,
        built: Built<'a>,
        entry: Option<RefEntry>,
    ) -> PictureBeside<'a>
        requires picture { built.planes.now.picture ≡ unit.layout }
        requires order { unit.address ≤ built.planes.now.laid }
        ensures { result ≡ record {
          unit = unit;
          planes = built.entry.planes.now.planes;
          motion = built.entry.field.now;
          filters = built.entry.filters.now;
          bases = built.entry.bases.now;
          entry = entry;
        } }
    {
        PictureBeside { unit, built, entry }
    }
}

impl<'a> MotionBeside for PictureBeside<'a> {
    ghost use Rattle.picture_buffer.specs.Motion.{motions_of};

    ghost motion_at = { λ v. motions_of v.motion };

    fn motion(&self, x: usize, y: usize) -> Option<PlaceMotion> {
        self.built.field.at(x, y)
    }
}

impl<'a> MotionBeneath for PictureBeside<'a> {
    ghost use Rattle.picture_build.specs.Standing.{collocated_by};

    ghost collocated_at = { λ v. collocated_by v };

    fn collocated(&self, x: usize, y: usize) -> Option<PlaceMotion> {
        match self.entry {
            Some(entry) => motion_in(self.built.bases, entry.place, x, y),
            None => None,
        }
    }
}

impl<'a> Beside for PictureBeside<'a> {
    ghost use Rattle.picture_buffer.specs.Planes.{samples_of};
    ghost use Rattle.unit_build.specs.PictureFilters.{data_of};

    ghost unit_of = { λ v. v.unit };

    ghost sample_at = { λ v. samples_of v.planes };

    ghost coded_at = { λ v. (data_of v.filters).coded };

    fn unit(&self) -> CodingTreeUnit {
        self.unit
    }

    fn above(&self, part: Part, first: usize, end: usize) -> &[u16] {
        let _side = self.unit.layout.side();
        let row = self.built.planes.row(part.c, (part.y - 1) as u32);
        &row[first..end]
    }

    fn left(&self, part: Part, line: usize) -> u16 {
        let row = self.built.planes.row(part.c, (part.y + line) as u32);
        row[part.x - 1]
    }

    fn coded(&self, x: usize, y: usize) -> bool {
        self.built.filters.coded(x, y)
    }
}

/// The motion of a place of the picture at a place of the buffer.
fn motion_in(bases: &Bases, place: u32, x: usize, y: usize) -> Option<PlaceMotion>
    ensures { result ≡ motions_at (buffer_of bases.now) place x y }
{
    match bases.get(place) {
        Some(picture) => picture.motion().at(x, y),
        None => None,
    }
}
