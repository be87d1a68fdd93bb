//! What a flight of pictures is to do: the pictures that are decoded together, each with the rows that it waits for.

ghost use Rattle.std.specs.Prelude.{◌≡◌, ◌<◌, ◌≤◌, ◌*◌, ◌++◌, ◌∷◌, ◌↔◌, [], None, length, OnOk, OnErr, IsTrue, All};
ghost use Rattle.std.specs.Prelude.{slice_index_or};
ghost use Rattle.flight_plan.specs.Flight.{IsEarlier, IsFlight, IsInRange, IsNoneOrEarlier, IsTreeUnit, ReadsEarlier};
ghost use Rattle.flight_plan.specs.Flight.{picture_units, tree_units, units_of};

use crate::row_range::{Reference, RowRange, RowRanges};
use hv_base::UnitNumber;
use std::alloc::{AllocError, Global};
use std::marker::Model;

/// The most coding tree units of a row, and the most rows: 8192 luma samples in blocks of 16.
pub const MAX_SIDE_IN_CTBS: u32 = 512;

/// The most pictures of a flight.
pub const MAX_FLIGHT_PICTURES: usize = 65_536;

/// One picture of a flight: its size in coding tree blocks, whether entropy coding sync is on, and what its coding tree
/// units read of other pictures. Contracts see a `PictureRows`.
#[derive(Drop)]
pub struct FlightPicture {
    width: u32,
    rows: u32,
    sync: bool,
    collocated: Vec<Option<Reference>>,
    reach: Vec<RowRanges>,
}

impl Model for FlightPicture {
    ghost use Rattle.flight_plan.specs.Flight.{PictureRows, IsInRange};

    ghost Value = { PictureRows };

    ghost view = { λ p.
        record {
          width = p.width;
          rows = p.rows;
          sync = p.sync;
          collocated = p.collocated.items;
          reach = p.reach.items;
        } };

    ghost invariant = { λ p.
        IsInRange
        (record {
          width = p.width;
          rows = p.rows;
          sync = p.sync;
          collocated = p.collocated.items;
          reach = p.reach.items;
        }) };
}

impl FlightPicture {
    /// A picture of `rows` rows of `width` coding tree units. At a coding tree unit in raster order the item of
    /// `collocated` is the collocated picture of the unit's slice, where it has one (8.5.3.2.8), and that of `reach`
    /// has the rows that the unit reads; a unit past the end has none.
    pub fn new(
        width: u32,
        rows: u32,
        sync: bool,
        collocated: Vec<Option<Reference>>,
        reach: Vec<RowRanges>,
    ) -> FlightPicture
        requires some_width { 1 ≤ width }
        requires width { width ≤ 512 }
        requires some_rows { 1 ≤ rows }
        requires rows { rows ≤ 512 }
        ensures { result
            ≡ record { width = width; rows = rows; sync = sync; collocated = collocated.items; reach = reach.items } }
    {
        FlightPicture {
            width,
            rows,
            sync,
            collocated,
            reach,
        }
    }

    /// The coding tree units of a row.
    pub fn width(&self) -> u32
        ensures value { result ≡ self.now.width }
        ensures in_range { IsInRange self.now }
    {
        self.width
    }

    /// The rows of coding tree blocks.
    pub fn rows(&self) -> u32
        ensures value { result ≡ self.now.rows }
        ensures in_range { IsInRange self.now }
    {
        self.rows
    }

    /// The coding tree units of the picture.
    pub fn tree_units(&self) -> UnitNumber
        ensures value { result ≡ tree_units self.now }
        ensures small { result ≤ 262144 }
    {
        u64::from(self.rows) * u64::from(self.width)
    }

    /// The units of the picture: its coding tree units, and one a row for each of the three filter phases.
    pub fn units(&self) -> UnitNumber
        ensures value { result ≡ picture_units self.now }
        ensures small { result ≤ 263680 }
        ensures in_range { IsInRange self.now }
    {
        self.tree_units() + 3 * u64::from(self.rows)
    }

    /// Whether entropy coding sync is on: each row begins with the contexts after two units of the row above.
    pub fn sync(&self) -> bool
        ensures { result ≡ self.now.sync }
    {
        self.sync
    }

    /// The collocated picture of the slice of the coding tree unit at `unit`, in raster order, where it has one.
    pub fn collocated(&self, unit: usize) -> Option<Reference>
        ensures { result ≡ slice_index_or self.now.collocated unit None }
    {
        match self.collocated.get(unit) {
            Some(reference) => *reference,
            None => None,
        }
    }

    /// The rows of other pictures that the coding tree unit at `unit`, in raster order, reads.
    pub fn reach(&self, unit: usize) -> &[RowRange]
        ensures { result.now ≡ slice_index_or self.now.reach unit [] }
    {
        match self.reach.get(unit) {
            Some(ranges) => ranges.as_slice(),
            None => &[],
        }
    }

    /// Whether all that the picture reads is in bases or in the first `count` pictures of the flight.
    pub fn reads_earlier(&self, count: usize) -> bool
        ensures { IsTrue result ↔ ReadsEarlier count self.now }
    {
        self.collocates_earlier(count) && self.reaches_earlier(count)
    }

    fn collocates_earlier(&self, count: usize) -> bool
        ensures { IsTrue result ↔ All (IsNoneOrEarlier count) self.now.collocated }
    {
        self.collocated
            .iter()
            .all(|reference| is_none_or_earlier(*reference, count))
    }

    fn reaches_earlier(&self, count: usize) -> bool
        ensures { IsTrue result ↔ All (λ ranges. All (λ range. IsEarlier count range.picture) ranges) self.now.reach }
    {
        for ranges in &self.reach {
            if !ranges.are_earlier(count) {
                return false;
            }
        }
        true
    }
}

/// Whether this is no reference, or one to a base or to one of the first `count` pictures of the flight.
fn is_none_or_earlier(reference: Option<Reference>, count: usize) -> bool
    ensures { IsTrue result ↔ IsNoneOrEarlier count reference }
{
    match reference {
        Some(reference) => reference.is_earlier(count),
        None => true,
    }
}

/// The pictures that are decoded together, in decoding order, and the coding tree units at which a rule is broken.
/// Contracts see a `FlightRows`.
#[derive(Drop)]
pub struct FlightPlan {
    pictures: Vec<FlightPicture>,
    bad: Vec<UnitNumber>,
    units: UnitNumber,
}

impl Model for FlightPlan {
    ghost use Rattle.std.specs.Prelude.{◌≡◌, ◌*◌, ◌≤◌, length};
    ghost use Rattle.flight_plan.specs.Flight.{FlightRows, IsFlight, units_of};

    ghost Value = { FlightRows };

    ghost view = { λ p. record { pictures = p.pictures.items; bad = p.bad.items } };

    ghost invariant = { λ p.
        IsFlight (record { pictures = p.pictures.items; bad = p.bad.items })
        × (p.units ≡ units_of p.pictures.items)
        × (p.units ≤ 263680 * length p.pictures.items) };
}

impl FlightPlan {
    /// A flight of no picture.
    pub fn new(alloc: Global) -> FlightPlan
        ensures { result ≡ record { pictures = []; bad = [] } }
    {
        FlightPlan {
            pictures: Vec::new(alloc),
            bad: Vec::new(alloc),
            units: 0,
        }
    }

    /// Whether `picture` may stand next: there is room for it, and it reads bases and pictures of the flight alone.
    pub fn takes(&self, picture: &FlightPicture) -> bool
        ensures { IsTrue result
            ↔ ((length self.now.pictures < 65536) × ReadsEarlier (length self.now.pictures) picture.now) }
    {
        self.pictures.len() < MAX_FLIGHT_PICTURES && picture.reads_earlier(self.pictures.len())
    }

    /// Adds a picture at the end. After want of memory the flight is as before.
    pub fn push(&mut self, picture: FlightPicture) -> Result<(), AllocError>
        requires room { length self.old.pictures < 65536 }
        requires earlier { ReadsEarlier (length self.old.pictures) picture }
        ensures ok { OnOk result
            (self.new ≡ record { pictures = self.old.pictures ++ picture ∷ []; bad = self.old.bad }) }
        ensures err { OnErr result (self.new ≡ self.old) }
    {
        let units = picture.units();
        self.pictures.push(picture)?;
        self.units += units;
        Ok(())
    }

    /// Whether this is the number of a coding tree unit of one of the pictures.
    pub fn is_tree_unit(&self, unit: UnitNumber) -> bool
        ensures { IsTrue result ↔ IsTreeUnit self.now.pictures unit }
    {
        let mut first = 0;
        for picture in &self.pictures {
            if first <= unit && unit - first < picture.tree_units() {
                return true;
            }
            first += picture.units();
        }
        false
    }

    /// Adds a coding tree unit at which a rule is broken. After want of memory the flight is as before.
    pub fn push_bad(&mut self, unit: UnitNumber) -> Result<(), AllocError>
        requires { IsTreeUnit self.old.pictures unit }
        ensures ok { OnOk result (self.new ≡ record { pictures = self.old.pictures; bad = self.old.bad ++ unit ∷ [] }) }
        ensures err { OnErr result (self.new ≡ self.old) }
    {
        self.bad.push(unit)?;
        Ok(())
    }

    /// The pictures in decoding order.
    pub fn pictures(&self) -> &[FlightPicture]
        ensures value { result.now ≡ self.now.pictures }
        ensures flight { IsFlight self.now }
    {
        self.pictures.as_slice()
    }

    /// The coding tree units at which a rule is broken.
    pub fn bad(&self) -> &[UnitNumber]
        ensures value { result.now ≡ self.now.bad }
        ensures flight { IsFlight self.now }
        ensures inside { All (λ unit. unit < units_of self.now.pictures) self.now.bad }
    {
        self.bad.as_slice()
    }

    /// How many units the pictures have.
    pub fn units(&self) -> UnitNumber
        ensures value { result ≡ units_of self.now.pictures }
        ensures small { result ≤ 263680 * 65536 }
    {
        self.units
    }
}
