//! Rows of other pictures that a picture reads.

ghost use Rattle.std.specs.Prelude.{◌≡◌, ◌++◌, ◌∷◌, ◌↔◌, [], OnOk, OnErr, IsTrue, All};
ghost use Rattle.flight_plan.specs.Flight.{IsEarlier};

use std::alloc::{AllocError, Global};
use std::marker::Model;

/// A picture that another one refers to.
#[derive(Clone, Copy, Debug, PartialEq, Eq)]
pub enum Reference {
    /// A picture that was decoded before the flight began, by its place among those. Nothing waits for it.
    Base(u32),
    /// A picture of the flight, by its place there.
    Flight(u32),
}

impl Reference {
    /// Whether this is a base or one of the first `count` pictures of the flight.
    pub fn is_earlier(self, count: usize) -> bool
        ensures { IsTrue result ↔ IsEarlier count self }
    {
        match self {
            Reference::Base(_) => true,
            Reference::Flight(picture) => (picture as usize) < count,
        }
    }
}

/// Rows of coding tree blocks of a reference picture, from `first` to `last`, both included.
#[derive(Clone, Copy, Debug, PartialEq, Eq)]
pub struct RowRange {
    /// The picture that is read.
    pub picture: Reference,
    /// The first row, counted from the top.
    pub first: u32,
    /// The last row.
    pub last: u32,
}

/// Row ranges that one coding tree unit reads. Contracts see the list.
#[derive(Drop)]
pub struct RowRanges {
    items: Vec<RowRange>,
}

impl Model for RowRanges {
    ghost use Rattle.std.specs.Prelude.{List};
    ghost use Rattle.flight_plan.specs.declared.row_range.RowRange.{RowRange};

    ghost Value = { List RowRange };

    ghost view = { λ r. r.items.items };
}

impl RowRanges {
    /// No range.
    pub fn new(alloc: Global) -> RowRanges
        ensures { result ≡ [] }
    {
        RowRanges {
            items: Vec::new(alloc),
        }
    }

    /// Adds a range. After want of memory the list is as before.
    pub fn push(&mut self, range: RowRange) -> Result<(), AllocError>
        ensures ok { OnOk result (self.new ≡ self.old ++ range ∷ []) }
        ensures err { OnErr result (self.new ≡ self.old) }
    {
        self.items.push(range)?;
        Ok(())
    }

    /// The ranges in the order in which they were added.
    pub fn as_slice(&self) -> &[RowRange]
        ensures { result.now ≡ self.now }
    {
        self.items.as_slice()
    }

    /// Whether each range is in a base or in one of the first `count` pictures of the flight.
    pub fn are_earlier(&self, count: usize) -> bool
        ensures { IsTrue result ↔ All (λ range. IsEarlier count range.picture) self.now }
    {
        self.items
            .iter()
            .all(|range| range.picture.is_earlier(count))
    }
}
