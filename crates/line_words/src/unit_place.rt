//! Where the words of a unit stand.

ghost use Rattle.std.specs.Prelude.{◌≡◌, ◌<◌};
ghost use Rattle.sample_words.specs.Sizes.{IsFlight};
ghost use Rattle.sample_words.specs.Words.{IsLine, line_units};
ghost use Rattle.flight_lines.specs.Numbers.{unit_number};
ghost use Rattle.line_words.specs.Places.{IsUnit, number_at, start_at};

use flight_lines::{line_number, unit_number};
use hv_base::{Line, UnitNumber};
use sample_words::Layout;
use std::marker::Model;

/// A unit of a line of a flight, with its first word and the number of its line reckoned once. Contracts see a
/// `UnitAt`.
#[derive(Clone, Copy)]
pub struct UnitPlace {
    layout: Layout,
    line: Line,
    unit: u32,
    start: usize,
    number: usize,
}

impl Model for UnitPlace {
    ghost use Rattle.std.specs.Prelude.{◌≡◌, ◌<◌};
    ghost use Rattle.std.proofs.Common.{sym};
    ghost use Rattle.sample_words.specs.Words.{IsLine, line_number, line_units, unit_start};
    ghost use Rattle.line_words.specs.Places.{UnitAt};

    ghost Value = { UnitAt };

    ghost view = { λ p. record { sizes = p.layout; line = p.line; unit = p.unit } };

    ghost inverse = { λ u.
        record {
          layout = u.sizes;
          line = u.line;
          unit = u.unit;
          start = unit_start u.sizes u.line u.unit;
          number = line_number u.sizes u.line;
        } };

    ghost invariant = { λ p. IsLine p.layout p.line
        × (p.unit < line_units p.layout p.line.phase)
        × (p.start ≡ unit_start p.layout p.line p.unit)
        × (p.number ≡ line_number p.layout p.line) };

    ghost inverse_ok = { λ p is. λ i.
        record {
          layout = p.layout;
          line = p.line;
          unit = p.unit;
          start = sym is.2 i;
          number = sym is.3 i;
        } };
}

impl UnitPlace {
    /// The place of a unit of a line.
    pub fn new(layout: &Layout, line: Line, unit: u32) -> UnitPlace
        requires line { IsLine layout.now line }
        requires unit { unit < line_units layout.now line.phase }
        ensures { result ≡ record { sizes = layout.now; line = line; unit = unit } }
    {
        UnitPlace {
            layout: *layout,
            line,
            unit,
            start: layout.unit_start(line, u64::from(unit)) as usize,
            number: line_number(layout, line),
        }
    }

    /// Its line.
    pub fn line(&self) -> Line
        ensures value { result ≡ self.now.line }
        ensures unit { IsUnit self.now }
    {
        self.line
    }

    /// Which unit of its line it is: the column of a coding tree unit, else 0.
    pub fn unit(&self) -> u32
        ensures value { result ≡ self.now.unit }
        ensures unit { IsUnit self.now }
    {
        self.unit
    }

    /// Its first word.
    pub(crate) fn start(&self) -> usize
        ensures value { result ≡ start_at self.now }
        ensures unit { IsUnit self.now }
    {
        self.start
    }

    /// The number of its line.
    pub(crate) fn number(&self) -> usize
        ensures value { result ≡ number_at self.now }
        ensures unit { IsUnit self.now }
    {
        self.number
    }

    /// Its number in the flight.
    pub fn unit_number(&self) -> UnitNumber
        ensures value { result ≡ unit_number self.now.sizes self.now.line self.now.unit }
        ensures unit { IsUnit self.now }
    {
        unit_number(&self.layout, self.line, self.unit)
    }
}
