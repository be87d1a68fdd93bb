//! What stands for a flight of pictures on a board.
ghost use Rattle.std.specs.Prelude.{◌≡◌};
ghost use Rattle.picture_build.specs.Pictures.{buffer_of};
ghost use Rattle.flight_facts.specs.Boards.{flight_of};

use picture_build::Bases;
use picture_plan::Flight;
use std::snapshot::Snapshot;

/// Stands for a flight and its bases on a board, in contracts alone.
#[derive(Drop)]
pub struct FlightFacts {
    pub pictures: Snapshot<Flight>,
    pub bases: Snapshot<Bases>,
}

impl FlightFacts {
    /// What stands for a flight of pictures behind these bases.
    pub fn of(flight: &Flight, bases: &Bases) -> FlightFacts
        ensures { flight_of result.pictures.value (buffer_of result.bases.value)
            ≡ flight_of flight.now (buffer_of bases.now) }
    {
        FlightFacts {
            pictures: Snapshot::of(flight),
            bases: Snapshot::of(bases),
        }
    }
}
