//! The reference pictures of a picture of a flight.

ghost use Rattle.std.specs.Prelude.{◌≡◌, ℕ};
ghost use Rattle.sample_lines.specs.InterSamples.{AreSmall};
ghost use Rattle.sample_lines.specs.FactsOfFlights.{HasDepths};
ghost use Rattle.progress_words.specs.Passes.{IsPassOf, view};
ghost use Rattle.sample_lines.specs.SpecFlights.{names_before};
ghost use Rattle.spec_picture_build.specs.References.{pictures_of};
ghost use Rattle.spec_reconstruction.specs.declared.format.UnitFormat.{UnitFormat};
ghost use Rattle.sample_lines.specs.FactsOfFlights.{flight_in};
ghost use Rattle.sample_lines.specs.FactsOfFlights.{IsOfFlight};
ghost use Rattle.flight_windows.specs.Pictures.{seen_pictures};
ghost use Rattle.flight_windows.specs.Seen.{AreFlagsSeen};
ghost use Rattle.flight_windows.specs.Windows.{IsKnown, bases_in, references_in};

use crate::final_rows::FinalRows;
use crate::known_pass::KnownPass;
use crate::seen_rows::SeenRows;
use flight_plan::Reference;
use header_types::Sps;
use inter_pred::RefWindow;
use progress_words::{Board, Pass};
use sample_lines::FlightFacts;
use sample_words::Layout;
use std::marker::{Model, PhantomData};

/// The pictures that a picture of a flight may refer to, by their names: those that were decoded before the flight, and
/// those of the flight as far as a pass has seen their final rows counted. It owns the pass meanwhile. Contracts see a
/// `FlightView`.
#[derive(Drop)]
pub struct FlightWindows<'b, K: KnownPass, R: RefWindow + Drop> {
    known: PhantomData<K>,
    pub(crate) rows: FinalRows<'b>,
    pub(crate) pass: Pass<FlightFacts>,
    pub(crate) names: &'b [Reference],
    /// Those that were decoded before the flight, by their places.
    pub(crate) bases: R,
    /// The sequence parameter set of the picture that refers to them.
    pub(crate) sps: &'b Sps,
}

impl<'b, K: KnownPass, R: RefWindow + Drop> Model for FlightWindows<'b, K, R> {
    ghost use Rattle.std.specs.Prelude.{◌≡◌};
    ghost use Rattle.flight_windows.specs.Reading.{SeesRows};
    ghost use Rattle.flight_windows.specs.Windows.{FlightView, IsKnown, bases_in};

    ghost Value = { FlightView };

    ghost view = { λ w.
        record {
          facts = w.rows.board.now.flight;
          seen = w.rows.seen.now;
          names = w.names.now;
          sps = w.sps.now;
        } };

    ghost invariant = { λ w. SeesRows w.rows w.pass
        × (R.reference_at w.bases ≡ bases_in w.sps.now.format w.rows.board.now.flight)
        × IsKnown K.table K.knows w.pass };
}

impl<'b, K: KnownPass, R: RefWindow + Drop> FlightWindows<'b, K, R> {
    /// Those that a pass sees. Their samples are in the range of the bit depths of the picture that refers to them.
    pub fn new(
        board: &'b Board<'b, FlightFacts>,
        pass: Pass<FlightFacts>,
        layout: Layout,
        names: &'b [Reference],
        bases: R,
        sps: &'b Sps,
        seen: &'b SeenRows,
    ) -> FlightWindows<'b, K, R>
        requires own { IsPassOf board.now pass }
        requires flight { IsOfFlight board.now.flight layout }
        requires bases { R.reference_at bases ≡ bases_in sps.now.format board.now.flight }
        requires seen { AreFlagsSeen layout (view pass) seen.now }
        requires known { IsKnown K.table K.knows pass }
        ensures value { result
            ≡ record { facts = board.now.flight; seen = seen.now; names = names.now; sps = sps.now } }
        ensures pictures { (k : ℕ) → names.now ≡ names_before (flight_in board.now.flight) k
            → references_in result
            ≡ pictures_of sps.now.format (seen_pictures (flight_in board.now.flight) k seen.now) }
        ensures small { (format : UnitFormat) → HasDepths sps.now format → AreSmall format (references_in result) }
    {
        FlightWindows {
            known: PhantomData,
            rows: FinalRows {
                board,
                layout,
                seen,
            },
            pass,
            names,
            bases,
            sps,
        }
    }

    /// The pass, which knows what it knew.
    pub fn into_pass(self) -> Pass<FlightFacts>
        ensures { IsKnown K.table K.knows result }
    {
        self.pass
    }
}
