//! What a pass knows, by a type.

use sample_lines::FlightFacts;
use std::marker::Brand;

/// What a pass of a board knows, for contracts alone. Code that is generic over reference pictures tells of these their
/// samples alone, so a type says which pass they own. A function that has such a type picks it where it is called, as
/// `Brand`.
pub trait KnownPass {
    ghost use Rattle.atomic_table.specs.Seated.{TableId};
    ghost use Rattle.sample_lines.specs.FactsOfFlights.{FlightFacts};
    ghost use Rattle.progress_words.specs.declared.view.View.{View};

    /// Its board.
    ghost table: { TableId };

    /// What it knows.
    ghost knows: { View FlightFacts };
}

impl KnownPass for Brand {
    ghost use Rattle.progress_words.specs.Views.{spent};
    ghost use Rattle.flight_windows.specs.Windows.{no_table};

    ghost table = { no_table };

    ghost knows = { spent };
}
