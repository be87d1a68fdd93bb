//! What rows of coding tree units are built with.

ghost use Rattle.std.specs.Prelude.{◌≡◌, IfOk};
ghost use Rattle.border_words.specs.FlightFacts.{FlightFacts};
ghost use Rattle.progress_words.specs.declared.view.View.{View};
ghost use Rattle.row_waits.specs.Pictures.{IsPictureOf};
ghost use Rattle.built_rows.specs.Stages.{IsReadyFor, above_of};

use border_words::{BuiltUnit, RowBorder, Scratch, UnitAbove};
use cabac_contexts::Contexts;
use picture_layout::{CodingTreeUnit, Layout as PictureLayout};
use row_waits::{PictureView, RowReader, SeenRows};
use spec_reconstruction::UnitFormat;
use std::alloc::{AllocError, Global};

/// What a worker builds rows of coding tree units with, in memory of its own. It serves all pictures of a flight.
#[derive(Drop)]
pub struct RowBuilder<'a> {
    /// Reads the units of the row.
    pub(crate) reader: RowReader<'a>,
    /// What stands beside the next unit.
    pub(crate) border: RowBorder,
    pub(crate) scratch: Scratch,
    /// What the work of the former unit left.
    pub(crate) built: BuiltUnit,
    /// What the samples of the picture's units depend on, with the offsets of the former unit's slice.
    pub(crate) format: UnitFormat,
    /// The final rows that the worker's pass has seen.
    pub(crate) seen: SeenRows,
    /// Words of the unit above one in an even column.
    pub(crate) even: UnitAbove,
    /// Those of the unit above one in an odd column.
    pub(crate) odd: UnitAbove,
    /// The contexts behind the second unit of the row above, where each row has a substream of its own.
    pub(crate) stored: Contexts,
}

impl<'a> RowBuilder<'a> {
    /// For pictures of a flight, of which this is one. It takes memory, and no other call does.
    pub fn new(alloc: Global, picture: &PictureView<'a>) -> Result<RowBuilder<'a>, AllocError>
        ensures { IfOk result (λ b. (facts : FlightFacts) (v : View FlightFacts) → IsPictureOf facts picture.now
            → IsReadyFor picture.now v b) }
    {
        let unit = CodingTreeUnit {
            layout: PictureLayout::new(picture.plan),
            slice: 0,
            address: 0,
        };
        let rows = picture.layout.rows() as usize;
        Ok(RowBuilder {
            reader: RowReader::new(alloc, picture.plan)?,
            border: RowBorder::new(alloc, unit)?,
            scratch: Scratch::new(),
            built: BuiltUnit::new(),
            format: *picture.format,
            seen: SeenRows::new(alloc, picture.plans.len(), rows)?,
            even: UnitAbove::none(),
            odd: UnitAbove::none(),
            stored: Contexts::init(0, 0),
        })
    }

    /// What is kept of the words of the unit above the one in a column.
    #[inline(always)]
    pub(crate) fn above(&self, column: u32) -> &UnitAbove
        ensures { result.now ≡ above_of self.now column }
    {
        if column % 2 == 0 {
            &self.even
        } else {
            &self.odd
        }
    }
}
