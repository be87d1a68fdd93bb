//! Memory in which a worker filters rows of coding tree blocks.

ghost use Rattle.std.specs.Prelude.{IfOk};
ghost use Rattle.loop_filters.specs.Formats.{IsFormat};
ghost use Rattle.filtered_rows.specs.Memory.{HasRoomFor};

use row_filters::RowPlaces;
use spec_loop_filters::FilterFormat;
use std::alloc::{AllocError, Global};

/// The most lines of a row that are read: its own 64 and four on each side.
const MOST_LINES: usize = 72;

/// The most lines of a row that are copied: its own 64 and one on each side.
const MOST_COPIED: usize = 66;

/// Room for what is known of the places and the coding tree units of a row and of those beside it, for the row's lines
/// with those beside them, and for a copy of them. It serves one row after the other.
#[derive(Drop)]
pub struct FilterMemory {
    pub(crate) places: RowPlaces,
    pub(crate) lines: Vec<u16>,
    pub(crate) copy: Vec<u16>,
}

impl FilterMemory {
    /// Room for rows of the pictures of a format, and of all others with the same sides. It alone takes memory.
    pub fn new(alloc: Global, format: &FilterFormat) -> Result<FilterMemory, AllocError>
        requires { IsFormat format.now }
        ensures { IfOk result (λ memory. HasRoomFor format.now memory) }
    {
        let places = RowPlaces::new(alloc, format)?;
        let lines = vec![in alloc; 0; format.width * MOST_LINES]?;
        let copy = vec![in alloc; 0; format.width * MOST_COPIED]?;
        Ok(FilterMemory {
            places,
            lines,
            copy,
        })
    }
}
