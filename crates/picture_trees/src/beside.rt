//! What is kept of the coding tree units before one, as far as reading asks for it (6.4.1).

ghost use Rattle.std.specs.Prelude.{◌≡◌, ◌≤◌, IfOk, length, slice_set};
ghost use Rattle.unit_trees.specs.Edges.{bottom_of, right_of};
ghost use Rattle.picture_trees.specs.Beside.{above_at, behind};

use ctu_records::Records;
use std::alloc::{AllocError, Global};
use std::marker::Model;
use unit_trees::Edge;

/// What the units beside the next one leave to it.
#[derive(Drop)]
pub(crate) struct Beside {
    /// A unit's side in places.
    side: u32,
    /// What the unit before it leaves to the right.
    left: Edge,
    /// What the last unit of each column leaves to the one below it.
    columns: Vec<Edge>,
}

impl Model for Beside {
    ghost use Rattle.std.specs.Prelude.{◌≤◌};
    ghost use Rattle.picture_trees.specs.Beside.{UnitsBeside};

    ghost Value = { UnitsBeside };

    ghost view = { λ b. record { side = b.side; left = b.left; columns = b.columns.items } };

    ghost invariant = { λ b. (1 ≤ b.side) × (b.side ≤ 16) };
}

impl Beside {
    /// Beside no unit, in pictures of so many units a row.
    pub(crate) fn new(alloc: Global, side: u32, width: u32) -> Result<Beside, AllocError>
        requires some { 1 ≤ side }
        requires small { side ≤ 16 }
        ensures { IfOk result (λ b. (b.side ≡ side) × (length b.columns ≡ width)) }
    {
        Ok(Beside {
            side,
            left: Edge::none(),
            columns: vec![in alloc; Edge::none(); width as usize]?,
        })
    }

    /// What the unit before leaves.
    pub(crate) fn left(&self) -> Edge
        ensures { result ≡ self.now.left }
    {
        self.left
    }

    /// What the last unit in a column leaves.
    pub(crate) fn above(&self, column: u32) -> Edge
        ensures { result ≡ above_at self.now column }
    {
        if (column as usize) < self.columns.len() {
            self.columns[column as usize]
        } else {
            Edge::none()
        }
    }

    /// The unit in this column was read.
    pub(crate) fn keep(&mut self, column: u32, records: &Records)
        ensures { self.new ≡ behind self.old column records.now }
    {
        self.left = Edge::right_of(records, self.side);
        if (column as usize) < self.columns.len() {
            self.columns[column as usize] = Edge::bottom_of(records, self.side);
        }
    }
}
