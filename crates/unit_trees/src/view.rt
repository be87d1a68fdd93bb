//! What is known beside a coding tree unit, as a view.

use crate::edges::Edge;
use ctu_records::{Neighbours, Sao, Side};

/// The places on the left of a unit and above it, and the sample adaptive offsets of the two units there.
#[derive(Drop)]
pub(crate) struct View<'b> {
    /// What the unit on the left leaves.
    pub(crate) left: &'b Edge,
    /// What the unit above leaves.
    pub(crate) above: &'b Edge,
    /// The column of the unit's first luma sample.
    pub(crate) x: u32,
    /// Its row.
    pub(crate) y: u32,
    /// The unit's address.
    pub(crate) address: u32,
    /// How many units a row of the picture has.
    pub(crate) width: u32,
}

impl<'b> Neighbours for View<'b> {
    ghost use Rattle.std.specs.Prelude.{true};
    ghost use Rattle.unit_trees.specs.Edges.{offset_beside, seen_beside};

    ghost side_at = { λ v x y. seen_beside v.left.now v.above.now v.x v.y x y };

    ghost sao_at = { λ v ctu. offset_beside v.left.now v.above.now v.address v.width ctu };

    /// Each place may be asked; the answer tells nothing of one that isn't beside the unit.
    ghost covers = { λ v x y. true };

    ghost covers_unit = { λ v ctu. true };

    fn side(&mut self, x: u32, y: u32) -> Side {
        if y < self.y {
            self.above.place(x.saturating_sub(self.x) / 4)
        } else {
            self.left.place((y - self.y) / 4)
        }
    }

    fn sao(&mut self, ctu: u32) -> Sao {
        if u64::from(ctu) + u64::from(self.width) == u64::from(self.address) {
            self.above.sao
        } else {
            self.left.sao
        }
    }
}
