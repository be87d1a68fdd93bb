//! Who is handed the coding tree units of a picture, and how reading ends.

ghost use Rattle.std.specs.Prelude.{List, [], ◌∷◌, ◌++◌, OnOk};
ghost use Rattle.plan_types.specs.declared.picture_plan.PicturePlan.{PicturePlan};
ghost use Rattle.spec_picture_trees.specs.Picture.{TreeUnit};
ghost use Rattle.picture_trees.specs.Given.{tree_unit};

use ctu_records::Records;
use hv_base::Breach;
use std::alloc::AllocError;

/// Is handed each coding tree unit of a picture once it is read.
pub trait Trees {
    /// Whether these may be the units of this picture that it was handed, in order. Who tells nothing of them takes
    /// any.
    ghost tells: { Self → PicturePlan → List TreeUnit → Type 0 };

    /// Takes what was read of the coding tree unit at address `ctu`, in raster order, of the picture's slice segment
    /// with this number, from 0.
    fn unit(&mut self, segment: usize, ctu: u32, records: &Records) -> Result<(), AllocError>
        ensures { (p : PicturePlan) (given : List TreeUnit) → Self.tells self.old p given
            → OnOk result (Self.tells self.new p (given ++ tree_unit segment ctu records.now ∷ [])) };
}

/// Why the coding tree units of a picture weren't all read.
#[derive(Clone, Copy, Debug, PartialEq, Eq)]
pub enum ReadError {
    /// There was no memory.
    Memory,
    /// The first rule that the data of a slice segment break, the number of its NAL unit, and the address of the coding
    /// tree unit in raster order.
    Broken { breach: Breach, nal: u32, ctu: u32 },
}
