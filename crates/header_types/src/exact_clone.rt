//! Values whose clones are equal to them.

ghost use Rattle.std.proofs.Common.{rules};
ghost use Rattle.std.specs.Prelude.{◌≡◌};

use crate::reference_pictures::{DpbPicture, LongTermRef};
use crate::scaling::ScalingList;
use crate::short_term_set::{ShortTermRef, StRps};

/// A value whose clones are equal to it.
pub trait ExactClone: Clone {
    ghost exact: { (a b : Self) → Self.is_clone a b → b ≡ a };
}

impl ExactClone for u8 {
    ghost exact = { Prim.search rules };
}

impl ExactClone for u32 {
    ghost exact = { Prim.search rules };
}

impl ExactClone for DpbPicture {
    ghost exact = { Prim.search rules };
}

impl ExactClone for LongTermRef {
    ghost exact = { Prim.search rules };
}

impl ExactClone for ScalingList {
    ghost exact = { Prim.search rules };
}

impl ExactClone for ShortTermRef {
    ghost exact = { Prim.search rules };
}

impl ExactClone for StRps {
    ghost exact = { Prim.search rules };
}
