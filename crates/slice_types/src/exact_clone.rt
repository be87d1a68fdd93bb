//! Clones of slices' fields are equal to them.

ghost use Rattle.std.proofs.Common.{rules};
ghost use Rattle.std.specs.Prelude.{◌≡◌};

use crate::slice::SliceFields;
use crate::weights::RefWeights;
use header_types::ExactClone;

impl ExactClone for RefWeights {
    ghost exact = { Prim.search rules };
}

impl ExactClone for SliceFields {
    ghost exact = { Prim.search rules };
}
