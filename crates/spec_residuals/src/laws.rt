//! The law that binds the reading of a block to the bins that spell it.

ghost use Rattle.spec_residuals.specs.declared.block.ResidualBlock.{ResidualBlock};
ghost use Rattle.spec_cabac.specs.SpecFormats.{IsReadAgain, IsSpelledAs};
ghost use Rattle.spec_cabac.specs.Bins.{bin_at};
ghost use Rattle.spec_residuals.specs.Residual.{residual_coding};

/// A block that is read is spelled by the bins that the data have, and what such bins spell or wrote is read.
pub fn residuals_are_spelled()
    ensures read_as_spelled { (block : ResidualBlock) → IsSpelledAs bin_at (residual_coding block) }
    ensures read_again { (block : ResidualBlock) → IsReadAgain bin_at (residual_coding block) }
{}
