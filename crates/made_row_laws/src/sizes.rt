//! How long rows are.

ghost use Rattle.std.specs.Prelude.{ℕ, ◌≤◌, List, All, length};
ghost use Rattle.rand_pcg.specs.Lcg.{Lcg};
ghost use Rattle.spec_made.specs.declared.units.InterUnit.{InterUnit};
ghost use Rattle.spec_made.specs.declared.units.Motion.{Motion};
ghost use Rattle.spec_made.specs.declared.units.PcmUnit.{PcmUnit};
ghost use Rattle.spec_made.specs.Draws.{pcm_units_of};
ghost use Rattle.spec_made.specs.InterRows.{inter_row};
ghost use Rattle.spec_made.specs.PcmRows.{pcm_row};

/// A row of a P or B picture has at most 3,100 bytes, whatever is drawn. One of an IDR picture has at most 3,200 where
/// no unit has more than the 384 samples that are drawn for each.
pub fn rows_are_short()
    ensures inter { (m : Motion) (units : List InterUnit) (r : ℕ) → length (inter_row m units r) ≤ 3100 }
    ensures pcm { (units : List PcmUnit) (r : ℕ) → All (λ (u : PcmUnit). length u.samples ≤ 384) units
        → length (pcm_row units r) ≤ 3200 }
    ensures drawn { (g : Lcg) (r : ℕ) → length (pcm_row (pcm_units_of g).0 r) ≤ 3200 }
{}
