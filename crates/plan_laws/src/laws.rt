//! Laws of the definitions.

ghost use Rattle.std.specs.Prelude.{ℕ, All, Bool, List};
ghost use Rattle.spec_picture_plan.specs.Pictures.{beginning};
ghost use Rattle.spec_picture_plan.specs.Planned.{planned_from, planned_of};
ghost use Rattle.header_laws.specs.SpecNalUnits.{Told};
ghost use Rattle.plan_laws.specs.Plans.{IsPlan};

/// Each picture that is planned of a byte string (`stream`), or of units that were told (`units`), is in range: it has
/// some segment, the first begins at the first coding tree unit and each later one behind the one before, inside the
/// picture; the slice of a segment begins at it or at one before it; references are to pictures in the buffer; and with
/// entropy coding sync a segment has a substream for each row that it has a part of.
pub fn plans_are_in_range()
    ensures stream { (ended : Bool) (bytes : List ℕ) → All IsPlan (planned_of ended bytes).pictures }
    ensures units { (ended : Bool) (told : List Told) → All IsPlan (planned_from ended beginning told).pictures }
{}
