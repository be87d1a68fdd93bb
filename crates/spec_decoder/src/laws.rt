//! Laws of the definitions.

ghost use Rattle.std.specs.Prelude.{◌≡◌, All, ℕ, Bool, false, List, [], ◌++◌};
ghost use Rattle.spec_picture_plan.specs.PlanTypes.{Between};
ghost use Rattle.spec_nal_units.specs.Judged.{Told};
ghost use Rattle.spec_picture_plan.specs.Planned.{planned_of};
ghost use Rattle.spec_picture_plan.specs.Steps.{step};
ghost use Rattle.spec_decoder.specs.Decoder.{Continues, HasAllUnits, decoded};
ghost use Rattle.spec_decoder.specs.Trail.{closed_first, closes, first_of, trail_of, unit_judged};

/// The pictures that a front of an input shows to be over begin those of the whole input, however it goes on; and where
/// a rule is broken or a limit met in the front, the whole input has the front's pictures and is stopped by the same.
pub fn open_prefixes_stay()
    ensures { (hash ended : Bool) (front rest : List ℕ)
        → Continues (decoded hash false front) (decoded hash ended (front ++ rest)) }
{}

/// Each picture of a byte string is decoded from all its coding tree units, or breaks a rule: none is without a slice
/// segment, and no unit of one is left out.
pub fn decoded_pictures_have_all_units()
    ensures { (ended : Bool) (bytes : List ℕ) → All HasAllUnits (planned_of ended bytes).pictures }
{}

/// What stops decoding, and what goes out before that, by one list: the trail of a stream, in which each thing that is
/// judged and each output stands in its place.
///
/// - `units`: a unit first closes the open picture, if it closes it, and is judged by itself behind that.
/// - `trail`: what is decoded is what goes out as these things happen one after the other: of a picture that is closed
///   the rules on the rows and the entry points of its slice segments, the rule on the buffer, what goes out before it,
///   its data, what goes out behind it; then the fields of the unit that closed it; and at the end of the input, behind
///   its closing, the last outputs. The first broken rule or limit in that order stops decoding.
pub fn streams_are_judged_in_order()
    ensures units { (s : Between) (t : Told) → step s t ≡ closed_first (closes s t) s (unit_judged t) }
    ensures trail { (hash ended : Bool) (bytes : List ℕ)
        → decoded hash ended bytes ≡ first_of hash (trail_of ended bytes) [] }
{}
