//! The units of a picture that are known, beside reading it in order.

ghost use Rattle.std.specs.Prelude.{◌≡◌, ℕ, ◌<◌, []};
ghost use Rattle.header_types.specs.SequenceParameterSets.{size_in_ctbs};
ghost use Rattle.spec_known_units.specs.PlanTypes.{PicturePlan};
ghost use Rattle.spec_known_units.specs.SpecPictureTrees.{picture_read};
ghost use Rattle.spec_known_units.specs.InOrder.{IsAsInOrder};
ghost use Rattle.spec_known_units.specs.Known.{known_of, unit_read, units_known};

/// A unit is known exactly where reading it by the known units before it breaks no rule, and it is then what that
/// gives.
pub fn units_are_read_by_those_before()
    ensures { (p : PicturePlan) (address : ℕ) → address < size_in_ctbs p.sps
        → units_known p address ≡ known_of (unit_read p (units_known p) address) }
{}

/// Where a picture is read without a broken rule, all its units are known as they are read; else those before the unit
/// at which reading stops are, and that unit is the first that isn't, and breaks the same rule.
pub fn units_are_known_as_read()
    ensures { (p : PicturePlan) → IsAsInOrder p (picture_read p []) }
{}
