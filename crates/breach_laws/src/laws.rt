//! What follows from the definitions.

ghost use Rattle.std.specs.Prelude.{◌≡◌, ℕ, Err, Some};
ghost use Rattle.hv_base.specs.declared.breach.Breach.{Breach};
ghost use Rattle.spec_known_units.specs.PlanTypes.{PicturePlan};
ghost use Rattle.spec_slice_data.specs.Segment.{Between, unit_step};
ghost use Rattle.spec_known_units.specs.SpecPictureTrees.{SegmentAt};
ghost use Rattle.spec_known_units.specs.Known.{Entries, unit_read};
ghost use Rattle.rule_numbers.specs.Rules.{IsDataRule};

/// What stops the reading of a coding tree unit is one of seven rules, and no limit: of the next unit of a segment
/// (`step`), and of a unit of a picture by the units before it (`read`).
pub fn slice_data_break_few_rules()
    ensures step { (at : SegmentAt) (address : ℕ) (between : Between) (e : Breach)
        → unit_step at.syntax at.picture at.shape address between ≡ Err e → IsDataRule e }
    ensures read { (p : PicturePlan) (entries : Entries) (address : ℕ) (e : Breach)
        → unit_read p entries address ≡ Some (Err e) → IsDataRule e }
{}
