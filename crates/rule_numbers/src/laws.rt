//! What follows from the definitions.

ghost use Rattle.std.specs.Prelude.{◌≡◌, ◌<◌, ℕ, Some};
ghost use Rattle.hv_base.specs.declared.breach.Breach.{Breach};
ghost use Rattle.rule_numbers.specs.Rules.{IsDataRule, IsNumbered, breach_of, rule_number};

/// Each rule has a number below 32 (`small`), and each on the data of slice segments is that of its number (`found`);
/// no other is told by a number (`only`).
pub fn rules_have_numbers()
    ensures small { (b : Breach) → rule_number b < 32 }
    ensures found { (b : Breach) → IsDataRule b → breach_of (rule_number b) ≡ Some b }
    ensures only { (r : ℕ) (b : Breach) → breach_of r ≡ Some b → IsNumbered r b }
{}
