//! A reader of the fields of a structure.

ghost use Rattle.std.specs.Prelude.{◌≡◌, ◌^◌, ◌-◌, ◌<◌, ◌≤◌, ◌≤ℤ◌, neg_ℤ, pos, IfOk, true};
ghost use Rattle.hv_bits.specs.SpecBits.{bits};
ghost use Rattle.spec_formats.specs.Fields.{flag, ranged, se, se_within, u, ue, ue_to};
ghost use Rattle.header_fields.specs.Takes.{Takes};

use hv_base::{FieldRules, Refusal};
use hv_bits::BitReader;

/// The bits of a structure that aren't read yet, and the rules that its fields keep.
#[derive(Drop)]
pub struct FieldReader<'a> {
    /// The rules that a field breaks which ends too early, or is out of its range.
    pub rules: FieldRules,
    /// The bits that aren't read yet.
    pub bits: BitReader<'a>,
}

impl<'a> FieldReader<'a> {
    /// A reader of a structure with these rules from its first byte on.
    pub fn new(bytes: &'a [u8], rules: FieldRules) -> FieldReader<'a>
        ensures { result ≡ record { rules = rules; bits = bits bytes.now } }
    {
        FieldReader {
            rules,
            bits: BitReader::new(bytes),
        }
    }

    /// u(n): the number that the next `n` bits spell.
    #[tactic(auto, unfolding(spec_formats::specs::Fields::field_at))]
    pub fn u(&mut self, n: u32) -> Result<u32, Refusal>
        requires { n ≤ 32 }
        ensures value { Takes (λ x. x) result self.old self.new (u n) }
        ensures small { IfOk result (λ x. x < 2 ^ n) }
    {
        match self.bits.u(n) {
            Some(value) => Ok(value),
            None => Err(Refusal::Fault(self.rules.syntax)),
        }
    }

    /// u(1) as a flag.
    #[tactic(auto, unfolding(spec_formats::specs::Fields::field_at))]
    pub fn flag(&mut self) -> Result<bool, Refusal>
        ensures { Takes (λ x. x) result self.old self.new flag }
    {
        match self.bits.flag() {
            Some(value) => Ok(value),
            None => Err(Refusal::Fault(self.rules.syntax)),
        }
    }

    /// ue(v), at most 4294967294.
    #[tactic(auto, unfolding(spec_formats::specs::Fields::field_at))]
    pub fn ue(&mut self) -> Result<u32, Refusal>
        ensures value { Takes (λ x. x) result self.old self.new ue }
        ensures small { IfOk result (λ x. x < 2 ^ 32 - 1) }
    {
        match self.bits.ue() {
            Some(value) => Ok(value),
            None => Err(Refusal::Fault(self.rules.syntax)),
        }
    }

    /// se(v).
    #[tactic(auto, unfolding(spec_formats::specs::Fields::field_at))]
    pub fn se(&mut self) -> Result<i32, Refusal>
        ensures { Takes (λ x. x) result self.old self.new se }
    {
        match self.bits.se() {
            Some(value) => Ok(value),
            None => Err(Refusal::Fault(self.rules.syntax)),
        }
    }

    /// ue(v) of at most `greatest`.
    #[tactic(auto, unfolding(spec_formats::specs::Fields::field_at))]
    pub fn ue_to(&mut self, greatest: u32) -> Result<u32, Refusal>
        ensures value { Takes (λ x. x) result self.old self.new (ue_to greatest) }
        ensures in_range { IfOk result (λ x. x ≤ greatest) }
    {
        let value = self.ue()?;
        if value > greatest {
            return Err(Refusal::Fault(self.rules.range));
        }
        Ok(value)
    }

    /// se(v) from -`low` to `high`.
    #[tactic(auto, unfolding(spec_formats::specs::Fields::field_at))]
    pub fn se_within(&mut self, low: u16, high: u16) -> Result<i32, Refusal>
        ensures value { Takes (λ x. x) result self.old self.new (se_within low high) }
        ensures least { IfOk result (λ x. neg_ℤ (pos low) ≤ℤ x) }
        ensures greatest { IfOk result (λ x. x ≤ℤ pos high) }
    {
        let value = self.se()?;
        if value < -i32::from(low) || value > i32::from(high) {
            return Err(Refusal::Fault(self.rules.range));
        }
        Ok(value)
    }

    /// That fields are in range: their rule where `fact` is false.
    #[tactic(auto, unfolding(spec_formats::specs::Fields::field_at))]
    pub fn ranged(&mut self, fact: bool) -> Result<(), Refusal>
        ensures value { Takes (λ _. true) result self.old self.new (ranged fact) }
        ensures holds { IfOk result (λ _. fact ≡ true) }
    {
        if !fact {
            return Err(Refusal::Fault(self.rules.range));
        }
        Ok(())
    }
}
