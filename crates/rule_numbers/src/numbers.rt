//! The number by which a fault word tells a rule.

ghost use Rattle.std.specs.Prelude.{◌≡◌, ◌<◌};
ghost use Rattle.rule_numbers.specs.Rules.{breach_of, rule_number};

use hv_base::{Breach, FaultKind};

/// The number of a rule; 0 for a limit, which the data of slice segments don't meet.
pub fn rule_number(breach: Breach) -> u64
    ensures value { result ≡ rule_number breach }
    ensures small { result < 32 }
{
    match breach {
        Breach::Fault(kind) => fault_number(kind),
        Breach::Limit(_) => 0,
    }
}

/// The number of a broken rule.
#[tactic(auto, using(crate::proofs::Ruled::few_rules))]
fn fault_number(kind: FaultKind) -> u64
    ensures value { result ≡ rule_number (Breach.Fault kind) }
    ensures small { result < 32 }
{
    u64::from(kind.number())
}

/// The rule on the data of slice segments that has a number, if one has.
#[tactic(auto, unfolding(crate::specs::Rules::breach_of))]
pub fn breach_of(rule: u64) -> Option<Breach>
    ensures { result ≡ breach_of rule }
{
    let kind = match rule {
        20 => FaultKind::DataEnd,
        21 => FaultKind::SliceEnd,
        22 => FaultKind::SubsetEnd,
        23 => FaultKind::TrailingBits,
        24 => FaultKind::CoeffRange,
        25 => FaultKind::QpRange,
        26 => FaultKind::MvdRange,
        _ => return None,
    };
    Some(Breach::Fault(kind))
}
