//! A unit's header, and what a unit is read as (7.3.1.2).

ghost use Rattle.std.specs.Prelude.{◌≡◌, ◌<◌, ◌≤◌, ◌^◌, [], ◌∷◌, false, length, IfOk};
ghost use Rattle.spec_nal_units.specs.Judged as spec;
ghost use Rattle.nal_stream.specs.Answers.{told_by};

use crate::answer::Next;
use crate::payload::{has_reserved, payload_of, removed_of};
use hv_base::{Bytes, Fault, FaultKind, Limit, LimitKind, Nal};
use std::alloc::{AllocError, Global};

/// The greatest size of a unit in bytes.
const MAX_SIZE: usize = 67_108_864;

/// A unit judged by its size, then its bytes, then its header; read where it breaks no rule.
#[tactic(auto, unfolding(spec_nal_units::specs::Judged::judged, spec_nal_units::specs::Judged::is_too_large))]
pub fn judge(alloc: Global, index: u32, unit: &[u8]) -> Result<Next, AllocError>
    ensures { IfOk result (λ next. told_by next ≡ spec.judged index unit.now ∷ []) }
{
    if unit.len() > MAX_SIZE {
        return Ok(Next::Limit(Limit {
            kind: LimitKind::NalSize,
            nal: index,
        }));
    }
    if has_reserved(unit) {
        return Ok(Next::Fault(broken(FaultKind::NalBytes, index)));
    }
    if has_bad_header(unit) {
        return Ok(Next::Fault(broken(FaultKind::NalHeader, index)));
    }
    Ok(Next::Unit(read_unit(alloc, index, unit)?))
}

/// That a unit breaks a rule.
pub fn broken(kind: FaultKind, index: u32) -> Fault
    ensures { spec.Broken result ≡ spec.broken kind index }
{
    Fault {
        kind,
        nal: index,
        ctu: None,
    }
}

/// Whether a unit's header is short or has a forbidden field.
fn has_bad_header(unit: &[u8]) -> bool
    ensures { result ≡ spec.has_bad_header unit.now }
{
    unit.len() < 2 || (unit[0] >= 128 || unit[1] % 8 == 0)
}

fn read_unit(alloc: Global, index: u32, unit: &[u8]) -> Result<Nal, AllocError>
    requires size { length unit.now ≤ 2 ^ 26 }
    requires header { spec.has_bad_header unit.now ≡ false }
    ensures { IfOk result (λ nal. spec.unit_of nal ≡ spec.read_unit index unit.now) }
{
    let payload = payload_of(alloc, unit)?;
    let removed = removed_of(alloc, unit)?;
    Ok(Nal {
        index,
        nal_type: unit[0] / 2 % 64,
        layer: unit[0] % 2 * 32 + unit[1] / 8,
        temporal_id: unit[1] % 8 - 1,
        rbsp: Bytes::new(payload),
        removed,
    })
}
