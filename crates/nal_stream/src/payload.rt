//! The payload of a unit, without its emulation prevention bytes (7.3.1.1).

ghost use Rattle.std.specs.Prelude.{◌≡◌, ◌<◌, ◌≤◌, ◌^◌, length, IfOk};
ghost use Rattle.spec_nal_units.specs.Judged as spec;

use hv_base::BytePlaces;
use std::alloc::{AllocError, Global};

/// Whether 00 00 and then this byte stand in a unit, that byte at place `i`.
fn stands_at(byte: u8, unit: &[u8], i: usize) -> bool
    requires { i < length unit.now }
    ensures { result ≡ spec.stands_at byte unit.now i }
{
    i >= 2 && unit[i - 2] == 0 && unit[i - 1] == 0 && unit[i] == byte
}

/// Whether 00 00 02 stands in a unit.
#[tactic(auto, unfolding(spec_nal_units::specs::Judged::has_reserved))]
pub fn has_reserved(unit: &[u8]) -> bool
    ensures { result ≡ spec.has_reserved unit.now }
{
    for i in 0..unit.len() {
        if stands_at(2, unit, i) {
            return true;
        }
    }
    false
}

/// The bytes behind a unit's header, without its emulation prevention bytes.
#[tactic(auto, unfolding(spec_nal_units::specs::Judged::payload_of))]
pub fn payload_of(alloc: Global, unit: &[u8]) -> Result<Vec<u8>, AllocError>
    ensures { IfOk result (λ v. v.items ≡ spec.payload_of unit.now) }
{
    let mut payload = Vec::with_capacity(alloc, unit.len())?;
    for i in 0..unit.len() {
        if i >= 2 && !stands_at(3, unit, i) {
            payload.push(unit[i])?;
        }
    }
    Ok(payload)
}

/// Where a unit's emulation prevention bytes stand.
#[tactic(auto, unfolding(spec_nal_units::specs::Judged::removed_of))]
pub fn removed_of(alloc: Global, unit: &[u8]) -> Result<BytePlaces, AllocError>
    requires { length unit.now ≤ 2 ^ 26 }
    ensures { IfOk result (λ p. p ≡ spec.removed_of unit.now) }
{
    let mut removed = Vec::new(alloc);
    for i in 0..unit.len() {
        if stands_at(3, unit, i) {
            removed.push(i as u32)?;
        }
    }
    Ok(BytePlaces::new(removed))
}
