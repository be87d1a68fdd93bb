//! The coding tree units of a row.

ghost use Rattle.std.specs.Prelude.{◌≡◌, ◌<◌, ℕ, false, true, length};
ghost use Rattle.ctu_records.specs.declared.offset.ComponentOffset.TheVariants.{Off};
ghost use Rattle.sao_filter.specs.Row.{unit_in};

use ctu_records::ComponentOffset;
use spec_sample_adaptive_offset::OffsetUnit;

/// Whether a component of some units has offsets.
pub fn has_offset(units: &[OffsetUnit]) -> bool
    ensures none { result ≡ false → (k : ℕ) → k < length units.now → (unit_in units.now k).offset ≡ Off }
    ensures only { ((k : ℕ) → k < length units.now → (unit_in units.now k).offset ≡ Off) → result ≡ false }
{
    for k in 0..units.len() {
        if !is_off(units[k].offset) {
            return true;
        }
    }
    false
}

/// Whether a component has no offsets.
fn is_off(offset: ComponentOffset) -> bool
    ensures off { result ≡ true → offset ≡ Off }
    ensures only { offset ≡ Off → result ≡ true }
{
    match offset {
        ComponentOffset::Off => true,
        ComponentOffset::Band(..) | ComponentOffset::Edge(..) => false,
    }
}
