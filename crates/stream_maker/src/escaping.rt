//! NAL units that are written.

ghost use Rattle.std.specs.Prelude.{◌≡◌, ◌*◌, ◌<◌, ◌++◌, length, OnOk};
ghost use Rattle.std.specs.Prelude.{[], ◌∷◌, IfOk, if◌then◌else◌};
ghost use Rattle.spec_nal_units.specs.Escaped.{escaped, needs_prevention};
ghost use Rattle.spec_made.specs.Written.{unit_behind_code};

use std::alloc::AllocError;

/// Appends a byte, and before it an emulation prevention byte where it needs one behind two others. Answers the
/// last but one byte behind it.
fn append_byte(out: &mut Vec<u8>, before: u8, last: u8, byte: u8) -> Result<u8, AllocError>
    ensures bytes { OnOk result (out.new.items ≡ out.old.items
        ++ (if needs_prevention before last byte then 3 ∷ byte ∷ [] else byte ∷ [])) }
    ensures behind { IfOk result (λ b. b ≡ (if needs_prevention before last byte then 3 else last)) }
{
    if before == 0 && last == 0 && byte <= 3 {
        out.push(3)?;
        out.push(byte)?;
        Ok(3)
    } else {
        out.push(byte)?;
        Ok(last)
    }
}

/// Appends bytes with emulation prevention bytes, behind two bytes.
pub fn append_escaped(
    out: &mut Vec<u8>,
    before: u8,
    last: u8,
    bytes: &[u8],
) -> Result<(), AllocError>
    ensures { OnOk result (out.new.items ≡ out.old.items ++ escaped before last bytes.now) }
{
    let mut first = before;
    let mut second = last;
    for k in 0..bytes.len() {
        let byte = bytes[k];
        first = append_byte(out, first, second, byte)?;
        second = byte;
    }
    if second == 0 {
        out.push(3)?;
    }
    Ok(())
}

/// Appends a unit of TemporalId 0 behind a start code.
#[tactic(auto, using(crate::proofs::Lists::appended))]
pub fn append_unit(out: &mut Vec<u8>, nal_type: u8, payload: &[u8]) -> Result<(), AllocError>
    requires { nal_type < 64 }
    ensures { OnOk result (out.new.items ≡ out.old.items ++ unit_behind_code nal_type payload.now) }
{
    let first = 2 * nal_type;
    out.extend_from_slice(&[0, 0, 0, 1, first, 1])?;
    append_escaped(out, first, 1, payload)?;
    Ok(())
}
