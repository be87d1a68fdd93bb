use super::*;
use std::alloc::Global;

/// Whether codes of the standard (9.2) are read one behind the other, up to the byte alignment.
fn are_codes_read(mut rest: &[bool]) -> bool {
    for value in [0_u32, 1, 2, 3, 4, 5, 6] {
        match unsigned_exp_golomb(rest) {
            Some((found, left)) if found == value => rest = left,
            _ => return false,
        }
    }
    byte_alignment(rest).is_some_and(|found| found.0 && found.1.is_empty())
}

/// Whether bits are read as numbers, codes and signed codes.
fn are_bits_read(alloc: Global) -> bool {
    let Ok(bits) = bits_of(alloc, &[0xA6, 0x42, 0x98, 0xF0]) else {
        return false;
    };
    let number = unsigned(9, &bits).map(|found| found.0);
    let signed = signed_exp_golomb(bits.get(1..).unwrap_or(&[])).map(|found| found.0);
    number == Some(0x14C) && signed == Some(1) && are_codes_read(&bits)
}

#[test]
fn bits_are_read_as_in_the_standard(rt: HostRuntime) {
    assert!(rt; are_bits_read(rt.alloc()));
}
