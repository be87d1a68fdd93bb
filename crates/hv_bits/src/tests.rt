use super::*;
use std::alloc::Global;

/// Whether fields of each kind are written as the standard's examples (9.2) spell them.
fn are_codes_written(alloc: Global) -> bool {
    let mut writer = BitWriter::new(alloc);
    let mut is_written = true;
    for value in [0, 1, 2, 3, 4, 5, 6, 7] {
        is_written = is_written && writer.ue(value).is_ok();
    }
    for value in [1, -1] {
        is_written = is_written && writer.se(value).is_ok();
    }
    is_written = is_written && writer.u(9, 0x1FF).is_ok() && writer.align().is_ok();
    is_written && writer.bytes() == [0xA6, 0x42, 0x98, 0xE2, 0x13, 0xFF, 0xC0].as_slice()
}

/// Whether they read back.
fn are_codes_read() -> bool {
    let mut reader = BitReader::new(&[0xA6, 0x42, 0x98, 0xE2, 0x13, 0xFF, 0xC0]);
    let mut is_read = true;
    for value in [0, 1, 2, 3, 4, 5, 6, 7] {
        is_read = is_read && reader.ue() == Some(value);
    }
    for value in [Some(1), Some(-1)] {
        is_read = is_read && reader.se() == value;
    }
    is_read && reader.u(9) == Some(0x1FF) && reader.aligned() == Some(true) && reader.left() == 0
}

#[test]
fn codes_are_those_of_the_standard(rt: HostRuntime) {
    assert!(rt; are_codes_written(rt.alloc()));
    assert!(rt; are_codes_read());
}
