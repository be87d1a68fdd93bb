//! Rows of planes, whose hashes another program gives for their bytes, and of messages that state hashes.

ghost use Rattle.std.specs.Prelude.{◌+◌, ◌≤◌, length};

use crate::messages::first_stated;
use crate::plane_md5;

/// The hash of the bytes 61 62 63.
const OF_LETTERS: [u8; 16] = [
    0x90, 0x01, 0x50, 0x98, 0x3C, 0xD2, 0x4F, 0xB0, 0xD6, 0x96, 0x3F, 0x7D, 0x28, 0xE1, 0x7F, 0x72,
];

/// The hash of the bytes 61 01 FF 03 00 02.
const OF_PAIRS: [u8; 16] = [
    0x3A, 0x92, 0xD1, 0x0C, 0x2A, 0x1D, 0x33, 0xD1, 0x3D, 0x54, 0x26, 0xFD, 0x15, 0x43, 0xCA, 0x7C,
];

/// The hash of 64 bytes 80.
const OF_GREY: [u8; 16] = [
    0xC0, 0xCE, 0x47, 0xF8, 0x89, 0x33, 0x63, 0x46, 0x97, 0xE2, 0xBD, 0xA7, 0x1B, 0x06, 0xAA, 0xAA,
];

#[test]
fn planes_have_their_hashes(rt: HostRuntime) {
    let grey = [0x80u16; 64];
    assert!(rt; plane_md5([0x61u16, 0x62, 0x63].iter().copied(), 8) == OF_LETTERS);
    assert!(rt; plane_md5([0x161u16, 0x3FF, 0x200].iter().copied(), 10) == OF_PAIRS);
    assert!(rt; plane_md5(grey.iter().copied(), 8) == OF_GREY);
}

/// Whether the first bytes of a unit state three digests of bytes 11, where a decoded picture hash of this hash_type
/// stands at a place behind others, and all other bytes are 11.
fn is_stated(front: &[u8], place: usize, hash_type: u8, len: usize) -> bool
    requires front { length front.now ≤ 8 }
    requires inside { place + 3 ≤ 320 }
    requires cut { len ≤ 320 }
{
    let mut bytes = [0x11; 320];
    bytes[..front.len()].copy_from_slice(front);
    bytes[place] = 132;
    bytes[place + 1] = 49;
    bytes[place + 2] = hash_type;
    first_stated(&bytes[..len]) == Some([[0x11; 16]; 3])
}

/// Whether hashes are stated behind messages of other types and hash types, with types and sizes of several bytes.
fn is_each_stated() -> bool {
    is_stated(&[], 0, 0, 51)
        && is_stated(&[5, 2, 9, 9], 4, 0, 55)
        && is_stated(&[132, 3, 0, 1, 2], 5, 0, 56)
        && is_stated(&[255, 132, 1, 9], 4, 0, 55)
        && is_stated(&[255, 255, 7, 0], 4, 0, 55)
        && is_stated(&[4, 255, 0], 258, 0, 309)
        && is_stated(&[132, 49, 1], 51, 0, 102)
}

/// Whether some are: by another hash type, by a message of another size, or behind one that runs past the end.
fn is_any_stated() -> bool {
    is_stated(&[], 0, 1, 320)
        || is_stated(&[132, 48, 0], 50, 1, 320)
        || is_stated(&[132, 50, 0], 52, 1, 320)
        || is_stated(&[4, 255, 1], 258, 0, 309)
        || is_stated(&[7, 200], 2, 0, 53)
        || is_stated(&[132, 255], 2, 0, 53)
}

/// Whether a message states hashes that is broken off.
fn is_broken_stated() -> bool {
    for len in 0..51 {
        if is_stated(&[], 0, 0, len) {
            return true;
        }
    }
    false
}

#[test]
fn the_first_whole_message_of_digests_states_them(rt: HostRuntime) {
    assert!(rt; is_each_stated());
    assert!(rt; !is_any_stated());
    assert!(rt; !is_broken_stated());
}
