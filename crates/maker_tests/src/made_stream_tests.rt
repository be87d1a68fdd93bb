//! Made streams, whose hashes are those of another program's, or of streams that another decoder decodes or refuses.

use hv_base::Outcome;
use hv_io::MemSink;
use md5::{Digest, Md5};
use std::alloc::Global;
use stream_maker::{Bend, BendKind, make, make_bent, make_flat};

/// The hash of the stream of seed 1 with 8 pictures.
const OF_EIGHT: [u8; 16] = [
    0x19, 0xBD, 0x60, 0x49, 0xA7, 0x85, 0x85, 0x5E, 0x84, 0xC2, 0xA5, 0x84, 0x0D, 0xF5, 0xFD, 0xBE,
];

/// That of the same seed with two pictures that stand still.
const OF_STILL: [u8; 16] = [
    0x7F, 0x06, 0x98, 0xC4, 0x08, 0x58, 0x8B, 0xF3, 0x5D, 0xD5, 0x75, 0x1A, 0x1D, 0xCE, 0x1A, 0xD5,
];

/// That of the same where the second picture's first row says that it isn't its substream's end.
const OF_BENT: [u8; 16] = [
    0x1F, 0x18, 0x8C, 0x81, 0x65, 0xE3, 0xB3, 0x91, 0xE5, 0xC3, 0xA3, 0x5E, 0xF8, 0x8C, 0xBE, 0xF9,
];

fn is_made(outcome: Outcome, out: &MemSink, hash: [u8; 16]) -> bool {
    outcome == Outcome::Ok && Md5::digest(out.bytes()) == hash
}

fn are_made(alloc: Global) -> bool {
    let (Ok(mut out), Ok(mut still), Ok(mut bent)) = (
        MemSink::new(alloc, 1 << 20, 4096, &[]),
        MemSink::new(alloc, 1 << 20, 4096, &[]),
        MemSink::new(alloc, 1 << 20, 4096, &[]),
    ) else {
        return false;
    };
    let bend = Bend {
        picture: 1,
        row: 0,
        kind: BendKind::Subset,
    };
    is_made(make(alloc, 1, 8, &mut out), &out, OF_EIGHT)
        && is_made(make_flat(alloc, 1, 2, &mut still), &still, OF_STILL)
        && is_made(make_bent(alloc, 1, 2, &[bend], &mut bent), &bent, OF_BENT)
}

#[test]
fn streams_are_those_of_another_program(rt: HostRuntime) {
    assert!(rt; are_made(rt.alloc()));
}
