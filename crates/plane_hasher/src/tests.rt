//! Planes whose samples come in pieces, beside the same planes at once.

ghost use Rattle.std.specs.Prelude.{◌≤◌};

use crate::PlaneHasher;
use hash_sei::plane_md5;

/// The hash of samples of a bit depth that come in pieces of so many.
fn in_pieces(samples: &[u16], count: usize, depth: u32) -> [u8; 16]
    requires { 1 ≤ count }
{
    let mut hasher = PlaneHasher::new(depth);
    for piece in samples.chunks(count) {
        hasher.update(piece);
    }
    hasher.finalize()
}

#[test]
fn pieces_have_the_hash_of_their_plane(rt: HostRuntime) {
    let samples = [0x2A5u16; 2500];
    for depth in [8, 10] {
        let whole = plane_md5(samples.iter().copied(), depth);
        assert!(rt; in_pieces(&samples, 2500, depth) == whole);
        assert!(rt; in_pieces(&samples, 7, depth) == whole);
    }
}
