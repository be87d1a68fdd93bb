//! The planes of a picture against the hashes that are stated for them (D.3.19).

ghost use Rattle.std.specs.Prelude.{◌≡◌, ◌<◌};
ghost use Rattle.header_types.specs.SequenceParameterSets.{IsPictureFormat};
ghost use Rattle.row_jobs.specs.PictureBuild.{decoded_of};
ghost use Rattle.spec_decoder.specs.Hashes.{bit_depth, computed_hash, first_mismatch, mismatch_by, mismatch_of};
ghost use Rattle.decoder.specs.Digests.{AreComputed};

use hash_sei::digest_of;
use header_types::PictureFormat;
use hv_base::{Digest, Fault, FaultKind};
use picture_buffer::Picture;
use plan_types::StatedHash;
use plane_hasher::PlaneHasher;

/// The digests of a picture's planes.
#[derive(Clone, Copy)]
pub(crate) struct PlaneDigests {
    pub(crate) luma: Digest,
    pub(crate) cb: Digest,
    pub(crate) cr: Digest,
}

/// The first plane of Y, Cb and Cr that hasn't the hash that a unit states for it, of the first such unit.
pub(crate) fn first_mismatch(picture: &Picture, stated: &[StatedHash]) -> Option<Fault>
    ensures { result ≡ first_mismatch (decoded_of picture.now) stated.now }
{
    if stated.is_empty() {
        return None;
    }
    let computed = digests_of(picture);
    first_that_differs(picture, &computed, stated)
}

/// The same, by the digests of the planes.
fn first_that_differs(
    picture: &Picture,
    computed: &PlaneDigests,
    stated: &[StatedHash],
) -> Option<Fault>
    requires { AreComputed (decoded_of picture.now) computed.now }
    ensures { result ≡ first_mismatch (decoded_of picture.now) stated.now }
{
    for hash in stated {
        match mismatch_by(picture, computed, hash) {
            Some(fault) => return Some(fault),
            None => {}
        }
    }
    None
}

/// The first plane that hasn't the hash that a unit states for it.
fn mismatch_by(picture: &Picture, computed: &PlaneDigests, stated: &StatedHash) -> Option<Fault>
    requires { AreComputed (decoded_of picture.now) computed.now }
    ensures { result ≡ mismatch_by (decoded_of picture.now) stated.now }
{
    let nal = stated.nal;
    match mismatch_of(nal, 0, stated.luma, computed.luma) {
        Some(fault) => Some(fault),
        None => match mismatch_of(nal, 1, stated.cb, computed.cb) {
            Some(fault) => Some(fault),
            None => mismatch_of(nal, 2, stated.cr, computed.cr),
        },
    }
}

/// What a unit states of a plane, where that isn't what was computed.
fn mismatch_of(nal: u32, plane: u32, stated: Digest, computed: Digest) -> Option<Fault>
    ensures { result ≡ mismatch_of nal plane stated computed }
{
    if stated.first == computed.first && stated.last == computed.last {
        return None;
    }
    Some(Fault {
        kind: FaultKind::HashMismatch {
            plane,
            stated,
            computed,
        },
        nal,
        ctu: None,
    })
}

/// The digests of a picture's planes.
fn digests_of(picture: &Picture) -> PlaneDigests
    ensures { AreComputed (decoded_of picture.now) result }
{
    PlaneDigests {
        luma: plane_digest(picture, 0),
        cb: plane_digest(picture, 1),
        cr: plane_digest(picture, 2),
    }
}

/// The digest of a plane, over all its rows.
fn plane_digest(picture: &Picture, c: usize) -> Digest
    requires { c < 3 }
    ensures { result ≡ computed_hash (decoded_of picture.now) c }
{
    let planes = picture.planes();
    let mut hasher = PlaneHasher::new(bit_depth(picture.format(), c));
    for y in 0..planes.height(c) {
        hasher.update(planes.row(c, y));
    }
    digest_of(&hasher.finalize())
}

/// The bit depth of a component.
fn bit_depth(format: &PictureFormat, c: usize) -> u32
    requires { IsPictureFormat format.now }
    ensures { result ≡ bit_depth format.now c }
{
    if c == 0 {
        8 + format.bit_depth_luma_minus8
    } else {
        8 + format.bit_depth_chroma_minus8
    }
}
