//! Digests as two numbers.

ghost use Rattle.std.specs.Prelude.{◌≡◌};
ghost use Rattle.spec_stated_hashes.specs.Digests.{digest_of};

use spec_stated_hashes::Digest;

/// The digest of these bytes.
#[tactic(auto, unfolding(spec_stated_hashes::specs::Digests::digest_of))]
pub fn digest_of(bytes: &[u8; 16]) -> Digest
    ensures { result ≡ digest_of bytes.now }
{
    let b = *bytes;
    Digest {
        first: u64::from_be_bytes([b[0], b[1], b[2], b[3], b[4], b[5], b[6], b[7]]),
        last: u64::from_be_bytes([b[8], b[9], b[10], b[11], b[12], b[13], b[14], b[15]]),
    }
}
