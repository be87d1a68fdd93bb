//! Supplemental enhancement information messages, and the hashes that they state (7.3.5, D.2.19).

ghost use Rattle.std.specs.Prelude.{◌≡◌, ◌+◌, ◌*◌, ◌^◌, ◌<◌, ◌≤◌, IfSome, drop, length, option_map, take};
ghost use Rattle.spec_stated_hashes.specs.StatedHashes.{coded_after, message_at, stated_hashes};
ghost use Rattle.hash_sei.specs.Messages.{hashes_in, seen};

use spec_stated_hashes::Nal;

/// payloadType of a decoded picture hash (D.2.1).
const DECODED_PICTURE_HASH: usize = 132;

/// How many bytes such a message has whose hash_type is 0, MD5: hash_type and three digests (D.2.19).
const MD5_MESSAGE_SIZE: usize = 49;

/// A message, and the bytes behind it.
#[derive(Drop)]
pub(crate) struct Message<'a> {
    /// payloadType.
    kind: usize,
    /// Its payloadSize bytes.
    payload: &'a [u8],
    /// The bytes behind it.
    behind: &'a [u8],
}

/// The MD5 of the planes Y, Cb and Cr that a unit of suffix supplemental enhancement information states, by its first
/// message of payloadType 132, payloadSize 49 and hash_type 0 (7.3.5, D.2.19). None where it has no such message before
/// the first that runs past its end.
pub fn read_hash(nal: &Nal) -> Option<[[u8; 16]; 3]>
    ensures { result ≡ stated_hashes nal.now.rbsp }
{
    first_stated(nal.rbsp.as_slice())
}

/// The hashes that the first of these messages states which states some.
pub(crate) fn first_stated(bytes: &[u8]) -> Option<[[u8; 16]; 3]>
    requires { length bytes.now ≤ 2 ^ 26 }
    ensures { result ≡ stated_hashes bytes.now }
{
    let mut rest = bytes;
    for _ in 0..bytes.len() {
        let message = read_message(rest)?;
        if let Some(hashes) = stated(&message) {
            return Some(hashes);
        }
        rest = message.behind;
    }
    None
}

/// The message with which bytes begin.
#[tactic(auto, unfolding(spec_stated_hashes::specs::StatedHashes::message_at))]
fn read_message(bytes: &[u8]) -> Option<Message>
    requires { length bytes.now ≤ 2 ^ 26 }
    ensures value { option_map seen result ≡ message_at bytes.now }
    ensures shorter { IfSome result (λ m. length m.behind.now ≤ length bytes.now) }
{
    let (kind, behind) = read_coded(bytes)?;
    let (size, behind) = read_coded(behind)?;
    let (payload, behind) = behind.split_at_checked(size)?;
    Some(Message {
        kind,
        payload,
        behind,
    })
}

/// A payloadType or payloadSize, and the bytes behind it: bytes FF, each of which adds 255, and then the first other
/// byte.
fn read_coded(bytes: &[u8]) -> Option<(usize, &[u8])>
    requires { length bytes.now ≤ 2 ^ 26 }
    ensures value { option_map (λ p. (p.0, p.1.now)) result ≡ coded_after 0 bytes.now }
    ensures shorter { IfSome result (λ p. length p.1.now ≤ length bytes.now) }
{
    let mut number = 0;
    let mut rest = bytes;
    while let Some((byte, behind)) = rest.split_first() {
        if *byte != 255 {
            return Some((number + *byte as usize, behind));
        }
        number += 255;
        rest = behind;
    }
    None
}

/// The hashes that a message states, if it states some.
fn stated(message: &Message) -> Option<[[u8; 16]; 3]>
    ensures { result ≡ hashes_in (seen message.now) }
{
    let payload = message.payload;
    if message.kind != DECODED_PICTURE_HASH
        || payload.len() != MD5_MESSAGE_SIZE
        || payload[0] != 0
    {
        return None;
    }
    Some([digest(payload, 1), digest(payload, 17), digest(payload, 33)])
}

/// The digest that begins at a place.
fn digest(payload: &[u8], place: usize) -> [u8; 16]
    requires { place + 16 ≤ length payload.now }
    ensures { result ≡ take 16 (drop place payload.now) }
{
    *payload[place..].split_first_chunk::<16>().unwrap().0
}
