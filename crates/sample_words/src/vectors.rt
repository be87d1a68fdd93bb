//! The motion vectors of a place of 4x4 luma samples in a word.

ghost use Rattle.std.specs.Prelude.{◌≡◌, ◌+◌, ◌*◌, ◌<◌};
ghost use Rattle.std.specs.Int.{w16, cast_unsigned};
ghost use Rattle.sample_words.specs.Values.{mv_in, mv_of, motion_in, vector_in, vectors_word};

use spec_motion::{Motion, Mv, Vector};

/// No vector.
const ZERO: Mv = Mv { x: 0, y: 0 };

/// Both vectors of a place, that of list 0 in the lower half, each column before row; zeros where a list has none.
pub fn pack_vectors(motion: &Motion) -> u64
    ensures { result ≡ vectors_word motion.now }
{
    mv_bits(mv_of(motion.list_0)) + 4_294_967_296 * mv_bits(mv_of(motion.list_1))
}

/// The vector of a list, or zeros.
fn mv_of(vector: Option<Vector>) -> Mv
    ensures { result ≡ mv_of vector }
{
    match vector {
        Some(vector) => vector.mv,
        None => ZERO,
    }
}

/// A vector in 32 bits.
fn mv_bits(mv: Mv) -> u64
    ensures value { result ≡ cast_unsigned w16 mv.x + 65536 * cast_unsigned w16 mv.y }
    ensures small { result < 4294967296 }
{
    u64::from(mv.x.cast_unsigned()) + 65_536 * u64::from(mv.y.cast_unsigned())
}

/// The motion that both words of a place have, that of its vectors and that of its modes.
pub fn unpack_motion(vectors: u64, modes: u64) -> Motion
    ensures { result ≡ motion_in vectors modes }
{
    Motion {
        list_0: vector_in((modes / 8_388_608 % 32) as u8, lower_mv(vectors)),
        list_1: vector_in((modes / 268_435_456 % 32) as u8, upper_mv(vectors)),
    }
}

/// A vector, where the code of its list says that there is one.
fn vector_in(code: u8, mv: Mv) -> Option<Vector>
    ensures { result ≡ vector_in code mv }
{
    if code % 2 == 0 {
        return None;
    }
    Some(Vector {
        mv,
        ref_idx: code / 2,
    })
}

/// The vector in the lower half of a word.
fn lower_mv(word: u64) -> Mv
    ensures { result ≡ mv_in 0 word }
{
    Mv {
        x: ((word % 65_536) as u16).cast_signed(),
        y: ((word / 65_536 % 65_536) as u16).cast_signed(),
    }
}

/// The vector in the upper half.
fn upper_mv(word: u64) -> Mv
    ensures { result ≡ mv_in 32 word }
{
    Mv {
        x: ((word / 4_294_967_296 % 65_536) as u16).cast_signed(),
        y: ((word / 281_474_976_710_656 % 65_536) as u16).cast_signed(),
    }
}
