//! Bits of a byte string by their places.

ghost use Rattle.std.specs.Prelude.{◌≡◌, ◌+◌, ◌*◌, ◌/◌, ◌%◌, ◌-◌, ◌^◌, ◌<◌, ◌≤◌, ◌∷◌, length, take, drop, not};
ghost use Rattle.std.specs.Prelude.{slice_index};
ghost use Rattle.std.specs.List.{list_all};
ghost use Rattle.spec_bits.specs.Bits.{bits, bit_of, number_of};
ghost use Rattle.spec_cabac.specs.Engine.{is_stop};

/// The number that `n` bits from a place on spell, the greatest digit first.
#[inline(always)]
#[tactic(auto, unfolding(spec_bits::specs::Bits::number_of))]
pub fn number_at(bytes: &[u8], at: u64, n: u32) -> u32
    requires few { n ≤ 32 }
    requires inside { at + n ≤ 8 * length bytes.now }
    requires size { length bytes.now < 2 ^ 60 }
    ensures value { result ≡ number_of (take n (drop at (bits bytes.now))) }
    ensures small { result < 2 ^ n }
{
    let mut value = 0;
    for i in 0..n {
        value = 2 * value + u32::from(bit_at(bytes, at + u64::from(i)));
    }
    value
}

/// The number that the bits of a byte spell.
#[inline(always)]
pub fn byte_at(bytes: &[u8], place: usize) -> u8
    requires inside { place < length bytes.now }
    ensures { result ≡ number_of (take 8 (drop (8 * place) (bits bytes.now))) }
{
    bytes[place]
}

/// The bit at a place.
#[inline(always)]
pub fn bit_at(bytes: &[u8], at: u64) -> bool
    requires inside { at < 8 * length bytes.now }
    ensures value { result ≡ bit_of (slice_index bytes.now (at / 8)) (7 - at % 8) }
    ensures next { drop at (bits bytes.now) ≡ result ∷ drop (at + 1) (bits bytes.now) }
{
    (bytes[(at / 8) as usize] >> (7 - at % 8)) & 1 == 1
}

/// Whether the bits from a place on are a 1 and zero bits.
pub fn is_stop(bytes: &[u8], at: u64) -> bool
    requires { length bytes.now < 2 ^ 60 }
    ensures { result ≡ is_stop (drop at (bits bytes.now)) }
{
    if at >= 8 * bytes.len() as u64 {
        return false;
    }
    bit_at(bytes, at) && are_zero(bytes, at + 1)
}

/// Whether the bits from a place on are zero.
fn are_zero(bytes: &[u8], at: u64) -> bool
    requires size { length bytes.now < 2 ^ 60 }
    requires inside { at ≤ 8 * length bytes.now }
    ensures { result ≡ list_all not (drop at (bits bytes.now)) }
{
    for i in at..8 * bytes.len() as u64 {
        if bit_at(bytes, i) {
            return false;
        }
    }
    true
}
