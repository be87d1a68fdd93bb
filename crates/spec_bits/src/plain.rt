//! The definitions as a program: slow, and as they are written.

ghost use Rattle.std.specs.Prelude.{◌≡◌, ◌^◌, ◌<◌, ◌≤◌, ◌*◌, length, IfOk, IfSome};
ghost use Rattle.spec_bits.specs.Bits.{bits, bit_of, number_of, u_at, flag_at, Finds};

use std::alloc::{AllocError, Global};

/// The bits of bytes, each byte's greatest bit first.
#[tactic(auto, unfolding(crate::specs::Bits::bits))]
pub fn bits_of(alloc: Global, bytes: &[u8]) -> Result<Vec<bool>, AllocError>
    requires { length bytes.now < 2 ^ 60 }
    ensures { IfOk result (λ v. v.items ≡ bits bytes.now) }
{
    let mut found = Vec::new(alloc);
    for i in 0..8 * bytes.len() {
        found.push(bit(bytes[i / 8], 7 - (i % 8) as u32))?;
    }
    Ok(found)
}

fn bit(byte: u8, k: u32) -> bool
    requires { k < 8 }
    ensures { result ≡ bit_of byte k }
{
    (byte >> k) & 1 == 1
}

/// The number that the next `n` bits spell, and the bits after them: u(n) of H.265 7.2. `None` where there are fewer.
#[tactic(auto, unfolding(crate::specs::Bits::u_at))]
pub fn unsigned(n: u32, bits: &[bool]) -> Option<(u32, &[bool])>
    requires { n ≤ 32 }
    ensures value { Finds (λ found. (found.0, found.1.now)) result (u_at n bits.now) }
    ensures small { IfSome result (λ found. found.0 < 2 ^ n) }
{
    if bits.len() < n as usize {
        return None;
    }
    let (front, rest) = bits.split_at(n as usize);
    Some((number(front), rest))
}

#[tactic(auto, unfolding(crate::specs::Bits::number_of))]
fn number(bits: &[bool]) -> u32
    requires { length bits.now ≤ 32 }
    ensures value { result ≡ number_of bits.now }
    ensures small { result < 2 ^ length bits.now }
{
    let mut value = 0;
    for bit in bits {
        value = 2 * value + u32::from(*bit);
    }
    value
}

/// The next bit as a flag, and the bits after it: u(1) of H.265 7.2. `None` where no bit is left.
#[tactic(auto, unfolding(crate::specs::Bits::flag_at))]
pub fn flag(bits: &[bool]) -> Option<(bool, &[bool])>
    ensures { Finds (λ found. (found.0, found.1.now)) result (flag_at bits.now) }
{
    let (first, rest) = bits.split_first()?;
    Some((*first, rest))
}
