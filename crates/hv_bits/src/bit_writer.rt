//! A writer of fields as bits.

ghost use Rattle.std.specs.Prelude.{◌≡◌, ℕ, ◌+◌, ◌-◌, ◌*◌, ◌/◌, ◌%◌, ◌^◌, ◌<◌, ◌≤◌, ℤ, negsuc, ◌≤ℤ◌, Bool, false, List};
ghost use Rattle.std.specs.Prelude.{[], ◌++◌, length, replicate, drop, IfOk, OnOk, OnErr};
ghost use Rattle.spec_bits.specs.Bits.{bits};
ghost use Rattle.spec_bits.specs.Spelling.{u_bits, ue_bits, code_of, se_bits, aligned_bits};
ghost use Rattle.hv_bits.specs.Written.{Holds};

use std::alloc::{AllocError, Global};
use std::marker::Model;

/// Bits that are written one field after another. Contracts see them as a list.
#[derive(Debug, Drop)]
pub struct BitWriter {
    bytes: Vec<u8>,
    /// How many bits of the last byte are free, below 8. They are zeros.
    free: u32,
}

impl Model for BitWriter {
    ghost use Rattle.std.specs.Prelude.{Bool, List};
    ghost use Rattle.hv_bits.specs.Written.{written, Holds};

    ghost Value = { List Bool };

    ghost view = { λ w. written w.bytes.items w.free };

    ghost invariant = { λ w. Holds w.bytes.items w.free (written w.bytes.items w.free) };
}

impl BitWriter {
    /// A writer that has written nothing.
    pub fn new(alloc: Global) -> BitWriter
        ensures { result ≡ [] }
    {
        BitWriter {
            bytes: Vec::new(alloc),
            free: 0,
        }
    }

    /// The bytes so far, the last one filled up with zeros.
    pub fn bytes(&self) -> &[u8]
        ensures value { bits result.now ≡ self.now ++ replicate ((8 - length self.now % 8) % 8) false }
        ensures count { length result.now ≡ (length self.now + 7) / 8 }
    {
        &self.bytes
    }

    /// Writes a number as `n` bits: u(n) of H.265 7.2. Where memory is wanting, nothing is written.
    pub fn u(&mut self, n: u32, v: u32) -> Result<(), AllocError>
        requires few { n ≤ 32 }
        requires small { v < 2 ^ n }
        ensures ok { OnOk result (self.new ≡ self.old ++ u_bits n v) }
        ensures err { OnErr result (self.new ≡ self.old) }
    {
        self.put(n, u64::from(v))
    }

    /// Writes a number as an Exp-Golomb code: ue(v) of H.265 9.2. Where memory is wanting, nothing is written.
    pub fn ue(&mut self, v: u32) -> Result<(), AllocError>
        requires { v ≤ 4294967294 }
        ensures ok { OnOk result (self.new ≡ self.old ++ ue_bits v) }
        ensures err { OnErr result (self.new ≡ self.old) }
    {
        let zeros = (v + 1).ilog2();
        self.put(2 * zeros + 1, u64::from(v + 1))
    }

    /// Writes a signed number as an Exp-Golomb code: se(v) of H.265 9.2.2. Where memory is wanting, nothing is written.
    #[tactic(auto, unfolding(spec_bits::specs::Spelling::se_bits))]
    pub fn se(&mut self, v: i32) -> Result<(), AllocError>
        requires { negsuc 2147483646 ≤ℤ v }
        ensures ok { OnOk result (self.new ≡ self.old ++ se_bits v) }
        ensures err { OnErr result (self.new ≡ self.old) }
    {
        self.ue(code_of(v))
    }

    /// Writes a 1 and zeros up to the end of a byte: byte_alignment() of H.265 7.3.2.12, a whole byte where the last
    /// one is full. Where memory is wanting, nothing is written.
    pub fn align(&mut self) -> Result<(), AllocError>
        ensures ok { OnOk result (self.new ≡ self.old ++ aligned_bits (length self.old)) }
        ensures err { OnErr result (self.new ≡ self.old) }
    {
        let count = self.left_of_byte();
        self.put(count, 1 << (count - 1))
    }

    /// How many bits are left of the byte that the next bit goes to.
    fn left_of_byte(&self) -> u32
        ensures { result ≡ 8 - length self.now % 8 }
    {
        if self.free == 0 { 8 } else { self.free }
    }

    fn put(&mut self, n: u32, v: u64) -> Result<(), AllocError>
        requires few { n ≤ 64 }
        requires small { v < 2 ^ n }
        ensures ok { OnOk result (self.new ≡ self.old ++ u_bits n v) }
        ensures err { OnErr result (self.new ≡ self.old) }
    {
        self.free = append(&mut self.bytes, self.free, n, v)?;
        Ok(())
    }
}

/// Appends the `n` digits of `v` to bytes whose last `free` bits are free, and answers how many are free then.
fn append(bytes: &mut Vec<u8>, free: u32, n: u32, v: u64) -> Result<u32, AllocError>
    requires few { n ≤ 64 }
    requires small { v < 2 ^ n }
    requires free { free < 8 }
    requires inside { free ≤ 8 * length bytes.old.items }
    ensures ok { (bs : List Bool) → Holds bytes.old.items free bs
        → IfOk result (λ left. Holds bytes.new.items left (bs ++ u_bits n v)) }
    ensures err { OnErr result (bytes.new.items ≡ bytes.old.items) }
{
    let used = (8 - free) % 8;
    let count = (used + n).div_ceil(8);
    if free == 0 {
        let all = joined(0, used, n, v);
        bytes.extend_from_slice(&all[7..7 + count as usize])?;
    } else {
        let last = bytes.len() - 1;
        let all = joined(bytes[last], used, n, v);
        bytes.extend_from_slice(&all[8..7 + count as usize])?;
        bytes[last] = all[7];
    }
    Ok(8 * count - used - n)
}

/// From byte 7 on: the `used` greatest bits of a byte whose others are zeros, the `n` digits of `v`, and zeros.
fn joined(begun: u8, used: u32, n: u32, v: u64) -> [u8; 16]
    requires used { used < 8 }
    requires few { n ≤ 64 }
    requires small { v < 2 ^ n }
    ensures { (bs : List Bool) → length bs ≡ used → u_bits 8 begun ≡ bs ++ replicate (8 - used) false
        → bits (drop 7 result) ≡ bs ++ (u_bits n v ++ replicate (72 - used - n) false) }
{
    let number = (u128::from(begun) << 64) + (u128::from(v) << (72 - used - n));
    number.to_be_bytes()
}

/// The code number of a signed value (H.265 9.2.2).
#[tactic(auto, unfolding(spec_bits::specs::Spelling::code_of))]
fn code_of(v: i32) -> u32
    requires { negsuc 2147483646 ≤ℤ v }
    ensures value { result ≡ code_of v }
    ensures small { result ≤ 4294967294 }
{
    let size = 2 * v.unsigned_abs();
    if v > 0 { size - 1 } else { size }
}
