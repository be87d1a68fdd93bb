//! The laws that bind the fields that are read to the bits that spell them.

ghost use Rattle.std.specs.Prelude.{◌≡◌, ℕ, ◌+◌, ◌-◌, ◌%◌, ◌^◌, ◌<◌, ◌≤◌, ℤ, nat_abs, Bool, true, List, [], ◌∷◌, ◌++◌};
ghost use Rattle.std.specs.Prelude.{length, take, Some, ◌↔◌};
ghost use Rattle.spec_bits.specs.Bits.{bits, digit, u_at, flag_at};
ghost use Rattle.spec_bits.specs.ExpGolomb.{ue_at, code_num_at, se_at};
ghost use Rattle.spec_bits.specs.Alignment.{aligned_at};
ghost use Rattle.spec_bits.specs.Spelling.{u_bits, leading_zero_bits_of, ue_bits, se_bits, aligned_bits};

/// The bits of a byte string are those that spell its bytes, one after another.
pub fn bytes_as_spelled()
    ensures none { bits [] ≡ [] }
    ensures more { (byte : ℕ) (bytes : List ℕ) → bits (byte ∷ bytes) ≡ u_bits 8 byte ++ bits bytes }
{}

/// u(n): what is read is spelled so (`found`), and what is spelled so is read (`only`).
pub fn unsigned_as_spelled()
    ensures found { (n value : ℕ) (bs rest : List Bool) → u_at n bs ≡ Some (value, rest)
        → (value < 2 ^ n) × (bs ≡ u_bits n value ++ rest) }
    ensures only { (n value : ℕ) (rest : List Bool) → value < 2 ^ n
        → u_at n (u_bits n value ++ rest) ≡ Some (value, rest) }
{}

/// A flag is read where u(1) is, as whether that is 1.
pub fn flag_is_one_bit()
    ensures { (flag : Bool) (bs rest : List Bool)
        → (flag_at bs ≡ Some (flag, rest)) ↔ (u_at 1 bs ≡ Some (digit flag, rest)) }
{}

/// ue(v): what is read is spelled so (`found`), and what is spelled so is read (`only`).
pub fn unsigned_exp_golomb_as_spelled()
    ensures found { (value : ℕ) (bs rest : List Bool) → ue_at bs ≡ Some (value, rest)
        → (value ≤ 4294967294) × (bs ≡ ue_bits value ++ rest) }
    ensures only { (value : ℕ) (rest : List Bool) → value ≤ 4294967294
        → ue_at (ue_bits value ++ rest) ≡ Some (value, rest) }
{}

/// se(v): what is read is spelled so (`found`), and what is spelled so is read (`only`).
pub fn signed_exp_golomb_as_spelled()
    ensures found { (value : ℤ) (bs rest : List Bool) → se_at bs ≡ Some (value, rest)
        → (nat_abs value ≤ 2147483647) × (bs ≡ se_bits value ++ rest) }
    ensures only { (value : ℤ) (rest : List Bool) → nat_abs value ≤ 2147483647
        → se_at (se_bits value ++ rest) ≡ Some (value, rest) }
{}

/// Byte alignment, before bits that fill whole bytes: what is read is spelled so (`found`), and what is spelled so is
/// read (`only`).
pub fn alignment_as_spelled()
    ensures found { (bs rest : List Bool) → aligned_at bs ≡ Some (true, rest)
        → (length rest % 8 ≡ 0) × ((before : ℕ) → (before + length bs) % 8 ≡ 0 → bs ≡ aligned_bits before ++ rest) }
    ensures only { (before : ℕ) (rest : List Bool) → length rest % 8 ≡ 0
        → aligned_at (aligned_bits before ++ rest) ≡ Some (true, rest) }
{}

/// Reading a code depends on the bits of the code alone.
pub fn code_alone_is_read()
    ensures { (value : ℕ) (bs rest other : List Bool) → ue_at bs ≡ Some (value, rest)
        → ue_at (take (length bs - length rest) bs ++ other) ≡ Some (value, other) }
{}

/// Reading the 1 and what follows as one number gives codeNum as H.265 9.2 writes it.
pub fn code_num_is_as_written()
    ensures { (bs : List Bool) → ue_at bs ≡ code_num_at bs }
{}

/// A code has as many zeros before its 1 as there are binary digits of value + 1 after their first.
pub fn code_has_few_zeros()
    ensures { (value : ℕ) → value ≤ 4294967294
        → (2 ^ leading_zero_bits_of value ≤ value + 1) × (value + 1 < 2 ^ (leading_zero_bits_of value + 1)) }
{}
