//! The law that binds what is written to what is read.

ghost use Rattle.std.specs.Prelude.{◌≡◌, ℕ, Bool, false, List, [], ◌++◌, replicate};
ghost use Rattle.std.specs.List.{All};
ghost use Rattle.spec_bits.specs.Bits.{bits};
ghost use Rattle.hv_bits.specs.Fields.{Field, IsInRange, with_fields, ReadsAll};

/// Fields that were written one after another read back from the bytes, in the same order, up to the zeros that fill
/// the last byte.
pub fn fields_read_back()
    ensures { (fields : List Field) (bytes : List ℕ) (free : ℕ) → All IsInRange fields
        → bits bytes ≡ with_fields [] fields ++ replicate free false
        → ReadsAll fields (bits bytes) (replicate free false) }
{}
