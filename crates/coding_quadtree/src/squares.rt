//! Squares of a coding tree unit.

ghost use Rattle.std.specs.Prelude.{◌≡◌, ◌^◌, ◌≤◌};

/// A square's side.
pub fn side(log2_size: u8) -> u32
    requires small { log2_size ≤ 4 }
    ensures value { result ≡ 2 ^ log2_size }
    ensures some { 1 ≤ result }
{
    1 << log2_size
}

/// How many places a square has.
pub fn area(log2_size: u8) -> u32
    requires small { log2_size ≤ 4 }
    ensures value { result ≡ 4 ^ log2_size }
    ensures small { result ≤ 256 }
{
    match log2_size {
        0 => 1,
        1 => 4,
        2 => 16,
        3 => 64,
        _ => 256,
    }
}
