//! Numbers by size and sign.

ghost use Rattle.std.specs.Prelude.{◌≡◌, ◌≤◌};
ghost use Rattle.spec_slice_data.specs.Offset.{signed};

/// A small number by its size and whether it is negative.
#[tactic(auto, unfolding(spec_slice_data::specs::Offset::signed))]
pub fn signed(size: u32, negative: bool) -> i8
    requires { size ≤ 100 }
    ensures { result ≡ signed size negative }
{
    if negative { -(size as i8) } else { size as i8 }
}
