//! What follows from the definitions.

ghost use Rattle.std.specs.Prelude.{◌≡◌, ◌<◌, ◌≤◌, ◌+◌, ◌-◌, ◌*◌, ◌^◌, ℕ, ℤ, pos, ◌+ℤ◌, ◌-ℤ◌, ◌*ℤ◌, ◌≤ℤ◌};
ghost use Rattle.std.specs.Int.{int_shr};
ghost use Rattle.block_geometry.specs.Rows.{tap_line};
ghost use Rattle.spec_inter_prediction.specs.Taps.{luma_taps, luma_filter, chroma_taps, chroma_filter, IsDepth};
ghost use Rattle.spec_inter_prediction.specs.Luma.{quarter, luma_first, luma_sample};
ghost use Rattle.spec_inter_prediction.specs.Chroma.{eighth, chroma_first, chroma_sample};

/// A filter at a fraction is the one at the fraction that is left to the next sample, mirrored.
pub fn filters_are_mirrored()
    ensures luma { (q : ℕ) (a b c d e f g h : ℤ) → 0 < q → q < 4
        → luma_taps (4 - q) a b c d e f g h ≡ luma_taps q h g f e d c b a }
    ensures chroma { (q : ℕ) (a b c d : ℤ) → 0 < q → q < 8 → chroma_taps (8 - q) a b c d ≡ chroma_taps q d c b a }
{}

/// Equal samples stay what they are, 64 times, at every fraction.
pub fn filters_keep_equal_samples()
    ensures luma { (q : ℕ) (a : ℤ) → q < 4 → luma_taps q a a a a a a a a ≡ pos 64 *ℤ a }
    ensures chroma { (q : ℕ) (a : ℤ) → q < 8 → chroma_taps q a a a a ≡ pos 64 *ℤ a }
{}

/// A luma sample depends on the lines that the vertical taps meet: three before its own, shifted by the vector, to four
/// behind it.
pub fn luma_samples_depend_on_their_lines()
    ensures sample { (depth : ℕ) (reference other : ℤ → ℤ → ℕ) (across down : ℤ) (x y : ℕ)
        → ((column : ℤ) (tap : ℕ) → tap < 8
        → reference column (tap_line y down tap) ≡ other column (tap_line y down tap))
        → luma_sample depth reference across down x y ≡ luma_sample depth other across down x y }
    ensures block { (depth : ℕ) (reference other : ℤ → ℤ → ℕ) (across down : ℤ) (y0 h x y : ℕ)
        → ((column line : ℤ) → (pos y0 +ℤ int_shr down 2 -ℤ pos 3) ≤ℤ line
        → line ≤ℤ (pos (y0 + h) +ℤ int_shr down 2 +ℤ pos 3) → reference column line ≡ other column line)
        → y0 ≤ y → y < y0 + h
        → luma_sample depth reference across down x y ≡ luma_sample depth other across down x y }
{}
