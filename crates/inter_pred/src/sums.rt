//! The filters over natural numbers, on a base that keeps each sum from falling below 0.

ghost use Rattle.std.specs.Prelude.{◌≡◌, ◌≤◌, ◌+◌, ◌*◌, ◌^◌, ℤ, pos, ◌+ℤ◌};
ghost use Rattle.spec_inter_prediction.specs.Taps.{luma_taps, chroma_taps};
ghost use Rattle.inter_pred.specs.Passes.{IsByte};

/// Eight samples by the luma filter at `Q` quarters.
#[inline(always)]
#[tactic(auto, unfolding(spec_inter_prediction::specs::Taps::luma_taps))]
pub fn luma_sum<const Q: u32>(
    base: u32,
    a: u32,
    b: u32,
    c: u32,
    d: u32,
    e: u32,
    f: u32,
    g: u32,
    h: u32,
) -> u32
    requires base { base ≤ 2 ^ 21 }
    requires small { (24 * a ≤ base) × (24 * b ≤ base) × (24 * c ≤ base) × (24 * d ≤ base) × (24 * e ≤ base)
        × (24 * f ≤ base) × (24 * g ≤ base) × (24 * h ≤ base) }
    ensures value { pos result
        ≡ pos base +ℤ luma_taps Q (pos a) (pos b) (pos c) (pos d) (pos e) (pos f) (pos g) (pos h) }
    ensures high { 24 * result ≤ 24 * base + 88 * base }
{
    match Q {
        0 => base + 64 * d,
        1 => base + 4 * b + 58 * d + 17 * e + g - a - 10 * c - 5 * f,
        2 => base + 4 * b + 40 * d + 40 * e + 4 * g - a - 11 * c - 11 * f - h,
        _ => base + b + 17 * d + 58 * e + 4 * g - 5 * c - 10 * f - h,
    }
}

/// Four samples by the chroma filter at `Q` eighths.
#[inline(always)]
#[tactic(auto, unfolding(spec_inter_prediction::specs::Taps::chroma_taps))]
pub fn chroma_sum<const Q: u32>(base: u32, a: u32, b: u32, c: u32, d: u32) -> u32
    requires base { base ≤ 2 ^ 21 }
    requires small { (24 * a ≤ base) × (24 * b ≤ base) × (24 * c ≤ base) × (24 * d ≤ base) }
    ensures value { pos result ≡ pos base +ℤ chroma_taps Q (pos a) (pos b) (pos c) (pos d) }
    ensures high { 24 * result ≤ 24 * base + 88 * base }
{
    match Q {
        0 => base + 64 * b,
        1 => base + 58 * b + 10 * c - 2 * a - 2 * d,
        2 => base + 54 * b + 16 * c - 4 * a - 2 * d,
        3 => base + 46 * b + 28 * c - 6 * a - 4 * d,
        4 => base + 36 * b + 36 * c - 4 * a - 4 * d,
        5 => base + 28 * b + 46 * c - 4 * a - 6 * d,
        6 => base + 16 * b + 54 * c - 2 * a - 4 * d,
        _ => base + 10 * b + 58 * c - 2 * a - 2 * d,
    }
}

/// Eight samples of 8 bits by the luma filter at `Q` quarters.
#[inline(always)]
#[tactic(auto, unfolding(spec_inter_prediction::specs::Taps::luma_taps))]
pub fn luma_sum_16<const Q: u32>(
    base: u16,
    a: u16,
    b: u16,
    c: u16,
    d: u16,
    e: u16,
    f: u16,
    g: u16,
    h: u16,
) -> u16
    requires base { (6144 ≤ base) × (base ≤ 16896) }
    requires bytes { IsByte a × IsByte b × IsByte c × IsByte d × IsByte e × IsByte f × IsByte g × IsByte h }
    ensures value { pos result
        ≡ pos base +ℤ luma_taps Q (pos a) (pos b) (pos c) (pos d) (pos e) (pos f) (pos g) (pos h) }
    ensures high { result ≤ base + 22440 }
{
    match Q {
        0 => base + 64 * d,
        1 => base + 4 * b + 58 * d + 17 * e + g - a - 10 * c - 5 * f,
        2 => base + 4 * b + 40 * d + 40 * e + 4 * g - a - 11 * c - 11 * f - h,
        _ => base + b + 17 * d + 58 * e + 4 * g - 5 * c - 10 * f - h,
    }
}

/// Four samples of 8 bits by the chroma filter at `Q` eighths.
#[inline(always)]
#[tactic(auto, unfolding(spec_inter_prediction::specs::Taps::chroma_taps))]
pub fn chroma_sum_16<const Q: u32>(base: u16, a: u16, b: u16, c: u16, d: u16) -> u16
    requires base { (6144 ≤ base) × (base ≤ 16896) }
    requires bytes { IsByte a × IsByte b × IsByte c × IsByte d }
    ensures value { pos result ≡ pos base +ℤ chroma_taps Q (pos a) (pos b) (pos c) (pos d) }
    ensures high { result ≤ base + 22440 }
{
    match Q {
        0 => base + 64 * b,
        1 => base + 58 * b + 10 * c - 2 * a - 2 * d,
        2 => base + 54 * b + 16 * c - 4 * a - 2 * d,
        3 => base + 46 * b + 28 * c - 6 * a - 4 * d,
        4 => base + 36 * b + 36 * c - 4 * a - 4 * d,
        5 => base + 28 * b + 46 * c - 4 * a - 6 * d,
        6 => base + 16 * b + 54 * c - 2 * a - 4 * d,
        _ => base + 10 * b + 58 * c - 2 * a - 2 * d,
    }
}
