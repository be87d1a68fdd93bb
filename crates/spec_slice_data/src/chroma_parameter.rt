//! The quantization parameter of chroma (8.6.1).

ghost use Rattle.std.specs.Prelude.{◌≡◌, ◌≤◌};
ghost use Rattle.spec_slice_data.specs.Quantization.{chroma_qp_of_index};

/// QpC by qPi from 0 on, where ChromaArrayType is 1 (8.6.1).
#[inline(always)]
#[tactic(auto, unfolding(crate::specs::Quantization::chroma_qp_of_index))]
pub fn chroma_qp_of_index(index: u32) -> u32
    ensures value { result ≡ chroma_qp_of_index index }
    ensures few { result ≤ index }
    ensures range { index ≤ 57 → result ≤ 51 }
{
    match index {
        0..=29 => index,
        30..=34 => index - 1,
        35..=36 => index - 2,
        37..=38 => index - 3,
        39..=40 => index - 4,
        41..=42 => index - 5,
        _ => index - 6,
    }
}
