//! The tables of arithmetic decoding (9.3.4.3.2), which the definition and the code both read.

ghost use Rattle.std.specs.Prelude.{◌≡◌, ℕ, ◌+◌, ◌*◌, ◌<◌, ◌≤◌, min, slice_index};
ghost use Rattle.spec_cabac.specs.Contexts.{lps_range_of, state_after_lps, state_after_mps};

/// rangeTabLps: a row for each pStateIdx from 0, in it a column for each qRangeIdx.
#[rattlefmt::skip]
pub static RANGE_TAB_LPS: [u8; 256] = [
    128, 176, 208, 240,  128, 167, 197, 227,  128, 158, 187, 216,  123, 150, 178, 205,
    116, 142, 169, 195,  111, 135, 160, 185,  105, 128, 152, 175,  100, 122, 144, 166,
     95, 116, 137, 158,   90, 110, 130, 150,   85, 104, 123, 142,   81,  99, 117, 135,
     77,  94, 111, 128,   73,  89, 105, 122,   69,  85, 100, 116,   66,  80,  95, 110,
     62,  76,  90, 104,   59,  72,  86,  99,   56,  69,  81,  94,   53,  65,  77,  89,
     51,  62,  73,  85,   48,  59,  69,  80,   46,  56,  66,  76,   43,  53,  63,  72,
     41,  50,  59,  69,   39,  48,  56,  65,   37,  45,  54,  62,   35,  43,  51,  59,
     33,  41,  48,  56,   32,  39,  46,  53,   30,  37,  43,  50,   29,  35,  41,  48,
     27,  33,  39,  45,   26,  31,  37,  43,   24,  30,  35,  41,   23,  28,  33,  39,
     22,  27,  32,  37,   21,  26,  30,  35,   20,  24,  29,  33,   19,  23,  27,  31,
     18,  22,  26,  30,   17,  21,  25,  28,   16,  20,  23,  27,   15,  19,  22,  25,
     14,  18,  21,  24,   14,  17,  20,  23,   13,  16,  19,  22,   12,  15,  18,  21,
     12,  14,  17,  20,   11,  14,  16,  19,   11,  13,  15,  18,   10,  12,  15,  17,
     10,  12,  14,  16,    9,  11,  13,  15,    9,  11,  12,  14,    8,  10,  12,  14,
      8,   9,  11,  13,    7,   9,  11,  12,    7,   9,  10,  12,    7,   8,  10,  11,
      6,   8,   9,  11,    6,   7,   9,  10,    6,   7,   8,   9,    2,   2,   2,   2,
];

/// transIdxLps: the state after a less probable symbol, for each pStateIdx from 0.
#[rattlefmt::skip]
pub static TRANS_IDX_LPS: [u8; 64] = [
     0,  0,  1,  2,  2,  4,  4,  5,  6,  7,  8,  9,  9, 11, 11, 12,
    13, 13, 15, 15, 16, 16, 18, 18, 19, 19, 21, 21, 22, 22, 23, 24,
    24, 25, 26, 26, 27, 27, 28, 29, 29, 30, 30, 30, 31, 32, 32, 33,
    33, 33, 34, 34, 35, 35, 35, 36, 36, 36, 37, 37, 37, 38, 38, 63,
];

/// transIdxMps: the state after a more probable symbol, for each pStateIdx from 0.
#[rattlefmt::skip]
pub static TRANS_IDX_MPS: [u8; 64] = [
     1,  2,  3,  4,  5,  6,  7,  8,  9, 10, 11, 12, 13, 14, 15, 16,
    17, 18, 19, 20, 21, 22, 23, 24, 25, 26, 27, 28, 29, 30, 31, 32,
    33, 34, 35, 36, 37, 38, 39, 40, 41, 42, 43, 44, 45, 46, 47, 48,
    49, 50, 51, 52, 53, 54, 55, 56, 57, 58, 59, 60, 61, 62, 62, 63,
];

/// The range of the less probable symbol in a state from 0 to 62, where the range is from 256 to 510.
#[inline(always)]
#[tactic(auto, unfolding(crate::specs::Contexts::lps_range_of))]
pub fn lps_range(state: u32, range: u32) -> u32
    requires state { state < 63 }
    requires low { 256 ≤ range }
    requires high { range ≤ 510 }
    ensures value { result ≡ lps_range_of state range }
    ensures least { 6 ≤ result }
    ensures greatest { result ≤ 240 }
{
    u32::from(RANGE_TAB_LPS[(4 * state + range / 64 % 4) as usize])
}

/// The state after a less probable symbol in a state from 0 to 62.
#[inline(always)]
#[tactic(auto, unfolding(crate::specs::Contexts::state_after_lps))]
pub fn next_state_lps(state: u32) -> u32
    requires { state < 63 }
    ensures value { result ≡ state_after_lps state }
    ensures small { result < 63 }
{
    u32::from(TRANS_IDX_LPS[state as usize])
}

/// The state after a more probable symbol in a state from 0 to 62.
#[inline(always)]
#[tactic(auto, unfolding(crate::specs::Contexts::state_after_mps))]
pub fn next_state_mps(state: u32) -> u32
    requires { state < 63 }
    ensures value { result ≡ state_after_mps state }
    ensures small { result < 63 }
{
    u32::from(TRANS_IDX_MPS[state as usize])
}

/// What the entries of the tables have in common: the range of the less probable symbol doesn't grow with the state and
/// doesn't fall with the range, a less probable symbol doesn't raise the state, and a more probable one raises it by
/// one, up to 62.
pub fn tables_keep_their_order()
    ensures falls { (state q : ℕ) → state < 62 → q < 4
        → slice_index RANGE_TAB_LPS (4 * (state + 1) + q) ≤ slice_index RANGE_TAB_LPS (4 * state + q) }
    ensures grows { (state q : ℕ) → state < 63 → q < 3
        → slice_index RANGE_TAB_LPS (4 * state + q) ≤ slice_index RANGE_TAB_LPS (4 * state + (q + 1)) }
    ensures lps { (state : ℕ) → state < 63 → slice_index TRANS_IDX_LPS state ≤ state }
    ensures mps { (state : ℕ) → state < 63 → slice_index TRANS_IDX_MPS state ≡ min (state + 1) 62 }
{}
