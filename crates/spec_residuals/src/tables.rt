//! A table of 9.3.4.2.5.

/// ctxIdxMap: sigCtx of each place of a 4x4 block but the last, row by row; the last place has no flag.
#[rattlefmt::skip]
pub static CTX_IDX_MAP: [u8; 16] = [
    0, 1, 4, 5,
    2, 3, 4, 5,
    6, 6, 8, 8,
    7, 7, 8, 8,
];
