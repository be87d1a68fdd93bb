//! The pairs of combined bi-predictive merging candidates (Table 8-6).

/// l0CandIdx and l1CandIdx of each combIdx.
#[rattlefmt::skip]
pub static COMBINED_PAIRS: [(usize, usize); 12] = [
    (0, 1), (1, 0), (0, 2), (2, 0), (1, 2), (2, 1),
    (0, 3), (3, 0), (1, 3), (3, 1), (2, 3), (3, 2),
];
