//! Blocks of one coefficient.

use residual_transform::inverse;

/// A scaled coefficient DC of 64 in 8x8 gives residuals of 1, and of -64 residuals of 0.
fn are_blocks_constant() -> bool {
    let mut d = [0; 64];
    let mut residuals = [7; 64];
    d[0] = 64;
    inverse(&d, 3, false, 8, &mut residuals);
    let are_ones = residuals == [1; 64];
    d[0] = -64;
    inverse(&d, 3, false, 8, &mut residuals);
    are_ones && residuals == [0; 64]
}

#[test]
fn constant_blocks(rt: HostRuntime) {
    assert!(rt; are_blocks_constant());
}
