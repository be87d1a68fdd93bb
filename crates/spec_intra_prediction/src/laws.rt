//! What binds the tables of angles to their rule.

ghost use Rattle.std.specs.Prelude.{◌≡◌, ◌+◌, ◌-◌, ◌≤◌, ◌<◌, ℕ, pos, neg_ℤ};
ghost use Rattle.spec_intra_prediction.specs.AngleRule.{angle_step, rounded_inverse};
ghost use Rattle.spec_intra_prediction.specs.Angular.{angle, inverse_angle};

/// The angles grow by the same steps on both sides of horizontal (10) and vertical (26): positive towards the lower
/// left and the upper right, negative towards the diagonal (18) between them.
pub fn angles_are_mirrored()
    ensures below { (d : ℕ) → d ≤ 8 → angle (10 - d) ≡ pos (angle_step d) }
    ensures towards { (d : ℕ) → d ≤ 8 → angle (10 + d) ≡ neg_ℤ (pos (angle_step d)) }
    ensures away { (d : ℕ) → d ≤ 8 → angle (26 - d) ≡ neg_ℤ (pos (angle_step d)) }
    ensures right { (d : ℕ) → d ≤ 8 → angle (26 + d) ≡ pos (angle_step d) }
{}

/// An inverse angle is 256 * 32 divided by the angle, rounded to the nearest.
pub fn inverse_angles_are_quotients()
    ensures horizontal { (d : ℕ) → 0 < d → d ≤ 8 → inverse_angle (10 + d) ≡ rounded_inverse (angle_step d) }
    ensures vertical { (d : ℕ) → 0 < d → d ≤ 8 → inverse_angle (26 - d) ≡ rounded_inverse (angle_step d) }
{}
