//! What follows from the definitions.

ghost use Rattle.std.specs.Prelude.{◌≡◌, ◌<◌, ◌≤◌, ◌+◌, ◌*◌, ◌/◌, ◌%◌, ℕ};
ghost use Rattle.spec_deblocking.specs.declared.place.Place.{Place};
ghost use Rattle.spec_deblocking.specs.declared.place.Plane.{Plane};
ghost use Rattle.spec_deblocking.specs.declared.place.Plane.TheVariants.{Luma};
ghost use Rattle.spec_deblocking.specs.Places.{side};
ghost use Rattle.spec_deblocking.specs.Thresholds.{beta, tc};
ghost use Rattle.spec_deblocking.specs.Planes.{filtered_line, vertical, horizontal, deblocked};
ghost use Rattle.spec_deblocking.specs.Step.{step_place, step_sample, smoothed};

/// A row of lines of a plane, which begins at a multiple of eight, depends on its own lines before vertical edges are
/// filtered, and before horizontal edges are on four lines on each side of it too, where the plane has them. Of places
/// it depends on those of its own lines, and for horizontal edges on those beside them too.
pub fn rows_read_their_lines_and_four_beside()
    ensures vertical { (plane : Plane) (depth width : ℕ) (places others : ℕ → ℕ → Place) (samples other : ℕ → ℕ → ℕ)
        (top lines x y : ℕ)
        → width % 4 ≡ 0 → top % 8 ≡ 0 → lines % 4 ≡ 0 → x < width → top ≤ y → y < top + lines
        → ((i s : ℕ) → top ≤ side plane * s → side plane * s < top + lines → places i s ≡ others i s)
        → ((i j : ℕ) → i < width → top ≤ j → j < top + lines → samples i j ≡ other i j)
        → vertical plane depth width places samples x y ≡ vertical plane depth width others other x y }
    ensures horizontal { (plane : Plane) (depth width height : ℕ) (places others : ℕ → ℕ → Place)
        (samples other : ℕ → ℕ → ℕ) (top lines x y : ℕ)
        → width % 4 ≡ 0 → height % 4 ≡ 0 → top % 8 ≡ 0 → lines % 4 ≡ 0 → x < width → y < height → top ≤ y
        → y < top + lines
        → ((i s : ℕ) → top ≤ side plane * s + side plane → side plane * s ≤ top + lines → places i s ≡ others i s)
        → ((i j : ℕ) → i < width → j < height → top ≤ j + 4 → j < top + lines + 4 → samples i j ≡ other i j)
        → horizontal plane depth height places samples x y ≡ horizontal plane depth height others other x y }
{}

/// Where no edge has a strength every sample stays.
pub fn no_strength_changes_nothing()
    ensures vertical { (plane : Plane) (depth width : ℕ) (places : ℕ → ℕ → Place) (samples : ℕ → ℕ → ℕ) (x y : ℕ)
        → ((i j : ℕ) → (places i j).left_strength ≡ 0) → vertical plane depth width places samples x y ≡ samples x y }
    ensures horizontal { (plane : Plane) (depth height : ℕ) (places : ℕ → ℕ → Place) (samples : ℕ → ℕ → ℕ) (x y : ℕ)
        → ((i j : ℕ) → (places i j).top_strength ≡ 0) → horizontal plane depth height places samples x y ≡ samples x y }
    ensures both { (plane : Plane) (depth width height : ℕ) (places : ℕ → ℕ → Place) (samples : ℕ → ℕ → ℕ) (x y : ℕ)
        → ((i j : ℕ) → (places i j).left_strength ≡ 0) → ((i j : ℕ) → (places i j).top_strength ≡ 0)
        → deblocked plane depth width height places samples x y ≡ samples x y }
{}

/// A step from 100 to 110 between flat sides, at QP 37 and strength 2: beta is 36, tc is 5, and the line is filtered
/// strongly to 100, 101, 103, 104, 106, 108, 109, 110.
pub fn step_is_smoothed()
    ensures beta { beta 8 step_place step_place ≡ 36 }
    ensures tc { tc Luma 8 step_place step_place ≡ 5 }
    ensures line { filtered_line Luma 8 (λ x y. step_place) step_sample 1 0 ≡ smoothed }
{}
