//! What is known beside a coding tree unit, gathered once.

ghost use Rattle.std.specs.Prelude.{◌≡◌, ℕ, ◌+◌, ◌-◌, ◌*◌, ◌<◌, ◌≤◌, true, if◌then◌else◌};
ghost use Rattle.ctu_records.specs.Tree.{no_side, side};
ghost use Rattle.coding_quadtree.specs.Beside.{sao_where};

use ctu_records::{ComponentOffset, Neighbours, Sao, Side};

/// A place that is not available.
const NO_SIDE: Side = Side {
    depth: 0,
    skipped: false,
    intra: false,
    luma_mode: 1,
    qp: 0,
};

/// No sample adaptive offset.
pub const NO_SAO: Sao = Sao {
    luma: ComponentOffset::Off,
    cb: ComponentOffset::Off,
    cr: ComponentOffset::Off,
};

/// What was read of a place, if it is available.
fn side_where<V: Neighbours>(view: &mut V, there: bool, x: u32, y: u32) -> Side
    requires { there ≡ true → V.covers view.old x y ≡ true }
    ensures value { result ≡ (if there then V.side_at view.old x y else no_side) }
    ensures sides { V.side_at view.new ≡ V.side_at view.old }
    ensures offsets { V.sao_at view.new ≡ V.sao_at view.old }
    ensures covers { V.covers view.new ≡ V.covers view.old }
    ensures covers_units { V.covers_unit view.new ≡ V.covers_unit view.old }
{
    if there { view.side(x, y) } else { NO_SIDE }
}

/// So many places downwards from one on.
pub fn column<V: Neighbours>(view: &mut V, x: u32, y: u32, count: u32) -> [Side; 16]
    requires y { y < 65536 }
    requires covers { (k : ℕ) → k < count → V.covers view.old x (y + 4 * k) ≡ true }
    ensures value { result ≡ side count (λ k. V.side_at view.old x (y + 4 * k)) }
    ensures sides { V.side_at view.new ≡ V.side_at view.old }
    ensures offsets { V.sao_at view.new ≡ V.sao_at view.old }
    ensures covers { V.covers view.new ≡ V.covers view.old }
    ensures covers_units { V.covers_unit view.new ≡ V.covers_unit view.old }
{
    let mut sides = [NO_SIDE; 16];
    for k in 0..16u32 {
        sides[k as usize] = side_where(view, k < count, x, y + 4 * k);
    }
    sides
}

/// So many places to the right from one on.
pub fn row<V: Neighbours>(view: &mut V, x: u32, y: u32, count: u32) -> [Side; 16]
    requires x { x < 65536 }
    requires covers { (k : ℕ) → k < count → V.covers view.old (x + 4 * k) y ≡ true }
    ensures value { result ≡ side count (λ k. V.side_at view.old (x + 4 * k) y) }
    ensures sides { V.side_at view.new ≡ V.side_at view.old }
    ensures offsets { V.sao_at view.new ≡ V.sao_at view.old }
    ensures covers { V.covers view.new ≡ V.covers view.old }
    ensures covers_units { V.covers_unit view.new ≡ V.covers_unit view.old }
{
    let mut sides = [NO_SIDE; 16];
    for k in 0..16u32 {
        sides[k as usize] = side_where(view, k < count, x + 4 * k, y);
    }
    sides
}

/// Sample adaptive offset of a unit, if there is one.
pub fn sao_where<V: Neighbours>(view: &mut V, there: bool, ctu: u32) -> Sao
    requires { there ≡ true → V.covers_unit view.old ctu ≡ true }
    ensures value { result ≡ sao_where there (V.sao_at view.old ctu) }
    ensures sides { V.side_at view.new ≡ V.side_at view.old }
    ensures offsets { V.sao_at view.new ≡ V.sao_at view.old }
    ensures covers { V.covers view.new ≡ V.covers view.old }
    ensures covers_units { V.covers_unit view.new ≡ V.covers_unit view.old }
{
    if there { view.sao(ctu) } else { NO_SAO }
}
