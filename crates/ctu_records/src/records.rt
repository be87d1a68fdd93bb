//! The records of a coding tree unit.

ghost use Rattle.std.specs.Prelude.{◌≡◌, ℕ, Bool, true, ◌+◌, ◌-◌, ◌*◌, ◌^◌, ◌<◌, ◌≤◌, List, [], ◌∷◌, ◌++◌, length};
ghost use Rattle.std.specs.Prelude.{IfOk, vec_capacity};
ghost use Rattle.ctu_records.specs.declared.item.Item.TheVariants.{Unit, Luma, Delta};
ghost use Rattle.ctu_records.specs.Tree.{Ctu, added, with_size, with_sao, with_quantization, depth_left, depth_above};
ghost use Rattle.ctu_records.specs.Tree.{skipped_left, skipped_above, mode_left, mode_above, qp_left, qp_above};
ghost use Rattle.ctu_records.specs.Tree.{luma_mode_at, coding_at, qp_at, IsPlaced, lays_nothing, room};

use crate::item::{CodingPlace, CodingUnit, Item, LumaMode, QpDelta};
use crate::offset::{ComponentOffset, Sao};
use crate::places::lay;
use crate::side::Side;
use std::alloc::{AllocError, Global};
use std::marker::Model;

/// What is known of a quantization group (7.4.9.10, 8.6.1). Values are on the scale of Qp'Y.
#[derive(Clone, Copy, Debug, PartialEq, Eq)]
pub struct Quantization {
    /// Qp'Y of the coding unit that began last.
    pub last: u8,
    /// qPY_PRED of the group.
    pub predicted: u8,
    /// The sum of it and CuQpDeltaVal: Qp'Y of the group's next coding unit.
    pub qp: u8,
    /// IsCuQpDeltaCoded.
    pub coded: bool,
}

/// What was read of a unit, and what its places are by that.
#[derive(Drop)]
pub struct Records {
    size: u8,
    left: [Side; 16],
    above: [Side; 16],
    sao: Sao,
    quantization: Quantization,
    items: Vec<Item>,
    codings: [CodingPlace; 256],
    modes: [u8; 256],
    qps: [u8; 256],
}

impl Model for Records {
    ghost use Rattle.std.specs.Prelude.{vec_capacity};
    ghost use Rattle.ctu_records.specs.Tree.{Ctu, AreKept};

    ghost Value = { Ctu };

    ghost view = { λ r. record {
      size = r.size;
      left = r.left;
      above = r.above;
      sao = r.sao;
      quantization = r.quantization;
      items = r.items.items;
    } };

    ghost invariant = { λ r. AreKept r.size r.left r.above r.items.items (vec_capacity r.items)
        r.codings r.modes r.qps };
}

/// How many items a unit has at most: 64 a place of the greatest one.
const ROOM: usize = 16384;

/// A place that is not available.
const NO_SIDE: Side = Side {
    depth: 0,
    skipped: false,
    intra: false,
    luma_mode: 1,
    qp: 0,
};

/// A place of which nothing was read.
const NO_CODING: CodingPlace = CodingPlace {
    depth: 0,
    skipped: false,
    intra: false,
};

/// No sample adaptive offset.
const NO_SAO: Sao = Sao {
    luma: ComponentOffset::Off,
    cb: ComponentOffset::Off,
    cr: ComponentOffset::Off,
};

impl Records {
    /// Records of nothing, for units of this size.
    pub fn new(alloc: Global, ctb_log2: u32) -> Result<Records, AllocError>
        requires least { 4 ≤ ctb_log2 }
        requires greatest { ctb_log2 ≤ 6 }
        ensures items { IfOk result (λ records. records.items ≡ []) }
        ensures size { IfOk result (λ records. records.size + 2 ≡ ctb_log2) }
    {
        let items = Vec::with_capacity(alloc, ROOM)?;
        Ok(Records {
            size: (ctb_log2 - 2) as u8,
            left: [NO_SIDE; 16],
            above: [NO_SIDE; 16],
            sao: NO_SAO,
            quantization: Quantization {
                last: 0,
                predicted: 0,
                qp: 0,
                coded: false,
            },
            items,
            codings: [NO_CODING; 256],
            modes: [1; 256],
            qps: [0; 256],
        })
    }

    /// A unit begins between these places, behind a unit of this quantization.
    pub fn restart(&mut self, left: [Side; 16], above: [Side; 16], quantization: Quantization)
        ensures { self.new
            ≡ record {
              size = self.old.size;
              left = left;
              above = above;
              sao = self.old.sao;
              quantization = quantization;
              items = [];
            } }
    {
        self.left = left;
        self.above = above;
        self.quantization = quantization;
        self.items.clear();
        self.codings = [NO_CODING; 256];
        self.modes = [1; 256];
        self.qps = [0; 256];
    }

    /// The binary logarithm of the unit's side in places.
    pub fn set_size(&mut self, size: u8)
        requires { size ≤ 4 }
        ensures { self.new ≡ with_size self.old size }
    {
        self.size = size;
    }

    /// Its sample adaptive offset.
    pub fn set_sao(&mut self, sao: Sao)
        ensures { self.new ≡ with_sao self.old sao }
    {
        self.sao = sao;
    }

    /// What is known of the quantization group.
    pub fn set_quantization(&mut self, quantization: Quantization)
        ensures { self.new ≡ with_quantization self.old quantization }
    {
        self.quantization = quantization;
    }

    /// A coding unit begins.
    pub fn begin(&mut self, unit: CodingUnit)
        requires room { length self.old.items < room }
        requires placed { IsPlaced unit.square }
        ensures { self.new ≡ added self.old (Unit unit) }
    {
        let x = usize::from(unit.square.x);
        let y = usize::from(unit.square.y);
        let side = side(unit.square.log2_size);
        let coding = CodingPlace {
            depth: unit.depth,
            skipped: unit.skipped,
            intra: unit.intra,
        };
        lay(&mut self.codings, x, y, side, coding);
        lay(&mut self.qps, x, y, side, unit.qp);
        put(&mut self.items, Item::Unit(unit));
    }

    /// A prediction block's luma mode.
    pub fn set_luma(&mut self, luma: LumaMode)
        requires room { length self.old.items < room }
        requires placed { IsPlaced luma.square }
        ensures { self.new ≡ added self.old (Luma luma) }
    {
        let x = usize::from(luma.square.x);
        let y = usize::from(luma.square.y);
        let side = side(luma.square.log2_size);
        lay(&mut self.modes, x, y, side, luma.mode);
        put(&mut self.items, Item::Luma(luma));
    }

    /// A cu_qp_delta.
    pub fn set_delta(&mut self, delta: QpDelta)
        requires room { length self.old.items < room }
        requires placed { IsPlaced delta.square }
        ensures { self.new ≡ added self.old (Delta delta) }
    {
        let x = usize::from(delta.square.x);
        let y = usize::from(delta.square.y);
        let side = side(delta.square.log2_size);
        lay(&mut self.qps, x, y, side, delta.qp);
        put(&mut self.items, Item::Delta(delta));
    }

    /// Another item.
    #[inline(always)]
    pub fn push(&mut self, item: Item)
        requires room { length self.old.items < room }
        requires plain { lays_nothing item ≡ true }
        ensures { self.new ≡ added self.old item }
    {
        put(&mut self.items, item);
    }

    /// What was read, in reading order.
    pub fn items(&self) -> &[Item]
        ensures { result.now ≡ self.now.items }
    {
        &self.items
    }

    /// The binary logarithm of the unit's side in places.
    pub fn size(&self) -> u8
        ensures value { result ≡ self.now.size }
        ensures small { result ≤ 4 }
    {
        self.size
    }

    /// Its sample adaptive offset.
    pub fn sao(&self) -> Sao
        ensures { result ≡ self.now.sao }
    {
        self.sao
    }

    /// What is known of the quantization group.
    pub fn quantization(&self) -> Quantization
        ensures { result ≡ self.now.quantization }
    {
        self.quantization
    }

    /// What the coding unit of a place tells of it.
    pub fn coding(&self, x: usize, y: usize) -> CodingPlace
        requires x { x < 16 }
        requires y { y < 16 }
        ensures { result ≡ coding_at self.now.items x y }
    {
        self.codings[16 * y + x]
    }

    /// IntraPredModeY of a place; INTRA_DC where it has none.
    pub fn luma_mode(&self, x: usize, y: usize) -> u8
        requires x { x < 16 }
        requires y { y < 16 }
        ensures { result ≡ luma_mode_at self.now.items x y }
    {
        self.modes[16 * y + x]
    }

    /// Qp'Y of a place.
    pub fn qp(&self, x: usize, y: usize) -> u8
        requires x { x < 16 }
        requires y { y < 16 }
        ensures { result ≡ qp_at self.now.items x y }
    {
        self.qps[16 * y + x]
    }

    /// CtDepth left of a place.
    #[tactic(auto, unfolding(crate::specs::Tree::depth_left))]
    pub fn depth_left(&self, x: usize, y: usize) -> u8
        requires x { x < 16 }
        requires y { y < 16 }
        ensures { result ≡ depth_left self.now x y }
    {
        if x == 0 {
            self.left[y].depth
        } else {
            self.coding(x - 1, y).depth
        }
    }

    /// CtDepth above a place.
    #[tactic(auto, unfolding(crate::specs::Tree::depth_above))]
    pub fn depth_above(&self, x: usize, y: usize) -> u8
        requires x { x < 16 }
        requires y { y < 16 }
        ensures { result ≡ depth_above self.now x y }
    {
        if y == 0 {
            self.above[x].depth
        } else {
            self.coding(x, y - 1).depth
        }
    }

    /// cu_skip_flag left of a place.
    #[tactic(auto, unfolding(crate::specs::Tree::skipped_left))]
    pub fn skipped_left(&self, x: usize, y: usize) -> bool
        requires x { x < 16 }
        requires y { y < 16 }
        ensures { result ≡ skipped_left self.now x y }
    {
        if x == 0 {
            self.left[y].skipped
        } else {
            self.coding(x - 1, y).skipped
        }
    }

    /// cu_skip_flag above a place.
    #[tactic(auto, unfolding(crate::specs::Tree::skipped_above))]
    pub fn skipped_above(&self, x: usize, y: usize) -> bool
        requires x { x < 16 }
        requires y { y < 16 }
        ensures { result ≡ skipped_above self.now x y }
    {
        if y == 0 {
            self.above[x].skipped
        } else {
            self.coding(x, y - 1).skipped
        }
    }

    /// candIntraPredModeX of the place on the left.
    #[tactic(auto, unfolding(crate::specs::Tree::mode_left))]
    pub fn mode_left(&self, x: usize, y: usize) -> u8
        requires x { x < 16 }
        requires y { y < 16 }
        ensures { result ≡ mode_left self.now x y }
    {
        if x == 0 {
            self.left[y].luma_mode
        } else {
            self.luma_mode(x - 1, y)
        }
    }

    /// candIntraPredModeX of the place above.
    #[tactic(auto, unfolding(crate::specs::Tree::mode_above))]
    pub fn mode_above(&self, x: usize, y: usize) -> u8
        requires x { x < 16 }
        requires y { y < 16 }
        ensures { result ≡ mode_above self.now x y }
    {
        if y == 0 { 1 } else { self.luma_mode(x, y - 1) }
    }

    /// qPY_A of the quantization group at a place.
    #[tactic(auto, unfolding(crate::specs::Tree::qp_left))]
    pub fn qp_left(&self, x: usize, y: usize) -> u8
        requires x { x < 16 }
        requires y { y < 16 }
        ensures { result ≡ qp_left self.now x y }
    {
        if x == 0 {
            self.quantization.last
        } else {
            self.qp(x - 1, y)
        }
    }

    /// qPY_B of the quantization group at a place.
    #[tactic(auto, unfolding(crate::specs::Tree::qp_above))]
    pub fn qp_above(&self, x: usize, y: usize) -> u8
        requires x { x < 16 }
        requires y { y < 16 }
        ensures { result ≡ qp_above self.now x y }
    {
        if y == 0 {
            self.quantization.last
        } else {
            self.qp(x, y - 1)
        }
    }
}

/// The side of a square in places.
fn side(log2_size: u8) -> usize
    requires { log2_size ≤ 4 }
    ensures { result ≡ 2 ^ log2_size }
{
    1 << log2_size
}

/// Appends where there is room.
fn put(items: &mut Vec<Item>, item: Item)
    requires room { length items.old.items < vec_capacity items.old }
    ensures items { items.new.items ≡ items.old.items ++ item ∷ [] }
    ensures capacity { vec_capacity items.old ≤ vec_capacity items.new }
{
    let _pushed = items.push(item);
}
