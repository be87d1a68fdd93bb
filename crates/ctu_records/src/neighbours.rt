//! What a coding tree unit may read of the units before it.

ghost use Rattle.std.specs.Prelude.{◌≡◌, ℕ, Bool, true, ◌^◌, ◌<◌};
ghost use Rattle.ctu_records.specs.declared.side.Side.{Side};
ghost use Rattle.ctu_records.specs.declared.offset.Sao.{Sao};

use crate::offset::Sao;
use crate::side::Side;

/// The coding tree units before one. Each call keeps the meanings of the view.
pub trait Neighbours {
    /// What was read of a place, by the coordinates of a luma sample in it.
    ghost side_at: { Self → ℕ → ℕ → Side };
    /// Sample adaptive offset of a coding tree unit, by its address in raster order.
    ghost sao_at: { Self → ℕ → Sao };
    /// Of which places something was read.
    ghost covers: { Self → ℕ → ℕ → Bool };
    /// Of which coding tree units something was read.
    ghost covers_unit: { Self → ℕ → Bool };

    /// What was read of the place of this luma sample.
    fn side(&mut self, x: u32, y: u32) -> Side
        requires { covers self.old x y ≡ true }
        ensures value { result ≡ side_at self.old x y }
        ensures sides { side_at self.new ≡ side_at self.old }
        ensures offsets { sao_at self.new ≡ sao_at self.old }
        ensures covers { covers self.new ≡ covers self.old }
        ensures covers_units { covers_unit self.new ≡ covers_unit self.old };

    /// Sample adaptive offset of a coding tree unit.
    fn sao(&mut self, ctu: u32) -> Sao
        requires { covers_unit self.old ctu ≡ true }
        ensures value { result ≡ sao_at self.old ctu }
        ensures sides { side_at self.new ≡ side_at self.old }
        ensures offsets { sao_at self.new ≡ sao_at self.old }
        ensures covers { covers self.new ≡ covers self.old }
        ensures covers_units { covers_unit self.new ≡ covers_unit self.old };
}
