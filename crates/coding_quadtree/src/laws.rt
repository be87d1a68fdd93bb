//! Laws of reading over a view.

ghost use Rattle.std.specs.Prelude.{◌≡◌, ℕ, Result};
ghost use Rattle.hv_base.specs.declared.breach.Breach.{Breach};
ghost use Rattle.ctu_records.specs.declared.side.Side.{Side};
ghost use Rattle.ctu_records.specs.declared.offset.Sao.{Sao};
ghost use Rattle.ctu_records.specs.Tree.{Ctu};
ghost use Rattle.spec_cabac.specs.Bins.{State};
ghost use Rattle.spec_slice_data.specs.declared.syntax.CtuSyntax.{CtuSyntax};
ghost use Rattle.spec_slice_data.specs.declared.syntax.End.{End};
ghost use Rattle.spec_slice_data.specs.Segment.{Between, PictureShape, SegmentShape, read_unit};
ghost use Rattle.coding_quadtree.specs.declared.unit_place.UnitPlace.{UnitPlace};
ghost use Rattle.coding_quadtree.specs.Judged.{Follows, over_view};
ghost use Rattle.coding_quadtree.specs.Next.{IsNext, StepsTo};

/// Where a view tells of the units before one what was read of them, [`read_ctu`](crate::read_ctu) is the next step of
/// reading the slice segment.
pub fn unit_is_the_next_step()
    ensures { (common : CtuSyntax) (picture : PictureShape) (segment : SegmentShape) (address : ℕ) (between : Between)
        (syntax : CtuSyntax) (place : UnitPlace) (side_at : ℕ → ℕ → Side) (sao_at : ℕ → Sao)
        → IsNext common picture segment address between syntax place side_at sao_at
        → (result : Result End Breach) (ctu : Ctu) (after : State)
        → Follows result ctu after (over_view syntax place side_at sao_at (between.engine, between.contexts))
        → StepsTo picture address between result ctu after (read_unit common picture segment address between) }
{}
