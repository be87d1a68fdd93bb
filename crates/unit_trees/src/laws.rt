//! The law of a unit that is read by itself.

ghost use Rattle.std.specs.Prelude.{◌≡◌, ℕ};
ghost use Rattle.spec_slice_data.specs.declared.syntax.CtuSyntax.{CtuSyntax};
ghost use Rattle.spec_slice_data.specs.Segment.{Between, PictureShape, SegmentShape, read_unit};
ghost use Rattle.unit_trees.specs.declared.edges.Edge.{Edge};
ghost use Rattle.unit_trees.specs.Units.{IsBeside, then_next, unit_over};

/// Over what the units on its left and above it leave, a unit is the next step of reading its slice segment.
pub fn units_over_edges_are_the_next_step()
    ensures { (common : CtuSyntax) (picture : PictureShape) (segment : SegmentShape) (address : ℕ) (between : Between)
        (left above : Edge)
        → IsBeside picture segment address between left above
        → read_unit common picture segment address between
        ≡ then_next picture address between
        (unit_over common picture segment address left above between.last (between.engine, between.contexts)) }
{}
