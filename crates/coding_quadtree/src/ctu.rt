//! A coding tree unit with what follows it, over a view of the units before it.

ghost use Rattle.std.specs.Prelude.{◌≡◌, ◌≤◌, [], IfOk};
ghost use Rattle.spec_cabac.specs.Engine.{IsLive};
ghost use Rattle.spec_cabac.specs.Bins.{read};
ghost use Rattle.transform_tree.specs.CabacContexts.{state_of};
ghost use Rattle.spec_slice_data.specs.Syntax.{IsSyntax};
ghost use Rattle.spec_slice_data.specs.Tree.{unit_and_end};
ghost use Rattle.spec_slice_data.specs.declared.syntax.End.TheVariants as end;
ghost use Rattle.coding_quadtree.specs.Beside.{IsCovered, available, ctu_begins};
ghost use Rattle.coding_quadtree.specs.Judged.{Follows, judged, over_view};

use crate::beside::{NO_SAO, column, row, sao_where};
use crate::ends::unit_end;
use crate::judge::judge_end;
use crate::quadtree::coding_tree_unit;
use crate::squares::side;
use crate::unit_place::UnitPlace;
use ctu_records::{Neighbours, Quantization, Records, Sao};
use hv_base::Breach;
use spec_slice_data::{CtuSyntax, End};
use transform_tree::{BinReader, Levels};

/// How many of `n` places beside a unit are available.
fn available(there: bool, places: u32, n: u32) -> u32
    ensures { result ≡ available there places n }
{
    if !there {
        0
    } else if places < n {
        places
    } else {
        n
    }
}

/// A unit begins at a place, by what was read beside it.
#[tactic(auto, unfolding(crate::specs::Beside::ctu_begins))]
fn begin_ctu<V: Neighbours>(
    syntax: &CtuSyntax,
    place: &UnitPlace,
    view: &mut V,
    records: &mut Records,
)
    requires size { place.now.size ≤ 4 }
    requires covered { IsCovered syntax.now place.now (V.covers view.old) (V.covers_unit view.old) }
    ensures value { records.new ≡ ctu_begins syntax.now place.now (V.side_at view.old) }
    ensures size { records.new.size ≡ place.now.size }
    ensures empty { records.new.items ≡ [] }
    ensures sides { V.side_at view.new ≡ V.side_at view.old }
    ensures offsets { V.sao_at view.new ≡ V.sao_at view.old }
    ensures covers { V.covers view.new ≡ V.covers view.old }
    ensures covers_units { V.covers_unit view.new ≡ V.covers_unit view.old }
{
    let n = side(place.size);
    let on_left = available(syntax.has_left, syntax.lower, n);
    let on_top = available(syntax.has_above, syntax.right, n);
    let left = column(view, place.x.saturating_sub(1), place.y, on_left);
    let above = row(view, place.x, place.y.saturating_sub(1), on_top);
    let group = Quantization {
        last: place.last_qp,
        predicted: place.last_qp,
        qp: place.last_qp,
        coded: false,
    };
    records.restart(left, above, group);
    records.set_size(place.size);
    records.set_sao(NO_SAO);
}

/// A unit and what follows it, with the bits behind its end.
#[tactic(auto, unfolding(spec_slice_data::specs::Tree::unit_and_end))]
fn judged_unit(
    reader: &mut BinReader<'_>,
    records: &mut Records,
    levels: &mut Levels,
    syntax: &CtuSyntax,
    left: Sao,
    above: Sao,
    place: &UnitPlace,
) -> Result<End, Breach>
    requires live { IsLive reader.old.interval }
    requires syntax { IsSyntax syntax.now }
    requires least { syntax.now.log2_min_coding ≤ records.old.size }
    requires empty { records.old.items ≡ [] }
    ensures value { Follows result records.new (state_of reader.new)
        (judged (read (unit_and_end syntax.now left above place.now.is_last place.now.ends_subset records.old)
        (state_of reader.old))) }
    ensures live { IfOk result (λ follows. follows ≡ end.More → IsLive reader.new.interval) }
{
    coding_tree_unit(reader, records, levels, syntax, left, above)?;
    let follows = unit_end(reader, place.is_last, place.ends_subset)?;
    judge_end(&mut reader.interval, follows)?;
    Ok(follows)
}

/// A coding tree unit at a place, with what follows it and the bits behind its end (7.3.8.1, 7.3.8.2,
/// 7.3.2.10). What was read beside it comes from the view, and what is read of it stands in the records, which begin
/// anew. The error is the first rule broken in reading order; then the records and the reader are of no use. Behind an
/// end no bin is asked before the engine starts anew.
pub fn read_ctu<V: Neighbours>(
    reader: &mut BinReader<'_>,
    syntax: &CtuSyntax,
    place: &UnitPlace,
    view: &mut V,
    records: &mut Records,
    levels: &mut Levels,
) -> Result<End, Breach>
    requires live { IsLive reader.old.interval }
    requires syntax { IsSyntax syntax.now }
    requires least { syntax.now.log2_min_coding ≤ place.now.size }
    requires size { place.now.size ≤ 4 }
    requires covered { IsCovered syntax.now place.now (V.covers view.old) (V.covers_unit view.old) }
    ensures value { Follows result records.new (state_of reader.new)
        (over_view syntax.now place.now (V.side_at view.old) (V.sao_at view.old) (state_of reader.old)) }
    ensures live { IfOk result (λ follows. follows ≡ end.More → IsLive reader.new.interval) }
    ensures sides { V.side_at view.new ≡ V.side_at view.old }
    ensures offsets { V.sao_at view.new ≡ V.sao_at view.old }
    ensures covers { V.covers view.new ≡ V.covers view.old }
    ensures covers_units { V.covers_unit view.new ≡ V.covers_unit view.old }
{
    let left = sao_where(view, syntax.has_left, place.address.saturating_sub(1));
    let above = sao_where(
        view,
        syntax.has_above,
        place.address.saturating_sub(place.width),
    );
    begin_ctu(syntax, place, view, records);
    judged_unit(reader, records, levels, syntax, left, above, place)
}
