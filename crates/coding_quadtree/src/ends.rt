//! What follows a coding tree unit (7.3.8.1).

ghost use Rattle.std.specs.Prelude.{◌≡◌, IfOk};
ghost use Rattle.spec_cabac.specs.Engine.{IsLive};
ghost use Rattle.spec_slice_data.specs.Tree.{unit_end};
ghost use Rattle.spec_slice_data.specs.declared.syntax.End.TheVariants as end;
ghost use Rattle.transform_tree.specs.CabacContexts.{Reaches};

use hv_base::{Breach, FaultKind};
use spec_slice_data::End;
use transform_tree::BinReader;

/// end_of_slice_segment_flag, and end_of_subset_one_bit where a substream begins with the next unit. Behind a 1 of
/// either no bin is asked before the engine starts anew.
#[tactic(auto, unfolding(spec_slice_data::specs::Tree::unit_end))]
pub fn unit_end(reader: &mut BinReader<'_>, is_last: bool, ends_subset: bool) -> Result<End, Breach>
    requires { IsLive reader.old.interval }
    ensures value { Reaches (λ x. x) result reader.old reader.new (unit_end is_last ends_subset) }
    ensures live { IfOk result (λ follows. follows ≡ end.More → IsLive reader.new.interval) }
{
    let ended = reader.terminate()?;
    if ended != is_last {
        return Err(Breach::Fault(FaultKind::SliceEnd));
    }
    if ended {
        return Ok(End::Segment);
    }
    if !ends_subset {
        return Ok(End::More);
    }
    if !reader.terminate()? {
        return Err(Breach::Fault(FaultKind::SubsetEnd));
    }
    Ok(End::Subset)
}
