//! merge_idx and ref_idx_lX (9.3.3.2).

ghost use Rattle.std.specs.Prelude.{◌≡◌, ◌+◌, ◌-◌, ◌<◌, ◌≤◌};
ghost use Rattle.spec_cabac.specs.Engine.{IsLive};
ghost use Rattle.spec_cabac.specs.Bins.{truncated};
ghost use Rattle.spec_slice_data.specs.Inter.{merge_bin, reference_bin};
ghost use Rattle.transform_tree.specs.CabacContexts.{Takes};

use hv_base::Breach;
use spec_cabac::{MERGE_IDX, REF_IDX};
use transform_tree::BinReader;

/// A bin of merge_idx, whose first one has a context.
fn merge_bin(reader: &mut BinReader<'_>, i: u8) -> Result<bool, Breach>
    requires { IsLive reader.old.interval }
    ensures { Takes (λ x. x) result reader.old reader.new (merge_bin i) }
{
    if i == 0 {
        reader.decision(MERGE_IDX)
    } else {
        reader.bypass()
    }
}

/// merge_idx, up to a greatest one.
pub fn merge_idx(reader: &mut BinReader<'_>, greatest: u8) -> Result<u8, Breach>
    requires { IsLive reader.old.interval }
    ensures { Takes (λ x. x) result reader.old reader.new (truncated merge_bin greatest) }
{
    for i in 0..greatest {
        if !merge_bin(reader, i)? {
            return Ok(i);
        }
    }
    Ok(greatest)
}

/// A bin of ref_idx_lX, whose first two have a context each.
fn reference_bin(reader: &mut BinReader<'_>, i: u8) -> Result<bool, Breach>
    requires { IsLive reader.old.interval }
    ensures { Takes (λ x. x) result reader.old reader.new (reference_bin i) }
{
    if i < 2 {
        reader.decision(REF_IDX + usize::from(i))
    } else {
        reader.bypass()
    }
}

/// ref_idx_lX, up to a greatest one.
pub fn ref_idx(reader: &mut BinReader<'_>, greatest: u8) -> Result<u8, Breach>
    requires { IsLive reader.old.interval }
    ensures { Takes (λ x. x) result reader.old reader.new (truncated reference_bin greatest) }
{
    for i in 0..greatest {
        if !reference_bin(reader, i)? {
            return Ok(i);
        }
    }
    Ok(greatest)
}
