//! The bits behind the end of a slice segment or a substream (7.3.2.10).

ghost use Rattle.std.specs.Prelude.{◌≡◌, OnOk, true, false};
ghost use Rattle.spec_slice_data.specs.Segment.{ends_rightly, judged_end};
ghost use Rattle.coding_quadtree.specs.Judged.{Judges};

use hv_base::{Breach, FaultKind};
use spec_slice_data::End;
use transform_tree::Interval;

/// Whether trailing bits end a substream, with no byte behind them. Where they don't, the interval may have moved.
#[tactic(auto, unfolding(spec_cabac::specs::Engine::pcm_start_at))]
fn ends_substream(interval: &mut Interval<'_>) -> bool
    ensures value { result ≡ ends_rightly false interval.old }
    ensures same { result ≡ true → interval.new ≡ interval.old }
{
    if !interval.is_trailing() {
        return false;
    }
    match interval.after_pcm() {
        Some(_) => false,
        None => true,
    }
}

/// The answer to whether an end is right.
fn judged(rightly: bool) -> Result<(), Breach>
    ensures { Judges result rightly }
{
    if rightly {
        Ok(())
    } else {
        Err(Breach::Fault(FaultKind::TrailingBits))
    }
}

/// Whether trailing bits stand behind an end, and behind those of a substream nothing; else `Fault(TrailingBits)`.
pub fn judge_end(interval: &mut Interval<'_>, follows: End) -> Result<(), Breach>
    ensures value { Judges result (judged_end follows interval.old) }
    ensures same { OnOk result (interval.new ≡ interval.old) }
{
    match follows {
        End::More => Ok(()),
        End::Subset => judged(ends_substream(interval)),
        End::Segment => judged(interval.is_trailing()),
    }
}
