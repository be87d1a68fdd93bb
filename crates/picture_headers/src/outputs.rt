//! What a picture puts out (C.5.2).

ghost use Rattle.std.specs.Prelude.{◌≡◌, ◌≤◌, IfOk, length};
ghost use Rattle.output_order.specs.SpecOutputOrder.{current_picture};
ghost use Rattle.output_order.specs.SpecOutputOrder.{outputs_of};

use header_types::{Former, Rps, Sps};
use output_order::{current_picture, outputs_of};
use plan_types::Outputs;
use slice_types::SliceHeader;
use std::alloc::{AllocError, Global};

/// What a picture of this header and order count puts out, and what it leaves in the buffer.
pub(crate) fn outputs_at(
    alloc: Global,
    former: &Former,
    header: &SliceHeader,
    sps: &Sps,
    poc: i32,
    rps: &Rps,
) -> Result<Outputs, AllocError>
    requires { length former.now.dpb ≤ 16 }
    ensures { IfOk result
        (λ o. o ≡ outputs_of (current_picture header.now sps.now poc) former.now.dpb rps.now.marks) }
{
    let current = current_picture(header.fields(), sps, poc);
    outputs_of(alloc, current, former.dpb.as_slice(), rps.marks.as_slice())
}
