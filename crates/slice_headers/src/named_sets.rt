//! The parameter sets that a slice names, and the rules on them (7.4.7.1).

ghost use Rattle.std.specs.Prelude.{◌≡◌, IfOk, IfSome};
ghost use Rattle.std.specs.Option.{option_map};
ghost use Rattle.spec_formats.specs.Fields.{Parses};
ghost use Rattle.header_laws.specs.Ranges.{IsNamed};
ghost use Rattle.spec_slice_headers.specs.NamedSets.{named_by, named_sets, is_active};
ghost use Rattle.slice_fields.specs.Views.{context_of, named_of};

use header_types::{Sets, Shared, Sps};
use hv_base::{FaultKind, Refusal};
use picture_parameter_sets::fits;
use slice_fields::{SegmentContext, SliceSets, first_of, no_rasl_output_flag};

/// The accepted picture parameter set of an id, and the accepted sequence parameter set that it names.
fn named_by(sets: &Sets, id: u32) -> Option<SliceSets<'_>>
    ensures { option_map named_of result ≡ named_by sets.now id }
{
    let pps = sets.pps(id)?;
    let sps = sets.sps(pps.fields().identity.pps_seq_parameter_set_id)?;
    Some(SliceSets {
        pps: &**pps,
        sps: &**sps,
    })
}

/// Whether the active sequence parameter set has the same content.
fn is_active(active: &Option<Shared<Sps>>, sps: &Sps) -> bool
    ensures { result ≡ is_active active.now sps.now }
{
    match active {
        None => false,
        Some(active) => *active.fields() == *sps.fields(),
    }
}

/// The parameter sets behind slice_pic_parameter_set_id (7.4.7.1): they were accepted, else `MissingSet`; they fit each
/// other, else `SetMismatch`; the sequence parameter set changes only where a sequence begins, else `SpsChanged`; and
/// each segment of a picture names the same ones, else `SliceMismatch`. The first rule that is broken is told.
#[tactic(auto, unfolding(spec_slice_headers::specs::NamedSets::named_sets))]
pub fn read_named_sets<'a>(
    context: SegmentContext<'a>,
    is_first: bool,
    id: u32,
) -> Result<SliceSets<'a>, Refusal>
    ensures value { Parses named_of result (named_sets (context_of context.entry) is_first id) }
    ensures in_range { IfOk result (λ _. IfSome (named_by (context_of context.entry).sets id) IsNamed) }
{
    let Some(named) = named_by(context.sets, id) else {
        return Err(Refusal::Fault(FaultKind::MissingSet));
    };
    if !fits(named.sps.fields(), named.pps.fields()) {
        return Err(Refusal::Fault(FaultKind::SetMismatch));
    }
    let begins = no_rasl_output_flag(context.nal_type, context.former.first_in_sequence);
    if !begins && !is_active(&context.former.active, named.sps) {
        return Err(Refusal::Fault(FaultKind::SpsChanged));
    }
    let former = first_of(context, is_first);
    if !former.is_none_or(|h| h.segment.slice_pic_parameter_set_id == id) {
        return Err(Refusal::Fault(FaultKind::SliceMismatch));
    }
    Ok(named)
}
