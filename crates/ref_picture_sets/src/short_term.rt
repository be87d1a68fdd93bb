//! Short-term reference picture sets (7.3.7, 7.4.8).

ghost use Rattle.std.specs.Prelude.{◌≡◌, ℕ, ◌+◌, ◌≤◌, true, List, All, IfOk};
ghost use Rattle.header_fields.specs.Takes.{Takes};
ghost use Rattle.header_types.specs.ReferencePictures.{IsStRps};
ghost use Rattle.spec_reference_pictures.specs.ShortTermSets.{is_predicted, st_ref_pic_set};

use crate::short_term_explicit::read_explicit;
use crate::short_term_predicted::read_predicted;
use header_fields::FieldReader;
use header_types::StRps;
use hv_base::Refusal;
use std::alloc::Global;

/// inter_ref_pic_set_prediction_flag.
#[tactic(auto, unfolding(spec_reference_pictures::specs::ShortTermSets::is_predicted))]
fn is_predicted<'a>(reader: &mut FieldReader<'a>, index: u32) -> Result<bool, Refusal>
    ensures value { Takes (λ x. x) result reader.old reader.new (is_predicted index) }
    ensures behind { IfOk result (λ x. x ≡ true → 1 ≤ index) }
{
    if index >= 1 {
        return reader.flag();
    }
    Ok(false)
}

/// st_ref_pic_set(`index`).
#[tactic(auto, unfolding(spec_reference_pictures::specs::ShortTermSets::st_ref_pic_set))]
fn read_set<'a>(
    alloc: Global,
    reader: &mut FieldReader<'a>,
    index: u32,
    count: u32,
    former: &[StRps],
    max: u32,
) -> Result<StRps, Refusal>
    requires max { max ≤ 15 }
    requires former { All (IsStRps 78) former.now }
    ensures { Takes (λ x. x) result reader.old reader.new (st_ref_pic_set index count former.now max) }
{
    if is_predicted(reader, index)? {
        return read_predicted(alloc, reader, index, count, former);
    }
    read_explicit(alloc, reader, max)
}

/// st_ref_pic_set(`index`) of `count` sets (7.3.7), derived from `former`, those before it (7.4.8). `max` is
/// sps_max_dec_pic_buffering_minus1 of the highest sub-layer. A set that is predicted from one that isn't in `former`
/// has no entry but the picture itself to start from.
///
/// The syntax rule of the reader where bits lack or a prefix has over 31 zeros; its range rule where a field is out of
/// range, an explicit set has over `max` entries, which is told once both numbers are read, or a predicted one over 16,
/// which is told after its flags.
#[tactic(auto, using(crate::proofs::Near::is_near))]
pub fn read_st_rps<'a>(
    alloc: Global,
    reader: &mut FieldReader<'a>,
    index: u32,
    count: u32,
    former: &[StRps],
    max: u32,
) -> Result<StRps, Refusal>
    requires max { max ≤ 15 }
    requires former { All (IsStRps 78) former.now }
    ensures value { Takes (λ x. x) result reader.old reader.new (st_ref_pic_set index count former.now max) }
    ensures near { (n : ℕ) → 14 ≤ n → All (IsStRps n) former.now → IfOk result (λ s. IsStRps (n + 1) s) }
{
    read_set(alloc, reader, index, count, former, max)
}
