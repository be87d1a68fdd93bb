//! The pictures that short-term entries name (8.3.2).

ghost use Rattle.std.specs.Prelude.{◌≡◌, ◌++◌, ◌*◌, ◌^◌, ◌<◌, ◌≤◌, pos, negsuc, ◌+ℤ◌, ◌≤ℤ◌, nat_abs, All, length, IfOk};
ghost use Rattle.std.specs.Prelude.{OnOk};
ghost use Rattle.header_types.specs.declared.short_term_set.ShortTermRef.{ShortTermRef};
ghost use Rattle.spec_reference_pictures.specs.ReferencePictureSet.{is_reference, is_short_term, place_of};
ghost use Rattle.spec_reference_pictures.specs.ReferencePictureSet.{reference_poc, reference_pocs, short_term_poc};
ghost use Rattle.spec_reference_pictures.specs.ReferencePictureSet.{short_term_pocs, short_term_set};
ghost use Rattle.header_types.specs.declared.reference_pictures.PictureName.TheVariants.{OrderCount};

use crate::long_term::{CurrentPicture, is_for};
use crate::picture_order_count::begins_anew;
use crate::search::{is_among, place_of};
use header_types::{DpbPicture, FieldList, Mark, PictureName, ShortTermRef};
use slice_types::PictureKind;
use std::alloc::{AllocError, Global};

/// The order counts of the pictures that are marked as reference when the set is derived.
#[tactic(auto, unfolding(spec_reference_pictures::specs::ReferencePictureSet::reference_pocs))]
pub(crate) fn reference_pocs(
    alloc: Global,
    kind: PictureKind,
    dpb: &[DpbPicture],
) -> Result<Vec<Option<i32>>, AllocError>
    ensures value { IfOk result (λ counts. counts.items ≡ reference_pocs kind dpb.now) }
    ensures each { IfOk result (λ counts. length counts.items ≡ length dpb.now) }
{
    dpb.iter()
        .map(|picture| reference_poc(kind, *picture))
        .collect(alloc)
}

/// The order count of a picture that is marked as reference when the set is derived.
fn reference_poc(kind: PictureKind, picture: DpbPicture) -> Option<i32>
    ensures { result ≡ reference_poc kind picture }
{
    if begins_anew(kind) {
        return None;
    }
    match picture.mark {
        Mark::Unused => None,
        Mark::Short | Mark::Long => Some(picture.poc),
    }
}

/// The order counts of the short-term pictures, where `long` are the places of those that long-term entries name.
#[tactic(auto, using(crate::proofs::Growing::lengths))]
pub(crate) fn short_term_pocs(
    alloc: Global,
    kind: PictureKind,
    long: &[Option<u32>],
    dpb: &[DpbPicture],
) -> Result<FieldList<Option<i32>>, AllocError>
    requires few { length dpb.now < 2 ^ 32 }
    ensures value { IfOk result (λ counts. counts ≡ short_term_pocs kind long.now dpb.now) }
    ensures each { IfOk result (λ counts. length counts ≡ length dpb.now) }
{
    let mut counts = FieldList::new(alloc);
    for (k, picture) in dpb.iter().enumerate() {
        counts.push(short_term_poc(kind, long, k as u32, *picture))?;
    }
    Ok(counts)
}

/// The order count of the picture at place `k` if it is a short-term picture.
fn short_term_poc(
    kind: PictureKind,
    long: &[Option<u32>],
    k: u32,
    picture: DpbPicture,
) -> Option<i32>
    ensures { result ≡ short_term_poc kind long.now k picture }
{
    if begins_anew(kind) || is_among(k, long) {
        return None;
    }
    match picture.mark {
        Mark::Short => Some(picture.poc),
        Mark::Unused | Mark::Long => None,
    }
}

/// The places of the pictures that the entries for the picture itself name, or of those that the others name.
pub(crate) fn short_term_set(
    alloc: Global,
    counts: &[Option<i32>],
    picture: CurrentPicture,
    current: bool,
    entries: &[ShortTermRef],
) -> Result<FieldList<Option<u32>>, AllocError>
    requires few { length counts.now < 2 ^ 32 }
    ensures { IfOk result (λ set. set ≡ short_term_set counts.now picture.poc current entries.now) }
{
    let mut set = FieldList::new(alloc);
    add_short_term(&mut set, counts, picture, current, entries)?;
    Ok(set)
}

/// Adds the same places to a list.
#[tactic(auto, unfolding(spec_reference_pictures::specs::ReferencePictureSet::short_term_set))]
pub(crate) fn add_short_term(
    set: &mut FieldList<Option<u32>>,
    counts: &[Option<i32>],
    picture: CurrentPicture,
    current: bool,
    entries: &[ShortTermRef],
) -> Result<(), AllocError>
    requires few { length counts.now < 2 ^ 32 }
    ensures { OnOk result (set.new ≡ set.old ++ short_term_set counts.now picture.poc current entries.now) }
{
    for entry in entries {
        if is_for(current, entry.used) {
            set.push(short_term_place(counts, picture, *entry))?;
        }
    }
    Ok(())
}

/// The place of the picture that an entry names.
fn short_term_place(
    counts: &[Option<i32>],
    picture: CurrentPicture,
    entry: ShortTermRef,
) -> Option<u32>
    requires few { length counts.now < 2 ^ 32 }
    ensures { result ≡ place_of (OrderCount (picture.poc +ℤ entry.delta_poc)) counts.now }
{
    place_of(
        PictureName::OrderCount(sum(picture.poc, entry.delta_poc)),
        counts,
    )
}

/// The sum, which may need more than 32 bits.
fn sum(poc: i32, delta_poc: i32) -> i64
    ensures { result ≡ poc +ℤ delta_poc }
{
    i64::from(poc) + i64::from(delta_poc)
}
