//! Reference picture sets (8.3.2).

ghost use Rattle.std.specs.Prelude.{◌≡◌, ◌+◌, ◌++◌, ◌^◌, ◌<◌, ◌≤◌, true, false, not, ◌&&◌, if◌then◌else◌, map};
ghost use Rattle.std.specs.Prelude.{length, is_none, Ok, Err, All, IfOk};
ghost use Rattle.std.specs.List.{count_by, list_any, range_with_len};
ghost use Rattle.hv_base.specs.declared.fault.FaultKind.TheVariants.{MissingReference};
ghost use Rattle.header_types.specs.declared.short_term_set.ShortTermRef.{ShortTermRef};
ghost use Rattle.header_types.specs.declared.reference_pictures.LongTermRef.{LongTermRef};
ghost use Rattle.spec_reference_pictures.specs.PictureOrderCount.{is_irap};
ghost use Rattle.spec_reference_pictures.specs.ReferencePictureSet.{GivesSet, found, found_set, is_among};
ghost use Rattle.spec_reference_pictures.specs.ReferencePictureSet.{lacks_current, long_term_places, long_term_set};
ghost use Rattle.spec_reference_pictures.specs.ReferencePictureSet.{mark_after, named_sets, num_pic_total_curr};
ghost use Rattle.spec_reference_pictures.specs.ReferencePictureSet.{reference_picture_set, short_term_set};

use crate::long_term::{CurrentPicture, long_term_places, long_term_set};
use crate::picture_order_count::is_irap;
use crate::search::is_among;
use crate::short_term_places::{add_short_term, reference_pocs, short_term_pocs, short_term_set};
use header_types::{DpbPicture, FieldList, LongTermRef, Mark, NamedSets, Rps, ShortTermRef, StRps};
use hv_base::{FaultKind, Refusal};
use slice_types::{LongTermRefs, PictureKind, ReferenceFields};
use std::alloc::{AllocError, Global};

/// The places of the pictures that entries name, `None` where the buffer has no such picture.
type EntryPlaces = FieldList<Option<u32>>;

/// The reference picture set of a picture with these fields and this order count, where `dpb` are the pictures of the
/// decoded picture buffer in decoding order (8.3.2). `MissingReference` exactly where the picture isn't an intra random
/// access point and the buffer lacks a picture that it may use itself.
#[tactic(auto, unfolding(spec_reference_pictures::specs::ReferencePictureSet::reference_picture_set))]
pub fn derive_rps(
    alloc: Global,
    kind: PictureKind,
    references: &ReferenceFields,
    poc: i32,
    dpb: &[DpbPicture],
) -> Result<Rps, Refusal>
    requires max_lsb_low { 16 ≤ kind.max_lsb }
    requires max_lsb_high { kind.max_lsb ≤ 65536 }
    requires entries { length references.now.long_term.entries ≤ 33 }
    requires few { length dpb.now < 2 ^ 32 }
    ensures { GivesSet result (reference_picture_set kind references.now poc dpb.now) }
{
    let sets = named_sets(alloc, CurrentPicture { kind, poc }, references, dpb)?;
    found_or_missing(alloc, kind, &sets, dpb.len())
}

/// The set of the pictures that were found in a buffer of `size` pictures. `MissingReference` where the picture isn't
/// an intra random access point and one lacks that it may use itself.
fn found_or_missing(
    alloc: Global,
    kind: PictureKind,
    sets: &NamedSets,
    size: usize,
) -> Result<Rps, Refusal>
    requires { size < 2 ^ 32 }
    ensures { GivesSet result
        (if not (is_irap kind.nal_type) && lacks_current sets.now then Err MissingReference
        else Ok (found_set sets.now size)) }
{
    if !is_irap(kind.nal_type) && lacks_current(sets) {
        return Err(Refusal::Fault(FaultKind::MissingReference));
    }
    Ok(found_set(alloc, sets, size)?)
}

/// The five lists of the set as the entries name them.
#[tactic(auto, unfolding(spec_reference_pictures::specs::ReferencePictureSet::named_sets))]
fn named_sets(
    alloc: Global,
    picture: CurrentPicture,
    references: &ReferenceFields,
    dpb: &[DpbPicture],
) -> Result<NamedSets, AllocError>
    requires max_lsb_low { 16 ≤ picture.kind.max_lsb }
    requires max_lsb_high { picture.kind.max_lsb ≤ 65536 }
    requires entries { length references.now.long_term.entries ≤ 33 }
    requires few { length dpb.now < 2 ^ 32 }
    ensures { IfOk result (λ sets. sets ≡ named_sets picture.kind references.now picture.poc dpb.now) }
{
    let long = marked_places(alloc, picture, &references.long_term, dpb)?;
    let counts = short_term_pocs(alloc, picture.kind, long.as_slice(), dpb)?;
    let entries = references.long_term.entries.as_slice();
    let (lt_curr, lt_foll) = long_term_sets(alloc, long.as_slice(), entries)?;
    let set = &references.short_term_ref_pic_set;
    let counts = counts.as_slice();
    let (st_curr_before, st_curr_after, st_foll) = short_term_sets(alloc, counts, picture, set)?;
    Ok(NamedSets {
        st_curr_before,
        st_curr_after,
        st_foll,
        lt_curr,
        lt_foll,
    })
}

/// The places of the pictures that the long-term entries name, among all that are marked as reference.
#[tactic(auto, unfolding(spec_reference_pictures::specs::ReferencePictureSet::long_term_places))]
fn marked_places(
    alloc: Global,
    picture: CurrentPicture,
    long: &LongTermRefs,
    dpb: &[DpbPicture],
) -> Result<EntryPlaces, AllocError>
    requires max_lsb_low { 16 ≤ picture.kind.max_lsb }
    requires max_lsb_high { picture.kind.max_lsb ≤ 65536 }
    requires entries { length long.now.entries ≤ 33 }
    requires few { length dpb.now < 2 ^ 32 }
    ensures value { IfOk result (λ places. places ≡ long_term_places picture.kind long.now picture.poc dpb.now) }
    ensures each { IfOk result (λ places. length places ≡ length long.now.entries) }
{
    let marked = reference_pocs(alloc, picture.kind, dpb)?;
    long_term_places(alloc, picture, long, marked.as_slice())
}

/// RefPicSetLtCurr and RefPicSetLtFoll, where `places` are those of all entries.
fn long_term_sets(
    alloc: Global,
    places: &[Option<u32>],
    entries: &[LongTermRef],
) -> Result<(EntryPlaces, EntryPlaces), AllocError>
    requires same { length places.now ≡ length entries.now }
    ensures current { IfOk result (λ sets. sets.0 ≡ long_term_set places.now true entries.now) }
    ensures later { IfOk result (λ sets. sets.1 ≡ long_term_set places.now false entries.now) }
{
    let current = long_term_set(alloc, places, true, entries)?;
    let later = long_term_set(alloc, places, false, entries)?;
    Ok((current, later))
}

/// RefPicSetStCurrBefore, RefPicSetStCurrAfter and RefPicSetStFoll, where `counts` are the order counts of the
/// short-term pictures.
fn short_term_sets(
    alloc: Global,
    counts: &[Option<i32>],
    picture: CurrentPicture,
    set: &StRps,
) -> Result<(EntryPlaces, EntryPlaces, EntryPlaces), AllocError>
    requires few { length counts.now < 2 ^ 32 }
    ensures before { IfOk result (λ sets. sets.0 ≡ short_term_set counts.now picture.poc true set.now.negative) }
    ensures after { IfOk result (λ sets. sets.1 ≡ short_term_set counts.now picture.poc true set.now.positive) }
    ensures later { IfOk result (λ sets. sets.2
        ≡ short_term_set counts.now picture.poc false set.now.negative
        ++ short_term_set counts.now picture.poc false set.now.positive) }
{
    let negative = set.negative.as_slice();
    let positive = set.positive.as_slice();
    let before = short_term_set(alloc, counts, picture, true, negative)?;
    let after = short_term_set(alloc, counts, picture, true, positive)?;
    let mut later = short_term_set(alloc, counts, picture, false, negative)?;
    add_short_term(&mut later, counts, picture, false, positive)?;
    Ok((before, after, later))
}

/// Whether a picture lacks that the picture itself may use.
#[tactic(auto, unfolding(spec_reference_pictures::specs::ReferencePictureSet::lacks_current))]
fn lacks_current(sets: &NamedSets) -> bool
    ensures { result ≡ lacks_current sets.now }
{
    lacks(sets.st_curr_before.as_slice())
        || lacks(sets.st_curr_after.as_slice())
        || lacks(sets.lt_curr.as_slice())
}

/// Whether a picture lacks.
fn lacks(places: &[Option<u32>]) -> bool
    ensures { result ≡ list_any is_none places.now }
{
    places.iter().any(|place| place.is_none())
}

/// The set of the pictures that were found in a buffer of `size` pictures.
#[tactic(auto, unfolding(spec_reference_pictures::specs::ReferencePictureSet::found_set))]
fn found_set(alloc: Global, sets: &NamedSets, size: usize) -> Result<Rps, AllocError>
    requires size { size < 2 ^ 32 }
    ensures { IfOk result (λ rps. rps ≡ found_set sets.now size) }
{
    let lt_curr = found(alloc, sets.lt_curr.as_slice())?;
    let lt_foll = found(alloc, sets.lt_foll.as_slice())?;
    let marks = marks(alloc, sets, size)?;
    let (st_curr_before, st_curr_after, st_foll) = found_short_term(alloc, sets)?;
    Ok(Rps {
        st_curr_before,
        st_curr_after,
        st_foll,
        lt_curr: FieldList::from_items(lt_curr),
        lt_foll: FieldList::from_items(lt_foll),
        marks: FieldList::from_items(marks),
    })
}

/// The short-term pictures that were found.
fn found_short_term(
    alloc: Global,
    sets: &NamedSets,
) -> Result<(FieldList<u32>, FieldList<u32>, FieldList<u32>), AllocError>
    ensures before { IfOk result (λ lists. lists.0 ≡ found sets.now.st_curr_before) }
    ensures after { IfOk result (λ lists. lists.1 ≡ found sets.now.st_curr_after) }
    ensures later { IfOk result (λ lists. lists.2 ≡ found sets.now.st_foll) }
{
    let before = found(alloc, sets.st_curr_before.as_slice())?;
    let after = found(alloc, sets.st_curr_after.as_slice())?;
    let later = found(alloc, sets.st_foll.as_slice())?;
    Ok((
        FieldList::from_items(before),
        FieldList::from_items(after),
        FieldList::from_items(later),
    ))
}

/// The pictures that were found.
#[tactic(auto, unfolding(spec_reference_pictures::specs::ReferencePictureSet::found))]
fn found(alloc: Global, places: &[Option<u32>]) -> Result<Vec<u32>, AllocError>
    ensures { IfOk result (λ list. list.items ≡ found places.now) }
{
    places.iter().filter_map(|place| *place).collect(alloc)
}

/// How each picture is marked afterwards.
fn marks(alloc: Global, sets: &NamedSets, size: usize) -> Result<Vec<Mark>, AllocError>
    requires size { size < 2 ^ 32 }
    ensures { IfOk result (λ marks. marks.items ≡ map (mark_after sets.now) (range_with_len 0 size)) }
{
    (0..size as u32).map(|k| mark_after(sets, k)).collect(alloc)
}

/// How the picture at place `k` is marked afterwards.
#[tactic(auto, unfolding(spec_reference_pictures::specs::ReferencePictureSet::mark_after))]
fn mark_after(sets: &NamedSets, k: u32) -> Mark
    ensures { result ≡ mark_after sets.now k }
{
    if is_among(k, sets.lt_curr.as_slice()) || is_among(k, sets.lt_foll.as_slice()) {
        Mark::Long
    } else if is_among(k, sets.st_curr_before.as_slice())
        || is_among(k, sets.st_curr_after.as_slice())
        || is_among(k, sets.st_foll.as_slice())
    {
        Mark::Short
    } else {
        Mark::Unused
    }
}

/// NumPicTotalCurr: how many entries name pictures that the picture itself may use (7-43).
#[tactic(auto, unfolding(spec_reference_pictures::specs::ReferencePictureSet::num_pic_total_curr))]
pub fn num_pic_total_curr(references: &ReferenceFields) -> u32
    requires negative { length references.now.short_term_ref_pic_set.negative ≤ 16 }
    requires positive { length references.now.short_term_ref_pic_set.positive ≤ 16 }
    requires long { length references.now.long_term.entries ≤ 33 }
    ensures { result ≡ num_pic_total_curr references.now }
{
    let set = &references.short_term_ref_pic_set;
    used_short(set.negative.as_slice())
        + used_short(set.positive.as_slice())
        + used_long(references.long_term.entries.as_slice())
}

/// How many short-term entries are used by the picture itself.
fn used_short(entries: &[ShortTermRef]) -> u32
    requires { length entries.now ≤ 33 }
    ensures value { result ≡ count_by (λ (r : ShortTermRef). r.used) entries.now }
    ensures few { result ≤ length entries.now }
{
    entries.iter().filter(|entry| entry.used).count() as u32
}

/// How many long-term entries are used by the picture itself.
fn used_long(entries: &[LongTermRef]) -> u32
    requires { length entries.now ≤ 33 }
    ensures value { result ≡ count_by (λ (r : LongTermRef). r.used_by_curr_pic_lt_flag) entries.now }
    ensures few { result ≤ length entries.now }
{
    entries
        .iter()
        .filter(|entry| entry.used_by_curr_pic_lt_flag)
        .count() as u32
}
