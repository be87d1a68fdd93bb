//! Reference picture lists (8.3.4).

ghost use Rattle.std.specs.Prelude.{◌≡◌, ◌+◌, ◌<◌, ◌≤◌, IfSome, Option, List, length, map, slice_index_or};
ghost use Rattle.slice_types.specs.SliceHeaders.{IsInterFields};
ghost use Rattle.spec_reference_pictures.specs.ReferenceLists.{entry_taken, in_turn, list_0, list_1, list_1_of};
ghost use Rattle.spec_reference_pictures.specs.ReferenceLists.{no_reference, order_count_at, reference_list};
ghost use Rattle.spec_reference_pictures.specs.ReferenceLists.{reference_lists, temporary_entry};

use header_types::{DpbPicture, FieldList, Lists, RefEntry, RefList, Rps};
use slice_types::{InterFields, SliceFields};
use std::marker::Model;

/// The reference picture lists of a slice (8.3.4). A slice without fields of P and B slices has none, one without
/// num_ref_idx_l1_active_minus1 has no list 1, and where NumPicTotalCurr is 0 there is none. `dpb` is the decoded
/// picture buffer in decoding order, before this picture.
#[tactic(auto, unfolding(spec_reference_pictures::specs::ReferenceLists::reference_lists))]
pub fn build_lists(slice: &SliceFields, rps: &Rps, dpb: &[DpbPicture]) -> Lists
    requires { IfSome slice.now.inter IsInterFields }
    ensures { result ≡ reference_lists slice.now rps.now dpb.now }
{
    match &slice.inter {
        Some(fields) => Lists {
            l0: list_0(fields, rps, dpb),
            l1: list_1(fields, rps, dpb),
        },
        None => Lists {
            l0: RefList::new(),
            l1: RefList::new(),
        },
    }
}

/// List 0 of a P or B slice.
fn list_0(fields: &InterFields, rps: &Rps, dpb: &[DpbPicture]) -> RefList
    requires { fields.now.num_ref_idx_l0_active_minus1 ≤ 14 }
    ensures { result
        ≡ reference_list (in_turn dpb.now rps.now.st_curr_before rps.now.st_curr_after rps.now.lt_curr)
        (fields.now.num_ref_idx_l0_active_minus1 + 1) fields.now.list_entry_l0 }
{
    let turn = Turn {
        dpb,
        first: rps.st_curr_before.as_slice(),
        second: rps.st_curr_after.as_slice(),
        long: rps.lt_curr.as_slice(),
    };
    reference_list(
        &turn,
        fields.num_ref_idx_l0_active_minus1 + 1,
        &fields.list_entry_l0,
    )
}

/// List 1 of a P or B slice.
fn list_1(fields: &InterFields, rps: &Rps, dpb: &[DpbPicture]) -> RefList
    requires { IfSome fields.now.num_ref_idx_l1_active_minus1 (λ minus1. minus1 ≤ 14) }
    ensures { result ≡ list_1_of fields.now.num_ref_idx_l1_active_minus1 fields.now.list_entry_l1 rps.now dpb.now }
{
    let active_minus1 = match fields.num_ref_idx_l1_active_minus1 {
        Some(active_minus1) => active_minus1,
        None => return RefList::new(),
    };
    let turn = Turn {
        dpb,
        first: rps.st_curr_after.as_slice(),
        second: rps.st_curr_before.as_slice(),
        long: rps.lt_curr.as_slice(),
    };
    reference_list(&turn, active_minus1 + 1, &fields.list_entry_l1)
}

/// The list of `active` entries.
#[tactic(auto, unfolding(spec_reference_pictures::specs::ReferenceLists::reference_list))]
fn reference_list<'a>(turn: &Turn<'a>, active: u32, list_entry: &Option<FieldList<u32>>) -> RefList
    requires { active ≤ 16 }
    ensures { result ≡ reference_list turn.now active list_entry.now }
{
    let mut list = RefList::new();
    let size = turn.len();
    if size == 0 {
        return list;
    }
    for i in 0..active as usize {
        list.push(turn.get(entry_taken(list_entry, i) % size));
    }
    list
}

/// Which entry of the temporary list entry `i` of the list is.
fn entry_taken(list_entry: &Option<FieldList<u32>>, i: usize) -> usize
    ensures { result ≡ entry_taken list_entry.now i }
{
    match list_entry {
        Some(entries) => at(entries.as_slice(), i),
        None => i,
    }
}

/// An entry of list_entry.
fn at(entries: &[u32], i: usize) -> usize
    ensures { result ≡ slice_index_or entries.now i 0 }
{
    if i < entries.len() {
        entries[i] as usize
    } else {
        0
    }
}

/// The pictures that a picture may use, in the order of a list. Contracts see the entries.
#[derive(Drop)]
struct Turn<'a> {
    dpb: &'a [DpbPicture],
    first: &'a [u32],
    second: &'a [u32],
    long: &'a [u32],
}

impl<'a> Model for Turn<'a> {
    ghost use Rattle.std.specs.Prelude.{List};
    ghost use Rattle.header_types.specs.declared.reference_pictures.RefEntry.{RefEntry};
    ghost use Rattle.spec_reference_pictures.specs.ReferenceLists.{in_turn};

    ghost Value = { List RefEntry };

    ghost view = { λ t. in_turn t.dpb.now t.first.now t.second.now t.long.now };
}

impl<'a> Turn<'a> {
    /// NumPicTotalCurr.
    #[tactic(auto, unfolding(spec_reference_pictures::specs::ReferenceLists::in_turn))]
    fn len(&self) -> usize
        ensures { result ≡ length self.now }
    {
        self.first.len() + self.second.len() + self.long.len()
    }

    /// The entry at `i`.
    #[tactic(auto, unfolding(spec_reference_pictures::specs::ReferenceLists::in_turn))]
    fn get(&self, i: usize) -> RefEntry
        requires { i < length self.now }
        ensures { result ≡ slice_index_or self.now i no_reference }
    {
        if i < self.first.len() {
            return entry(self.dpb, self.first[i], false);
        }
        let i = i - self.first.len();
        if i < self.second.len() {
            return entry(self.dpb, self.second[i], false);
        }
        entry(self.dpb, self.long[i - self.second.len()], true)
    }
}

/// The order count of the picture at a place of the buffer.
fn order_count_at(dpb: &[DpbPicture], place: u32) -> i32
    ensures { result ≡ order_count_at dpb.now place }
{
    match dpb.get(place as usize) {
        Some(picture) => picture.poc,
        None => 0,
    }
}

/// The entry for the picture at a place of the buffer.
fn entry(dpb: &[DpbPicture], place: u32, is_long_term: bool) -> RefEntry
    ensures { result ≡ record { place = place; poc = order_count_at dpb.now place; is_long_term = is_long_term } }
{
    RefEntry {
        place,
        poc: order_count_at(dpb, place),
        is_long_term,
    }
}
