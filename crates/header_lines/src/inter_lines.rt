//! The fields of P and B slices as lines (7.3.6.1, 7.3.6.2).

use crate::lines::Lines;
use crate::weight_lines::weight_lines;
use header_types::{FieldList, PpsFields, ShortTermRef};
use slice_types::{Collocated, InterFields, ReferenceFields};
use std::io::Write;

/// The fields in the order of the grammar.
pub(crate) fn inter_lines<W: Write>(
    lines: &mut Lines<'_, W>,
    inter: &InterFields,
    references: &ReferenceFields,
    pps: &PpsFields,
) {
    active_entries(lines, inter);
    if pps.lists_modification_present_flag && current_pictures(references) > 1 {
        modifications(lines, inter);
    }
    if inter.num_ref_idx_l1_active_minus1.is_some() {
        lines.flag("mvd_l1_zero_flag", inter.mvd_l1_zero_flag);
    }
    if pps.slice_defaults.cabac_init_present_flag {
        lines.flag("cabac_init_flag", inter.cabac_init_flag);
    }
    if let Some(place) = inter.collocated {
        collocated(lines, inter, place);
    }
    if let Some(table) = &inter.weights {
        weight_lines(lines, table);
    }
    lines.number(
        "five_minus_max_num_merge_cand",
        inter.five_minus_max_num_merge_cand,
    );
}

fn active_entries<W: Write>(lines: &mut Lines<'_, W>, inter: &InterFields) {
    let is_overridden = inter.num_ref_idx_active_override_flag;
    lines.flag("num_ref_idx_active_override_flag", is_overridden);
    if is_overridden {
        lines.number(
            "num_ref_idx_l0_active_minus1",
            inter.num_ref_idx_l0_active_minus1,
        );
        if let Some(minus1) = inter.num_ref_idx_l1_active_minus1 {
            lines.number("num_ref_idx_l1_active_minus1", minus1);
        }
    }
}

/// NumPicTotalCurr (7-43).
fn current_pictures(references: &ReferenceFields) -> usize {
    let set = &references.short_term_ref_pic_set;
    let mut count = used_count(set.negative.as_slice());
    count = count.saturating_add(used_count(set.positive.as_slice()));
    for entry in references.long_term.entries.as_slice() {
        if entry.used_by_curr_pic_lt_flag {
            count = count.saturating_add(1);
        }
    }
    count
}

fn used_count(entries: &[ShortTermRef]) -> usize {
    let mut count: usize = 0;
    for entry in entries {
        if entry.used {
            count = count.saturating_add(1);
        }
    }
    count
}

fn modifications<W: Write>(lines: &mut Lines<'_, W>, inter: &InterFields) {
    lines.flag(
        "ref_pic_list_modification_flag_l0",
        inter.list_entry_l0.is_some(),
    );
    list_entries(lines, "list_entry_l0", &inter.list_entry_l0);
    if inter.num_ref_idx_l1_active_minus1.is_some() {
        lines.flag(
            "ref_pic_list_modification_flag_l1",
            inter.list_entry_l1.is_some(),
        );
        list_entries(lines, "list_entry_l1", &inter.list_entry_l1);
    }
}

fn list_entries<W: Write>(lines: &mut Lines<'_, W>, name: &str, entries: &Option<FieldList<u32>>) {
    if let Some(entries) = entries {
        for (i, entry) in entries.as_slice().iter().enumerate() {
            lines.item(name, i, *entry);
        }
    }
}

/// The collocated picture: from which list in B slices, and its index where the list has several entries.
fn collocated<W: Write>(lines: &mut Lines<'_, W>, inter: &InterFields, collocated: Collocated) {
    let from_l0 = collocated.collocated_from_l0_flag;
    let l1_minus1 = inter.num_ref_idx_l1_active_minus1;
    if l1_minus1.is_some() {
        lines.flag("collocated_from_l0_flag", from_l0);
    }
    let minus1 = if from_l0 {
        inter.num_ref_idx_l0_active_minus1
    } else {
        l1_minus1.unwrap_or(0)
    };
    if minus1 != 0 {
        lines.number("collocated_ref_idx", collocated.collocated_ref_idx);
    }
}
