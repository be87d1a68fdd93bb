//! The reference fields of a slice as lines (7.3.6.1).

use crate::lines::{Lines, fields};
use crate::set_lists::short_term_set;
use header_types::{LongTermCandidate, LongTermRef, SpsFields};
use slice_types::{LongTermRefs, ReferenceFields};
use std::io::Write;

/// The fields in the order of the grammar, a short-term set that stands in the header as it is derived.
pub(crate) fn reference_lines<W: Write>(
    lines: &mut Lines<'_, W>,
    references: &ReferenceFields,
    sps: &SpsFields,
) {
    fields!(lines, references; slice_pic_order_cnt_lsb, short_term_ref_pic_set_sps_flag);
    short_term(lines, references, sps);
    if let Some(candidates) = &sps.references.long_term_ref_pics {
        long_term(lines, &references.long_term, candidates.as_slice());
    }
}

fn short_term<W: Write>(lines: &mut Lines<'_, W>, references: &ReferenceFields, sps: &SpsFields) {
    if !references.short_term_ref_pic_set_sps_flag {
        lines.text("short_term_ref_pic_set=");
        short_term_set(lines, &references.short_term_ref_pic_set);
    } else if sps.references.short_term_ref_pic_sets.len() > 1 {
        lines.number(
            "short_term_ref_pic_set_idx",
            references.short_term_ref_pic_set_idx,
        );
    }
}

fn long_term<W: Write>(
    lines: &mut Lines<'_, W>,
    refs: &LongTermRefs,
    candidates: &[LongTermCandidate],
) {
    let from_sps = refs.num_long_term_sps;
    if candidates.len() > 0 {
        lines.number("num_long_term_sps", from_sps);
    }
    let count = refs.entries.len().saturating_sub(from_sps as usize);
    lines.number("num_long_term_pics", count);
    for (i, entry) in refs.entries.as_slice().iter().enumerate() {
        long_term_name(lines, i, *entry, candidates.len() > 1);
        msb_cycle(lines, i, entry.delta_poc_msb_cycle_lt);
    }
}

/// lt_idx_sps where there are several candidates to choose from, or the entry's own fields.
fn long_term_name<W: Write>(
    lines: &mut Lines<'_, W>,
    index: usize,
    entry: LongTermRef,
    has_choice: bool,
) {
    match entry.lt_idx_sps {
        Some(candidate) if has_choice => lines.item("lt_idx_sps", index, candidate),
        Some(_) => {}
        None => {
            let is_used = u32::from(entry.used_by_curr_pic_lt_flag);
            lines.item("poc_lsb_lt", index, entry.poc_lsb_lt);
            lines.item("used_by_curr_pic_lt_flag", index, is_used);
        }
    }
}

fn msb_cycle<W: Write>(lines: &mut Lines<'_, W>, index: usize, cycle: Option<u32>) {
    let is_present = u32::from(cycle.is_some());
    lines.item("delta_poc_msb_present_flag", index, is_present);
    if let Some(cycle) = cycle {
        lines.item("delta_poc_msb_cycle_lt", index, cycle);
    }
}
