//! The lists of parameter sets as lines: scaling lists and short-term reference picture sets, as they are derived.

use crate::lines::Lines;
use header_types::{ScalingList, ScalingLists, ShortTermRef, StRps};
use std::io::Write;

/// The flag of this name, which says whether lists are coded, and the lists.
pub(crate) fn coded_scaling_lists<W: Write>(
    lines: &mut Lines<'_, W>,
    name: &str,
    lists: &Option<ScalingLists>,
) {
    lines.flag(name, lists.is_some());
    if let Some(lists) = lists {
        scaling_lists(lines, lists);
    }
}

/// The factors of each list and its DC factor, by sizeId and matrixId (7.3.4).
fn scaling_lists<W: Write>(lines: &mut Lines<'_, W>, lists: &ScalingLists) {
    for (i, list) in lists.lists.as_slice().iter().enumerate() {
        lines.text("scaling_list[");
        lines.part(i / 6, "][");
        lines.part(i % 6, "]=");
        factors(lines, list);
    }
}

fn factors<W: Write>(lines: &mut Lines<'_, W>, list: &ScalingList) {
    for factor in list.factors.as_slice() {
        lines.part(*factor, ",");
    }
    lines.text("dc ");
    lines.part(list.dc, "\n");
}

/// The entries of each set, as a difference of picture order counts and whether the entry is used (7.4.8).
pub(crate) fn short_term_sets<W: Write>(lines: &mut Lines<'_, W>, sets: &[StRps]) {
    for (i, set) in sets.iter().enumerate() {
        lines.text("short_term_ref_pic_set[");
        lines.part(i, "]=");
        short_term_set(lines, set);
    }
}

/// The entries of a set and the line's end.
pub(crate) fn short_term_set<W: Write>(lines: &mut Lines<'_, W>, set: &StRps) {
    entries(lines, set.negative.as_slice());
    entries(lines, set.positive.as_slice());
    lines.text("\n");
}

fn entries<W: Write>(lines: &mut Lines<'_, W>, entries: &[ShortTermRef]) {
    for entry in entries {
        lines.part(entry.delta_poc, ":");
        lines.part(u32::from(entry.used), ",");
    }
}
