//! A table of prediction weights as lines (7.3.6.3).

use crate::lines::{Lines, fields};
use slice_types::{ChromaWeight, PredWeightTable, RefWeights};
use std::io::Write;

/// The fields in the order of the grammar; those of list 1 where the list has entries.
pub(crate) fn weight_lines<W: Write>(lines: &mut Lines<'_, W>, table: &PredWeightTable) {
    fields!(lines, table; luma_log2_weight_denom, delta_chroma_log2_weight_denom);
    list_weights(lines, 0, table.l0.as_slice());
    list_weights(lines, 1, table.l1.as_slice());
}

/// The flags and the weights of a list's entries.
fn list_weights<W: Write>(lines: &mut Lines<'_, W>, list: u32, weights: &[RefWeights]) {
    for (i, entry) in weights.iter().enumerate() {
        let is_coded = i32::from(entry.luma.is_some());
        entry_field(lines, "luma_weight_l", list, "_flag[", i, is_coded);
    }
    for (i, entry) in weights.iter().enumerate() {
        let is_coded = i32::from(entry.chroma.is_some());
        entry_field(lines, "chroma_weight_l", list, "_flag[", i, is_coded);
    }
    for (i, entry) in weights.iter().enumerate() {
        entry_weights(lines, list, i, *entry);
    }
}

fn entry_weights<W: Write>(lines: &mut Lines<'_, W>, list: u32, index: usize, entry: RefWeights) {
    if let Some(luma) = entry.luma {
        let (weight, offset) = (luma.delta_luma_weight, luma.luma_offset);
        entry_field(lines, "delta_luma_weight_l", list, "[", index, weight);
        entry_field(lines, "luma_offset_l", list, "[", index, offset);
    }
    if let Some((cb, cr)) = entry.chroma {
        chroma_weight(lines, list, index, 0, cb);
        chroma_weight(lines, list, index, 1, cr);
    }
}

fn chroma_weight<W: Write>(
    lines: &mut Lines<'_, W>,
    list: u32,
    index: usize,
    component: i32,
    chroma: ChromaWeight,
) {
    let (weight, offset) = (chroma.delta_chroma_weight, chroma.delta_chroma_offset);
    chroma_field(
        lines,
        "delta_chroma_weight_l",
        list,
        index,
        component,
        weight,
    );
    chroma_field(
        lines,
        "delta_chroma_offset_l",
        list,
        index,
        component,
        offset,
    );
}

/// A field of an entry of a list: its name up to the list's number, and what stands between that and the index.
fn entry_field<W: Write>(
    lines: &mut Lines<'_, W>,
    name: &str,
    list: u32,
    behind: &str,
    index: usize,
    value: i32,
) {
    lines.text(name);
    lines.part(list, behind);
    lines.part(index, "]=");
    lines.part(value, "\n");
}

/// A field of one chroma component of an entry.
fn chroma_field<W: Write>(
    lines: &mut Lines<'_, W>,
    name: &str,
    list: u32,
    index: usize,
    component: i32,
    value: i32,
) {
    lines.text(name);
    lines.part(list, "[");
    lines.part(index, "][");
    lines.part(component, "]=");
    lines.part(value, "\n");
}
