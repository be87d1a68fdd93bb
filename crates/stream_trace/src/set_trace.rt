//! Parameter sets as lines, or why they aren't accepted.

use header_lines::{print_pps, print_sps};
use hv_base::{Nal, PPS_NUT, Refusal, SPS_NUT};
use param_sets::read_sps;
use picture_parameter_sets::read_pps;
use std::alloc::{AllocError, Global};
use std::io::{self, Write};

/// Prints the fields of a parameter set of the base layer, or the rule or limit for which it isn't accepted.
pub(crate) fn print_set<W: Write>(alloc: Global, nal: &Nal, out: &mut W) -> io::Result<()> {
    if nal.layer != 0 {
        return Ok(());
    }
    match nal.nal_type {
        SPS_NUT => match read_sps(alloc, nal.rbsp.as_slice()) {
            Ok(sps) => print_sps(sps.fields(), out),
            Err(refusal) => print_refusal(refusal, out),
        },
        PPS_NUT => match read_pps(alloc, nal.rbsp.as_slice()) {
            Ok(pps) => print_pps(pps.fields(), out),
            Err(refusal) => print_refusal(refusal, out),
        },
        _ => Ok(()),
    }
}

fn print_refusal<W: Write>(refusal: Refusal, out: &mut W) -> io::Result<()> {
    let name = match refusal {
        Refusal::Memory => return Err(io::Error::from(AllocError)),
        Refusal::Fault(kind) => kind.name(),
        Refusal::Limit(kind) => kind.name(),
    };
    writeln!(out, "refused {name}")
}
