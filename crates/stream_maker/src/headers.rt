//! Slice segment headers of made pictures.

ghost use Rattle.std.specs.Prelude.{◌≡◌, ◌^◌, ◌<◌, ◌≤◌, pos, true, false, [], ◌∷◌, ◌++◌, map, OnOk};
ghost use Rattle.spec_written_headers.specs.Codes.{Bits, Flagged, Golomb, Signed, spelled};
ghost use Rattle.std.specs.Prelude.{IfOk, length};
ghost use Rattle.spec_bits.specs.Spelling.{aligned_bits};
ghost use Rattle.spec_made.specs.Written.{bytes_of};
ghost use Rattle.spec_made.specs.Headers.{header_bytes, idr_codes, inter_codes, reference_codes, slice_type_of};
ghost use Rattle.spec_made.specs.Headers.{first_codes, last_codes, entry_codes, idr_start, one_reference};
ghost use Rattle.spec_made.specs.Headers.{two_references};

use hv_bits::BitWriter;
use made_rows::are_bytes;
use spec_made::Shift;
use std::alloc::{AllocError, Global};

/// A flag.
#[tactic(auto, using(crate::proofs::Codes::flag_bits))]
fn flag(writer: &mut BitWriter, value: bool) -> Result<(), AllocError>
    ensures { OnOk result (writer.new ≡ writer.old ++ spelled (Flagged value ∷ []) []) }
{
    writer.u(1, u32::from(value))?;
    Ok(())
}

/// A number of `n` bits.
#[tactic(auto, using(crate::proofs::Codes::code_bits))]
fn number(writer: &mut BitWriter, n: u32, value: u32) -> Result<(), AllocError>
    requires few { n ≤ 32 }
    requires small { value < 2 ^ n }
    ensures { OnOk result (writer.new ≡ writer.old ++ spelled (Bits n value ∷ []) []) }
{
    writer.u(n, value)?;
    Ok(())
}

/// ue(v).
#[tactic(auto, using(crate::proofs::Codes::golomb_bits))]
fn golomb(writer: &mut BitWriter, value: u32) -> Result<(), AllocError>
    requires { value ≤ 4294967294 }
    ensures { OnOk result (writer.new ≡ writer.old ++ spelled (Golomb value ∷ []) []) }
{
    writer.ue(value)?;
    Ok(())
}

/// se(v) of 0.
#[tactic(auto, using(crate::proofs::Codes::signed_bits))]
fn signed_zero(writer: &mut BitWriter) -> Result<(), AllocError>
    ensures { OnOk result (writer.new ≡ writer.old ++ spelled (Signed (pos 0) ∷ []) []) }
{
    writer.se(0)?;
    Ok(())
}

/// An IDR picture's fields up to slice_type.
#[tactic(auto, using(crate::proofs::Codes::codes_append))]
fn idr_start(writer: &mut BitWriter) -> Result<(), AllocError>
    ensures { OnOk result (writer.new ≡ writer.old ++ spelled idr_start []) }
{
    flag(writer, true)?;
    flag(writer, false)?;
    golomb(writer, 0)?;
    number(writer, 0, 0)?;
    golomb(writer, 2)?;
    Ok(())
}

/// Another picture's fields up to short_term_ref_pic_set_sps_flag.
#[tactic(auto, using(crate::proofs::Codes::codes_append))]
fn inter_start(writer: &mut BitWriter, slice_type: u32, poc: u32) -> Result<(), AllocError>
    requires slice_type { slice_type ≤ 2 }
    requires poc { poc < 256 }
    ensures { OnOk result (writer.new ≡ writer.old ++ spelled (first_codes slice_type poc) []) }
{
    flag(writer, true)?;
    golomb(writer, 0)?;
    number(writer, 0, 0)?;
    golomb(writer, slice_type)?;
    number(writer, 8, poc)?;
    flag(writer, false)?;
    Ok(())
}

/// The reference picture set of a P picture, and its number of references.
#[tactic(auto, using(crate::proofs::Codes::codes_append))]
fn one_reference(writer: &mut BitWriter) -> Result<(), AllocError>
    ensures { OnOk result (writer.new ≡ writer.old ++ spelled one_reference []) }
{
    golomb(writer, 1)?;
    golomb(writer, 0)?;
    golomb(writer, 1)?;
    flag(writer, true)?;
    flag(writer, false)?;
    Ok(())
}

/// Those of a B picture, and mvd_l1_zero_flag.
#[tactic(auto, using(crate::proofs::Codes::codes_append))]
fn two_references(writer: &mut BitWriter) -> Result<(), AllocError>
    ensures { OnOk result (writer.new ≡ writer.old ++ spelled two_references []) }
{
    golomb(writer, 1)?;
    golomb(writer, 1)?;
    golomb(writer, 0)?;
    flag(writer, true)?;
    golomb(writer, 0)?;
    flag(writer, true)?;
    flag(writer, false)?;
    flag(writer, false)?;
    Ok(())
}

/// Entry points, of 32 bits each.
fn entry_points(writer: &mut BitWriter, offsets: &[u32]) -> Result<(), AllocError>
    ensures { OnOk result (writer.new ≡ writer.old ++ spelled (entry_codes offsets.now) []) }
{
    for k in 0..offsets.len() {
        number(writer, 32, offsets[k])?;
    }
    Ok(())
}

/// slice_qp_delta, and the entry points.
#[tactic(auto, using(crate::proofs::Codes::codes_append))]
fn last_fields(writer: &mut BitWriter, offsets: &[u32]) -> Result<(), AllocError>
    ensures { OnOk result (writer.new ≡ writer.old ++ spelled (last_codes offsets.now) []) }
{
    signed_zero(writer)?;
    golomb(writer, 5)?;
    golomb(writer, 31)?;
    entry_points(writer, offsets)?;
    Ok(())
}

/// The bytes of a header behind its last field, with its byte alignment.
fn aligned_bytes(alloc: Global, writer: BitWriter) -> Result<Vec<u8>, AllocError>
    ensures { IfOk result (λ bytes. bytes.items ≡ bytes_of (writer ++ aligned_bits (length writer))) }
{
    let mut writer = writer;
    writer.align()?;
    let written = writer.bytes();
    are_bytes(written);
    let mut bytes = Vec::new(alloc);
    bytes.extend_from_slice(written)?;
    Ok(bytes)
}

/// An IDR picture's header.
#[tactic(auto, using(crate::proofs::Codes::codes_append), unfolding(spec_made::specs::Headers::idr_codes))]
pub fn idr_header(alloc: Global, offsets: &[u32]) -> Result<Vec<u8>, AllocError>
    ensures { IfOk result (λ bytes. bytes.items ≡ header_bytes (idr_codes offsets.now)) }
{
    let mut writer = BitWriter::new(alloc);
    idr_start(&mut writer)?;
    last_fields(&mut writer, offsets)?;
    aligned_bytes(alloc, writer)
}

/// The references of a P picture, or of a B picture.
fn references(writer: &mut BitWriter, second: Option<Shift>) -> Result<(), AllocError>
    ensures { OnOk result (writer.new ≡ writer.old ++ spelled (reference_codes second) []) }
{
    match second {
        None => one_reference(writer),
        Some(_) => two_references(writer),
    }
}

/// slice_type of a P picture, or of a B picture.
fn slice_type_of(second: Option<Shift>) -> u32
    ensures value { result ≡ slice_type_of second }
    ensures small { result ≤ 1 }
{
    match second {
        None => 1,
        Some(_) => 0,
    }
}

/// Another picture's header.
#[tactic(auto, using(crate::proofs::Codes::codes_append), unfolding(spec_made::specs::Headers::inter_codes))]
pub fn inter_header(
    alloc: Global,
    second: Option<Shift>,
    poc: u32,
    offsets: &[u32],
) -> Result<Vec<u8>, AllocError>
    requires { poc < 256 }
    ensures { IfOk result (λ bytes. bytes.items ≡ header_bytes (inter_codes second poc offsets.now)) }
{
    let mut writer = BitWriter::new(alloc);
    inter_start(&mut writer, slice_type_of(second), poc)?;
    references(&mut writer, second)?;
    golomb(&mut writer, 4)?;
    last_fields(&mut writer, offsets)?;
    aligned_bytes(alloc, writer)
}
