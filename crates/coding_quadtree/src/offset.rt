//! sao (7.3.8.3).

ghost use Rattle.std.specs.Prelude.{◌≡◌, ◌≤◌, ◌^◌, IfOk};
ghost use Rattle.spec_cabac.specs.Engine.{IsLive};
ghost use Rattle.spec_slice_data.specs.Offset.{band, band_offset, class_of, class_where, edge, kind_of, like_component};
ghost use Rattle.spec_slice_data.specs.Offset.{greatest_offset, merge_flag, offsets, own_component, own_sao, sao};
ghost use Rattle.spec_slice_data.specs.Offset.{sao_offset_abs, sao_or_above, sao_type_idx};
ghost use Rattle.transform_tree.specs.CabacContexts.{Takes};

use ctu_records::{ComponentOffset, Sao};
use hv_base::Breach;
use spec_cabac::{SAO_MERGE_FLAG, SAO_TYPE_IDX};
use spec_slice_data::CtuSyntax;
use transform_tree::{BinReader, signed};

/// 2^`n`.
#[tactic(auto, using(crate::proofs::Powers::few_sizes, crate::proofs::Powers::some_sizes))]
fn sizes_of(n: u32) -> u32
    requires { n ≤ 5 }
    ensures value { result ≡ 2 ^ n }
    ensures some { 1 ≤ result }
    ensures few { result ≤ 32 }
{
    1 << n
}

/// The greatest sao_offset_abs, by the bit depth of the component.
#[tactic(auto, unfolding(spec_slice_data::specs::Offset::greatest_offset))]
fn greatest_offset(depth: u8) -> u32
    ensures value { result ≡ greatest_offset depth }
    ensures small { result ≤ 31 }
{
    sizes_of(u32::from(depth).min(10).saturating_sub(5)) - 1
}

/// sao_offset_abs.
#[tactic(auto, unfolding(spec_slice_data::specs::Offset::sao_offset_abs))]
fn sao_offset_abs(reader: &mut BinReader<'_>, depth: u8) -> Result<u32, Breach>
    requires { IsLive reader.old.interval }
    ensures value { Takes (λ x. x) result reader.old reader.new (sao_offset_abs depth) }
    ensures small { IfOk result (λ n. n ≤ 31) }
{
    reader.truncated(greatest_offset(depth))
}

/// An offset of band offset.
#[tactic(auto, unfolding(spec_slice_data::specs::Offset::band_offset))]
fn band_offset(reader: &mut BinReader<'_>, size: u32) -> Result<i8, Breach>
    requires live { IsLive reader.old.interval }
    requires small { size ≤ 31 }
    ensures { Takes (λ x. x) result reader.old reader.new (band_offset size) }
{
    let negative = if size == 0 { false } else { reader.bypass()? };
    Ok(signed(size, negative))
}

/// The signs of four sizes, and sao_band_position.
#[tactic(auto, unfolding(spec_slice_data::specs::Offset::band))]
fn band(
    reader: &mut BinReader<'_>,
    a: u32,
    b: u32,
    c: u32,
    d: u32,
) -> Result<ComponentOffset, Breach>
    requires live { IsLive reader.old.interval }
    requires a { a ≤ 31 }
    requires b { b ≤ 31 }
    requires c { c ≤ 31 }
    requires d { d ≤ 31 }
    ensures { Takes (λ x. x) result reader.old reader.new (band a b c d) }
{
    let first = band_offset(reader, a)?;
    let second = band_offset(reader, b)?;
    let third = band_offset(reader, c)?;
    let fourth = band_offset(reader, d)?;
    let position = reader.fixed(5)? as u8;
    Ok(ComponentOffset::Band(position, [first, second, third, fourth]))
}

/// sao_type_idx.
#[tactic(auto, unfolding(spec_slice_data::specs::Offset::sao_type_idx))]
fn sao_type_idx(reader: &mut BinReader<'_>) -> Result<u8, Breach>
    requires { IsLive reader.old.interval }
    ensures { Takes (λ x. x) result reader.old reader.new sao_type_idx }
{
    if !reader.decision(SAO_TYPE_IDX)? {
        return Ok(0);
    }
    Ok(if reader.bypass()? { 2 } else { 1 })
}

/// sao_eo_class, or that of Cb.
fn class_where(reader: &mut BinReader<'_>, shared: Option<u8>) -> Result<u8, Breach>
    requires { IsLive reader.old.interval }
    ensures { Takes (λ x. x) result reader.old reader.new (class_where shared) }
{
    match shared {
        Some(class) => Ok(class),
        None => Ok(reader.fixed(2)? as u8),
    }
}

/// The offsets of edge offset: the first two raise, the others lower.
fn edge(class: u8, a: u32, b: u32, c: u32, d: u32) -> ComponentOffset
    requires a { a ≤ 31 }
    requires b { b ≤ 31 }
    requires c { c ≤ 31 }
    requires d { d ≤ 31 }
    ensures { result ≡ edge class a b c d }
{
    ComponentOffset::Edge(class, [a as i8, b as i8, signed(c, true), signed(d, true)])
}

/// The offsets of a component of this bit depth and this type.
#[tactic(auto, unfolding(spec_slice_data::specs::Offset::offsets))]
fn offsets(
    reader: &mut BinReader<'_>,
    depth: u8,
    kind: u8,
    shared: Option<u8>,
) -> Result<ComponentOffset, Breach>
    requires { IsLive reader.old.interval }
    ensures { Takes (λ x. x) result reader.old reader.new (offsets depth kind shared) }
{
    let a = sao_offset_abs(reader, depth)?;
    let b = sao_offset_abs(reader, depth)?;
    let c = sao_offset_abs(reader, depth)?;
    let d = sao_offset_abs(reader, depth)?;
    if kind == 1 {
        return band(reader, a, b, c, d);
    }
    let class = class_where(reader, shared)?;
    Ok(edge(class, a, b, c, d))
}

/// Luma, or Cb.
#[tactic(auto, unfolding(spec_slice_data::specs::Offset::own_component))]
fn own_component(reader: &mut BinReader<'_>, depth: u8) -> Result<ComponentOffset, Breach>
    requires { IsLive reader.old.interval }
    ensures { Takes (λ x. x) result reader.old reader.new (own_component depth) }
{
    let kind = sao_type_idx(reader)?;
    if kind == 0 {
        return Ok(ComponentOffset::Off);
    }
    offsets(reader, depth, kind, None)
}

/// Cr, which has the type and the class of Cb.
#[tactic(auto, unfolding(spec_slice_data::specs::Offset::like_component))]
fn like_component(
    reader: &mut BinReader<'_>,
    depth: u8,
    cb: ComponentOffset,
) -> Result<ComponentOffset, Breach>
    requires { IsLive reader.old.interval }
    ensures { Takes (λ x. x) result reader.old reader.new (like_component depth cb) }
{
    match cb {
        ComponentOffset::Off => Ok(ComponentOffset::Off),
        ComponentOffset::Band(_, _) => offsets(reader, depth, 1, Some(0)),
        ComponentOffset::Edge(class, _) => offsets(reader, depth, 2, Some(class)),
    }
}

/// Parameters of the unit's own.
#[tactic(auto, unfolding(spec_slice_data::specs::Offset::own_sao))]
fn own_sao(reader: &mut BinReader<'_>, syntax: &CtuSyntax) -> Result<Sao, Breach>
    requires { IsLive reader.old.interval }
    ensures { Takes (λ x. x) result reader.old reader.new (own_sao syntax.now) }
{
    let luma = if syntax.sao_luma {
        own_component(reader, syntax.luma_depth)?
    } else {
        ComponentOffset::Off
    };
    let cb = if syntax.sao_chroma {
        own_component(reader, syntax.chroma_depth)?
    } else {
        ComponentOffset::Off
    };
    let cr = if syntax.sao_chroma {
        like_component(reader, syntax.chroma_depth, cb)?
    } else {
        ComponentOffset::Off
    };
    Ok(Sao { luma, cb, cr })
}

/// sao_merge_left_flag or sao_merge_up_flag.
fn merge_flag(reader: &mut BinReader<'_>, there: bool) -> Result<bool, Breach>
    requires { IsLive reader.old.interval }
    ensures { Takes (λ x. x) result reader.old reader.new (merge_flag there) }
{
    if there {
        reader.decision(SAO_MERGE_FLAG)
    } else {
        Ok(false)
    }
}

/// sao where it isn't merged to the left.
fn sao_or_above(reader: &mut BinReader<'_>, syntax: &CtuSyntax, above: Sao) -> Result<Sao, Breach>
    requires { IsLive reader.old.interval }
    ensures { Takes (λ x. x) result reader.old reader.new (sao_or_above syntax.now above) }
{
    if merge_flag(reader, syntax.has_above)? {
        return Ok(above);
    }
    own_sao(reader, syntax)
}

/// Sample adaptive offset of a unit, by that of the units on the left and above.
#[tactic(auto, unfolding(spec_slice_data::specs::Offset::sao))]
pub fn sao(
    reader: &mut BinReader<'_>,
    syntax: &CtuSyntax,
    left: Sao,
    above: Sao,
) -> Result<Sao, Breach>
    requires { IsLive reader.old.interval }
    ensures value { Takes (λ x. x) result reader.old reader.new (sao syntax.now left above) }
{
    if !(syntax.sao_luma || syntax.sao_chroma) {
        return Ok(Sao {
            luma: ComponentOffset::Off,
            cb: ComponentOffset::Off,
            cr: ComponentOffset::Off,
        });
    }
    if merge_flag(reader, syntax.has_left)? {
        return Ok(left);
    }
    sao_or_above(reader, syntax, above)
}
