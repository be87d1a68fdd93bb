//! Streams: parameter sets, and pictures each with its hashes.

ghost use Rattle.std.specs.Prelude.{◌≡◌, ◌%◌, ◌<◌, ◌++◌, OnOk, IfOk};
ghost use Rattle.md5.specs.Md5.{md5};
ghost use Rattle.spec_made.specs.Written.{unit_behind_code};
ghost use Rattle.spec_made.specs.Headers.{picture_payload, sequence_payload};
ghost use Rattle.spec_made.specs.Stream.{hash_unit, set_units, start_of};
ghost use Rattle.spec_made.specs.Flat.{idr_by, inter_by, motion_told, picture_by};
ghost use Rattle.made_rows.specs.Small.{AreSmall};

use crate::escaping::append_unit;
use crate::headers::{idr_header, inter_header};
use crate::slices::{SliceData, inter_data, pcm_data};
use hash_sei::plane_md5;
use made_pictures::{Picture, inter_units, motion, pcm_units};
use made_rows::later_motion;
use rand_core::SeedableRng;
use rand_pcg::Lcg64Xsh32;
use spec_made::{Bend, Motion};
use std::alloc::{AllocError, Global};
use std::marker::Model;

/// The sequence parameter set.
const SEQUENCE_PAYLOAD: [u8; 24] = [
    1, 1, 96, 0, 0, 0, 144, 0, 0, 0, 0, 0, 30, 160, 16, 32, 97, 101, 181, 170, 197, 222, 176, 64,
];

/// The picture parameter set.
const PICTURE_PAYLOAD: [u8; 4] = [192, 113, 130, 18];

/// Between two pictures: the generator, and the two pictures that others may refer to.
#[derive(Drop)]
pub(crate) struct Making {
    generator: Lcg64Xsh32,
    older: Picture,
    last: Picture,
}

impl Model for Making {
    ghost use Rattle.spec_made.specs.Stream.{Making as Between};

    ghost Value = { Between };

    ghost view = { λ m. record { generator = m.generator; older = m.older; last = m.last } };
}

/// Appends a slice behind its header.
fn append_slice(
    out: &mut Vec<u8>,
    nal_type: u8,
    header: Vec<u8>,
    rows: &SliceData,
) -> Result<(), AllocError>
    requires { nal_type < 64 }
    ensures { OnOk result (out.new.items
        ≡ out.old.items ++ unit_behind_code nal_type (header.items ++ rows.now.bytes.items)) }
{
    let mut payload = header;
    payload.extend_from_slice(rows.bytes.as_slice())?;
    append_unit(out, nal_type, payload.as_slice())
}

/// The hash of a plane.
fn hash_of(plane: &[u8]) -> [u8; 16]
    ensures { result ≡ md5 plane.now }
{
    plane_md5(plane.iter().map(|sample| u16::from(*sample)), 8)
}

/// Appends the hashes of a picture.
#[tactic(auto, using(crate::proofs::Lists::appended), unfolding(spec_made::specs::Stream::hash_unit))]
fn append_hashes(alloc: Global, out: &mut Vec<u8>, picture: &Picture) -> Result<(), AllocError>
    ensures { OnOk result (out.new.items ≡ out.old.items ++ hash_unit picture.now) }
{
    let mut payload = Vec::new(alloc);
    payload.extend_from_slice(&[132, 49, 0])?;
    payload.extend_from_slice(&hash_of(picture.luma()))?;
    payload.extend_from_slice(&hash_of(picture.cb()))?;
    payload.extend_from_slice(&hash_of(picture.cr()))?;
    payload.push(128)?;
    append_unit(out, 40, payload.as_slice())
}

/// How pictures differ from those of a seed.
#[derive(Drop)]
pub(crate) struct Turned<'a> {
    /// Whether all vectors, which are drawn, are 0.
    pub(crate) flat: bool,
    /// Which rows are spoiled.
    pub(crate) bends: &'a [Bend],
}

impl<'a> Model for Turned<'a> {
    ghost use Rattle.spec_made.specs.Flat.{Turned as Told};

    ghost Value = { Told };

    ghost view = { λ t. record { flat = t.flat; bends = t.bends.now } };
}

/// Appends the IDR picture of a number.
#[tactic(auto, using(crate::proofs::Lists::appended), unfolding(spec_made::specs::Flat::idr_by))]
fn append_idr(
    alloc: Global,
    out: &mut Vec<u8>,
    turned: &Turned<'_>,
    j: u32,
    making: Making,
) -> Result<Making, AllocError>
    ensures bytes { OnOk result (out.new.items ≡ out.old.items ++ (idr_by turned.now j making).0) }
    ensures behind { IfOk result (λ behind. behind ≡ (idr_by turned.now j making).1) }
{
    let mut generator = making.generator;
    let units = pcm_units(alloc, &mut generator)?;
    let data = pcm_data(alloc, turned.bends, j, units.as_slice())?;
    let header = idr_header(alloc, data.offsets.as_slice())?;
    append_slice(out, 19, header, &data)?;
    let picture = Picture::of_units(alloc, units.as_slice())?;
    append_hashes(alloc, out, &picture)?;
    Ok(Making {
        generator,
        older: making.older,
        last: picture,
    })
}

/// The vectors that are told of a picture, by those that are drawn.
fn motion_told(flat: bool, drawn: Motion) -> Motion
    requires { AreSmall drawn }
    ensures value { result ≡ motion_told flat drawn }
    ensures small { AreSmall result }
{
    if flat { later_motion(drawn) } else { drawn }
}

/// Appends the P or B picture of a number: a P picture where both references aren't used.
#[tactic(auto, using(crate::proofs::Lists::appended), unfolding(spec_made::specs::Flat::inter_by))]
fn append_inter(
    alloc: Global,
    out: &mut Vec<u8>,
    turned: &Turned<'_>,
    j: u32,
    both: bool,
    poc: u32,
    making: Making,
) -> Result<Making, AllocError>
    requires { poc < 256 }
    ensures bytes { OnOk result (out.new.items ≡ out.old.items ++ (inter_by turned.now j both poc making).0) }
    ensures behind { IfOk result (λ behind. behind ≡ (inter_by turned.now j both poc making).1) }
{
    let mut generator = making.generator;
    let drawn = motion(&mut generator, both);
    let motion = motion_told(turned.flat, drawn);
    let units = inter_units(alloc, &mut generator)?;
    let data = inter_data(alloc, turned.bends, j, motion, units.as_slice())?;
    let header = inter_header(alloc, motion.second, poc, data.offsets.as_slice())?;
    append_slice(out, if both { 0 } else { 1 }, header, &data)?;
    let picture = Picture::predicted(alloc, &making.older, &making.last, motion)?;
    append_hashes(alloc, out, &picture)?;
    if both {
        Ok(Making {
            generator,
            older: making.older,
            last: making.last,
        })
    } else {
        Ok(Making {
            generator,
            older: making.last,
            last: picture,
        })
    }
}

/// Appends the picture of a number.
#[tactic(auto, unfolding(spec_made::specs::Flat::picture_by))]
pub(crate) fn append_picture(
    alloc: Global,
    out: &mut Vec<u8>,
    turned: &Turned<'_>,
    j: u32,
    making: Making,
) -> Result<Making, AllocError>
    ensures bytes { OnOk result (out.new.items ≡ out.old.items ++ (picture_by turned.now j making).0) }
    ensures behind { IfOk result (λ behind. behind ≡ (picture_by turned.now j making).1) }
{
    let g = j % 8;
    if g == 0 {
        append_idr(alloc, out, turned, j, making)
    } else if g % 2 == 1 {
        append_inter(alloc, out, turned, j, false, g + 1, making)
    } else {
        append_inter(alloc, out, turned, j, true, g - 1, making)
    }
}

/// Appends both parameter sets.
#[tactic(auto, using(crate::proofs::Lists::appended), unfolding(spec_made::specs::Stream::set_units))]
pub(crate) fn append_sets(out: &mut Vec<u8>) -> Result<(), AllocError>
    ensures { OnOk result (out.new.items ≡ out.old.items ++ set_units) }
{
    append_sequence_set(out)?;
    append_picture_set(out)?;
    Ok(())
}

/// Appends the sequence parameter set.
#[tactic(auto, unfolding(spec_made::specs::Headers::sequence_payload))]
fn append_sequence_set(out: &mut Vec<u8>) -> Result<(), AllocError>
    ensures { OnOk result (out.new.items ≡ out.old.items ++ unit_behind_code 33 sequence_payload) }
{
    append_unit(out, 33, &SEQUENCE_PAYLOAD)
}

/// Appends the picture parameter set.
#[tactic(auto, unfolding(spec_made::specs::Headers::picture_payload))]
fn append_picture_set(out: &mut Vec<u8>) -> Result<(), AllocError>
    ensures { OnOk result (out.new.items ≡ out.old.items ++ unit_behind_code 34 picture_payload) }
{
    append_unit(out, 34, &PICTURE_PAYLOAD)
}

/// What stands before the first picture.
pub(crate) fn start(alloc: Global, seed: u64) -> Result<Making, AllocError>
    ensures { IfOk result (λ start. start ≡ start_of seed) }
{
    let older = Picture::black(alloc)?;
    let last = Picture::black(alloc)?;
    Ok(Making {
        generator: Lcg64Xsh32::seed_from_u64(seed),
        older,
        last,
    })
}
