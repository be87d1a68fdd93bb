//! Writing of made streams.

ghost use Rattle.std.specs.Prelude.{◌≡◌, ◌≢◌, ◌⊎◌, IfOk};
ghost use Rattle.hv_base.specs.declared.outcome.Outcome.TheVariants as Outcome;
ghost use Rattle.hv_io.specs.Streams.{Gains, GainsPrefix, Rose};
ghost use Rattle.spec_made.specs.Stream.{made, set_units};
ghost use Rattle.spec_made.specs.Flat.{bent_made, flat_made, made_by, picture_by};
ghost use Rattle.stream_maker.specs.Writing.{GainsWhole, WritesPiece, WritesStream};

use crate::stream::{Making, Turned, append_picture, append_sets, start};
use hv_base::Outcome;
use hv_io::{Failed, Sink, write_all};
use spec_made::Bend;
use std::alloc::{AllocError, Global};

/// Why a stream isn't written to its end.
#[derive(Clone, Copy, Debug, PartialEq, Eq)]
pub(crate) enum MakeError {
    /// There was no memory left.
    Memory,
    /// A write failed.
    Write,
}

impl From<AllocError> for MakeError {
    ghost use Rattle.std.specs.Prelude.{◌≡◌};
    ghost use Rattle.stream_maker.specs.declared.output.MakeError.{MakeError};

    ghost from_gives = { λ _ e. e ≡ MakeError.Memory };

    fn from(_error: AllocError) -> Self {
        MakeError::Memory
    }
}

impl From<Failed> for MakeError {
    ghost use Rattle.std.specs.Prelude.{◌≡◌};
    ghost use Rattle.stream_maker.specs.declared.output.MakeError.{MakeError};

    ghost from_gives = { λ _ e. e ≡ MakeError.Write };

    fn from(_error: Failed) -> Self {
        MakeError::Write
    }
}

/// Writes the stream of a seed with so many pictures, each picture as soon as it is made: `Ok`, `Memory` or
/// `WriteFault`.
pub fn make<O: Sink>(alloc: Global, seed: u64, pictures: u32, out: &mut O) -> Outcome
    ensures ends { (result ≡ Outcome.Ok) ⊎ ((result ≡ Outcome.Memory) ⊎ (result ≡ Outcome.WriteFault)) }
    ensures ok { result ≡ Outcome.Ok → Gains (O.contents out.old) (O.contents out.new) (made seed pictures) }
    ensures front { GainsPrefix (O.contents out.old) (O.contents out.new) (made seed pictures) }
    ensures whole { result ≡ Outcome.Memory
        → GainsWhole (O.contents out.old) (O.contents out.new) (made seed) pictures }
    ensures counted { result ≡ Outcome.WriteFault → Rose (O.faults out.old) (O.faults out.new) }
    ensures quiet { result ≢ Outcome.WriteFault → O.faults out.new ≡ O.faults out.old }
{
    let turned = Turned {
        flat: false,
        bends: &[],
    };
    make_turned(alloc, &turned, seed, pictures, out)
}

/// The same, but that all vectors, which are drawn, are 0: pictures that stand still.
pub fn make_flat<O: Sink>(alloc: Global, seed: u64, pictures: u32, out: &mut O) -> Outcome
    ensures ends { (result ≡ Outcome.Ok) ⊎ ((result ≡ Outcome.Memory) ⊎ (result ≡ Outcome.WriteFault)) }
    ensures ok { result ≡ Outcome.Ok → Gains (O.contents out.old) (O.contents out.new) (flat_made seed pictures) }
    ensures front { GainsPrefix (O.contents out.old) (O.contents out.new) (flat_made seed pictures) }
    ensures whole { result ≡ Outcome.Memory
        → GainsWhole (O.contents out.old) (O.contents out.new) (flat_made seed) pictures }
    ensures counted { result ≡ Outcome.WriteFault → Rose (O.faults out.old) (O.faults out.new) }
    ensures quiet { result ≢ Outcome.WriteFault → O.faults out.new ≡ O.faults out.old }
{
    make_bent(alloc, seed, pictures, &[], out)
}

/// The same, but that rows are spoiled, each at its last coding tree unit.
pub fn make_bent<O: Sink>(
    alloc: Global,
    seed: u64,
    pictures: u32,
    bends: &[Bend],
    out: &mut O,
) -> Outcome
    ensures ends { (result ≡ Outcome.Ok) ⊎ ((result ≡ Outcome.Memory) ⊎ (result ≡ Outcome.WriteFault)) }
    ensures ok { result ≡ Outcome.Ok
        → Gains (O.contents out.old) (O.contents out.new) (bent_made bends.now seed pictures) }
    ensures front { GainsPrefix (O.contents out.old) (O.contents out.new) (bent_made bends.now seed pictures) }
    ensures whole { result ≡ Outcome.Memory
        → GainsWhole (O.contents out.old) (O.contents out.new) (bent_made bends.now seed) pictures }
    ensures counted { result ≡ Outcome.WriteFault → Rose (O.faults out.old) (O.faults out.new) }
    ensures quiet { result ≢ Outcome.WriteFault → O.faults out.new ≡ O.faults out.old }
{
    let turned = Turned { flat: true, bends };
    make_turned(alloc, &turned, seed, pictures, out)
}

/// Writes a stream that differs so from that of a seed.
fn make_turned<O: Sink>(
    alloc: Global,
    turned: &Turned<'_>,
    seed: u64,
    pictures: u32,
    out: &mut O,
) -> Outcome
    ensures ends { (result ≡ Outcome.Ok) ⊎ ((result ≡ Outcome.Memory) ⊎ (result ≡ Outcome.WriteFault)) }
    ensures ok { result ≡ Outcome.Ok
        → Gains (O.contents out.old) (O.contents out.new) (made_by turned.now seed pictures) }
    ensures front { GainsPrefix (O.contents out.old) (O.contents out.new) (made_by turned.now seed pictures) }
    ensures whole { result ≡ Outcome.Memory
        → GainsWhole (O.contents out.old) (O.contents out.new) (made_by turned.now seed) pictures }
    ensures counted { result ≡ Outcome.WriteFault → Rose (O.faults out.old) (O.faults out.new) }
    ensures quiet { result ≢ Outcome.WriteFault → O.faults out.new ≡ O.faults out.old }
{
    match write_stream(alloc, turned, seed, pictures, out) {
        Ok(()) => Outcome::Ok,
        Err(MakeError::Memory) => Outcome::Memory,
        Err(MakeError::Write) => Outcome::WriteFault,
    }
}

/// Writes the parameter sets, and the pictures one after the other.
fn write_stream<O: Sink>(
    alloc: Global,
    turned: &Turned<'_>,
    seed: u64,
    pictures: u32,
    out: &mut O,
) -> Result<(), MakeError>
    ensures { WritesStream O.contents O.faults out.old out.new (made_by turned.now seed) pictures result }
{
    write_sets(alloc, out)?;
    let mut making = start(alloc, seed)?;
    for j in 0..pictures {
        making = write_picture(alloc, turned, j, making, out)?;
    }
    Ok(())
}

/// Writes both parameter sets.
fn write_sets<O: Sink>(alloc: Global, out: &mut O) -> Result<(), MakeError>
    ensures { WritesPiece O.contents O.faults out.old out.new set_units result }
{
    let mut bytes = Vec::new(alloc);
    append_sets(&mut bytes)?;
    write_all(out, bytes.as_slice())?;
    Ok(())
}

/// Writes the picture of a number, and answers what stands behind it.
fn write_picture<O: Sink>(
    alloc: Global,
    turned: &Turned<'_>,
    j: u32,
    making: Making,
    out: &mut O,
) -> Result<Making, MakeError>
    ensures wrote { WritesPiece O.contents O.faults out.old out.new (picture_by turned.now j making).0 result }
    ensures behind { IfOk result (λ behind. behind ≡ (picture_by turned.now j making).1) }
{
    let mut bytes = Vec::new(alloc);
    let behind = append_picture(alloc, &mut bytes, turned, j, making)?;
    write_all(out, bytes.as_slice())?;
    Ok(behind)
}
