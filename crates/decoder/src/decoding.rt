//! One decoding: from a source to a sink.

ghost use Rattle.std.specs.Prelude.{◌≡◌, ◌<◌, IfOk, None, [], length, vec_len};
ghost use Rattle.decoder.specs.Headline.{Headline, IsComplete, change_of};
ghost use Rattle.decoder.specs.Options.{IsInRange};
ghost use Rattle.decoder.specs.Session.{Stands};

use crate::options::Options;
use crate::session::Session;
use hv_base::Outcome;
use hv_io::{Failed, Gate, Sink, Source};
use std::alloc::{AllocError, Global};
use std::sync::Wait;
use std::thread::Threads;

/// How many bytes a read asks for.
const PIECE: usize = 65_536;

/// Reads the source, writes the pictures of its stream in output order, and answers how decoding ended. Of each picture
/// that is written which the form of the options says: its planes Y, Cb and Cr as I420, or a line.
/// What was read is decoded before the next read, and a picture goes out as a `Session` says.
///
/// Where the options say so, the planes of a picture are compared with the hashes that the stream states for them,
/// behind its data and before what goes out behind it.
///
/// Where a read failed, what came before it is decoded: the pictures that are over are written. A broken rule or a
/// limit in it is the answer, and else the read fault. Behind a broken rule or a limit nothing more is read.
pub fn decode<R: Threads + Wait + Sync, S: Source, O: Sink, G: Gate + Sync>(
    rt: &R,
    alloc: Global,
    options: Options,
    src: &mut S,
    out: &mut O,
    gate: &G,
) -> Outcome
    requires { IsInRange options }
    ensures headline { Headline options.form options.hash (change_of S.left S.faults src.old src.new)
        (change_of O.contents O.faults out.old out.new) result }
    ensures complete { IsComplete options.hash (change_of S.left S.faults src.old src.new)
        (change_of O.contents O.faults out.old out.new) result }
{
    let Ok(mut session) = Session::new(alloc, options) else {
        return Outcome::Memory;
    };
    match zeros(alloc, PIECE) {
        Ok(mut piece) => decode_pieces(rt, &mut session, src, &mut piece, out, gate),
        Err(_) => Outcome::Memory,
    }
}

/// Reads the source through this buffer, piece by piece, into a session that was given nothing. It stops after 2^64 - 1
/// reads, as for want of memory.
fn decode_pieces<R: Threads + Wait + Sync, S: Source, O: Sink, G: Gate + Sync>(
    rt: &R,
    session: &mut Session,
    src: &mut S,
    piece: &mut [u8],
    out: &mut O,
    gate: &G,
) -> Outcome
    requires room { 0 < length piece.old }
    requires stands { Stands session.old [] [] }
    requires going { session.old.outcome ≡ None }
    ensures headline { Headline session.old.options.form session.old.options.hash
        (change_of S.left S.faults src.old src.new)
        (change_of O.contents O.faults out.old out.new) result }
    ensures complete { IsComplete session.old.options.hash (change_of S.left S.faults src.old src.new)
        (change_of O.contents O.faults out.old out.new) result }
{
    for _ in 0..u64::MAX {
        match src.read(piece) {
            Ok(0) => return session.end(rt, out, gate),
            Ok(count) => {
                if let Some(outcome) = session.push(rt, &piece[..count], out, gate) {
                    return outcome;
                }
            }
            Err(Failed) => return session.stop(rt, out, gate).unwrap_or(Outcome::ReadFault),
        }
    }
    Outcome::Memory
}

/// So many bytes of 0.
fn zeros(alloc: Global, count: usize) -> Result<Vec<u8>, AllocError>
    ensures { IfOk result (λ bytes. vec_len bytes ≡ count) }
{
    vec![in alloc; 0u8; count]
}
