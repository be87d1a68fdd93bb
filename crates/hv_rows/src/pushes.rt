//! A stream that is pushed into a session in pieces of one size.

ghost use Rattle.std.specs.Prelude.{◌<◌};

use crate::asked::Asked;
use command_line::Session;
use hv_base::Outcome;
use hv_io::{MemSink, OpenGate};
use std::sync::Wait;
use std::thread::Threads;

/// A stream, the size of its pieces, and the reads that fail, from 0: each gives a piece, and the last of all its end.
#[derive(Clone, Copy)]
pub(crate) struct Pieces<'a> {
    pub(crate) bytes: &'a [u8],
    pub(crate) size: usize,
    pub(crate) fails: &'a [u64],
}

/// How a session ended, and whether what it held and answered on the way was as it has to be.
#[derive(Clone, Copy)]
pub(crate) struct PushedEnd {
    pub(crate) outcome: Outcome,
    pub(crate) is_sound: bool,
}

/// Pushes each piece; halts where a read fails, and finishes behind the last piece. Where decoding ended before, the
/// calls behind have to answer the same and to write nothing. Where it goes on, at most so many plans as the words say
/// are to be held, and 16 pictures.
pub(crate) fn push_pieces<R: Threads + Wait + Sync>(
    rt: &R,
    session: Session,
    asked: Asked,
    pieces: Pieces<'_>,
    out: &mut MemSink<'_>,
) -> PushedEnd
    requires { 0 < pieces.size }
{
    let mut session = session;
    let mut number = 0u64;
    let mut is_sound = true;
    for piece in pieces.bytes.chunks(pieces.size) {
        if pieces.fails.contains(&number) {
            break;
        }
        if let Some(outcome) = session.push(rt, piece, out, &OpenGate) {
            return ended(rt, session, piece, outcome, out);
        }
        is_sound &= holds_few(&session, asked);
        number = number.saturating_add(1);
    }
    let outcome = if pieces.fails.contains(&number) {
        session
            .halt(rt, out, &OpenGate)
            .unwrap_or(Outcome::ReadFault)
    } else {
        session.finish(rt, out, &OpenGate)
    };
    PushedEnd { outcome, is_sound }
}

/// Whether a session holds at most so many plans as the words say, and 16 pictures.
fn holds_few(session: &Session, asked: Asked) -> bool {
    let (plans, pictures) = session.kept();
    plans <= asked.ahead() && pictures <= 16
}

/// Behind an outcome: whether a further push and the end answer the same and write nothing.
fn ended<R: Threads + Wait + Sync>(
    rt: &R,
    session: Session,
    piece: &[u8],
    outcome: Outcome,
    out: &mut MemSink<'_>,
) -> PushedEnd {
    let mut session = session;
    let written = out.bytes().len();
    let is_again = session.push(rt, piece, out, &OpenGate) == Some(outcome);
    let is_end = session.finish(rt, out, &OpenGate) == outcome;
    PushedEnd {
        outcome,
        is_sound: is_again && is_end && out.bytes().len() == written,
    }
}
