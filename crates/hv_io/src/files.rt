//! A source over a reader and a sink over a writer of std, as files and standard streams are.

ghost use Rattle.std.specs.Prelude.{◌≡◌, ℕ, ◌<◌, ◌≤◌, [], None, IfSome, IfNone, IfOk, OnErr, OnOk, is_ok};
ghost use Rattle.std.specs.Prelude.{if◌then◌else◌, length, take};
ghost use Rattle.hv_io.specs.Files.{Counting};
ghost use Rattle.hv_io.specs.Streams.{counted, Rose, Takes, IsSpent, Gains, GainsPrefix};

use crate::failed::Failed;
use crate::sink::Sink;
use crate::source::Source;
use std::io::{Read, Write};
use std::marker::Model;

/// A source over a reader. As a source it doesn't tell its bytes, since a file's aren't known; where the reader tells
/// its own, the clauses of `read` say what is taken of them.
#[derive(Drop)]
pub struct FileSource<R> {
    inner: R,
    faults: u64,
}

impl<R> Model for FileSource<R> {
    ghost Value = { Counting R };

    ghost view = { λ s. record { inner = s.inner; faults = s.faults } };
}

impl<R: Read> FileSource<R> {
    /// A source over this reader.
    pub fn new(inner: R) -> Self
        ensures { result ≡ record { inner = inner; faults = 0 } }
    {
        FileSource { inner, faults: 0 }
    }
}

impl<R: Read> Source for FileSource<R> {
    ghost left = { λ _. None };

    ghost faults = { λ s. s.faults };

    /// The count of faults rises by one with each error of the reader, and with nothing else.
    fn read(&mut self, buf: &mut [u8]) -> Result<usize, Failed>
        ensures count { IfOk result (λ n. n ≤ length buf.old) }
        ensures quiet { OnOk result (self.new.faults ≡ self.old.faults) }
        ensures counted { OnErr result (Rose self.old.faults self.new.faults) }
        ensures grows { self.old.faults ≤ self.new.faults }
        //
        ensures exact { self.new.faults ≡
            (if is_ok result then self.old.faults else counted self.old.faults) }
        ensures handed { IfOk result (λ n.
            Takes (R.remaining self.old.inner) (R.remaining self.new.inner) (take n buf.new)) }
        ensures ended { IfOk result (λ n.
            n ≡ 0 → 0 < length buf.old → IsSpent (R.remaining self.new.inner)) }
        ensures untaken { OnErr result
            (Takes (R.remaining self.old.inner) (R.remaining self.new.inner) []) }
    {
        match self.inner.read(buf) {
            Ok(n) => Ok(n),
            Err(_) => {
                self.faults = self.faults.saturating_add(1);
                Err(Failed)
            }
        }
    }
}

/// A sink over a writer. As a sink it doesn't tell its bytes, since a file's aren't known; where the writer tells its
/// own, the clauses of `write` say what it gains.
#[derive(Drop)]
pub struct FileSink<W> {
    inner: W,
    faults: u64,
}

impl<W> Model for FileSink<W> {
    ghost Value = { Counting W };

    ghost view = { λ s. record { inner = s.inner; faults = s.faults } };
}

impl<W: Write> FileSink<W> {
    /// A sink over this writer.
    pub fn new(inner: W) -> Self
        ensures { result ≡ record { inner = inner; faults = 0 } }
    {
        FileSink { inner, faults: 0 }
    }
}

impl<W: Write> Sink for FileSink<W> {
    ghost contents = { λ _. None };

    ghost faults = { λ s. s.faults };

    /// Each write is flushed. A writer that takes nothing of a piece that isn't empty has failed. The count of faults
    /// rises by one with each failure, and with nothing else.
    fn write(&mut self, piece: &[u8]) -> Result<usize, Failed>
        ensures count { IfOk result (λ n. n ≤ length piece.now) }
        ensures progress { IfOk result (λ n. 0 < length piece.now → 0 < n) }
        ensures quiet { OnOk result (self.new.faults ≡ self.old.faults) }
        ensures counted { OnErr result (Rose self.old.faults self.new.faults) }
        ensures grows { self.old.faults ≤ self.new.faults }
        //
        ensures exact { self.new.faults ≡
            (if is_ok result then self.old.faults else counted self.old.faults) }
        ensures handed { IfOk result (λ n.
            Gains (W.contents self.old.inner) (W.contents self.new.inner) (take n piece.now)) }
        ensures front { OnErr result
            (GainsPrefix (W.contents self.old.inner) (W.contents self.new.inner) piece.now) }
    {
        match write_through(&mut self.inner, piece) {
            Some(n) => Ok(n),
            None => {
                self.faults = self.faults.saturating_add(1);
                Err(Failed)
            }
        }
    }
}

// Writes a front of the piece through to where the writer keeps it, and answers how many bytes.
fn write_through<W: Write>(out: &mut W, piece: &[u8]) -> Option<usize>
    ensures count { IfSome result (λ n. n ≤ length piece.now) }
    ensures progress { IfSome result (λ n. 0 < length piece.now → 0 < n) }
    ensures gained { IfSome result (λ n.
        Gains (W.contents out.old) (W.contents out.new) (take n piece.now)) }
    ensures front { IfNone result
        (GainsPrefix (W.contents out.old) (W.contents out.new) piece.now) }
{
    let n = out.write(piece).ok()?;
    out.flush().ok()?;
    if n == 0 && !piece.is_empty() {
        return None;
    }
    Some(n)
}
