use super::*;
use std::alloc::Global;
use std::io;
use std::io::{ErrorKind, Read, Write};

const HELLO: &[u8] = b"hello, world";

/// Whether a memory source's bytes are read, and each read's written whole to a memory sink, in pieces of this size.
fn is_carried(alloc: Global, piece: usize) -> bool {
    let mut src = MemSource::new(HELLO, piece.max(1), &[]);
    let Ok(mut out) = MemSink::new(alloc, 12, piece.max(1), &[]) else {
        return false;
    };
    let mut buf = [0; 5];
    for _ in 0..HELLO.len() {
        match src.read(&mut buf) {
            Ok(n) => {
                if write_all(&mut out, &buf[..n]).is_err() {
                    return false;
                }
            }
            Err(Failed) => return false,
        }
    }
    out.bytes() == HELLO
}

#[test]
fn bytes_are_carried_through_memory(rt: HostRuntime) {
    for piece in [1, 7, 100] {
        assert!(rt; is_carried(rt.alloc(), piece));
    }
}

// A reader and a writer that fail at their second call, and a writer that fails to flush at its second flush.
#[derive(Drop)]
struct Faulty {
    calls: u32,
    flushes: u32,
}

impl Read for Faulty {
    fn read(&mut self, buf: &mut [u8]) -> io::Result<usize> {
        self.calls = self.calls.saturating_add(1);
        if self.calls == 2 {
            return Err(ErrorKind::BrokenPipe.into());
        }
        Ok(buf.len().min(1))
    }
}

impl Write for Faulty {
    fn write(&mut self, buf: &[u8]) -> io::Result<usize> {
        self.calls = self.calls.saturating_add(1);
        if self.calls == 2 {
            return Err(ErrorKind::BrokenPipe.into());
        }
        Ok(buf.len().min(1))
    }

    fn flush(&mut self) -> io::Result<()> {
        self.flushes = self.flushes.saturating_add(1);
        if self.flushes == 2 {
            return Err(ErrorKind::BrokenPipe.into());
        }
        Ok(())
    }
}

const FAULTY: Faulty = Faulty {
    calls: 0,
    flushes: 0,
};

/// What four reads of a faulty reader answer.
fn reads() -> [Result<usize, Failed>; 4] {
    let mut src = FileSource::new(FAULTY);
    let mut buf = [0; 4];
    [
        src.read(&mut buf),
        src.read(&mut buf),
        src.read(&mut buf),
        src.read(&mut buf),
    ]
}

/// What four writes of a faulty writer answer: the second write fails, then the second flush.
fn writes() -> [Result<usize, Failed>; 4] {
    let mut out = FileSink::new(FAULTY);
    [
        out.write(HELLO),
        out.write(HELLO),
        out.write(HELLO),
        out.write(HELLO),
    ]
}

#[test]
fn errors_of_files_are_failed_reads_and_writes(rt: HostRuntime) {
    assert!(rt; reads() == [Ok(1), Err(Failed), Ok(1), Ok(1)]);
    assert!(rt; writes() == [Ok(1), Err(Failed), Err(Failed), Ok(1)]);
}

/// Whether a writer that takes nothing more has failed.
fn is_full_writer_failed() -> bool {
    let mut kept = [0; 3];
    let mut out = FileSink::new(kept.as_mut_slice());
    let written = write_all(&mut out, HELLO);
    drop(out);
    written.is_err() && kept == *b"hel"
}

fn pass<G: Gate + Sync>(gate: &G) {
    gate.turn(0);
}

#[test]
fn a_full_writer_has_failed_and_an_open_gate_lets_pass(rt: HostRuntime) {
    assert!(rt; is_full_writer_failed());
    pass(&OpenGate);
}

#[test]
fn a_unit_is_held_until_the_other_has_come(rt: HostRuntime) {
    let alone = HoldGate::new(5, 9, 3);
    alone.turn(5);
    assert!(rt; !alone.released());
    let both = HoldGate::new(5, 9, 3);
    both.turn(9);
    both.turn(5);
    assert!(rt; both.released());
}
