//! A sink into memory that was taken before, in pieces of a given size and with failing writes.

ghost use Rattle.std.specs.Prelude.{◌≡◌, ◌<◌, ◌≤◌, Some, IfOk, OnErr, OnOk, length, take, vec_len, vec_capacity};
ghost use Rattle.std.specs.Result.{result_ok};
ghost use Rattle.hv_io.specs.Memory.{SinkState, fresh_sink, mem_write};
ghost use Rattle.hv_io.specs.Streams.{Rose, Gains};

use crate::failed::Failed;
use crate::sink::Sink;
use std::alloc::{AllocError, Global};
use std::marker::Model;

/// A sink into memory, which takes bytes in pieces, fails at given calls, and fails where it is full. Its memory is
/// taken as it is made.
#[derive(Drop)]
pub struct MemSink<'a> {
    bytes: Vec<u8>,
    capacity: usize,
    piece: usize,
    fails: &'a [u64],
    calls: u64,
    faults: u64,
}

impl<'a> Model for MemSink<'a> {
    ghost Value = { SinkState };

    ghost view = { λ s. record {
      contents = s.bytes.items;
      capacity = s.capacity;
      piece = s.piece;
      fails = s.fails.now;
      calls = s.calls;
      faults = s.faults;
    } };

    ghost invariant = { λ s.
        (1 ≤ s.piece) × (vec_len s.bytes ≤ s.capacity) × (s.capacity ≤ vec_capacity s.bytes) };
}

impl<'a> MemSink<'a> {
    /// A sink for up to `capacity` bytes. A call takes at most `piece` bytes, and the calls whose numbers, from 0,
    /// stand in `fails` fail.
    ///
    /// `AllocError` where there is no memory for `capacity` bytes.
    pub fn new(
        alloc: Global,
        capacity: usize,
        piece: usize,
        fails: &'a [u64],
    ) -> Result<Self, AllocError>
        requires { 1 ≤ piece }
        ensures { IfOk result (λ s. s ≡ fresh_sink capacity piece fails.now) }
    {
        let bytes = Vec::with_capacity(alloc, capacity)?;
        Ok(MemSink {
            bytes,
            capacity,
            piece,
            fails,
            calls: 0,
            faults: 0,
        })
    }

    /// The bytes so far.
    pub fn bytes(&self) -> &[u8]
        ensures { result.now ≡ self.now.contents }
    {
        self.bytes.as_slice()
    }
}

impl<'a> Sink for MemSink<'a> {
    ghost contents = { λ s. Some s.contents };

    ghost faults = { λ s. s.faults };

    /// The number of bytes, and the sink after the call, are those of `mem_write`.
    fn write(&mut self, piece: &[u8]) -> Result<usize, Failed>
        ensures count { IfOk result (λ n. n ≤ length piece.now) }
        ensures gained { IfOk result (λ n.
            Gains (Some self.old.contents) (Some self.new.contents) (take n piece.now)) }
        ensures progress { IfOk result (λ n. 0 < length piece.now → 0 < n) }
        ensures quiet { OnOk result (self.new.faults ≡ self.old.faults) }
        ensures counted { OnErr result (Rose self.old.faults self.new.faults) }
        ensures same { OnErr result (Some self.new.contents ≡ Some self.old.contents) }
        ensures grows { self.old.faults ≤ self.new.faults }
        //
        ensures exact { (result_ok result, self.new) ≡ mem_write piece.now self.old }
    {
        let fails = self.fails.contains(&self.calls);
        self.calls = self.calls.saturating_add(1);
        let room = self.capacity - self.bytes.len();
        let n = self.piece.min(piece.len()).min(room);
        if fails || (n == 0 && !piece.is_empty()) {
            self.faults = self.faults.saturating_add(1);
            return Err(Failed);
        }
        self.bytes.extend_from_slice(&piece[..n]).unwrap();
        Ok(n)
    }
}
