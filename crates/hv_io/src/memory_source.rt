//! A source over bytes in memory, in pieces of a given size and with failing reads.

ghost use Rattle.std.specs.Prelude.{◌≡◌, ◌<◌, ◌≤◌, ◌++◌, Some, IfOk, OnErr, OnOk, length, take, drop};
ghost use Rattle.std.specs.Result.{result_ok};
ghost use Rattle.hv_io.specs.Memory.{SourceState, fresh_source, mem_read};
ghost use Rattle.hv_io.specs.Streams.{Rose, Takes, IsSpent};

use crate::failed::Failed;
use crate::source::Source;
use std::marker::Model;

/// A source over bytes in memory, which gives them in pieces and fails at given calls. It takes no memory.
#[derive(Drop)]
pub struct MemSource<'a> {
    left: &'a [u8],
    piece: usize,
    fails: &'a [u64],
    calls: u64,
    faults: u64,
}

impl<'a> Model for MemSource<'a> {
    ghost Value = { SourceState };

    ghost view = { λ s. record {
      left = s.left.now;
      piece = s.piece;
      fails = s.fails.now;
      calls = s.calls;
      faults = s.faults;
    } };

    ghost invariant = { λ s. 1 ≤ s.piece };
}

impl<'a> MemSource<'a> {
    /// A source of these bytes. A call gives at most `piece` of them, and the calls whose numbers, from 0, stand in
    /// `fails` fail.
    pub fn new(bytes: &'a [u8], piece: usize, fails: &'a [u64]) -> Self
        requires { 1 ≤ piece }
        ensures { result ≡ fresh_source bytes.now piece fails.now }
    {
        MemSource {
            left: bytes,
            piece,
            fails,
            calls: 0,
            faults: 0,
        }
    }
}

impl<'a> Source for MemSource<'a> {
    ghost left = { λ s. Some s.left };

    ghost faults = { λ s. s.faults };

    /// The number of bytes, and the source after the call, are those of `mem_read`.
    fn read(&mut self, buf: &mut [u8]) -> Result<usize, Failed>
        ensures count { IfOk result (λ n. n ≤ length buf.old) }
        ensures taken { IfOk result (λ n.
            Takes (Some self.old.left) (Some self.new.left) (take n buf.new)) }
        ensures end { IfOk result (λ n. n ≡ 0 → 0 < length buf.old → IsSpent (Some self.new.left)) }
        ensures quiet { OnOk result (self.new.faults ≡ self.old.faults) }
        ensures counted { OnErr result (Rose self.old.faults self.new.faults) }
        ensures same { OnErr result (Some self.new.left ≡ Some self.old.left) }
        ensures grows { self.old.faults ≤ self.new.faults }
        //
        ensures exact { (result_ok result, self.new) ≡ mem_read (length buf.old) self.old }
        ensures front { IfOk result (λ n. buf.new ≡ take n self.old.left ++ drop n buf.old) }
        ensures unwritten { OnErr result (buf.new ≡ buf.old) }
    {
        let fails = self.fails.contains(&self.calls);
        self.calls = self.calls.saturating_add(1);
        if fails {
            self.faults = self.faults.saturating_add(1);
            return Err(Failed);
        }
        let all = self.left;
        let n = self.piece.min(buf.len()).min(all.len());
        buf[..n].copy_from_slice(&all[..n]);
        self.left = &all[n..];
        Ok(n)
    }
}
