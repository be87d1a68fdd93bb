//! Bins that are written by their contexts.

ghost use Rattle.std.specs.Prelude.{◌≡◌, ◌<◌, true, false, length, OnOk, IfOk};
ghost use Rattle.std.specs.List.{All};
ghost use Rattle.spec_made.specs.Written.{bytes_of};
ghost use Rattle.made_rows.specs.Small.{AreBytes};
ghost use Rattle.spec_cabac.specs.Bins.{Decision, Bypass, Terminate};
ghost use Rattle.cabac_writer.specs.Coding.{no_bins, with_word, with_terminate, flushed_bits};

use cabac_writer::Encoder;
use std::alloc::{AllocError, Global};
use std::marker::Model;

/// An encoder of a substream, and the contexts. Contracts see what the bins so far leave.
#[derive(Debug, Drop)]
pub struct BinWriter {
    encoder: Encoder,
    contexts: [u8; 154],
}

impl Model for BinWriter {
    ghost use Rattle.std.specs.Prelude.{◌≡◌, ◌<◌, length};
    ghost use Rattle.std.specs.List.{All};
    ghost use Rattle.cabac_writer.specs.Coding.{Writing};
    ghost use Rattle.cabac_writer.specs.Encoders.{IsLive, coding};

    ghost Value = { Writing };

    ghost view = { λ w. (coding w.encoder, w.contexts) };

    ghost invariant = { λ w. IsLive (coding w.encoder) × (length w.contexts ≡ 154)
        × All (λ context. context < 126) w.contexts };
}

impl BinWriter {
    /// A writer that has written nothing, with these contexts.
    pub fn new(alloc: Global, contexts: [u8; 154]) -> BinWriter
        requires { All (λ context. context < 126) contexts }
        ensures { result ≡ (no_bins, contexts) }
    {
        BinWriter {
            encoder: Encoder::new(alloc),
            contexts,
        }
    }

    /// The contexts behind the bins so far.
    pub fn contexts(&self) -> [u8; 154]
        ensures value { result ≡ self.now.1 }
        ensures small { All (λ context. context < 126) result }
    {
        self.contexts
    }

    /// Writes a bin by context `i`.
    #[tactic(auto, unfolding(cabac_writer::specs::Coding::with_word))]
    pub fn decision(&mut self, i: usize, bin: bool) -> Result<(), AllocError>
        requires { i < 154 }
        ensures { OnOk result (self.new ≡ with_word self.old (Decision i, bin)) }
    {
        let mut context = self.contexts[i];
        self.encoder.decision(&mut context, bin)?;
        self.contexts[i] = context;
        Ok(())
    }

    /// Writes a bypass bin.
    #[tactic(auto, unfolding(cabac_writer::specs::Coding::with_word))]
    pub fn bypass(&mut self, bin: bool) -> Result<(), AllocError>
        ensures { OnOk result (self.new ≡ with_word self.old (Bypass, bin)) }
    {
        self.encoder.bypass(bin)
    }

    /// Writes a terminate bin of 0.
    #[tactic(auto, unfolding(cabac_writer::specs::Coding::with_word))]
    pub fn go_on(&mut self) -> Result<(), AllocError>
        ensures { OnOk result (self.new ≡ with_word self.old (Terminate, false)) }
    {
        self.encoder.terminate(false)
    }

    /// Writes a terminate bin of 1, and answers the bytes of all bins.
    pub fn end(self) -> Result<Vec<u8>, AllocError>
        ensures { IfOk result (λ bytes. bytes.items ≡ bytes_of (flushed_bits (with_terminate self.0 true))) }
    {
        let mut encoder = self.encoder;
        encoder.terminate(true)?;
        let bytes = encoder.flush()?;
        are_bytes(bytes.as_slice());
        Ok(bytes)
    }

    /// Answers the bytes of all bins, with no terminate bin of 1 behind them.
    pub fn leave(self) -> Result<Vec<u8>, AllocError>
        ensures { IfOk result (λ bytes. bytes.items ≡ bytes_of (flushed_bits self.0)) }
    {
        let bytes = self.encoder.flush()?;
        are_bytes(bytes.as_slice());
        Ok(bytes)
    }
}

/// Reading a byte tells its range, so this tells that of all bytes; it costs nothing when it runs.
pub fn are_bytes(bytes: &[u8])
    ensures { AreBytes bytes.now }
{
    for i in 0..bytes.len() {
        let _byte = bytes[i];
    }
}
