//! A framer, which takes a byte stream in pieces and gives its units.

ghost use Rattle.std.specs.Prelude.{◌≡◌, ℕ, ◌-◌, ◌<◌, ◌≤◌, false, length, drop};
ghost use Rattle.spec_nal_units.specs.Units.{ends_unit};

use crate::answer::Next;
use crate::header::{broken, judge};
use crate::padding::{Behind, skip_padding};
use crate::raw_unit::{end_of_unit, without_zeros};
use crate::refused::Refused;
use hv_base::FaultKind;
use std::alloc::{AllocError, Global};

/// A byte stream on its way: it is fed in pieces, and its units are taken as soon as they are whole.
///
/// Contracts speak of what it was fed and what it gave ("it stands for" a history).
#[derive(Drop)]
pub struct Framer {
    alloc: Global,
    /// Bytes that were fed, taken ones at their front.
    bytes: Vec<u8>,
    /// How many of them are taken.
    start: usize,
    /// At how many places behind the taken ones no unit ends.
    searched: usize,
    /// Whether a unit begins behind the taken bytes.
    inside: bool,
    /// Where none does, how many zero bytes stand right before, at most two.
    zeros: u8,
    /// Whether a unit was given.
    began: bool,
    /// The number of the next unit.
    index: u32,
    /// Whether the input has ended.
    finished: bool,
    /// Why no more units are given.
    refused: Option<Refused>,
    ghost taken: { start ≤ length bytes.items },
    ghost few: { zeros ≤ 2 },
    ghost known: { searched ≤ length (drop start bytes.items) - 2 },
    ghost no_end: { (j : ℕ) → j < searched → ends_unit (drop j (drop start bytes.items)) ≡ false },
}

impl Framer {
    ghost use Rattle.std.specs.Prelude.{◌≡◌, ℕ, ◌≤◌, ◌∷◌, Bool, true, false, List, [], ◌++◌, length, drop, Option};
    ghost use Rattle.std.specs.Prelude.{Some, None, IsOkAnd, IfOk, OnOk, OnErr};
    ghost use Rattle.spec_nal_units.specs.Units.{unit_end};
    ghost use Rattle.nal_stream.specs.Answers.{told_by};
    ghost use Rattle.nal_stream.specs.Framing.{History, nothing, with_piece, at_end, with_answer, IsNext, StandsFor};
    ghost use Rattle.nal_stream.specs.Framing.{pending, CanGoOn, to_come, Goes, Answers, IsJudged};

    /// A framer that was fed nothing.
    pub fn new(alloc: Global) -> Result<Framer, AllocError>
        ensures { IsOkAnd result (λ f. StandsFor f nothing) }
    {
        Ok(Framer {
            alloc,
            bytes: Vec::new(alloc),
            start: 0,
            searched: 0,
            inside: false,
            zeros: 0,
            began: false,
            index: 0,
            finished: false,
            refused: None,
        })
    }

    /// Takes the next bytes of the stream. Not after `finish`.
    pub fn feed(&mut self, piece: &[u8]) -> Result<(), AllocError>
        requires { self.old.finished ≡ false }
        ensures ok { (h : History) → StandsFor self.old h → OnOk result (StandsFor self.new (with_piece h piece.now)) }
        ensures err { (h : History) → StandsFor self.old h → OnErr result (StandsFor self.new h) }
        ensures finished { self.new.finished ≡ false }
    {
        if self.refused.is_some() {
            return Ok(());
        }
        self.make_room();
        self.append(piece)
    }

    /// Says that the stream ends here.
    pub fn finish(&mut self)
        ensures value { (h : History) → StandsFor self.old h → StandsFor self.new (at_end h) }
        ensures finished { self.new.finished ≡ true }
    {
        self.finished = true;
    }

    /// What comes next: a unit, the first broken rule or limit met, and again for good, or that nothing is left.
    pub fn next(&mut self) -> Result<Next, AllocError>
        ensures value { (h : History) → StandsFor self.old h
            → IfOk result (λ next. IsNext h next × StandsFor self.new (with_answer h next)) }
        ensures answers { IfOk result (λ next. Answers next self.old self.new) }
        ensures err { (h : History) → StandsFor self.old h → OnErr result (StandsFor self.new h) }
        ensures finished { self.new.finished ≡ self.old.finished }
    {
        self.reach_unit();
        self.answer()
    }

    /// Forgets the bytes that are taken once they are as many as the others.
    fn make_room(&mut self)
        ensures same { (e : Bool) (rest : List ℕ) → to_come self.new e rest ≡ to_come self.old e rest }
        ensures refused { self.new.refused ≡ self.old.refused }
        ensures finished { self.new.finished ≡ self.old.finished }
    {
        if self.start >= self.bytes.len() - self.start {
            self.forget_taken();
        }
    }

    fn forget_taken(&mut self)
        ensures same { (e : Bool) (rest : List ℕ) → to_come self.new e rest ≡ to_come self.old e rest }
        ensures refused { self.new.refused ≡ self.old.refused }
        ensures finished { self.new.finished ≡ self.old.finished }
    {
        let left = self.bytes.len() - self.start;
        self.bytes.rotate_left(self.start);
        self.bytes.truncate(left);
        self.start = 0;
    }

    fn append(&mut self, piece: &[u8]) -> Result<(), AllocError>
        requires { self.old.refused ≡ None }
        ensures ok { OnOk result
            ((e : Bool) (rest : List ℕ) → to_come self.new e rest ≡ to_come self.old e (piece.now ++ rest)) }
        ensures err { OnErr result ((e : Bool) (rest : List ℕ) → to_come self.new e rest ≡ to_come self.old e rest) }
        ensures finished { self.new.finished ≡ self.old.finished }
    {
        self.bytes.extend_from_slice(piece)
    }

    /// Passes over padding, where a framer stands in some.
    fn reach_unit(&mut self)
        ensures goes { Goes self.old self.new [] }
        ensures all { self.new.refused ≡ None → self.new.inside ≡ false → pending self.new ≡ [] }
    {
        if !self.inside && self.refused.is_none() {
            self.pass_padding();
        }
    }

    fn held(&self) -> &[u8]
        ensures { result.now ≡ pending self.now }
    {
        &self.bytes[self.start..]
    }

    fn pass_padding(&mut self)
        requires outside { self.old.inside ≡ false }
        requires going { self.old.refused ≡ None }
        ensures goes { Goes self.old self.new [] }
        ensures all { self.new.refused ≡ None → self.new.inside ≡ false → pending self.new ≡ [] }
    {
        let skipped = skip_padding(self.held(), self.zeros);
        self.start += skipped.taken;
        self.searched = 0;
        self.zeros = skipped.zeros;
        self.inside = skipped.behind == Behind::Start;
        if skipped.behind == Behind::Stray {
            self.refused = Some(Refused::Fault(broken(FaultKind::NalBytes, self.index)));
        }
    }

    fn answer(&mut self) -> Result<Next, AllocError>
        requires { self.old.refused ≡ None → self.old.inside ≡ false → pending self.old ≡ [] }
        ensures value { IfOk result (λ next. Answers next self.old self.new) }
        ensures err { OnErr result (Goes self.old self.new []) }
        ensures finished { self.new.finished ≡ self.old.finished }
    {
        match self.refused {
            Some(Refused::Fault(fault)) => Ok(Next::Fault(fault)),
            Some(Refused::Limit(limit)) => Ok(Next::Limit(limit)),
            None => {
                if self.inside {
                    self.pass_unit()
                } else {
                    Ok(self.rest())
                }
            }
        }
    }

    fn rest(&mut self) -> Next
        requires outside { self.old.inside ≡ false }
        requires going { self.old.refused ≡ None }
        requires none { pending self.old ≡ [] }
        ensures value { Answers result self.old self.new }
        ensures finished { self.new.finished ≡ self.old.finished }
    {
        if !self.finished {
            return Next::More;
        }
        if self.began {
            return Next::End;
        }
        let fault = broken(FaultKind::NoNal, 0);
        self.refused = Some(Refused::Fault(fault));
        Next::Fault(fault)
    }

    fn pass_unit(&mut self) -> Result<Next, AllocError>
        requires inside { self.old.inside ≡ true }
        requires going { self.old.refused ≡ None }
        ensures value { IfOk result (λ next. Answers next self.old self.new) }
        ensures err { OnErr result (Goes self.old self.new []) }
        ensures finished { self.new.finished ≡ self.old.finished }
    {
        let bytes = self.held();
        let len = bytes.len();
        match end_of_unit(bytes, self.searched) {
            Some(size) => {
                let judged = judge(self.alloc, self.index, &bytes[..size])?;
                Ok(self.settle(judged, size))
            }
            None => {
                if self.finished {
                    let judged = judge(self.alloc, self.index, without_zeros(bytes))?;
                    Ok(self.settle(judged, len))
                } else {
                    self.note_searched();
                    Ok(Next::More)
                }
            }
        }
    }

    /// Keeps that no unit ends in the bytes held.
    fn note_searched(&mut self)
        requires { unit_end (pending self.old) ≡ None }
        ensures same { (e : Bool) (rest : List ℕ) → to_come self.new e rest ≡ to_come self.old e rest }
        ensures finished { self.new.finished ≡ self.old.finished }
    {
        self.searched = self.held().len().saturating_sub(2);
    }

    fn settle(&mut self, judged: Next, taken: usize) -> Next
        requires inside { taken ≤ length (pending self.old) }
        requires told { told_by judged ≡ [] → ⊥ }
        requires judged { IsJudged self.old judged taken }
        ensures value { Answers result self.old self.new }
        ensures same { result ≡ judged }
        ensures finished { self.new.finished ≡ self.old.finished }
    {
        match judged {
            Next::Fault(fault) => {
                self.refused = Some(Refused::Fault(fault));
                Next::Fault(fault)
            }
            Next::Limit(limit) => {
                self.refused = Some(Refused::Limit(limit));
                Next::Limit(limit)
            }
            other => {
                self.start += taken;
                self.searched = 0;
                self.inside = false;
                self.zeros = 0;
                self.began = true;
                self.index = self.index.saturating_add(1);
                other
            }
        }
    }
}
