//! The rules of a stream, and which of them a stream broke.

ghost use Rattle.std.specs.Prelude.{◌≡◌, Some};
ghost use Rattle.hv_base.specs.Text.{fault_number, fault_name, fault_text, place_text, finding_text};

use crate::digest::Digest;
use crate::level::LevelMeasure;
use std::fmt;

/// A rule that a stream has to keep. Each has the number and the name by which an answer tells it.
#[derive(Clone, Copy, Debug, PartialEq, Eq)]
pub enum FaultKind {
    /// The input ends without a start code, and has a byte other than 00 nowhere (B.2).
    NoNal,
    /// A byte stands outside the NAL units, or 00 00 02 inside one (B.2, 7.4.2).
    NalBytes,
    /// A NAL unit header is too short, or one of its fields is forbidden (7.3.1.2).
    NalHeader,
    /// A parameter set ends inside a field (7.3.2).
    ParamSyntax,
    /// A field of a parameter set is out of range (7.4.3).
    ParamRange,
    /// A sequence parameter set needs another profile than Main or Main 10 (A.3.2, A.3.3).
    Profile,
    /// A slice names a parameter set that was never accepted (7.4.7.1).
    MissingSet,
    /// A sequence and a picture parameter set don't fit each other (7.4.3.3).
    SetMismatch,
    /// The sequence parameter set changes inside a coded video sequence (7.4.2.4.2).
    SpsChanged,
    /// The first picture of a sequence isn't an intra random access point (7.4.2.4.4).
    FirstPicture,
    /// A slice segment header ends inside a field (7.3.6).
    HeaderSyntax,
    /// A field of a slice segment header is out of range (7.4.7).
    HeaderRange,
    /// A slice of an intra random access point isn't an I slice (7.4.7.1).
    SliceType,
    /// Slice segments come in an order that isn't that of their addresses (7.4.7.1).
    SliceOrder,
    /// A field differs from that of the picture's first slice segment (7.4.7.1).
    SliceMismatch,
    /// A reference picture isn't in the decoded picture buffer (8.3.2).
    MissingReference,
    /// The entry points don't fit the slice segment's data (7.4.7.1).
    EntryPoints,
    /// The decoded picture buffer has no room for a picture (C.5.2.2).
    DpbFull,
    /// Slice segment data end before the syntax does (9.3.2.5, 9.3.4.3).
    DataEnd,
    /// `end_of_slice_segment_flag` stands at another coding tree unit than the segment's last (7.4.9.1).
    SliceEnd,
    /// `end_of_subset_one_bit` is 0 (7.4.9.1).
    SubsetEnd,
    /// What follows the last coding tree unit of a segment, or of a substream, isn't a 1 and zero bits (7.3.2.10 to
    /// 7.3.2.12).
    TrailingBits,
    /// A transform coefficient level doesn't fit 16 bits (7.4.9.11).
    CoeffRange,
    /// `CuQpDeltaVal` is out of range (7.4.9.10).
    QpRange,
    /// A motion vector difference doesn't fit 16 bits (7.4.9.9).
    MvdRange,
    /// The MD5 of a decoded plane isn't the one that a picture hash states (D.3.19): of plane 0, 1 or 2, for Y, Cb or
    /// Cr, what is stated and what was computed.
    HashMismatch {
        plane: u32,
        stated: Digest,
        computed: Digest,
    },
    /// A sequence exceeds its level (A.4.1): in what, by which value, and how much the level allows.
    LevelExceeded {
        what: LevelMeasure,
        value: u32,
        limit: u32,
    },
}

impl FaultKind {
    /// The number by which answers tell the rule.
    pub fn number(self) -> u32
        ensures { result ≡ fault_number self }
    {
        match self {
            FaultKind::NoNal => 1,
            FaultKind::NalBytes => 2,
            FaultKind::NalHeader => 3,
            FaultKind::ParamSyntax => 4,
            FaultKind::ParamRange => 5,
            FaultKind::Profile => 6,
            FaultKind::MissingSet => 7,
            FaultKind::SetMismatch => 8,
            FaultKind::SpsChanged => 9,
            FaultKind::FirstPicture => 10,
            FaultKind::HeaderSyntax => 11,
            FaultKind::HeaderRange => 12,
            FaultKind::SliceType => 13,
            FaultKind::SliceOrder => 14,
            FaultKind::SliceMismatch => 15,
            FaultKind::MissingReference => 16,
            FaultKind::EntryPoints => 17,
            FaultKind::DpbFull => 18,
            FaultKind::DataEnd => 20,
            FaultKind::SliceEnd => 21,
            FaultKind::SubsetEnd => 22,
            FaultKind::TrailingBits => 23,
            FaultKind::CoeffRange => 24,
            FaultKind::QpRange => 25,
            FaultKind::MvdRange => 26,
            FaultKind::HashMismatch { .. } => 27,
            FaultKind::LevelExceeded { .. } => 28,
        }
    }

    /// The name by which answers tell the rule.
    pub fn name(self) -> &'static str
        ensures { result.now ≡ fault_name self }
    {
        match self {
            FaultKind::NoNal => "NoNal",
            FaultKind::NalBytes => "NalBytes",
            FaultKind::NalHeader => "NalHeader",
            FaultKind::ParamSyntax => "ParamSyntax",
            FaultKind::ParamRange => "ParamRange",
            FaultKind::Profile => "Profile",
            FaultKind::MissingSet => "MissingSet",
            FaultKind::SetMismatch => "SetMismatch",
            FaultKind::SpsChanged => "SpsChanged",
            FaultKind::FirstPicture => "FirstPicture",
            FaultKind::HeaderSyntax => "HeaderSyntax",
            FaultKind::HeaderRange => "HeaderRange",
            FaultKind::SliceType => "SliceType",
            FaultKind::SliceOrder => "SliceOrder",
            FaultKind::SliceMismatch => "SliceMismatch",
            FaultKind::MissingReference => "MissingReference",
            FaultKind::EntryPoints => "EntryPoints",
            FaultKind::DpbFull => "DpbFull",
            FaultKind::DataEnd => "DataEnd",
            FaultKind::SliceEnd => "SliceEnd",
            FaultKind::SubsetEnd => "SubsetEnd",
            FaultKind::TrailingBits => "TrailingBits",
            FaultKind::CoeffRange => "CoeffRange",
            FaultKind::QpRange => "QpRange",
            FaultKind::MvdRange => "MvdRange",
            FaultKind::HashMismatch { .. } => "HashMismatch",
            FaultKind::LevelExceeded { .. } => "LevelExceeded",
        }
    }
}

/// A broken rule, and where it is broken.
#[derive(Clone, Copy, Debug, PartialEq, Eq)]
pub struct Fault {
    /// Which rule is broken.
    pub kind: FaultKind,
    /// The number of the NAL unit, counted from 0 over the whole stream.
    pub nal: u32,
    /// The coding tree unit in raster order, for a rule on the data of a slice segment.
    pub ctu: Option<u32>,
}

impl fmt::Display for Fault {
    ghost output = { λ f. Some (fault_text f) };

    fn fmt<W: fmt::Write>(&self, f: &mut fmt::Formatter<W>) -> fmt::Result {
        let number = self.kind.number();
        let name = self.kind.name();
        let nal = self.nal;
        let place = Place { ctu: self.ctu };
        let finding = Finding { kind: self.kind };
        write!(f, "fault {number} {name} nal {nal} ctu {place}{finding}")
    }
}

/// A coding tree unit as an answer tells it: its number, or a dash where there is none.
#[derive(Clone, Copy)]
struct Place {
    ctu: Option<u32>,
}

impl fmt::Display for Place {
    ghost output = { λ p. Some (place_text p.ctu) };

    fn fmt<W: fmt::Write>(&self, f: &mut fmt::Formatter<W>) -> fmt::Result {
        match self.ctu {
            Some(ctu) => write!(f, "{ctu}"),
            None => write!(f, "-"),
        }
    }
}

/// What an answer tells of a broken rule behind its place.
#[derive(Clone, Copy)]
struct Finding {
    kind: FaultKind,
}

impl fmt::Display for Finding {
    ghost output = { λ finding. Some (finding_text finding.kind) };

    fn fmt<W: fmt::Write>(&self, f: &mut fmt::Formatter<W>) -> fmt::Result {
        match self.kind {
            FaultKind::HashMismatch {
                plane,
                stated,
                computed,
            } => write!(f, " plane {plane} stated {stated} computed {computed}"),
            _ => Ok(()),
        }
    }
}
