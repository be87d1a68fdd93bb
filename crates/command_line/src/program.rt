//! One run of the program: its words, its source, its sinks and its exit status.

ghost use Rattle.std.specs.Prelude.{◌≡◌, ◌⊎◌, ◌∷◌, [], ◌++◌, Bool, true, None, Some, codes};
ghost use Rattle.hv_base.specs.declared.outcome.Outcome.{Outcome};
ghost use Rattle.hv_base.specs.Text.{status_of, outcome_line};
ghost use Rattle.spec_decoder.specs.Decoder.{decoded};
ghost use Rattle.decoder.specs.Headline.{Headline, IsComplete, change_of};
ghost use Rattle.decoder.specs.Options.{IsInRange};
ghost use Rattle.decoder.specs.declared.options.Options.{Options};
ghost use Rattle.command_line.specs.declared.request.MakeOptions.{MakeOptions};
ghost use Rattle.command_line.specs.declared.request.Request.TheVariants.{Decode, Make};
ghost use Rattle.spec_drawn_pictures.specs.Shown.{bytes_shown};
ghost use Rattle.made_drawing_laws.specs.Decoded.{IsAsDrawn};
ghost use Rattle.command_line.specs.Making.{Makes, MakesStream, decoded_of, stream_of};
ghost use Rattle.command_line.specs.Summary.{summary_line, summary_of};
ghost use Rattle.command_line.specs.Telling.{IsUntouched, Tells};
ghost use Rattle.command_line.specs.Words.{usage_line, words_taken};

use crate::laws::summaries_tell_drawn_pictures;
use crate::line::{tell, tell_line};
use crate::request::{MakeOptions, Request};
use crate::summary::write_summary;
use crate::words::{USAGE, WordsError, parse_words};
use decoder::{Options, decode};
use hv_base::{Outcome, Status};
use hv_io::{Gate, Sink, Source};
use made_drawing_laws::made_streams_decode_as_drawn;
use std::alloc::Global;
use std::sync::Wait;
use std::thread::Threads;
use stream_maker::make;

/// Runs the program on its words, those after its name: does what they ask for, tells on `err` how it ended unless all
/// went well, and answers the exit status.
///
/// `decode`, `hash` and `list` read the stream of `src` and write of its pictures to `out`, in output order, with the
/// options `--workers N` (1 to 64), `--ahead N` (1 to 16) and `--no-hash`. `decode` writes I420: the planes Y, Cb and
/// Cr of each picture, a byte a sample where both bit depths are 8, and else two, the low one first. `hash` writes a
/// line `<k> <md5>` a picture, over these bytes, and `list` a line `<k> <poc> <nal type> <width>x<height>`; k counts
/// from 0.
///
/// `make` writes a stream to `out`, and reads nothing: that of `--seed N` (of 64 bits) with `--pictures K` (1 to 1000).
/// Both are required. With `--summary` it writes in place of the stream one line `pictures <K> bytes <n> md5 <digits>`,
/// of what `decode` writes of it: the pictures that are drawn of the seed, which are defined apart from any stream.
pub fn run<R: Threads + Wait + Sync, S: Source, O: Sink, E: Sink, G: Gate + Sync>(
    rt: &R,
    alloc: Global,
    words: &[String],
    src: &mut S,
    out: &mut O,
    err: &mut E,
    gate: &G,
) -> Status
    // Status 1 comes only for a faulty command line, and else that is answered by want of memory alone.
    ensures usage { result.0 ≡ 1 → words_taken words.now ≡ None }
    ensures refused { words_taken words.now ≡ None → (result.0 ≡ 1) ⊎ (result.0 ≡ 4) }

    // Then nothing was read or written, and the usage line was told, or the want of memory.
    ensures unread { words_taken words.now ≡ None → IsUntouched (change_of S.left S.faults src.old src.new) }
    ensures unwritten { words_taken words.now ≡ None → IsUntouched (change_of O.contents O.faults out.old out.new) }
    ensures usage_told { result.0 ≡ 1 → Tells (change_of E.contents E.faults err.old err.new) usage_line }
    ensures memory_told { words_taken words.now ≡ None → result.0 ≡ 4
        → Tells (change_of E.contents E.faults err.old err.new) (outcome_line Outcome.Memory) }

    // To decode a stream: there is an outcome that the status and the line tell, and for which the headline holds, of
    // what the command writes, with stated hashes compared or not.
    ensures decodes { (options : Options) → words_taken words.now ≡ Some (Decode options)
        → (o : Outcome) × (result.0 ≡ status_of o)
        × Headline options.form options.hash (change_of S.left S.faults src.old src.new)
        (change_of O.contents O.faults out.old out.new) o
        × IsComplete options.hash (change_of S.left S.faults src.old src.new)
        (change_of O.contents O.faults out.old out.new) o
        × Tells (change_of E.contents E.faults err.old err.new) (outcome_line o) }

    // To make one: nothing was read, and there is an outcome that the status and the line tell, all went well or memory
    // or a write failed, and the stream or the line that sums it up was written, or a front of it.
    ensures makes { (options : MakeOptions) → words_taken words.now ≡ Some (Make options)
        → IsUntouched (change_of S.left S.faults src.old src.new)
        × (o : Outcome) × (result.0 ≡ status_of o)
        × Makes (change_of O.contents O.faults out.old out.new) options o
        × Tells (change_of E.contents E.faults err.old err.new) (outcome_line o) }

    // The stream that is asked for is decoded to the pictures that are drawn of its seed, whether stated hashes are
    // compared or not. So the line that sums it up tells how many bytes these pictures are, and their MD5.
    ensures drawn { (options : MakeOptions) (hash : Bool) → words_taken words.now ≡ Some (Make options)
        → IsAsDrawn options.seed options.pictures (decoded hash true (stream_of options)) }
    ensures summed { (options : MakeOptions) → words_taken words.now ≡ Some (Make options)
        → summary_of (decoded_of options)
        ≡ summary_line options.pictures (bytes_shown options.seed options.pictures) }
{
    made_streams_decode_as_drawn();
    summaries_tell_drawn_pictures();
    match parse_words(alloc, words) {
        Ok(Request::Decode(options)) => run_decode(rt, alloc, options, src, out, err, gate),
        Ok(Request::Make(options)) => run_make(rt, alloc, options, out, err, gate),
        Err(WordsError::Usage) => {
            tell_line(err, USAGE);
            Status(1)
        }
        Err(WordsError::Memory) => {
            tell(Outcome::Memory, err);
            Outcome::Memory.status()
        }
    }
}

/// Decodes, and tells how it ended.
fn run_decode<R: Threads + Wait + Sync, S: Source, O: Sink, E: Sink, G: Gate + Sync>(
    rt: &R,
    alloc: Global,
    options: Options,
    src: &mut S,
    out: &mut O,
    err: &mut E,
    gate: &G,
) -> Status
    requires { IsInRange options }
    ensures { (o : Outcome) × (result.0 ≡ status_of o)
        × Headline options.form options.hash (change_of S.left S.faults src.old src.new)
        (change_of O.contents O.faults out.old out.new) o
        × IsComplete options.hash (change_of S.left S.faults src.old src.new)
        (change_of O.contents O.faults out.old out.new) o
        × Tells (change_of E.contents E.faults err.old err.new) (outcome_line o) }
{
    let outcome = decode(rt, alloc, options, src, out, gate);
    tell(outcome, err);
    outcome.status()
}

/// Makes a stream or sums it up, and tells how that ended.
fn run_make<R: Threads + Wait + Sync, O: Sink, E: Sink, G: Gate + Sync>(
    rt: &R,
    alloc: Global,
    options: MakeOptions,
    out: &mut O,
    err: &mut E,
    gate: &G,
) -> Status
    ensures { (o : Outcome) × (result.0 ≡ status_of o)
        × Makes (change_of O.contents O.faults out.old out.new) options o
        × Tells (change_of E.contents E.faults err.old err.new) (outcome_line o) }
{
    let outcome = make_asked(rt, alloc, options, out, gate);
    tell(outcome, err);
    outcome.status()
}

/// Writes a stream, or the line that sums it up.
fn make_asked<R: Threads + Wait + Sync, O: Sink, G: Gate + Sync>(
    rt: &R,
    alloc: Global,
    options: MakeOptions,
    out: &mut O,
    gate: &G,
) -> Outcome
    ensures { Makes (change_of O.contents O.faults out.old out.new) options result }
{
    if options.summary {
        write_summary(rt, alloc, options, out, gate)
    } else {
        write_stream(alloc, options, out)
    }
}

/// Writes a stream.
fn write_stream<O: Sink>(alloc: Global, options: MakeOptions, out: &mut O) -> Outcome
    ensures { MakesStream (change_of O.contents O.faults out.old out.new) (stream_of options) result }
{
    make(alloc, options.seed, options.pictures, out)
}
