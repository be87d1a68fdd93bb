//! The words of the command line.

ghost use Rattle.std.specs.Prelude.{◌≡◌, ◌≢◌, ◌≤◌, None, Some, Err, IfOk, IfSome, false, option_and_then};
ghost use Rattle.std.specs.Prelude.{option_map};
ghost use Rattle.clap.specs.Words.{app_of, first_of, found_of, kind_of, rows_of, rule_of, subcommand_rows_of};
ghost use Rattle.clap.specs.declared.builder.command.Command.TheViews.{out-Command};
ghost use Rattle.decoder.specs.Options.{IsInRange};
ghost use Rattle.command_line.specs.Requests.{AsksInRange};
ghost use Rattle.command_line.specs.Words.{decoding_command, flag_rule, form_of, is_set, make_command, making_of};
ghost use Rattle.command_line.specs.Words.{number_given, number_in, number_rule, options_of, program_command};
ghost use Rattle.command_line.specs.Words.{request_of, required_rule, with_decoding, words_taken};

use crate::request::{MakeOptions, Request};
use clap::builder::ValueParser;
use clap::error::ErrorKind;
use clap::{Arg, ArgAction, ArgMatches, Command, Error};
use decoder::{Form, Options};
use std::alloc::{AllocError, Global};

/// What a faulty command line is answered by.
pub(crate) const USAGE: &str = "usage: hevcdec decode|hash|list|make [options]\n";

/// The number of workers and of pictures ahead where the words give none.
const DEFAULT: u32 = 4;
/// The most workers.
const MOST_WORKERS: u32 = 64;
/// The most pictures that are decoded at once.
const MOST_AHEAD: u32 = 16;
/// The most pictures that are made.
const MOST_PICTURES: u64 = 1000;

/// Why the words weren't read.
#[derive(Clone, Copy, Debug, PartialEq, Eq)]
pub(crate) enum WordsError {
    /// They are a faulty command line.
    Usage,
    /// There was no memory left.
    Memory,
}

impl From<AllocError> for WordsError {
    ghost use Rattle.std.specs.Prelude.{◌≡◌};
    ghost use Rattle.command_line.specs.declared.words.WordsError.{WordsError};

    ghost from_gives = { λ _ e. e ≡ WordsError.Memory };

    fn from(_error: AllocError) -> Self {
        WordsError::Memory
    }
}

/// What the words ask for: those after the program's name.
///
/// `Usage` exactly where they are a faulty command line, if there is memory.
pub(crate) fn parse_words(alloc: Global, words: &[String]) -> Result<Request, WordsError>
    ensures taken { IfOk result (λ r. words_taken words.now ≡ Some r) }
    ensures refused { result ≡ Err WordsError.Usage → words_taken words.now ≡ None }
    ensures in_range { IfOk result AsksInRange }
{
    let command = program_command(alloc)?;
    match command.try_get_matches_from(words) {
        Ok(matches) => request_or_usage(&matches),
        Err(error) => Err(cause_of(&error)),
    }
}

/// Want of memory, or else a faulty command line.
fn cause_of(error: &Error) -> WordsError
    ensures usage { result ≡ WordsError.Usage → kind_of error.now ≢ ErrorKind.OutOfMemory }
    ensures memory { result ≡ WordsError.Memory → kind_of error.now ≡ ErrorKind.OutOfMemory }
{
    match error.kind() {
        ErrorKind::OutOfMemory => WordsError::Memory,
        _ => WordsError::Usage,
    }
}

/// What the matches of the command line ask for.
fn request_or_usage(matches: &ArgMatches<'_>) -> Result<Request, WordsError>
    ensures taken { IfOk result (λ r. option_and_then request_of (subcommand_rows_of matches.now) ≡ Some r) }
    ensures refused { result ≡ Err WordsError.Usage →
        option_and_then request_of (subcommand_rows_of matches.now) ≡ None }
    ensures in_range { IfOk result AsksInRange }
{
    requested(matches).ok_or(WordsError::Usage)
}

/// The program's command line.
#[tactic(auto, unfolding(crate::specs::Words::program_command))]
fn program_command<'a>(alloc: Global) -> Result<Command<'a>, AllocError>
    ensures { IfOk result (λ c. app_of c ≡ program_command) }
{
    let program = Command::new(alloc, "hevcdec")
        .no_binary_name(true)
        .subcommand_required(true);
    let program = with_decoding(alloc, program, "decode")?;
    let program = with_decoding(alloc, program, "hash")?;
    let program = with_decoding(alloc, program, "list")?;
    let make = make_command(alloc)?;
    program.subcommand(make)
}

/// A command line and a command more that decodes, by its name.
#[tactic(auto, unfolding(crate::specs::Words::with_decoding))]
fn with_decoding<'a>(
    alloc: Global,
    program: Command<'a>,
    name: &'a str,
) -> Result<Command<'a>, AllocError>
    ensures { IfOk result (λ c. app_of c ≡ with_decoding (app_of program.entry) name.entry.now) }
{
    let command = decoding_command(alloc, name)?;
    program.subcommand(command)
}

/// A command that decodes, by its name.
#[tactic(auto, unfolding(crate::specs::Words::decoding_command))]
fn decoding_command<'a>(alloc: Global, name: &'a str) -> Result<Command<'a>, AllocError>
    ensures app { IfOk result (λ c. app_of c ≡ decoding_command name.entry.now) }
    ensures local { IfOk result (λ c. (out-Command c).has_globals ≡ false) }
{
    let workers = number_option(alloc, "workers", 1, 64);
    let ahead = number_option(alloc, "ahead", 1, 16);
    let no_hash = flag(alloc, "no-hash");
    Command::new(alloc, name)
        .arg(workers)?
        .arg(ahead)?
        .arg(no_hash)
}

/// The command `make`.
#[tactic(auto, unfolding(crate::specs::Words::make_command))]
fn make_command<'a>(alloc: Global) -> Result<Command<'a>, AllocError>
    ensures app { IfOk result (λ c. app_of c ≡ make_command) }
    ensures local { IfOk result (λ c. (out-Command c).has_globals ≡ false) }
{
    let seed = required_option(alloc, "seed", 0, u64::MAX);
    let pictures = required_option(alloc, "pictures", 1, MOST_PICTURES);
    let summary = flag(alloc, "summary");
    Command::new(alloc, "make")
        .arg(seed)?
        .arg(pictures)?
        .arg(summary)
}

/// An option whose value is a whole number from `least` to `most`.
fn number_option<'a>(alloc: Global, name: &'a str, least: u64, most: u64) -> Arg<'a>
    ensures rule { rule_of result ≡ number_rule name.entry.now least most }
    ensures local { result.global ≡ false }
{
    Arg::new(alloc, name)
        .long(name)
        .value_parser(ValueParser::unsigned(least, most))
}

/// One that has to be given.
fn required_option<'a>(alloc: Global, name: &'a str, least: u64, most: u64) -> Arg<'a>
    ensures rule { rule_of result ≡ required_rule name.entry.now least most }
    ensures local { result.global ≡ false }
{
    number_option(alloc, name, least, most).required(true)
}

/// An option that has no value.
fn flag<'a>(alloc: Global, name: &'a str) -> Arg<'a>
    ensures rule { rule_of result ≡ flag_rule name.entry.now }
    ensures local { result.global ≡ false }
{
    Arg::new(alloc, name).long(name).action(ArgAction::SetTrue)
}

/// What the command and its matches ask for.
fn requested(matches: &ArgMatches<'_>) -> Option<Request>
    ensures value { result ≡ option_and_then request_of (subcommand_rows_of matches.now) }
    ensures in_range { IfSome result AsksInRange }
{
    let (name, options) = matches.subcommand()?;
    if name == "make" {
        Some(Request::Make(making_of(options)?))
    } else {
        Some(Request::Decode(options_of(form_of(name), options)?))
    }
}

/// What the matches of `make` ask for.
fn making_of(make: &ArgMatches<'_>) -> Option<MakeOptions>
    ensures { result ≡ making_of (rows_of (found_of make.now)) }
{
    let seed = number_in(0, u64::MAX, text_of(make, "seed")?)?;
    let pictures = number_in(1, MOST_PICTURES, text_of(make, "pictures")?)?;
    let summary = is_set(text_of(make, "summary"));
    Some(MakeOptions {
        seed,
        pictures: pictures as u32,
        summary,
    })
}

/// What a command that decodes writes of each picture, by its name.
fn form_of(name: &str) -> Form
    ensures { result ≡ form_of name.now }
{
    match name {
        "hash" => Form::Hash,
        "list" => Form::List,
        _ => Form::I420,
    }
}

/// What the matches of a command that decodes ask for, where this is written of each picture.
fn options_of(form: Form, decode: &ArgMatches<'_>) -> Option<Options>
    ensures value { result ≡ options_of form (rows_of (found_of decode.now)) }
    ensures in_range { IfSome result IsInRange }
{
    let workers = number_given(MOST_WORKERS, text_of(decode, "workers"))?;
    let ahead = number_given(MOST_AHEAD, text_of(decode, "ahead"))?;
    let hash = !is_set(text_of(decode, "no-hash"));
    Some(Options {
        workers,
        ahead,
        hash,
        form,
    })
}

/// The first value of an option.
fn text_of<'a>(decode: &ArgMatches<'a>, id: &str) -> Option<&'a str>
    ensures { option_map (λ t. t.now) result ≡ first_of id.now (rows_of (found_of decode.now)) }
{
    decode.get_str(id)
}

/// Whether a flag was given.
fn is_set(text: Option<&str>) -> bool
    ensures { result ≡ is_set (option_map (λ t. t.now) text.entry) }
{
    match text {
        Some(text) => text == "true",
        None => false,
    }
}

/// The number that was given, or the one that stands for none.
fn number_given(most: u32, text: Option<&str>) -> Option<u32>
    requires { 4 ≤ most }
    ensures value { result ≡ number_given most (option_map (λ t. t.now) text.entry) }
    ensures in_range { IfSome result (λ n. (1 ≤ n) × (n ≤ most)) }
{
    match text {
        Some(text) => Some(number_in(1, u64::from(most), text)? as u32),
        None => Some(DEFAULT),
    }
}

/// The number from `least` to `most` that a text spells: decimal digits behind at most one plus.
fn number_in(least: u64, most: u64, text: &str) -> Option<u64>
    ensures value { result ≡ number_in least most text.now }
    ensures in_range { IfSome result (λ n. (least ≤ n) × (n ≤ most)) }
{
    match text.parse::<u64>() {
        Ok(n) => {
            if least <= n && n <= most {
                Some(n)
            } else {
                None
            }
        }
        Err(_) => None,
    }
}
