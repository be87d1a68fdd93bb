//! The text of the line that tells a broken rule or a limit, in room of its own: making it takes no memory.

ghost use Rattle.std.specs.Prelude.{◌≡◌, ◌+◌, ◌<◌, ◌≤◌, ◌++◌, ◌∷◌, [], false, length};
ghost use Rattle.std.specs.Fmt.{decimal, digit_glyph};
ghost use Rattle.arrayvec.specs.ArrayString.{array_string_len};
ghost use Rattle.hv_base.specs.declared.outcome.Outcome.TheVariants as outcome;
ghost use Rattle.hv_base.specs.Text.{digest_text, fault_name, finding_text, hexadecimal, limit_name, outcome_line};
ghost use Rattle.hv_base.specs.Text.{place_text};
ghost use Rattle.command_line.specs.LineText.{behind_name, last_digits};

use arrayvec::ArrayString;
use hv_base::{Digest, Fault, FaultKind, Limit, LimitKind};
use itoa::Buffer;

/// The text of a line, of at most 192 bytes: six, a number, a space, a name, five, a number, five, a number, what is
/// told of a hash and the line feed. A number has at most ten digits, a name at most sixteen letters, and what is told
/// of a hash has two digests of 32 digits, a number and 25 bytes more.
pub(crate) type LineText = ArrayString<192>;

/// The line of a broken rule.
pub(crate) fn fault_line(fault: Fault) -> LineText
    ensures { result.bytes ≡ outcome_line (outcome.Fault fault) }
{
    let mut line = LineText::new();
    line.push_str("fault ");
    push_number(&mut line, fault.kind.number());
    line.push_str(" ");
    line.push_str(fault_name(fault.kind));
    push_behind_name(&mut line, fault);
    line
}

/// The line of a limit.
pub(crate) fn limit_line(limit: Limit) -> LineText
    ensures { result.bytes ≡ outcome_line (outcome.Limit limit) }
{
    let mut line = LineText::new();
    line.push_str("limit ");
    push_number(&mut line, limit.kind.number());
    line.push_str(" ");
    line.push_str(limit_name(limit.kind));
    line.push_str(" nal ");
    push_number(&mut line, limit.nal);
    line.push_str("\n");
    line
}

/// The name of a rule.
fn fault_name(kind: FaultKind) -> &'static str
    ensures name { result.now ≡ fault_name kind }
    ensures short { length result.now ≤ 16 }
{
    kind.name()
}

/// The name of a limit.
fn limit_name(kind: LimitKind) -> &'static str
    ensures name { result.now ≡ limit_name kind }
    ensures short { length result.now ≤ 16 }
{
    kind.name()
}

/// Appends what stands behind the name in the line of a broken rule, and the line feed.
fn push_behind_name(line: &mut LineText, fault: Fault)
    requires { array_string_len line.old + 130 ≤ 192 }
    ensures text { line.new.bytes ≡ line.old.bytes ++ (behind_name fault ++ 10 ∷ []) }
    ensures short { array_string_len line.new ≤ array_string_len line.old + 130 }
{
    line.push_str(" nal ");
    push_number(line, fault.nal);
    line.push_str(" ctu ");
    push_end(line, fault);
}

/// Appends the coding tree unit, what is told besides, and the line feed.
fn push_end(line: &mut LineText, fault: Fault)
    requires { array_string_len line.old + 110 ≤ 192 }
    ensures text { line.new.bytes ≡ line.old.bytes ++ ((place_text fault.ctu ++ finding_text fault.kind) ++ 10 ∷ []) }
    ensures short { array_string_len line.new ≤ array_string_len line.old + 110 }
{
    push_place(line, fault.ctu);
    push_finding(line, fault.kind);
    line.push_str("\n");
}

/// Appends a coding tree unit, or a dash where there is none.
fn push_place(line: &mut LineText, ctu: Option<u32>)
    requires { array_string_len line.old + 10 ≤ 192 }
    ensures text { line.new.bytes ≡ line.old.bytes ++ place_text ctu }
    ensures short { array_string_len line.new ≤ array_string_len line.old + 10 }
{
    match ctu {
        Some(ctu) => push_number(line, ctu),
        None => line.push_str("-"),
    }
}

/// Appends a number.
fn push_number(line: &mut LineText, n: u32)
    requires { array_string_len line.old + 10 ≤ 192 }
    ensures text { line.new.bytes ≡ line.old.bytes ++ decimal n }
    ensures short { array_string_len line.new ≤ array_string_len line.old + 10 }
{
    line.push_str(Buffer::new().format(n));
}

/// Appends what is told of a broken rule behind its place.
fn push_finding(line: &mut LineText, kind: FaultKind)
    requires { array_string_len line.old + 99 ≤ 192 }
    ensures text { line.new.bytes ≡ line.old.bytes ++ finding_text kind }
    ensures short { array_string_len line.new ≤ array_string_len line.old + 99 }
{
    if let FaultKind::HashMismatch {
        plane,
        stated,
        computed,
    } = kind
    {
        line.push_str(" plane ");
        push_number(line, plane);
        line.push_str(" stated ");
        push_digest(line, stated);
        line.push_str(" computed ");
        push_digest(line, computed);
    }
}

/// Appends a digest.
fn push_digest(line: &mut LineText, digest: Digest)
    requires { array_string_len line.old + 32 ≤ 192 }
    ensures text { line.new.bytes ≡ line.old.bytes ++ digest_text digest }
    ensures short { array_string_len line.new ≤ array_string_len line.old + 32 }
{
    push_hexadecimal(line, digest.first);
    push_hexadecimal(line, digest.last);
}

/// Appends a number in 16 hexadecimal digits.
#[tactic(auto, using(crate::proofs::Hexadecimal::sixteen))]
fn push_hexadecimal(line: &mut LineText, n: u64)
    requires { array_string_len line.old + 16 ≤ 192 }
    ensures text { line.new.bytes ≡ line.old.bytes ++ hexadecimal n }
    ensures short { array_string_len line.new ≤ array_string_len line.old + 16 }
{
    push_digits(line, 16, n);
}

/// Appends the last digits of a number in hexadecimal, so many of them.
fn push_digits(line: &mut LineText, count: u32, n: u64)
    requires { array_string_len line.old + count ≤ 192 }
    ensures text { line.new.bytes ≡ line.old.bytes ++ last_digits count n }
    ensures short { array_string_len line.new ≤ array_string_len line.old + count }
{
    if count == 0 {
        return;
    }
    push_digits(line, count - 1, n / 16);
    line.push_str(hexadecimal_digit(n % 16));
}

/// A hexadecimal digit.
fn hexadecimal_digit(digit: u64) -> &'static str
    requires { digit < 16 }
    ensures { result.now ≡ digit_glyph false digit ∷ [] }
{
    match digit {
        0 => "0",
        1 => "1",
        2 => "2",
        3 => "3",
        4 => "4",
        5 => "5",
        6 => "6",
        7 => "7",
        8 => "8",
        9 => "9",
        10 => "a",
        11 => "b",
        12 => "c",
        13 => "d",
        14 => "e",
        _ => "f",
    }
}
