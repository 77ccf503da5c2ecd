// Single lines of a trace: where one ends, and what a version line, a start line and a comment say.
#![tactic(auto)]

ghost use Rattle.std.specs.Prelude.{◌≤◌, length};
ghost use Rattle.base.specs.inner.Answers.{Answers};
ghost use Rattle.base.specs.inner.Decides.{Decides};
ghost use Rattle.lines.specs.Lines.{Inside, VersionLine, StartLine, StartDigits};
ghost use Rattle.lines.specs.inner.Answer.{EndsAt, Remarks};
ghost use Rattle.lines.specs.inner.Parts.{Between, Figures, Ran, OpenedOr, StandsAt};

use base::wide;
use clock::{START_LIMIT, start_of};
use digits::{read_decimal, read_padded};
use row::is_version;

// The most bytes of a line before its end.
pub const LINE_LIMIT: usize = 250;

// What a line that may be a comment is.
#[derive(Clone, Copy)]
pub enum Remark {
    Plain,
    Dollar,
    Neither,
}

// Where the bytes before the first CR or LF end.
#[tactic(auto, using(crate::proofs::Scans::passing, crate::proofs::Lines::cr_outside, crate::proofs::Lines::lf_outside))]
pub fn inside_end(text: &[u8], at: usize) -> usize
    requires { at ≤ length text.now }
    ensures { Ran Inside text.now at result }
{
    for e in at..text.len() {
        if text[e] == b'\r' || text[e] == b'\n' {
            return e;
        }
    }
    text.len()
}

// Where the line that starts at a place ends.
#[tactic(auto, using(crate::proofs::Lines::line_closes, crate::proofs::Lines::line_closed))]
pub fn line_end(text: &[u8], at: usize) -> Option<usize>
    requires { at ≤ length text.now }
    ensures { EndsAt text.now at result }
{
    let e = inside_end(text, at);
    if text.len() - e < 2 || text[e] != b'\r' || text[e + 1] != b'\n' {
        return None;
    }
    Some(e)
}

// Where the bytes between two, these two among them, end that stand from a place on: blanks, or decimal digits.
#[tactic(auto, using(crate::proofs::Scans::passing))]
pub fn run_end(line: &[u8], at: usize, first: u8, last: u8) -> usize
    requires { at ≤ length line.now }
    ensures { Ran (Between first last) line.now at result }
{
    for e in at..line.len() {
        if line[e] < first || last < line[e] {
            return e;
        }
    }
    line.len()
}

// The place after the `;` of a line and its blanks, if it has one.
fn opened(line: &[u8]) -> Option<usize>
    ensures { OpenedOr line.now result }
{
    if line.is_empty() || line[0] != b';' {
        return None;
    }
    Some(run_end(line, 1, b' ', b' '))
}

// The version of two figures with a point between.
fn version_of(a: u8, dot: u8, b: u8) -> Option<u64>
    ensures { Answers (Figures a dot b) result }
{
    if dot != b'.' || a < b'0' || b < b'0' || b'9' < b {
        return None;
    }
    let version = 10 * wide(a - b'0') + wide(b - b'0');
    if is_version(version) {
        return Some(version);
    }
    None
}

// The version of a version line.
pub fn version_line(line: &[u8]) -> Option<u64>
    ensures { Answers (λ v. VersionLine v line.now) result }
{
    let a = opened(line)?;
    if !line[a..].starts_with(b"$FILEVERSION=") {
        return None;
    }
    let e = a + 13;
    if line.len() - e < 3 || run_end(line, e + 3, b' ', b' ') != line.len() {
        return None;
    }
    version_of(line[e], line[e + 1], line[e + 2])
}

// The start that the day's digits and the fraction's give.
fn start_of_digits(day: &[u8], fraction: &[u8]) -> Option<u64>
    ensures { Answers (StartDigits day.now fraction.now) result }
{
    if 5 < day.len() || fraction.is_empty() || 10 < fraction.len() {
        return None;
    }
    let days = read_decimal(day)?;
    let parts = read_padded(fraction)?;
    let start = start_of(days, parts, fraction.len() as u64);
    if START_LIMIT < start {
        return None;
    }
    Some(start)
}

// The start of a start line.
pub fn start_line(line: &[u8]) -> Option<u64>
    ensures { Answers (λ s. StartLine s line.now) result }
{
    let a = opened(line)?;
    if !line[a..].starts_with(b"$STARTTIME=") {
        return None;
    }
    let day = a + 11;
    let point = run_end(line, day, b'0', b'9');
    if point == line.len() || line[point] != b'.' {
        return None;
    }
    let fraction = point + 1;
    let end = run_end(line, fraction, b'0', b'9');
    if run_end(line, end, b' ', b' ') != line.len() {
        return None;
    }
    start_of_digits(&line[day..point], &line[fraction..end])
}

// Whether a line is a comment, and whether `$` comes first in it.
pub fn remark_of(line: &[u8]) -> Remark
    ensures { Remarks line.now result }
{
    let Some(a) = opened(line) else {
        return Remark::Neither;
    };
    if a == line.len() {
        return Remark::Plain;
    }
    if line[a] == b'$' {
        return Remark::Dollar;
    }
    Remark::Plain
}
