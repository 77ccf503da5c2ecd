// Tells what is wrong with a line that is no row: which field, or that it ended early. The fields are taken one after the other by the stages of the
// row reader (`stages`), each in a window of its own, and in a loop: a line has no limit here, and calls that nest would grow with it.
#![tactic(auto)]

ghost use Rattle.std.specs.Prelude.{ℕ, ◌≤◌, ◌<◌, length};
ghost use Rattle.base.specs.inner.Decides.{Decides};
ghost use Rattle.fields.specs.Columns.{last_number};
ghost use Rattle.fields.specs.Parted.{NoBlank};
ghost use Rattle.fields.specs.Runs.{All};
ghost use Rattle.fields.specs.inner.Window.{window_bytes};
ghost use Rattle.lines.specs.Lines.{Inside, Comment};
ghost use Rattle.lines.specs.inner.Parts.{Ran};
ghost use Rattle.row.specs.Versions.{Version};
ghost use Rattle.row.specs.inner.Stages.{Continues, Good};
ghost use Rattle.explain.specs.Explain.{ExpectedFields};
ghost use Rattle.explain.specs.Promise.{ExplainPromise, explain_numbers};
ghost use Rattle.explain.specs.inner.Steps.{Field, Moves, FieldsBefore, FoundIn};

use base::{OFFSET_DIGITS, Refusal};
use digits::HexDigits;
use fields::{LAST_NUMBER, WINDOW};
use lines::{Remark, inside_end, remark_of, run_end};
use row::{Part, Step, is_version};
use row_reader::{expected_number, no_window, window};
use stages::{complete, take_field, take_number};

// The most bytes of a field that is no word: an offset, with its point and three digits after it.
const LONGEST: usize = OFFSET_DIGITS + 4;

// So many bytes are a word, if they are anything.
const WORD: usize = LONGEST + 1;

// What is wrong with a line.
#[derive(Clone, Copy, PartialEq, Eq)]
pub enum Explained {
    // This field.
    Wrong(u64),
    // It ended early, after so many fields.
    Early(u64),
}

// Whether a line is a comment.
fn is_comment(line: &[u8]) -> bool
    ensures { Decides (Comment line.now) result }
{
    matches!(remark_of(line), Remark::Plain)
}

// Where the bytes that are no blanks end that stand from a place on.
#[tactic(auto, using(lines::proofs::Scans::passing))]
fn field_end(line: &[u8], at: usize) -> usize
    requires { at ≤ length line.now }
    ensures { Ran NoBlank line.now at result }
{
    for e in at..line.len() {
        if line[e] == b' ' {
            return e;
        }
    }
    line.len()
}

// What the first field makes of a row that is expected.
fn first(f: &[u8], version: u64, number: u64, w: &mut [u8; WINDOW]) -> Option<Step>
    requires { Field f.now × (length f.now < window_bytes) × Version version }
    ensures { Moves (λ fs r. ExpectedFields version number r fs) f.now result }
{
    window(f, w);
    let k = expected_number(w, 0, number);
    take_number(w, 0, version, k)
}

// What a later field makes of a state. One that is too long for any other is a word, and its first bytes are one, too.
fn step(f: &[u8], p: Part, w: &mut [u8; WINDOW], hex: &HexDigits) -> Option<Step>
    requires { Field f.now × Good p }
    ensures { Moves (Continues p) f.now result }
{
    if f.len() <= LONGEST {
        window(f, w);
        return take_field(w, 0, hex, p);
    }
    if run_end(f, 0, b'A', b'Z') != f.len() {
        return None;
    }
    window(&f[..WORD], w);
    take_field(w, 0, hex, p)
}

// Takes the fields from a place on, after the first.
fn explain_fields(
    line: &[u8],
    from: usize,
    start: Part,
    w: &mut [u8; WINDOW],
    hex: &HexDigits,
) -> Result<Explained, Refusal>
    requires { All Inside line.now × (1 ≤ from) × (from ≤ length line.now) × Good start }
    ensures { (v k : ℕ) → FieldsBefore v k line.now (Continues start) from 1 → FoundIn v k line.now result }
{
    let mut p = start;
    let mut at = from;
    let mut i: u64 = 1;
    // No `for`: the place moves on by what was read, and a line has no limit here.
    loop {
        let a = run_end(line, at, b' ', b' ');
        if a == line.len() {
            if complete(p) {
                return Err(Refusal::NothingToExplain);
            }
            return Ok(Explained::Early(i));
        }
        let e = field_end(line, a);
        let Some(t) = step(&line[a..e], p, w, hex) else {
            return Ok(Explained::Wrong(i + 1));
        };
        p = t.part;
        at = e;
        i += 1;
    }
}

// Takes all fields, the row number first.
fn explain_row(line: &[u8], version: u64, number: u64) -> Result<Explained, Refusal>
    requires { All Inside line.now × Version version × (number ≤ last_number) }
    ensures { FoundIn version number line.now result }
{
    let a = run_end(line, 0, b' ', b' ');
    if a == line.len() {
        return Ok(Explained::Early(0));
    }
    let e = field_end(line, a);
    if LONGEST < e - a {
        return Ok(Explained::Wrong(1));
    }
    let mut w = no_window();
    let Some(t) = first(&line[a..e], version, number, &mut w) else {
        return Ok(Explained::Wrong(1));
    };
    let hex = HexDigits::new();
    explain_fields(line, e, t.part, &mut w, &hex)
}

// Explains a line that was to be the row with this number in this version, or with any number where that is 0.
pub fn explain(line: &[u8], version: u64, number: u64) -> Result<Explained, Refusal>
    ensures { ExplainPromise line.now version number (explain_numbers result) }
{
    if !is_version(version) {
        return Err(Refusal::UnknownVersion);
    }
    if LAST_NUMBER < number || inside_end(line, 0) != line.len() || is_comment(line) {
        return Err(Refusal::NothingToExplain);
    }
    explain_row(line, version, number)
}
