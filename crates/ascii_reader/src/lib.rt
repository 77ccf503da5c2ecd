// A whole text of Telemotive ASCII lines: read back into packed records, in two passes. The first judges every line and counts, the second fills.
#![tactic(auto)]

mod window;

ghost use Rattle.std.specs.Prelude.{◌≡◌, ◌+◌, ◌*◌, ◌≤◌, length};
ghost use Rattle.ascii_line_reader.specs.inner.Answer.{tick_limit};
ghost use Rattle.trace.specs.Trace.{size_limit};
ghost use Rattle.trace.specs.inner.Passes.{Reaches};
ghost use Rattle.ascii_reader.specs.Promise.{read_ascii_numbers, Numbered, ReadAsciiPromise};
ghost use Rattle.ascii_reader.specs.inner.Ends.{cr_for_all, EndAt};
ghost use Rattle.ascii_reader.specs.inner.Passes.{LineAt, OffsetOf, Judges, RecordsFit, Filled};

use ascii_line_reader::{LineRead, line_in};
use base::{OFFSET_LIMIT, Refusal, Refused};
use digits::HexDigits;
use fields::{LAST_NUMBER, WINDOW};
use lines::LINE_LIMIT;
use record::{Record, put_record};
use records::mark_after;
use row_reader::no_window;
use trace::SIZE_LIMIT;
use trace::window::{fill_window, window_at};
use window::CrForLf;

// What a text of lines is, beside its records.
#[derive(Clone, Copy, PartialEq, Eq)]
pub struct AsciiRead {
    pub start: u64,
    pub records: u64,
}

// Where the next line starts, if the line from `at` up to e ends there: within the limit, and with CR LF or LF.
fn after_end(text: &[u8], at: usize, e: usize) -> Option<usize>
    requires { at ≤ e }
    ensures { EndAt text.now at e result }
{
    if LINE_LIMIT < e - at {
        return None;
    }
    if text.len() <= e {
        return None;
    }
    if text[e] == b'\n' {
        return Some(e + 1);
    }
    if text[e] != b'\r' {
        return None;
    }
    if text.len() - e < 2 {
        return None;
    }
    if text[e + 1] != b'\n' {
        return None;
    }
    Some(e + 2)
}

// Reads the line at a place of the text, in the window that starts at `from`: its `end` is the place of the next line. None if it is no such line, too
// long or not ended.
fn line_at(
    text: &[u8],
    at: usize,
    from: usize,
    w: &[u8; WINDOW],
    hex: &HexDigits,
) -> Option<LineRead>
    requires { Reaches (cr_for_all text.now) at from w.now × (at ≤ length text.now) }
    ensures { LineAt text.now at result }
{
    let x = line_in(w, at - from, hex)?;
    let next = after_end(text, at, from + x.end)?;
    Some(LineRead { end: next, ..x })
}

// The offset of a stamp from a start, or why it has none.
fn offset_of(start: u64, ticks: u64) -> Result<u64, Refusal>
    requires { (10 * start ≤ tick_limit) × (ticks ≤ tick_limit) }
    ensures { OffsetOf start ticks result }
{
    if ticks * 100 < start * 1000 {
        return Err(Refusal::BeforeStart);
    }
    let offset = ticks * 100 - start * 1000;
    if OFFSET_LIMIT < offset {
        return Err(Refusal::PastLimit);
    }
    Ok(offset)
}

// The first pass: every line is judged, and counted. The start is that of the first.
fn judge(text: &[u8], hex: &HexDigits) -> Result<AsciiRead, Refused>
    requires { length text.now ≤ size_limit }
    ensures { Judges text.now result }
{
    let mut at = 0;
    let mut lines: u64 = 0;
    let mut start: u64 = 0;
    let mut w = no_window();
    let mut base = 0;
    fill_window::<CrForLf>(text, 0, &mut w);
    // No `for`: the place moves on by what was read.
    while at < text.len() {
        base = window_at::<CrForLf>(text, at, base, &mut w);
        let Some(line) = line_at(text, at, base, &w, hex) else {
            return Err(Refusal::NotAsciiLine.at(lines + 1));
        };
        if lines == 0 {
            start = line.ticks / 10;
        }
        lines += 1;
        if let Err(reason) = offset_of(start, line.ticks) {
            return Err(reason.at(lines));
        }
        at = line.end;
    }
    Ok(AsciiRead {
        start,
        records: lines,
    })
}

// The second pass: the records of the lines are packed into the output, which has room for them, each with its mark. No line is refused any more.
fn fill(text: &[u8], start: u64, hex: &HexDigits, out: &mut [u8])
    requires { RecordsFit text.now start out.old }
    ensures { Filled text.now out.old out.new }
{
    let mut at = 0;
    let mut o = 0;
    let mut last: u64 = 0;
    let mut w = no_window();
    let mut base = 0;
    fill_window::<CrForLf>(text, 0, &mut w);
    // No `for`: the place moves on by what was read.
    while at < text.len() {
        base = window_at::<CrForLf>(text, at, base, &mut w);
        let Some(line) = line_at(text, at, base, &w, hex) else {
            return;
        };
        let Ok(offset) = offset_of(start, line.ticks) else {
            return;
        };
        put_record(
            out,
            o,
            Record { offset, ..line.r },
            mark_after(last, offset),
        );
        last = offset;
        o += 20;
        at = line.end;
    }
}

// Reads a text of Telemotive ASCII lines into packed records.
pub fn read_ascii(text: &[u8], out: &mut [u8]) -> Result<AsciiRead, Refused>
    ensures read_ascii_promise { ReadAsciiPromise text.now out.old (read_ascii_numbers result) out.new }
    ensures numbered { Numbered result }
{
    if SIZE_LIMIT < text.len() {
        return Err(Refusal::TooLarge.whole());
    }
    let hex = HexDigits::new();
    let read = judge(text, &hex)?;
    if LAST_NUMBER < read.records {
        return Err(Refusal::TooManyLines.whole());
    }
    if out.len() as u64 / 20 < read.records {
        return Err(Refusal::NoRoomForRecords.whole());
    }
    fill(text, read.start, &hex, out);
    Ok(read)
}
