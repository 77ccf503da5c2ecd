// A whole trace: read from text into packed records, in two passes. The first judges every line and counts, the second fills.
#![tactic(auto)]

pub mod window;

ghost use Rattle.std.specs.Prelude.{◌≤◌, length};
ghost use Rattle.trace.specs.Trace.{size_limit};
ghost use Rattle.trace.specs.Promise.{read_numbers, ReadPromise};
ghost use Rattle.trace.specs.inner.Passes.{Reaches, RowAt, Says, Versioned, Headed, Heads, Judges, RecordsFit, Filled};

use base::{Refusal, Refused};
use digits::HexDigits;
use fields::WINDOW;
use lines::{LINE_LIMIT, Remark};
use record::{Record, put_record};
use records::{back_after, mark_after};
use row::head_lines;
use row_reader::{expected_number, no_window, row_in};
pub use window::ENDED;
use window::{AsIs, fill_window, window_at};

// The most bytes of a text.
pub const SIZE_LIMIT: usize = 134_217_728;

// How far from the start of a line its LF can stand, and the next line.
const FEED: usize = LINE_LIMIT + 1;

// What a trace is, beside its records: the first step back and the first number are 0 where there is none.
#[derive(Clone, Copy, PartialEq, Eq)]
pub struct TraceRead {
    pub version: u64,
    pub start: u64,
    pub rows: u64,
    pub step_back: u64,
    pub first: u64,
}

// The first two lines: version, start, and where line 3 starts.
#[derive(Clone, Copy)]
pub struct Heading {
    pub version: u64,
    pub start: u64,
    pub at: usize,
}

// The whole text: how many rows, and the number of the first, or 0 if there is none.
#[derive(Clone, Copy)]
pub struct Judged {
    pub rows: u64,
    pub first: u64,
}

// The first two lines.
fn head(text: &[u8]) -> Result<Heading, Refused>
    requires { length text.now ≤ size_limit }
    ensures { Heads text.now result }
{
    let Some(e) = lines::line_end(text, 0) else {
        if text.len() == 0 {
            return Err(Refusal::NotVersionLine.at(1));
        }
        return Err(Refusal::Unended.at(1));
    };
    if LINE_LIMIT < e {
        return Err(Refusal::LongLine.at(1));
    }
    let Some(version) = lines::version_line(&text[0..e]) else {
        return Err(Refusal::NotVersionLine.at(1));
    };
    second(text, e + 2, version)
}

// The second line, after a version line.
fn second(text: &[u8], at: usize, version: u64) -> Result<Heading, Refused>
    requires { Versioned text.now at version × (length text.now ≤ size_limit) }
    ensures { Heads text.now result }
{
    let Some(e) = lines::line_end(text, at) else {
        if text.len() <= at {
            return Err(Refusal::NotStartLine.at(2));
        }
        return Err(Refusal::Unended.at(2));
    };
    if LINE_LIMIT < e - at {
        return Err(Refusal::LongLine.at(2));
    }
    let Some(start) = lines::start_line(&text[at..e]) else {
        return Err(Refusal::NotStartLine.at(2));
    };
    Ok(Heading {
        version,
        start,
        at: e + 2,
    })
}

// Reads row k of a version at a place, in the window that starts at `from`: the place of the next line, and the record in `out`; or
// none. The line's end is not searched first: a row holds no CR and no LF, so that it ends where its reading ends.
fn row_at(
    text: &[u8],
    at: usize,
    version: u64,
    k: u64,
    from: usize,
    w: &[u8; WINDOW],
    hex: &HexDigits,
    out: &mut Record,
) -> Option<usize>
    requires { Reaches text.now at from w.now × (at ≤ length text.now) }
    ensures { RowAt text.now at version k out.new result }
{
    let feed = from + row_in(w, at - from, hex, version, k, out)? + 1;
    if at + FEED < feed {
        return None;
    }
    if text.len() <= feed {
        return None;
    }
    if text[feed] != b'\n' {
        return None;
    }
    Some(feed + 1)
}

// What the line at a place is, if it is no row: a comment, with the place of the next line, or the reason to refuse it.
fn other_at(text: &[u8], at: usize) -> Result<usize, Refusal>
    requires { at ≤ length text.now }
    ensures { Says text.now at result }
{
    let Some(e) = lines::line_end(text, at) else {
        return Err(Refusal::Unended);
    };
    if LINE_LIMIT < e - at {
        return Err(Refusal::LongLine);
    }
    match lines::remark_of(&text[at..e]) {
        Remark::Plain => Ok(e + 2),
        Remark::Dollar => Err(Refusal::Dollar),
        Remark::Neither => Err(Refusal::NotRow),
    }
}

// The first pass, from line 3 on: every line is judged, and the rows are counted. `first + rows` is the number that is expected next: 0 before the
// first row, which may have any.
fn judge(
    text: &[u8],
    from: usize,
    version: u64,
    start: u64,
    hex: &HexDigits,
) -> Result<Judged, Refused>
    requires { Headed text.now from version start × (length text.now ≤ size_limit) }
    ensures { Judges text.now version start result }
{
    let mut at = from;
    let mut place = head_lines(version);
    let mut rows: u64 = 0;
    let mut first: u64 = 0;
    let mut w = no_window();
    let mut base = from;
    let mut record = Record::default();
    fill_window::<AsIs>(text, from, &mut w);
    // no `for`: the place moves by what was read
    while at < text.len() {
        place += 1;
        base = window_at::<AsIs>(text, at, base, &mut w);
        let k = expected_number(&w, at - base, first + rows);
        match row_at(text, at, version, k, base, &w, hex, &mut record) {
            Some(next) => {
                first = k - rows;
                rows += 1;
                at = next;
            }
            None => match other_at(text, at) {
                Ok(next) => at = next,
                Err(reason) => return Err(reason.at(place)),
            },
        }
    }
    Ok(Judged { rows, first })
}

// The second pass: the records of the rows are packed into the output, which has room for them, each with its mark, and the first step back is
// found. No line is refused any more: what starts with `;` is a comment, and all else a row.
fn fill(text: &[u8], from: usize, version: u64, first: u64, hex: &HexDigits, out: &mut [u8]) -> u64
    requires { RecordsFit text.now out.old from version first }
    ensures { Filled text.now out.old out.new result }
{
    let mut at = from;
    let mut done: u64 = 0;
    let mut o = 0;
    let mut last: u64 = 0;
    let mut back: u64 = 0;
    let mut w = no_window();
    let mut base = from;
    let mut record = Record::default();
    fill_window::<AsIs>(text, from, &mut w);
    // no `for`: the place moves by what was read
    while at < text.len() {
        if text[at] == b';' {
            let Ok(next) = other_at(text, at) else {
                return 0;
            };
            at = next;
        } else {
            base = window_at::<AsIs>(text, at, base, &mut w);
            let Some(next) = row_at(text, at, version, first + done, base, &w, hex, &mut record)
            else {
                return 0;
            };
            done += 1;
            let mark = mark_after(last, record.offset);
            put_record(out, o, record, mark);
            back = back_after(back, done, mark);
            last = record.offset;
            o += 20;
            at = next;
        }
    }
    back
}

// From line 3 on: the two passes.
fn body(text: &[u8], head: Heading, out: &mut [u8]) -> Result<TraceRead, Refused>
    requires { Headed text.now head.at head.version head.start × (length text.now ≤ size_limit) }
    ensures { ReadPromise text.now out.old (read_numbers result) out.new }
{
    let Heading { version, start, at } = head;
    let hex = HexDigits::new();
    let Judged { rows, first } = judge(text, at, version, start, &hex)?;
    if out.len() as u64 / 20 < rows {
        return Err(Refusal::NoRoomForRecords.whole());
    }
    let step_back = fill(text, at, version, first, &hex, out);
    Ok(TraceRead {
        version,
        start,
        rows,
        step_back,
        first,
    })
}

// Reads a trace text into packed records.
pub fn read(text: &[u8], out: &mut [u8]) -> Result<TraceRead, Refused>
    ensures { ReadPromise text.now out.old (read_numbers result) out.new }
{
    if SIZE_LIMIT < text.len() {
        return Err(Refusal::TooLarge.whole());
    }
    body(text, head(text)?, out)
}
