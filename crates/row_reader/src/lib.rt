// Reads one row of a trace. A gap is skipped and the field after it read, which goes on at the gap of the next column: one gap and one
// field for each column (`head`, then `frame`, `warning` or `error`), and the data bytes, and a warning's words, call each other to the end of
// the row. Every parameter is a number or a reference, and the result is a number.
#![tactic(auto)]

mod error;
mod frame;
mod head;
mod warning;

ghost use Rattle.std.specs.Prelude.{◌≡◌, List, ◌∷◌, ◌++◌, ℕ, ◌+◌, ◌<◌, length, drop};
ghost use Rattle.base.specs.inner.Answers.{Answers};
ghost use Rattle.fields.specs.inner.Window.{window_bytes, LineBeforeCr, Lined};
ghost use Rattle.base.specs.Text.{cr};
ghost use Rattle.row_reader.specs.inner.Answer.{ReadsRow, RowFound, NumberOf};

use digits::HexDigits;
use fields::{Next, WINDOW, after_gap, number_field};
use lines::LINE_LIMIT;
use record::Record;

// Reads the line at a place of a window as row k of a version: the place of its CR, and the record in `out`; or none, and then `out` is
// scratch.
pub fn row_in(
    w: &[u8; WINDOW],
    at: usize,
    hex: &HexDigits,
    version: u64,
    k: u64,
    out: &mut Record,
) -> Option<usize>
    requires { Lined (drop at w.now) }
    ensures { (line : List ℕ) → LineBeforeCr line (drop at w.now) → RowFound version k at line out.new result }
{
    // The chain answers with a number: with an Option its calls would not become a loop, and reading takes a tenth longer.
    match head::gap_number(w, at, hex, version, k, out) {
        0 => None,
        e => Some(e - 1),
    }
}

// The number of the row at a place of a window, where row e is expected: e itself, or, where e is 0, the number that stands there. If none stands
// there, no row does, and any number will do.
pub fn expected_number(w: &[u8; WINDOW], at: usize, e: u64) -> u64
    requires { Lined (drop at w.now) }
    ensures { (line : List ℕ) → LineBeforeCr line (drop at w.now) → NumberOf e line result }
{
    if e != 0 {
        return e;
    }
    let Next::Field(a) = after_gap(w, at) else {
        return 0;
    };
    let Some(s) = number_field(w, a) else {
        return 0;
    };
    s.value
}

// Puts bytes at the front of a window, and CR after them.
pub fn window(s: &[u8], w: &mut [u8; WINDOW])
    requires { length s.now < window_bytes }
    ensures { w.new ≡ s.now ++ (cr ∷ drop (length s.now + 1) w.old) }
{
    let slots: &mut [u8] = w;
    slots[..s.len()].copy_from_slice(s);
    slots[s.len()] = b'\r';
}

// A window to be filled. Of its bytes nothing is promised, which would be told one by one.
pub fn no_window() -> [u8; WINDOW]
    ensures { window_bytes ≡ length result }
{
    [0; WINDOW]
}

// Reads a line as row k of a version.
pub fn read_row(line: &[u8], version: u64, k: u64) -> Option<Record>
    ensures { Answers (ReadsRow version k line.now) result }
{
    if LINE_LIMIT < line.len() {
        return None;
    }
    let mut w = no_window();
    window(line, &mut w);
    let mut out = Record::default();
    let hex = HexDigits::new();
    let end = row_in(&w, 0, &hex, version, k, &mut out)?;
    if end != line.len() {
        return None;
    }
    Some(out)
}
