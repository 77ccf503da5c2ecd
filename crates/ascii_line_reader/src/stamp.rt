// The stamp of a line: `dd.mm.yyyy`, a gap, `hh:mm:ss.xxxx`.
ghost use Rattle.std.specs.Prelude.{◌≡◌, List, [], ◌∷◌, ℕ, ◌+◌, ◌≤◌, ◌<◌, drop};
ghost use Rattle.fields.specs.Parted.{Parted};
ghost use Rattle.fields.specs.inner.Window.{LineBeforeCr, Lined, Starts, Takes};
ghost use Rattle.ascii_line_reader.specs.inner.Columns.{DatePart, TimePart};
ghost use Rattle.ascii_line_reader.specs.inner.Answer.{DigitsThen, StampRead};

use base::wide;
use clock::{CalendarDay, day_of};
use fields::{Next, Scan, WINDOW, after_gap, ends};

// The number of two decimal digits at a place.
fn two(w: &[u8; WINDOW], at: usize) -> Option<u64>
    requires { Lined (drop at w.now) }
    ensures { DigitsThen 2 [] w.now at result }
{
    let bytes: &[u8] = w;
    let a = wide(bytes[at]);
    if a < 48 || 57 < a {
        return None;
    }
    let b = wide(bytes[at + 1]);
    if b < 48 || 57 < b {
        return None;
    }
    Some((a - 48) * 10 + (b - 48))
}

// The number of two decimal digits with this byte after them.
fn two_then(w: &[u8; WINDOW], at: usize, b: u8) -> Option<u64>
    requires { Lined (drop at w.now) × (13 < b) }
    ensures { DigitsThen 2 (b ∷ []) w.now at result }
{
    let bytes: &[u8] = w;
    let n = two(w, at)?;
    if bytes[at + 2] != b {
        return None;
    }
    Some(n)
}

// The number of four decimal digits at a place.
fn four(w: &[u8; WINDOW], at: usize) -> Option<u64>
    requires { Lined (drop at w.now) }
    ensures { DigitsThen 4 [] w.now at result }
{
    let high = two(w, at)?;
    let low = two(w, at + 2)?;
    Some(high * 100 + low)
}

// A date up to day 99,999: its day.
fn date_field(w: &[u8; WINDOW], at: usize) -> Option<Scan>
    requires { Lined (drop at w.now) }
    ensures { Takes DatePart w.now at result }
{
    let bytes: &[u8] = w;
    let day = two_then(w, at, b'.')?;
    let month = two_then(w, at + 3, b'.')?;
    let year = four(w, at + 6)?;
    if !ends(bytes[at + 10]) {
        return None;
    }
    Some(Scan {
        end: at + 10,
        value: day_of(CalendarDay { day, month, year })?,
    })
}

// A time of a day: the steps of 100 microseconds since it began.
fn time_field(w: &[u8; WINDOW], at: usize) -> Option<Scan>
    requires { Lined (drop at w.now) }
    ensures { Takes TimePart w.now at result }
{
    let bytes: &[u8] = w;
    let hour = two_then(w, at, b':')?;
    if 23 < hour {
        return None;
    }
    let minute = two_then(w, at + 3, b':')?;
    if 59 < minute {
        return None;
    }
    let second = two_then(w, at + 6, b'.')?;
    if 59 < second {
        return None;
    }
    let part = four(w, at + 9)?;
    if !ends(bytes[at + 13]) {
        return None;
    }
    Some(Scan {
        end: at + 13,
        value: ((hour * 60 + minute) * 60 + second) * 10000 + part,
    })
}

// The steps of 100 microseconds of a day.
const DAY_TICKS: u64 = 864_000_000;

// A stamp at the start of a line.
pub fn stamp_in(w: &[u8; WINDOW], at: usize) -> Option<Scan>
    requires { Lined (drop at w.now) }
    ensures { (line : List ℕ) (fs : List (List ℕ)) → LineBeforeCr line (drop at w.now) → Parted fs line → StampRead line w.now at fs result }
{
    let d = date_field(w, at)?;
    let Next::Field(a) = after_gap(w, d.end) else {
        return None;
    };
    let t = time_field(w, a)?;
    Some(Scan {
        end: t.end,
        value: d.value * DAY_TICKS + t.value,
    })
}
