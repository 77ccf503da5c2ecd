// Skips the gap before a field of the window, and reads single fields of it. A field is read without searching its end first: what stops its digits must end it.
#![tactic(auto)]

ghost use Rattle.std.specs.Prelude.{◌≡◌, ◌⊎◌, [], ◌∷◌, ◌*◌, ◌-◌, ◌^◌, ◌≤◌, ◌<◌, get_or, drop};
ghost use Rattle.base.specs.Limits.{offset_digits};
ghost use Rattle.base.specs.inner.Decides.{Decides};
ghost use Rattle.base.specs.Text.{text, blank, cr};
ghost use Rattle.digits.specs.Digits.{DecimalDigit, HexDigit, Hex};
ghost use Rattle.fields.specs.Runs.{All};
ghost use Rattle.fields.specs.Columns.{NumberField, OffsetField, BusField, LengthField, Capital, remote_text};
ghost use Rattle.fields.specs.inner.Window.{window_bytes, Lined, Skipped, AfterGap, Solid, Starts, Scanned, Takes, HexField, TypeField};

use base::{LAST_BUS, OFFSET_DIGITS, OFFSET_LIMIT, wide};
use digits::HexDigits;

// How many bytes a window has. A row is read from a window, behind a thin reference: over a slice each gap and each field would be a real
// call with two numbers more.
pub const WINDOW: usize = 4096;

// The largest row number.
pub const LAST_NUMBER: u64 = 999999;

// What was read at a place: the place after it, and its number.
#[derive(Clone, Copy)]
pub struct Scan {
    pub end: usize,
    pub value: u64,
}

// Whether a field ends before this byte: a blank, or the CR after the line.
pub fn ends(b: u8) -> bool
    ensures { Decides ((b ≡ blank) ⊎ (b ≡ cr)) result }
{
    matches!(b, b' ' | b'\r')
}

// What stands after a gap: a field, or the end of the line.
#[derive(Clone, Copy)]
pub enum Next {
    Field(usize),
    End(usize),
}

// Skips the gap at a place.
pub fn after_gap(w: &[u8; WINDOW], at: usize) -> Next
    requires { Lined (drop at w.now) }
    ensures { AfterGap w.now at result }
{
    let a = skip(w, at);
    if w[a] == b'\r' {
        return Next::End(a);
    }
    Next::Field(a)
}

// The place after the blanks. Most gaps are one blank with a field after it: they are passed before the loop, by a test that tells CR from a field, too.
fn skip(w: &[u8; WINDOW], at: usize) -> usize
    requires { Lined (drop at w.now) }
    ensures skipped { Skipped w.now at result }
    ensures upper_bound { result < window_bytes }
{
    if w[at] != b' ' {
        return at;
    }
    let mut a = at + 1;
    if b' ' < w[a] {
        return a;
    }
    // no `for`: its second test at each blank, of the window's end, is a twentieth of reading's instructions, and the line's CR stops the loop
    while w[a] == b' ' {
        a += 1;
    }
    a
}

// Whether the line ends here.
pub fn at_end(w: &[u8; WINDOW], a: usize) -> bool
    requires { Lined (drop a w.now) }
    ensures { Decides (get_or w.now a 0 ≡ cr) result }
{
    w[a] == b'\r'
}

// The decimal digits from a place on, at most as many as an offset has before its point: `0` is 48 and `9` is 57.
fn decimal(w: &[u8; WINDOW], at: usize) -> Scan
    requires { Lined (drop at w.now) }
    ensures { Scanned DecimalDigit 10 offset_digits w.now at result }
{
    let most = at + OFFSET_DIGITS;
    let mut n: u64 = 0;
    for i in at..most {
        let b = wide(w[i]);
        if b < 48 || 57 < b {
            return Scan { end: i, value: n };
        }
        n = n * 10 + (b - 48);
    }
    Scan {
        end: most,
        value: n,
    }
}

// The hexadecimal digits from a place on, at most nine.
fn hexadecimal(w: &[u8; WINDOW], at: usize, hex: &HexDigits) -> Scan
    requires { Lined (drop at w.now) }
    ensures { Scanned HexDigit 16 9 w.now at result }
{
    let most = at + 9;
    let mut n: u64 = 0;
    for i in at..most {
        let Some(d) = hex.digit(w[i]) else {
            return Scan { end: i, value: n };
        };
        n = n * 16 + wide(d);
    }
    Scan {
        end: most,
        value: n,
    }
}

// A row number and `)`.
pub fn number_field(w: &[u8; WINDOW], at: usize) -> Option<Scan>
    requires { Starts w.now at }
    ensures { Takes NumberField w.now at result }
{
    if w[at] == b'0' {
        return None;
    }
    let s = decimal(w, at);
    let e = s.end;
    if e == at || at + 6 < e {
        return None;
    }
    if w[e] != b')' {
        return None;
    }
    if !ends(w[e + 1]) {
        return None;
    }
    Some(Scan {
        end: e + 1,
        value: s.value,
    })
}

// The digits after the point of an offset, as microseconds.
fn micros(part: u64, digits: usize) -> u64
    requires { (part < 10 ^ offset_digits) × ((digits ≡ 1) ⊎ (digits ≡ 3)) }
    ensures { (result ≡ part * 10 ^ (3 - digits)) × (result ≤ part * 100) }
{
    if digits == 1 {
        return part * 100;
    }
    part
}

// An offset with so many digits after its point, as microseconds. Its digits can say more than the largest offset.
pub fn offset_field(w: &[u8; WINDOW], at: usize, digits: usize) -> Option<Scan>
    requires { Starts w.now at × ((digits ≡ 1) ⊎ (digits ≡ 3)) }
    ensures { Takes (OffsetField digits) w.now at result }
{
    let s = decimal(w, at);
    let e = s.end;
    if e == at {
        return None;
    }
    if w[at] == b'0' && at + 1 < e {
        return None;
    }
    if w[e] != b'.' {
        return None;
    }
    let t = decimal(w, e + 1);
    let f = t.end;
    if f - e != digits + 1 {
        return None;
    }
    if !ends(w[f]) {
        return None;
    }
    let value = s.value * 1000 + micros(t.value, digits);
    if OFFSET_LIMIT < value {
        return None;
    }
    Some(Scan { end: f, value })
}

// A bus.
pub fn bus_field(w: &[u8; WINDOW], at: usize) -> Option<Scan>
    requires { Starts w.now at }
    ensures { Takes BusField w.now at result }
{
    if w[at] == b'0' {
        return None;
    }
    let s = decimal(w, at);
    let e = s.end;
    if e == at || LAST_BUS < s.value {
        return None;
    }
    if !ends(w[e]) {
        return None;
    }
    Some(Scan {
        end: e,
        value: s.value,
    })
}

// A type that starts with this byte and goes on with `x`.
fn short_type(w: &[u8; WINDOW], at: usize, value: u64) -> Option<Scan>
    requires { Starts w.now at }
    ensures { Takes (λ v f. (f ≡ get_or w.now at 0 ∷ text "x") × (v ≡ value)) w.now at result }
{
    if w[at + 1] != b'x' {
        return None;
    }
    if !ends(w[at + 2]) {
        return None;
    }
    Some(Scan { end: at + 2, value })
}

// A type that starts with this byte and goes on with these four.
fn long_type(w: &[u8; WINDOW], at: usize, a: u8, b: u8, c: u8, d: u8, value: u64) -> Option<Scan>
    requires { Starts w.now at × Solid a × Solid b × Solid c × Solid d }
    ensures { Takes (λ v f. (f ≡ get_or w.now at 0 ∷ a ∷ b ∷ c ∷ d ∷ []) × (v ≡ value)) w.now at result }
{
    if w[at + 1] != a || w[at + 2] != b || w[at + 3] != c || w[at + 4] != d {
        return None;
    }
    if !ends(w[at + 5]) {
        return None;
    }
    Some(Scan { end: at + 5, value })
}

// `Rx`, `Tx`, `Warng` or `Error`. No branch tells `Rx` from `Tx`: a trace mixes the two. The second byte parts the short types from the long ones, and `Error`
// from `Warng` is told by a number, 1 or 0, so that one place reads both: a larger function would not be put into the row reader.
pub fn type_field(w: &[u8; WINDOW], at: usize) -> Option<Scan>
    requires { Starts w.now at }
    ensures { Takes TypeField w.now at result }
{
    let m = w[at];
    if w[at + 1] == b'x' {
        return match m {
            b'R' | b'T' => short_type(w, at, wide((m - b'R') / 2)),
            _ => None,
        };
    }
    match m {
        b'E' | b'W' => {
            let error = (b'W' - m) / 18;
            long_type(
                w,
                at,
                b'a' + 17 * error,
                b'r',
                b'n' + error,
                b'g' + 11 * error,
                2 + wide(error),
            )
        }
        _ => None,
    }
}

// A hexadecimal number of at most eight digits.
pub fn hex_field(w: &[u8; WINDOW], at: usize, hex: &HexDigits) -> Option<Scan>
    requires { Starts w.now at }
    ensures { Takes HexField w.now at result }
{
    let s = hexadecimal(w, at, hex);
    let e = s.end;
    if e == at || at + 8 < e {
        return None;
    }
    if !ends(w[e]) {
        return None;
    }
    Some(Scan {
        end: e,
        value: s.value,
    })
}

// A length.
pub fn length_field(w: &[u8; WINDOW], at: usize) -> Option<Scan>
    requires { Starts w.now at }
    ensures { Takes LengthField w.now at result }
{
    let b = w[at];
    if b < b'0' || b'8' < b {
        return None;
    }
    if !ends(w[at + 1]) {
        return None;
    }
    Some(Scan {
        end: at + 1,
        value: wide(b - b'0'),
    })
}

// A byte of two hexadecimal digits.
pub fn byte_field(w: &[u8; WINDOW], at: usize, hex: &HexDigits) -> Option<Scan>
    requires { Starts w.now at }
    ensures { Takes (Hex 2) w.now at result }
{
    let high = wide(hex.digit(w[at])?);
    let low = wide(hex.digit(w[at + 1])?);
    if !ends(w[at + 2]) {
        return None;
    }
    Some(Scan {
        end: at + 2,
        value: high * 16 + low,
    })
}

// `RTR`.
pub fn remote_field(w: &[u8; WINDOW], at: usize) -> Option<Scan>
    requires { Starts w.now at }
    ensures { Takes (λ v f. f ≡ remote_text) w.now at result }
{
    if w[at] != b'R' || w[at + 1] != b'T' || w[at + 2] != b'R' {
        return None;
    }
    if !ends(w[at + 3]) {
        return None;
    }
    Some(Scan {
        end: at + 3,
        value: 0,
    })
}

// A word of capital letters.
pub fn word_field(w: &[u8; WINDOW], at: usize) -> Option<Scan>
    requires { Starts w.now at }
    ensures { Takes (λ v f. All Capital f) w.now at result }
{
    for i in at..WINDOW {
        let b = w[i];
        if ends(b) {
            return Some(Scan { end: i, value: 0 });
        }
        if b < b'A' || b'Z' < b {
            return None;
        }
    }
    // the line's CR stops the loop
    unreachable!()
}
