// Lines that take the number of a case: `#` stands for it in decimal, `@` in two hexadecimal digits, `?` in four, `!` in eight, `^` for so many data
// bytes (01, 02, ..), `_` for so many blanks, `*` for so many times the byte after it, and `%` for a text that is given beside the line. A backslash
// begins an escape. Nothing is put where there is no room.
ghost use Rattle.testing.specs.Putting.{PutOrNot, Puts};

use crate::words::find;
use base::{put_byte, put_text};
use digits::{Letters, decimal_length, put_decimal, put_hex};
use escapes::{Begun, after, ended};

// Puts some bytes at a position, and gives the position after them.
pub fn put(out: &mut [u8], at: usize, s: &[u8]) -> usize
    ensures { PutOrNot out.old out.new at result s.now }
{
    if out.len() < at || out.len() - at < s.len() {
        return at;
    }
    put_text(out, at, s)
}

fn put_one(out: &mut [u8], at: usize, b: u8) -> usize
    ensures { Puts out.old out.new at result }
{
    if out.len() <= at {
        return at;
    }
    put_byte(out, at, b)
}

fn decimal(out: &mut [u8], at: usize, n: u64) -> usize
    ensures { Puts out.old out.new at result }
{
    if out.len() < at || out.len() - at < decimal_length(n) {
        return at;
    }
    put_decimal(out, at, n)
}

fn hexadecimal(out: &mut [u8], at: usize, width: usize, n: u64) -> usize
    ensures { Puts out.old out.new at result }
{
    if out.len() < at || out.len() - at < width {
        return at;
    }
    put_hex(out, at, width, n, Letters::Capital)
}

// Puts a byte n times.
fn repeated(out: &mut [u8], at: usize, b: u8, n: u64) -> usize
    ensures { Puts out.old out.new at result }
{
    let mut p = at;
    for _ in 0..n {
        p = put_one(out, p, b);
    }
    p
}

// Puts n data bytes, each after a blank.
fn data(out: &mut [u8], at: usize, n: u64) -> usize
    ensures { Puts out.old out.new at result }
{
    let mut p = at;
    for i in 1..=n {
        p = put_one(out, p, b' ');
        p = hexadecimal(out, p, 2, i);
    }
    p
}

// Puts what a byte of a line stands for by itself.
fn alone(out: &mut [u8], at: usize, b: u8, n: u64) -> usize
    ensures { Puts out.old out.new at result }
{
    match b {
        b'#' => decimal(out, at, n),
        b'@' => hexadecimal(out, at, 2, n),
        b'?' => hexadecimal(out, at, 4, n),
        b'!' => hexadecimal(out, at, 8, n),
        b'^' => data(out, at, n),
        b'_' => repeated(out, at, b' ', n),
        b'*' => at,
        _ => put_one(out, at, b),
    }
}

// Puts what a byte of a line stands for after others: what was begun by them, and a star if the last of them is one.
fn next(out: &mut [u8], at: usize, begun: Begun, star: bool, b: u8, n: u64) -> usize
    ensures { Puts out.old out.new at result }
{
    if after(begun, b) != Begun::Nothing {
        return at;
    }
    if begun != Begun::Nothing {
        return put_one(out, at, ended(begun, b));
    }
    if star {
        return repeated(out, at, b, n);
    }
    alone(out, at, b, n)
}

// Whether a byte of a line makes the next one stand so many times.
fn is_star(begun: Begun, b: u8) -> bool {
    begun == Begun::Nothing && b == b'*'
}

// Puts a line without `%`, and gives the position after it.
fn plain(out: &mut [u8], at: usize, line: &[u8], n: u64) -> usize
    ensures { Puts out.old out.new at result }
{
    let mut p = at;
    let mut begun = Begun::Nothing;
    let mut star = false;
    for b in line {
        p = next(out, p, begun, star, *b, n);
        star = is_star(begun, *b);
        begun = after(begun, *b);
    }
    p
}

// Puts a line and the text that `%` stands for, and gives the position after it.
pub fn fill(out: &mut [u8], line: &[u8], n: u64, given: &[u8]) -> usize
    ensures { Puts out.old out.new 0 result }
{
    let mut p = 0;
    let mut at = 0;
    // No `split`: after a `%` at the end nothing more is put, and between two of them `given` is.
    while at < line.len() {
        let end = find(line, at, b'%');
        p = plain(out, p, &line[at..end], n);
        if line.len() <= end {
            return p;
        }
        p = plain(out, p, given, n);
        at = end + 1;
    }
    p
}
