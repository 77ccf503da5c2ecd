// Cases of converting an input to what is printed for it.
ghost use Rattle.std.specs.Prelude.{◌≡◌, length};

use std::io;
use testing::{before, behind, fill, front, none, number, numbers, output, put, rest};

fn input_space() -> [u8; 70000]
    ensures { 70000 ≡ length result }
{
    [0; 70000]
}

// As large as those of the program.
fn records_space() -> [u8; 72800]
    ensures { 72800 ≡ length result }
{
    [0; 72800]
}

fn page_space() -> [u8; 313040]
    ensures { 313040 ≡ length result }
{
    [238; 313040]
}

// What is printed: its length and its bytes, or none where what is lent is too short.
fn printed(rt: &impl Print, bytes: Option<usize>, page: &[u8]) -> io::Result<()> {
    match bytes {
        Some(n) => {
            number(rt, n as u64)?;
            output(rt, page, n)
        }
        None => {
            none(rt)?;
            rest(rt, page, 0)
        }
    }
}

// Converts an input with the first r bytes for records, and the first p of a page.
fn parts(
    rt: &impl Print,
    input: &[u8],
    r: usize,
    p: usize,
    records: &mut [u8],
    page: &mut [u8],
) -> io::Result<()> {
    if records.len() < r {
        return Ok(());
    }
    if page.len() < p {
        return Ok(());
    }
    let a = convert::convert(input, &mut records[0..r], &mut page[0..p]);
    printed(rt, a, page)
}

// Converts an input, with so many bytes lent for records, and so many for the page.
fn converted(rt: &impl Print, input: &[u8], r: usize, p: usize) -> io::Result<()> {
    let mut records = records_space();
    let mut page = page_space();
    parts(rt, input, r, p, &mut records, &mut page)
}

// Converts the first n bytes of a long input, with all that the program lends.
fn first(rt: &impl Print, input: &[u8], n: usize) -> io::Result<()> {
    converted(rt, front(input, n), 72800, 313040)
}

// Puts a line that takes a number, and gives the position after it.
fn put_line(out: &mut [u8], at: usize, line: &[u8], k: u64) -> usize {
    if out.len() < at {
        return at;
    }
    at + fill(&mut out[at..], line, k, b"")
}

// Puts a line for each number from 1 to n.
fn put_lines(out: &mut [u8], at: usize, line: &[u8], n: u64) -> usize {
    let mut p = at;
    for k in 0..n {
        p = put_line(out, p, line, k + 1);
    }
    p
}

// A text before a bar, so many times the line between two bars, and the text behind them.
fn long(rt: &impl Print, s: &[u8], n: u64) -> io::Result<()> {
    let mut input = input_space();
    let rest = behind(s, b'|');
    let p = put(&mut input, 0, before(s, b'|'));
    let q = put_lines(&mut input, p, before(rest, b'|'), n);
    let end = put(&mut input, q, behind(rest, b'|'));
    first(rt, &input, end)
}

// The next number of a generator.
fn next(x: u64) -> u64 {
    let y = x % 2147483648;
    (y * 1103515245 + 12345) % 2147483648
}

// Puts a byte of at least `low`, and no other.
fn put_above(out: &mut [u8], at: usize, b: u64, low: u64) -> usize {
    if b < low {
        return at;
    }
    if out.len() <= at {
        return at;
    }
    out[at] = (b % 256) as u8;
    at + 1
}

// Takes n bytes of a generator, and puts those of at least `low`.
fn put_noise(out: &mut [u8], at: usize, seed: u64, n: u64, low: u64) -> usize {
    let mut p = at;
    let mut x = seed;
    for _ in 0..n {
        x = next(x);
        p = put_above(out, p, x / 65536 % 256, low);
    }
    p
}

// The text before a bar, noise, and the text behind the bar.
fn noise(rt: &impl Print, s: &[u8], seed: u64, n: u64, low: u64) -> io::Result<()> {
    let mut input = input_space();
    let p = put(&mut input, 0, before(s, b'|'));
    let q = put_noise(&mut input, p, seed, n, low);
    let end = put(&mut input, q, behind(s, b'|'));
    first(rt, &input, end)
}

// Tries a case of converting, if the word is one. The text stands behind a colon and a blank.
pub(crate) fn tried(rt: &impl Print, word: &[u8], line: &[u8]) -> io::Result<bool> {
    let a = numbers(before(line, b':'), 2, 2);
    let s = behind(behind(line, b':'), b' ');
    match word {
        b"convert" => converted(rt, s, a[0] as usize, a[1] as usize)?,
        b"long" => long(rt, s, a[0])?,
        b"noise" => noise(rt, s, a[0], a[1], a[2])?,
        _ => return Ok(false),
    }
    Ok(true)
}
