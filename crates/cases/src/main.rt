// Runs the library's functions on either side of every limit. The cases are the lines of `stdin`, which says how they are written. A line that is
// printed shows what is tried and what comes back. What is printed is compared with `stdout`.
#![tactic(auto)]

mod explaining;
mod inputs;
mod packing;
mod reading;
mod returned;
mod rows;
mod strings;
mod time;
mod writing;

ghost use Rattle.std.specs.Prelude.{◌≡◌, ◌≤◌, ◌<◌, length};

use convert::taken;
use std::io;
use testing::{before, behind, byte, fill, front, key, shown, text, value};

// Room for a case with two fields that are longer than a window.
fn line_space() -> [u8; 10000]
    ensures { 10000 ≡ length result }
{
    [0; 10000]
}

// So many zeros. Proved for any number, since the checker can't count as far as the one below.
fn zeros<const N: usize>() -> [u8; N]
    ensures { N ≡ length result }
{
    [0; N]
}

// Room for all of `stdin`.
fn cases_space() -> [u8; 524288]
    ensures { 524288 ≡ length result }
{
    zeros()
}

// Tries a case of records, if the word is one.
fn of_records(rt: &impl Print, word: &[u8], line: &[u8]) -> io::Result<bool> {
    Ok(
        packing::tried(rt, word, line)?
            || rows::tried(rt, word, line)?
            || writing::tried(rt, word, line)?,
    )
}

// Tries a case of numbers, if the word is one.
fn of_numbers(rt: &impl Print, word: &[u8], line: &[u8]) -> io::Result<bool> {
    Ok(strings::tried(rt, word, line)? || time::tried(rt, word, line)?)
}

// Tries a case of a text or of a line, if the word is one.
fn of_texts(rt: &impl Print, word: &[u8], line: &[u8]) -> io::Result<bool> {
    Ok(
        reading::tried(rt, word, line)?
            || returned::tried(rt, word, line)?
            || explaining::tried(rt, word, line)?,
    )
}

// The letters of a word, without the NULs that stand before them in its key.
fn without_nuls(letters: &[u8; 8]) -> &[u8] {
    for i in 0..letters.len() {
        if letters[i] != 0 {
            return &letters[i..];
        }
    }
    letters
}

// One case. Its first word says what is tried.
fn tried(rt: &impl Print, line: &[u8]) -> io::Result<()> {
    let letters = key(before(before(line, b' '), b':')).to_be_bytes();
    let word = without_nuls(&letters);
    if of_texts(rt, word, line)? || of_records(rt, word, line)? || of_numbers(rt, word, line)? {
        return Ok(());
    }
    if inputs::tried(rt, word, line)? {
        return Ok(());
    }
    text(rt, b" no such case")
}

// A line with its number and the text that `%` stands for. What is printed of it has `%` itself.
fn case(rt: &impl Print, line: &[u8], n: u64, given: &[u8]) -> io::Result<()> {
    let mut filled = line_space();
    let printed = fill(&mut filled, line, n, b"%");
    shown(rt, front(&filled, printed))?;
    text(rt, b" ->")?;
    let end = fill(&mut filled, line, n, given);
    tried(rt, front(&filled, end))?;
    byte(rt, b'\n')
}

// A case for each number from the first to the last.
fn each(rt: &impl Print, line: &[u8], first: u64, last: u64, given: &[u8]) -> io::Result<()> {
    for n in first..last {
        case(rt, line, n, given)?;
    }
    case(rt, line, last, given)
}

// A family of cases: its first number, its last, and the case.
fn family(rt: &impl Print, line: &[u8], given: &[u8]) -> io::Result<()> {
    let rest = behind(line, b' ');
    each(
        rt,
        behind(rest, b' '),
        value(before(line, b' ')),
        value(before(rest, b' ')),
        given,
    )
}

// The cases of a line.
fn cases(rt: &impl Print, line: &[u8], given: &[u8]) -> io::Result<()> {
    if line.len() == 0 {
        return Ok(());
    }
    match line[0] {
        b'/' | b'%' => Ok(()),
        b'0'..=b'9' => family(rt, line, given),
        _ => case(rt, line, 0, given),
    }
}

// The cases of all lines. A line that begins with `%` says what `%` stands for from there on.
fn lines(rt: &impl Print, s: &[u8]) -> io::Result<()> {
    let mut given = before(s, b'\n');
    for line in s.split(|b| *b == b'\n') {
        if let Some(text) = line.strip_prefix(b"%") {
            given = text;
        }
        cases(rt, line, given)?;
    }
    Ok(())
}

fn main(rt: HostRuntime) -> io::Result<()> {
    let mut input = cases_space();
    let got = taken(&mut rt.stdin(), &mut input)?;
    lines(&rt, &input[..got])
}
