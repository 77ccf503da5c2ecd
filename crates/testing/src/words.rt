// The parts of a line: what stands before a byte, what stands after it, and the numbers among its words.
ghost use Rattle.std.specs.Prelude.{◌≡◌, ℕ, ◌+◌, ◌*◌, ◌≤◌, ◌<◌, length, get_or, take, drop};
ghost use Rattle.testing.specs.Words.{FirstFrom, before, behind, skipped, word, ValueOf, KeyOf};

use base::wide;
use digits::{read_decimal, read_hex};

// The first place of a byte from a place on, or the end.
pub fn find(s: &[u8], at: usize, b: u8) -> usize
    requires { at ≤ length s.now }
    ensures { FirstFrom s.now at b result }
{
    for i in at..s.len() {
        if s[i] == b {
            return i;
        }
    }
    s.len()
}

// What stands before the first of a byte, or all.
pub fn before(s: &[u8], b: u8) -> &[u8]
    ensures { result.now ≡ before b s.now }
{
    let i = find(s, 0, b);
    &s[..i]
}

// What stands after the first of a byte, or nothing.
pub fn behind(s: &[u8], b: u8) -> &[u8]
    ensures { result.now ≡ behind b s.now }
{
    let i = find(s, 0, b);
    if i < s.len() { &s[i + 1..] } else { &s[i..] }
}

// A number in decimal, or after an x in hexadecimal; 0 where it is none.
pub fn value(s: &[u8]) -> u64
    ensures { ValueOf s.now result }
{
    match s {
        [b'x', digits @ ..] => read_hex(digits).unwrap_or(0),
        _ => read_decimal(s).unwrap_or(0),
    }
}

// The place after the next blank, or the end.
fn next_word(s: &[u8], at: usize) -> usize
    requires { at ≤ length s.now }
    ensures { (result ≤ length s.now) × (drop result s.now ≡ behind 32 (drop at s.now)) }
{
    let i = find(s, at, b' ');
    if i < s.len() { i + 1 } else { i }
}

fn value_at(s: &[u8], at: usize) -> u64
    requires { at ≤ length s.now }
    ensures { ValueOf (before 32 (drop at s.now)) result }
{
    let end = find(s, at, b' ');
    value(&s[at..end])
}

// The place so many words further on, or the end.
fn skip(s: &[u8], at: usize, words: usize) -> usize
    requires { at ≤ length s.now }
    ensures { (result ≤ length s.now) × (drop result s.now ≡ skipped words (drop at s.now)) }
{
    let mut p = at;
    for _ in 0..words {
        p = next_word(s, p);
    }
    p
}

// Nine numbers among the words of a line: that of the word after the first so many, and so on by steps. What is not there is 0.
pub fn numbers(s: &[u8], first: usize, step: usize) -> [u64; 9]
    ensures { (k : ℕ) → k < 9 → ValueOf (word (first + k * step) s.now) (get_or result k 0) }
{
    let mut a = [0u64; 9];
    let mut at = skip(s, 0, first);
    for k in 0..9 {
        a[k] = value_at(s, at);
        at = skip(s, at, step);
    }
    a
}

// The first n bytes, or all.
pub fn front(s: &[u8], n: usize) -> &[u8]
    ensures { result.now ≡ take n s.now }
{
    &s[..n.min(s.len())]
}

// The bytes of a word of at most eight letters as one number.
pub fn key(word: &[u8]) -> u64
    ensures { KeyOf word.now result }
{
    if 8 < word.len() {
        return 0;
    }
    let mut k = 0;
    for b in word {
        k = k * 256 + wide(*b);
    }
    k
}
