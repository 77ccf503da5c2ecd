// Numbers as digit strings: read from bytes, and written as the house spells them.
#![tactic(auto)]

mod hex;
mod kept;
mod pairs;

ghost use Rattle.std.specs.Prelude.{◌≡◌, ◌∷◌, ◌+◌, ◌*◌, ◌^◌, ◌≤◌, ◌<◌, length};
ghost use Rattle.base.specs.inner.Wrote.{Wrote};
ghost use Rattle.digits.specs.declared.Letters.{Letters};
ghost use Rattle.base.specs.inner.Answers.{Answers};
ghost use Rattle.digits.specs.inner.Answer.{ReadDecimal, ReadPadded, ReadHex};
ghost use Rattle.digits.specs.House.{glyph_of, padded_text, hex_text, decimal_text};

use base::wide;
pub use hex::HexDigits;
pub use kept::Kept;
pub use pairs::{Pairs, put_pairs};

// The case of the letters for the hexadecimal digits from ten on.
#[derive(Clone, Copy)]
pub enum Letters {
    Capital,
    Small,
}

// The number that decimal digits spell, zeros kept.
pub fn read_padded(s: &[u8]) -> Option<u64>
    ensures { Answers (ReadPadded s.now) result }
{
    if 19 < s.len() {
        return None;
    }
    let mut n: u64 = 0;
    for b in s {
        if !b.is_ascii_digit() {
            return None;
        }
        n = n * 10 + wide(*b - b'0');
    }
    Some(n)
}

// The number that decimal digits without leading zeros spell.
pub fn read_decimal(s: &[u8]) -> Option<u64>
    ensures { Answers (ReadDecimal s.now) result }
{
    match s {
        [] | [b'0', _, ..] => None,
        _ => read_padded(s),
    }
}

// The number that hexadecimal digits of either letter case spell, zeros kept.
pub fn read_hex(s: &[u8]) -> Option<u64>
    ensures { Answers (ReadHex s.now) result }
{
    if 16 < s.len() {
        return None;
    }
    let hex = HexDigits::new();
    let mut n: u64 = 0;
    for b in s {
        n = n * 16 + wide(hex.digit(*b)?);
    }
    Some(n)
}

// How many digits n has in decimal. It is told by comparisons: a division for each digit takes longer.
pub fn decimal_length(n: u64) -> usize
    ensures { result ≡ length (decimal_text n) }
{
    if n < 10 {
        return 1;
    }
    if n < 100 {
        return 2;
    }
    if n < 1000 {
        return 3;
    }
    if n < 10000 {
        return 4;
    }
    if n < 100000 {
        return 5;
    }
    if n < 1000000 {
        return 6;
    }
    if n < 10000000 {
        return 7;
    }
    if n < 100000000 {
        return 8;
    }
    if n < 1000000000 {
        return 9;
    }
    if n < 10000000000 {
        return 10;
    }
    decimal_length(n / 10000000000) + 10
}

// Puts n in decimal at a position, and gives the position after it. The writer calls itself on n over ten, then puts the last digit.
pub fn put_decimal(out: &mut [u8], at: usize, n: u64) -> usize
    requires { at + length (decimal_text n) ≤ length out.old }
    ensures { Wrote out.old out.new at result (decimal_text n) }
{
    if n < 10 {
        out[at] = b'0' + n as u8;
        return at + 1;
    }
    let p = put_decimal(out, at, n / 10);
    out[p] = b'0' + (n % 10) as u8;
    p + 1
}

// Puts the last w decimal digits of n at a position, zeros kept, and gives the position after them. The last digit is put first: it is the
// remainder, and the quotient has those before it.
pub fn put_padded(out: &mut [u8], at: usize, w: usize, n: u64) -> usize
    requires { at + w ≤ length out.old }
    ensures wrote { Wrote out.old out.new at result (padded_text w n) }
    ensures value { result ≡ at + w }
{
    let mut m = n;
    for i in (0..w).rev() {
        out[at + i] = b'0' + (m % 10) as u8;
        m /= 10;
    }
    at + w
}

// The byte of a hexadecimal digit.
pub(crate) fn glyph(letters: Letters, d: u8) -> u8
    requires { d < 16 }
    ensures { result ≡ glyph_of letters d }
{
    if d < 10 {
        return b'0' + d;
    }
    match letters {
        Letters::Capital => b'A' + (d - 10),
        Letters::Small => b'a' + (d - 10),
    }
}

// Puts the last w hexadecimal digits of n at a position, zeros kept, and gives the position after them, from the last digit as `put_padded` does.
pub fn put_hex(out: &mut [u8], at: usize, w: usize, n: u64, letters: Letters) -> usize
    requires { at + w ≤ length out.old }
    ensures wrote { Wrote out.old out.new at result (hex_text letters w n) }
    ensures value { result ≡ at + w }
{
    let mut m = n;
    for i in (0..w).rev() {
        out[at + i] = glyph(letters, (m % 16) as u8);
        m /= 16;
    }
    at + w
}
