// Cases of numbers as digit strings.
use digits::{
    Letters, decimal_length, put_decimal, put_hex, put_padded, read_decimal, read_hex, read_padded,
};
use std::io;
use testing::{behind, none, number, numbers, output};

fn answer(rt: &impl Print, n: Option<u64>) -> io::Result<()> {
    match n {
        Some(v) => number(rt, v),
        None => none(rt),
    }
}

// Puts n in decimal, in w decimal digits, and in w hexadecimal digits of both letter cases, each behind a byte.
fn digits(rt: &impl Print, n: u64, w: usize) -> io::Result<()> {
    let mut out = [238u8; 88];
    let all: &mut [u8] = &mut out;
    if 20 < decimal_length(n) {
        return Ok(());
    }
    if 16 < w {
        return Ok(());
    }
    let a = put_decimal(all, 1, n);
    let b = put_padded(all, a + 1, w, n);
    let c = put_hex(all, b + 1, w, n, Letters::Capital);
    let d = put_hex(all, c + 1, w, n, Letters::Small);
    output(rt, all, d)
}

// Tries a case of digits, if the word is one. What is read stands behind a colon and a blank.
pub(crate) fn tried(rt: &impl Print, word: &[u8], line: &[u8]) -> io::Result<bool> {
    let s = behind(behind(line, b':'), b' ');
    match word {
        b"decimal" => answer(rt, read_decimal(s))?,
        b"padded" => answer(rt, read_padded(s))?,
        b"hex" => answer(rt, read_hex(s))?,
        b"digits" => {
            let a = numbers(line, 2, 2);
            digits(rt, a[0], a[1] as usize)?;
        }
        _ => return Ok(false),
    }
    Ok(true)
}
