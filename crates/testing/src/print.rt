// How answers are printed: numbers and bytes after a blank each, texts in one line.
use crate::words::front;
use std::io;

pub fn text(rt: &impl Print, s: &[u8]) -> io::Result<()> {
    rt.write_all(s)
}

pub fn byte(rt: &impl Print, b: u8) -> io::Result<()> {
    text(rt, &[b])
}

pub fn number(rt: &impl Print, n: u64) -> io::Result<()> {
    print!(rt; " {n}")
}

// What stands for an answer that there is not.
pub fn none(rt: &impl Print) -> io::Result<()> {
    text(rt, b" none")
}

// Bytes in hexadecimal.
pub fn bytes(rt: &impl Print, s: &[u8]) -> io::Result<()> {
    byte(rt, b' ')?;
    for b in s {
        print!(rt; "{b:02x}")?;
    }
    Ok(())
}

// A byte of a text: CR, LF and what is no printable letter as they are written in a case.
fn letter(rt: &impl Print, b: u8) -> io::Result<()> {
    match b {
        b'\r' => text(rt, b"\\r"),
        b'\n' => text(rt, b"\\n"),
        b' '..=b'~' => byte(rt, b),
        _ => print!(rt; "\\x{b:02x}"),
    }
}

fn letters(rt: &impl Print, s: &[u8]) -> io::Result<()> {
    for b in s {
        letter(rt, *b)?;
    }
    Ok(())
}

// A text; of a long one its beginning, its length and its end.
pub fn shown(rt: &impl Print, s: &[u8]) -> io::Result<()> {
    let n = s.len();
    if n <= 800 {
        return letters(rt, s);
    }
    letters(rt, &s[0..60])?;
    print!(rt; ". {n} .")?;
    letters(rt, &s[n - 60..])
}

// Whether the bytes from a place on are those that every output has at first.
fn untouched(out: &[u8], from: usize) -> bool {
    out.iter().skip(from).all(|b| *b == 238)
}

// The end of an answer: whether the output is untouched from a place on.
pub fn rest(rt: &impl Print, out: &[u8], from: usize) -> io::Result<()> {
    if untouched(out, from) {
        return text(rt, b" untouched");
    }
    text(rt, b" touched")
}

// An output: its first n bytes as a text, and whether it is untouched after them.
pub fn output(rt: &impl Print, out: &[u8], n: usize) -> io::Result<()> {
    byte(rt, b' ')?;
    shown(rt, front(out, n))?;
    rest(rt, out, n)
}
