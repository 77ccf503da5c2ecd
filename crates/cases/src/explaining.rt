// Cases of explaining a line that is no row.
use explain::{Explained, explain};
use std::io;
use testing::{before, behind, front, number, numbers};

// Number, place, reason (1 wrong field, 2 ended early) and field.
fn four(rt: &impl Print, n: u64, reason: u64, field: u64) -> io::Result<()> {
    number(rt, n)?;
    number(rt, 0)?;
    number(rt, reason)?;
    number(rt, field)
}

// Explains a line as the row with a number.
fn explained(rt: &impl Print, s: &[u8], version: u64, k: u64) -> io::Result<()> {
    match explain(s, version, k) {
        Ok(Explained::Wrong(field)) => four(rt, 0, 1, field),
        Ok(Explained::Early(fields)) => four(rt, 0, 2, fields),
        Err(reason) => four(rt, reason.number(), 0, 0),
    }
}

// Tries a case of explaining, if the word is one. The line stands behind a colon and a blank.
pub(crate) fn tried(rt: &impl Print, word: &[u8], line: &[u8]) -> io::Result<bool> {
    let a = numbers(before(line, b':'), 2, 2);
    let s = behind(behind(line, b':'), b' ');
    match word {
        b"explain" => explained(rt, s, a[0], a[1])?,
        b"begin" => explained(rt, front(s, a[2] as usize), a[0], a[1])?,
        _ => return Ok(false),
    }
    Ok(true)
}
