// Cases of reading: a text as a trace, a line as a row.
use crate::packing::{fields, reason};
use crate::writing::{exported, page, written};
use base::Refused;
use std::io;
use testing::{before, behind, bytes, front, none, number, numbers, rest};
use trace::TraceRead;

// Version, start, rows, first step back and first number.
fn counts(rt: &impl Print, t: TraceRead) -> io::Result<()> {
    number(rt, t.version)?;
    number(rt, t.start)?;
    number(rt, t.rows)?;
    number(rt, t.step_back)?;
    number(rt, t.first)
}

// How many bytes so many records are; there are few in these cases.
pub(crate) fn size(rows: u64) -> usize {
    if 100 < rows {
        return 0;
    }
    rows as usize * 20
}

pub(crate) fn packed(rt: &impl Print, out: &[u8], end: usize) -> io::Result<()> {
    bytes(rt, front(out, end))?;
    rest(rt, out, end)
}

fn answer(rt: &impl Print, a: Result<TraceRead, Refused>, out: &[u8]) -> io::Result<()> {
    match a {
        Ok(t) => {
            number(rt, 0)?;
            number(rt, 0)?;
            counts(rt, t)?;
            packed(rt, out, size(t.rows))
        }
        Err(e) => {
            reason(rt, e)?;
            for _ in 0..5 {
                number(rt, 0)?;
            }
            rest(rt, out, 0)
        }
    }
}

fn read_into(rt: &impl Print, s: &[u8], out: &mut [u8], room: usize) -> io::Result<()> {
    if room <= out.len() {
        let a = trace::read(s, &mut out[0..room]);
        answer(rt, a, out)?;
    }
    Ok(())
}

// Reads a text into the first `room` bytes of a page.
pub(crate) fn read(rt: &impl Print, s: &[u8], room: usize) -> io::Result<()> {
    let mut out = page();
    read_into(rt, s, &mut out, room)
}

// Reads a text of three rows, writes it again and exports it, bus 0 as a channel.
fn again(rt: &impl Print, s: &[u8], room: usize, channel: u64) -> io::Result<()> {
    let mut records = [238u8; 60];
    let Ok(t) = trace::read(s, &mut records) else {
        return none(rt);
    };
    written(rt, t.version, t.start, t.first, &records, room)?;
    exported(rt, t.start, channel, &records, room, false)
}

// Reads a line as the row with a number.
fn row(rt: &impl Print, s: &[u8], version: u64, k: u64) -> io::Result<()> {
    match row_reader::read_row(s, version, k) {
        Some(r) => fields(rt, r),
        None => none(rt),
    }
}

// Tries a case of reading, if the word is one. What is read stands behind a colon and a blank.
pub(crate) fn tried(rt: &impl Print, word: &[u8], line: &[u8]) -> io::Result<bool> {
    let a = numbers(before(line, b':'), 2, 2);
    let s = behind(behind(line, b':'), b' ');
    match word {
        b"read" => read(rt, s, a[0] as usize)?,
        b"cut" => read(rt, front(s, a[1] as usize), a[0] as usize)?,
        b"again" => again(rt, s, a[0] as usize, a[1])?,
        b"row" => row(rt, s, a[0], a[1])?,
        _ => return Ok(false),
    }
    Ok(true)
}
