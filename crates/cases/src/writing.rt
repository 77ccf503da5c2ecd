// Cases of writing and exporting records.
ghost use Rattle.std.specs.Prelude.{◌≡◌, length};

use crate::packing::{records_of, refused};
use crate::reading::read;
use crate::returned::read_lines;
use ascii::Exported;
use std::io;
use testing::{before, behind, front, number, numbers, output};

pub(crate) fn page() -> [u8; 700]
    ensures { 700 ≡ length result }
{
    [238; 700]
}

// Writes records as a trace, into the first `room` bytes of a page: number, place, bytes and text, and what is
// read back from it, with room for twelve records.
fn write_into(
    rt: &impl Print,
    version: u64,
    start: u64,
    first: u64,
    records: &[u8],
    out: &mut [u8],
    room: usize,
) -> io::Result<()> {
    if out.len() < room {
        return Ok(());
    }
    match trace_writer::write(version, start, first, records, &mut out[0..room]) {
        Ok(bytes) => {
            number(rt, 0)?;
            number(rt, 0)?;
            number(rt, bytes as u64)?;
            output(rt, out, bytes)?;
            read(rt, front(out, bytes), 240)
        }
        Err(e) => refused(rt, e, out),
    }
}

fn lines(rt: &impl Print, e: Exported, out: &[u8]) -> io::Result<()> {
    number(rt, 0)?;
    number(rt, 0)?;
    number(rt, e.bytes as u64)?;
    number(rt, e.lines)?;
    number(rt, e.left_out)?;
    output(rt, out, e.bytes)
}

// Exports records, bus 0 as a channel, into the first `room` bytes of a page: number, place, bytes, lines, records left out and text; and, if it is
// wanted, what is read back from it.
fn export_into(
    rt: &impl Print,
    start: u64,
    channel: u64,
    records: &[u8],
    out: &mut [u8],
    room: usize,
    back: bool,
) -> io::Result<()> {
    if out.len() < room {
        return Ok(());
    }
    match ascii::export(start, channel, records, &mut out[0..room]) {
        Ok(e) => {
            lines(rt, e, out)?;
            if back {
                read_lines(rt, front(out, e.bytes), 240)?;
            }
            Ok(())
        }
        Err(e) => refused(rt, e, out),
    }
}

pub(crate) fn written(
    rt: &impl Print,
    version: u64,
    start: u64,
    first: u64,
    records: &[u8],
    room: usize,
) -> io::Result<()> {
    let mut out = page();
    write_into(rt, version, start, first, records, &mut out, room)
}

pub(crate) fn exported(
    rt: &impl Print,
    start: u64,
    channel: u64,
    records: &[u8],
    room: usize,
    back: bool,
) -> io::Result<()> {
    let mut out = page();
    export_into(rt, start, channel, records, &mut out, room, back)
}

// Writes the first bytes of records.
fn write(rt: &impl Print, a: [u64; 9], s: &[u8]) -> io::Result<()> {
    let records = records_of(s, a[5] as usize);
    written(
        rt,
        a[0],
        a[1],
        a[2],
        front(&records, a[3] as usize),
        a[4] as usize,
    )
}

// Exports the first bytes of records.
fn export(rt: &impl Print, a: [u64; 9], s: &[u8]) -> io::Result<()> {
    let records = records_of(s, a[4] as usize);
    exported(
        rt,
        a[0],
        a[1],
        front(&records, a[2] as usize),
        a[3] as usize,
        false,
    )
}

// Tries a case of several records, if the word is one. The records stand behind a colon and a blank.
pub(crate) fn tried(rt: &impl Print, word: &[u8], line: &[u8]) -> io::Result<bool> {
    let a = numbers(before(line, b':'), 2, 2);
    let s = behind(behind(line, b':'), b' ');
    match word {
        b"write" => write(rt, a, s)?,
        b"export" => export(rt, a, s)?,
        _ => return Ok(false),
    }
    Ok(true)
}
