// Cases of reading Telemotive ASCII back.
use crate::reading::{packed, size};
use crate::writing::{exported, page};
use ascii_reader::{AsciiRead, read_ascii};
use base::Refused;
use std::io;
use testing::{before, behind, front, none, number, numbers, rest};

// Number, place, start and records.
fn four(rt: &impl Print, n: u64, place: u64, start: u64, records: u64) -> io::Result<()> {
    number(rt, n)?;
    number(rt, place)?;
    number(rt, start)?;
    number(rt, records)
}

fn answer(rt: &impl Print, a: Result<AsciiRead, Refused>, out: &[u8]) -> io::Result<()> {
    match a {
        Ok(AsciiRead { start, records }) => {
            four(rt, 0, 0, start, records)?;
            packed(rt, out, size(records))
        }
        Err(e) => {
            four(rt, e.reason.number(), e.place, 0, 0)?;
            rest(rt, out, 0)
        }
    }
}

fn read_into(rt: &impl Print, s: &[u8], out: &mut [u8], room: usize) -> io::Result<()> {
    if room <= out.len() {
        let a = read_ascii(s, &mut out[0..room]);
        answer(rt, a, out)?;
    }
    Ok(())
}

// Reads lines into the first `room` bytes of a page.
pub(crate) fn read_lines(rt: &impl Print, s: &[u8], room: usize) -> io::Result<()> {
    let mut out = page();
    read_into(rt, s, &mut out, room)
}

// Reads lines, exports what is read, bus 0 as a channel, and reads that.
fn returned(rt: &impl Print, s: &[u8], room: usize, channel: u64) -> io::Result<()> {
    let mut records = page();
    let Ok(a) = read_ascii(s, &mut records) else {
        return none(rt);
    };
    exported(
        rt,
        a.start,
        channel,
        front(&records, size(a.records)),
        room,
        true,
    )
}

// Tries a case of reading lines, if the word is one. The lines stand behind a colon and a blank.
pub(crate) fn tried(rt: &impl Print, word: &[u8], line: &[u8]) -> io::Result<bool> {
    let a = numbers(before(line, b':'), 2, 2);
    let s = behind(behind(line, b':'), b' ');
    match word {
        b"ascii" => read_lines(rt, s, a[0] as usize)?,
        b"part" => read_lines(rt, front(s, a[1] as usize), a[0] as usize)?,
        b"return" => returned(rt, s, a[0] as usize, a[1])?,
        _ => return Ok(false),
    }
    Ok(true)
}
