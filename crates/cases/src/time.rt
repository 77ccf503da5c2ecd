// Cases of time: starts, day fractions, dates and stamps.
use base::OFFSET_LIMIT;
use clock::{CalendarDay, DayTime, START_LIMIT, date_of, day_fraction, stamp_of, start_of};
use digits::read_padded;
use std::io;
use testing::{before, behind, none, number, numbers};

// The start of a day count and of the digits of a fraction.
fn start(rt: &impl Print, days: u64, fraction: &[u8]) -> io::Result<()> {
    if 99999 < days {
        return none(rt);
    }
    if fraction.len() == 0 {
        return none(rt);
    }
    if 10 < fraction.len() {
        return none(rt);
    }
    let Some(parts) = read_padded(fraction) else {
        return none(rt);
    };
    number(rt, start_of(days, parts, fraction.len() as u64))
}

// The fraction of a millisecond of a day, and the millisecond of that fraction in the last day.
fn fraction(rt: &impl Print, ms: u64) -> io::Result<()> {
    if 86399999 < ms {
        return none(rt);
    }
    let f = day_fraction(ms);
    number(rt, f)?;
    number(rt, start_of(99999, f, 10) % 86400000)
}

fn day(rt: &impl Print, d: CalendarDay) -> io::Result<()> {
    number(rt, d.day)?;
    number(rt, d.month)?;
    number(rt, d.year)
}

fn date(rt: &impl Print, days: u64) -> io::Result<()> {
    if 130000 < days {
        return none(rt);
    }
    day(rt, date_of(days))
}

fn time(rt: &impl Print, t: DayTime) -> io::Result<()> {
    number(rt, t.days)?;
    number(rt, t.hour)?;
    number(rt, t.minute)?;
    number(rt, t.second)?;
    number(rt, t.part)
}

fn stamp(rt: &impl Print, start: u64, offset: u64) -> io::Result<()> {
    if START_LIMIT < start {
        return none(rt);
    }
    if OFFSET_LIMIT < offset {
        return none(rt);
    }
    let s = stamp_of(start, offset);
    day(rt, s.date)?;
    time(rt, s.time)
}

// Tries a case of time, if the word is one. The digits of a fraction stand behind a colon and a blank.
pub(crate) fn tried(rt: &impl Print, word: &[u8], line: &[u8]) -> io::Result<bool> {
    let a = numbers(before(line, b':'), 2, 2);
    match word {
        b"start" => start(rt, a[0], behind(behind(line, b':'), b' '))?,
        b"fraction" => fraction(rt, a[0])?,
        b"date" => date(rt, a[0])?,
        b"stamp" => stamp(rt, a[0], a[1])?,
        _ => return Ok(false),
    }
    Ok(true)
}
