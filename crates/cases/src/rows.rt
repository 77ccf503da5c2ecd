// Cases of writing one row.
ghost use Rattle.std.specs.Prelude.{◌≡◌, ◌≤◌, length};
ghost use Rattle.fields.specs.Columns.{last_number};
ghost use Rattle.record.specs.Record.{WellFormed};
ghost use Rattle.row.specs.Versions.{Carries};

use crate::packing::record_of;
use digits::{Kept, Letters, Pairs};
use record::Record;
use row::carries;
use row_writer::{put_row, row_length};
use std::io;
use testing::{none, number, numbers, output};

fn line_space() -> [u8; 256]
    ensures { 256 ≡ length result }
{
    [238; 256]
}

// Puts a row behind two bytes: its length, the place behind it, those two bytes and the row.
fn put(rt: &impl Print, version: u64, k: u64, r: Record) -> io::Result<()>
    requires { WellFormed r × Carries r version × (1 ≤ k) × (k ≤ last_number) }
{
    let size = row_length(version, k, r);
    if size <= 250 {
        let mut out = line_space();
        let pairs = Pairs::new(Letters::Capital);
        let tens = Kept::new(k / 10);
        let seconds = Kept::new(r.offset / 1000 / 1000);
        let end = put_row(&mut out, 2, version, k, r, &tens, &seconds, &pairs);
        number(rt, size as u64)?;
        number(rt, end as u64)?;
        output(rt, &out, end)?;
    }
    Ok(())
}

// Puts the row of a record, if it has one.
fn row(rt: &impl Print, version: u64, k: u64, r: Record) -> io::Result<()> {
    if !record::well_formed(r) {
        return none(rt);
    }
    if !carries(r, version) {
        return none(rt);
    }
    if k < 1 {
        return none(rt);
    }
    if 999999 < k {
        return none(rt);
    }
    put(rt, version, k, r)
}

// Tries a case of writing one row, if the word is one.
pub(crate) fn tried(rt: &impl Print, word: &[u8], line: &[u8]) -> io::Result<bool> {
    let a = numbers(line, 2, 2);
    match word {
        b"put" => row(rt, a[0], a[1], record_of(numbers(line, 6, 2)))?,
        _ => return Ok(false),
    }
    Ok(true)
}
