// A whole trace, written from packed records as the house spells it. The first pass judges and measures, the second writes.
#![tactic(auto)]

ghost use Rattle.std.specs.Prelude.{◌≡◌, ◌+◌, ◌≤◌, length};
ghost use Rattle.base.specs.inner.Decides.{Decides};
ghost use Rattle.base.specs.inner.Wrote.{Wrote};
ghost use Rattle.clock.specs.Start.{start_limit};
ghost use Rattle.fields.specs.Columns.{last_number};
ghost use Rattle.record.specs.Record.{WellFormed};
ghost use Rattle.records.specs.Records.{Whole};
ghost use Rattle.row.specs.Versions.{Version};
ghost use Rattle.trace.specs.Trace.{FirstNumber};
ghost use Rattle.trace.specs.House.{version_line_text, start_line_text};
ghost use Rattle.trace_writer.specs.Promise.{write_numbers, NumberFits, WritePromise};
ghost use Rattle.trace_writer.specs.inner.Passes.{with_end, head_text, RowBytes, MeasuresRows, RowsFit, RowsPut};

use base::{Refusal, Refused, put_byte, put_end, put_text};
use clock::{DAY_MS, START_LIMIT, day_fraction};
use digits::{Kept, Letters, Pairs, decimal_length, put_decimal, put_padded};
use fields::LAST_NUMBER;
use record::{Record, packed_at};
use records::{record_at, whole};
use row::{carries, is_version};
use row_writer::{put_row, row_length};

// Line 1.
fn put_version_line(out: &mut [u8], at: usize, version: u64) -> usize
    requires { Version version × (at + length (with_end (version_line_text version)) ≤ length out.old) }
    ensures { Wrote out.old out.new at result (with_end (version_line_text version)) }
{
    let p = put_text(out, at, b";$FILEVERSION=");
    let q = put_decimal(out, p, version / 10);
    let s = put_byte(out, q, b'.');
    let t = put_decimal(out, s, version % 10);
    put_end(out, t)
}

// Line 2.
fn put_start_line(out: &mut [u8], at: usize, start: u64) -> usize
    requires { at + length (with_end (start_line_text start)) ≤ length out.old }
    ensures { Wrote out.old out.new at result (with_end (start_line_text start)) }
{
    let p = put_text(out, at, b";$STARTTIME=");
    let q = put_decimal(out, p, start / DAY_MS);
    let s = put_byte(out, q, b'.');
    let t = put_padded(out, s, 10, day_fraction(start % DAY_MS));
    put_end(out, t)
}

// The bytes of lines 1 and 2 beside the digits of the day: `;$FILEVERSION=`, two figures and a point, CR LF; `;$STARTTIME=`, the point, ten
// digits, CR LF.
const HEAD: usize = 14 + 3 + 2 + 12 + 1 + 10 + 2;

// How many bytes lines 1 and 2 are.
fn head_length(version: u64, start: u64) -> usize
    ensures { (result ≡ length (head_text version start)) × (result ≤ 64) }
{
    decimal_length(start / DAY_MS) + HEAD
}

// How many bytes a row with its end is, if the version can carry it.
fn row_bytes(version: u64, k: u64, r: Record) -> Option<usize>
    requires { WellFormed r × (1 ≤ k) × (k ≤ last_number) }
    ensures { RowBytes version k r result }
{
    if !carries(r, version) {
        return None;
    }
    Some(row_length(version, k, r) + 2)
}

// Whether a trace of so many rows can have this first number.
fn is_first(first: u64, rows: u64) -> bool
    ensures { Decides (FirstNumber first rows) result }
{
    if rows == 0 {
        return first == 0;
    }
    if first == 0 {
        return false;
    }
    if LAST_NUMBER < first {
        return false;
    }
    if LAST_NUMBER + 1 - first < rows {
        return false;
    }
    true
}

// The first pass: every record and its mark is judged, and the rows are measured, from the first number on. `last` is the offset of the record before.
fn measure_rows(version: u64, first: u64, records: &[u8]) -> Result<usize, Refused>
    requires { Whole records.now × NumberFits first records.now }
    ensures { MeasuresRows version first records.now result }
{
    let mut size: usize = 0;
    let mut misfit: Option<u64> = None;
    let mut last: u64 = 0;
    for i in 0..records.len() / 20 {
        let k = i as u64;
        let Some(r) = record_at(records, 20 * i, last) else {
            return Err(Refusal::Malformed.at(k + 1));
        };
        last = r.offset;
        match row_bytes(version, first + k, r) {
            Some(bytes) => size += bytes,
            None => misfit = misfit.or(Some(k + 1)),
        }
    }
    match misfit {
        Some(place) => Err(Refusal::Misfit.at(place)),
        None => Ok(size),
    }
}

// The second pass: the rows are put behind `from`, where there is room, the first with the number `first`. No record is judged any more. The digits
// of the row number over ten are kept in `tens` from row to row, and those of the offset's whole seconds in `seconds`.
fn put_rows(version: u64, first: u64, records: &[u8], out: &mut [u8], from: usize)
    requires { RowsFit version first records.now out.old from }
    ensures { RowsPut version first records.now out.old out.new from }
{
    let mut p = from;
    let pairs = Pairs::new(Letters::Capital);
    let mut tens = Kept::new(first / 10);
    let mut seconds = Kept::new(0);
    for i in 0..records.len() / 20 {
        let r = packed_at(records, 20 * i);
        let k = first + i as u64;
        tens.renew(k / 10);
        seconds.renew(r.offset / 1000 / 1000);
        let q = put_row(out, p, version, k, r, &tens, &seconds, &pairs);
        p = put_end(out, q);
    }
}

// Both passes, where all but the records and the room is judged.
fn put_trace(
    version: u64,
    start: u64,
    first: u64,
    records: &[u8],
    out: &mut [u8],
) -> Result<usize, Refused>
    requires { Whole records.now × Version version × (start ≤ start_limit) × NumberFits first records.now }
    ensures { WritePromise version start first records.now out.old (write_numbers result) out.new }
{
    let bytes = head_length(version, start) + measure_rows(version, first, records)?;
    if out.len() < bytes {
        return Err(Refusal::NoRoom.whole());
    }
    let p = put_version_line(out, 0, version);
    let q = put_start_line(out, p, start);
    put_rows(version, first, records, out, q);
    Ok(bytes)
}

// Writes a trace from packed records, its rows numbered from `first` on, and gives how many bytes it has.
pub fn write(
    version: u64,
    start: u64,
    first: u64,
    records: &[u8],
    out: &mut [u8],
) -> Result<usize, Refused>
    ensures { WritePromise version start first records.now out.old (write_numbers result) out.new }
{
    if !whole(records) {
        return Err(Refusal::NotRecords.whole());
    }
    if !is_version(version) {
        return Err(Refusal::UnknownVersion.whole());
    }
    if START_LIMIT < start {
        return Err(Refusal::LateStart.whole());
    }
    if !is_first(first, records.len() as u64 / 20) {
        return Err(Refusal::FirstNumber.whole());
    }
    put_trace(version, start, first, records, out)
}
