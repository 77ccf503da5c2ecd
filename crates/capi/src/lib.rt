// The boundary to C: each function below as one that C can call, described in `include/bushingowl.h`. A slice is a pointer and then a length.
// The answer goes to the caller's array, as the numbers of paper 01. In words: docs/FORMAT.md, sections 11, 14 and 15.
#![tactic(auto)]

ghost use Rattle.std.specs.Prelude.{◌≡◌};
ghost use Rattle.record.specs.Promise.{PackPromise, UnpackPromise};
ghost use Rattle.record.specs.Record.{record_of, mark_in};
ghost use Rattle.trace.specs.Promise.{ReadPromise};
ghost use Rattle.trace_writer.specs.Promise.{WritePromise};
ghost use Rattle.ascii.specs.Promise.{ExportPromise};
ghost use Rattle.ascii_reader.specs.Promise.{ReadAsciiPromise};
ghost use Rattle.explain.specs.Promise.{ExplainPromise};

use ascii::export;
use ascii_reader::read_ascii;
use explain::{Explained, explain};
use record::{Record, Unpacked, pack, unpack};
use trace::read;
use trace_writer::write;

// Number, place, version (11 or 12), start, rows, first step back, first number.
#[unsafe(no_mangle)]
pub extern "C" fn bo_read(text: &[u8], out: &mut [u8], answer: &mut [u64; 7])
    ensures { ReadPromise text.now out.old answer.new out.new }
{
    *answer = match read(text, out) {
        Ok(t) => [0, 0, t.version, t.start, t.rows, t.step_back, t.first],
        Err(e) => [e.reason.number(), e.place, 0, 0, 0, 0, 0],
    };
}

// Number, place, bytes.
#[unsafe(no_mangle)]
pub extern "C" fn bo_write(
    version: u32,
    start: u64,
    first: u64,
    records: &[u8],
    out: &mut [u8],
    answer: &mut [u64; 3],
)
    ensures { WritePromise version start first records.now out.old answer.new out.new }
{
    *answer = match write(u64::from(version), start, first, records, out) {
        Ok(bytes) => [0, 0, bytes as u64],
        Err(e) => [e.reason.number(), e.place, 0],
    };
}

// Number, place, offset, bus, kind, extended, ID, length, data, mark.
#[unsafe(no_mangle)]
pub extern "C" fn bo_unpack(bytes: &[u8], answer: &mut [u64; 10])
    ensures { UnpackPromise bytes.now answer.new }
{
    *answer = match unpack(bytes) {
        Ok(Unpacked { r, mark }) => [
            0, 0, r.offset, r.bus, r.kind, r.extended, r.id, r.len, r.data, mark,
        ],
        Err(e) => [e.reason.number(), e.place, 0, 0, 0, 0, 0, 0, 0, 0],
    };
}

// The record of eight fields, of which the mark is the last.
fn record_in(fields: &[u64; 8]) -> Record
    ensures { result ≡ record_of fields.now }
{
    Record::from([
        fields[0], fields[1], fields[2], fields[3], fields[4], fields[5], fields[6],
    ])
}

// Number, place. The fields are offset, bus, kind, extended, ID, length, data, mark, each with any value.
#[unsafe(no_mangle)]
pub extern "C" fn bo_pack(fields: &[u64; 8], out: &mut [u8], answer: &mut [u64; 2])
    ensures { PackPromise (record_of fields.now) (mark_in fields.now) out.old answer.new out.new }
{
    *answer = match pack(record_in(fields), fields[7], out) {
        Ok(()) => [0, 0],
        Err(e) => [e.reason.number(), e.place],
    };
}

// Number, place, bytes, lines, left out.
#[unsafe(no_mangle)]
pub extern "C" fn bo_export(
    start: u64,
    channel: u64,
    records: &[u8],
    out: &mut [u8],
    answer: &mut [u64; 5],
)
    ensures { ExportPromise start channel records.now out.old answer.new out.new }
{
    *answer = match export(start, channel, records, out) {
        Ok(x) => [0, 0, x.bytes as u64, x.lines, x.left_out],
        Err(e) => [e.reason.number(), e.place, 0, 0, 0],
    };
}

// Number, place, start, records.
#[unsafe(no_mangle)]
pub extern "C" fn bo_read_ascii(text: &[u8], out: &mut [u8], answer: &mut [u64; 4])
    ensures { ReadAsciiPromise text.now out.old answer.new out.new }
{
    *answer = match read_ascii(text, out) {
        Ok(a) => [0, 0, a.start, a.records],
        Err(e) => [e.reason.number(), e.place, 0, 0],
    };
}

// Number, place, reason (1 wrong field, 2 ended early), field.
#[unsafe(no_mangle)]
pub extern "C" fn bo_explain(line: &[u8], version: u32, number: u64, answer: &mut [u64; 4])
    ensures { ExplainPromise line.now version number answer.new }
{
    *answer = match explain(line, u64::from(version), number) {
        Ok(Explained::Wrong(field)) => [0, 0, 1, field],
        Ok(Explained::Early(fields)) => [0, 0, 2, fields],
        Err(reason) => [reason.number(), 0, 0, 0],
    };
}
