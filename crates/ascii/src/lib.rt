// The export to Telemotive ASCII, from packed records. The first pass judges and measures, the second writes.
#![tactic(auto)]

ghost use Rattle.std.specs.Prelude.{◌≡◌, ◌+◌, ◌/◌, ◌≤◌, length};
ghost use Rattle.base.specs.Limits.{offset_limit, last_bus};
ghost use Rattle.clock.specs.Start.{start_limit};
ghost use Rattle.clock.specs.declared.DateTime.{DateTime as AnyStamp};
ghost use Rattle.digits.specs.declared.Letters.TheVariants.{Small};
ghost use Rattle.record.specs.Record.{WellFormed};
ghost use Rattle.records.specs.Records.{Whole};
ghost use Rattle.ascii_line.specs.inner.Parts.{StampParts};
ghost use Rattle.ascii.specs.Promise.{channel_of, line_of, export_numbers, Numbered, ExportPromise};
ghost use Rattle.ascii.specs.inner.Passes.{ticks_of, Shows, LineBytes, LinePut, MeasuresLines, LinesFit, LinesPut};

use ascii_line::{line_length, put_line, put_second};
use base::{LAST_BUS, Refusal, Refused};
use clock::{START_LIMIT, stamp_of};
use digits::{Letters, Pairs};
use record::{Record, packed_at};
use records::{record_at, whole};

// What was exported: how many bytes and lines, and how many records gave none.
#[derive(Clone, Copy, PartialEq, Eq)]
pub struct Exported {
    pub bytes: usize,
    pub lines: u64,
    pub left_out: u64,
}

// Bus 0 is written as the channel that is given for it, every other bus as the channel of its number.
fn channel_of(channel: u64, bus: u64) -> u64
    ensures { result ≡ channel_of channel bus }
{
    if bus == 0 {
        return channel;
    }
    bus
}

// How many bytes the line of a record is, if it gives one.
fn line_bytes(channel: u64, r: Record) -> Option<usize>
    requires { WellFormed r × (channel ≤ last_bus) }
    ensures { LineBytes channel r result }
{
    if r.kind <= 1 {
        Some(line_length(channel_of(channel, r.bus), r))
    } else {
        None
    }
}

// The first pass: every record and its mark is judged, and the lines are measured and counted. `last` is the offset of the record before.
fn measure_lines(channel: u64, records: &[u8]) -> Result<Exported, Refused>
    requires { Whole records.now × (channel ≤ last_bus) }
    ensures { MeasuresLines channel records.now result }
{
    let mut bytes: usize = 0;
    let mut lines: u64 = 0;
    let mut left_out: u64 = 0;
    let mut last: u64 = 0;
    for i in 0..records.len() / 20 {
        let Some(r) = record_at(records, 20 * i, last) else {
            return Err(Refusal::Malformed.at(i as u64 + 1));
        };
        last = r.offset;
        match line_bytes(channel, r) {
            Some(n) => {
                bytes += n;
                lines += 1;
            }
            None => left_out += 1,
        }
    }
    Ok(Exported {
        bytes,
        lines,
        left_out,
    })
}

// How many times 100 microseconds from the beginning of day 0 a start and an offset are.
fn ticks_of(start: u64, offset: u64) -> u64
    requires { (start ≤ start_limit) × (offset ≤ offset_limit) }
    ensures { result ≡ ticks_of start offset }
{
    (start * 1000 + offset) / 100
}

// Puts the bytes of a stamp up to its point. Called from two places, it stays a call, and the twenty bytes stay in memory, where they are copied at
// once: inlined, they would be twenty values that are put one by one.
fn show(head: &mut [u8; 20], start: u64, offset: u64)
    requires { (start ≤ start_limit) × (offset ≤ offset_limit) }
    ensures { Shows head.new (ticks_of start offset / 10000) }
{
    put_second(head, stamp_of(start, offset));
}

// The same, unless those that stand there are of the same second.
fn renew_second(head: &mut [u8; 20], last: u64, second: u64, start: u64, offset: u64)
    requires { Shows head.old last × (start ≤ start_limit) × (offset ≤ offset_limit) × (second ≡ ticks_of start offset / 10000) }
    ensures { Shows head.new second }
{
    if second != last {
        show(head, start, offset);
    }
}

// Puts the line of a record, unless it is left out, and gives the position after it.
fn put_export(
    out: &mut [u8],
    at: usize,
    second: &[u8; 20],
    part: u64,
    channel: u64,
    r: Record,
    pairs: &Pairs,
) -> usize
    requires { WellFormed r × ((s : AnyStamp) × (r.kind ≤ 1 → at + length (line_of channel s r) ≤ length out.old)) × (pairs.now.letters ≡ Small) }
    ensures { (s : AnyStamp) → StampParts second.now part s → LinePut channel out.old out.new at result s r }
{
    if 1 < r.kind {
        return at;
    }
    put_line(out, at, second, part, channel_of(channel, r.bus), r, pairs)
}

// The second pass: the lines are put into the output, which has room for them. No record is judged any more. The bytes of a
// stamp up to its point are kept in `head` from line to line: `last` is their second.
fn put_lines(start: u64, channel: u64, records: &[u8], out: &mut [u8])
    requires { LinesFit start channel records.now out.old × (start ≤ start_limit) }
    ensures { LinesPut start channel records.now out.old out.new }
{
    let mut p = 0;
    let mut last = start / 1000;
    let mut head = [0u8; 20];
    show(&mut head, start, 0);
    let pairs = Pairs::new(Letters::Small);
    for i in 0..records.len() / 20 {
        let r = packed_at(records, 20 * i);
        let ticks = ticks_of(start, r.offset);
        let second = ticks / 10000;
        renew_second(&mut head, last, second, start, r.offset);
        last = second;
        p = put_export(out, p, &head, ticks % 10000, channel, r, &pairs);
    }
}

// Both passes, where all but the records and the room is judged.
fn put_all(start: u64, channel: u64, records: &[u8], out: &mut [u8]) -> Result<Exported, Refused>
    requires { Whole records.now × (start ≤ start_limit) × (channel ≤ last_bus) }
    ensures export_promise { ExportPromise start channel records.now out.old (export_numbers result) out.new }
    ensures numbered { Numbered result }
{
    let measured = measure_lines(channel, records)?;
    if out.len() < measured.bytes {
        return Err(Refusal::NoRoom.whole());
    }
    put_lines(start, channel, records, out);
    Ok(measured)
}

// Exports packed records as lines of Telemotive ASCII, bus 0 as this channel.
pub fn export(start: u64, channel: u64, records: &[u8], out: &mut [u8]) -> Result<Exported, Refused>
    ensures export_promise { ExportPromise start channel records.now out.old (export_numbers result) out.new }
    ensures numbered { Numbered result }
{
    if !whole(records) {
        return Err(Refusal::NotRecords.whole());
    }
    if START_LIMIT < start {
        return Err(Refusal::LateStart.whole());
    }
    if LAST_BUS < channel {
        return Err(Refusal::UnknownChannel.whole());
    }
    put_all(start, channel, records, out)
}
