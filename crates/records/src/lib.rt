// Lists of packed records: whether bytes can be one, the record at a place, the marks, and the first step back.
#![tactic(auto)]

ghost use Rattle.std.specs.Prelude.{◌≡◌, ◌+◌, ◌≤◌, length, take, drop};
ghost use Rattle.records.specs.inner.BackAfter.{BackAfter};
ghost use Rattle.base.specs.inner.Answers.{Answers};
ghost use Rattle.base.specs.inner.Decides.{Decides};
ghost use Rattle.records.specs.Records.{mark_after, Whole};
ghost use Rattle.records.specs.inner.Entry.{EntryOf};

use record::{Record, Unpacked, unpack};

// The most bytes of packed records: twenty for each row that a trace can have, which are 999,999.
pub const PACKED_LIMIT: usize = 19_999_980;

// Whether the bytes are twenty for each record, and within the limit.
pub fn whole(records: &[u8]) -> bool
    ensures { Decides (Whole records.now) result }
{
    records.len() % 20 == 0 && records.len() <= PACKED_LIMIT
}

// The mark of a record with this offset, after one with the offset `before`: 1 if it is below, else 0.
pub fn mark_after(before: u64, offset: u64) -> u64
    ensures { result ≡ mark_after before offset }
{
    u64::from(offset < before)
}

// The record at a place, after one with the offset `before`, or 0 if it is the first: its mark must be true.
pub fn record_at(records: &[u8], at: usize, before: u64) -> Option<Record>
    requires { at + 20 ≤ length records.now }
    ensures { Answers (EntryOf before (take 20 (drop at records.now))) result }
{
    let Unpacked { r, mark } = unpack(&records[at..at + 20]).ok()?;
    if mark != mark_after(before, r.offset) {
        return None;
    }
    Some(r)
}

// The first step back, where one record more, at position `row`, has this mark.
pub fn back_after(back: u64, row: u64, mark: u64) -> u64
    ensures { BackAfter back row mark result }
{
    if back != 0 {
        back
    } else if mark != 0 {
        row
    } else {
        0
    }
}
