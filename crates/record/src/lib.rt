// One packed record: its 160 bits as one number in twenty bytes, most significant first. A mark stands beside its fields.
#![tactic(auto)]

ghost use Rattle.std.specs.Prelude.{◌≡◌, ◌⊎◌, ◌+◌, ◌-◌, ◌*◌, ◌/◌, ◌%◌, ◌^◌, ◌≤◌, ◌<◌, length};
ghost use Rattle.std.proofs.lemmas.List.Edits.{sets};
ghost use Rattle.record.specs.inner.PackedAt.{PackedAt};
ghost use Rattle.record.specs.inner.Words.{Words};
ghost use Rattle.base.specs.inner.Decides.{Decides};
ghost use Rattle.record.specs.declared.Record.{Record as AnyRecord};
ghost use Rattle.record.specs.Bytes.{bytes};
ghost use Rattle.record.specs.Record.{record_of, number, ErrorId, Position, Warning, ErrorFrame, WellFormed};
ghost use Rattle.record.specs.Promise.{pack_numbers, unpack_numbers, PackPromise, UnpackPromise};

use base::{LAST_BUS, OFFSET_LIMIT, Refusal, Refused};

// The fields of a record, each wide enough to hold a wrong value. `data` is the eight data bytes, the first most
// significant.
#[derive(Clone, Copy, Default)]
pub struct Record {
    pub offset: u64,
    pub bus: u64,
    pub kind: u64,
    pub extended: u64,
    pub id: u64,
    pub len: u64,
    pub data: u64,
}

// A record and its mark.
#[derive(Clone, Copy)]
pub struct Unpacked {
    pub r: Record,
    pub mark: u64,
}

// The record with these fields, in this order.
impl From<[u64; 7]> for Record {
    ghost from_gives = { λ fields r. r ≡ record_of fields };

    fn from(fields: [u64; 7]) -> Record {
        let [offset, bus, kind, extended, id, len, data] = fields;
        Record {
            offset,
            bus,
            kind,
            extended,
            id,
            len,
            data,
        }
    }
}

// Whether a number is an error frame's ID.
pub fn error_id(n: u64) -> bool
    ensures { Decides (ErrorId n) result }
{
    matches!(n, 1 | 2 | 4 | 8)
}

// Whether a number is a bit stream position.
pub fn position(p: u64) -> bool
    ensures { Decides (Position p) result }
{
    matches!(p, 2..=15 | 17..=19 | 23..=28)
}

// Whether the data bytes d past a length are zero. The shift moves the bytes before them out.
fn past(d: u64, len: u64) -> bool
    requires { len ≤ 8 }
    ensures { Decides (d % 256 ^ (8 - len) ≡ 0) result }
{
    len == 8 || d << len * 8 == 0
}

// Whether a record is as a warning must be.
fn warning(r: Record) -> bool
    ensures { Decides (Warning r) result }
{
    r.extended == 0 && r.id == 0 && r.len == 4
}

// Whether a record is as an error frame must be.
fn error_frame(r: Record) -> bool
    ensures { Decides (ErrorFrame r) result }
{
    r.extended == 0
        && r.len == 4
        && r.data / 0x100_0000_0000_0000 <= 1
        && error_id(r.id)
        && position(r.data / 0x1_0000_0000_0000 % 256)
}

// Whether a record is as its kind asks.
fn as_kind(r: Record) -> bool
    ensures { Decides
        (((r.kind ≡ 2) ⊎ (r.kind ≡ 3) → r.«data» ≡ 0) × (r.kind ≡ 4 → Warning r) × (r.kind ≡ 5 → ErrorFrame r)) result }
{
    let kind = r.kind;
    match kind {
        2 | 3 => r.data == 0,
        4 => warning(r),
        5 => error_frame(r),
        _ => true,
    }
}

// Whether a record is well formed.
pub fn well_formed(r: Record) -> bool
    ensures { Decides (WellFormed r) result }
{
    // As one chain of `&&` these tests are compiled to vector comparisons, and writing takes a tenth longer.
    if r.offset > OFFSET_LIMIT || r.bus > LAST_BUS || r.kind > 5 || r.extended > 1 {
        return false;
    }
    if r.id > 0x1FFF_FFFF || (r.extended == 0 && r.id > 0x7FF) {
        return false;
    }
    if r.len > 8 || !past(r.data, r.len) {
        return false;
    }
    // Of data frames no more is asked, and most records are such.
    r.kind < 2 || as_kind(r)
}

// Puts the N bytes of a number at a position, from the last on.
fn put<const N: usize>(out: &mut [u8], at: usize, n: u64)
    requires { at + N ≤ length out.old }
    ensures { out.new ≡ sets out.old at (bytes N n) }
{
    let mut rest = n;
    for i in (0..N).rev() {
        out[at + i] = (rest % 256) as u8;
        rest /= 256;
    }
}

// The bits from the 33rd to the 96th.
fn middle(r: Record) -> u64
    requires { WellFormed r }
    ensures { result ≡
        (((((r.offset % 2 ^ 16 * 2 ^ 5 + r.bus) * 2 ^ 3 + r.kind) * 2 + r.extended) * 2 ^ 29 + r.id) * 2 ^ 4 + r.len) * 2 ^ 6
        + r.«data» / 2 ^ 58 }
{
    let a = (r.offset % 0x1_0000 * 32 + r.bus) * 8 + r.kind;
    let b = ((a * 2 + r.extended) * 0x2000_0000 + r.id) * 16 + r.len;
    b * 64 + r.data / 0x400_0000_0000_0000
}

// Puts the twenty bytes of a well-formed record with its mark at a position.
pub fn put_record(out: &mut [u8], at: usize, r: Record, mark: u64)
    requires { (at + 20 ≤ length out.old) × WellFormed r × (mark ≤ 1) }
    ensures { out.new ≡ sets out.old at (bytes 20 (number r mark)) }
{
    put::<4>(out, at, r.offset / 0x1_0000);
    put::<8>(out, at + 4, middle(r));
    put::<8>(out, at + 12, r.data % 0x400_0000_0000_0000 * 64 + mark * 32);
}

// Packs one record with its mark at the start of the output.
pub fn pack(r: Record, mark: u64, out: &mut [u8]) -> Result<(), Refused>
    ensures { PackPromise r mark out.old (pack_numbers result) out.new }
{
    if 1 < mark || !well_formed(r) {
        return Err(Refusal::Malformed.at(1));
    }
    if out.len() < 20 {
        return Err(Refusal::NoRoom.whole());
    }
    put_record(out, 0, r, mark);
    Ok(())
}

// The words of 32, 64 and 64 bits that twenty bytes at a position are.
fn words_at(s: &[u8], at: usize) -> (u64, u64, u64)
    requires { at + 20 ≤ length s.now }
    ensures { Words s.now at result.0 result.1 result.2 }
{
    let h = u32::from_be_bytes(s[at..at + 4].try_into().unwrap());
    let m = u64::from_be_bytes(s[at + 4..at + 12].try_into().unwrap());
    let l = u64::from_be_bytes(s[at + 12..at + 20].try_into().unwrap());
    (u64::from(h), m, l)
}

// The record whose number, with its mark, has 32 bits h, 64 bits m and 64 bits l.
fn record_of(h: u64, m: u64, l: u64) -> Record
    requires { (h < 2 ^ 32) × (l % 2 ^ 5 ≡ 0) }
    ensures l_value { number result (l / 2 ^ 5 % 2) ≡ (h * 256 ^ 8 + m) * 256 ^ 8 + l }
    ensures offset_bound { (result.offset < 2 ^ 48) × (result.bus < 2 ^ 5) × (result.kind < 2 ^ 3) × (result.extended < 2)
        × (result.id < 2 ^ 29) × (result.len < 2 ^ 4) × (result.«data» < 2 ^ 64) }
{
    let a = m / 64;
    let b = a / 16;
    let c = b / 0x2000_0000;
    let d = c / 2;
    let e = d / 8;
    Record {
        offset: h * 0x1_0000 + e / 32,
        bus: e % 32,
        kind: d % 8,
        extended: c % 2,
        id: b % 0x2000_0000,
        len: a % 16,
        data: m % 64 * 0x400_0000_0000_0000 + l / 64,
    }
}

// The record whose twenty bytes stand at a position, where they are a packed record, with either mark. Nothing is judged here: the second pass
// of a writer calls it for bytes that the first pass judged.
pub fn packed_at(s: &[u8], at: usize) -> Record
    requires { (r : AnyRecord) × PackedAt s.now at r }
    ensures { PackedAt s.now at result }
{
    let (h, m, l) = words_at(s, at);
    record_of(h, m, l)
}

// The record that twenty bytes are, and its mark.
pub fn unpack(s: &[u8]) -> Result<Unpacked, Refused>
    ensures { UnpackPromise s.now (unpack_numbers result) }
{
    if s.len() != 20 {
        return Err(Refusal::NotRecords.whole());
    }
    let (h, m, l) = words_at(s, 0);
    if l % 32 != 0 {
        return Err(Refusal::Malformed.at(1));
    }
    let r = record_of(h, m, l);
    if !well_formed(r) {
        return Err(Refusal::Malformed.at(1));
    }
    Ok(Unpacked {
        r,
        mark: l / 32 % 2,
    })
}
