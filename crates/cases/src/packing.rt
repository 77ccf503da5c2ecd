// Cases of packing and unpacking one record, and the bytes of records that are given in words.
ghost use Rattle.std.specs.Prelude.{◌≡◌, ◌+◌, ◌≤◌, ◌<◌, length};

use base::Refused;
use record::{Record, Unpacked};
use std::io;
use testing::{before, behind, bytes, find, front, number, numbers, rest};

// Offset, bus, kind, extended, ID, length and data (in hexadecimal).
pub(crate) fn fields(rt: &impl Print, r: Record) -> io::Result<()> {
    number(rt, r.offset)?;
    number(rt, r.bus)?;
    number(rt, r.kind)?;
    number(rt, r.extended)?;
    number(rt, r.id)?;
    number(rt, r.len)?;
    let data = r.data;
    print!(rt; " {data:016x}")
}

// Number and place of a refusal, and whether the output is untouched.
pub(crate) fn refused(rt: &impl Print, e: Refused, out: &[u8]) -> io::Result<()> {
    reason(rt, e)?;
    rest(rt, out, 0)
}

// Number and place of a refusal.
pub(crate) fn reason(rt: &impl Print, e: Refused) -> io::Result<()> {
    number(rt, e.reason.number())?;
    number(rt, e.place)
}

// The seven fields that begin some numbers.
pub(crate) fn record_of(a: [u64; 9]) -> Record {
    Record::from([a[0], a[1], a[2], a[3], a[4], a[5], a[6]])
}

fn packed(rt: &impl Print, a: Result<(), Refused>, out: &[u8; 24]) -> io::Result<()> {
    let all: &[u8] = out;
    match a {
        Ok(()) => {
            number(rt, 0)?;
            number(rt, 0)?;
            bytes(rt, &all[0..20])?;
            rest(rt, all, 20)
        }
        Err(e) => refused(rt, e, all),
    }
}

// Packs a record with a mark into an output of `room` bytes.
fn pack(rt: &impl Print, r: Record, mark: u64, room: usize) -> io::Result<()> {
    let mut out = [238u8; 24];
    if room <= 24 {
        let a = record::pack(r, mark, &mut out[0..room]);
        packed(rt, a, &out)?;
    }
    Ok(())
}

// Puts the `count` bytes of n at a position.
fn put_word(out: &mut [u8], at: usize, count: usize, n: u64)
    requires { at + count ≤ length out.old }
{
    let mut rest = n;
    for i in (0..count).rev() {
        out[at + i] = (rest % 256) as u8;
        rest /= 256;
    }
}

// The last 16 bits of the offset, the bus and the kind.
fn head(r: Record) -> u64
    ensures { result < 16777216 }
{
    (r.offset % 65536 * 32 + r.bus % 32) * 8 + r.kind % 8
}

// The same, extended, the ID, the length and the first six bits of the data.
fn middle(r: Record) -> u64 {
    let a = (head(r) * 2 + r.extended % 2) * 536870912 + r.id % 536870912;
    (a * 16 + r.len % 16) * 64 + r.data / 288230376151711744 % 64
}

// Puts the bits of a record, well formed or not, and the last six: the mark and five spare bits. What does not fit its bits is cut off.
fn put_bits(out: &mut [u8], at: usize, r: Record, last: u64)
    requires { at + 20 ≤ length out.old }
{
    let p = at + 4;
    let q = at + 12;
    put_word(out, at, 4, r.offset / 65536);
    put_word(out, p, 8, middle(r));
    put_word(out, q, 8, r.data % 288230376151711744 * 64 + last % 64);
}

// Puts a record that is given in words as the k-th, from 1.
fn put_kth(out: &mut [u8], k: usize, s: &[u8]) {
    if k < 1 {
        return;
    }
    if out.len() / 20 < k {
        return;
    }
    let a = numbers(s, 0, 1);
    put_bits(out, (k - 1) * 20, record_of(a), a[7]);
}

// Puts records with semicolons between them.
fn put_each(out: &mut [u8], s: &[u8]) {
    let mut k = 0;
    let mut at = 0;
    // No `split`: an empty text has no record, and none stands after a semicolon at the end.
    while at < s.len() {
        let end = find(s, at, b';');
        k += 1;
        put_kth(out, k, &s[at..end]);
        if s.len() <= end {
            return;
        }
        at = end + 1;
    }
}

// Bytes whose bits all are ones.
fn ones() -> [u8; 300]
    ensures { 300 ≡ length result }
{
    [255; 300]
}

// The bytes of the records of a text; what stands behind a bar takes the place of the k-th.
pub(crate) fn records_of(s: &[u8], k: usize) -> [u8; 300] {
    let mut out = ones();
    put_each(&mut out, before(s, b'|'));
    put_kth(&mut out, k, behind(s, b'|'));
    out
}

fn unpacked(rt: &impl Print, s: &[u8]) -> io::Result<()> {
    bytes(rt, s)?;
    match record::unpack(s) {
        Ok(Unpacked { r, mark }) => {
            number(rt, 0)?;
            number(rt, 0)?;
            fields(rt, r)?;
            number(rt, mark)
        }
        Err(e) => reason(rt, e),
    }
}

// Unpacks the first bytes of a record's bits and what follows them.
fn unpack(rt: &impl Print, a: [u64; 9]) -> io::Result<()> {
    let mut s = [238u8; 40];
    put_bits(&mut s, 0, record_of(a), a[7]);
    unpacked(rt, front(&s, a[8] as usize))
}

// Tries a case of one record, if the word is one.
pub(crate) fn tried(rt: &impl Print, word: &[u8], line: &[u8]) -> io::Result<bool> {
    let a = numbers(line, 2, 2);
    match word {
        b"pack" => pack(rt, record_of(a), a[7], a[8] as usize)?,
        b"unpack" => unpack(rt, a)?,
        _ => return Ok(false),
    }
    Ok(true)
}
