// The row writer: a record as a row of a trace, as the house spells it, and how many bytes that is.
#![tactic(auto)]

ghost use Rattle.std.specs.Prelude.{◌≡◌, ◌∷◌, ◌+◌, ◌≤◌, length};
ghost use Rattle.base.specs.Spaced.{spaced, joined};
ghost use Rattle.base.specs.Text.{blank};
ghost use Rattle.base.specs.inner.Wrote.{Wrote};
ghost use Rattle.digits.specs.declared.Letters.TheVariants.{Capital};
ghost use Rattle.fields.specs.Columns.{last_number};
ghost use Rattle.record.specs.Record.{WellFormed};
ghost use Rattle.row.specs.House.{number_text, offset_text, bus_texts, type_text, id_text, data_texts, frame_texts, row_text};
ghost use Rattle.row_writer.specs.inner.Parts.{head_texts};
ghost use Rattle.row.specs.Versions.{Carries};

use base::{put_byte, put_three};
use digits::{Kept, Letters, Pairs, decimal_length, put_decimal, put_hex, put_padded};
use record::Record;
use row::{fraction_digits, has_bus};

// Row number and `)`. Its digits before the last may be kept in `tens`.
fn put_number(out: &mut [u8], at: usize, k: u64, tens: &Kept) -> usize
    requires { at + length (number_text k) ≤ length out.old }
    ensures { Wrote out.old out.new at result (number_text k) }
{
    let p = tens.put(out, at, k);
    put_byte(out, p, b')')
}

fn number_length(k: u64) -> usize
    ensures { (result ≡ length (number_text k)) × (result ≤ 21) }
{
    decimal_length(k) + 1
}

// Offset in milliseconds, with one digit after the point or three. The digits of its whole seconds may be kept in `seconds`.
fn put_offset(out: &mut [u8], at: usize, version: u64, offset: u64, seconds: &Kept) -> usize
    requires { at + length (blank ∷ offset_text version offset) ≤ length out.old }
    ensures { Wrote out.old out.new at result (blank ∷ offset_text version offset) }
{
    let p = put_byte(out, at, b' ');
    let q = seconds.put(out, p, offset / 1000);
    let s = put_byte(out, q, b'.');
    if fraction_digits(version) == 1 {
        return put_padded(out, s, 1, offset % 1000 / 100);
    }
    put_padded(out, s, 3, offset % 1000)
}

fn offset_length(version: u64, offset: u64) -> usize
    ensures { (result ≡ length (blank ∷ offset_text version offset)) × (result ≤ 25) }
{
    decimal_length(offset / 1000) + 2 + fraction_digits(version)
}

// The bus, where the version has one.
fn put_bus(out: &mut [u8], at: usize, version: u64, bus: u64) -> usize
    requires { at + length (spaced (bus_texts version bus)) ≤ length out.old }
    ensures { Wrote out.old out.new at result (spaced (bus_texts version bus)) }
{
    if has_bus(version) {
        let p = put_byte(out, at, b' ');
        return put_decimal(out, p, bus);
    }
    at
}

fn bus_length(version: u64, bus: u64) -> usize
    ensures { (result ≡ length (spaced (bus_texts version bus))) × (result ≤ 21) }
{
    if has_bus(version) {
        return decimal_length(bus) + 1;
    }
    0
}

// `Rx`, `Tx`, `Warng` or `Error`. No branch tells `R` from `T`, which is two after it: rows mix the two, and a branch that cannot be
// predicted is slow.
fn put_type(out: &mut [u8], at: usize, kind: u64) -> usize
    requires { (kind ≤ 5) × (at + length (blank ∷ type_text kind) ≤ length out.old) }
    ensures { Wrote out.old out.new at result (blank ∷ type_text kind) }
{
    if kind < 4 {
        return put_three(out, at, b' ', b'R' + 2 * (kind % 2) as u8, b'x');
    }
    if kind == 4 {
        let p = put_three(out, at, b' ', b'W', b'a');
        return put_three(out, p, b'r', b'n', b'g');
    }
    let q = put_three(out, at, b' ', b'E', b'r');
    put_three(out, q, b'r', b'o', b'r')
}

fn type_length(kind: u64) -> usize
    requires { kind ≤ 5 }
    ensures { (result ≡ length (blank ∷ type_text kind)) × (result ≤ 6) }
{
    if kind < 4 {
        return 3;
    }
    6
}

// Eight F for a warning; else eight digits if extended, and four if not.
fn put_id(out: &mut [u8], at: usize, r: Record) -> usize
    requires { (r.extended ≤ 1) × (at + length (blank ∷ id_text r) ≤ length out.old) }
    ensures { Wrote out.old out.new at result (blank ∷ id_text r) }
{
    let p = put_byte(out, at, b' ');
    if r.kind == 4 {
        return put_hex(out, p, 8, 0xFFFFFFFF, Letters::Capital);
    }
    put_hex(out, p, 4 + 4 * r.extended as usize, r.id, Letters::Capital)
}

fn id_length(r: Record) -> usize
    requires { r.extended ≤ 1 }
    ensures { (result ≡ length (blank ∷ id_text r)) × (result ≤ 9) }
{
    if r.kind == 4 {
        return 9;
    }
    5 + 4 * r.extended as usize
}

// `RTR` for a remote frame, else the bytes.
fn put_data(out: &mut [u8], at: usize, r: Record, pairs: &Pairs) -> usize
    requires in_bounds { (r.len ≤ 8) × (at + length (spaced (data_texts r)) ≤ length out.old) }
    requires capital { pairs.now.letters ≡ Capital }
    ensures { Wrote out.old out.new at result (spaced (data_texts r)) }
{
    if r.kind / 2 == 1 {
        let p = put_byte(out, at, b' ');
        return put_three(out, p, b'R', b'T', b'R');
    }
    pairs.put(out, at, r.len, r.data)
}

fn data_length(r: Record) -> usize
    requires { r.len ≤ 8 }
    ensures { (result ≡ length (spaced (data_texts r))) × (result ≤ 24) }
{
    if r.kind / 2 == 1 {
        return 4;
    }
    3 * r.len as usize
}

// The fields before the type.
fn put_head(
    out: &mut [u8],
    at: usize,
    version: u64,
    k: u64,
    r: Record,
    tens: &Kept,
    seconds: &Kept,
) -> usize
    requires { at + length (joined (head_texts version k r)) ≤ length out.old }
    ensures { Wrote out.old out.new at result (joined (head_texts version k r)) }
{
    let p = put_number(out, at, k, tens);
    let q = put_offset(out, p, version, r.offset, seconds);
    put_bus(out, q, version, r.bus)
}

// The fields from the type on, each after one blank.
fn put_frame(out: &mut [u8], at: usize, r: Record, pairs: &Pairs) -> usize
    requires well_formed { WellFormed r × (at + length (spaced (frame_texts r)) ≤ length out.old) }
    requires capital { pairs.now.letters ≡ Capital }
    ensures { Wrote out.old out.new at result (spaced (frame_texts r)) }
{
    let p = put_type(out, at, r.kind);
    let q = put_id(out, p, r);
    let s = put_byte(out, q, b' ');
    let t = put_byte(out, s, b'0' + r.len as u8);
    put_data(out, t, r, pairs)
}

// How many bytes the row with number k and record r in a version is.
pub fn row_length(version: u64, k: u64, r: Record) -> usize
    requires { WellFormed r × Carries r version × (1 ≤ k) × (k ≤ last_number) }
    ensures { result ≡ length (row_text version k r) }
{
    let head = number_length(k) + offset_length(version, r.offset) + bus_length(version, r.bus);
    let frame = type_length(r.kind) + id_length(r) + 2 + data_length(r);
    head + frame
}

// Puts the row with number k and record r in a version at a position, and gives the position after it. It is fastest where `tens` keeps the
// digits of the row number before the last, and `seconds` those of the offset's whole seconds.
pub fn put_row(
    out: &mut [u8],
    at: usize,
    version: u64,
    k: u64,
    r: Record,
    tens: &Kept,
    seconds: &Kept,
    pairs: &Pairs,
) -> usize
    requires well_formed { WellFormed r × Carries r version × (1 ≤ k) × (k ≤ last_number) }
    requires in_bounds { at + length (row_text version k r) ≤ length out.old }
    requires capital { pairs.now.letters ≡ Capital }
    ensures { Wrote out.old out.new at result (row_text version k r) }
{
    let p = put_head(out, at, version, k, r, tens, seconds);
    put_frame(out, p, r, pairs)
}
