// A frame, from its ID on: the ID, the length, then as many data bytes or `RTR`.
ghost use Rattle.std.specs.Prelude.{◌^◌, ◌<◌, drop};
ghost use Rattle.fields.specs.inner.Window.{window_bytes, Lined, Starts};
ghost use Rattle.row.specs.declared.Stage.TheVariants as stage;
ghost use Rattle.row_reader.specs.inner.Chain.{Ready, seen, known, Goes, Finished};

use digits::HexDigits;
use fields::{Next, WINDOW, after_gap};
use record::Record;
use row::{FIRST_PLACE, SECOND_PLACE, form};

// The ID.
pub fn gap_id(w: &[u8; WINDOW], at: usize, hex: &HexDigits, out: &mut Record) -> usize
    requires { Lined (drop at w.now) × Ready stage.Id 0 0 0 out.old }
    ensures { Goes (known stage.Id 0 0 0 out.old) w.now at out.new result }
{
    let Next::Field(a) = after_gap(w, at) else {
        return 0;
    };
    field_id(w, a, hex, out)
}

fn field_id(w: &[u8; WINDOW], at: usize, hex: &HexDigits, out: &mut Record) -> usize
    requires { Starts w.now at × Ready stage.Id 0 0 0 out.old }
    ensures { Goes (known stage.Id 0 0 0 out.old) w.now at out.new result }
{
    let Some(s) = fields::hex_field(w, at, hex) else {
        return 0;
    };
    let Some(extended) = form(s.end - at, s.value) else {
        return 0;
    };
    out.extended = extended;
    out.id = s.value;
    gap_length(w, s.end, hex, out)
}

// The length.
pub fn gap_length(w: &[u8; WINDOW], at: usize, hex: &HexDigits, out: &mut Record) -> usize
    requires { Lined (drop at w.now) × Ready stage.Length 0 0 0 out.old }
    ensures { Goes (known stage.Length 0 0 0 out.old) w.now at out.new result }
{
    let Next::Field(a) = after_gap(w, at) else {
        return 0;
    };
    field_length(w, a, hex, out)
}

fn field_length(w: &[u8; WINDOW], at: usize, hex: &HexDigits, out: &mut Record) -> usize
    requires { Starts w.now at × Ready stage.Length 0 0 0 out.old }
    ensures { Goes (known stage.Length 0 0 0 out.old) w.now at out.new result }
{
    let Some(s) = fields::length_field(w, at) else {
        return 0;
    };
    out.len = s.value;
    gap_data(w, s.end, hex, s.value, out)
}

// `RTR`, or the first data byte; after length 0 the row may end.
pub fn gap_data(w: &[u8; WINDOW], at: usize, hex: &HexDigits, left: u64, out: &mut Record) -> usize
    requires { Lined (drop at w.now) × Ready stage.Data left (256 ^ 7) 0 out.old }
    ensures { Goes (known stage.Data left (256 ^ 7) 0 out.old) w.now at out.new result }
{
    match after_gap(w, at) {
        Next::Field(a) => field_data(w, a, hex, left, out),
        Next::End(a) => finish(a, left, 0, out),
    }
}

fn field_data(w: &[u8; WINDOW], at: usize, hex: &HexDigits, left: u64, out: &mut Record) -> usize
    requires { Starts w.now at × Ready stage.Data left (256 ^ 7) 0 out.old }
    ensures { Goes (known stage.Data left (256 ^ 7) 0 out.old) w.now at out.new result }
{
    if let Some(s) = fields::remote_field(w, at) {
        out.kind += 2;
        return gap_byte(w, s.end, hex, 0, 0, 0, out);
    }
    if left == 0 {
        return 0;
    }
    let Some(b) = fields::byte_field(w, at, hex) else {
        return 0;
    };
    gap_byte(
        w,
        b.end,
        hex,
        left - 1,
        SECOND_PLACE,
        b.value * FIRST_PLACE,
        out,
    )
}

// A data byte, if one is left, and else the end of the row.
#[cycle(field_byte_gap_byte)]
pub fn gap_byte(
    w: &[u8; WINDOW],
    at: usize,
    hex: &HexDigits,
    left: u64,
    place: u64,
    data: u64,
    out: &mut Record,
) -> usize
    requires { Lined (drop at w.now) × Ready stage.Bytes left place «data» out.old }
    ensures { Goes (known stage.Bytes left place «data» out.old) w.now at out.new result }
{
    match after_gap(w, at) {
        Next::Field(a) => field_byte(w, a, hex, left, place, data, out),
        Next::End(a) => finish(a, left, data, out),
    }
}

#[cycle(field_byte_gap_byte)]
fn field_byte(
    w: &[u8; WINDOW],
    at: usize,
    hex: &HexDigits,
    left: u64,
    place: u64,
    data: u64,
    out: &mut Record,
) -> usize
    requires { Starts w.now at × Ready stage.Bytes left place «data» out.old }
    ensures { Goes (known stage.Bytes left place «data» out.old) w.now at out.new result }
{
    if left == 0 {
        return 0;
    }
    let Some(s) = fields::byte_field(w, at, hex) else {
        return 0;
    };
    gap_byte(
        w,
        s.end,
        hex,
        left - 1,
        place / 256,
        data + s.value * place,
        out,
    )
}

// At the end of the line: one more than its place, if no byte is left, and the record with its data in `out`; else 0.
pub fn finish(a: usize, left: u64, data: u64, out: &mut Record) -> usize
    requires { a < window_bytes }
    ensures { Finished left a (seen out.old «data») out.new result }
{
    if left != 0 {
        return 0;
    }
    out.data = data;
    a + 1
}
