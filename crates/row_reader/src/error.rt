// An error frame, from its ID on: the ID, length 4, 0 or 1, a position, then two error counters.
ghost use Rattle.std.specs.Prelude.{drop};
ghost use Rattle.fields.specs.inner.Window.{Lined, Starts};
ghost use Rattle.row.specs.declared.Stage.TheVariants as stage;
ghost use Rattle.row_reader.specs.inner.Chain.{Ready, known, Goes};

use crate::frame::gap_byte;
use digits::HexDigits;
use fields::{Next, WINDOW, after_gap};
use record::Record;
use row::{FIRST_PLACE, SECOND_PLACE, THIRD_PLACE};

// The ID.
pub fn gap_error_id(w: &[u8; WINDOW], at: usize, hex: &HexDigits, out: &mut Record) -> usize
    requires { Lined (drop at w.now) × Ready stage.ErrorId 0 0 0 out.old }
    ensures { Goes (known stage.ErrorId 0 0 0 out.old) w.now at out.new result }
{
    let Next::Field(a) = after_gap(w, at) else {
        return 0;
    };
    field_error_id(w, a, hex, out)
}

fn field_error_id(w: &[u8; WINDOW], at: usize, hex: &HexDigits, out: &mut Record) -> usize
    requires { Starts w.now at × Ready stage.ErrorId 0 0 0 out.old }
    ensures { Goes (known stage.ErrorId 0 0 0 out.old) w.now at out.new result }
{
    let Some(s) = fields::hex_field(w, at, hex) else {
        return 0;
    };
    if s.end - at != 4 || !record::error_id(s.value) {
        return 0;
    }
    out.extended = 0;
    out.id = s.value;
    gap_error_length(w, s.end, hex, out)
}

// The length.
pub fn gap_error_length(w: &[u8; WINDOW], at: usize, hex: &HexDigits, out: &mut Record) -> usize
    requires { Lined (drop at w.now) × Ready stage.ErrorLength 0 0 0 out.old }
    ensures { Goes (known stage.ErrorLength 0 0 0 out.old) w.now at out.new result }
{
    let Next::Field(a) = after_gap(w, at) else {
        return 0;
    };
    field_error_length(w, a, hex, out)
}

fn field_error_length(w: &[u8; WINDOW], at: usize, hex: &HexDigits, out: &mut Record) -> usize
    requires { Starts w.now at × Ready stage.ErrorLength 0 0 0 out.old }
    ensures { Goes (known stage.ErrorLength 0 0 0 out.old) w.now at out.new result }
{
    let Some(s) = fields::length_field(w, at) else {
        return 0;
    };
    if s.value != 4 {
        return 0;
    }
    out.kind = 5;
    out.len = 4;
    gap_error_first(w, s.end, hex, out)
}

// The first byte: 0 or 1.
pub fn gap_error_first(w: &[u8; WINDOW], at: usize, hex: &HexDigits, out: &mut Record) -> usize
    requires { Lined (drop at w.now) × Ready stage.ErrorFirst 0 0 0 out.old }
    ensures { Goes (known stage.ErrorFirst 0 0 0 out.old) w.now at out.new result }
{
    let Next::Field(a) = after_gap(w, at) else {
        return 0;
    };
    field_error_first(w, a, hex, out)
}

fn field_error_first(w: &[u8; WINDOW], at: usize, hex: &HexDigits, out: &mut Record) -> usize
    requires { Starts w.now at × Ready stage.ErrorFirst 0 0 0 out.old }
    ensures { Goes (known stage.ErrorFirst 0 0 0 out.old) w.now at out.new result }
{
    let Some(s) = fields::byte_field(w, at, hex) else {
        return 0;
    };
    if 1 < s.value {
        return 0;
    }
    gap_error_second(w, s.end, hex, s.value * FIRST_PLACE, out)
}

// The second byte: a position.
pub fn gap_error_second(
    w: &[u8; WINDOW],
    at: usize,
    hex: &HexDigits,
    data: u64,
    out: &mut Record,
) -> usize
    requires { Lined (drop at w.now) × Ready stage.ErrorSecond 0 0 «data» out.old }
    ensures { Goes (known stage.ErrorSecond 0 0 «data» out.old) w.now at out.new result }
{
    let Next::Field(a) = after_gap(w, at) else {
        return 0;
    };
    field_error_second(w, a, hex, data, out)
}

fn field_error_second(
    w: &[u8; WINDOW],
    at: usize,
    hex: &HexDigits,
    data: u64,
    out: &mut Record,
) -> usize
    requires { Starts w.now at × Ready stage.ErrorSecond 0 0 «data» out.old }
    ensures { Goes (known stage.ErrorSecond 0 0 «data» out.old) w.now at out.new result }
{
    let Some(s) = fields::byte_field(w, at, hex) else {
        return 0;
    };
    if !record::position(s.value) {
        return 0;
    }
    gap_byte(
        w,
        s.end,
        hex,
        2,
        THIRD_PLACE,
        data + s.value * SECOND_PLACE,
        out,
    )
}
