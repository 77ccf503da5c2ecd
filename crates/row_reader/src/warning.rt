// A warning, from its ID on: eight F, length 4, four bytes, then any number of words, ignored.
ghost use Rattle.std.specs.Prelude.{drop};
ghost use Rattle.fields.specs.inner.Window.{Lined, Starts};
ghost use Rattle.row.specs.declared.Stage.TheVariants as stage;
ghost use Rattle.row_reader.specs.inner.Chain.{Ready, known, Goes};

use crate::frame::finish;
use digits::HexDigits;
use fields::{Next, WINDOW, after_gap};
use record::Record;
use row::FIRST_PLACE;

// The eight F.
pub fn gap_warning_id(w: &[u8; WINDOW], at: usize, hex: &HexDigits, out: &mut Record) -> usize
    requires { Lined (drop at w.now) × Ready stage.WarningId 0 0 0 out.old }
    ensures { Goes (known stage.WarningId 0 0 0 out.old) w.now at out.new result }
{
    let Next::Field(a) = after_gap(w, at) else {
        return 0;
    };
    field_warning_id(w, a, hex, out)
}

fn field_warning_id(w: &[u8; WINDOW], at: usize, hex: &HexDigits, out: &mut Record) -> usize
    requires { Starts w.now at × Ready stage.WarningId 0 0 0 out.old }
    ensures { Goes (known stage.WarningId 0 0 0 out.old) w.now at out.new result }
{
    let Some(s) = fields::hex_field(w, at, hex) else {
        return 0;
    };
    if s.end - at != 8 || s.value != 0xFFFFFFFF {
        return 0;
    }
    out.kind = 4;
    out.extended = 0;
    out.id = 0;
    out.len = 4;
    gap_warning_length(w, s.end, hex, out)
}

// The length.
pub fn gap_warning_length(w: &[u8; WINDOW], at: usize, hex: &HexDigits, out: &mut Record) -> usize
    requires { Lined (drop at w.now) × Ready stage.WarningLength 0 0 0 out.old }
    ensures { Goes (known stage.WarningLength 0 0 0 out.old) w.now at out.new result }
{
    let Next::Field(a) = after_gap(w, at) else {
        return 0;
    };
    field_warning_length(w, a, hex, out)
}

fn field_warning_length(w: &[u8; WINDOW], at: usize, hex: &HexDigits, out: &mut Record) -> usize
    requires { Starts w.now at × Ready stage.WarningLength 0 0 0 out.old }
    ensures { Goes (known stage.WarningLength 0 0 0 out.old) w.now at out.new result }
{
    let Some(s) = fields::length_field(w, at) else {
        return 0;
    };
    if s.value != 4 {
        return 0;
    }
    gap_warning_byte(w, s.end, hex, 4, FIRST_PLACE, 0, out)
}

// A data byte, if one is left, and else a word or the end of the row.
#[cycle(field_warning_byte_gap_warning_byte)]
pub fn gap_warning_byte(
    w: &[u8; WINDOW],
    at: usize,
    hex: &HexDigits,
    left: u64,
    place: u64,
    data: u64,
    out: &mut Record,
) -> usize
    requires { Lined (drop at w.now) × Ready stage.WarningBytes left place «data» out.old }
    ensures { Goes (known stage.WarningBytes left place «data» out.old) w.now at out.new result }
{
    match after_gap(w, at) {
        Next::Field(a) => field_warning_byte(w, a, hex, left, place, data, out),
        Next::End(a) => finish(a, left, data, out),
    }
}

#[cycle(field_warning_byte_gap_warning_byte)]
fn field_warning_byte(
    w: &[u8; WINDOW],
    at: usize,
    hex: &HexDigits,
    left: u64,
    place: u64,
    data: u64,
    out: &mut Record,
) -> usize
    requires { Starts w.now at × Ready stage.WarningBytes left place «data» out.old }
    ensures { Goes (known stage.WarningBytes left place «data» out.old) w.now at out.new result }
{
    if left == 0 {
        let Some(word) = fields::word_field(w, at) else {
            return 0;
        };
        return gap_warning_byte(w, word.end, hex, 0, place, data, out);
    }
    let Some(s) = fields::byte_field(w, at, hex) else {
        return 0;
    };
    gap_warning_byte(
        w,
        s.end,
        hex,
        left - 1,
        place / 256,
        data + s.value * place,
        out,
    )
}
