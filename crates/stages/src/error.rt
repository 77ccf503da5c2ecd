// An error frame, from its ID on: the ID, length 4, 0 or 1, a position, then two error counters.
ghost use Rattle.fields.specs.inner.Window.{Starts};
ghost use Rattle.row.specs.declared.Stage.TheVariants as stage;
ghost use Rattle.row.specs.inner.Stages.{Steps, continues_at, good_at};

use crate::step::{bytes_left, known};
use digits::HexDigits;
use fields::WINDOW;
use row::{FIRST_PLACE, Part, SECOND_PLACE, Stage, Step, THIRD_PLACE};

// The ID.
pub fn error_id(w: &[u8; WINDOW], at: usize, hex: &HexDigits, p: Part) -> Option<Step>
    requires { Starts w.now at × good_at stage.ErrorId p }
    ensures { Steps w.now at (continues_at stage.ErrorId p) result }
{
    let mut r = p.r;
    let s = fields::hex_field(w, at, hex)?;
    if s.end - at != 4 || !record::error_id(s.value) {
        return None;
    }
    r.extended = 0;
    r.id = s.value;
    Some(known(s.end, Stage::ErrorLength, r))
}

// The length.
pub fn error_length(w: &[u8; WINDOW], at: usize, p: Part) -> Option<Step>
    requires { Starts w.now at × good_at stage.ErrorLength p }
    ensures { Steps w.now at (continues_at stage.ErrorLength p) result }
{
    let mut r = p.r;
    let s = fields::length_field(w, at)?;
    if s.value != 4 {
        return None;
    }
    r.kind = 5;
    r.len = 4;
    Some(known(s.end, Stage::ErrorFirst, r))
}

// The first byte: 0 or 1.
pub fn error_first(w: &[u8; WINDOW], at: usize, hex: &HexDigits, p: Part) -> Option<Step>
    requires { Starts w.now at × good_at stage.ErrorFirst p }
    ensures { Steps w.now at (continues_at stage.ErrorFirst p) result }
{
    let mut r = p.r;
    let s = fields::byte_field(w, at, hex)?;
    if 1 < s.value {
        return None;
    }
    r.data = s.value * FIRST_PLACE;
    Some(known(s.end, Stage::ErrorSecond, r))
}

// The second byte: a position. Two bytes are left.
pub fn error_second(w: &[u8; WINDOW], at: usize, hex: &HexDigits, p: Part) -> Option<Step>
    requires { Starts w.now at × good_at stage.ErrorSecond p }
    ensures { Steps w.now at (continues_at stage.ErrorSecond p) result }
{
    let mut r = p.r;
    let s = fields::byte_field(w, at, hex)?;
    if !record::position(s.value) {
        return None;
    }
    r.data += s.value * SECOND_PLACE;
    Some(bytes_left(s.end, Stage::Bytes, 2, THIRD_PLACE, r))
}
