// A warning, from its ID on: eight F, length 4, four bytes, then any number of words, ignored.
ghost use Rattle.fields.specs.inner.Window.{Starts};
ghost use Rattle.row.specs.declared.Stage.TheVariants as stage;
ghost use Rattle.row.specs.inner.Stages.{Steps, continues_at, good_at};

use crate::frame::byte;
use crate::step::{bytes_left, known};
use digits::HexDigits;
use fields::WINDOW;
use row::{FIRST_PLACE, Part, Stage, Step};

// The eight F.
pub fn warning_id(w: &[u8; WINDOW], at: usize, hex: &HexDigits, p: Part) -> Option<Step>
    requires { Starts w.now at × good_at stage.WarningId p }
    ensures { Steps w.now at (continues_at stage.WarningId p) result }
{
    let mut r = p.r;
    let s = fields::hex_field(w, at, hex)?;
    if s.end - at != 8 || s.value != 0xFFFFFFFF {
        return None;
    }
    r.kind = 4;
    r.extended = 0;
    r.id = 0;
    r.len = 4;
    Some(known(s.end, Stage::WarningLength, r))
}

// The length.
pub fn warning_length(w: &[u8; WINDOW], at: usize, p: Part) -> Option<Step>
    requires { Starts w.now at × good_at stage.WarningLength p }
    ensures { Steps w.now at (continues_at stage.WarningLength p) result }
{
    let s = fields::length_field(w, at)?;
    if s.value != 4 {
        return None;
    }
    Some(bytes_left(s.end, Stage::WarningBytes, 4, FIRST_PLACE, p.r))
}

// A data byte, and after the last any word.
pub fn warning_bytes(w: &[u8; WINDOW], at: usize, hex: &HexDigits, p: Part) -> Option<Step>
    requires { Starts w.now at × good_at stage.WarningBytes p }
    ensures { Steps w.now at (continues_at stage.WarningBytes p) result }
{
    if p.left != 0 {
        return byte(w, at, hex, Stage::WarningBytes, p);
    }
    let s = fields::word_field(w, at)?;
    Some(bytes_left(s.end, Stage::WarningBytes, 0, p.place, p.r))
}
