// A frame, from its ID on: the ID, the length, then as many data bytes or `RTR`.
ghost use Rattle.std.specs.Prelude.{◌+◌, ◌*◌, ◌^◌, ◌≤◌, ◌≢◌};
ghost use Rattle.fields.specs.inner.Window.{Starts};
ghost use Rattle.row.specs.declared.Stage.TheVariants as stage;
ghost use Rattle.row.specs.inner.Stages.{Steps, Byted, continues_at, good_at};

use crate::step::{bytes_left, known};
use digits::HexDigits;
use fields::WINDOW;
use row::{FIRST_PLACE, Part, Stage, Step, form};

// The ID: its width says whether it is extended.
pub fn id(w: &[u8; WINDOW], at: usize, hex: &HexDigits, p: Part) -> Option<Step>
    requires { Starts w.now at × good_at stage.Id p }
    ensures { Steps w.now at (continues_at stage.Id p) result }
{
    let mut r = p.r;
    let s = fields::hex_field(w, at, hex)?;
    r.extended = form(s.end - at, s.value)?;
    r.id = s.value;
    Some(known(s.end, Stage::Length, r))
}

// The length.
pub fn length(w: &[u8; WINDOW], at: usize, p: Part) -> Option<Step>
    requires { Starts w.now at × good_at stage.Length p }
    ensures { Steps w.now at (continues_at stage.Length p) result }
{
    let mut r = p.r;
    let s = fields::length_field(w, at)?;
    r.len = s.value;
    Some(bytes_left(s.end, Stage::Data, s.value, FIRST_PLACE, r))
}

// `RTR`, or the first data byte.
pub fn data(w: &[u8; WINDOW], at: usize, hex: &HexDigits, p: Part) -> Option<Step>
    requires { Starts w.now at × good_at stage.Data p }
    ensures { Steps w.now at (continues_at stage.Data p) result }
{
    if let Some(s) = fields::remote_field(w, at) {
        let mut r = p.r;
        r.kind += 2;
        return Some(known(s.end, Stage::Bytes, r));
    }
    if p.left == 0 {
        return None;
    }
    byte(w, at, hex, Stage::Bytes, p)
}

// A data byte, if one is left.
pub fn bytes(w: &[u8; WINDOW], at: usize, hex: &HexDigits, p: Part) -> Option<Step>
    requires { Starts w.now at × good_at stage.Bytes p }
    ensures { Steps w.now at (continues_at stage.Bytes p) result }
{
    if p.left == 0 {
        return None;
    }
    byte(w, at, hex, Stage::Bytes, p)
}

// One data byte more.
pub fn byte(w: &[u8; WINDOW], at: usize, hex: &HexDigits, next: Stage, p: Part) -> Option<Step>
    requires { Starts w.now at × (p.left ≢ 0) × (p.r.«data» + 256 * p.place ≤ 256 ^ 8) }
    ensures { Byted w.now at next p result }
{
    let mut r = p.r;
    let s = fields::byte_field(w, at, hex)?;
    r.data += s.value * p.place;
    Some(bytes_left(s.end, next, p.left - 1, p.place / 256, r))
}
