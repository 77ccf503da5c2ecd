// Reads one line of Telemotive ASCII: its stamp, and the frame after it. As in a row, a part is read without searching its end first, from a window in
// which CR stands after the line.
#![tactic(auto)]

mod frame;
mod stamp;

ghost use Rattle.std.specs.Prelude.{◌≡◌, List, ℕ, drop};
ghost use Rattle.fields.specs.inner.Window.{LineBeforeCr, Lined};
ghost use Rattle.ascii_line_reader.specs.inner.Answer.{LineFound};

use digits::HexDigits;
use fields::WINDOW;
use record::Record;

// What stands after a stamp: the place of the line's end, and the record, without an offset.
#[derive(Clone, Copy)]
pub struct FrameRead {
    pub end: usize,
    pub r: Record,
}

// A whole line: the place of its end; the steps of 100 microseconds from the beginning of day 0 to its stamp; and its record, without
// an offset.
#[derive(Clone, Copy)]
pub struct LineRead {
    pub end: usize,
    pub ticks: u64,
    pub r: Record,
}

// Reads the line at a place of a window.
pub fn line_in(w: &[u8; WINDOW], at: usize, hex: &HexDigits) -> Option<LineRead>
    requires { Lined (drop at w.now) }
    ensures { (line : List ℕ) → LineBeforeCr line (drop at w.now) → LineFound line at result }
{
    let s = stamp::stamp_in(w, at)?;
    let f = frame::frame_type(w, s.end, hex)?;
    let r = f.r;
    Some(LineRead {
        end: f.end,
        ticks: s.value,
        r,
    })
}
