// What every layer shares: the largest offset and the last bus, one byte widened, bytes stored, the end of a line.
#![tactic(auto)]

mod refusal;

ghost use Rattle.std.specs.Prelude.{◌≡◌, [], ◌∷◌, ◌+◌, ◌≤◌, ◌<◌, length};
ghost use Rattle.base.specs.Text.{cr, lf};
ghost use Rattle.base.specs.inner.Wrote.{Wrote};

pub use refusal::{Refusal, Refused};

// The most digits of an offset's milliseconds.
pub const OFFSET_DIGITS: usize = 12;

// The largest offset, in microseconds: the whole of the 48 bits that a record has for it.
pub const OFFSET_LIMIT: u64 = 281_474_976_710_655;

// The last bus, and so the last channel of a line of Telemotive ASCII.
pub const LAST_BUS: u64 = 16;

// A byte as a number, and its bound.
pub fn wide(b: u8) -> u64
    ensures { (result ≡ b) × (result < 256) }
{
    u64::from(b)
}

// Puts one byte at a position, and gives the position after it.
pub fn put_byte(out: &mut [u8], at: usize, b: u8) -> usize
    requires { at < length out.old }
    ensures { Wrote out.old out.new at result (b ∷ []) }
{
    out[at] = b;
    at + 1
}

// Puts three bytes.
pub fn put_three(out: &mut [u8], at: usize, a: u8, b: u8, c: u8) -> usize
    requires { at + 3 ≤ length out.old }
    ensures { Wrote out.old out.new at result (a ∷ b ∷ c ∷ []) }
{
    let p = put_byte(out, at, a);
    let q = put_byte(out, p, b);
    put_byte(out, q, c)
}

// Puts the end of a line, CR LF.
pub fn put_end(out: &mut [u8], at: usize) -> usize
    requires { at + 2 ≤ length out.old }
    ensures { Wrote out.old out.new at result (cr ∷ lf ∷ []) }
{
    let p = put_byte(out, at, b'\r');
    put_byte(out, p, b'\n')
}

// Puts some bytes at a position, and gives the position after them.
pub fn put_text(out: &mut [u8], at: usize, text: &[u8]) -> usize
    requires { at + length text.now ≤ length out.old }
    ensures { Wrote out.old out.new at result text.now }
{
    for (i, b) in text.iter().enumerate() {
        out[at + i] = *b;
    }
    at + text.len()
}
