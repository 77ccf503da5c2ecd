// The window that the lines of a text are read from, as they are or with other ends.
ghost use Rattle.std.specs.Prelude.{◌≡◌, refl, List, ℕ, ◌∷◌, ◌++◌, ◌+◌, ◌≤◌, ◌<◌, length, take, drop};
ghost use Rattle.base.specs.Text.{cr};
ghost use Rattle.fields.specs.inner.Window.{window_bytes};
ghost use Rattle.trace.specs.inner.Passes.{Windowed, Reaches};

use fields::WINDOW;
use lines::LINE_LIMIT;

// The most bytes of a line within the limit and its end.
pub const ENDED: usize = LINE_LIMIT + 2;

// How a window has the bytes of a text: each in its place, as it is or as another. An impl copies a whole stretch and not byte by byte, so that bytes as
// they are stay one move of memory.
pub trait Copying {
    ghost copied: { List ℕ → List ℕ };

    // Puts so many bytes of a text, from a place on, at the front of a window, and CR after them.
    fn copy(text: &[u8], from: usize, n: usize, w: &mut [u8; WINDOW])
        requires { (from + n ≤ length text.now) × (n < window_bytes) }
        ensures { w.new ≡ take n (drop from (copied text.now)) ++ (cr ∷ drop (n + 1) w.old) };

    // so that the window is full, or has all that is left, whatever the bytes are
    ghost same_length: { (s : List ℕ) → length (copied s) ≡ length s };
}

// The bytes of the text themselves.
pub struct AsIs;

impl Copying for AsIs {
    ghost copied = { λ s. s };

    ghost same_length = { λ s. refl };

    fn copy(text: &[u8], from: usize, n: usize, w: &mut [u8; WINDOW]) {
        row_reader::window(&text[from..from + n], w);
    }
}

// Fills the window from a place of the text on: with what is left, or as much as there is room for.
pub fn fill_window<C: Copying>(text: &[u8], from: usize, w: &mut [u8; WINDOW])
    requires { from ≤ length text.now }
    ensures { Windowed (C.copied text.now) from w.new }
{
    let left = text.len() - from;
    if left < WINDOW {
        C::copy(text, from, left, w);
        return;
    }
    C::copy(text, from, WINDOW - 1, w);
}

// Where the window starts that a line at a place is read from. Where fewer bytes are left in it than a line within the limit and its end have, it
// is filled anew: so most lines are read where they are, and none is copied alone.
pub fn window_at<C: Copying>(text: &[u8], at: usize, from: usize, w: &mut [u8; WINDOW]) -> usize
    requires { Windowed (C.copied text.now) from w.old × (from ≤ at) × (at ≤ length text.now) }
    ensures { Reaches (C.copied text.now) at result w.new }
{
    if at - from <= WINDOW - 1 - ENDED {
        return from;
    }
    fill_window::<C>(text, at, w);
    at
}
