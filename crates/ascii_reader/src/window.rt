// The window that lines are read from. It holds bytes of the text, CR for LF, so that every line ends with CR there, whichever end it has.
ghost use Rattle.std.specs.Prelude.{◌≡◌};
ghost use Rattle.ascii_reader.specs.inner.Ends.{cr_for, cr_for_all, cr_all_length};

use fields::WINDOW;
use trace::window::Copying;

// A byte of the text as the window has it.
fn cr_for(b: u8) -> u8
    ensures { result ≡ cr_for b }
{
    if b == b'\n' {
        return b'\r';
    }
    b
}

// Each byte as `cr_for` has it.
pub struct CrForLf;

impl Copying for CrForLf {
    ghost copied = { cr_for_all };

    ghost same_length = { cr_all_length };

    fn copy(text: &[u8], from: usize, n: usize, w: &mut [u8; WINDOW]) {
        let slots: &mut [u8] = w;
        for i in 0..n {
            slots[i] = cr_for(text[from + i]);
        }
        slots[n] = b'\r';
    }
}
