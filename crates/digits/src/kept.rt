// The digits of one number, kept for the next one.
ghost use Rattle.std.specs.Prelude.{◌≡◌, ◌+◌, ◌≤◌, length};
ghost use Rattle.base.specs.inner.Wrote.{Wrote};
ghost use Rattle.digits.specs.House.{decimal_text};
ghost use Rattle.digits.specs.inner.Kept.{KeepsDigits};

use crate::put_decimal;
use base::put_text;

// A number, and its decimal digits: the first `digits` bytes.
#[derive(Clone, Copy)]
pub struct Kept {
    pub number: u64,
    pub digits: usize,
    pub bytes: [u8; 20],
    ghost kept: { KeepsDigits number digits bytes },
}

impl Kept {
    // The digits of a number.
    pub fn new(number: u64) -> Self
        ensures { result.number ≡ number }
    {
        let mut bytes = [0u8; 20];
        let digits = put_decimal(&mut bytes, 0, number);
        Kept {
            number,
            digits,
            bytes,
        }
    }

    // Keeps the digits of another number, which are put only if it is another.
    pub fn renew(&mut self, number: u64)
        ensures { self.new.number ≡ number }
    {
        if number != self.number {
            *self = Kept::new(number);
        }
    }

    // Puts n in decimal at a position as `put_decimal` does. The writer calls itself on n over ten, then puts the last digit; it ends at the number whose digits
    // are kept as it does at one digit, so that what has not changed since the row before is not divided again.
    pub fn put(&self, out: &mut [u8], at: usize, n: u64) -> usize
        requires { at + length (decimal_text n) ≤ length out.old }
        ensures { Wrote out.old out.new at result (decimal_text n) }
    {
        if n == self.number {
            let bytes: &[u8] = &self.bytes;
            return put_text(out, at, &bytes[..self.digits]);
        }
        if n < 10 {
            out[at] = b'0' + n as u8;
            return at + 1;
        }
        let q = self.put(out, at, n / 10);
        out[q] = b'0' + (n % 10) as u8;
        q + 1
    }
}
