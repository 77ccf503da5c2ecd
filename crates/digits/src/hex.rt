// The one table of hexadecimal digits: where a byte becomes a digit, it is looked up here.
ghost use Rattle.std.specs.Prelude.{◌≡◌};
ghost use Rattle.digits.specs.declared.hex.TheConstants.{HEX_DIGITS};
ghost use Rattle.base.specs.inner.Answers.{Answers};
ghost use Rattle.digits.specs.Digits.{HexDigit};
ghost use Rattle.digits.specs.inner.HexTable.{HexTable};

// For each byte value the hexadecimal digit that it is, of either letter case, or 255. A row has the sixteen bytes from a multiple of sixteen on.
#[rattlefmt::skip]
const HEX_DIGITS: [u8; 256] = [
    255, 255, 255, 255, 255, 255, 255, 255, 255, 255, 255, 255, 255, 255, 255, 255, // 0x00
    255, 255, 255, 255, 255, 255, 255, 255, 255, 255, 255, 255, 255, 255, 255, 255, // 0x10
    255, 255, 255, 255, 255, 255, 255, 255, 255, 255, 255, 255, 255, 255, 255, 255, // 0x20
      0,   1,   2,   3,   4,   5,   6,   7,   8,   9, 255, 255, 255, 255, 255, 255, // 0x30: `0` to `9`
    255,  10,  11,  12,  13,  14,  15, 255, 255, 255, 255, 255, 255, 255, 255, 255, // 0x40: `A` to `F`
    255, 255, 255, 255, 255, 255, 255, 255, 255, 255, 255, 255, 255, 255, 255, 255, // 0x50
    255,  10,  11,  12,  13,  14,  15, 255, 255, 255, 255, 255, 255, 255, 255, 255, // 0x60: `a` to `f`
    255, 255, 255, 255, 255, 255, 255, 255, 255, 255, 255, 255, 255, 255, 255, 255, // 0x70
    255, 255, 255, 255, 255, 255, 255, 255, 255, 255, 255, 255, 255, 255, 255, 255, // 0x80
    255, 255, 255, 255, 255, 255, 255, 255, 255, 255, 255, 255, 255, 255, 255, 255, // 0x90
    255, 255, 255, 255, 255, 255, 255, 255, 255, 255, 255, 255, 255, 255, 255, 255, // 0xA0
    255, 255, 255, 255, 255, 255, 255, 255, 255, 255, 255, 255, 255, 255, 255, 255, // 0xB0
    255, 255, 255, 255, 255, 255, 255, 255, 255, 255, 255, 255, 255, 255, 255, 255, // 0xC0
    255, 255, 255, 255, 255, 255, 255, 255, 255, 255, 255, 255, 255, 255, 255, 255, // 0xD0
    255, 255, 255, 255, 255, 255, 255, 255, 255, 255, 255, 255, 255, 255, 255, 255, // 0xE0
    255, 255, 255, 255, 255, 255, 255, 255, 255, 255, 255, 255, 255, 255, 255, 255, // 0xF0
];

// The table, to be made once and lent: a constant is laid out on the stack wherever it is used.
#[derive(Clone, Copy)]
pub struct HexDigits {
    pub table: [u8; 256],
    ghost is: { table ≡ HEX_DIGITS },
}

impl HexDigits {
    pub fn new() -> Self
        ensures { HexTable result.table }
    {
        HexDigits { table: HEX_DIGITS }
    }

    // The hexadecimal digit that a byte is.
    pub fn digit(&self, b: u8) -> Option<u8>
        ensures { Answers (HexDigit b) result }
    {
        let d = self.table[b as usize];
        if d == 255 { None } else { Some(d) }
    }
}
