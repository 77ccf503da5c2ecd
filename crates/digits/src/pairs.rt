// The two hexadecimal digits of each byte, from a table.
ghost use Rattle.std.specs.Prelude.{◌≡◌, ◌∷◌, ◌+◌, ◌*◌, ◌^◌, ◌≤◌, ◌<◌, length};
ghost use Rattle.base.specs.Spaced.{spaced};
ghost use Rattle.base.specs.Text.{blank};
ghost use Rattle.base.specs.inner.Wrote.{Wrote};
ghost use Rattle.digits.specs.House.{hex_text, byte_texts};
ghost use Rattle.digits.specs.declared.Letters.{Letters};
ghost use Rattle.digits.specs.inner.Pairs.{PairsOf};

use crate::{Letters, glyph};
use base::put_three;

// For each byte its two digits in one letter case, one pair after the other.
#[derive(Clone, Copy)]
pub struct Pairs {
    pub letters: Letters,
    pub table: [u8; 512],
    ghost pairs: { PairsOf letters table },
}

// Room for two digits of each byte.
fn no_pairs() -> [u8; 512]
    ensures { 512 ≡ length result }
{
    [0; 512]
}

// One byte after one blank: the calls of `put_hex` for each digit would double the time that a row takes.
fn put_pair(out: &mut [u8], at: usize, b: u64, table: &[u8; 512]) -> usize
    requires { (b < 256) × (at + 3 ≤ length out.old) }
    ensures wrote { (x : Letters) → PairsOf x table.now → Wrote out.old out.new at result (blank ∷ hex_text x 2 b) }
    ensures value { result ≡ at + 3 }
{
    let i = 2 * b as usize;
    put_three(out, at, b' ', table[i], table[i + 1])
}

// The first n of the eight bytes of a word, each after one blank, as a table has them: in the letter case of a table of pairs, and within its room
// whatever the table has.
pub fn put_pairs(out: &mut [u8], at: usize, n: u64, word: u64, table: &[u8; 512]) -> usize
    requires { (n ≤ 8) × (at + 3 * n ≤ length out.old) }
    ensures { (x : Letters) → PairsOf x table.now → Wrote out.old out.new at result (spaced (byte_texts x (256 ^ 7) n word)) }
{
    let mut p = at;
    for j in 0..n {
        p = put_pair(out, p, (word >> (56 - 8 * j)) % 256, table);
    }
    p
}

impl Pairs {
    pub fn new(letters: Letters) -> Self
        ensures { result.letters ≡ letters }
    {
        // filled where it stays: a table that is filled first would be copied into the struct
        let mut pairs = Pairs {
            letters,
            table: no_pairs(),
        };
        for i in 0..256 {
            pairs.table[2 * i] = glyph(letters, (i / 16) as u8);
            pairs.table[2 * i + 1] = glyph(letters, (i % 16) as u8);
        }
        pairs
    }

    // The first n of the eight bytes of a word, each after one blank.
    pub fn put(&self, out: &mut [u8], at: usize, n: u64, word: u64) -> usize
        requires { (n ≤ 8) × (at + 3 * n ≤ length out.old) }
        ensures { Wrote out.old out.new at result (spaced (byte_texts self.now.letters (256 ^ 7) n word)) }
    {
        put_pairs(out, at, n, word, &self.table)
    }
}
