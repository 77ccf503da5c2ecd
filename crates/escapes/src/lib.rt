// Texts with escapes: `\r`, `\n`, `\t`, a backslash as `\\`, and any byte as `\xff`. At each byte it is known what is begun by those before it.
#![tactic(auto)]

ghost use Rattle.std.specs.Prelude.{◌≡◌, List, [], ◌∷◌, ◌++◌, ℕ};
ghost use Rattle.escapes.specs.Escapes.{StandsFor, Begins, After};

use digits::HexDigits;

// What is begun by some bytes.
#[derive(Clone, Copy, PartialEq, Eq)]
pub enum Begun {
    Nothing,
    // By a backslash.
    Backslash,
    // By a backslash and an x.
    Hex,
    // By a backslash, an x and the first digit.
    Digit(u8),
}

// What is begun after a byte. A byte that is no digit counts as 255.
pub fn after(begun: Begun, b: u8) -> Begun
    ensures { (s : List ℕ) → Begins begun s → After s b result }
{
    match begun {
        Begun::Nothing if b == b'\\' => Begun::Backslash,
        Begun::Backslash if b == b'x' => Begun::Hex,
        Begun::Hex => Begun::Digit(HexDigits::new().digit(b).unwrap_or(255)),
        Begun::Nothing | Begun::Backslash | Begun::Digit(_) => Begun::Nothing,
    }
}

// The byte that is ended by b.
pub fn ended(begun: Begun, b: u8) -> u8
    ensures { (s : List ℕ) (x : ℕ) → Begins begun s → StandsFor (s ++ (b ∷ [])) x → result ≡ x }
{
    match begun {
        // After a backslash and an x, b is the first digit, and ends nothing.
        Begun::Nothing | Begun::Hex => b,
        Begun::Backslash => match b {
            b'r' => b'\r',
            b'n' => b'\n',
            b't' => b'\t',
            _ => b,
        },
        Begun::Digit(d) => {
            let low = HexDigits::new().digit(b).unwrap_or(255);
            d.wrapping_mul(16).wrapping_add(low)
        }
    }
}
