// What a stage answers with.
ghost use Rattle.std.specs.Prelude.{◌≡◌};

use record::Record;
use row::{Part, Stage, Step};

// What is known after a field.
pub fn known(at: usize, stage: Stage, r: Record) -> Step
    ensures { result ≡ record { at = at; part = record { stage = stage; left = 0; place = 0; r = r } } }
{
    bytes_left(at, stage, 0, 0, r)
}

// The same, with so many bytes left, the first of them at this place value.
pub fn bytes_left(at: usize, stage: Stage, left: u64, place: u64, r: Record) -> Step
    ensures { result ≡ record { at = at; part = record { stage = stage; left = left; place = place; r = r } } }
{
    Step {
        at,
        part: Part {
            stage,
            left,
            place,
            r,
        },
    }
}
