// Steps through the columns of a row, one field at a time and by value: what is known after a field goes in and comes out as a `Part`. A file
// for each kind of row (`head`, then `frame`, `warning` or `error`) has a function for each stage.
#![tactic(auto)]

mod error;
mod frame;
mod head;
mod step;
mod warning;

ghost use Rattle.fields.specs.inner.Window.{Starts};
ghost use Rattle.row.specs.inner.Stages.{Steps, EndsRow, Continues, Good};

use digits::HexDigits;
use error::{error_first, error_id, error_length, error_second};
use fields::WINDOW;
use frame::{bytes, data, id, length};
pub use head::take_number;
use head::{bus, offset, type_column};
use row::{Part, Stage, Step};
use warning::{warning_bytes, warning_id, warning_length};

// One field after the row number, whatever the stage.
pub fn take_field(w: &[u8; WINDOW], at: usize, hex: &HexDigits, p: Part) -> Option<Step>
    requires { Starts w.now at × Good p }
    ensures { Steps w.now at (Continues p) result }
{
    let stage = p.stage;
    match stage {
        Stage::Offset(version) => offset(w, at, version, p),
        Stage::Bus => bus(w, at, p),
        Stage::TypeColumn => type_column(w, at, p),
        Stage::Id => id(w, at, hex, p),
        Stage::Length => length(w, at, p),
        Stage::Data => data(w, at, hex, p),
        Stage::Bytes => bytes(w, at, hex, p),
        Stage::WarningId => warning_id(w, at, hex, p),
        Stage::WarningLength => warning_length(w, at, p),
        Stage::WarningBytes => warning_bytes(w, at, hex, p),
        Stage::ErrorId => error_id(w, at, hex, p),
        Stage::ErrorLength => error_length(w, at, p),
        Stage::ErrorFirst => error_first(w, at, hex, p),
        Stage::ErrorSecond => error_second(w, at, hex, p),
    }
}

// Whether a row may end here.
pub fn complete(p: Part) -> bool
    requires { Good p }
    ensures { EndsRow p.stage p result }
{
    let stage = p.stage;
    let left = p.left;
    if left != 0 {
        return false;
    }
    match stage {
        Stage::Offset(_) => false,
        Stage::Bus => false,
        Stage::TypeColumn => false,
        Stage::Id => false,
        Stage::Length => false,
        Stage::Data => true,
        Stage::Bytes => true,
        Stage::WarningId => false,
        Stage::WarningLength => false,
        Stage::WarningBytes => true,
        Stage::ErrorId => false,
        Stage::ErrorLength => false,
        Stage::ErrorFirst => false,
        Stage::ErrorSecond => false,
    }
}
