// The columns that every row starts with: row number, offset, bus, and `Rx`, `Tx`, `Warng` or `Error`.
ghost use Rattle.fields.specs.inner.Window.{Starts};
ghost use Rattle.row.specs.Row.{RowFields};
ghost use Rattle.row.specs.Versions.{Version};
ghost use Rattle.row.specs.declared.Stage.TheVariants as stage;
ghost use Rattle.row.specs.inner.Stages.{Steps, continues_at, good_at};

use crate::step::known;
use fields::WINDOW;
use record::Record;
use row::{Part, Stage, Step, fraction_digits, has_bus};

// The row number, which must be k.
pub fn take_number(w: &[u8; WINDOW], at: usize, version: u64, k: u64) -> Option<Step>
    requires { Starts w.now at × Version version }
    ensures { Steps w.now at (λ fs r. RowFields version k r fs) result }
{
    let s = fields::number_field(w, at)?;
    if s.value != k {
        return None;
    }
    Some(known(s.end, Stage::Offset(version), Record::default()))
}

// The offset; where the version has no bus, the bus is 0.
pub fn offset(w: &[u8; WINDOW], at: usize, version: u64, p: Part) -> Option<Step>
    requires { Starts w.now at × good_at (stage.Offset version) p }
    ensures { Steps w.now at (continues_at (stage.Offset version) p) result }
{
    let mut r = p.r;
    let s = fields::offset_field(w, at, fraction_digits(version))?;
    r.offset = s.value;
    if has_bus(version) {
        return Some(known(s.end, Stage::Bus, r));
    }
    r.bus = 0;
    Some(known(s.end, Stage::TypeColumn, r))
}

// The bus.
pub fn bus(w: &[u8; WINDOW], at: usize, p: Part) -> Option<Step>
    requires { Starts w.now at × good_at stage.Bus p }
    ensures { Steps w.now at (continues_at stage.Bus p) result }
{
    let mut r = p.r;
    let s = fields::bus_field(w, at)?;
    r.bus = s.value;
    Some(known(s.end, Stage::TypeColumn, r))
}

// `Rx`, `Tx`, `Warng` or `Error`: frames, warnings and error frames part here.
pub fn type_column(w: &[u8; WINDOW], at: usize, p: Part) -> Option<Step>
    requires { Starts w.now at × good_at stage.TypeColumn p }
    ensures { Steps w.now at (continues_at stage.TypeColumn p) result }
{
    let mut r = p.r;
    let s = fields::type_field(w, at)?;
    let m = s.value;
    if m <= 1 {
        r.kind = m;
        return Some(known(s.end, Stage::Id, r));
    }
    if m == 2 {
        return Some(known(s.end, Stage::WarningId, r));
    }
    Some(known(s.end, Stage::ErrorId, r))
}
