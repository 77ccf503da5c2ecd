// The columns that every row starts with: row number, offset, bus, and `Rx`, `Tx`, `Warng` or `Error`.
ghost use Rattle.std.specs.Prelude.{drop};
ghost use Rattle.fields.specs.inner.Window.{Lined, Starts};
ghost use Rattle.row.specs.declared.Stage.TheVariants as stage;
ghost use Rattle.row_reader.specs.inner.Chain.{Ready, known, Goes, GoesRow};

use crate::error::gap_error_id;
use crate::frame::gap_id;
use crate::warning::gap_warning_id;
use digits::HexDigits;
use fields::{Next, WINDOW, after_gap};
use record::Record;
use row::{fraction_digits, has_bus, is_version};

// The row number. What follows it depends on the version.
pub fn gap_number(
    w: &[u8; WINDOW],
    at: usize,
    hex: &HexDigits,
    version: u64,
    k: u64,
    out: &mut Record,
) -> usize
    requires { Lined (drop at w.now) }
    ensures { GoesRow version k w.now at out.new result }
{
    let Next::Field(a) = after_gap(w, at) else {
        return 0;
    };
    field_number(w, a, hex, version, k, out)
}

fn field_number(
    w: &[u8; WINDOW],
    at: usize,
    hex: &HexDigits,
    version: u64,
    k: u64,
    out: &mut Record,
) -> usize
    requires { Starts w.now at }
    ensures { GoesRow version k w.now at out.new result }
{
    let Some(s) = fields::number_field(w, at) else {
        return 0;
    };
    if s.value != k || !is_version(version) {
        return 0;
    }
    gap_offset(w, s.end, hex, version, out)
}

// The offset, and, where the version has no bus, bus 0.
pub fn gap_offset(
    w: &[u8; WINDOW],
    at: usize,
    hex: &HexDigits,
    version: u64,
    out: &mut Record,
) -> usize
    requires { Lined (drop at w.now) × Ready (stage.Offset version) 0 0 0 out.old }
    ensures { Goes (known (stage.Offset version) 0 0 0 out.old) w.now at out.new result }
{
    let Next::Field(a) = after_gap(w, at) else {
        return 0;
    };
    field_offset(w, a, hex, version, out)
}

fn field_offset(
    w: &[u8; WINDOW],
    at: usize,
    hex: &HexDigits,
    version: u64,
    out: &mut Record,
) -> usize
    requires { Starts w.now at × Ready (stage.Offset version) 0 0 0 out.old }
    ensures { Goes (known (stage.Offset version) 0 0 0 out.old) w.now at out.new result }
{
    let Some(s) = fields::offset_field(w, at, fraction_digits(version)) else {
        return 0;
    };
    out.offset = s.value;
    if has_bus(version) {
        return gap_bus(w, s.end, hex, out);
    }
    out.bus = 0;
    gap_type(w, s.end, hex, out)
}

// The bus.
pub fn gap_bus(w: &[u8; WINDOW], at: usize, hex: &HexDigits, out: &mut Record) -> usize
    requires { Lined (drop at w.now) × Ready stage.Bus 0 0 0 out.old }
    ensures { Goes (known stage.Bus 0 0 0 out.old) w.now at out.new result }
{
    let Next::Field(a) = after_gap(w, at) else {
        return 0;
    };
    field_bus(w, a, hex, out)
}

fn field_bus(w: &[u8; WINDOW], at: usize, hex: &HexDigits, out: &mut Record) -> usize
    requires { Starts w.now at × Ready stage.Bus 0 0 0 out.old }
    ensures { Goes (known stage.Bus 0 0 0 out.old) w.now at out.new result }
{
    let Some(s) = fields::bus_field(w, at) else {
        return 0;
    };
    out.bus = s.value;
    gap_type(w, s.end, hex, out)
}

// `Rx`, `Tx`, `Warng` or `Error`: frames, warnings and error frames part here.
pub fn gap_type(w: &[u8; WINDOW], at: usize, hex: &HexDigits, out: &mut Record) -> usize
    requires { Lined (drop at w.now) × Ready stage.TypeColumn 0 0 0 out.old }
    ensures { Goes (known stage.TypeColumn 0 0 0 out.old) w.now at out.new result }
{
    let Next::Field(a) = after_gap(w, at) else {
        return 0;
    };
    field_type(w, a, hex, out)
}

fn field_type(w: &[u8; WINDOW], at: usize, hex: &HexDigits, out: &mut Record) -> usize
    requires { Starts w.now at × Ready stage.TypeColumn 0 0 0 out.old }
    ensures { Goes (known stage.TypeColumn 0 0 0 out.old) w.now at out.new result }
{
    let Some(s) = fields::type_field(w, at) else {
        return 0;
    };
    let m = s.value;
    if m <= 1 {
        out.kind = m;
        return gap_id(w, s.end, hex, out);
    }
    if m == 2 {
        return gap_warning_id(w, s.end, hex, out);
    }
    gap_error_id(w, s.end, hex, out)
}
