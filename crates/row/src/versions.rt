// What each version of a trace decides, as `specs/Versions` has it.
ghost use Rattle.std.specs.Prelude.{◌≡◌};
ghost use Rattle.base.specs.inner.Decides.{Decides};
ghost use Rattle.row.specs.Versions.{Version, head_lines, fraction_digits, has_bus, Carries};

use base::LAST_BUS;
use record::Record;

// 1.1 or 1.2.
pub fn is_version(version: u64) -> bool
    ensures { Decides (Version version) result }
{
    version == 11 || version == 12
}

// The lines before the comments and rows.
pub fn head_lines(version: u64) -> u64
    ensures { result ≡ head_lines version }
{
    2
}

// The digits after an offset's point.
pub fn fraction_digits(version: u64) -> usize
    ensures { result ≡ fraction_digits version }
{
    if version == 11 {
        return 1;
    }
    3
}

// Whether a row has a bus.
pub fn has_bus(version: u64) -> bool
    ensures { result ≡ has_bus version }
{
    version == 12
}

// Whether a version can carry a record.
pub fn carries(r: Record, version: u64) -> bool
    ensures { Decides (Carries r version) result }
{
    match version {
        11 => r.bus == 0 && r.offset % 100 == 0,
        12 => r.bus != 0 && r.bus <= LAST_BUS,
        _ => false,
    }
}
