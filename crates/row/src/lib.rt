// One row of a trace: what its version decides, and the stages in which it is read. What each stage does to the state, field by field, is in
// `specs/inner/Stages`, with a law for each in `proofs/`; `row_reader` walks through them, and `stages` takes them one by one.
#![tactic(auto)]

mod ids;
mod versions;

pub use ids::form;
use record::Record;
pub use versions::{carries, fraction_digits, has_bus, head_lines, is_version};

// The place value of the first of eight data bytes: 256 ^ 7.
pub const FIRST_PLACE: u64 = 72057594037927936;

// That of the second: 256 ^ 6.
pub const SECOND_PLACE: u64 = 281474976710656;

// That of the third: 256 ^ 5.
pub const THIRD_PLACE: u64 = 1099511627776;

// Where the reader is in the columns of a row after its number: what the next field is. Only the offset, and whether a bus
// follows it, depends on the version.
#[derive(Clone, Copy)]
pub enum Stage {
    Offset(u64),
    Bus,
    TypeColumn,
    Id,
    Length,
    Data,
    Bytes,
    WarningId,
    WarningLength,
    WarningBytes,
    ErrorId,
    ErrorLength,
    ErrorFirst,
    ErrorSecond,
}

// What is known after some fields: the record so far, and of the bytes that are left their number and the place value of the first.
#[derive(Clone, Copy)]
pub struct Part {
    pub stage: Stage,
    pub left: u64,
    pub place: u64,
    pub r: Record,
}

// The place after a field, and what is known then.
#[derive(Clone, Copy)]
pub struct Step {
    pub at: usize,
    pub part: Part,
}
