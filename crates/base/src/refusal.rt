// Why an input is refused. Each reason has one number, by which users and C know it.
ghost use Rattle.std.specs.Prelude.{◌≡◌};
ghost use Rattle.base.specs.Refusal.{number_of};

// A reason to refuse an input, or to hand out nothing.
#[derive(Clone, Copy, PartialEq, Eq)]
pub enum Refusal {
    // The input has too many bytes.
    TooLarge,
    // A line is not ended by CR LF.
    Unended,
    // A line has too many bytes.
    LongLine,
    // Line 1 is not a version line.
    NotVersionLine,
    // Line 2 is not a start line.
    NotStartLine,
    // A line from line 3 on is a comment with `$` first.
    Dollar,
    // A line from line 3 on is neither a comment nor the next row.
    NotRow,
    // The output is too short for the records.
    NoRoomForRecords,
    // The bytes are not twenty for each record, or too many.
    NotRecords,
    // The version is neither 1.1 nor 1.2.
    UnknownVersion,
    // The start lies past the last day.
    LateStart,
    // A record is not well formed, or its mark is false.
    Malformed,
    // The version can't carry a record.
    Misfit,
    // The output is too short.
    NoRoom,
    // No trace of so many rows has this first number.
    FirstNumber,
    // The line is not one that can be explained.
    NothingToExplain,
    // A line is not a line of Telemotive ASCII.
    NotAsciiLine,
    // A stamp lies before the start.
    BeforeStart,
    // A stamp lies too far after the start.
    PastLimit,
    // There are more lines than a trace can have rows.
    TooManyLines,
    // No line has this channel.
    UnknownChannel,
}

impl Refusal {
    // The number of the reason.
    pub fn number(self) -> u64
        ensures { result ≡ number_of self }
    {
        match self {
            Refusal::TooLarge => 1,
            Refusal::Unended => 2,
            Refusal::LongLine => 3,
            Refusal::NotVersionLine => 4,
            Refusal::NotStartLine => 5,
            Refusal::Dollar => 6,
            Refusal::NotRow => 7,
            Refusal::NoRoomForRecords => 8,
            Refusal::NotRecords => 20,
            Refusal::UnknownVersion => 21,
            Refusal::LateStart => 22,
            Refusal::Malformed => 23,
            Refusal::Misfit => 24,
            Refusal::NoRoom => 25,
            Refusal::FirstNumber => 26,
            Refusal::NothingToExplain => 30,
            Refusal::NotAsciiLine => 31,
            Refusal::BeforeStart => 32,
            Refusal::PastLimit => 33,
            Refusal::TooManyLines => 34,
            Refusal::UnknownChannel => 35,
        }
    }

    // A refusal for this reason at a line or record, counted from 1.
    pub fn at(self, place: u64) -> Refused
        ensures { result ≡ record { reason = self; place = place } }
    {
        Refused {
            reason: self,
            place,
        }
    }

    // A refusal for this reason of the whole: its place is 0.
    pub fn whole(self) -> Refused
        ensures { result ≡ record { reason = self; place = 0 } }
    {
        self.at(0)
    }
}

// What is refused, and at which line or record.
#[derive(Clone, Copy, PartialEq, Eq)]
pub struct Refused {
    pub reason: Refusal,
    pub place: u64,
}
