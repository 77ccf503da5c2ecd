// One line of Telemotive ASCII: the line of one record, and how many bytes that is.
#![tactic(auto)]

ghost use Rattle.std.specs.Prelude.{◌≡◌, ◌∷◌, ◌+◌, ◌≤◌, length};
ghost use Rattle.base.specs.Limits.{last_bus};
ghost use Rattle.base.specs.Text.{blank};
ghost use Rattle.base.specs.inner.Wrote.{Wrote};
ghost use Rattle.digits.specs.declared.Letters.TheVariants.{Small};
ghost use Rattle.clock.specs.declared.DateTime.{DateTime as AnyStamp};
ghost use Rattle.ascii_line.specs.Line.{date_text, id_digits, line_text};
ghost use Rattle.ascii_line.specs.inner.Parts.{two_text, clock_text, second_text, StampParts, source_text, bar_text, way_text, data_text, rest_text, frame_text};

use base::{put_byte, put_end, put_text};
use clock::{CalendarDay, DateTime, DayTime};
use digits::{Letters, Pairs, decimal_length, put_decimal, put_hex, put_padded};
use record::Record;

// Two numbers of two digits, with this byte after each.
fn put_two(out: &mut [u8], at: usize, m: u64, n: u64, b: u8) -> usize
    requires { at + 6 ≤ length out.old }
    ensures wrote { Wrote out.old out.new at result (two_text m n b) }
    ensures value { result ≡ at + 6 }
{
    let p = put_padded(out, at, 2, m);
    let q = put_byte(out, p, b);
    let s = put_padded(out, q, 2, n);
    put_byte(out, s, b)
}

// `dd.mm.yyyy`
fn put_date(out: &mut [u8], at: usize, d: CalendarDay) -> usize
    requires { at + 10 ≤ length out.old }
    ensures wrote { Wrote out.old out.new at result (date_text d) }
    ensures value { result ≡ at + 10 }
{
    let p = put_two(out, at, d.day, d.month, b'.');
    put_padded(out, p, 4, d.year)
}

// `hh:mm:ss.`
fn put_clock(out: &mut [u8], at: usize, t: DayTime) -> usize
    requires { at + 9 ≤ length out.old }
    ensures wrote { Wrote out.old out.new at result (clock_text t) }
    ensures value { result ≡ at + 9 }
{
    let p = put_two(out, at, t.hour, t.minute, b':');
    let q = put_padded(out, p, 2, t.second);
    put_byte(out, q, b'.')
}

// Puts a stamp up to its point, `dd.mm.yyyy hh:mm:ss.`: all but its part, and the same for every stamp of a second.
pub fn put_second(out: &mut [u8; 20], s: DateTime)
    ensures { out.new ≡ second_text s }
{
    let slots: &mut [u8] = out;
    let date = s.date;
    let time = s.time;
    let p = put_date(slots, 0, date);
    let q = put_byte(slots, p, b' ');
    put_clock(slots, q, time);
}

// `CAN` or `CANExt`, and the `#` of the channel.
fn put_source(out: &mut [u8], at: usize, extended: u64) -> usize
    requires { at + length (source_text extended) ≤ length out.old }
    ensures { Wrote out.old out.new at result (source_text extended) }
{
    if extended == 1 {
        return put_text(out, at, b" CANExt #");
    }
    put_text(out, at, b" CAN #")
}

// The bar, and `EXTENDED` for an extended ID, up to the blank before the direction.
fn put_bar(out: &mut [u8], at: usize, extended: u64) -> usize
    requires { at + length (bar_text extended) ≤ length out.old }
    ensures { Wrote out.old out.new at result (bar_text extended) }
{
    if extended == 1 {
        return put_text(out, at, b" | EXTENDED ");
    }
    put_text(out, at, b" | ")
}

// The bar, `EXTENDED` for an extended ID, and `Rx` or `Tx`. `T` is two after `R`: the byte is computed, since a branch on the kind
// would often be guessed wrong.
fn put_way(out: &mut [u8], at: usize, extended: u64, kind: u64) -> usize
    requires { (kind ≤ 1) × (at + length (way_text extended kind) ≤ length out.old) }
    ensures { Wrote out.old out.new at result (way_text extended kind) }
{
    let p = put_bar(out, at, extended);
    let q = put_byte(out, p, b'R' + 2 * kind as u8);
    put_byte(out, q, b'x')
}

// Eight digits of an extended ID, three of a standard one.
fn put_line_id(out: &mut [u8], at: usize, r: Record) -> usize
    requires { (r.extended ≤ 1) × (at + length (blank ∷ id_digits r) ≤ length out.old) }
    ensures { Wrote out.old out.new at result (blank ∷ id_digits r) }
{
    let p = put_byte(out, at, b' ');
    put_hex(out, p, 3 + 5 * r.extended as usize, r.id, Letters::Small)
}

// Length and bytes.
fn put_line_data(out: &mut [u8], at: usize, r: Record, pairs: &Pairs) -> usize
    requires { (r.len ≤ 8) × (at + length (data_text r) ≤ length out.old) × (pairs.now.letters ≡ Small) }
    ensures { Wrote out.old out.new at result (data_text r) }
{
    let p = put_byte(out, at, b' ');
    let q = put_byte(out, p, b'0' + r.len as u8);
    pairs.put(out, q, r.len, r.data)
}

// ID, length and bytes, and CR LF.
fn put_rest(out: &mut [u8], at: usize, r: Record, pairs: &Pairs) -> usize
    requires { (r.extended ≤ 1) × (r.len ≤ 8) × (at + length (rest_text r) ≤ length out.old) × (pairs.now.letters ≡ Small) }
    ensures { Wrote out.old out.new at result (rest_text r) }
{
    let p = put_line_id(out, at, r);
    let q = put_line_data(out, p, r, pairs);
    put_end(out, q)
}

// What stands after the stamp, and CR LF.
fn put_line_frame(out: &mut [u8], at: usize, channel: u64, r: Record, pairs: &Pairs) -> usize
    requires { (r.extended ≤ 1) × (r.kind ≤ 1) × (r.len ≤ 8) × (at + length (frame_text channel r) ≤ length out.old) × (pairs.now.letters ≡ Small) }
    ensures { Wrote out.old out.new at result (frame_text channel r) }
{
    let p = put_source(out, at, r.extended);
    let q = put_decimal(out, p, channel);
    let s = put_way(out, q, r.extended, r.kind);
    put_rest(out, s, r, pairs)
}

// The bytes of a line beside channel and data bytes: the stamp, ` CAN #`, ` | `, `Rx`, a blank and the ID, a blank and the length, CR LF.
const STANDARD_LINE: usize = 24 + 6 + 3 + 2 + 4 + 2 + 2;

// The same with ` CANExt #` and ` | EXTENDED `, and eight digits of the ID.
const EXTENDED_LINE: usize = 24 + 9 + 12 + 2 + 9 + 2 + 2;

// How many bytes the line of a record on a channel is, whatever its stamp.
pub fn line_length(channel: u64, r: Record) -> usize
    requires { (r.extended ≤ 1) × (channel ≤ last_bus) × (r.len ≤ 8) }
    ensures { ((s : AnyStamp) → result ≡ length (line_text s channel r)) × (result ≤ 86) }
{
    let number = decimal_length(channel);
    let bytes = 3 * r.len as usize;
    if r.extended == 1 {
        return number + bytes + EXTENDED_LINE;
    }
    number + bytes + STANDARD_LINE
}

// Puts the line of a record on a channel at a position, and gives the position after it. Of the stamp it takes the bytes up to the point, and the part; `pairs`
// has the two digits of each byte.
pub fn put_line(
    out: &mut [u8],
    at: usize,
    second: &[u8; 20],
    part: u64,
    channel: u64,
    r: Record,
    pairs: &Pairs,
) -> usize
    requires { (r.extended ≤ 1) × (r.kind ≤ 1) × (r.len ≤ 8) × ((s : AnyStamp) × (at + length (line_text s channel r) ≤ length out.old)) × (pairs.now.letters ≡ Small) }
    ensures { (s : AnyStamp) → StampParts second.now part s → Wrote out.old out.new at result (line_text s channel r) }
{
    let p = put_text(out, at, second);
    let q = put_padded(out, p, 4, part);
    put_line_frame(out, q, channel, r, pairs)
}
