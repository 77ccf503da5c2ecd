// What stands after the stamp of a line: a gap and a part for each column. Each is read in its turn, and hands what is known to the next.
ghost use Rattle.std.specs.Prelude.{◌≡◌, ◌^◌, ◌≤◌, ◌<◌, length, drop};
ghost use Rattle.fields.specs.Runs.{All};
ghost use Rattle.fields.specs.inner.Window.{Lined, Solid, Starts, Takes};
ghost use Rattle.ascii_line_reader.specs.inner.Columns.{TypePart, ChannelNumber, ChannelPart, DirectionPart, IdPart};
ghost use Rattle.ascii_line_reader.specs.inner.Frame.{FromType, ChannelOf, BarOf, ExtendedOf, DirectionOf, IdOf, LengthOf, DataOf, Leads};

use crate::FrameRead;
use digits::HexDigits;
use fields::{
    Next, Scan, WINDOW, after_gap, at_end, bus_field, byte_field, ends, hex_field, length_field,
    type_field,
};
use record::Record;
use row::FIRST_PLACE;

// The bytes of a word that is spelled exactly.
fn keyword(w: &[u8; WINDOW], at: usize, word: &[u8]) -> Option<Scan>
    requires { Starts w.now at × All Solid word.now × (0 < length word.now) }
    ensures { Takes (λ v f. f ≡ word.now) w.now at result }
{
    let bytes: &[u8] = w;
    for (i, b) in word.iter().enumerate() {
        if bytes[at + i] != *b {
            return None;
        }
    }
    let end = at + word.len();
    if !ends(bytes[end]) {
        return None;
    }
    Some(Scan { end, value: 0 })
}

// `CAN` or `CANExt`.
fn type_part(w: &[u8; WINDOW], at: usize) -> Option<Scan>
    requires { Starts w.now at }
    ensures { Takes TypePart w.now at result }
{
    if let Some(s) = keyword(w, at, b"CAN") {
        return Some(Scan {
            end: s.end,
            value: 0,
        });
    }
    let t = keyword(w, at, b"CANExt")?;
    Some(Scan {
        end: t.end,
        value: 1,
    })
}

// The channel: a lone 0, or that of a bus.
fn channel_number(w: &[u8; WINDOW], at: usize) -> Option<Scan>
    requires { Starts w.now at }
    ensures { Takes ChannelNumber w.now at result }
{
    let bytes: &[u8] = w;
    if bytes[at] != b'0' {
        return bus_field(w, at);
    }
    if !ends(bytes[at + 1]) {
        return None;
    }
    Some(Scan {
        end: at + 1,
        value: 0,
    })
}

// `#` and the channel.
fn channel_part(w: &[u8; WINDOW], at: usize) -> Option<Scan>
    requires { Starts w.now at }
    ensures { Takes ChannelPart w.now at result }
{
    let bytes: &[u8] = w;
    if bytes[at] != b'#' {
        return None;
    }
    if ends(bytes[at + 1]) {
        return None;
    }
    channel_number(w, at + 1)
}

// `Rx` or `Tx`.
fn direction_part(w: &[u8; WINDOW], at: usize) -> Option<Scan>
    requires { Starts w.now at }
    ensures { Takes DirectionPart w.now at result }
{
    let s = type_field(w, at)?;
    if 1 < s.value {
        return None;
    }
    Some(s)
}

// The ID: three digits, or eight of an extended one.
fn id_part(w: &[u8; WINDOW], at: usize, hex: &HexDigits, extended: u64) -> Option<Scan>
    requires { Starts w.now at × (extended ≤ 1) }
    ensures { Takes (IdPart extended) w.now at result }
{
    let s = hex_field(w, at, hex)?;
    let e = s.end;
    if e - at != 3 + 5 * extended as usize {
        return None;
    }
    if 0x7FF + 0x1FFF_F800 * extended < s.value {
        return None;
    }
    Some(s)
}

// From the type on.
pub fn frame_type(w: &[u8; WINDOW], at: usize, hex: &HexDigits) -> Option<FrameRead>
    requires { Lined (drop at w.now) }
    ensures { Leads FromType w.now at result }
{
    let Next::Field(a) = after_gap(w, at) else {
        return None;
    };
    let s = type_part(w, a)?;
    frame_channel(w, s.end, hex, s.value)
}

// From the channel on.
fn frame_channel(w: &[u8; WINDOW], at: usize, hex: &HexDigits, extended: u64) -> Option<FrameRead>
    requires { Lined (drop at w.now) × (extended ≤ 1) }
    ensures { Leads (ChannelOf extended) w.now at result }
{
    let Next::Field(a) = after_gap(w, at) else {
        return None;
    };
    let s = channel_part(w, a)?;
    frame_bar(w, s.end, hex, extended, s.value)
}

// From the bar on.
fn frame_bar(
    w: &[u8; WINDOW],
    at: usize,
    hex: &HexDigits,
    extended: u64,
    bus: u64,
) -> Option<FrameRead>
    requires { Lined (drop at w.now) × (extended ≤ 1) }
    ensures { Leads (BarOf extended bus) w.now at result }
{
    let Next::Field(a) = after_gap(w, at) else {
        return None;
    };
    let s = keyword(w, a, b"|")?;
    frame_extended(w, s.end, hex, extended, bus)
}

// From `EXTENDED` on.
fn frame_extended(
    w: &[u8; WINDOW],
    at: usize,
    hex: &HexDigits,
    extended: u64,
    bus: u64,
) -> Option<FrameRead>
    requires { Lined (drop at w.now) × (extended ≤ 1) }
    ensures { Leads (ExtendedOf extended bus) w.now at result }
{
    if extended == 0 {
        return frame_direction(w, at, hex, extended, bus);
    }
    let Next::Field(a) = after_gap(w, at) else {
        return None;
    };
    let s = keyword(w, a, b"EXTENDED")?;
    frame_direction(w, s.end, hex, extended, bus)
}

// From the direction on.
fn frame_direction(
    w: &[u8; WINDOW],
    at: usize,
    hex: &HexDigits,
    extended: u64,
    bus: u64,
) -> Option<FrameRead>
    requires { Lined (drop at w.now) × (extended ≤ 1) }
    ensures { Leads (DirectionOf extended bus) w.now at result }
{
    let Next::Field(a) = after_gap(w, at) else {
        return None;
    };
    let s = direction_part(w, a)?;
    frame_id(w, s.end, hex, extended, bus, s.value)
}

// From the ID on.
fn frame_id(
    w: &[u8; WINDOW],
    at: usize,
    hex: &HexDigits,
    extended: u64,
    bus: u64,
    kind: u64,
) -> Option<FrameRead>
    requires { Lined (drop at w.now) × (extended ≤ 1) }
    ensures { Leads (IdOf extended bus kind) w.now at result }
{
    let Next::Field(a) = after_gap(w, at) else {
        return None;
    };
    let s = id_part(w, a, hex, extended)?;
    frame_length(w, s.end, hex, extended, bus, kind, s.value)
}

// From the length on.
fn frame_length(
    w: &[u8; WINDOW],
    at: usize,
    hex: &HexDigits,
    extended: u64,
    bus: u64,
    kind: u64,
    id: u64,
) -> Option<FrameRead>
    requires { Lined (drop at w.now) }
    ensures { Leads (LengthOf extended bus kind id) w.now at result }
{
    let Next::Field(a) = after_gap(w, at) else {
        return None;
    };
    let s = length_field(w, a)?;
    frame_data(w, s.end, hex, extended, bus, kind, id, s.value)
}

// The data bytes, as many as the length says, to the end of the line.
fn frame_data(
    w: &[u8; WINDOW],
    at: usize,
    hex: &HexDigits,
    extended: u64,
    bus: u64,
    kind: u64,
    id: u64,
    len: u64,
) -> Option<FrameRead>
    requires { Lined (drop at w.now) }
    ensures { Leads (DataOf extended bus kind id len (256 ^ 7) len 0) w.now at result }
{
    let mut e = at;
    let mut place: u64 = FIRST_PLACE;
    let mut data: u64 = 0;
    for _ in 0..len {
        let Next::Field(a) = after_gap(w, e) else {
            return None;
        };
        let s = byte_field(w, a, hex)?;
        data += s.value * place;
        place /= 256;
        e = s.end;
    }
    if !at_end(w, e) {
        return None;
    }
    Some(FrameRead {
        end: e,
        r: Record {
            offset: 0,
            bus,
            kind,
            extended,
            id,
            len,
            data,
        },
    })
}
