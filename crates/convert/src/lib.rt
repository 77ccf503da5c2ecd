// The bench program's work: what is to be printed for an input.
#![tactic(auto)]

mod input;

ghost use Rattle.std.specs.Prelude.{length};
ghost use Rattle.base.specs.Refusal.{number_of};
ghost use Rattle.convert.specs.inner.Page.{PutOnPage};
ghost use Rattle.convert.specs.Promise.{refusal_text, ConvertPromise};

use ascii::export;
use base::{Refusal, Refused, put_text};
use digits::{decimal_length, put_decimal};
pub use input::taken;
use trace::read;

// The most bytes of an input.
pub const INPUT_LIMIT: usize = 65_536;

// The channel that bus 0 is printed as.
const BENCH_CHANNEL: u64 = 1;

// The bytes of the line of a refusal beside its two numbers: `refused `, ` at line `, CR LF.
const REFUSAL: usize = 8 + 9 + 2;

// Puts the line of a refusal at the start of the page, if there is room for it, and gives how many bytes it has.
fn put_refusal(page: &mut [u8], refused: Refused) -> Option<usize>
    ensures { PutOnPage (refusal_text (number_of refused.reason) refused.place) page.old result page.new }
{
    let number = refused.reason.number();
    let place = refused.place;
    let size = decimal_length(number) + decimal_length(place) + REFUSAL;
    if page.len() < size {
        return None;
    }
    let p = put_text(page, 0, b"refused ");
    let q = put_decimal(page, p, number);
    let s = put_text(page, q, b" at line ");
    let t = put_decimal(page, s, place);
    Some(put_text(page, t, b"\r\n"))
}

// Puts what is to be printed for an input at the start of the page, and gives how many bytes it has; or none, where what was lent is too short,
// which is no refusal of the input. The bytes lent for records are scratch.
pub fn convert(input: &[u8], records: &mut [u8], page: &mut [u8]) -> Option<usize>
    ensures { ConvertPromise input.now (length records.old) page.old result page.new }
{
    if INPUT_LIMIT < input.len() {
        return put_refusal(page, Refusal::TooLarge.whole());
    }
    match read(input, records) {
        Ok(trace) => {
            let end = 20 * trace.rows as usize;
            match export(trace.start, BENCH_CHANNEL, &records[..end], page) {
                Ok(exported) => Some(exported.bytes),
                // what was read can be exported: only the page can be too short
                Err(_) => None,
            }
        }
        Err(refused) => match refused.reason {
            // the trace is good, and its records have no room
            Refusal::NoRoomForRecords => None,
            _ => put_refusal(page, refused),
        },
    }
}
