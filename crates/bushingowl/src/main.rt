// The bench program: one trace from standard input, its ASCII export or its refusal to standard output.
#![tactic(auto)]

ghost use Rattle.std.specs.Prelude.{◌≤◌, ◌<◌, ◌≡◌, length, take, IfOk};
ghost use Rattle.std.specs.Io.{ReadsAtMost};
ghost use Rattle.std.specs.Io.KnownBytes.{Consumes, IsAtEnd};
ghost use Rattle.convert.specs.Promise.{input_limit, records_room, page_room, Prints};

use convert::{INPUT_LIMIT, convert, taken};
use std::io;
use std::io::Read;

// One byte more than the most that an input may have.
const SPACE: usize = INPUT_LIMIT + 1;

// Room for the records and for the lines of every input.
const RECORDS: usize = 72_800;

const PAGE: usize = 313_040;

fn input_space() -> [u8; SPACE]
    ensures { input_limit < length result }
{
    [0; SPACE]
}

fn records_space() -> [u8; RECORDS]
    ensures { records_room ≡ length result }
{
    [0; RECORDS]
}

fn page_space() -> [u8; PAGE]
    ensures { page_room ≡ length result }
{
    [0; PAGE]
}

// Takes a reader into a space with room for more than an input may have: so what fills the space is too long, and no first part of it is
// taken for a whole trace.
fn input_taken<R: Read>(from: &mut R, space: &mut [u8]) -> io::Result<usize>
    requires { input_limit < length space.old }
    ensures bound { ReadsAtMost result space.new }
    ensures bytes { IfOk result (λ n. Consumes (R.remaining from.old) (R.remaining from.new) (take n space.new)) }
    ensures whole { IfOk result (λ n. n < length space.new → IsAtEnd (R.remaining from.new)) }
{
    taken(from, space)
}

// Puts what is to be printed for an input at the start of the page, which has room for it, and gives its length.
fn paged(input: &[u8], records: &mut [u8], page: &mut [u8]) -> usize
    requires { (records_room ≤ length records.old) × (page_room ≤ length page.old) }
    ensures within { result ≤ length page.new }
    ensures prints { Prints input.now (take result page.new) }
{
    // with the rooms that are required there is always something to print
    convert(input, records, page).unwrap_or(0)
}

// Prints the first n bytes of a page, all of them or with an error.
fn print(rt: &impl Print, page: &[u8], n: usize) -> io::Result<()>
    requires { n ≤ length page.now }
{
    rt.write_all(&page[0..n])
}

// Whether a reader can't be read, as one that fails before its end. At its end a read gives 0.
fn failed(from: &mut impl Read) -> bool {
    let mut more = [0u8; 1];
    from.read(&mut more).is_err()
}

fn unread(rt: &impl Eprint) -> io::Result<()> {
    rt.eprintln("bushingowl: standard input can't be read")
}

fn main(rt: HostRuntime) -> io::Result<()> {
    let mut input = input_space();
    let mut records = records_space();
    let mut page = page_space();
    let mut stdin = rt.stdin();
    let Ok(got) = input_taken(&mut stdin, &mut input) else {
        return unread(&rt);
    };
    if failed(&mut stdin) {
        return unread(&rt);
    }
    let n = paged(&input[..got], &mut records, &mut page);
    if print(&rt, &page, n).is_err() {
        return rt.eprintln("bushingowl: standard output can't be written");
    }
    Ok(())
}
