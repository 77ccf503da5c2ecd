// The bytes of an input, taken into a lent space.
ghost use Rattle.std.specs.Prelude.{◌<◌, length, take, IfOk};
ghost use Rattle.std.specs.Io.{ReadsAtMost};
ghost use Rattle.std.specs.Io.KnownBytes.{Consumes, IsAtEnd};

use std::io;
use std::io::Read;

// Takes a reader into a space until that is full or the input ends, and gives how many bytes were read. In a space with room for more than an
// input may have, what fills the space is too long, and no first part of it is taken for the whole.
pub fn taken<R: Read>(from: &mut R, space: &mut [u8]) -> io::Result<usize>
    ensures bound { ReadsAtMost result space.new }
    ensures bytes { IfOk result (λ n. Consumes (R.remaining from.old) (R.remaining from.new) (take n space.new)) }
    ensures whole { IfOk result (λ n. n < length space.new → IsAtEnd (R.remaining from.new)) }
{
    let mut done = 0;
    // `while`: a read gives as many bytes as it likes.
    while done < space.len() {
        let n = from.read(&mut space[done..])?;
        if n == 0 {
            return Ok(done);
        }
        done += n;
    }
    Ok(done)
}
