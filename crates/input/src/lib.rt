// Reading from a file or from standard input into a buffer of bytes.
#![tactic(auto)]

ghost use Rattle.std.specs.Prelude.{◌≤◌, ◌<◌, length, take, IfOk};
ghost use Rattle.std.specs.Io.KnownBytes.{Consumes, IsAtEnd};

use std::io;
use std::io::Read;

// Reads until `buf` is full or the input ends. The answer is how many bytes were read: they stand at the start of `buf`, as the input had them, and if they do not
// fill it, no more are left. A `while`: `read_exact` fails where the input ends before the buffer is full, and `read_to_end` allocates.
pub fn read_full<R: Read>(input: &mut R, buf: &mut [u8]) -> io::Result<usize>
    ensures within { IfOk result (λ n. n ≤ length buf.new) }
    ensures bytes { IfOk result (λ n. Consumes (R.remaining input.old) (R.remaining input.new) (take n buf.new)) }
    ensures all { IfOk result (λ n. n < length buf.new → IsAtEnd (R.remaining input.new)) }
{
    let mut size = 0;
    while size < buf.len() {
        let got = input.read(&mut buf[size..])?;
        if got == 0 {
            return Ok(size);
        }
        size += got;
    }
    Ok(size)
}
