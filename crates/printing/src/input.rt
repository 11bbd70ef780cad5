// The bytes of an input, read into lent bytes.
ghost use Rattle.std.specs.Prelude.{◌≡◌, ◌<◌, length, take, IfOk, IfErr};
ghost use Rattle.std.specs.Io.KnownBytes.{Consumes, IsAtEnd};
ghost use Rattle.printing.specs.Laid.{IsPrefixLen};

use std::io;
use std::io::Read;

// Reads until the bytes are full or the input ends; how many came.
pub fn read_full<R: Read>(input: &mut R, bytes: &mut [u8]) -> io::Result<usize>
    ensures after_an_error { IfErr result (λ e. length bytes.new ≡ length bytes.old) }
    ensures counts { IfOk result (λ n. IsPrefixLen n bytes.new) }
    ensures next_ones { IfOk result (λ n. Consumes (R.remaining input.old) (R.remaining input.new) (take n bytes.new)) }
    ensures all_there_are { IfOk result (λ n. n < length bytes.new → IsAtEnd (R.remaining input.new)) }
{
    let mut done = 0;
    while done < bytes.len() {
        let n = input.read(&mut bytes[done..])?;
        if n == 0 {
            return Ok(done);
        }
        done += n;
    }
    Ok(done)
}
