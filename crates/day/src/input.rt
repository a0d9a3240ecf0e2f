// Input into lent bytes.
ghost use Rattle.std.specs.Prelude.{IfOk};
ghost use Rattle.day.specs.Text.{IsPrefixLen};

use std::io;
use std::io::Read;

// Reads until `to` is full or the input ends, and gives how many bytes it put at the start of `to`. The library's readers fail at the end, or allocate.
pub fn read_full<R: Read>(input: &mut R, to: &mut [u8]) -> io::Result<usize>
    ensures { IfOk result (λ n. IsPrefixLen n to.new) }
{
    let mut done = 0;
    while done < to.len() {
        let count = input.read(&mut to[done..])?;
        if count == 0 {
            return Ok(done);
        }
        done += count;
    }
    Ok(done)
}
