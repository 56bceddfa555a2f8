// The whole input of a test program.
ghost use Rattle.std.specs.Io.{ReadsAtMost};

use std::io;
use std::io::Read;

// Reads until `room` is full or the input ends, and answers how many bytes it put at the start of `room`; an error where a
// read fails. In an empty room it makes no call.
pub fn read_full(reader: &mut impl Read, room: &mut [u8]) -> io::Result<usize>
    ensures { ReadsAtMost result room.new }
{
    // No `for`: each read says itself how much it took.
    let mut done = 0;
    while done < room.len() {
        let n = reader.read(&mut room[done..])?;
        if n == 0 {
            break;
        }
        done += n;
    }
    Ok(done)
}
