// Bytes that a program reads into a lent buffer.
#![tactic(auto)]

ghost use Rattle.std.specs.Prelude.{◌≡◌, ◌≤◌, ◌<◌, false, length, take};
ghost use Rattle.std.specs.Io.KnownBytes.{Consumes, IsAtEnd};

use std::io::Read;

// How far a buffer was filled: so many bytes stand at its start, and whether it was a read that failed that ended there. (No Result: what was
// read before a failure is there, and `read_full` counts it.)
#[derive(Clone, Copy, Debug, PartialEq, Eq)]
pub struct Filled {
    pub size: usize,
    pub failed: bool,
}

// Reads until buf is full, the input ends or a read fails. At the start of buf stand the bytes that the reader gave, in their order, where
// these are known; where there was room for more, and no read failed, the input has ended. (A read that a signal interrupts would count as one
// that fails: the programs handle no signal.)
pub fn fill<R: Read>(reader: &mut R, buf: &mut [u8]) -> Filled
    ensures within { result.size ≤ length buf.new }
    ensures bytes { Consumes (R.remaining reader.old) (R.remaining reader.new) (take result.size buf.new) }
    ensures ended { result.failed ≡ false → result.size < length buf.new → IsAtEnd (R.remaining reader.new) }
{
    let mut done = 0;
    // not a `for`: each read brings as many bytes as it has
    while done < buf.len() {
        let Ok(n) = reader.read(&mut buf[done..]) else {
            return Filled {
                size: done,
                failed: true,
            };
        };
        if n == 0 {
            break;
        }
        done += n;
    }
    Filled {
        size: done,
        failed: false,
    }
}

// The same, where a failed read counts as the end of the input: hands back how many bytes were put at the start of buf.
pub fn read_full<R: Read>(reader: &mut R, buf: &mut [u8]) -> usize
    ensures within { result ≤ length buf.new }
    ensures bytes { Consumes (R.remaining reader.old) (R.remaining reader.new) (take result buf.new) }
{
    fill(reader, buf).size
}
