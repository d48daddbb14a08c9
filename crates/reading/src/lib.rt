// Reading an input of bytes that is not too long: what the programs share.
#![tactic(auto)]

ghost use Rattle.std.specs.Prelude.{◌≡◌, ◌<◌, take, IfOk, Some, codes};
ghost use Rattle.std.specs.Io.KnownBytes.{Consumes, IsAtEnd};
ghost use Rattle.reading.specs.Counts.{IsPrefixLen, bytes_read};

use std::error::Error;
use std::fmt;
use std::io::Read;

// The most bytes that are taken of an input, and one more: a longer one is not read to its end.
pub const BYTES: usize = 65_537;

// A read that failed, and how many bytes of a buffer were read before it.
#[derive(Clone, Copy, Debug, PartialEq, Eq)]
pub struct ReadFailed {
    pub bytes: usize,
}

impl fmt::Display for ReadFailed {
    ghost output = { λ _. Some (codes "read failed") };

    fn fmt<W: fmt::Write>(&self, f: &mut fmt::Formatter<W>) -> fmt::Result {
        f.write_str("read failed")
    }
}

impl Error for ReadFailed {}

// Reads until the input ends, there is more of it than is taken, or a read fails. The bytes that are there are the first of the input.
pub fn read<R: Read>(from: &mut R, space: &mut [u8; BYTES]) -> Result<usize, ReadFailed>
    ensures bytes { IsPrefixLen (bytes_read result) space.new }
    ensures taken { Consumes (R.remaining from.old) (R.remaining from.new) (take (bytes_read result) space.new) }
    ensures over { IfOk result (λ bytes. bytes < 65537 → IsAtEnd (R.remaining from.new)) }
{
    let mut at = 0;
    while at < BYTES {
        match from.read(&mut space[at..]) {
            Ok(0) => return Ok(at),
            Ok(count) => at += count,
            Err(_) => return Err(ReadFailed { bytes: at }),
        }
    }
    Ok(at)
}
