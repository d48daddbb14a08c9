// Reading: from standard input, a file, and the arguments.
ghost use Rattle.std.specs.Prelude.{◌≡◌, take, IfOk, IfErr};
ghost use Rattle.std.specs.Io.KnownBytes.{Consumes, IsAtEnd};
ghost use Rattle.reading.specs.Counts.{IsPrefixLen, bytes_read};
ghost use Rattle.preview.specs.Lines.{nothing_read};

use reading::{BYTES, ReadFailed};
use std::env::FillError;
use std::io::Read;
use std::rt::{Env, Files};
use std::{fs, str};

// The most bytes that are taken of an argument: no path has more.
pub const ARGUMENT: usize = 4_096;

// A read that failed, and of which no byte is there.
pub fn unread() -> ReadFailed
    ensures { result ≡ nothing_read }
{
    ReadFailed { bytes: 0 }
}

// The first bytes of a buffer. A callee that takes the array needs no proof of its length.
pub fn first_of(bytes: &[u8; BYTES], count: usize) -> &[u8]
    ensures { result.now ≡ take count bytes.now }
{
    &bytes[..count.min(BYTES)]
}

// Reads once from standard input; no bytes where it has ended.
pub fn read_some<R: Read>(from: &mut R, bytes: &mut [u8; BYTES]) -> Result<usize, ReadFailed>
    ensures prefix_len { IsPrefixLen (bytes_read result) bytes.new }
    ensures failed { IfErr result (λ failed. failed.bytes ≡ 0) }
    ensures taken { Consumes (R.remaining from.old) (R.remaining from.new) (take (bytes_read result) bytes.new) }
    ensures over { IfOk result (λ count. count ≡ 0 → IsAtEnd (R.remaining from.new)) }
{
    from.read(bytes).map_err(|_| unread())
}

pub fn read_file(rt: &impl Files, path: &[u8], space: &mut [u8; BYTES]) -> Result<usize, ReadFailed>
    ensures { IsPrefixLen (bytes_read result) space.new }
{
    let name = str::from_utf8(path).map_err(|_| unread())?;
    let mut file = fs::open(rt, name).map_err(|_| unread())?;
    reading::read(&mut file, space)
}

// Puts an argument into a buffer, and answers how many bytes it has; none where there is no such argument, or it is too long.
pub fn argument(rt: &impl Env, k: usize, text: &mut [u8; ARGUMENT]) -> usize
    ensures { IsPrefixLen result text.new }
{
    rt.arg(k, text).unwrap_or(0)
}

// How many arguments there are. The name of the program is counted too.
pub fn argument_count(rt: &impl Env) -> usize {
    let mut byte = [0u8; 1];
    for k in 0..usize::MAX {
        if let Err(FillError::NotPresent) = rt.arg(k, &mut byte) {
            return k;
        }
    }
    usize::MAX
}
