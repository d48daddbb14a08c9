// Reads a CU file on standard input and writes its KernedStrike file on standard output, and nothing else there.
#![tactic(auto)]

ghost use Rattle.std.specs.Prelude.{◌≡◌, ◌≤◌, ◌++◌, length, drop, IfOk, Some};
ghost use Rattle.reading.specs.Counts.{IsPrefixLen};
ghost use Rattle.words.specs.Word.{words_of};
ghost use Rattle.words.specs.Refusal.{returned};
ghost use Rattle.convert.specs.Conversion.{conversion_of, output_after, bytes_number, program_number, program_output, Tells};
ghost use Rattle.cu2ks.specs.Program.{answer_of};
ghost use Rattle.cu2ks.specs.Failure.{said};

use reading::{BYTES, ReadFailed};
use std::fmt;
use std::io::Read;
use words::Refusal;

// The most bytes of a CU file.
const FILE: usize = 65_536;

// The words of these.
const CU: usize = 32_768;

// The words that the output holds.
const OUT: usize = 32_768;

// The bytes of these.
const PRINTED: usize = 65_536;

// Why there is no file, or a part of one.
#[derive(Clone, Copy, Debug)]
enum Failure {
    Refused(Refusal),
    Unread(ReadFailed),
    Unwritten,
}

impl fmt::Display for Failure {
    ghost output = { λ failure. Some (said failure) };

    fn fmt<W: fmt::Write>(&self, f: &mut fmt::Formatter<W>) -> fmt::Result {
        match self {
            Failure::Refused(refusal) => {
                let number = refusal.number();
                write!(f, "refused {number}")
            }
            Failure::Unread(failed) => write!(f, "{failed}"),
            Failure::Unwritten => f.write_str("write failed"),
        }
    }
}

impl From<Refusal> for Failure {
    fn from(refusal: Refusal) -> Failure {
        Failure::Refused(refusal)
    }
}

impl From<ReadFailed> for Failure {
    fn from(failed: ReadFailed) -> Failure {
        Failure::Unread(failed)
    }
}

// What the number of bytes is refused for, before a word is made of them.
fn check_bytes(bytes: &[u8]) -> Result<(), Refusal>
    ensures { returned result ≡ bytes_number bytes.now }
{
    if FILE < bytes.len() {
        return Err(Refusal::CuCutShort);
    }
    if words::odd_bytes(bytes) {
        return Err(Refusal::OddBytes);
    }
    Ok(())
}

fn converted(bytes: &[u8], out: &mut [u16]) -> Result<usize, Refusal>
    requires { length bytes.now ≤ 65536 }
    ensures value { result ≡ conversion_of (words_of bytes.now) (length out.old) }
    ensures out { out.new ≡ output_after (words_of bytes.now) out.old }
    ensures numbers { Tells result (words_of bytes.now) (length out.old) }
{
    let mut cu = [0u16; CU];
    let n = words::from_bytes(bytes, &mut cu);
    convert::convert(&cu[..n], out)
}

// The whole program but its reading and writing: what it prints comes to stand first in `printed`, whose rest stays.
fn program(bytes: &[u8], printed: &mut [u8; PRINTED]) -> Result<usize, Refusal>
    ensures value { result ≡ answer_of bytes.now }
    ensures printed { printed.new ≡ program_output bytes.now ++ drop (length (program_output bytes.now)) printed.old }
    ensures room { IfOk result (λ count. IsPrefixLen count printed.new) }
    ensures number { returned result ≡ program_number bytes.now }
{
    check_bytes(bytes)?;
    let mut out = [0u16; OUT];
    let words = converted(bytes, &mut out)?;
    Ok(words::to_bytes(&out[..words], printed))
}

// Reads the input, and writes the file of it.
fn run(rt: &impl Print, from: &mut impl Read) -> Result<(), Failure> {
    let mut space = [0u8; BYTES];
    let n = reading::read(from, &mut space)?;
    let mut printed = [0u8; PRINTED];
    let count = program(&space[..n], &mut printed)?;
    rt.write_all(&printed[..count])
        .map_err(|_| Failure::Unwritten)
}

// Where a failure cannot be said on standard error either, there is nowhere left to say so.
fn main(rt: HostRuntime) {
    if let Err(failure) = run(&rt, &mut rt.stdin()) {
        let _ = eprintln!(rt; "{failure}");
    }
}
