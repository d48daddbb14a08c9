// The help text, and the argument that asks for it.
ghost use Rattle.std.specs.Prelude.{◌≡◌, IsTrue, IfErr, ◌↔◌};
ghost use Rattle.preview.specs.declared.message.Failure.TheVariants.{Unwritten};
ghost use Rattle.preview.specs.Help.{HelpAsked};

use crate::message::Failure;

// Whether `--help` is the only argument. The name of the program is counted too.
pub fn is_asked(count: usize, first: &[u8]) -> bool
    ensures { IsTrue result ↔ HelpAsked count first.now }
{
    count == 2 && first == b"--help".as_slice()
}

pub fn print(rt: &impl Print) -> Result<(), Failure>
    ensures { IfErr result (λ failure. failure ≡ Unwritten) }
{
    rt.print(
        "usage: preview [--counts] FONT R H W < LINES > PICTURE

Paints labels on a panel and writes a picture of it (PBM, kind P4).
FONT is a strike file. R is the words of a row of the panel, 16 dots each, H its rows, W the columns of a strip.

Each line of the input is STRIP X Y MODE TEXT, with one space behind each number:
  STRIP  0 to 31
  X      where the pen starts, in columns from the left of the strip: -1024 to 1023
  Y      the row of the baseline: the first row below the letters' feet, -1024 to 1023
  MODE   0 paints, 1 erases, 2 inverts
  TEXT   up to 64 bytes, to the end of the line
Empty lines, and lines that begin with #, are passed over.

What is wrong with a line, and how many codes of it the font does not have, is said on standard error; the rest is painted all the same.
With --counts the lit dots of each strip are told on standard error, one line a strip.
",
    )
    .map_err(|_| Failure::Unwritten)
}
