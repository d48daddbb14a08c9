// The lit dots of the strips, and the argument that asks for them.
ghost use Rattle.std.specs.Prelude.{IsTrue, ◌↔◌};
ghost use Rattle.preview.specs.Tell.{CountsAsked};

use crate::message::say;

// Whether `--counts` is the first of five arguments. The name of the program is counted too.
pub fn is_asked(count: usize, first: &[u8]) -> bool
    ensures { IsTrue result ↔ CountsAsked count first.now }
{
    count == 6 && first == b"--counts".as_slice()
}

// One line a strip.
pub fn print(rt: &impl Eprint, counts: [u32; 32]) {
    for (strip, lit) in counts.iter().enumerate() {
        say(rt, format_args!("strip {strip}: {lit} lit"));
    }
}
