// Answers a written list of calls, read on standard input, as docs/REPLAY.md says.
#![tactic(auto)]

mod convert_calls;
mod count_calls;
mod font_calls;
mod label_calls;
mod list;
mod names;
mod registers;
mod sheet_calls;
mod text;

ghost use Rattle.replay.specs.Text.{Puts};
ghost use Rattle.replay.specs.Answers.{answer_of, Leaves};

use list::{Line, List};
use names::Command;
use registers::Registers;
use std::io;
use text::Output;

// Performs a line.
#[tactic(auto, unfolding(crate::specs::Answers::answer_of, crate::specs::Answers::Leaves, crate::specs::Text::with_bytes))]
fn perform(line: &Line, registers: &mut Registers, output: &mut Output<impl Print>)
    ensures puts { Puts output (answer_of line.now.command line.now registers.old) }
    ensures registers { Leaves line.now.command line.now registers.old registers.new }
{
    match line.command {
        Command::Set(register) => registers.set(register, line.values.as_slice()),
        Command::Show => registers.show(line.name, output),
        Command::Written => registers.font_from_written(),
        Command::Convert => convert_calls::convert(registers, output),
        Command::Check => font_calls::check(registers.font.as_slice(), output),
        Command::Glyph => font_calls::glyph(line, registers.font.as_slice(), output),
        Command::Dots => font_calls::dots(line, registers.font.as_slice(), output),
        Command::Row => font_calls::row(line, registers.font.as_slice(), output),
        Command::Measure => label_calls::measure(line, registers.font.as_slice(), output),
        Command::Paint => label_calls::paint(line, registers, output),
        Command::PaintLit => count_calls::paint_lit(line, registers, output),
        Command::Fresh => sheet_calls::fresh(line, registers, output),
        Command::Gather => sheet_calls::gather(line, registers, output),
        Command::Join => sheet_calls::join(line, registers, output),
        Command::Apply => sheet_calls::apply(line, registers, output),
        Command::ApplyLit => count_calls::apply_lit(line, registers, output),
        Command::Clear => count_calls::clear(line, registers, output),
        Command::Other => {}
    }
}

// Performs line after line. A proved loop has to end, and nothing says that a list does: no run uses so many turns up.
fn run(rt: &impl Print, bytes: impl io::Read + Drop) {
    let mut list = List::new(bytes);
    let mut line = Line::empty();
    let mut registers = Registers::empty();
    let mut output = Output::new(rt);
    for _ in 0..u64::MAX {
        if list.next_line(&mut line).is_none() {
            break;
        }
        perform(&line, &mut registers, &mut output);
    }
    output.flush();
}

fn main(rt: HostRuntime) {
    run(&rt, rt.stdin());
}
