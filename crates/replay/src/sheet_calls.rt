// The calls on sheets: fresh, gather, join, apply.
ghost use Rattle.std.specs.Prelude.{◌≡◌};
ghost use Rattle.words.specs.Refusal.{returned};
ghost use Rattle.sheets.specs.Sheet.{fresh_number, fresh_after, gather_reply, gather_after};
ghost use Rattle.replay.specs.Text.{Puts};
ghost use Rattle.paint.specs.Label.{call_of};
ghost use Rattle.replay.specs.Answers.{refusal_bytes, fresh_answer, gather_answer, join_answer, apply_answer};
ghost use Rattle.replay.specs.Answers.{sheet_in, slices_of, sheet_number, with_sheet_number};
ghost use Rattle.replay.specs.Answers.{registers_freshened, registers_gathered, registers_joined, registers_applied};

use crate::label_calls::{label, put_reply, shape, text};
use crate::list::Line;
use crate::registers::{Registers, Slices};
use crate::text::Output;
use paint::{Label, Reply, Shape};
use words::Refusal;

// The number of a refusal; 0 where there is none.
fn number(outcome: Result<(), Refusal>) -> u32
    ensures { result ≡ returned outcome }
{
    match outcome {
        Ok(()) => 0,
        Err(refusal) => refusal.number(),
    }
}

// The whole answer of a call that answers the number alone.
pub fn put_outcome(word: &[u8], outcome: Result<(), Refusal>, output: &mut Output<impl Print>)
    ensures { Puts output (refusal_bytes word.now (returned outcome)) }
{
    output.put_all(word);
    output.put_number(number(outcome));
    output.put(b'\n');
}

impl Slices {
    fn freshen(&mut self, s: Shape) -> Result<(), Refusal>
        ensures value { returned result ≡ fresh_number s (sheet_in self.old) }
        ensures slices { self.new ≡ slices_of (fresh_after s (sheet_in self.old)) }
    {
        let keep = self.keep.as_mut_slice();
        let flip = self.flip.as_mut_slice();
        sheets::fresh(s, keep, flip)
    }

    fn gather(&mut self, font: &[u16], s: Shape, l: Label, text: &[u8]) -> Reply
        ensures value { result ≡ gather_reply s (call_of font.now l text.now) (sheet_in self.old) }
        ensures slices { self.new ≡ slices_of (gather_after s (call_of font.now l text.now) (sheet_in self.old)) }
    {
        let keep = self.keep.as_mut_slice();
        let flip = self.flip.as_mut_slice();
        sheets::gather(font, s, l, text, keep, flip)
    }
}

// Makes sheet `number` fresh. A sheet is chosen where it is altered: no contract says what becomes of a part that a function hands on.
#[tactic(auto, unfolding(crate::specs::Registers::chosen, crate::specs::Answers::with_sheet_number))]
fn fresh_sheet(number: u32, s: Shape, registers: &mut Registers) -> Result<(), Refusal>
    ensures value { returned result ≡ fresh_number s (sheet_number number registers.old) }
    ensures registers { registers.new ≡ with_sheet_number number (fresh_after s (sheet_number number registers.old)) registers.old }
{
    match number {
        2 => registers.two.freshen(s),
        _ => registers.one.freshen(s),
    }
}

pub fn fresh(line: &Line, registers: &mut Registers, output: &mut Output<impl Print>)
    ensures puts { Puts output (fresh_answer line.now registers.old) }
    ensures registers { registers.new ≡ registers_freshened line.now registers.old }
{
    let outcome = fresh_sheet(line.number(0), shape(line, 1), registers);
    put_outcome(b"fresh", outcome, output);
}

// Joins a label's effect onto sheet `number`.
#[tactic(auto, unfolding(crate::specs::Registers::chosen, crate::specs::Answers::with_sheet_number))]
fn gather_sheet(number: u32, s: Shape, l: Label, text: &[u8], registers: &mut Registers) -> Reply
    ensures value { result ≡ gather_reply s (call_of registers.old.font.items l text.now) (sheet_number number registers.old) }
    ensures registers { registers.new ≡ with_sheet_number number
        (gather_after s (call_of registers.old.font.items l text.now) (sheet_number number registers.old)) registers.old }
{
    let font = registers.font.as_slice();
    match number {
        2 => registers.two.gather(font, s, l, text),
        _ => registers.one.gather(font, s, l, text),
    }
}

pub fn gather(line: &Line, registers: &mut Registers, output: &mut Output<impl Print>)
    ensures puts { Puts output (gather_answer line.now registers.old) }
    ensures registers { registers.new ≡ registers_gathered line.now registers.old }
{
    let text = text(line);
    let reply = gather_sheet(
        line.number(0),
        shape(line, 1),
        label(line, 4),
        text.as_slice(),
        registers,
    );
    put_reply(b"gather", reply, output);
}

// Joins sheet 2 onto sheet 1.
pub fn join(line: &Line, registers: &mut Registers, output: &mut Output<impl Print>)
    ensures puts { Puts output (join_answer line.now registers.old) }
    ensures registers { registers.new ≡ registers_joined line.now registers.old }
{
    let keep = registers.one.keep.as_mut_slice();
    let flip = registers.one.flip.as_mut_slice();
    let outcome = sheets::join(
        shape(line, 0),
        keep,
        flip,
        registers.two.keep.as_slice(),
        registers.two.flip.as_slice(),
    );
    put_outcome(b"join", outcome, output);
}

pub fn apply(line: &Line, registers: &mut Registers, output: &mut Output<impl Print>)
    ensures puts { Puts output (apply_answer line.now registers.old) }
    ensures registers { registers.new ≡ registers_applied line.now registers.old }
{
    let sheet = Slices::chosen(line.number(0), &registers.one, &registers.two);
    let panel = registers.panel.as_mut_slice();
    let outcome = sheets::apply(
        shape(line, 1),
        sheet.keep.as_slice(),
        sheet.flip.as_slice(),
        panel,
    );
    put_outcome(b"apply", outcome, output);
}
