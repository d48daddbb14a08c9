// The calls that measure and paint a label: measure, paint.
ghost use Rattle.std.specs.Prelude.{◌≡◌, map, take};
ghost use Rattle.replay.specs.Registers.{low_byte};
ghost use Rattle.replay.specs.Text.{Puts};
ghost use Rattle.replay.specs.Calls.{shape_of, label_of, text_of, reply_bytes, numbers_bytes};
ghost use Rattle.replay.specs.Answers.{measure_answer, paint_answer, registers_painted};

use crate::list::Line;
use crate::registers::Registers;
use crate::text::Output;
use arrayvec::ArrayVec;
use paint::{Label, Reply, Shape};

// The whole answer of a call on a label.
pub fn put_reply(word: &[u8], reply: Reply, output: &mut Output<impl Print>)
    ensures { Puts output (reply_bytes word.now reply) }
{
    match reply {
        Ok(finish) => put_numbers(word, 0, finish.pen, finish.substitutes, output),
        Err(refusal) => put_numbers(word, refusal.number(), 0, 0, output),
    }
}

fn put_numbers(
    word: &[u8],
    number: u32,
    pen: i32,
    substitutes: u32,
    output: &mut Output<impl Print>,
)
    ensures { Puts output (numbers_bytes word.now number pen substitutes) }
{
    output.put_all(word);
    output.put_number(number);
    output.put_number(pen);
    output.put_number(substitutes);
    output.put(b'\n');
}

// The shape of a panel, from the numbers of a line, the first of them number `first`.
#[tactic(auto, unfolding(crate::specs::Calls::shape_of))]
pub fn shape(line: &Line, first: usize) -> Shape
    ensures { result ≡ shape_of line.now first }
{
    let k = first.min(5);
    Shape {
        rowwords: line.number(k),
        rows: line.number(k + 1),
        width: line.number(k + 2),
    }
}

// Where a label goes, from the numbers of a line, the first of them number `first`.
#[tactic(auto, unfolding(crate::specs::Calls::label_of))]
pub fn label(line: &Line, first: usize) -> Label
    ensures { result ≡ label_of line.now first }
{
    let k = first.min(4);
    Label {
        strip: line.number(k),
        x: line.signed(k + 1),
        y: line.signed(k + 2),
        mode: line.number(k + 3),
    }
}

// The bytes of a label, which are a line's values.
pub fn text(line: &Line) -> ArrayVec<u8, 1_000>
    ensures { result.items ≡ text_of line.now }
{
    bytes(line.values.as_slice())
}

// The bytes that words stand for, the first N.
fn bytes<const N: usize>(words: &[u16]) -> ArrayVec<u8, N>
    ensures { result.items ≡ map low_byte (take N words.now) }
{
    let mut bytes = ArrayVec::new();
    for &word in words::part(words, 0, N) {
        bytes.push((word % 256) as u8);
    }
    bytes
}

pub fn measure(line: &Line, font: &[u16], output: &mut Output<impl Print>)
    ensures { Puts output (measure_answer line.now font.now) }
{
    let text = text(line);
    let reply = paint::measure(font, line.signed(0), text.as_slice());
    put_reply(b"measure", reply, output);
}

pub fn paint(line: &Line, registers: &mut Registers, output: &mut Output<impl Print>)
    ensures puts { Puts output (paint_answer line.now registers.old) }
    ensures registers { registers.new ≡ registers_painted line.now registers.old }
{
    let text = text(line);
    let panel = registers.panel.as_mut_slice();
    let reply = paint::paint(
        registers.font.as_slice(),
        shape(line, 0),
        label(line, 3),
        text.as_slice(),
        panel,
    );
    put_reply(b"paint", reply, output);
}
