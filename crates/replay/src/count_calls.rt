// The calls with counts: paintlit, applylit, clear. Each leaves its counts in their register, a refused one too.
ghost use Rattle.std.specs.Prelude.{◌≡◌, ◌+◌, ◌*◌, ◌/◌, ◌%◌, ◌<◌};
ghost use Rattle.replay.specs.Text.{Puts};
ghost use Rattle.replay.specs.Calls.{count_at, counts_in, count_word, count_words};
ghost use Rattle.replay.specs.Registers.{with_counts};
ghost use Rattle.replay.specs.Answers.{paint_lit_answer, apply_lit_answer, clear_answer};
ghost use Rattle.replay.specs.Answers.{registers_lit, paint_lit, apply_lit, clear_lit};

use crate::label_calls::{label, put_reply, shape, text};
use crate::list::Line;
use crate::names::Register;
use crate::registers::{Registers, Slices};
use crate::sheet_calls::put_outcome;
use crate::text::Output;

// A number of two words, the high one first.
fn joined(high: u16, low: u16) -> u32
    ensures { result ≡ high * 65536 + low }
{
    high as u32 * 65536 + low as u32
}

// Count k of a register's words.
#[tactic(auto, unfolding(crate::specs::Calls::count_at))]
fn count_at(words: &[u16], k: usize) -> u32
    requires { k < 32 }
    ensures { result ≡ count_at words.now k }
{
    joined(
        words::word_at(words, 2 * k),
        words::word_at(words, 2 * k + 1),
    )
}

// The counts that a register's words are.
#[tactic(auto, using(words::proofs::Over::over_turn), unfolding(words::specs::Word::over))]
fn counts_of(words: &[u16]) -> [u32; 32]
    ensures { result ≡ counts_in words.now }
{
    let mut counts = [0; 32];
    for k in 0..32 {
        counts[k] = count_at(words, k);
    }
    counts
}

// Word i of the register that holds these counts.
fn count_word(counts: [u32; 32], i: usize) -> u16
    requires { i < 64 }
    ensures { result ≡ count_word counts i }
{
    let count = counts[i / 2];
    if i % 2 == 0 {
        return (count / 65536) as u16;
    }
    (count % 65536) as u16
}

// The words that counts are.
#[tactic(auto, using(words::proofs::Over::over_turn), unfolding(words::specs::Word::over))]
fn words_of(counts: [u32; 32]) -> [u16; 64]
    ensures { result ≡ count_words counts }
{
    let mut words = [0; 64];
    for i in 0..64 {
        words[i] = count_word(counts, i);
    }
    words
}

// Makes these counts the register's.
fn keep(counts: [u32; 32], registers: &mut Registers)
    ensures { registers.new ≡ with_counts (count_words counts) registers.old }
{
    registers.set(Register::Counts, &words_of(counts));
}

pub fn paint_lit(line: &Line, registers: &mut Registers, output: &mut Output<impl Print>)
    ensures puts { Puts output (paint_lit_answer line.now registers.old) }
    ensures registers { registers.new ≡ registers_lit (paint_lit line.now registers.old) registers.old }
{
    let text = text(line);
    let counts = counts_of(registers.counts.as_slice());
    let panel = registers.panel.as_mut_slice();
    let painted = counts::paint(
        registers.font.as_slice(),
        shape(line, 0),
        label(line, 3),
        text.as_slice(),
        panel,
        counts,
    );
    put_reply(b"paintlit", painted.reply, output);
    keep(painted.counts, registers);
}

pub fn apply_lit(line: &Line, registers: &mut Registers, output: &mut Output<impl Print>)
    ensures puts { Puts output (apply_lit_answer line.now registers.old) }
    ensures registers { registers.new ≡ registers_lit (apply_lit line.now registers.old) registers.old }
{
    let sheet = Slices::chosen(line.number(0), &registers.one, &registers.two);
    let counts = counts_of(registers.counts.as_slice());
    let panel = registers.panel.as_mut_slice();
    let settled = counts::apply(
        shape(line, 1),
        sheet.keep.as_slice(),
        sheet.flip.as_slice(),
        panel,
        counts,
    );
    put_outcome(b"applylit", settled.reply, output);
    keep(settled.counts, registers);
}

pub fn clear(line: &Line, registers: &mut Registers, output: &mut Output<impl Print>)
    ensures puts { Puts output (clear_answer line.now registers.old) }
    ensures registers { registers.new ≡ registers_lit (clear_lit line.now registers.old) registers.old }
{
    let counts = counts_of(registers.counts.as_slice());
    let panel = registers.panel.as_mut_slice();
    let settled = counts::clear(shape(line, 0), panel, counts);
    put_outcome(b"clear", settled.reply, output);
    keep(settled.counts, registers);
}
