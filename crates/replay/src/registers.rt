// The registers of a list, each with room for the most that it may hold.
ghost use Rattle.std.specs.Prelude.{◌≡◌, map, take};
ghost use Rattle.replay.specs.Text.{Puts};
ghost use Rattle.replay.specs.Answers.{words_of, digits_of, register_bytes, show_answer};
ghost use Rattle.replay.specs.Registers.{nothing_held, no_slices, low_byte, chosen, registers_with, registers_written, registers_reading};

use crate::names::Register;
use crate::text::{Digits, Output};
use arrayvec::ArrayVec;

// The two slices of a sheet.
#[derive(Drop)]
pub struct Slices {
    pub keep: ArrayVec<u16, 40_000>,
    pub flip: ArrayVec<u16, 40_000>,
}

#[derive(Drop)]
pub struct Registers {
    pub font: ArrayVec<u16, 70_000>,
    pub cu: ArrayVec<u16, 530_000>,
    pub panel: ArrayVec<u16, 40_000>,
    pub out: ArrayVec<u16, 70_000>,
    pub one: Slices,
    pub two: Slices,
    // Bytes, each in a word of its own.
    pub file: ArrayVec<u16, 140_000>,
    pub counts: ArrayVec<u16, 64>,
    // The words that the last conversion wrote.
    pub written: ArrayVec<u16, 70_000>,
}

// Makes these words the register, as far as it has room. Words that stay within what it held are written over those: a register that is
// emptied first is filled with zeros.
fn set<const N: usize>(register: &mut ArrayVec<u16, N>, words: &[u16])
    ensures { register.new.items ≡ take N words.now }
{
    let words = words::part(words, 0, N);
    register.truncate(words.len());
    let there = register.len();
    register.as_mut_slice().copy_from_slice(&words[..there]);
    let _ = register.try_extend_from_slice(&words[there..]);
}

// The same of words that stand for bytes.
fn set_bytes<const N: usize>(register: &mut ArrayVec<u16, N>, words: &[u16])
    ensures { register.new.items ≡ map low_byte (take N words.now) }
{
    register.clear();
    for &word in words::part(words, 0, N) {
        register.push(word % 256);
    }
}

// How many digits the words of a register have.
#[tactic(auto, unfolding(crate::specs::Answers::digits_of))]
fn digits(register: Register) -> Digits
    ensures { result ≡ digits_of register }
{
    match register {
        Register::File => Digits::Two,
        _ => Digits::Four,
    }
}

impl Slices {
    fn empty() -> Slices
        ensures { result ≡ no_slices }
    {
        Slices {
            keep: ArrayVec::new(),
            flip: ArrayVec::new(),
        }
    }

    // The sheet of that number, 1 or 2.
    #[tactic(auto, unfolding(crate::specs::Registers::chosen))]
    pub fn chosen<'a>(number: u32, one: &'a Slices, two: &'a Slices) -> &'a Slices
        ensures { result.now ≡ chosen number one.now two.now }
    {
        if number == 2 { two } else { one }
    }
}

impl Registers {
    pub fn empty() -> Registers
        ensures { result ≡ nothing_held }
    {
        Registers {
            font: ArrayVec::new(),
            cu: ArrayVec::new(),
            panel: ArrayVec::new(),
            out: ArrayVec::new(),
            one: Slices::empty(),
            two: Slices::empty(),
            file: ArrayVec::new(),
            counts: ArrayVec::new(),
            written: ArrayVec::new(),
        }
    }

    #[tactic(auto, unfolding(crate::specs::Registers::registers_with))]
    pub fn set(&mut self, register: Register, values: &[u16])
        ensures { self.new ≡ registers_with register values.now self.old }
    {
        match register {
            Register::Font => set(&mut self.font, values),
            Register::Cu => set(&mut self.cu, values),
            Register::Panel => set(&mut self.panel, values),
            Register::Out => set(&mut self.out, values),
            Register::Keep1 => set(&mut self.one.keep, values),
            Register::Flip1 => set(&mut self.one.flip, values),
            Register::Keep2 => set(&mut self.two.keep, values),
            Register::Flip2 => set(&mut self.two.flip, values),
            Register::File => set_bytes(&mut self.file, values),
            Register::Counts => set(&mut self.counts, values),
        }
    }

    #[tactic(auto, unfolding(crate::specs::Answers::words_of))]
    fn words(&self, register: Register) -> &[u16]
        ensures { result.now ≡ words_of register self.now }
    {
        match register {
            Register::Font => self.font.as_slice(),
            Register::Cu => self.cu.as_slice(),
            Register::Panel => self.panel.as_slice(),
            Register::Out => self.out.as_slice(),
            Register::Keep1 => self.one.keep.as_slice(),
            Register::Flip1 => self.one.flip.as_slice(),
            Register::Keep2 => self.two.keep.as_slice(),
            Register::Flip2 => self.two.flip.as_slice(),
            Register::File => self.file.as_slice(),
            Register::Counts => self.counts.as_slice(),
        }
    }

    // What a register holds, where the name is one's.
    fn put_words(&self, register: Option<Register>, output: &mut Output<impl Print>)
        ensures { Puts output (register_bytes register self.now) }
    {
        match register {
            Some(register) => output.put_list(self.words(register), digits(register)),
            None => {}
        }
    }

    // Shows the register of this name.
    pub fn show(&self, name: u64, output: &mut Output<impl Print>)
        ensures { Puts output (show_answer name self.now) }
    {
        output.put_name(name);
        self.put_words(Register::named(name), output);
        output.put(b'\n');
    }

    // Keeps the words that a conversion wrote, the first `count` of `out`, for `out` may be set before they are asked for.
    pub fn keep_written(&mut self, count: usize)
        ensures { self.new ≡ registers_written count self.old }
    {
        let written = words::part(self.out.as_slice(), 0, count);
        set(&mut self.written, written);
    }

    // Makes the words kept the font.
    pub fn font_from_written(&mut self)
        ensures { self.new ≡ registers_reading self.old }
    {
        set(&mut self.font, self.written.as_slice());
    }
}
