// Painting the lines on standard input.
ghost use Rattle.std.specs.Prelude.{◌≡◌, [], ◌∷◌};
ghost use Rattle.preview.specs.Begun.{first_line, next_line, longer_line};
ghost use Rattle.preview.specs.Line.{counted, after_line};
ghost use Rattle.preview.specs.Lines.{Bytes, Painted, first_progress, Taken};

use crate::input::{first_of, read_some, unread};
use crate::label::{LONGEST, Line, line_of, text_of};
use crate::message::{say, say_reply};
use paint::Shape;
use reading::{BYTES, ReadFailed};
use std::io::Read;
use std::marker::Model;

// The bytes that are kept of a line: no label has so many, also where the last of them is a carriage return.
const LINE: usize = LONGEST + 2;

// The line that is being read: its number, from 1, and its first bytes.
#[derive(Drop)]
struct Begun {
    number: u64,
    bytes: [u8; LINE],
    count: usize,
}

// What is seen of it is its number and the bytes that are kept.
impl Model for Begun {
    ghost use Rattle.std.specs.Prelude.{◌≤◌, take};
    ghost use Rattle.preview.specs.Begun.{Begun as begun, most};

    ghost Value = { begun };

    ghost view = { λ a. record { number = a.number; kept = take a.count a.bytes } };

    ghost invariant = { λ a. a.count ≤ most };
}

impl Begun {
    fn first() -> Begun
        ensures { result ≡ first_line }
    {
        Begun {
            number: 1,
            bytes: [0; LINE],
            count: 0,
        }
    }

    // The bytes of the line that are there.
    fn kept(&self) -> &[u8]
        ensures { result.now ≡ self.now.kept }
    {
        &self.bytes[..self.count]
    }

    // The next line, with nothing of it read. The last number is one that no run reaches.
    #[tactic(auto, unfolding(crate::specs::Begun::next_line))]
    fn next(&mut self)
        ensures { self.new ≡ next_line self.old }
    {
        self.number = self.number.saturating_add(1);
        self.count = 0;
    }

    // The same line with one byte more, if there is room.
    #[tactic(auto, using(crate::proofs::Taking::keeping), unfolding(crate::specs::Begun::longer_line))]
    fn push(&mut self, b: u8)
        ensures { self.new ≡ longer_line b self.old }
    {
        if self.count < LINE {
            self.bytes[self.count] = b;
            self.count += 1;
        }
    }
}

// What painting all lines answers: the lit dots of the strips, after a read that failed too, and whether every read went well.
#[derive(Clone, Copy)]
pub struct Answer {
    pub counts: [u32; 32],
    pub read: Result<(), ReadFailed>,
}

// How far the lines are read: the line that is being read, and the lit dots of the strips as the lines before it have left them.
#[derive(Drop)]
struct Progress {
    line: Begun,
    counts: [u32; 32],
}

impl Progress {
    // No line has been read, and no dot is lit.
    fn first() -> Progress
        ensures { result ≡ first_progress }
    {
        Progress {
            line: Begun::first(),
            counts: [0; 32],
        }
    }
}

// What labels are painted with: the words of a font, and the shape of the panel.
#[derive(Clone, Copy)]
pub struct Painter<'a> {
    pub font: &'a [u16],
    pub s: Shape,
}

impl Painter<'_> {
    // Paints the label of a line, says what there is to say of it, and hands back the new counts.
    #[tactic(auto, unfolding(crate::specs::Line::after_line, crate::specs::Line::painted))]
    fn paint_line(
        self,
        rt: &impl Eprint,
        line: &[u8],
        number: u64,
        panel: &mut [u16],
        counts: [u32; 32],
    ) -> [u32; 32]
        ensures { counted panel.new result ≡ after_line self.entry.font.now self.entry.s line.now (counted panel.old counts) }
    {
        match line_of(line) {
            Line::Passed => counts,
            Line::Other => {
                say(rt, format_args!("line {number}: not a label"));
                counts
            }
            Line::Label(label) => {
                let painted = counts::paint(self.font, self.s, label, text_of(line), panel, counts);
                say_reply(rt, number, painted.reply);
                painted.counts
            }
        }
    }

    // Takes one more byte of the lines.
    fn take_byte(self, rt: &impl Eprint, b: u8, so_far: &mut Progress, panel: &mut [u16])
        ensures { Taken self.entry.font.now self.entry.s (b ∷ []) so_far.old panel.old so_far.new panel.new }
    {
        if b == b'\n' {
            let line = &so_far.line;
            so_far.counts = self.paint_line(rt, line.kept(), line.number, panel, so_far.counts);
            so_far.line.next();
        } else {
            so_far.line.push(b);
        }
    }

    // Takes more bytes of the lines. By its type the slice holds bytes; a contract has that from no type, so the caller is told.
    #[tactic(auto, using(crate::proofs::Taking::byte_by_byte))]
    fn take_bytes(self, rt: &impl Eprint, bytes: &[u8], so_far: &mut Progress, panel: &mut [u16])
        ensures taken { Taken self.entry.font.now self.entry.s bytes.now so_far.old panel.old so_far.new panel.new }
        ensures bytes { Bytes bytes.now }
    {
        for b in bytes {
            self.take_byte(rt, *b, so_far, panel);
        }
    }
}

// Paints all lines, with counts that are zeros at first, and answers what they become. A proved loop has to end, and nothing says that
// the lines do: the turns are counted to a number that no run comes to.
#[tactic(auto, using(crate::proofs::Taking::part_by_part))]
pub fn paint_lines(
    rt: &impl Eprint,
    from: &mut impl Read,
    painter: Painter,
    panel: &mut [u16],
) -> Answer
    ensures { Painted painter.entry.font.now painter.entry.s panel.old result panel.new }
{
    let mut bytes = [0u8; BYTES];
    let mut so_far = Progress::first();
    for _ in 0..u64::MAX {
        let counts = so_far.counts;
        let count = match read_some(from, &mut bytes) {
            Ok(count) => count,
            Err(failed) => {
                return Answer {
                    counts,
                    read: Err(failed),
                };
            }
        };
        if count == 0 {
            let last = &so_far.line;
            return Answer {
                counts: painter.paint_line(rt, last.kept(), last.number, panel, counts),
                read: Ok(()),
            };
        }
        painter.take_bytes(rt, first_of(&bytes, count), &mut so_far, panel);
    }
    Answer {
        counts: so_far.counts,
        read: Err(unread()),
    }
}
