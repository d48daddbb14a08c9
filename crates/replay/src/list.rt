// Reading a list: the field that is being read, byte by byte, and the line that its fields make.
ghost use Rattle.std.specs.Prelude.{◌≡◌, ◌<◌, ◌++◌, min, replicate, IfNone};
ghost use Rattle.replay.specs.Lines.{no_values, without_values, values_of, room_left, empty_line, cleared, IsEmpty};
ghost use Rattle.replay.specs.Lines.{unsigned_in, signed_in, counted_of, number_of, signed_of};

use crate::names::{Command, extended};
use std::io;

const INPUT: usize = 65_536;

// The most values that a line has.
const VALUES: usize = 530_000;

// The field so far. What it is, a name, a number or a value, is known only where it ends, so it is read as each.
#[derive(Clone, Copy)]
struct Field {
    name: u64,
    digits: u64,
    negative: bool,
    word: u16,
    // What stands behind its `*`, where there is one.
    count: Option<u64>,
}

// The values of a line: the first `count` of so many words. They come and go with each line, and many at once: so they are no `ArrayVec`,
// which takes them one by one, and writes zeros over those that go.
#[derive(Clone, Copy)]
pub struct Values {
    words: [u16; VALUES],
    count: usize,
}

// The line so far.
#[derive(Clone, Copy)]
pub struct Line {
    pub command: Command,
    fields: usize,
    // The last name behind the command: the register that is shown.
    pub name: u64,
    // The numbers behind the command.
    numbers: [i64; 8],
    pub values: Values,
}

// A list, and the bytes of it that have been read and not yet taken: those of the buffer from a place up to another.
#[derive(Drop)]
pub struct List<R: io::Read + Drop> {
    bytes: R,
    buffer: [u8; INPUT],
    from: usize,
    upto: usize,
}

// A decimal number with one more digit. One that is past all that a list may have stays as it is, as does one before another character.
fn tenfold(n: u64, b: u8) -> u64 {
    match b {
        b'0'..=b'9' if n < 100_000_000_000 => n * 10 + (b - b'0') as u64,
        _ => n,
    }
}

fn nibble(b: u8) -> u16
    ensures { result < 16 }
{
    match b {
        b'0'..=b'9' => (b - b'0') as u16,
        b'A'..=b'F' => (b - b'A') as u16 + 10,
        _ => 0,
    }
}

fn hexadecimal(word: u16, b: u8) -> u16 {
    word % 4096 * 16 + nibble(b)
}

impl Field {
    fn empty() -> Field {
        Field {
            name: 0,
            digits: 0,
            negative: false,
            word: 0,
            count: None,
        }
    }

    fn with(mut self, b: u8) -> Field {
        if let Some(count) = self.count {
            self.count = Some(tenfold(count, b));
            return self;
        }
        match b {
            b'*' => self.count = Some(0),
            b'-' => self.negative = true,
            _ => {
                self.name = extended(self.name, b);
                self.digits = tenfold(self.digits, b);
                self.word = hexadecimal(self.word, b);
            }
        }
        self
    }

    // How often its value stands there.
    fn times(self) -> u64 {
        self.count.unwrap_or(1)
    }

    fn number(self) -> i64 {
        if 4_294_967_295 < self.digits {
            return 0;
        }
        if self.negative {
            return -(self.digits as i64);
        }
        self.digits as i64
    }
}

impl Values {
    fn empty() -> Values
        ensures { result ≡ no_values }
    {
        Values {
            words: [0; VALUES],
            count: 0,
        }
    }

    fn clear(&mut self)
        ensures { self.new ≡ without_values self.old }
    {
        self.count = 0;
    }

    // Adds a word so many times. What there is no room for is left out.
    #[tactic(auto, unfolding(crate::specs::Lines::values_of))]
    fn fill(&mut self, times: u64, word: u16)
        ensures { values_of self.new ≡ values_of self.old ++ replicate (min times (room_left self.old)) word }
    {
        let room = self.words.len();
        let from = self.count.min(room);
        let end = from + times.min((room - from) as u64) as usize;
        self.words[from..end].fill(word);
        self.count = end;
    }

    #[tactic(auto, unfolding(crate::specs::Lines::values_of))]
    pub fn as_slice(&self) -> &[u16]
        ensures { result.now ≡ values_of self.now }
    {
        &self.words[..self.count.min(VALUES)]
    }
}

impl Line {
    #[tactic(auto, unfolding(crate::specs::Lines::empty_line))]
    pub fn empty() -> Line
        ensures { result ≡ empty_line }
    {
        Line {
            command: Command::Other,
            fields: 0,
            name: 0,
            numbers: [0; 8],
            values: Values::empty(),
        }
    }

    #[tactic(auto, unfolding(crate::specs::Lines::cleared))]
    fn clear(&mut self)
        ensures { self.new ≡ cleared self.old }
    {
        self.command = Command::Other;
        self.fields = 0;
        self.name = 0;
        self.numbers = [0; 8];
        self.values.clear();
    }

    // Adds a field. Values that there is no room for are left out.
    fn add(&mut self, field: Field) {
        let k = self.fields;
        self.fields = k.saturating_add(1);
        if k == 0 {
            self.command = Command::named(field.name);
            return;
        }
        if self.has_values_at(k) {
            self.values.fill(field.times(), field.word);
            return;
        }
        self.name = field.name;
        if k <= 8 {
            self.numbers[k - 1] = field.number();
        }
    }

    // Field k, counted from the command, is a value.
    fn has_values_at(&self, k: usize) -> bool {
        match self.command.numbers() {
            Some(numbers) => numbers < k,
            None => false,
        }
    }

    // Number k behind the command, from 0; zero past those that a line has.
    #[tactic(auto, unfolding(crate::specs::Lines::counted_of))]
    fn counted(&self, k: usize) -> i64
        ensures { result ≡ counted_of self.now k }
    {
        self.numbers.get(k).copied().unwrap_or(0)
    }

    // The same, for one that has no sign.
    #[tactic(auto, unfolding(crate::specs::Lines::number_of))]
    pub fn number(&self, k: usize) -> u32
        ensures { result ≡ number_of self.now k }
    {
        unsigned(self.counted(k))
    }

    // The same, for one that may have a sign.
    #[tactic(auto, unfolding(crate::specs::Lines::signed_of))]
    pub fn signed(&self, k: usize) -> i32
        ensures { result ≡ signed_of self.now k }
    {
        signed(self.counted(k))
    }
}

// A number without a sign; 0 where it does not fit.
#[tactic(auto, unfolding(crate::specs::Lines::unsigned_in))]
fn unsigned(n: i64) -> u32
    ensures { result ≡ unsigned_in n }
{
    u32::try_from(n).unwrap_or(0)
}

// A number with a sign; the nearest where it does not fit.
#[tactic(auto, unfolding(crate::specs::Lines::signed_in))]
fn signed(n: i64) -> i32
    ensures { result ≡ signed_in n }
{
    n.clamp(i32::MIN as i64, i32::MAX as i64) as i32
}

impl<R: io::Read + Drop> List<R> {
    pub fn new(bytes: R) -> List<R>
        ensures from { result.from ≡ 0 }
        ensures upto { result.upto ≡ 0 }
    {
        List {
            bytes,
            buffer: [0; INPUT],
            from: 0,
            upto: 0,
        }
    }

    // Reads more of the list, and answers how many bytes; none at its end.
    fn more(&mut self) -> Option<usize> {
        match self.bytes.read(&mut self.buffer) {
            Ok(count) if 0 < count => Some(count),
            _ => None,
        }
    }

    // The next byte; none at the end of the list.
    fn next_byte(&mut self) -> Option<u8> {
        if self.upto <= self.from {
            self.upto = self.more()?;
            self.from = 0;
        }
        let b = self.buffer.get(self.from).copied()?;
        self.from = self.from.saturating_add(1);
        Some(b)
    }

    // The next field, and the byte that ends it. A proved loop has to end, and nothing says that a list does: no run uses so many turns up.
    fn next_field(&mut self) -> Option<(Field, u8)> {
        let mut field = Field::empty();
        for _ in 0..u64::MAX {
            let b = self.next_byte()?;
            if b <= b' ' {
                return Some((field, b));
            }
            field = field.with(b);
        }
        None
    }

    // Makes the line the next one of the list; none is left at its end, and then neither has the line a field, nor the list a byte. Turns
    // are counted as for a field.
    #[tactic(auto, unfolding(crate::specs::Lines::cleared))]
    pub fn next_line(&mut self, line: &mut Line) -> Option<()>
        ensures line { IfNone result (IsEmpty line.new) }
        ensures from { IfNone result (self.new.from ≡ 0) }
        ensures upto { IfNone result (self.new.upto ≡ 0) }
    {
        line.clear();
        for _ in 0..u64::MAX {
            let Some((field, end)) = self.next_field() else {
                break;
            };
            line.add(field);
            if end == b'\n' {
                return Some(());
            }
        }
        line.clear();
        self.from = 0;
        self.upto = 0;
        None
    }
}
