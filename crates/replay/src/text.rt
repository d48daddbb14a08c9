// The answers' text, gathered in an array and written out where that is full.
ghost use Rattle.std.specs.Prelude.{◌≡◌, ◌<◌, [], ◌∷◌, take, decimal};
ghost use Rattle.replay.specs.Text.{nothing_waits, written, with_byte, Puts, character_of, pair_bytes, name_bytes, field_bytes};
ghost use Rattle.replay.specs.Text.{digit_of, low_bytes, value_bytes, run_bytes, list_bytes};

use itoa::{Buffer, Integer};
use std::marker::Model;

const TEXT: usize = 65_536;

// The text, of which the first `at` bytes wait to be written.
#[derive(Drop)]
pub struct Output<'a, P: Print> {
    rt: &'a P,
    text: [u8; TEXT],
    at: usize,
}

impl<'a, P: Print> Model for Output<'a, P> {
    ghost use Rattle.replay.specs.Text.{Waiting, waiting};

    ghost Value = { Waiting };

    ghost view = { λ o. waiting o.text o.at };
}

impl<'a, P: Print> Output<'a, P> {
    pub fn new(rt: &'a P) -> Output<'a, P>
        ensures { result ≡ nothing_waits }
    {
        Output {
            rt,
            text: [0; TEXT],
            at: 0,
        }
    }

    // Writes out what waits. No answer tells of a write that failed, and the list is performed to its end all the same.
    pub fn flush(&mut self)
        ensures { self.new ≡ written self.old }
    {
        let _ = self.rt.write_all(start(&self.text, self.at));
        self.at = 0;
    }

    #[tactic(auto, unfolding(crate::specs::Text::place_for, crate::specs::Text::with_byte))]
    pub fn put(&mut self, b: u8)
        ensures { self.new ≡ with_byte self.old b }
    {
        if self.at < TEXT {
            self.text[self.at] = b;
            self.at += 1;
            return;
        }
        self.flush();
        self.text[0] = b;
        self.at = 1;
    }

    pub fn put_all(&mut self, bytes: &[u8])
        ensures { Puts self bytes.now }
    {
        for &b in bytes {
            self.put(b);
        }
    }

    // The characters of a name, from the first two digits of its number on.
    pub fn put_name(&mut self, name: u64)
        ensures { Puts self (name_bytes name) }
    {
        for k in 0..9 {
            self.put_pair(name / 100u64.pow(8 - k) % 100);
        }
    }

    // The character of two digits of a name; none for the zeros before its first.
    fn put_pair(&mut self, pair: u64)
        requires { pair < 100 }
        ensures { Puts self (pair_bytes pair) }
    {
        if 0 < pair {
            self.put(character(pair));
        }
    }

    fn put_digits<I: Integer>(&mut self, n: I)
        ensures { Puts self (I.text n) }
    {
        let mut digits = Buffer::new();
        self.put_all(digits.format(n).as_bytes());
    }

    // A field that is a number.
    pub fn put_number<I: Integer>(&mut self, n: I)
        ensures { Puts self (field_bytes (I.text n)) }
    {
        self.put(b' ');
        self.put_digits(n);
    }

    fn put_hexadecimal(&mut self, digit: u16)
        requires { digit < 16 }
        ensures { Puts self (digit_of digit ∷ []) }
    {
        if digit < 10 {
            self.put(b'0' + digit as u8);
        } else {
            self.put(b'A' + (digit - 10) as u8);
        }
    }

    // The last two hexadecimal digits of a word.
    fn put_low(&mut self, word: u16)
        ensures { Puts self (low_bytes word) }
    {
        self.put_hexadecimal(word / 16 % 16);
        self.put_hexadecimal(word % 16);
    }

    // A field that is a byte or a word.
    pub fn put_value(&mut self, word: u16, digits: Digits)
        ensures { Puts self (value_bytes digits word) }
    {
        self.put(b' ');
        match digits {
            Digits::Two => self.put_low(word),
            Digits::Four => {
                self.put_low(word / 256);
                self.put_low(word);
            }
        }
    }

    fn put_run(&mut self, word: u16, digits: Digits, count: usize)
        ensures { Puts self (run_bytes digits word count) }
    {
        self.put_value(word, digits);
        if 1 < count {
            self.put(b'*');
            self.put_digits(count);
        }
    }

    // A list of words or bytes, each run of equal ones as one field.
    pub fn put_list(&mut self, list: &[u16], digits: Digits)
        ensures { Puts self (list_bytes digits list.now) }
    {
        let Some((&first, rest)) = list.split_first() else {
            return;
        };
        self.put_runs(first, rest, digits);
    }

    // A word and those behind it.
    fn put_runs(&mut self, first: u16, rest: &[u16], digits: Digits)
        ensures { Puts self (list_bytes digits (first ∷ rest.now)) }
    {
        let mut run = first;
        // How many words stand before the run. Counting the run itself takes a step more for each word.
        let mut before = 0;
        for (i, &word) in rest.iter().enumerate() {
            if word == run {
                continue;
            }
            self.put_run(run, digits, i + 1 - before);
            run = word;
            before = i + 1;
        }
        self.put_run(run, digits, rest.len() + 1 - before);
    }
}

// How many hexadecimal digits a value has: two for a byte, four for a word.
#[derive(Clone, Copy)]
pub enum Digits {
    Two,
    Four,
}

// The character that two digits of a name stand for.
#[tactic(auto, unfolding(crate::specs::Text::character_of))]
fn character(pair: u64) -> u8
    requires { pair < 100 }
    ensures { result ≡ character_of pair }
{
    if pair < 27 {
        return pair as u8 + 96;
    }
    pair as u8
}

// The first `count` bytes; fewer where there are no more.
fn start(bytes: &[u8], count: usize) -> &[u8]
    ensures { result.now ≡ take count bytes.now }
{
    if bytes.len() <= count {
        return bytes;
    }
    &bytes[..count]
}
