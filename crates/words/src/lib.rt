// Words of lent memory and their bits, and effects on a word of dots: what painting does to it, as a value that can be applied, joined
// and kept in a sheet.
#![tactic(auto)]

mod list;
mod refusal;

ghost use Rattle.std.specs.Prelude.{◌≡◌, ◌+◌, ◌-◌, ◌*◌, ◌/◌, ◌%◌, min, length, take, drop};
ghost use Rattle.words.specs.Word.{word, bit_of, put_bit, words_of, bytes_of, odd_bytes, over};
ghost use Rattle.words.specs.Refusal.{not_within};
ghost use Rattle.words.specs.Place.{outside, place_of, place_of_word};
ghost use Rattle.words.specs.Effect.{effect, identity, paint_of, erase_of, invert_of, effect_of, mode_of, join_of, apply_to};

pub use list::Words;
pub use refusal::Refusal;

// How the dots of a picture change the dots of the panel.
#[derive(Clone, Copy, Debug, PartialEq, Eq)]
pub enum Mode {
    Paint,
    Erase,
    Invert,
}

impl Mode {
    // 0 Paint, 1 Erase, 2 Invert. A number over 2 is refused by whoever is handed it, and counts as Invert here.
    #[tactic(auto, unfolding(crate::specs::Effect::mode_of))]
    pub fn of(number: u32) -> Mode
        ensures { result ≡ mode_of number }
    {
        match number {
            0 => Mode::Paint,
            1 => Mode::Erase,
            _ => Mode::Invert,
        }
    }
}

// Applied to a word d, it leaves (d AND keep) XOR flip.
#[derive(Clone, Copy)]
pub struct Effect {
    pub keep: u16,
    pub flip: u16,
}

impl Effect {
    // The effect that alters nothing.
    pub const IDENTITY: Effect = Effect {
        keep: 0xFFFF,
        flip: 0,
    };

    pub fn new(keep: u16, flip: u16) -> Effect
        ensures { result ≡ effect keep flip }
    {
        Effect { keep, flip }
    }

    pub fn identity() -> Effect
        ensures { result ≡ identity }
    {
        Effect::IDENTITY
    }

    // Sets the dots of the mask.
    pub fn paint(mask: u16) -> Effect
        ensures { result ≡ paint_of mask }
    {
        Effect::new(0xFFFF - mask, mask)
    }

    // Clears the dots of the mask.
    pub fn erase(mask: u16) -> Effect
        ensures { result ≡ erase_of mask }
    {
        Effect::new(0xFFFF - mask, 0)
    }

    // Flips the dots of the mask.
    pub fn invert(mask: u16) -> Effect
        ensures { result ≡ invert_of mask }
    {
        Effect::new(0xFFFF, mask)
    }

    // What the mode does to the dots of the mask.
    pub fn of(mode: Mode, mask: u16) -> Effect
        ensures { result ≡ effect_of mode mask }
    {
        match mode {
            Mode::Paint => Effect::paint(mask),
            Mode::Erase => Effect::erase(mask),
            Mode::Invert => Effect::invert(mask),
        }
    }

    // This effect, and then the other.
    pub fn join(self, then: Effect) -> Effect
        ensures { result ≡ join_of self then }
    {
        Effect::new(self.keep & then.keep, (self.flip & then.keep) ^ then.flip)
    }

    pub fn apply(self, word: u16) -> u16
        ensures { result ≡ apply_to self word }
    {
        (word & self.keep) ^ self.flip
    }
}

// Word i of a list; 0 past its end.
pub fn word_at(list: &[u16], i: usize) -> u16
    ensures { result ≡ word list.now i }
{
    list.get(i).copied().unwrap_or(0)
}

// Bit j of a word, for j from 0, the most significant, to 15.
pub fn bit(w: u16, j: usize) -> u16
    ensures { result ≡ bit_of w j }
{
    if 15 < j {
        return w % 2;
    }
    (w >> (15 - j)) % 2
}

// The count words from `from` on, as a part of the list; fewer where it ends before.
pub fn part(list: &[u16], from: usize, count: usize) -> &[u16]
    ensures { result.now ≡ take count (drop from list.now) }
{
    let length = list.len();
    if length <= from {
        return &list[..0];
    }
    if length - from <= count {
        return &list[from..];
    }
    &list[from..from + count]
}

// The word with bit j, for j from 0 to 15, set to the last bit of b.
pub fn put_bit(w: u16, j: usize, b: u16) -> u16
    ensures { result ≡ put_bit w j b }
{
    if 15 < j {
        return w;
    }
    let mask = 0x8000 >> j;
    if b % 2 == 1 {
        return Effect::paint(mask).apply(w);
    }
    Effect::erase(mask).apply(w)
}

// A number is not from least to most.
pub fn not_within(least: usize, most: usize, n: usize) -> bool
    ensures { result ≡ not_within least most n }
{
    if n < least {
        return true;
    }
    most < n
}

// The place of a word in two's complement, counted from 2048 below zero.
pub fn place_of_word(w: u16) -> usize
    ensures { result ≡ place_of_word w }
{
    (w as usize + 2048) % 65536
}

// x or y is not from -1024 to 1023.
pub fn outside(x: i32) -> bool
    ensures { result ≡ outside x }
{
    if x < -1024 {
        return true;
    }
    1023 < x
}

// The place of x or y, counted from 2048 below zero; 0 for one that is refused.
pub fn place_of(x: i32) -> usize
    ensures { result ≡ place_of x }
{
    if x < -1024 {
        return 0;
    }
    if 1023 < x {
        return 0;
    }
    (x + 2048) as usize
}

// The bytes that so many words spell, and no more than there is room for.
fn least_bytes(words: usize, room: usize) -> usize
    ensures { result ≡ min (2 * words) room }
{
    if room / 2 < words { room } else { 2 * words }
}

// The word of two bytes.
fn pair(high: u8, low: u8) -> u16
    ensures { result ≡ high * 256 + low }
{
    high as u16 * 256 + low as u16
}

// Word i of the words that bytes spell, the high byte first; 0 past their end.
pub fn word_in(bytes: &[u8], i: usize) -> u16
    ensures { result ≡ word (words_of bytes.now) i }
{
    if i < bytes.len() / 2 {
        return pair(bytes[2 * i], bytes[2 * i + 1]);
    }
    0
}

// Refused by 14 where words are read from bytes: a last byte without a partner.
pub fn odd_bytes(bytes: &[u8]) -> bool
    ensures { result ≡ odd_bytes bytes.now }
{
    bytes.len() % 2 == 1
}

// The bytes that spell the count words from word `from` on, as a part of the bytes; fewer where these end before.
pub fn part_in(bytes: &[u8], from: usize, count: usize) -> &[u8]
    ensures { result.now ≡ take (2 * count) (drop (2 * from) bytes.now) }
{
    let length = bytes.len();
    if length - length / 2 <= from {
        return &bytes[..0];
    }
    let start = 2 * from;
    let rest = length - start;
    if rest - rest / 2 <= count {
        return &bytes[start..];
    }
    &bytes[start..start + 2 * count]
}

// Byte i of the bytes that a list spells, the high byte of a word first; 0 past their end.
fn byte_at(list: &[u16], i: usize) -> u8
    ensures { result ≡ word (bytes_of list.now) i }
{
    let w = word_at(list, i / 2);
    if i % 2 == 0 {
        return (w / 256) as u8;
    }
    (w % 256) as u8
}

// Writes the words that bytes spell, the high byte first, over the first words of a list: as many as there are whole ones and as it has
// room for. Answers how many.
#[tactic(auto, using(crate::proofs::Over::over_turn), unfolding(crate::specs::Word::over))]
pub fn from_bytes(bytes: &[u8], list: &mut [u16]) -> usize
    ensures value { result ≡ min (length bytes.now / 2) (length list.old) }
    ensures list { list.new ≡ over (min (length bytes.now / 2) (length list.old)) (word (words_of bytes.now)) list.old }
{
    let n = (bytes.len() / 2).min(list.len());
    for i in 0..n {
        list[i] = word_in(bytes, i);
    }
    n
}

// Writes the bytes that words spell, the high byte first, over the first bytes of a slice: as many as it has room for. Answers how many.
#[tactic(auto, using(crate::proofs::Over::over_turn), unfolding(crate::specs::Word::over))]
pub fn to_bytes(list: &[u16], bytes: &mut [u8]) -> usize
    ensures value { result ≡ min (2 * length list.now) (length bytes.old) }
    ensures bytes { bytes.new ≡ over (min (2 * length list.now) (length bytes.old)) (word (bytes_of list.now)) bytes.old }
{
    let n = least_bytes(list.len(), bytes.len());
    for i in 0..n {
        bytes[i] = byte_at(list, i);
    }
    n
}
