// Lists of words as they lie in memory.
ghost use Rattle.std.specs.Prelude.{◌≡◌, ℕ, ◌*◌, List, length, take, drop};
ghost use Rattle.words.specs.Word.{word, words_of};

use crate::{part, part_in, word_at, word_in};

// A list of words: as words, or as the bytes that spell them, the high byte first. What reads one reads the other.
pub trait Words: Copy {
    ghost as_words: { Self → List ℕ };

    // The numbers that lie in memory: the words, or the bytes.
    ghost held: { Self → List ℕ };

    // Of these numbers those of the count words from `from` on.
    ghost part_held: { ℕ → ℕ → List ℕ → List ℕ };

    // A word that is needed twice is read twice: of words the compiler then reads several at once.
    const READ_AGAIN: bool;

    fn count(self) -> usize
        ensures { result ≡ length (as_words self) };

    // Word i; 0 past the end.
    fn word(self, i: usize) -> u16
        ensures { result ≡ word (as_words self) i };

    // The count words from `from` on; fewer where the list ends before.
    fn part(self, from: usize, count: usize) -> Self
        ensures words { as_words result ≡ take count (drop from (as_words self)) }
        ensures held { held result ≡ part_held from count (held self) };
}

impl<'a> Words for &'a [u16] {
    ghost as_words = { λ list. list.now };

    ghost held = { λ list. list.now };

    ghost part_held = { λ from count list. take count (drop from list) };

    const READ_AGAIN: bool = true;

    fn count(self) -> usize {
        self.len()
    }

    fn word(self, i: usize) -> u16 {
        word_at(self, i)
    }

    fn part(self, from: usize, count: usize) -> &'a [u16] {
        // A part that is there is found with one test.
        let end = from.saturating_add(count);
        if end <= self.len() {
            return &self[from..end];
        }
        part(self, from, count)
    }
}

impl<'a> Words for &'a [u8] {
    ghost as_words = { λ bytes. words_of bytes.now };

    ghost held = { λ bytes. bytes.now };

    ghost part_held = { λ from count bytes. take (2 * count) (drop (2 * from) bytes) };

    const READ_AGAIN: bool = false;

    fn count(self) -> usize {
        self.len() / 2
    }

    fn word(self, i: usize) -> u16 {
        word_in(self, i)
    }

    fn part(self, from: usize, count: usize) -> &'a [u8] {
        part_in(self, from, count)
    }
}
