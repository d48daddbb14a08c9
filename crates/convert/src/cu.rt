// The CU file: its characters, where their codes stand, the origin, and the boxes of the dots. Every function here answers for every
// list of words and every place in it.
ghost use Rattle.std.specs.Prelude.{◌≡◌, ltb, ◌+◌, ◌-◌, ◌%◌, ◌<◌, ◌≤◌, false};
ghost use Rattle.words.specs.Word.{word};
ghost use Rattle.convert.specs.Cu.{rows, char_words, chars, char_at, bad_size, bad_count, placed_with, placed_of, place_in};
ghost use Rattle.convert.specs.Cu.{raster_dot, width, dot_in_row, dot_in_column, has_dot, lowest_of, first_in_row, left_of, right_of};
ghost use Rattle.convert.specs.Cu.{columns_across, column_used, row_used, leftmost, rightmost, top, bottom, frame_from, left_from};
ghost use Rattle.convert.specs.Cu.{source_of};

use crate::search;
use words::Refusal;

// What all characters of a file share: the origin's column; the left column and the top row of the box round all their dots, in columns and
// rows of the raster; and the box words.
#[derive(Clone, Copy)]
pub struct Frame {
    pub origin: u16,
    pub left: u16,
    pub top: u16,
    pub fbbox: u16,
    pub fbbdx: u16,
    pub ascent: u16,
    pub descent: u16,
}

// Where each code stands in the file; 0, where H stands, for one that is absent. So the table takes half the memory that 256 times
// `Option<usize>` would, and `of` answers for a code by an `Option`.
#[derive(Clone, Copy)]
pub struct Places {
    table: [usize; 256],
}

// What reading a file finds: the places of its codes, and the frame.
#[derive(Clone, Copy)]
pub struct Source {
    pub places: Places,
    pub frame: Frame,
}

// The word so many words past a place; 0 past the end.
#[tactic(auto, using(words::proofs::Lists::past_end))]
fn word_past(cu: &[u16], place: usize, words: usize) -> u16
    ensures { result ≡ word cu.now (place + words) }
{
    if cu.len() <= place {
        return 0;
    }
    if cu.len() - place <= words {
        return 0;
    }
    cu[place + words]
}

// How many words a character has: its code, its width, and its raster.
#[tactic(auto, unfolding(crate::specs::Cu::char_words, crate::specs::Cu::rows, crate::specs::Cu::row_words))]
fn char_words(cu: &[u16]) -> usize
    ensures value { result ≡ char_words cu.now }
    ensures some { 2 ≤ result }
{
    2 + words::word_at(cu, 0) as usize * words::word_at(cu, 1) as usize
}

#[tactic(auto, unfolding(crate::specs::Cu::chars))]
fn chars(cu: &[u16]) -> usize
    ensures { result ≡ chars cu.now }
{
    cu.len().saturating_sub(2) / char_words(cu)
}

// The place of the file's k-th character.
fn char_at(cu: &[u16], k: usize) -> usize
    requires { k < chars cu.now }
    ensures { result ≡ char_at cu.now k }
{
    2 + k * char_words(cu)
}

#[tactic(auto, unfolding(crate::specs::Cu::bad_size, crate::specs::Cu::rows, crate::specs::Cu::row_words))]
fn bad_size(cu: &[u16]) -> bool
    ensures { result ≡ bad_size cu.now }
{
    if cu.len() < 2 {
        return true;
    }
    if words::not_within(1, 128, words::word_at(cu, 0) as usize) {
        return true;
    }
    words::not_within(1, 16, words::word_at(cu, 1) as usize)
}

#[tactic(auto, unfolding(crate::specs::Cu::bad_count))]
fn bad_count(cu: &[u16]) -> bool
    ensures { result ≡ bad_count cu.now }
{
    0 < cu.len().saturating_sub(2) % char_words(cu)
}

impl Places {
    // With one more character, which stands at a place; none where its code is over 255 or was there before.
    fn with(mut self, code: u16, place: usize) -> Option<Places>
        ensures { result ≡ placed_with self code place }
    {
        let c = code as usize;
        if 255 < c {
            return None;
        }
        if 0 < self.table[c] {
            return None;
        }
        self.table[c] = place;
        Some(self)
    }

    // The table of the file's codes, filled with "absent" and then with each code's place; none where a code is over 255 or there twice.
    fn read(cu: &[u16]) -> Option<Places>
        ensures { result ≡ placed_of cu.now }
    {
        let mut places = Places { table: [0; 256] };
        for k in 0..chars(cu) {
            let place = char_at(cu, k);
            places = places.with(words::word_at(cu, place), place)?;
        }
        Some(places)
    }

    // A code is there.
    pub fn has(&self, c: usize) -> bool
        ensures { result ≡ ltb 0 (word self.now.table c) }
    {
        self.of(c).is_some()
    }

    // Where a code stands.
    pub fn of(&self, c: usize) -> Option<usize>
        ensures { result ≡ place_in self.now.table c }
    {
        self.table.get(c).copied().filter(|&place| 0 < place)
    }
}

// The spacing of the character at a place.
pub fn spacing(cu: &[u16], place: usize) -> u16
    ensures { result ≡ word cu.now (place + 1) }
{
    word_past(cu, place, 1)
}

// One dot of the character at a place: row i, column j of its raster.
pub fn dot(cu: &[u16], place: usize, i: u32, j: usize) -> u16
    ensures { result ≡ raster_dot cu.now place i j }
{
    let row = i as usize * words::word_at(cu, 1) as usize;
    words::bit(word_past(cu, place, 2 + row + j / 16), j % 16)
}

// The rows of a raster.
#[tactic(auto, unfolding(crate::specs::Cu::rows))]
fn rows(cu: &[u16]) -> usize
    ensures value { result ≡ rows cu.now }
    ensures small { result ≤ 65535 }
{
    words::word_at(cu, 0) as usize
}

// The columns of a raster.
#[tactic(auto, unfolding(crate::specs::Cu::width, crate::specs::Cu::row_words))]
fn width(cu: &[u16]) -> usize
    ensures value { result ≡ width cu.now }
    ensures small { result ≤ 1048560 }
{
    16 * words::word_at(cu, 1) as usize
}

#[tactic(auto, unfolding(crate::specs::Cu::dot_in_row))]
fn dot_in_row(cu: &[u16], place: usize, i: u32) -> bool
    ensures { result ≡ dot_in_row cu.now place i }
{
    search::some_below(width(cu), |j| dot(cu, place, i, j) == 1)
}

#[tactic(auto, unfolding(crate::specs::Cu::dot_in_column))]
fn dot_in_column(cu: &[u16], place: usize, j: usize) -> bool
    ensures { result ≡ dot_in_column cu.now place j }
{
    search::some_below(rows(cu), |i| dot(cu, place, i as u32, j) == 1)
}

#[tactic(auto, unfolding(crate::specs::Cu::has_dot))]
fn has_dot(cu: &[u16], place: usize) -> bool
    ensures { result ≡ has_dot cu.now place }
{
    search::some_below(rows(cu), |i| dot_in_row(cu, place, i as u32))
}

// The lowest row with a dot.
#[tactic(auto, unfolding(crate::specs::Cu::lowest_of))]
fn lowest_of(cu: &[u16], place: usize) -> u32
    ensures { result ≡ lowest_of cu.now place }
{
    search::last_below(rows(cu), |i| dot_in_row(cu, place, i as u32)) as u32
}

// The leftmost dot of a row.
#[tactic(auto, unfolding(crate::specs::Cu::first_in_row))]
fn first_in_row(cu: &[u16], place: usize, i: u32) -> usize
    ensures { result ≡ first_in_row cu.now place i }
{
    search::first_below(width(cu), |j| dot(cu, place, i, j) == 1)
}

// The first column of a character's box.
#[tactic(auto, unfolding(crate::specs::Cu::left_of))]
pub fn left_of(cu: &[u16], place: usize) -> usize
    ensures value { result ≡ left_of cu.now place }
    ensures small { result ≤ 1048560 }
{
    search::first_below(width(cu), |j| dot_in_column(cu, place, j))
}

// The last column of a character's box.
#[tactic(auto, unfolding(crate::specs::Cu::right_of))]
fn right_of(cu: &[u16], place: usize) -> usize
    ensures value { result ≡ right_of cu.now place }
    ensures small { result ≤ 1048560 }
{
    search::last_below(width(cu), |j| dot_in_column(cu, place, j))
}

// How many columns a character's box has.
#[tactic(auto, unfolding(crate::specs::Cu::columns_across))]
pub fn columns_across(cu: &[u16], place: usize) -> usize
    ensures value { result ≡ columns_across cu.now place }
    ensures small { result ≤ 1048561 }
{
    if has_dot(cu, place) {
        return right_of(cu, place).saturating_sub(left_of(cu, place)) + 1;
    }
    0
}

// How far the box of the character at a place lies right of the font's box; an empty one has its box at the origin.
pub fn offset(cu: &[u16], frame: Frame, place: usize) -> usize
    ensures { result ≡ left_from cu.now frame place - frame.left }
{
    left_from(cu, frame, place).saturating_sub(frame.left as usize)
}

#[tactic(auto, unfolding(crate::specs::Cu::left_from))]
fn left_from(cu: &[u16], frame: Frame, place: usize) -> usize
    ensures { result ≡ left_from cu.now frame place }
{
    if has_dot(cu, place) {
        return left_of(cu, place);
    }
    frame.origin as usize
}

// Some character has a dot in this column.
#[tactic(auto, unfolding(crate::specs::Cu::column_used))]
fn column_used(cu: &[u16], j: usize) -> bool
    ensures { result ≡ column_used cu.now j }
{
    search::some_below(chars(cu), |k| dot_in_column(cu, char_at(cu, k), j))
}

// Some character has a dot in this row.
#[tactic(auto, unfolding(crate::specs::Cu::row_used))]
fn row_used(cu: &[u16], i: u32) -> bool
    ensures { result ≡ row_used cu.now i }
{
    search::some_below(chars(cu), |k| dot_in_row(cu, char_at(cu, k), i))
}

#[tactic(auto, unfolding(crate::specs::Cu::leftmost))]
fn leftmost(cu: &[u16]) -> usize
    ensures { result ≡ leftmost cu.now }
{
    search::first_below(width(cu), |j| column_used(cu, j))
}

#[tactic(auto, unfolding(crate::specs::Cu::rightmost))]
fn rightmost(cu: &[u16]) -> usize
    ensures { result ≡ rightmost cu.now }
{
    search::last_below(width(cu), |j| column_used(cu, j))
}

#[tactic(auto, unfolding(crate::specs::Cu::top))]
fn top(cu: &[u16]) -> u32
    ensures { result ≡ top cu.now }
{
    search::first_below(rows(cu), |i| row_used(cu, i as u32)) as u32
}

#[tactic(auto, unfolding(crate::specs::Cu::bottom))]
fn bottom(cu: &[u16]) -> u32
    ensures { result ≡ bottom cu.now }
{
    search::last_below(rows(cu), |i| row_used(cu, i as u32)) as u32
}

// The word FBBox: how far the left column of all dots lies right of the origin, in two's complement.
fn fbbox(left: usize, origin: usize) -> u16
    requires { (left ≤ 256) × (origin ≤ 256) }
    ensures { result ≡ (65536 + left - origin) % 65536 }
{
    ((65536 + left - origin) % 65536) as u16
}

// The frame of a file of good size, measured from the character at a place.
fn frame_from(cu: &[u16], place: usize) -> Frame
    requires { bad_size cu.now ≡ false }
    ensures { result ≡ frame_from cu.now place }
{
    let row = lowest_of(cu, place);
    let origin = first_in_row(cu, place, row);
    let left = leftmost(cu);
    let first = top(cu);
    Frame {
        origin: origin as u16,
        left: left as u16,
        top: first as u16,
        fbbox: fbbox(left, origin),
        fbbdx: (rightmost(cu).saturating_sub(left) + 1) as u16,
        ascent: (row.saturating_sub(first) + 1) as u16,
        descent: bottom(cu).saturating_sub(row) as u16,
    }
}

impl Source {
    pub fn read(cu: &[u16]) -> Result<Source, Refusal>
        ensures { result ≡ source_of cu.now }
    {
        if bad_size(cu) {
            return Err(Refusal::CuSize);
        }
        if bad_count(cu) {
            return Err(Refusal::CuCutShort);
        }
        let Some(places) = Places::read(cu) else {
            return Err(Refusal::CuCodes);
        };
        match places.of(65) {
            Some(place) if has_dot(cu, place) => Ok(Source {
                places,
                frame: frame_from(cu, place),
            }),
            _ => Err(Refusal::CuOrigin),
        }
    }
}
