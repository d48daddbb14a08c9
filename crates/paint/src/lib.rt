// Measuring labels, painting them into the strips of a panel, and joining them onto sheets.
#![tactic(auto)]

ghost use Rattle.std.specs.Prelude.{◌≡◌, [], ◌∷◌, Bool, true, false, cond, ◌+◌, ◌-◌, ◌*◌, ◌≤◌, ◌<◌, min, max, eqb, ltb, length};
ghost use Rattle.words.specs.Place.{number_at};
ghost use Rattle.words.specs.Word.{words_of};
ghost use Rattle.words.specs.Refusal.{returned};
ghost use Rattle.words.specs.Effect.{cleared};
ghost use Rattle.words.specs.declared.Mode.{Mode};
ghost use Rattle.words.specs.declared.Mode.TheVariants.{Paint, Erase, Invert};
ghost use Rattle.fonts.specs.Strike.{index};
ghost use Rattle.fonts.specs.Reading.{font_number};
ghost use Rattle.fonts.specs.Face.{dot_of, face_from};
ghost use Rattle.fontbytes.specs.File.{file_number};
ghost use Rattle.paint.specs.Panel.{panel_words, strip_of, bad_shape, bad_panel, panel_number};
ghost use Rattle.paint.specs.Pen.{pen_at, pen_after, pen_along, steps_in, steps_of, farthest, Starting, Near};
ghost use Rattle.paint.specs.Pen.{stroke_of, stroke_in_row, erasing, stroke_words, Drawable};
ghost use Rattle.paint.specs.Pen.{on_panel, kept_if, picture_effect, label_effect, erased_by};
ghost use Rattle.paint.specs.Reach.{shared, from_column, upto_column, reach_over, reach_of, in_file, spans_in, two_words, window};
ghost use Rattle.paint.specs.Reach.{marked, row_drawn, nth_row, rows_drawn, Nearby, Within};
ghost use Rattle.paint.specs.Sheet.{sheet_of, lengths_of};
ghost use Rattle.paint.specs.Label.{call_of, label_number, number_with, last_pen, finish_of, reply_with, reply_of};
ghost use Rattle.paint.specs.Label.{paint_with, row_with, paint_after, join_with, measure_number, measure_with, measure_of, measure_file};
ghost use Rattle.paint.specs.Label.{TellsWith, TellsCall, TellsMeasure};

use fonts::{Glyph, Header, Named, Step, View};
use words::{Effect, Mode, Refusal, Words};

// The size of a panel: words per row, rows, and the columns of a strip.
#[repr(C)]
#[derive(Clone, Copy)]
pub struct Shape {
    pub rowwords: u32,
    pub rows: u32,
    pub width: u32,
}

// Where a label goes, and how: its strip, the starting pen in strip columns, the row of the baseline, and the mode by its number.
#[repr(C)]
#[derive(Clone, Copy)]
pub struct Label {
    pub strip: u32,
    pub x: i32,
    pub y: i32,
    pub mode: u32,
}

// The columns of the panel from `from` up to, and without, `upto`.
#[derive(Clone, Copy)]
pub struct Strip {
    pub from: usize,
    pub upto: usize,
}

// What the characters of one label share. y counts from 2048 rows above the panel.
#[derive(Clone, Copy)]
pub struct Stroke {
    pub rowwords: usize,
    pub rows: usize,
    pub strip: Strip,
    pub y: usize,
    pub mode: Mode,
}

// What a picture reaches of the panel, and where the font has the dots of it.
#[derive(Clone, Copy)]
pub struct Reach {
    // How many rows, and in each how many words behind the first.
    pub rows: usize,
    pub last: usize,
    // The columns that it reaches of the first of these words, and of the last.
    pub head: u16,
    pub tail: u16,
    // Where the first is in the panel, and the words from one row to the next.
    pub at: usize,
    pub rowwords: usize,
    // The word of the font in which its dots begin, after so many bits, and the words from one row to the next.
    pub source: usize,
    pub shift: usize,
    pub raster: usize,
}

// Where the next character goes, in strip columns counted from 2048 to the left of the strip, and the substitutes so far.
#[derive(Clone, Copy)]
pub struct Pen {
    pub place: usize,
    pub substitutes: usize,
}

// How an accepted call ends: the last pen, and the substitutes.
#[derive(Clone, Copy)]
pub struct Finish {
    pub pen: i32,
    pub substitutes: u32,
}

// What painting, gathering and measuring answer.
pub type Reply = Result<Finish, Refusal>;

impl Shape {
    pub fn panel_words(self) -> usize
        ensures { result ≡ panel_words self }
    {
        self.rowwords as usize * self.rows as usize
    }
}

impl Strip {
    // Strip k of a panel.
    pub fn of(s: Shape, k: u32) -> Strip
        ensures { result ≡ strip_of s k }
    {
        let width = s.width as usize;
        let from = k as usize * width;
        Strip {
            from,
            upto: from + width,
        }
    }
}

// 32W over 16R is W over half of R. With R at most 128 that says W over 64 too, and where W is 1 or more R under 1.
fn bad_shape(s: Shape) -> bool
    ensures { result ≡ bad_shape s }
{
    if 128 < s.rowwords {
        return true;
    }
    if words::not_within(1, s.rowwords as usize / 2, s.width as usize) {
        return true;
    }
    words::not_within(1, 256, s.rows as usize)
}

// A shape, or a lent slice of so many words, is refused by 8.
pub fn bad_panel(s: Shape, lent: usize) -> bool
    ensures { result ≡ bad_panel s (lent ∷ []) }
{
    if bad_shape(s) {
        return true;
    }
    lent < s.panel_words()
}

pub fn check_panel(s: Shape, lent: usize) -> Result<(), Refusal>
    ensures { returned result ≡ panel_number s (lent ∷ []) }
{
    if bad_panel(s, lent) {
        return Err(Refusal::Panel);
    }
    Ok(())
}

impl Stroke {
    fn of(s: Shape, l: Label) -> Stroke
        ensures { result ≡ stroke_of s l }
    {
        Stroke {
            rowwords: s.rowwords as usize,
            rows: s.rows as usize,
            strip: Strip::of(s, l.strip),
            y: words::place_of(l.y),
            mode: Mode::of(l.mode),
        }
    }

    // For a panel that is one row of another: the row of the baseline counts from that row.
    fn in_row(s: Shape, l: Label, row: usize) -> Stroke
        ensures { result ≡ stroke_in_row s l row }
    {
        let k = Stroke::of(s, l);
        let strip = k.strip;
        let mode = k.mode;
        Stroke {
            rowwords: k.rowwords,
            rows: k.rows,
            strip,
            y: k.y.saturating_sub(row),
            mode,
        }
    }
}

impl Pen {
    fn at(x: i32) -> Pen
        ensures value { result ≡ pen_at x }
        ensures near { (result.place ≤ 3071) × (result.substitutes ≤ 0) }
    {
        Pen {
            place: words::place_of(x),
            substitutes: 0,
        }
    }

    // The pen moved over what is shown for one character, with the substitutes counted.
    fn after(self, step: Step) -> Pen
        requires { Near self }
        ensures value { result ≡ pen_after self step }
        ensures near { (result.place ≤ self.place + 65535) × (result.substitutes ≤ self.substitutes + 1) }
    {
        let place = self.place + step.advance as usize;
        if step.substitute {
            return Pen {
                place,
                substitutes: self.substitutes + 1,
            };
        }
        Pen {
            place,
            substitutes: self.substitutes,
        }
    }

    // How a call ends whose last pen this is.
    fn finish(self) -> Finish
        requires { Near self }
        ensures { result ≡ finish_of self }
    {
        Finish {
            pen: number_at(self.place),
            substitutes: self.substitutes as u32,
        }
    }
}

// A byte of a text, used as a code.
fn code(byte: u8) -> u32
    ensures { result ≡ byte }
{
    byte as u32
}

// The number that a pen's place stands for.
fn number_at(place: usize) -> i32
    requires { place ≤ farthest }
    ensures { result ≡ number_at place }
{
    place as i32 - 2048
}

// The pen after a text, by the tables of a font without an index and the advance of its dummy.
fn pen_along<F: Words>(
    h: Header,
    pointers: F,
    widths: F,
    dummy: u16,
    start: Pen,
    text: &[u8],
) -> Pen
    requires starting { Starting start }
    requires short { length text.now ≤ 64 }
    ensures value { result ≡ pen_along (steps_in h (F.as_words pointers) (F.as_words widths) dummy) start text.now }
    ensures near { Near result }
{
    let mut pen = start;
    for byte in text {
        pen = pen.after(fontbytes::step(h, pointers, widths, dummy, code(*byte)));
    }
    pen
}

// The pen after a text, by a font and where the bitmaps of its bodies begin.
fn pen_along_map<F: Words>(font: F, v: View, start: Pen, text: &[u8]) -> Pen
    requires starting { Starting start }
    requires short { length text.now ≤ 64 }
    ensures value { result ≡ pen_along (steps_of (face_from v (F.as_words font))) start text.now }
    ensures near { Near result }
{
    let bitmaps = fonts::bitmaps(font, v.header);
    let mut pen = start;
    for byte in text {
        pen = pen.after(fontbytes::found_step(font, v, &bitmaps, code(*byte)));
    }
    pen
}

fn last_pen<F: Words>(font: F, v: View, x: i32, text: &[u8]) -> Pen
    requires { length text.now ≤ 64 }
    ensures value { result ≡ last_pen (face_from v (F.as_words font)) x text.now }
    ensures near { Near result }
{
    let h = v.header;
    if h.index() {
        return pen_along_map(font, v, Pen::at(x), text);
    }
    let pointers = fonts::pointers(font, v.first());
    let widths = fonts::widths(font, h);
    let dummy = fontbytes::dummy_advance(h, pointers, widths);
    pen_along(h, pointers, widths, dummy, Pen::at(x), text)
}

// What measuring is refused for, after its font.
fn check_measure(at: i32, count: usize) -> Result<(), Refusal>
    ensures { returned result ≡ measure_number at count }
{
    if words::outside(at) {
        return Err(Refusal::Start);
    }
    if 64 < count {
        return Err(Refusal::LongLabel);
    }
    Ok(())
}

// Measuring with a font that has been read.
fn measure_read<F: Words>(font: F, v: View, x: i32, text: &[u8]) -> Reply
    ensures value { result ≡ measure_with (face_from v (F.as_words font)) x text.now }
    ensures number { returned result ≡ measure_number x (length text.now) }
{
    check_measure(x, text.len())?;
    Ok(last_pen(font, v, x, text).finish())
}

// The reply of an accepted painting, with no panel.
pub fn measure(font: &[u16], x: i32, text: &[u8]) -> Reply
    ensures value { result ≡ measure_of font.now x text.now }
    ensures numbers { TellsMeasure result (font_number font.now) font.now x text.now }
{
    let v = fonts::read(font)?;
    measure_read(font, v, x, text)
}

// Measuring with the font in bytes, which are read where they lie.
pub fn measure_bytes(font: &[u8], x: i32, text: &[u8]) -> Reply
    ensures value { result ≡ measure_file font.now x text.now }
    ensures numbers { TellsMeasure result (file_number font.now) (words_of font.now) x text.now }
{
    let v = fontbytes::read(font)?;
    measure_read(font, v, x, text)
}

// The first row of the panel that a picture reaches.
fn first_row(g: Glyph, k: Stroke) -> usize
    ensures { result ≡ min k.rows (k.y - (2048 + g.ascent)) }
{
    let above = 2048 + g.ascent as usize;
    if k.y <= above {
        return 0;
    }
    k.rows.min(k.y - above)
}

// The row of the panel behind the last that a picture reaches.
fn end_row(g: Glyph, k: Stroke) -> usize
    requires { k.y ≤ 65536 }
    ensures { result ≡ min k.rows (k.y + g.height - (2048 + g.ascent)) }
{
    let above = 2048 + g.ascent as usize;
    let below = k.y + g.height as usize;
    if below <= above {
        return 0;
    }
    k.rows.min(below - above)
}

// The columns that a picture shares with its strip, where its left column is at `left`: all counted from 4096 left of the panel.
fn shared_columns(g: Glyph, k: Stroke, left: usize) -> Strip
    requires { (left ≤ 4299300000) × (k.strip.from ≤ 2048) × (k.strip.upto ≤ 2048) }
    ensures { result ≡ shared g k left }
{
    Strip {
        from: left.max(k.strip.from + 4096),
        upto: (left + g.columns as usize).min(k.strip.upto + 4096),
    }
}

// A picture shares no column with its strip.
fn misses(g: Glyph, k: Stroke, pen: Pen) -> bool
    requires { (k.strip.from ≤ 2048) × (k.strip.upto ≤ 2048) × (pen.place ≤ farthest) }
    ensures { result ≡ true → (reach_of g k pen).rows ≡ 0 }
{
    let columns = shared_columns(g, k, pen.place + g.place as usize + k.strip.from);
    columns.upto <= columns.from
}

// The columns of a word from the one of this place on.
pub fn from_column(place: usize) -> u16
    ensures { result ≡ from_column place }
{
    0xFFFF >> (place % 16)
}

// The columns of a word up to the one of this place.
pub fn upto_column(place: usize) -> u16
    ensures { result ≡ upto_column place }
{
    0xFFFF - (0x7FFF >> (place % 16))
}

impl Reach {
    const NOTHING: Reach = Reach {
        rows: 0,
        last: 0,
        head: 0,
        tail: 0,
        at: 0,
        rowwords: 0,
        source: 0,
        shift: 0,
        raster: 0,
    };

    // What a picture reaches that shares these columns with its strip.
    fn over(g: Glyph, k: Stroke, left: usize, columns: Strip) -> Reach
        requires rows_bound { (k.rows ≤ 256) × (k.rowwords ≤ 128) × (k.y ≤ 65536) × (1 ≤ g.bitmap) }
        requires left_le_from { (left ≤ columns.from) × (4096 ≤ columns.from) × (columns.from < columns.upto) × (columns.upto ≤ 8192) }
        ensures value { result ≡ reach_over g k left columns }
        ensures near { Nearby result }
    {
        let row = first_row(g, k);
        let first = columns.from / 16;
        let end = columns.upto - 1;
        let bit = 16 * (g.bitmap as usize + first) + g.first as usize - left;
        let raster = g.raster as usize;
        Reach {
            rows: end_row(g, k).saturating_sub(row),
            last: end / 16 - first,
            head: from_column(columns.from),
            tail: upto_column(end),
            at: row * k.rowwords + first - 256,
            rowwords: k.rowwords,
            source: bit / 16 + (row + 2048 + g.ascent as usize).saturating_sub(k.y) * raster,
            shift: bit % 16,
            raster,
        }
    }

    fn of(g: Glyph, k: Stroke, pen: Pen) -> Reach
        requires rows_bound { (k.rows ≤ 256) × (k.rowwords ≤ 128) × (k.y ≤ 65536) × (1 ≤ g.bitmap) }
        requires from_bound { (k.strip.from ≤ 2048) × (k.strip.upto ≤ 2048) × (pen.place ≤ farthest) }
        ensures value { result ≡ reach_of g k pen }
        ensures near { Nearby result }
    {
        let left = pen.place + g.place as usize + k.strip.from;
        let columns = shared_columns(g, k, left);
        if columns.from < columns.upto {
            return Reach::over(g, k, left, columns);
        }
        Reach::NOTHING
    }

    // The words of the font that have its dots, and their neighbours, are all there.
    fn in_file(self, words: usize) -> bool
        requires le_rows { (1 ≤ self.rows) × (self.rows ≤ 256) × (self.last ≤ 255) }
        requires source_bound { (self.source ≤ 17179869184) × (self.raster ≤ 65535) }
        ensures { result ≡ in_file self words }
    {
        self.source + (self.rows - 1) * self.raster + self.last + 1 < words
    }

    // So, and in each row it has so many words behind the first.
    fn spans(self, last: usize, words: usize) -> bool
        requires le_rows { (1 ≤ self.rows) × (self.rows ≤ 256) × (self.last ≤ 255) }
        requires source_bound { (self.source ≤ 17179869184) × (self.raster ≤ 65535) }
        ensures { result ≡ spans_in self last words }
    {
        if self.last != last {
            return false;
        }
        self.in_file(words)
    }

    // The word of the font in which the dots of a row begin.
    fn source_of(self, row: usize) -> usize
        requires { (self.source ≤ 17179869184) × (self.raster ≤ 65535) × (row < 256) }
        ensures { result ≡ self.source + row * self.raster }
    {
        self.source + row * self.raster
    }

    // The first word that it reaches in a row.
    fn place_of(self, row: usize) -> usize
        requires { (self.at ≤ 65535) × (self.rowwords ≤ 128) × (row < 256) }
        ensures { result ≡ self.at + row * self.rowwords }
    {
        self.at + row * self.rowwords
    }
}

// Sixteen bits of two neighbouring words, from a bit of the first on. They are turned as a ring, with the first word last: so they lie in
// memory, and the compiler makes one load and one rotation of it.
fn two_words(high: u16, low: u16, shift: usize) -> u16
    requires { shift < 16 }
    ensures { result ≡ two_words high low shift }
{
    let ring = low as u32 * 65536 + high as u32;
    let turn = shift as u32;
    (((ring << turn) | (ring >> ((32 - turn) % 32))) % 65536) as u16
}

// Sixteen bits of a font, from a bit of word i on, where the word behind it is there too.
fn dots_from(font: &[u16], i: usize, shift: usize) -> u16
    requires { (i ≤ 34359738368) × (shift < 16) × (i + 1 < length font.now) }
    ensures { result ≡ window font.now i shift }
{
    two_words(font[i], font[i + 1], shift)
}

// Sixteen bits of a font, from a bit of word i on; there is none past its end.
fn window(font: &[u16], i: usize, shift: usize) -> u16
    requires { (i ≤ 34359738368) × (shift < 16) }
    ensures { result ≡ window font.now i shift }
{
    if i + 1 < font.len() {
        return dots_from(font, i, shift);
    }
    two_words(words::word_at(font, i), 0, shift)
}

// The same, where it may be known that the word behind it is there too.
fn dots<const IN_FILE: bool>(font: &[u16], i: usize, shift: usize) -> u16
    requires from { (i ≤ 34359738368) × (shift < 16) }
    requires in_file { IN_FILE ≡ true → i + 1 < length font.now }
    ensures { result ≡ window font.now i shift }
{
    if IN_FILE {
        return dots_from(font, i, shift);
    }
    window(font, i, shift)
}

// How a picture is marked, and on what. From here on `flip` is a panel, or the flip of a sheet. Where the marks settle, what is marked is
// no longer kept: keep changes as by Erase. Elsewhere nothing is asked of what is lent for a keep. Each way is a type: so the loops are
// compiled for each, and do not ask for the mode.
trait Marking {
    ghost mode: { Mode };

    ghost settles: { Bool };

    // The dots of a mask on word i.
    fn mark(mask: u16, i: usize, keep: &mut [u16], flip: &mut [u16])
        requires room { i < length flip.old }
        requires settling { settles ≡ true → i < length keep.old }
        ensures keep { keep.new ≡ cond settles (marked Erase mask i keep.old) keep.old }
        ensures flip { flip.new ≡ marked mode mask i flip.old };
}

// The dots of a mask on word i are no longer kept.
fn let_go(mask: u16, i: usize, keep: &mut [u16])
    requires { i < length keep.old }
    ensures { keep.new ≡ marked Erase mask i keep.old }
{
    keep[i] = Effect::erase(mask).apply(keep[i]);
}

// On a panel; Inverting on a sheet too.
struct Painting;

struct Erasing;

struct Inverting;

impl Marking for Painting {
    ghost mode = { Paint };

    ghost settles = { false };

    fn mark(mask: u16, i: usize, _keep: &mut [u16], flip: &mut [u16]) {
        flip[i] = Effect::paint(mask).apply(flip[i]);
    }
}

impl Marking for Erasing {
    ghost mode = { Erase };

    ghost settles = { false };

    fn mark(mask: u16, i: usize, _keep: &mut [u16], flip: &mut [u16]) {
        flip[i] = Effect::erase(mask).apply(flip[i]);
    }
}

impl Marking for Inverting {
    ghost mode = { Invert };

    ghost settles = { false };

    fn mark(mask: u16, i: usize, _keep: &mut [u16], flip: &mut [u16]) {
        flip[i] = Effect::invert(mask).apply(flip[i]);
    }
}

// On a sheet.
struct SettlingPaint;

struct SettlingErase;

impl Marking for SettlingPaint {
    ghost mode = { Paint };

    ghost settles = { true };

    fn mark(mask: u16, i: usize, keep: &mut [u16], flip: &mut [u16]) {
        Painting::mark(mask, i, keep, flip);
        let_go(mask, i, keep);
    }
}

impl Marking for SettlingErase {
    ghost mode = { Erase };

    ghost settles = { true };

    fn mark(mask: u16, i: usize, keep: &mut [u16], flip: &mut [u16]) {
        Erasing::mark(mask, i, keep, flip);
        let_go(mask, i, keep);
    }
}

// A picture in one word a row, on the rows that it reaches.
#[inline]
fn mark_narrow<M: Marking>(font: &[u16], r: Reach, keep: &mut [u16], flip: &mut [u16])
    requires within { Within r (length flip.old) }
    requires settling { M.settles ≡ true → Within r (length keep.old) }
    requires narrow { spans_in r 0 (length font.now) ≡ true }
    ensures keep { keep.new ≡ cond M.settles (rows_drawn font.now r Erase r.rows keep.old) keep.old }
    ensures flip { flip.new ≡ rows_drawn font.now r M.mode r.rows flip.old }
{
    for row in 0..r.rows {
        let dots = dots_from(font, r.source_of(row), r.shift) & r.head & r.tail;
        M::mark(dots, r.place_of(row), keep, flip);
    }
}

// One row of a picture in two words a row.
fn mark_two<M: Marking>(font: &[u16], r: Reach, row: usize, keep: &mut [u16], flip: &mut [u16])
    requires within { Within r (length flip.old) × (row < r.rows) }
    requires settling { M.settles ≡ true → Within r (length keep.old) }
    requires pair { spans_in r 1 (length font.now) ≡ true }
    ensures keep { keep.new ≡ cond M.settles (nth_row font.now r Erase row keep.old) keep.old }
    ensures flip { flip.new ≡ nth_row font.now r M.mode row flip.old }
{
    let from = r.source_of(row);
    let at = r.place_of(row);
    let first = dots_from(font, from, r.shift) & r.head;
    M::mark(first, at, keep, flip);
    let last = dots_from(font, from + 1, r.shift) & r.tail;
    M::mark(last, at + 1, keep, flip);
}

// A picture in two words a row, as a character is that begins in one word and ends in the next, on the rows that it reaches.
fn mark_pair<M: Marking>(font: &[u16], r: Reach, keep: &mut [u16], flip: &mut [u16])
    requires within { Within r (length flip.old) }
    requires settling { M.settles ≡ true → Within r (length keep.old) }
    requires pair { spans_in r 1 (length font.now) ≡ true }
    ensures keep { keep.new ≡ cond M.settles (rows_drawn font.now r Erase r.rows keep.old) keep.old }
    ensures flip { flip.new ≡ rows_drawn font.now r M.mode r.rows flip.old }
{
    for row in 0..r.rows {
        mark_two::<M>(font, r, row, keep, flip);
    }
}

// One row of any picture: its words before the last, and the last. A picture that does not lie in the file, as none does of a font that was
// read, has no dot past the end.
#[inline]
fn mark_line<M: Marking, const IN_FILE: bool>(
    font: &[u16],
    r: Reach,
    from: usize,
    at: usize,
    keep: &mut [u16],
    flip: &mut [u16],
)
    requires room { (at + r.last < length flip.old) × (at ≤ 98303) }
    requires settling { M.settles ≡ true → at + r.last < length keep.old }
    requires source { (from ≤ 17196646400) × (r.shift < 16) × (r.last ≤ 255) }
    requires in_file { IN_FILE ≡ true → from + r.last + 1 < length font.now }
    ensures keep { keep.new ≡ cond M.settles (row_drawn font.now r Erase from at (r.last + 1) keep.old) keep.old }
    ensures flip { flip.new ≡ row_drawn font.now r M.mode from at (r.last + 1) flip.old }
{
    let mut mask = r.head;
    for w in 0..r.last {
        let dots = dots::<IN_FILE>(font, from + w, r.shift) & mask;
        M::mark(dots, at + w, keep, flip);
        mask = 0xFFFF;
    }
    let last = dots::<IN_FILE>(font, from + r.last, r.shift) & mask & r.tail;
    M::mark(last, at + r.last, keep, flip);
}

// Any picture, on the rows that it reaches. Where a row begins is carried along, since the compiler makes sums of products in an innermost
// loop alone.
fn mark_lines<M: Marking, const IN_FILE: bool>(
    font: &[u16],
    r: Reach,
    keep: &mut [u16],
    flip: &mut [u16],
)
    requires within { Within r (length flip.old) }
    requires settling { M.settles ≡ true → Within r (length keep.old) }
    requires in_file { IN_FILE ≡ true → in_file r (length font.now) ≡ true }
    ensures keep { keep.new ≡ cond M.settles (rows_drawn font.now r Erase r.rows keep.old) keep.old }
    ensures flip { flip.new ≡ rows_drawn font.now r M.mode r.rows flip.old }
{
    let mut from = r.source;
    let mut at = r.at;
    for _row in 0..r.rows {
        mark_line::<M, IN_FILE>(font, r, from, at, keep, flip);
        from += r.raster;
        at += r.rowwords;
    }
}

// A picture in any words a row, in the file or not.
fn mark_far<M: Marking>(font: &[u16], r: Reach, keep: &mut [u16], flip: &mut [u16])
    requires within { Within r (length flip.old) }
    requires settling { M.settles ≡ true → Within r (length keep.old) }
    ensures keep { keep.new ≡ cond M.settles (rows_drawn font.now r Erase r.rows keep.old) keep.old }
    ensures flip { flip.new ≡ rows_drawn font.now r M.mode r.rows flip.old }
{
    if r.in_file(font.len()) {
        mark_lines::<M, true>(font, r, keep, flip);
        return;
    }
    mark_lines::<M, false>(font, r, keep, flip);
}

// The same, where one in two words a row has a loop of its own.
fn mark_other<M: Marking>(font: &[u16], r: Reach, keep: &mut [u16], flip: &mut [u16])
    requires within { Within r (length flip.old) }
    requires settling { M.settles ≡ true → Within r (length keep.old) }
    ensures keep { keep.new ≡ cond M.settles (rows_drawn font.now r Erase r.rows keep.old) keep.old }
    ensures flip { flip.new ≡ rows_drawn font.now r M.mode r.rows flip.old }
{
    if r.spans(1, font.len()) {
        mark_pair::<M>(font, r, keep, flip);
        return;
    }
    mark_far::<M>(font, r, keep, flip);
}

// A picture's marks.
fn mark_picture<M: Marking>(
    font: &[u16],
    g: Glyph,
    k: Stroke,
    pen: Pen,
    keep: &mut [u16],
    flip: &mut [u16],
)
    requires drawable { Drawable k (length flip.old) }
    requires settling { M.settles ≡ true → stroke_words k ≤ length keep.old }
    requires glyph { (pen.place ≤ farthest) × (1 ≤ g.bitmap) }
    requires mode { k.mode ≡ M.mode }
    ensures keep { keep.new ≡ kept_if M.settles (picture_effect (dot_of font.now) (erasing k) pen g) k keep.old }
    ensures flip { flip.new ≡ on_panel (picture_effect (dot_of font.now) k pen g) k flip.old }
{
    let reach = Reach::of(g, k, pen);
    if reach.rows == 0 {
        return;
    }
    if reach.spans(0, font.len()) {
        mark_narrow::<M>(font, reach, keep, flip);
        return;
    }
    mark_other::<M>(font, reach, keep, flip);
}

// The same of a font that has an index. What its loop calls is its own: so the compiler makes it a part of that loop, and leaves
// `mark_picture` a part of its.
fn mark_named<M: Marking>(
    font: &[u16],
    g: Glyph,
    k: Stroke,
    pen: Pen,
    keep: &mut [u16],
    flip: &mut [u16],
)
    requires drawable { Drawable k (length flip.old) }
    requires settling { M.settles ≡ true → stroke_words k ≤ length keep.old }
    requires glyph { (pen.place ≤ farthest) × (1 ≤ g.bitmap) }
    requires mode { k.mode ≡ M.mode }
    ensures keep { keep.new ≡ kept_if M.settles (picture_effect (dot_of font.now) (erasing k) pen g) k keep.old }
    ensures flip { flip.new ≡ on_panel (picture_effect (dot_of font.now) k pen g) k flip.old }
{
    if misses(g, k, pen) {
        return;
    }
    let reach = Reach::of(g, k, pen);
    if reach.rows == 0 {
        return;
    }
    if reach.spans(0, font.len()) {
        mark_narrow::<M>(font, reach, keep, flip);
        return;
    }
    mark_far::<M>(font, reach, keep, flip);
}

// The characters of a text, in order, of a font that has an index. The bodies of the font are walked over once. Hands back the pen after
// the last.
fn mark_mapped<M: Marking>(
    font: &[u16],
    v: View,
    k: Stroke,
    start: Pen,
    text: &[u8],
    keep: &mut [u16],
    flip: &mut [u16],
) -> Pen
    requires drawable { Drawable k (length flip.old) }
    requires settling { M.settles ≡ true → stroke_words k ≤ length keep.old }
    requires starting { Starting start × (index v.header ≡ true) }
    requires short { length text.now ≤ 64 }
    requires mode { k.mode ≡ M.mode }
    ensures value { result ≡ pen_along (steps_of (face_from v font.now)) start text.now }
    ensures near { Near result }
    ensures keep { keep.new ≡ kept_if M.settles (erased_by (face_from v font.now) k start text.now) k keep.old }
    ensures flip { flip.new ≡ on_panel (label_effect (face_from v font.now) k start text.now) k flip.old }
{
    let h = v.header;
    let mut bitmaps = [5u32; 128];
    fonts::find_bitmaps(font, h, &mut bitmaps);
    let map = fonts::map(font, h);
    let widths = fonts::widths(font, h);
    let mut pen = start;
    for byte in text {
        let n = Named::of(h, map, widths, code(*byte));
        let g = Glyph::named(font, v, &bitmaps, n);
        mark_named::<M>(font, g, k, pen, keep, flip);
        pen = pen.after(g.step());
    }
    pen
}

// The characters of a text, in order. Hands back the pen after the last.
fn mark_text<M: Marking>(
    font: &[u16],
    v: View,
    k: Stroke,
    start: Pen,
    text: &[u8],
    keep: &mut [u16],
    flip: &mut [u16],
) -> Pen
    requires drawable { Drawable k (length flip.old) }
    requires settling { M.settles ≡ true → stroke_words k ≤ length keep.old }
    requires starting { Starting start }
    requires short { length text.now ≤ 64 }
    requires mode { k.mode ≡ M.mode }
    ensures value { result ≡ pen_along (steps_of (face_from v font.now)) start text.now }
    ensures near { Near result }
    ensures keep { keep.new ≡ kept_if M.settles (erased_by (face_from v font.now) k start text.now) k keep.old }
    ensures flip { flip.new ≡ on_panel (label_effect (face_from v font.now) k start text.now) k flip.old }
{
    if v.header.index() {
        return mark_mapped::<M>(font, v, k, start, text, keep, flip);
    }
    let pointers = fonts::pointers(font, v.first());
    let widths = fonts::widths(font, v.header);
    let mut pen = start;
    for byte in text {
        let g = Glyph::at(v, pointers, widths, code(*byte));
        mark_picture::<M>(font, g, k, pen, keep, flip);
        pen = pen.after(g.step());
    }
    pen
}

// A text on the panel.
fn paint_text(font: &[u16], v: View, k: Stroke, start: Pen, text: &[u8], panel: &mut [u16]) -> Pen
    requires drawable { Drawable k (length panel.old) }
    requires starting { Starting start }
    requires short { length text.now ≤ 64 }
    ensures value { result ≡ pen_along (steps_of (face_from v font.now)) start text.now }
    ensures near { Near result }
    ensures panel { panel.new ≡ on_panel (label_effect (face_from v font.now) k start text.now) k panel.old }
{
    let mut none = [0u16; 1];
    match k.mode {
        Mode::Paint => mark_text::<Painting>(font, v, k, start, text, &mut none, panel),
        Mode::Erase => mark_text::<Erasing>(font, v, k, start, text, &mut none, panel),
        Mode::Invert => mark_text::<Inverting>(font, v, k, start, text, &mut none, panel),
    }
}

// A text joined onto a sheet.
fn join_text(
    font: &[u16],
    v: View,
    k: Stroke,
    start: Pen,
    text: &[u8],
    keep: &mut [u16],
    flip: &mut [u16],
) -> Pen
    requires drawable { Drawable k (length keep.old) }
    requires flip_room { stroke_words k ≤ length flip.old }
    requires starting { Starting start }
    requires short { length text.now ≤ 64 }
    ensures value { result ≡ pen_along (steps_of (face_from v font.now)) start text.now }
    ensures near { Near result }
    ensures keep { keep.new ≡ on_panel (cleared (label_effect (face_from v font.now) k start text.now)) k keep.old }
    ensures flip { flip.new ≡ on_panel (label_effect (face_from v font.now) k start text.now) k flip.old }
{
    match k.mode {
        Mode::Paint => mark_text::<SettlingPaint>(font, v, k, start, text, keep, flip),
        Mode::Erase => mark_text::<SettlingErase>(font, v, k, start, text, keep, flip),
        Mode::Invert => mark_text::<Inverting>(font, v, k, start, text, keep, flip),
    }
}

// What a label is refused for by its own numbers, after its font and its panel.
fn check_label(l: Label, bytes: usize) -> Result<(), Refusal>
    ensures { returned result ≡ label_number l bytes }
{
    if 31 < l.strip {
        return Err(Refusal::Strip);
    }
    if words::outside(l.x) {
        return Err(Refusal::Start);
    }
    if words::outside(l.y) {
        return Err(Refusal::Start);
    }
    if 64 < bytes {
        return Err(Refusal::LongLabel);
    }
    if 2 < l.mode {
        return Err(Refusal::Mode);
    }
    Ok(())
}

// What a label is refused for with a font that has been read, where it is lent one slice of so many words.
pub fn check_with(s: Shape, lent: usize, l: Label, bytes: usize) -> Result<(), Refusal>
    ensures { returned result ≡ number_with s (lent ∷ []) l bytes }
{
    check_panel(s, lent)?;
    check_label(l, bytes)
}

// Paints a label with a font that has been read.
pub fn paint_label(
    font: &[u16],
    v: View,
    s: Shape,
    l: Label,
    text: &[u8],
    panel: &mut [u16],
) -> Reply
    ensures value { result ≡ reply_with (face_from v font.now) s (length panel.old ∷ []) l text.now }
    ensures panel { panel.new ≡ paint_with (face_from v font.now) s l text.now panel.old }
    ensures numbers { TellsWith result (face_from v font.now) s (length panel.old ∷ []) l text.now }
{
    check_with(s, panel.len(), l, text.len())?;
    Ok(paint_text(font, v, Stroke::of(s, l), Pen::at(l.x), text, panel).finish())
}

// Paints on the words of one row what a label paints on that row of a panel, with a font that has been read: so it is found out what the
// label would leave there. Nothing is altered where the label is refused, where the row is over 255, or where the words are too few.
pub fn paint_row(
    font: &[u16],
    v: View,
    s: Shape,
    l: Label,
    text: &[u8],
    row: usize,
    words: &mut [u16],
)
    ensures { words.new ≡ row_with (face_from v font.now) s l text.now row words.old }
{
    let one = Shape {
        rowwords: s.rowwords,
        rows: 1,
        width: s.width,
    };
    if 255 < row {
        return;
    }
    if check_with(one, words.len(), l, text.len()).is_err() {
        return;
    }
    paint_text(
        font,
        v,
        Stroke::in_row(one, l, row),
        Pen::at(l.x),
        text,
        words,
    );
}

// Joins a label's effect onto keep and flip, with a font that has been read.
pub fn join_label(
    font: &[u16],
    v: View,
    s: Shape,
    l: Label,
    text: &[u8],
    keep: &mut [u16],
    flip: &mut [u16],
) -> Reply
    ensures value { result ≡ reply_with (face_from v font.now) s (lengths_of keep.old flip.old) l text.now }
    ensures keep { keep.new ≡ (join_with (face_from v font.now) s l text.now (sheet_of keep.old flip.old)).keep }
    ensures flip { flip.new ≡ (join_with (face_from v font.now) s l text.now (sheet_of keep.old flip.old)).flip }
    ensures numbers { TellsWith result (face_from v font.now) s (lengths_of keep.old flip.old) l text.now }
{
    let shorter = keep.len().min(flip.len());
    check_with(s, shorter, l, text.len())?;
    Ok(join_text(font, v, Stroke::of(s, l), Pen::at(l.x), text, keep, flip).finish())
}

// Paints a label into one of the thirty-two strips of a panel.
pub fn paint(font: &[u16], s: Shape, l: Label, text: &[u8], panel: &mut [u16]) -> Reply
    ensures value { result ≡ reply_of s (length panel.old ∷ []) (call_of font.now l text.now) }
    ensures panel { panel.new ≡ paint_after s (call_of font.now l text.now) panel.old }
    ensures numbers { TellsCall result s (length panel.old ∷ []) (call_of font.now l text.now) }
{
    let v = fonts::read(font)?;
    paint_label(font, v, s, l, text, panel)
}
