// Reading Strike files of the four kinds, with an index and without: what a file is refused for, and what it shows for a code.
#![tactic(auto)]

ghost use Rattle.std.specs.Prelude.{◌≡◌, cond, true, ◌||◌, ltb, length, ◌+◌, ◌-◌, ◌*◌, ◌≤◌, min, max, IfOk};
ghost use Rattle.words.specs.Word.{word, over};
ghost use Rattle.words.specs.Search.{some_below};
ghost use Rattle.words.specs.Refusal.{returned};
ghost use Rattle.fonts.specs.Strike.{kerned_format, index_format, count_at, header_by, header_of, body_of, view_of, kerned, index, codes};
ghost use Rattle.fonts.specs.Strike.{map_at, first_at, behind, height, tallest, largest, bitmap_words, pointer_count};
ghost use Rattle.fonts.specs.Strike.{no_strike, first_strike, strike_by, bitmap_start, bitmaps_of, map_of, pointers_of, widths_of, extent_of};
ghost use Rattle.fonts.specs.Entry.{name_of, name_in, entry_with, entry_at, marked, columns_of, left_of, advance_of};
ghost use Rattle.fonts.specs.Reading.{bad_format, kerned_too_short, bad_codes, bad_box, bad_sizes, wrong_length, wrong_end};
ghost use Rattle.fonts.specs.Reading.{falls_from, front_number, head_number, body_number, bodies_number};
ghost use Rattle.fonts.specs.Reading.{pairs_of, EachHas, NamesWithin, lost, lost_at, nameless, no_dummy};
ghost use Rattle.fonts.specs.Reading.{table_number, number_by, font_number};
ghost use Rattle.fonts.specs.Reading.{reading_of};
ghost use Rattle.fonts.specs.Face.{in_range, picture_of, glyph_from, step_of, dot_of, dots_of, row_of};
ghost use Rattle.fonts.specs.Kinds.{only_bitmap, there, glyph_in, step_by, glyph_tabled, named_at, named_in, glyph_named};

use words::{Refusal, Words};

// The words at the front of a font file that the reader looks at. A plain file has no box, and its fbbox is 0; a file without an index has
// one body.
#[derive(Clone, Copy)]
pub struct Header {
    pub format: u16,
    pub min: u16,
    pub max: u16,
    pub fbbox: u16,
    pub bodies: u16,
}

// The head of a strike's body, which stands before the bitmap.
#[derive(Clone, Copy)]
pub struct Body {
    pub words: u16,
    pub ascent: u16,
    pub descent: u16,
    pub xoffset: u16,
    pub raster: u16,
}

// A body of a font: where its bitmap begins in the file, and its head.
#[derive(Clone, Copy)]
pub struct Strike {
    pub bitmap: u32,
    pub body: Body,
}

// What finds every glyph of a font that has been read: the words at the front, and the head of the first body.
#[derive(Clone, Copy)]
pub struct View {
    pub header: Header,
    pub body: Body,
}

// What a map entry names: a body, and a code in it, or that there is none.
#[derive(Clone, Copy)]
pub struct Name {
    pub missing: bool,
    pub body: usize,
    pub code: u32,
}

// What the map and the width entries say of what is shown for a code: the two entries, and whether they are the dummy's.
#[derive(Clone, Copy)]
pub struct Named {
    pub entry: u16,
    pub width: u16,
    pub substitute: bool,
}

// What the tables say of a code: the columns from left up to, and without, right, and the width entry.
#[derive(Clone, Copy)]
pub struct Entry {
    pub left: u16,
    pub right: u16,
    pub width: u16,
}

// The rows that some picture of a font may have above the baseline, and below.
#[derive(Clone, Copy)]
pub struct Extent {
    pub above: u16,
    pub below: u16,
}

// How a character moves the pen, and whether the dummy stood in for its code.
#[derive(Clone, Copy)]
pub struct Step {
    pub advance: u16,
    pub substitute: bool,
}

// What a font shows for a code.
#[derive(Clone, Copy)]
pub struct Glyph {
    // Where its strike's bitmap begins in the file, and the words of one row of it.
    pub bitmap: u32,
    pub raster: u16,
    // The picture: its first column in the strike, and how many.
    pub first: u16,
    pub columns: u16,
    // Its rows: how many of them stand above the baseline, and how many in all.
    pub ascent: u16,
    pub height: u32,
    // Where the left column goes, from the pen, counted from 2048 dots to its left.
    pub place: u32,
    // How far the pen moves.
    pub advance: u16,
    // The dummy stands in for a code that does not exist.
    pub substitute: bool,
}

fn kerned_format(format: u16) -> bool
    ensures { result ≡ kerned_format format }
{
    words::bit(format, 3) == 1
}

fn index_format(format: u16) -> bool
    ensures { result ≡ index_format format }
{
    words::bit(format, 1) == 1
}

// The word that says how many bodies a file with an index has.
pub fn count_at(format: u16) -> usize
    ensures { result ≡ count_at format }
{
    if kerned_format(format) {
        return 10;
    }
    6
}

// One word or the other.
fn word_if(test: bool, yes: u16, no: u16) -> u16
    ensures { result ≡ cond test yes no }
{
    if test {
        return yes;
    }
    no
}

impl Header {
    // By words 0, 1, 2 and 4 of a file, the last of which is the box word only in a kerned one, and by the word that counts its bodies,
    // which it does only where there is an index.
    pub fn by(format: u16, min: u16, max: u16, fifth: u16, count: u16) -> Header
        ensures { result ≡ header_by format min max fifth count }
    {
        Header {
            format,
            min,
            max,
            fbbox: word_if(kerned_format(format), fifth, 0),
            bodies: word_if(index_format(format), count, 1),
        }
    }

    fn of<F: Words>(font: F) -> Header
        ensures { result ≡ header_of (F.as_words font) }
    {
        let format = font.word(0);
        Header::by(
            format,
            font.word(1),
            font.word(2),
            font.word(4),
            font.word(count_at(format)),
        )
    }

    pub fn kerned(self) -> bool
        ensures { result ≡ kerned self }
    {
        kerned_format(self.format)
    }

    pub fn index(self) -> bool
        ensures { result ≡ index self }
    {
        index_format(self.format)
    }

    // n, the number of codes from min to max; 1 where min is past max, which 3 refuses. The dummy's entry is so many places past min's.
    pub fn codes(self) -> usize
        ensures { result ≡ codes self }
    {
        if self.max < self.min {
            return 1;
        }
        (self.max - self.min) as usize + 1
    }

    // How many places past min's a code's entry is; 0 for a code below min, which has none.
    pub fn place(self, code: u32) -> usize
        ensures { result ≡ code - self.min }
    {
        (code as usize).saturating_sub(self.min as usize)
    }

    // Where the map begins, in a file that has one.
    pub fn map_at(self) -> usize
        ensures value { result ≡ map_at self }
        ensures small { result ≤ 11 }
    {
        if self.kerned() {
            return 11;
        }
        7
    }

    // Where the first body begins.
    pub fn first_at(self) -> usize
        ensures value { result ≡ first_at self }
        ensures small { result ≤ 65548 }
    {
        if self.index() {
            return self.map_at() + self.codes() + 1;
        }
        if self.kerned() {
            return 8;
        }
        4
    }

    // Where the one bitmap of a file without an index begins.
    fn only_bitmap(self) -> u32
        ensures { result ≡ only_bitmap self }
    {
        if self.kerned() {
            return 13;
        }
        9
    }

    // How many words stand behind the last body.
    fn behind(self) -> usize
        ensures value { result ≡ behind self }
        ensures small { result ≤ 65537 }
    {
        if self.kerned() {
            return self.codes() + 1;
        }
        0
    }
}

impl Body {
    // The head of the body that begins with word `at`. Where all its words are there they are looked at with one test.
    fn of<F: Words>(font: F, at: usize) -> Body
        requires { at ≤ 4294967295 }
        ensures { result ≡ body_of (F.as_words font) at }
    {
        if at + 4 < font.count() {
            return Body {
                words: font.word(at),
                ascent: font.word(at + 1),
                descent: font.word(at + 2),
                xoffset: font.word(at + 3),
                raster: font.word(at + 4),
            };
        }
        Body {
            words: font.word(at),
            ascent: font.word(at + 1),
            descent: font.word(at + 2),
            xoffset: font.word(at + 3),
            raster: font.word(at + 4),
        }
    }

    fn height(self) -> usize
        ensures value { result ≡ height self }
        ensures small { result ≤ tallest }
    {
        self.ascent as usize + self.descent as usize
    }

    fn bitmap_words(self) -> usize
        ensures value { result ≡ bitmap_words self }
        ensures small { result ≤ largest }
    {
        self.raster as usize * self.height()
    }

    // How many pointers its length word leaves after five words and the bitmap.
    pub fn pointers(self) -> u16
        ensures { result ≡ pointer_count self }
    {
        (self.words as usize).saturating_sub(self.bitmap_words() + 5) as u16
    }
}

impl Strike {
    // A body that is not there.
    pub fn nothing() -> Strike
        ensures { result ≡ no_strike }
    {
        Strike {
            bitmap: 5,
            body: Body {
                words: 0,
                ascent: 0,
                descent: 0,
                xoffset: 0,
                raster: 0,
            },
        }
    }

    // Where the pointers begin.
    pub fn pointers_at(self) -> usize
        ensures value { result ≡ self.bitmap + bitmap_words self.body }
        ensures small { result ≤ 4294967295 + largest }
    {
        self.bitmap as usize + self.body.bitmap_words()
    }
}

// The column pointers of a body: the part of the file that begins after the bitmap.
pub fn pointers<F: Words>(font: F, s: Strike) -> F
    ensures words { F.as_words result ≡ pointers_of s (F.as_words font) }
    ensures held { F.held result ≡ F.part_held (s.bitmap + bitmap_words s.body) (pointer_count s.body) (F.held font) }
{
    font.part(s.pointers_at(), s.body.pointers() as usize)
}

// The width entries: the last part of the file.
pub fn widths<F: Words>(font: F, h: Header) -> F
    ensures words { F.as_words result ≡ widths_of h (F.as_words font) }
    ensures held { F.held result ≡ F.part_held (length (F.as_words font) - (codes h + 1)) (codes h + 1) (F.held font) }
{
    let entries = h.codes() + 1;
    font.part(font.count().saturating_sub(entries), entries)
}

// The map: the part of the file behind the words at the front.
pub fn map<F: Words>(font: F, h: Header) -> F
    ensures words { F.as_words result ≡ map_of h (F.as_words font) }
    ensures held { F.held result ≡ F.part_held (map_at h) (codes h + 1) (F.held font) }
{
    font.part(h.map_at(), h.codes() + 1)
}

// Writes into a table where the bitmap of each body begins: found by walking over the bodies once. What the table has behind them stays.
pub fn find_bitmaps<F: Words>(font: F, h: Header, table: &mut [u32])
    ensures { table.new ≡ over (min (length table.old) h.bodies) (bitmap_start h (F.as_words font)) table.old }
{
    let mut at = h.first_at();
    for k in 0..table.len().min(h.bodies as usize) {
        table[k] = at as u32 + 5;
        at += font.word(at) as usize;
    }
}

// The same as a table of its own. Of bodies that are not there it is 5.
pub fn bitmaps<F: Words>(font: F, h: Header) -> [u32; 128]
    ensures { result ≡ bitmaps_of h (F.as_words font) }
{
    let mut table = [5u32; 128];
    find_bitmaps(font, h, &mut table);
    table
}

// Number i of a list; 0 past its end.
pub fn number_at(list: &[u32], i: usize) -> u32
    ensures { result ≡ word list.now i }
{
    list.get(i).copied().unwrap_or(0)
}

impl View {
    pub fn of<F: Words>(font: F) -> View
        ensures { result ≡ view_of (F.as_words font) }
    {
        let header = Header::of(font);
        let body = Body::of(font, header.first_at());
        View { header, body }
    }

    // The first body.
    pub fn first(self) -> Strike
        ensures { result ≡ first_strike self }
    {
        let body = self.body;
        Strike {
            bitmap: self.header.first_at() as u32 + 5,
            body,
        }
    }

    // Body k, where the bitmaps of all are known.
    pub fn strike<F: Words>(self, font: F, bitmaps: &[u32], k: usize) -> Strike
        ensures { result ≡ strike_by self bitmaps.now (F.as_words font) k }
    {
        if k == 0 {
            return self.first();
        }
        if self.header.bodies as usize <= k {
            return Strike::nothing();
        }
        let bitmap = number_at(bitmaps, k);
        Strike {
            bitmap,
            body: Body::of(font, (bitmap as usize).saturating_sub(5)),
        }
    }
}

impl Name {
    // By an entry of the map.
    pub fn of(entry: u16) -> Name
        ensures value { result ≡ name_of entry }
        ensures small { (result.body ≤ 127) × (result.code ≤ 255) }
    {
        Name {
            missing: words::bit(entry, 0) == 1,
            body: entry as usize / 256 % 128,
            code: entry as u32 % 256,
        }
    }
}

// What the tables mark as absent: the map's sign bit, and in a kerned file a width entry FFFF.
pub fn marked(h: Header, missing: bool, width: u16) -> bool
    ensures { result ≡ marked h missing width }
{
    if missing {
        return true;
    }
    if h.kerned() {
        return width == 0xFFFF;
    }
    false
}

impl Entry {
    // By a code of a body and its width entry.
    fn with(pointers: &[u16], code: usize, width: u16) -> Entry
        requires { code ≤ 4294967296 }
        ensures { result ≡ entry_with pointers.now code width }
    {
        if code + 1 < pointers.len() {
            return Entry {
                left: pointers[code],
                right: pointers[code + 1],
                width,
            };
        }
        Entry {
            left: words::word_at(pointers, code),
            right: words::word_at(pointers, code + 1),
            width,
        }
    }

    // Without an index, the entry k places past min's.
    fn at(pointers: &[u16], widths: &[u16], k: usize) -> Entry
        requires { k ≤ 4294967296 }
        ensures { result ≡ entry_at pointers.now widths.now k }
    {
        Entry {
            left: words::word_at(pointers, k),
            right: words::word_at(pointers, k + 1),
            width: words::word_at(widths, k),
        }
    }

    fn columns(self) -> u16
        ensures { result ≡ columns_of self }
    {
        if self.right < self.left {
            return 0;
        }
        self.right - self.left
    }

    // Where the left column goes, from the pen, counted from 2048 dots to its left.
    fn place(self, h: Header) -> u32
        ensures { result ≡ left_of h self }
    {
        if h.kerned() {
            return words::place_of_word(h.fbbox) as u32 + (self.width / 256) as u32;
        }
        2048
    }

    pub fn advance(self, h: Header) -> u16
        ensures { result ≡ advance_of h self }
    {
        if h.kerned() {
            return self.width % 256;
        }
        self.columns()
    }
}

fn bad_format(h: Header) -> bool
    ensures { result ≡ bad_format h }
{
    if words::bit(h.format, 0) == 0 {
        return true;
    }
    0 < h.format % 4096
}

fn kerned_too_short(h: Header, count: usize) -> bool
    ensures { result ≡ kerned_too_short h count }
{
    if h.kerned() {
        return count < 13;
    }
    false
}

fn bad_codes(h: Header) -> bool
    ensures { result ≡ bad_codes h }
{
    if h.max < h.min {
        return true;
    }
    255 < h.max
}

fn bad_box(h: Header) -> bool
    ensures { result ≡ bad_box h }
{
    if h.kerned() {
        return words::not_within(1793, 2303, words::place_of_word(h.fbbox));
    }
    false
}

// The words before the first body are not all there.
fn map_cut(h: Header, count: usize) -> bool
    ensures { result ≡ ltb count (first_at h) }
{
    count < h.first_at()
}

// What a file of so many words is refused for by the words before its first body alone.
pub fn check_front(h: Header, count: usize) -> Result<(), Refusal>
    ensures { returned result ≡ front_number h count }
{
    if count < 9 {
        return Err(Refusal::FontTooShort);
    }
    if bad_format(h) {
        return Err(Refusal::NotAStrike);
    }
    if kerned_too_short(h, count) {
        return Err(Refusal::FontTooShort);
    }
    if bad_codes(h) {
        return Err(Refusal::FontCodes);
    }
    if words::not_within(1, 128, h.bodies as usize) {
        return Err(Refusal::BodyCount);
    }
    if map_cut(h, count) {
        return Err(Refusal::FontTooShort);
    }
    if bad_box(h) {
        return Err(Refusal::FontSize);
    }
    Ok(())
}

fn bad_sizes(b: Body) -> bool
    ensures { result ≡ bad_sizes b }
{
    if words::not_within(1, 256, b.height()) {
        return true;
    }
    if words::not_within(1, 4096, b.raster as usize) {
        return true;
    }
    if 0 < b.xoffset {
        return true;
    }
    false
}

// The length word is not what it must be: with an index it leaves fewer than two pointers; without, not n + 2.
fn wrong_length(h: Header, b: Body) -> bool
    ensures { result ≡ wrong_length h b }
{
    let two = b.bitmap_words() + 7;
    if h.index() {
        return (b.words as usize) < two;
    }
    b.words as usize != two + h.codes()
}

// The file does not have the words of a body that ends with word `end`; or, behind the last, not those that belong there.
fn wrong_end(h: Header, end: usize, last: bool, count: usize) -> bool
    requires { end ≤ 4295032830 }
    ensures { result ≡ wrong_end h end last count }
{
    if last {
        return count != end + h.behind();
    }
    count < end
}

// What a file of so many words is refused for by the head of the body that begins with word `at`.
pub fn check_head(h: Header, b: Body, at: u32, last: bool, count: usize) -> Result<(), Refusal>
    ensures { returned result ≡ head_number h b at last count }
{
    let at = at as usize;
    if count < at + 5 {
        return Err(Refusal::FontLength);
    }
    if bad_sizes(b) {
        return Err(Refusal::FontSize);
    }
    if wrong_length(h, b) {
        return Err(Refusal::FontLength);
    }
    if wrong_end(h, at + b.words as usize, last, count) {
        return Err(Refusal::FontLength);
    }
    Ok(())
}

// A pointer is smaller than the one before, or some pointer was.
pub fn fallen_with(fallen: bool, before: u16, pointer: u16) -> bool
    ensures { result ≡ (ltb pointer before || fallen) }
{
    if pointer < before {
        return true;
    }
    fallen
}

// Each is compared with the one before, and the loop goes on where one falls: so the compiler looks at several at once. Of words it does so
// where the one before is read again, and of bytes where it is kept.
fn falls<F: Words>(pointers: F) -> bool
    ensures { result ≡ falls_from 0 (F.as_words pointers) }
{
    let mut fallen = false;
    let mut before = pointers.word(0);
    for i in 1..pointers.count() {
        if F::READ_AGAIN {
            before = pointers.word(i - 1);
        }
        let pointer = pointers.word(i);
        fallen = fallen_with(fallen, before, pointer);
        before = pointer;
    }
    fallen
}

// By whether the pointers of a body fall, and by the last of them.
pub fn bad_pointers(b: Body, falls: bool, last: u16) -> bool
    ensures { result ≡ (falls || ltb (16 * b.raster) last) }
{
    if falls {
        return true;
    }
    16 * (b.raster as usize) < last as usize
}

// The head of the body that begins with word `at`, or what a font is refused for by that body.
fn check_body<F: Words>(font: F, h: Header, at: u32, last: bool) -> Result<Body, Refusal>
    requires { at ≤ 4294967290 }
    ensures number { returned result ≡ body_number h (F.as_words font) at last }
    ensures body { IfOk result (λ body. body ≡ body_of (F.as_words font) at) }
{
    let body = Body::of(font, at as usize);
    check_head(h, body, at, last, font.count())?;
    let table = pointers(
        font,
        Strike {
            bitmap: at + 5,
            body,
        },
    );
    let end = table.word(table.count().saturating_sub(1));
    if bad_pointers(body, falls(table), end) {
        return Err(Refusal::Pointers);
    }
    Ok(body)
}

// The fewest pointers that one of the bodies has, or what the first of them that is refused is refused for.
fn check_bodies<F: Words>(font: F, h: Header) -> Result<u16, Refusal>
    ensures number { returned result ≡ bodies_number h (F.as_words font) h.bodies }
    ensures fewest { IfOk result (λ fewest. EachHas h (F.as_words font) h.bodies fewest) }
{
    let count = h.bodies as usize;
    let mut fewest: u16 = 65535;
    let mut at = h.first_at();
    for k in 0..count {
        let body = check_body(font, h, at as u32, k + 1 == count)?;
        fewest = fewest.min(body.pointers());
        at += body.words as usize;
    }
    Ok(fewest)
}

// How many pointers each body has; none where it is not there.
fn pairs<F: Words>(font: F, h: Header) -> [u16; 128]
    ensures { result ≡ pairs_of h (F.as_words font) }
{
    let mut table = [0u16; 128];
    let mut at = h.first_at();
    for k in 0..(h.bodies as usize).min(128) {
        let body = Body::of(font, at);
        table[k] = body.pointers();
        at += body.words as usize;
    }
    table
}

// The entry at k is present and names no picture, where the body that it names has so many pointers. Its width entry is read only where it
// names none.
fn lost<F: Words>(h: Header, name: Name, pointers: u16, widths: F, k: usize) -> bool
    ensures { result ≡ lost h name (word (F.as_words widths) k) pointers }
{
    if name.code as usize + 1 < pointers as usize {
        return false;
    }
    !marked(h, name.missing, widths.word(k))
}

// Some entry of the map does: looked for entry by entry.
fn some_lost<F: Words>(font: F, h: Header) -> bool
    requires { (index h ≡ true) × (first_at h ≤ length (F.as_words font)) }
    ensures { result ≡ some_below (codes h + 1) (lost_at h (F.as_words font)) }
{
    let pairs = pairs(font, h);
    let map = map(font, h);
    let widths = widths(font, h);
    for k in 0..map.count() {
        let name = Name::of(map.word(k));
        let body = name.body;
        if lost(h, name, pairs[body], widths, k) {
            return true;
        }
    }
    false
}

// Sure that every entry of the map names a body of so many, and a picture in it, where none has fewer pointers than so many: by the
// greatest body and the greatest code that are named, which the compiler finds for several entries at once.
fn within<F: Words>(map: F, bodies: u16, fewest: u16) -> bool
    ensures { result ≡ true → NamesWithin (F.as_words map) bodies fewest }
{
    let mut body: u16 = 0;
    let mut code: u16 = 0;
    for k in 0..map.count() {
        let entry = map.word(k);
        body = body.max(entry / 256 % 128);
        code = code.max(entry % 256);
    }
    if bodies <= body {
        return false;
    }
    code as usize + 1 < fewest as usize
}

// So in a font with an index, whose bodies have so many pointers or more.
fn nameless<F: Words>(font: F, h: Header, fewest: u16) -> bool
    requires { (first_at h ≤ length (F.as_words font)) × EachHas h (F.as_words font) h.bodies fewest }
    ensures { result ≡ nameless h (F.as_words font) }
{
    if h.index() {
        if within(map(font, h), h.bodies, fewest) {
            return false;
        }
        return some_lost(font, h);
    }
    false
}

// What is named k places past min's: by the map, or a code of the one body.
fn name_at<F: Words>(font: F, h: Header, k: u32) -> Name
    ensures { result ≡ name_in h (F.as_words font) k }
{
    if h.index() {
        return Name::of(map(font, h).word(k as usize));
    }
    Name {
        missing: false,
        body: 0,
        code: k,
    }
}

// There is no dummy.
fn no_dummy<F: Words>(font: F, h: Header) -> bool
    ensures { result ≡ no_dummy h (F.as_words font) }
{
    let k = h.codes();
    let name = name_at(font, h, k as u32);
    marked(h, name.missing, widths(font, h).word(k))
}

// By the map and the dummy.
fn check_tables<F: Words>(font: F, h: Header, fewest: u16) -> Result<(), Refusal>
    requires { (first_at h ≤ length (F.as_words font)) × EachHas h (F.as_words font) h.bodies fewest }
    ensures { returned result ≡ table_number h (F.as_words font) }
{
    if nameless(font, h, fewest) {
        return Err(Refusal::NoPicture);
    }
    if no_dummy(font, h) {
        return Err(Refusal::NoDummy);
    }
    Ok(())
}

// What a font is refused for, by its header.
fn check<F: Words>(font: F, h: Header) -> Result<(), Refusal>
    ensures { returned result ≡ number_by h (F.as_words font) }
{
    check_front(h, font.count())?;
    let fewest = check_bodies(font, h)?;
    check_tables(font, h, fewest)
}

// Reads a font: what finds its glyphs, or its refusal.
pub fn read<F: Words>(font: F) -> Result<View, Refusal>
    ensures value { result ≡ reading_of (F.as_words font) }
    ensures number { returned result ≡ font_number (F.as_words font) }
{
    let v = View::of(font);
    check(font, v.header)?;
    Ok(v)
}

// The number of a font file's refusal; 0 where it is accepted.
pub fn number<F: Words>(font: F) -> u32
    ensures { result ≡ font_number (F.as_words font) }
{
    match read(font) {
        Err(refusal) => refusal.number(),
        Ok(_) => 0,
    }
}

// A code from min to max.
pub fn in_range(h: Header, code: u32) -> bool
    ensures { result ≡ in_range h code }
{
    if code < h.min as u32 {
        return false;
    }
    code <= h.max as u32
}

// A code from min to max whose own entry says that it exists, in a font without an index.
fn there(h: Header, own: Entry, code: u32) -> bool
    ensures { result ≡ there h own code }
{
    if code < h.min as u32 {
        return false;
    }
    if (h.max as u32) < code {
        return false;
    }
    if h.kerned() {
        return own.width != 0xFFFF;
    }
    own.left != own.right
}

// Of a code's own entry and the dummy's the one that is drawn. The dummy's is read only where it is.
fn drawn(h: Header, pointers: &[u16], widths: &[u16], own: Entry, there: bool) -> Entry
    ensures { result ≡ cond there own (entry_at pointers.now widths.now (codes h)) }
{
    if there {
        return own;
    }
    Entry::at(pointers, widths, h.codes())
}

impl Step {
    // The step over what is shown for a code in a font without an index, by the code's own entry and the dummy's advance.
    pub fn by(h: Header, own: Entry, dummy: u16, code: u32) -> Step
        ensures { result ≡ step_by h own dummy code }
    {
        if there(h, own, code) {
            return Step {
                advance: own.advance(h),
                substitute: false,
            };
        }
        Step {
            advance: dummy,
            substitute: true,
        }
    }
}

impl Named {
    // What they say at one place.
    fn at(map: &[u16], widths: &[u16], k: usize, substitute: bool) -> Named
        ensures { result ≡ named_at map.now widths.now k substitute }
    {
        Named {
            entry: words::word_at(map, k),
            width: words::word_at(widths, k),
            substitute,
        }
    }

    // At the place of the code itself, or at the dummy's.
    pub fn of(h: Header, map: &[u16], widths: &[u16], code: u32) -> Named
        ensures { result ≡ named_in h map.now widths.now code }
    {
        if code < h.min as u32 {
            return Named::at(map, widths, h.codes(), true);
        }
        if (h.max as u32) < code {
            return Named::at(map, widths, h.codes(), true);
        }
        let own = Named::at(map, widths, (code - h.min as u32) as usize, false);
        if marked(h, Name::of(own.entry).missing, own.width) {
            return Named::at(map, widths, h.codes(), true);
        }
        own
    }
}

impl Glyph {
    // What a font without an index shows for a code, by its two tables. The pointer table is a part of the file, handed on to what reads an
    // entry of it.
    pub fn at(v: View, pointers: &[u16], widths: &[u16], code: u32) -> Glyph
        ensures { result ≡ glyph_in v pointers.now widths.now code }
    {
        let h = v.header;
        let own = Entry::at(pointers, widths, h.place(code));
        let there = there(h, own, code);
        let entry = drawn(h, pointers, widths, own, there);
        Glyph {
            bitmap: h.only_bitmap(),
            raster: v.body.raster,
            first: entry.left,
            columns: entry.columns(),
            ascent: v.body.ascent,
            height: v.body.height() as u32,
            place: entry.place(h),
            advance: entry.advance(h),
            substitute: !there,
        }
    }

    // What is shown by an entry whose picture is in this strike.
    fn with(h: Header, s: Strike, entry: Entry, substitute: bool) -> Glyph
        ensures { result ≡ picture_of h s entry substitute }
    {
        Glyph {
            bitmap: s.bitmap,
            raster: s.body.raster,
            first: entry.left,
            columns: entry.columns(),
            ascent: s.body.ascent,
            height: s.body.height() as u32,
            place: entry.place(h),
            advance: entry.advance(h),
            substitute,
        }
    }

    // What a font with an index shows by what its map says: a picture of the body that is named, by that body's own pointers. A part of each
    // of the loops that draw, where it is called for every character.
    #[inline(always)]
    pub fn named(font: &[u16], v: View, bitmaps: &[u32], n: Named) -> Glyph
        ensures { result ≡ glyph_named v bitmaps.now font.now n }
    {
        let name = Name::of(n.entry);
        let s = v.strike(font, bitmaps, name.body);
        let entry = Entry::with(pointers(font, s), name.code as usize, n.width);
        Glyph::with(v.header, s, entry, n.substitute)
    }

    // What a font that has been read shows for a code, where the bitmaps of its bodies are known.
    pub fn found(font: &[u16], v: View, bitmaps: &[u32], code: u32) -> Glyph
        ensures { result ≡ glyph_tabled v bitmaps.now font.now code }
    {
        let h = v.header;
        let widths = widths(font, h);
        if h.index() {
            return Glyph::named(font, v, bitmaps, Named::of(h, map(font, h), widths, code));
        }
        Glyph::at(v, pointers(font, v.first()), widths, code)
    }

    // What a font that has been read shows for a code.
    pub fn of(font: &[u16], v: View, code: u32) -> Glyph
        ensures { result ≡ glyph_from v font.now code }
    {
        let bitmaps = bitmaps(font, v.header);
        Glyph::found(font, v, &bitmaps, code)
    }

    // How it moves the pen.
    pub fn step(self) -> Step
        ensures { result ≡ step_of self }
    {
        Step {
            advance: self.advance,
            substitute: self.substitute,
        }
    }

    // One dot of a picture; 0 past it.
    fn dot(self, font: &[u16], row: usize, column: usize) -> u16
        ensures { result ≡ dot_of font.now self row column }
    {
        if self.height as usize <= row {
            return 0;
        }
        if self.columns as usize <= column {
            return 0;
        }
        let at = self.first as usize + column;
        let i = self.bitmap as usize + row * (self.raster as usize) + at / 16;
        words::bit(words::word_at(font, i), at % 16)
    }

    // Sixteen dots of a picture's row, from a column on.
    pub fn dots(self, font: &[u16], row: usize, column: u32) -> u16
        ensures { result ≡ dots_of font.now self row column }
    {
        let from = column as usize;
        let mut word: u16 = 0;
        for i in 0..16 {
            word = word * 2 + self.dot(font, row, from + i);
        }
        word
    }
}

// One row of a body, as a part of the font's own words; the empty part where the font is refused, the body is not there or the row is past
// its last.
pub fn row(font: &[u16], body: usize, r: usize) -> &[u16]
    ensures { result.now ≡ row_of font.now body r }
{
    let v = View::of(font);
    if check(font, v.header).is_err() {
        return &font[..0];
    }
    let table = bitmaps(font, v.header);
    let s = v.strike(font, &table, body);
    if s.body.height() <= r {
        return &font[..0];
    }
    let raster = s.body.raster as usize;
    words::part(font, s.bitmap as usize + r * raster, raster)
}

// The most rows that a body has above the baseline, and below.
pub fn rows_in_all(font: &[u16], v: View) -> Extent
    ensures { result ≡ extent_of v font.now }
{
    let count = v.header.bodies as usize;
    let mut at = v.header.first_at();
    let mut above = v.body.ascent;
    let mut below = v.body.descent;
    for k in 0..count.saturating_sub(1) {
        at += words::word_at(font, at) as usize;
        let body = Body::of(font, at);
        above = above.max(body.ascent);
        below = below.max(body.descent);
    }
    Extent { above, below }
}
