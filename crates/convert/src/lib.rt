// From a CU file to a KernedStrike file. What the characters draw comes from cu.rt; here it is tested and written down, part by part of
// the file.
#![tactic(auto)]

mod cu;
mod search;

ghost use Rattle.std.specs.Prelude.{◌≡◌, ◌+◌, ◌-◌, ◌*◌, ◌%◌, ◌<◌, ◌≤◌, false, cond, not, ◌&&◌, ◌||◌, ◌++◌, ltb, eqb, length, drop};
ghost use Rattle.words.specs.Word.{word, table, over};
ghost use Rattle.words.specs.Refusal.{returned};
ghost use Rattle.words.specs.Search.{some_below, first_below, last_below, sum_below, most_below};
ghost use Rattle.convert.specs.Writing.{max_width, format_word, bad_spacing, bad_offset, too_large, drawing_number, layout_of};
ghost use Rattle.convert.specs.Writing.{header_words, bitmap_word, pointer_word, width_entry, file_words, file_of};
ghost use Rattle.convert.specs.Cu.{columns_at, left_from, drawn};
ghost use Rattle.convert.specs.Bitmap.{picture_dot, raster_at, column_word, picture_word};
ghost use Rattle.convert.specs.Conversion.{conversion_of, output_after, Tells};

use cu::{Frame, Places, Source};
use words::Refusal;

// The numbers that a file is laid out by.
#[derive(Clone, Copy)]
struct Layout {
    min: u16,
    max: u16,
    codes: u16,
    columns: u32,
    raster: u32,
    rows: u32,
}

// What stands in columns of the strike: a character's raster from its top row and left column on, the dummy's block, or nothing.
#[derive(Clone, Copy)]
enum Picture {
    Raster { place: usize, top: u16, left: u32 },
    Block,
    Blank,
}

// A file to be written: what was read of the CU file, which nothing refuses, its layout, and the greatest spacing.
#[derive(Clone, Copy)]
struct Plan<'a> {
    cu: &'a [u16],
    source: &'a Source,
    layout: Layout,
    most: u16,
    ghost laid: { layout ≡ layout_of (drawn cu.now source.now) },
    ghost widest: { most ≡ max_width (drawn cu.now source.now) },
    ghost spacings: { bad_spacing (drawn cu.now source.now) ≡ false },
    ghost offsets: { bad_offset (drawn cu.now source.now) ≡ false },
    ghost fits: { too_large (drawn cu.now source.now) ≡ false },
    ghost few_rows: { layout.rows ≤ 65535 },
    ghost places_long: { length source.now.places.table ≡ 256 },
}

fn min_code(places: &Places) -> usize
    ensures value { result ≡ first_below 256 (λ c. ltb 0 (word places.now.table c)) }
    ensures small { result ≤ 256 }
{
    search::first_below(256, |c| places.has(c))
}

fn max_code(places: &Places) -> usize
    ensures value { result ≡ last_below 256 (λ c. ltb 0 (word places.now.table c)) }
    ensures small { result ≤ 255 }
{
    search::last_below(256, |c| places.has(c))
}

// The spacing of a code; 0 where it is absent.
fn spacing_in(cu: &[u16], places: &Places, c: usize) -> u16
    ensures { result ≡ cond (ltb 0 (word places.now.table c)) (word cu.now (word places.now.table c + 1)) 0 }
{
    places.of(c).map_or(0, |place| cu::spacing(cu, place))
}

fn max_width(cu: &[u16], places: &Places) -> u16
    ensures { result ≡ most_below 256 (λ c. cond (ltb 0 (word places.now.table c)) (word cu.now (word places.now.table c + 1)) 0) }
{
    let mut most = 0;
    for c in 0..256 {
        most = most.max(spacing_in(cu, places, c));
    }
    most
}

// Some code that is there has another spacing than this.
fn uneven(cu: &[u16], places: &Places, most: u16) -> bool
    ensures { result ≡ some_below 256 (λ c. ltb 0 (word places.now.table c) && not (eqb (word cu.now (word places.now.table c + 1)) most)) }
{
    search::some_below(
        256,
        |c| places
            .of(c)
            .is_some_and(|place| cu::spacing(cu, place) != most),
    )
}

// The columns of a code; 0 where it is absent.
#[tactic(auto, unfolding(crate::specs::Cu::columns_at))]
fn columns_in(cu: &[u16], places: &Places, c: usize) -> usize
    ensures value { result ≡ columns_at cu.now (word places.now.table c) }
    ensures small { result ≤ 1048561 }
{
    places
        .of(c)
        .map_or(0, |place| cu::columns_across(cu, place))
}

// The columns of n codes together, from min on.
#[tactic(auto, using(words::proofs::Search::sum_more), unfolding(words::specs::Search::sum_below))]
fn columns_before(cu: &[u16], places: &Places, min: usize, n: usize) -> usize
    requires first { min ≤ 256 }
    requires count { n ≤ 257 }
    ensures value { result ≡ sum_below n (λ i. columns_at cu.now (word places.now.table (min + i))) }
    ensures small { result ≤ n * 1048561 }
{
    let mut sum = 0;
    for i in 0..n {
        sum += columns_in(cu, places, min + i);
    }
    sum
}

impl Layout {
    fn of(cu: &[u16], source: &Source) -> Layout
        ensures { result ≡ layout_of (drawn cu.now source.now) }
    {
        let frame = source.frame;
        let min = min_code(&source.places);
        let max = max_code(&source.places);
        let codes = max.saturating_sub(min) + 1;
        let columns = columns_before(cu, &source.places, min, codes) + frame.fbbdx as usize;
        Layout {
            min: min as u16,
            max: max as u16,
            codes: codes as u16,
            columns: columns as u32,
            raster: ((columns + 15) / 16) as u32,
            rows: frame.ascent as u32 + frame.descent as u32,
        }
    }

    fn bitmap_words(self) -> usize
        ensures value { result ≡ self.raster * self.rows }
        ensures small { result ≤ 18446744065119617025 }
    {
        self.raster as usize * self.rows as usize
    }

    fn length_word(self) -> usize
        ensures { result ≡ self.raster * self.rows + self.codes + 7 }
    {
        self.bitmap_words() + self.codes as usize + 7
    }

    fn file_words(self) -> usize
        ensures { result ≡ self.raster * self.rows + 2 * self.codes + 16 }
    {
        self.bitmap_words() + 2 * self.codes as usize + 16
    }

    fn too_large(self) -> bool
        ensures { result ≡ (ltb 65535 self.columns || ltb 65535 (self.raster * self.rows + self.codes + 7)) }
    {
        if 65_535 < self.columns {
            return true;
        }
        65_535 < self.length_word()
    }
}

// The character at a place has a spacing that no width entry holds.
fn bad_spacing_at(cu: &[u16], frame: Frame, place: usize) -> bool
    ensures { result ≡ (ltb 255 (word cu.now (place + 1))
        || (eqb (word cu.now (place + 1)) 255 && eqb (left_from cu.now frame place - frame.left) 255)) }
{
    let spacing = cu::spacing(cu, place);
    if 255 < spacing {
        return true;
    }
    if spacing == 255 {
        return cu::offset(cu, frame, place) == 255;
    }
    false
}

#[tactic(auto, unfolding(crate::specs::Writing::bad_spacing, crate::specs::Cu::drawing_from))]
fn bad_spacing(cu: &[u16], source: &Source) -> bool
    ensures { result ≡ bad_spacing (drawn cu.now source.now) }
{
    search::some_below(
        256,
        |c| source
            .places
            .of(c)
            .is_some_and(|place| bad_spacing_at(cu, source.frame, place)),
    )
}

#[tactic(auto, unfolding(crate::specs::Writing::bad_offset, crate::specs::Cu::drawing_from))]
fn bad_offset(cu: &[u16], source: &Source) -> bool
    ensures { result ≡ bad_offset (drawn cu.now source.now) }
{
    search::some_below(
        256,
        |c| source
            .places
            .of(c)
            .is_some_and(|place| 255 < cu::offset(cu, source.frame, place)),
    )
}

// What a drawing is refused for, where the output has room for so many words.
fn check_drawing(cu: &[u16], source: &Source, layout: Layout, room: usize) -> Result<(), Refusal>
    requires { layout ≡ layout_of (drawn cu.now source.now) }
    ensures { returned result ≡ drawing_number (drawn cu.now source.now) room }
{
    if bad_spacing(cu, source) {
        return Err(Refusal::CuSpacing);
    }
    if bad_offset(cu, source) {
        return Err(Refusal::CuOffset);
    }
    if layout.too_large() {
        return Err(Refusal::FontTooLarge);
    }
    if room < layout.file_words() {
        return Err(Refusal::OutputTooShort);
    }
    Ok(())
}

// One dot of a picture.
#[tactic(auto, unfolding(crate::specs::Bitmap::picture_dot))]
fn picture_dot(cu: &[u16], picture: Picture, row: u32, column: u32) -> u16
    requires { row ≤ 65535 }
    ensures { result ≡ picture_dot cu.now picture row column }
{
    match picture {
        Picture::Raster { place, top, left } => cu::dot(
            cu,
            place,
            top as u32 + row,
            left as usize + column as usize,
        ),
        Picture::Block => 1,
        Picture::Blank => 0,
    }
}

// The word FBBoy: how far the box lies above the baseline, in two's complement.
fn fbboy(descent: u16) -> u16
    ensures { result ≡ (65536 - descent) % 65536 }
{
    ((65_536 - descent as u32) % 65_536) as u16
}

impl Plan<'_> {
    ghost use Rattle.convert.specs.Planned.{planned, planned_place, planned_words};

    fn format_word(&self) -> u16
        ensures { result ≡ format_word (planned self.now) }
    {
        if uneven(self.cu, &self.source.places, self.most) {
            return 0x9000;
        }
        0xB000
    }

    // Puts a column of a picture into column `at` of the strike.
    fn put_column(&self, picture: Picture, column: u32, at: usize, bitmap: &mut [u16])
        requires inside { at < 16 * self.now.layout.raster }
        requires whole { length bitmap.old ≡ planned_words self.now }
        ensures { bitmap.new ≡ over (planned_words self.now)
            (column_word self.now.cu.now picture column at self.now.layout.raster bitmap.old) bitmap.old }
    {
        let cu = self.cu;
        let raster = self.layout.raster as usize;
        let mut i = at / 16;
        for row in 0..self.layout.rows {
            bitmap[i] = words::put_bit(bitmap[i], at % 16, picture_dot(cu, picture, row, column));
            i += raster;
        }
    }

    // Puts a picture into the strike, its first column into column `at`.
    fn put_picture(&self, picture: Picture, columns: u32, at: usize, bitmap: &mut [u16])
        requires inside { at + columns ≤ 16 * self.now.layout.raster }
        requires whole { length bitmap.old ≡ planned_words self.now }
        ensures { bitmap.new ≡ over (planned_words self.now)
            (picture_word self.now.cu.now picture columns at self.now.layout.raster bitmap.old) bitmap.old }
    {
        for column in 0..columns {
            self.put_column(picture, column, at + column as usize, bitmap);
        }
    }

    // Puts the picture of a code into the strike, and answers how many columns it has; none where the code is absent.
    fn put_character(&self, c: usize, at: usize, bitmap: &mut [u16]) -> usize
        requires inside { at + columns_at self.now.cu.now (planned_place self.now c) ≤ 16 * self.now.layout.raster }
        requires whole { length bitmap.old ≡ planned_words self.now }
        ensures value { result ≡ columns_at self.now.cu.now (planned_place self.now c) }
        ensures bitmap { bitmap.new ≡ over (planned_words self.now)
            (picture_word self.now.cu.now
            (raster_at self.now.cu.now self.now.source.now.frame (planned_place self.now c))
            (columns_at self.now.cu.now (planned_place self.now c)) at self.now.layout.raster bitmap.old) bitmap.old }
    {
        match self.source.places.of(c) {
            Some(place) => {
                let columns = cu::columns_across(self.cu, place);
                let picture = Picture::Raster {
                    place,
                    top: self.source.frame.top,
                    left: cu::left_of(self.cu, place) as u32,
                };
                self.put_picture(picture, columns as u32, at, bitmap);
                columns
            }
            None => 0,
        }
    }

    // The bitmap: each code's picture behind the one before, the dummy's block, and nothing in the columns that are left.
    fn write_bitmap(&self, bitmap: &mut [u16])
        requires { length bitmap.old ≡ planned_words self.now }
        ensures { bitmap.new ≡ table (planned_words self.now) (bitmap_word (planned self.now)) }
    {
        let min = self.layout.min as usize;
        let mut at = 0;
        for k in 0..self.layout.codes as usize {
            at += self.put_character(min + k, at, bitmap);
        }
        self.put_picture(Picture::Block, self.source.frame.fbbdx as u32, at, bitmap);
        let used = self.layout.columns as usize;
        let unused = (16 * self.layout.raster as usize - used) as u32;
        self.put_picture(Picture::Blank, unused, used, bitmap);
    }

    // The column pointers: where each picture begins, where the dummy does, and where it ends.
    fn write_pointers(&self, pointers: &mut [u16])
        requires { length pointers.old ≡ self.now.layout.codes + 2 }
        ensures { pointers.new ≡ table (self.now.layout.codes + 2) (pointer_word (planned self.now)) }
    {
        let min = self.layout.min as usize;
        let codes = self.layout.codes as usize;
        let mut at = 0;
        for k in 0..codes {
            pointers[k] = at as u16;
            at += columns_in(self.cu, &self.source.places, min + k);
        }
        pointers[codes] = at as u16;
        pointers[codes + 1] = (at + self.source.frame.fbbdx as usize) as u16;
    }

    // The width entry of a code; that of an absent one where it is not there.
    fn width_entry(&self, c: usize) -> u16
        ensures { result ≡ cond (ltb 0 (planned_place self.now c))
            ((left_from self.now.cu.now self.now.source.now.frame (planned_place self.now c)
            - self.now.source.now.frame.left) * 256 + word self.now.cu.now (planned_place self.now c + 1)) 0xFFFF }
    {
        match self.source.places.of(c) {
            Some(place) => cu::offset(self.cu, self.source.frame, place) as u16 * 256
                + cu::spacing(self.cu, place),
            None => 0xFFFF,
        }
    }

    // The width entries, the dummy's last.
    fn write_widths(&self, widths: &mut [u16])
        requires { length widths.old ≡ self.now.layout.codes + 1 }
        ensures { widths.new ≡ table (self.now.layout.codes + 1) (width_entry (planned self.now)) }
    {
        let min = self.layout.min as usize;
        let codes = self.layout.codes as usize;
        for k in 0..codes {
            widths[k] = self.width_entry(min + k);
        }
        widths[codes] = self.most;
    }

    // The words before the bitmap.
    fn write_header(&self, header: &mut [u16])
        requires { length header.old ≡ 13 }
        ensures { header.new ≡ header_words (planned self.now) }
    {
        let frame = self.source.frame;
        let layout = self.layout;
        header.copy_from_slice(&[
            self.format_word(),
            layout.min,
            layout.max,
            self.most,
            frame.fbbox,
            fbboy(frame.descent),
            frame.fbbdx,
            layout.rows as u16,
            layout.length_word() as u16,
            frame.ascent,
            frame.descent,
            0,
            layout.raster as u16,
        ]);
    }

    // The two tables, over the first words lent.
    fn write_tables(&self, tables: &mut [u16])
        requires { 2 * self.now.layout.codes + 3 ≤ length tables.old }
        ensures { tables.new ≡ table (self.now.layout.codes + 2) (pointer_word (planned self.now))
            ++ (table (self.now.layout.codes + 1) (width_entry (planned self.now))
            ++ drop (self.now.layout.codes + 1) (drop (self.now.layout.codes + 2) tables.old)) }
    {
        let widths = self.layout.codes as usize + 2;
        let end = widths + (self.layout.codes as usize + 1);
        self.write_pointers(&mut tables[..widths]);
        self.write_widths(&mut tables[widths..end]);
    }

    // The bitmap and the tables, over the first words lent.
    fn write_body(&self, body: &mut [u16])
        requires { planned_words self.now + 2 * self.now.layout.codes + 3 ≤ length body.old }
        ensures { body.new ≡ table (planned_words self.now) (bitmap_word (planned self.now))
            ++ (table (self.now.layout.codes + 2) (pointer_word (planned self.now))
            ++ (table (self.now.layout.codes + 1) (width_entry (planned self.now))
            ++ drop (self.now.layout.codes + 1) (drop (self.now.layout.codes + 2)
            (drop (planned_words self.now) body.old)))) }
    {
        let bitmap = self.layout.bitmap_words();
        self.write_bitmap(&mut body[..bitmap]);
        self.write_tables(&mut body[bitmap..]);
    }

    // The whole file, over the first words of the output.
    fn write(&self, out: &mut [u16])
        requires { planned_words self.now + 2 * self.now.layout.codes + 16 ≤ length out.old }
        ensures { out.new ≡ file_of (planned self.now)
            ++ drop (file_words (planned self.now)) out.old }
    {
        self.write_header(&mut out[..13]);
        self.write_body(&mut out[13..]);
    }
}

// Writes the KernedStrike file of a CU file over the first words of the output, and answers how many words it has.
pub fn convert(cu: &[u16], out: &mut [u16]) -> Result<usize, Refusal>
    ensures value { result ≡ conversion_of cu.now (length out.old) }
    ensures out { out.new ≡ output_after cu.now out.old }
    ensures numbers { Tells result cu.now (length out.old) }
{
    let source = Source::read(cu)?;
    let layout = Layout::of(cu, &source);
    check_drawing(cu, &source, layout, out.len())?;
    let plan = Plan {
        cu,
        source: &source,
        layout,
        most: max_width(cu, &source.places),
    };
    plan.write(out);
    Ok(layout.file_words())
}
