// Strike files in bytes, read where they lie. The font reader reads words and bytes alike; here is what only bytes are refused for, and the
// steps of the pen by the least that has to be read.
#![tactic(auto)]

ghost use Rattle.std.specs.Prelude.{◌≡◌, true, ◌-◌, ◌≤◌};
ghost use Rattle.words.specs.Refusal.{returned};
ghost use Rattle.words.specs.Word.{words_of};
ghost use Rattle.fonts.specs.Strike.{index, codes, pointers_of, widths_of, map_of};
ghost use Rattle.fonts.specs.Entry.{entry_at, advance_of};
ghost use Rattle.fonts.specs.Face.{step_of};
ghost use Rattle.fonts.specs.Kinds.{step_by, glyph_tabled, entry_tabled, mapped_place};
ghost use Rattle.fontbytes.specs.File.{file_number, file_reading};
ghost use Rattle.fontbytes.specs.Parts.{pointer_bytes, width_bytes, map_bytes, for_step};

use fonts::{Entry, Header, Name, Step, Strike, View};
use words::{Refusal, Words};

// Reads a font: what finds its glyphs, or its refusal.
pub fn read(font: &[u8]) -> Result<View, Refusal>
    ensures value { result ≡ file_reading font.now }
    ensures number { returned result ≡ file_number font.now }
{
    if words::odd_bytes(font) {
        return Err(Refusal::OddBytes);
    }
    fonts::read(font)
}

// The number of a font file's refusal; 0 where it is accepted.
pub fn number(font: &[u8]) -> u32
    ensures { result ≡ file_number font.now }
{
    if words::odd_bytes(font) {
        return Refusal::OddBytes.number();
    }
    fonts::number(font)
}

// The column pointers of a body: the part of the bytes that begins after the bitmap.
pub fn pointers(font: &[u8], s: Strike) -> &[u8]
    ensures held { result.now ≡ pointer_bytes s font.now }
    ensures words { words_of result.now ≡ pointers_of s (words_of font.now) }
{
    fonts::pointers(font, s)
}

// The width entries: the last part of the bytes.
pub fn widths(font: &[u8], h: Header) -> &[u8]
    ensures held { result.now ≡ width_bytes h font.now }
    ensures words { words_of result.now ≡ widths_of h (words_of font.now) }
{
    fonts::widths(font, h)
}

// The map: the part of the bytes behind the words at the front.
pub fn map(font: &[u8], h: Header) -> &[u8]
    ensures held { result.now ≡ map_bytes h font.now }
    ensures words { words_of result.now ≡ map_of h (words_of font.now) }
{
    fonts::map(font, h)
}

// Of an entry what a step of the pen asks for, without an index: the width entry in a kerned font, the two pointers in a plain one. What
// else it says is not read.
fn entry_for_step<F: Words>(h: Header, pointers: F, widths: F, k: usize) -> Entry
    requires { k ≤ 4294967296 }
    ensures { result ≡ for_step h (entry_at (F.as_words pointers) (F.as_words widths) k) }
{
    if h.kerned() {
        return Entry {
            left: 0,
            right: 0,
            width: widths.word(k),
        };
    }
    Entry {
        left: pointers.word(k),
        right: pointers.word(k + 1),
        width: 0,
    }
}

// How far the dummy of a font without an index moves the pen.
pub fn dummy_advance<F: Words>(h: Header, pointers: F, widths: F) -> u16
    ensures { result ≡ advance_of h (entry_at (F.as_words pointers) (F.as_words widths) (codes h)) }
{
    entry_for_step(h, pointers, widths, h.codes()).advance(h)
}

// The step of the pen over what is shown for a code in a font without an index, where the dummy's advance is known.
pub fn step<F: Words>(h: Header, pointers: F, widths: F, dummy: u16, code: u32) -> Step
    ensures { result ≡ step_by h (entry_at (F.as_words pointers) (F.as_words widths) (code - h.min)) dummy code }
{
    Step::by(
        h,
        entry_for_step(h, pointers, widths, h.place(code)),
        dummy,
        code,
    )
}

// Where the entry of what is shown for a code stands in the map and the width entries: at its own place, or at the dummy's.
fn mapped_place<F: Words>(font: F, h: Header, code: u32) -> u32
    ensures { result ≡ mapped_place h (F.as_words font) code }
{
    let dummy = h.codes() as u32;
    if fonts::in_range(h, code) {
        let k = h.place(code);
        let name = Name::of(fonts::map(font, h).word(k));
        if fonts::marked(h, name.missing, fonts::widths(font, h).word(k)) {
            return dummy;
        }
        return k as u32;
    }
    dummy
}

// How far what stands there moves the pen: in a kerned font its width entry says, in a plain one its picture.
fn mapped_advance<F: Words>(font: F, v: View, bitmaps: &[u32], k: u32) -> u16
    requires { index v.header ≡ true }
    ensures { result ≡ advance_of v.header (entry_tabled v bitmaps.now (F.as_words font) k) }
{
    let h = v.header;
    if h.kerned() {
        return fonts::widths(font, h).word(k as usize) % 256;
    }
    let name = Name::of(fonts::map(font, h).word(k as usize));
    let pointers = fonts::pointers(font, v.strike(font, bitmaps, name.body));
    entry_for_step(h, pointers, pointers, name.code as usize).advance(h)
}

// The step over what is shown for a code in a font with an index.
fn mapped_step<F: Words>(font: F, v: View, bitmaps: &[u32], code: u32) -> Step
    requires { index v.header ≡ true }
    ensures { result ≡ step_of (glyph_tabled v bitmaps.now (F.as_words font) code) }
{
    let k = mapped_place(font, v.header, code);
    Step {
        advance: mapped_advance(font, v, bitmaps, k),
        substitute: k as usize == v.header.codes(),
    }
}

// The step over what a font that has been read shows for a code, where the bitmaps of its bodies are known.
pub fn found_step<F: Words>(font: F, v: View, bitmaps: &[u32], code: u32) -> Step
    ensures { result ≡ step_of (glyph_tabled v bitmaps.now (F.as_words font) code) }
{
    let h = v.header;
    if h.index() {
        return mapped_step(font, v, bitmaps, code);
    }
    let pointers = fonts::pointers(font, v.first());
    let widths = fonts::widths(font, h);
    step(
        h,
        pointers,
        widths,
        dummy_advance(h, pointers, widths),
        code,
    )
}
