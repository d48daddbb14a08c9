// The calls that read the font: check, glyph, dots, row.
ghost use Rattle.std.specs.Prelude.{◌≡◌};
ghost use Rattle.replay.specs.Text.{Puts};
ghost use Rattle.replay.specs.Answers.{no_glyph, glyph_of, place_bytes, glyph_bytes, head_bytes};
ghost use Rattle.replay.specs.Answers.{check_answer, glyph_answer, dots_answer, row_answer};

use crate::list::Line;
use crate::text::{Digits, Output};
use fonts::Glyph;

// A picture with nothing in it, which stands for the one of a refused font.
#[tactic(auto, unfolding(crate::specs::Answers::no_glyph))]
fn no_glyph() -> Glyph
    ensures { result ≡ no_glyph }
{
    Glyph {
        bitmap: 0,
        raster: 0,
        first: 0,
        columns: 0,
        ascent: 0,
        height: 0,
        place: 2048,
        advance: 0,
        substitute: false,
    }
}

fn glyph_of(font: &[u16], code: u32) -> Glyph
    ensures { result ≡ glyph_of font.now code }
{
    match fonts::read(font) {
        Ok(view) => Glyph::of(font, view, code),
        Err(_) => no_glyph(),
    }
}

// A place from the pen, which a font counts from 2048 to its left.
fn put_place(place: u32, output: &mut Output<impl Print>)
    ensures { Puts output (place_bytes place) }
{
    output.put_number(place as i64 - 2048);
}

fn put_glyph(glyph: Glyph, output: &mut Output<impl Print>)
    ensures { Puts output (glyph_bytes glyph) }
{
    output.put_number(glyph.columns);
    put_place(glyph.place, output);
    output.put_number(glyph.advance);
    output.put_number(glyph.substitute as u64);
    output.put_number(glyph.ascent);
    output.put_number(glyph.height);
}

// How each of these answers but row begins: the call, and the number of the font's refusal.
fn put_head(word: &[u8], font: &[u16], output: &mut Output<impl Print>)
    ensures { Puts output (head_bytes word.now font.now) }
{
    output.put_all(word);
    output.put_number(fonts::number(font));
}

pub fn check(font: &[u16], output: &mut Output<impl Print>)
    ensures { Puts output (check_answer font.now) }
{
    put_head(b"check", font, output);
    output.put(b'\n');
}

pub fn glyph(line: &Line, font: &[u16], output: &mut Output<impl Print>)
    ensures { Puts output (glyph_answer line.now font.now) }
{
    put_head(b"glyph", font, output);
    put_glyph(glyph_of(font, line.number(0)), output);
    output.put(b'\n');
}

pub fn dots(line: &Line, font: &[u16], output: &mut Output<impl Print>)
    ensures { Puts output (dots_answer line.now font.now) }
{
    let glyph = glyph_of(font, line.number(0));
    let word = glyph.dots(font, line.number(1) as usize, line.number(2));
    put_head(b"dots", font, output);
    output.put_value(word, Digits::Four);
    output.put(b'\n');
}

pub fn row(line: &Line, font: &[u16], output: &mut Output<impl Print>)
    ensures { Puts output (row_answer line.now font.now) }
{
    output.put_all(b"row");
    let row = fonts::row(font, line.number(0) as usize, line.number(1) as usize);
    output.put_list(row, Digits::Four);
    output.put(b'\n');
}
