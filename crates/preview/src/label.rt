// Reading a line: STRIP X Y MODE TEXT.
ghost use Rattle.std.specs.Prelude.{◌≡◌, ◌≤◌, length};
ghost use Rattle.preview.specs.Line.{without_return, word_length, word_of, behind as Line·behind};
ghost use Rattle.preview.specs.Line.{text_of, label_of, kind_of, line_of};

use crate::number::{decimal, signed_decimal};
use paint::Label;

// The most bytes of a label's line, without its return.
pub const LONGEST: usize = 1_000;

#[derive(Clone, Copy)]
pub enum Line {
    Label(Label),
    Passed,
    Other,
}

// A line without the carriage return at its end.
#[tactic(auto, unfolding(crate::specs::Line::without_return))]
fn without_return(line: &[u8]) -> &[u8]
    ensures { result.now ≡ without_return line.now }
{
    match line {
        [before @ .., b'\r'] => before,
        _ => line,
    }
}

// How many bytes stand before the first space.
#[tactic(auto, unfolding(crate::specs::Line::word_length))]
fn word_length(text: &[u8]) -> usize
    ensures value { result ≡ word_length text.now }
    ensures small { result ≤ length text.now }
{
    for (i, b) in text.iter().enumerate() {
        if *b == b' ' {
            return i;
        }
    }
    text.len()
}

#[tactic(auto, unfolding(crate::specs::Line::word_of))]
fn word(text: &[u8]) -> &[u8]
    ensures { result.now ≡ word_of text.now }
{
    &text[..word_length(text)]
}

// The bytes behind the first space.
#[tactic(auto, unfolding(crate::specs::Line::behind))]
fn behind(text: &[u8]) -> &[u8]
    ensures { result.now ≡ Line·behind text.now }
{
    text.get(word_length(text) + 1..).unwrap_or(&[])
}

// The text of a label's line.
#[tactic(auto, unfolding(crate::specs::Line::text_of))]
pub fn text_of(line: &[u8]) -> &[u8]
    ensures { result.now ≡ text_of line.now }
{
    behind(behind(behind(behind(without_return(line)))))
}

// The label of a line, if it is one.
#[tactic(auto, unfolding(crate::specs::Line::label_of, crate::specs::Line::label_from))]
fn label_of(line: &[u8]) -> Option<Label>
    ensures { result ≡ label_of line.now }
{
    let second = behind(line);
    let third = behind(second);
    let fourth = behind(third);
    Some(Label {
        strip: decimal(word(line))?,
        x: signed_decimal(word(second))?,
        y: signed_decimal(word(third))?,
        mode: decimal(word(fourth))?,
    })
}

// What a line without its return is.
#[tactic(auto, unfolding(crate::specs::Line::kind_of))]
fn kind_of(line: &[u8]) -> Line
    ensures { result ≡ kind_of line.now }
{
    match line {
        [] | [b'#', ..] => Line::Passed,
        _ if LONGEST < line.len() => Line::Other,
        _ => label_of(line).map_or(Line::Other, Line::Label),
    }
}

// What a line is.
#[tactic(auto, unfolding(crate::specs::Line::line_of))]
pub fn line_of(line: &[u8]) -> Line
    ensures { result ≡ line_of line.now }
{
    kind_of(without_return(line))
}
