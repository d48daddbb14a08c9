// Paints the labels of the lines on standard input, and writes a picture of the panel on standard output, and nothing else there; or the
// help text, where that is asked for. Where the counts are asked for, the lit dots of each strip are told behind the picture.
#![tactic(auto)]

mod help;
mod input;
mod label;
mod message;
mod number;
mod painting;
mod picture;
mod tell;

ghost use Rattle.std.specs.Prelude.{◌≤◌};

use input::{ARGUMENT, argument, argument_count};
use message::{Failure, say};
use paint::Shape;
use painting::Painter;
use picture::PRINTED;
use reading::BYTES;
use std::rt::{Env, Files};
use words::Refusal;

// The words of the longest font file.
const FONT: usize = 32_768;

// The words of the largest panel: 128 a row, 256 rows.
const PANEL: usize = 32_768;

// The longest font file.
const FILE: usize = 65_536;

// Writes the picture.
fn print(rt: &impl Print, s: Shape, panel: &[u16]) -> Result<(), Failure> {
    let mut printed = [0u8; PRINTED];
    let n = picture::picture(s, panel, &mut printed);
    rt.write_all(&printed[..n]).map_err(|_| Failure::Unwritten)
}

// Paints all lines with a font that is not refused, writes the picture, and answers the lit dots of the strips.
fn run(rt: &(impl Input + Print + Eprint), font: &[u16], s: Shape) -> Result<[u32; 32], Failure> {
    let mut panel = [0u16; PANEL];
    paint::check_panel(s, panel.len()).map_err(Failure::PanelRefused)?;
    let painter = Painter { font, s };
    let answer = painting::paint_lines(rt, &mut rt.reader(), painter, &mut panel);
    answer.read.map_err(|_| Failure::Unread)?;
    print(rt, s, &panel)?;
    Ok(answer.counts)
}

// The same with the bytes of a font.
fn run_with(
    rt: &(impl Input + Print + Eprint),
    bytes: &[u8],
    s: Shape,
) -> Result<[u32; 32], Failure> {
    if FILE < bytes.len() {
        return Err(Failure::FontTooLong);
    }
    if words::odd_bytes(bytes) {
        return Err(Failure::FontRefused(Refusal::OddBytes));
    }
    let mut space = [0u16; FONT];
    let n = words::from_bytes(bytes, &mut space);
    let font = &space[..n];
    fonts::read(font).map_err(Failure::FontRefused)?;
    run(rt, font, s)
}

// The same with a font whose name is argument k.
fn run_file(
    rt: &(impl Files + Env + Input + Print + Eprint),
    k: usize,
    s: Shape,
) -> Result<[u32; 32], Failure> {
    let mut path = [0u8; ARGUMENT];
    let n = argument(rt, k, &mut path);
    let mut bytes = [0u8; BYTES];
    let count = input::read_file(rt, &path[..n], &mut bytes).map_err(|_| Failure::FontUnread)?;
    run_with(rt, input::first_of(&bytes, count), s)
}

// Number k of the program's arguments, if it is one.
fn number_argument(rt: &impl Env, k: usize) -> Option<u32> {
    let mut text = [0u8; ARGUMENT];
    let n = argument(rt, k, &mut text);
    number::decimal(&text[..n])
}

// The shape that the arguments tell from number k on, where the font's name is, if they are a font and three numbers.
fn read_arguments(rt: &impl Env, k: usize) -> Option<Shape>
    requires { k ≤ 2 }
{
    if argument_count(rt) != k + 4 {
        return None;
    }
    Some(Shape {
        rowwords: number_argument(rt, k + 1)?,
        rows: number_argument(rt, k + 2)?,
        width: number_argument(rt, k + 3)?,
    })
}

// The whole run: what the arguments ask for.
fn run_arguments(rt: &(impl Files + Env + Input + Print + Eprint)) -> Result<(), Failure> {
    let mut first = [0u8; ARGUMENT];
    let n = argument(rt, 1, &mut first);
    let count = argument_count(rt);
    if help::is_asked(count, &first[..n]) {
        return help::print(rt);
    }
    let counts_asked = tell::is_asked(count, &first[..n]);
    let k = if counts_asked { 2 } else { 1 };
    let s = read_arguments(rt, k).ok_or(Failure::Usage)?;
    let counts = run_file(rt, k, s)?;
    if counts_asked {
        tell::print(rt, counts);
    }
    Ok(())
}

fn main(rt: HostRuntime) {
    if let Err(failure) = run_arguments(&rt) {
        say(&rt, failure);
    }
}
