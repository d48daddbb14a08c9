// The label software for C programs: `include/pailradish.h` declares these functions, and `rt lib` makes their archive.
// The desk's own two calls are handed bytes; the others are thin over the functions of their names.
#![tactic(auto)]

ghost use Rattle.std.specs.Prelude.{◌≡◌, length};
ghost use Rattle.words.specs.Refusal.{returned};
ghost use Rattle.fontbytes.specs.File.{file_number};
ghost use Rattle.convert.specs.Conversion.{cu_number, conversion_of, output_after};
ghost use Rattle.paint.specs.Sheet.{sheet_of, lengths_of};
ghost use Rattle.paint.specs.Label.{number_after, call_number, measure_file};
ghost use Rattle.sheets.specs.Sheet.{fresh_number, fresh_after, join_number, join_after, gather_reply};
ghost use Rattle.counts.specs.Calls.{painted_of, apply_counted, clear_counted};
ghost use Rattle.desk.specs.Desk.{call_from, gathered_by, counted_by, answer_of, painted_from, settled_from, settled_with, written_of};
ghost use Rattle.desk.specs.Desk.{words_number, words_answer, words_after};

use paint::{Label, Reply, Shape};
use words::Refusal;

// One label call as C hands it: on which panel, and where.
#[repr(C)]
#[derive(Clone, Copy)]
pub struct Call {
    pub shape: Shape,
    pub label: Label,
}

// What measuring, painting and gathering answer. Beside the number of a refusal stand zeros.
#[repr(C)]
#[derive(Clone, Copy)]
pub struct Answer {
    pub number: u32,
    pub pen: i32,
    pub substitutes: u32,
}

// The lit dots of each strip.
#[repr(C)]
#[derive(Clone, Copy)]
pub struct Counts {
    pub lit: [u32; 32],
}

// What painting answers: that, and the counts.
#[repr(C)]
#[derive(Clone, Copy)]
pub struct Painted {
    pub answer: Answer,
    pub counts: Counts,
}

// What applying and clearing answer: the number and the counts.
#[repr(C)]
#[derive(Clone, Copy)]
pub struct Settled {
    pub number: u32,
    pub counts: Counts,
}

// What converting, and making words of bytes, answer.
#[repr(C)]
#[derive(Clone, Copy)]
pub struct Written {
    pub number: u32,
    pub words: usize,
}

// What a call answers that says no more than whether it is done: 0, or the number of its refusal.
fn number_of(answer: Result<(), Refusal>) -> u32
    ensures { result ≡ returned answer }
{
    match answer {
        Ok(()) => 0,
        Err(refusal) => refusal.number(),
    }
}

impl From<Reply> for Answer {
    ghost from_gives = { λ reply answer. answer ≡ answer_of reply };

    fn from(reply: Reply) -> Answer {
        match reply {
            Ok(finish) => Answer {
                number: 0,
                pen: finish.pen,
                substitutes: finish.substitutes,
            },
            Err(refusal) => Answer {
                number: refusal.number(),
                pen: 0,
                substitutes: 0,
            },
        }
    }
}

impl From<Result<usize, Refusal>> for Written {
    ghost from_gives = { λ answer written. written ≡ written_of answer };

    fn from(answer: Result<usize, Refusal>) -> Written {
        match answer {
            Ok(words) => Written { number: 0, words },
            Err(refusal) => Written {
                number: refusal.number(),
                words: 0,
            },
        }
    }
}

impl From<counts::Painted> for Painted {
    ghost from_gives = { λ painted given. given ≡ painted_from painted };

    fn from(painted: counts::Painted) -> Painted {
        let lit = painted.counts;
        Painted {
            answer: Answer::from(painted.reply),
            counts: Counts { lit },
        }
    }
}

impl From<counts::Settled> for Settled {
    ghost from_gives = { λ settled given. given ≡ settled_with settled };

    fn from(settled: counts::Settled) -> Settled {
        let lit = settled.counts;
        Settled {
            number: number_of(settled.reply),
            counts: Counts { lit },
        }
    }
}

// Checks the bytes of a font file.
#[unsafe(no_mangle)]
pub extern "C" fn pailradish_check(font: &[u8]) -> u32
    ensures { result ≡ file_number font.now }
{
    fontbytes::number(font)
}

// Measures a label with the font in these bytes.
#[unsafe(no_mangle)]
pub extern "C" fn pailradish_measure(font: &[u8], x: i32, text: &[u8]) -> Answer
    ensures value { result ≡ answer_of (measure_file font.now x text.now) }
    ensures number { result.number ≡ number_after (file_number font.now) x (length text.now) }
{
    Answer::from(paint::measure_bytes(font, x, text))
}

fn check_words(bytes: &[u8], room: usize) -> Result<(), Refusal>
    ensures { returned result ≡ words_number bytes.now room }
{
    if words::odd_bytes(bytes) {
        return Err(Refusal::OddBytes);
    }
    if room < bytes.len() / 2 {
        return Err(Refusal::OutputTooShort);
    }
    Ok(())
}

fn words_of(bytes: &[u8], out: &mut [u16]) -> Result<usize, Refusal>
    ensures value { written_of result ≡ words_answer bytes.now (length out.old) }
    ensures out { out.new ≡ words_after bytes.now out.old }
{
    check_words(bytes, out.len())?;
    Ok(words::from_bytes(bytes, out))
}

// The words that bytes spell, high byte first: the step from a file to what painting takes.
#[unsafe(no_mangle)]
pub extern "C" fn pailradish_words(bytes: &[u8], out: &mut [u16]) -> Written
    ensures value { result ≡ words_answer bytes.now (length out.old) }
    ensures out { out.new ≡ words_after bytes.now out.old }
{
    Written::from(words_of(bytes, out))
}

#[unsafe(no_mangle)]
pub extern "C" fn pailradish_paint(
    font: &[u16],
    c: Call,
    text: &[u8],
    panel: &mut [u16],
    counts: Counts,
) -> Painted
    ensures value { result ≡ painted_from (painted_of c.shape (call_from font.now c text.now) panel.old counts.lit) }
    ensures panel { panel.new ≡ (counted_by c font.now text.now panel.old counts.lit).panel }
    ensures number { result.answer.number ≡ (counted_by c font.now text.now panel.old counts.lit).number }
{
    let lit = counts.lit;
    Painted::from(counts::paint(font, c.shape, c.label, text, panel, lit))
}

#[unsafe(no_mangle)]
pub extern "C" fn pailradish_fresh(s: Shape, keep: &mut [u16], flip: &mut [u16]) -> u32
    ensures value { result ≡ fresh_number s (sheet_of keep.old flip.old) }
    ensures keep { keep.new ≡ (fresh_after s (sheet_of keep.old flip.old)).keep }
    ensures flip { flip.new ≡ (fresh_after s (sheet_of keep.old flip.old)).flip }
{
    number_of(sheets::fresh(s, keep, flip))
}

#[unsafe(no_mangle)]
pub extern "C" fn pailradish_gather(
    font: &[u16],
    c: Call,
    text: &[u8],
    keep: &mut [u16],
    flip: &mut [u16],
) -> Answer
    ensures value { result ≡ answer_of (gather_reply c.shape (call_from font.now c text.now) (sheet_of keep.old flip.old)) }
    ensures keep { keep.new ≡ (gathered_by c font.now text.now (sheet_of keep.old flip.old)).keep }
    ensures flip { flip.new ≡ (gathered_by c font.now text.now (sheet_of keep.old flip.old)).flip }
    ensures number { result.number ≡ call_number c.shape (lengths_of keep.old flip.old) (call_from font.now c text.now) }
{
    Answer::from(sheets::gather(font, c.shape, c.label, text, keep, flip))
}

#[unsafe(no_mangle)]
pub extern "C" fn pailradish_join(
    s: Shape,
    keep: &mut [u16],
    flip: &mut [u16],
    keep2: &[u16],
    flip2: &[u16],
) -> u32
    ensures value { result ≡ join_number s (sheet_of keep.old flip.old) (sheet_of keep2.now flip2.now) }
    ensures keep { keep.new ≡ (join_after s (sheet_of keep.old flip.old) (sheet_of keep2.now flip2.now)).keep }
    ensures flip { flip.new ≡ (join_after s (sheet_of keep.old flip.old) (sheet_of keep2.now flip2.now)).flip }
{
    number_of(sheets::join(s, keep, flip, keep2, flip2))
}

#[unsafe(no_mangle)]
pub extern "C" fn pailradish_apply(
    s: Shape,
    keep: &[u16],
    flip: &[u16],
    panel: &mut [u16],
    counts: Counts,
) -> Settled
    ensures value { result ≡ settled_from (apply_counted s (sheet_of keep.now flip.now) panel.old counts.lit) }
    ensures panel { panel.new ≡ (apply_counted s (sheet_of keep.now flip.now) panel.old counts.lit).panel }
{
    let lit = counts.lit;
    Settled::from(counts::apply(s, keep, flip, panel, lit))
}

#[unsafe(no_mangle)]
pub extern "C" fn pailradish_clear(s: Shape, panel: &mut [u16], counts: Counts) -> Settled
    ensures value { result ≡ settled_from (clear_counted s panel.old counts.lit) }
    ensures panel { panel.new ≡ (clear_counted s panel.old counts.lit).panel }
{
    let lit = counts.lit;
    Settled::from(counts::clear(s, panel, lit))
}

#[unsafe(no_mangle)]
pub extern "C" fn pailradish_convert(cu: &[u16], out: &mut [u16]) -> Written
    ensures value { result ≡ written_of (conversion_of cu.now (length out.old)) }
    ensures out { out.new ≡ output_after cu.now out.old }
    ensures number { result.number ≡ cu_number cu.now (length out.old) }
{
    Written::from(convert::convert(cu, out))
}
