// Sheets: what labels do to a panel, gathered, joined and applied later.
#![tactic(auto)]

ghost use Rattle.std.specs.Prelude.{◌≡◌, ◌≤◌, length};
ghost use Rattle.words.specs.Word.{over};
ghost use Rattle.words.specs.Refusal.{returned};
ghost use Rattle.words.specs.Effect.{altered};
ghost use Rattle.paint.specs.Panel.{panel_words};
ghost use Rattle.paint.specs.Sheet.{sheet_of, lengths_of, effect_at};
ghost use Rattle.paint.specs.Label.{call_of, TellsCall};
ghost use Rattle.sheets.specs.Sheet.{fresh_number, fresh_after, join_number, join_onto, join_after};
ghost use Rattle.sheets.specs.Sheet.{apply_number, apply_after, clear_number, clear_after, gather_reply, gather_after};

use paint::{Label, Reply, Shape};
use words::{Effect, Refusal};

// The first n words become this one.
#[tactic(auto, using(words::proofs::Over::over_turn), unfolding(words::specs::Word::over))]
fn fill(list: &mut [u16], n: usize, word: u16)
    requires { n ≤ length list.old }
    ensures { list.new ≡ over n (λ i. word) list.old }
{
    for i in 0..n {
        list[i] = word;
    }
}

// Makes a fresh sheet: one of effects that alter nothing.
pub fn fresh(s: Shape, keep: &mut [u16], flip: &mut [u16]) -> Result<(), Refusal>
    ensures value { returned result ≡ fresh_number s (sheet_of keep.old flip.old) }
    ensures keep { keep.new ≡ (fresh_after s (sheet_of keep.old flip.old)).keep }
    ensures flip { flip.new ≡ (fresh_after s (sheet_of keep.old flip.old)).flip }
{
    let shorter = keep.len().min(flip.len());
    paint::check_panel(s, shorter)?;
    let n = s.panel_words();
    let idle = Effect::identity();
    fill(keep, n, idle.keep);
    fill(flip, n, idle.flip);
    Ok(())
}

// Each of the first n words of the panel becomes its effect on it.
fn apply_words(keep: &[u16], flip: &[u16], n: usize, panel: &mut [u16])
    requires { (n ≤ length keep.now) × ((n ≤ length flip.now) × (n ≤ length panel.old)) }
    ensures { panel.new ≡ altered 0 n (effect_at (sheet_of keep.now flip.now)) panel.old }
{
    for i in 0..n {
        panel[i] = Effect::new(keep[i], flip[i]).apply(panel[i]);
    }
}

// Applies a sheet to a panel.
pub fn apply(s: Shape, keep: &[u16], flip: &[u16], panel: &mut [u16]) -> Result<(), Refusal>
    ensures value { returned result ≡ apply_number s (sheet_of keep.now flip.now) panel.old }
    ensures panel { panel.new ≡ apply_after s (sheet_of keep.now flip.now) panel.old }
{
    let shorter = keep.len().min(flip.len());
    let shortest = shorter.min(panel.len());
    paint::check_panel(s, shortest)?;
    apply_words(keep, flip, s.panel_words(), panel);
    Ok(())
}

// Clears a panel.
pub fn clear(s: Shape, panel: &mut [u16]) -> Result<(), Refusal>
    ensures value { returned result ≡ clear_number s panel.old }
    ensures panel { panel.new ≡ clear_after s panel.old }
{
    paint::check_panel(s, panel.len())?;
    fill(panel, s.panel_words(), 0);
    Ok(())
}

// Each effect of the first sheet, as far as the panel goes, becomes its join with the second's.
fn join_words(s: Shape, keep: &mut [u16], flip: &mut [u16], keep2: &[u16], flip2: &[u16])
    requires first { (panel_words s ≤ length keep.old) × (panel_words s ≤ length flip.old) }
    requires second { (panel_words s ≤ length keep2.now) × (panel_words s ≤ length flip2.now) }
    ensures keep { keep.new ≡ (join_onto s (sheet_of keep.old flip.old) (sheet_of keep2.now flip2.now)).keep }
    ensures flip { flip.new ≡ (join_onto s (sheet_of keep.old flip.old) (sheet_of keep2.now flip2.now)).flip }
{
    for i in 0..s.panel_words() {
        let then = Effect::new(keep2[i], flip2[i]);
        let joined = Effect::new(keep[i], flip[i]).join(then);
        keep[i] = joined.keep;
        flip[i] = joined.flip;
    }
}

// Joins a second sheet onto a first, which changes; the second stays.
pub fn join(
    s: Shape,
    keep: &mut [u16],
    flip: &mut [u16],
    keep2: &[u16],
    flip2: &[u16],
) -> Result<(), Refusal>
    ensures value { returned result ≡ join_number s (sheet_of keep.old flip.old) (sheet_of keep2.now flip2.now) }
    ensures keep { keep.new ≡ (join_after s (sheet_of keep.old flip.old) (sheet_of keep2.now flip2.now)).keep }
    ensures flip { flip.new ≡ (join_after s (sheet_of keep.old flip.old) (sheet_of keep2.now flip2.now)).flip }
{
    let first = keep.len().min(flip.len());
    let shorter = first.min(keep2.len());
    let shortest = shorter.min(flip2.len());
    paint::check_panel(s, shortest)?;
    join_words(s, keep, flip, keep2, flip2);
    Ok(())
}

// Gathers a label: its effect is joined onto the sheet.
pub fn gather(
    font: &[u16],
    s: Shape,
    l: Label,
    text: &[u8],
    keep: &mut [u16],
    flip: &mut [u16],
) -> Reply
    ensures value { result ≡ gather_reply s (call_of font.now l text.now) (sheet_of keep.old flip.old) }
    ensures keep { keep.new ≡ (gather_after s (call_of font.now l text.now) (sheet_of keep.old flip.old)).keep }
    ensures flip { flip.new ≡ (gather_after s (call_of font.now l text.now) (sheet_of keep.old flip.old)).flip }
    ensures numbers { TellsCall result s (lengths_of keep.old flip.old) (call_of font.now l text.now) }
{
    let v = fonts::read(font)?;
    paint::join_label(font, v, s, l, text, keep, flip)
}
