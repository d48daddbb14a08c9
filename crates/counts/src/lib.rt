// The lit dots of the thirty-two strips, kept beside the panel by value: painting, applying and clearing hand back the new counts.
#![tactic(auto)]

ghost use Rattle.std.specs.Prelude.{◌≡◌, ℕ, min, [], ◌∷◌, true, false, cond, eqb, ltb, ◌+◌, ◌-◌, ◌*◌, ◌≤◌, ◌<◌, length, set};
ghost use Rattle.words.specs.Word.{word, table};
ghost use Rattle.words.specs.Refusal.{returned, answered};
ghost use Rattle.paint.specs.Panel.{bad_panel};
ghost use Rattle.paint.specs.Label.{call_of};
ghost use Rattle.paint.specs.Sheet.{sheet_of};
ghost use Rattle.counts.specs.Lit.{lit, some_over, leaves};
ghost use Rattle.counts.specs.Calls.{paint_counted, painted_of, painted_by, TellsPainted};
ghost use Rattle.counts.specs.Calls.{apply_counted, clear_counted, settled_of, settled_by};
ghost use Rattle.counts.specs.Band.{band_of, mask_of, lit_in_word, lit_in_words, applied_word, four_of, four_at, AreWords, Inside, lit_by};
ghost use Rattle.counts.specs.Band.{Read, Accepted, call_in, rows_of, as_painted, left_by, lit_in, Sure, copied_to};
ghost use Rattle.counts.specs.Band.{settled_number, settled_counts};

use fonts::View;
use paint::{Finish, Label, Reply, Shape, Strip};
use words::{Effect, Refusal};

// What painting answers: its reply, and the new counts or those given.
#[derive(Clone, Copy)]
pub struct Painted {
    pub reply: Reply,
    pub counts: [u32; 32],
}

// What applying and clearing answer: done or refused, and the new counts or those given.
#[derive(Clone, Copy)]
pub struct Settled {
    pub reply: Result<(), Refusal>,
    pub counts: [u32; 32],
}

impl Painted {
    // A refusal hands back the counts given.
    fn of(answer: Result<(Finish, [u32; 32]), Refusal>, given: [u32; 32]) -> Painted
        ensures { result ≡ painted_by answer given }
    {
        match answer {
            Ok(done) => {
                let (finish, counts) = done;
                Painted {
                    reply: Ok(finish),
                    counts,
                }
            }
            Err(refusal) => Painted {
                reply: Err(refusal),
                counts: given,
            },
        }
    }
}

impl Settled {
    fn of(answer: Result<[u32; 32], Refusal>, given: [u32; 32]) -> Settled
        ensures { result ≡ settled_by answer given }
    {
        match answer {
            Ok(counts) => Settled {
                reply: Ok(()),
                counts,
            },
            Err(refusal) => Settled {
                reply: Err(refusal),
                counts: given,
            },
        }
    }
}

// The words that hold the columns of a strip, in some rows of a panel.
#[derive(Clone, Copy)]
pub struct Band {
    // How many rows, and in each how many words behind the first.
    pub rows: usize,
    pub last: usize,
    // The columns of the strip in the first of these words, and in the last.
    pub head: u16,
    pub tail: u16,
    // Where the first is in the panel, and the words from one row to the next.
    pub at: usize,
    pub rowwords: usize,
}

// Some rows of a panel.
#[derive(Clone, Copy)]
pub struct Rows {
    pub first: usize,
    pub count: usize,
}

// One label call on panels of one shape, with the font that has been read for it.
#[derive(Clone, Copy)]
struct LabelCall<'a> {
    font: &'a [u16],
    view: View,
    shape: Shape,
    label: Label,
    text: &'a [u8],
}

// The rows that a label may reach, the count of its strip, and how many dots of the strip are lit in these rows.
#[derive(Clone, Copy)]
pub struct Tally {
    pub rows: Rows,
    pub held: u32,
    pub lit: u32,
}

// The most that the count of a strip may be.
fn most_lit(s: Shape) -> u64
    ensures { result ≡ s.width * s.rows }
{
    s.width as u64 * s.rows as u64
}

// A count is over the most. They are compared as numbers of 32 bits, since no count is over a larger one.
fn is_over(most: u64, count: u32) -> bool
    ensures { result ≡ ltb most count }
{
    (most.min(4294967295) as u32) < count
}

// Some count is over that.
fn some_over(s: Shape, counts: [u32; 32]) -> bool
    ensures { result ≡ some_over s counts }
{
    let most = most_lit(s);
    counts.iter().any(|count| is_over(most, *count))
}

// A count would leave what it may be, by so many lit dots more and so many fewer.
fn leaves(most: u64, held: u32, more: u32, fewer: u32) -> bool
    ensures { result ≡ leaves most held more fewer }
{
    let raised = held as u64 + more as u64;
    if raised < fewer as u64 {
        return true;
    }
    most < raised - fewer as u64
}

// A count that does not, moved so.
fn moved(held: u32, more: u32, fewer: u32) -> u32
    requires { (fewer ≤ held + more) × (held + more ≤ 4294967295 + fewer) }
    ensures { result ≡ held + more - fewer }
{
    (held as u64 + more as u64 - fewer as u64) as u32
}

// Four words as one number. The first of them is its last: so they lie in memory, and the compiler makes one load of them.
fn four(a: u16, b: u16, c: u16, d: u16) -> u64
    ensures { result ≡ four_of a b c d }
{
    ((d as u64 * 65536 + c as u64) * 65536 + b as u64) * 65536 + a as u64
}

// Words whose dots are counted: those of a panel as they are, or as a sheet, applied, would leave them.
trait Dots: Copy {
    ghost words: { Self → ℕ → ℕ };

    // How many there are.
    ghost room: { Self → ℕ };

    fn word_at(self, i: usize) -> u16
        requires { (i ≤ 131071) × (i < room self) }
        ensures { result ≡ words self i };
}

impl<'a> Dots for &'a [u16] {
    ghost words = { λ panel. word panel.now };

    ghost room = { λ panel. length panel.now };

    fn word_at(self, i: usize) -> u16 {
        self[i]
    }
}

// A panel and a sheet that is to be applied to it.
#[derive(Clone, Copy)]
struct Applied<'a> {
    keep: &'a [u16],
    flip: &'a [u16],
    panel: &'a [u16],
}

impl<'a> Dots for Applied<'a> {
    ghost words = { λ a. applied_word (sheet_of a.keep.now a.flip.now) a.panel.now };

    ghost room = { λ a. min (min (length a.keep.now) (length a.flip.now)) (length a.panel.now) };

    fn word_at(self, i: usize) -> u16 {
        Effect::new(self.keep[i], self.flip[i]).apply(self.panel[i])
    }
}

fn four_words<D: Dots>(dots: D, i: usize) -> u64
    requires { (i ≤ 131068) × (i + 3 < D.room dots) }
    ensures value { result ≡ four_at (D.words dots) i }
    ensures near { AreWords (D.words dots) i }
{
    four(
        dots.word_at(i),
        dots.word_at(i + 1),
        dots.word_at(i + 2),
        dots.word_at(i + 3),
    )
}

// The columns of a mask in the word at one place; all columns in any other word.
fn only_at(place: usize, mask: u16, w: usize) -> u16
    ensures { result ≡ cond (eqb w place) mask 0xFFFF }
{
    if w == place { mask } else { 0xFFFF }
}

impl Band {
    // Strip k, in so many rows from this one on.
    fn of(s: Shape, k: u32, row: usize, rows: usize) -> Band
        requires { (row ≤ 256) × (1 ≤ s.width) }
        ensures { result ≡ band_of s k row rows }
    {
        let strip = Strip::of(s, k);
        let first = strip.from / 16;
        let end = strip.upto - 1;
        let rowwords = s.rowwords as usize;
        Band {
            rows,
            last: end / 16 - first,
            head: paint::from_column(strip.from),
            tail: paint::upto_column(end),
            at: row * rowwords + first,
            rowwords,
        }
    }

    // The columns of the strip in word w of a row: those that are not before it, and not behind it.
    fn mask(self, w: usize) -> u16
        ensures { result ≡ mask_of self w }
    {
        only_at(0, self.head, w) & only_at(self.last, self.tail, w)
    }

    // So in the four words from word w on.
    fn masks(self, w: usize) -> u64
        requires { w ≤ 255 }
        ensures { result ≡ four_at (mask_of self) w }
    {
        four(
            self.mask(w),
            self.mask(w + 1),
            self.mask(w + 2),
            self.mask(w + 3),
        )
    }

    // The lit dots in word w of each row.
    fn lit_in_one<D: Dots>(self, dots: D, w: usize) -> u32
        requires { Inside self (D.room dots) × (w ≤ self.last) }
        ensures value { result ≡ lit_in_word self (D.words dots) w self.rows }
        ensures near { result ≤ 4096 }
    {
        let mask = self.mask(w);
        let mut sum = 0;
        for row in 0..self.rows {
            sum += u16::count_ones(dots.word_at(self.at + w + row * self.rowwords) & mask);
        }
        sum
    }

    // The lit dots in the four words of each row from word w on.
    fn lit_in_four<D: Dots>(self, dots: D, w: usize) -> u32
        requires { Inside self (D.room dots) × (w + 3 ≤ self.last) }
        ensures w_value { result + lit_in_words self (D.words dots) w ≡ lit_in_words self (D.words dots) (w + 4) }
        ensures near { result ≤ 16384 }
    {
        let mask = self.masks(w);
        let mut sum = 0;
        for row in 0..self.rows {
            sum += u64::count_ones(four_words(dots, self.at + w + row * self.rowwords) & mask);
        }
        sum
    }

    // All its lit dots. A strip has at most five words in a row: four are counted at once, where there are so many.
    fn lit<D: Dots>(self, dots: D) -> u32
        requires { Inside self (D.room dots) }
        ensures value { result ≡ lit_in_words self (D.words dots) (self.last + 1) }
        ensures near { result ≤ 1048576 }
    {
        let mut sum = 0;
        let mut first = 0;
        if 3 <= self.last {
            sum = self.lit_in_four(dots, 0);
            first = 4;
        }
        for w in first..self.last + 1 {
            sum += self.lit_in_one(dots, w);
        }
        sum
    }
}

// Copies the words of a band that has one row to where they stand in a row of their own.
fn copy_row(panel: &[u16], from: Band, to: Band, space: &mut [u16; 128])
    requires { (from.at + from.last < length panel.now) × (to.at + from.last ≤ 127) × (from.at ≤ 65535) }
    ensures { space.new ≡ copied_to panel.now from.at to.at (from.last + 1) space.old }
{
    for i in 0..from.last + 1 {
        space[to.at + i] = panel[from.at + i];
    }
}

// The lit dots of strip k in some rows.
fn lit_in(rows: Rows, s: Shape, k: u32, panel: &[u16]) -> u32
    requires { (bad_panel s (length panel.now ∷ []) ≡ false) × (k ≤ 31) × (rows.first + rows.count ≤ s.rows) }
    ensures value { result ≡ lit_in s k rows.first rows.count panel.now }
    ensures near { result ≤ 1048576 }
{
    Band::of(s, k, rows.first, rows.count).lit(panel)
}

// Whatever a label does in these rows, the count stays what it may be. That is so of a true count.
fn sure(s: Shape, t: Tally) -> bool
    requires { t.rows.count ≤ 256 }
    ensures { result ≡ true → Sure s t }
{
    if t.held < t.lit {
        return false;
    }
    let room = s.width as u64 * t.rows.count as u64;
    t.held as u64 + room <= most_lit(s) + t.lit as u64
}

// The count of a strip.
fn count_of(counts: [u32; 32], k: u32) -> u32
    requires { k ≤ 31 }
    ensures { result ≡ word counts k }
{
    counts[k as usize]
}

// The counts with another one for a strip.
fn with_count(counts: [u32; 32], k: u32, count: u32) -> [u32; 32]
    requires { k ≤ 31 }
    ensures { result ≡ set counts k count }
{
    let mut new = counts;
    new[k as usize] = count;
    new
}

impl<'a> LabelCall<'a> {
    // The rows that its pictures may reach.
    fn rows(&self) -> Rows
        ensures { result ≡ rows_of self.now }
    {
        let rows = self.shape.rows as usize;
        let y = words::place_of(self.label.y);
        let e = fonts::rows_in_all(self.font, self.view);
        let above = 2048 + e.above as usize;
        let below = y + e.above as usize + e.below as usize;
        let first = rows.min(y.saturating_sub(above));
        let end = rows.min(below.saturating_sub(above));
        Rows {
            first,
            count: end.saturating_sub(first),
        }
    }

    // The dots that the label, accepted, would leave lit in its strip, in one row: it is painted on a copy of the strip's words.
    fn left_in_row(&self, panel: &[u16], row: usize) -> u32
        requires { Accepted self.now panel.now × (row < self.now.shape.rows) }
        ensures value { result ≡ lit_in self.now.shape self.now.label.strip row 1 (as_painted self.now panel.now) }
        ensures near { result ≤ 1048576 }
    {
        let s = self.shape;
        let k = self.label.strip;
        let alone = Band::of(s, k, 0, 1);
        let mut space = [0u16; 128];
        copy_row(panel, Band::of(s, k, row, 1), alone, &mut space);
        paint::paint_row(
            self.font, self.view, s, self.label, self.text, row, &mut space,
        );
        alone.lit(&space[..])
    }

    // In the rows that its pictures may reach.
    fn left(&self, rows: Rows, panel: &[u16]) -> u32
        requires { Accepted self.now panel.now × (rows ≡ rows_of self.now) }
        ensures { result ≡ left_by self.now panel.now }
    {
        let mut sum = 0;
        for i in 0..rows.count {
            sum += self.left_in_row(panel, rows.first + i);
        }
        sum
    }

    // The label, accepted, is refused by 30 for its own strip's count. Only where that is not sure what it would leave is found out.
    fn refuses(&self, panel: &[u16], t: Tally) -> bool
        requires { Accepted self.now panel.now × (t.rows ≡ rows_of self.now) }
        ensures { result ≡ leaves (self.now.shape.width * self.now.shape.rows) t.held (left_by self.now panel.now) t.lit }
    {
        if sure(self.shape, t) {
            return false;
        }
        let left = self.left(t.rows, panel);
        leaves(most_lit(self.shape), t.held, left, t.lit)
    }

    // Paints the label where nothing but 30 can refuse it, with no count over what it may be, and answers the new counts too.
    fn paint_accepted(
        &self,
        panel: &mut [u16],
        counts: [u32; 32],
    ) -> Result<(Finish, [u32; 32]), Refusal>
        requires read { Read self.now.view self.now.font.now }
        requires text_value { Accepted self.now panel.old × (some_over self.now.shape counts ≡ false) }
        ensures value { painted_by result counts ≡ painted_of self.now.shape (call_in self.now) panel.old counts }
        ensures number { returned result ≡ (paint_counted self.now.shape (call_in self.now) panel.old counts).number }
        ensures panel { panel.new ≡ (paint_counted self.now.shape (call_in self.now) panel.old counts).panel }
    {
        let s = self.shape;
        let k = self.label.strip;
        let rows = self.rows();
        let t = Tally {
            rows,
            held: count_of(counts, k),
            lit: lit_in(rows, s, k, panel),
        };
        if self.refuses(panel, t) {
            return Err(Refusal::LitDots);
        }
        let finish = paint::paint_label(self.font, self.view, s, self.label, self.text, panel)?;
        let left = lit_in(rows, s, k, panel);
        Ok((finish, with_count(counts, k, moved(t.held, left, t.lit))))
    }

    // Paints the label.
    fn paint(&self, panel: &mut [u16], counts: [u32; 32]) -> Result<(Finish, [u32; 32]), Refusal>
        requires { Read self.now.view self.now.font.now }
        ensures value { painted_by result counts ≡ painted_of self.now.shape (call_in self.now) panel.old counts }
        ensures number { returned result ≡ (paint_counted self.now.shape (call_in self.now) panel.old counts).number }
        ensures panel { panel.new ≡ (paint_counted self.now.shape (call_in self.now) panel.old counts).panel }
    {
        paint::check_with(self.shape, panel.len(), self.label, self.text.len())?;
        if some_over(self.shape, counts) {
            return Err(Refusal::LitDots);
        }
        self.paint_accepted(panel, counts)
    }
}

// Reads the font, and paints a label with it.
fn paint_counted(
    font: &[u16],
    s: Shape,
    l: Label,
    text: &[u8],
    panel: &mut [u16],
    counts: [u32; 32],
) -> Result<(Finish, [u32; 32]), Refusal>
    ensures value { painted_by result counts ≡ painted_of s (call_of font.now l text.now) panel.old counts }
    ensures number { returned result ≡ (paint_counted s (call_of font.now l text.now) panel.old counts).number }
    ensures panel { panel.new ≡ (paint_counted s (call_of font.now l text.now) panel.old counts).panel }
{
    let view = fonts::read(font)?;
    let call = LabelCall {
        font,
        view,
        shape: s,
        label: l,
        text,
    };
    call.paint(panel, counts)
}

// Paints a label into one of the thirty-two strips of a panel, and hands back the new counts.
pub fn paint(
    font: &[u16],
    s: Shape,
    l: Label,
    text: &[u8],
    panel: &mut [u16],
    counts: [u32; 32],
) -> Painted
    ensures value { result ≡ painted_of s (call_of font.now l text.now) panel.old counts }
    ensures panel { panel.new ≡ (paint_counted s (call_of font.now l text.now) panel.old counts).panel }
    ensures numbers { TellsPainted result.reply s (call_of font.now l text.now) panel.old counts }
{
    Painted::of(paint_counted(font, s, l, text, panel, counts), counts)
}

// The lit dots of every strip.
#[tactic(auto, using(words::proofs::Over::over_turn), unfolding(words::specs::Word::over))]
fn lit_of<D: Dots>(s: Shape, dots: D) -> [u32; 32]
    requires { bad_panel s (D.room dots ∷ []) ≡ false }
    ensures { result ≡ table 32 (λ k. lit_by s k (D.words dots)) }
{
    let mut lit = [0u32; 32];
    for k in 0..32 {
        lit[k] = Band::of(s, k as u32, 0, s.rows as usize).lit(dots);
    }
    lit
}

// The new counts, by the dots that a call leaves lit and those that were lit.
fn settle(
    s: Shape,
    counts: [u32; 32],
    left: [u32; 32],
    lit: [u32; 32],
) -> Result<[u32; 32], Refusal>
    requires { s.width * s.rows ≤ 4294967295 }
    ensures value { result ≡ answered (settled_number s counts (word left) (word lit)) (settled_counts counts (word left) (word lit)) }
    ensures number { returned result ≡ settled_number s counts (word left) (word lit) }
{
    if some_over(s, counts) {
        return Err(Refusal::LitDots);
    }
    let most = most_lit(s);
    let mut new = counts;
    for k in 0..32 {
        let held = counts[k];
        let more = left[k];
        let fewer = lit[k];
        if leaves(most, held, more, fewer) {
            return Err(Refusal::LitDots);
        }
        new[k] = moved(held, more, fewer);
    }
    Ok(new)
}

// Applies a sheet to a panel, and answers the new counts.
fn apply_counted(
    s: Shape,
    keep: &[u16],
    flip: &[u16],
    panel: &mut [u16],
    counts: [u32; 32],
) -> Result<[u32; 32], Refusal>
    ensures value { settled_by result counts ≡ settled_of (apply_counted s (sheet_of keep.now flip.now) panel.old counts) }
    ensures number { returned result ≡ (apply_counted s (sheet_of keep.now flip.now) panel.old counts).number }
    ensures panel { panel.new ≡ (apply_counted s (sheet_of keep.now flip.now) panel.old counts).panel }
{
    let room = keep.len().min(flip.len()).min(panel.len());
    paint::check_panel(s, room)?;
    let lit = lit_of(s, &*panel);
    let sheet = Applied {
        keep,
        flip,
        panel: &*panel,
    };
    let left = lit_of(s, sheet);
    let new = settle(s, counts, left, lit)?;
    sheets::apply(s, keep, flip, panel)?;
    Ok(new)
}

// Applies a sheet to a panel, and hands back the new counts.
pub fn apply(s: Shape, keep: &[u16], flip: &[u16], panel: &mut [u16], counts: [u32; 32]) -> Settled
    ensures value { result ≡ settled_of (apply_counted s (sheet_of keep.now flip.now) panel.old counts) }
    ensures panel { panel.new ≡ (apply_counted s (sheet_of keep.now flip.now) panel.old counts).panel }
    ensures number { returned result.reply ≡ (apply_counted s (sheet_of keep.now flip.now) panel.old counts).number }
{
    Settled::of(apply_counted(s, keep, flip, panel, counts), counts)
}

// Clears a panel, and answers the new counts.
fn clear_counted(s: Shape, panel: &mut [u16], counts: [u32; 32]) -> Result<[u32; 32], Refusal>
    ensures value { settled_by result counts ≡ settled_of (clear_counted s panel.old counts) }
    ensures number { returned result ≡ (clear_counted s panel.old counts).number }
    ensures panel { panel.new ≡ (clear_counted s panel.old counts).panel }
{
    paint::check_panel(s, panel.len())?;
    let lit = lit_of(s, &*panel);
    let left = [0u32; 32];
    let new = settle(s, counts, left, lit)?;
    sheets::clear(s, panel)?;
    Ok(new)
}

// Clears a panel, and hands back the new counts.
pub fn clear(s: Shape, panel: &mut [u16], counts: [u32; 32]) -> Settled
    ensures value { result ≡ settled_of (clear_counted s panel.old counts) }
    ensures panel { panel.new ≡ (clear_counted s panel.old counts).panel }
    ensures number { returned result.reply ≡ (clear_counted s panel.old counts).number }
{
    Settled::of(clear_counted(s, panel, counts), counts)
}
