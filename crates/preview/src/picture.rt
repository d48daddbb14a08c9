// The picture of a panel, as a PBM file of the kind P4.
ghost use Rattle.std.specs.Prelude.{◌+◌, ◌≤◌, ◌++◌, length};
ghost use Rattle.reading.specs.Counts.{IsPrefixLen};
ghost use Rattle.paint.specs.Panel.{panel_words};
ghost use Rattle.preview.specs.Picture.{most_words, header_bytes, picture_bytes, header_of, rows_of, picture_of, Put};

use itoa::Buffer;
use paint::Shape;

// The bytes of the largest panel, and thirteen that a header with two numbers of four digits takes.
pub const PRINTED: usize = 65_549;

// Puts bytes into a slice from a place on, and answers the place behind them.
#[tactic(auto, using(crate::proofs::Putting::put_run))]
fn put(out: &mut [u8], at: usize, bytes: &[u8]) -> usize
    requires { at + length bytes.now ≤ length out.old }
    ensures { Put at bytes.now out.old result out.new }
{
    let end = at + bytes.len();
    out[at..end].copy_from_slice(bytes);
    end
}

fn put_header(s: Shape, out: &mut [u8]) -> usize
    requires s_in_bounds { (s.rowwords ≤ 128) × (s.rows ≤ 256) }
    requires header_bytes_in_bounds { header_bytes ≤ length out.old }
    ensures put { Put 0 (header_of s) out.old result out.new }
    ensures small { result ≤ header_bytes }
{
    let at = put(out, 0, b"P4\n");
    let at = put(out, at, Buffer::new().format(16 * s.rowwords).as_bytes());
    let at = put(out, at, b" ");
    let at = put(out, at, Buffer::new().format(s.rows).as_bytes());
    put(out, at, b"\n")
}

// The header and the rows.
fn put_picture(s: Shape, panel: &[u16], out: &mut [u8]) -> usize
    requires s_in_bounds { (s.rowwords ≤ 128) × (s.rows ≤ 256) × (panel_words s ≤ length panel.now) × (panel_words s ≤ most_words) }
    requires picture_bytes_in_bounds { picture_bytes ≤ length out.old }
    ensures { Put 0 (header_of s ++ rows_of s panel.now) out.old result out.new }
{
    let at = put_header(s, out);
    let rows = &panel[..s.panel_words()];
    at + words::to_bytes(rows, &mut out[at..])
}

// The picture of a panel comes to stand first in `printed`, whose rest stays.
pub fn picture(s: Shape, panel: &[u16], printed: &mut [u8; PRINTED]) -> usize
    ensures put { Put 0 (picture_of s panel.now) printed.old result printed.new }
    ensures room { IsPrefixLen result printed.new }
{
    if paint::bad_panel(s, panel.len()) {
        return 0;
    }
    put_picture(s, panel, printed)
}
