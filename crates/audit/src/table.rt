// The audit's table, a line at a time.
ghost use Rattle.std.specs.Prelude.{◌≡◌, ◌+◌, ◌≤◌, length};
ghost use Rattle.wire.specs.Write.{Wrote};
ghost use Rattle.audit.specs.Ledger.{runs_of};
ghost use Rattle.audit.specs.Cells.{fill_text, row_text, widened, widest, column_widths};

use crate::cells;
use crate::cells::{Asked, Audited};

// What comes between a cell of a size and the next: a tab, or spaces up to the width of the column and two more.
#[tactic(auto, unfolding(crate::specs::Cells::fill_text))]
fn put_fill(text: &mut [u8], at: usize, limit: usize, tsv: bool, size: usize, width: u8) -> usize
    requires { at + 257 ≤ 4294967296 }
    ensures { Wrote limit at (fill_text tsv width size) text.old result text.new }
{
    if tsv {
        return wire::put(text, at, limit, b'\t');
    }
    let end = width as usize + 2;
    let mut to = at;
    for k in size..end {
        to = wire::put(text, to, limit, b' ');
    }
    to
}

// A line of the table; the headings, where there is no ground.
#[tactic(auto, using(crate::proofs::CellSizes::sizes))]
pub fn put_row(text: &mut [u8], a: Asked, tsv: bool, widths: &[u8], e: &[u8]) -> usize
    ensures text { Wrote (length text.old) 0 (row_text a tsv widths.now e.now) text.old result text.new }
    ensures size { result ≤ 2061 }
{
    let limit = text.len();
    let mut at = 0;
    for k in 0..6 {
        let end = cells::put_line_cell(text, at, limit, a, k, e);
        at = put_fill(text, end, limit, tsv, end - at, wire::byte(widths, k));
    }
    let last = cells::put_line_cell(text, at, limit, a, 6, e);
    wire::put(text, last, limit, b'\n')
}

// The width of a column that has room for the cell of one more ground, if that is shown. The text buffer is lent to write the cell into.
#[tactic(auto, using(crate::proofs::CellSizes::cell_most), unfolding(crate::specs::Cells::widened))]
fn widened(text: &mut [u8], a: Asked, column: usize, e: &[u8], width: u8) -> u8
    ensures { result ≡ widened a column e.now width }
{
    if !a.is_shown(e) {
        return width;
    }
    let limit = text.len();
    let size = cells::put_cell(text, 0, limit, a, column, e) as u8;
    width.max(size)
}

// The width of a column that has room for the cells of more grounds.
fn widen(text: &mut [u8], a: Asked, column: usize, runs: &[u8], size: usize, width: u8) -> u8
    requires { 1 ≤ size }
    ensures { result ≡ widest a column (runs_of size runs.now) width }
{
    let mut wide = width;
    for e in runs.chunks_exact(size) {
        wide = widened(text, a, column, e, wide);
    }
    wide
}

// "A column is as wide as its heading or its widest cell."
#[tactic(auto, using(crate::proofs::CellSizes::sizes))]
pub fn put_widths(widths: &mut [u8], text: &mut [u8], audited: &Audited) -> usize
    ensures { Wrote (length widths.old) 0 (column_widths audited.now.asked (runs_of 24 audited.now.ended.now) (runs_of 14 audited.now.standing.now)) widths.old result widths.new }
{
    let limit = widths.len();
    let most = text.len();
    let mut at = 0;
    for k in 0..6 {
        let head = cells::put_head(text, 0, most, k) as u8;
        let first = widen(text, audited.asked, k, audited.ended, 24, head);
        let wide = widen(text, audited.asked, k, audited.standing, 14, first);
        at = wire::put(widths, at, limit, wide);
    }
    at
}
