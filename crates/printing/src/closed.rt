// The listing of a closed table: its header, and a line for each row.
ghost use Rattle.std.specs.Prelude.{◌+◌, ◌*◌, ◌≤◌, length};
ghost use Rattle.table.specs.Rows.{lanes, rows_of};
ghost use Rattle.table.specs.Places.{RowsWithin};
ghost use Rattle.printing.specs.Text.{row_line, row_lines, closed_listing};
ghost use Rattle.printing.specs.Laid.{Fits, Laid, LaidWithin};

use crate::lines::{put_behind_blank, put_decimal, put_line, put_line_feed};

fn put_row(out: &mut [u8], at: usize, s: u16, p: u16, o: u16, a: u64) -> usize
    requires { Fits out.old at (row_line s p o a) }
    ensures { Laid out.old out.new at result (row_line s p o a) }
{
    let second = put_decimal(out, at, s as u64);
    let third = put_behind_blank(out, second, p as u64);
    let fourth = put_behind_blank(out, third, o as u64);
    let last = put_behind_blank(out, fourth, a);
    put_line_feed(out, last)
}

// The first count rows, a line each: 39 bytes at most.
fn put_rows(
    out: &mut [u8],
    at: usize,
    subj: &[u16],
    pred: &[u16],
    obj: &[u16],
    ann: &[u64],
    count: usize,
) -> usize
    requires { RowsWithin (lanes subj.now pred.now obj.now ann.now) count × (at + count * 39 ≤ length out.old) }
    ensures { LaidWithin out.old out.new at result (row_lines (rows_of (lanes subj.now pred.now obj.now ann.now) count)) (count * 39) }
{
    let mut next = at;
    for i in 0..count {
        next = put_row(out, next, subj[i], pred[i], obj[i], ann[i]);
    }
    next
}

// The listing, at the front of `out`.
pub fn put_closed(
    out: &mut [u8],
    kind: u8,
    base: u16,
    subj: &[u16],
    pred: &[u16],
    obj: &[u16],
    ann: &[u64],
    count: usize,
) -> usize
    requires { RowsWithin (lanes subj.now pred.now obj.now ann.now) count × (70 + count * 39 ≤ length out.old) }
    ensures { LaidWithin out.old out.new 0 result (closed_listing kind base (rows_of (lanes subj.now pred.now obj.now ann.now) count)) (70 + count * 39) }
{
    let numbers = [kind as u64, base as u64, count as u64];
    let rows = put_line(out, 0, b"closed", &numbers);
    put_rows(out, rows, subj, pred, obj, ann, count)
}
