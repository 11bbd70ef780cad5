// The closing program: a book on standard input, what follows from it on standard output.
// `closed KIND BASE ROWS` and the rows, or `refused NUMBER PLACE`.
#![tactic(auto)]

ghost use Rattle.std.specs.Prelude.{◌≤◌, length};
ghost use Rattle.table.specs.Lent.{before};
ghost use Rattle.printing.specs.Laid.{Fronted};
ghost use Rattle.close_book.specs.Listed.{Listed, listing_room};

use printing::closed::put_closed;
use printing::input::read_full;
use printing::lines::put_refused;
use std::io;

fn main(rt: HostRuntime) -> io::Result<()> {
    let mut subj = [0u16; 1024];
    let mut pred = [0u16; 1024];
    let mut obj = [0u16; 1024];
    let mut ann = [0u64; 1024];
    let mut text = [0u8; 40960];
    // One byte more than the longest book, so that a longer one is seen to be.
    let mut bytes = [0u8; 65536];
    let n = read_full(&mut rt.stdin(), &mut bytes)?;
    let size = close_listed(
        &bytes[..n],
        &mut subj,
        &mut pred,
        &mut obj,
        &mut ann,
        &mut text,
    );
    rt.write_all(&text[..size])
}

// Lays what the book prints at the front of `out`, and answers how long it is. The page's calls answer by number, 0 where they are done.
fn close_listed(
    book: &[u8],
    subj: &mut [u16],
    pred: &mut [u16],
    obj: &mut [u16],
    ann: &mut [u64],
    out: &mut [u8],
) -> usize
    requires { listing_room ≤ length out.old }
    ensures { Fronted (Listed (before subj pred obj ann) book.now) out.old out.new result }
{
    let head = trackvesper::read(book, subj, pred, obj, ann);
    if head.number > 0 {
        return put_refused(out, head.number, head.place);
    }
    let closed = trackvesper::close(head.kind, head.rules, subj, pred, obj, ann, head.count);
    if closed.number > 0 {
        return put_refused(out, closed.number, closed.place);
    }
    put_closed(
        out,
        head.kind,
        head.base,
        subj,
        pred,
        obj,
        ann,
        closed.count,
    )
}
