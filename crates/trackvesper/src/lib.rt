// Trackvesper: fitting books, what follows from them, questions about them, makers' lists, and the calls for C hosts.
// The calls below take anything and refuse by number and place; the README has the table of numbers.
#![tactic(auto)]

ghost use Rattle.std.specs.Prelude.{◌≡◌, ◌<◌};
ghost use Rattle.table.specs.Lent.{lent};
ghost use Rattle.trackvesper.specs.ClosedBook.{fresh_lanes, a_number, packed, ClosedBook};

// Tables: the check, and adding a triple.
pub use table::{Added, add, check};
pub use term::Verdict;
// Books: reading into a table, and writing one.
pub use book::{CUT, ReadDone, WriteDone, read, write};
// What follows from a table.
pub use closing::{CloseDone, close};
// Makers' lists: N-Triples into a table and a names list, and back.
pub use ntread::{TriplesRead, read_triples};
pub use ntriples::{TriplesWritten, write_triples};
// Questions: checked and compiled into lent step records, and run from them; and both by one call, with records of its own.
pub use machine::RunDone;
pub use question::StepRecord;
pub use steplist::{Filled, ask, compile, run};

// What C calls (the static library trackvesper_c exports it).
pub mod calls;
pub mod triples;

// What a number counts in a word that holds a length or place beside it.
const A_NUMBER: u64 = 4294967296;

// A number and a length or place in one word.
fn pack(number: u8, rest: usize) -> u64
    requires { rest < a_number }
    ensures { result ≡ packed number rest }
{
    (number as u64) * A_NUMBER + (rest as u64)
}

// Reads the book into lanes of zeros, closes them under its rule set, and writes them out.
// Each call of the page answers by number and place, and so does this one: a Result between would be made and taken apart again.
fn close_into(
    book: &[u8],
    out: &mut [u8],
    subj: &mut [u16],
    pred: &mut [u16],
    obj: &mut [u16],
    ann: &mut [u64],
) -> u64
    requires { lent subj pred obj ann ≡ fresh_lanes }
    ensures { ClosedBook book.now out.old out.new result }
{
    let head = read(book, subj, pred, obj, ann);
    if head.number > 0 {
        return pack(head.number, head.place);
    }
    let closed = close(head.kind, head.rules, subj, pred, obj, ann, head.count);
    if closed.number > 0 {
        return pack(closed.number, closed.place);
    }
    let done = write(
        head.kind,
        head.base,
        head.rules,
        subj,
        pred,
        obj,
        ann,
        closed.count,
        out,
    );
    if done.number > 0 {
        return pack(done.number, done.place);
    }
    pack(0, done.length)
}

// Closes a book: number * 2^32 + the length written, or + the place of a refusal, which leaves the output as it was.
pub fn trackvesper_close_book(book: &[u8], out: &mut [u8]) -> u64
    ensures { ClosedBook book.now out.old out.new result }
{
    let mut subj = [0u16; 1024];
    let mut pred = [0u16; 1024];
    let mut obj = [0u16; 1024];
    let mut ann = [0u64; 1024];
    close_into(book, out, &mut subj, &mut pred, &mut obj, &mut ann)
}
