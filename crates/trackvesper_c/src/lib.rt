// The static library for C: an export for each of trackvesper's calls that C makes, with the call's own clauses.
#![tactic(auto)]

ghost use Rattle.trackvesper.specs.ClosedBook.{ClosedBook};

mod calls;
mod triples;

// Closes a book: number * 2^32 + the length written, or + the place of a refusal, which leaves the output as it was.
#[unsafe(no_mangle)]
pub extern "C" fn trackvesper_close_book(book: &[u8], out: &mut [u8]) -> u64
    ensures { ClosedBook book.now out.old out.new result }
{
    trackvesper::trackvesper_close_book(book, out)
}
