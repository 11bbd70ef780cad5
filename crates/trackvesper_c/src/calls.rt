// The page's calls, for C.
ghost use Rattle.std.specs.Prelude.{length};
ghost use Rattle.term.specs.Refusal.{verdict};
ghost use Rattle.table.specs.Rows.{lanes, row};
ghost use Rattle.table.specs.Lent.{before, after};
ghost use Rattle.table.specs.Checks.{Checking};
ghost use Rattle.table.specs.Adding.{Adding};
ghost use Rattle.book.specs.Reading.{Reading};
ghost use Rattle.book.specs.Writing.{Writing};
ghost use Rattle.closing.specs.Closing.{Closing};
ghost use Rattle.machine.specs.Running.{running, Ran};
ghost use Rattle.steplist.specs.Filling.{Filling};
ghost use Rattle.steplist.specs.Asking.{asking};

use trackvesper::{Filled, RunDone, StepRecord};

// Checks a table.
#[unsafe(no_mangle)]
pub extern "C" fn trackvesper_check(
    kind: u8,
    subj: &[u16],
    pred: &[u16],
    obj: &[u16],
    ann: &[u64],
    count: usize,
    place: &mut usize,
) -> u8
    ensures { Checking kind (lanes subj.now pred.now obj.now ann.now) count (verdict result place.new) }
{
    trackvesper::calls::trackvesper_check(kind, subj, pred, obj, ann, count, place)
}

// Adds a triple; count goes in as the table's count and comes out as the new one.
#[unsafe(no_mangle)]
pub extern "C" fn trackvesper_add(
    kind: u8,
    subj: &mut [u16],
    pred: &mut [u16],
    obj: &mut [u16],
    ann: &mut [u64],
    count: &mut usize,
    s: u16,
    p: u16,
    o: u16,
    a: u64,
    place: &mut usize,
) -> u8
    ensures { Adding kind (row s p o a) (before subj pred obj ann) count.old (after subj pred obj ann) result place.new count.new }
{
    trackvesper::calls::trackvesper_add(kind, subj, pred, obj, ann, count, s, p, o, a, place)
}

// Reads a book into the lanes.
#[unsafe(no_mangle)]
pub extern "C" fn trackvesper_read(
    book: &[u8],
    subj: &mut [u16],
    pred: &mut [u16],
    obj: &mut [u16],
    ann: &mut [u64],
    place: &mut usize,
    kind: &mut u8,
    base: &mut u16,
    rules: &mut u8,
    count: &mut usize,
) -> u8
    ensures { Reading book.now (before subj pred obj ann) (after subj pred obj ann) result place.new kind.new base.new rules.new count.new }
{
    trackvesper::calls::trackvesper_read(
        book, subj, pred, obj, ann, place, kind, base, rules, count,
    )
}

// Writes a table as a book.
#[unsafe(no_mangle)]
pub extern "C" fn trackvesper_write(
    kind: u8,
    base: u16,
    rules: u8,
    subj: &[u16],
    pred: &[u16],
    obj: &[u16],
    ann: &[u64],
    count: usize,
    out: &mut [u8],
    place: &mut usize,
    length: &mut usize,
) -> u8
    ensures { Writing kind base rules (lanes subj.now pred.now obj.now ann.now) count out.old out.new result place.new length.new }
{
    trackvesper::calls::trackvesper_write(
        kind, base, rules, subj, pred, obj, ann, count, out, place, length,
    )
}

// Closes a table under a rule set; count goes in as the table's count and comes out as the new one.
#[unsafe(no_mangle)]
pub extern "C" fn trackvesper_close(
    kind: u8,
    rules: u8,
    subj: &mut [u16],
    pred: &mut [u16],
    obj: &mut [u16],
    ann: &mut [u64],
    count: &mut usize,
    place: &mut usize,
) -> u8
    ensures { Closing kind rules (before subj pred obj ann) count.old (after subj pred obj ann) result place.new count.new }
{
    trackvesper::calls::trackvesper_close(kind, rules, subj, pred, obj, ann, count, place)
}

// Compiles a question into the records lent.
#[unsafe(no_mangle)]
pub extern "C" fn trackvesper_compile(kind: u8, bytes: &[u8], records: &mut [StepRecord]) -> Filled
    ensures { Filling kind bytes.now records.old result.number result.place result.count records.new }
{
    trackvesper::calls::trackvesper_compile(kind, bytes, records)
}

// Runs the first `steps` of the records lent over a table, with some looks allowed.
#[unsafe(no_mangle)]
pub extern "C" fn trackvesper_run(
    kind: u8,
    subj: &[u16],
    pred: &[u16],
    obj: &[u16],
    ann: &[u64],
    count: usize,
    records: &[StepRecord],
    steps: usize,
    allowed: u32,
    terms: &mut [u16],
    anns: &mut [u64],
) -> RunDone
    ensures { Ran (running kind (lanes subj.now pred.now obj.now ann.now) count terms.old anns.old records.now (length records.now) steps allowed) result.number result.place result.answers result.looks terms.old anns.old terms.new anns.new }
{
    trackvesper::calls::trackvesper_run(
        kind, subj, pred, obj, ann, count, records, steps, allowed, terms, anns,
    )
}

// Asks a question of a table, with some looks allowed.
#[unsafe(no_mangle)]
pub extern "C" fn trackvesper_ask(
    kind: u8,
    subj: &[u16],
    pred: &[u16],
    obj: &[u16],
    ann: &[u64],
    count: usize,
    question: &[u8],
    allowed: u32,
    terms: &mut [u16],
    anns: &mut [u64],
    place: &mut usize,
    answers: &mut usize,
    looks: &mut u32,
) -> u8
    ensures { Ran (asking kind (lanes subj.now pred.now obj.now ann.now) count terms.old anns.old question.now allowed) result place.new answers.new looks.new terms.old anns.old terms.new anns.new }
{
    trackvesper::calls::trackvesper_ask(
        kind, subj, pred, obj, ann, count, question, allowed, terms, anns, place, answers, looks,
    )
}
