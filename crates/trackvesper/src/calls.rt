// The page's calls for C, as they are there. The number is answered, and what else they answer is laid in the places lent; `compile` and `run`, whose
// steps are lent as records, answer the page's own structs.
ghost use Rattle.std.specs.Prelude.{length};
ghost use Rattle.term.specs.Refusal.{verdict};
ghost use Rattle.table.specs.Rows.{lanes, row};
ghost use Rattle.table.specs.Lent.{before, after};
ghost use Rattle.table.specs.Checks.{Checking};
ghost use Rattle.table.specs.Adding.{Adding};
ghost use Rattle.book.specs.Reading.{Reading};
ghost use Rattle.book.specs.Writing.{Writing};
ghost use Rattle.closing.specs.Closing.{Closing};
ghost use Rattle.machine.specs.Running.{running, Ran};
ghost use Rattle.steplist.specs.Filling.{Filling};
ghost use Rattle.steplist.specs.Asking.{asking};

use book::{read, write};
use closing::close;
use machine::RunDone;
use question::StepRecord;
use steplist::{Filled, ask, compile, run};
use table::{add, check};

// Checks a table.
pub fn trackvesper_check(
    kind: u8,
    subj: &[u16],
    pred: &[u16],
    obj: &[u16],
    ann: &[u64],
    count: usize,
    place: &mut usize,
) -> u8
    ensures { Checking kind (lanes subj.now pred.now obj.now ann.now) count (verdict result place.new) }
{
    let answer = check(kind, subj, pred, obj, ann, count);
    *place = answer.place;
    answer.number
}

// Adds a triple; count goes in as the table's count and comes out as the new one.
pub fn trackvesper_add(
    kind: u8,
    subj: &mut [u16],
    pred: &mut [u16],
    obj: &mut [u16],
    ann: &mut [u64],
    count: &mut usize,
    s: u16,
    p: u16,
    o: u16,
    a: u64,
    place: &mut usize,
) -> u8
    ensures { Adding kind (row s p o a) (before subj pred obj ann) count.old (after subj pred obj ann) result place.new count.new }
{
    let answer = add(kind, subj, pred, obj, ann, *count, s, p, o, a);
    *count = answer.count;
    *place = answer.place;
    answer.number
}

// Reads a book into the lanes.
pub fn trackvesper_read(
    book: &[u8],
    subj: &mut [u16],
    pred: &mut [u16],
    obj: &mut [u16],
    ann: &mut [u64],
    place: &mut usize,
    kind: &mut u8,
    base: &mut u16,
    rules: &mut u8,
    count: &mut usize,
) -> u8
    ensures { Reading book.now (before subj pred obj ann) (after subj pred obj ann) result place.new kind.new base.new rules.new count.new }
{
    let answer = read(book, subj, pred, obj, ann);
    *place = answer.place;
    *kind = answer.kind;
    *base = answer.base;
    *rules = answer.rules;
    *count = answer.count;
    answer.number
}

// Writes a table as a book.
pub fn trackvesper_write(
    kind: u8,
    base: u16,
    rules: u8,
    subj: &[u16],
    pred: &[u16],
    obj: &[u16],
    ann: &[u64],
    count: usize,
    out: &mut [u8],
    place: &mut usize,
    length: &mut usize,
) -> u8
    ensures { Writing kind base rules (lanes subj.now pred.now obj.now ann.now) count out.old out.new result place.new length.new }
{
    let answer = write(kind, base, rules, subj, pred, obj, ann, count, out);
    *place = answer.place;
    *length = answer.length;
    answer.number
}

// Closes a table under a rule set; count goes in as the table's count and comes out as the new one.
pub fn trackvesper_close(
    kind: u8,
    rules: u8,
    subj: &mut [u16],
    pred: &mut [u16],
    obj: &mut [u16],
    ann: &mut [u64],
    count: &mut usize,
    place: &mut usize,
) -> u8
    ensures { Closing kind rules (before subj pred obj ann) count.old (after subj pred obj ann) result place.new count.new }
{
    let answer = close(kind, rules, subj, pred, obj, ann, *count);
    *count = answer.count;
    *place = answer.place;
    answer.number
}

// Compiles a question into the records lent.
pub fn trackvesper_compile(kind: u8, bytes: &[u8], records: &mut [StepRecord]) -> Filled
    ensures { Filling kind bytes.now records.old result.number result.place result.count records.new }
{
    compile(kind, bytes, records)
}

// Runs the first `steps` of the records lent over a table, with some looks allowed.
pub fn trackvesper_run(
    kind: u8,
    subj: &[u16],
    pred: &[u16],
    obj: &[u16],
    ann: &[u64],
    count: usize,
    records: &[StepRecord],
    steps: usize,
    allowed: u32,
    terms: &mut [u16],
    anns: &mut [u64],
) -> RunDone
    ensures { Ran (running kind (lanes subj.now pred.now obj.now ann.now) count terms.old anns.old records.now (length records.now) steps allowed) result.number result.place result.answers result.looks terms.old anns.old terms.new anns.new }
{
    run(
        kind, subj, pred, obj, ann, count, records, steps, allowed, terms, anns,
    )
}

// Asks a question of a table, with some looks allowed.
pub fn trackvesper_ask(
    kind: u8,
    subj: &[u16],
    pred: &[u16],
    obj: &[u16],
    ann: &[u64],
    count: usize,
    question: &[u8],
    allowed: u32,
    terms: &mut [u16],
    anns: &mut [u64],
    place: &mut usize,
    answers: &mut usize,
    looks: &mut u32,
) -> u8
    ensures { Ran (asking kind (lanes subj.now pred.now obj.now ann.now) count terms.old anns.old question.now allowed) result place.new answers.new looks.new terms.old anns.old terms.new anns.new }
{
    let answer = ask(
        kind, subj, pred, obj, ann, count, question, allowed, terms, anns,
    );
    *place = answer.place;
    *answers = answer.answers;
    *looks = answer.looks;
    answer.number
}
