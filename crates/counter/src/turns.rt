// What the counter does with the book's bytes and with a question's, and the text that it prints for them, laid at the front of `out`.
ghost use Rattle.std.specs.Prelude.{◌≡◌, true, ◌≤◌, length};
ghost use Rattle.ruleset.specs.RuleSet.{is_rule_set};
ghost use Rattle.table.specs.Rows.{lanes, rows_of};
ghost use Rattle.table.specs.Lent.{lent, before, after};
ghost use Rattle.trackvesper.specs.ClosedBook.{fresh_lanes};
ghost use Rattle.printing.specs.Laid.{Fronted};
ghost use Rattle.counter.specs.Counted.{comes_to, asked_lines};
ghost use Rattle.counter.specs.Turns.{asked_room, Is, Ready, Opening, Turned, is_over, kind_in, rules_in, rows_in, count_in};

use crate::next::{Part, part_of};
use printing::asked::put_asked;
use printing::lines::put_refused;
use trackvesper::CUT;

// The table that a book gives.
#[derive(Drop)]
pub struct Table {
    pub kind: u8,
    pub rules: u8,
    pub rows: usize,
}

// The table, none where this was all; how much was laid.
#[derive(Drop)]
pub struct Opened {
    pub table: Option<Table>,
    pub size: usize,
}

pub fn open_book(
    s: &[u8],
    subj: &mut [u16],
    pred: &mut [u16],
    obj: &mut [u16],
    ann: &mut [u64],
    out: &mut [u8],
) -> Opened
    requires { (lent subj pred obj ann ≡ fresh_lanes) × (asked_room ≤ length out.old) }
    ensures { Fronted (Opening s.now (is_over result.table) (kind_in result.table) (rules_in result.table) (after subj pred obj ann) (rows_in result.table)) out.old out.new result.size }
{
    let Part::Whole(book) = part_of(s) else {
        let cut = put_refused(out, CUT, 0);
        return Opened {
            table: None,
            size: cut,
        };
    };
    let head = trackvesper::read(book, subj, pred, obj, ann);
    if head.number > 0 {
        let refused = put_refused(out, head.number, head.place);
        return Opened {
            table: None,
            size: refused,
        };
    }
    let table = Table {
        kind: head.kind,
        rules: head.rules,
        rows: head.count,
    };
    Opened {
        table: Some(table),
        size: 0,
    }
}

// The rows of the closed table, none where this was all; how much was laid.
#[derive(Drop)]
pub struct Turn {
    pub rows: Option<usize>,
    pub size: usize,
}

fn last(size: usize) -> Turn
    ensures { (result.rows ≡ None) × (result.size ≡ size) }
{
    Turn { rows: None, size }
}

// A question that is cut is seen before the closing that would have come before it.
pub fn answer(
    kind: u8,
    rules: u8,
    s: &[u8],
    subj: &mut [u16],
    pred: &mut [u16],
    obj: &mut [u16],
    ann: &mut [u64],
    count: usize,
    looks: u32,
    terms: &mut [u16],
    anns: &mut [u64],
    out: &mut [u8],
) -> Turn
    requires { Ready kind (lent subj pred obj ann) count × (length terms.old ≡ 4096) × (length anns.old ≡ 2048) × (asked_room ≤ length out.old) × (is_rule_set rules ≡ true) }
    ensures { Fronted (Turned looks kind rules (rows_of (before subj pred obj ann) count) s.now (is_over result.rows) (after subj pred obj ann) (count_in result.rows)) out.old out.new result.size }
{
    let question = match part_of(s) {
        Part::Ended => return last(0),
        Part::Cut => return last(put_refused(out, CUT, 0)),
        Part::Whole(question) => question,
    };
    let closed = trackvesper::close(kind, rules, subj, pred, obj, ann, count);
    if closed.number > 0 {
        return last(put_refused(out, closed.number, closed.place));
    }
    let size = ask_listed(
        kind,
        subj,
        pred,
        obj,
        ann,
        closed.count,
        question,
        looks,
        terms,
        anns,
        out,
    );
    Turn {
        rows: Some(closed.count),
        size,
    }
}

// Asks the question of the closed table, and lays what it is answered with.
fn ask_listed(
    kind: u8,
    subj: &[u16],
    pred: &[u16],
    obj: &[u16],
    ann: &[u64],
    count: usize,
    question: &[u8],
    looks: u32,
    terms: &mut [u16],
    anns: &mut [u64],
    out: &mut [u8],
) -> usize
    requires { Ready kind (lanes subj.now pred.now obj.now ann.now) count × (length terms.old ≡ 4096) × (length anns.old ≡ 2048) × (asked_room ≤ length out.old) }
    ensures { Fronted (Is (asked_lines (comes_to kind (rows_of (lanes subj.now pred.now obj.now ann.now) count) looks question.now))) out.old out.new result }
{
    let ran = trackvesper::ask(
        kind, subj, pred, obj, ann, count, question, looks, terms, anns,
    );
    put_asked(
        out,
        ran.number,
        ran.place,
        ran.looks,
        terms,
        anns,
        ran.answers,
    )
}
