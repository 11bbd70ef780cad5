// Fitting books: read into a table, and written from one.
// Refused here: a cut field (1), the head (2 to 5, 36), other fields (6, 7), their content (8, 9, 10, 28), lanes (11), room (12), length (13).
#![tactic(auto)]

ghost use Rattle.std.specs.Prelude.{◌≡◌, length};
ghost use Rattle.term.specs.Refused.{refusal_number};
ghost use Rattle.annotation.specs.Numbered.{kind_number};
ghost use Rattle.ruleset.specs.Numbered.{set_number};
ghost use Rattle.table.specs.Lent.{before, after, lent, lanes_in, Kept};
ghost use Rattle.book.specs.Reading.{fields_of, Reading};
ghost use Rattle.book.specs.Writing.{Writing};
ghost use Rattle.book.specs.Inner.{Fresh, refused_done, ReadInto};
ghost use Rattle.table.specs.Rows.{lanes, zeroed};

mod content;
mod fields;
mod refusal;
mod writing;

use content::{Head, head_of};
use fields::read_fields;
use table::{Rows, Table};
use term::{Refusal, Refused};
use writing::{book_length, checked, head_size, write_fields, write_head};

// A refusal's number, which the counter gives too: its input is cut short.
pub const CUT: u8 = 1;

pub const LONGEST_BOOK: usize = 65535;

// So many are read before the first field.
const NO_ROWS: usize = 0;

// The answer of the page's call (`Reading`): the number is 0 where it is done.
#[derive(Drop)]
pub struct ReadDone {
    pub number: u8,
    pub place: usize,
    pub kind: u8,
    pub base: u16,
    pub rules: u8,
    pub count: usize,
}

// A refused reading gives kind, base year, rule set and count 0.
fn refused(e: Refused) -> ReadDone
    ensures { result ≡ refused_done (refusal_number e.why) e.place }
{
    ReadDone {
        number: e.why.number(),
        place: e.place,
        kind: 0,
        base: 0,
        rules: 0,
        count: 0,
    }
}

// What a legal head says, and the fields behind it read into the table, which is emptied first; a refusal leaves all rows zero.
fn read_fields_anew(table: &mut Table, book: &[u8], head: Head) -> ReadDone
    requires fresh { Fresh (kind_number head.kind) (zeroed (lanes_in table.old)) }
    requires of_its_kind { table.old.kind ≡ head.kind }
    ensures kept { Kept table.old table.new }
    ensures read { ReadInto (fields_of (kind_number head.kind) head.base (set_number head.rules) book.now (length (zeroed (lanes_in table.old)).subj) head.next) (zeroed (lanes_in table.old)) (lanes_in table.new) result }
{
    table.wipe();
    match read_fields(table, book, head.next) {
        Ok(()) => ReadDone {
            number: 0,
            place: 0,
            kind: head.kind.number(),
            base: head.base,
            rules: head.rules.number(),
            count: table.count,
        },
        Err(refusal) => {
            table.wipe();
            refused(refusal)
        }
    }
}

// The same with the lanes one by one.
fn read_body(
    book: &[u8],
    head: Head,
    subj: &mut [u16],
    pred: &mut [u16],
    obj: &mut [u16],
    ann: &mut [u64],
) -> ReadDone
    requires { Fresh (kind_number head.kind) (zeroed (lent subj pred obj ann)) }
    ensures { ReadInto (fields_of (kind_number head.kind) head.base (set_number head.rules) book.now (length (zeroed (before subj pred obj ann)).subj) head.next) (zeroed (before subj pred obj ann)) (after subj pred obj ann) result }
{
    let mut table = Table {
        kind: head.kind,
        subj,
        pred,
        obj,
        ann,
        count: NO_ROWS,
    };
    read_fields_anew(&mut table, book, head)
}

// Reads a book into the lanes.
pub fn read(
    book: &[u8],
    subj: &mut [u16],
    pred: &mut [u16],
    obj: &mut [u16],
    ann: &mut [u64],
) -> ReadDone
    ensures { Reading book.now (before subj pred obj ann) (after subj pred obj ann) result.number result.place result.kind result.base result.rules result.count }
{
    let rows = Rows {
        subj,
        pred,
        obj,
        ann,
        count: NO_ROWS,
    };
    if rows.is_unfit() {
        return refused(Refusal::LanesUnfit.at(0));
    }
    if LONGEST_BOOK < book.len() {
        return refused(Refusal::TooLong.at(0));
    }
    match head_of(book) {
        Ok(head) => read_body(book, head, subj, pred, obj, ann),
        Err(e) => {
            subj.fill(0);
            pred.fill(0);
            obj.fill(0);
            ann.fill(0);
            refused(e)
        }
    }
}

// The answer of the page's call (`Writing`).
#[derive(Drop)]
pub struct WriteDone {
    pub number: u8,
    pub place: usize,
    pub length: usize,
}

// Writes a table as a book into the bytes.
pub fn write(
    kind: u8,
    base: u16,
    rules: u8,
    subj: &[u16],
    pred: &[u16],
    obj: &[u16],
    ann: &[u64],
    count: usize,
    out: &mut [u8],
) -> WriteDone
    ensures { Writing kind base rules (lanes subj.now pred.now obj.now ann.now) count out.old out.new result.number result.place result.length }
{
    let rows = Rows {
        subj,
        pred,
        obj,
        ann,
        count,
    };
    match checked(kind, base, rules, &rows, out.len()) {
        Ok((kind, rules)) => {
            write_head(out, kind, base, rules);
            write_fields(out, head_size(rules), &rows);
            WriteDone {
                number: 0,
                place: 0,
                length: book_length(rules, count),
            }
        }
        Err(e) => WriteDone {
            number: e.why.number(),
            place: e.place,
            length: 0,
        },
    }
}
