// A table and a names list written as canonical N-Triples: both judged, then each row a line.
// Refused here: a row that cannot be written (39); beside it what the table's check refuses, lanes (11), room (12), a count over its lanes (14).
#![tactic(auto)]

ghost use Rattle.std.specs.Prelude.{◌≡◌, ◌≤◌, length};
ghost use Rattle.term.specs.Refused.{verdict_in};
ghost use Rattle.field.specs.Numbers.{written};
ghost use Rattle.table.specs.Rows.{lanes};
ghost use Rattle.table.specs.Lent.{lanes_seen};
ghost use Rattle.names.specs.Names.{lanes_of};
ghost use Rattle.ntwrite.specs.Listed.{entries_in};
ghost use Rattle.ntriples.specs.Writing.{WritingTriples};
ghost use Rattle.ntriples.specs.Inner.{size_in, Marked, lines_bytes, Judged, FirstUnwritable};

mod texts;

use crate::texts::Texts;
use annotation::Kind;
use names::MOST_NAMES;
use names::find::text_at;
use nttext::legal::legal;
use ntwrite::index::{Names, SLOTS, fill};
use table::Rows;
use term::{Refusal, Refused};

#[derive(Drop)]
pub struct TriplesWritten {
    pub number: u8,
    pub place: usize,
    pub size: usize,
}

// Each entry judged: whether its text is legal for its number's sort.
fn judge(marks: &mut [bool], terms: &[u16], ends: &[u16], text: &[u8], names: usize)
    requires { (length marks.old ≡ 512) × (names ≤ 512) × (names ≤ length terms.now) × (length ends.now ≡ length terms.now) }
    ensures { Marked (lanes_of terms.now ends.now text.now) names marks.new }
{
    for i in 0..names {
        let entry = text_at(ends, text, i);
        marks[i] = legal(term::sort_of(terms[i]), entry, 0, entry.len());
    }
}

// The lowest row that cannot be written.
fn first_unwritable(texts: Texts, rows: &Rows) -> Option<usize>
    requires { Judged (lanes_seen rows.now) rows.now.count }
    ensures { FirstUnwritable (entries_in texts.entry.names) (lanes_seen rows.now) rows.now.count result }
{
    (0..rows.count).find(|i| !texts.writable(rows.row(*i)))
}

// How many bytes the lines of all rows take.
fn file_size(names: Names, rows: &Rows) -> usize
    requires { Judged (lanes_seen rows.now) rows.now.count }
    ensures { result ≡ length (lines_bytes (entries_in names.entry) (lanes_seen rows.now) rows.now.count) }
{
    let mut size = 0;
    for i in 0..rows.count {
        let r = rows.row(i);
        size += names.line_size(r.s, r.p, r.o);
    }
    size
}

// The lines of all rows, laid into `out` one behind another.
fn put_lines(names: Names, rows: &Rows, out: &mut [u8])
    requires { Judged (lanes_seen rows.now) rows.now.count × (length (lines_bytes (entries_in names) (lanes_seen rows.now) rows.now.count) ≤ length out.old) }
    ensures { out.new ≡ written out.old 0 (lines_bytes (entries_in names.entry) (lanes_seen rows.now) rows.now.count) }
{
    let mut at = 0;
    for i in 0..rows.count {
        let r = rows.row(i);
        at = names.put_line(out, at, r.s, r.p, r.o);
    }
}

// The lines of a table and a list that are judged first; how many bytes they take.
fn write(
    kind: u8,
    rows: &Rows,
    terms: &[u16],
    ends: &[u16],
    text: &[u8],
    names: usize,
    out: &mut [u8],
) -> Result<usize, Refused>
    ensures { WritingTriples kind (lanes_seen rows.now) rows.now.count (lanes_of terms.now ends.now text.now) names out.old out.new (verdict_in result).number (verdict_in result).place (size_in result) }
{
    let kind = Kind::try_from(kind)?;
    rows.check(kind)?;
    if names::is_unfit(terms, ends, text) {
        return Err(Refusal::LanesUnfit.at(0));
    }
    if terms.len() < names {
        return Err(Refusal::CountPastLanes.at(0));
    }
    let mut slots = [0u16; SLOTS];
    fill(&mut slots, terms, names);
    let mut marks = [false; MOST_NAMES];
    judge(&mut marks, terms, ends, text, names);
    let list = Names::new(terms, ends, text, names, &slots);
    let texts = Texts {
        names: list,
        marks: &marks,
    };
    if let Some(row) = first_unwritable(texts, rows) {
        return Err(Refusal::NoText.at(row));
    }
    let size = file_size(list, rows);
    if out.len() < size {
        return Err(Refusal::NoRoom.at(0));
    }
    put_lines(list, rows, out);
    Ok(size)
}

// Writes a table and a names list as canonical N-Triples.
pub fn write_triples(
    kind: u8,
    subj: &[u16],
    pred: &[u16],
    obj: &[u16],
    ann: &[u64],
    count: usize,
    terms: &[u16],
    ends: &[u16],
    text: &[u8],
    names: usize,
    out: &mut [u8],
) -> TriplesWritten
    ensures { WritingTriples kind (lanes subj.now pred.now obj.now ann.now) count (lanes_of terms.now ends.now text.now) names out.old out.new result.number result.place result.size }
{
    let rows = Rows {
        subj,
        pred,
        obj,
        ann,
        count,
    };
    match write(kind, &rows, terms, ends, text, names, out) {
        Ok(size) => TriplesWritten {
            number: 0,
            place: 0,
            size,
        },
        Err(e) => TriplesWritten {
            number: e.why.number(),
            place: e.place,
            size: 0,
        },
    }
}
