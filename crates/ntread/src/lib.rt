// A makers' list read into a new table and a new names list: line by line, each term entered, each triple put.
// Refused here: a line that is not N-Triples (26), a list with no room (27); beside these the kind (4), the annotation (10, 28), lanes (11), room (12), length (13).
#![tactic(auto)]

ghost use Rattle.std.specs.Prelude.{◌≡◌, []};
ghost use Rattle.term.specs.Refused.{refusal_number};
ghost use Rattle.annotation.specs.Numbered.{kind_number};
ghost use Rattle.table.specs.Rows.{zeroed};
ghost use Rattle.table.specs.Lent.{before, after, lent, lanes_in, Kept};
ghost use Rattle.names.specs.Lent.{names_lent, names_before, names_after};
ghost use Rattle.names.specs.Hashed.{Hashed};
ghost use Rattle.ntnumber.specs.Lent.{list_in, KeptList};
ghost use Rattle.ntread.specs.Inner.{refused_done, Fresh, ReadNew, zeroed_names};
ghost use Rattle.ntread.specs.Lent.{ReadingTo};

mod lent;
mod lines;

use annotation::Kind;
use lent::{check_lent, keeps, wipe_names, zero_u8};
use lines::read_lines;
use names::MOST_NAMES;
use names::hash::BUCKETS;
use ntnumber::NameList;
use table::{Rows, Table};
use term::Refused;

// So many are read before the first line.
const NO_ROWS: usize = 0;

const NO_NAMES: usize = 0;

#[derive(Drop)]
pub struct TriplesRead {
    pub number: u8,
    pub place: usize,
    pub count: usize,
    pub names: usize,
}

// A refused reading gives count and names 0.
fn refused(e: Refused) -> TriplesRead
    ensures { result ≡ refused_done (refusal_number e.why) e.place }
{
    TriplesRead {
        number: e.why.number(),
        place: e.place,
        count: 0,
        names: 0,
    }
}

// The lines into lanes that are emptied first: a refusal leaves zeros, and nothing is left behind the last text.
fn read_anew(table: &mut Table, list: &mut NameList, a: u64, file: &[u8]) -> TriplesRead
    requires fresh { Fresh (kind_number table.old.kind) a (zeroed (lanes_in table.old)) (zeroed_names (list_in list.old)) }
    requires no_row { table.old.count ≡ 0 }
    requires no_name { list.old.count ≡ 0 }
    requires hashed { Hashed [] list.old.heads.now list.old.next.now }
    ensures kept { Kept table.old table.new }
    ensures list_kept { KeptList list.old list.new }
    ensures read { ReadNew (kind_number table.old.kind) a file.now (zeroed (lanes_in table.old)) (lanes_in table.new) (zeroed_names (list_in list.old)) (list_in list.new) result }
{
    table.wipe();
    wipe_names(list.terms, list.ends, list.text);
    match read_lines(table, list, a, file) {
        Ok(()) => {
            let end = list.end();
            zero_u8(list.text, end);
            TriplesRead {
                number: 0,
                place: 0,
                count: table.count,
                names: list.count,
            }
        }
        Err(e) => {
            table.wipe();
            wipe_names(list.terms, list.ends, list.text);
            refused(e)
        }
    }
}

// The same with the lanes one by one.
fn read_lanes(
    kind: Kind,
    a: u64,
    file: &[u8],
    subj: &mut [u16],
    pred: &mut [u16],
    obj: &mut [u16],
    ann: &mut [u64],
    terms: &mut [u16],
    ends: &mut [u16],
    text: &mut [u8],
) -> TriplesRead
    requires { Fresh (kind_number kind) a (zeroed (lent subj pred obj ann)) (zeroed_names (names_lent terms ends text)) }
    ensures { ReadNew (kind_number kind) a file.now (zeroed (before subj pred obj ann)) (after subj pred obj ann) (zeroed_names (names_before terms ends text)) (names_after terms ends text) result }
{
    let mut heads = [0u16; BUCKETS];
    let mut next = [0u16; MOST_NAMES];
    let mut table = Table {
        kind,
        subj,
        pred,
        obj,
        ann,
        count: NO_ROWS,
    };
    let mut list = NameList {
        terms,
        ends,
        text,
        count: NO_NAMES,
        heads: &mut heads,
        next: &mut next,
    };
    read_anew(&mut table, &mut list, a, file)
}

// Reads a file of N-Triples into a new table and a new names list.
pub fn read_triples(
    kind: u8,
    a: u64,
    file: &[u8],
    subj: &mut [u16],
    pred: &mut [u16],
    obj: &mut [u16],
    ann: &mut [u64],
    terms: &mut [u16],
    ends: &mut [u16],
    text: &mut [u8],
) -> TriplesRead
    ensures { ReadingTo kind a file.now subj pred obj ann terms ends text result }
{
    let rows = Rows {
        subj,
        pred,
        obj,
        ann,
        count: NO_ROWS,
    };
    match check_lent(kind, a, file, &rows, terms, ends, text) {
        Ok(kind) => read_lanes(kind, a, file, subj, pred, obj, ann, terms, ends, text),
        Err(why) => {
            if keeps(why) {
                return refused(why.at(0));
            }
            subj.fill(0);
            pred.fill(0);
            obj.fill(0);
            ann.fill(0);
            wipe_names(terms, ends, text);
            refused(why.at(0))
        }
    }
}
