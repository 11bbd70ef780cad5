// A table: rows in four lent lanes and a count, sorted by subject, predicate, object.
// Refused here: a kind (4), lanes that do not fit (11), no room (12), a count past the lanes (14), and rows (8, 9, 10, 28, 15).
#![tactic(auto)]

ghost use Rattle.term.specs.Refused.{verdict_in};
ghost use Rattle.table.specs.Lent.{before, after, lanes_seen};
ghost use Rattle.table.specs.Rows.{lanes, row};
ghost use Rattle.table.specs.Checks.{Checking};
ghost use Rattle.table.specs.Adding.{Adding};

mod judge;
mod lane;
mod lent;
mod places;
mod put;
mod rows;

use annotation::Kind;
// What reading, closing and running call below the public calls.
pub use judge::MOST_ROWS;
pub use lent::{Row, Rows, Table};
pub use put::{Done, Full};
pub use rows::{PREDICATE_WEIGHT, SUBJECT_WEIGHT, key_of};
use term::{Refusal, Refused, Verdict};

#[derive(Drop)]
pub struct Added {
    pub number: u8,
    pub place: usize,
    pub count: usize,
}

// The table check: 0 where the table is sound.
pub fn check(
    kind: u8,
    subj: &[u16],
    pred: &[u16],
    obj: &[u16],
    ann: &[u64],
    count: usize,
) -> Verdict
    ensures { Checking kind (lanes subj.now pred.now obj.now ann.now) count result }
{
    let rows = Rows {
        subj,
        pred,
        obj,
        ann,
        count,
    };
    Verdict::from(checked(kind, &rows))
}

fn checked(kind: u8, rows: &Rows) -> Result<(), Refused>
    ensures { Checking kind (lanes_seen rows.now) rows.now.count (verdict_in result) }
{
    let kind = Kind::try_from(kind)?;
    rows.check(kind)
}

// Adds a triple to a table: it joins the equal triple, or goes in at its place.
pub fn add(
    kind: u8,
    subj: &mut [u16],
    pred: &mut [u16],
    obj: &mut [u16],
    ann: &mut [u64],
    count: usize,
    s: u16,
    p: u16,
    o: u16,
    a: u64,
) -> Added
    ensures { Adding kind (row s p o a) (before subj pred obj ann) count (after subj pred obj ann) result.number result.place result.count }
{
    let Ok(kind) = Kind::try_from(kind) else {
        return Added {
            number: Refusal::WrongKind.number(),
            place: 0,
            count,
        };
    };
    let mut table = Table {
        kind,
        subj,
        pred,
        obj,
        ann,
        count,
    };
    let verdict = Verdict::from(table.add(Row { s, p, o, a }));
    Added {
        number: verdict.number,
        place: verdict.place,
        count: table.count,
    }
}
