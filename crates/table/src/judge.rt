// What is refused of a triple, of a row, of all rows, and of the lanes.
ghost use Rattle.std.specs.Prelude.{◌≡◌};
ghost use Rattle.term.specs.Refusal.{first};
ghost use Rattle.term.specs.Refused.{number_in, verdict_in};
ghost use Rattle.annotation.specs.Numbered.{kind_number};
ghost use Rattle.table.specs.Rows.{row};
ghost use Rattle.table.specs.Lent.{lanes_seen};
ghost use Rattle.table.specs.Checks.{Checking, triple_checks, row_checks, rows_checks, is_not_above, is_unfit};
ghost use Rattle.table.specs.Places.{Within, RowWithin, RowsWithin};

use crate::lent::{Row, Rows};
use annotation::Kind;
use term::{Refusal, Refused, check_predicate, check_term};

pub const MOST_ROWS: usize = 1024;

impl Row {
    // Whether the triple and its annotation are legal.
    pub fn check(self, kind: Kind) -> Result<(), Refusal>
        ensures { number_in result ≡ (first (triple_checks (kind_number kind) (row self.s self.p self.o self.a) 0)).number }
    {
        check_term(self.s)?;
        check_term(self.o)?;
        check_predicate(self.p)?;
        kind.check(self.a)
    }
}

impl Rows<'_> {
    // Whether row i is not above the one before.
    fn not_above(&self, i: usize) -> bool
        requires { Within self.now.subj.now self.now.pred.now self.now.obj.now i }
        ensures { result ≡ is_not_above self.now.subj.now self.now.pred.now self.now.obj.now i }
    {
        0 < i && self.key_at(i) <= self.key_at(i - 1)
    }

    // Whether row i is legal and above the one before.
    fn check_row(&self, kind: Kind, i: usize) -> Result<(), Refusal>
        requires { RowWithin (lanes_seen self.now) i }
        ensures { number_in result ≡ (first (row_checks (kind_number kind) (lanes_seen self.now) i)).number }
    {
        self.row(i).check(kind)?;
        if self.not_above(i) {
            return Err(Refusal::NotAbove);
        }
        Ok(())
    }

    // The first row that is refused.
    fn check_rows(&self, kind: Kind) -> Result<(), Refused>
        requires { RowsWithin (lanes_seen self.now) self.now.count }
        ensures { verdict_in result ≡ first (rows_checks (kind_number kind) (lanes_seen self.now) 0 self.now.count) }
    {
        for i in 0..self.count {
            match self.check_row(kind, i) {
                Ok(()) => {}
                Err(e) => return Err(e.at(i)),
            }
        }
        Ok(())
    }

    // Whether the lanes are unequal or too long.
    pub fn is_unfit(&self) -> bool
        ensures { result ≡ is_unfit (lanes_seen self.now) }
    {
        let size = self.subj.len();
        self.pred.len() != size
            || self.obj.len() != size
            || self.ann.len() != size
            || MOST_ROWS < size
    }

    // The table check of a kind that there is.
    pub fn check(&self, kind: Kind) -> Result<(), Refused>
        ensures { Checking (kind_number kind) (lanes_seen self.now) self.now.count (verdict_in result) }
    {
        if self.is_unfit() {
            return Err(Refusal::LanesUnfit.at(0));
        }
        if self.subj.len() < self.count {
            return Err(Refusal::CountPastLanes.at(0));
        }
        self.check_rows(kind)
    }
}
