// Putting a legal row into a sound table.
ghost use Rattle.std.specs.Prelude.{◌≡◌, ◌<◌, length};
ghost use Rattle.term.specs.declared.refusal.Refusal.TheVariants.{NoRoom};
ghost use Rattle.term.specs.Refused.{verdict_in};
ghost use Rattle.annotation.specs.Numbered.{kind_number};
ghost use Rattle.table.specs.Lent.{lanes_in, Kept};
ghost use Rattle.table.specs.Rows.{row, zeroed};
ghost use Rattle.table.specs.Adding.{Adding};
ghost use Rattle.table.specs.Putting.{JoinedAt, PutInto, PutAt, Put};
ghost use Rattle.table.specs.Puts.{is_full, has_changed};

use crate::lane::open;
use crate::lent::{Row, Table};
use term::{Refusal, Refused};

// A row that was put in, or joined to the one of its triple: whether that changed the table, and the place behind the row, where to look
// first for one that comes after it.
#[derive(Clone, Copy)]
pub struct Done {
    pub changed: bool,
    pub next: usize,
}

// There is no room for a row.
#[derive(Clone, Copy, Debug, PartialEq, Eq)]
pub struct Full;

impl From<Full> for Refused {
    ghost from_gives = { λ _ r. r ≡ record { why = NoRoom; place = 0 } };

    fn from(_full: Full) -> Refused {
        Refusal::NoRoom.at(0)
    }
}

impl Table<'_> {
    // All four lanes zeroed.
    pub fn wipe(&mut self)
        ensures kept { Kept self.old self.new }
        ensures wiped { lanes_in self.new ≡ zeroed (lanes_in self.old) }
        ensures same_count { self.new.count ≡ self.old.count }
    {
        self.subj.fill(0);
        self.pred.fill(0);
        self.obj.fill(0);
        self.ann.fill(0);
    }

    // Joins a to the annotation at `at`, and says whether that changed it.
    fn join_at(&mut self, at: usize, a: u64) -> bool
        requires { at < length self.old.ann.now }
        ensures kept { Kept self.old self.new }
        ensures same_subj { self.new.subj.now ≡ self.old.subj.now }
        ensures same_pred { self.new.pred.now ≡ self.old.pred.now }
        ensures same_obj { self.new.obj.now ≡ self.old.obj.now }
        ensures same_count { self.new.count ≡ self.old.count }
        ensures joined { JoinedAt (kind_number self.old.kind) self.old.ann.now at a self.new.ann.now result }
    {
        let old = self.ann[at];
        let new = self.kind.join(old, a);
        self.ann[at] = new;
        new != old
    }

    // Joins the row to the row of its key, or puts it in at its place, or says that there is no room. Laid into `put_found`, and that
    // into the walks of closing, which takes up to 1.4 times as long with calls.
    #[inline(always)]
    fn put_at(&mut self, at: usize, r: Row) -> Result<Done, Full>
        requires { PutAt (kind_number self.old.kind) (row r.s r.p r.o r.a) (lanes_in self.old) self.old.count at }
        ensures kept { Kept self.old self.new }
        ensures put { Put (kind_number self.old.kind) (row r.s r.p r.o r.a) (lanes_in self.old) self.old.count (lanes_in self.new) (is_full result) (has_changed result) self.new.count }
    {
        if self.rows().stands(at, r.key()) {
            let changed = self.join_at(at, r.a);
            return Ok(Done {
                changed,
                next: at + 1,
            });
        }
        if self.subj.len() <= self.count {
            return Err(Full);
        }
        open(self.subj, at, self.count, r.s);
        open(self.pred, at, self.count, r.p);
        open(self.obj, at, self.count, r.o);
        open(self.ann, at, self.count, r.a);
        self.count += 1;
        Ok(Done {
            changed: true,
            next: at + 1,
        })
    }

    // Puts a row in, its place looked for from `hint` on: for a row that is drawn.
    #[inline(always)]
    pub fn put_found(&mut self, r: Row, hint: usize) -> Result<Done, Full>
        requires { PutInto (kind_number self.old.kind) (row r.s r.p r.o r.a) (lanes_in self.old) self.old.count }
        ensures kept { Kept self.old self.new }
        ensures put { Put (kind_number self.old.kind) (row r.s r.p r.o r.a) (lanes_in self.old) self.old.count (lanes_in self.new) (is_full result) (has_changed result) self.new.count }
    {
        let at = self.rows().place(r.key(), hint);
        self.put_at(at, r)
    }

    // The same, from behind the last row on: for a row that is added or read. Books nearly always come sorted, and then the one look at the
    // last row tells.
    pub fn put_row(&mut self, r: Row) -> Result<Done, Full>
        requires { PutInto (kind_number self.old.kind) (row r.s r.p r.o r.a) (lanes_in self.old) self.old.count }
        ensures kept { Kept self.old self.new }
        ensures put { Put (kind_number self.old.kind) (row r.s r.p r.o r.a) (lanes_in self.old) self.old.count (lanes_in self.new) (is_full result) (has_changed result) self.new.count }
    {
        let end = self.count;
        if self.rows().is_place(r.key(), end) {
            return self.put_at(end, r);
        }
        self.put_found(r, end)
    }

    // Adds a row to whatever is lent: the table is judged, and the row.
    pub fn add(&mut self, r: Row) -> Result<(), Refused>
        ensures kept { Kept self.old self.new }
        ensures adding { Adding (kind_number self.old.kind) (row r.s r.p r.o r.a) (lanes_in self.old) self.old.count (lanes_in self.new) (verdict_in result).number (verdict_in result).place self.new.count }
    {
        self.rows().check(self.kind)?;
        r.check(self.kind)?;
        self.put_row(r)?;
        Ok(())
    }
}
