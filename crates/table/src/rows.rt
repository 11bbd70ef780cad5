// The key of a row: one number whose order is the order of the table.
ghost use Rattle.std.specs.Prelude.{◌≡◌};
ghost use Rattle.table.specs.Rows.{key_of, key_at};
ghost use Rattle.table.specs.Places.{Within, RowWithin};
ghost use Rattle.table.specs.Lent.{lanes_seen, row_seen};

use crate::lent::{Row, Rows};

// How much more a subject and a predicate count than an object.
pub const SUBJECT_WEIGHT: u64 = 4294967296;

pub const PREDICATE_WEIGHT: u64 = 65536;

pub fn key_of(s: u16, p: u16, o: u16) -> u64
    ensures { result ≡ key_of s p o }
{
    u64::from(s) * SUBJECT_WEIGHT + u64::from(p) * PREDICATE_WEIGHT + u64::from(o)
}

impl Row {
    pub fn key(self) -> u64
        ensures { result ≡ key_of self.s self.p self.o }
    {
        key_of(self.s, self.p, self.o)
    }
}

impl Rows<'_> {
    pub fn key_at(&self, i: usize) -> u64
        requires { Within self.now.subj.now self.now.pred.now self.now.obj.now i }
        ensures { result ≡ key_at self.now.subj.now self.now.pred.now self.now.obj.now i }
    {
        key_of(self.subj[i], self.pred[i], self.obj[i])
    }

    pub fn row(&self, i: usize) -> Row
        requires { RowWithin (lanes_seen self.now) i }
        ensures { result ≡ row_seen self.now i }
    {
        Row {
            s: self.subj[i],
            p: self.pred[i],
            o: self.obj[i],
            a: self.ann[i],
        }
    }
}
