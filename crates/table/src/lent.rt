// A table as it is lent: its rows to be read, or all of it to be changed.
ghost use Rattle.std.specs.Prelude.{◌≡◌};

use annotation::Kind;

// A triple and its annotation.
#[derive(Clone, Copy)]
pub struct Row {
    pub s: u16,
    pub p: u16,
    pub o: u16,
    pub a: u64,
}

// The first `count` rows of four lanes.
#[derive(Clone, Copy)]
pub struct Rows<'a> {
    pub subj: &'a [u16],
    pub pred: &'a [u16],
    pub obj: &'a [u16],
    pub ann: &'a [u64],
    pub count: usize,
}

// A kind of annotation, four lanes, and how many of their rows are the table's.
#[derive(Drop)]
pub struct Table<'a> {
    pub kind: Kind,
    pub subj: &'a mut [u16],
    pub pred: &'a mut [u16],
    pub obj: &'a mut [u16],
    pub ann: &'a mut [u64],
    pub count: usize,
}

impl Table<'_> {
    pub fn rows(&self) -> Rows<'_>
        ensures same_subj { result.subj.now ≡ self.now.subj.now }
        ensures same_pred { result.pred.now ≡ self.now.pred.now }
        ensures same_obj { result.obj.now ≡ self.now.obj.now }
        ensures same_ann { result.ann.now ≡ self.now.ann.now }
        ensures same_count { result.count ≡ self.now.count }
    {
        Rows {
            subj: self.subj,
            pred: self.pred,
            obj: self.obj,
            ann: self.ann,
            count: self.count,
        }
    }
}
