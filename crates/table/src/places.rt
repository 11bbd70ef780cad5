// Where a key stands in rows that ascend: by strides from a place towards the first row, for rows that are put in; by halving, for finding.
ghost use Rattle.table.specs.Places.{Ordered, Placed, IsPlace, Stands, Between, Striding, Halving, Halved};

use crate::lent::Rows;

// Rows low up to high are still in question.
#[derive(Clone, Copy)]
pub struct InQuestion {
    pub low: usize,
    pub high: usize,
}

impl Rows<'_> {
    // Whether the row at `at` is there and has the key.
    pub fn stands(&self, at: usize, key: u64) -> bool
        requires { Ordered self.now.subj.now self.now.pred.now self.now.obj.now self.now.count }
        ensures { Stands self.now.subj.now self.now.pred.now self.now.obj.now self.now.count at key result }
    {
        at < self.count && key == self.key_at(at)
    }

    // All rows are in question, but for a key that is at or before the first row, or behind the last: a look at each tells. The words sp to
    // range stand before most rows.
    fn in_question(&self, key: u64) -> InQuestion
        requires { Ordered self.now.subj.now self.now.pred.now self.now.obj.now self.now.count }
        ensures { Between self.now.subj.now self.now.pred.now self.now.obj.now self.now.count key result.low result.high }
    {
        let count = self.count;
        if count == 0 {
            return InQuestion { low: 0, high: 0 };
        }
        if key <= self.key_at(0) {
            return InQuestion { low: 0, high: 0 };
        }
        if self.key_at(count - 1) < key {
            return InQuestion {
                low: count,
                high: count,
            };
        }
        InQuestion {
            low: 0,
            high: count,
        }
    }

    // One halving: the row in the middle tells which half to leave.
    fn halve(&self, key: u64, low: usize, high: usize) -> InQuestion
        requires { Halving self.now.subj.now self.now.pred.now self.now.obj.now self.now.count key low high }
        ensures { Halved self.now.subj.now self.now.pred.now self.now.obj.now self.now.count key low high result.low result.high }
    {
        let middle = low + (high - low) / 2;
        if self.key_at(middle) < key {
            return InQuestion {
                low: middle + 1,
                high,
            };
        }
        InQuestion { low, high: middle }
    }

    // Halving until one place is left.
    fn halve_down(&self, key: u64, all: InQuestion) -> usize
        requires ordered { Ordered self.now.subj.now self.now.pred.now self.now.obj.now self.now.count }
        requires between { Between self.now.subj.now self.now.pred.now self.now.obj.now self.now.count key all.low all.high }
        ensures { Placed self.now.subj.now self.now.pred.now self.now.obj.now self.now.count key result }
    {
        let mut low = all.low;
        let mut high = all.high;
        while low < high {
            let next = self.halve(key, low, high);
            low = next.low;
            high = next.high;
        }
        low
    }

    // Where the strides begin: at `hint`, where the row there is not below the key; else behind the last row.
    fn begin(&self, key: u64, hint: usize) -> usize
        requires { Ordered self.now.subj.now self.now.pred.now self.now.obj.now self.now.count }
        ensures { Between self.now.subj.now self.now.pred.now self.now.obj.now self.now.count key 0 result }
    {
        if hint < self.count {
            if key <= self.key_at(hint) {
                return hint;
            }
        }
        self.count
    }

    // The stride in which the key's place lies, from `start` towards the first row: each goes over one row more than were passed before, so
    // 1, 2, 4, ..
    fn stride(&self, key: u64, start: usize) -> InQuestion
        requires { Striding self.now.subj.now self.now.pred.now self.now.obj.now self.now.count key start }
        ensures { Between self.now.subj.now self.now.pred.now self.now.obj.now self.now.count key result.low result.high }
    {
        let mut high = start;
        while start - high < high {
            let at = high - (start - high) - 1;
            if self.key_at(at) < key {
                return InQuestion { low: at + 1, high };
            }
            high = at;
        }
        InQuestion { low: 0, high }
    }

    // The first row whose key is not below `key`, found by strides from `hint` on, and by halving inside the last. Rows are often put in one
    // behind the other, or not far from there.
    pub fn place(&self, key: u64, hint: usize) -> usize
        requires { Ordered self.now.subj.now self.now.pred.now self.now.obj.now self.now.count }
        ensures { Placed self.now.subj.now self.now.pred.now self.now.obj.now self.now.count key result }
    {
        let start = self.begin(key, hint);
        let near = self.stride(key, start);
        self.halve_down(key, near)
    }

    // The first row whose key is not below `key`, found by halving.
    pub fn find(&self, key: u64) -> usize
        requires { Ordered self.now.subj.now self.now.pred.now self.now.obj.now self.now.count }
        ensures { Placed self.now.subj.now self.now.pred.now self.now.obj.now self.now.count key result }
    {
        let all = self.in_question(key);
        self.halve_down(key, all)
    }

    // Whether the key's place is `hint`.
    pub fn is_place(&self, key: u64, hint: usize) -> bool
        requires { Ordered self.now.subj.now self.now.pred.now self.now.obj.now self.now.count }
        ensures { IsPlace self.now.subj.now self.now.pred.now self.now.obj.now self.now.count key hint result }
    {
        if self.count < hint {
            return false;
        }
        if hint > 0 {
            if key <= self.key_at(hint - 1) {
                return false;
            }
        }
        if hint < self.count {
            return key <= self.key_at(hint);
        }
        true
    }
}
