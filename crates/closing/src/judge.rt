// The refusals of a table and a rule set, of what is lent to be read.
ghost use Rattle.std.specs.Prelude.{◌≡◌};
ghost use Rattle.term.specs.Refusal.{first};
ghost use Rattle.term.specs.Refused.{verdict_in};
ghost use Rattle.table.specs.Lent.{lanes_seen};
ghost use Rattle.table.specs.Rows.{lanes};
ghost use Rattle.closing.specs.Checks.{close_checks};

use crate::known::known;
use table::Rows;
use term::{Refused, Verdict};

// The table check with a rule set: 36 between 4 and the others.
pub fn check_with(
    kind: u8,
    rules: u8,
    subj: &[u16],
    pred: &[u16],
    obj: &[u16],
    ann: &[u64],
    count: usize,
) -> Verdict
    ensures { result ≡ first (close_checks kind rules (lanes subj.now pred.now obj.now ann.now) count) }
{
    let rows = Rows {
        subj,
        pred,
        obj,
        ann,
        count,
    };
    Verdict::from(checked(kind, rules, &rows))
}

fn checked(kind: u8, rules: u8, rows: &Rows) -> Result<(), Refused>
    ensures { verdict_in result ≡ first (close_checks kind rules (lanes_seen rows.now) rows.now.count) }
{
    let numbered = known(kind, rules)?;
    rows.check(numbered.0)
}
