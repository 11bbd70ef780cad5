// Closing a table under the rules of its rule set: every rule at every row that could give something new, until nothing more rises.
// Refused here: what the table check refuses, an unknown rule set (36), and a closure that has more rows than the lanes (12).
#![tactic(auto)]

ghost use Rattle.std.specs.Prelude.{◌≡◌};
ghost use Rattle.term.specs.Refused.{verdict_in};
ghost use Rattle.annotation.specs.Numbered.{kind_number};
ghost use Rattle.ruleset.specs.Numbered.{set_number};
ghost use Rattle.table.specs.Lent.{before, after, lanes_in, Kept};
ghost use Rattle.closing.specs.Closing.{Closing};

mod judge;
mod known;
mod rest;

pub use judge::check_with;
use known::known;
use rest::wipe_past;
use rounds::saturate;
use ruleset::RuleSet;
use table::Table;
use term::{Refused, Verdict};

#[derive(Drop)]
pub struct CloseDone {
    pub number: u8,
    pub place: usize,
    pub count: usize,
}

// Closes the table, or refuses it and changes nothing; where the closure has no room, all rows are zero.
pub fn close(
    kind: u8,
    rules: u8,
    subj: &mut [u16],
    pred: &mut [u16],
    obj: &mut [u16],
    ann: &mut [u64],
    count: usize,
) -> CloseDone
    ensures { Closing kind rules (before subj pred obj ann) count (after subj pred obj ann) result.number result.place result.count }
{
    let (kind, rules) = match known(kind, rules) {
        Ok(known) => known,
        Err(e) => {
            return CloseDone {
                number: e.number(),
                place: 0,
                count,
            };
        }
    };
    let mut table = Table {
        kind,
        subj,
        pred,
        obj,
        ann,
        count,
    };
    let verdict = Verdict::from(close_table(&mut table, rules));
    CloseDone {
        number: verdict.number,
        place: verdict.place,
        count: table.count,
    }
}

// The same, of a kind and a rule set that there are.
fn close_table(table: &mut Table, rules: RuleSet) -> Result<(), Refused>
    ensures kept { Kept table.old table.new }
    ensures closing { Closing (kind_number table.old.kind) (set_number rules) (lanes_in table.old) table.old.count (lanes_in table.new) (verdict_in result).number (verdict_in result).place table.new.count }
{
    let rows = table.rows();
    rows.check(table.kind)?;
    match saturate(table, rules.number()) {
        Ok(()) => {
            wipe_past(table);
            Ok(())
        }
        Err(full) => {
            table.wipe();
            table.count = 0;
            Err(Refused::from(full))
        }
    }
}
