// Rounds: every rule of a set at every row of a sound table that could give something new, until nothing waits to be looked at.
// A row is asked again only if a row that it can meet has risen since. What rose is kept by subject, in sets of terms (8 KB each,
// on the stack): `rose` has the subjects that rose and wait, `due` those whose meetings are asked in a sweep, `seen` those taken of late.
// Sweeps over all rows, up, down and up, take most of what follows. Then one subject after another is taken out of `rose`, and the
// rows that can meet its rows are asked: what follows step by step, in whatever order, costs one pass over the rows a step.
// Nothing is refused here; where a row finds no room, the caller is told (`Full`).
#![tactic(auto)]

ghost use Rattle.std.specs.Prelude.{◌≡◌, ◌+◌, ◌≤◌, ◌<◌, length, true};
ghost use Rattle.termset.specs.Termset.{holds};
ghost use Rattle.annotation.specs.Numbered.{kind_number};
ghost use Rattle.table.specs.Lent.{lanes_in, lanes_seen, Kept};
ghost use Rattle.table.specs.Places.{RowsWithin};
ghost use Rattle.table.specs.Rows.{triple};
ghost use Rattle.table.specs.Sound.{Sound};
ghost use Rattle.rhodf.specs.Rules.{rules_of};
ghost use Rattle.plans.specs.Plans.{plans_for};
ghost use Rattle.rounds.specs.Due.{number_of, one_of, MeetsNone, MeetsNotOne, BlockAway, Marked, Leads, NextDue, NextOf, PastOf, LastDue, Seeking, Sought, First, Onward, Spread, NoRow, Untyped, AimedAt, Fresh, Waits, Chosen};
ghost use Rattle.rounds.specs.Rounds.{RowIn, RowDrawnIn, RowAskedIn, RoundDueIn, RoundDrawnIn, WaitingIn, SaturatedIn};

use plans::{plan_count, plan_of};
use table::{Done, Full, Row, Rows, Table, key_of};
use term::{DOM, RANGE, SP};
use termset::TermSet;
use walks::{begins, pursue};

// The turns of a round: down or up by the set of what is due, or up by one subject.
#[derive(Clone, Copy)]
enum Turn {
    Down,
    Up,
    One(u16),
}

impl Turn {
    // Where a round begins.
    fn first(self, count: usize) -> usize
        ensures { First (number_of self) count result }
    {
        match self {
            Turn::Down => count,
            _ => 0,
        }
    }

    // Where a round goes on behind row `at`, going down before it. A row that is put in moves those behind it up: going down, the
    // next one to look at may have moved by as many as were put in.
    fn onward(self, at: usize, more: usize) -> usize
        requires { at + more < 4096 }
        ensures { Onward (number_of self) at more result }
    {
        match self {
            Turn::Down => at + more,
            _ => at + 1,
        }
    }
}

// How many rows are looked at together.
const BLOCK: usize = 16;

// As `Done`, and whether rows of the asked row's object rose, and of its predicate.
#[derive(Drop)]
struct RowDone {
    changed: bool,
    other: bool,
    third: bool,
    next: usize,
}

// The subjects whose meetings are asked in a round, and those that rose and wait.
#[derive(Drop)]
struct Sets {
    due: TermSet,
    rose: TermSet,
}

impl Sets {
    // Puts what rose by the row r into both.
    fn mark(&mut self, row: &RowDone, r: Row)
        ensures { Marked row.now.changed row.now.other row.now.third r.s r.o r.p self.old.due self.new.due self.old.rose self.new.rose }
    {
        if !row.changed {
            return;
        }
        self.due.insert_if(row.changed, r.s);
        self.due.insert_if(row.other, r.o);
        self.due.insert_if(row.third, r.p);
        self.rose.insert_if(row.changed, r.s);
        self.rose.insert_if(row.other, r.o);
        self.rose.insert_if(row.third, r.p);
    }
}

// Draws what row i gives by every rule of the set.
fn draw_row(table: &mut Table, rules: u8, i: usize, hint: usize) -> Result<RowDone, Full>
    requires { RowIn i table.old }
    ensures kept { Kept table.old table.new }
    ensures drawn { RowDrawnIn (rules_of rules) (plans_for rules) i table.old table.new result }
{
    let r = table.rows().row(i);
    let mut row = RowDone {
        changed: false,
        other: false,
        third: false,
        next: hint,
    };
    for rule in 0..plan_count(rules) {
        let plan = plan_of(rule, r.s, r.p, r.o);
        let done = pursue(table, rules, plan, r.a, row.next)?;
        row.changed |= done.changed;
        row.next = done.next;
        // Mostly nothing changed, which is one test for both.
        if done.changed {
            let s = plan.subject();
            row.other |= s == r.o;
            row.third |= s == r.p;
        }
    }
    Ok(row)
}

// Whether the row r can meet a row whose subject is in the set: of its own subject, of its predicate or, where it is of
// sp, sc or type, of its object.
fn meets(set: &TermSet, r: Row) -> bool
    ensures { MeetsNone set.now (triple r.s r.p r.o) result }
{
    set.contains(r.s) || set.contains(r.p) || (r.p < DOM && set.contains(r.o))
}

// The first row from `from` on that is due.
fn next_due(rows: &Rows, from: usize, due: &TermSet) -> Option<usize>
    requires { RowsWithin (lanes_seen rows.now) rows.now.count }
    ensures { NextDue rows.now.subj.now rows.now.pred.now rows.now.obj.now from rows.now.count due.now result }
{
    (from..rows.count).find(|&i| meets(due, rows.row(i)))
}

// The last row before `from` that is due. A `for`, since no lemma says what `rfind` gives of a range.
fn last_due(rows: &Rows, from: usize, due: &TermSet) -> Option<usize>
    requires { RowsWithin (lanes_seen rows.now) from }
    ensures { LastDue rows.now.subj.now rows.now.pred.now rows.now.obj.now from due.now result }
{
    for i in (0..from).rev() {
        if meets(due, rows.row(i)) {
            return Some(i);
        }
    }
    None
}

// Draws what row i gives, and puts what rose into both sets.
fn ask_row(
    table: &mut Table,
    rules: u8,
    i: usize,
    hint: usize,
    sets: &mut Sets,
) -> Result<Done, Full>
    requires { RowIn i table.old }
    ensures kept { Kept table.old table.new }
    ensures asked { RowAskedIn (rules_of rules) (plans_for rules) i table.old table.new sets.old sets.new result }
{
    let r = table.rows().row(i);
    let row = draw_row(table, rules, i, hint)?;
    sets.mark(&row, r);
    Ok(Done {
        changed: row.changed,
        next: row.next,
    })
}

// Whether the row r can meet a row of the subject `one`, as `meets` says it of a set.
fn meets_one(one: u16, r: Row) -> bool
    ensures { MeetsNotOne one (triple r.s r.p r.o) result }
{
    r.s == one || r.p == one || (r.p < DOM && r.o == one)
}

// Whether one of a row's terms is this one: whatever is due by `meets_one` is, without a branch.
fn is_among(one: u16, r: Row) -> bool
    ensures { MeetsNotOne one (triple r.s r.p r.o) result }
{
    (r.s == one) | (r.p == one) | (r.o == one)
}

// Whether one of sixteen rows from `at` on has this one. All are looked at, so that the compiler can look at many at once.
fn block_has(rows: &Rows, at: usize, one: u16) -> bool
    requires { RowsWithin (lanes_seen rows.now) (at + 16) }
    ensures { BlockAway rows.now.subj.now rows.now.pred.now rows.now.obj.now at (at + 16) one result }
{
    let mut any = false;
    for i in at..at + BLOCK {
        any |= is_among(one, rows.row(i));
    }
    any
}

// Passes over rows from `from` on that have not this one, sixteen at a time. A `while`, since `step_by` would go on into the rows
// behind the last sixteen.
fn past_blocks(rows: &Rows, from: usize, one: u16) -> usize
    requires { RowsWithin (lanes_seen rows.now) rows.now.count }
    ensures { PastOf rows.now.subj.now rows.now.pred.now rows.now.obj.now from one result }
{
    let mut i = from;
    while i < rows.count && BLOCK <= rows.count - i && !block_has(rows, i, one) {
        i += BLOCK;
    }
    i
}

// The first row from `from` on that can meet a row of the subject `one`.
fn next_of(rows: &Rows, from: usize, one: u16) -> Option<usize>
    requires { RowsWithin (lanes_seen rows.now) rows.now.count }
    ensures { NextOf rows.now.subj.now rows.now.pred.now rows.now.obj.now from rows.now.count one result }
{
    let past = past_blocks(rows, from, one);
    (past..rows.count).find(|&i| meets_one(one, rows.row(i)))
}

// The next row that is due, from `from` on or, going down, from the one before it.
fn seek(turn: Turn, rows: &Rows, from: usize, due: &TermSet) -> Option<usize>
    requires { RowsWithin (lanes_seen rows.now) rows.now.count × Seeking (number_of turn) rows.now.count from }
    ensures { Sought rows.now.subj.now rows.now.pred.now rows.now.obj.now (number_of turn) (one_of turn) rows.now.count from due.now result }
{
    match turn {
        Turn::Down => last_due(rows, from, due),
        Turn::Up => next_due(rows, from, due),
        Turn::One(one) => next_of(rows, from, one),
    }
}

// Asks every row that is due. One round for all turns, so that asking is laid into it.
fn round(turn: Turn, table: &mut Table, rules: u8, sets: &mut Sets) -> Result<Done, Full>
    requires { RoundDueIn (plans_for rules) turn table.old sets.old }
    ensures kept { Kept table.old table.new }
    ensures drawn { RoundDrawnIn (rules_of rules) (plans_for rules) table.old table.new sets.old sets.new result }
{
    let mut drawn = Done {
        changed: false,
        next: 0,
    };
    let mut i = turn.first(table.count);
    while let Some(at) = seek(turn, &table.rows(), i, &sets.due) {
        let count = table.count;
        let done = ask_row(table, rules, at, drawn.next, sets)?;
        i = turn.onward(at, table.count - count);
        drawn = Done {
            changed: drawn.changed | done.changed,
            next: done.next,
        };
    }
    Ok(drawn)
}

// Whether a row with the predicate d and the object y is (D sp A), with A in the set.
fn leads(set: &TermSet, d: u16, y: u16) -> bool
    ensures { Leads set.now d y result }
{
    d == SP && set.contains(y)
}

// Rule 5 looks behind the rows (D sp A): where A is in the set, D is put in.
fn spread(rows: &Rows, set: &mut TermSet)
    requires { RowsWithin (lanes_seen rows.now) rows.now.count }
    ensures { Spread rows.now.subj.now rows.now.pred.now rows.now.obj.now rows.now.count set.old set.new }
{
    for i in 0..rows.count {
        let on = leads(set, rows.pred[i], rows.obj[i]);
        set.insert_if(on, rows.subj[i]);
    }
}

// Whether there is a row that begins with q and r.
fn has_row(table: &Table, q: u16, r: u16) -> bool
    requires { Sound (kind_number table.now.kind) (lanes_in table.now) table.now.count }
    ensures { NoRow (lanes_in table.now) table.now.count q r result }
{
    let rows = table.rows();
    begins(&rows, rows.find(key_of(q, r, 0)), q, r)
}

// Whether a term has a domain or a range: else rule 5 finds nothing behind a row (D sp `one`).
fn typed(table: &Table, one: u16) -> bool
    requires { Sound (kind_number table.now.kind) (lanes_in table.now) table.now.count }
    ensures { Untyped (lanes_in table.now) table.now.count one result }
{
    let domain = has_row(table, one, DOM);
    let range = has_row(table, one, RANGE);
    domain || range
}

// How the rows that can meet one of `one` are sought: by itself, or by the set of it and of what is below it.
fn aim(table: &Table, one: u16, due: &mut TermSet) -> Turn
    requires { Sound (kind_number table.now.kind) (lanes_in table.now) table.now.count }
    ensures { AimedAt (lanes_in table.now) table.now.count one due.new result }
{
    if typed(table, one) {
        due.clear();
        due.insert_if(true, one);
        spread(&table.rows(), due);
        return Turn::Up;
    }
    Turn::One(one)
}

// Whether row `at` is there, its subject waits and was not looked at of late.
fn fresh(rows: &Rows, at: usize, rose: &TermSet, seen: &TermSet) -> bool
    requires { rows.now.count ≤ length rows.now.subj.now }
    ensures { Fresh rows.now.subj.now rows.now.count at rose.now result }
{
    at < rows.count && rose.contains(rows.subj[at]) && !seen.contains(rows.subj[at])
}

// The first such row.
fn next_fresh(rows: &Rows, rose: &TermSet, seen: &TermSet) -> Option<usize>
    requires { rows.now.count ≤ length rows.now.subj.now }
    ensures { Waits rows.now.subj.now rows.now.count rose.now result }
{
    (0..rows.count).find(|&i| fresh(rows, i, rose, seen))
}

// The first row whose subject waits.
fn next_waiting(rows: &Rows, rose: &TermSet) -> Option<usize>
    requires { rows.now.count ≤ length rows.now.subj.now }
    ensures { Chosen rows.now.subj.now rows.now.count rose.now result }
{
    (0..rows.count).find(|&i| rose.contains(rows.subj[i]))
}

// A row whose subject waits. First the row that was drawn last, where its subject was not looked at of late; then the first such
// row; then any. So what follows one after another comes first, and what rises again and again waits for all else.
fn choose(rows: &Rows, near: usize, rose: &TermSet, seen: &TermSet) -> Option<usize>
    requires { rows.now.count ≤ length rows.now.subj.now }
    ensures { Chosen rows.now.subj.now rows.now.count rose.now result }
{
    if near > 0 && fresh(rows, near - 1, rose, seen) {
        return Some(near - 1);
    }
    if let Some(at) = next_fresh(rows, rose, seen) {
        return Some(at);
    }
    next_waiting(rows, rose)
}

// Notes a term that is looked at; where it is one that was, all begins anew.
fn note(seen: &mut TermSet, one: u16)
    ensures { holds seen.new one ≡ true }
{
    if seen.contains(one) {
        seen.clear();
    }
    seen.insert_if(true, one);
}

// Subject after subject: one that waits is taken out, and the rows that can meet its rows are asked; until none waits, or a row finds
// no room.
fn settle(table: &mut Table, rules: u8, sets: &mut Sets) -> Result<(), Full>
    requires { WaitingIn (plans_for rules) table.old sets.old }
    ensures kept { Kept table.old table.new }
    ensures saturated { SaturatedIn (rules_of rules) table.old table.new result }
{
    let mut near = 0;
    let mut seen = TermSet::empty();
    while let Some(at) = choose(&table.rows(), near, &sets.rose, &seen) {
        let one = table.subj[at];
        note(&mut seen, one);
        sets.rose.remove(one);
        let turn = aim(table, one, &mut sets.due);
        let done = round(turn, table, rules, sets)?;
        near = done.next;
    }
    Ok(())
}

// All rows are gone over up, down and up again, before it goes by one subject after another.
const MORE_SWEEPS: [Turn; 2] = [Turn::Down, Turn::Up];

// Sweeps over the rows take most of what follows, in the first of which every row is due; then each subject that waits is taken.
pub fn saturate(table: &mut Table, rules: u8) -> Result<(), Full>
    requires { Sound (kind_number table.old.kind) (lanes_in table.old) table.old.count }
    ensures kept { Kept table.old table.new }
    ensures saturated { SaturatedIn (rules_of rules) table.old table.new result }
{
    let mut sets = Sets {
        due: TermSet::all(),
        rose: TermSet::empty(),
    };
    let mut last = round(Turn::Up, table, rules, &mut sets)?;
    for turn in MORE_SWEEPS {
        if !last.changed {
            break;
        }
        spread(&table.rows(), &mut sets.rose);
        sets.due = sets.rose;
        sets.rose = TermSet::empty();
        last = round(turn, table, rules, &mut sets)?;
    }
    settle(table, rules, &mut sets)
}
