// Carrying out a plan of a rule set: a conclusion, the rows that the plan meets one after another, and the rows behind each of them.
// Nothing is refused here; where a row finds no room, the caller is told, and whether the table changed before (`Stopped`).
// The table may grow under a walk and rows move; only a walk that changed nothing shows that its plan is obeyed.
// Each conclusion is looked for behind the one before (`hint`, `next`): they mostly come in order.
#![tactic(auto)]

ghost use Rattle.std.specs.Prelude.{◌≡◌, false};
ghost use Rattle.table.specs.Rows.{row};
ghost use Rattle.table.specs.Lent.{Kept};
ghost use Rattle.rhodf.specs.Rules.{rules_of};
ghost use Rattle.plans.specs.declared.Each.{Each};
ghost use Rattle.walks.specs.Walks.{ConcludedIn, RaisedIn, PlannedIn, WalkedIn, WithinTwo, Begins, MeetingIn, MeetingDrawnIn};

use annotation::BOTTOM;
use plans::{Behind, Each, Once, Plan};
use table::{Done, Full, Row, Rows, Table, key_of};
use term::{NAME, sort_of};

// A row found no room; whether the table changed before.
#[derive(Clone, Copy)]
pub struct Stopped {
    pub changed: bool,
}

impl From<Stopped> for Full {
    ghost from_gives = { λ _ full. full ≡ record {} };

    fn from(_stopped: Stopped) -> Full {
        Full
    }
}

// Nothing is put in.
fn unchanged(hint: usize) -> Done
    ensures { result ≡ record { changed = false; next = hint } }
{
    Done {
        changed: false,
        next: hint,
    }
}

// Puts a conclusion in; one whose predicate is no name, or whose annotation is 0, is not drawn. It is laid into the walk, and all
// walks into the round: with calls closing takes up to 1.4 times as long.
#[inline(always)]
fn raise(table: &mut Table, rules: u8, r: Row, hint: usize) -> Result<Done, Stopped>
    requires { ConcludedIn (rules_of rules) (row r.s r.p r.o r.a) table.old }
    ensures kept { Kept table.old table.new }
    ensures raised { RaisedIn (rules_of rules) (row r.s r.p r.o r.a) table.old table.new result }
{
    if sort_of(r.p) != NAME || r.a == BOTTOM {
        return Ok(unchanged(hint));
    }
    match table.put_found(r, hint) {
        Ok(done) => Ok(done),
        Err(Full) => Err(Stopped { changed: false }),
    }
}

// What each row that a plan meets gives.
trait Gives: Copy {
    ghost each: { Self → Each };

    // Draws it of a row with the object z, where the annotations of the premises so far meet in c.
    fn draw(
        self,
        table: &mut Table,
        rules: u8,
        z: u16,
        c: u64,
        hint: usize,
    ) -> Result<Done, Stopped>
        requires { MeetingIn (rules_of rules) (each self) z c table.old }
        ensures kept { Kept table.old table.new }
        ensures drawn { MeetingDrawnIn (rules_of rules) (each self) z c table.old table.new result };
}

impl Gives for Once {
    ghost each = { Each.Once };

    #[inline(always)]
    fn draw(
        self,
        table: &mut Table,
        rules: u8,
        z: u16,
        c: u64,
        hint: usize,
    ) -> Result<Done, Stopped> {
        // One call of `raise`, so that it is laid into the walk.
        let r = match self {
            Once::Straight { s, p } => Row { s, p, o: z, a: c },
            Once::Renaming { s, o } => Row { s, p: z, o, a: c },
        };
        raise(table, rules, r, hint)
    }
}

impl Gives for Behind {
    ghost each = { Each.Behind };

    fn draw(
        self,
        table: &mut Table,
        rules: u8,
        z: u16,
        c: u64,
        hint: usize,
    ) -> Result<Done, Stopped> {
        let Behind { t, s, p } = self;
        walk(table, rules, z, t, Once::Straight { s, p }, c, hint)
    }
}

// Whether row i is there and begins with q and r.
pub fn begins(rows: &Rows, i: usize, q: u16, r: u16) -> bool
    requires { WithinTwo rows.now.subj.now rows.now.pred.now rows.now.count }
    ensures { Begins rows.now.subj.now rows.now.pred.now rows.now.count i q r result }
{
    i < rows.count && rows.subj[i] == q && rows.pred[i] == r
}

// Every row that begins with q and r, one after another.
#[inline(always)]
fn walk<G: Gives>(
    table: &mut Table,
    rules: u8,
    q: u16,
    r: u16,
    each: G,
    a: u64,
    hint: usize,
) -> Result<Done, Stopped>
    requires { PlannedIn (rules_of rules) (Plan.Rows q r (G.each each)) a table.old }
    ensures kept { Kept table.old table.new }
    ensures walked { WalkedIn (rules_of rules) (Plan.Rows q r (G.each each)) a table.old table.new result }
{
    let mut i = table.rows().find(key_of(q, r, 0));
    let mut walked = unchanged(hint);
    while begins(&table.rows(), i, q, r) {
        let z = table.obj[i];
        let c = table.kind.meet(a, table.ann[i]);
        match each.draw(table, rules, z, c, walked.next) {
            Ok(done) => {
                walked = Done {
                    changed: walked.changed | done.changed,
                    next: done.next,
                };
            }
            Err(stopped) => {
                return Err(Stopped {
                    changed: walked.changed | stopped.changed,
                });
            }
        }
        i += 1;
    }
    Ok(walked)
}

// Carries out a plan for a row with the annotation a.
pub fn pursue(
    table: &mut Table,
    rules: u8,
    plan: Plan,
    a: u64,
    hint: usize,
) -> Result<Done, Stopped>
    requires { PlannedIn (rules_of rules) plan a table.old }
    ensures kept { Kept table.old table.new }
    ensures walked { WalkedIn (rules_of rules) plan a table.old table.new result }
{
    match plan {
        Plan::Off => Ok(unchanged(hint)),
        Plan::Rows { q, r, each } => match each {
            Each::Once(each) => walk(table, rules, q, r, each, a, hint),
            Each::Behind(each) => walk(table, rules, q, r, each, a, hint),
        },
        Plan::Alone { s, p, o } => raise(table, rules, Row { s, p, o, a }, hint),
    }
}
