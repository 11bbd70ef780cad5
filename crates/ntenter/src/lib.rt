// One line of a makers' list entered: its three terms numbered, its triple put into the table.
// Refused here: a line that is not N-Triples (26), a list with no room (27), a table with no room (12).
#![tactic(auto)]

ghost use Rattle.std.specs.Prelude.{◌≤◌, length};
ghost use Rattle.annotation.specs.Numbered.{kind_number};
ghost use Rattle.table.specs.Lent.{lanes_in, Kept};
ghost use Rattle.ntnumber.specs.Lent.{list_in, KeptList, HashedIn};
ghost use Rattle.ntenter.specs.Inner.{ThreeInto, ThreeAs, three_told, LineInto, TripleInto, TripleRead, LineRead, line_told};
ghost use Rattle.ntenter.specs.Lent.{heard_in};

use ntline::lines::{Line, Span, parse};
use ntnumber::{NameList, number_of};
use table::{Full, Row, Table};
use term::Refusal;

// A triple's three numbers.
#[derive(Clone, Copy)]
pub struct Numbers {
    pub s: u16,
    pub p: u16,
    pub o: u16,
}

// Subject, predicate, object, numbered in this order, if all three fit.
fn three(b: &[u8], end: usize, s: Span, p: Span, o: Span, list: &mut NameList) -> Option<Numbers>
    requires into { ThreeInto b.now end s p o (list_in list.old) list.old.count }
    requires hashed { HashedIn list.old }
    ensures kept { KeptList list.old list.new }
    ensures numbered { ThreeAs b.now end s p o (list_in list.old) list.old.count (list_in list.new) (three_told list.new.count result) }
    ensures hashed { HashedIn list.new }
{
    let s = number_of(b, end, s, list)?;
    let p = number_of(b, end, p, list)?;
    let o = number_of(b, end, o, list)?;
    Some(Numbers { s, p, o })
}

// The triple of three terms into the table, its new terms into the list.
fn triple(
    table: &mut Table,
    list: &mut NameList,
    a: u64,
    b: &[u8],
    end: usize,
    s: Span,
    p: Span,
    o: Span,
) -> Result<(), Refusal>
    requires into { TripleInto (kind_number table.old.kind) a b.now end s p o (lanes_in table.old) table.old.count (list_in list.old) list.old.count }
    requires hashed { HashedIn list.old }
    ensures kept { Kept table.old table.new }
    ensures list_kept { KeptList list.old list.new }
    ensures read { TripleRead (kind_number table.old.kind) a b.now end s p o (lanes_in table.old) (lanes_in table.new) table.old.count (list_in list.old) (list_in list.new) list.old.count (line_told table.new.count list.new.count result) }
    ensures hashed { HashedIn list.new }
{
    let Some(t) = three(b, end, s, p, o, list) else {
        return Err(Refusal::NoNames);
    };
    let row = Row {
        s: t.s,
        p: t.p,
        o: t.o,
        a,
    };
    match table.put_row(row) {
        Ok(_) => Ok(()),
        Err(Full) => Err(Refusal::NoRoom),
    }
}

// The line from `at` up to `end`.
pub fn read_line(
    table: &mut Table,
    list: &mut NameList,
    a: u64,
    b: &[u8],
    at: usize,
    end: usize,
) -> Result<(), Refusal>
    requires there { (at ≤ end) × (end ≤ length b.now) }
    requires into { LineInto (kind_number table.old.kind) a (lanes_in table.old) table.old.count (list_in list.old) list.old.count }
    requires hashed { HashedIn list.old }
    ensures kept { Kept table.old table.new }
    ensures list_kept { KeptList list.old list.new }
    ensures read { LineRead (kind_number table.old.kind) a (heard_in b.now at end) (lanes_in table.old) (lanes_in table.new) table.old.count (list_in list.old) (list_in list.new) list.old.count (line_told table.new.count list.new.count result) }
    ensures hashed { HashedIn list.new }
{
    match parse(b, at, end) {
        Line::Bad => Err(Refusal::NotNTriples),
        Line::Empty => Ok(()),
        Line::Triple(s, p, o) => triple(table, list, a, b, end, s, p, o),
    }
}
