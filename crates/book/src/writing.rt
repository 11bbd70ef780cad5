// A table as a book: the head, then a field for each row in table order.
ghost use Rattle.std.specs.Prelude.{◌≡◌, ◌+◌, ◌*◌, ◌≤◌, length};
ghost use Rattle.field.specs.Numbers.{written};
ghost use Rattle.annotation.specs.Numbered.{kind_number};
ghost use Rattle.ruleset.specs.Numbered.{set_number};
ghost use Rattle.table.specs.Rows.{row, rows_of};
ghost use Rattle.table.specs.Lent.{lanes_seen};
ghost use Rattle.book.specs.Format.{edition_for, head_size_lem, triple_size, rules_bytes, head_bytes, field_bytes, fields_bytes};
ghost use Rattle.book.specs.Inner.{Writes, Writable};
ghost use Rattle.book.specs.Writing.{book_length_lem, write_checks};

use crate::content::{
    FIRST_EDITION, HEAD_RULES, HEAD_TAG, SECOND_EDITION, TRIPLE_LENGTH, TRIPLE_TAG, head_length,
    is_base,
};
use crate::refusal::refuse;
use annotation::Kind;
use field::{FRONT, put_eight, put_front, put_pair, put_two};
use ruleset::RuleSet;
use table::{Row, Rows};
use term::{Refusal, Refused};

// The size of a triple field: tag, length and value.
pub const TRIPLE_BYTES: usize = 17;

// The edition that a book of a rule set is written in: the second only for rule set 2.
fn edition_for(rules: RuleSet) -> u8
    ensures { result ≡ edition_for (set_number rules) }
{
    match rules {
        RuleSet::Basic => FIRST_EDITION,
        RuleSet::Reflexive => SECOND_EDITION,
    }
}

// The size of the head that is written for a rule set.
pub fn head_size(rules: RuleSet) -> usize
    ensures { result ≡ head_size_lem (set_number rules) }
{
    FRONT + head_length(edition_for(rules))
}

// How long the book of so many rows is.
pub fn book_length(rules: RuleSet, count: usize) -> usize
    requires { count ≤ 1024 }
    ensures { result ≡ book_length_lem (set_number rules) count }
{
    head_size(rules) + TRIPLE_BYTES * count
}

// The rule set at the end of a head of the second edition.
fn put_rules(out: &mut [u8], rules: RuleSet)
    requires { head_size_lem (set_number rules) ≤ length out.old }
    ensures { out.new ≡ written out.old 7 (rules_bytes (set_number rules)) }
{
    if edition_for(rules) == SECOND_EDITION {
        out[HEAD_RULES] = rules.number();
    }
}

// Tag, length and content of the head.
pub fn write_head(out: &mut [u8], kind: Kind, base: u16, rules: RuleSet)
    requires { head_size_lem (set_number rules) ≤ length out.old }
    ensures { out.new ≡ written out.old 0 (head_bytes (kind_number kind) base (set_number rules)) }
{
    let edition = edition_for(rules);
    let size = head_length(edition);
    put_front(out, 0, HEAD_TAG, size as u64);
    put_pair(out, 3, edition, kind.number());
    put_two(out, 5, base as u64);
    put_rules(out, rules);
}

// The field of one row.
fn write_field(out: &mut [u8], at: usize, r: Row)
    requires { at + triple_size ≤ length out.old }
    ensures { out.new ≡ written out.old at (field_bytes (row r.s r.p r.o r.a)) }
{
    put_front(out, at, TRIPLE_TAG, TRIPLE_LENGTH as u64);
    put_two(out, at + 3, r.s as u64);
    put_two(out, at + 5, r.p as u64);
    put_two(out, at + 7, r.o as u64);
    put_eight(out, at + 9, r.a);
}

// The fields of the rows, from `start` on.
pub fn write_fields(out: &mut [u8], start: usize, rows: &Rows)
    requires { Writable (lanes_seen rows.now) rows.now.count start out.old }
    ensures { out.new ≡ written out.old start (fields_bytes (rows_of (lanes_seen rows.now) rows.now.count)) }
{
    for i in 0..rows.count {
        write_field(out, start + TRIPLE_BYTES * i, rows.row(i));
    }
}

// The kind and the rule set, where a table, its kind, base year and rule set make a book that has room.
pub fn checked(
    kind: u8,
    base: u16,
    rules: u8,
    rows: &Rows,
    room: usize,
) -> Result<(Kind, RuleSet), Refused>
    ensures { Writes kind rules (write_checks kind base rules (lanes_seen rows.now) rows.now.count room) result }
{
    let kind = Kind::try_from(kind)?;
    refuse(!is_base(kind, base), Refusal::WrongBase, 0)?;
    let rules = RuleSet::try_from(rules)?;
    rows.check(kind)?;
    refuse(room < book_length(rules, rows.count), Refusal::NoRoom, 0)?;
    Ok((kind, rules))
}
