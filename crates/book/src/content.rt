// What a head and a triple field say, and what is refused of them.
ghost use Rattle.std.specs.Prelude.{◌≡◌, ◌+◌, ◌≤◌, ◌<◌, length};
ghost use Rattle.annotation.specs.Numbered.{kind_number};
ghost use Rattle.field.specs.Fields.{field_at_lem};
ghost use Rattle.book.specs.Format.{is_base, is_edition, head_length_lem, is_head_length, head_rules, triple_size};
ghost use Rattle.book.specs.Inner.{HeadField, HeadContent, HeadSuited, HeadSays, HeadOf, TripleContent, ContentOf};

use crate::refusal::{placed, refuse};
use annotation::Kind;
use field::{FRONT, Field, eight, field_at, two};
use ruleset::RuleSet;
use table::Row;
use term::{Refusal, Refused, check_predicate, check_term};

pub const HEAD_TAG: u8 = 1;

pub const TRIPLE_TAG: u8 = 3;

pub const TRIPLE_LENGTH: usize = 14;

pub const FIRST_EDITION: u8 = 1;

pub const SECOND_EDITION: u8 = 2;

// The length of a head's value in each edition; the second ends with its rule set.
pub const FIRST_HEAD_LENGTH: usize = 4;

pub const SECOND_HEAD_LENGTH: usize = 5;

// Where that rule set stands.
pub const HEAD_RULES: usize = 7;

pub const FIRST_YEAR: u16 = 1900;

pub const LAST_YEAR: u16 = 2100;

// The head, and where the fields behind it begin.
#[derive(Drop)]
pub struct Head {
    pub kind: Kind,
    pub base: u16,
    pub rules: RuleSet,
    pub next: usize,
}

// A field's row, and where the next field begins.
#[derive(Drop)]
pub struct Content {
    pub row: Row,
    pub next: usize,
}

// Whether a base year is legal in a kind.
pub fn is_base(kind: Kind, base: u16) -> bool
    ensures { result ≡ is_base (kind_number kind) base }
{
    match kind {
        Kind::Years => (FIRST_YEAR..=LAST_YEAR).contains(&base),
        _ => base == 0,
    }
}

fn is_edition(edition: u8) -> bool
    ensures { result ≡ is_edition edition }
{
    matches!(edition, FIRST_EDITION | SECOND_EDITION)
}

// The length that suits an edition.
pub fn head_length(edition: u8) -> usize
    ensures { result ≡ head_length_lem edition }
{
    if edition == SECOND_EDITION {
        SECOND_HEAD_LENGTH
    } else {
        FIRST_HEAD_LENGTH
    }
}

fn is_head_length(size: usize) -> bool
    ensures { result ≡ is_head_length size }
{
    matches!(size, FIRST_HEAD_LENGTH | SECOND_HEAD_LENGTH)
}

// The rule set of a head of an edition.
fn head_rules(book: &[u8], edition: u8, next: usize) -> u8
    requires { HeadSuited book.now edition next }
    ensures { result ≡ head_rules book.now }
{
    if edition == SECOND_EDITION {
        book[HEAD_RULES]
    } else {
        RuleSet::Basic.number()
    }
}

// What a head of an edition and its length says, with `next` behind it.
fn head_says(book: &[u8], edition: u8, next: usize) -> Result<Head, Refused>
    requires { HeadSuited book.now edition next }
    ensures { HeadSays book.now result }
{
    let kind = Kind::try_from(book[4])?;
    let base = two(book, 5);
    refuse(!is_base(kind, base), Refusal::WrongBase, 0)?;
    let rules = RuleSet::try_from(head_rules(book, edition, next))?;
    Ok(Head {
        kind,
        base,
        rules,
        next,
    })
}

// The content of a whole head field.
fn head_content(book: &[u8], size: usize) -> Result<Head, Refused>
    requires { HeadField book.now size }
    ensures { HeadContent book.now result }
{
    let edition = book[3];
    refuse(!is_edition(edition), Refusal::WrongEdition, 0)?;
    refuse(size != head_length(edition), Refusal::NoHead, 0)?;
    head_says(book, edition, FRONT + size)
}

// The head at the front of a book.
pub fn head_of(book: &[u8]) -> Result<Head, Refused>
    ensures { HeadOf book.now result }
{
    match field_at(book, 0) {
        Field::End => Err(Refusal::NoHead.at(0)),
        Field::Cut => Err(Refusal::CutShort.at(0)),
        Field::Whole(tag, size) => {
            refuse(tag != HEAD_TAG, Refusal::NoHead, 0)?;
            refuse(!is_head_length(size), Refusal::NoHead, 0)?;
            head_content(book, size)
        }
    }
}

// The content of a whole triple field, in byte order, with `next` behind it.
fn triple_content(kind: Kind, book: &[u8], at: usize, next: usize) -> Result<Content, Refused>
    requires { at + triple_size ≤ length book.now }
    ensures { TripleContent (kind_number kind) book.now at next result }
{
    let s = two(book, at + 3);
    placed(check_term(s), at)?;
    let p = two(book, at + 5);
    placed(check_predicate(p), at)?;
    let o = two(book, at + 7);
    placed(check_term(o), at)?;
    let a = eight(book, at + 9);
    placed(kind.check(a), at)?;
    Ok(Content {
        row: Row { s, p, o, a },
        next,
    })
}

// The field found at a position after the head.
pub fn content_at(kind: Kind, book: &[u8], at: usize, field: Field) -> Result<Content, Refused>
    requires { (at < length book.now) × (field ≡ field_at_lem book.now at) }
    ensures { ContentOf (kind_number kind) book.now at result }
{
    let Field::Whole(tag, size) = field else {
        return Err(Refusal::CutShort.at(at));
    };
    refuse(tag == HEAD_TAG, Refusal::NoHead, at)?;
    refuse(tag != TRIPLE_TAG, Refusal::WrongTag, at)?;
    refuse(size != TRIPLE_LENGTH, Refusal::WrongLength, at)?;
    triple_content(kind, book, at, at + FRONT + size)
}
