// A line taken apart by its terminals.
ghost use Rattle.std.specs.Prelude.{◌≡◌, ◌≤◌, length};
ghost use Rattle.utf8.specs.Texts.{seen};
ghost use Rattle.ntline.specs.declared.lines.Sort.TheVariants.{Literal};
ghost use Rattle.ntline.specs.Kinds.{span, missing};
ghost use Rattle.ntline.specs.Lines.{LineOf, line_of, is_over, is_dotted};
ghost use Rattle.ntline.specs.Inner.{SpacedAt, TermAt, TypedAt, LiteralAt, ObjectAt, PredicateAt, SubjectAt};

use crate::classes::is_white;
use crate::lexing::{Kind, token};
use utf8::is_text;

// What a term is.
#[derive(Clone, Copy, PartialEq, Eq)]
pub enum Sort {
    Name,
    Blank,
    Literal,
}

// A term in a line: its sort, its first terminal from `from` up to `to`, and the end of what a literal has behind its string.
#[derive(Clone, Copy)]
pub struct Span {
    pub sort: Sort,
    pub from: usize,
    pub to: usize,
    pub tail: usize,
}

// Where there is no term: where it would begin, the end of its string, and how far it was read; all one place where there is no string.
#[derive(Clone, Copy)]
pub struct Missing {
    pub from: usize,
    pub to: usize,
    pub tail: usize,
}

#[derive(Drop)]
pub enum Line {
    Bad,
    Empty,
    Triple(Span, Span, Span),
}

// Behind white space, if there is any.
fn spaced(b: &[u8], at: usize, end: usize) -> usize
    requires { (at ≤ end) × (end ≤ length b.now) }
    ensures { SpacedAt b.now at end result }
{
    for i in at..end {
        if !is_white(u32::from(b[i])) {
            return i;
        }
    }
    end
}

// Nothing is left but white space and perhaps a comment.
fn over(b: &[u8], at: usize, end: usize) -> bool
    requires { (at ≤ end) × (end ≤ length b.now) }
    ensures { result ≡ is_over (seen b.now at end) }
{
    let from = spaced(b, at, end);
    from == end || (b[from] == b'#' && is_text(b, from + 1, end))
}

fn no_term(at: usize) -> Missing
    ensures { result ≡ missing at at at }
{
    Missing {
        from: at,
        to: at,
        tail: at,
    }
}

fn short_term(sort: Sort, from: usize, to: usize) -> Span
    ensures { result ≡ span sort from to to }
{
    Span {
        sort,
        from,
        to,
        tail: to,
    }
}

fn literal_term(from: usize, to: usize, tail: usize) -> Span
    ensures { result ≡ span Literal from to tail }
{
    Span {
        sort: Sort::Literal,
        from,
        to,
        tail,
    }
}

// Behind '^^': the datatype's IRI.
fn typed(b: &[u8], from: usize, to: usize, at: usize, end: usize) -> Result<Span, Missing>
    requires { (from ≤ to) × (to ≤ at) × (at ≤ end) × (end ≤ length b.now) }
    ensures { TypedAt b.now from to at end result }
{
    let behind = spaced(b, at, end);
    let t = token(b, behind, end);
    match t.kind {
        Kind::Iri => Ok(literal_term(from, to, t.to)),
        _ => Err(Missing {
            from,
            to,
            tail: t.to,
        }),
    }
}

// Behind a string: a language tag, '^^' and an IRI, or nothing.
fn literal(b: &[u8], from: usize, to: usize, end: usize) -> Result<Span, Missing>
    requires { (from ≤ to) × (to ≤ end) × (end ≤ length b.now) }
    ensures { LiteralAt b.now from to end result }
{
    let behind = spaced(b, to, end);
    let t = token(b, behind, end);
    match t.kind {
        Kind::Tag => Ok(literal_term(from, to, t.to)),
        Kind::Hats => typed(b, from, to, t.to, end),
        _ => Ok(literal_term(from, to, to)),
    }
}

// The term at a position, behind white space.
pub fn term(b: &[u8], at: usize, end: usize) -> Result<Span, Missing>
    requires { (at ≤ end) × (end ≤ length b.now) }
    ensures { TermAt b.now at end result }
{
    let from = spaced(b, at, end);
    let t = token(b, from, end);
    match t.kind {
        Kind::Iri => Ok(short_term(Sort::Name, from, t.to)),
        Kind::Label => Ok(short_term(Sort::Blank, from, t.to)),
        Kind::String => literal(b, from, t.to, end),
        _ => Err(no_term(from)),
    }
}

// The dot, and nothing behind it.
fn dotted(b: &[u8], at: usize, end: usize) -> bool
    requires { (at ≤ end) × (end ≤ length b.now) }
    ensures { result ≡ is_dotted (seen b.now at end) }
{
    let from = spaced(b, at, end);
    let t = token(b, from, end);
    match t.kind {
        Kind::Dot => over(b, t.to, end),
        _ => false,
    }
}

fn object(b: &[u8], s: Span, p: Span, end: usize) -> Line
    requires { (p.tail ≤ end) × (end ≤ length b.now) }
    ensures { ObjectAt b.now s p end result }
{
    match term(b, p.tail, end) {
        Ok(o) if dotted(b, o.tail, end) => Line::Triple(s, p, o),
        _ => Line::Bad,
    }
}

fn predicate(b: &[u8], s: Span, end: usize) -> Line
    requires { (s.tail ≤ end) × (end ≤ length b.now) }
    ensures { PredicateAt b.now s end result }
{
    match term(b, s.tail, end) {
        Ok(p) if p.sort == Sort::Name => object(b, s, p, end),
        _ => Line::Bad,
    }
}

fn subject(b: &[u8], at: usize, end: usize) -> Line
    requires { (at ≤ end) × (end ≤ length b.now) }
    ensures { SubjectAt b.now at end result }
{
    match term(b, at, end) {
        Ok(s) if s.sort != Sort::Literal => predicate(b, s, end),
        _ => Line::Bad,
    }
}

// The line from `at` up to `end`.
pub fn parse(b: &[u8], at: usize, end: usize) -> Line
    requires { (at ≤ end) × (end ≤ length b.now) }
    ensures { LineOf b.now end result (line_of (seen b.now at end)) }
{
    if over(b, at, end) {
        return Line::Empty;
    }
    subject(b, at, end)
}
