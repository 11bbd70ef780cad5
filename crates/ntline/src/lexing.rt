// The terminals, a character at a time, and the longest of them that a line begins with.
#![tactic(auto, unfolding(crate::specs::Classes::is_white_lem, crate::specs::Lexing::schemed, crate::specs::Lexing::iri_goes, crate::specs::Lexing::in_iri, crate::specs::Lexing::quoted_goes, crate::specs::Lexing::in_quoted, crate::specs::Lexing::begun, crate::specs::Lexing::in_label, crate::specs::Lexing::step, crate::specs::Lexing::kind_of, crate::specs::Lexing::is_dead_lem))]

ghost use Rattle.std.specs.Prelude.{◌≡◌, ◌≤◌, ◌<◌, true, length, get_or};
ghost use Rattle.ntline.specs.Lexing.{schemed, iri_goes, in_iri, quoted_goes, in_quoted, begun, step, kind_of, is_dead_lem};
ghost use Rattle.ntline.specs.Kinds.{number_of};
ghost use Rattle.ntline.specs.Runs.{RunTo};
ghost use Rattle.ntline.specs.Inner.{Reached, StopsAt, FoundAt};

use crate::classes::{
    is_alnum, is_alpha, is_character, is_iri_char, is_label_start, is_name_char, is_scheme_char,
    is_white,
};
use crate::escapes::{BACKSLASH, Fed, PART, feed};
use crate::runs::{label_run, letters_run, plain_run, scheme_run};
use utf8::see;

// Where in a terminal a line is read.
#[derive(Clone, Copy)]
pub enum State {
    Start,
    // No terminal goes on like this.
    Dead,
    White,
    Dot,
    Hat,
    Hats,
    Remark,
    Under,
    Colon,
    Label,
    Dots,
    At,
    Letters,
    Minus,
    Alnums,
    // How far its scheme is, by the number that `schemed` in specs/ has, and its escape: hex digits left, number.
    Iri(u32, u32, u32),
    IriEnd,
    Quoted(u32, u32),
    QuotedEnd,
}

// A terminal, or none: a variant, since an `Option<Terminal>` is answered in memory, not in registers (docs/LOOK-BACK.md, d3).
#[derive(Clone, Copy, PartialEq, Eq)]
pub enum Kind {
    Nothing,
    Space,
    Dot,
    Hats,
    Remark,
    Label,
    Tag,
    Iri,
    String,
}

// How far the scheme of an IRI is behind one character more; 3: it has none.
fn scheme_step(scheme: u32, c: u32) -> u32
    ensures { result ≡ schemed scheme c }
{
    match scheme {
        2 => 2,
        0 if is_alpha(c) => 1,
        0 => 3,
        _ if c == 0x3A => 2,
        _ if is_scheme_char(c) => 1,
        _ => 3,
    }
}

fn iri_goes(scheme: u32, f: Fed) -> State
    ensures { result ≡ iri_goes scheme f }
{
    let out = f.out;
    if out == PART {
        return State::Iri(scheme, f.left, f.value);
    }
    let next = scheme_step(scheme, out);
    if is_iri_char(out) && next < 3 {
        return State::Iri(next, 0, 0);
    }
    State::Dead
}

fn in_iri(scheme: u32, left: u32, value: u32, c: u32) -> State
    ensures { result ≡ in_iri scheme left value c }
{
    if left == 0 && c == 0x3E {
        return if scheme == 2 {
            State::IriEnd
        } else {
            State::Dead
        };
    }
    if left == BACKSLASH && !matches!(c, 0x75 | 0x55) {
        return State::Dead;
    }
    iri_goes(scheme, feed(left, value, c))
}

fn quoted_goes(f: Fed) -> State
    ensures { result ≡ quoted_goes f }
{
    if f.out == PART {
        return State::Quoted(f.left, f.value);
    }
    if is_character(f.out) {
        State::Quoted(0, 0)
    } else {
        State::Dead
    }
}

fn in_quoted(left: u32, value: u32, c: u32) -> State
    ensures { result ≡ in_quoted left value c }
{
    match (left, c) {
        (0, 0x22) => State::QuotedEnd,
        (0, 0xA | 0xD) => State::Dead,
        _ => quoted_goes(feed(left, value, c)),
    }
}

fn begin(c: u32) -> State
    ensures { result ≡ begun c }
{
    match c {
        0x20 | 0x9 => State::White,
        0x3C => State::Iri(0, 0, 0),
        0x5F => State::Under,
        0x22 => State::Quoted(0, 0),
        0x40 => State::At,
        0x5E => State::Hat,
        0x2E => State::Dot,
        0x23 => State::Remark,
        _ => State::Dead,
    }
}

// The state behind one character more.
pub fn stepped(s: State, c: u32) -> State
    ensures { result ≡ step s c }
{
    match s {
        State::Start => begin(c),
        State::White if is_white(c) => State::White,
        State::Hat if c == 0x5E => State::Hats,
        State::Remark if is_character(c) => State::Remark,
        State::Under if c == 0x3A => State::Colon,
        State::Colon if is_label_start(c) => State::Label,
        State::Label | State::Dots if is_name_char(c) => State::Label,
        State::Label | State::Dots if c == 0x2E => State::Dots,
        State::At | State::Letters if is_alpha(c) => State::Letters,
        State::Minus | State::Alnums if is_alnum(c) => State::Alnums,
        State::Letters | State::Alnums if c == 0x2D => State::Minus,
        State::Iri(scheme, left, value) => in_iri(scheme, left, value, c),
        State::Quoted(left, value) => in_quoted(left, value, c),
        _ => State::Dead,
    }
}

// The terminal that may end here.
pub fn kind_of(s: State) -> Kind
    ensures { number_of result ≡ kind_of s }
{
    match s {
        State::White => Kind::Space,
        State::Dot => Kind::Dot,
        State::Hats => Kind::Hats,
        State::Remark => Kind::Remark,
        State::Label => Kind::Label,
        State::Letters | State::Alnums => Kind::Tag,
        State::IriEnd => Kind::Iri,
        State::QuotedEnd => Kind::String,
        _ => Kind::Nothing,
    }
}

fn is_dead(s: State) -> bool
    ensures { result ≡ is_dead_lem s }
{
    matches!(s, State::Dead)
}

// A terminal, and the position behind it; where there is none, the position where it would begin.
#[derive(Clone, Copy)]
pub struct Terminal {
    pub kind: Kind,
    pub to: usize,
}

// Behind the bytes that change nothing of a state.
pub fn pass(b: &[u8], at: usize, end: usize, s: State) -> usize
    requires { (at ≤ end) × (end ≤ length b.now) }
    ensures { RunTo s b.now at end result }
{
    match s {
        State::Iri(2, 0, 0) => plain_run(b, at, end, false),
        State::Quoted(0, 0) => plain_run(b, at, end, true),
        _ => at,
    }
}

// The longest terminal at `at`, a character at a time, where a state is reached behind some of them and none ended yet.
fn longest_from(b: &[u8], at: usize, end: usize, first: State, from: usize) -> Terminal
    requires { (end ≤ length b.now) × Reached b.now at end first 0 at from }
    ensures { FoundAt b.now at end result }
{
    let mut state = first;
    let mut last = Terminal {
        kind: Kind::Nothing,
        to: at,
    };
    let mut i = from;
    while i < end {
        let c = see(b, i, end);
        state = stepped(state, c.value);
        if is_dead(state) {
            return last;
        }
        let kind = kind_of(state);
        if kind != Kind::Nothing {
            last = Terminal { kind, to: c.next };
        }
        i = pass(b, c.next, end, state);
    }
    last
}

// The longest terminal at a position.
fn longest(b: &[u8], at: usize, end: usize) -> Terminal
    requires { (at ≤ end) × (end ≤ length b.now) }
    ensures { FoundAt b.now at end result }
{
    longest_from(b, at, end, State::Start, at)
}

// Whether this byte stands at a position before `end`.
fn is_byte(b: &[u8], at: usize, end: usize, x: u8) -> bool
    requires { end ≤ length b.now }
    ensures { result ≡ true → (at < end) × (get_or b.now at 0 ≡ x) }
{
    at < end && b[at] == x
}

// Whether no terminal goes on here in this state, for a byte below 0x80 or the end.
fn stops(s: State, b: &[u8], at: usize, end: usize) -> bool
    requires { (at ≤ end) × (end ≤ length b.now) }
    ensures { result ≡ true → StopsAt s b.now at end }
{
    if at == end {
        return true;
    }
    b[at] < 0x80 && is_dead(stepped(s, u32::from(b[at])))
}

// The terminal at a '<': most IRIs are all of plain bytes.
fn iri_token(b: &[u8], at: usize, end: usize) -> Terminal
    requires { (at < end) × (end ≤ length b.now) × (get_or b.now at 0 ≡ 0x3C) }
    ensures { FoundAt b.now at end result }
{
    let from = at + 1;
    let behind = scheme_run(b, from, end);
    if behind <= from {
        return longest(b, at, end);
    }
    let to = plain_run(b, behind, end, false);
    if is_byte(b, to, end, b'>') {
        return Terminal {
            kind: Kind::Iri,
            to: to + 1,
        };
    }
    longest_from(b, at, end, State::Iri(2, 0, 0), to)
}

// The terminal at a quote: many strings are all of plain bytes.
fn string_token(b: &[u8], at: usize, end: usize) -> Terminal
    requires { (at < end) × (end ≤ length b.now) × (get_or b.now at 0 ≡ 0x22) }
    ensures { FoundAt b.now at end result }
{
    let to = plain_run(b, at + 1, end, true);
    if is_byte(b, to, end, b'"') {
        return Terminal {
            kind: Kind::String,
            to: to + 1,
        };
    }
    longest_from(b, at, end, State::Quoted(0, 0), to)
}

// The terminal at a '_': most labels are all of bytes below 0x80.
fn label_token(b: &[u8], at: usize, end: usize) -> Terminal
    requires { (at < end) × (end ≤ length b.now) × (get_or b.now at 0 ≡ 0x5F) }
    ensures { FoundAt b.now at end result }
{
    if !is_byte(b, at + 1, end, b':') {
        return longest(b, at, end);
    }
    let from = at + 2;
    let to = label_run(b, from, end);
    if to <= from || !is_label_start(u32::from(b[from])) || !stops(State::Label, b, to, end) {
        return longest(b, at, end);
    }
    Terminal {
        kind: Kind::Label,
        to,
    }
}

// The terminal at an '@': most tags are letters alone.
fn tag_token(b: &[u8], at: usize, end: usize) -> Terminal
    requires { (at < end) × (end ≤ length b.now) × (get_or b.now at 0 ≡ 0x40) }
    ensures { FoundAt b.now at end result }
{
    let from = at + 1;
    let to = letters_run(b, from, end);
    if to <= from || !stops(State::Letters, b, to, end) {
        return longest(b, at, end);
    }
    Terminal {
        kind: Kind::Tag,
        to,
    }
}

// The longest terminal at a position.
pub fn token(b: &[u8], at: usize, end: usize) -> Terminal
    requires { (at ≤ end) × (end ≤ length b.now) }
    ensures { FoundAt b.now at end result }
{
    if at == end {
        return longest(b, at, end);
    }
    match b[at] {
        b'<' => iri_token(b, at, end),
        b'"' => string_token(b, at, end),
        b'_' => label_token(b, at, end),
        b'@' => tag_token(b, at, end),
        b'.' => Terminal {
            kind: Kind::Dot,
            to: at + 1,
        },
        b'^' if is_byte(b, at + 1, end, b'^') => Terminal {
            kind: Kind::Hats,
            to: at + 2,
        },
        _ => longest(b, at, end),
    }
}
