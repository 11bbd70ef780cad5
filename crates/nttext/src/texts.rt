// The text of a term that stands in a file, laid down, or compared with bytes, without an intermediate copy.
ghost use Rattle.std.specs.Prelude.{◌≡◌, true, false, ◌∷◌, ◌≤◌, ◌<◌, length, IfSome};
ghost use Rattle.nttext.specs.declared.texts.Front.{Front};
ghost use Rattle.std.proofs.Math.Seq.{slice};
ghost use Rattle.utf8.specs.Characters.{is_character_lem, char_bytes};
ghost use Rattle.names.specs.Entering.{same_text_lem};
ghost use Rattle.nttext.specs.Laying.{is_dropped, xsd_mark};
ghost use Rattle.nttext.specs.Standing.{StandsThere, LaidTo, TermLaidTo, TermCompared};
ghost use Rattle.nttext.specs.Inner.{cursor_at, unit_of, IsGood, Canonical, Advanced, Lies, span_text, MatchedTo, UnitAt, FrontTo, SameRun, PartsOf};

use names::texts::put;
use ntline::classes::is_white;
use ntline::escapes::{PART, feed};
use ntline::lines::{Sort, Span};
use ntline::runs::plain_run;
use utf8::encode::{put_char, size_of};
use utf8::see;

// A character of a text, with a backslash before it or not.
#[derive(Clone, Copy)]
pub struct Written {
    pub slash: bool,
    pub value: u32,
}

// What a literal's text has for a character that an escape gave.
#[tactic(auto, unfolding(crate::specs::Texts::canonical, utf8::specs::Characters::char_bytes, utf8::specs::Characters::one_octet, utf8::specs::Characters::is_character_lem))]
fn canonical(c: u32) -> Written
    ensures { Canonical c result }
{
    let (slash, value) = match c {
        0x22 | 0x5C => (true, c),
        0xA => (true, 0x6E),
        0xD => (true, 0x72),
        _ => (false, c),
    };
    Written { slash, value }
}

// Where a span's next character stands in a text: the position in the source, its escape, and the character, if there is one yet.
#[derive(Clone, Copy)]
pub struct Cursor {
    pub at: usize,
    pub left: u32,
    pub number: u32,
    pub unit: Option<Written>,
}

// A cursor behind a character, with no escape begun.
fn behind(at: usize, unit: Option<Written>) -> Cursor
    ensures { result ≡ cursor_at at 0 0 unit }
{
    Cursor {
        at,
        left: 0,
        number: 0,
        unit,
    }
}

// White space stands in a text only between quotes.
fn is_dropped(quoted: bool, c: u32) -> bool
    ensures { result ≡ is_dropped quoted c }
{
    !quoted && is_white(c)
}

// A source up to a position, between quotes or not.
#[derive(Clone, Copy)]
struct Source<'a> {
    b: &'a [u8],
    to: usize,
    quoted: bool,
}

// One character of the source more.
fn advance(s: Source, k: Cursor) -> Cursor
    requires { (k.at < s.to) × (s.to ≤ length s.b.now) }
    ensures { Advanced s.entry.b.now s.entry.to s.entry.quoted k result }
{
    let c = see(s.b, k.at, s.to);
    let f = feed(k.left, k.number, c.value);
    let out = f.out;
    if out == PART {
        return Cursor {
            left: f.left,
            number: f.value,
            ..behind(c.next, None)
        };
    }
    if k.left != 0 {
        return behind(c.next, Some(canonical(out)));
    }
    if is_dropped(s.quoted, out) {
        return behind(c.next, None);
    }
    let raw = Written {
        slash: false,
        value: out,
    };
    behind(c.next, Some(raw))
}

// A cursor's character laid, if it has one: where it ends, if it fits.
fn lay(out: &mut [u8], at: usize, unit: Option<Written>) -> Option<usize>
    requires { (at ≤ length out.old) × IsGood unit }
    ensures { LaidTo (unit_of unit) out.old out.new at result }
{
    let Some(c) = unit else {
        return Some(at);
    };
    let marks = usize::from(c.slash);
    let size = marks + size_of(c.value);
    if out.len() - at < size {
        return None;
    }
    if c.slash {
        out[at] = b'\\';
    }
    put_char(out, at + marks, c.value);
    Some(at + size)
}

// The next character of a text, behind what leaves nothing; or the end of its source.
fn unit(s: Source, from: usize) -> Cursor
    requires { (from < s.to) × (s.to ≤ length s.b.now) }
    ensures { UnitAt s.entry.b.now from s.entry.to s.entry.quoted result }
{
    let mut k = behind(from, None);
    while k.unit.is_none() && k.at < s.to {
        k = advance(s, k);
    }
    k
}

// Bytes of the source as they stand, laid.
fn lay_run(b: &[u8], from: usize, to: usize, out: &mut [u8], at: usize) -> Option<usize>
    requires { (from ≤ to) × (to ≤ length b.now) × (at ≤ length out.old) }
    ensures { LaidTo (slice from to b.now) out.old out.new at result }
{
    let size = to - from;
    if out.len() - at < size {
        return None;
    }
    put(out, at, &b[from..], size);
    Some(at + size)
}

// A position of a source, and where what the source has up to there is laid.
#[derive(Clone, Copy)]
pub struct Front {
    pub at: usize,
    pub to: usize,
}

// A run of plain bytes, laid.
fn lay_plain(s: Source, from: usize, out: &mut [u8], at: usize) -> Option<Front>
    requires { (from ≤ s.to) × (s.to ≤ length s.b.now) × (at ≤ length out.old) }
    ensures { FrontTo s.entry.b.now from s.entry.to s.entry.quoted out.old out.new at result }
{
    let run = plain_run(s.b, from, s.to, s.quoted);
    let last = lay_run(s.b, from, run, out, at)?;
    Some(Front { at: run, to: last })
}

// What stands between two runs, and the run behind it.
fn lay_next(s: Source, from: usize, out: &mut [u8], at: usize) -> Option<Front>
    requires { (from < s.to) × (s.to ≤ length s.b.now) × (at ≤ length out.old) × Lies s.b.now from s.to }
    ensures { FrontTo s.entry.b.now from s.entry.to s.entry.quoted out.old out.new at result × IfSome result (λ (f : Front). from < f.at) }
{
    let k = unit(s, from);
    let last = lay(out, at, k.unit)?;
    lay_plain(s, k.at, out, last)
}

// The text of a source from `from` on, laid, a character and a run at a time.
fn lay_rest(s: Source, from: usize, out: &mut [u8], at: usize) -> Option<usize>
    requires { (s.to ≤ length s.b.now) × (at ≤ length out.old) × Lies s.b.now from s.to }
    ensures { LaidTo (span_text s.entry.b.now from s.entry.to s.entry.quoted) out.old out.new at result }
{
    let mut front = Front { at: from, to: at };
    while front.at < s.to {
        front = lay_next(s, front.at, out, front.to)?;
    }
    Some(front.to)
}

// The text of a source from `from` on, laid into `out` from `at` on. Most texts are one run.
fn lay_span(s: Source, from: usize, out: &mut [u8], at: usize) -> Option<usize>
    requires { (s.to ≤ length s.b.now) × (at ≤ length out.old) × Lies s.b.now from s.to }
    ensures { LaidTo (span_text s.entry.b.now from s.entry.to s.entry.quoted) out.old out.new at result }
{
    let front = lay_plain(s, from, out, at)?;
    lay_rest(s, front.at, out, front.to)
}

// Whether a character stands in bytes from a position on: where it ends.
fn match_char(out: &[u8], at: usize, end: usize, value: u32) -> Option<usize>
    requires { (at ≤ end) × (end ≤ length out.now) × (is_character_lem value ≡ true) }
    ensures { MatchedTo (char_bytes value) out.now at end result }
{
    if at == end {
        return None;
    }
    let c = see(out, at, end);
    if c.value == value { Some(c.next) } else { None }
}

fn match_slashed(out: &[u8], at: usize, end: usize, value: u32) -> Option<usize>
    requires { (at ≤ end) × (end ≤ length out.now) × (is_character_lem value ≡ true) }
    ensures { MatchedTo (0x5C ∷ char_bytes value) out.now at end result }
{
    if at == end || out[at] != b'\\' {
        return None;
    }
    match_char(out, at + 1, end, value)
}

// A cursor's character compared, if it has one.
fn matches(out: &[u8], at: usize, end: usize, unit: Option<Written>) -> Option<usize>
    requires { (at ≤ end) × (end ≤ length out.now) × IsGood unit }
    ensures { MatchedTo (unit_of unit) out.now at end result }
{
    match unit {
        None => Some(at),
        Some(c) if c.slash => match_slashed(out, at, end, c.value),
        Some(c) => match_char(out, at, end, c.value),
    }
}

// How many plain bytes from `from` on stand in `out` from `at` on.
fn same_run(s: Source, from: usize, out: &[u8], at: usize, end: usize) -> usize
    requires { (from ≤ s.to) × (s.to ≤ length s.b.now) × (at ≤ end) × (end ≤ length out.now) }
    ensures { SameRun s.entry.b.now from s.entry.to s.entry.quoted out.now at end result }
{
    let most = (plain_run(s.b, from, s.to, s.quoted) - from).min(end - at);
    for k in 0..most {
        if s.b[from + k] != out[at + k] {
            return k;
        }
    }
    most
}

// Whether the text of a source from `from` on stands in `out` from `at` on, by `end`: where it ends.
fn match_span(s: Source, from: usize, out: &[u8], at: usize, end: usize) -> Option<usize>
    requires { (s.to ≤ length s.b.now) × (at ≤ end) × (end ≤ length out.now) × Lies s.b.now from s.to }
    ensures { MatchedTo (span_text s.entry.b.now from s.entry.to s.entry.quoted) out.now at end result }
{
    let size = same_run(s, from, out, at, end);
    let mut i = from + size;
    let mut last = at + size;
    while i < s.to {
        let k = unit(s, i);
        let mid = matches(out, last, end, k.unit)?;
        let more = same_run(s, k.at, out, mid, end);
        i = k.at + more;
        last = mid + more;
    }
    Some(last)
}

// Whether what a literal has behind its string is this mark.
fn is_mark(b: &[u8], from: usize, to: usize, mark: &[u8]) -> bool
    requires { (to ≤ length b.now) × Lies b.now from to }
    ensures { result ≡ same_text_lem (span_text b.now from to false) mark.now }
{
    let source = Source {
        b,
        to,
        quoted: false,
    };
    let end = mark.len();
    match_span(source, from, mark, 0, end) == Some(end)
}

// A literal's datatype is xsd:string, which its text leaves out.
fn is_plain(b: &[u8], from: usize, to: usize) -> bool
    requires { (to ≤ length b.now) × Lies b.now from to }
    ensures { result ≡ same_text_lem (span_text b.now from to false) xsd_mark }
{
    is_mark(b, from, to, b"^^<http://www.w3.org/2001/XMLSchema#string>")
}

// Where a term's text lies in its source: its first terminal without marks, and what a literal has behind its string.
#[derive(Drop)]
pub struct Bounds {
    pub from: usize,
    pub to: usize,
    pub tail: usize,
}

fn parts(b: &[u8], end: usize, t: Span) -> Bounds
    requires { (end ≤ length b.now) × StandsThere b.now end t }
    ensures { PartsOf b.now end t result }
{
    match t.sort {
        Sort::Name => Bounds {
            from: t.from + 1,
            to: t.to - 1,
            tail: t.to - 1,
        },
        Sort::Blank => Bounds {
            from: t.from + 2,
            to: t.to,
            tail: t.to,
        },
        Sort::Literal => Bounds {
            from: t.from,
            to: t.to,
            tail: if is_plain(b, t.to, t.tail) {
                t.to
            } else {
                t.tail
            },
        },
    }
}

// The text of a term, laid into `out` from `at` on: where it ends, if it fits.
pub fn lay_term(b: &[u8], end: usize, t: Span, out: &mut [u8], at: usize) -> Option<usize>
    requires { (end ≤ length b.now) × (at ≤ length out.old) × StandsThere b.now end t }
    ensures { TermLaidTo b.now end t out.old out.new at result }
{
    let p = parts(b, end, t);
    let front = Source {
        b,
        to: p.to,
        quoted: t.sort == Sort::Literal,
    };
    let behind = Source {
        b,
        to: p.tail,
        quoted: false,
    };
    let last = lay_span(front, p.from, out, at)?;
    lay_span(behind, p.to, out, last)
}

// Whether the text of a term is the bytes of `text` from `from` up to `to`.
pub fn is_text_of(b: &[u8], end: usize, t: Span, text: &[u8], from: usize, to: usize) -> bool
    requires { (end ≤ length b.now) × (from ≤ to) × (to ≤ length text.now) × StandsThere b.now end t }
    ensures { TermCompared b.now end t text.now from to result }
{
    let p = parts(b, end, t);
    let front = Source {
        b,
        to: p.to,
        quoted: t.sort == Sort::Literal,
    };
    let behind = Source {
        b,
        to: p.tail,
        quoted: false,
    };
    let Some(last) = match_span(front, p.from, text, from, to) else {
        return false;
    };
    match_span(behind, p.to, text, last, to) == Some(to)
}
