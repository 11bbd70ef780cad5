// Which bytes of a names list are a legal text: one that reading could give.
ghost use Rattle.std.specs.Prelude.{◌≡◌, true, ◌≤◌, length};
ghost use Rattle.std.proofs.Math.Seq.{slice};
ghost use Rattle.utf8.specs.Texts.{seen};
ghost use Rattle.nttext.specs.Texts.{is_legal_text};
ghost use Rattle.nttext.specs.Inner.{bare_run};

use crate::texts::is_text_of;
use ntline::classes::is_label_start;
use ntline::lexing::{Kind, State, kind_of, stepped};
use ntline::lines::{Sort, term as term_at};
use ntline::runs::{label_run, plain_run, scheme_run};
use utf8::see;

// The state behind the bytes from `from` up to `to`; Dead where they have an escape.
fn state_behind(text: &[u8], from: usize, to: usize, first: State) -> State
    requires { (from ≤ to) × (to ≤ length text.now) }
    ensures { result ≡ bare_run first (seen text.now from to) }
{
    let mut state = first;
    let mut i = from;
    while i < to {
        let c = see(text, i, to);
        if c.value == 0x5C {
            return State::Dead;
        }
        state = stepped(state, c.value);
        i = c.next;
    }
    state
}

// Whether the bytes are a scheme, a colon and plain bytes: a name's text, as most are.
fn plain_name(text: &[u8], from: usize, to: usize) -> bool
    requires { (from ≤ to) × (to ≤ length text.now) }
    ensures { result ≡ true → is_legal_text 0 (slice from to text.now) ≡ true }
{
    let behind = scheme_run(text, from, to);
    from < behind && plain_run(text, behind, to, false) == to
}

fn legal_name(text: &[u8], from: usize, to: usize) -> bool
    requires { (from ≤ to) × (to ≤ length text.now) }
    ensures { result ≡ is_legal_text 0 (slice from to text.now) }
{
    if plain_name(text, from, to) {
        return true;
    }
    let inside = state_behind(text, from, to, State::Iri(0, 0, 0));
    kind_of(stepped(inside, 0x3E)) == Kind::Iri
}

// Whether the bytes are a label below 0x80 without a dot.
fn plain_label(text: &[u8], from: usize, to: usize) -> bool
    requires { (from ≤ to) × (to ≤ length text.now) }
    ensures { result ≡ true → is_legal_text 1 (slice from to text.now) ≡ true }
{
    if from == to || !is_label_start(u32::from(text[from])) {
        return false;
    }
    label_run(text, from, to) == to
}

fn legal_blank(text: &[u8], from: usize, to: usize) -> bool
    requires { (from ≤ to) × (to ≤ length text.now) }
    ensures { result ≡ is_legal_text 1 (slice from to text.now) }
{
    if plain_label(text, from, to) {
        return true;
    }
    kind_of(state_behind(text, from, to, State::Colon)) == Kind::Label
}

fn legal_literal(text: &[u8], from: usize, to: usize) -> bool
    requires { (from ≤ to) × (to ≤ length text.now) }
    ensures { result ≡ is_legal_text 2 (slice from to text.now) }
{
    let Ok(t) = term_at(text, from, to) else {
        return false;
    };
    if t.sort != Sort::Literal || t.tail != to {
        return false;
    }
    is_text_of(text, to, t, text, from, to)
}

// Whether the bytes from `from` up to `to` are a legal text of a sort.
pub fn legal(sort: u16, text: &[u8], from: usize, to: usize) -> bool
    requires { (from ≤ to) × (to ≤ length text.now) }
    ensures { result ≡ is_legal_text sort (slice from to text.now) }
{
    match sort {
        term::NAME => legal_name(text, from, to),
        term::BLANK => legal_blank(text, from, to),
        term::LITERAL => legal_literal(text, from, to),
        _ => false,
    }
}
