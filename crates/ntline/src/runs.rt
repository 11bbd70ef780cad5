// Bytes passed over without a look at each as a character: they change nothing of a terminal's state, and stand for themselves in a text.
ghost use Rattle.std.specs.Prelude.{◌≡◌, true, ℕ, ◌+◌, ◌≤◌, ◌<◌, length, get_or};
ghost use Rattle.ntline.specs.Classes.{is_alpha_lem};
ghost use Rattle.ntline.specs.Runs.{plain_byte, label_byte, Run, SchemeTo};

use crate::classes::{is_alpha, is_scheme_char};

// Behind the bytes from `at` on that pass a test.
fn run<F: Fn(u8) -> bool>(b: &[u8], at: usize, end: usize, passes: F) -> usize
    requires within { (at ≤ end) × (end ≤ length b.now) }
    requires callable { F.IsAlwaysCallable passes }
    ensures later { at ≤ result }
    ensures inside { result ≤ end }
    ensures each { (k : ℕ) → at ≤ k → k < result → F.post passes (get_or b.now k 0) true }
{
    for (i, x) in b[at..end].iter().enumerate() {
        if !passes(*x) {
            return at + i;
        }
    }
    end
}

// As many bytes as are looked at together.
const BLOCK: usize = 8;

// A byte of an IRI that is below 0x80, or a blank where it may stand. Without a branch: the compiler looks at eight together.
#[tactic(auto, unfolding(crate::specs::Runs::plain_byte, crate::specs::Classes::is_iri_char_lem, crate::specs::Classes::is_barred, utf8::specs::Characters::is_character_lem))]
fn is_plain_byte(blank: bool, x: u8) -> bool
    ensures { result ≡ true → plain_byte blank x ≡ true }
{
    let within = (0x23 <= x) & (x <= 0x7A);
    let open = ((x != 0x3C) & (x != 0x3E)) & ((x != 0x5C) & (x != 0x5E));
    (within & (open & (x != 0x60))) | (blank & (x == 0x20))
}

// Whether a block is all such bytes. A fold without a branch: the compiler looks at the eight together.
fn all_plain(b: &[u8], at: usize, blank: bool) -> bool
    requires { at + 8 ≤ length b.now }
    ensures { result ≡ true → (k : ℕ) → k < 8 → plain_byte blank (get_or b.now (at + k) 0) ≡ true }
{
    let mut all = true;
    for x in &b[at..at + BLOCK] {
        all &= is_plain_byte(blank, *x);
    }
    all
}

// Behind the blocks from `at` on that are. A loop by positions: chunks would be counted, and the count multiplied back.
fn plain_blocks(b: &[u8], at: usize, end: usize, blank: bool) -> usize
    requires { (at ≤ end) × (end ≤ length b.now) }
    ensures { Run (plain_byte blank) b.now at end result }
{
    let mut i = at;
    while BLOCK <= end - i {
        if !all_plain(b, i, blank) {
            return i;
        }
        i += BLOCK;
    }
    i
}

// Behind such bytes from `at` on.
pub fn plain_run(b: &[u8], at: usize, end: usize, blank: bool) -> usize
    requires { (at ≤ end) × (end ≤ length b.now) }
    ensures { Run (plain_byte blank) b.now at end result }
{
    let behind = plain_blocks(b, at, end, blank);
    let plain = |x|
        ensures { result ≡ true → plain_byte blank x ≡ true }
    { is_plain_byte(blank, x) };
    run(b, behind, end, plain)
}

#[tactic(auto, unfolding(crate::specs::Runs::label_byte, crate::specs::Classes::is_name_char_lem, crate::specs::Classes::is_name_start, crate::specs::Classes::is_base, crate::specs::Classes::is_alpha_lem, crate::specs::Classes::is_digit_lem))]
fn is_label_byte(x: u8) -> bool
    ensures { result ≡ true → label_byte x ≡ true }
{
    matches!(x, b'a'..=b'z' | b'A'..=b'Z' | b'0'..=b':' | b'-' | b'_')
}

// Behind the bytes from `at` on that a label goes on with.
pub fn label_run(b: &[u8], at: usize, end: usize) -> usize
    requires { (at ≤ end) × (end ≤ length b.now) }
    ensures { Run label_byte b.now at end result }
{
    run(b, at, end, is_label_byte)
}

fn is_letter(x: u8) -> bool
    ensures { result ≡ is_alpha_lem x }
{
    is_alpha(u32::from(x))
}

// Behind the letters from `at` on.
pub fn letters_run(b: &[u8], at: usize, end: usize) -> usize
    requires { (at ≤ end) × (end ≤ length b.now) }
    ensures { Run is_alpha_lem b.now at end result }
{
    run(b, at, end, is_letter)
}

// Behind the colon of the scheme that begins at `at`; `at` where there is none.
pub fn scheme_run(b: &[u8], at: usize, end: usize) -> usize
    requires { (at ≤ end) × (end ≤ length b.now) }
    ensures { at < result → SchemeTo b.now at end result }
{
    if at == end {
        return at;
    }
    if !is_alpha(u32::from(b[at])) {
        return at;
    }
    for i in at + 1..end {
        let x = u32::from(b[i]);
        if x == 0x3A {
            return i + 1;
        }
        if !is_scheme_char(x) {
            return at;
        }
    }
    at
}
