// Escapes, a character at a time.
#![tactic(auto, unfolding(crate::specs::Classes::hex_value, crate::specs::Classes::is_digit_lem, crate::specs::Escapes::echar_of, crate::specs::Escapes::opened_by, crate::specs::Escapes::reckoned, crate::specs::Escapes::shifted, crate::specs::Escapes::hexed_by, crate::specs::Escapes::fed_by))]

ghost use Rattle.std.specs.Prelude.{◌≡◌};
ghost use Rattle.ntline.specs.Classes.{hex_value};
ghost use Rattle.ntline.specs.Escapes.{part, fed, echar_of, opened_by, reckoned, shifted, hexed_by, outside_by, fed_by};

use crate::classes::{is_character, is_hex};
use utf8::BAD;

// Nothing is given yet: the escape goes on. A number beside the characters, as `fed_by` and `resolved` in specs/ have it.
pub const PART: u32 = 0x110001;

pub const LAST: u32 = 0x10FFFF;

// Behind the backslash of an escape.
pub const BACKSLASH: u32 = 9;

// How many hex digits are left, the number so far, and the character given, PART or BAD.
#[derive(Drop)]
pub struct Fed {
    pub left: u32,
    pub value: u32,
    pub out: u32,
}

fn gives(out: u32) -> Fed
    ensures { result ≡ fed 0 0 out }
{
    Fed {
        left: 0,
        value: 0,
        out,
    }
}

fn goes_on(left: u32, value: u32) -> Fed
    ensures { result ≡ fed left value part }
{
    Fed {
        left,
        value,
        out: PART,
    }
}

// The number of a hex digit.
fn hex_value(c: u32) -> u32
    ensures { result ≡ hex_value c }
{
    match c {
        0x30..=0x39 => c - 0x30,
        0x41..=0x46 => c - 0x37,
        _ => c.saturating_sub(0x57),
    }
}

// One hex digit more; a number past the last character only grows.
fn shift(value: u32, digit: u32) -> u32
    ensures { result ≡ shifted value digit }
{
    if value > LAST || digit > 15 {
        return BAD;
    }
    value * 16 + digit
}

// The character that stands behind a backslash for another.
fn echar(c: u32) -> u32
    ensures { result ≡ echar_of c }
{
    match c {
        0x74 => 0x9,
        0x62 => 0x8,
        0x6E => 0xA,
        0x72 => 0xD,
        0x66 => 0xC,
        0x22 | 0x27 | 0x5C => c,
        _ => BAD,
    }
}

fn opened(c: u32) -> Fed
    ensures { result ≡ opened_by c }
{
    match c {
        0x75 => goes_on(4, 0),
        0x55 => goes_on(8, 0),
        _ => gives(echar(c)),
    }
}

fn reckon(left: u32, number: u32) -> Fed
    ensures { result ≡ reckoned left number }
{
    if left != 1 {
        return goes_on(left.saturating_sub(1), number);
    }
    let last = if is_character(number) { number } else { BAD };
    gives(last)
}

fn hexed(left: u32, value: u32, c: u32) -> Fed
    ensures { result ≡ hexed_by left value c }
{
    if !is_hex(c) {
        return gives(BAD);
    }
    reckon(left, shift(value, hex_value(c)))
}

// A character outside an escape: it stands for itself, or a backslash begins one.
fn outside(c: u32) -> Fed
    ensures { result ≡ outside_by c }
{
    match c {
        0x5C => goes_on(BACKSLASH, 0),
        PART => gives(BAD),
        _ => gives(c),
    }
}

// One character more.
pub fn feed(left: u32, value: u32, c: u32) -> Fed
    ensures { result ≡ fed_by left value c }
{
    match left {
        0 => outside(c),
        BACKSLASH => opened(c),
        _ => hexed(left, value, c),
    }
}
